//! Pasted texts to the bytes that a terminal sends for them.
ghost use Rattle.std.specs.Prelude.{◌≡◌, ◌++◌, ◌<◌, ◌≤◌, ◌↔◌, length, take, encode_utf8, All, IsTrue, IfOk, OnOk};
ghost use Rattle.termwiz_senders.specs.Pastes as rules;
ghost use Rattle.termwiz_senders.specs.Pastes.{IsMadeSafe, IsPlain, paste_text, safe_text};

use bstr::{ByteVec, decode_lossy};
use std::alloc::{AllocError, Global};
use termwiz_keymap::bytes::begins_with;

// What comes before a pasted text, and after it.
pub(crate) const PASTE_START: &[u8] = b"\x1b[200~";

pub(crate) const PASTE_END: &[u8] = b"\x1b[201~";

/// What a terminal sends for a pasted text: the text made safe, and in bracketed paste mode ESC `[200~` before it and ESC `[201~` after it.
///
/// The text is read as UTF-8, with U+FFFD for what is none. Made safe, each line end is CR, as Enter sends it: CR LF is one line end, and LF
/// another. HT stays. Any other control character becomes one that does nothing: those below U+0020 and U+007F their pictures, U+2400 to
/// U+241F and U+2421, and U+0080 to U+009F become U+FFFD. So no ESC is left, and no text can end its paste.
///
/// Its only error is that memory was refused. Then nothing is kept.
pub fn encode_paste(alloc: Global, text: &[u8], bracketed: bool) -> Result<Vec<u8>, AllocError>
    ensures { IfOk result (λ sent. sent.items ≡ paste_text text.now bracketed) }
{
    let (start, end): (&[u8], &[u8]) = if bracketed {
        (PASTE_START, PASTE_END)
    } else {
        (b"", b"")
    };
    let mut sent = Vec::with_capacity(alloc, start.len() + text.len() + end.len())?;
    sent.extend_from_slice(start)?;
    push_safe(&mut sent, text)?;
    sent.extend_from_slice(end)?;
    Ok(sent)
}

// Appends a text made safe.
fn push_safe(sent: &mut Vec<u8>, text: &[u8]) -> Result<(), AllocError>
    ensures { OnOk result (sent.new.items ≡ sent.old.items ++ safe_text text.now) }
{
    let mut rest = text;
    while !rest.is_empty() {
        let len = push_front(sent, rest)?;
        rest = &rest[len..];
    }
    Ok(())
}

// Appends the front of a text made safe, and returns how many bytes that front has. It is a run of plain characters, or else a line end or one
// character.
fn push_front(sent: &mut Vec<u8>, text: &[u8]) -> Result<usize, AllocError>
    requires { 0 < length text.now }
    ensures { IfOk result (λ len. rules.Appends sent.old.items sent.new.items text.now len) }
{
    let len = plain_len(text);
    if len > 0 {
        sent.extend_from_slice(&text[..len])?;
        return Ok(len);
    }
    let (character, len) = safe_front(text);
    sent.push_char(character)?;
    Ok(len)
}

// Whether a byte is a plain character: printable ASCII or HT, which stays as it is.
fn is_plain(byte: u8) -> bool
    ensures { IsTrue result ↔ IsPlain byte }
{
    byte == b'\t' || (byte >= b' ' && byte <= b'~')
}

// How many plain characters begin a text.
fn plain_len(text: &[u8]) -> usize
    ensures inside { result ≤ length text.now }
    ensures plain { All IsPlain (take result text.now) }
{
    for len in 0..text.len() {
        if !is_plain(text[len]) {
            return len;
        }
    }
    text.len()
}

// What the front of a text becomes, and how many bytes it has: a line end of two characters, or else one character.
fn safe_front(text: &[u8]) -> (char, usize)
    requires { 0 < length text.now }
    ensures { IsMadeSafe text.now result.1 (encode_utf8 result.0) }
{
    if begins_with(text, b"\r\n") {
        return ('\r', 2);
    }
    let (character, len) = decode_lossy(text);
    (safe_character(character), len)
}

// What a character becomes.
#[tactic(auto, unfolding(crate::specs::Pastes::safe_character))]
fn safe_character(character: char) -> char
    ensures { result ≡ rules.safe_character character }
{
    match character {
        '\t' => '\t',
        '\n' | '\r' => '\r',
        '\0'..='\x1f' => picture(character),
        '\x7f' => '\u{2421}',
        '\u{80}'..='\u{9f}' => '\u{fffd}',
        _ => character,
    }
}

// The picture of a control character.
fn picture(control: char) -> char
    requires { control < 0x20 }
    ensures { result ≡ rules.picture control }
{
    char::from_u32(0x2400 + u32::from(control)).unwrap_or('\u{2400}')
}
