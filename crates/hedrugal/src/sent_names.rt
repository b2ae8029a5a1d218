// The call that writes what a terminal sends for named keys.
ghost use Rattle.std.specs.Prelude.{◌≡◌, ◌≢◌, ◌↔◌, ◌⊎◌, Some, None, true, IfOk, IfErr, IfSome, IfNone, string_bytes};
ghost use Rattle.termwiz_bindings.specs.ChordNames.{is_blank};
ghost use Rattle.hedrugal.specs.NameCalls.{IsNoName};
ghost use Rattle.hedrugal.specs.SentNames as rules;
ghost use Rattle.hedrugal.specs.SentNames.{Appends, AreNoModes, AreSent, HasNoSequence, HasUnsentName, IsNotSent, IsUnsent, SentNames};
ghost use Rattle.hedrugal.specs.declared.sent_names.NotSent.TheVariants as reasons;

use crate::copying::write_out;
use crate::modes::{CModes, modes_of};
use crate::name_calls::chord_named;
use crate::sender_calls::modifiers_in;
use crate::status::{BAD_NUMBER, NO_MEMORY, OK, REFUSED_KEY};
use std::alloc::{AllocError, Global};
use termwiz_base::KittyKeyboardFlags;
use termwiz_bindings::chord::Chord;
use termwiz_bindings::press::KeyPress;
use termwiz_input::input::{EncodeError, KeyCode, KeyCodeEncodeModes, KeyboardEncoding};
use termwiz_input_extended::types::{KeyEventKind, KeyReport, KeyText, ReportedKey};
use termwiz_kitty::encode::{KittyEncodeError, encode_kitty};

// Kitty's bits of Shift and Ctrl.
const SHIFT: u8 = 1;

const CTRL: u8 = 4;

// Why a chord isn't sent.
#[derive(Clone, Copy)]
pub(crate) enum NotSent {
    // Nothing is sent for the press at this place.
    Place(usize),
    // Memory was refused.
    Memory,
}

impl From<AllocError> for NotSent {
    ghost from_gives = { λ _ e. e ≡ reasons.Memory };

    fn from(_e: AllocError) -> NotSent {
        NotSent::Memory
    }
}

// The press of the same key with Ctrl held too.
fn with_ctrl(press: KeyPress) -> KeyPress
    ensures { result ≡ rules.with_ctrl press }
{
    KeyPress::new(press.key(), press.held() | CTRL).unwrap_or(press)
}

// The character of a press without modifiers.
fn bare_character(press: KeyPress) -> Option<char>
    ensures { result ≡ rules.bare_character press }
{
    match press.key() {
        ReportedKey::Named(KeyCode::Char(c)) if press.held() == 0 => Some(c),
        _ => None,
    }
}

// The character that a key types with Shift, if every keyboard has the same.
fn with_shift(key: ReportedKey) -> Option<char>
    ensures { result ≡ rules.with_shift key }
{
    bare_character(KeyPress::new(key, SHIFT)?)
}

// What a press types.
fn typed_text(alloc: Global, press: KeyPress) -> Result<String, AllocError>
    ensures { IfOk result (λ text. string_bytes text ≡ rules.typed_text press) }
{
    let mut text = String::new(alloc);
    if let Some(c) = press.text() {
        text.push(c)?;
    }
    Ok(text)
}

// The report that a keyboard makes of a press.
fn keyboard_report(alloc: Global, press: KeyPress) -> Result<KeyReport, AllocError>
    ensures { IfOk result (λ report. report ≡ rules.keyboard_report press) }
{
    let text = typed_text(alloc, press)?;
    let shown = with_ctrl(press);
    let modifiers = press.held() | (shown.held() & SHIFT);
    Ok(KeyReport {
        key: shown.key(),
        modifiers,
        kind: KeyEventKind::Press,
        shifted: if modifiers & SHIFT != 0 {
            with_shift(shown.key())
        } else {
            None
        },
        base: None,
        text: KeyText::new(text),
    })
}

// What is sent, if anything is. It fails if memory is refused.
type MaybeText = Result<Option<String>, AllocError>;

// What is sent for a press by Kitty's protocol under these flags.
fn kitty_text(alloc: Global, press: KeyPress, flags: KittyKeyboardFlags) -> MaybeText
    ensures some { IfOk result (λ sent. IfSome sent (λ text. rules.kitty_sent flags press ≡ Some (string_bytes text))) }
    ensures none { IfOk result (λ sent. IfNone sent (HasNoSequence flags press)) }
{
    let report = keyboard_report(alloc, press)?;
    match encode_kitty(alloc, &report, flags) {
        Ok(text) => Ok(Some(text)),
        Err(KittyEncodeError::UnknownKey) => Ok(None),
        Err(KittyEncodeError::TooLong) => Ok(None),
        Err(KittyEncodeError::Memory) => Err(AllocError),
    }
}

// What is sent for a press without that protocol.
fn plain_text(alloc: Global, press: KeyPress, modes: KeyCodeEncodeModes) -> MaybeText
    ensures some { IfOk result (λ sent. IfSome sent (λ text. rules.plain_sent modes press ≡ Some (string_bytes text))) }
    ensures none { IfOk result (λ sent. IfNone sent (rules.plain_sent modes press ≡ None)) }
{
    let ReportedKey::Named(key) = press.key() else {
        return Ok(None);
    };
    let Some(modifiers) = modifiers_in(press.held()) else {
        return Ok(None);
    };
    match key.encode(alloc, modifiers, modes, true) {
        Ok(text) => Ok(Some(text)),
        Err(EncodeError::UnhandledFunctionKey(_)) => Ok(None),
        Err(EncodeError::Memory) => Err(AllocError),
    }
}

// What is sent for a press in these modes.
fn press_text(alloc: Global, press: KeyPress, modes: KeyCodeEncodeModes) -> MaybeText
    ensures some { IfOk result (λ sent. IfSome sent (λ text. rules.press_sent modes press ≡ string_bytes text)) }
    ensures none { IfOk result (λ sent. IfNone sent (IsUnsent modes press)) }
{
    match modes.encoding {
        KeyboardEncoding::Kitty(flags) => kitty_text(alloc, press, flags),
        _ => plain_text(alloc, press, modes),
    }
}

// Appends what is sent for a press. False if nothing is.
fn push_press(
    alloc: Global,
    sent: &mut String,
    press: KeyPress,
    modes: KeyCodeEncodeModes,
) -> Result<bool, AllocError>
    ensures { IfOk result (λ is_sent. Appends modes press (string_bytes sent.old) is_sent (string_bytes sent.new)) }
{
    let Some(text) = press_text(alloc, press, modes)? else {
        return Ok(false);
    };
    if text.is_empty() {
        return Ok(false);
    }
    sent.push_str(text.as_str())?;
    Ok(true)
}

// What is sent for the presses of a chord, one after another.
fn chord_text(alloc: Global, chord: &Chord, modes: KeyCodeEncodeModes) -> Result<String, NotSent>
    ensures sent { IfOk result (λ text. AreSent modes chord.now (string_bytes text)) }
    ensures not_sent { IfErr result (λ why. IsNotSent modes chord.now why) }
{
    let mut sent = String::new(alloc);
    for place in 0..chord.len() {
        let Some(press) = chord.get(place) else {
            return Ok(sent);
        };
        if !push_press(alloc, &mut sent, press, modes)? {
            return Err(NotSent::Place(place));
        }
    }
    Ok(sent)
}

// Whether the byte parts names.
fn is_blank(byte: u8) -> bool
    ensures { result ≡ is_blank byte }
{
    byte == b' ' || byte == b'\t'
}

// The byte where the name of the press at a place starts, or the length of the text.
fn name_start(text: &[u8], place: usize) -> usize
    ensures { result ≡ rules.name_start true place text.now }
{
    let mut names_before = place;
    let mut is_behind_blank = true;
    for at in 0..text.len() {
        if is_blank(text[at]) {
            is_behind_blank = true;
            continue;
        }
        if !is_behind_blank {
            continue;
        }
        if names_before == 0 {
            return at;
        }
        names_before -= 1;
        is_behind_blank = false;
    }
    text.len()
}

/// Writes what a terminal in these modes sends for the presses of a chord that has this name. `out` has as much of the bytes as it has room for,
/// and `sent_len` is how many they are; else that is 0. `at` is the byte where what is wrong with the text starts, or the name of a press for
/// which nothing is sent.
#[unsafe(no_mangle)]
pub extern "C" fn hed_send_names(
    alloc: Global,
    text: &[u8],
    modes: &CModes,
    out: &mut [u8],
    sent_len: &mut usize,
    at: &mut usize,
) -> u32
    ensures sent { result ≡ OK → SentNames text.now modes.now out.old out.new sent_len.new }
    ensures refused_key { result ≡ REFUSED_KEY → HasUnsentName text.now modes.now at.new }
    ensures bad_number { result ≡ BAD_NUMBER ↔ AreNoModes modes.now }
    ensures wrong { result ≢ OK → result ≢ NO_MEMORY → result ≢ BAD_NUMBER → result ≢ REFUSED_KEY → IsNoName text.now result at.new }
    ensures nothing_wrong { (result ≡ OK) ⊎ ((result ≡ NO_MEMORY) ⊎ (result ≡ BAD_NUMBER)) → at.new ≡ 0 }
    ensures none { result ≢ OK → sent_len.new ≡ 0 }
    ensures same { result ≢ OK → out.new ≡ out.old }
{
    *sent_len = 0;
    *at = 0;
    let Some(modes) = modes_of(modes) else {
        return BAD_NUMBER;
    };
    let chord = match chord_named(text) {
        Ok(chord) => chord,
        Err(bad) => {
            *at = bad.at;
            return bad.status;
        }
    };
    match chord_text(alloc, &chord, modes) {
        Ok(sent) => write_out(sent.as_bytes(), out, sent_len),
        Err(NotSent::Place(place)) => {
            *at = name_start(text, place);
            REFUSED_KEY
        }
        Err(NotSent::Memory) => NO_MEMORY,
    }
}
