// Pasted texts, as a terminal sends them in xterm's bracketed paste mode: between ESC `[200~` and ESC `[201~`.
ghost use Rattle.std.specs.Prelude.{◌≡◌, ◌↔◌, Bool, IsTrue, OnErr, IfOk, IfSome, IfNone};
ghost use Rattle.std.specs.Str.Lossy.{utf8_lossy};
ghost use Rattle.termwiz_keys.specs.declared.types.InputEvent.{InputEvent as Event};
ghost use Rattle.termwiz_keymap.specs.Bytes.{Begins};
ghost use Rattle.termwiz_keys.specs.Introducers.{START};
ghost use Rattle.termwiz_input.specs.Matches.{IsItemAt};
ghost use Rattle.termwiz_grammar.specs.Grammar.{IsRest};
ghost use Rattle.termwiz_grammar.specs.WaitingKinds.{IsOpenPaste};
ghost use Rattle.termwiz_input.specs.PasteSearch.{IsPasteSoFar, NoEndBefore};

use bstr::ByteSlice;
use std::alloc::{AllocError, Global};
use termwiz_keymap::bytes::find_from;
use termwiz_keys::types::{InputEvent, PastedText};

// What comes before a pasted text, and after it.
pub(crate) const PASTE_START: &[u8] = b"\x1b[200~";

pub(crate) const PASTE_END: &[u8] = b"\x1b[201~";

/// Whether a paste begins the text.
// By a pattern, which is quicker than a comparison with `PASTE_START`.
#[inline(always)]
pub fn begins_paste(text: &[u8]) -> bool
    ensures { IsTrue result ↔ Begins START text.now }
{
    matches!(text, [b'\x1b', b'[', b'2', b'0', b'0', b'~', ..])
}

// Pasted bytes as text, with U+FFFD for what is no character.
pub(crate) fn lossy_text(alloc: Global, bytes: &[u8]) -> Result<PastedText, AllocError>
    ensures { IfOk result (λ text. text ≡ utf8_lossy bytes.now) }
{
    let mut text = String::new(alloc);
    bytes.to_str_lossy_into(&mut text)?;
    Ok(PastedText::new(text))
}

// The bytes of the text of the paste that begins a text, and the number of all of its bytes. `None` if its end isn't there.
pub(crate) fn pasted_bytes(text: &[u8], searched: usize) -> Option<(&[u8], usize)>
    requires begins { Begins START text.now }
    requires searched { NoEndBefore text.now searched }
    ensures item { IfSome result (λ found. (more : Bool) → IsItemAt text.now more (Event.Paste (utf8_lossy found.0.now)) found.1) }
    ensures none { IfNone result ((more : Bool) → IsRest text.now more) }
{
    match find_from(text, searched.max(PASTE_START.len()), PASTE_END) {
        Some(end) => Some((&text[PASTE_START.len()..end], end + PASTE_END.len())),
        None => None,
    }
}

// Whether the paste that begins a text is open: its end isn't there.
pub(crate) fn lacks_end(text: &[u8], searched: usize) -> bool
    requires begins { Begins START text.now }
    requires searched { NoEndBefore text.now searched }
    ensures { IsTrue result ↔ IsOpenPaste text.now }
{
    find_from(text, searched.max(PASTE_START.len()), PASTE_END).is_none()
}

// The text so far of an open paste. `None` if the text is none, or has the end of its paste.
#[tactic(auto, using(crate::proofs::lemmas::pastes::EndSearch::still_open))]
pub(crate) fn paste_so_far(alloc: Global, text: &[u8]) -> Result<Option<InputEvent>, AllocError>
    ensures event { IfOk result (λ found. IfSome found (IsPasteSoFar text.now)) }
    ensures none { IfOk result (λ found. IfNone found (¬ IsOpenPaste text.now)) }
    ensures refused { OnErr result (IsOpenPaste text.now) }
{
    if !begins_paste(text) {
        return Ok(None);
    }
    match find_from(text, PASTE_START.len(), PASTE_END) {
        Some(_) => Ok(None),
        None => {
            let pasted = lossy_text(alloc, &text[PASTE_START.len()..])?;
            Ok(Some(InputEvent::Paste(pasted)))
        }
    }
}

// Where to look next for the end of an open paste, after it was found nowhere: it may have begun among the last five bytes.
pub(crate) fn next_search(text: &[u8]) -> usize
    requires begins { Begins START text.now }
    requires waits { (more : Bool) × IsRest text.now more }
    ensures { NoEndBefore text.now result }
{
    text.len().saturating_sub(PASTE_END.len() - 1)
}
