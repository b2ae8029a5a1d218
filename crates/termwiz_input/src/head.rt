// The head of a text: the longest sequence that begins it, or else the character that does, or else its first byte.
// A sequence is a row of the sequence table or an SGR mouse report. Rows and characters are matched here; `head_at` in front.rt is for any
// text.
ghost use Rattle.std.specs.Prelude.{◌≡◌, ◌≢◌, ◌↔◌, [], true, None, IfSome, IfNone, IsSome, IsTrue};
ghost use Rattle.termwiz_input.specs.MouseReportAnswers.{IsBegun};
ghost use Rattle.termwiz_grammar.specs.Grammar.{IsOpen, IsUnfinishedSequence, IsUnfinishedCharacter};
ghost use Rattle.termwiz_input.specs.Matches.{HasHead, HasNoHeadYet, NoMouseReportBegins, NoSequenceBegins, character_of};
ghost use Rattle.termwiz_grammar.specs.Table.{table};

use bstr::decode_utf8;
use std::str;
use termwiz_keymap::keymap::{Found, KeyMap};
use termwiz_keys::types::{KeyEvent, MouseEvent};

// The head of a text, and the number of its bytes. `Broken` is one byte, which begins no character.
#[derive(Drop)]
pub(crate) enum MatchedHead<'k> {
    Row(&'k KeyEvent, usize),
    Report(MouseEvent, usize),
    Character(char, usize),
    Broken,
}

/// The character of UTF-8 at the front of a text, and the number of its bytes. `None` if no whole character is there.
#[tactic(auto, unfolding(crate::specs::Matches::character_of))]
pub fn character_at(text: &[u8]) -> Option<(char, usize)>
    ensures { result ≡ character_of text.now }
{
    let (found, len) = decode_utf8(text);
    found.map(|character| (character, len))
}

// Whether a text that no character begins properly begins one: the text ends within it. `from_utf8` stops at such a text's
// first byte, however long the text is.
pub(crate) fn ends_within_character(text: &[u8]) -> bool
    requires some { text.now ≢ [] }
    requires no_character { character_of text.now ≡ None }
    ensures { IsTrue result ↔ IsUnfinishedCharacter text.now }
{
    match str::from_utf8(text) {
        Ok(_) => false,
        Err(fault) => fault.error_len().is_none(),
    }
}

// Whether more bytes may complete a character, where none begins the text.
fn awaits_character(text: &[u8], maybe_more: bool) -> bool
    requires some { text.now ≢ [] }
    requires no_character { character_of text.now ≡ None }
    ensures { IsTrue result ↔ ((maybe_more ≡ true) × IsUnfinishedCharacter text.now) }
{
    maybe_more && ends_within_character(text)
}

// The head of a text that no sequence begins or may yet begin: a character, or else a broken byte. `None` if more bytes
// may complete a character, and if the text is empty.
#[inline(always)]
pub(crate) fn character_or_byte_at<'k>(text: &[u8], maybe_more: bool) -> Option<MatchedHead<'k>>
    requires no_sequence { NoSequenceBegins text.now }
    requires finished { maybe_more ≡ true → ¬ IsUnfinishedSequence text.now }
    ensures closed { IsSome result → ¬ IsOpen text.now maybe_more }
    ensures head { IfSome result (HasHead text.now) }
    ensures waits { IfNone result (HasNoHeadYet text.now maybe_more) }
{
    match character_at(text) {
        Some((character, len)) => Some(MatchedHead::Character(character, len)),
        None if text.is_empty() => None,
        None if awaits_character(text, maybe_more) => None,
        None => Some(MatchedHead::Broken),
    }
}

// The head of a text that no mouse report begins or may yet begin: a row, or else a character or a broken byte. `None` if more bytes may
// change it, and if the text is empty.
pub(crate) fn row_or_character_at<'k>(
    key_map: &'k KeyMap<KeyEvent>,
    text: &[u8],
    maybe_more: bool,
) -> Option<MatchedHead<'k>>
    requires rows { key_map.now ≡ table }
    requires no_report { NoMouseReportBegins text.now }
    requires not_begun { maybe_more ≡ true → ¬ IsBegun text.now }
    ensures closed { IsSome result → ¬ IsOpen text.now maybe_more }
    ensures head { IfSome result (HasHead text.now) }
    ensures waits { IfNone result (HasNoHeadYet text.now maybe_more) }
{
    match key_map.lookup(text, maybe_more) {
        Found::Exact(len, key) => Some(MatchedHead::Row(key, len)),
        Found::Ambiguous(..) => None,
        Found::NeedData if maybe_more => None,
        Found::NeedData => character_or_byte_at(text, maybe_more),
        Found::None => character_or_byte_at(text, maybe_more),
    }
}
