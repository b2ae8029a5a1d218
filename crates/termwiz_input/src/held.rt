// What is held back of the text of an open paste: bytes that may be the beginning of its end, or of a character.
ghost use Rattle.std.specs.Prelude.{◌≡◌, ◌≢◌, ◌-◌, ◌≤◌, ◌↔◌, [], length, take, drop, IsTrue};
ghost use Rattle.termwiz_keys.specs.Introducers.{END};
ghost use Rattle.termwiz_grammar.specs.Grammar.{IsUnfinishedCharacter};
ghost use Rattle.termwiz_grammar.specs.PasteParts.{EndsWith, IsHeld};
ghost use Rattle.termwiz_input.specs.HeldLengths.{IsCharacterBegun, IsEndBegun};

use crate::head::{character_at, ends_within_character};
use crate::paste::PASTE_END;

// What properly begins a character has fewer bytes than this.
const LONGEST_CHARACTER: usize = 4;

// Whether so many first bytes of the end of a paste end the text.
fn ends_with_end(text: &[u8], len: usize) -> bool
    requires { len ≤ 6 }
    ensures { IsTrue result ↔ EndsWith text.now (take len END) }
{
    text.ends_with(&PASTE_END[..len])
}

// How many bytes, at the end of the text, properly begin the end of a paste: as many as can be.
fn end_begun(text: &[u8]) -> usize
    ensures { IsEndBegun text.now result }
{
    let mut len = PASTE_END.len() - 1;
    while len > 0 && !ends_with_end(text, len) {
        len -= 1;
    }
    len
}

// Whether the text properly begins a character.
fn begins_character(text: &[u8]) -> bool
    requires { text.now ≢ [] }
    ensures { IsTrue result ↔ IsUnfinishedCharacter text.now }
{
    character_at(text).is_none() && ends_within_character(text)
}

// How many bytes, at the end of the text, properly begin a character.
fn character_begun(text: &[u8]) -> usize
    ensures { IsCharacterBegun text.now result }
{
    let end = LONGEST_CHARACTER.min(text.len() + 1);
    for len in 1..end {
        if begins_character(&text[text.len() - len..]) {
            return len;
        }
    }
    0
}

// How many bytes at the end of the text of an open paste are held back.
pub(crate) fn held_len(text: &[u8]) -> usize
    ensures within { result ≤ length text.now }
    ensures held { IsHeld text.now (drop (length text.now - result) text.now) }
{
    let len = end_begun(text);
    if len > 0 {
        return len;
    }
    character_begun(text)
}
