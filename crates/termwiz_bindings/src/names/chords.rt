// The names of chords: those of keys, parted by blanks.
ghost use Rattle.std.specs.Prelude.{◌≡◌, ◌+◌, ◌<◌, ◌^◌, ◌++◌, ◌∷◌, [], Ok, Err, length, nat_lt, OnOk, MatchResult, string_bytes, if◌then◌else◌};
ghost use Rattle.std.specs.Str.{chars};
ghost use Rattle.termwiz_bindings.specs.Names.{printed};
ghost use Rattle.termwiz_bindings.specs.ChordNames as rules;

use super::keys::read_key;
use super::printing::push_press;
use super::{ReadError, ReadErrorKind};
use crate::chord::{Chord, MAX_KEYS};
use crate::press::{KeyPress, split_first};
use std::alloc::AllocError;

// Whether the byte parts keys.
fn is_blank(byte: u8) -> bool
    ensures { result ≡ rules.is_blank byte }
{
    byte == b' ' || byte == b'\t'
}

// Whether the character is a control character but the tab.
fn is_refused(c: char) -> bool
    ensures { result ≡ rules.is_refused c }
{
    c.is_control() && c != '\t'
}

// The byte where the first such character starts.
fn control_at(text: &str) -> Option<usize>
    ensures { result ≡ rules.control_at 0 (chars text.now) }
{
    let mut at = 0;
    let mut rest = text;
    while let Some((c, behind)) = split_first(rest) {
        if is_refused(c) {
            return Some(at);
        }
        at += c.len_utf8();
        rest = behind;
    }
    None
}

// Puts the press of a key's text behind the others. Between two blanks no key stands.
fn push_key(chord: &mut Chord, at: usize, key: &[u8]) -> Result<(), ReadError>
    requires { at + length key.now < 2 ^ 64 }
    ensures { MatchResult result (λ done. rules.with_key chord.old at key.now ≡ Ok chord.new) (λ error. rules.with_key chord.old at key.now ≡ Err error) }
{
    if key.is_empty() {
        return Ok(());
    }
    if chord.len() >= MAX_KEYS {
        return Err(ReadError {
            kind: ReadErrorKind::TooLong,
            at,
        });
    }
    let press = read_key(at, key)?;
    chord.push(press);
    Ok(())
}

// The presses of a text's keys.
fn read_keys(text: &[u8]) -> Result<Chord, ReadError>
    requires { length text.now < 2 ^ 64 }
    ensures { MatchResult result (λ chord. rules.read_keys [] 0 [] text.now ≡ Ok chord) (λ error. rules.read_keys [] 0 [] text.now ≡ Err error) }
{
    let mut chord = Chord::new();
    let mut start = 0;
    for (i, byte) in text.iter().enumerate() {
        if !is_blank(*byte) {
            continue;
        }
        push_key(&mut chord, start, &text[start..i])?;
        start = i + 1;
    }
    push_key(&mut chord, start, &text[start..])?;
    Ok(chord)
}

// The chord that a text names.
#[tactic(auto, unfolding(crate::specs::ChordNames::read))]
pub(super) fn read_chord(text: &str) -> Result<Chord, ReadError>
    ensures { MatchResult result (λ chord. rules.read text.now ≡ Ok chord) (λ error. rules.read text.now ≡ Err error) }
{
    if let Some(at) = control_at(text) {
        return Err(ReadError {
            kind: ReadErrorKind::ControlCharacter,
            at,
        });
    }
    let chord = read_keys(text.as_bytes())?;
    if chord.is_empty() {
        return Err(ReadError {
            kind: ReadErrorKind::Empty,
            at: 0,
        });
    }
    Ok(chord)
}

// Appends the name of the press at a place of a chord, with a space before it unless it is the first.
fn push_next(out: &mut String, place: usize, press: KeyPress) -> Result<(), AllocError>
    ensures { OnOk result (string_bytes out.new ≡ string_bytes out.old ++ ((if nat_lt 0 place then 32 ∷ [] else []) ++ printed press)) }
{
    if place > 0 {
        out.push(' ')?;
    }
    push_press(out, press)
}

// Appends the names of a chord's presses, with spaces between them.
pub(super) fn push_chord(out: &mut String, chord: &Chord) -> Result<(), AllocError>
    ensures { OnOk result (string_bytes out.new ≡ string_bytes out.old ++ rules.printed_chord chord.now) }
{
    for place in 0..chord.len() {
        let Some(press) = chord.get(place) else {
            return Ok(());
        };
        push_next(out, place, press)?;
    }
    Ok(())
}
