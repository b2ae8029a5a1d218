// The press of a key's name.
ghost use Rattle.std.specs.Prelude.{◌≡◌, ◌+◌, ◌<◌, ◌^◌, [], length, IfSome, if◌then◌else◌};
ghost use Rattle.std.specs.Option.{option_copied};
ghost use Rattle.std.specs.Str.{chars};
ghost use Rattle.termwiz_extended_events.specs.ReportedKeys.{entry_at};
ghost use Rattle.termwiz_bindings.specs.declared.names.ReadErrorKind.TheVariants.{ModifierTwice};
ghost use Rattle.termwiz_bindings.specs.Presses.{has_any};
ghost use Rattle.termwiz_bindings.specs.Names as rules;

use super::numbers::{code_point_key, function_key, kitty_key};
use super::words::{key_of_word, modifier_of_word};
use super::{ReadError, ReadErrorKind};
use crate::press::{
    ALT, CTRL, HYPER, KeyPress, META, SHIFT, SUPER, character, is_shifted_sign, main_key,
    split_first,
};
use std::str;
use termwiz_extended_events::types::ReportedKey;
use termwiz_keys::types::KeyCode;

// Whose letters stand for modifiers.
#[derive(Clone, Copy)]
enum Style {
    Vim,
    Emacs,
}

// The character that is the whole text, if one is.
fn only_character(text: &str) -> Option<char>
    ensures { result ≡ rules.only_character (chars text.now) }
{
    let (c, rest) = split_first(text)?;
    if split_first(rest).is_some() {
        None
    } else {
        Some(c)
    }
}

// The character that is the whole name, if one is.
fn one_character(name: &[u8]) -> Option<char>
    ensures { result ≡ rules.one_character name.now }
{
    match str::from_utf8(name) {
        Ok(text) => only_character(text),
        Err(_) => None,
    }
}

// A word: a function key, a functional key by its number, or one of the words for keys.
#[tactic(auto, unfolding(crate::specs::Names::word_key))]
fn word_key(name: &[u8]) -> Result<ReportedKey, ReadErrorKind>
    ensures { result ≡ rules.word_key name.now }
{
    if name == b"DEL".as_slice() {
        return Err(ReadErrorKind::Ambiguous);
    }
    if let Some(key) = function_key(name) {
        return key;
    }
    if let Some(key) = kitty_key(name) {
        return key;
    }
    match key_of_word(name) {
        Some(key) => Ok(ReportedKey::Named(key)),
        None => Err(ReadErrorKind::UnknownName),
    }
}

// A character by its number, or a word.
#[tactic(auto, unfolding(crate::specs::Names::spelled_key))]
fn spelled_key(name: &[u8]) -> Result<ReportedKey, ReadErrorKind>
    ensures { result ≡ rules.spelled_key name.now }
{
    match code_point_key(name) {
        Some(key) => key,
        None => word_key(name),
    }
}

// A character, or what is spelled.
#[tactic(auto, unfolding(crate::specs::Names::named_key))]
fn named_key(name: &[u8]) -> Result<ReportedKey, ReadErrorKind>
    ensures { result ≡ rules.named_key name.now }
{
    match one_character(name) {
        Some(c) => Ok(ReportedKey::Named(KeyCode::Char(c))),
        None => spelled_key(name),
    }
}

// With CTRL a letter of ASCII is in lower case.
fn lowered_key(key: ReportedKey, held: u8) -> ReportedKey
    ensures { result ≡ rules.lowered_key key held }
{
    match key {
        ReportedKey::Named(KeyCode::Char(c)) if held & CTRL != 0 => {
            ReportedKey::Named(KeyCode::Char(c.to_ascii_lowercase()))
        }
        _ => key,
    }
}

// Whether SHIFT is held with a sign that is typed with it.
fn is_shifted_character(key: ReportedKey, held: u8) -> bool
    ensures { result ≡ rules.is_shifted_character key held }
{
    match character(main_key(key)) {
        Some(c) => held & SHIFT != 0 && is_shifted_sign(c),
        None => false,
    }
}

// The press of a key with modifiers.
#[tactic(auto, unfolding(crate::specs::Names::press_of))]
fn press_of(key: ReportedKey, held: u8) -> Result<KeyPress, ReadErrorKind>
    ensures { result ≡ rules.press_of key held }
{
    if is_shifted_character(key, held) {
        return Err(ReadErrorKind::ShiftedCharacter);
    }
    KeyPress::new(lowered_key(key, held), held).ok_or(ReadErrorKind::NotAKey)
}

// The error of the part that starts at this byte.
fn error_at(kind: ReadErrorKind, at: usize) -> ReadError
    ensures { result ≡ rules.error_at kind at }
{
    ReadError { kind, at }
}

// The press of a name that was read, with these modifiers.
#[tactic(auto, unfolding(crate::specs::Names::named_press))]
fn named_press(
    held: u8,
    at: usize,
    name: Result<ReportedKey, ReadErrorKind>,
) -> Result<KeyPress, ReadError>
    ensures { result ≡ rules.named_press held at name }
{
    match name {
        Ok(key) => press_of(key, held).map_err(|kind| error_at(kind, at)),
        Err(kind) => Err(error_at(kind, at)),
    }
}

// One more modifier, if it isn't held yet.
fn with_modifier(held: u8, modifier: u8, at: usize) -> Result<u8, ReadError>
    ensures { result ≡ (if has_any held modifier then Err (rules.error_at ModifierTwice at) else Ok (rules.with_modifier held modifier)) }
{
    if held & modifier != 0 {
        return Err(error_at(ReadErrorKind::ModifierTwice, at));
    }
    Ok(held | modifier)
}

// Whether the byte parts a modifier from what follows.
fn is_separator(byte: u8) -> bool
    ensures { result ≡ rules.is_separator byte }
{
    byte == b'+' || byte == b'-'
}

// The press of what stands behind modifiers in words.
#[tactic(auto, unfolding(crate::specs::Names::last_press))]
fn last_press(held: u8, at: usize, rest: &[u8]) -> Result<KeyPress, ReadError>
    ensures { result ≡ rules.last_press held at rest.now }
{
    if rest.is_empty() {
        return Err(error_at(ReadErrorKind::MissingKey, at));
    }
    named_press(held, at, named_key(rest))
}

// The press of a name with modifiers in words.
fn worded_press(at: usize, text: &[u8]) -> Result<KeyPress, ReadError>
    requires { at + length text.now < 2 ^ 64 }
    ensures { result ≡ rules.worded_press 0 at [] text.now }
{
    let mut held = 0;
    let mut start = 0;
    for (i, byte) in text.iter().enumerate() {
        if i == start || !is_separator(*byte) {
            continue;
        }
        let word = &text[start..i];
        match modifier_of_word(word) {
            Some(modifier) => {
                held = with_modifier(held, modifier, at + start)?;
                start = i + 1;
            }
            None if one_character(word).is_some() => {
                return last_press(held, at + start, &text[start..]);
            }
            None => return Err(error_at(ReadErrorKind::UnknownModifier, at + start)),
        }
    }
    last_press(held, at + start, &text[start..])
}

// Vim's letters.
const VIM_LETTERS: &[(u8, u8)] = &[
    (b'c', CTRL),
    (b's', SHIFT),
    (b'm', ALT),
    (b'a', ALT),
    (b'd', SUPER),
    (b't', META),
];

// Emacs's letters.
const EMACS_LETTERS: &[(u8, u8)] = &[
    (b'C', CTRL),
    (b'M', ALT),
    (b'A', ALT),
    (b'S', SHIFT),
    (b's', SUPER),
    (b'H', HYPER),
];

// What a table has at a letter.
fn entry_of(table: &[(u8, u8)], letter: u8) -> Option<u8>
    ensures { result ≡ entry_at table.now letter }
{
    table.iter().find(|row| row.0 == letter).map(|row| row.1)
}

// The modifier of a letter.
#[tactic(auto, unfolding(crate::specs::Names::modifier_of_letter))]
fn modifier_of_letter(style: Style, letter: u8) -> Option<u8>
    ensures { result ≡ rules.modifier_of_letter style letter }
{
    match style {
        Style::Vim => entry_of(VIM_LETTERS, letter.to_ascii_lowercase()),
        Style::Emacs => entry_of(EMACS_LETTERS, letter),
    }
}

// The modifier of a letter with `-` behind it.
#[tactic(auto, unfolding(crate::specs::Names::modifier_before))]
fn modifier_before(style: Style, letter: u8, dash: u8) -> Option<u8>
    ensures { result ≡ rules.modifier_before style letter dash }
{
    if dash == b'-' {
        modifier_of_letter(style, letter)
    } else {
        None
    }
}

// What stands between brackets, if anything does.
#[tactic(auto, unfolding(crate::specs::Names::between_brackets))]
fn between_brackets<'a>(text: &'a [u8]) -> Option<&'a [u8]>
    ensures value { option_copied result ≡ rules.between_brackets text.now }
    ensures shorter { IfSome result (λ inner. length inner.now + 2 ≡ length text.now) }
{
    let end = text.len();
    if end < 3 || text[0] != b'<' || text[end - 1] != b'>' {
        return None;
    }
    Some(&text[1..end - 1])
}

// The press of the name behind letters of Emacs's.
fn emacs_name(held: u8, at: usize, name: &[u8]) -> Result<KeyPress, ReadError>
    requires { at + length name.now < 2 ^ 64 }
    ensures { result ≡ rules.emacs_name held at name.now }
{
    match between_brackets(name) {
        Some(word) => named_press(held, at + 1, spelled_key(word)),
        None => named_press(held, at, named_key(name)),
    }
}

// The press of the name behind letters.
#[tactic(auto, unfolding(crate::specs::Names::lettered_name))]
fn lettered_name(style: Style, held: u8, at: usize, name: &[u8]) -> Result<KeyPress, ReadError>
    requires { at + length name.now < 2 ^ 64 }
    ensures { result ≡ rules.lettered_name style held at name.now }
{
    if name.is_empty() {
        return Err(error_at(ReadErrorKind::MissingKey, at));
    }
    match style {
        Style::Vim if held == 0 => named_press(held, at, spelled_key(name)),
        Style::Vim => named_press(held, at, named_key(name)),
        Style::Emacs => emacs_name(held, at, name),
    }
}

// The press of a name with modifiers in letters.
fn lettered_press(style: Style, at: usize, text: &[u8]) -> Result<KeyPress, ReadError>
    requires { at + length text.now < 2 ^ 64 }
    ensures { result ≡ rules.lettered_press style 0 at text.now }
{
    let mut held = 0;
    let mut start = at;
    let mut rest = text;
    while rest.len() >= 2 {
        match modifier_before(style, rest[0], rest[1]) {
            Some(_) if rest.len() == 2 => {
                return Err(error_at(ReadErrorKind::MissingKey, start + 2));
            }
            Some(modifier) => {
                held = with_modifier(held, modifier, start)?;
                start += 2;
                rest = &rest[2..];
            }
            None => return lettered_name(style, held, start, rest),
        }
    }
    lettered_name(style, held, start, rest)
}

// Whether the text begins with a letter of Emacs's and `-`, and is longer.
fn begins_as_emacs(text: &[u8]) -> bool
    ensures { result ≡ rules.begins_as_emacs text.now }
{
    match text {
        [letter, dash, _, ..] => modifier_before(Style::Emacs, *letter, *dash).is_some(),
        _ => false,
    }
}

// The press of a key's text, which has no blanks and starts at this byte of the whole text.
#[tactic(auto, unfolding(crate::specs::Names::read_key))]
pub(super) fn read_key(at: usize, text: &[u8]) -> Result<KeyPress, ReadError>
    requires { at + length text.now < 2 ^ 64 }
    ensures { result ≡ rules.read_key at text.now }
{
    if let Some(name) = between_brackets(text) {
        return lettered_press(Style::Vim, at + 1, name);
    }
    if begins_as_emacs(text) {
        return lettered_press(Style::Emacs, at, text);
    }
    worded_press(at, text)
}
