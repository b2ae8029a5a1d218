//! Key reports to their sequences.
ghost use Rattle.std.specs.Prelude.{◌≡◌, ◌++◌, OnOk, string_bytes, codes, flat_map};
ghost use Rattle.std.specs.Str.{chars};
ghost use Rattle.termwiz_kitty.specs.KittyTexts.{manner_text, manner_behind, is_plain, lettered_text, numbered_text, codes_text, further_character, characters_text, first_text, fields_behind, coded_text};

use crate::telling::is_press;
use std::alloc::AllocError;
use std::fmt::Write;
use termwiz_extended_events::types::KeyEventKind;
use termwiz_keys::encode::CSI;

// Which modifiers are held, as Kitty's bits, and what happened to the key.
#[derive(Clone, Copy)]
pub(super) struct Manner {
    pub modifiers: u8,
    pub kind: KeyEventKind,
}

// Whether it is a press with no modifier.
fn is_plain(manner: Manner) -> bool
    ensures { result ≡ is_plain manner.modifiers manner.kind }
{
    manner.modifiers == 0 && is_press(manner.kind)
}

// Appends the number of the modifiers, and what happened to the key.
#[tactic(auto, unfolding(crate::specs::KittyTexts::manner_text))]
fn push_manner(text: &mut String, manner: Manner) -> Result<(), AllocError>
    ensures { OnOk result (string_bytes text.new ≡ string_bytes text.old ++ manner_text manner.modifiers manner.kind) }
{
    let number = 1 + u32::from(manner.modifiers);
    match manner.kind {
        KeyEventKind::Press => write!(text, "{number}"),
        KeyEventKind::Repeat => write!(text, "{number}:2"),
        KeyEventKind::Release => write!(text, "{number}:3"),
    }
}

// Appends the manner after a front, and nothing for a press with no modifier.
fn push_manner_behind(text: &mut String, front: &str, manner: Manner) -> Result<(), AllocError>
    ensures { OnOk result (string_bytes text.new ≡ string_bytes text.old ++ manner_behind front.now manner.modifiers manner.kind) }
{
    if is_plain(manner) {
        return Ok(());
    }
    text.push_str(front)?;
    push_manner(text, manner)
}

// Appends the sequence of a key that has a letter.
#[tactic(auto, unfolding(crate::specs::KittyTexts::lettered_text))]
pub(super) fn push_lettered(
    text: &mut String,
    letter: char,
    manner: Manner,
) -> Result<(), AllocError>
    ensures { OnOk result (string_bytes text.new ≡ string_bytes text.old ++ lettered_text letter manner.modifiers manner.kind) }
{
    text.push_str(CSI)?;
    push_manner_behind(text, "1;", manner)?;
    text.push(letter)
}

// Appends the sequence of a key that has a number of its own with a tilde.
#[tactic(auto, unfolding(crate::specs::KittyTexts::numbered_text))]
pub(super) fn push_numbered(
    text: &mut String,
    number: u32,
    manner: Manner,
) -> Result<(), AllocError>
    ensures { OnOk result (string_bytes text.new ≡ string_bytes text.old ++ numbered_text number manner.modifiers manner.kind) }
{
    write!(text, "{CSI}{number}")?;
    push_manner_behind(text, ";", manner)?;
    text.push('~')
}

/// The numbers of a key.
#[derive(Clone, Copy)]
pub struct Codes {
    /// Its own.
    pub own: u32,
    /// Of what it types with Shift.
    pub shifted: Option<char>,
    /// Of what its place types on the standard layout.
    pub base: Option<char>,
}

/// Appends the numbers of a key, parted by colons. A number that isn't there before one that is leaves its place empty.
#[tactic(auto, unfolding(crate::specs::KittyTexts::codes_text))]
pub fn push_codes(text: &mut String, codes: Codes) -> Result<(), AllocError>
    ensures { OnOk result (string_bytes text.new ≡ string_bytes text.old ++ codes_text codes.own codes.shifted codes.base) }
{
    let own = codes.own;
    match (codes.shifted.map(u32::from), codes.base.map(u32::from)) {
        (None, None) => write!(text, "{own}"),
        (Some(shifted), None) => write!(text, "{own}:{shifted}"),
        (None, Some(base)) => write!(text, "{own}::{base}"),
        (Some(shifted), Some(base)) => write!(text, "{own}:{shifted}:{base}"),
    }
}

// Appends the field of the manner, which may be empty, and the number of the first character.
fn push_first(text: &mut String, manner: Manner, first: char) -> Result<(), AllocError>
    ensures { OnOk result (string_bytes text.new
        ≡ string_bytes text.old ++ first_text manner.modifiers manner.kind first) }
{
    text.push_str(";")?;
    push_manner_behind(text, "", manner)?;
    write!(text, ";{}", u32::from(first))
}

/// Appends the numbers of characters, each after a colon.
pub fn push_further(text: &mut String, rest: &str) -> Result<(), AllocError>
    ensures { OnOk result (string_bytes text.new ≡ string_bytes text.old ++ flat_map further_character (chars rest.now)) }
{
    for c in rest.chars() {
        write!(text, ":{}", u32::from(c))?;
    }
    Ok(())
}

// Appends the fields after the first one: the manner, and the numbers of the characters that the key types.
#[tactic(auto, unfolding(crate::specs::KittyTexts::fields_behind, crate::specs::KittyTexts::characters_text))]
fn push_fields(text: &mut String, manner: Manner, typed: &str) -> Result<(), AllocError>
    ensures { OnOk result (string_bytes text.new ≡ string_bytes text.old ++ fields_behind manner.modifiers manner.kind (chars typed.now)) }
{
    let mut rest = typed.chars();
    let Some(first) = rest.next() else {
        return push_manner_behind(text, ";", manner);
    };
    push_first(text, manner, first)?;
    push_further(text, rest.as_str())
}

// Appends the sequence of a key that has a number with the letter u.
#[tactic(auto, unfolding(crate::specs::KittyTexts::coded_text))]
pub(super) fn push_coded(
    text: &mut String,
    codes: Codes,
    manner: Manner,
    typed: &str,
) -> Result<(), AllocError>
    ensures { OnOk result (string_bytes text.new
        ≡ string_bytes text.old ++ coded_text codes.own codes.shifted codes.base manner.modifiers manner.kind typed.now) }
{
    text.push_str(CSI)?;
    push_codes(text, codes)?;
    push_fields(text, manner, typed)?;
    text.push('u')
}
