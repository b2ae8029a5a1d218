// The printed names of presses.
ghost use Rattle.std.specs.Prelude.{◌≡◌, ◌++◌, OnOk, string_bytes};
ghost use Rattle.termwiz_bindings.specs.Names as rules;

use super::words::printed_word;
use crate::press::{ALT, CTRL, HYPER, KeyPress, META, SHIFT, SUPER};
use std::alloc::AllocError;
use std::fmt::Write;
use termwiz_extended_events::types::ReportedKey;
use termwiz_keys::types::KeyCode;

// The characters that are printed as they are.
const SHOWN_CHARACTERS: &[(u32, u32)] = &[
    (0x21, 0x7e),
    (0xa1, 0xac),
    (0xae, 0x2ff),
    (0x370, 0x377),
    (0x37a, 0x37f),
    (0x384, 0x38a),
    (0x38c, 0x38c),
    (0x38e, 0x3a1),
    (0x3a3, 0x482),
    (0x48a, 0x52f),
    (0x5d0, 0x5ea),
    (0x620, 0x64a),
    (0x10d0, 0x10ff),
    (0x1e00, 0x1eff),
    (0x20a0, 0x20bf),
    (0x3041, 0x3096),
    (0x30a1, 0x30fa),
    (0x4e00, 0x9ffc),
    (0xac00, 0xd7a3),
];

// Whether the character is printed as it is.
#[tactic(auto, unfolding(crate::specs::Names::is_shown, crate::specs::Names::shown_characters))]
fn is_shown(c: char) -> bool
    ensures { result ≡ rules.is_shown c }
{
    let number = u32::from(c);
    SHOWN_CHARACTERS
        .iter()
        .any(|range| range.0 <= number && number <= range.1)
}

// Appends `U+` and at least four hexadecimal digits.
#[tactic(auto, using(crate::proofs::lemmas::PrintedNumbers::zero_padded))]
fn push_code_point(out: &mut String, number: u32) -> Result<(), AllocError>
    ensures { OnOk result (string_bytes out.new ≡ string_bytes out.old ++ rules.code_point number) }
{
    write!(out, "U+{number:04X}")
}

// Appends the name of a character.
#[tactic(auto, unfolding(crate::specs::Names::printed_character))]
fn push_character(out: &mut String, c: char) -> Result<(), AllocError>
    ensures { OnOk result (string_bytes out.new ≡ string_bytes out.old ++ rules.printed_character c) }
{
    if c == ' ' {
        return out.push_str("space");
    }
    if is_shown(c) {
        return out.push(c);
    }
    push_code_point(out, u32::from(c))
}

// Appends the name of a key.
#[tactic(auto, unfolding(crate::specs::Names::printed_key))]
fn push_key(out: &mut String, key: ReportedKey) -> Result<(), AllocError>
    ensures { OnOk result (string_bytes out.new ≡ string_bytes out.old ++ rules.printed_key key) }
{
    match key {
        ReportedKey::Functional(number) => write!(out, "kitty{number}"),
        ReportedKey::Named(KeyCode::Char(c)) => push_character(out, c),
        ReportedKey::Named(KeyCode::Function(number)) => write!(out, "f{number}"),
        ReportedKey::Named(key) => out.push_str(printed_word(key)),
    }
}

// Appends the word of a modifier, if it is held.
fn push_modifier(out: &mut String, held: u8, modifier: u8, word: &str) -> Result<(), AllocError>
    ensures { OnOk result (string_bytes out.new ≡ string_bytes out.old ++ rules.printed_modifier held modifier word.now) }
{
    if held & modifier != 0 {
        out.push_str(word)?;
    }
    Ok(())
}

// Appends the modifiers that are held.
#[tactic(auto, unfolding(crate::specs::Names::printed_modifiers))]
fn push_modifiers(out: &mut String, held: u8) -> Result<(), AllocError>
    ensures { OnOk result (string_bytes out.new ≡ string_bytes out.old ++ rules.printed_modifiers held) }
{
    push_modifier(out, held, SUPER, "super+")?;
    push_modifier(out, held, HYPER, "hyper+")?;
    push_modifier(out, held, META, "meta+")?;
    push_modifier(out, held, CTRL, "ctrl+")?;
    push_modifier(out, held, ALT, "alt+")?;
    push_modifier(out, held, SHIFT, "shift+")
}

// Appends the name of a press.
#[tactic(auto, unfolding(crate::specs::Names::printed))]
pub(super) fn push_press(out: &mut String, press: KeyPress) -> Result<(), AllocError>
    ensures { OnOk result (string_bytes out.new ≡ string_bytes out.old ++ rules.printed press) }
{
    push_modifiers(out, press.held())?;
    push_key(out, press.key())
}
