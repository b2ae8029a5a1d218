// Keys that send a control sequence with a letter or a number, and with xterm's number for the modifiers.

ghost use Rattle.std.specs.Prelude.{◌≡◌, ◌==◌, ◌++◌, ◌+◌, ◌≤◌, not, OnOk, string_bytes};
ghost use Rattle.termwiz_base.specs.Modifiers.{xterm_number};
ghost use Rattle.termwiz_keys.specs.Encoding.{is_modified, cursor_text, application_text, edit_text, lettered_function_text, numbered_function_text, function_text, code_in, code_of, keypad_number_text, keypad_letter_text, keypad_text, xterm_form, xterm_number_form};

use super::{CSI, KeyCodeEncodeModes, SS3};
use crate::function_codes::{FUNCTION_CODES, HIGH_FUNCTION_CODES};
use crate::types::KeyCode;
use std::alloc::AllocError;
use std::fmt::Write;
use termwiz_base::Modifiers;

// Xterm's number for the modifiers, and one more, as sequences write it.
pub(super) fn modifier_number(mods: Modifiers) -> u8
    ensures { result ≡ 1 + xterm_number mods.0 }
{
    1 + mods.encode_xterm()
}

// Whether Shift, Alt or Ctrl is held, so that xterm's number isn't 0.
#[tactic(auto, using(crate::proofs::lemmas::encoding::NormalForm::modified_by_number))]
fn is_modified(mods: Modifiers) -> bool
    ensures held { result ≡ is_modified mods.0 }
    ensures number { result ≡ not (xterm_number mods.0 == 0) }
{
    mods.encode_xterm() != 0
}

// Appends xterm's form of a key that has a letter, with modifiers.
fn push_xterm_form(text: &mut String, letter: &str, mods: Modifiers) -> Result<(), AllocError>
    ensures { OnOk result (string_bytes text.new ≡ string_bytes text.old ++ xterm_form letter.now mods.0) }
{
    let number = modifier_number(mods);
    write!(text, "{CSI}1;{number}{letter}")
}

// Appends xterm's form of a key that has a number, with modifiers.
fn push_xterm_number_form(text: &mut String, key: u8, mods: Modifiers) -> Result<(), AllocError>
    ensures { OnOk result (string_bytes text.new ≡ string_bytes text.old ++ xterm_number_form key mods.0) }
{
    let number = modifier_number(mods);
    write!(text, "{CSI}{key};{number}~")
}

// Appends the text of an arrow, or of a key to an end, by its letter.
#[tactic(auto, unfolding(crate::specs::Encoding::cursor_text, crate::specs::Encoding::application_text, crate::specs::Encoding::keypad_letter_text))]
pub(super) fn push_cursor_key(
    text: &mut String,
    letter: &str,
    mods: Modifiers,
    modes: KeyCodeEncodeModes,
) -> Result<(), AllocError>
    ensures { OnOk result (string_bytes text.new ≡ string_bytes text.old ++ cursor_text letter.now mods.0 modes) }
{
    if modes.application_cursor_keys {
        push_application_arrow(text, letter, mods)
    } else {
        push_csi_letter(text, letter, mods)
    }
}

// Appends the text of an application arrow, by its letter.
#[tactic(auto, unfolding(crate::specs::Encoding::application_text))]
pub(super) fn push_application_arrow(
    text: &mut String,
    letter: &str,
    mods: Modifiers,
) -> Result<(), AllocError>
    ensures { OnOk result (string_bytes text.new ≡ string_bytes text.old ++ application_text letter.now mods.0) }
{
    if is_modified(mods) {
        return push_xterm_form(text, letter, mods);
    }
    write!(text, "{SS3}{letter}")
}

// Appends the text of a key of the editing block, by its number.
#[tactic(auto, unfolding(crate::specs::Encoding::edit_text, crate::specs::Encoding::keypad_number_text))]
pub(super) fn push_edit_key(
    text: &mut String,
    number: u8,
    mods: Modifiers,
) -> Result<(), AllocError>
    ensures { OnOk result (string_bytes text.new ≡ string_bytes text.old ++ edit_text number mods.0) }
{
    push_keypad_number(text, number, mods)
}

// Appends the text of a function key from F1 to F24, by its number.
#[tactic(auto, unfolding(crate::specs::Encoding::function_text))]
pub(super) fn push_function_key(
    text: &mut String,
    number: u8,
    mods: Modifiers,
) -> Result<(), AllocError>
    requires first { 1 ≤ number }
    requires last { number ≤ 24 }
    ensures { OnOk result (string_bytes text.new ≡ string_bytes text.old ++ function_text number mods.0) }
{
    match number {
        1 => push_lettered_function_key(text, "P", mods),
        2 => push_lettered_function_key(text, "Q", mods),
        3 => push_lettered_function_key(text, "R", mods),
        4 => push_lettered_function_key(text, "S", mods),
        _ => push_numbered_function_key(text, number, mods),
    }
}

// Appends the text of one of F1 to F4, by its letter.
#[tactic(auto, unfolding(crate::specs::Encoding::lettered_function_text))]
fn push_lettered_function_key(
    text: &mut String,
    letter: &str,
    mods: Modifiers,
) -> Result<(), AllocError>
    ensures { OnOk result (string_bytes text.new ≡ string_bytes text.old ++ lettered_function_text letter.now mods.0) }
{
    if mods != Modifiers::NONE {
        return push_xterm_form(text, letter, mods);
    }
    write!(text, "{SS3}{letter}")
}

// Appends the text of a function key from F5 to F24.
#[tactic(auto, unfolding(crate::specs::Encoding::numbered_function_text, crate::specs::Encoding::keypad_number_text))]
fn push_numbered_function_key(
    text: &mut String,
    number: u8,
    mods: Modifiers,
) -> Result<(), AllocError>
    requires first { 5 ≤ number }
    requires last { number ≤ 24 }
    ensures { OnOk result (string_bytes text.new ≡ string_bytes text.old ++ numbered_function_text number mods.0) }
{
    push_keypad_number(text, function_code(number), mods)
}

// The code of the function key with this number, if the list of codes and numbers has it.
fn code_in(codes: &[(u8, u8)], number: u8) -> Option<u8>
    ensures { result ≡ code_in codes.now number }
{
    for (code, named) in codes {
        if *named == number {
            return Some(*code);
        }
    }
    None
}

// The code of a function key from F5 to F24.
fn function_code(number: u8) -> u8
    requires first { 5 ≤ number }
    requires last { number ≤ 24 }
    ensures { result ≡ code_of number }
{
    code_in(FUNCTION_CODES, number)
        .or(code_in(HIGH_FUNCTION_CODES, number))
        .unwrap_or(0)
}

// Appends the text of a key of the keypad that has a number.
#[tactic(auto, unfolding(crate::specs::Encoding::keypad_number_text))]
fn push_keypad_number(text: &mut String, number: u8, mods: Modifiers) -> Result<(), AllocError>
    ensures { OnOk result (string_bytes text.new ≡ string_bytes text.old ++ keypad_number_text number mods.0) }
{
    if is_modified(mods) {
        return push_xterm_number_form(text, number, mods);
    }
    write!(text, "{CSI}{number}~")
}

// Appends the text of a key of the keypad that has a letter.
#[tactic(auto, unfolding(crate::specs::Encoding::keypad_letter_text))]
fn push_csi_letter(text: &mut String, letter: &str, mods: Modifiers) -> Result<(), AllocError>
    ensures { OnOk result (string_bytes text.new ≡ string_bytes text.old ++ keypad_letter_text letter.now mods.0) }
{
    if is_modified(mods) {
        return push_xterm_form(text, letter, mods);
    }
    write!(text, "{CSI}{letter}")
}

// Appends the text of a key of the keypad, and nothing for any other key.
#[tactic(auto, unfolding(crate::specs::Encoding::keypad_text))]
pub(super) fn push_keypad_key(
    text: &mut String,
    key: KeyCode,
    mods: Modifiers,
) -> Result<(), AllocError>
    ensures { OnOk result (string_bytes text.new ≡ string_bytes text.old ++ keypad_text key mods.0) }
{
    match key {
        KeyCode::Numpad0 => push_keypad_number(text, 2, mods),
        KeyCode::Numpad3 | KeyCode::Numpad9 => push_keypad_number(text, 6, mods),
        KeyCode::Decimal => push_keypad_number(text, 3, mods),
        KeyCode::Numpad1 => push_csi_letter(text, "F", mods),
        KeyCode::Numpad2 => push_csi_letter(text, "B", mods),
        KeyCode::Numpad4 => push_csi_letter(text, "D", mods),
        KeyCode::Numpad5 | KeyCode::KeyPadBegin => push_csi_letter(text, "E", mods),
        KeyCode::Numpad6 => push_csi_letter(text, "C", mods),
        KeyCode::Numpad7 => push_csi_letter(text, "H", mods),
        KeyCode::Numpad8 => push_csi_letter(text, "A", mods),
        _ => Ok(()),
    }
}
