//! How Kitty's keyboard protocol writes a key.
ghost use Rattle.std.specs.Prelude.{◌≡◌};
ghost use Rattle.termwiz_extended_events.specs.ReportedKeys.{entry_at};
ghost use Rattle.termwiz_kitty.specs.KeyForms as forms;
ghost use Rattle.termwiz_kitty.specs.KeyForms.{form_of};

use termwiz_extended_events::types::ReportedKey;
use termwiz_keys::types::KeyCode;

/// The sequence of a key, by what tells the key.
#[derive(Clone, Copy, PartialEq, Eq, Debug)]
pub enum KeyForm {
    /// A letter at the end.
    Letter(char),
    /// A number and a tilde.
    Number(u32),
    /// A number and the letter u.
    Code(u32),
}

// The function keys up to F12.
const FUNCTION_FORMS: &[(u8, KeyForm)] = &[
    (1, KeyForm::Letter('P')),
    (2, KeyForm::Letter('Q')),
    (3, KeyForm::Number(13)),
    (4, KeyForm::Letter('S')),
    (5, KeyForm::Number(15)),
    (6, KeyForm::Number(17)),
    (7, KeyForm::Number(18)),
    (8, KeyForm::Number(19)),
    (9, KeyForm::Number(20)),
    (10, KeyForm::Number(21)),
    (11, KeyForm::Number(23)),
    (12, KeyForm::Number(24)),
];

// What a table has at a number.
fn entry_of(table: &[(u8, KeyForm)], number: u8) -> Option<KeyForm>
    ensures { result ≡ entry_at table.now number }
{
    table.iter().find(|row| row.0 == number).map(|row| row.1)
}

// The form of a function key.
fn function_form(number: u8) -> Option<KeyForm>
    ensures { result ≡ forms.function_form number }
{
    if matches!(number, 13..=35) {
        return Some(KeyForm::Code(57363 + u32::from(number)));
    }
    entry_of(FUNCTION_FORMS, number)
}

// The form of a key that has a name or types a character.
#[tactic(auto, unfolding(crate::specs::KeyForms::named_form))]
fn named_form(key: KeyCode) -> Option<KeyForm>
    ensures { result ≡ forms.named_form key }
{
    let form = match key {
        KeyCode::Char(c) => KeyForm::Code(u32::from(c)),
        KeyCode::Function(number) => return function_form(number),
        KeyCode::Tab => KeyForm::Code(9),
        KeyCode::Enter => KeyForm::Code(13),
        KeyCode::Escape => KeyForm::Code(27),
        KeyCode::Backspace => KeyForm::Code(127),
        KeyCode::UpArrow => KeyForm::Letter('A'),
        KeyCode::DownArrow => KeyForm::Letter('B'),
        KeyCode::RightArrow => KeyForm::Letter('C'),
        KeyCode::LeftArrow => KeyForm::Letter('D'),
        KeyCode::KeyPadBegin => KeyForm::Letter('E'),
        KeyCode::End => KeyForm::Letter('F'),
        KeyCode::Home => KeyForm::Letter('H'),
        KeyCode::Insert => KeyForm::Number(2),
        KeyCode::Delete => KeyForm::Number(3),
        KeyCode::PageUp => KeyForm::Number(5),
        KeyCode::PageDown => KeyForm::Number(6),
        KeyCode::CapsLock => KeyForm::Code(57358),
        KeyCode::ScrollLock => KeyForm::Code(57359),
        KeyCode::NumLock => KeyForm::Code(57360),
        KeyCode::PrintScreen => KeyForm::Code(57361),
        KeyCode::Pause => KeyForm::Code(57362),
        KeyCode::Applications => KeyForm::Code(57363),
        KeyCode::Numpad0 => KeyForm::Code(57399),
        KeyCode::Numpad1 => KeyForm::Code(57400),
        KeyCode::Numpad2 => KeyForm::Code(57401),
        KeyCode::Numpad3 => KeyForm::Code(57402),
        KeyCode::Numpad4 => KeyForm::Code(57403),
        KeyCode::Numpad5 => KeyForm::Code(57404),
        KeyCode::Numpad6 => KeyForm::Code(57405),
        KeyCode::Numpad7 => KeyForm::Code(57406),
        KeyCode::Numpad8 => KeyForm::Code(57407),
        KeyCode::Numpad9 => KeyForm::Code(57408),
        KeyCode::Decimal => KeyForm::Code(57409),
        KeyCode::Divide => KeyForm::Code(57410),
        KeyCode::Multiply => KeyForm::Code(57411),
        KeyCode::Subtract => KeyForm::Code(57412),
        KeyCode::Add => KeyForm::Code(57413),
        KeyCode::Separator => KeyForm::Code(57416),
        KeyCode::KeyPadPageUp => KeyForm::Code(57421),
        KeyCode::KeyPadPageDown => KeyForm::Code(57422),
        KeyCode::KeyPadHome => KeyForm::Code(57423),
        KeyCode::KeyPadEnd => KeyForm::Code(57424),
        KeyCode::MediaPlayPause => KeyForm::Code(57430),
        KeyCode::MediaStop => KeyForm::Code(57432),
        KeyCode::MediaNextTrack => KeyForm::Code(57435),
        KeyCode::MediaPrevTrack => KeyForm::Code(57436),
        KeyCode::VolumeDown => KeyForm::Code(57438),
        KeyCode::VolumeUp => KeyForm::Code(57439),
        KeyCode::VolumeMute => KeyForm::Code(57440),
        KeyCode::LeftShift => KeyForm::Code(57441),
        KeyCode::LeftControl => KeyForm::Code(57442),
        KeyCode::LeftAlt => KeyForm::Code(57443),
        KeyCode::LeftWindows => KeyForm::Code(57444),
        KeyCode::RightShift => KeyForm::Code(57447),
        KeyCode::RightControl => KeyForm::Code(57448),
        KeyCode::RightAlt => KeyForm::Code(57449),
        KeyCode::RightWindows => KeyForm::Code(57450),
        _ => return None,
    };
    Some(form)
}

/// The form of a key, if the protocol has one. The number 0 is that of a text that no key typed.
pub fn form_of(key: ReportedKey) -> Option<KeyForm>
    ensures { result ≡ form_of key }
{
    match key {
        ReportedKey::Named(key) => named_form(key),
        ReportedKey::Functional(0) => Some(KeyForm::Code(0)),
        ReportedKey::Functional(number @ 57344..=63743) => Some(KeyForm::Code(number)),
        ReportedKey::Functional(_) => None,
    }
}

// Whether the key types a character, or has its number.
pub(crate) fn is_character(key: ReportedKey) -> bool
    ensures { result ≡ forms.is_character key }
{
    matches!(key, ReportedKey::Named(KeyCode::Char(_)))
}

// The keys of the keypad, each with its main key.
const MAIN_KEYS: &[(u32, KeyCode)] = &[
    (57399, KeyCode::Char('0')),
    (57400, KeyCode::Char('1')),
    (57401, KeyCode::Char('2')),
    (57402, KeyCode::Char('3')),
    (57403, KeyCode::Char('4')),
    (57404, KeyCode::Char('5')),
    (57405, KeyCode::Char('6')),
    (57406, KeyCode::Char('7')),
    (57407, KeyCode::Char('8')),
    (57408, KeyCode::Char('9')),
    (57409, KeyCode::Char('.')),
    (57410, KeyCode::Char('/')),
    (57411, KeyCode::Char('*')),
    (57412, KeyCode::Char('-')),
    (57413, KeyCode::Char('+')),
    (57414, KeyCode::Enter),
    (57415, KeyCode::Char('=')),
    (57416, KeyCode::Char(',')),
    (57417, KeyCode::LeftArrow),
    (57418, KeyCode::RightArrow),
    (57419, KeyCode::UpArrow),
    (57420, KeyCode::DownArrow),
    (57421, KeyCode::PageUp),
    (57422, KeyCode::PageDown),
    (57423, KeyCode::Home),
    (57424, KeyCode::End),
    (57425, KeyCode::Insert),
    (57426, KeyCode::Delete),
    (57427, KeyCode::KeyPadBegin),
];

// What the table of main keys has at a number.
fn main_at(number: u32) -> Option<KeyCode>
    ensures { result ≡ entry_at forms.main_keys number }
{
    MAIN_KEYS
        .iter()
        .find(|row| row.0 == number)
        .map(|row| row.1)
}

// The main key of a key of the keypad. Any other key is its own.
#[tactic(auto, unfolding(crate::specs::KeyForms::main_key))]
pub(crate) fn main_key(key: ReportedKey) -> ReportedKey
    ensures { result ≡ forms.main_key key }
{
    if is_character(key) {
        return key;
    }
    let Some(KeyForm::Code(number)) = form_of(key) else {
        return key;
    };
    match main_at(number) {
        Some(main) => ReportedKey::Named(main),
        None => key,
    }
}
