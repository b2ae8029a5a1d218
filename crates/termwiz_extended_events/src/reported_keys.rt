//! The keys of control sequences, by their letters and their numbers.
ghost use Rattle.std.specs.Prelude.{◌≡◌, option_map};
ghost use Rattle.termwiz_extended_events.specs.ReportedKeys.{entry_at, lettered_keys, keypad_keys, modified_keypad_keys, console_keys, functional_key, is_functional, key_of, key_with_number, rxvt_key_at, tilde_key};
ghost use Rattle.termwiz_keys.specs.declared.types.KeyCode.TheVariants.{Function};

use crate::types::ReportedKey;
use termwiz_keys::function_codes::{FUNCTION_CODES, HIGH_FUNCTION_CODES};
use termwiz_keys::types::KeyCode;

// Kitty's numbers of functional keys run from here to there.
const FIRST_FUNCTIONAL: u32 = 57344;

// The number of a text that no key typed.
pub(crate) const NO_KEY: u32 = 0;

pub(crate) const LAST_FUNCTIONAL: u32 = 63743;

// The keys that a letter ends.
const LETTERED_KEYS: &[(u8, KeyCode)] = &[
    (b'A', KeyCode::UpArrow),
    (b'B', KeyCode::DownArrow),
    (b'C', KeyCode::RightArrow),
    (b'D', KeyCode::LeftArrow),
    (b'E', KeyCode::KeyPadBegin),
    (b'F', KeyCode::End),
    (b'H', KeyCode::Home),
    (b'P', KeyCode::Function(1)),
    (b'Q', KeyCode::Function(2)),
    (b'S', KeyCode::Function(4)),
];

// The function keys of the Linux console.
const CONSOLE_KEYS: &[(u8, KeyCode)] = &[
    (b'A', KeyCode::Function(1)),
    (b'B', KeyCode::Function(2)),
    (b'C', KeyCode::Function(3)),
    (b'D', KeyCode::Function(4)),
    (b'E', KeyCode::Function(5)),
];

// The keys of the keypad in application mode.
const KEYPAD_KEYS: &[(u8, ReportedKey)] = &[
    (b'M', ReportedKey::Functional(57414)),
    (b'X', ReportedKey::Functional(57415)),
    (b'E', ReportedKey::Named(KeyCode::KeyPadBegin)),
    (b'G', ReportedKey::Named(KeyCode::KeyPadBegin)),
    (b'j', ReportedKey::Named(KeyCode::Multiply)),
    (b'k', ReportedKey::Named(KeyCode::Add)),
    (b'l', ReportedKey::Named(KeyCode::Separator)),
    (b'm', ReportedKey::Named(KeyCode::Subtract)),
    (b'n', ReportedKey::Named(KeyCode::Decimal)),
    (b'o', ReportedKey::Named(KeyCode::Divide)),
    (b'p', ReportedKey::Named(KeyCode::Numpad0)),
    (b'q', ReportedKey::Named(KeyCode::Numpad1)),
    (b'r', ReportedKey::Named(KeyCode::Numpad2)),
    (b's', ReportedKey::Named(KeyCode::Numpad3)),
    (b't', ReportedKey::Named(KeyCode::Numpad4)),
    (b'u', ReportedKey::Named(KeyCode::Numpad5)),
    (b'v', ReportedKey::Named(KeyCode::Numpad6)),
    (b'w', ReportedKey::Named(KeyCode::Numpad7)),
    (b'x', ReportedKey::Named(KeyCode::Numpad8)),
    (b'y', ReportedKey::Named(KeyCode::Numpad9)),
];

// The keys with modifiers after ESC O, by their letters.
const MODIFIED_KEYPAD_KEYS: &[(u8, ReportedKey)] = &[
    (b'P', ReportedKey::Named(KeyCode::Function(1))),
    (b'Q', ReportedKey::Named(KeyCode::Function(2))),
    (b'R', ReportedKey::Named(KeyCode::Function(3))),
    (b'S', ReportedKey::Named(KeyCode::Function(4))),
    (b'M', ReportedKey::Functional(57414)),
    (b'X', ReportedKey::Functional(57415)),
    (b'j', ReportedKey::Named(KeyCode::Multiply)),
    (b'k', ReportedKey::Named(KeyCode::Add)),
    (b'l', ReportedKey::Named(KeyCode::Separator)),
    (b'm', ReportedKey::Named(KeyCode::Subtract)),
    (b'n', ReportedKey::Named(KeyCode::Decimal)),
    (b'o', ReportedKey::Named(KeyCode::Divide)),
    (b'p', ReportedKey::Named(KeyCode::Numpad0)),
    (b'q', ReportedKey::Named(KeyCode::Numpad1)),
    (b'r', ReportedKey::Named(KeyCode::Numpad2)),
    (b's', ReportedKey::Named(KeyCode::Numpad3)),
    (b't', ReportedKey::Named(KeyCode::Numpad4)),
    (b'u', ReportedKey::Named(KeyCode::Numpad5)),
    (b'v', ReportedKey::Named(KeyCode::Numpad6)),
    (b'w', ReportedKey::Named(KeyCode::Numpad7)),
    (b'x', ReportedKey::Named(KeyCode::Numpad8)),
    (b'y', ReportedKey::Named(KeyCode::Numpad9)),
];

// The editing block.
const EDIT_KEYS: &[(u32, KeyCode)] = &[
    (2, KeyCode::Insert),
    (3, KeyCode::Delete),
    (1, KeyCode::Home),
    (7, KeyCode::Home),
    (4, KeyCode::End),
    (8, KeyCode::End),
    (5, KeyCode::PageUp),
    (6, KeyCode::PageDown),
];

// The keys of control characters.
const CONTROL_KEYS: &[(u32, KeyCode)] = &[
    (8, KeyCode::Backspace),
    (9, KeyCode::Tab),
    (10, KeyCode::Enter),
    (13, KeyCode::Enter),
    (27, KeyCode::Escape),
    (127, KeyCode::Backspace),
];

// The functional keys of kitty's that have names, but F13 to F35.
const NAMED_FUNCTIONAL_KEYS: &[(u32, KeyCode)] = &[
    (57358, KeyCode::CapsLock),
    (57359, KeyCode::ScrollLock),
    (57360, KeyCode::NumLock),
    (57361, KeyCode::PrintScreen),
    (57362, KeyCode::Pause),
    (57363, KeyCode::Applications),
    (57399, KeyCode::Numpad0),
    (57400, KeyCode::Numpad1),
    (57401, KeyCode::Numpad2),
    (57402, KeyCode::Numpad3),
    (57403, KeyCode::Numpad4),
    (57404, KeyCode::Numpad5),
    (57405, KeyCode::Numpad6),
    (57406, KeyCode::Numpad7),
    (57407, KeyCode::Numpad8),
    (57408, KeyCode::Numpad9),
    (57409, KeyCode::Decimal),
    (57410, KeyCode::Divide),
    (57411, KeyCode::Multiply),
    (57412, KeyCode::Subtract),
    (57413, KeyCode::Add),
    (57416, KeyCode::Separator),
    (57421, KeyCode::KeyPadPageUp),
    (57422, KeyCode::KeyPadPageDown),
    (57423, KeyCode::KeyPadHome),
    (57424, KeyCode::KeyPadEnd),
    (57427, KeyCode::KeyPadBegin),
    (57430, KeyCode::MediaPlayPause),
    (57432, KeyCode::MediaStop),
    (57435, KeyCode::MediaNextTrack),
    (57436, KeyCode::MediaPrevTrack),
    (57438, KeyCode::VolumeDown),
    (57439, KeyCode::VolumeUp),
    (57440, KeyCode::VolumeMute),
    (57441, KeyCode::LeftShift),
    (57442, KeyCode::LeftControl),
    (57443, KeyCode::LeftAlt),
    (57444, KeyCode::LeftWindows),
    (57447, KeyCode::RightShift),
    (57448, KeyCode::RightControl),
    (57449, KeyCode::RightAlt),
    (57450, KeyCode::RightWindows),
];

// What a table has at a letter.
fn entry_of<V: Copy>(table: &[(u8, V)], letter: u8) -> Option<V>
    ensures { result ≡ entry_at table.now letter }
{
    table.iter().find(|row| row.0 == letter).map(|row| row.1)
}

// What a table has at a number.
fn entry_at<V: Copy>(table: &[(u32, V)], number: u32) -> Option<V>
    ensures { result ≡ entry_at table.now number }
{
    table.iter().find(|row| row.0 == number).map(|row| row.1)
}

// The key that a letter ends.
#[inline(always)]
pub(crate) fn lettered_key(letter: u8) -> Option<KeyCode>
    ensures { result ≡ entry_at lettered_keys letter }
{
    entry_of(LETTERED_KEYS, letter)
}

// The function key of a letter of the Linux console.
pub(crate) fn console_key(letter: u8) -> Option<KeyCode>
    ensures { result ≡ entry_at console_keys letter }
{
    entry_of(CONSOLE_KEYS, letter)
}

// The key of a letter of the keypad in application mode.
pub(crate) fn keypad_key(letter: u8) -> Option<ReportedKey>
    ensures { result ≡ entry_at keypad_keys letter }
{
    entry_of(KEYPAD_KEYS, letter)
}

// The key with modifiers of a letter after ESC O.
pub(crate) fn modified_keypad_key(letter: u8) -> Option<ReportedKey>
    ensures { result ≡ entry_at modified_keypad_keys letter }
{
    entry_of(MODIFIED_KEYPAD_KEYS, letter)
}

/// Returns the key of a number in Kitty's table of functional keys: by its name where [`KeyCode`] has one, and else
/// `Functional` of the number ("Functional key definitions" of Kitty's page).
#[tactic(auto, unfolding(crate::specs::ReportedKeys::functional_key))]
pub fn functional_key(number: u32) -> ReportedKey
    ensures { result ≡ functional_key number }
{
    if 57376 <= number && number <= 57398 {
        return ReportedKey::Named(KeyCode::Function((number - 57363) as u8));
    }
    match entry_at(NAMED_FUNCTIONAL_KEYS, number) {
        Some(key) => ReportedKey::Named(key),
        None => ReportedKey::Functional(number),
    }
}

// Whether the number is one of kitty's numbers of functional keys.
fn is_functional(number: u32) -> bool
    ensures { result ≡ is_functional number }
{
    FIRST_FUNCTIONAL <= number && number <= LAST_FUNCTIONAL
}

// The key of a character in kitty's keyboard protocol.
#[tactic(auto, unfolding(crate::specs::ReportedKeys::key_of))]
#[inline(always)]
pub(crate) fn key_of(c: char) -> ReportedKey
    ensures { result ≡ key_of c }
{
    let number = u32::from(c);
    if number == NO_KEY {
        return ReportedKey::Functional(NO_KEY);
    }
    if is_functional(number) {
        return functional_key(number);
    }
    ReportedKey::Named(entry_at(CONTROL_KEYS, number).unwrap_or(KeyCode::Char(c)))
}

// The function key that codes have at a number.
fn function_key(codes: &[(u8, u8)], number: u32) -> Option<KeyCode>
    ensures { result ≡ option_map Function (entry_at codes.now number) }
{
    for (code, key) in codes {
        if u32::from(*code) == number {
            return Some(KeyCode::Function(*key));
        }
    }
    None
}

// The key of a number that isn't functional. Each table has numbers of its own, and is read without a branch for each number.
fn key_with_number(number: u32) -> Option<KeyCode>
    ensures { result ≡ key_with_number number }
{
    match number {
        0..=10 => entry_at(EDIT_KEYS, number),
        11..=34 => function_key(FUNCTION_CODES, number),
        35..=38 => Some(KeyCode::Function((number - 14) as u8)),
        _ => function_key(HIGH_FUNCTION_CODES, number),
    }
}

// The key of a number with a tilde at the end.
#[tactic(auto, unfolding(crate::specs::ReportedKeys::tilde_key))]
pub(crate) fn tilde_key(number: u32) -> Option<ReportedKey>
    ensures { result ≡ tilde_key number }
{
    if is_functional(number) {
        return Some(functional_key(number));
    }
    Some(ReportedKey::Named(key_with_number(number)?))
}

// The key of a number with ^, @ or $ at the end.
#[tactic(auto, unfolding(crate::specs::ReportedKeys::rxvt_key_at))]
pub(crate) fn rxvt_key_at(number: u32) -> Option<KeyCode>
    ensures { result ≡ rxvt_key_at number }
{
    if number == 4 {
        None
    } else {
        key_with_number(number)
    }
}
