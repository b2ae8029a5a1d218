// The rules on characters: what control characters, SHIFT and capitals make of a press.
ghost use Rattle.std.specs.Prelude.{◌≡◌, ◌<◌};
ghost use Rattle.termwiz_extended_events.specs.ReportedKeys.{entry_at};
ghost use Rattle.termwiz_bindings.specs.Presses as rules;

use super::letters::{letter_of, shown_with_shift};
use super::{ALL_BUT_SHIFT, CTRL, KeyPress, SHIFT, STRONG};
use termwiz_extended_events::types::ReportedKey;
use termwiz_keys::types::KeyCode;

// The press of a character's key.
pub(super) fn character_press(c: char, held: u8) -> KeyPress
    ensures { result ≡ rules.character_press c held }
{
    KeyPress {
        key: ReportedKey::Named(KeyCode::Char(c)),
        held,
    }
}

// The character of a key.
pub(crate) fn character(key: ReportedKey) -> Option<char>
    ensures { result ≡ rules.character key }
{
    match key {
        ReportedKey::Named(KeyCode::Char(c)) => Some(c),
        _ => None,
    }
}

// Whether SHIFT is held.
pub(super) fn has_shift(held: u8) -> bool
    ensures { result ≡ rules.has_shift held }
{
    held & SHIFT != 0
}

// The keys of control characters.
const CONTROL_KEYS: &[(u32, KeyCode)] = &[
    (9, KeyCode::Tab),
    (13, KeyCode::Enter),
    (27, KeyCode::Escape),
];

// The key of a control character, if it has one.
fn control_key(c: char) -> Option<KeyCode>
    ensures { result ≡ entry_at rules.control_keys c }
{
    let number = u32::from(c);
    CONTROL_KEYS
        .iter()
        .find(|row| row.0 == number)
        .map(|row| row.1)
}

// The key that this control character is with CTRL.
fn key_with_control(c: char) -> KeyCode
    requires { c < 128 }
    ensures { result ≡ rules.key_with_control c }
{
    match c as u8 {
        0 => KeyCode::Char(' '),
        letter @ 1..=26 => KeyCode::Char(char::from(96 + letter)),
        127 => KeyCode::Backspace,
        other => KeyCode::Char(char::from(64 + other)),
    }
}

// A control character is Tab, Enter or Escape, or another key with CTRL.
#[tactic(auto, unfolding(crate::specs::Presses::control_press))]
pub(super) fn control_press(press: KeyPress) -> KeyPress
    ensures { result ≡ rules.control_press press }
{
    let Some(c) = character(press.key) else {
        return press;
    };
    if !c.is_ascii_control() {
        return press;
    }
    let (key, held) = match control_key(c) {
        Some(key) => (key, press.held),
        None => (key_with_control(c), press.held | CTRL),
    };
    KeyPress {
        key: ReportedKey::Named(key),
        held,
    }
}

// Whether another character counts in place of this one, if it is told: SHIFT is held, and it isn't the space.
pub(super) fn is_told(c: char, held: u8) -> bool
    ensures { result ≡ rules.is_told c held }
{
    has_shift(held) && c != ' '
}

// With SHIFT a character but the space is what it is told to be, without SHIFT.
#[tactic(auto, unfolding(crate::specs::Presses::told_press))]
fn told_press(shifted: Option<char>, press: KeyPress) -> KeyPress
    ensures { result ≡ rules.told_press shifted press }
{
    match (character(press.key), shifted) {
        (Some(c), Some(told)) if is_told(c, press.held) => {
            character_press(told, press.held & ALL_BUT_SHIFT)
        }
        _ => press,
    }
}

// With SHIFT a letter is its capital, without SHIFT. Capitals and signs show SHIFT by themselves. Any other character keeps it.
#[tactic(auto, unfolding(crate::specs::Presses::shown_press))]
fn shown_press(press: KeyPress) -> KeyPress
    ensures { result ≡ rules.shown_press press }
{
    match character(press.key) {
        Some(c) if has_shift(press.held) => match shown_with_shift(c) {
            Some(shown) => character_press(shown, press.held & ALL_BUT_SHIFT),
            None => press,
        },
        _ => press,
    }
}

// A capital with CTRL, SUPER, HYPER or META is its letter with SHIFT.
#[tactic(auto, unfolding(crate::specs::Presses::lowered_press))]
fn lowered_press(press: KeyPress) -> KeyPress
    ensures { result ≡ rules.lowered_press press }
{
    let Some(c) = character(press.key) else {
        return press;
    };
    match letter_of(c) {
        Some(letter) if press.held & STRONG != 0 => character_press(letter, press.held | SHIFT),
        _ => press,
    }
}

// The press of a key that has its main name and is no control character, by the rules on SHIFT.
#[tactic(auto, unfolding(crate::specs::Presses::cased_press))]
pub(super) fn shift_rules(shifted: Option<char>, press: KeyPress) -> KeyPress
    ensures { result ≡ rules.cased_press (rules.told_press shifted press) }
{
    lowered_press(shown_press(told_press(shifted, press)))
}
