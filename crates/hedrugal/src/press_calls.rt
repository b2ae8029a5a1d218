// The calls that tell the press of a key.
ghost use Rattle.std.specs.Prelude.{◌≡◌, ◌≢◌, ◌⊎◌, ◌↔◌, Some, None};
ghost use Rattle.std.specs.Str.{IsUtf8};
ghost use Rattle.termwiz_bindings.specs.declared.press.KeyPress.{KeyPress as Pressed};
ghost use Rattle.hedrugal.specs.Calls.{kept};
ghost use Rattle.hedrugal.specs.PressCalls.{HasNoPress, HasNoSecondPress, IsBadKey, WrotePress, WroteSecondPress, c_press};

use crate::events::{CEvent, KIND_KEY};
use crate::handles::ParserHandle;
use crate::key_reports::report_of;
use crate::status::{BAD_NUMBER, BAD_TEXT, NONE, NOT_INITIALIZED, OK};
use std::alloc::Global;
use std::str;
use termwiz_bindings::laws::second_presses;
use termwiz_bindings::numbers::{reported_detail, reported_number};
use termwiz_bindings::press::KeyPress;

/// `hed_key_press`: the press of a key in numbers.
#[repr(C)]
#[derive(Clone, Copy, Default, PartialEq)]
pub struct CKeyPress {
    /// The number of the key, or 0 for a key without a name.
    pub key: u16,
    /// The modifiers that are held, as Kitty's bits without the locks.
    pub held: u8,
    /// The code point of a character, the number of a function key, or the number of a key without a name in Kitty's table.
    pub detail: u32,
}

// A press in numbers.
pub(crate) fn c_press(press: KeyPress) -> CKeyPress
    ensures { result ≡ c_press press }
{
    CKeyPress {
        key: reported_number(press.key()),
        held: press.held(),
        detail: reported_detail(press.key()),
    }
}

// Writes a press, if there is one.
fn write_press(told: Option<KeyPress>, press: &mut CKeyPress) -> u32
    ensures answers { (result ≡ OK) ⊎ (result ≡ NONE) }
    ensures wrote { result ≡ OK → (p : Pressed) × (told ≡ Some p) × (press.new ≡ c_press p) }
    ensures none { result ≡ NONE → told ≡ None }
    ensures same { result ≢ OK → press.new ≡ press.old }
{
    let Some(told) = told else {
        return NONE;
    };
    *press = c_press(told);
    OK
}

/// Writes the press of an event of a key that types this text, if it has one: it isn't a release, and its key makes a press by itself.
#[unsafe(no_mangle)]
pub extern "C" fn hed_event_press(
    alloc: Global,
    event: &CEvent,
    text: &[u8],
    press: &mut CKeyPress,
) -> u32
    ensures answers { (result ≡ OK) ⊎ ((result ≡ NONE) ⊎ ((result ≡ BAD_NUMBER) ⊎ (result ≡ BAD_TEXT))) }
    ensures wrote { result ≡ OK → WrotePress event.now text.now press.new }
    ensures none { result ≡ NONE → HasNoPress event.now text.now }
    ensures bad_number { result ≡ BAD_NUMBER → IsBadKey event.now }
    ensures bad_text { result ≡ BAD_TEXT → ¬ IsUtf8 text.now }
    ensures same { result ≢ OK → press.new ≡ press.old }
{
    if event.kind != KIND_KEY {
        return NONE;
    }
    let Some(told) = report_of(alloc, event) else {
        return BAD_NUMBER;
    };
    let Ok(typed) = str::from_utf8(text) else {
        return BAD_TEXT;
    };
    write_press(KeyPress::of_report_typing(&told, typed), press)
}

/// Writes the second press of an event of a key, if it has one: a press to try where the first one leads nowhere.
#[unsafe(no_mangle)]
pub extern "C" fn hed_event_second(alloc: Global, event: &CEvent, press: &mut CKeyPress) -> u32
    ensures answers { (result ≡ OK) ⊎ ((result ≡ NONE) ⊎ (result ≡ BAD_NUMBER)) }
    ensures wrote { result ≡ OK → WroteSecondPress event.now press.new }
    ensures none { result ≡ NONE → HasNoSecondPress event.now }
    ensures bad_number { result ≡ BAD_NUMBER → IsBadKey event.now }
    ensures same { result ≢ OK → press.new ≡ press.old }
{
    if event.kind != KIND_KEY {
        return NONE;
    }
    let Some(told) = report_of(alloc, event) else {
        return BAD_NUMBER;
    };
    second_presses();
    write_press(KeyPress::second(&told), press)
}

/// Writes the press of the event that a parser told last, as `hed_event_press` does with the bytes of that event.
#[unsafe(no_mangle)]
pub extern "C" fn hed_parser_press(
    alloc: Global,
    parser: &mut ParserHandle,
    event: &CEvent,
    press: &mut CKeyPress,
) -> u32
    ensures answers { (result ≡ OK) ⊎ ((result ≡ NONE) ⊎ ((result ≡ BAD_NUMBER) ⊎ ((result ≡ BAD_TEXT) ⊎ (result ≡ NOT_INITIALIZED)))) }
    ensures wrote { result ≡ OK → WrotePress event.now (kept parser.old.state.held) press.new }
    ensures none { result ≡ NONE → HasNoPress event.now (kept parser.old.state.held) }
    ensures bad_number { result ≡ BAD_NUMBER → IsBadKey event.now }
    ensures bad_text { result ≡ BAD_TEXT → ¬ IsUtf8 (kept parser.old.state.held) }
    ensures no_parser { result ≡ NOT_INITIALIZED ↔ (parser.old.state.held ≡ None) }
    ensures same { result ≢ OK → press.new ≡ press.old }
    ensures parser_same { parser.new.state ≡ parser.old.state }
{
    let Some(held) = parser.get_mut() else {
        return NOT_INITIALIZED;
    };
    hed_event_press(alloc, event, held.text.as_slice(), press)
}

/// Writes the second press of the event that a parser told last, as `hed_event_second` does.
#[unsafe(no_mangle)]
pub extern "C" fn hed_parser_second(
    alloc: Global,
    parser: &mut ParserHandle,
    event: &CEvent,
    press: &mut CKeyPress,
) -> u32
    ensures answers { (result ≡ OK) ⊎ ((result ≡ NONE) ⊎ ((result ≡ BAD_NUMBER) ⊎ (result ≡ NOT_INITIALIZED))) }
    ensures wrote { result ≡ OK → WroteSecondPress event.now press.new }
    ensures none { result ≡ NONE → HasNoSecondPress event.now }
    ensures bad_number { result ≡ BAD_NUMBER → IsBadKey event.now }
    ensures no_parser { result ≡ NOT_INITIALIZED ↔ (parser.old.state.held ≡ None) }
    ensures same { result ≢ OK → press.new ≡ press.old }
    ensures parser_same { parser.new.state ≡ parser.old.state }
{
    let Some(_) = parser.get_mut() else {
        return NOT_INITIALIZED;
    };
    hed_event_second(alloc, event, press)
}
