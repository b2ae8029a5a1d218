//! What a mouse report tells beside where the mouse was, which buttons are down and which modifiers are held.
ghost use Rattle.std.specs.Prelude.{◌≡◌, ◌+◌, ◌≤◌, ◌<◌, IfSome};
ghost use Rattle.termwiz_extended_events.specs.MouseReports as rules;
ghost use Rattle.termwiz_extended_events.specs.Numbers.{fields};

use crate::fields::Fields;
use crate::numbers::{FEW_DIGITS, number_within};
use crate::types::{MouseKind, MouseReport};
use termwiz_keys::types::MouseEvent;

// The largest code of a report of the SGR mode that the port reads.
const LARGEST_CODE: u32 = 95;

// The bit of a code that says that the mouse was moved.
const MOTION: u16 = 32;

// The codes of wheels begin here.
const FIRST_WHEEL: u16 = 64;

// The button that a code names, by its number. A code that ends in 3 names none.
pub(crate) fn named_button(code: u16) -> Option<u8>
    ensures { result ≡ rules.named_button code }
{
    let low = (code % 4) as u8;
    if FIRST_WHEEL <= code {
        return Some(4 + low);
    }
    match low {
        3 => None,
        _ => Some(1 + low),
    }
}

// What happened to the button that a code names, if it wasn't released.
fn held_kind(code: u16) -> MouseKind
    ensures { result ≡ rules.held_kind code }
{
    if FIRST_WHEEL <= code {
        MouseKind::Wheel
    } else if code & MOTION != 0 {
        MouseKind::Drag
    } else {
        MouseKind::Press
    }
}

// What happened to a button, where the end of the report tells a release.
fn kind_of(is_release: bool, code: u16, button: Option<u8>) -> MouseKind
    ensures { result ≡ rules.kind_of is_release code button }
{
    match button {
        None => MouseKind::Move,
        Some(_) if is_release => MouseKind::Release,
        Some(_) => held_kind(code),
    }
}

// What happened to a button, where the code tells a release and not which button was.
pub(crate) fn byte_kind_of(code: u16, button: Option<u8>) -> MouseKind
    ensures { result ≡ rules.byte_kind_of code button }
{
    match button {
        None if code & MOTION != 0 => MouseKind::Move,
        None => MouseKind::Release,
        Some(_) => held_kind(code),
    }
}

// The code at the front of a report's fields, if it has one digit or two, as nearly every code has. It is quicker than the fields.
fn short_code(t: &[u8]) -> Option<u32>
    ensures value { IfSome result (λ code. code ≡ rules.code_of_fields (fields t.now)) }
    ensures within { IfSome result (λ code. code ≤ 95) }
{
    if let [_, b';', ..] = t {
        return number_within(&t[..1], FEW_DIGITS, 0, LARGEST_CODE);
    }
    if let [_, _, b';', ..] = t {
        return number_within(&t[..2], FEW_DIGITS, 0, LARGEST_CODE);
    }
    None
}

// The code of a report of the SGR mode.
#[tactic(auto, unfolding(crate::specs::MouseReports::sgr_code))]
fn sgr_code(bytes: &[u8]) -> u16
    ensures { result ≡ rules.sgr_code bytes.now }
{
    let [_, _, _, t @ ..] = bytes else {
        return 0;
    };
    if let Some(code) = short_code(t) {
        return code as u16;
    }
    match Fields::new(t, b';').next() {
        Some(code) => number_within(code, FEW_DIGITS, 0, LARGEST_CODE).unwrap_or(0) as u16,
        None => 0,
    }
}

// Whether such a report ends with m.
fn is_released(bytes: &[u8]) -> bool
    ensures { result ≡ rules.is_released bytes.now }
{
    match bytes.last() {
        Some(last) => *last == b'm',
        None => false,
    }
}

/// A report of the SGR mode with these bytes, whose event the port has, with what it tells besides.
#[inline(always)]
pub fn sgr_report(bytes: &[u8], event: MouseEvent) -> MouseReport
    ensures { result ≡ rules.sgr_report bytes.now event }
{
    let code = sgr_code(bytes);
    let button = named_button(code);
    MouseReport {
        x: event.x,
        y: event.y,
        modifiers: event.modifiers,
        buttons: event.mouse_buttons,
        kind: kind_of(is_released(bytes), code, button),
        button,
    }
}
