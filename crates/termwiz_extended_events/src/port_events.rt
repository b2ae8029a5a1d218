//! What an event of the port is, as it is read.
ghost use Rattle.std.specs.Prelude.{◌≡◌, Some};
ghost use Rattle.termwiz_extended_events.specs.declared.types.Event.TheVariants.{Mouse};
ghost use Rattle.termwiz_extended_events.specs.PortEvents as rules;

use crate::types::{
    EraseByte, Event, KeyEventKind, KeyReport, Manner, MouseReport, NewlineByte, PlainReport,
    Reading, ReportedKey,
};
use std::alloc::Global;
use termwiz_base::{Flags, Modifiers};
use termwiz_keys::types::{InputEvent, KeyCode, KeyEvent, MouseEvent};

// Kitty's bit of SUPER.
const SUPER_BIT: u8 = 8;

// Kitty's bits of the modifiers that the port has: SHIFT, ALT, CTRL and SUPER.
const PORT_BITS: u8 = 15;

// The number of the first side button.
const FIRST_SIDE_BUTTON: u8 = 8;

// Kitty's bits of the port's modifiers.
fn kitty_bits(modifiers: Modifiers) -> u8
    ensures { result ≡ rules.kitty_bits modifiers.0 }
{
    let bits = modifiers.encode_xterm();
    if modifiers.contains(Modifiers::SUPER) {
        bits + SUPER_BIT
    } else {
        bits
    }
}

/// A key of the port as the report of a press. `alloc` makes an empty text, which needs no memory.
#[inline(always)]
pub fn pressed_key(alloc: Global, event: &KeyEvent) -> KeyReport
    ensures { result ≡ rules.pressed_key event.now }
{
    let manner = Manner {
        modifiers: kitty_bits(event.modifiers),
        kind: KeyEventKind::Press,
    };
    PlainReport::new(ReportedKey::Named(event.key), manner).whole(alloc)
}

// The byte that the Backspace key sends.
fn erase_byte(erase: EraseByte) -> u8
    ensures { result ≡ rules.erase_byte erase }
{
    match erase {
        EraseByte::Delete => 0x7f,
        EraseByte::Backspace => 0x08,
    }
}

/// The key of a byte that the reading decides, 8, 10 or 127, and `None` for any other byte.
pub fn decided_key(reading: Reading, byte: u8) -> Option<KeyCode>
    ensures { result ≡ rules.decided_key reading byte }
{
    match byte {
        0x08 | 0x7f if byte == erase_byte(reading.erase) => Some(KeyCode::Backspace),
        0x08 | 0x7f => Some(KeyCode::Char(char::from(byte))),
        b'\n' => Some(match reading.newline {
            NewlineByte::CtrlJ => KeyCode::Char('\n'),
            NewlineByte::Enter => KeyCode::Enter,
        }),
        _ => None,
    }
}

// The port's key of a press with no modifiers but the port's.
fn port_key(key: ReportedKey, modifiers: u8) -> Option<InputEvent>
    ensures { result ≡ rules.port_key key modifiers }
{
    match key {
        ReportedKey::Named(key) if modifiers <= PORT_BITS => Some(InputEvent::Key(KeyEvent {
            key,
            modifiers: Modifiers::from_bits_retain(2 * u16::from(modifiers)),
        })),
        _ => None,
    }
}

// The port's key of a report that tells no more than the port does.
fn port_key_of(report: &KeyReport) -> Option<InputEvent>
    ensures { result ≡ rules.port_key_of report.now.kind report.now.shifted report.now.base report.now.text report.now.key report.now.modifiers }
{
    match (report.kind, report.shifted, report.base) {
        (KeyEventKind::Press, None, None) if report.text.as_str().is_empty() => {
            port_key(report.key, report.modifiers)
        }
        _ => None,
    }
}

// Whether a mouse report names a side button.
fn is_side_button(button: Option<u8>) -> bool
    ensures { result ≡ rules.is_side_button button }
{
    match button {
        Some(button) => FIRST_SIDE_BUTTON <= button,
        None => false,
    }
}

// The port's event of a mouse report, but for one of a side button.
fn port_mouse_of(report: MouseReport) -> Option<InputEvent>
    ensures { result ≡ rules.port_of (Mouse report) }
{
    if is_side_button(report.button) {
        return None;
    }
    Some(InputEvent::Mouse(MouseEvent {
        x: report.x,
        y: report.y,
        mouse_buttons: report.buttons,
        modifiers: report.modifiers,
    }))
}

/// The event that termwiz has for this one: of a key that was pressed with no modifiers but SHIFT, ALT, CTRL and SUPER, and of which nothing
/// else is told, of a mouse report but that of a side button, and of a paste. `None` for any other event.
pub fn port_of(event: Event) -> Option<InputEvent>
    ensures { result ≡ rules.port_of event }
{
    match event {
        Event::Key(report) => port_key_of(&report),
        Event::Mouse(report) => port_mouse_of(report),
        Event::Paste(text) => Some(InputEvent::Paste(text)),
        _ => None,
    }
}
