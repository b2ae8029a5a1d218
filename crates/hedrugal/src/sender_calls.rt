// The calls that write what a terminal sends that is no key: pasted texts and mouse reports.
ghost use Rattle.std.specs.Prelude.{◌≡◌, ◌≢◌, ◌⊎◌, ◌↔◌, None};
ghost use Rattle.hedrugal.specs.SenderCalls.{IsTooFar, WroteMouse, WrotePaste, asked_in, button_in, encoding_in, modifiers_in, tracking_in};

use crate::copying::write_out;
use crate::status::{BAD_NUMBER, NO_MEMORY, OK, TOO_FAR};
use bitflags::Flags;
use std::alloc::Global;
use termwiz_base::{Modifiers, MouseButton, MouseReport};
use termwiz_senders::mouse::{MouseEncoding, MouseError, MouseTracking, encode_mouse};
use termwiz_senders::paste::encode_paste;

/// `hed_sent_mouse`: a mouse report that a terminal sends.
#[repr(C)]
#[derive(Clone, Copy)]
pub struct CSentMouse {
    /// The column: the leftmost is 1.
    pub x: u16,
    /// The row: the topmost is 1.
    pub y: u16,
    /// The modifiers that are held, as Kitty's bits.
    pub modifiers: u8,
    /// The number of what happened to which button.
    pub button: u8,
}

// A report, and what the program asked for.
#[derive(Drop)]
pub(crate) struct Asked {
    pub(crate) report: MouseReport,
    pub(crate) tracking: MouseTracking,
    pub(crate) encoding: MouseEncoding,
}

// What happened to which button, by its number.
fn button_in(number: u8) -> Option<MouseButton>
    ensures { result ≡ button_in number }
{
    match number {
        0 => Some(MouseButton::None),
        1 => Some(MouseButton::Button1Press),
        2 => Some(MouseButton::Button2Press),
        3 => Some(MouseButton::Button3Press),
        4 => Some(MouseButton::Button4Press),
        5 => Some(MouseButton::Button5Press),
        6 => Some(MouseButton::Button6Press),
        7 => Some(MouseButton::Button7Press),
        8 => Some(MouseButton::Button1Release),
        9 => Some(MouseButton::Button2Release),
        10 => Some(MouseButton::Button3Release),
        11 => Some(MouseButton::Button4Release),
        12 => Some(MouseButton::Button5Release),
        13 => Some(MouseButton::Button6Release),
        14 => Some(MouseButton::Button7Release),
        15 => Some(MouseButton::Button1Drag),
        16 => Some(MouseButton::Button2Drag),
        17 => Some(MouseButton::Button3Drag),
        _ => None,
    }
}

// Which reports a program asked for, by its number.
fn tracking_in(number: u32) -> Option<MouseTracking>
    ensures { result ≡ tracking_in number }
{
    match number {
        0 => Some(MouseTracking::X10),
        1 => Some(MouseTracking::Normal),
        2 => Some(MouseTracking::Button),
        3 => Some(MouseTracking::Any),
        _ => None,
    }
}

// How reports are written, by its number.
fn encoding_in(number: u32) -> Option<MouseEncoding>
    ensures { result ≡ encoding_in number }
{
    match number {
        0 => Some(MouseEncoding::Default),
        1 => Some(MouseEncoding::Urxvt),
        2 => Some(MouseEncoding::Sgr),
        _ => None,
    }
}

// The modifiers of these bits of Kitty's. `None` if there are others than SHIFT, ALT, CTRL and SUPER.
pub(crate) fn modifiers_in(bits: u8) -> Option<Modifiers>
    ensures { result ≡ modifiers_in bits }
{
    (bits <= 15).then_some(Modifiers::from_bits_retain(2 * u16::from(bits)))
}

// What the numbers ask for. `None` if one of them names nothing.
fn asked_in(numbers: &CSentMouse, tracking: u32, encoding: u32) -> Option<Asked>
    ensures { result ≡ asked_in numbers.now tracking encoding }
{
    Some(Asked {
        report: MouseReport::SGR1006 {
            x: numbers.x,
            y: numbers.y,
            button: button_in(numbers.button)?,
            modifiers: modifiers_in(numbers.modifiers)?,
        },
        tracking: tracking_in(tracking)?,
        encoding: encoding_in(encoding)?,
    })
}

/// Writes what a terminal sends for a pasted text, made safe, in brackets if the program asked for them. `out` has as much of the bytes as it has
/// room for, and `sent_len` is how many they are; else that is 0.
#[unsafe(no_mangle)]
pub extern "C" fn hed_encode_paste(
    alloc: Global,
    text: &[u8],
    bracketed: bool,
    out: &mut [u8],
    sent_len: &mut usize,
) -> u32
    ensures answers { (result ≡ OK) ⊎ (result ≡ NO_MEMORY) }
    ensures text { result ≡ OK → WrotePaste text.now bracketed out.old out.new sent_len.new }
    ensures none { result ≢ OK → sent_len.new ≡ 0 }
    ensures same { result ≢ OK → out.new ≡ out.old }
{
    *sent_len = 0;
    match encode_paste(alloc, text, bracketed) {
        Ok(sent) => write_out(&sent, out, sent_len),
        Err(_) => NO_MEMORY,
    }
}

/// Writes what a terminal sends for a mouse report, if the program asked for these reports in this encoding, as [`hed_encode_paste`] does.
#[unsafe(no_mangle)]
pub extern "C" fn hed_encode_mouse(
    alloc: Global,
    report: &CSentMouse,
    tracking: u32,
    encoding: u32,
    out: &mut [u8],
    sent_len: &mut usize,
) -> u32
    ensures answers { (result ≡ OK) ⊎ ((result ≡ NO_MEMORY) ⊎ ((result ≡ BAD_NUMBER) ⊎ (result ≡ TOO_FAR))) }
    ensures text { result ≡ OK → WroteMouse report.now tracking encoding out.old out.new sent_len.new }
    ensures bad_number { result ≡ BAD_NUMBER ↔ (asked_in report.now tracking encoding ≡ None) }
    ensures too_far { result ≡ TOO_FAR ↔ IsTooFar report.now tracking encoding }
    ensures none { result ≢ OK → sent_len.new ≡ 0 }
    ensures same { result ≢ OK → out.new ≡ out.old }
{
    *sent_len = 0;
    let Some(asked) = asked_in(report, tracking, encoding) else {
        return BAD_NUMBER;
    };
    match encode_mouse(alloc, &asked.report, asked.tracking, asked.encoding) {
        Ok(sent) => write_out(&sent, out, sent_len),
        Err(MouseError::TooFar) => TOO_FAR,
        Err(MouseError::Memory) => NO_MEMORY,
    }
}
