// Mouse reports: the reports of xterm's SGR mode 1006, recognised at the front of a text.
//
// A mouse report is ESC `[<`, a code up to 95, a column and a row up to 65535, separated by `;`, and `M` or `m`. Each number has
// one to five decimal digits.
ghost use Rattle.std.specs.Option.{SomeIff};
ghost use Rattle.termwiz_base.specs.Mouse.{IsReport};
ghost use Rattle.termwiz_keymap.specs.Bytes.{Begins};
ghost use Rattle.termwiz_grammar.specs.MouseReports.{introducer, mouse_event};
ghost use Rattle.termwiz_input.specs.MouseReportAnswers.{IsMouseReportAnswer, IsNumberAnswer, IsEventAnswer};

use termwiz_base::{MouseReport, sgr_mouse};
use termwiz_keymap::bytes::begins_with;
use termwiz_keys::types::{MouseButtons, MouseEvent};

/// What a text begins with, as far as mouse reports go.
#[derive(Drop)]
pub enum FrontReport {
    /// A mouse report: its event, and the number of its bytes.
    Whole(MouseEvent, usize),
    /// The whole text is a proper prefix of a mouse report.
    Begun,
    /// No mouse report is a prefix of the text, and no bytes after the text can complete one.
    Absent,
}

// Why no whole number, and no whole mouse report, was read.
#[derive(Drop)]
enum Unread {
    // The whole text may be the beginning of one.
    Begun,
    // The text begins with none, whatever follows it.
    Absent,
}

// A number at the front of a text: its value, the byte that ends it, and what follows that byte.
#[derive(Drop)]
struct Number<'t> {
    value: u16,
    end: u8,
    rest: &'t [u8],
}

const INTRODUCER: &[u8] = b"\x1b[<";

const LARGEST_CODE: u16 = 95;

const MOST_DIGITS: usize = 5;

// The number at the front of the text, up to a limit and with one of the bytes `ends` after it.
fn number_at<'t>(text: &'t [u8], limit: u16, ends: &[u8]) -> Result<Number<'t>, Unread>
    ensures { IsNumberAnswer text.now limit ends.now result }
{
    let mut value = 0u32;
    for (count, byte) in text.iter().enumerate() {
        if !byte.is_ascii_digit() {
            if count == 0 || !ends.contains(byte) {
                return Err(Unread::Absent);
            }
            return Ok(Number {
                value: value as u16,
                end: *byte,
                rest: &text[count + 1..],
            });
        }
        if count == MOST_DIGITS {
            return Err(Unread::Absent);
        }
        value = value * 10 + u32::from(*byte - b'0');
        if value > u32::from(limit) {
            return Err(Unread::Absent);
        }
    }
    Err(Unread::Begun)
}

// The event of a report, where its code and its last byte make one.
#[tactic(auto, unfolding(termwiz_grammar::specs::MouseReports::mouse_event))]
fn event_of(code: u16, x: u16, y: u16, last: u8) -> Option<MouseEvent>
    ensures { SomeIff result (IsReport code last) (mouse_event code x y last) }
{
    match sgr_mouse(code, x, y, last) {
        Some(
            MouseReport::SGR1006 {
                x,
                y,
                button,
                modifiers,
            },
        ) => Some(MouseEvent {
            x,
            y,
            mouse_buttons: MouseButtons::from(button),
            modifiers,
        }),
        _ => None,
    }
}

// The event of a mouse report, from what follows its introducer, and what follows the mouse report.
fn event_at(text: &[u8]) -> Result<(MouseEvent, &[u8]), Unread>
    ensures { IsEventAnswer text.now result }
{
    let code = number_at(text, LARGEST_CODE, b";")?;
    let column = number_at(code.rest, u16::MAX, b";")?;
    let row = number_at(column.rest, u16::MAX, b"Mm")?;
    match event_of(code.value, column.value, row.value, row.end) {
        Some(event) => Ok((event, row.rest)),
        None => Err(Unread::Absent),
    }
}

// What a text begins with, where its front is the introducer. It isn't inlined, so that a key doesn't pay for its places in a frame.
#[inline(never)]
fn introduced_report_at(text: &[u8]) -> FrontReport
    requires { Begins introducer text.now }
    ensures { IsMouseReportAnswer text.now result }
{
    match event_at(&text[INTRODUCER.len()..]) {
        Ok((event, rest)) => FrontReport::Whole(event, text.len() - rest.len()),
        Err(Unread::Begun) => FrontReport::Begun,
        Err(Unread::Absent) => FrontReport::Absent,
    }
}

/// Looks for a mouse report of xterm's SGR mode 1006 at the front of a text, for a parser over [`InputParser`](crate::input::InputParser).
// Inlined, so that a key pays for no call.
#[inline(always)]
pub fn mouse_report_at(text: &[u8]) -> FrontReport
    ensures { IsMouseReportAnswer text.now result }
{
    if begins_with(text, INTRODUCER) {
        introduced_report_at(text)
    } else if begins_with(INTRODUCER, text) {
        FrontReport::Begun
    } else {
        FrontReport::Absent
    }
}
