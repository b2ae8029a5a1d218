// Mouse reports in xterm's SGR mode 1006: what a report's code and final byte say.

ghost use Rattle.std.specs.Prelude.{◌≡◌, ◌≤◌};
ghost use Rattle.std.specs.Option.{SomeIff};
ghost use Rattle.termwiz_base.specs.Mouse.{HasRow, IsReport, row_of, report_of, modifiers_of};

use crate::modifiers::Modifiers;
use bitflags::Flags;

/// What a mouse report says of the buttons: which one was pressed, released, or held while the mouse moved. Turning a
/// wheel is reported as pressing one of the buttons 4 to 7.
#[derive(Clone, Copy, PartialEq, Eq, Debug)]
pub enum MouseButton {
    /// The left button was pressed.
    Button1Press,

    /// The middle button was pressed.
    Button2Press,

    /// The right button was pressed.
    Button3Press,

    /// A wheel was turned up.
    Button4Press,

    /// A wheel was turned down.
    Button5Press,

    /// A wheel was turned left.
    Button6Press,

    /// A wheel was turned right.
    Button7Press,

    /// The left button was released.
    Button1Release,

    /// The middle button was released.
    Button2Release,

    /// The right button was released.
    Button3Release,

    /// The end of turning a wheel up, which few terminals report.
    Button4Release,

    /// The end of turning a wheel down, which few terminals report.
    Button5Release,

    /// The end of turning a wheel left, which few terminals report.
    Button6Release,

    /// The end of turning a wheel right, which few terminals report.
    Button7Release,

    /// The mouse was moved with the left button down.
    Button1Drag,

    /// The mouse was moved with the middle button down.
    Button2Drag,

    /// The mouse was moved with the right button down.
    Button3Drag,

    /// The mouse was moved with no button down, or the report doesn't say which button was released.
    None,
}

/// A mouse report, by the xterm mode in which it was sent.
#[derive(Clone, PartialEq, Eq, Debug, Drop)]
pub enum MouseReport {
    /// A report in mode 1006, with the position in cells.
    SGR1006 {
        /// The column, as it was sent: the leftmost is 1.
        x: u16,
        /// The row, as it was sent: the topmost is 1.
        y: u16,
        /// What happened to which button.
        button: MouseButton,
        /// The modifier keys that were held.
        modifiers: Modifiers,
    },

    /// A report in mode 1016, with the position in pixels. [`sgr_mouse`] never returns one.
    SGR1016 {
        /// The distance from the left, in pixels.
        x_pixels: u16,
        /// The distance from the top, in pixels.
        y_pixels: u16,
        /// What happened to which button.
        button: MouseButton,
        /// The modifier keys that were held.
        modifiers: Modifiers,
    },
}

// The largest code of a report on one of the seven buttons.
const LARGEST_CODE: u16 = 95;

// The bits of a code that say which modifiers are held.
const SHIFT_BIT: u16 = 4;

const ALT_BIT: u16 = 8;

const CTRL_BIT: u16 = 16;

/// Decodes a mouse report in xterm's SGR mode 1006 from its three numbers and its final byte `last`, which is `M` for a
/// press or a move and `m` for a release. The position is unchanged.
///
/// Returns `None` if `code` is above 95, since it then names none of the seven buttons, or if `last` is neither `M` nor
/// `m`.
///
/// See "Mouse Tracking" and "Extended coordinates" in xterm's "Control Sequences".
// Inlined, so that a mouse report pays for no call.
#[inline(always)]
#[tactic(auto, unfolding(crate::specs::Mouse::button_of))]
pub fn sgr_mouse(code: u16, x: u16, y: u16, last: u8) -> Option<MouseReport>
    ensures { SomeIff result (IsReport code last) (report_of code x y last) }
{
    if code > LARGEST_CODE {
        return None;
    }
    let base = code & !(SHIFT_BIT | ALT_BIT | CTRL_BIT);
    let button = match last {
        b'M' => pressed(base),
        b'm' => released(base),
        _ => return None,
    };
    Some(MouseReport::SGR1006 {
        x,
        y,
        button,
        modifiers: held(code),
    })
}

// Each code of a report has its row in the table of buttons.
#[tactic(auto, using(crate::proofs::MouseRows::has_row))]
fn has_row(code: u16)
    ensures { code ≤ 95 → HasRow code }
{}

// The button of a press or a move, by the code without its modifiers.
// Inlined also where it has several callers: a mouse report costs a tenth more otherwise.
#[inline(always)]
#[tactic(auto, unfolding(crate::specs::Mouse::row_of))]
fn pressed(base: u16) -> MouseButton
    ensures { result ≡ (row_of base).1 }
{
    match base {
        0 => MouseButton::Button1Press,
        1 => MouseButton::Button2Press,
        2 => MouseButton::Button3Press,
        32 => MouseButton::Button1Drag,
        33 => MouseButton::Button2Drag,
        34 => MouseButton::Button3Drag,
        64 => MouseButton::Button4Press,
        65 => MouseButton::Button5Press,
        66 => MouseButton::Button6Press,
        67 => MouseButton::Button7Press,
        _ => MouseButton::None,
    }
}

// The button of a release, by the code without its modifiers.
#[inline(always)]
#[tactic(auto, unfolding(crate::specs::Mouse::row_of))]
fn released(base: u16) -> MouseButton
    ensures { result ≡ (row_of base).2 }
{
    match base {
        0 | 32 => MouseButton::Button1Release,
        1 | 33 => MouseButton::Button2Release,
        2 | 34 => MouseButton::Button3Release,
        64 => MouseButton::Button4Release,
        65 => MouseButton::Button5Release,
        66 => MouseButton::Button6Release,
        67 => MouseButton::Button7Release,
        _ => MouseButton::None,
    }
}

// The modifiers that a code says are held.
#[tactic(auto, unfolding(crate::specs::Mouse::modifiers_of))]
fn held(code: u16) -> Modifiers
    ensures { result ≡ modifiers_of code }
{
    let mut held = Modifiers::empty();
    held.set(Modifiers::SHIFT, code & SHIFT_BIT != 0);
    held.set(Modifiers::ALT, code & ALT_BIT != 0);
    held.set(Modifiers::CTRL, code & CTRL_BIT != 0);
    held
}
