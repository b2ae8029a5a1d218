//! Mouse reports to the bytes that a terminal sends for them.
ghost use Rattle.std.specs.Prelude.{◌≡◌, ◌+◌, ◌<◌, ◌≤◌, ◌↔◌, [], ◌∷◌, ◌++◌, codes, Some, None, Err, IfOk, if◌then◌else◌, nat_lt};
ghost use Rattle.termwiz_keys.specs.Introducers as bytes;
ghost use Rattle.termwiz_keys.specs.KeyCodes.{holds};
ghost use Rattle.termwiz_senders.specs.MouseTexts as rules;
ghost use Rattle.termwiz_senders.specs.MouseTexts.{mouse_text, sgr_text, text_with, urxvt_text};
ghost use Rattle.termwiz_senders.specs.declared.mouse.MouseEncoding.TheVariants as encoding;
ghost use Rattle.termwiz_senders.specs.declared.mouse.MouseError.TheVariants as error;

use bitflags::Flags;
use std::alloc::{AllocError, Global};
use termwiz_base::{Modifiers, MouseButton, MouseReport};
use termwiz_keys::encode::CSI;
use thiserror::Error;

/// Which mouse reports a program asked for, by xterm's modes.
#[derive(Clone, Copy, PartialEq, Eq, Debug)]
pub enum MouseTracking {
    /// Mode 9: presses, of wheels too, without modifiers.
    X10,
    /// Mode 1000: presses and releases.
    Normal,
    /// Mode 1002: also moves while a button is down.
    Button,
    /// Mode 1003: also moves while none is.
    Any,
}

/// How reports are written.
#[derive(Clone, Copy, PartialEq, Eq, Debug)]
pub enum MouseEncoding {
    /// ESC `[M` and three bytes, which can't tell a place beyond 223.
    Default,
    /// Mode 1015, from urxvt: the same in decimal numbers.
    Urxvt,
    /// Mode 1006, and 1016 with a place in pixels: decimal numbers, and a release tells its button.
    Sgr,
}

/// Why [`encode_mouse`] made no bytes.
#[derive(Clone, Copy, PartialEq, Eq, Debug, Error)]
pub enum MouseError {
    /// The column or the row is above 223, which one byte can't tell.
    #[error("the place is too far")]
    TooFar,
    /// Memory was refused.
    #[error("out of memory")]
    Memory,
}

impl From<AllocError> for MouseError {
    ghost from_gives = { λ _ e. e ≡ error.Memory };

    fn from(_e: AllocError) -> MouseError {
        MouseError::Memory
    }
}

// What happened to a button.
#[derive(Clone, Copy)]
pub(crate) enum Action {
    Press,
    Release,
    // A move while a button is down.
    Drag,
    // A move while none is.
    Move,
}

// What a report tells.
#[derive(Clone, Copy)]
pub(crate) struct Told {
    pub x: u16,
    pub y: u16,
    pub button: MouseButton,
    pub modifiers: Modifiers,
}

// The largest place that one byte can tell.
const LARGEST_PLACE: u16 = 223;

// Numbers are so much larger where one byte tells them, and codes in mode 1015.
const OFFSET: u8 = 32;

// What a move adds to a code.
const MOVE: u8 = 32;

// The code of no button.
const NO_BUTTON: u8 = 3;

/// What a terminal sends for a mouse report, if the program asked for these reports in this encoding. It is empty for a report that the
/// program doesn't get. Of the modifiers Shift, Alt and Ctrl are sent, and in mode 9 none.
///
/// `TooFar` comes exactly for a report that the program gets, at a place that the encoding can't tell. The only other error is `Memory`.
#[tactic(auto, unfolding(crate::specs::MouseTexts::mouse_text))]
pub fn encode_mouse(
    alloc: Global,
    report: &MouseReport,
    tracking: MouseTracking,
    encoding: MouseEncoding,
) -> Result<Vec<u8>, MouseError>
    ensures sent { IfOk result (λ sent. mouse_text report.now tracking encoding ≡ Some sent.items) }
    ensures too_far { (result ≡ Err error.TooFar) ↔ (mouse_text report.now tracking encoding ≡ None) }
{
    let told = told_by(report);
    let action = action_of(told.button);
    if !is_reported(tracking, action) {
        return Ok(Vec::new(alloc));
    }
    let code = button_code(encoding, action, number_of(told.button))
        + modifier_code(tracking, told.modifiers);
    match encoding {
        MouseEncoding::Default => default_bytes(alloc, code, told),
        MouseEncoding::Urxvt => Ok(urxvt_bytes(alloc, code, told)?),
        MouseEncoding::Sgr => Ok(sgr_bytes(alloc, code, told, last_character(action))?),
    }
}

// What a report tells.
fn told_by(report: &MouseReport) -> Told
    ensures { result ≡ rules.told_by report.now }
{
    match report {
        MouseReport::SGR1006 {
            x,
            y,
            button,
            modifiers,
        } => Told {
            x: *x,
            y: *y,
            button: *button,
            modifiers: *modifiers,
        },
        MouseReport::SGR1016 {
            x_pixels,
            y_pixels,
            button,
            modifiers,
        } => Told {
            x: *x_pixels,
            y: *y_pixels,
            button: *button,
            modifiers: *modifiers,
        },
    }
}

// What happened to a button.
fn action_of(button: MouseButton) -> Action
    ensures { result ≡ rules.action_of button }
{
    match button {
        MouseButton::Button1Press
        | MouseButton::Button2Press
        | MouseButton::Button3Press
        | MouseButton::Button4Press
        | MouseButton::Button5Press
        | MouseButton::Button6Press
        | MouseButton::Button7Press => Action::Press,
        MouseButton::Button1Release
        | MouseButton::Button2Release
        | MouseButton::Button3Release
        | MouseButton::Button4Release
        | MouseButton::Button5Release
        | MouseButton::Button6Release
        | MouseButton::Button7Release => Action::Release,
        MouseButton::Button1Drag | MouseButton::Button2Drag | MouseButton::Button3Drag =>
            Action::Drag,
        MouseButton::None => Action::Move,
    }
}

// The number of a button.
fn number_of(button: MouseButton) -> u8
    ensures number { result ≡ rules.number_of button }
    ensures small { result ≤ 67 }
{
    match button {
        MouseButton::Button1Press | MouseButton::Button1Release | MouseButton::Button1Drag => 0,
        MouseButton::Button2Press | MouseButton::Button2Release | MouseButton::Button2Drag => 1,
        MouseButton::Button3Press | MouseButton::Button3Release | MouseButton::Button3Drag => 2,
        MouseButton::Button4Press | MouseButton::Button4Release => 64,
        MouseButton::Button5Press | MouseButton::Button5Release => 65,
        MouseButton::Button6Press | MouseButton::Button6Release => 66,
        MouseButton::Button7Press | MouseButton::Button7Release => 67,
        MouseButton::None => NO_BUTTON,
    }
}

// Whether the program gets such a report.
fn is_reported(tracking: MouseTracking, action: Action) -> bool
    ensures { result ≡ rules.is_reported tracking action }
{
    match tracking {
        MouseTracking::X10 => matches!(action, Action::Press),
        MouseTracking::Normal => matches!(action, Action::Press | Action::Release),
        MouseTracking::Button => !matches!(action, Action::Move),
        MouseTracking::Any => true,
    }
}

// The code of a button without modifiers.
fn button_code(encoding: MouseEncoding, action: Action, number: u8) -> u8
    requires { number ≤ 67 }
    ensures code { result ≡ rules.button_code encoding action number }
    ensures small { result ≤ 99 }
{
    match (action, encoding) {
        (Action::Press, _) => number,
        (Action::Release, MouseEncoding::Sgr) => number,
        (Action::Release, _) => NO_BUTTON,
        (Action::Drag | Action::Move, _) => MOVE + number,
    }
}

// What a modifier counts, if it is held.
pub(crate) fn counted(held: Modifiers, modifier: Modifiers, count: u8) -> u8
    ensures counted { result ≡ (if holds held.0 modifier.0 then count else 0) }
    ensures small { result ≤ count }
{
    if held.contains(modifier) { count } else { 0 }
}

// What the modifiers add to a code.
pub(crate) fn modifier_code(tracking: MouseTracking, held: Modifiers) -> u8
    ensures code { result ≡ rules.counted 4 8 16 tracking held.0 }
    ensures small { result ≤ 28 }
{
    match tracking {
        MouseTracking::X10 => 0,
        _ => {
            counted(held, Modifiers::SHIFT, 4)
                + counted(held, Modifiers::ALT, 8)
                + counted(held, Modifiers::CTRL, 16)
        }
    }
}

// The byte of a place. `None` if it is too far.
fn place_byte(place: u16) -> Option<u8>
    ensures { result ≡ (if nat_lt 223 place then None else Some (32 + place)) }
{
    if place > LARGEST_PLACE {
        return None;
    }
    Some(OFFSET + place as u8)
}

// A report in three bytes.
fn three_bytes(alloc: Global, code: u8, x: u8, y: u8) -> Result<Vec<u8>, AllocError>
    requires { code ≤ 127 }
    ensures { IfOk result (λ sent. sent.items ≡ bytes.CSI ++ codes "M" ++ (32 + code) ∷ x ∷ y ∷ []) }
{
    Ok(Vec::from_array(alloc, [0x1b, b'[', b'M', OFFSET + code, x, y])?)
}

// The same, if the place isn't too far.
fn default_bytes(alloc: Global, code: u8, told: Told) -> Result<Vec<u8>, MouseError>
    requires { code ≤ 127 }
    ensures sent { IfOk result (λ sent. text_with encoding.Default code told ≡ Some sent.items) }
    ensures too_far { (result ≡ Err error.TooFar) ↔ (text_with encoding.Default code told ≡ None) }
{
    let (Some(x), Some(y)) = (place_byte(told.x), place_byte(told.y)) else {
        return Err(MouseError::TooFar);
    };
    Ok(three_bytes(alloc, code, x, y)?)
}

// A report in decimal numbers, with a code that is larger.
fn urxvt_bytes(alloc: Global, code: u8, told: Told) -> Result<Vec<u8>, AllocError>
    requires { code ≤ 127 }
    ensures { IfOk result (λ sent. sent.items ≡ urxvt_text code told.x told.y) }
{
    let code = OFFSET + code;
    let text = format!(in alloc; "{CSI}{code};{};{}M", told.x, told.y)?;
    Ok(text.into_bytes())
}

// The character at the end of a report in SGR's encoding.
fn last_character(action: Action) -> char
    ensures last { result ≡ rules.last_byte action }
    ensures ascii { result < 128 }
{
    match action {
        Action::Release => 'm',
        _ => 'M',
    }
}

// A report in decimal numbers, with this character at its end.
fn sgr_bytes(alloc: Global, code: u8, told: Told, last: char) -> Result<Vec<u8>, AllocError>
    requires { last < 128 }
    ensures { IfOk result (λ sent. sent.items ≡ sgr_text code told.x told.y last) }
{
    let text = format!(in alloc; "{CSI}<{code};{};{}{last}", told.x, told.y)?;
    Ok(text.into_bytes())
}
