// The sequences that report something else than a key: the focus, the mouse, and what a terminal replies to questions.
ghost use Rattle.std.specs.Prelude.{◌≡◌, ◌<◌, ◌≤◌, Some, codes, option_and_then};
ghost use Rattle.termwiz_base.specs.Mouse.{largest_code};
ghost use Rattle.termwiz_extended_events.specs.declared.types.MouseKind.TheVariants.{Release};
ghost use Rattle.termwiz_extended_events.specs.MouseReports.{byte_report, side_report};
ghost use Rattle.termwiz_extended_events.specs.FieldsLeft.{fields_left};
ghost use Rattle.termwiz_extended_events.specs.Meanings.{IsMeant};
ghost use Rattle.termwiz_extended_events.specs.Numbers.{before_end, fields};
ghost use Rattle.termwiz_extended_events.specs.Replies as rules;
ghost use Rattle.termwiz_extended_events.specs.Replies.{position_of_fields, marked_position_of_fields, size_of_fields};

use crate::fields::{Fields, after_start, before_end};
use crate::meanings::Meaning;
use crate::mouse_reports::{byte_kind_of, named_button};
use crate::numbers::{FEW_DIGITS, first_number, number_within, place_number, short_number};
use crate::types::{MouseKind, MouseReport};
use termwiz_base::{MouseReport as Decoded, sgr_mouse};
use termwiz_keys::types::MouseButtons;

// The code of the first side button without modifiers.
const FIRST_SIDE_CODE: u32 = 128;

// I or O: the window gained the focus, or lost it.
#[tactic(auto, unfolding(crate::specs::Replies::focus))]
pub(crate) fn focus(t: &[u8]) -> Option<Meaning<'static>>
    ensures { IsMeant result (rules.focus t.now) }
{
    match t {
        [b'I'] => Some(Meaning::FocusGained),
        [b'O'] => Some(Meaning::FocusLost),
        _ => None,
    }
}

// row ; column, which count from 1.
fn position(body: &[u8]) -> Option<Meaning<'static>>
    ensures { IsMeant result (position_of_fields (fields body.now)) }
{
    let (row, rest) = first_number(body, b';', FEW_DIGITS, 1, 65535)?;
    let column = place_number(rest?)?;
    Some(Meaning::CursorPosition {
        row: row as u16,
        column,
    })
}

// row ; column ; page, of which the page may be missing.
fn marked_position(body: &[u8]) -> Option<Meaning<'static>>
    ensures { IsMeant result (marked_position_of_fields (fields body.now)) }
{
    let mut fields = Fields::new(body, b';');
    let row = place_number(fields.next()?)?;
    let column = place_number(fields.next()?)?;
    if let Some(page) = fields.next() {
        short_number(page)?;
        if fields.next().is_some() {
            return None;
        }
    }
    Some(Meaning::CursorPosition { row, column })
}

// row ; column R, or with a question mark in front, and then maybe with a page: the position of the cursor.
#[tactic(auto, unfolding(crate::specs::Replies::cursor_position))]
fn cursor_position(t: &[u8]) -> Option<Meaning<'static>>
    ensures { IsMeant result (rules.cursor_position t.now) }
{
    let body = before_end(t, b"R")?;
    match after_start(body, b"?") {
        Some(marked) => marked_position(marked),
        None => position(body),
    }
}

// ? flags u: the flags of kitty's keyboard protocol.
#[tactic(auto, unfolding(crate::specs::Replies::keyboard_flags))]
fn keyboard_flags(t: &[u8]) -> Option<Meaning<'static>>
    ensures { IsMeant result (rules.keyboard_flags t.now) }
{
    let digits = after_start(before_end(t, b"u")?, b"?")?;
    let flags = number_within(digits, FEW_DIGITS, 0, 255)?;
    Some(Meaning::KeyboardFlags(flags as u8))
}

// rows ; columns ; height ; width.
fn size(mut fields: Fields) -> Option<Meaning<'static>>
    ensures { IsMeant result (size_of_fields (fields_left fields.entry)) }
{
    let rows = short_number(fields.next()?)?;
    let columns = short_number(fields.next()?)?;
    let height = short_number(fields.next()?)?;
    let width = short_number(fields.next()?)?;
    match fields.next() {
        Some(_) => None,
        None => Some(Meaning::Resized {
            rows,
            columns,
            height,
            width,
        }),
    }
}

// 48 ; rows ; columns ; height ; width t: the new size of the terminal.
#[tactic(auto, unfolding(crate::specs::Replies::resize))]
fn resize(t: &[u8]) -> Option<Meaning<'static>>
    ensures { IsMeant result (rules.resize t.now) }
{
    let mut fields = Fields::new(before_end(t, b"t")?, b';');
    if fields.next()? == b"48".as_slice() {
        size(fields)
    } else {
        None
    }
}

// A reply, or a new size, by the first of these rules that fits.
#[tactic(auto, unfolding(crate::specs::Replies::reply))]
pub(crate) fn reply(t: &[u8]) -> Option<Meaning<'static>>
    ensures { IsMeant result (rules.reply t.now) }
{
    cursor_position(t)
        .or_else(|| keyboard_flags(t))
        .or_else(|| resize(t))
}

// The mouse report of a code up to the largest one, at a place.
#[tactic(auto, unfolding(termwiz_grammar::specs::MouseReports::mouse_event))]
fn byte_report(code: u16, x: u16, y: u16) -> Option<MouseReport>
    ensures { code ≤ largest_code → result ≡ Some (byte_report code x y) }
{
    match sgr_mouse(code, x, y, b'M') {
        Some(
            Decoded::SGR1006 {
                x,
                y,
                button,
                modifiers,
            },
        ) => Some(MouseReport {
            x,
            y,
            modifiers,
            buttons: MouseButtons::from(button),
            kind: byte_kind_of(code, named_button(code)),
            button: named_button(code),
        }),
        _ => None,
    }
}

// b ; x ; y M: a mouse report as urxvt writes it.
#[tactic(auto, unfolding(crate::specs::Replies::urxvt_mouse))]
fn urxvt_mouse(t: &[u8]) -> Option<MouseReport>
    ensures { result ≡ rules.urxvt_mouse t.now }
{
    let mut fields = Fields::new(before_end(t, b"M")?, b';');
    let b = number_within(fields.next()?, FEW_DIGITS, 32, 127)?;
    let x = short_number(fields.next()?)?;
    let y = short_number(fields.next()?)?;
    if fields.next().is_some() {
        return None;
    }
    byte_report((b - 32) as u16, x, y)
}

// M and three bytes: a mouse report as X10 writes it, where 32 is added to each number.
#[tactic(auto, unfolding(crate::specs::Replies::x10_mouse))]
fn x10_mouse(t: &[u8]) -> Option<MouseReport>
    ensures { result ≡ rules.x10_mouse t.now }
{
    match t {
        [b'M', b @ 32..=127, x @ 32..=255, y @ 32..=255] => byte_report(
            u16::from(*b - 32),
            u16::from(*x - 32),
            u16::from(*y - 32),
        ),
        _ => None,
    }
}

// A mouse report by the first of these rules that fits.
#[tactic(auto, unfolding(crate::specs::Replies::mouse_report))]
pub(crate) fn mouse_report(t: &[u8]) -> Option<MouseReport>
    ensures { result ≡ rules.mouse_report t.now }
{
    urxvt_mouse(t).or_else(|| x10_mouse(t))
}

// The report of a side button by its code without the first one.
#[tactic(auto, unfolding(termwiz_base::specs::Mouse::modifiers_of))]
fn side_report(kind: MouseKind, low: u16, x: u16, y: u16) -> Option<MouseReport>
    requires { low < 64 }
    ensures { result ≡ Some (side_report kind low x y) }
{
    match sgr_mouse(low, x, y, b'M') {
        Some(Decoded::SGR1006 { modifiers, .. }) => Some(MouseReport {
            x,
            y,
            modifiers,
            buttons: MouseButtons::NONE,
            kind,
            button: Some(8 + (low % 4) as u8),
        }),
        _ => None,
    }
}

// What happened to a side button that isn't released.
fn side_kind(low: u16) -> MouseKind
    ensures { result ≡ rules.side_kind low }
{
    if 32 <= low {
        MouseKind::Drag
    } else {
        MouseKind::Press
    }
}

// code ; x ; y, where the codes begin with this one: a side button that was pressed or dragged.
fn side_held(body: &[u8], first: u32) -> Option<MouseReport>
    requires { first ≤ 160 }
    ensures { result ≡ rules.side_of_fields rules.side_held first (fields body.now) }
{
    let mut fields = Fields::new(body, b';');
    let low = (number_within(fields.next()?, FEW_DIGITS, first, first + 63)? - first) as u16;
    let x = short_number(fields.next()?)?;
    let y = short_number(fields.next()?)?;
    if fields.next().is_some() {
        return None;
    }
    side_report(side_kind(low), low, x, y)
}

// code ; x ; y: a side button that was released.
fn side_released(body: &[u8]) -> Option<MouseReport>
    ensures { result ≡ rules.side_of_fields (side_report Release) rules.first_side_code (fields body.now) }
{
    let released = side_held(body, FIRST_SIDE_CODE)?;
    Some(MouseReport {
        kind: MouseKind::Release,
        ..released
    })
}

// The same before M.
fn side_held_before(t: &[u8]) -> Option<MouseReport>
    ensures { result ≡ option_and_then (λ body. rules.side_of_fields rules.side_held rules.first_side_code (fields body)) (before_end (codes "M") t.now) }
{
    side_held(before_end(t, b"M")?, FIRST_SIDE_CODE)
}

// The same of a release, before m.
fn side_released_before(t: &[u8]) -> Option<MouseReport>
    ensures { result ≡ option_and_then (λ body. rules.side_of_fields (side_report Release) rules.first_side_code (fields body)) (before_end (codes "m") t.now) }
{
    side_released(before_end(t, b"m")?)
}

// < code ; x ; y M or m: a side button as the SGR mode writes it.
#[tactic(auto, unfolding(crate::specs::Replies::sgr_side_button))]
fn sgr_side_button(t: &[u8]) -> Option<MouseReport>
    ensures { result ≡ rules.sgr_side_button t.now }
{
    let t = after_start(t, b"<")?;
    side_held_before(t).or_else(|| side_released_before(t))
}

// code ; x ; y M: a side button as urxvt writes it.
#[tactic(auto, unfolding(crate::specs::Replies::urxvt_side_button))]
fn urxvt_side_button(t: &[u8]) -> Option<MouseReport>
    ensures { result ≡ rules.urxvt_side_button t.now }
{
    side_held(before_end(t, b"M")?, FIRST_SIDE_CODE + 32)
}

// M and three bytes: a side button as X10 writes it.
#[tactic(auto, unfolding(crate::specs::Replies::x10_side_button))]
fn x10_side_button(t: &[u8]) -> Option<MouseReport>
    ensures { result ≡ rules.x10_side_button t.now }
{
    match t {
        [b'M', b @ 160..=223, x @ 32..=255, y @ 32..=255] => {
            let low = u16::from(*b - 160);
            side_report(side_kind(low), low, u16::from(*x - 32), u16::from(*y - 32))
        }
        _ => None,
    }
}

// The report of a side button by the first of these rules that fits.
#[tactic(auto, unfolding(crate::specs::Replies::side_button))]
pub(crate) fn side_button(t: &[u8]) -> Option<MouseReport>
    ensures { result ≡ rules.side_button t.now }
{
    sgr_side_button(t)
        .or_else(|| urxvt_side_button(t))
        .or_else(|| x10_side_button(t))
}
