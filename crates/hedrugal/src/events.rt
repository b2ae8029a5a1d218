// Events, and the kinds of what stays buffered, as C has them.
ghost use Rattle.std.specs.Prelude.{◌≡◌, option_map};
ghost use Rattle.termwiz_extended_events.specs.declared.types.Event.TheVariants.{Key, Mouse};
ghost use Rattle.hedrugal.specs.Events.{bare, c_event, c_part, key_event_kind_number, mouse_kind_number, no_event, own_bytes, string_kind_number};

use bitflags::Flags;
use termwiz_bindings::numbers::{reported_detail, reported_number};
use termwiz_input_extended::types::{
    Event, KeyEventKind, KeyReport, MouseKind, MouseReport, StringKind,
};

// The kinds of events.
pub(crate) const KIND_OTHER: u8 = 0;

pub(crate) const KIND_KEY: u8 = 1;

pub(crate) const KIND_MOUSE: u8 = 2;

pub(crate) const KIND_PASTE: u8 = 3;

pub(crate) const KIND_FOCUS_GAINED: u8 = 5;

pub(crate) const KIND_FOCUS_LOST: u8 = 6;

pub(crate) const KIND_CURSOR_POSITION: u8 = 7;

pub(crate) const KIND_RESIZED: u8 = 8;

pub(crate) const KIND_KEYBOARD_FLAGS: u8 = 9;

pub(crate) const KIND_CSI: u8 = 10;

pub(crate) const KIND_OSC: u8 = 11;

pub(crate) const KIND_DCS: u8 = 12;

pub(crate) const KIND_APC: u8 = 13;

pub(crate) const KIND_PASTE_PART: u8 = 14;

pub(crate) const KIND_STRING_PART: u8 = 15;

pub(crate) const KIND_STRING_CUT: u8 = 16;

// What happened to the mouse.
pub(crate) const MOUSE_KIND_PRESS: u8 = 1;

pub(crate) const MOUSE_KIND_RELEASE: u8 = 2;

pub(crate) const MOUSE_KIND_DRAG: u8 = 3;

pub(crate) const MOUSE_KIND_MOVE: u8 = 4;

pub(crate) const MOUSE_KIND_WHEEL: u8 = 5;

// What happened to a key.
pub(crate) const KEY_EVENT_KIND_PRESS: u8 = 1;

pub(crate) const KEY_EVENT_KIND_REPEAT: u8 = 2;

pub(crate) const KEY_EVENT_KIND_RELEASE: u8 = 3;

// The number of a key that types a character.
pub(crate) const KEY_CHAR: u16 = 1;

// What stands for a code point that the terminal didn't report.
pub(crate) const NO_CODE: u32 = 0xffff_ffff;

/// `hed_event`: an event in numbers. What its kind doesn't have is 0.
#[repr(C)]
#[derive(Clone, Copy)]
pub struct CEvent {
    /// 1 for a key, 2 for the mouse, 3 for a paste, 5 and 6 for a focus gained and lost, 7 for the position of the cursor, 8 for a new
    /// size, 9 for keyboard flags, 10 to 13 for a control sequence, an operating system command, a device control string and an
    /// application program command, 14 for a part of a paste, 15 for a part of a string, and 16 for a string that was cut off.
    pub kind: u8,
    /// The modifiers that were held with a key or at the mouse, as Kitty's bits.
    pub modifiers: u8,
    /// Of a key 1 for a press, 2 for a repeat, 3 for a release.
    pub key_event_kind: u8,
    /// Of the mouse 1 for a press, 2 for a release, 3 for a drag, 4 for a move without a button, 5 for a wheel.
    pub mouse_kind: u8,
    /// The number of the button that a mouse report names: 1 to 3 the left, the middle and the right one, 4 to 7 the wheel, 8 to 11 the side
    /// buttons. 0 if it names none.
    pub button: u8,
    /// The mouse buttons that are down, by the bits of `MouseButtons`.
    pub buttons: u8,
    /// The flags of Kitty's keyboard protocol.
    pub flags: u8,
    /// The kind of a string of which this is a part, or that was cut off: 11, 12 or 13.
    pub string_kind: u8,
    /// The number of the key, or 0 for a key without a name and for text without a key.
    pub key: u16,
    /// The mouse's column.
    pub x: u16,
    /// The mouse's row.
    pub y: u16,
    /// The cursor's row.
    pub row: u16,
    /// The cursor's column.
    pub column: u16,
    /// The terminal's number of rows.
    pub rows: u16,
    /// The terminal's number of columns.
    pub columns: u16,
    /// The terminal's height in pixels.
    pub height: u16,
    /// The terminal's width in pixels.
    pub width: u16,
    /// The code point of a character, the number of a function key, or the number of a key without a name in Kitty's table.
    pub detail: u32,
    /// The code point that the key types with Shift, or 0xffffffff.
    pub shifted: u32,
    /// The code point that the key at this place types on the standard layout, or 0xffffffff.
    pub base: u32,
    /// How many bytes the event brings.
    pub text_len: usize,
}

// All zero: what an event of no kind has.
pub(crate) const NO_EVENT: CEvent = CEvent {
    kind: KIND_OTHER,
    modifiers: 0,
    key_event_kind: 0,
    mouse_kind: 0,
    button: 0,
    buttons: 0,
    flags: 0,
    string_kind: 0,
    key: 0,
    x: 0,
    y: 0,
    row: 0,
    column: 0,
    rows: 0,
    columns: 0,
    height: 0,
    width: 0,
    detail: 0,
    shifted: 0,
    base: 0,
    text_len: 0,
};

// The number of what happened to a key.
#[tactic(auto, unfolding(crate::specs::Events::key_event_kind_number))]
fn key_event_kind_number(kind: KeyEventKind) -> u8
    ensures { result ≡ key_event_kind_number kind }
{
    match kind {
        KeyEventKind::Press => KEY_EVENT_KIND_PRESS,
        KeyEventKind::Repeat => KEY_EVENT_KIND_REPEAT,
        KeyEventKind::Release => KEY_EVENT_KIND_RELEASE,
    }
}

// Shows a key as C has it, where no event is shown yet.
#[tactic(auto, unfolding(crate::specs::Events::c_event, crate::specs::Events::kind_number, crate::specs::Events::own_bytes))]
#[inline(always)]
fn show_key(report: &KeyReport, shown: &mut CEvent)
    requires { shown.old ≡ no_event }
    ensures { shown.new ≡ c_event (Key report.now) }
{
    shown.kind = KIND_KEY;
    shown.modifiers = report.modifiers;
    shown.key_event_kind = key_event_kind_number(report.kind);
    shown.key = reported_number(report.key);
    shown.detail = reported_detail(report.key);
    shown.shifted = report.shifted.map_or(NO_CODE, u32::from);
    shown.base = report.base.map_or(NO_CODE, u32::from);
    shown.text_len = report.text.as_str().len();
}

// The number of what happened to the mouse.
#[tactic(auto, unfolding(crate::specs::Events::mouse_kind_number))]
fn mouse_kind_number(kind: MouseKind) -> u8
    ensures { result ≡ mouse_kind_number kind }
{
    match kind {
        MouseKind::Press => MOUSE_KIND_PRESS,
        MouseKind::Release => MOUSE_KIND_RELEASE,
        MouseKind::Drag => MOUSE_KIND_DRAG,
        MouseKind::Move => MOUSE_KIND_MOVE,
        MouseKind::Wheel => MOUSE_KIND_WHEEL,
    }
}

// Shows a mouse report, where no event is shown yet.
#[tactic(auto, unfolding(crate::specs::Events::c_event, crate::specs::Events::kind_number, crate::specs::Events::own_bytes))]
#[inline(always)]
fn show_mouse(report: &MouseReport, shown: &mut CEvent)
    requires { shown.old ≡ no_event }
    ensures { shown.new ≡ c_event (Mouse report.now) }
{
    shown.kind = KIND_MOUSE;
    shown.modifiers = report.modifiers.encode_xterm();
    shown.mouse_kind = mouse_kind_number(report.kind);
    shown.button = report.button.unwrap_or(0);
    shown.buttons = report.buttons.bits();
    shown.x = report.x;
    shown.y = report.y;
}

// The bytes that an event brings, taken out of it. `None` if its kind has none.
#[tactic(auto, unfolding(crate::specs::Events::own_bytes))]
#[inline(always)]
pub(crate) fn own_bytes(event: Event) -> Option<Vec<u8>>
    ensures { option_map (λ bytes. bytes.items) result ≡ own_bytes event }
{
    match event {
        Event::Paste(text) => Some(text.into_string().into_bytes()),
        Event::Key(report) => Some(report.text.into_string().into_bytes()),
        Event::Csi(bytes)
        | Event::Osc(bytes)
        | Event::Dcs(bytes)
        | Event::Apc(bytes)
        | Event::StringPart { bytes, .. }
        | Event::StringCut { bytes, .. } => Some(bytes.into_vec()),
        _ => None,
    }
}

// The number of a string's kind: that of the event of a whole one.
#[tactic(auto, unfolding(crate::specs::Events::string_kind_number))]
pub(crate) fn string_kind_number(kind: StringKind) -> u8
    ensures { result ≡ string_kind_number kind }
{
    match kind {
        StringKind::Osc => KIND_OSC,
        StringKind::Dcs => KIND_DCS,
        StringKind::Apc => KIND_APC,
    }
}

// An event of this kind that brings these bytes.
#[inline(always)]
pub(crate) fn c_bytes(kind: u8, bytes: &[u8]) -> CEvent
    ensures { result ≡ bare kind bytes.now }
{
    CEvent {
        kind,
        text_len: bytes.len(),
        ..NO_EVENT
    }
}

// Shows an event as C has it.
#[tactic(auto, unfolding(crate::specs::Events::c_event, crate::specs::Events::kind_number, crate::specs::Events::own_bytes))]
#[inline(always)]
pub(crate) fn show(event: &Event, shown: &mut CEvent)
    ensures { shown.new ≡ c_event event.now }
{
    *shown = NO_EVENT;
    match event {
        Event::Key(report) => show_key(report, shown),
        Event::Mouse(report) => show_mouse(report, shown),
        Event::Paste(text) => {
            shown.kind = KIND_PASTE;
            shown.text_len = text.as_str().len();
        }
        Event::FocusGained => shown.kind = KIND_FOCUS_GAINED,
        Event::FocusLost => shown.kind = KIND_FOCUS_LOST,
        Event::CursorPosition { row, column } => {
            shown.kind = KIND_CURSOR_POSITION;
            shown.row = *row;
            shown.column = *column;
        }
        Event::Resized {
            rows,
            columns,
            height,
            width,
        } => {
            shown.kind = KIND_RESIZED;
            shown.rows = *rows;
            shown.columns = *columns;
            shown.height = *height;
            shown.width = *width;
        }
        Event::KeyboardFlags(flags) => {
            shown.kind = KIND_KEYBOARD_FLAGS;
            shown.flags = *flags;
        }
        Event::Csi(bytes) => *shown = c_bytes(KIND_CSI, bytes.as_slice()),
        Event::Osc(bytes) => *shown = c_bytes(KIND_OSC, bytes.as_slice()),
        Event::Dcs(bytes) => *shown = c_bytes(KIND_DCS, bytes.as_slice()),
        Event::Apc(bytes) => *shown = c_bytes(KIND_APC, bytes.as_slice()),
        Event::StringPart { kind, bytes } => {
            *shown = c_bytes(KIND_STRING_PART, bytes.as_slice());
            shown.string_kind = string_kind_number(*kind);
        }
        Event::StringCut { kind, bytes } => {
            *shown = c_bytes(KIND_STRING_CUT, bytes.as_slice());
            shown.string_kind = string_kind_number(*kind);
        }
    }
}

// The part of a paste that has a text of so many bytes.
#[tactic(auto, unfolding(crate::specs::Events::c_event, crate::specs::Events::own_bytes))]
pub(crate) fn c_part(text: &str) -> CEvent
    ensures { result ≡ c_part text.now }
{
    CEvent {
        kind: KIND_PASTE_PART,
        text_len: text.len(),
        ..NO_EVENT
    }
}
