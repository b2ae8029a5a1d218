// The calls that write events, and what a terminal replies.
ghost use Rattle.std.specs.Prelude.{◌≡◌, ◌≢◌, ◌<◌, ◌⊎◌, IfOk, IfSome, IfNone, None, Err, length, string_bytes};
ghost use Rattle.std.specs.Str.{IsUtf8};
ghost use Rattle.termwiz_extended_events.specs.declared.types.Event.{Event};
ghost use Rattle.termwiz_extended_events.specs.declared.types.MouseKind.{MouseKind as WhatHappened};
ghost use Rattle.termwiz_extended_events.specs.declared.types.MouseReport.{MouseReport as Report};
ghost use Rattle.termwiz_extended_events.specs.declared.types.StringKind.{StringKind as Kind};
ghost use Rattle.termwiz_senders.specs.EventTexts.{attributes_text, position_text, scheme_text};
ghost use Rattle.hedrugal.specs.EventCalls.{HasLongText, HasNoText, IsBadEvent, StandForEvent, TellsMouse, Wrote, WroteEvent};
ghost use Rattle.hedrugal.specs.Events.{mouse_kind_number, string_kind_number};
ghost use Rattle.hedrugal.specs.declared.event_calls.BadEvent.TheVariants as bad;

use crate::copying::write_out;
use crate::events::{
    CEvent, KIND_APC, KIND_CSI, KIND_CURSOR_POSITION, KIND_DCS, KIND_FOCUS_GAINED, KIND_FOCUS_LOST,
    KIND_KEY, KIND_KEYBOARD_FLAGS, KIND_MOUSE, KIND_OSC, KIND_PASTE, KIND_RESIZED, KIND_STRING_CUT,
    KIND_STRING_PART, MOUSE_KIND_DRAG, MOUSE_KIND_MOVE, MOUSE_KIND_PRESS, MOUSE_KIND_RELEASE,
    MOUSE_KIND_WHEEL,
};
use crate::handles::ParserHandle;
use crate::key_reports::report_of;
use crate::sender_calls::modifiers_in;
use crate::status::{BAD_NUMBER, BAD_TEXT, NO_MEMORY, NO_TEXT, NOT_INITIALIZED, OK, TOO_LONG};
use bitflags::Flags;
use std::alloc::{AllocError, Global};
use std::str;
use termwiz_input::types::{MouseButtons, PastedText};
use termwiz_input_extended::types::{
    Event, KeyText, MouseKind, MouseReport, SequenceBytes, StringKind,
};
use termwiz_senders::event::{
    EncodeEventError, encode_colour_scheme, encode_cursor_position, encode_device_attributes,
    encode_event,
};

// Why numbers and bytes stand for no event.
#[derive(Clone, Copy)]
pub(crate) enum BadEvent {
    // A number stands for nothing.
    Number,
    // The bytes of a text aren't UTF-8.
    Text,
    // Memory was refused.
    Memory,
}

impl From<AllocError> for BadEvent {
    ghost from_gives = { λ _ e. e ≡ bad.Memory };

    fn from(_e: AllocError) -> BadEvent {
        BadEvent::Memory
    }
}

// The kind of a string, by its number.
#[tactic(auto, unfolding(crate::specs::Events::string_kind_number))]
fn string_kind_of(number: u8) -> Option<StringKind>
    ensures some { IfSome result (λ kind. string_kind_number kind ≡ number) }
    ensures none { IfNone result ((kind : Kind) → ¬ (string_kind_number kind ≡ number)) }
{
    match number {
        KIND_OSC => Some(StringKind::Osc),
        KIND_DCS => Some(StringKind::Dcs),
        KIND_APC => Some(StringKind::Apc),
        _ => None,
    }
}

// What happened to the mouse, by its number.
#[tactic(auto, unfolding(crate::specs::Events::mouse_kind_number))]
fn mouse_kind_of(number: u8) -> Option<MouseKind>
    ensures some { IfSome result (λ kind. mouse_kind_number kind ≡ number) }
    ensures none { IfNone result ((kind : WhatHappened) → ¬ (mouse_kind_number kind ≡ number)) }
{
    match number {
        MOUSE_KIND_PRESS => Some(MouseKind::Press),
        MOUSE_KIND_RELEASE => Some(MouseKind::Release),
        MOUSE_KIND_DRAG => Some(MouseKind::Drag),
        MOUSE_KIND_MOVE => Some(MouseKind::Move),
        MOUSE_KIND_WHEEL => Some(MouseKind::Wheel),
        _ => None,
    }
}

// A mouse report. If its number of a button is 0, it names none.
fn mouse_in(numbers: &CEvent) -> Option<MouseReport>
    ensures some { IfSome result (λ report. TellsMouse numbers.now report) }
    ensures none { IfNone result ((report : Report) → ¬ TellsMouse numbers.now report) }
{
    Some(MouseReport {
        x: numbers.x,
        y: numbers.y,
        modifiers: modifiers_in(numbers.modifiers)?,
        buttons: MouseButtons::from_bits_retain(numbers.buttons),
        kind: mouse_kind_of(numbers.mouse_kind)?,
        button: (numbers.button != 0).then_some(numbers.button),
    })
}

// Bytes as a text.
fn text_in(alloc: Global, bytes: &[u8]) -> Result<String, BadEvent>
    ensures text { IfOk result (λ text. string_bytes text ≡ bytes.now) }
    ensures bad_text { result ≡ Err bad.Text → ¬ IsUtf8 bytes.now }
    ensures number { result ≡ Err bad.Number → ⊥ }
{
    let text = str::from_utf8(bytes).map_err(|_| BadEvent::Text)?;
    Ok(String::from_str(alloc, text)?)
}

// A copy of bytes.
fn bytes_in(alloc: Global, bytes: &[u8]) -> Result<SequenceBytes, AllocError>
    ensures { IfOk result (λ copy. copy ≡ bytes.now) }
{
    Ok(SequenceBytes::new(bytes.to_vec(alloc)?))
}

// The event that numbers and bytes stand for.
#[tactic(auto, unfolding(crate::specs::Events::kind_number))]
fn event_in(alloc: Global, numbers: &CEvent, bytes: &[u8]) -> Result<Event, BadEvent>
    ensures event { IfOk result (λ event. StandForEvent numbers.now bytes.now event) }
    ensures bad_number { result ≡ Err bad.Number → (event : Event) → ¬ StandForEvent numbers.now bytes.now event }
    ensures bad_text { result ≡ Err bad.Text → ¬ IsUtf8 bytes.now }
{
    Ok(match numbers.kind {
        KIND_MOUSE => Event::Mouse(mouse_in(numbers).ok_or(BadEvent::Number)?),
        KIND_PASTE => Event::Paste(PastedText::new(text_in(alloc, bytes)?)),
        KIND_KEY => {
            let mut report = report_of(alloc, numbers).ok_or(BadEvent::Number)?;
            report.text = KeyText::new(text_in(alloc, bytes)?);
            Event::Key(report)
        }
        KIND_FOCUS_GAINED => Event::FocusGained,
        KIND_FOCUS_LOST => Event::FocusLost,
        KIND_CURSOR_POSITION => Event::CursorPosition {
            row: numbers.row,
            column: numbers.column,
        },
        KIND_RESIZED => Event::Resized {
            rows: numbers.rows,
            columns: numbers.columns,
            height: numbers.height,
            width: numbers.width,
        },
        KIND_KEYBOARD_FLAGS => Event::KeyboardFlags(numbers.flags),
        KIND_CSI => Event::Csi(bytes_in(alloc, bytes)?),
        KIND_OSC => Event::Osc(bytes_in(alloc, bytes)?),
        KIND_DCS => Event::Dcs(bytes_in(alloc, bytes)?),
        KIND_APC => Event::Apc(bytes_in(alloc, bytes)?),
        KIND_STRING_PART => Event::StringPart {
            kind: string_kind_of(numbers.string_kind).ok_or(BadEvent::Number)?,
            bytes: bytes_in(alloc, bytes)?,
        },
        KIND_STRING_CUT => Event::StringCut {
            kind: string_kind_of(numbers.string_kind).ok_or(BadEvent::Number)?,
            bytes: bytes_in(alloc, bytes)?,
        },
        _ => return Err(BadEvent::Number),
    })
}

/// Writes the bytes that a parser reads as an event, by its reading and its sequence table. The parser is unchanged. `out` has as much of the
/// bytes as it has room for, and `sent_len` is how many they are; else that is 0.
#[unsafe(no_mangle)]
pub extern "C" fn hed_encode_event(
    alloc: Global,
    event: &CEvent,
    text: &[u8],
    parser: &mut ParserHandle,
    out: &mut [u8],
    sent_len: &mut usize,
) -> u32
    ensures answers { (result ≡ OK) ⊎ ((result ≡ NO_TEXT) ⊎ ((result ≡ TOO_LONG) ⊎ ((result ≡ NO_MEMORY) ⊎ ((result ≡ BAD_NUMBER) ⊎ ((result ≡ BAD_TEXT) ⊎ (result ≡ NOT_INITIALIZED)))))) }
    ensures text { result ≡ OK → WroteEvent event.now text.now parser.old.state.held out.old out.new sent_len.new }
    ensures no_text { result ≡ NO_TEXT → HasNoText event.now text.now parser.old.state.held }
    ensures too_long { result ≡ TOO_LONG → HasLongText event.now text.now parser.old.state.held }
    ensures bad_number { result ≡ BAD_NUMBER → IsBadEvent event.now text.now }
    ensures bad_text { result ≡ BAD_TEXT → ¬ IsUtf8 text.now }
    ensures no_parser { result ≡ NOT_INITIALIZED → parser.old.state.held ≡ None }
    ensures none { result ≢ OK → sent_len.new ≡ 0 }
    ensures same { result ≢ OK → out.new ≡ out.old }
    ensures parser_same { parser.new.state ≡ parser.old.state }
{
    *sent_len = 0;
    let event = match event_in(alloc, event, text) {
        Ok(event) => event,
        Err(BadEvent::Number) => return BAD_NUMBER,
        Err(BadEvent::Text) => return BAD_TEXT,
        Err(BadEvent::Memory) => return NO_MEMORY,
    };
    let Some(held) = parser.get_mut() else {
        return NOT_INITIALIZED;
    };
    match encode_event(alloc, &event, held.parser.parser()) {
        Ok(sent) => write_out(&sent, out, sent_len),
        Err(EncodeEventError::NoText) => NO_TEXT,
        Err(EncodeEventError::TooLong) => TOO_LONG,
        Err(EncodeEventError::Memory) => NO_MEMORY,
    }
}

/// Writes what a terminal replies to a question for the position of its cursor, as [`hed_encode_event`] does.
#[unsafe(no_mangle)]
pub extern "C" fn hed_encode_cursor_position(
    alloc: Global,
    row: u16,
    column: u16,
    private: bool,
    out: &mut [u8],
    sent_len: &mut usize,
) -> u32
    ensures answers { (result ≡ OK) ⊎ (result ≡ NO_MEMORY) }
    ensures text { result ≡ OK → Wrote (position_text row column private) out.old out.new sent_len.new }
    ensures none { result ≢ OK → sent_len.new ≡ 0 }
    ensures same { result ≢ OK → out.new ≡ out.old }
{
    *sent_len = 0;
    match encode_cursor_position(alloc, row, column, private) {
        Ok(sent) => write_out(&sent, out, sent_len),
        Err(_) => NO_MEMORY,
    }
}

/// Writes what a terminal sends of its colours, dark or light, as [`hed_encode_event`] does.
#[unsafe(no_mangle)]
pub extern "C" fn hed_encode_colour_scheme(
    alloc: Global,
    dark: bool,
    out: &mut [u8],
    sent_len: &mut usize,
) -> u32
    ensures answers { (result ≡ OK) ⊎ (result ≡ NO_MEMORY) }
    ensures text { result ≡ OK → Wrote (scheme_text dark) out.old out.new sent_len.new }
    ensures none { result ≢ OK → sent_len.new ≡ 0 }
    ensures same { result ≢ OK → out.new ≡ out.old }
{
    *sent_len = 0;
    match encode_colour_scheme(alloc, dark) {
        Ok(sent) => write_out(&sent, out, sent_len),
        Err(_) => NO_MEMORY,
    }
}

/// Writes what a terminal replies to the question for its attributes, as [`hed_encode_event`] does.
#[unsafe(no_mangle)]
pub extern "C" fn hed_encode_device_attributes(
    alloc: Global,
    numbers: &[u16],
    out: &mut [u8],
    sent_len: &mut usize,
) -> u32
    ensures answers { (result ≡ OK) ⊎ ((result ≡ NO_MEMORY) ⊎ (result ≡ TOO_LONG)) }
    ensures text { result ≡ OK → Wrote (attributes_text numbers.now) out.old out.new sent_len.new }
    ensures too_long { result ≡ TOO_LONG → 256 < length (attributes_text numbers.now) }
    ensures none { result ≢ OK → sent_len.new ≡ 0 }
    ensures same { result ≢ OK → out.new ≡ out.old }
{
    *sent_len = 0;
    match encode_device_attributes(alloc, numbers) {
        Ok(sent) => write_out(&sent, out, sent_len),
        Err(EncodeEventError::TooLong) => TOO_LONG,
        Err(_) => NO_MEMORY,
    }
}
