//! Events of the extended parser to bytes that are read as them.
ghost use Rattle.std.specs.Prelude.{◌≡◌, ◌≢◌, ◌++◌, ◌<◌, ◌≤◌, ◌↔◌, ℕ, List, IfOk, IfErr, OnOk, true, IfSome, IfNone, IsTrue, Some, None, Ok, Err, flat_map, length, string_bytes};
ghost use Rattle.termwiz_keymap.specs.Bytes.{Occurs};
ghost use Rattle.termwiz_keys.specs.Introducers.{END};
ghost use Rattle.termwiz_laws.specs.PasteEvents.{pasted};
ghost use Rattle.termwiz_extended_events.specs.declared.types.Event.TheVariants as variants;
ghost use Rattle.termwiz_extended_events.specs.ReportedKeys.{entry_at};
ghost use Rattle.termwiz_extended_events.specs.Meanings.{whole_string};
ghost use Rattle.termwiz_extended_grammar.specs.Forms.{introducer};
ghost use Rattle.termwiz_extended_grammar.specs.Readings.{ReadsMore};
ghost use Rattle.termwiz_base.specs.declared.mouse.MouseReport.TheVariants.{SGR1006};
ghost use Rattle.termwiz_keys.specs.Buttons as buttons;
ghost use Rattle.termwiz_senders.specs.MouseTexts.{mouse_text};
ghost use Rattle.termwiz_senders.specs.declared.mouse.MouseTracking.TheVariants.{Any};
ghost use Rattle.termwiz_senders.specs.EventTexts as rules;
ghost use Rattle.termwiz_senders.specs.EventTexts.{IsEventText, IsItself, IsRefused, IsReply, IsTooLong};
ghost use Rattle.termwiz_senders.specs.KeyTexts.{IsKeyText, IsTried};
ghost use Rattle.termwiz_senders.specs.declared.event.EncodeEventError.TheVariants as error;

use crate::key::typed_key_text;
use crate::mouse::{
    MouseEncoding, MouseError, MouseTracking, counted, encode_mouse, modifier_code,
};
use crate::paste::{PASTE_END, PASTE_START};
use crate::reader::Reader;
use crate::report::report_text;
use bitflags::Flags;
use std::alloc::{AllocError, Global};
use std::fmt::Write;
use termwiz_base::{Modifiers, MouseButton, MouseReport as ButtonReport};
use termwiz_extended_events::types::{
    Dialect, Event, KeyReport, MouseKind, MouseReport, Reading, StringKind,
};
use termwiz_input_extended::input::ExtendedParser;
use termwiz_keymap::bytes::find_from;
use termwiz_keys::encode::CSI;
use thiserror::Error;

/// Why [`encode_event`] made no bytes.
#[derive(Clone, Copy, PartialEq, Eq, Debug, Error)]
pub enum EncodeEventError {
    /// No bytes are read as the event, by its rules.
    #[error("no bytes are read as the event")]
    NoText,
    /// The bytes would be more than a sequence or a string may have.
    #[error("the event is too long")]
    TooLong,
    /// Memory was refused.
    #[error("out of memory")]
    Memory,
}

impl From<AllocError> for EncodeEventError {
    ghost from_gives = { λ _ e. e ≡ error.Memory };

    fn from(_e: AllocError) -> EncodeEventError {
        EncodeEventError::Memory
    }
}

/// The bytes that a parser reads as an event, whatever a terminal sent for it. With no more to come they are that event alone, and nothing
/// stays buffered. That is so with more to come too, unless the bytes are ESC, ESC ESC, or ESC and one of `[`, `O`, `P`, `]` and `_`.
///
/// `parser` says how they are read, by its reading and by its sequence table. Nothing is fed to it, and what it has buffered doesn't matter.
///
/// A key is written by the first of these that is read as that very key: what a terminal sends for it with every mode off
/// ([`KeyCode::encode`](termwiz_keys::types::KeyCode::encode)), its character, a row of the sequence table, ESC and one of these for the key
/// without ALT, and a report in the form of Kitty's keyboard protocol with what happened to the key always told. Keys as a terminal sends them
/// are those of `encode` and of [`encode_kitty`](termwiz_kitty::encode::encode_kitty).
///
/// A mouse report is written in SGR's encoding (mode 1006), but a release that names no button in urxvt's; a paste as its text in brackets;
/// and a `Csi`, `Osc`, `Dcs` or `Apc` as its bytes with their introducer and ESC `\` where a string ends.
///
/// `NoText` comes for an event that no bytes are read as by these rules: an event that no parser makes, or not by this reading, a paste that
/// holds ESC `[201~`, or a part of a string or a string that was cut off. `TooLong` comes for a sequence of more than 256 bytes, or a string of
/// 65535 bytes or more. The only other error is `Memory`.
#[tactic(auto, unfolding(crate::specs::EventTexts::IsEventText))]
pub fn encode_event(
    alloc: Global,
    event: &Event,
    parser: &ExtendedParser,
) -> Result<Vec<u8>, EncodeEventError>
    ensures sent { IfOk result (λ sent. IsEventText parser.now.reading event.now sent.items) }
    ensures no_text { result ≡ Err error.NoText → IsRefused parser.now.reading event.now }
    ensures too_long { result ≡ Err error.TooLong → IsTooLong event.now × IsRefused parser.now.reading event.now }
{
    match event {
        Event::Key(report) => key_text(alloc, report, parser),
        Event::Mouse(report) => found(mouse_text(alloc, report, parser.reading())?),
        Event::Paste(text) => found(paste_text(alloc, text.as_str())?),
        Event::Csi(text) => sequence_text(alloc, event, parser, text.as_slice()),
        Event::Osc(text) => { string_text(alloc, event, parser, StringKind::Osc, text.as_slice()) }
        Event::Dcs(text) => { string_text(alloc, event, parser, StringKind::Dcs, text.as_slice()) }
        Event::Apc(text) => { string_text(alloc, event, parser, StringKind::Apc, text.as_slice()) }
        Event::StringPart { .. } | Event::StringCut { .. } => { Err(EncodeEventError::NoText) }
        Event::FocusGained
        | Event::FocusLost
        | Event::CursorPosition { .. }
        | Event::Resized { .. }
        | Event::KeyboardFlags(_) => reply_text(alloc, event, parser.reading()),
    }
}

// The bytes of a reply, or of the focus, where they are read.
#[tactic(auto, unfolding(crate::specs::EventTexts::IsEventText))]
fn reply_text(alloc: Global, event: &Event, reading: Reading) -> Result<Vec<u8>, EncodeEventError>
    requires { IsReply event.now }
    ensures sent { IfOk result (λ sent. IsEventText reading event.now sent.items) }
    ensures no_text { result ≡ Err error.NoText → IsRefused reading event.now }
    ensures never_long { result ≢ Err error.TooLong }
{
    if !reads_more(reading) {
        return Err(EncodeEventError::NoText);
    }
    match event {
        Event::FocusGained => Ok(b"\x1b[I".to_vec(alloc)?),
        Event::FocusLost => Ok(b"\x1b[O".to_vec(alloc)?),
        Event::CursorPosition { row, column } => { found(told_position(alloc, *row, *column)?) }
        Event::Resized {
            rows,
            columns,
            height,
            width,
        } => Ok(size_text(alloc, *rows, *columns, *height, *width)?),
        Event::KeyboardFlags(flags) => Ok(flags_text(alloc, *flags)?),
        _ => Err(EncodeEventError::NoText),
    }
}

// Whether more than the port's sequences is read.
fn reads_more(reading: Reading) -> bool
    ensures { IsTrue result ↔ ReadsMore reading }
{
    match reading.dialect {
        Dialect::Extended => true,
        Dialect::Termwiz => false,
    }
}

// The bytes of a key.
fn key_text(
    alloc: Global,
    report: &KeyReport,
    parser: &ExtendedParser,
) -> Result<Vec<u8>, EncodeEventError>
    ensures sent { IfOk result (λ sent. IsKeyText parser.now.reading report.now sent.items) }
    ensures no_text { result ≡ Err error.NoText → (bytes : List ℕ) → ¬ IsKeyText parser.now.reading report.now bytes }
    ensures too_long { result ≡ Err error.TooLong
        → IsTooLong (variants.Key report.now) × ((bytes : List ℕ) → ¬ IsKeyText parser.now.reading report.now bytes) }
{
    if let Some(typed) = typed_key_text(alloc, parser, report)? {
        return Ok(typed);
    }
    if !reads_more(parser.reading()) {
        return Err(EncodeEventError::NoText);
    }
    report_text(alloc, report)
}

// The bytes that were found.
fn found(text: Option<Vec<u8>>) -> Result<Vec<u8>, EncodeEventError>
    ensures some { IfOk result (λ sent. text ≡ Some sent) }
    ensures none { result ≡ Err error.NoText → text ≡ None }
    ensures no_other { IfErr result (λ e. e ≡ error.NoText) }
{
    text.ok_or(EncodeEventError::NoText)
}

// The button that was pressed, by its number.
#[tactic(auto, unfolding(termwiz_extended_events::specs::ReportedKeys::entry_at))]
fn pressed_button(number: u8) -> Option<MouseButton>
    ensures { result ≡ entry_at rules.pressed_buttons number }
{
    match number {
        1 => Some(MouseButton::Button1Press),
        2 => Some(MouseButton::Button2Press),
        3 => Some(MouseButton::Button3Press),
        _ => None,
    }
}

// The button that was dragged, by its number.
#[tactic(auto, unfolding(termwiz_extended_events::specs::ReportedKeys::entry_at))]
fn dragged_button(number: u8) -> Option<MouseButton>
    ensures { result ≡ entry_at rules.dragged_buttons number }
{
    match number {
        1 => Some(MouseButton::Button1Drag),
        2 => Some(MouseButton::Button2Drag),
        3 => Some(MouseButton::Button3Drag),
        _ => None,
    }
}

// The button or the wheel that was released, by its number.
#[tactic(auto, unfolding(termwiz_extended_events::specs::ReportedKeys::entry_at))]
fn released_button(number: u8) -> Option<MouseButton>
    ensures { result ≡ entry_at rules.released_buttons number }
{
    match number {
        1 => Some(MouseButton::Button1Release),
        2 => Some(MouseButton::Button2Release),
        3 => Some(MouseButton::Button3Release),
        4 => Some(MouseButton::Button4Release),
        5 => Some(MouseButton::Button5Release),
        6 => Some(MouseButton::Button6Release),
        7 => Some(MouseButton::Button7Release),
        _ => None,
    }
}

// The wheel that was turned, by its number.
#[tactic(auto, unfolding(termwiz_extended_events::specs::ReportedKeys::entry_at))]
fn turned_wheel(number: u8) -> Option<MouseButton>
    ensures { result ≡ entry_at rules.turned_wheels number }
{
    match number {
        4 => Some(MouseButton::Button4Press),
        5 => Some(MouseButton::Button5Press),
        6 => Some(MouseButton::Button6Press),
        7 => Some(MouseButton::Button7Press),
        _ => None,
    }
}

// What is reported to the port too.
fn reported_button(kind: MouseKind, button: Option<u8>) -> Option<MouseButton>
    ensures { result ≡ rules.reported_button kind button }
{
    match (kind, button) {
        (MouseKind::Press, Some(number)) => pressed_button(number),
        (MouseKind::Drag, Some(number)) => dragged_button(number),
        (MouseKind::Release, Some(number)) => released_button(number),
        (MouseKind::Wheel, Some(number)) => turned_wheel(number),
        (MouseKind::Move, None) => Some(MouseButton::None),
        _ => None,
    }
}

// The bits of the buttons that are down after a report of this one.
fn button_bits(button: MouseButton) -> u8
    ensures { result ≡ buttons.button_bits button }
{
    match button {
        MouseButton::Button1Press | MouseButton::Button1Drag => 2,
        MouseButton::Button2Press | MouseButton::Button2Drag => 8,
        MouseButton::Button3Press | MouseButton::Button3Drag => 4,
        MouseButton::Button4Press => 80,
        MouseButton::Button5Press => 16,
        MouseButton::Button6Press => 96,
        MouseButton::Button7Press => 32,
        _ => 0,
    }
}

// Whether no modifiers but Shift, Alt and Ctrl are held.
fn tells_modifiers(held: Modifiers) -> bool
    ensures { result ≡ rules.tells_modifiers held }
{
    let told = counted(held, Modifiers::SHIFT, 2)
        + counted(held, Modifiers::ALT, 4)
        + counted(held, Modifiers::CTRL, 8);
    held.bits() == u16::from(told)
}

// A report of this button at the place of another one.
#[tactic(auto, unfolding(crate::specs::MouseTexts::mouse_text))]
fn button_text(
    alloc: Global,
    report: &MouseReport,
    button: MouseButton,
    encoding: MouseEncoding,
) -> Result<Option<Vec<u8>>, AllocError>
    ensures some { IfOk result (λ text. IfSome text (λ text.
        mouse_text (SGR1006 report.now.x report.now.y button report.now.modifiers) Any encoding ≡ Some text.items)) }
    ensures none { IfOk result (λ text. IfNone text (
        mouse_text (SGR1006 report.now.x report.now.y button report.now.modifiers) Any encoding ≡ None)) }
{
    let report = ButtonReport::SGR1006 {
        x: report.x,
        y: report.y,
        button,
        modifiers: report.modifiers,
    };
    match encode_mouse(alloc, &report, MouseTracking::Any, encoding) {
        Ok(text) => Ok(Some(text)),
        Err(MouseError::TooFar) => Ok(None),
        Err(MouseError::Memory) => Err(AllocError),
    }
}

// The report that the port reads too, if there is one.
#[tactic(auto, unfolding(crate::specs::EventTexts::sgr_event_text))]
fn sgr_text(alloc: Global, report: &MouseReport) -> Result<Option<Vec<u8>>, AllocError>
    ensures some { IfOk result (λ text. IfSome text (λ text. rules.sgr_event_text report.now ≡ Some text.items)) }
    ensures none { IfOk result (λ text. IfNone text (rules.sgr_event_text report.now ≡ None)) }
{
    if !tells_modifiers(report.modifiers) {
        return Ok(None);
    }
    let Some(button) = reported_button(report.kind, report.button) else {
        return Ok(None);
    };
    if report.buttons.bits() != button_bits(button) {
        return Ok(None);
    }
    button_text(alloc, report, button, MouseEncoding::Sgr)
}

// The code of a side button, by its number.
#[tactic(auto, unfolding(termwiz_extended_events::specs::ReportedKeys::entry_at))]
fn side_code(number: u8) -> Option<u8>
    ensures code { result ≡ entry_at rules.side_codes number }
    ensures small { IfSome result (λ code. code ≤ 131) }
{
    match number {
        8..=11 => Some(120 + number),
        _ => None,
    }
}

// What a drag adds to the code of a side button.
fn side_move(kind: MouseKind) -> u8
    ensures added { result ≡ rules.side_move kind }
    ensures small { result ≤ 32 }
{
    match kind {
        MouseKind::Drag => 32,
        _ => 0,
    }
}

// The character at the end of the report of a side button.
fn side_last(kind: MouseKind) -> char
    ensures last { result ≡ rules.side_last kind }
    ensures ascii { result < 128 }
{
    match kind {
        MouseKind::Release => 'm',
        _ => 'M',
    }
}

// The report of a side button, if it has one.
fn side_text(alloc: Global, report: &MouseReport, number: u8) -> Result<Option<Vec<u8>>, AllocError>
    ensures some { IfOk result (λ text. IfSome text (λ text. rules.side_event_text report.now number ≡ Some text.items)) }
    ensures none { IfOk result (λ text. IfNone text (rules.side_event_text report.now number ≡ None)) }
{
    let Some(code) = side_code(number) else {
        return Ok(None);
    };
    let code = code + side_move(report.kind) + modifier_code(MouseTracking::Any, report.modifiers);
    let text = format!(in alloc;
        "{CSI}<{code};{};{}{}",
        report.x,
        report.y,
        side_last(report.kind)
    )?;
    Ok(Some(text.into_bytes()))
}

// The report that the port doesn't read, if there is one.
#[tactic(auto, unfolding(crate::specs::EventTexts::further_mouse_text))]
fn further_text(alloc: Global, report: &MouseReport) -> Result<Option<Vec<u8>>, AllocError>
    ensures some { IfOk result (λ text. IfSome text (λ text. rules.further_mouse_text report.now ≡ Some text.items)) }
    ensures none { IfOk result (λ text. IfNone text (rules.further_mouse_text report.now ≡ None)) }
{
    if !tells_modifiers(report.modifiers) || report.buttons.bits() != 0 {
        return Ok(None);
    }
    match report.button {
        Some(number) => match report.kind {
            MouseKind::Press | MouseKind::Drag | MouseKind::Release => {
                side_text(alloc, report, number)
            }
            _ => Ok(None),
        },
        None => match report.kind {
            MouseKind::Release => {
                button_text(
                    alloc,
                    report,
                    MouseButton::Button1Release,
                    MouseEncoding::Urxvt,
                )
            }
            _ => Ok(None),
        },
    }
}

// A mouse report, if it has one.
fn mouse_text(
    alloc: Global,
    report: &MouseReport,
    reading: Reading,
) -> Result<Option<Vec<u8>>, AllocError>
    ensures some { IfOk result (λ text. IfSome text (λ text. rules.IsMouseText reading report.now text.items)) }
    ensures none { IfOk result (λ text. IfNone text ((bytes : List ℕ) → ¬ rules.IsMouseText reading report.now bytes)) }
{
    if let Some(text) = sgr_text(alloc, report)? {
        return Ok(Some(text));
    }
    if !reads_more(reading) {
        return Ok(None);
    }
    further_text(alloc, report)
}

// The bytes of a paste of a text, unless the text would end it.
fn paste_text(alloc: Global, text: &str) -> Result<Option<Vec<u8>>, AllocError>
    ensures some { IfOk result (λ sent. IfSome sent (λ sent. (sent.items ≡ pasted text.now) × (¬ Occurs END text.now))) }
    ensures none { IfOk result (λ sent. IfNone sent (Occurs END text.now)) }
{
    let mut sent = joined(alloc, PASTE_START, text.as_bytes(), b"")?;
    match find_from(&sent, PASTE_START.len(), PASTE_END) {
        Some(_) => Ok(None),
        None => {
            sent.extend_from_slice(PASTE_END)?;
            Ok(Some(sent))
        }
    }
}

// The reply that tells the position of the cursor by every reading, if there is such a place.
#[tactic(auto, unfolding(crate::specs::EventTexts::position_text))]
fn told_position(alloc: Global, row: u16, column: u16) -> Result<Option<Vec<u8>>, AllocError>
    ensures some { IfOk result (λ text. IfSome text (λ sent. (0 < row) × (0 < column) × (sent.items ≡ rules.position_text row column true))) }
    ensures none { IfOk result (λ text. IfNone text (¬ ((0 < row) × (0 < column)))) }
{
    if row == 0 || column == 0 {
        return Ok(None);
    }
    Ok(Some(encode_cursor_position(alloc, row, column, true)?))
}

/// What a terminal replies to a question for the position of its cursor: ESC `[6n`, or ESC `[?6n` for a private one. The first row and the
/// first column are 1: a reply with a 0 is a `Csi` to a parser. Its only error is that memory was refused.
///
/// The reply to a private question is read as the position by every reading. The other one is so while a question is open. While none is, it is
/// F3 with modifiers if the row is 1 and the column is 1 to 256.
#[tactic(auto, unfolding(crate::specs::EventTexts::position_text))]
pub fn encode_cursor_position(
    alloc: Global,
    row: u16,
    column: u16,
    private: bool,
) -> Result<Vec<u8>, AllocError>
    ensures { IfOk result (λ sent. sent.items ≡ rules.position_text row column private) }
{
    let text = if private {
        format!(in alloc; "{CSI}?{row};{column}R")?
    } else {
        format!(in alloc; "{CSI}{row};{column}R")?
    };
    Ok(text.into_bytes())
}

// The report of a new size.
#[tactic(auto, unfolding(crate::specs::EventTexts::size_text))]
fn size_text(
    alloc: Global,
    rows: u16,
    columns: u16,
    height: u16,
    width: u16,
) -> Result<Vec<u8>, AllocError>
    ensures { IfOk result (λ sent. sent.items ≡ rules.size_text rows columns height width) }
{
    let text = format!(in alloc; "{CSI}48;{rows};{columns};{height};{width}t")?;
    Ok(text.into_bytes())
}

// The reply to a question for the flags of Kitty's keyboard protocol.
#[tactic(auto, unfolding(crate::specs::EventTexts::flags_text))]
fn flags_text(alloc: Global, flags: u8) -> Result<Vec<u8>, AllocError>
    ensures { IfOk result (λ sent. sent.items ≡ rules.flags_text flags) }
{
    let text = format!(in alloc; "{CSI}?{flags}u")?;
    Ok(text.into_bytes())
}

/// What a terminal sends when its colours change, and replies to the question ESC `[?996n`: ESC `[?997;1n` for dark colours, and
/// ESC `[?997;2n` for light ones. It is read as a `Csi`. Its only error is that memory was refused.
pub fn encode_colour_scheme(alloc: Global, dark: bool) -> Result<Vec<u8>, AllocError>
    ensures { IfOk result (λ sent. sent.items ≡ rules.scheme_text dark) }
{
    let text: &[u8] = if dark {
        b"\x1b[?997;1n"
    } else {
        b"\x1b[?997;2n"
    };
    text.to_vec(alloc)
}

// Appends numbers, each after a semicolon.
fn push_numbers(text: &mut String, numbers: &[u16]) -> Result<(), AllocError>
    ensures { OnOk result (string_bytes text.new ≡ string_bytes text.old ++ flat_map rules.further_number numbers.now) }
{
    for number in numbers {
        write!(text, ";{number}")?;
    }
    Ok(())
}

/// What a terminal replies to the question for its attributes (primary DA, ESC `[c`): ESC `[?`, the numbers parted by semicolons, and `c`. The
/// first number is its class, such as 62 or 65. It is read as a `Csi`.
///
/// `TooLong` comes exactly for a reply of more than 256 bytes. The only other error is `Memory`.
#[tactic(auto, unfolding(crate::specs::EventTexts::attributes_text))]
pub fn encode_device_attributes(alloc: Global, numbers: &[u16]) -> Result<Vec<u8>, EncodeEventError>
    ensures sent { IfOk result (λ sent. (sent.items ≡ rules.attributes_text numbers.now) × (length sent.items ≤ 256)) }
    ensures too_long { result ≡ Err error.TooLong → 256 < length (rules.attributes_text numbers.now) }
    ensures no_other { result ≡ Err error.NoText → ⊥ }
{
    let mut text = String::new(alloc);
    text.push_str("\x1b[?")?;
    if let Some((first, rest)) = numbers.split_first() {
        write!(text, "{first}")?;
        push_numbers(&mut text, rest)?;
    }
    text.push('c')?;
    if text.len() > MOST_CONTROL {
        return Err(EncodeEventError::TooLong);
    }
    Ok(text.into_bytes())
}

// Three texts, one after another.
fn joined(alloc: Global, front: &[u8], text: &[u8], end: &[u8]) -> Result<Vec<u8>, AllocError>
    ensures { IfOk result (λ sent. sent.items ≡ front.now ++ text.now ++ end.now) }
{
    let mut sent = front.to_vec(alloc)?;
    sent.extend_from_slice(text)?;
    sent.extend_from_slice(end)?;
    Ok(sent)
}

// How many bytes a control sequence may have.
const MOST_CONTROL: usize = 256;

// How many bytes of a string may come before its end, so that no part of it is read before.
const MOST_STRING: usize = 65534;

// Bytes of an event, if they are read as it.
fn tried(
    event: &Event,
    parser: &ExtendedParser,
    bytes: Vec<u8>,
) -> Result<Option<Vec<u8>>, AllocError>
    requires { IsTried event.now }
    ensures some { IfOk result (λ sent. IfSome sent (λ sent. IsItself parser.now.reading event.now bytes.items sent.items)) }
    ensures none { IfOk result (λ sent. IfNone sent ((other : List ℕ) → ¬ IsItself parser.now.reading event.now bytes.items other)) }
{
    if Reader::beside(parser)?.reads(parser.reading(), &bytes, true, event)? {
        Ok(Some(bytes))
    } else {
        Ok(None)
    }
}

// The bytes of a control sequence, which is this event.
fn sequence_text(
    alloc: Global,
    event: &Event,
    parser: &ExtendedParser,
    text: &[u8],
) -> Result<Vec<u8>, EncodeEventError>
    requires { event.now ≡ variants.Csi text.now }
    ensures sent { IfOk result (λ sent. IsEventText parser.now.reading event.now sent.items) }
    ensures no_text { result ≡ Err error.NoText → IsRefused parser.now.reading event.now }
    ensures too_long { result ≡ Err error.TooLong → IsTooLong event.now × IsRefused parser.now.reading event.now }
{
    let bytes = joined(alloc, CSI.as_bytes(), text, b"")?;
    let is_long = bytes.len() > MOST_CONTROL;
    match tried(event, parser, bytes)? {
        Some(sent) => Ok(sent),
        None if is_long => Err(EncodeEventError::TooLong),
        None => Err(EncodeEventError::NoText),
    }
}

// What introduces a string of a kind.
fn introducer_of(kind: StringKind) -> &'static [u8]
    ensures bytes { result.now ≡ introducer kind }
    ensures two { length result.now ≡ 2 }
{
    match kind {
        StringKind::Osc => b"\x1b]",
        StringKind::Dcs => b"\x1bP",
        StringKind::Apc => b"\x1b_",
    }
}

// The bytes of a string of a kind, which is this event.
fn string_text(
    alloc: Global,
    event: &Event,
    parser: &ExtendedParser,
    kind: StringKind,
    text: &[u8],
) -> Result<Vec<u8>, EncodeEventError>
    requires { event.now ≡ whole_string kind text.now }
    ensures sent { IfOk result (λ sent. IsEventText parser.now.reading event.now sent.items) }
    ensures no_text { result ≡ Err error.NoText → IsRefused parser.now.reading event.now }
    ensures too_long { result ≡ Err error.TooLong → IsTooLong event.now × IsRefused parser.now.reading event.now }
{
    let bytes = joined(alloc, introducer_of(kind), text, b"\x1b\\")?;
    let is_long = INTRODUCER_LEN + text.len() > MOST_STRING;
    match tried(event, parser, bytes)? {
        Some(sent) => Ok(sent),
        None if is_long => Err(EncodeEventError::TooLong),
        None => Err(EncodeEventError::NoText),
    }
}

// How many bytes introduce a string.
const INTRODUCER_LEN: usize = 2;
