// What a sequence means that the port doesn't know.
ghost use Rattle.std.specs.Prelude.{◌≡◌, ◌↔◌, Bool, true, false, None, option_map, IfOk, IfSome, IsSome, IsTrue, OnErr, Some, unwrap_or};
ghost use Rattle.termwiz_extended_events.specs.declared.types.Event.{Event};
ghost use Rattle.termwiz_extended_events.specs.declared.types.Event.TheVariants.{Csi, Key};
ghost use Rattle.termwiz_extended_events.specs.KeyReports.{plain_report};
ghost use Rattle.termwiz_extended_events.specs.Meanings as meaning;
ghost use Rattle.termwiz_extended_events.specs.Meanings.{reported, command_text, string_text, event_after, event_from, IsKey, IsPosition, IsKeyOrPosition, IsUnreadEnd, NeedsMemory};

use crate::fields::before_end;
use crate::key_reports;
pub use crate::key_reports::SpelledReport;
use crate::key_reports::{
    console_key, further_key, key_report, keypad_key, modified_keypad_key, rxvt_key,
    third_function_key,
};
use crate::replies::{focus, mouse_report, reply, side_button};
use crate::types::{Event, MouseReport, PlainReport, SequenceBytes, StringKind};
use std::alloc::{AllocError, Global};

// What ends a string: ESC and a backslash.
const STRING_END: &[u8] = b"\x1b\\";

// What may end a command instead: the byte BEL.
const BELL: &[u8] = b"\x07";

/// What a sequence means: its event without memory, since a text and bytes are still in the sequence. [`Meaning::event`] makes the event.
#[derive(Drop)]
pub enum Meaning<'t> {
    /// The terminal's window gained the focus.
    FocusGained,
    /// The terminal's window lost the focus.
    FocusLost,
    /// The position of the cursor.
    CursorPosition {
        /// The row.
        row: u16,
        /// The column.
        column: u16,
    },
    /// The terminal has a new size.
    Resized {
        /// The number of rows.
        rows: u16,
        /// The number of columns.
        columns: u16,
        /// The height in pixels.
        height: u16,
        /// The width in pixels.
        width: u16,
    },
    /// The flags of Kitty's keyboard protocol.
    KeyboardFlags(u8),
    /// A mouse report.
    Mouse(MouseReport),
    /// A key report.
    Key(SpelledReport<'t>),
    /// A control sequence that no rule reads: its bytes after ESC `[`.
    Csi(&'t [u8]),
    /// An operating system command, without its end.
    Osc(&'t [u8]),
    /// A device control string, without its end.
    Dcs(&'t [u8]),
    /// An application program command, without its end.
    Apc(&'t [u8]),
    /// The first bytes of a long string.
    StringPart {
        /// The kind of the string.
        kind: StringKind,
        /// Its bytes after its introducer.
        bytes: &'t [u8],
    },
    /// A string that was cut off.
    StringCut {
        /// The kind of the string.
        kind: StringKind,
        /// Its bytes after its introducer.
        bytes: &'t [u8],
    },
}

// The bytes of a sequence.
fn bytes(alloc: Global, text: &[u8]) -> Result<SequenceBytes, AllocError>
    ensures { IfOk result (λ bytes. bytes ≡ text.now) }
{
    Ok(SequenceBytes::new(text.to_vec(alloc)?))
}

impl<'t> Meaning<'t> {
    /// Whether the event is a report of a key, or of the position of the cursor.
    pub fn is_key_or_position(&self) -> bool
        ensures { IsTrue result ↔ IfSome (event_from self.now) IsKeyOrPosition }
    {
        match self {
            Meaning::Key(_) => true,
            Meaning::CursorPosition { .. } => true,
            _ => false,
        }
    }

    /// Whether the event is a report of a key.
    pub fn is_key(&self) -> bool
        ensures { IsTrue result ↔ IfSome (event_from self.now) IsKey }
    {
        match self {
            Meaning::Key(_) => true,
            _ => false,
        }
    }

    /// Whether the event is a report of the position of the cursor.
    pub fn is_position(&self) -> bool
        ensures { (event : Event) → event_from self.now ≡ Some event → IsTrue result ↔ IsPosition event }
    {
        match self {
            Meaning::CursorPosition { .. } => true,
            _ => false,
        }
    }

    /// Makes the event. Only its text or its bytes need memory.
    #[inline(always)]
    pub fn event(self, alloc: Global) -> Result<Event, AllocError>
        requires { IsSome (event_from self) }
        ensures ok { IfOk result (λ event. event_from self.entry ≡ Some event) }
        ensures refused { OnErr result (IfSome (event_from self.entry) NeedsMemory) }
    {
        match self {
            Meaning::FocusGained => Ok(Event::FocusGained),
            Meaning::FocusLost => Ok(Event::FocusLost),
            Meaning::CursorPosition { row, column } => { Ok(Event::CursorPosition { row, column }) }
            Meaning::Resized {
                rows,
                columns,
                height,
                width,
            } => Ok(Event::Resized {
                rows,
                columns,
                height,
                width,
            }),
            Meaning::KeyboardFlags(flags) => Ok(Event::KeyboardFlags(flags)),
            Meaning::Mouse(report) => Ok(Event::Mouse(report)),
            Meaning::Key(report) => Ok(Event::Key(report.whole(alloc)?)),
            Meaning::Csi(text) => Ok(Event::Csi(bytes(alloc, text)?)),
            Meaning::Osc(text) => Ok(Event::Osc(bytes(alloc, text)?)),
            Meaning::Dcs(text) => Ok(Event::Dcs(bytes(alloc, text)?)),
            Meaning::Apc(text) => Ok(Event::Apc(bytes(alloc, text)?)),
            Meaning::StringPart { kind, bytes: text } => Ok(Event::StringPart {
                kind,
                bytes: bytes(alloc, text)?,
            }),
            Meaning::StringCut { kind, bytes: text } => Ok(Event::StringCut {
                kind,
                bytes: bytes(alloc, text)?,
            }),
        }
    }
}

// F3, whose sequences can also be positions of the cursor: it comes first where no question for one is open.
fn unasked_key(t: &[u8], asks: bool) -> Option<PlainReport>
    ensures { option_map plain_report result ≡ meaning.unasked_key asks t.now }
{
    if asks { None } else { third_function_key(t) }
}

// Whether a byte ends only what no rule reads.
fn is_unread_end(byte: u8) -> bool
    ensures { IsTrue result ↔ IsUnreadEnd byte }
{
    matches!(byte, b'a'..=b'l' | b'n'..=b's' | b'v'..=b'z')
}

// Whether the last byte of what follows ESC [ tells that no rule reads it, as that of a reply to DA1 does.
fn is_unread(t: &[u8]) -> bool
    ensures { IsTrue result → (asks : Bool) → meaning.reported asks t.now ≡ None }
{
    match (t.first(), t.last()) {
        (Some(first), Some(last)) if *first != b'M' => is_unread_end(*last),
        _ => false,
    }
}

// What follows ESC [, by the first rule that fits. What none reads is a control sequence.
#[tactic(auto, unfolding(crate::specs::Meanings::reported))]
fn reported(t: &[u8], asks: bool) -> Meaning<'_>
    ensures { event_from result ≡ Some (unwrap_or (reported asks t.now) (Csi t.now)) }
{
    if is_unread(t) {
        return Meaning::Csi(t);
    }
    if let Some(meaning) = focus(t) {
        return meaning;
    }
    if let Some(report) = key_report(t) {
        return Meaning::Key(report);
    }
    if let Some(report) = unasked_key(t, asks) {
        return Meaning::Key(SpelledReport::plain(report));
    }
    if let Some(meaning) = reply(t) {
        return meaning;
    }
    if let Some(report) = third_function_key(t) {
        return Meaning::Key(SpelledReport::plain(report));
    }
    if let Some(report) = rxvt_key(t) {
        return Meaning::Key(SpelledReport::plain(report));
    }
    if let Some(report) = mouse_report(t) {
        return Meaning::Mouse(report);
    }
    if let Some(report) = side_button(t) {
        return Meaning::Mouse(report);
    }
    match console_key(t).or_else(|| further_key(t)) {
        Some(report) => Meaning::Key(SpelledReport::plain(report)),
        None => Meaning::Csi(t),
    }
}

// What follows ESC O, by the first rule that fits.
#[tactic(auto, unfolding(crate::specs::Meanings::keypad_reported))]
fn keypad_reported(t: &[u8]) -> Meaning<'_>
    ensures { event_from result ≡ Some (unwrap_or (meaning.keypad_reported t.now) (Csi t.now)) }
{
    match keypad_key(t).or_else(|| modified_keypad_key(t)) {
        Some(report) => Meaning::Key(SpelledReport::plain(report)),
        None => Meaning::Csi(t),
    }
}

// A string without its end.
#[tactic(auto, unfolding(crate::specs::Meanings::string_text))]
fn string_text(t: &[u8]) -> &[u8]
    ensures { result.now ≡ string_text t.now }
{
    before_end(t, STRING_END).unwrap_or(t)
}

// A command without its end.
#[tactic(auto, unfolding(crate::specs::Meanings::command_text))]
fn command_text(t: &[u8]) -> &[u8]
    ensures { result.now ≡ command_text t.now }
{
    before_end(t, STRING_END)
        .or(before_end(t, BELL))
        .unwrap_or(t)
}

// What follows ESC and a byte.
#[tactic(auto, unfolding(crate::specs::Meanings::event_after))]
fn meaning_after(byte: u8, t: &[u8], asks: bool) -> Meaning<'_>
    ensures { event_from result ≡ Some (event_after asks byte t.now) }
{
    match byte {
        b'[' => reported(t, asks),
        b'O' => keypad_reported(t),
        b']' => Meaning::Osc(command_text(t)),
        b'P' => Meaning::Dcs(string_text(t)),
        b'_' => Meaning::Apc(string_text(t)),
        _ => Meaning::Csi(t),
    }
}

// The key report of what follows ESC [, if it says no more than a key and its manner.
#[tactic(auto, using(crate::proofs::PlainReports::plain_event))]
#[inline(always)]
fn plain_report_behind(t: &[u8]) -> Option<PlainReport>
    ensures asked { IfSome result (λ report. meaning.reported true t.now ≡ Some (Key (plain_report report))) }
    ensures unasked { IfSome result (λ report. meaning.reported false t.now ≡ Some (Key (plain_report report))) }
{
    key_reports::plain_report(t)
}

/// The key report of a whole sequence, if it says no more than a key and its manner: a small value, and quicker than [`meaning_of`]. It is
/// the same whether a question for the cursor's position is open or not. `None` decides nothing: the sequence may still be a key report.
#[tactic(auto, unfolding(crate::specs::Meanings::event_of, crate::specs::Meanings::event_after))]
#[inline(always)]
pub fn plain_report(text: &[u8]) -> Option<PlainReport>
    ensures asked { IfSome result (λ report. meaning.event_of true text.now ≡ Key (plain_report report)) }
    ensures unasked { IfSome result (λ report. meaning.event_of false text.now ≡ Key (plain_report report)) }
{
    match text {
        [0x1b, b'[', t @ ..] => plain_report_behind(t),
        _ => None,
    }
}

/// What one whole sequence means, which begins with ESC: by the first rule that fits. What no rule reads is a control sequence, `Csi`, of
/// the bytes after the first two. `asks` says that a question for the cursor's position is open: then `ESC [1;5R` is the position, and else
/// it is F3 with Ctrl.
#[tactic(auto, unfolding(crate::specs::Meanings::event_of))]
pub fn meaning_of(text: &[u8], asks: bool) -> Meaning<'_>
    ensures { event_from result ≡ Some (meaning.event_of asks text.now) }
{
    match text {
        [0x1b, byte, t @ ..] => meaning_after(*byte, t, asks),
        [_, _, t @ ..] => Meaning::Csi(t),
        _ => Meaning::Csi(b""),
    }
}

/// The event of one whole sequence: [`meaning_of`] with its memory.
pub fn event_of(alloc: Global, text: &[u8], asks: bool) -> Result<Event, AllocError>
    ensures ok { IfOk result (λ event. event ≡ meaning.event_of asks text.now) }
    ensures refused { OnErr result (NeedsMemory (meaning.event_of asks text.now)) }
{
    meaning_of(text, asks).event(alloc)
}
