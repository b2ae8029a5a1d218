// What the handle of a parser leads to.
ghost use Rattle.std.specs.Prelude.{◌≡◌, ◌+◌, ◌≤◌, ℕ, List, [], length, true, false, IsTrue, Ok, OnErr, OnOk};
ghost use Rattle.std.specs.FinMap as map;
ghost use Rattle.termwiz_input.specs.KeyEvent.{KeyEvent};
ghost use Rattle.termwiz_input.specs.Table.{table};
ghost use Rattle.termwiz_grammar.specs.RowsInOrder.{AreCompletions, IsRowAt};
ghost use Rattle.termwiz_extended_events.specs.declared.types.Event.TheVariants.{Key};
ghost use Rattle.termwiz_extended_events.specs.PortEvents.{pressed_key};
ghost use Rattle.termwiz_timed.specs.Steps.{Step};
ghost use Rattle.termwiz_timed.specs.Steps.Call.{AllTold};
ghost use Rattle.hedrugal.specs.Calls.{MeetsMemory, Took, copied};
ghost use Rattle.hedrugal.specs.Events.{bare, c_event};

use crate::copying::copy_prefix;
use crate::entry_calls::CEntries;
use crate::events::{
    CEvent, KIND_APC, KIND_CSI, KIND_DCS, KIND_OSC, KIND_STRING_CUT, KIND_STRING_PART, c_bytes,
    c_part, own_bytes, show, string_kind_number,
};
use std::alloc::{AllocError, Global};
use termwiz_extended_events::meanings::Meaning;
use termwiz_extended_events::port_events::pressed_key;
use termwiz_input_extended::types::Event;
use termwiz_keys::types::PastedText;
use termwiz_timed::parser::TimedParser;
use termwiz_timed::sink::{EventSink, TimedSink};

// Where an event is shown as C has it, and its bytes are kept.
#[derive(Drop)]
struct ShownEvent<'a> {
    event: &'a mut CEvent,
    text: &'a mut Vec<u8>,
}

impl EventSink for ShownEvent<'_> {
    ghost use Rattle.std.specs.Prelude.{◌≡◌};
    ghost use Rattle.hedrugal.specs.Events.{bytes_of, c_event};

    ghost takes = { λ before event after. (after.event.now ≡ c_event event) × (after.text.now.items ≡ bytes_of event)
        × (after.event.ghost_name ≡ before.event.ghost_name) × (after.text.ghost_name ≡ before.text.ghost_name) };

    #[inline(always)]
    fn emit(&mut self, event: Event) {
        show(&event, self.event);
        match own_bytes(event) {
            Some(bytes) if !bytes.is_empty() || self.text.capacity() > KEPT_ROOM => *self.text =
                bytes,
            _ => self.text.clear(),
        }
    }

    #[tactic(auto, unfolding(crate::specs::Events::c_event, crate::specs::Events::kind_number, crate::specs::Events::own_bytes))]
    #[inline(always)]
    fn emit_meaning(&mut self, alloc: Global, meaning: Meaning<'_>) -> Result<(), AllocError> {
        match meaning {
            Meaning::Csi(bytes) => self.show_sequence(alloc, KIND_CSI, bytes)?,
            Meaning::Osc(bytes) => self.show_sequence(alloc, KIND_OSC, bytes)?,
            Meaning::Dcs(bytes) => self.show_sequence(alloc, KIND_DCS, bytes)?,
            Meaning::Apc(bytes) => self.show_sequence(alloc, KIND_APC, bytes)?,
            Meaning::StringPart { kind, bytes } => {
                self.show_sequence(alloc, KIND_STRING_PART, bytes)?;
                self.event.string_kind = string_kind_number(kind);
            }
            Meaning::StringCut { kind, bytes } => {
                self.show_sequence(alloc, KIND_STRING_CUT, bytes)?;
                self.event.string_kind = string_kind_number(kind);
            }
            Meaning::FocusGained => self.emit(Event::FocusGained),
            Meaning::FocusLost => self.emit(Event::FocusLost),
            Meaning::CursorPosition { row, column } => {
                self.emit(Event::CursorPosition { row, column });
            }
            other => self.emit(other.event(alloc)?),
        }
        Ok(())
    }
}

// Where an event that brings no bytes is shown as C has it.
#[derive(Drop)]
struct ShownBare<'a> {
    event: &'a mut CEvent,
}

impl EventSink for ShownBare<'_> {
    ghost use Rattle.std.specs.Prelude.{◌≡◌};
    ghost use Rattle.hedrugal.specs.Events.{c_event};

    ghost takes = { λ before event after. (after.event.now ≡ c_event event) × (after.event.ghost_name ≡ before.event.ghost_name) };

    #[inline(always)]
    fn emit(&mut self, event: Event) {
        show(&event, self.event);
    }
}

impl ShownEvent<'_> {
    // Shows an event of this kind that brings these bytes, and keeps them in the place of those before.
    #[inline(always)]
    fn show_sequence(&mut self, alloc: Global, kind: u8, bytes: &[u8]) -> Result<(), AllocError>
        ensures shown { OnOk result (self.new.event.now ≡ bare kind bytes.now) }
        ensures kept { OnOk result (self.new.text.now.items ≡ bytes.now) }
        ensures refused { OnErr result (self.new ≡ self.old) }
        ensures event_place { self.new.event.ghost_name ≡ self.old.event.ghost_name }
        ensures text_place { self.new.text.ghost_name ≡ self.old.text.ghost_name }
    {
        keep(alloc, self.text, bytes)?;
        *self.event = c_bytes(kind, bytes);
        Ok(())
    }
}

// A place up to this size is kept for the bytes of the next event.
const KEPT_ROOM: usize = 4096;

// Puts these bytes in the place of those before.
fn keep(alloc: Global, text: &mut Vec<u8>, bytes: &[u8]) -> Result<(), AllocError>
    ensures kept { OnOk result (text.new.items ≡ bytes.now) }
    ensures refused { OnErr result (text.new ≡ text.old) }
{
    if bytes.len() <= text.capacity() && text.capacity() <= KEPT_ROOM {
        text.clear();
        return text.extend_from_slice(bytes);
    }
    *text = bytes.to_vec(alloc)?;
    Ok(())
}

impl TimedSink for ShownEvent<'_> {
    ghost use Rattle.std.specs.Prelude.{◌≡◌};
    ghost use Rattle.hedrugal.specs.Events.{c_part};

    ghost takes_part = { λ before text after. (after.event.now ≡ c_part text) × (after.text.now.items ≡ text)
        × (after.event.ghost_name ≡ before.event.ghost_name) × (after.text.ghost_name ≡ before.text.ghost_name) };

    fn emit_part(&mut self, text: PastedText) {
        *self.event = c_part(text.as_str());
        *self.text = text.into_string().into_bytes();
    }
}

/// A parser, and the bytes of the event that was told last.
#[derive(Drop)]
pub struct ParserAndText {
    pub(crate) parser: TimedParser,
    pub(crate) text: Vec<u8>,
}

impl ParserAndText {
    // The parser, with no bytes of an event.
    pub(crate) fn of(alloc: Global, parser: TimedParser) -> ParserAndText
        ensures parser { result.parser ≡ parser }
        ensures text { result.text.items ≡ [] }
    {
        ParserAndText {
            parser,
            text: Vec::new(alloc),
        }
    }

    // Shows the next event as C has it. The answer is false if all is told. Inlined, so that the event is written where it is wanted.
    #[inline(always)]
    pub(crate) fn next(&mut self, shown: &mut CEvent) -> Result<bool, AllocError>
        ensures told { result ≡ Ok true → Took self.old shown.new self.new }
        ensures all_told { result ≡ Ok false → Step self.old.parser AllTold self.new.parser }
        ensures none_text { result ≡ Ok false → self.new.text ≡ self.old.text }
        ensures none_shown { result ≡ Ok false → shown.new ≡ shown.old }
        ensures refused { OnErr result (MeetsMemory self.old.parser) }
        ensures refused_same { OnErr result (self.new ≡ self.old) }
        ensures refused_shown { OnErr result (shown.new ≡ shown.old) }
    {
        let mut sink = ShownEvent {
            event: shown,
            text: &mut self.text,
        };
        self.parser.emit_next(&mut sink)
    }

    // Shows the key of the character that comes next. The answer is false if none does, or if `next` frees a long place first. Inlined, since a
    // run of characters is one loop.
    #[inline(always)]
    pub(crate) fn next_character(&mut self, shown: &mut CEvent) -> bool
        ensures told { IsTrue result → Took self.old shown.new self.new }
        ensures bare { IsTrue result → shown.new.text_len ≡ 0 }
        ensures none_same { result ≡ false → self.new ≡ self.old }
        ensures none_shown { result ≡ false → shown.new ≡ shown.old }
    {
        if self.text.capacity() > KEPT_ROOM {
            return false;
        }
        let mut sink = ShownBare { event: shown };
        if self.parser.emit_character(&mut sink) {
            self.text.clear();
            true
        } else {
            false
        }
    }

    // Copies as much of the row at a place as `out` has room for, shows its key, and returns the row's length; 0 if no row is there.
    pub(crate) fn copy_row(
        &self,
        alloc: Global,
        place: usize,
        out: &mut [u8],
        event: &mut CEvent,
    ) -> usize
        ensures row { (row : List ℕ) (key : KeyEvent) → IsRowAt place row key
            → (result ≡ length row) × (out.new ≡ copied row out.old) × (event.new ≡ c_event (Key (pressed_key key))) }
        ensures none { map.len table ≤ place → result ≡ 0 }
        ensures out_same { map.len table ≤ place → out.new ≡ out.old }
        ensures event_same { map.len table ≤ place → event.new ≡ event.old }
    {
        let Some((row, key)) = self.parser.parser().input().row(place) else {
            return 0;
        };
        show(&Event::Key(pressed_key(alloc, key)), event);
        copy_prefix(row, out)
    }

    // The rows that would complete what is buffered.
    pub(crate) fn completions(&self) -> CEntries
        ensures { AreCompletions self.now.parser.text result.with_alt result.first (result.first + result.count) }
    {
        let found = self.parser.parser().input().completions();
        CEntries {
            first: found.rows.start,
            count: found.rows.end - found.rows.start,
            with_alt: found.with_alt,
        }
    }
}
