// The emission of the item at the front of the buffer.
ghost use Rattle.std.specs.Prelude.{◌≡◌, ◌++◌, ◌≤◌, ◌↔◌, ℕ, Bool, List, [], length, take, true, false, OnErr, IsTrue, ◌⊎◌, IsOk, Ok};
ghost use Rattle.termwiz_keymap.specs.Bytes.{Begins};
ghost use Rattle.termwiz_keys.specs.Introducers.{ESC, START};
ghost use Rattle.termwiz_grammar.specs.MouseReports.{IsMouseReport};
ghost use Rattle.termwiz_extended_events.specs.declared.types.Event.{Event};
ghost use Rattle.termwiz_extended_events.specs.Meanings.{IsPosition};
ghost use Rattle.termwiz_extended_grammar.specs.Readings.{ReadsMore, after_event};
ghost use Rattle.termwiz_extended_grammar.specs.ExtendedGrammar.{IsRest};
ghost use Rattle.termwiz_extended_grammar.specs.ExtendedLaws.{Waits};
ghost use Rattle.termwiz_input_extended.specs.NextItems.{Emits, IsEmitted, IsEmittedWithoutMemory, HasItemThatNeedsMemory, IsBareKeyAt, IsFormAt, IsPortsOwn};
ghost use Rattle.termwiz_input_extended.specs.StringAnswers.{IsOpeningOf};

use super::{ExtendedParser, key_event, told_event, with_alt};
use crate::characters::{control_key, match_character, ss3_key};
use crate::form::INTRODUCED;
use crate::next_item::{
    NextItem, decided_at, is_extra_at, meaning_in, plain_report_at, string_meaning,
};
use crate::sink::EventSink;
use crate::string::{StringAt, string_at};
use std::alloc::AllocError;
use termwiz_extended_events::mouse_reports::sgr_report;
use termwiz_extended_events::port_events::decided_key;
use termwiz_extended_events::types::{Event, StringKind};
use termwiz_input::input::{
    FrontReport, InputEvent, alt_key, escape_key, mouse_report_at, plain_key,
};
use termwiz_keys::types::MouseEvent;

// Whether an item was at the front, whose event was emitted then.
type Emitted = Result<bool, AllocError>;

impl ExtendedParser {
    // Counts a position of the cursor as the reply to a question.
    fn note_position(&mut self, is_position: bool)
        ensures { (event : Event) → (IsTrue is_position ↔ IsPosition event)
            → self.new ≡ record self.old { reading = after_event self.old.reading event } }
    {
        if is_position {
            self.reading.questions = self.reading.questions.saturating_sub(1);
        }
    }

    // Consumes what comes of the string at the front of the buffer, whose opening has so many bytes, and emits its event. The opening of a
    // part stays. The answer is false if the string goes on and more comes.
    #[inline(never)]
    fn emit_string<S: EventSink>(
        &mut self,
        sink: &mut S,
        kind: StringKind,
        opening: usize,
        maybe_more: bool,
    ) -> Emitted
        requires reads { ReadsMore self.old.reading }
        requires opening { IsOpeningOf self.old.text kind opening }
        ensures { Emits S.takes self.old sink.old maybe_more self.new sink.new result }
    {
        let text = self.waiting_text();
        match string_at(kind, opening, text, self.scanned, maybe_more) {
            StringAt::Item(item) => {
                let meaning = string_meaning(item, &text[INTRODUCED..item.end]);
                sink.emit_meaning(self.alloc, meaning)?;
                self.cut_out(item.kept, item.taken);
                Ok(true)
            }
            StringAt::Open(place) => {
                self.scanned = place;
                Ok(false)
            }
        }
    }

    // Consumes the mouse report of so many bytes at the front of the buffer, and emits its event. It isn't inlined, so that no other event
    // pays for its place in a frame.
    #[inline(never)]
    fn emit_report<S: EventSink>(&mut self, sink: &mut S, event: MouseEvent, len: usize) -> Emitted
        requires within { len ≤ length self.old.text }
        requires report { IsMouseReport (take len self.old.text) event }
        ensures { (more : Bool) → Emits S.takes self.old sink.old more self.new sink.new result }
    {
        let report = sgr_report(&self.waiting_text()[..len], event);
        self.consume(len);
        sink.emit(Event::Mouse(report));
        Ok(true)
    }

    // Consumes what the port finds at the front of the buffer, and emits its event.
    fn emit_of_port<S: EventSink>(&mut self, sink: &mut S, maybe_more: bool) -> Emitted
        requires { IsPortsOwn self.old.reading self.old.text maybe_more }
        ensures { Emits S.takes self.old sink.old maybe_more self.new sink.new result }
    {
        let text = self.waiting_text();
        if let FrontReport::Whole(event, len) = mouse_report_at(text) {
            return self.emit_report(sink, event, len);
        }
        if let Some(key) = ss3_key(text) {
            self.consume(3);
            sink.emit(key_event(self.alloc, key, None));
            return Ok(true);
        }
        let decided = decided_at(self.reading, text);
        match self.parser.next_event(maybe_more)? {
            // `told_event` says the same of a key, but is slower.
            Some(InputEvent::Key(key)) => {
                self.scanned = 0;
                sink.emit(key_event(self.alloc, key, decided));
                Ok(true)
            }
            Some(event) => {
                self.scanned = 0;
                sink.emit(told_event(self.alloc, event, decided));
                Ok(true)
            }
            None => Ok(false),
        }
    }

    // The same for a text that a paste begins: quicker where its end isn't there.
    #[inline(always)]
    fn emit_paste<S: EventSink>(&mut self, sink: &mut S, maybe_more: bool) -> Emitted
        requires { Begins START self.old.text }
        ensures { Emits S.takes self.old sink.old maybe_more self.new sink.new result }
    {
        if self.parser.awaits_paste_end() {
            return Ok(false);
        }
        self.emit_of_port(sink, maybe_more)
    }

    // Consumes the form of so many bytes at the front of the buffer, and emits its event. A row of the table is the port's.
    #[inline(never)]
    fn emit_form<S: EventSink>(&mut self, sink: &mut S, len: usize, maybe_more: bool) -> Emitted
        requires { IsFormAt self.old.reading self.old.text len }
        ensures { Emits S.takes self.old sink.old maybe_more self.new sink.new result }
    {
        let text = self.waiting_text();
        let meaning = meaning_in(self.reading, &text[..len]);
        if !is_extra_at(&self.parser, self.reading, text, len, &meaning) {
            return self.emit_of_port(sink, maybe_more);
        }
        let is_position = meaning.is_position();
        sink.emit_meaning(self.alloc, meaning)?;
        self.consume(len);
        self.note_position(is_position);
        Ok(true)
    }

    // Consumes ESC and the bare key of so many bytes after it, and emits the key with ALT.
    #[inline(never)]
    fn emit_alt_form<S: EventSink>(&mut self, sink: &mut S, len: usize, maybe_more: bool) -> Emitted
        requires { (v : List ℕ) × (self.old.text ≡ ESC ++ v) × IsBareKeyAt self.old.reading v len }
        ensures { Emits S.takes self.old sink.old maybe_more self.new sink.new result }
    {
        let text = self.waiting_text();
        let event = meaning_in(self.reading, &text[1..1 + len]).event(self.alloc)?;
        self.consume(1 + len);
        sink.emit(with_alt(event));
        Ok(true)
    }

    // Consumes the item at the front of the buffer, and emits its event. The answer is false if no item is there. `emit_next` is quicker for
    // characters.
    #[inline(never)]
    fn emit_item<S: EventSink>(&mut self, sink: &mut S, maybe_more: bool) -> Emitted
        ensures { Emits S.takes self.old sink.old maybe_more self.new sink.new result }
    {
        let text = self.waiting_text();
        match self.next_item(text, maybe_more) {
            NextItem::Control(byte) => {
                let decided = decided_key(self.reading, byte);
                self.consume(1);
                sink.emit(key_event(self.alloc, control_key(byte), decided));
                Ok(true)
            }
            NextItem::Form(len) => {
                // The frame of `emit_form` is large.
                if let Some(report) = plain_report_at(text, len) {
                    self.consume(len);
                    sink.emit(Event::Key(report.whole(self.alloc)));
                    return Ok(true);
                }
                self.emit_form(sink, len, maybe_more)
            }
            NextItem::AltForm(len) => self.emit_alt_form(sink, len, maybe_more),
            NextItem::String(kind, opening) => self.emit_string(sink, kind, opening, maybe_more),
            NextItem::MouseReport(len, event) => self.emit_report(sink, event, len),
            NextItem::Escape => {
                self.consume(1);
                sink.emit(key_event(self.alloc, escape_key(), None));
                Ok(true)
            }
            NextItem::AltEscape => {
                self.consume(2);
                sink.emit(key_event(self.alloc, alt_key(escape_key()), None));
                Ok(true)
            }
            NextItem::Paste => self.emit_paste(sink, maybe_more),
            NextItem::Usual => self.emit_of_port(sink, maybe_more),
            NextItem::Incomplete(place) => {
                self.scanned = place;
                Ok(false)
            }
        }
    }

    /// Consumes the character at the front of the buffer, and emits its key to `sink`, as [`ExtendedParser::emit_next`] does. The answer is
    /// false if none is there. It asks for no memory, and so a run of characters can be one loop.
    #[inline(always)]
    pub fn emit_character<S: EventSink>(&mut self, sink: &mut S) -> bool
        ensures emitted { IsTrue result → (more : Bool) → IsEmittedWithoutMemory S.takes self.old sink.old more self.new sink.new }
        ensures none_same { result ≡ false → self.new ≡ self.old }
        ensures none_sink { result ≡ false → sink.new ≡ sink.old }
    {
        match match_character(self.waiting_text()) {
            Some((character, len)) => {
                self.consume(len);
                sink.emit(key_event(self.alloc, plain_key(character), None));
                true
            }
            None => false,
        }
    }

    /// Consumes the item at the front of the buffer, and emits its event to `sink`. The answer is false if there is no item: then all buffered
    /// bytes are the rest, and neither the parser nor the sink changed.
    ///
    /// Pass `maybe_more` as for [`ExtendedParser::parse`]. Memory is needed for the text of a paste or of a key, and for the bytes of `Csi`,
    /// `Osc`, `Dcs`, `Apc`, `StringPart` and `StringCut`. If it is refused, nothing changed and the item is still at the front, and the same
    /// call may be made again. Any other event needs none.
    #[tactic(auto, using(crate::proofs::lemmas::calls::DialectKept::dialect_emitted))]
    #[inline(always)]
    pub fn emit_next<S: EventSink>(
        &mut self,
        sink: &mut S,
        maybe_more: bool,
    ) -> Result<bool, AllocError>
        ensures emitted { result ≡ Ok true → IsEmitted S.takes self.old sink.old maybe_more self.new sink.new }
        ensures dialect { self.new.reading.dialect ≡ self.old.reading.dialect }
        ensures none { result ≡ Ok false → IsRest self.old.reading self.old.text maybe_more }
        ensures none_same { result ≡ Ok false → self.new ≡ self.old }
        ensures none_sink { result ≡ Ok false → sink.new ≡ sink.old }
        ensures refused { OnErr result (HasItemThatNeedsMemory self.old.reading self.old.text maybe_more) }
        ensures refused_same { OnErr result (self.new ≡ self.old) }
        ensures refused_sink { OnErr result (sink.new ≡ sink.old) }
        ensures granted { ¬ HasItemThatNeedsMemory self.old.reading self.old.text maybe_more → IsOk result }

        // Without more to come only an open paste stays buffered.
        ensures flushed { maybe_more ≡ false → result ≡ Ok false → (self.new.text ≡ []) ⊎ Begins START self.new.text }

        // At most 256 bytes stay buffered, an open string of at most 65535, or an open paste.
        ensures waits { result ≡ Ok false → Waits self.new.reading self.new.text maybe_more }
    {
        if self.emit_character(sink) {
            return Ok(true);
        }
        self.emit_item(sink, maybe_more)
    }
}
