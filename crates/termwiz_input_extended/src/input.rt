//! The extended parser.
ghost use Rattle.std.specs.Prelude.{◌≡◌, ◌≢◌, ◌++◌, ◌+◌, ◌≤◌, ◌<◌, max, min, ℕ, Bool, List, [], ◌∷◌, length, take, drop, true, false, OnErr, IfOk, IfErr, IfSome, IfNone, IsTrue, ◌⊎◌, OnOk, IsOk, IsErrOf, Ok, unwrap_or, vec_len, vec_capacity};
ghost use Rattle.termwiz_keymap.specs.Bytes.{Begins};
ghost use Rattle.termwiz_keys.specs.Introducers.{ESC, START};
ghost use Rattle.termwiz_grammar.specs.PasteParts.{HasPart, IsSkipped, IsTaken};
ghost use Rattle.termwiz_grammar.specs.WaitingKinds.{IsOpenPaste};
ghost use Rattle.termwiz_extended_events.specs.declared.types.Event.{Event};
ghost use Rattle.termwiz_extended_events.specs.PortEvents.{pressed_key, with_key};
ghost use Rattle.termwiz_extended_grammar.specs.ExtraSequences.{with_alt};
ghost use Rattle.termwiz_extended_grammar.specs.Readings.{after_event, after_events, asking, first_reading};
ghost use Rattle.termwiz_extended_grammar.specs.ExtendedGrammar.{HasItem, IsRest, Means, Steps};
ghost use Rattle.termwiz_extended_grammar.specs.ExtendedKinds.{IsKind};
ghost use Rattle.termwiz_extended_grammar.specs.ExtendedLaws.{Waits};
ghost use Rattle.termwiz_input_extended.specs.Buffered.{IsToldByBytes};
ghost use Rattle.termwiz_input_extended.specs.EventCallbacks.{MayBeCalledOn, WasCalledOn};
ghost use Rattle.termwiz_input_extended.specs.NextItems.{GivesNoneThatNeedsMemory, HasItemThatNeedsMemory, IsNextItem, IsPasteEvent, Stores, told_by};

use crate::next_item::{NextItem, is_extra_at, meaning_in, next_item};
use crate::string::{OpeningAt, StringAt, opening_at, string_at};
use std::alloc::{AllocError, Global};
use std::marker::Model;
use termwiz_extended_events::mouse_reports::sgr_report;
use termwiz_extended_events::port_events::pressed_key;
use termwiz_extended_events::types::{Dialect, Event, KeyReport, Reading, SequenceBytes};
pub use termwiz_extended_grammar::waiting::ExtendedWaiting;
pub use termwiz_input::input::ParseError;
use termwiz_input::input::{InputEvent, InputParser, KeyEvent, PastedText, Waiting};
use termwiz_keys::types::KeyCode;

mod emit;

/// A call of [`ExtendedParser::parse_as_vec`] was refused memory. No event is lost: the parser has consumed exactly what `events` came from,
/// and the next call goes on from there. Call again with the same bytes if `taken` is false, and with no bytes if it is true.
#[derive(PartialEq, Eq, Debug, Drop)]
pub struct ExtendedVecError {
    /// The events so far.
    pub events: Vec<Event>,
    /// Whether the bytes of the call were taken. If not, there are no events, and the parser is unchanged.
    pub taken: bool,
}

/// Reads events from the bytes that a terminal sends, however they are cut: those of [`InputParser`], and the sequences that it doesn't know,
/// such as replies, focus reports and Kitty's keyboard protocol.
///
/// Contracts see a parser as its `Reading` and its buffered bytes.
#[derive(Debug, Drop)]
pub struct ExtendedParser {
    // Its buffered bytes are those of this parser.
    parser: InputParser,
    reading: Reading,
    // The bytes of the buffer before this offset were looked at: a search for the end of a sequence goes on from there.
    scanned: usize,
    alloc: Global,
}

impl Model for ExtendedParser {
    ghost use Rattle.termwiz_input_extended.specs.Buffered.{Buffered};
    ghost use Rattle.termwiz_input_extended.specs.NextItems.{IsScannedTo};

    ghost Value = { Buffered };

    ghost view = { λ p. record { reading = p.reading; text = p.parser } };

    ghost invariant = { λ p. IsScannedTo p.parser p.scanned };
}

// More events than most reads have.
const FIRST_ROOM: usize = 256;

// The event of a key of the port, or of the key that the reading decides.
#[inline(always)]
fn key_event(alloc: Global, event: KeyEvent, decided: Option<KeyCode>) -> Event
    ensures { result ≡ Event.Key (pressed_key (with_key event (unwrap_or decided event.key))) }
{
    let event = KeyEvent {
        key: decided.unwrap_or(event.key),
        modifiers: event.modifiers,
    };
    Event::Key(pressed_key(alloc, &event))
}

// The event of an event of the port, of whose bytes nothing else is told. It isn't inlined, since nearly every event is a key.
#[inline(never)]
fn told_event(alloc: Global, event: InputEvent, decided: Option<KeyCode>) -> Event
    ensures { result ≡ told_by decided event }
{
    match event {
        InputEvent::Key(key) => key_event(alloc, key, decided),
        InputEvent::Mouse(report) => Event::Mouse(sgr_report(b"", report)),
        InputEvent::Paste(text) => Event::Paste(text),
        _ => Event::Csi(SequenceBytes::new(Vec::new(alloc))),
    }
}

// Kitty's bit of ALT.
const ALT_BIT: u8 = 2;

// The event of a bare key after ESC.
fn with_alt(event: Event) -> Event
    ensures { result ≡ with_alt event }
{
    match event {
        Event::Key(report) => Event::Key(KeyReport {
            modifiers: report.modifiers | ALT_BIT,
            ..report
        }),
        other => other,
    }
}

impl ExtendedParser {
    /// A parser by this grammar, whose buffer is empty: by [`Reading::new`] it reads no X10 mouse reports, no question is open, Backspace sends
    /// 127, and byte 10 is Ctrl-J.
    pub fn new(alloc: Global, dialect: Dialect) -> Result<ExtendedParser, AllocError>
        ensures empty { IfOk result (λ parser. parser.text ≡ []) }
        ensures reading { IfOk result (λ parser. parser.reading ≡ first_reading dialect) }
    {
        Ok(ExtendedParser::over(alloc, InputParser::new(alloc)?, Reading::new(dialect)))
    }

    // A parser over another, of whose buffer nothing was searched.
    fn over(alloc: Global, parser: InputParser, reading: Reading) -> ExtendedParser
        ensures text { result.text ≡ parser }
        ensures reading { result.reading ≡ reading }
    {
        ExtendedParser {
            parser,
            reading,
            scanned: 0,
            alloc,
        }
    }

    /// Another parser with the sequence table of this one, by this grammar, whose buffer is empty. It asks for no memory; see
    /// [`InputParser::sharing`].
    pub fn sharing(&self, dialect: Dialect) -> Result<ExtendedParser, AllocError>
        ensures empty { IfOk result (λ parser. parser.text ≡ []) }
        ensures reading { IfOk result (λ parser. parser.reading ≡ first_reading dialect) }
    {
        Ok(ExtendedParser::over(self.alloc, self.parser.sharing()?, Reading::new(dialect)))
    }

    /// The parser of the port whose buffer this one has: it tells the rows of the sequence table, and which of them would complete what is
    /// buffered.
    pub fn input(&self) -> &InputParser
        ensures { result.now ≡ self.now.text }
    {
        &self.parser
    }

    /// Gives back memory that holds no buffered bytes, as [`InputParser::shrink_to`] does.
    pub fn shrink_to(&mut self, min_capacity: usize)
        ensures { self.new ≡ self.old }
    {
        self.parser.shrink_to(min_capacity);
    }

    /// How it reads. The number of open questions is that after the events so far.
    pub fn reading(&self) -> Reading
        ensures { result ≡ self.now.reading }
    {
        self.reading
    }

    /// Has it read so from now on. What is buffered is read by this reading too.
    pub fn set_reading(&mut self, reading: Reading)
        ensures { self.new ≡ record self.old { reading = reading } }
    {
        self.reading = reading;
    }

    /// By which grammar it reads.
    pub fn dialect(&self) -> Dialect
        ensures { result ≡ self.now.reading.dialect }
    {
        self.reading.dialect
    }

    /// Expects one more reply to a question for the cursor's position, up to 255: call it with each ESC `[6n` that is written. While a reply is
    /// expected, ESC `[1;5R` and the like are positions, and not F3 with modifiers.
    pub fn expect_position(&mut self)
        ensures { self.new ≡ record self.old { reading = asking self.old.reading (min (self.old.reading.questions + 1) 255) } }
    {
        self.reading.questions = self.reading.questions.saturating_add(1);
    }

    /// Expects no reply any more to questions for the cursor's position: call it when a reply is overdue, or when a later question was answered.
    pub fn forget_positions(&mut self)
        ensures { self.new ≡ record self.old { reading = asking self.old.reading 0 } }
    {
        self.reading.questions = 0;
    }

    /// The buffered bytes.
    pub fn waiting_text(&self) -> &[u8]
        ensures { result.now ≡ self.now.text }
    {
        self.parser.waiting_text()
    }

    /// The number of buffered bytes.
    pub fn waiting_len(&self) -> usize
        ensures { result ≡ length self.now.text }
    {
        self.parser.waiting_len()
    }

    // What is at the front of the buffered bytes.
    #[inline(always)]
    fn next_item(&self, text: &[u8], maybe_more: bool) -> NextItem
        requires { text.now ≡ self.now.text }
        ensures { IsNextItem self.now.reading self.now.text maybe_more result }
    {
        next_item(&self.parser, self.reading, text, self.scanned, maybe_more)
    }

    /// Forgets what stays buffered and which positions are expected, and returns how many bytes were buffered. It asks for no memory and frees
    /// none.
    pub fn reset(&mut self) -> usize
        ensures count { result ≡ length self.old.text }
        ensures nothing { self.new.text ≡ [] }
        ensures reading { self.new.reading ≡ asking self.old.reading 0 }
    {
        let len = self.waiting_len();
        self.consume(len);
        self.reading.questions = 0;
        len
    }

    // Drops the first buffered bytes. What is left wasn't looked at.
    fn consume(&mut self, len: usize)
        requires { len ≤ length self.old.text }
        ensures { self.new ≡ record self.old { text = drop len self.old.text } }
    {
        self.parser.consume(len);
        self.scanned = 0;
    }

    // Takes buffered bytes out, from one place to another. What is left wasn't looked at.
    fn cut_out(&mut self, from: usize, to: usize)
        requires in_order { from ≤ to }
        requires within { to ≤ length self.old.text }
        ensures { self.new ≡ record self.old { text = take from self.old.text ++ drop to self.old.text } }
    {
        self.parser.cut_out(from, to);
        self.scanned = 0;
    }

    /// Buffers bytes. If memory is refused, the parser is unchanged; no bytes need no memory.
    ///
    /// Then call [`ExtendedParser::next_event`] until it returns `None`.
    pub fn feed(&mut self, bytes: &[u8]) -> Result<(), AllocError>
        ensures ok { OnOk result (self.new ≡ record self.old { text = self.old.text ++ bytes.now }) }
        ensures err { OnErr result (self.new ≡ self.old) }
        ensures no_bytes { OnErr result (bytes.now ≢ []) }
    {
        self.parser.feed(bytes)
    }

    /// Consumes the item at the front of the buffer, and returns its event. `None` if there is no item: then all buffered bytes are the
    /// rest, and the parser is unchanged. It is [`ExtendedParser::emit_next`] with a place for one event as the sink.
    pub fn next_event(&mut self, maybe_more: bool) -> Result<Option<Event>, AllocError>
        ensures event { IfOk result (λ found. IfSome found (λ event. Steps self.old.reading self.old.text maybe_more (event ∷ []) self.new.text)) }
        ensures reading { IfOk result (λ found. IfSome found (λ event. self.new.reading ≡ after_event self.old.reading event)) }
        ensures dialect { self.new.reading.dialect ≡ self.old.reading.dialect }
        ensures none { IfOk result (λ found. IfNone found (IsRest self.old.reading self.old.text maybe_more)) }
        ensures none_same { IfOk result (λ found. IfNone found (self.new ≡ self.old)) }
        ensures refused { OnErr result (HasItemThatNeedsMemory self.old.reading self.old.text maybe_more) }
        ensures refused_same { OnErr result (self.new ≡ self.old) }
        ensures granted { ¬ HasItemThatNeedsMemory self.old.reading self.old.text maybe_more → IsOk result }

        // Without more to come only an open paste stays buffered.
        ensures flushed { maybe_more ≡ false → IfOk result (λ found. IfNone found ((self.new.text ≡ []) ⊎ Begins START self.new.text)) }

        // At most 256 bytes stay buffered, an open string of at most 65535, or an open paste.
        ensures waits { IfOk result (λ found. IfNone found (Waits self.new.reading self.new.text maybe_more)) }
    {
        let mut found = None;
        self.emit_next(&mut found, maybe_more)?;
        Ok(found)
    }

    /// What kind of bytes stays buffered, once [`ExtendedParser::next_event`] returned `None`, or `parse` succeeded.
    ///
    /// How long each kind may stay buffered is in [`Policy`](crate::time::Policy), as [`limit_of`](crate::time::limit_of) tells.
    pub fn waiting(&self) -> ExtendedWaiting
        ensures kind { (more : Bool) → IsRest self.now.reading self.now.text more → IsKind self.now.reading self.now.text more result }

        // The first bytes alone tell the kind, also where an item is matched.
        ensures bytes { IsToldByBytes self.now.reading self.now.text result }
    {
        match self.parser.waiting() {
            Waiting::Nothing => ExtendedWaiting::Nothing,
            Waiting::Escape => ExtendedWaiting::Escape,
            Waiting::Character => ExtendedWaiting::Character,
            Waiting::Paste => ExtendedWaiting::Paste,
            Waiting::Sequence => match (self.reading.dialect, opening_at(self.waiting_text())) {
                (Dialect::Extended, OpeningAt::Opening(..)) => ExtendedWaiting::String,
                _ => ExtendedWaiting::Sequence,
            },
        }
    }

    /// Ends an open paste where it is: its text so far is the event, and nothing stays buffered. `None` if no paste is open; the parser is
    /// then unchanged.
    ///
    /// Call it at the end of the input, or once the limit of a paste that stalls has passed. What the terminal still sends of the paste arrives
    /// as typed keys. For a paste that is too long call [`ExtendedParser::take_paste`] or [`ExtendedParser::skip_paste`]. If memory for the text
    /// is refused, the parser is unchanged.
    pub fn end_paste(&mut self) -> Result<Option<Event>, AllocError>
        ensures event { IfOk result (λ found. IfSome found (IsPasteEvent self.old.text)) }
        ensures nothing { IfOk result (λ found. IfSome found (λ _. self.new.text ≡ [])) }
        ensures reading { self.new.reading ≡ self.old.reading }
        ensures none { IfOk result (λ found. IfNone found (¬ IsOpenPaste self.old.text)) }
        ensures none_same { IfOk result (λ found. IfNone found (self.new ≡ self.old)) }
        ensures refused { OnErr result (IsOpenPaste self.old.text) }
        ensures refused_same { OnErr result (self.new ≡ self.old) }
    {
        match self.parser.end_paste()? {
            Some(event) => {
                self.scanned = 0;
                Ok(Some(told_event(self.alloc, event, None)))
            }
            None => Ok(None),
        }
    }

    /// Takes text of an open paste before its end comes, if more than `limit` bytes of the text are buffered. `None` if no more are, or no paste
    /// is open; the parser is then unchanged.
    ///
    /// Call it after each read and its events, as [`InputParser::take_paste`], such as with a limit of 2^20: the text is the next part of what
    /// is pasted. The paste stays open, and the [`Event::Paste`] that ends it has the rest of its text, maybe none. At most five bytes are
    /// held back, that may be the beginning of the paste's end or of a character. If memory for the text is refused, the parser is
    /// unchanged.
    pub fn take_paste(&mut self, limit: usize) -> Result<Option<PastedText>, AllocError>
        ensures part { IfOk result (λ found. IfSome found (λ text. IsTaken self.old.text limit text self.new.text)) }
        ensures reading { self.new.reading ≡ self.old.reading }
        ensures none { IfOk result (λ found. IfNone found (¬ HasPart self.old.text limit)) }
        ensures none_same { IfOk result (λ found. IfNone found (self.new ≡ self.old)) }
        ensures refused { OnErr result (HasPart self.old.text limit) }
        ensures refused_same { OnErr result (self.new ≡ self.old) }

        // What an open paste has buffered is bounded.
        ensures bounded { OnOk result (IsOpenPaste self.new.text → length self.new.text ≤ 6 + max limit 5) }
    {
        let text = self.parser.take_paste(limit)?;
        if text.is_some() {
            self.scanned = 0;
        }
        Ok(text)
    }

    /// Forgets text of an open paste before its end comes: all that [`ExtendedParser::take_paste`] would take with a limit of 0. Returns how many
    /// bytes these were. `None` if no paste is open; the parser is then unchanged.
    ///
    /// To refuse a paste that is too long, call it after each read and its events until the [`Event::Paste`] comes, and ignore that event.
    /// So no byte of the paste becomes a key. It asks for no memory, and afterwards at most 11 bytes of the paste stay buffered.
    pub fn skip_paste(&mut self) -> Option<usize>
        ensures skipped { IfSome result (λ count. IsSkipped self.old.text count self.new.text) }
        ensures reading { self.new.reading ≡ self.old.reading }
        ensures none { IfNone result (¬ IsOpenPaste self.old.text) }
        ensures none_same { IfNone result (self.new ≡ self.old) }

        // What the paste still has buffered is bounded.
        ensures bounded { IsOpenPaste self.new.text → length self.new.text ≤ 6 + 5 }
    {
        let count = self.parser.skip_paste();
        if count.is_some() {
            self.scanned = 0;
        }
        count
    }

    /// Calls `callback` with each event of the buffered bytes in order: a loop over [`ExtendedParser::next_event`] up to `None`. A program that
    /// has such a loop of its own has the same events.
    ///
    /// Pass `maybe_more` as for [`ExtendedParser::parse`]. If memory for an event is refused, its item is still at the front of what waits,
    /// and the same call may be made again.
    pub fn for_each_event<F: FnMut(Event)>(
        &mut self,
        callback: &mut F,
        maybe_more: bool,
    ) -> Result<(), AllocError>
        requires { (events : List Event) (rest : List ℕ) → Steps self.old.reading self.old.text maybe_more events rest
            → MayBeCalledOn F.FnMut callback.old events }
        ensures ok { OnOk result ((events : List Event) × Means self.old.reading self.old.text maybe_more events self.new.text
            × (self.new.reading ≡ after_events self.old.reading events) × WasCalledOn F.step callback.old events callback.new) }
        ensures dialect { self.new.reading.dialect ≡ self.old.reading.dialect }

        // Without more to come only an open paste stays buffered.
        ensures flushed { maybe_more ≡ false → OnOk result ((self.new.text ≡ []) ⊎ Begins START self.new.text) }

        // At most 256 bytes stay buffered, an open string of at most 65535, or an open paste.
        ensures waits { OnOk result (Waits self.new.reading self.new.text maybe_more) }

        // Exactly the emitted events were consumed, and an item whose event needs memory is at the front.
        ensures refused { OnErr result ((events : List Event) × Steps self.old.reading self.old.text maybe_more events self.new.text
            × (self.new.reading ≡ after_events self.old.reading events) × WasCalledOn F.step callback.old events callback.new) }
        ensures refused_item { OnErr result (HasItemThatNeedsMemory self.new.reading self.new.text maybe_more) }
    {
        loop {
            match self.next_event(maybe_more)? {
                Some(event) => callback(event),
                None => return Ok(()),
            }
        }
    }

    /// Buffers `bytes`, and calls `callback` with each of its events in order. What is no event yet stays buffered.
    ///
    /// Pass `maybe_more` as true while more bytes may come: then a text that may yet become a longer sequence or a character
    /// stays buffered. Pass false at the end of the input: then only an open paste stays buffered. No bytes and false are a flush.
    pub fn parse<F: FnMut(Event)>(
        &mut self,
        bytes: &[u8],
        callback: &mut F,
        maybe_more: bool,
    ) -> Result<(), ParseError>
        requires { (events : List Event) (rest : List ℕ) → Steps self.old.reading (self.old.text ++ bytes.now) maybe_more events rest
            → MayBeCalledOn F.FnMut callback.old events }
        ensures ok { OnOk result ((events : List Event)
            × Means self.old.reading (self.old.text ++ bytes.now) maybe_more events self.new.text
            × (self.new.reading ≡ after_events self.old.reading events) × WasCalledOn F.step callback.old events callback.new) }
        ensures dialect { self.new.reading.dialect ≡ self.old.reading.dialect }

        // Without more to come only an open paste stays buffered.
        ensures flushed { maybe_more ≡ false → OnOk result ((self.new.text ≡ []) ⊎ Begins START self.new.text) }

        // At most 256 bytes stay buffered, an open string of at most 65535, or an open paste.
        ensures waits { OnOk result (Waits self.new.reading self.new.text maybe_more) }

        // If the bytes weren't taken, nothing happened.
        ensures not_taken_same { IsErrOf result ParseError.NotTaken → self.new ≡ self.old }
        ensures not_taken_quiet { IsErrOf result ParseError.NotTaken → callback.new ≡ callback.old }
        ensures not_taken_some { IsErrOf result ParseError.NotTaken → bytes.now ≢ [] }

        // If they were, exactly the emitted events were consumed, and an item whose event needs memory is at the front.
        ensures taken { IsErrOf result ParseError.Taken
            → (events : List Event) × Steps self.old.reading (self.old.text ++ bytes.now) maybe_more events self.new.text
            × (self.new.reading ≡ after_events self.old.reading events) × WasCalledOn F.step callback.old events callback.new }
        ensures taken_item { IsErrOf result ParseError.Taken → HasItemThatNeedsMemory self.new.reading self.new.text maybe_more }

        // No bytes need no memory, unless the buffered bytes give an event that does.
        ensures granted { bytes.now ≡ [] → GivesNoneThatNeedsMemory self.old.reading self.old.text maybe_more → IsOk result }
    {
        if self.feed(bytes).is_err() {
            return Err(ParseError::NotTaken);
        }
        let told = self.for_each_event(callback, maybe_more);
        told.map_err(|_| ParseError::Taken)
    }

    // Whether an item is at the front of the buffer.
    fn has_item(&self, maybe_more: bool) -> bool
        ensures some { IsTrue result → HasItem self.now.reading self.now.text maybe_more }
        ensures none { result ≡ false → IsRest self.now.reading self.now.text maybe_more }
    {
        let reading = self.reading;
        let text = self.waiting_text();
        match self.next_item(text, maybe_more) {
            NextItem::Form(len)
                if is_extra_at(
                    &self.parser,
                    reading,
                    text,
                    len,
                    &meaning_in(reading, &text[..len]),
                ) => true,
            NextItem::Form(_) => self.parser.has_item(maybe_more),
            NextItem::Paste => self.parser.has_item(maybe_more),
            NextItem::Usual => self.parser.has_item(maybe_more),
            NextItem::Control(_) => self.parser.has_item(maybe_more),
            NextItem::Incomplete(_) => false,
            NextItem::String(kind, opening) => {
                match string_at(kind, opening, text, self.scanned, maybe_more) {
                    StringAt::Item(_) => true,
                    StringAt::Open(_) => false,
                }
            }
            _ => true,
        }
    }

    // Makes room in the list for one more event, if an item is at the front of the buffer.
    fn make_room(&self, events: &mut Vec<Event>, maybe_more: bool) -> Result<(), AllocError>
        ensures items { events.new.items ≡ events.old.items }
        ensures room { OnOk result (HasItem self.now.reading self.now.text maybe_more → vec_len events.new < vec_capacity events.new) }
        ensures item { OnErr result (HasItem self.now.reading self.now.text maybe_more) }
    {
        if events.len() < events.capacity() {
            return Ok(());
        }
        if !self.has_item(maybe_more) {
            return Ok(());
        }
        events.reserve(self.waiting_len().min(FIRST_ROOM).max(1))
    }

    // Moves the event of the item at the front of the buffer to the list. False if no item is there. There is room for the event before
    // its bytes are consumed.
    fn store_next(&mut self, events: &mut Vec<Event>, maybe_more: bool) -> Result<bool, AllocError>
        ensures { Stores self.old maybe_more events.old.items self.new events.new.items result }
    {
        self.make_room(events, maybe_more)?;
        match self.next_event(maybe_more)? {
            Some(event) => {
                events.push_reserved(event);
                Ok(true)
            }
            None => Ok(false),
        }
    }

    // Moves the events of the buffered bytes to an empty list, in order. An event's bytes are consumed only after there is room for it.
    fn store_events(&mut self, events: &mut Vec<Event>, maybe_more: bool) -> Result<(), AllocError>
        requires { events.old.items ≡ [] }
        ensures steps { Steps self.old.reading self.old.text maybe_more events.new.items self.new.text }
        ensures reading { self.new.reading ≡ after_events self.old.reading events.new.items }
        ensures dialect { self.new.reading.dialect ≡ self.old.reading.dialect }
        ensures rest { OnOk result (IsRest self.new.reading self.new.text maybe_more) }
        ensures item { OnErr result (HasItem self.new.reading self.new.text maybe_more) }
        ensures few { length events.new.items + length self.new.text ≤ length self.old.text }
    {
        while self.store_next(events, maybe_more)? {}
        Ok(())
    }

    /// Buffers `bytes`, and returns its events in order. What is no event yet stays buffered.
    ///
    /// Pass `maybe_more` as true while more bytes may come: then a text that may yet become a longer sequence or a character
    /// stays buffered. Pass false at the end of the input: then only an open paste stays buffered. No bytes and false are a flush.
    #[tactic(auto, using(termwiz_extended_grammar::proofs::lemmas::waiting::FlushesLeave::rest_flushed, termwiz_extended_grammar::proofs::lemmas::items::ExtendedRests::waiting_shape))]
    pub fn parse_as_vec(
        &mut self,
        bytes: &[u8],
        maybe_more: bool,
    ) -> Result<Vec<Event>, ExtendedVecError>
        ensures ok { IfOk result (λ events. Means self.old.reading (self.old.text ++ bytes.now) maybe_more events.items self.new.text) }
        ensures few { IfOk result (λ events. length events.items + length self.new.text ≤ length self.old.text + length bytes.now) }
        ensures reading { IfOk result (λ events. self.new.reading ≡ after_events self.old.reading events.items) }
        ensures dialect { self.new.reading.dialect ≡ self.old.reading.dialect }

        // Without more to come only an open paste stays buffered.
        ensures flushed { maybe_more ≡ false → OnOk result ((self.new.text ≡ []) ⊎ Begins START self.new.text) }

        // At most 256 bytes stay buffered, an open string of at most 65535, or an open paste.
        ensures waits { OnOk result (Waits self.new.reading self.new.text maybe_more) }

        // If the bytes weren't taken, nothing happened.
        ensures not_taken_none { IfErr result (λ e. e.taken ≡ false → e.events.items ≡ []) }
        ensures not_taken_same { IfErr result (λ e. e.taken ≡ false → self.new ≡ self.old) }
        ensures not_taken_some { IfErr result (λ e. e.taken ≡ false → bytes.now ≢ []) }

        // If they were, exactly the events of the error were consumed, and an item is at the front.
        ensures taken { IfErr result (λ e. e.taken ≡ true
            → Steps self.old.reading (self.old.text ++ bytes.now) maybe_more e.events.items self.new.text) }
        ensures taken_reading { IfErr result (λ e. e.taken ≡ true → self.new.reading ≡ after_events self.old.reading e.events.items) }
        ensures taken_item { IfErr result (λ e. e.taken ≡ true → HasItem self.new.reading self.new.text maybe_more) }
        ensures taken_few { IfErr result (λ e. e.taken ≡ true
            → length e.events.items + length self.new.text ≤ length self.old.text + length bytes.now) }
    {
        let mut events = Vec::new(self.alloc);
        let taken = self.feed(bytes).is_ok();
        if taken && self.store_events(&mut events, maybe_more).is_ok() {
            return Ok(events);
        }
        Err(ExtendedVecError { events, taken })
    }
}
