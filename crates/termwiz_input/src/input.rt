//! The parser: bytes of a terminal to events.
ghost use Rattle.std.specs.Prelude.{◌≡◌, ◌≢◌, ◌++◌, ◌+◌, ◌^◌, ◌<◌, ◌≤◌, max, ℕ, Bool, List, [], ◌∷◌, length, take, drop, Contains, Some, true, false, OnErr, IfOk, IfErr, IfSome, IfNone, IsSome, IsTrue, ◌↔◌, ◌==◌, ◌⊎◌, if◌then◌else◌, OnOk, IsOk, IsErrOf, vec_len, vec_capacity};
ghost use Rattle.termwiz_keys.specs.declared.types.KeyEvent.{KeyEvent};
ghost use Rattle.termwiz_keymap.specs.Bytes.{Begins};
ghost use Rattle.termwiz_keys.specs.Introducers.{START};
ghost use Rattle.termwiz_grammar.specs.RowsInOrder.{AreCompletions, IsRowAt};
ghost use Rattle.termwiz_grammar.specs.Table.{table};
ghost use Rattle.termwiz_grammar.specs.WaitingKinds.{IsKind, IsOneOrTwoEscapes, IsOpenPaste, IsShortOrOpenPaste};
ghost use Rattle.termwiz_grammar.specs.PasteParts.{HasPart, IsSkipped, IsTaken};
ghost use Rattle.termwiz_input.specs.HeldLengths.{IsDecidedTo};
ghost use Rattle.termwiz_input.specs.KeyPlaces.{IsNextPlaceOf};
ghost use Rattle.termwiz_keymap.specs.Lookup.{LookupGives, found_copied};
ghost use Rattle.termwiz_input.specs.PasteSearch.{IsPasteSoFar};
ghost use Rattle.termwiz_grammar.specs.Grammar.{GivesNoPaste, HasItem, HasPaste, IsRest, Steps, Means};
ghost use Rattle.termwiz_input.specs.Fronts.{Emits, IsFront, Stores};
ghost use Rattle.termwiz_input.specs.Matches.{IsItemAt};
ghost use Rattle.termwiz_input.specs.Promise.{IsExactReading, IsRefusedReading};
ghost use Rattle.termwiz_input.specs.WaitingBytes.{IsToldByBytes};
ghost use Rattle.termwiz_input.specs.Callbacks.{MayBeCalledOn, MayBeCalledOnNumbered, WasCalledOn, WasCalledOnNumbered};
ghost use Rattle.termwiz_input.specs.Pieces.{AreNumbered, NumberedEvent, ReadsFirst, events_of, join, numbered, pieces_or_one, texts};
ghost use Rattle.termwiz_keys.specs.declared.types.InputEvent.{InputEvent as Event};

pub use crate::completions::Completions;
use crate::completions::completions_of;
pub use crate::errors::{ParseError, ParseVecError, PiecesError};
pub use crate::front::follows_escape;
use crate::front::{AtFront, front, is_escape};
pub use crate::head::character_at;
use crate::held::held_len;
pub use crate::key::{alt_key, copied, escape_key, plain_key};
pub use crate::mouse_report::{FrontReport, mouse_report_at};
pub use crate::paste::begins_paste;
use crate::paste::{PASTE_START, lacks_end, lossy_text, next_search, paste_so_far};
use crate::printable_ascii::append_printable_ascii;
pub use crate::printable_ascii::is_printable_ascii;
use crate::sequence_table::SequenceTable;
use crate::waiting::kind_of;
use std::alloc::{AllocError, Global};
use std::marker::Model;
use std::sync::Arc;
pub use termwiz_base::{Flags, Modifiers};
pub use termwiz_grammar::waiting::Waiting;
use termwiz_keymap::keymap::Found;
use termwiz_keymap::readbuf::ReadBuffer;
pub use termwiz_keys::encode::{CSI, EncodeError, KeyCodeEncodeModes, KeyboardEncoding, SS3};
pub use termwiz_keys::types::{
    InputEvent, KeyCode, KeyEvent, MouseButtons, MouseEvent, PastedText, PixelMouseEvent,
};

// How many bytes a short text has: as many as a read of a keyboard seldom passes.
const SHORT_TEXT: usize = 64;

// Whether more may come after the piece with this number, of so many.
fn more_after(number: usize, count: usize, maybe_more: bool) -> bool
    requires { number < count }
    ensures { result ≡ (if number + 1 == count then maybe_more else true) }
{
    maybe_more || number + 1 < count
}

/// Reads events from the bytes that a terminal sends, however they are cut.
///
/// Contracts see a parser as the text that waits: what it has taken and not turned into events.
#[derive(Debug, Drop)]
pub struct InputParser {
    // The parsers that were made from this one share it, and it is freed with the last of them.
    table: Arc<SequenceTable, Global>,
    buffer: ReadBuffer,
    // END begins nowhere in the buffer before this offset: a search of an open paste needn't start before it.
    searched: usize,
    alloc: Global,
}

impl Model for InputParser {
    ghost use Rattle.std.specs.Prelude.{◌≡◌, List, ℕ};

    ghost Value = { List ℕ };

    ghost use Rattle.termwiz_input.specs.PasteSearch.{NoEndBefore};

    ghost view = { λ p. p.buffer };

    ghost invariant = { λ p. NoEndBefore p.buffer p.searched };
}

impl InputParser {
    ghost use Rattle.std.specs.FinMap as map;
    ghost use Rattle.termwiz_grammar.specs.Table.{rows, table};

    /// A parser whose key map is exactly the sequence table, and whose buffer is empty.
    ///
    /// The clause `exactly` says which rows the table has. That the parser's key map is this table, now and in every later state, is the
    /// invariant of the table's type: [`InputParser::lookup`] answers from it, and every event is one that the table means.
    pub fn new(alloc: Global) -> Result<InputParser, AllocError>
        ensures empty { IfOk result (λ parser. parser ≡ []) }
        ensures exactly { (text : List ℕ) (key : KeyEvent) → (map.get table text ≡ Some key) ↔ Contains rows (text, key) }
    {
        let table = Arc::new(alloc, SequenceTable::new(alloc)?)?;
        Ok(InputParser::over(alloc, table))
    }

    // A parser over this table, whose buffer is empty.
    fn over(alloc: Global, table: Arc<SequenceTable, Global>) -> InputParser
        ensures { result ≡ [] }
    {
        InputParser {
            table,
            buffer: ReadBuffer::new(alloc),
            searched: 0,
            alloc,
        }
    }

    /// Another parser with the sequence table of this one, whose buffer is empty.
    ///
    /// A table costs memory and time, and parsers may share one: make the first parser by [`InputParser::new`], and the others from any
    /// that has the table. It is freed with the last of them, in whatever order they go. The call takes no memory. It fails only if
    /// 2^63 parsers share the table.
    pub fn sharing(&self) -> Result<InputParser, AllocError>
        ensures { IfOk result (λ parser. parser ≡ []) }
    {
        let table = Arc::try_clone(&self.table)?;
        Ok(InputParser::over(self.alloc, table))
    }

    /// Looks bytes up in the sequence table, as the parser does: finds the longest row that is a prefix of them. Nothing is buffered.
    ///
    /// Pass true for `maybe_more` if more bytes may follow. The answers are those of [`KeyMap::lookup`].
    pub fn lookup(&self, bytes: &[u8], maybe_more: bool) -> Found<&KeyEvent>
        ensures { LookupGives table bytes.now maybe_more (found_copied result) }
    {
        self.table.key_map().lookup(bytes, maybe_more)
    }

    /// The row of the sequence table at a place: the bytes of a sequence, and its key. Rows are in the order of their bytes; the first
    /// place is 0, and from the number of rows on `None` is returned.
    ///
    /// By the law `rows_in_order` each row of the table is at one place. The rows of the start and the end of a paste have the keys
    /// `InternalPasteStart` and `InternalPasteEnd`.
    pub fn row(&self, place: usize) -> Option<(&[u8], &KeyEvent)>
        ensures row { IfSome result (λ row. IsRowAt place row.0.now row.1.now) }
        ensures none { IfNone result (map.len table ≤ place) }
    {
        self.table.key_map().get_index(place)
    }

    /// The place of the first row that has this key, or the number of rows if none has it. [`InputParser::row`] returns the row.
    ///
    /// Rows are found by their keys through places that are kept beside the table. So few rows of other keys are looked at, and no memory
    /// is taken.
    pub fn first_place(&self, key: &KeyEvent) -> usize
        ensures { IsNextPlaceOf key.now 0 result }
    {
        self.table.first_place(key)
    }

    /// The place of the next row that has the key of the row at this place, or the number of rows if there is none. If no row is at this
    /// place, nothing is said of the answer.
    pub fn next_place(&self, place: usize) -> usize
        ensures { (bytes : List ℕ) (key : KeyEvent) → IsRowAt place bytes key → IsNextPlaceOf key (place + 1) result }
    {
        self.table.next_place(place)
    }

    /// The rows of the sequence table that would complete what is buffered: those that begin with it and are longer. If there are none,
    /// those that begin with what follows its ESC; these get ALT.
    ///
    /// Ask for them while [`InputParser::waiting`] is `Escape` or `Sequence`. A mouse report, a character and a paste are completed by bytes
    /// that aren't in the table, and an ESC by any character too.
    ///
    /// The buffered bytes and the rest of such a row mean the row's key, with ALT if `with_alt` is true (`completions_are_read` of
    /// `termwiz_laws`). The start of a paste is the exception: it opens a paste, and an ESC before it is the Escape key.
    pub fn completions(&self) -> Completions
        ensures { AreCompletions self.now result.with_alt result.rows.start result.rows.end }
    {
        completions_of(self.table.key_map(), self.buffer.as_slice())
    }

    /// The number of buffered bytes.
    pub fn waiting_len(&self) -> usize
        ensures { result ≡ length self.now }
    {
        self.buffer.len()
    }

    /// The buffered bytes.
    pub fn waiting_text(&self) -> &[u8]
        ensures { result.now ≡ self.now }
    {
        self.buffer.as_slice()
    }

    /// Whether the buffer begins with the start of a paste.
    pub fn is_paste_open(&self) -> bool
        ensures { IsTrue result ↔ Begins START self.now }
    {
        begins_paste(self.buffer.as_slice())
    }

    /// What kind of bytes stays buffered, once [`InputParser::next_event`] returned `None`, or `parse` succeeded.
    ///
    /// How long each kind may stay buffered is in [`Policy`](crate::time::Policy), and [`expire`](crate::time::expire) flushes it then.
    pub fn waiting(&self) -> Waiting
        ensures kind { (more : Bool) → IsRest self.now more → IsKind self.now more result }

        // The first bytes alone tell the kind, also where an item is matched.
        ensures bytes { IsToldByBytes self.now result }
    {
        kind_of(self.buffer.as_slice())
    }

    // What is at the front of the buffer. A run of printable ASCII has at most `most` characters.
    #[inline(always)]
    fn front(&self, most: usize, maybe_more: bool) -> AtFront<'_, '_>
        requires { 0 < most }
        ensures { IsFront self.now maybe_more result }
    {
        let text = self.buffer.as_slice();
        front(self.table.key_map(), text, self.searched, most, maybe_more)
    }

    /// Whether an item is at the front of the buffer: whether [`InputParser::next_event`] emits an event, if memory is granted.
    pub fn has_item(&self, maybe_more: bool) -> bool
        ensures some { IsTrue result → HasItem self.now maybe_more }
        ensures none { result ≡ false → IsRest self.now maybe_more }
    {
        let found = self.front(1, maybe_more);
        match found {
            AtFront::Incomplete => false,
            _ => true,
        }
    }

    // Once no item is matched, notes how far an open paste was searched for its end.
    fn note_search(&mut self)
        requires { (more : Bool) × IsRest self.old more }
        ensures { self.new ≡ self.old }
    {
        if self.is_paste_open() {
            self.searched = next_search(self.buffer.as_slice());
        }
    }

    /// Whether an open paste is buffered: the buffer begins with the start of a paste, and its end isn't there yet. Then no event needs
    /// room, whatever flag is passed.
    ///
    /// It notes how far it searched, so that no call searches these bytes again.
    pub fn awaits_paste_end(&mut self) -> bool
        ensures open { IsTrue result ↔ IsOpenPaste self.old }
        ensures same { self.new ≡ self.old }
    {
        let text = self.buffer.as_slice();
        if !begins_paste(text) || !lacks_end(text, self.searched) {
            return false;
        }
        self.searched = next_search(text);
        true
    }

    /// Emits the Escape key, with ALT if ESC ESC stays buffered. `None` if anything else stays buffered; the parser is then unchanged.
    ///
    /// It is for a program with limits in time of its own; [`expire`](crate::time::expire) flushes by those of a policy. Unlike a flush, it
    /// breaks only what is cut right after its ESC or ESC ESC.
    pub fn flush_escape(&mut self) -> Option<InputEvent>
        ensures event { IfSome result (λ event. Means self.old false (event ∷ []) self.new) }
        ensures when { IsSome result ↔ IsOneOrTwoEscapes self.old }
        ensures none { IfNone result (self.new ≡ self.old) }
    {
        if !is_escape(self.buffer.as_slice()) {
            return None;
        }
        let is_one = self.waiting_len() == 1;
        self.reset();
        Some(InputEvent::Key(if is_one {
            escape_key()
        } else {
            alt_key(escape_key())
        }))
    }

    /// Ends an open paste where it is: its text so far is the event, and nothing stays buffered. `None` if no paste is open; the parser is
    /// then unchanged.
    ///
    /// Call it at the end of the input. What the terminal still sends of the paste arrives as typed keys. A paste that stalls is given up by a
    /// limit in time: see [`expire`](crate::time::expire). For a paste that is too long call [`InputParser::take_paste`] or
    /// [`InputParser::skip_paste`]. If memory for the text is refused, the parser is unchanged.
    pub fn end_paste(&mut self) -> Result<Option<InputEvent>, AllocError>
        ensures event { IfOk result (λ found. IfSome found (IsPasteSoFar self.old)) }
        ensures nothing { IfOk result (λ found. IfSome found (λ _. self.new ≡ [])) }
        ensures none { IfOk result (λ found. IfNone found (¬ IsOpenPaste self.old)) }
        ensures none_same { IfOk result (λ found. IfNone found (self.new ≡ self.old)) }
        ensures refused { OnErr result (IsOpenPaste self.old) }
        ensures refused_same { OnErr result (self.new ≡ self.old) }
    {
        let Some(event) = paste_so_far(self.alloc, self.buffer.as_slice())? else {
            return Ok(None);
        };
        self.reset();
        Ok(Some(event))
    }

    // Where the decided bytes of an open paste end. `None` if no paste is open.
    fn decided_end(&mut self) -> Option<usize>
        ensures decided { IfSome result (IsDecidedTo self.old) }
        ensures none { IfNone result (¬ IsOpenPaste self.old) }
        ensures same { self.new ≡ self.old }
    {
        if !self.awaits_paste_end() {
            return None;
        }
        let text = self.waiting_text();
        Some(text.len() - held_len(&text[PASTE_START.len()..]))
    }

    // Drops the decided bytes of an open paste, which end there.
    fn drop_decided(&mut self, end: usize)
        requires { IsDecidedTo self.old end }
        ensures { self.new ≡ START ++ drop end self.old }
    {
        self.cut_out(PASTE_START.len(), end);
    }

    /// Takes text of an open paste before its end comes, if more than `limit` bytes of the text are buffered. `None` if no more are, or no paste
    /// is open; the parser is then unchanged.
    ///
    /// Call it after each read and its events, such as with a limit of 2^20, and handle the text as the next part of what is pasted. So a
    /// paste of any length needs little memory: afterwards at most 11 bytes of an open paste stay buffered, or `limit` and the 6 of its start.
    /// The paste stays open. What follows is its further text, up to the end; the [`InputEvent::Paste`] that ends it has the rest of
    /// the text, maybe none. All parts and that rest are together the text that the event has if no part is taken (the law
    /// `parts_join`).
    ///
    /// At most five bytes are held back: those that may be the beginning of the paste's end (ESC `[201~`, as in xterm's bracketed paste
    /// mode), or else of a character. If no other bytes came, `None` is returned under any limit. If memory for the text is
    /// refused, the parser is unchanged.
    pub fn take_paste(&mut self, limit: usize) -> Result<Option<PastedText>, AllocError>
        ensures part { IfOk result (λ found. IfSome found (λ text. IsTaken self.old limit text self.new)) }
        ensures none { IfOk result (λ found. IfNone found (¬ HasPart self.old limit)) }
        ensures none_same { IfOk result (λ found. IfNone found (self.new ≡ self.old)) }
        ensures refused { OnErr result (HasPart self.old limit) }
        ensures refused_same { OnErr result (self.new ≡ self.old) }

        // What an open paste has buffered is bounded.
        ensures bounded { OnOk result (IsOpenPaste self.new → length self.new ≤ 6 + max limit 5) }
    {
        let start = PASTE_START.len();
        let Some(end) = self.decided_end() else {
            return Ok(None);
        };
        if end == start || self.waiting_len() - start <= limit {
            return Ok(None);
        }
        let text = lossy_text(self.alloc, &self.waiting_text()[start..end])?;
        self.drop_decided(end);
        Ok(Some(text))
    }

    /// Forgets text of an open paste before its end comes: all that [`InputParser::take_paste`] would take with a limit of 0. Returns how many
    /// bytes these were. `None` if no paste is open; the parser is then unchanged.
    ///
    /// To refuse a paste that is too long, call it after each read and its events until the [`InputEvent::Paste`] comes, and ignore that event.
    /// So no byte of the paste becomes a key. It asks for no memory, and afterwards at most 11 bytes of the paste stay buffered.
    pub fn skip_paste(&mut self) -> Option<usize>
        ensures skipped { IfSome result (λ count. IsSkipped self.old count self.new) }
        ensures none { IfNone result (¬ IsOpenPaste self.old) }
        ensures none_same { IfNone result (self.new ≡ self.old) }

        // What the paste still has buffered is bounded.
        ensures bounded { IsOpenPaste self.new → length self.new ≤ 6 + 5 }
    {
        let end = self.decided_end()?;
        self.drop_decided(end);
        Some(end - PASTE_START.len())
    }

    /// Forgets what stays buffered, and returns how many bytes these were. It asks for no memory and frees none.
    pub fn reset(&mut self) -> usize
        ensures count { result ≡ length self.old }
        ensures nothing { self.new ≡ [] }
    {
        let len = self.waiting_len();
        self.consume(len);
        len
    }

    /// Gives back memory that holds no buffered bytes, as far as there is room for `min_capacity` bytes afterwards.
    ///
    /// The buffer grows with what it has to hold, such as a long paste, and keeps that memory for what comes next. Call this for a
    /// parser of a session that is quiet now. What is buffered and all later answers are unchanged. If the smaller memory is refused, the
    /// buffer keeps the one that it has.
    pub fn shrink_to(&mut self, min_capacity: usize)
        ensures { self.new ≡ self.old }
    {
        self.buffer.shrink_to(min_capacity);
    }

    /// Drops the first buffered bytes, as if they had never come.
    ///
    /// It is for a parser that reads sequences of its own before this one does. What is left wasn't searched for the end of a paste.
    pub fn consume(&mut self, len: usize)
        requires { len ≤ length self.old }
        ensures { self.new ≡ drop len self.old }
    {
        self.buffer.advance(len);
        self.searched = 0;
    }

    /// Takes buffered bytes out, from the place `from` up to `to`, as if they had never come. It asks for no memory.
    ///
    /// It is for such a parser too, where a sequence of its own leaves its beginning.
    pub fn cut_out(&mut self, from: usize, to: usize)
        requires in_order { from ≤ to }
        requires within { to ≤ length self.old }
        ensures { self.new ≡ take from self.old ++ drop to self.old }
    {
        self.buffer.cut_out(from, to);
        self.searched = 0;
    }

    /// Buffers bytes. If memory is refused, the parser is unchanged; no bytes need no memory.
    ///
    /// Then call [`InputParser::next_event`] until it returns `None`.
    pub fn feed(&mut self, bytes: &[u8]) -> Result<(), AllocError>
        ensures ok { OnOk result (self.new ≡ self.old ++ bytes.now) }
        ensures err { OnErr result (self.new ≡ self.old) }
        ensures no_bytes { OnErr result (bytes.now ≢ []) }
    {
        self.buffer.extend_with(bytes)
    }

    // Consumes so many bytes, whose event this is.
    #[inline(always)]
    fn emit(&mut self, event: InputEvent, len: usize) -> Result<Option<InputEvent>, AllocError>
        requires { len ≤ length self.old }
        ensures { (more : Bool) → IsItemAt self.old more event len → Emits self.old more self.new result }
    {
        self.consume(len);
        Ok(Some(event))
    }

    // Consumes the item at the front of the buffer, and returns its event. `None` if no item is there.
    fn emit_front(&mut self, maybe_more: bool) -> Result<Option<InputEvent>, AllocError>
        ensures { Emits self.old maybe_more self.new result }
    {
        match self.front(1, maybe_more) {
            AtFront::PrintableAscii(run) => {
                let first = char::from(run[0]);
                self.emit(InputEvent::Key(plain_key(first)), 1)
            }
            AtFront::Character(character, len) => {
                self.emit(InputEvent::Key(plain_key(character)), len)
            }
            AtFront::Key(key, len) => {
                let key = copied(key);
                self.emit(InputEvent::Key(key), len)
            }
            AtFront::Escape => self.emit(InputEvent::Key(escape_key()), 1),
            AtFront::AltCharacter(character, len) => {
                self.emit(InputEvent::Key(alt_key(plain_key(character))), len)
            }
            AtFront::AltKey(key, len) => {
                let key = alt_key(copied(key));
                self.emit(InputEvent::Key(key), len)
            }
            AtFront::MouseReport(event, len) => self.emit(InputEvent::Mouse(event), len),
            AtFront::Paste(body, len) => {
                let text = lossy_text(self.alloc, body)?;
                self.emit(InputEvent::Paste(text), len)
            }
            AtFront::Incomplete => {
                self.note_search();
                Ok(None)
            }
        }
    }

    /// Consumes the item at the front of the buffer, and returns its event. `None` if no item stands there: what waits is
    /// the rest, and the parser is unchanged.
    ///
    /// Pass `maybe_more` as for [`InputParser::parse`]. Only the text of a paste needs memory: if it is refused, the parser is
    /// unchanged and the paste still at its front, and the same call may be made again.
    #[tactic(auto, using(termwiz_grammar::proofs::lemmas::waiting::RestShape::rest_flushed))]
    pub fn next_event(&mut self, maybe_more: bool) -> Result<Option<InputEvent>, AllocError>
        ensures event { IfOk result (λ found. IfSome found (λ event. Steps self.old maybe_more (event ∷ []) self.new)) }
        ensures none { IfOk result (λ found. IfNone found (IsRest self.old maybe_more)) }
        ensures none_same { IfOk result (λ found. IfNone found (self.new ≡ self.old)) }
        ensures refused { OnErr result (HasPaste self.old maybe_more) }
        ensures refused_same { OnErr result (self.new ≡ self.old) }

        // Without more to come nothing waits but an open paste.
        ensures flushed { maybe_more ≡ false → IfOk result (λ found. IfNone found ((self.new ≡ []) ⊎ Begins START self.new)) }

        // In any case at most 21 bytes wait, or an open paste.
        ensures waits { IfOk result (λ found. IfNone found (IsShortOrOpenPaste self.new)) }
    {
        self.emit_front(maybe_more)
    }

    /// Calls `callback` with each event of the buffered bytes in order: a loop over [`InputParser::next_event`] up to `None`. A program that has
    /// such a loop of its own has the same events.
    ///
    /// Pass `maybe_more` as for [`InputParser::parse`]. If memory for the text of a paste is refused, the paste is still at the front of what
    /// waits, and the same call may be made again.
    #[tactic(auto, using(termwiz_grammar::proofs::lemmas::waiting::RestShape::rest_flushed, termwiz_grammar::proofs::lemmas::waiting::RestShape::rest_short))]
    pub fn for_each_event<F: FnMut(InputEvent)>(
        &mut self,
        callback: &mut F,
        maybe_more: bool,
    ) -> Result<(), AllocError>
        requires { (events : List Event) (rest : List ℕ) → Steps self.old maybe_more events rest
            → MayBeCalledOn F.FnMut callback.old events }
        ensures ok { OnOk result ((events : List Event) × Means self.old maybe_more events self.new
            × WasCalledOn F.step callback.old events callback.new) }

        // Without more to come nothing waits but an open paste.
        ensures flushed { maybe_more ≡ false → OnOk result ((self.new ≡ []) ⊎ Begins START self.new) }

        // In any case at most 21 bytes wait, or an open paste.
        ensures waits { OnOk result (IsShortOrOpenPaste self.new) }

        // The parser stands after the events that were given, and a paste is at its front.
        ensures refused { OnErr result ((events : List Event) × Steps self.old maybe_more events self.new
            × WasCalledOn F.step callback.old events callback.new) }
        ensures refused_paste { OnErr result (HasPaste self.new maybe_more) }
    {
        loop {
            match self.next_event(maybe_more)? {
                Some(event) => callback(event),
                None => return Ok(()),
            }
        }
    }

    /// Buffers `bytes`, and calls `callback` with each of its events in order. What is no event yet stays buffered.
    ///
    /// Pass `maybe_more` as true while more bytes may come: then a text that may yet become a longer sequence or a character
    /// stays buffered. After a pause call [`expire`](crate::time::expire). Pass false at the end of the input: then only an open
    /// paste stays buffered. No bytes and false are a flush.
    #[tactic(auto, using(termwiz_grammar::proofs::lemmas::waiting::RestShape::rest_flushed, termwiz_grammar::proofs::lemmas::waiting::RestShape::rest_short))]
    pub fn parse<F: FnMut(InputEvent)>(
        &mut self,
        bytes: &[u8],
        callback: &mut F,
        maybe_more: bool,
    ) -> Result<(), ParseError>
        requires { (events : List Event) (rest : List ℕ) → Steps (self.old ++ bytes.now) maybe_more events rest
            → MayBeCalledOn F.FnMut callback.old events }
        ensures ok { OnOk result ((events : List Event) × Means (self.old ++ bytes.now) maybe_more events self.new
            × WasCalledOn F.step callback.old events callback.new) }

        // Without more to come nothing waits but an open paste.
        ensures flushed { maybe_more ≡ false → OnOk result ((self.new ≡ []) ⊎ Begins START self.new) }

        // In any case at most 21 bytes wait, or an open paste.
        ensures waits { OnOk result (IsShortOrOpenPaste self.new) }

        // If the bytes weren't taken, nothing happened.
        ensures not_taken_same { IsErrOf result ParseError.NotTaken → self.new ≡ self.old }
        ensures not_taken_quiet { IsErrOf result ParseError.NotTaken → callback.new ≡ callback.old }
        ensures not_taken_some { IsErrOf result ParseError.NotTaken → bytes.now ≢ [] }

        // If they were, the parser stands after the events that were given, and a paste is at its front.
        ensures taken { IsErrOf result ParseError.Taken
            → (events : List Event) × Steps (self.old ++ bytes.now) maybe_more events self.new
            × WasCalledOn F.step callback.old events callback.new }
        ensures taken_paste { IsErrOf result ParseError.Taken → HasPaste self.new maybe_more }

        // No bytes need no memory, unless the buffered bytes give a paste.
        ensures granted { bytes.now ≡ [] → GivesNoPaste self.old maybe_more → IsOk result }
    {
        if self.feed(bytes).is_err() {
            return Err(ParseError::NotTaken);
        }
        match self.for_each_event(callback, maybe_more) {
            Ok(()) => Ok(()),
            Err(_) => Err(ParseError::Taken),
        }
    }

    // Buffers a piece, and calls `callback` with the piece's number and each of the events in order.
    fn parse_piece<F: FnMut(usize, InputEvent)>(
        &mut self,
        number: usize,
        piece: &[u8],
        callback: &mut F,
        more: bool,
    ) -> Result<(), ParseError>
        requires { (events : List Event) (rest : List ℕ) → Steps (self.old ++ piece.now) more events rest
            → MayBeCalledOnNumbered F.FnMut callback.old (numbered number events) }
        ensures ok { OnOk result ((events : List Event) × Means (self.old ++ piece.now) more events self.new
            × WasCalledOnNumbered F.step callback.old (numbered number events) callback.new) }
        ensures not_taken_same { IsErrOf result ParseError.NotTaken → self.new ≡ self.old }
        ensures not_taken_quiet { IsErrOf result ParseError.NotTaken → callback.new ≡ callback.old }
        ensures not_taken_some { IsErrOf result ParseError.NotTaken → piece.now ≢ [] }
        ensures taken { IsErrOf result ParseError.Taken
            → (events : List Event) × Steps (self.old ++ piece.now) more events self.new
            × WasCalledOnNumbered F.step callback.old (numbered number events) callback.new }
        ensures taken_paste { IsErrOf result ParseError.Taken → HasPaste self.new more }
        ensures granted { piece.now ≡ [] → GivesNoPaste self.old more → IsOk result }
    {
        self.parse(
            piece,
            &mut |event|
                requires { F.pre callback.now number event }
            { callback(number, event) },
            more,
        )
    }

    /// Buffers each piece in turn, and calls `callback` with the number of the piece, from 0, and each of
    /// the events. All pieces but the last are read with more to come, and the last under `maybe_more`. No pieces are one
    /// piece without bytes.
    ///
    /// The events are those of all pieces in a row, however they are cut.
    pub fn parse_pieces<F: FnMut(usize, InputEvent)>(
        &mut self,
        pieces: &[&[u8]],
        callback: &mut F,
        maybe_more: bool,
    ) -> Result<(), PiecesError>
        requires { (taken : ℕ) (given : List NumberedEvent) (rest : List ℕ)
            → ReadsFirst self.old (pieces_or_one (texts pieces.now)) maybe_more taken given rest
            → MayBeCalledOnNumbered F.FnMut callback.old given }
        ensures ok { OnOk result ((given : List NumberedEvent)
            × Means (self.old ++ join (texts pieces.now)) maybe_more (events_of given) self.new
            × AreNumbered self.old (pieces_or_one (texts pieces.now)) given
            × WasCalledOnNumbered F.step callback.old given callback.new) }

        // The promise in one statement: the events and what waits are exactly those of the grammar, and little waits.
        ensures promise { OnOk result ((given : List NumberedEvent)
            × IsExactReading self.old (texts pieces.now) maybe_more given self.new
            × WasCalledOnNumbered F.step callback.old given callback.new) }

        // Without more to come nothing waits but an open paste.
        ensures flushed { maybe_more ≡ false → OnOk result ((self.new ≡ []) ⊎ Begins START self.new) }

        // In any case at most 21 bytes wait, or an open paste.
        ensures waits { OnOk result (IsShortOrOpenPaste self.new) }

        // If memory was refused, the callback was called with the first events of the pieces that were taken, and reading may go on.
        ensures refused { IfErr result (λ e. (given : List NumberedEvent)
            × IsRefusedReading self.old (texts pieces.now) maybe_more e.taken given self.new
            × WasCalledOnNumbered F.step callback.old given callback.new) }

        // No pieces need no memory, unless the buffered bytes give a paste.
        ensures granted { pieces.now ≡ [] → GivesNoPaste self.old maybe_more → IsOk result }
    {
        if pieces.is_empty() {
            return match self.parse_piece(0, &[], callback, maybe_more) {
                Ok(()) => Ok(()),
                Err(_) => Err(PiecesError { taken: 0 }),
            };
        }
        for (number, piece) in pieces.iter().enumerate() {
            let more = more_after(number, pieces.len(), maybe_more);
            if let Err(fault) = self.parse_piece(number, piece, callback, more) {
                return Err(PiecesError::at(number, fault));
            }
        }
        Ok(())
    }

    // Makes room in the list for `count` more events. The first request is for as many as a short text may have, so that a short read makes
    // no other.
    fn make_room(&self, events: &mut Vec<InputEvent>, count: usize) -> Result<(), AllocError>
        ensures items { events.new.items ≡ events.old.items }
        ensures room { OnOk result (vec_len events.new + count ≤ vec_capacity events.new) }
    {
        if events.capacity() > 0 {
            return events.reserve(count);
        }
        events.reserve(self.waiting_len().min(SHORT_TEXT).max(count))
    }

    // Appends the event of the first `len` buffered bytes, and returns `len`.
    #[inline(always)]
    fn store(
        &self,
        events: &mut Vec<InputEvent>,
        event: InputEvent,
        len: usize,
    ) -> Result<Option<usize>, AllocError>
        ensures { (more : Bool) → IsItemAt self.now more event len → Stores self.now more events.old.items events.new.items result }
    {
        self.make_room(events, 1)?;
        events.push_reserved(event);
        Ok(Some(len))
    }

    // Appends the events of what is at the front of the buffer, and returns the number of their bytes. `None` if it is incomplete.
    // Each arm builds the event that it stores.
    fn store_front(
        &self,
        events: &mut Vec<InputEvent>,
        maybe_more: bool,
    ) -> Result<Option<usize>, AllocError>
        ensures { Stores self.now maybe_more events.old.items events.new.items result }
    {
        match self.front(usize::MAX, maybe_more) {
            AtFront::PrintableAscii(run) => {
                self.make_room(events, run.len())?;
                append_printable_ascii(events, run);
                Ok(Some(run.len()))
            }
            AtFront::Character(character, len) => {
                self.store(events, InputEvent::Key(plain_key(character)), len)
            }
            AtFront::Key(key, len) => self.store(events, InputEvent::Key(copied(key)), len),
            AtFront::Escape => self.store(events, InputEvent::Key(escape_key()), 1),
            AtFront::AltCharacter(character, len) => {
                self.store(events, InputEvent::Key(alt_key(plain_key(character))), len)
            }
            AtFront::AltKey(key, len) => self.store(
                events,
                InputEvent::Key(alt_key(copied(key))),
                len,
            ),
            AtFront::MouseReport(event, len) => self.store(events, InputEvent::Mouse(event), len),
            AtFront::Paste(body, len) => {
                let text = lossy_text(self.alloc, body)?;
                self.store(events, InputEvent::Paste(text), len)
            }
            AtFront::Incomplete => Ok(None),
        }
    }

    // Moves the events of the buffered bytes to an empty list, in order. An event's bytes are consumed only after it is stored.
    fn store_events(
        &mut self,
        events: &mut Vec<InputEvent>,
        maybe_more: bool,
    ) -> Result<(), AllocError>
        requires { events.old.items ≡ [] }
        ensures steps { Steps self.old maybe_more events.new.items self.new }
        ensures rest { OnOk result (IsRest self.new maybe_more) }
        ensures item { OnErr result (HasItem self.new maybe_more) }
        ensures few { length events.new.items + length self.new ≤ length self.old }
    {
        loop {
            match self.store_front(events, maybe_more)? {
                Some(len) => self.consume(len),
                None => {
                    self.note_search();
                    return Ok(());
                }
            }
        }
    }

    /// Buffers `bytes`, and returns its events in order. What is no event yet stays buffered.
    ///
    /// Pass `maybe_more` as true while more bytes may come: then a text that may yet become a longer sequence or a character
    /// stays buffered. After a pause call [`expire`](crate::time::expire). Pass false at the end of the input: then only an open
    /// paste stays buffered. No bytes and false are a flush.
    #[tactic(auto, using(termwiz_grammar::proofs::lemmas::waiting::RestShape::rest_flushed))]
    pub fn parse_as_vec(
        &mut self,
        bytes: &[u8],
        maybe_more: bool,
    ) -> Result<Vec<InputEvent>, ParseVecError>
        ensures ok { IfOk result (λ events. Means (self.old ++ bytes.now) maybe_more events.items self.new) }
        ensures few { IfOk result (λ events. length events.items + length self.new ≤ length self.old + length bytes.now) }

        // Without more to come nothing waits but an open paste.
        ensures flushed { maybe_more ≡ false → OnOk result ((self.new ≡ []) ⊎ Begins START self.new) }

        // In any case at most 21 bytes wait, or an open paste.
        ensures waits { OnOk result (IsShortOrOpenPaste self.new) }

        // If the bytes weren't taken, nothing happened.
        ensures not_taken_none { IfErr result (λ e. e.taken ≡ false → e.events.items ≡ []) }
        ensures not_taken_same { IfErr result (λ e. e.taken ≡ false → self.new ≡ self.old) }
        ensures not_taken_some { IfErr result (λ e. e.taken ≡ false → bytes.now ≢ []) }

        // If they were, the parser stands after the events of the error, and an item is at its front.
        ensures taken { IfErr result (λ e. e.taken ≡ true → Steps (self.old ++ bytes.now) maybe_more e.events.items self.new) }
        ensures taken_item { IfErr result (λ e. e.taken ≡ true → HasItem self.new maybe_more) }
        ensures taken_few { IfErr result (λ e. e.taken ≡ true
            → length e.events.items + length self.new ≤ length self.old + length bytes.now) }
    {
        let mut events = Vec::new(self.alloc);
        let taken = self.feed(bytes).is_ok();
        if taken && self.store_events(&mut events, maybe_more).is_ok() {
            return Ok(events);
        }
        Err(ParseVecError { events, taken })
    }
}
