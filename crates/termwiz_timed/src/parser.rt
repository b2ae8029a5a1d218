//! The parser with a clock.
ghost use Rattle.std.specs.Prelude.{◌≡◌, ◌≢◌, ◌⊎◌, ◌↔◌, Bool, [], ℕ, length, true, false, None, Some, IsTrue, Ok, IfOk, IfSome, IfNone, OnOk, OnErr, IsOk, IsErrOf, if◌then◌else◌};
ghost use Rattle.termwiz_grammar.specs.PasteParts.{IsSkipped, IsTaken};
ghost use Rattle.termwiz_grammar.specs.WaitingKinds.{IsOpenPaste};
ghost use Rattle.termwiz_extended_events.specs.declared.types.Event.{Event};
ghost use Rattle.termwiz_extended_events.specs.Meanings.{NeedsMemory};
ghost use Rattle.termwiz_input_extended.specs.Buffered.{IsToldByBytes};
ghost use Rattle.termwiz_input_extended.specs.NextItems.{HasItemThatNeedsMemory, IsPasteEvent};
ghost use Rattle.termwiz_extended_grammar.specs.ExtendedGrammar.{IsRest};
ghost use Rattle.termwiz_extended_grammar.specs.ExtendedKinds.{IsKind};
ghost use Rattle.termwiz_timed.specs.Sinks.{Takes};
ghost use Rattle.termwiz_timed.specs.Steps.{HasFewBytes, HasNoPart, Step};
ghost use Rattle.termwiz_timed.specs.Steps.Call.{AllTold, End, ExpectPosition, Feed, Flush, ForgetPositions, Idle, Interrupted, Reset, SetParts, SetPolicy, SetReading, SkipPaste, Told};
ghost use Rattle.termwiz_timed.specs.Timed.{HasPassed, IsFlushing, IsLeft, IsPasteOrString, IsTimeout, flushed, more_comes, new_timed, read_again, sooner, while_buffered};

use crate::ages::Ages;
use crate::sink::{EventSink, LastTold, Noting, TimedSink};
use std::alloc::{AllocError, Global};
use std::marker::Model;
use termwiz_extended_events::types::{Dialect, Event, Reading};
use termwiz_input_extended::input::ExtendedParser;
pub use termwiz_input_extended::input::ExtendedWaiting;
pub use termwiz_input_extended::time::Policy;
use termwiz_input_extended::time::{Age, Limit, limit_of};
use termwiz_keys::types::PastedText;

/// How far the events of what was fed are told.
#[derive(Clone, Copy, PartialEq, Eq, Debug)]
pub enum Stage {
    /// All are told: what is buffered waits for more.
    AllTold,
    /// Some may be left; more bytes may come.
    Untold,
    /// A flush is being told: no more comes, but an open paste stays.
    Flushing,
    /// A flush is being told, and an open paste ends where it is.
    Ending,
}

/// What [`TimedParser::next`] tells.
#[derive(PartialEq, Eq, Debug, Drop)]
pub enum TimedEvent {
    /// An event.
    Whole(Event),
    /// Text of a paste whose end hasn't come yet: more of it follows, at last in an `Event::Paste`.
    PastePart(PastedText),
}

/// Why [`TimedParser::feed`] took no bytes.
#[derive(Clone, Copy, PartialEq, Eq, Debug)]
pub enum FeedError {
    /// A flush isn't over: call [`TimedParser::next`] until it answers none, and then feed the bytes.
    Busy,
    /// Memory was refused: the same call may be made again.
    NoMemory,
}

/// All events aren't told yet: call [`TimedParser::next`] until it answers none, and then make the call again.
#[derive(Clone, Copy, PartialEq, Eq, Debug)]
pub struct Busy;

impl Stage {
    // Whether more may come to what is buffered.
    fn more_comes(self) -> bool
        ensures { result ≡ more_comes self }
    {
        matches!(self, Stage::AllTold | Stage::Untold)
    }

    // The stage once a flush begins.
    fn flushed(self) -> Stage
        ensures { result ≡ flushed self }
    {
        match self {
            Stage::Ending => Stage::Ending,
            _ => Stage::Flushing,
        }
    }

    // The stage once what is buffered may mean something else.
    fn read_again(self) -> Stage
        ensures { result ≡ read_again self }
    {
        match self {
            Stage::AllTold => Stage::Untold,
            stage => stage,
        }
    }
}

// What another program may have read the end of waits no longer than this.
const A_SECOND: Limit = Limit {
    millis: Some(1000),
    by: Age::Last,
};

// The sooner of two.
fn sooner(one: Option<u64>, other: Option<u64>) -> Option<u64>
    ensures { result ≡ sooner one other }
{
    match (one, other) {
        (Some(one), Some(other)) => Some(one.min(other)),
        _ => one.or(other),
    }
}

/// Reads events from the bytes that a terminal sends, and knows how long they may wait. A program has this loop:
///
/// 1. It takes events by [`TimedParser::next`] until that answers none.
/// 2. It waits for input at most as long as [`TimedParser::timeout`] says.
/// 3. It feeds the bytes that came by [`TimedParser::feed`]; or none came, and it calls [`TimedParser::idle`]; or the input is closed, and it calls
///    [`TimedParser::end`]. It goes on at 1.
///
/// Times are in milliseconds, from a clock of the caller's that may be any clock: a step back makes nothing due. A program without a clock
/// passes 0, calls [`TimedParser::flush`] at its pauses and [`TimedParser::end`] at the end. Nothing here reads a clock or waits.
///
/// All is told if no call that can bring events was made since [`TimedParser::next`] last answered none. A flush is over when
/// [`TimedParser::next`] answered none, or when nothing is buffered.
///
/// Contracts see a parser as a `Timed`, and each call as a `Step` from one to another.
#[derive(Debug, Drop)]
pub struct TimedParser {
    parser: ExtendedParser,
    stage: Stage,
    // Whether a paste or a string is buffered that was open when another program had the terminal.
    interrupted: bool,
    // Whether pastes are told in parts, and the limit of these. They are two fields since an option would take more memory.
    tells_parts: bool,
    parts: usize,
    policy: Policy,
    ages: Ages,
}

impl Model for TimedParser {
    ghost use Rattle.std.specs.Prelude.{Some, None, if◌then◌else◌};
    ghost use Rattle.termwiz_timed.specs.Timed.{Timed};

    ghost Value = { Timed };

    ghost view = { λ p. record {
      reading = p.parser.reading;
      text = p.parser.text;
      stage = p.stage;
      policy = p.policy;
      parts = if p.tells_parts then Some p.parts else None;
      ages = p.ages;
      interrupted = p.interrupted;
    } };
}

impl TimedParser {
    /// A parser by this grammar, with an empty buffer, the usual policy, and no parts.
    pub fn new(alloc: Global, dialect: Dialect) -> Result<TimedParser, AllocError>
        ensures { IfOk result (λ parser. parser ≡ new_timed dialect) }
    {
        Ok(TimedParser::over(ExtendedParser::new(alloc, dialect)?))
    }

    /// Another parser with the sequence table of this one, otherwise as [`TimedParser::new`] makes it. It asks for no memory.
    pub fn sharing(&self, dialect: Dialect) -> Result<TimedParser, AllocError>
        ensures { IfOk result (λ parser. parser ≡ new_timed dialect) }
    {
        Ok(TimedParser::over(self.parser.sharing(dialect)?))
    }

    // A parser over another, of which all is told.
    fn over(parser: ExtendedParser) -> TimedParser
        ensures { result ≡ record (new_timed parser.reading.dialect) { reading = parser.reading; text = parser.text } }
    {
        TimedParser {
            parser,
            stage: Stage::AllTold,
            interrupted: false,
            tells_parts: false,
            parts: 0,
            policy: Policy::usual(),
            ages: Ages::new(),
        }
    }

    /// The parser without a clock that this one has: of its reading and its buffer.
    pub fn parser(&self) -> &ExtendedParser
        ensures reading { result.now.reading ≡ self.now.reading }
        ensures text { result.now.text ≡ self.now.text }
    {
        &self.parser
    }

    /// How it reads. The number of open questions is that after the events so far.
    pub fn reading(&self) -> Reading
        ensures { result ≡ self.now.reading }
    {
        self.parser.reading()
    }

    /// The limits in time of what is buffered.
    pub fn policy(&self) -> Policy
        ensures { result ≡ self.now.policy }
    {
        self.policy
    }

    /// What kind of bytes is buffered, once all is told.
    pub fn waiting(&self) -> ExtendedWaiting
        ensures kind { (more : Bool) → IsRest self.now.reading self.now.text more → IsKind self.now.reading self.now.text more result }

        // The first bytes alone tell the kind, also where an item is matched.
        ensures bytes { IsToldByBytes self.now.reading self.now.text result }
    {
        self.parser.waiting()
    }

    /// The number of buffered bytes.
    pub fn waiting_len(&self) -> usize
        ensures { result ≡ length self.now.text }
    {
        self.parser.waiting_len()
    }

    /// Gives back memory that holds no buffered bytes.
    pub fn shrink_to(&mut self, min_capacity: usize)
        ensures { self.new ≡ self.old }
    {
        self.parser.shrink_to(min_capacity);
    }

    /// Has these limits in time from now on, also for what is buffered.
    pub fn set_policy(&mut self, policy: Policy)
        ensures { Step self.old (SetPolicy policy) self.new }
    {
        self.policy = policy;
    }

    /// Reads so from now on, also what is buffered. A flush that began goes on.
    pub fn set_reading(&mut self, reading: Reading)
        ensures { Step self.old (SetReading reading) self.new }
    {
        self.parser.set_reading(reading);
        self.stage = self.stage.read_again();
    }

    /// Expects one more reply to a question for the cursor's position, up to 255: call it with each ESC `[6n` that is written.
    pub fn expect_position(&mut self)
        ensures { Step self.old ExpectPosition self.new }
    {
        self.parser.expect_position();
    }

    /// Expects no reply any more to questions for the cursor's position.
    pub fn forget_positions(&mut self)
        ensures { Step self.old ForgetPositions self.new }
    {
        self.parser.forget_positions();
    }

    /// Tells an open paste in parts as soon as more than so many bytes of its text are buffered. With none, as at first, a paste is one
    /// event.
    pub fn set_parts(&mut self, limit: Option<usize>)
        ensures { Step self.old (SetParts limit) self.new }
    {
        self.tells_parts = limit.is_some();
        self.parts = limit.unwrap_or(0);
        self.stage = self.stage.read_again();
    }

    /// Forgets text of an open paste before its end comes, and returns how many bytes these were. `None` if no paste is open.
    ///
    /// To refuse a paste that is too long, call it after each read and its events until the paste's event comes, and ignore that.
    pub fn skip_paste(&mut self) -> Option<usize>
        ensures step { Step self.old SkipPaste self.new }
        ensures count { IfSome result (λ count. IsSkipped self.old.text count self.new.text) }
        ensures none { IfNone result (¬ IsOpenPaste self.old.text) }
    {
        self.parser.skip_paste()
    }

    /// Forgets what is buffered and which positions are expected, and returns how many bytes were buffered.
    pub fn reset(&mut self) -> usize
        ensures step { Step self.old Reset self.new }
        ensures count { result ≡ length self.old.text }
    {
        let count = self.parser.reset();

        // Nothing is buffered any more, so a flush is over.
        if self.stage != Stage::AllTold {
            self.stage = Stage::Untold;
        }
        self.interrupted = false;
        count
    }

    // The stage, unless nothing is buffered any more.
    fn while_buffered(&self, stage: Stage) -> Stage
        ensures { result ≡ while_buffered self.now.text stage }
    {
        if self.parser.waiting_len() == 0 {
            Stage::Untold
        } else {
            stage
        }
    }

    /// These bytes came now. Then call [`TimedParser::next`] until it answers none.
    ///
    /// After an error nothing was taken, and no time noted.
    pub fn feed(&mut self, now: u64, bytes: &[u8]) -> Result<(), FeedError>
        ensures ok { OnOk result (Step self.old (Feed now bytes.now) self.new) }
        ensures err { OnErr result (self.new ≡ self.old) }
        ensures busy { IsErrOf result FeedError.Busy ↔ IsFlushing self.old.stage }
        ensures no_memory { IsErrOf result FeedError.NoMemory → bytes.now ≢ [] }
    {
        if !self.stage.more_comes() {
            return Err(FeedError::Busy);
        }
        let ages = self.ages.at(now).came(self.parser.waiting_text(), bytes);
        self.parser.feed(bytes).map_err(|_| FeedError::NoMemory)?;
        self.ages = ages;
        self.stage = Stage::Untold;
        Ok(())
    }

    /// Nothing more came up to now: the program looked. If all is told and what is buffered is due, its flush begins, and
    /// [`TimedParser::next`] tells it; an open paste ends where it is. Else only the time is noted.
    pub fn idle(&mut self, now: u64)
        ensures { (due : Bool) × Step self.old (Idle now due) self.new }
    {
        let due = self.is_due(limit_of(&self.parser, &self.policy), now);
        self.ages = self.ages.at(now);
        if due {
            self.stage = Stage::Ending;
        }
    }

    /// Reads what is buffered with no more to come, told or not; an open paste stays open. Then call [`TimedParser::next`] until it answers none.
    pub fn flush(&mut self)
        ensures { Step self.old Flush self.new }
    {
        self.stage = self.while_buffered(self.stage.flushed());
    }

    /// Nothing will ever come: reads what is buffered as [`TimedParser::flush`] does, and an open paste ends where it is.
    pub fn end(&mut self)
        ensures { Step self.old End self.new }
    {
        self.stage = self.while_buffered(Stage::Ending);
    }

    /// Another program had the terminal up to now. The beginning of a sequence or of a character is forgotten, and so are open questions. An
    /// open paste or string stays, but no longer than a second without a byte, since the other program may have read its end.
    pub fn interrupted(&mut self, now: u64) -> Result<(), Busy>
        ensures ok { OnOk result (Step self.old (Interrupted now) self.new) }
        ensures err { OnErr result (self.new ≡ self.old) }
        ensures busy { IsOk result ↔ (self.old.stage ≡ Stage.AllTold) }
    {
        if self.stage != Stage::AllTold {
            return Err(Busy);
        }
        let stays = self.is_paste_or_string();
        self.ages = self.ages.at(now).with_last();
        self.interrupted = stays;

        // Open questions are forgotten, and what is buffered unless it stays.
        if stays {
            self.parser.forget_positions();
        } else {
            self.parser.reset();
        }
        Ok(())
    }

    // Whether the start of a paste or the opening of a string is at the front of the buffer.
    fn is_paste_or_string(&self) -> bool
        ensures { IsTrue result ↔ IsPasteOrString self.now.reading self.now.text }
    {
        let waiting = self.parser.waiting();
        matches!(waiting, ExtendedWaiting::Paste | ExtendedWaiting::String)
    }

    // Whether what is buffered has a limit since another program had the terminal.
    fn is_limited_to_a_second(&self) -> bool
        ensures { IsTrue result ↔ ((self.now.interrupted ≡ true) × IsPasteOrString self.now.reading self.now.text) }
    {
        self.interrupted && self.is_paste_or_string()
    }

    // How long until what is buffered is due, once all is told.
    fn left(&self, limit: Limit, now: u64) -> Option<u64>
        ensures { IsLeft self.now limit now result }
    {
        let left = self.ages.left(limit, now);
        if self.is_limited_to_a_second() {
            sooner(left, self.ages.left(A_SECOND, now))
        } else {
            left
        }
    }

    // Whether all is told and this limit of what is buffered has passed.
    fn is_due(&self, limit: Limit, now: u64) -> bool
        ensures { (result ≡ true) ↔ ((self.now.stage ≡ Stage.AllTold) × HasPassed self.now limit now) }
    {
        self.stage == Stage::AllTold
            && (self.ages.is_reached(limit, now)
                || (self.is_limited_to_a_second() && self.ages.is_reached(A_SECOND, now)))
    }

    /// How many milliseconds the program may wait for input: 0 until all is told, else until what is buffered is due. `None` if it never is. It
    /// changes nothing.
    pub fn timeout(&self, now: u64) -> Option<u64>
        ensures { IsTimeout self.now now result }
    {
        match self.stage {
            Stage::AllTold => self.left(limit_of(&self.parser, &self.policy), now),
            _ => Some(0),
        }
    }

    // Notes that what was at the front is gone: what is there now ages from the last call that had a time.
    fn note_gone(&mut self)
        ensures { self.new ≡ record self.old {
          stage = while_buffered self.old.text self.old.stage;
          ages = record self.old.ages { front = 0 };
        } }
    {
        self.stage = self.while_buffered(self.stage);
        self.ages = self.ages.with_front();
    }

    // The limit of parts, if there are some.
    fn parts(&self) -> Option<usize>
        ensures { result ≡ self.now.parts }
    {
        self.tells_parts.then_some(self.parts)
    }

    // Takes a part of an open paste that has more than the limit.
    fn next_part(&mut self) -> Result<Option<PastedText>, AllocError>
        ensures part { IfOk result (λ found. IfSome found (λ text. (limit : ℕ) × (self.old.parts ≡ Some limit)
            × IsTaken self.old.text limit text self.new.text)) }
        ensures part_same { self.new ≡ record self.old { text = self.new.text } }
        ensures none { IfOk result (λ found. IfNone found (HasNoPart self.old)) }
        ensures few { IfOk result (λ found. IfNone found (HasFewBytes self.old)) }
        ensures none_same { IfOk result (λ found. IfNone found (self.new ≡ self.old)) }
        ensures refused { OnErr result (IsOpenPaste self.old.text) }
        ensures refused_same { OnErr result (self.new ≡ self.old) }
    {
        match self.parts() {
            Some(limit) => self.parser.take_paste(limit),
            None => Ok(None),
        }
    }

    // Takes an open paste where it is, if all ends.
    fn next_end(&mut self) -> Result<Option<Event>, AllocError>
        ensures end { IfOk result (λ found. IfSome found (λ event. (self.old.stage ≡ Stage.Ending) × IsPasteEvent self.old.text event
            × (self.new ≡ record self.old { text = [] }))) }
        ensures none { IfOk result (λ found. IfNone found (self.old.stage ≡ Stage.Ending → ¬ IsOpenPaste self.old.text)) }
        ensures none_same { IfOk result (λ found. IfNone found (self.new ≡ self.old)) }
        ensures refused { OnErr result (IsOpenPaste self.old.text) }
        ensures refused_same { OnErr result (self.new ≡ self.old) }
    {
        match self.stage {
            Stage::Ending => self.parser.end_paste(),
            _ => Ok(None),
        }
    }

    // Emits what is told of an open paste where no item is at the front. It isn't inlined, so that nothing else pays for its places in a frame.
    #[inline(never)]
    fn emit_of_paste<S: TimedSink>(&mut self, sink: &mut S) -> Result<bool, AllocError>
        requires { IsRest self.old.reading self.old.text (more_comes self.old.stage) }
        ensures told { result ≡ Ok true → (event : TimedEvent) × Takes S.takes S.takes_part sink.old event sink.new × Step self.old (Told event) self.new }
        ensures all_told { result ≡ Ok false → Step self.old AllTold self.new }
        ensures all_told_sink { result ≡ Ok false → sink.new ≡ sink.old }
        ensures refused { OnErr result (IsOpenPaste self.old.text) }
        ensures refused_same { OnErr result (self.new ≡ self.old) }
        ensures refused_sink { OnErr result (sink.new ≡ sink.old) }
    {
        if let Some(text) = self.next_part()? {
            self.note_gone();
            sink.emit_part(text);
            return Ok(true);
        }
        if let Some(event) = self.next_end()? {
            self.interrupted = false;
            self.note_gone();
            sink.emit(event);
            return Ok(true);
        }
        self.stage = Stage::AllTold;
        Ok(false)
    }

    /// Emits the key of the character at the front of the buffer, as [`TimedParser::emit_next`] does, and answers whether one is there. It asks
    /// for no memory, and so a run of characters can be one loop.
    #[inline(always)]
    pub fn emit_character<S: EventSink>(&mut self, sink: &mut S) -> bool
        ensures told { IsTrue result → (event : Event) × S.takes sink.old event sink.new × Step self.old (Told (TimedEvent.Whole event)) self.new
            × (¬ NeedsMemory event) }
        ensures none_same { result ≡ false → self.new ≡ self.old }
        ensures none_sink { result ≡ false → sink.new ≡ sink.old }
    {
        let mut noting = Noting {
            sink: &mut *sink,
            interrupted: &mut self.interrupted,
        };
        if self.parser.emit_character(&mut noting) {
            self.note_gone();
            true
        } else {
            false
        }
    }

    /// Emits the next event to `sink`, and answers whether there was one: if not, all is told, and the sink is unchanged.
    ///
    /// If memory is refused, nothing changed, and the same call may be made again.
    #[inline(always)]
    pub fn emit_next<S: TimedSink>(&mut self, sink: &mut S) -> Result<bool, AllocError>
        ensures told { result ≡ Ok true → (event : TimedEvent) × Takes S.takes S.takes_part sink.old event sink.new × Step self.old (Told event) self.new }
        ensures all_told { result ≡ Ok false → Step self.old AllTold self.new }
        ensures all_told_sink { result ≡ Ok false → sink.new ≡ sink.old }
        ensures refused { OnErr result (IsOpenPaste self.old.text
            ⊎ HasItemThatNeedsMemory self.old.reading self.old.text (more_comes self.old.stage)) }
        ensures refused_same { OnErr result (self.new ≡ self.old) }
        ensures refused_sink { OnErr result (sink.new ≡ sink.old) }
    {
        let maybe_more = self.stage.more_comes();
        let mut noting = Noting {
            sink: &mut *sink,
            interrupted: &mut self.interrupted,
        };
        match self.parser.emit_next(&mut noting, maybe_more) {
            Ok(true) => {
                self.note_gone();
                Ok(true)
            }
            Ok(false) if self.tells_parts || matches!(self.stage, Stage::Ending) => {
                self.emit_of_paste(sink)
            }
            Ok(false) => {
                self.stage = Stage::AllTold;
                Ok(false)
            }
            Err(error) => Err(error),
        }
    }

    /// The next event, or none: then all is told. It is [`TimedParser::emit_next`] with a place for one event as the sink.
    pub fn next(&mut self) -> Result<Option<TimedEvent>, AllocError>
        ensures told { IfOk result (λ found. IfSome found (λ event. Step self.old (Told event) self.new)) }
        ensures all_told { IfOk result (λ found. IfNone found (Step self.old AllTold self.new)) }
        ensures refused { OnErr result (IsOpenPaste self.old.text
            ⊎ HasItemThatNeedsMemory self.old.reading self.old.text (more_comes self.old.stage)) }
        ensures refused_same { OnErr result (self.new ≡ self.old) }
    {
        let mut told = LastTold(None);
        self.emit_next(&mut told)?;
        Ok(told.0)
    }
}
