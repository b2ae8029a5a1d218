//! How long bytes may stay buffered: limits in time, and a timer that is told what time it is.
//!
//! A program on a live terminal keeps a [`Timer`] beside its parser, and loops:
//!
//! 1. It notes the time and [what is buffered](seen_of), and waits for bytes as long as [`Timer::next_timeout`] says.
//! 2. If bytes are there, it feeds them and takes all events. It does so too if what is buffered is overdue, since they may complete it.
//! 3. If none came, it calls [`expire`].
//!
//! Times are in milliseconds, from a clock of the caller's. Nothing here reads a clock, waits, or keeps memory.
ghost use Rattle.std.specs.Prelude.{◌≡◌, ◌↔◌, ◌⊎◌, ◌∷◌, [], List, ℕ, Bool, false, IsTrue, IfNone, IfOk, IfSome, OnOk, OnErr};
ghost use Rattle.termwiz_grammar.specs.Grammar.{HasPaste, Steps};
ghost use Rattle.termwiz_grammar.specs.WaitingKinds.{IsOpenPaste};
ghost use Rattle.termwiz_keys.specs.declared.types.InputEvent.{InputEvent as Event};
ghost use Rattle.termwiz_input.specs.Callbacks.{MayBeCalledOn, WasCalledOn};
ghost use Rattle.termwiz_input.specs.Expiry.{Expires, FlushStep, IsLimitOf, IsSeen};
ghost use Rattle.termwiz_input.specs.PasteSearch.{IsPasteSoFar};
ghost use Rattle.termwiz_input.specs.Time.{IsDue, age_at, limit_of_kind, limit_of_string, new_timer, noted, time_left, usual};

use crate::input::{InputEvent, InputParser};
use std::alloc::AllocError;
use termwiz_grammar::waiting::Waiting;

/// One of the two ages of what is buffered. Ages grow by the clock's steps forward alone.
#[derive(Clone, Copy, PartialEq, Eq, Debug)]
pub enum Age {
    /// How long ago bytes last came.
    Last,
    /// How long ago the first buffered byte came to the front: since it came, or since the event before it.
    Front,
}

/// How long what is buffered may wait.
#[derive(Clone, Copy, PartialEq, Eq, Debug)]
pub struct Limit {
    /// So many milliseconds; `None` is forever.
    pub millis: Option<u64>,
    /// The age that is limited.
    pub by: Age,
}

/// How long each kind of bytes may wait, in milliseconds. `None` is forever.
#[derive(Clone, Copy, PartialEq, Eq, Debug)]
pub struct Policy {
    /// ESC or ESC ESC, since its last byte.
    pub escape: Option<u32>,
    /// ESC and one byte that may begin a sequence, since the ESC. Unless more follows, it is the byte's key with ALT.
    pub alt_key: Option<u32>,
    /// A longer prefix of a sequence, since its first byte.
    pub sequence: Option<u32>,
    /// A string without its end, since its first byte; one millisecond is added for each byte that is buffered.
    pub string: Option<u32>,
    /// A prefix of a character, since its first byte.
    pub character: Option<u32>,
    /// An open paste, since bytes last came.
    pub paste: Option<u32>,
}

// A limit for this age.
fn limited(millis: Option<u32>, by: Age) -> Limit
    ensures { result ≡ record { millis = millis; by = by } }
{
    match millis {
        Some(millis) => Limit {
            millis: Some(u64::from(millis)),
            by,
        },
        None => Limit { millis: None, by },
    }
}

impl Policy {
    /// The usual limits: 50 ms for an Escape, 100 ms for ESC and one byte, 1000 ms for a longer prefix of a sequence, and 5000 ms for a
    /// string. A character and a paste wait forever.
    pub fn usual() -> Policy
        ensures { result ≡ usual }
    {
        Policy {
            escape: Some(50),
            alt_key: Some(100),
            sequence: Some(1000),
            string: Some(5000),
            character: None,
            paste: None,
        }
    }

    /// The limit of so many buffered bytes of this kind.
    ///
    /// Pass the answers of [`InputParser::waiting`](crate::input::InputParser::waiting) and
    /// [`InputParser::waiting_len`](crate::input::InputParser::waiting_len).
    pub fn limit(&self, waiting: Waiting, len: usize) -> Limit
        ensures { result ≡ limit_of_kind self.now waiting len }
    {
        match waiting {
            Waiting::Nothing => limited(None, Age::Last),
            Waiting::Escape => limited(self.escape, Age::Last),
            Waiting::Sequence if len == 2 => limited(self.alt_key, Age::Front),
            Waiting::Sequence => limited(self.sequence, Age::Front),
            Waiting::Character => limited(self.character, Age::Front),
            Waiting::Paste => limited(self.paste, Age::Last),
        }
    }

    /// The limit of a string without its end, of which so many bytes are buffered. Only the extended parser has strings.
    pub fn string_limit(&self, len: usize) -> Limit
        ensures { result ≡ limit_of_string self.now len }
    {
        Limit {
            millis: match self.string {
                Some(millis) => Some(u64::from(millis).saturating_add(len as u64)),
                None => None,
            },
            by: Age::Front,
        }
    }
}

/// What a program tells a timer: what is buffered now, and what happened since the last note.
#[derive(Clone, Copy, PartialEq, Eq, Debug)]
pub struct Seen {
    /// The limit of what is buffered now.
    pub limit: Limit,
    /// Whether bytes were fed since the last note.
    pub fed: bool,
    /// Whether an event was taken since the last note.
    pub taken: bool,
    /// Whether nothing is buffered now.
    pub empty: bool,
}

/// Knows how old the buffered bytes are, and when they are due to be flushed.
///
/// It is a value that depends on nothing but what it was told, and it may be copied. It knows no kinds of bytes, so it serves the extended
/// parser too. Contracts see its fields.
#[derive(Clone, Copy, PartialEq, Eq, Debug)]
pub struct Timer {
    // The two ages at the last note.
    last: u64,
    front: u64,
    // The time of the last note; none before the first.
    noted: Option<u64>,
    // What the last note said of the buffered bytes.
    limit: Limit,
    empty: bool,
}

impl Timer {
    /// A timer of a parser with nothing buffered. Its clock begins at the first note.
    pub fn new() -> Timer
        ensures { result ≡ new_timer }
    {
        Timer {
            last: 0,
            front: 0,
            noted: None,
            limit: Limit {
                millis: None,
                by: Age::Last,
            },
            empty: true,
        }
    }

    // An age at a time.
    fn age(&self, by: Age, now: u64) -> u64
        ensures { result ≡ age_at self.now by now }
    {
        let age = match by {
            Age::Last => self.last,
            Age::Front => self.front,
        };
        let step = match self.noted {
            Some(noted) => now.saturating_sub(noted),
            None => 0,
        };
        age.saturating_add(step)
    }

    /// Tells the timer the time and what is buffered. Both ages grow by the time since the last note, if the clock went forward. Then the age
    /// `Last` is 0 if bytes were fed, and `Front` if an event was taken, or if nothing was buffered at the last note.
    pub fn note(&mut self, now: u64, seen: Seen)
        ensures { self.new ≡ noted self.old now seen }
    {
        let last = self.age(Age::Last, now);
        let front = self.age(Age::Front, now);
        *self = Timer {
            last: if seen.fed { 0 } else { last },
            front: if seen.taken || self.empty { 0 } else { front },
            noted: Some(now),
            limit: seen.limit,
            empty: seen.empty,
        };
    }

    /// How many milliseconds what is buffered may still wait: 0 if it is due, `None` if it has no limit.
    ///
    /// The law `timers_exact` says that this is exact, of a time that isn't before the last note.
    pub fn next_timeout(&self, now: u64) -> Option<u64>
        ensures { result ≡ time_left self.now now }
    {
        match self.limit.millis {
            Some(millis) => Some(millis.saturating_sub(self.age(self.limit.by, now))),
            None => None,
        }
    }

    /// Whether what is buffered is due to be flushed: its age has reached its limit.
    pub fn is_due(&self, now: u64) -> bool
        ensures { IsTrue result ↔ IsDue self.now now }
    {
        self.next_timeout(now) == Some(0)
    }
}

/// The limit of what a parser has buffered, once it emitted all events.
pub fn limit_of(parser: &InputParser, policy: &Policy) -> Limit
    ensures { IsLimitOf policy.now parser.now result }
{
    policy.limit(parser.waiting(), parser.waiting_len())
}

/// What to tell a timer of a parser that emitted all events: whether bytes were fed, and an event was taken, since the last note.
pub fn seen_of(parser: &InputParser, policy: &Policy, fed: bool, taken: bool) -> Seen
    ensures { IsSeen policy.now parser.now fed taken result }
{
    Seen {
        limit: limit_of(parser, policy),
        fed,
        taken,
        empty: parser.waiting_len() == 0,
    }
}

/// Flushes what a parser has buffered if it is due, and calls `callback` with each event. An open paste is ended where it is.
///
/// Call it when no bytes came for as long as `next_timeout` said. The parser must have emitted all events before. It notes the time, and after
/// a flush what is left. If memory for the text of a paste is refused, the paste is still buffered, and due: call it again.
pub fn expire<F: FnMut(InputEvent)>(
    parser: &mut InputParser,
    timer: &mut Timer,
    policy: &Policy,
    now: u64,
    callback: &mut F,
) -> Result<(), AllocError>
    requires paste { (event : Event) → IsPasteSoFar parser.old event → MayBeCalledOn F.FnMut callback.old (event ∷ []) }
    requires read { (events : List Event) (rest : List ℕ) → Steps parser.old false events rest
        → MayBeCalledOn F.FnMut callback.old events }
    ensures ok { OnOk result ((more : Bool) × (events : List Event) × Expires policy.now parser.old timer.old now more events parser.new timer.new
        × WasCalledOn F.step callback.old events callback.new) }
    ensures refused { OnErr result ((events : List Event) × Steps parser.old false events parser.new
        × WasCalledOn F.step callback.old events callback.new) }
    ensures refused_paste { OnErr result (IsOpenPaste parser.new ⊎ HasPaste parser.new false) }
    ensures refused_timer { OnErr result ((seen : Seen) × IsSeen policy.now parser.old false false seen × (timer.new ≡ noted timer.old now seen)) }
    ensures refused_due { OnErr result (IsDue timer.new now) }
{
    timer.note(now, seen_of(parser, policy, false, false));
    if !timer.is_due(now) {
        return Ok(());
    }
    match parser.end_paste()? {
        Some(event) => callback(event),
        None => parser.for_each_event(callback, false)?,
    }
    timer.note(now, seen_of(parser, policy, false, true));
    Ok(())
}

/// The next event of the flush that [`expire`] makes, for callers that pull events. `None` once nothing is buffered.
///
/// Call it up to `None` when [`Timer::is_due`] is true, and then note that events were taken. If memory for the text of a paste is refused,
/// the parser is unchanged, and the same call may be made again.
#[tactic(auto, using(crate::proofs::lemmas::time::FlushedRests::closed_is_nothing))]
pub fn next_flushed(parser: &mut InputParser) -> Result<Option<InputEvent>, AllocError>
    ensures event { IfOk result (λ found. IfSome found (λ event. FlushStep parser.old event parser.new)) }
    ensures none { IfOk result (λ found. IfNone found (parser.old ≡ [])) }
    ensures none_same { IfOk result (λ found. IfNone found (parser.new ≡ parser.old)) }
    ensures refused { OnErr result (IsOpenPaste parser.old ⊎ HasPaste parser.old false) }
    ensures refused_same { OnErr result (parser.new ≡ parser.old) }
{
    match parser.end_paste()? {
        Some(event) => Ok(Some(event)),
        None => parser.next_event(false),
    }
}
