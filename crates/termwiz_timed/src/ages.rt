//! How old what is buffered is, by the clock's steps forward from call to call.
ghost use Rattle.std.specs.Prelude.{◌≡◌, ◌↔◌, true};
ghost use Rattle.termwiz_timed.specs.AgesInTime.{IsReached, age_at, at_time, came, first_ages, left_of};

pub use termwiz_input::time::{Age, Limit};

/// The ages of what is buffered. They grow only by the clock's steps forward, so a clock that steps back makes nothing due.
///
/// It is a value that depends on nothing but what it was told. Contracts see its fields.
#[derive(Clone, Copy, PartialEq, Eq, Debug, Default)]
pub struct Ages {
    // The two ages at the last call that had a time.
    last: u64,
    front: u64,
    // The time of that call; none before the first.
    noted: Option<u64>,
}

impl Ages {
    /// The ages before any call that has a time.
    pub fn new() -> Ages
        ensures { result ≡ first_ages }
    {
        Ages::default()
    }

    /// An age at a time.
    pub fn age(&self, by: Age, now: u64) -> u64
        ensures { result ≡ age_at self.now by now }
    {
        let age = match by {
            Age::Last => self.last,
            Age::Front => self.front,
        };
        let step = now.saturating_sub(self.noted.unwrap_or(now));
        age.saturating_add(step)
    }

    /// The ages at a time, from which they go on.
    pub fn at(&self, now: u64) -> Ages
        ensures { result ≡ at_time self.now now }
    {
        Ages {
            last: self.age(Age::Last, now),
            front: self.age(Age::Front, now),
            noted: Some(now),
        }
    }

    /// The ages once these bytes came to a text that was buffered.
    pub fn came(&self, text: &[u8], bytes: &[u8]) -> Ages
        ensures { result ≡ came text.now bytes.now self.now }
    {
        if bytes.is_empty() {
            *self
        } else if text.is_empty() {
            self.with_last().with_front()
        } else {
            self.with_last()
        }
    }

    /// The ages as if bytes came.
    pub fn with_last(&self) -> Ages
        ensures { result ≡ record self.now { last = 0 } }
    {
        Ages { last: 0, ..*self }
    }

    /// The ages once something else is at the front of what is buffered.
    pub fn with_front(&self) -> Ages
        ensures { result ≡ record self.now { front = 0 } }
    {
        Ages { front: 0, ..*self }
    }

    /// How much is left of a limit at a time; none without a limit.
    pub fn left(&self, limit: Limit, now: u64) -> Option<u64>
        ensures { result ≡ left_of self.now limit now }
    {
        let age = self.age(limit.by, now);
        limit.millis.map(|millis| millis.saturating_sub(age))
    }

    /// Whether a limit has passed.
    pub fn is_reached(&self, limit: Limit, now: u64) -> bool
        ensures { (result ≡ true) ↔ IsReached self.now limit now }
    {
        self.left(limit, now) == Some(0)
    }
}
