// The calls of a timer that a program keeps for itself, as for the pause of a chord. It is a `Timer` of `termwiz_input` in numbers, and
// owns no memory.
ghost use Rattle.std.specs.Prelude.{◌≡◌, ◌↔◌, ◌⊎◌, false};
ghost use Rattle.termwiz_input.specs.declared.time.Age.{Age as AnAge};
ghost use Rattle.termwiz_input.specs.Time.{age_at, noted};
ghost use Rattle.hedrugal.specs.TimerCalls.{IsNoAge, Notes, age_in, poll_millis, seen_by, timer_by};

use crate::policy::{c_millis, limit_in};
use crate::status::{BAD_NUMBER, OK};
use termwiz_input::time::Age;

// The numbers of the ages.
const AGE_LAST: u8 = 0;

const AGE_FRONT: u8 = 1;

/// `hed_seen`: what a program tells a timer.
#[repr(C)]
#[derive(Clone, Copy)]
pub struct CSeen {
    /// The limit in milliseconds of what is pending now. Negative: none.
    pub limit: i32,
    /// The number of the age that is limited.
    pub by: u8,
    /// Whether something was fed since the last note.
    pub fed: bool,
    /// Whether something was taken since the last note.
    pub taken: bool,
    /// Whether nothing is pending now.
    pub empty: bool,
}

/// `hed_timer`: a timer. All zero is a new one.
#[repr(C)]
#[derive(Clone, Copy)]
pub struct CTimer {
    /// The age of what was fed last, at the last note.
    pub last: u64,
    /// The age of what is at the front, at the last note.
    pub front: u64,
    /// The time of the last note, if there was one.
    pub noted: u64,
    /// The limit, if there is one.
    pub millis: u64,
    /// The number of the age that is limited.
    pub by: u8,
    /// Whether there was a note.
    pub has_noted: bool,
    /// Whether there is a limit.
    pub has_limit: bool,
    /// Whether something was pending at the last note.
    pub holds: bool,
}

// The age with this number, if there is one.
fn age_in(number: u8) -> Option<Age>
    ensures { result ≡ age_in number }
{
    match number {
        AGE_LAST => Some(Age::Last),
        AGE_FRONT => Some(Age::Front),
        _ => None,
    }
}

impl CTimer {
    // An age at a time.
    fn age(&self, by: Age, now: u64) -> u64
        ensures { (limited : AnAge) → result ≡ age_at (timer_by self.now limited) by now }
    {
        let age = match by {
            Age::Last => self.last,
            Age::Front => self.front,
        };
        let since = if self.has_noted { self.noted } else { now };
        age.saturating_add(now.saturating_sub(since))
    }

    // The timer after a note.
    fn noted(&self, now: u64, seen: &CSeen) -> CTimer
        ensures noted { (limited by : AnAge) → timer_by result by ≡ noted (timer_by self.now limited) now (seen_by seen.now by) }
        ensures by { result.by ≡ seen.now.by }
        ensures no_limit { result.has_limit ≡ false → result.millis ≡ 0 }
    {
        let last = self.age(Age::Last, now);
        let front = self.age(Age::Front, now);
        let limit = limit_in(seen.limit);
        CTimer {
            last: if seen.fed { 0 } else { last },
            front: if seen.taken || !self.holds { 0 } else { front },
            noted: now,
            millis: u64::from(limit.unwrap_or(0)),
            by: seen.by,
            has_noted: true,
            has_limit: limit.is_some(),
            holds: !seen.empty,
        }
    }
}

/// Tells a timer the time and what was seen, unless `by` of either is the number of no age.
#[unsafe(no_mangle)]
pub extern "C" fn hed_timer_note(timer: &mut CTimer, now: u64, seen: &CSeen) -> u32
    ensures answers { (result ≡ OK) ⊎ (result ≡ BAD_NUMBER) }
    ensures noted { result ≡ OK → Notes timer.old now seen.now timer.new }
    ensures no_limit { result ≡ OK → timer.new.has_limit ≡ false → timer.new.millis ≡ 0 }
    ensures no_age { (result ≡ BAD_NUMBER) ↔ (IsNoAge timer.old.by ⊎ IsNoAge seen.now.by) }
    ensures same { result ≡ BAD_NUMBER → timer.new ≡ timer.old }
{
    if age_in(timer.by).is_none() || age_in(seen.by).is_none() {
        return BAD_NUMBER;
    }
    *timer = timer.noted(now, seen);
    OK
}

/// How many milliseconds are left of a timer's limit: 0 if it is due, and -1 if it has no limit or its `by` is the number of no age.
#[unsafe(no_mangle)]
pub extern "C" fn hed_timer_timeout(timer: &CTimer, now: u64) -> i32
    ensures { result ≡ poll_millis timer.now now }
{
    match age_in(timer.by) {
        Some(by) if timer.has_limit => {
            c_millis(Some(timer.millis.saturating_sub(timer.age(by, now))))
        }
        _ => -1,
    }
}
