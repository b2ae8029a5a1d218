//! The limits in time of a parser.
use crate::failure::Failure;
use crate::line::Line;
use termwiz_input::time::{Age, Limit, Policy, Seen, Timer};

/// How long a paste that stalls may wait, in milliseconds.
const STALLED_PASTE: u32 = 10000;

/// A timer and a policy.
#[derive(Clone, Copy)]
pub struct Limits {
    pub timer: Timer,
    pub policy: Policy,
}

/// What happened since the last note.
#[derive(Clone, Copy)]
pub struct Note {
    pub fed: bool,
    pub taken: bool,
}

/// The note of a command's name.
pub fn note_of(name: &str) -> Option<Note> {
    let (fed, taken) = match name {
        "fed" => (true, false),
        "fed-and-taken" => (true, true),
        "taken" => (false, true),
        "nothing" => (false, false),
        _ => return None,
    };
    Some(Note { fed, taken })
}

impl Limits {
    /// A new timer and the usual policy.
    pub fn usual() -> Limits {
        Limits {
            timer: Timer::new(),
            policy: Policy::usual(),
        }
    }

    /// Notes what is seen at a time, and appends whether what is buffered is due.
    pub fn note(&mut self, now: u64, seen: Seen, line: &mut Line) {
        self.timer.note(now, seen);
        line.holds(self.timer.is_due(now));
    }

    /// Gives up pastes that stall, or appends how long may be waited at a time, or a limit.
    pub fn answer(
        &mut self,
        name: &str,
        now: u64,
        limit: Limit,
        line: &mut Line,
    ) -> Result<(), Failure> {
        match name {
            "end-pastes" => self.policy.paste = Some(STALLED_PASTE),
            "timeout" => show_millis(self.timer.next_timeout(now), line),
            "limit" => show_limit(limit, line),
            _ => return Err(Failure::NoSuchWord),
        }
        Ok(())
    }
}

/// Appends so many milliseconds, or that there is no limit.
pub fn show_millis(millis: Option<u64>, line: &mut Line) {
    match millis {
        Some(millis) => line.number(millis as usize),
        None => line.word("None"),
    }
}

// Appends a limit: its milliseconds, and the age that is limited.
fn show_limit(limit: Limit, line: &mut Line) {
    show_millis(limit.millis, line);
    line.word(match limit.by {
        Age::Last => " Last",
        Age::Front => " Front",
    });
}
