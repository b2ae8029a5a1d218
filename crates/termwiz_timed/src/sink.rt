//! Where what is told goes.
ghost use Rattle.std.specs.Prelude.{◌≡◌, List, Some, ℕ};
ghost use Rattle.termwiz_timed.specs.Steps.{goes_on};
ghost use Rattle.termwiz_timed.specs.declared.parser.TimedEvent.TheVariants.{PastePart, Whole};

use crate::parser::TimedEvent;
use std::alloc::{AllocError, Global};
use termwiz_extended_events::meanings::Meaning;
use termwiz_extended_events::types::Event;
pub use termwiz_input_extended::sink::EventSink;
use termwiz_keys::types::PastedText;

/// Takes what a timed parser tells.
pub trait TimedSink: EventSink {
    /// What the sink is after a part of a paste, from what it was before.
    ghost takes_part: { Self → List ℕ → Self → Type 0 };

    /// Takes text of a paste whose end hasn't come yet.
    fn emit_part(&mut self, text: PastedText)
        ensures { takes_part self.old text self.new };
}

// Has what was told last.
#[derive(Drop)]
pub(crate) struct LastTold(pub(crate) Option<TimedEvent>);

impl EventSink for LastTold {
    ghost takes = { λ before event after. after.0 ≡ Some (Whole event) };

    fn emit(&mut self, event: Event) {
        self.0 = Some(TimedEvent::Whole(event));
    }
}

impl TimedSink for LastTold {
    ghost takes_part = { λ before text after. after.0 ≡ Some (PastePart text) };

    fn emit_part(&mut self, text: PastedText) {
        self.0 = Some(TimedEvent::PastePart(text));
    }
}

// Notes whether what was open when another program had the terminal goes on after an event, and hands the event on. It goes on after a part
// of a string alone.
#[derive(Drop)]
pub(crate) struct Noting<'a, S> {
    pub(crate) sink: &'a mut S,
    pub(crate) interrupted: &'a mut bool,
}

impl<S: EventSink> EventSink for Noting<'_, S> {
    ghost takes = { λ before event after. S.takes before.sink.now event after.sink.now
        × (after.interrupted.now ≡ goes_on event before.interrupted.now)
        × (after.sink.ghost_name ≡ before.sink.ghost_name) × (after.interrupted.ghost_name ≡ before.interrupted.ghost_name) };

    #[inline(always)]
    fn emit(&mut self, event: Event) {
        *self.interrupted &= matches!(event, Event::StringPart { .. });
        self.sink.emit(event);
    }

    #[inline(always)]
    fn emit_meaning(&mut self, alloc: Global, meaning: Meaning<'_>) -> Result<(), AllocError> {
        let is_part = matches!(meaning, Meaning::StringPart { .. });
        self.sink.emit_meaning(alloc, meaning)?;
        *self.interrupted &= is_part;
        Ok(())
    }
}
