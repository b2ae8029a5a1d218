//! Where events are emitted to.
ghost use Rattle.std.specs.Prelude.{◌≡◌, IfSome, IsSome, OnErr, OnOk};
ghost use Rattle.termwiz_extended_events.specs.Meanings.{NeedsMemory, event_from};

use std::alloc::{AllocError, Global};
use termwiz_extended_events::meanings::Meaning;
use termwiz_extended_events::types::Event;

/// Takes the events of a parser. An event is built where the sink wants it, and isn't handed from call to call.
pub trait EventSink {
    ghost use Rattle.termwiz_extended_events.specs.declared.types.Event.{Event};

    /// What the sink is after an event, from what it was before.
    ghost takes: { Self → Event → Self → Type 0 };

    /// Takes an event.
    fn emit(&mut self, event: Event)
        ensures { takes self.old event self.new };

    /// Takes the event of what a sequence means. A sink that keeps the bytes in a place of its own spares the event's memory. If memory is
    /// refused, the sink is unchanged.
    fn emit_meaning(&mut self, alloc: Global, meaning: Meaning<'_>) -> Result<(), AllocError>
        requires { IsSome (event_from meaning) }
        ensures ok { OnOk result (IfSome (event_from meaning.entry) (λ event. takes self.old event self.new)) }
        ensures refused { OnErr result (IfSome (event_from meaning.entry) NeedsMemory) }
        ensures refused_same { OnErr result (self.new ≡ self.old) }
    {
        self.emit(meaning.event(alloc)?);
        Ok(())
    }
}

/// Has the event that was emitted last.
impl EventSink for Option<Event> {
    ghost use Rattle.std.specs.Prelude.{◌≡◌, Some};

    ghost takes = { λ before event after. after ≡ Some event };

    #[inline(always)]
    fn emit(&mut self, event: Event) {
        *self = Some(event);
    }
}
