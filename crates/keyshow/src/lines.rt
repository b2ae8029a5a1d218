// The lines of events, appended to a buffer.

ghost use Rattle.std.specs.Prelude.{◌≡◌, ◌++◌, OnOk};
ghost use Rattle.keyshow.specs.Lines.{line, waiting_line};

use event_text::{push_decimal, push_event};
use std::alloc::AllocError;
use termwiz_input::types::InputEvent;

/// Appends the line of an event to `out`.
// Inlined into the parser's callback, it would read a copy of the event, just made: that took longer than the call.
#[inline(never)]
#[tactic(auto, unfolding(crate::specs::Lines::line))]
pub fn push_line(out: &mut Vec<u8>, event: &InputEvent) -> Result<(), AllocError>
    ensures { OnOk result (out.new.items ≡ out.old.items ++ line event.now) }
{
    push_event(out, event)?;
    out.extend_from_slice(b"\n")
}

/// Appends the line that says how many bytes wait to `out`, or nothing if none do.
pub fn push_waiting(out: &mut Vec<u8>, count: usize) -> Result<(), AllocError>
    ensures { OnOk result (out.new.items ≡ out.old.items ++ waiting_line count) }
{
    if count == 0 {
        return Ok(());
    }
    out.extend_from_slice(b"waiting ")?;
    push_decimal(out, count)?;
    out.extend_from_slice(b"\n")
}
