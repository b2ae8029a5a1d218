//! By which calls of the parser bytes are read. Each way returns the events of what is buffered and of the bytes.
use crate::limits::Limits;
use crate::noted::Noted;
use std::alloc::{AllocError, Global};
use termwiz_input::input::{InputEvent, InputParser};
use termwiz_input::laws::few_events;
use termwiz_input::time::expire;

/// The events of a call of `parse_as_vec`.
pub fn listed(
    parser: &mut InputParser,
    bytes: &[u8],
    more: bool,
) -> Result<Vec<InputEvent>, AllocError> {
    match parser.parse_as_vec(bytes, more) {
        Ok(events) => Ok(events),
        Err(_) => Err(AllocError),
    }
}

/// A call with a callback.
#[derive(Clone, Copy)]
pub enum Callback {
    /// `parse`, with the flag.
    Parse(bool),
    /// `feed`, and then `for_each_event` with the flag.
    Loop(bool),
    /// `expire`, at a time, which takes no bytes.
    Expire(u64),
}

/// The events that a callback is given.
pub fn called_back(
    alloc: Global,
    parser: &mut InputParser,
    limits: &mut Limits,
    callback: Callback,
    bytes: &[u8],
) -> Result<Vec<InputEvent>, AllocError> {
    let mut noted = Noted::new(alloc);
    let mut note = |event: InputEvent| noted.push(event);
    let is_done = match callback {
        Callback::Parse(more) => parser.parse(bytes, &mut note, more).is_ok(),
        Callback::Loop(more) => {
            parser.feed(bytes).is_ok() && parser.for_each_event(&mut note, more).is_ok()
        }
        Callback::Expire(now) => {
            expire(parser, &mut limits.timer, &limits.policy, now, &mut note).is_ok()
        }
    };
    if is_done {
        noted.all()
    } else {
        Err(AllocError)
    }
}

/// The events of a call of `parse_pieces`, each with the number of its piece.
pub fn parsed_pieces(
    alloc: Global,
    parser: &mut InputParser,
    pieces: &[&[u8]],
    more: bool,
) -> Result<Vec<(usize, InputEvent)>, AllocError> {
    let mut noted = Noted::new(alloc);
    let mut note = |number: usize, event: InputEvent| noted.push((number, event));
    match parser.parse_pieces(pieces, &mut note, more) {
        Ok(()) => noted.all(),
        Err(_) => Err(AllocError),
    }
}

/// The events, one call of `next_event` for each, after the bytes were fed.
pub fn pulled(
    alloc: Global,
    parser: &mut InputParser,
    bytes: &[u8],
    more: bool,
) -> Result<Vec<InputEvent>, AllocError> {
    // By this law each event consumes bytes, so the loop ends.
    few_events();
    parser.feed(bytes)?;
    let mut events = Vec::new(alloc);
    while let Some(event) = parser.next_event(more)? {
        events.push(event)?;
    }
    Ok(events)
}
