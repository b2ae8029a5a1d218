//! By which calls of the extended parser bytes are read. Each returns the events of what is buffered and of the bytes.
use crate::noted::Noted;
use std::alloc::{AllocError, Global};
use termwiz_input_extended::input::ExtendedParser;
use termwiz_input_extended::types::Event;

/// The events of a call of `parse_as_vec`.
pub fn listed(
    parser: &mut ExtendedParser,
    bytes: &[u8],
    more: bool,
) -> Result<Vec<Event>, AllocError> {
    match parser.parse_as_vec(bytes, more) {
        Ok(events) => Ok(events),
        Err(_) => Err(AllocError),
    }
}

/// The events that the callback of `parse` is given.
pub fn called_back(
    alloc: Global,
    parser: &mut ExtendedParser,
    bytes: &[u8],
    more: bool,
) -> Result<Vec<Event>, AllocError> {
    let mut noted = Noted::new(alloc);
    let mut note = |event: Event| noted.push(event);
    match parser.parse(bytes, &mut note, more) {
        Ok(()) => noted.all(),
        Err(_) => Err(AllocError),
    }
}

/// The events that the callback of `for_each_event` is given, after the bytes were fed.
pub fn looped(
    alloc: Global,
    parser: &mut ExtendedParser,
    bytes: &[u8],
    more: bool,
) -> Result<Vec<Event>, AllocError> {
    let mut noted = Noted::new(alloc);
    let mut note = |event: Event| noted.push(event);
    parser.feed(bytes)?;
    match parser.for_each_event(&mut note, more) {
        Ok(()) => noted.all(),
        Err(_) => Err(AllocError),
    }
}
