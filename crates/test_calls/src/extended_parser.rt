//! Commands to an extended parser, and whole sequences.
use crate::conversation::{Command, Session, bytes_of};
use crate::extended_calls::{called_back, listed, looped};
use crate::failure::Failure;
use crate::line::Line;
use std::alloc::{AllocError, Global};
use termwiz_extended_events::meanings::{event_of, meaning_of};
use termwiz_extended_events::port_events::port_of;
use termwiz_extended_events::types::KeyReport;
use termwiz_input_extended::input::ExtendedParser;
use termwiz_input_extended::types::{Dialect, Event};

/// A parser.
#[derive(Drop)]
pub struct ExtendedSession {
    parser: ExtendedParser,
}

impl ExtendedSession {
    /// A parser whose buffer is empty.
    pub fn new(alloc: Global, dialect: Dialect) -> Result<ExtendedSession, AllocError> {
        Ok(ExtendedSession {
            parser: ExtendedParser::new(alloc, dialect)?,
        })
    }
}

impl Session for ExtendedSession {
    fn answer(
        &mut self,
        alloc: Global,
        command: &Command<'_>,
        line: &mut Line,
    ) -> Result<(), Failure> {
        let more = command.number == 1;
        match command.name {
            "next_event" => take_next(&mut self.parser, more, line),
            "next_port" => take_port(&mut self.parser, more, line),
            _ => answer_bytes(&mut self.parser, alloc, command, line),
        }
    }
}

// Makes the call that a command names on its bytes.
fn answer_bytes(
    parser: &mut ExtendedParser,
    alloc: Global,
    command: &Command<'_>,
    line: &mut Line,
) -> Result<(), Failure> {
    let bytes = bytes_of(alloc, command.hex)?;
    let more = command.number == 1;
    let events = match command.name {
        "list" => listed(parser, &bytes, more)?,
        "callback" => called_back(alloc, parser, &bytes, more)?,
        "loop" => looped(alloc, parser, &bytes, more)?,
        "feed" => return Ok(parser.feed(&bytes)?),
        "sequence" => return show_sequence(alloc, &bytes, more, line),
        _ => return Err(Failure::NoSuchWord),
    };
    show_events(&events, parser.waiting_len(), line);
    Ok(())
}

// Appends the next event, if there is one.
fn take_next(parser: &mut ExtendedParser, more: bool, line: &mut Line) -> Result<(), Failure> {
    if let Some(event) = parser.next_event(more)? {
        show_listed(&event, line);
    }
    line.waiting(parser.waiting_len());
    Ok(())
}

// Appends the port's event of the next event, or that it has none.
fn take_port(parser: &mut ExtendedParser, more: bool, line: &mut Line) -> Result<(), Failure> {
    if let Some(event) = parser.next_event(more)? {
        match port_of(event) {
            Some(event) => line.event(&event),
            None => line.word("None"),
        }
    }
    Ok(())
}

// Appends the events, and how many bytes stay buffered.
fn show_events(events: &[Event], waiting: usize, line: &mut Line) {
    for event in events {
        show_listed(event, line);
    }
    line.waiting(waiting);
}

/// Appends an event.
pub fn show_event(event: &Event, line: &mut Line) {
    match event {
        Event::Paste(text) => line.pasted(text),
        _ => line.shown(format_args!("{event:?}")),
    }
}

// Appends an event, and what is between two.
fn show_listed(event: &Event, line: &mut Line) {
    show_event(event, line);
    line.word(", ");
}

// Appends whether a sequence is a key or the position of the cursor, its event, the event's key, and a clone of the key. `asks` says that a
// question for the cursor's position is open.
fn show_sequence(alloc: Global, text: &[u8], asks: bool, line: &mut Line) -> Result<(), Failure> {
    line.holds(meaning_of(text, asks).is_key_or_position());
    line.word(", ");
    let event = event_of(alloc, text, asks)?;
    show_listed(&event, line);
    match event.key() {
        Some(report) => show_report(alloc, report, line),
        None => Ok(()),
    }
}

fn show_report(alloc: Global, report: &KeyReport, line: &mut Line) -> Result<(), Failure> {
    let copy = report.clone(alloc)?;
    line.shown(format_args!("Key({report:?}), "));
    show_listed(&Event::Key(copy), line);
    Ok(())
}
