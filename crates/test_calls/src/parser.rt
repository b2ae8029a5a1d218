//! Commands to a parser.
use crate::calls::{Callback, called_back, listed, parsed_pieces, pulled};
use crate::conversation::{Command, Session, bytes_of};
use crate::failure::Failure;
use crate::limits::{Limits, note_of};
use crate::line::Line;
use std::alloc::{AllocError, Global};
use termwiz_input::input::{InputEvent, InputParser, KeyEvent};
use termwiz_input::keymap::Found;
use termwiz_input::time::{limit_of, next_flushed, seen_of};

/// A parser, and its limits in time.
#[derive(Drop)]
pub struct ParserSession {
    parser: InputParser,
    limits: Limits,
}

impl ParserSession {
    /// A parser whose buffer is empty, under the usual policy.
    pub fn new(alloc: Global) -> Result<ParserSession, AllocError> {
        Ok(ParserSession {
            parser: InputParser::new(alloc)?,
            limits: Limits::usual(),
        })
    }
}

impl Session for ParserSession {
    fn answer(
        &mut self,
        alloc: Global,
        command: &Command<'_>,
        line: &mut Line,
    ) -> Result<(), Failure> {
        let more = command.number == 1;
        match command.name {
            "pieces" => read_pieces(&mut self.parser, alloc, command, line),
            "next_flushed" => flush_next(&mut self.parser, line),
            "callback" => self.call_back(alloc, command, Callback::Parse(more), line),
            "loop" => self.call_back(alloc, command, Callback::Loop(more), line),
            "expire" => self.call_back(alloc, command, Callback::Expire(command.number), line),
            "end-pastes" | "timeout" | "limit" => {
                let limit = limit_of(&self.parser, &self.limits.policy);
                self.limits
                    .answer(command.name, command.number, limit, line)
            }
            _ => match note_of(command.name) {
                Some(note) => {
                    let seen = seen_of(&self.parser, &self.limits.policy, note.fed, note.taken);
                    self.limits.note(command.number, seen, line);
                    Ok(())
                }
                None => answer_bytes(&mut self.parser, alloc, command, line),
            },
        }
    }
}

impl ParserSession {
    // Makes a call with a callback.
    fn call_back(
        &mut self,
        alloc: Global,
        command: &Command<'_>,
        callback: Callback,
        line: &mut Line,
    ) -> Result<(), Failure> {
        let bytes = bytes_of(alloc, command.hex)?;
        let (parser, limits) = (&mut self.parser, &mut self.limits);
        let events = called_back(alloc, parser, limits, callback, &bytes)?;
        show_events(&events, parser.waiting_len(), line);
        Ok(())
    }
}

// Makes the call that a command names on its bytes.
fn answer_bytes(
    parser: &mut InputParser,
    alloc: Global,
    command: &Command<'_>,
    line: &mut Line,
) -> Result<(), Failure> {
    let bytes = bytes_of(alloc, command.hex)?;
    let more = command.number == 1;
    let events = match command.name {
        "list" => listed(parser, &bytes, more)?,
        "event" => pulled(alloc, parser, &bytes, more)?,
        "feed" => return Ok(parser.feed(&bytes)?),
        "lookup" => {
            show_found(parser.lookup(&bytes, more), line);
            return Ok(());
        }
        _ => return tell(parser, command, line),
    };
    show_events(&events, parser.waiting_len(), line);
    Ok(())
}

// Appends what a parser tells.
fn tell(parser: &mut InputParser, command: &Command<'_>, line: &mut Line) -> Result<(), Failure> {
    match command.name {
        "has_item" => line.holds(parser.has_item(command.number == 1)),
        "awaits_paste_end" => line.holds(parser.awaits_paste_end()),
        "row" => show_row(parser.row(command.number as usize), line),
        "reset" => line.number(parser.reset()),
        _ => return Err(Failure::NoSuchWord),
    }
    Ok(())
}

// Reads pieces, each of which ends with a comma.
fn read_pieces(
    parser: &mut InputParser,
    alloc: Global,
    command: &Command<'_>,
    line: &mut Line,
) -> Result<(), Failure> {
    let pieces = pieces_given(alloc, command.hex)?;
    let pieces = slices_of(alloc, &pieces)?;
    let events = parsed_pieces(alloc, parser, &pieces, command.number == 1)?;
    show_numbered(&events, parser.waiting_len(), line);
    Ok(())
}

// The bytes of pieces, each of which ends with a comma.
fn pieces_given(alloc: Global, digits: &str) -> Result<Vec<Vec<u8>>, Failure> {
    let mut pieces = Vec::new(alloc);
    for piece in digits.split_terminator(',') {
        if pieces.push(bytes_of(alloc, piece)?).is_err() {
            return Err(Failure::TooEarly);
        }
    }
    Ok(pieces)
}

fn slices_of(alloc: Global, pieces: &[Vec<u8>]) -> Result<Vec<&[u8]>, AllocError> {
    let mut slices = Vec::new(alloc);
    for piece in pieces {
        slices.push(piece.as_slice())?;
    }
    Ok(slices)
}

// Appends the next event of a flush, if there is one.
fn flush_next(parser: &mut InputParser, line: &mut Line) -> Result<(), Failure> {
    if let Some(event) = next_flushed(parser)? {
        line.event(&event);
        line.word(", ");
    }
    line.waiting(parser.waiting_len());
    Ok(())
}

/// Appends the events, and how many bytes stay buffered.
pub fn show_events(events: &[InputEvent], waiting: usize, line: &mut Line) {
    for event in events {
        line.event(event);
        line.word(", ");
    }
    line.waiting(waiting);
}

// Appends the events, each after the number of its piece, and how many bytes stay buffered.
fn show_numbered(events: &[(usize, InputEvent)], waiting: usize, line: &mut Line) {
    for (number, event) in events {
        line.number(*number);
        line.word(" ");
        line.event(event);
        line.word(", ");
    }
    line.waiting(waiting);
}

/// Appends what a lookup finds.
pub fn show_found(found: Found<&KeyEvent>, line: &mut Line) {
    match found {
        Found::None => line.word("None"),
        Found::NeedData => line.word("NeedData"),
        Found::Exact(len, event) => show_match("Exact ", len, event, line),
        Found::Ambiguous(len, event) => show_match("Ambiguous ", len, event, line),
    }
}

fn show_match(kind: &str, len: usize, event: &KeyEvent, line: &mut Line) {
    line.word(kind);
    line.number(len);
    line.word(" ");
    line.key(event);
}

// Appends the bytes and the key of a row.
fn show_row(row: Option<(&[u8], &KeyEvent)>, line: &mut Line) {
    match row {
        Some((bytes, event)) => {
            line.hex(bytes);
            line.word(" ");
            line.key(event);
        }
        None => line.word("None"),
    }
}
