//! Commands to a parser with a clock.
use crate::conversation::{Command, Session, bytes_of};
use crate::extended_parser::show_event;
use crate::failure::Failure;
use crate::limits::show_millis;
use crate::line::Line;
use std::alloc::{AllocError, Global};
use termwiz_timed::parser::{FeedError, Policy, TimedEvent, TimedParser};
use termwiz_timed::types::{Dialect, EraseByte, NewlineByte, Reading};

/// A parser with a clock.
#[derive(Drop)]
pub struct TimedSession {
    parser: TimedParser,
}

impl TimedSession {
    /// A parser whose buffer is empty.
    pub fn new(alloc: Global) -> Result<TimedSession, AllocError> {
        Ok(TimedSession {
            parser: TimedParser::new(alloc, Dialect::Extended)?,
        })
    }
}

impl Session for TimedSession {
    fn answer(
        &mut self,
        alloc: Global,
        command: &Command<'_>,
        line: &mut Line,
    ) -> Result<(), Failure> {
        let number = command.number;
        match command.name {
            "new" => self.parser = TimedParser::new(alloc, dialect_of(number))?,
            "sharing" => self.parser = self.parser.sharing(dialect_of(number))?,
            "feed" => feed(&mut self.parser, alloc, command, line)?,
            "next" => show_next(&mut self.parser, line),
            _ => call(&mut self.parser, command.name, number, line)?,
        }
        Ok(())
    }
}

// Feeds bytes, and appends why they weren't taken.
fn feed(
    parser: &mut TimedParser,
    alloc: Global,
    command: &Command<'_>,
    line: &mut Line,
) -> Result<(), Failure> {
    let bytes = bytes_of(alloc, command.hex)?;
    match parser.feed(command.number, &bytes) {
        Ok(()) => {}
        Err(FeedError::Busy) => line.word("busy"),
        Err(FeedError::NoMemory) => line.word("refused"),
    }
    Ok(())
}

// Appends the next event, a part of a paste, that there is none, or that memory was refused.
fn show_next(parser: &mut TimedParser, line: &mut Line) {
    match parser.next() {
        Ok(Some(TimedEvent::Whole(event))) => show_event(&event, line),
        Ok(Some(TimedEvent::PastePart(text))) => {
            line.word("part of ");
            line.pasted(&text);
        }
        Ok(None) => line.word("none"),
        Err(_) => line.word("refused"),
    }
}

// Another program had the terminal. Appends that all isn't told, if it isn't.
fn interrupt(parser: &mut TimedParser, now: u64, line: &mut Line) {
    if parser.interrupted(now).is_err() {
        line.word("busy");
    }
}

// Makes a call that tells or asks something.
fn call(parser: &mut TimedParser, name: &str, number: u64, line: &mut Line) -> Result<(), Failure> {
    match name {
        "idle" => parser.idle(number),
        "flush" => parser.flush(),
        "end" => parser.end(),
        "interrupted" => interrupt(parser, number, line),
        "timeout" => show_millis(parser.timeout(number), line),
        "skip" => line.option(parser.skip_paste()),
        "reset" => line.number(parser.reset()),
        "shrink" => parser.shrink_to(number as usize),
        "expect" => parser.expect_position(),
        "forget" => parser.forget_positions(),
        "parts" => parser.set_parts(Some(number as usize)),
        "no-parts" => parser.set_parts(None),
        "waiting" | "waiting_len" | "reading" | "policy" => show(parser, name, line),
        _ => set(parser, name, number)?,
    }
    Ok(())
}

// Appends what the parser says of itself.
fn show(parser: &TimedParser, name: &str, line: &mut Line) {
    let (kind, reading, policy) = (parser.waiting(), parser.reading(), parser.policy());
    match name {
        "waiting" => line.shown(format_args!("{kind:?}")),
        "reading" => line.shown(format_args!("{reading:?}")),
        "policy" => line.shown(format_args!("{policy:?}")),
        _ => line.number(parser.waiting_len()),
    }
}

// Sets a field of the reading or of the policy.
fn set(parser: &mut TimedParser, name: &str, number: u64) -> Result<(), Failure> {
    match name {
        "dialect" | "x10_mouse" | "questions" | "erase" | "newline" => {
            parser.set_reading(changed_reading(parser.reading(), name, number));
        }
        _ => parser.set_policy(changed_policy(parser.policy(), name, number)?),
    }
    Ok(())
}

fn dialect_of(number: u64) -> Dialect {
    if number == 0 {
        Dialect::Extended
    } else {
        Dialect::Termwiz
    }
}

fn erase_of(number: u64) -> EraseByte {
    if number == 8 {
        EraseByte::Backspace
    } else {
        EraseByte::Delete
    }
}

fn newline_of(number: u64) -> NewlineByte {
    if number == 0 {
        NewlineByte::CtrlJ
    } else {
        NewlineByte::Enter
    }
}

// A reading with another field of this name.
fn changed_reading(mut reading: Reading, name: &str, number: u64) -> Reading {
    match name {
        "dialect" => reading.dialect = dialect_of(number),
        "x10_mouse" => reading.x10_mouse = number == 1,
        "questions" => reading.questions = (number % 256) as u8,
        "erase" => reading.erase = erase_of(number),
        _ => reading.newline = newline_of(number),
    }
    reading
}

// A policy with another limit of this name. A number that is too large for a limit is none.
fn changed_policy(mut policy: Policy, name: &str, number: u64) -> Result<Policy, Failure> {
    let limit = u32::try_from(number).ok();
    match name {
        "escape" => policy.escape = limit,
        "alt_key" => policy.alt_key = limit,
        "sequence" => policy.sequence = limit,
        "string" => policy.string = limit,
        "character" => policy.character = limit,
        "paste" => policy.paste = limit,
        _ => return Err(Failure::NoSuchWord),
    }
    Ok(policy)
}
