//! Commands on standard input, and the lines that answer them.
//!
//! A command is a line `NAME [NUMBER [HEX]]`: a name, a number, which is 0 if there is none, and bytes in hexadecimal. Bytes that are read by a
//! parser have the number 1 if more may come, and 0 if they are the last.
use crate::failure::Failure;
use crate::line::Line;
use std::alloc::Global;
use std::io::{BufRead, BufReader, Write};

/// A command.
#[derive(Clone, Copy)]
pub struct Command<'a> {
    pub name: &'a str,
    pub number: u64,
    pub hex: &'a str,
}

/// The command of a line.
pub fn command_of(line: &str) -> Result<Command<'_>, Failure> {
    let (name, rest) = line.split_once(' ').unwrap_or((line, "0"));
    let (digits, hex) = rest.split_once(' ').unwrap_or((rest, ""));
    match digits.parse() {
        Ok(number) => Ok(Command { name, number, hex }),
        Err(_) => Err(Failure::NoSuchWord),
    }
}

/// The bytes that hexadecimal digits stand for.
pub fn bytes_of(alloc: Global, digits: &str) -> Result<Vec<u8>, Failure> {
    match hex::decode(alloc, digits) {
        Ok(bytes) => Ok(bytes),
        Err(_) => Err(Failure::NoSuchWord),
    }
}

/// What commands are about.
pub trait Session {
    /// Makes the calls of a command, and appends what they return to a line.
    fn answer(
        &mut self,
        alloc: Global,
        command: &Command<'_>,
        line: &mut Line,
    ) -> Result<(), Failure>;
}

/// Answers each line of standard input.
pub fn converse<S: Session>(rt: &HostRuntime, session: &mut S) -> Result<(), Failure> {
    let alloc = rt.alloc();
    for line in BufReader::new(alloc, rt.reader())?.lines(alloc) {
        answer_line(rt, session, line?.as_str())?;
    }
    Ok(())
}

// Answers a line.
fn answer_line<S: Session>(rt: &HostRuntime, session: &mut S, line: &str) -> Result<(), Failure> {
    let mut answer = Line::new(rt.alloc());
    session.answer(rt.alloc(), &command_of(line)?, &mut answer)?;
    Ok(rt.stdout().write_all(&answer.end()?)?)
}
