//! Makes the calls that only a program in Rattle can make, and prints what they return. What they have to return is in
//! `tests/test_rattle.py`.
//!
//! `test_calls MODE` reads commands from standard input, and prints a line for each: see [`conversation`]. MODE is `parser`, `extended` or `termwiz`
//! for an extended parser of that dialect, `timed`, `map`, `buffer` or `values`. `test_calls refusals CASE..` prints a line for each case: see [`refusals`].
//!
//! The status is 0, or 3 if memory was refused elsewhere than in the call of a case, 2 if there is no such mode, command or case, and 1 if the
//! call of a case was refused twice, or nothing could be read or printed.
#![tactic(auto)]

mod buffer;
mod calls;
mod conversation;
mod events;
mod extended;
mod extended_calls;
mod extended_parser;
mod extended_refusals;
mod failure;
mod key_map;
mod limits;
mod line;
mod noted;
mod parser;
mod parses;
mod parts;
mod printing;
mod refusals;
mod timed;
mod values;

use buffer::BufferSession;
use conversation::converse;
use extended_parser::ExtendedSession;
use failure::Failure;
use key_map::MapSession;
use parser::ParserSession;
use std::env;
use std::process::ExitCode;
use termwiz_input_extended::types::Dialect;
use timed::TimedSession;
use values::ValuesSession;

fn main(rt: HostRuntime) -> ExitCode {
    match run(&rt) {
        Ok(()) => ExitCode::SUCCESS,
        Err(Failure::Failed) => ExitCode::from(1),
        Err(Failure::NoSuchWord) => ExitCode::from(2),
        Err(Failure::TooEarly) => ExitCode::from(3),
    }
}

// Runs the mode that the program was called with.
fn run(rt: &HostRuntime) -> Result<(), Failure> {
    // Words are refused memory too.
    let Ok(mut words) = env::args(rt) else {
        return Err(Failure::TooEarly);
    };
    let _name = words.next();
    let Some(mode) = words.next() else {
        return Err(Failure::NoSuchWord);
    };
    if mode.as_str() == "refusals" {
        return refusals::show_all(rt, words);
    }
    converse_in(rt, mode.as_str())
}

fn converse_in(rt: &HostRuntime, mode: &str) -> Result<(), Failure> {
    let alloc = rt.alloc();
    match mode {
        "parser" => converse(rt, &mut ParserSession::new(alloc)?),
        "extended" => converse(rt, &mut ExtendedSession::new(alloc, Dialect::Extended)?),
        "termwiz" => converse(rt, &mut ExtendedSession::new(alloc, Dialect::Termwiz)?),
        "timed" => converse(rt, &mut TimedSession::new(alloc)?),
        "map" => converse(rt, &mut MapSession::new(alloc)),
        "buffer" => converse(rt, &mut BufferSession::new(alloc)),
        "values" => converse(rt, &mut ValuesSession),
        _ => Err(Failure::NoSuchWord),
    }
}
