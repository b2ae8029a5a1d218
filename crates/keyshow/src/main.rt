//! Prints the events of standard input, one per line. It is called as `keyshow [PIECE]`, where PIECE is the most
//! bytes that are read at a time.
#![tactic(auto)]

ghost use Rattle.std.specs.Prelude.{◌≡◌, ◌≢◌, ◌≤◌, ◌↔◌, ℕ, Some, None, map, string_bytes, IfSome, IsErrOf, OnOk};
ghost use Rattle.std.specs.Option.{SomeIff, option_copied};
ghost use Rattle.std.specs.Str.Parse.{digits_value};
ghost use Rattle.keyshow.specs.declared.pump.RunError.{RunError as Fault};
ghost use Rattle.keyshow.specs.Endings.{status_of, error_line_of};
ghost use Rattle.keyshow.specs.Runs.{ReadsAhead, ShowsAll, ShowsDecided, ShowsPart};
ghost use Rattle.keyshow.specs.Words.{IsPiece, PieceOf, fault_text};

mod lines;
mod pump;
#[cfg(test)]
mod tests;

use pump::{RunError, run};
use std::alloc::Global;
use std::io::{ErrorKind, Read, Write};
use std::process::ExitCode;
use std::{env, io};

/// Why the program ends with a status other than 0.
#[derive(Clone, Copy, PartialEq, Eq, Debug)]
pub enum Failure {
    /// The words after the program's name give no piece.
    WrongWords,
    /// The run ended early.
    Run(RunError),
}

/// How the program ends: its exit status, and the line that it prints on standard error, if any.
#[derive(Clone, Copy, Debug)]
pub struct Ending {
    pub status: u8,
    pub line: Option<&'static str>,
}

fn main(rt: HostRuntime) -> ExitCode {
    let ending = ending_of(outcome(&rt));
    if let Some(line) = ending.line {
        let _ = eprintln!(rt; "{line}");
    }
    ExitCode::from(ending.status)
}

// Shows standard input on standard output, by the words that the program was started with.
fn outcome(rt: &HostRuntime) -> Result<(), Failure> {
    let words = words_given(rt).map_err(|fault| failure_of(fault.kind()))?;
    show(
        rt.alloc(),
        words.as_slice(),
        &mut rt.stdin(),
        &mut rt.stdout(),
    )
}

// The words after the program's name. If one isn't UTF-8, or the name isn't, that is `InvalidData`.
fn words_given(rt: &HostRuntime) -> io::Result<Vec<String>> {
    let mut given = env::args(rt)?;
    let _name = given.next();
    let mut words = Vec::new(rt.alloc());
    for word in given {
        words.push(word)?;
    }
    Ok(words)
}

// Why the words could not be had, by the kind of the error.
fn failure_of(kind: ErrorKind) -> Failure
    ensures memory { kind ≡ ErrorKind.OutOfMemory → result ≡ Failure.Run RunError.Memory }
    ensures others { kind ≢ ErrorKind.OutOfMemory → result ≡ Failure.WrongWords }
{
    match kind {
        ErrorKind::OutOfMemory => Failure::Run(RunError::Memory),
        _ => Failure::WrongWords,
    }
}

/// Runs over the reader and the writer with the piece that the words give. If they give none, nothing is read or written.
pub fn show<R: Read, W: Write>(
    alloc: Global,
    words: &[String],
    reader: &mut R,
    writer: &mut W,
) -> Result<(), Failure>
    ensures wrong_words { (result ≡ Err Failure.WrongWords) ↔ PieceOf (map string_bytes words.now) None }
    ensures unread { result ≡ Err Failure.WrongWords → reader.new ≡ reader.old }
    ensures unwritten { result ≡ Err Failure.WrongWords → writer.new ≡ writer.old }
    ensures ok { OnOk result (ShowsAll (R.remaining reader.old) (R.remaining reader.new)
        (W.contents writer.old) (W.contents writer.new)) }
    ensures err { (fault : Fault) → IsErrOf result (Failure.Run fault)
        → ShowsPart (R.remaining reader.old) (R.remaining reader.new) (W.contents writer.old) (W.contents writer.new) }
    ensures read { IsErrOf result (Failure.Run RunError.Read)
        → ShowsDecided (R.remaining reader.old) (R.remaining reader.new) (W.contents writer.old) (W.contents writer.new) }
    ensures ahead { (piece : ℕ) → PieceOf (map string_bytes words.now) (Some piece)
        → ReadsAhead piece (R.remaining reader.old) (R.remaining reader.new) (W.contents writer.old) (W.contents writer.new) }
{
    let Some(piece) = piece_of(words) else {
        return Err(Failure::WrongWords);
    };
    run(alloc, reader, writer, piece).map_err(Failure::Run)
}

/// The exit status and the line on standard error: 0 and none if all was shown, 1 and the line of the fault if the run
/// ended early, 2 and the usage if the words were wrong.
pub fn ending_of(outcome: Result<(), Failure>) -> Ending
    ensures status { result.status ≡ status_of outcome }
    ensures line { option_copied result.line ≡ error_line_of outcome }
{
    match outcome {
        Ok(()) => Ending {
            status: 0,
            line: None,
        },
        Err(Failure::Run(fault)) => Ending {
            status: 1,
            line: Some(fault_line(&fault)),
        },
        Err(Failure::WrongWords) => Ending {
            status: 2,
            line: Some("usage: keyshow [PIECE]"),
        },
    }
}

/// The most bytes to read at a time, by the words after the program's name: 64 if there are none, the value of a single
/// word of one to four ASCII digits if it is from 1 to 4096, and `None` for all other words.
pub fn piece_of(words: &[String]) -> Option<usize>
    ensures piece { PieceOf (map string_bytes words.now) result }
    ensures least { IfSome result (λ piece. 1 ≤ piece) }
    ensures most { IfSome result (λ piece. piece ≤ 4096) }
{
    match words {
        [] => Some(64),
        [word] => piece_in(word.as_str()),
        _ => None,
    }
}

// The value of a word that is a piece.
fn piece_in(word: &str) -> Option<usize>
    ensures { SomeIff result (IsPiece word.now) (digits_value 10 word.now) }
{
    if 4 < word.len() || !word.bytes().all(|byte| byte.is_ascii_digit()) {
        return None;
    }
    let Ok(value) = word.parse::<usize>() else {
        return None;
    };
    if 1 <= value && value <= 4096 {
        Some(value)
    } else {
        None
    }
}

/// The line on standard error that says why a run ended early.
pub fn fault_line(fault: &RunError) -> &'static str
    ensures { result.now ≡ fault_text fault.now }
{
    match fault {
        RunError::Read => "keyshow: read failed",
        RunError::Write => "keyshow: write failed",
        RunError::Memory => "keyshow: out of memory",
    }
}
