// Reads bytes in pieces, and writes the lines of their events.

ghost use Rattle.std.specs.Prelude.{◌≡◌, ◌≤◌, ◌<◌, ◌++◌, List, [], ℕ, true, false, length, ◌↔◌, IsTrue, OnOk, OnErr, IfOk, IsErrOf};
ghost use Rattle.std.specs.Io.KnownBytes.{Appends, Consumes, Keeps, IsAtEnd};
ghost use Rattle.termwiz_input.specs.Bytes.{Begins};
ghost use Rattle.termwiz_input.specs.Grammar.{Means};
ghost use Rattle.termwiz_input.specs.Pieces.{join, texts};
ghost use Rattle.termwiz_input.specs.InputEvent.{InputEvent as Event};
ghost use Rattle.keyshow.specs.Lines.{lines, all_lines};
ghost use Rattle.keyshow.specs.Runs.{ReadsAhead, ShowsAll, ShowsDecided, ShowsPart, WritesPart};
ghost use Rattle.keyshow.specs.Callback.{AppendsLine};

use crate::lines::{push_line, push_waiting};
use std::alloc::Global;
use std::io::{Read, Write};
use termwiz_input::input::InputParser;
use termwiz_input::laws;
use termwiz_input::types::InputEvent;
use thiserror::Error;

/// Why a run ended early.
#[derive(Clone, Copy, PartialEq, Eq, Debug, Error)]
pub enum RunError {
    /// A read failed, or 2^64 - 1 reads came without the end.
    #[error("read failed")]
    Read,
    /// A write failed or took no byte, or the writer could not be flushed.
    #[error("write failed")]
    Write,
    /// Memory was refused.
    #[error("out of memory")]
    Memory,
}

/// Reads all that the reader gives, at most `piece` bytes at a time, and writes a line for each event. The lines of one
/// piece are written before the next read. At the end of input it writes the lines of the bytes that were still undecided,
/// then how many bytes wait, if any do, and flushes the writer once.
///
/// The first error ends the run. After `Read` exactly the lines of the events that were decided so far are written, and nothing
/// is flushed. After `Write` or `Memory` a prefix is written of the lines that the text read so far has if no more comes. However
/// the run ends, at most `piece` bytes were read that come after a text whose decided lines are all written.
pub fn run<R: Read, W: Write>(
    alloc: Global,
    reader: &mut R,
    writer: &mut W,
    piece: usize,
) -> Result<(), RunError>
    requires least { 1 ≤ piece }
    requires most { piece ≤ 4096 }
    ensures ok { OnOk result (ShowsAll (R.remaining reader.old) (R.remaining reader.new)
        (W.contents writer.old) (W.contents writer.new)) }
    ensures err { OnErr result (ShowsPart (R.remaining reader.old) (R.remaining reader.new)
        (W.contents writer.old) (W.contents writer.new)) }
    ensures read { IsErrOf result RunError.Read → ShowsDecided (R.remaining reader.old) (R.remaining reader.new)
        (W.contents writer.old) (W.contents writer.new) }
    ensures ahead { ReadsAhead piece (R.remaining reader.old) (R.remaining reader.new)
        (W.contents writer.old) (W.contents writer.new) }
{
    // By these laws the events of the pieces are the events of the whole, and what was decided begins them.
    laws::resumes();
    laws::one_meaning();
    laws::empty_is_rest();
    let mut parser = InputParser::new(alloc).map_err(|_| RunError::Memory)?;
    let mut buffer = [0u8; 4096];
    let mut text = Vec::new(alloc);
    for _ in 0..u64::MAX {
        let more = show_piece(&mut parser, reader, writer, &mut buffer[..piece], &mut text)?;
        if !more {
            return finish(&mut parser, writer, &mut text);
        }
    }
    Err(RunError::Read)
}

// Reads one piece, and writes the lines of the events that it decides. Returns `false` at the end of input. The lines of each piece
// are put together in `text`, which keeps its memory from piece to piece.
fn show_piece<R: Read, W: Write>(
    parser: &mut InputParser,
    reader: &mut R,
    writer: &mut W,
    buffer: &mut [u8],
    text: &mut Vec<u8>,
) -> Result<bool, RunError>
    requires { 0 < length buffer.old }
    ensures more { IfOk result (λ more. more ≡ true → (bytes : List ℕ) × (events : List Event)
        × Consumes (R.remaining reader.old) (R.remaining reader.new) bytes
        × Means (parser.old ++ bytes) true events parser.new
        × Appends (W.contents writer.old) (W.contents writer.new) (lines events)) }

    ensures at_end { IfOk result (λ more. more ≡ false → IsAtEnd (R.remaining reader.new)) }
    ensures none_read { IfOk result (λ more. more ≡ false
        → Keeps (R.remaining reader.old) (R.remaining reader.new)) }
    ensures same_parser { IfOk result (λ more. more ≡ false → parser.new ≡ parser.old) }
    ensures same_writer { IfOk result (λ more. more ≡ false → writer.new ≡ writer.old) }
    ensures err { OnErr result ((bytes : List ℕ) × (length bytes ≤ length buffer.old)
        × Consumes (R.remaining reader.old) (R.remaining reader.new) bytes
        × WritesPart (parser.old ++ bytes) (W.contents writer.old) (W.contents writer.new)) }
    ensures not_read { IsErrOf result RunError.Read → Keeps (R.remaining reader.old) (R.remaining reader.new) }
    ensures not_written { IsErrOf result RunError.Read → writer.new ≡ writer.old }
{
    laws::one_meaning();
    let count = reader.read(buffer).map_err(|_| RunError::Read)?;
    if count == 0 {
        return Ok(false);
    }
    show_read(parser, writer, &[&buffer[..count]], text)?;
    Ok(true)
}

// Writes the lines of the events that the pieces decide, after the text that waits.
fn show_read<W: Write>(
    parser: &mut InputParser,
    writer: &mut W,
    pieces: &[&[u8]],
    text: &mut Vec<u8>,
) -> Result<(), RunError>
    ensures ok { OnOk result ((events : List Event)
        × Means (parser.old ++ join (texts pieces.now)) true events parser.new
        × Appends (W.contents writer.old) (W.contents writer.new) (lines events)) }
    ensures err { OnErr result (WritesPart (parser.old ++ join (texts pieces.now))
        (W.contents writer.old) (W.contents writer.new)) }
    ensures not_read { ¬ IsErrOf result RunError.Read }
{
    laws::resumes();
    laws::one_meaning();
    text.clear();
    push_lines(text, parser, pieces, true)?;
    write_whole(writer, text.as_slice())?;
    Ok(())
}

// Writes the lines of the bytes that were undecided until the end of input, and of what waits even then.
fn finish<W: Write>(
    parser: &mut InputParser,
    writer: &mut W,
    text: &mut Vec<u8>,
) -> Result<(), RunError>
    ensures ok { OnOk result ((events : List Event) × Means parser.old false events parser.new
        × Appends (W.contents writer.old) (W.contents writer.new) (all_lines events parser.new)) }
    ensures err { OnErr result (WritesPart parser.old (W.contents writer.old) (W.contents writer.new)) }
    ensures not_read { ¬ IsErrOf result RunError.Read }
{
    laws::one_meaning();
    text.clear();
    push_lines(text, parser, &[], false)?;
    push_waiting(text, parser.waiting_len()).map_err(|_| RunError::Memory)?;
    write_whole(writer, text.as_slice())?;
    writer.flush().map_err(|_| RunError::Write)
}

// Gives the pieces to the parser, and appends the lines of the events to `text`. After a refused growth no more is appended.
fn push_lines(
    text: &mut Vec<u8>,
    parser: &mut InputParser,
    pieces: &[&[u8]],
    maybe_more: bool,
) -> Result<(), RunError>
    ensures ok { OnOk result ((events : List Event)
        × Means (parser.old ++ join (texts pieces.now)) maybe_more events parser.new
        × (text.new.items ≡ text.old.items ++ lines events)) }
    ensures kind { OnErr result (result ≡ Err RunError.Memory) }
{
    let mut refused = false;
    let mut append_line = |_number: usize, event: InputEvent|
        ensures { AppendsLine text.entry.now.items refused.entry event text.exit.now.items refused.exit }
    {
        if !refused {
            refused = push_line(text, &event).is_err();
        }
    };
    let parsed = parser.parse_pieces(pieces, &mut append_line, maybe_more);
    match (parsed, refused) {
        (Ok(()), false) => Ok(()),
        _ => Err(RunError::Memory),
    }
}

// Writes all of the bytes, by as many writes as that takes.
fn write_whole<W: Write>(writer: &mut W, bytes: &[u8]) -> Result<(), RunError>
    ensures ok { OnOk result (Appends (W.contents writer.old) (W.contents writer.new) bytes.now) }
    ensures err { OnErr result ((part : List ℕ) × Begins part bytes.now
        × Appends (W.contents writer.old) (W.contents writer.new) part) }
    ensures kind { OnErr result (result ≡ Err RunError.Write) }
{
    let mut rest = bytes;
    while !rest.is_empty() {
        match writer.write(rest) {
            Ok(0) | Err(_) => return Err(RunError::Write),
            Ok(n) => rest = &rest[n..],
        }
    }
    Ok(())
}

// Two faults are equal if and only if they are the same. No other code calls this function: it is there for its contract.
fn equal_faults(a: &RunError, b: &RunError) -> bool
    ensures { IsTrue result ↔ (a.now ≡ b.now) }
{
    a == b
}
