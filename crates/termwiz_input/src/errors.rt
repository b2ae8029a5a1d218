// What the calls of a parser say of a refusal of memory.
ghost use Rattle.std.specs.Prelude.{◌≡◌, ◌+◌, ◌^◌, ◌<◌};

use termwiz_keys::types::InputEvent;
use thiserror::Error;

/// A call of [`InputParser::parse`](crate::input::InputParser::parse) was refused memory. The parser may be used again.
#[derive(Clone, Copy, PartialEq, Eq, Debug, Error)]
pub enum ParseError {
    /// The bytes weren't taken: no event was given, and the parser is unchanged. Call again with the same bytes.
    #[error("input not taken: out of memory")]
    NotTaken,
    /// The bytes were taken, and memory for an event was refused: for the text of a paste, and in the extended parser for the text of a key
    /// or the bytes of a sequence too. That item is still at the front of what is buffered: call again with no bytes.
    #[error("input taken: out of memory")]
    Taken,
}

/// A call of [`InputParser::parse_pieces`](crate::input::InputParser::parse_pieces) was refused memory. The parser may be used again: call with
/// the pieces from `taken` on, or with no pieces and the same flag if all were taken.
#[derive(Clone, Copy, PartialEq, Eq, Debug, Error)]
#[error("out of memory after {taken} pieces")]
pub struct PiecesError {
    /// How many pieces were taken, the one that met the refusal among them if its bytes were taken. The events that were
    /// given are theirs.
    pub taken: usize,
}

impl PiecesError {
    // A refusal of the piece with this number.
    pub(crate) fn at(number: usize, fault: ParseError) -> PiecesError
        requires { number + 1 < 2 ^ 64 }
        ensures not_taken { fault ≡ ParseError.NotTaken → result.taken ≡ number }
        ensures taken { fault ≡ ParseError.Taken → result.taken ≡ number + 1 }
    {
        match fault {
            ParseError::NotTaken => PiecesError { taken: number },
            ParseError::Taken => PiecesError { taken: number + 1 },
        }
    }
}

/// A call of [`InputParser::parse_as_vec`](crate::input::InputParser::parse_as_vec) was refused memory. No event is lost: the parser stands
/// after `events`, and the next call goes on from there. Call again with the same bytes if `taken` is false, and with no bytes if it is
/// true.
#[derive(PartialEq, Eq, Debug, Drop)]
pub struct ParseVecError {
    /// The events so far.
    pub events: Vec<InputEvent>,
    /// Whether the bytes of the call were taken. If not, there are no events, and the parser is unchanged.
    pub taken: bool,
}
