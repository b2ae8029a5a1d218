//! The calls of the parser, with no more to come. If one is refused memory, the call that goes on is made: what both give is
//! what the bytes mean.

ghost use Rattle.std.specs.Prelude.{List, IfOk};
ghost use Rattle.termwiz_input.specs.InputEvent.{InputEvent as Event};
ghost use Rattle.termwiz_input.specs.Callbacks.{WasCalledOn, WasCalledOnNumbered};
ghost use Rattle.termwiz_input.specs.Grammar.{Means, Steps};
ghost use Rattle.termwiz_input.specs.Pieces.{NumberedEvent, texts};
ghost use Rattle.test_calls.specs.GoingOn.{Describes, GoesOn, GoesOnWithPieces};

use std::alloc::Global;
use termwiz_input::input::{InputEvent, InputParser, ParseError, ParseVecError, PiecesError};
use termwiz_input::laws::resumes;

/// What a call left.
#[derive(Clone, Copy)]
pub struct Left {
    /// How many bytes were buffered.
    pub waiting: usize,
    /// Whether they began with the start of a paste.
    pub is_paste_open: bool,
}

impl Left {
    // What is buffered in a parser.
    fn of(parser: &InputParser) -> Left
        ensures { Describes parser.now result }
    {
        Left {
            waiting: parser.waiting_len(),
            is_paste_open: parser.is_paste_open(),
        }
    }
}

/// What stood after a call was refused memory.
#[derive(Clone, Copy)]
pub struct Stop {
    /// Whether the bytes were buffered.
    pub taken: bool,
    pub left: Left,
}

/// What stood after a call on pieces was refused memory.
#[derive(Clone, Copy)]
pub struct PiecesStop {
    /// How many pieces were buffered.
    pub taken: usize,
    pub left: Left,
}

/// Gives the bytes to `parse`, and their events to `first`. After a refusal the bytes are given again if they weren't
/// buffered, and no bytes if they were; the events of that call go to `later`.
pub fn parse<F: FnMut(InputEvent), G: FnMut(InputEvent)>(
    parser: &mut InputParser,
    bytes: &[u8],
    first: &mut F,
    later: &mut G,
) -> Result<Option<Stop>, ParseError>
    requires first { F.IsAlwaysCallable first.old }
    requires later { G.IsAlwaysCallable later.old }
    ensures { IfOk result (λ stop. (given going_on : List Event)
        × WasCalledOn F.step first.old given first.new
        × WasCalledOn G.step later.old going_on later.new
        × GoesOn Steps Means parser.old bytes.now stop given going_on parser.new) }
{
    // The law by which the events of both calls are the events of the bytes.
    resumes();
    match parser.parse(bytes, first, false) {
        Ok(()) => Ok(None),
        Err(ParseError::NotTaken) => {
            let left = Left::of(parser);
            parser.parse(bytes, later, false)?;
            Ok(Some(Stop { taken: false, left }))
        }
        Err(ParseError::Taken) => {
            let left = Left::of(parser);
            parser.parse(b"", later, false)?;
            Ok(Some(Stop { taken: true, left }))
        }
    }
}

/// The events of a call of `parse_as_vec` and of the call that goes on after it.
#[derive(Drop)]
pub struct Lists {
    /// The events of the first call, or those that its error has.
    pub first: Vec<InputEvent>,
    /// What stood after the first call, if it was refused.
    pub stop: Option<Stop>,
    /// The events of the second call.
    pub later: Vec<InputEvent>,
}

/// Gives the bytes to `parse_as_vec`. After a refusal the bytes are given again if they weren't buffered, and no bytes if
/// they were.
pub fn parse_as_vec(
    alloc: Global,
    parser: &mut InputParser,
    bytes: &[u8],
) -> Result<Lists, ParseVecError>
    ensures { IfOk result (λ lists.
        GoesOn Steps Means parser.old bytes.now lists.stop lists.first.items lists.later.items parser.new) }
{
    resumes();
    let (first, taken) = match parser.parse_as_vec(bytes, false) {
        Ok(first) => {
            let later = Vec::new(alloc);
            return Ok(Lists {
                first,
                stop: None,
                later,
            });
        }
        Err(ParseVecError { events, taken }) => (events, taken),
    };
    let left = Left::of(parser);
    let rest = if taken { b"" } else { bytes };
    let later = parser.parse_as_vec(rest, false)?;
    Ok(Lists {
        first,
        stop: Some(Stop { taken, left }),
        later,
    })
}

/// Gives the pieces to `parse_pieces`, and their events to `first`. After a refusal the pieces that weren't buffered are given,
/// no pieces if all were; the events of that call go to `later`, with their numbers in that call.
pub fn parse_pieces<F: FnMut(usize, InputEvent), G: FnMut(usize, InputEvent)>(
    parser: &mut InputParser,
    pieces: &[&[u8]],
    first: &mut F,
    later: &mut G,
) -> Result<Option<PiecesStop>, PiecesError>
    requires first { F.IsAlwaysCallable first.old }
    requires later { G.IsAlwaysCallable later.old }
    ensures { IfOk result (λ stop. (given going_on : List NumberedEvent)
        × WasCalledOnNumbered F.step first.old given first.new
        × WasCalledOnNumbered G.step later.old going_on later.new
        × GoesOnWithPieces parser.old (texts pieces.now) stop given going_on parser.new) }
{
    resumes();
    match parser.parse_pieces(pieces, first, false) {
        Ok(()) => Ok(None),
        Err(PiecesError { taken }) => {
            let left = Left::of(parser);
            parser.parse_pieces(&pieces[taken..], later, false)?;
            Ok(Some(PiecesStop { taken, left }))
        }
    }
}
