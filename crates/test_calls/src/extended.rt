//! The calls of the extended parser, with no more to come. If one is refused memory, the call that goes on is made: what both
//! give is what the bytes mean.

ghost use Rattle.std.specs.Prelude.{◌≡◌, ◌++◌, ◌∷◌, [], List, false, length, IfNone, IfOk, IfSome, OnErr, OnOk};
ghost use Rattle.termwiz_input.specs.PasteParts.{IsTaken};
ghost use Rattle.termwiz_input.specs.WaitingKinds.{IsOpenPaste};
ghost use Rattle.termwiz_extended_events.specs.declared.types.Event.{Event};
ghost use Rattle.termwiz_extended_grammar.specs.ExtendedGrammar.{IsRest, Means, Steps};
ghost use Rattle.termwiz_extended_grammar.specs.Readings.{first_reading};
ghost use Rattle.termwiz_input_extended.specs.EventCallbacks.{WasCalledOn};
ghost use Rattle.termwiz_input_extended.specs.NextItems.{IsPasteEvent};
ghost use Rattle.test_calls.specs.GoingOn.{Describes, GoesOn};

use crate::parses::{Left, Stop};
use std::alloc::{AllocError, Global};
use termwiz_input::input::PastedText;
use termwiz_input_extended::input::{ExtendedParser, ExtendedVecError, ParseError};
use termwiz_input_extended::laws::resumes;
use termwiz_input_extended::types::{Dialect, Event};

// What is buffered in a parser.
fn left_in(parser: &ExtendedParser) -> Left
    ensures { Describes parser.now.text result }
{
    Left {
        waiting: parser.waiting_len(),
        is_paste_open: parser.input().is_paste_open(),
    }
}

/// A parser with an empty buffer, and whether the first call was refused.
pub fn make_parser(alloc: Global, dialect: Dialect) -> Result<(ExtendedParser, bool), AllocError>
    ensures empty { IfOk result (λ made. made.0.text ≡ []) }
    ensures reading { IfOk result (λ made. made.0.reading ≡ first_reading dialect) }
{
    match ExtendedParser::new(alloc, dialect) {
        Ok(parser) => Ok((parser, false)),
        Err(_) => Ok((ExtendedParser::new(alloc, dialect)?, true)),
    }
}

/// Buffers bytes. Returns how many bytes were buffered after a refusal.
pub fn feed(parser: &mut ExtendedParser, bytes: &[u8]) -> Result<Option<usize>, AllocError>
    ensures appended { OnOk result (parser.new ≡ record parser.old { text = parser.old.text ++ bytes.now }) }
    ensures unchanged { IfOk result (λ refused. IfSome refused (λ len. len ≡ length parser.old.text)) }
    ensures err { OnErr result (parser.new ≡ parser.old) }
{
    if parser.feed(bytes).is_ok() {
        return Ok(None);
    }
    let len = parser.waiting_len();
    parser.feed(bytes)?;
    Ok(Some(len))
}

/// The next event, and how many bytes were buffered after a refusal.
pub fn next_event(parser: &mut ExtendedParser) -> Result<(Option<Event>, Option<usize>), AllocError>
    ensures event { IfOk result (λ next. IfSome next.0 (λ event.
        Steps parser.old.reading parser.old.text false (event ∷ []) parser.new.text)) }
    ensures none { IfOk result (λ next. IfNone next.0 (IsRest parser.old.reading parser.old.text false)) }
    ensures none_same { IfOk result (λ next. IfNone next.0 (parser.new ≡ parser.old)) }
    ensures unchanged { IfOk result (λ next. IfSome next.1 (λ len. len ≡ length parser.old.text)) }
{
    match parser.next_event(false) {
        Ok(event) => Ok((event, None)),
        Err(_) => {
            let len = parser.waiting_len();
            Ok((parser.next_event(false)?, Some(len)))
        }
    }
}

/// Ends the open paste of a parser, if there is one. Returns its event, and how many bytes stayed buffered after a refusal.
pub fn end_paste(parser: &mut ExtendedParser) -> Result<(Option<Event>, Option<usize>), AllocError>
    ensures event { IfOk result (λ ended. IfSome ended.0 (IsPasteEvent parser.old.text)) }
    ensures none { IfOk result (λ ended. IfNone ended.0 (¬ IsOpenPaste parser.old.text)) }
    ensures unchanged { IfOk result (λ ended. IfSome ended.1 (λ len. len ≡ length parser.old.text)) }
{
    match parser.end_paste() {
        Ok(event) => Ok((event, None)),
        Err(_) => {
            let len = parser.waiting_len();
            Ok((parser.end_paste()?, Some(len)))
        }
    }
}

/// Takes a part of the open paste of a parser, if there is one. Returns its text, and how many bytes stayed buffered after a refusal.
pub fn take_paste(
    parser: &mut ExtendedParser,
) -> Result<(Option<PastedText>, Option<usize>), AllocError>
    ensures part { IfOk result (λ taken. IfSome taken.0 (λ text. IsTaken parser.old.text 0 text parser.new.text)) }
    ensures unchanged { IfOk result (λ taken. IfSome taken.1 (λ len. len ≡ length parser.old.text)) }
{
    match parser.take_paste(0) {
        Ok(text) => Ok((text, None)),
        Err(_) => {
            let len = parser.waiting_len();
            Ok((parser.take_paste(0)?, Some(len)))
        }
    }
}

/// Gives the events of what is buffered to `first`. After a refusal the same call is made; its events go to `later`.
pub fn for_each_event<F: FnMut(Event), G: FnMut(Event)>(
    parser: &mut ExtendedParser,
    first: &mut F,
    later: &mut G,
) -> Result<Option<Stop>, AllocError>
    requires first { F.IsAlwaysCallable first.old }
    requires later { G.IsAlwaysCallable later.old }
    ensures { IfOk result (λ stop. (given going_on : List Event)
        × WasCalledOn F.step first.old given first.new
        × WasCalledOn G.step later.old going_on later.new
        × GoesOn (Steps parser.old.reading) (Means parser.old.reading) parser.old.text [] stop given going_on parser.new.text) }
{
    // The law by which the events of both calls are the events of the bytes.
    resumes();
    match parser.for_each_event(first, false) {
        Ok(()) => Ok(None),
        Err(_) => {
            let left = left_in(parser);
            parser.for_each_event(later, false)?;
            Ok(Some(Stop { taken: true, left }))
        }
    }
}

/// Gives the bytes to `parse`, and their events to `first`. After a refusal the bytes are given again if they weren't
/// buffered, and no bytes if they were; the events of that call go to `later`.
pub fn parse<F: FnMut(Event), G: FnMut(Event)>(
    parser: &mut ExtendedParser,
    bytes: &[u8],
    first: &mut F,
    later: &mut G,
) -> Result<Option<Stop>, ParseError>
    requires first { F.IsAlwaysCallable first.old }
    requires later { G.IsAlwaysCallable later.old }
    ensures { IfOk result (λ stop. (given going_on : List Event)
        × WasCalledOn F.step first.old given first.new
        × WasCalledOn G.step later.old going_on later.new
        × GoesOn (Steps parser.old.reading) (Means parser.old.reading) parser.old.text bytes.now stop given going_on
        parser.new.text) }
{
    resumes();
    match parser.parse(bytes, first, false) {
        Ok(()) => Ok(None),
        Err(ParseError::NotTaken) => {
            let left = left_in(parser);
            parser.parse(bytes, later, false)?;
            Ok(Some(Stop { taken: false, left }))
        }
        Err(ParseError::Taken) => {
            let left = left_in(parser);
            parser.parse(b"", later, false)?;
            Ok(Some(Stop { taken: true, left }))
        }
    }
}

/// The events of a call of `parse_as_vec` and of the call that goes on after it.
#[derive(Drop)]
pub struct ExtendedLists {
    /// The events of the first call, or those that its error has.
    pub first: Vec<Event>,
    /// What stood after the first call, if it was refused.
    pub stop: Option<Stop>,
    /// The events of the second call.
    pub later: Vec<Event>,
}

/// Gives the bytes to `parse_as_vec`. After a refusal the bytes are given again if they weren't buffered, and no bytes if
/// they were.
pub fn parse_as_vec(
    alloc: Global,
    parser: &mut ExtendedParser,
    bytes: &[u8],
) -> Result<ExtendedLists, ExtendedVecError>
    ensures { IfOk result (λ lists. GoesOn (Steps parser.old.reading) (Means parser.old.reading) parser.old.text bytes.now
        lists.stop lists.first.items lists.later.items parser.new.text) }
{
    resumes();
    let (first, taken) = match parser.parse_as_vec(bytes, false) {
        Ok(first) => {
            let later = Vec::new(alloc);
            return Ok(ExtendedLists {
                first,
                stop: None,
                later,
            });
        }
        Err(ExtendedVecError { events, taken }) => (events, taken),
    };
    let left = left_in(parser);
    let rest = if taken { b"" } else { bytes };
    let later = parser.parse_as_vec(rest, false)?;
    Ok(ExtendedLists {
        first,
        stop: Some(Stop { taken, left }),
        later,
    })
}
