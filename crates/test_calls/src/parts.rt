//! Calls that take memory, each made again if it's refused. What they lend is unchanged after a refusal, and the second call
//! answers what the first would have.

ghost use Rattle.std.specs.Prelude.{◌≡◌, ◌++◌, ℕ, [], Err, Some, true, length, string_bytes, IfNone, IfOk, IfSome, OnErr, OnOk};
ghost use Rattle.std.specs.FinMap as map;
ghost use Rattle.termwiz_input.specs.Encoding.{enc, unhandled};
ghost use Rattle.termwiz_input.specs.Lookup.{LookupGives};
ghost use Rattle.termwiz_input.specs.EncodeError.TheVariants as error;
ghost use Rattle.termwiz_input.specs.PasteParts.{IsTaken};
ghost use Rattle.termwiz_input.specs.PasteSearch.{IsPasteSoFar};
ghost use Rattle.termwiz_input.specs.WaitingKinds.{IsOpenPaste};

use std::alloc::{AllocError, Global};
use termwiz_input::input::{
    EncodeError, InputEvent, InputParser, KeyCode, KeyCodeEncodeModes, Modifiers, PastedText,
};
use termwiz_input::keymap::{Found, KeyMap};
use termwiz_input::readbuf::ReadBuffer;

/// A parser with an empty buffer, and whether the first call was refused.
pub fn make_parser(alloc: Global) -> Result<(InputParser, bool), AllocError>
    ensures { IfOk result (λ made. made.0 ≡ []) }
{
    match InputParser::new(alloc) {
        Ok(parser) => Ok((parser, false)),
        Err(_) => Ok((InputParser::new(alloc)?, true)),
    }
}

/// Ends the open paste of a parser, if there is one. Returns its event, and how many bytes stayed buffered after a refusal.
pub fn end_paste(
    parser: &mut InputParser,
) -> Result<(Option<InputEvent>, Option<usize>), AllocError>
    ensures event { IfOk result (λ ended. IfSome ended.0 (IsPasteSoFar parser.old)) }
    ensures none { IfOk result (λ ended. IfNone ended.0 (¬ IsOpenPaste parser.old)) }
    ensures unchanged { IfOk result (λ ended. IfSome ended.1 (λ len. len ≡ length parser.old)) }
{
    match parser.end_paste() {
        Ok(event) => Ok((event, None)),
        Err(_) => {
            let len = parser.waiting_len();
            Ok((parser.end_paste()?, Some(len)))
        }
    }
}

/// Takes a part of the open paste of a parser, if there is one. Returns its text, and how many bytes stayed buffered after a refusal.
pub fn take_paste(
    parser: &mut InputParser,
) -> Result<(Option<PastedText>, Option<usize>), AllocError>
    ensures part { IfOk result (λ taken. IfSome taken.0 (λ text. IsTaken parser.old 0 text parser.new)) }
    ensures unchanged { IfOk result (λ taken. IfSome taken.1 (λ len. len ≡ length parser.old)) }
{
    match parser.take_paste(0) {
        Ok(text) => Ok((text, None)),
        Err(_) => {
            let len = parser.waiting_len();
            Ok((parser.take_paste(0)?, Some(len)))
        }
    }
}

/// Appends bytes to a buffer. Returns the length that the buffer had after a refusal.
pub fn extend(buffer: &mut ReadBuffer, bytes: &[u8]) -> Result<Option<usize>, AllocError>
    ensures appended { OnOk result (buffer.new ≡ buffer.old ++ bytes.now) }
    ensures unchanged { IfOk result (λ refused. IfSome refused (λ len. len ≡ length buffer.old)) }
    ensures err { OnErr result (buffer.new ≡ buffer.old) }
{
    if buffer.extend_with(bytes).is_ok() {
        return Ok(None);
    }
    let len = buffer.len();
    buffer.extend_with(bytes)?;
    Ok(Some(len))
}

/// Sets the value of a key in a map. Returns what a lookup of `text`, with more to come, answered after a refusal.
pub fn insert(
    keys: &mut KeyMap<u8>,
    key: &[u8],
    value: u8,
    text: &[u8],
) -> Result<Option<Found<u8>>, AllocError>
    ensures set { OnOk result (keys.new ≡ map.insert keys.old key.now value) }
    ensures unchanged { IfOk result (λ refused. IfSome refused (LookupGives keys.old text.now true)) }
    ensures err { OnErr result (keys.new ≡ keys.old) }
{
    if keys.insert(key, value).is_ok() {
        return Ok(None);
    }
    let found = look_up(keys, text);
    keys.insert(key, value)?;
    Ok(Some(found))
}

/// What a lookup of a text, with more to come, answers.
pub fn look_up(map: &KeyMap<u8>, text: &[u8]) -> Found<u8>
    ensures { LookupGives map.now text.now true result }
{
    match map.lookup(text, true) {
        Found::None => Found::None,
        Found::Exact(len, value) => Found::Exact(len, *value),
        Found::Ambiguous(len, value) => Found::Ambiguous(len, *value),
        Found::NeedData => Found::NeedData,
    }
}

/// A clone of a map, and whether the first call was refused.
pub fn clone_map(map: &KeyMap<u8>) -> Result<(KeyMap<u8>, bool), AllocError>
    ensures { IfOk result (λ cloned. cloned.0 ≡ map.now) }
{
    match map.clone() {
        Ok(copy) => Ok((copy, false)),
        Err(_) => Ok((map.clone()?, true)),
    }
}

/// A clone of an event, and whether the first call was refused.
pub fn clone_event(alloc: Global, event: &InputEvent) -> Result<(InputEvent, bool), AllocError>
    ensures { IfOk result (λ cloned. cloned.0 ≡ event.now) }
{
    match event.clone(alloc) {
        Ok(copy) => Ok((copy, false)),
        Err(_) => Ok((event.clone(alloc)?, true)),
    }
}

/// The text of a key that is pressed, and whether the first call was refused memory. An error with a number is that of a
/// function key without a text.
pub fn encode(
    alloc: Global,
    key: KeyCode,
    modifiers: Modifiers,
    modes: KeyCodeEncodeModes,
) -> Result<(String, bool), EncodeError>
    ensures text { IfOk result (λ encoded. enc key modifiers modes ≡ Some (string_bytes encoded.0)) }
    ensures refused { (n : ℕ) → result ≡ Err (error.UnhandledFunctionKey n) → unhandled key ≡ Some n }
{
    match key.encode(alloc, modifiers, modes, true) {
        Ok(text) => Ok((text, false)),
        Err(EncodeError::Memory) => match key.encode(alloc, modifiers, modes, true) {
            Ok(text) => Ok((text, true)),
            Err(fault) => Err(fault),
        },
        Err(fault) => Err(fault),
    }
}
