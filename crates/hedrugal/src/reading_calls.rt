// The calls that say how a parser reads.
ghost use Rattle.std.specs.Prelude.{◌≡◌, ◌≢◌, ◌↔◌, ◌⊎◌, None, IfSome, IfNone};
ghost use Rattle.termwiz_extended_events.specs.declared.types.Reading.{Reading as AReading};
ghost use Rattle.termwiz_extended_events.specs.declared.types.EraseByte.{EraseByte as AnErase};
ghost use Rattle.termwiz_extended_events.specs.declared.types.NewlineByte.{NewlineByte as ANewline};
ghost use Rattle.termwiz_timed.specs.Steps.Call.{ExpectPosition, ForgetPositions};
ghost use Rattle.hedrugal.specs.Calls.{Calls, IsNoDialect};
ghost use Rattle.hedrugal.specs.Events.{dialect_number, erase_number, newline_number};
ghost use Rattle.hedrugal.specs.ReadingCalls.{HasReading, IsBadReading, ReadsBy, StandFor, c_reading};

use crate::handles::ParserHandle;
use crate::status::{BAD_NUMBER, NOT_INITIALIZED, OK};
use termwiz_input_extended::types::{Dialect, EraseByte, NewlineByte, Reading};

/// `hed_reading`: how a parser reads, in numbers.
#[repr(C)]
#[derive(Clone, Copy)]
pub struct CReading {
    /// The number of the dialect.
    pub dialect: u32,
    /// The number of the byte that the Backspace key sends.
    pub erase: u32,
    /// The number of what byte 10 is.
    pub newline: u32,
    /// Whether X10 mouse reports are read.
    pub x10_mouse: bool,
    /// How many questions for the cursor's position are open.
    pub questions: u8,
}

// The dialects.
const DIALECT_EXTENDED: u32 = 0;

const DIALECT_TERMWIZ: u32 = 1;

// What the Backspace key may send.
const ERASE_DELETE: u32 = 0;

const ERASE_BACKSPACE: u32 = 1;

// What byte 10 may be.
const NEWLINE_CTRL_J: u32 = 0;

const NEWLINE_ENTER: u32 = 1;

// The dialect that has this number.
#[tactic(auto, unfolding(crate::specs::Events::dialect_number))]
pub(crate) fn dialect_at(number: u32) -> Option<Dialect>
    ensures some { IfSome result (λ dialect. dialect_number dialect ≡ number) }
    ensures none { IfNone result (IsNoDialect number) }
{
    match number {
        DIALECT_EXTENDED => Some(Dialect::Extended),
        DIALECT_TERMWIZ => Some(Dialect::Termwiz),
        _ => None,
    }
}

// The byte of the Backspace key that has this number.
#[tactic(auto, unfolding(crate::specs::Events::erase_number))]
fn erase_at(number: u32) -> Option<EraseByte>
    ensures some { IfSome result (λ erase. erase_number erase ≡ number) }
    ensures none { IfNone result ((erase : AnErase) → ¬ (erase_number erase ≡ number)) }
{
    match number {
        ERASE_DELETE => Some(EraseByte::Delete),
        ERASE_BACKSPACE => Some(EraseByte::Backspace),
        _ => None,
    }
}

// What byte 10 is, by its number.
#[tactic(auto, unfolding(crate::specs::Events::newline_number))]
fn newline_at(number: u32) -> Option<NewlineByte>
    ensures some { IfSome result (λ newline. newline_number newline ≡ number) }
    ensures none { IfNone result ((newline : ANewline) → ¬ (newline_number newline ≡ number)) }
{
    match number {
        NEWLINE_CTRL_J => Some(NewlineByte::CtrlJ),
        NEWLINE_ENTER => Some(NewlineByte::Enter),
        _ => None,
    }
}

// The reading that the numbers stand for.
fn reading_of(numbers: &CReading) -> Option<Reading>
    ensures some { IfSome result (λ reading. StandFor numbers.now reading) }
    ensures none { IfNone result (IsBadReading numbers.now) }
{
    Some(Reading {
        dialect: dialect_at(numbers.dialect)?,
        x10_mouse: numbers.x10_mouse,
        questions: numbers.questions,
        erase: erase_at(numbers.erase)?,
        newline: newline_at(numbers.newline)?,
    })
}

/// Has a parser read so from now on, also what is buffered.
#[unsafe(no_mangle)]
pub extern "C" fn hed_parser_set_reading(parser: &mut ParserHandle, reading: &CReading) -> u32
    ensures answers { (result ≡ OK) ⊎ ((result ≡ BAD_NUMBER) ⊎ (result ≡ NOT_INITIALIZED)) }
    ensures set { result ≡ OK → ReadsBy parser.old.state.held reading.now parser.new.state.held }
    ensures bad_number { result ≡ BAD_NUMBER ↔ IsBadReading reading.now }
    ensures no_parser { result ≡ NOT_INITIALIZED → parser.old.state.held ≡ None }
    ensures parser { result ≡ OK → parser.old.state.held ≢ None }
    ensures same { result ≢ OK → parser.new.state.held ≡ parser.old.state.held }
{
    let Some(reading) = reading_of(reading) else {
        return BAD_NUMBER;
    };
    let Some(held) = parser.get_mut() else {
        return NOT_INITIALIZED;
    };
    held.parser.set_reading(reading);
    OK
}

/// How a parser reads.
#[tactic(auto, unfolding(crate::specs::Events::dialect_number, crate::specs::Events::erase_number, crate::specs::Events::newline_number))]
#[unsafe(no_mangle)]
pub extern "C" fn hed_parser_reading(parser: &mut ParserHandle, reading: &mut CReading) -> u32
    ensures answers { (result ≡ OK) ⊎ (result ≡ NOT_INITIALIZED) }
    ensures reads { result ≡ OK → (now : AReading) × HasReading parser.old.state.held now × (reading.new ≡ c_reading now) }
    ensures no_parser { result ≡ NOT_INITIALIZED ↔ (parser.old.state.held ≡ None) }
    ensures none_same { result ≢ OK → reading.new ≡ reading.old }
    ensures same { parser.new.state ≡ parser.old.state }
{
    let Some(held) = parser.get_mut() else {
        return NOT_INITIALIZED;
    };
    let now = held.parser.reading();
    *reading = CReading {
        dialect: now.dialect as u32,
        erase: now.erase as u32,
        newline: now.newline as u32,
        x10_mouse: now.x10_mouse,
        questions: now.questions,
    };
    OK
}

/// Expects one more reply to a question for the cursor's position, up to 255.
#[unsafe(no_mangle)]
pub extern "C" fn hed_parser_expect_position(parser: &mut ParserHandle)
    ensures { Calls parser.old.state.held ExpectPosition parser.new.state.held }
{
    if let Some(held) = parser.get_mut() {
        held.parser.expect_position();
    }
}

/// Expects no reply any more to questions for the cursor's position.
#[unsafe(no_mangle)]
pub extern "C" fn hed_parser_forget_positions(parser: &mut ParserHandle)
    ensures { Calls parser.old.state.held ForgetPositions parser.new.state.held }
{
    if let Some(held) = parser.get_mut() {
        held.parser.forget_positions();
    }
}
