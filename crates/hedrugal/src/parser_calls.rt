// The calls of a parser.
ghost use Rattle.std.specs.Prelude.{◌≡◌, ◌≢◌, ◌↔◌, ◌⊎◌, Bool, [], length, None, IsTrue};
ghost use Rattle.termwiz_timed.specs.Steps.Call.{AllTold, End, Feed, Flush, Idle, Interrupted, Reset, SetParts, SetPolicy, SkipPaste};
ghost use Rattle.hedrugal.specs.Calls.{Calls, HasDroppedText, HasFlush, HasKind, HasOpenPaste, HasSkipped, HasTold, IsFresh, IsMillis, IsNoDialect, IsUnchanged, NeedsMemory, Tells, copied, kept, waiting_len, waiting_number};
ghost use Rattle.hedrugal.specs.Limits.{has_long_limit, limits_in, parts_in};

use crate::copying::copy_prefix;
use crate::events::CEvent;
use crate::handles::ParserHandle;
use crate::parser_and_text::ParserAndText;
use crate::policy::{CPolicy, c_millis, parts_in};
use crate::reading_calls::dialect_at;
use crate::status::{BAD_NUMBER, BUSY, NO_MEMORY, NONE, NOT_INITIALIZED, OK};
use std::alloc::Global;
use termwiz_timed::parser::{ExtendedWaiting, FeedError, TimedParser};

// What may stay buffered.
const WAITING_NOTHING: u32 = 0;

const WAITING_ESCAPE: u32 = 1;

const WAITING_SEQUENCE: u32 = 2;

const WAITING_CHARACTER: u32 = 3;

const WAITING_PASTE: u32 = 4;

const WAITING_STRING: u32 = 5;

/// Makes a parser of the dialect with this number, and frees the one that was there.
#[unsafe(no_mangle)]
pub extern "C" fn hed_parser_init(alloc: Global, parser: &mut ParserHandle, dialect: u32) -> u32
    ensures answers { (result ≡ OK) ⊎ ((result ≡ NO_MEMORY) ⊎ (result ≡ BAD_NUMBER)) }
    ensures made { result ≡ OK → IsFresh parser.new.state.held dialect }
    ensures bad_number { result ≡ BAD_NUMBER ↔ IsNoDialect dialect }
    ensures same { result ≢ OK → parser.new.state.held ≡ parser.old.state.held }
{
    let Some(dialect) = dialect_at(dialect) else {
        return BAD_NUMBER;
    };
    let Ok(made) = TimedParser::new(alloc, dialect) else {
        return NO_MEMORY;
    };
    parser.view().replace(alloc, ParserAndText::of(alloc, made))
}

/// Makes a parser of the dialect with this number that has the sequence table of another, and frees the one that was there.
#[unsafe(no_mangle)]
pub extern "C" fn hed_parser_init_sharing(
    alloc: Global,
    parser: &mut ParserHandle,
    dialect: u32,
    other: &mut ParserHandle,
) -> u32
    ensures answers { (result ≡ OK) ⊎ ((result ≡ NO_MEMORY) ⊎ ((result ≡ BAD_NUMBER) ⊎ (result ≡ NOT_INITIALIZED))) }
    ensures made { result ≡ OK → IsFresh parser.new.state.held dialect }
    ensures bad_number { result ≡ BAD_NUMBER ↔ IsNoDialect dialect }
    ensures no_other { result ≡ NOT_INITIALIZED → other.old.state.held ≡ None }
    ensures other { result ≡ OK → other.old.state.held ≢ None }
    ensures same { result ≢ OK → parser.new.state.held ≡ parser.old.state.held }
    ensures other_same { other.new.state ≡ other.old.state }
{
    let Some(dialect) = dialect_at(dialect) else {
        return BAD_NUMBER;
    };
    let Some(held) = other.get_mut() else {
        return NOT_INITIALIZED;
    };
    let Ok(made) = held.parser.sharing(dialect) else {
        return NO_MEMORY;
    };
    parser.view().replace(alloc, ParserAndText::of(alloc, made))
}

/// Frees the parser, if there is one, and leaves none.
#[unsafe(no_mangle)]
pub extern "C" fn hed_parser_free(alloc: Global, parser: &mut ParserHandle)
    ensures { parser.new.state.held ≡ None }
{
    parser.view().free(alloc);
}

/// Says that these bytes came now.
#[unsafe(no_mangle)]
pub extern "C" fn hed_parser_feed(parser: &mut ParserHandle, now: u64, bytes: &[u8]) -> u32
    ensures answers { (result ≡ OK) ⊎ ((result ≡ NO_MEMORY) ⊎ ((result ≡ BUSY) ⊎ (result ≡ NOT_INITIALIZED))) }
    ensures fed { result ≡ OK → Calls parser.old.state.held (Feed now bytes.now) parser.new.state.held }
    ensures busy { result ≡ BUSY ↔ HasFlush parser.old.state.held }
    ensures no_memory { result ≡ NO_MEMORY → bytes.now ≢ [] }
    ensures no_parser { result ≡ NOT_INITIALIZED ↔ (parser.old.state.held ≡ None) }
    ensures same { result ≢ OK → parser.new.state.held ≡ parser.old.state.held }
{
    let Some(held) = parser.get_mut() else {
        return NOT_INITIALIZED;
    };
    match held.parser.feed(now, bytes) {
        Ok(()) => OK,
        Err(FeedError::Busy) => BUSY,
        Err(FeedError::NoMemory) => NO_MEMORY,
    }
}

/// Tells the next event, and keeps its bytes.
#[unsafe(no_mangle)]
pub extern "C" fn hed_parser_next(parser: &mut ParserHandle, event: &mut CEvent) -> u32
    ensures answers { (result ≡ OK) ⊎ ((result ≡ NONE) ⊎ ((result ≡ NO_MEMORY) ⊎ (result ≡ NOT_INITIALIZED))) }
    ensures told { result ≡ OK → Tells parser.old.state.held event.new parser.new.state.held }
    ensures all_told { result ≡ NONE → Calls parser.old.state.held AllTold parser.new.state.held }
    ensures no_memory { result ≡ NO_MEMORY → NeedsMemory parser.old.state.held }
    ensures no_memory_same { result ≡ NO_MEMORY → parser.new.state.held ≡ parser.old.state.held }
    ensures no_parser { result ≡ NOT_INITIALIZED ↔ (parser.old.state.held ≡ None) }
    ensures no_parser_same { result ≡ NOT_INITIALIZED → parser.new.state.held ≡ None }
    ensures event_same { result ≢ OK → event.new ≡ event.old }
{
    let Some(held) = parser.get_mut() else {
        return NOT_INITIALIZED;
    };
    match held.next(event) {
        Ok(true) => OK,
        Ok(false) => NONE,
        Err(_) => NO_MEMORY,
    }
}

/// Copies the bytes of the event that was told last, as many of them as `out` has room for, and returns how many they are.
#[unsafe(no_mangle)]
pub extern "C" fn hed_parser_text(parser: &mut ParserHandle, out: &mut [u8]) -> usize
    ensures same { parser.new.state ≡ parser.old.state }
    ensures len { result ≡ length (kept parser.old.state.held) }
    ensures bytes { out.new ≡ copied (kept parser.old.state.held) out.old }
{
    let Some(held) = parser.get_mut() else {
        return 0;
    };
    copy_prefix(held.text.as_slice(), out)
}

/// Frees these bytes.
#[unsafe(no_mangle)]
pub extern "C" fn hed_parser_drop_text(alloc: Global, parser: &mut ParserHandle)
    ensures { HasDroppedText parser.old.state.held parser.new.state.held }
{
    if let Some(held) = parser.get_mut() {
        held.text = Vec::new(alloc);
    }
}

/// How many milliseconds the program may wait for input: 0 until all is told, else until what is buffered is due, and -1 for ever.
#[unsafe(no_mangle)]
pub extern "C" fn hed_parser_timeout(parser: &mut ParserHandle, now: u64) -> i32
    ensures same { parser.new.state ≡ parser.old.state }
    ensures millis { IsMillis parser.old.state.held now result }
{
    let Some(held) = parser.get_mut() else {
        return -1;
    };
    c_millis(held.parser.timeout(now))
}

/// Says that nothing more came up to now.
#[unsafe(no_mangle)]
pub extern "C" fn hed_parser_idle(parser: &mut ParserHandle, now: u64)
    ensures { (due : Bool) × Calls parser.old.state.held (Idle now due) parser.new.state.held }
{
    if let Some(held) = parser.get_mut() {
        held.parser.idle(now);
    }
}

/// Reads what is buffered with no more to come. An open paste stays open.
#[unsafe(no_mangle)]
pub extern "C" fn hed_parser_flush(parser: &mut ParserHandle)
    ensures { Calls parser.old.state.held Flush parser.new.state.held }
{
    if let Some(held) = parser.get_mut() {
        held.parser.flush();
    }
}

/// Says that nothing will ever come. An open paste ends where it is.
#[unsafe(no_mangle)]
pub extern "C" fn hed_parser_end(parser: &mut ParserHandle)
    ensures { Calls parser.old.state.held End parser.new.state.held }
{
    if let Some(held) = parser.get_mut() {
        held.parser.end();
    }
}

/// Says that another program had the terminal up to now.
#[unsafe(no_mangle)]
pub extern "C" fn hed_parser_interrupted(parser: &mut ParserHandle, now: u64) -> u32
    ensures answers { (result ≡ OK) ⊎ ((result ≡ BUSY) ⊎ (result ≡ NOT_INITIALIZED)) }
    ensures interrupted { result ≡ OK → Calls parser.old.state.held (Interrupted now) parser.new.state.held }
    ensures all_told { result ≡ OK ↔ HasTold parser.old.state.held }
    ensures no_parser { result ≡ NOT_INITIALIZED ↔ (parser.old.state.held ≡ None) }
    ensures same { result ≢ OK → parser.new.state.held ≡ parser.old.state.held }
{
    let Some(held) = parser.get_mut() else {
        return NOT_INITIALIZED;
    };
    if held.parser.interrupted(now).is_err() {
        return BUSY;
    }
    OK
}

/// Sets the limits in time.
#[unsafe(no_mangle)]
pub extern "C" fn hed_parser_set_policy(parser: &mut ParserHandle, policy: &CPolicy) -> u32
    ensures answers { (result ≡ OK) ⊎ ((result ≡ BAD_NUMBER) ⊎ (result ≡ NOT_INITIALIZED)) }
    ensures set { result ≡ OK → Calls parser.old.state.held (SetPolicy (limits_in policy.now)) parser.new.state.held }
    ensures bad_number { result ≡ BAD_NUMBER ↔ IsTrue (has_long_limit policy.now) }
    ensures no_parser { result ≡ NOT_INITIALIZED → parser.old.state.held ≡ None }
    ensures parser { result ≡ OK → parser.old.state.held ≢ None }
    ensures same { result ≢ OK → parser.new.state.held ≡ parser.old.state.held }
{
    if policy.has_long_limit() {
        return BAD_NUMBER;
    }
    let Some(held) = parser.get_mut() else {
        return NOT_INITIALIZED;
    };
    held.parser.set_policy(policy.limits());
    OK
}

/// Tells a paste in parts as soon as more than so many bytes of its text are buffered. The largest number: a paste is one event.
#[unsafe(no_mangle)]
pub extern "C" fn hed_parser_set_parts(parser: &mut ParserHandle, limit: usize)
    ensures { Calls parser.old.state.held (SetParts (parts_in limit)) parser.new.state.held }
{
    if let Some(held) = parser.get_mut() {
        held.parser.set_parts(parts_in(limit));
    }
}

/// Forgets text of an open paste, and sets `count` to how many bytes these were.
#[unsafe(no_mangle)]
pub extern "C" fn hed_parser_skip_paste(parser: &mut ParserHandle, count: &mut usize) -> u32
    ensures answers { (result ≡ OK) ⊎ ((result ≡ NONE) ⊎ (result ≡ NOT_INITIALIZED)) }
    ensures skips { Calls parser.old.state.held SkipPaste parser.new.state.held }
    ensures count { result ≡ OK → HasSkipped parser.old.state.held count.new parser.new.state.held }
    ensures no_parser { result ≡ NOT_INITIALIZED ↔ (parser.old.state.held ≡ None) }
    ensures none { result ≡ NONE → ¬ HasOpenPaste parser.old.state.held }
    ensures count_same { result ≢ OK → count.new ≡ count.old }
{
    let Some(held) = parser.get_mut() else {
        return NOT_INITIALIZED;
    };
    let Some(skipped) = held.parser.skip_paste() else {
        return NONE;
    };
    *count = skipped;
    OK
}

/// Forgets what is buffered and which positions are expected, and returns how many bytes were buffered; 0 if there is no parser.
#[unsafe(no_mangle)]
pub extern "C" fn hed_parser_reset(parser: &mut ParserHandle) -> usize
    ensures reset { Calls parser.old.state.held Reset parser.new.state.held }
    ensures len { result ≡ waiting_len parser.old.state.held }
{
    let Some(held) = parser.get_mut() else {
        return 0;
    };
    held.parser.reset()
}

/// Frees memory that holds nothing: of the buffer, in which `min_capacity` bytes keep their room, and of the bytes of the event that was told
/// last. All later answers are the same.
#[unsafe(no_mangle)]
pub extern "C" fn hed_parser_shrink_to(parser: &mut ParserHandle, min_capacity: usize)
    ensures { IsUnchanged parser.old.state.held parser.new.state.held }
{
    if let Some(held) = parser.get_mut() {
        held.parser.shrink_to(min_capacity);
        held.text.shrink_to_fit();
    }
}

/// How many bytes are buffered; 0 if there is no parser.
#[unsafe(no_mangle)]
pub extern "C" fn hed_parser_waiting_len(parser: &mut ParserHandle) -> usize
    ensures same { parser.new.state ≡ parser.old.state }
    ensures len { result ≡ waiting_len parser.old.state.held }
{
    let Some(held) = parser.get_mut() else {
        return 0;
    };
    held.parser.waiting_len()
}

// The number of a kind of what stays buffered.
#[tactic(auto, unfolding(crate::specs::Calls::waiting_number))]
fn waiting_number(kind: ExtendedWaiting) -> u32
    ensures { result ≡ waiting_number kind }
{
    match kind {
        ExtendedWaiting::Nothing => WAITING_NOTHING,
        ExtendedWaiting::Escape => WAITING_ESCAPE,
        ExtendedWaiting::Sequence => WAITING_SEQUENCE,
        ExtendedWaiting::Character => WAITING_CHARACTER,
        ExtendedWaiting::Paste => WAITING_PASTE,
        ExtendedWaiting::String => WAITING_STRING,
    }
}

/// The kind of what stays buffered, once all is told: 1 for ESC or ESC ESC, 2 for a longer beginning of a sequence, 3 for one of a character, 4
/// for an open paste, 5 for an open string, and 0 for nothing or if there is no parser.
#[unsafe(no_mangle)]
pub extern "C" fn hed_parser_waiting(parser: &mut ParserHandle) -> u32
    ensures same { parser.new.state ≡ parser.old.state }
    ensures kind { HasKind parser.old.state.held result }
{
    let Some(held) = parser.get_mut() else {
        return WAITING_NOTHING;
    };
    waiting_number(held.parser.waiting())
}
