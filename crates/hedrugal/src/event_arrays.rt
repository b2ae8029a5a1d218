// The call that writes events to an array, and their bytes to one place.
ghost use Rattle.std.specs.Prelude.{◌≡◌, ◌≢◌, ◌≤◌, ◌↔◌, ◌⊎◌, true, false, None, Ok, OnErr};
ghost use Rattle.termwiz_timed.specs.Steps.{Step};
ghost use Rattle.termwiz_timed.specs.Steps.Call.{AllTold};
ghost use Rattle.hedrugal.specs.Calls.{MeetsMemory};
ghost use Rattle.hedrugal.specs.EventArrays.{TookWithBytes, WritesOn, Wrote, WroteEvents};

use crate::copying::copy_prefix;
use crate::events::{CEvent, KEY_CHAR};
use crate::handles::ParserHandle;
use crate::parser_and_text::ParserAndText;
use crate::status::{NO_MEMORY, NONE, NOT_INITIALIZED, OK};
use std::alloc::AllocError;

// Tells the next event, as C has it, and copies as many of its bytes as `room` has room for. The answer is false if all is told.
#[inline(always)]
fn tell(held: &mut ParserAndText, shown: &mut CEvent, room: &mut [u8]) -> Result<bool, AllocError>
    ensures told { result ≡ Ok true → TookWithBytes held.old shown.new room.old room.new held.new }
    ensures all_told { result ≡ Ok false → Step held.old.parser AllTold held.new.parser }
    ensures none_text { result ≡ Ok false → held.new.text ≡ held.old.text }
    ensures none_shown { result ≡ Ok false → shown.new ≡ shown.old }
    ensures none_room { result ≡ Ok false → room.new ≡ room.old }
    ensures refused { OnErr result (MeetsMemory held.old.parser) }
    ensures refused_same { OnErr result (held.new ≡ held.old) }
    ensures refused_shown { OnErr result (shown.new ≡ shown.old) }
    ensures refused_room { OnErr result (room.new ≡ room.old) }
{
    if !held.next(shown)? {
        return Ok(false);
    }
    if shown.text_len > 0 {
        copy_prefix(held.text.as_slice(), room);
    }
    Ok(true)
}

// Writes the keys of the characters that come first to the array, from its place `count` on.
#[inline(always)]
fn write_characters(held: &mut ParserAndText, events: &mut [CEvent], count: &mut usize)
    ensures written { WritesOn held.old count.old events.old held.new count.new events.new }
    ensures count { count.old ≤ count.new }
{
    while *count < events.len() {
        if !held.next_character(&mut events[*count]) {
            return;
        }
        *count += 1;
    }
}

// Writes events to the array, and their bytes one after another to `room`, up to the first event whose bytes don't fit.
fn write_events(
    held: &mut ParserAndText,
    events: &mut [CEvent],
    room: &mut [u8],
    count: &mut usize,
) -> u32
    ensures answers { result ≤ 2 }
    ensures written { WroteEvents held.old events.old events.new room.old room.new count.new result held.new }
{
    *count = 0;
    let mut used = 0;
    while *count < events.len() {
        let left = room.len() - used;
        let shown = &mut events[*count];
        match tell(held, shown, &mut room[used..]) {
            Ok(true) => {
                *count += 1;
                if shown.text_len > 0 {
                    if shown.text_len > left {
                        return OK;
                    }
                    used += shown.text_len;
                }
                // Text is typed in runs.
                if shown.key == KEY_CHAR {
                    write_characters(held, events, count);
                }
            }
            Ok(false) => return NONE,
            Err(_) => return NO_MEMORY,
        }
    }
    OK
}

/// Tells events, one after another, and writes them to `events` and the bytes of these, one after another, to `text`. It stops once all is told,
/// where memory is refused, where `events` is full, and after an event whose bytes don't all fit: so only those of the last event may be cut
/// off. `count` is how many events were written.
#[unsafe(no_mangle)]
pub extern "C" fn hed_parser_next_events(
    parser: &mut ParserHandle,
    events: &mut [CEvent],
    text: &mut [u8],
    count: &mut usize,
) -> u32
    ensures answers { (result ≤ 2) ⊎ (result ≡ NOT_INITIALIZED) }
    ensures written { result ≢ NOT_INITIALIZED
        → Wrote parser.old.state.held events.old events.new text.old text.new count.new result parser.new.state.held }
    ensures no_parser { result ≡ NOT_INITIALIZED ↔ (parser.old.state.held ≡ None) }
    ensures no_parser_same { result ≡ NOT_INITIALIZED → parser.new.state.held ≡ None }
    ensures no_parser_events { result ≡ NOT_INITIALIZED → events.new ≡ events.old }
    ensures no_parser_text { result ≡ NOT_INITIALIZED → text.new ≡ text.old }
    ensures no_parser_count { result ≡ NOT_INITIALIZED → count.new ≡ 0 }
{
    let Some(held) = parser.get_mut() else {
        *count = 0;
        return NOT_INITIALIZED;
    };
    write_events(held, events, text, count)
}
