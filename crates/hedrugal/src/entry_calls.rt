// The calls that show the sequence table.
ghost use Rattle.std.specs.Prelude.{◌≡◌, ◌≢◌, ◌↔◌, ◌⊎◌, ℕ, List, length, None};
ghost use Rattle.termwiz_input.specs.KeyEvent.{KeyEvent};
ghost use Rattle.termwiz_grammar.specs.RowsInOrder.{IsRowAt};
ghost use Rattle.termwiz_extended_events.specs.declared.types.Event.TheVariants.{Key};
ghost use Rattle.termwiz_extended_events.specs.PortEvents.{pressed_key};
ghost use Rattle.hedrugal.specs.Calls.{copied};
ghost use Rattle.hedrugal.specs.Events.{c_event};
ghost use Rattle.hedrugal.specs.EntryCalls.{AreToComplete, IsNoRow};

use crate::events::CEvent;
use crate::handles::ParserHandle;
use crate::status::{NOT_INITIALIZED, OK};
use std::alloc::Global;

/// `hed_entries`: some rows of the sequence table, one after another.
#[repr(C)]
#[derive(Clone, Copy)]
pub struct CEntries {
    /// The place of the first.
    pub first: usize,
    /// How many there are.
    pub count: usize,
    /// Whether their keys get ALT.
    pub with_alt: bool,
}

/// Copies the bytes of the row of the sequence table at a place, as many of them as `bytes` has room for, sets `event` to its key, and
/// returns how many bytes the row has. From the number of rows on, or if there is no parser, the answer is 0 and nothing changes.
#[unsafe(no_mangle)]
pub extern "C" fn hed_parser_entry(
    alloc: Global,
    parser: &mut ParserHandle,
    place: usize,
    bytes: &mut [u8],
    event: &mut CEvent,
) -> usize
    ensures same { parser.new.state ≡ parser.old.state }
    ensures len { (row : List ℕ) (key : KeyEvent) → parser.old.state.held ≢ None → IsRowAt place row key → result ≡ length row }
    ensures bytes { (row : List ℕ) (key : KeyEvent) → parser.old.state.held ≢ None → IsRowAt place row key
        → bytes.new ≡ copied row bytes.old }
    ensures event { (row : List ℕ) (key : KeyEvent) → parser.old.state.held ≢ None → IsRowAt place row key
        → event.new ≡ c_event (Key (pressed_key key)) }
    ensures none { IsNoRow parser.old.state.held place → result ≡ 0 }
    ensures bytes_same { IsNoRow parser.old.state.held place → bytes.new ≡ bytes.old }
    ensures event_same { IsNoRow parser.old.state.held place → event.new ≡ event.old }
{
    let Some(held) = parser.get_mut() else {
        return 0;
    };
    held.copy_row(alloc, place, bytes, event)
}

/// Tells which rows would complete what is buffered: those that begin with it and are longer. If there are none, those that begin with
/// what follows its ESC, and their keys get ALT. Only the start of a paste gets none: it opens a paste, and the ESC before it is the Escape
/// key.
#[unsafe(no_mangle)]
pub extern "C" fn hed_parser_completions(parser: &mut ParserHandle, rows: &mut CEntries) -> u32
    ensures answers { (result ≡ OK) ⊎ (result ≡ NOT_INITIALIZED) }
    ensures some { result ≡ OK → AreToComplete parser.old.state.held rows.new }
    ensures no_parser { result ≡ NOT_INITIALIZED ↔ (parser.old.state.held ≡ None) }
    ensures rows_same { result ≢ OK → rows.new ≡ rows.old }
    ensures same { parser.new.state ≡ parser.old.state }
{
    let Some(held) = parser.get_mut() else {
        return NOT_INITIALIZED;
    };
    *rows = held.completions();
    OK
}
