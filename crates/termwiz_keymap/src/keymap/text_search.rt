//! The search for a whole text among the rows of a key map, which are in ascending order of their keys.
ghost use Rattle.std.specs.Prelude.{◌≡◌, ◌↔◌, IsTrue};
ghost use Rattle.termwiz_keymap.specs.KeyRows.{AreAscending, IsCountUpTo};
ghost use Rattle.termwiz_keymap.specs.KeyRanges.{AreGoingOn, IsLongest, SomeGoesOn};
ghost use Rattle.termwiz_keymap.specs.Remembering.{AreRemembered};

use super::blocks::Blocks;
use super::remembered::Remembered;
use super::row::Row;
use super::search::{count_anywhere, count_up_to, shared_len};
use super::text_range::range_of;

/// The place of the longest key that begins a text, or one behind all rows if there is none; and whether some key begins with the text
/// and is longer. Where ranges of rows in one block are remembered, the text's range tells both.
pub fn found_for<V>(rows: &Blocks<Row<V>>, places: &[Remembered], text: &[u8]) -> (usize, bool)
    requires ascending { AreAscending rows.now }
    requires remembered { AreRemembered rows.now places.now }
    ensures longest { IsLongest rows.now text.now result.0 }
    ensures goes_on { IsTrue result.1 ↔ SomeGoesOn rows.now text.now }
{
    match rows.in_one() {
        Some(rows) if !places.is_empty() => {
            let range = range_of(rows, places, text);
            (range.longest, range.low < range.high)
        }
        _ => {
            let count = count_anywhere(rows, text);
            (
                longest_of(rows, text, count),
                is_going_on(rows, text, count),
            )
        }
    }
}

/// The places of the rows whose keys begin with a text and are longer: from the first up to but not including the second.
pub fn extensions_of<V>(rows: &Blocks<Row<V>>, places: &[Remembered], text: &[u8]) -> (usize, usize)
    requires ascending { AreAscending rows.now }
    requires remembered { AreRemembered rows.now places.now }
    ensures { AreGoingOn rows.now text.now result.0 result.1 }
{
    match rows.in_one() {
        Some(rows) => {
            let range = range_of(rows, places, text);
            (range.low, range.high)
        }
        None => {
            let low = count_anywhere(rows, text);
            (low, end_of(rows, text, low))
        }
    }
}

// The place behind the last row whose key begins with a text. Those that do begin at `low`, if there are some.
fn end_of<V>(rows: &Blocks<Row<V>>, text: &[u8], mut low: usize) -> usize
    requires ascending { AreAscending rows.now }
    requires counted { IsCountUpTo rows.now text.now low }
    ensures { AreGoingOn rows.now text.now low result }
{
    let mut high = rows.len();
    while low < high {
        let middle = low + (high - low) / 2;
        if shared_len(rows[middle].key(), text, 0) == text.len() {
            low = middle + 1;
        } else {
            high = middle;
        }
    }
    high
}

// Whether some key begins with the text and is longer. If so, the first key after the text does.
fn is_going_on<V>(rows: &Blocks<Row<V>>, text: &[u8], count: usize) -> bool
    requires ascending { AreAscending rows.now }
    requires counted { IsCountUpTo rows.now text.now count }
    ensures { IsTrue result ↔ SomeGoesOn rows.now text.now }
{
    if count >= rows.len() {
        return false;
    }
    shared_len(rows[count].key(), text, 0) == text.len()
}

// The place of the longest key that begins a text, or one behind all rows. It is the last one that isn't after the text, if that begins
// it; else no longer key does than the bytes that the two share.
fn longest_of<V>(rows: &Blocks<Row<V>>, text: &[u8], mut count: usize) -> usize
    requires ascending { AreAscending rows.now }
    requires counted { IsCountUpTo rows.now text.now count }
    ensures { IsLongest rows.now text.now result }
{
    let mut len = text.len();
    while count > 0 {
        let key = rows[count - 1].key();
        let shared = shared_len(key, text, 0);
        if shared == key.len() {
            return count - 1;
        }
        len = shared;
        count = count_up_to(rows, &text[..len], 0);
    }
    rows.len()
}
