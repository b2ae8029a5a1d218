//! The search for the range of a whole text.
ghost use Rattle.std.specs.Prelude.{◌≡◌, ◌+◌, ◌≤◌, length, take};
ghost use Rattle.termwiz_keymap.specs.KeyRows.{AreAscending};
ghost use Rattle.termwiz_keymap.specs.KeyRanges.{IsRangeOf};
ghost use Rattle.termwiz_keymap.specs.Remembering.{AreRemembered};

use super::range::{Range, narrowed, whole};
use super::remembered::{Remembered, remembered_for};
use super::row::Row;
use super::search::shared_len;

/// The range of a text. It is narrowed byte by byte, from a remembered range or that of the empty text. Where no row is left, or one,
/// the search ends.
pub fn range_of<V>(rows: &[Row<V>], places: &[Remembered], text: &[u8]) -> Range
    requires ascending { AreAscending rows.now }
    requires remembered { AreRemembered rows.now places.now }
    ensures { IsRangeOf rows.now text.now result }
{
    let (mut range, mut depth) = first_range(rows, places, text);
    while depth < text.len() && range.low < range.high {
        if range.low + 1 == range.high {
            return of_last_row(rows, range, text, depth);
        }
        range = narrowed(rows, range, text, depth);
        depth += 1;
    }
    range
}

// The range with which a search begins, and of how many first bytes of the text it is.
fn first_range<V>(rows: &[Row<V>], places: &[Remembered], text: &[u8]) -> (Range, usize)
    requires ascending { AreAscending rows.now }
    requires remembered { AreRemembered rows.now places.now }
    ensures inside { result.1 ≤ length text.now }
    ensures range { IsRangeOf rows.now (take result.1 text.now) result.0 }
{
    match remembered_for(places, text) {
        Some(found) => (found.range(), found.depth as usize),
        None => (whole(rows), 0),
    }
}

// The range of a text, from the range of so many first bytes of it, in which one row is left: its key is compared at once.
fn of_last_row<V>(rows: &[Row<V>], range: Range, text: &[u8], depth: usize) -> Range
    requires one { range.low + 1 ≡ range.high }
    requires inside { depth ≤ length text.now }
    requires first { IsRangeOf rows.now (take depth text.now) range }
    ensures { IsRangeOf rows.now text.now result }
{
    let key = rows[range.low].key();
    let shared = shared_len(key, text, depth);
    if shared == key.len() {
        Range {
            low: range.high,
            high: range.high,
            longest: range.low,
        }
    } else if shared == text.len() {
        range
    } else {
        Range {
            low: range.high,
            high: range.high,
            longest: range.longest,
        }
    }
}
