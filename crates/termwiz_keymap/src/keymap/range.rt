//! Ranges of rows whose keys begin with the same bytes. The rows are in ascending order of their keys, so such rows stand together,
//! and binary search narrows a range by each next byte.
ghost use Rattle.std.specs.Prelude.{◌≡◌, ◌+◌, ◌-◌, ◌<◌, ◌≤◌, [], length, take};
ghost use Rattle.termwiz_keymap.specs.KeyRows.{AreAscending};
ghost use Rattle.termwiz_keymap.specs.KeyRanges.{AreRising, IsFirstFrom, IsRangeOf};

use super::row::Row;

/// The range of some bytes: the rows from `low` up to but not including `high`, which are those whose keys begin with these bytes
/// and are longer, and the row at `longest`, whose key is the longest that begins these bytes. If no key does, no row is there.
#[derive(Clone, Copy, Debug)]
pub struct Range {
    pub low: usize,
    pub high: usize,
    pub longest: usize,
}

impl Range {
    /// The number of rows.
    pub fn count(&self) -> usize
        ensures { result ≡ self.now.high - self.now.low }
    {
        self.high.saturating_sub(self.low)
    }
}

/// The range of the empty text.
pub fn whole<V>(rows: &[Row<V>]) -> Range
    requires { AreAscending rows.now }
    ensures { IsRangeOf rows.now [] result }
{
    let count = rows.len();
    if count > 0 && rows[0].key().is_empty() {
        Range {
            low: 1,
            high: count,
            longest: 0,
        }
    } else {
        Range {
            low: 0,
            high: count,
            longest: count,
        }
    }
}

/// The range of one byte more of a text, from the range of so many first bytes of it. If a key is as long as the new depth, its row is
/// the first of those with the byte.
pub fn narrowed<V>(rows: &[Row<V>], range: Range, text: &[u8], depth: usize) -> Range
    requires ascending { AreAscending rows.now }
    requires inside { depth < length text.now }
    requires ordered { range.low ≤ range.high }
    requires first { IsRangeOf rows.now (take depth text.now) range }
    ensures ordered { result.low ≤ result.high }
    ensures range { IsRangeOf rows.now (take (depth + 1) text.now) result }
{
    let byte = text[depth] as usize;
    let low = first_of(rows, depth, byte, range.low, range.high);
    // Where the first byte that isn't smaller is another, no row has this one.
    if low == range.high || rows[low].byte(depth) as usize != byte {
        return Range {
            low,
            high: low,
            longest: range.longest,
        };
    }
    let high = first_from(rows, depth, byte + 1, low + 1, range.high);
    if rows[low].key().len() == depth + 1 {
        Range {
            low: low + 1,
            high,
            longest: low,
        }
    } else {
        Range {
            low,
            high,
            longest: range.longest,
        }
    }
}

// As `first_from`. Where each byte from the first on has one row, the place is as far ahead as the limit is above the first byte: it
// is tried before the search.
fn first_of<V>(rows: &[Row<V>], depth: usize, limit: usize, low: usize, high: usize) -> usize
    requires ordered { low ≤ high }
    requires rising { AreRising rows.now depth low high }
    ensures { IsFirstFrom rows.now depth limit low high result }
{
    if low < high {
        let ahead = limit.saturating_sub(rows[low].byte(depth) as usize);
        if ahead > 0
            && ahead < high - low
            && rows[low + ahead].byte(depth) as usize >= limit
            && (rows[low + ahead - 1].byte(depth) as usize) < limit
        {
            return low + ahead;
        }
    }
    first_from(rows, depth, limit, low, high)
}

// The first place of a range at which the byte of the key at a depth isn't below the limit, or the range's end.
fn first_from<V>(
    rows: &[Row<V>],
    depth: usize,
    limit: usize,
    mut low: usize,
    mut high: usize,
) -> usize
    requires ordered { low ≤ high }
    requires rising { AreRising rows.now depth low high }
    ensures { IsFirstFrom rows.now depth limit low high result }
{
    // For a byte below all of the range's, and for the end of a byte that has one row, it is the first.
    if low < high && rows[low].byte(depth) as usize >= limit {
        return low;
    }
    while low < high {
        let middle = low + (high - low) / 2;
        if (rows[middle].byte(depth) as usize) < limit {
            low = middle + 1;
        } else {
            high = middle;
        }
    }
    low
}
