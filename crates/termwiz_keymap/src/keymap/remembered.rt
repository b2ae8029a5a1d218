//! Ranges that are remembered by the bytes that their keys begin with, so that a search needn't begin with all rows. They follow from
//! the rows alone, and any of them may be missing.
ghost use Rattle.std.specs.Prelude.{◌≡◌, ◌<◌, ◌≤◌, ◌^◌, length, take, IfOk, IfSome};
ghost use Rattle.termwiz_keymap.specs.KeyRows.{AreAscending};
ghost use Rattle.termwiz_keymap.specs.KeyRanges.{IsRangeOf};
ghost use Rattle.termwiz_keymap.specs.Remembering.{AreRemembered, IsFoundFor, IsAmongPlaces, number_of, range_in};

use super::blocks::Blocks;
use super::range::{Range, narrowed, whole};
use super::row::Row;
use std::alloc::{AllocError, Global};

/// A range, remembered by the number of so many first bytes of its keys. If `depth` is 0, nothing is remembered.
#[derive(Clone, Copy, Debug)]
pub struct Remembered {
    pub number: u64,
    pub depth: u16,
    pub low: u16,
    pub high: u16,
    pub longest: u16,
}

// At most so many first bytes have a remembered range.
const DEEPEST: usize = 8;

// A search begins with the range of so many first bytes, if it is remembered.
const FIRST: usize = 3;

// A range of `FIRST` bytes or more isn't parted further if it has at most so many rows.
const FEW: usize = 1;

// Within a range of more rows it is remembered too by which bytes none goes on.
const MANY: usize = 64;

// The number of places for ranges. Each range has two places, where others may stand.
const PLACES: usize = 8192;

// Below so many rows a place among them fits a remembered range.
const ROWS: usize = 0x1_0000;

// Nothing remembered.
const NOTHING: Remembered = Remembered {
    number: 0,
    depth: 0,
    low: 0,
    high: 0,
    longest: 0,
};

impl Remembered {
    /// The range.
    pub fn range(&self) -> Range
        ensures { result ≡ range_in self.now }
    {
        Range {
            low: self.low as usize,
            high: self.high as usize,
            longest: self.longest as usize,
        }
    }

    // The number of rows of the range.
    fn count(&self) -> usize {
        self.high.saturating_sub(self.low) as usize
    }

    // Whether a range of so many first bytes with so many rows may have the place of this one. A search begins with at most `FIRST`
    // bytes, so such ranges come before all others; and ranges of many rows before those of few.
    fn yields_to(&self, depth: usize, count: usize) -> bool {
        if self.depth == 0 {
            return true;
        }
        let is_first = self.depth as usize <= FIRST;
        if is_first == (depth <= FIRST) {
            self.count() < count
        } else {
            !is_first
        }
    }
}

// Some bytes as one number, of which the first byte is the most significant.
fn number_of(bytes: &[u8]) -> u64
    requires { length bytes.now ≤ DEEPEST }
    ensures { result ≡ number_of bytes.now }
{
    let mut number = 0;
    for byte in bytes {
        number = number * 256 + *byte as u64;
    }
    number
}

// The first place for the range of so many bytes with this number. The second is the other one of a pair.
fn place_of(number: u64, depth: u16) -> usize {
    let mixed = number
        .wrapping_add(depth as u64)
        .wrapping_mul(0x9e37_79b9_7f4a_7c15);
    (mixed >> 51) as usize % PLACES
}

// The other place of a pair.
fn other_of(place: usize) -> usize {
    place ^ 1
}

// What is remembered at a place, if it is for so many bytes with this number.
fn kept_at(places: &[Remembered], place: usize, number: u64, depth: u16) -> Option<&Remembered>
    ensures { IfSome result (λ found. IsAmongPlaces places.now number depth found.now) }
{
    let found = places.get(place)?;
    if found.number == number && found.depth == depth {
        Some(found)
    } else {
        None
    }
}

// What is remembered for so many bytes with this number.
fn found_at(places: &[Remembered], number: u64, depth: u16) -> Option<&Remembered>
    ensures { IfSome result (λ found. IsAmongPlaces places.now number depth found.now) }
{
    let place = place_of(number, depth);
    match kept_at(places, place, number, depth) {
        Some(found) => Some(found),
        None => kept_at(places, other_of(place), number, depth),
    }
}

/// The remembered range with which a search for a text begins: that of the most first bytes for which one is remembered, as far as each
/// of those before has many rows.
pub fn remembered_for<'a>(places: &'a [Remembered], text: &[u8]) -> Option<&'a Remembered>
    ensures { IfSome result (λ found. IsFoundFor places.now text.now found.now) }
{
    let found = first_found(places, text)?;
    Some(last_found(places, text, found))
}

// What is remembered for the first bytes of a text, which are at most `FIRST`.
fn first_found<'a>(places: &'a [Remembered], text: &[u8]) -> Option<&'a Remembered>
    ensures { IfSome result (λ found. IsFoundFor places.now text.now found.now) }
{
    let mut depth = text.len().min(FIRST);
    let mut number = number_of(&text[..depth]);
    while depth > 0 {
        let found = found_at(places, number, depth as u16);
        if found.is_some() {
            return found;
        }
        number /= 256;
        depth -= 1;
    }
    None
}

// What is remembered for more and more bytes of a text, until few rows are left or nothing is remembered.
fn last_found<'a>(
    places: &'a [Remembered],
    text: &[u8],
    mut found: &'a Remembered,
) -> &'a Remembered
    requires { IsFoundFor places.now text.now found.now }
    ensures { IsFoundFor places.now text.now result.now }
{
    while found.count() > FEW && (found.depth as usize) < text.len().min(DEEPEST) {
        let number = found.number * 256 + text[found.depth as usize] as u64;
        match found_at(places, number, found.depth + 1) {
            Some(next) => found = next,
            None => return found,
        }
    }
    found
}

/// Ranges of the rows, remembered in new memory. Of rows in many blocks none is.
pub fn remembered_ranges<V>(
    alloc: Global,
    rows: &Blocks<Row<V>>,
) -> Result<Vec<Remembered>, AllocError>
    requires { AreAscending rows.now }
    ensures { IfOk result (λ places. AreRemembered rows.now places.items) }
{
    let mut places = vec![in alloc; NOTHING; PLACES]?;
    let Some(rows) = rows.in_one() else {
        return Ok(places);
    };
    if rows.len() >= ROWS {
        return Ok(places);
    }
    remember_within(rows, &mut places, whole(rows), &[], 0);
    Ok(places)
}

// Remembers the ranges within the range of so many first bytes of a text: each by its next byte.
fn remember_within<V>(
    rows: &[Row<V>],
    places: &mut [Remembered],
    range: Range,
    text: &[u8],
    depth: usize,
)
    requires ascending { AreAscending rows.now }
    requires few { length rows.now < 2 ^ 16 }
    requires inside { depth ≤ length text.now }
    requires deep { depth ≤ DEEPEST }
    requires first { IsRangeOf rows.now (take depth text.now) range }
    requires remembered { AreRemembered rows.now places.old }
    ensures { AreRemembered rows.now places.new }
{
    if depth == DEEPEST || (depth >= FIRST && range.count() <= FEW) {
        return;
    }
    remember_printable(rows, places, range, text, depth);
    let mut low = range.low;
    while low < range.high {
        let key = rows[low].key();
        let next = narrowed(rows, range, key, depth);
        remember(rows, places, next, key, depth + 1);
        remember_within(rows, places, next, key, depth + 1);
        low = next.high.max(low + 1);
    }
}

// So many first bytes of a text, and a byte after them.
fn with_byte(text: &[u8], depth: usize, byte: u8) -> [u8; FIRST]
    requires inside { depth ≤ length text.now }
    requires first { depth < FIRST }
    ensures { take depth result ≡ take depth text.now }
{
    let mut bytes = [byte; FIRST];
    bytes[..depth].copy_from_slice(&text[..depth]);
    bytes
}

// Where a short text's range has many rows, remembers the ranges within it by each printable byte, also where no row has that.
fn remember_printable<V>(
    rows: &[Row<V>],
    places: &mut [Remembered],
    range: Range,
    text: &[u8],
    depth: usize,
)
    requires ascending { AreAscending rows.now }
    requires few { length rows.now < 2 ^ 16 }
    requires inside { depth ≤ length text.now }
    requires first { IsRangeOf rows.now (take depth text.now) range }
    requires remembered { AreRemembered rows.now places.old }
    ensures { AreRemembered rows.now places.new }
{
    if depth >= FIRST || range.count() <= MANY {
        return;
    }
    for byte in b' '..b'\x7f' {
        let bytes = with_byte(text, depth, byte);
        let next = narrowed(rows, range, &bytes, depth);
        remember(rows, places, next, &bytes, depth + 1);
    }
}

// Whether nothing is remembered at a place.
fn is_free(places: &[Remembered], place: usize) -> bool {
    match places.get(place) {
        Some(found) => found.depth == 0,
        None => false,
    }
}

// The place at which the range of so many bytes with this number is to be remembered: its second one only where the first is taken.
fn free_place_of(places: &[Remembered], number: u64, depth: u16) -> usize {
    let place = place_of(number, depth);
    if !is_free(places, place) && is_free(places, other_of(place)) {
        other_of(place)
    } else {
        place
    }
}

// Remembers the range of so many first bytes of a text, unless its places have others that don't yield to it.
fn remember<V>(rows: &[Row<V>], places: &mut [Remembered], range: Range, text: &[u8], depth: usize)
    requires few { length rows.now < 2 ^ 16 }
    requires inside { depth ≤ length text.now }
    requires deep { depth ≤ DEEPEST }
    requires ordered { range.low ≤ range.high }
    requires first { IsRangeOf rows.now (take depth text.now) range }
    requires remembered { AreRemembered rows.now places.old }
    ensures { AreRemembered rows.now places.new }
{
    let number = number_of(&text[..depth]);
    if found_at(places, number, depth as u16).is_some() {
        return;
    }
    let place = free_place_of(places, number, depth as u16);
    if place < places.len() && places[place].yields_to(depth, range.count()) {
        places[place] = Remembered {
            number,
            depth: depth as u16,
            low: range.low as u16,
            high: range.high as u16,
            longest: range.longest.min(rows.len()) as u16,
        };
    }
}
