//! The search for the place of a key among the rows of a key map, which are in ascending order of their keys.
ghost use Rattle.std.specs.Prelude.{◌≡◌, ◌↔◌, IsTrue, IfOk, IfErr};
ghost use Rattle.std.specs.Ordering.{nat_cmp};
ghost use Rattle.std.specs.Cmp.Lexicographic.{slice_cmp};
ghost use Rattle.std.specs.declared.cmp.Ordering.TheVariants.{Less};
ghost use Rattle.termwiz_keymap.specs.InBlocks.{AreFilled};
ghost use Rattle.termwiz_keymap.specs.KeyRows.{AgreeFor, AreAscending, IsAt, IsBounded, IsBegun, IsCountUpTo, IsGapFor, ShareFirst};

use super::blocks::{Block, Blocks};
use super::row::Row;

/// The place of the row with a key, or the place at which it would be inserted. The search looks at the place `near` first.
pub fn place_of<V>(rows: &Blocks<Row<V>>, key: &[u8], near: usize) -> Result<usize, usize>
    requires { AreAscending rows.now }
    ensures found { IfOk result (IsAt rows.now key.now) }
    ensures absent { IfErr result (IsGapFor rows.now key.now) }
{
    let count = count_up_to(rows, key, near);
    if count > 0 && rows[count - 1].key() == key {
        Ok(count - 1)
    } else {
        Err(count)
    }
}

/// How many rows have keys that aren't after this one, in the order of bytes: they come first. The search tries `near` first.
pub fn count_up_to<V>(rows: &Blocks<Row<V>>, key: &[u8], near: usize) -> usize
    requires { AreAscending rows.now }
    ensures { IsCountUpTo rows.now key.now result }
{
    if is_between(rows, key, near) {
        near
    } else {
        count_anywhere(rows, key)
    }
}

/// As `count_up_to`, of any key.
pub fn count_anywhere<V>(rows: &Blocks<Row<V>>, key: &[u8]) -> usize
    requires { AreAscending rows.now }
    ensures { IsCountUpTo rows.now key.now result }
{
    let (first, rest) = rows.parts();
    let begun = blocks_up_to(rest, key);
    if begun == 0 {
        return count_between(first, key, 0, first.len());
    }
    let block = &rest[begun - 1];
    block.start + count_between(&block.items, key, 0, block.items.len())
}

// How many blocks begin with a key that isn't after this one: they come first.
fn blocks_up_to<V>(blocks: &[Block<Row<V>>], key: &[u8]) -> usize
    requires { AreFilled blocks.now }
    ensures { IsBegun blocks.now key.now result }
{
    let (mut low, mut high) = (0, blocks.len());
    while low < high {
        let middle = low + (high - low) / 2;
        if is_behind(blocks[middle].items[0].key(), key) {
            high = middle;
        } else {
            low = middle + 1;
        }
    }
    low
}

// Whether a place is between the rows that aren't after the key and those that are.
fn is_between<V>(rows: &Blocks<Row<V>>, key: &[u8], place: usize) -> bool
    requires { AreAscending rows.now }
    ensures { IsTrue result → IsCountUpTo rows.now key.now place }
{
    let count = rows.len();
    if place > count {
        return false;
    }
    if place > 0 && is_behind(rows[place - 1].key(), key) {
        return false;
    }
    place == count || is_behind(rows[place].key(), key)
}

// Whether a key is after a text.
fn is_behind(key: &[u8], text: &[u8]) -> bool
    ensures { IsTrue result ↔ (slice_cmp nat_cmp text.now key.now ≡ Less) }
{
    is_after(key, text, shared_len(key, text, 0))
}

// As `count_up_to`, of rows in one block, where those before `low` are known to be not after the key, and those from `high` on to be after it.
//
// All rows between share as many first bytes with the key as the two rows beside them do, so those aren't compared again.
fn count_between<V>(rows: &[Row<V>], key: &[u8], mut low: usize, mut high: usize) -> usize
    requires ascending { AreAscending rows.now }
    requires bounded { IsBounded rows.now key.now low high }
    ensures { IsCountUpTo rows.now key.now result }
{
    let (mut low_shared, mut high_shared) = (0, 0);
    while low < high {
        let middle = low + (high - low) / 2;
        let other = rows[middle].key();
        let shared = shared_len(other, key, low_shared.min(high_shared));
        if is_after(other, key, shared) {
            high = middle;
            high_shared = shared;
        } else {
            low = middle + 1;
            low_shared = shared;
        }
    }
    low
}

/// How many first bytes a key and a text have in common, which is at least `known`.
pub fn shared_len(key: &[u8], text: &[u8], known: usize) -> usize
    requires { ShareFirst key.now text.now known }
    ensures { AgreeFor key.now text.now result }
{
    let shorter = key.len().min(text.len());
    for place in known..shorter {
        if key[place] != text[place] {
            return place;
        }
    }
    shorter
}

// Whether a key is after a text, with which it has so many first bytes in common.
fn is_after(key: &[u8], text: &[u8], shared: usize) -> bool
    requires { AgreeFor key.now text.now shared }
    ensures { IsTrue result ↔ (slice_cmp nat_cmp text.now key.now ≡ Less) }
{
    shared < key.len() && (shared == text.len() || key[shared] > text[shared])
}
