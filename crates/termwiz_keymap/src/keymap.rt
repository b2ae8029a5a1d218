//! A map from byte strings to values. A lookup finds the longest key that is a prefix of a text, and
//! tells whether a longer key may still follow, as a reader of key sequences asks.
ghost use Rattle.std.specs.Prelude.{◌≡◌, ◌↔◌, IsTrue, IfOk, IfSome, IfNone, OnOk, OnErr};
ghost use Rattle.std.specs.FinMap as map;

mod blocks;
mod range;
mod remembered;
mod row;
mod search;
mod text_range;
mod text_search;

use blocks::Blocks;
use remembered::{Remembered, remembered_ranges};
use row::{Row, copied, new_row};
use search::place_of;
use std::alloc::{AllocError, Global};
use std::fmt::Debug;
use std::marker::Model;
use std::ops::Range;
use text_search::{extensions_of, found_for};

/// The answer of [`KeyMap::lookup`].
#[derive(Clone, PartialEq, Eq, Debug, Drop)]
pub enum Found<Value> {
    /// No key is a prefix of the text, and the text is a prefix of no key.
    None,
    /// The length in bytes and the value of the longest key that is a prefix of the text.
    Exact(usize, Value),
    /// As `Exact`, but more of the text may follow, and the text is a prefix of a longer key too.
    Ambiguous(usize, Value),
    /// No key is a prefix of the text, but the text is a prefix of some key.
    NeedData,
}

/// A finite map from byte strings to values: one list of rows, whose keys strictly ascend in the order of
/// their bytes.
#[derive(Debug, Drop)]
pub struct KeyMap<V: Debug + Clone + Drop> {
    rows: Blocks<Row<V>>,
    // Remembered ranges of these rows. They follow from the rows, and say nothing more of the map.
    places: Vec<Remembered>,
    alloc: Global,
}

impl<V: Debug + Clone + Drop> Model for KeyMap<V> {
    ghost use Rattle.std.specs.Ordering.{nat_cmp};
    ghost use Rattle.std.specs.Cmp.Lexicographic.{slice_cmp};
    ghost use Rattle.std.specs.FinMap as map;
    ghost use Rattle.std.specs.Coded.{coded_ℕ, coded_list};
    ghost use Rattle.termwiz_keymap.specs.KeyRows.{row_entries};
    ghost use Rattle.termwiz_keymap.specs.Remembering.{AreSearchable};

    ghost Value = { map.FinMap (slice_cmp nat_cmp) V };

    ghost coded = { map.code (coded_list coded_ℕ) V.code };

    ghost view = { λ m. map.from_entries (row_entries m.rows) };

    ghost invariant = { λ m. AreSearchable m.rows m.places.items };
}

impl<V: Debug + Clone + Drop> KeyMap<V> {
    ghost use Rattle.std.specs.Prelude.{◌<◌, ◌≤◌};
    ghost use Rattle.termwiz_keymap.specs.KeysInOrder.{AreExtensions, IsEntryAt};
    ghost use Rattle.termwiz_keymap.specs.Lookup.{ClonesEqual, IsClone, IsExtended, IsLongestKey, LookupGives, NoKeyBegins, found_copied};

    /// An empty map. Takes no memory; later calls take theirs from `alloc`.
    pub fn new(alloc: Global) -> KeyMap<V>
        ensures { result ≡ map.empty }
    {
        KeyMap {
            rows: Blocks::from_vec(alloc, Vec::new(alloc)),
            places: Vec::new(alloc),
            alloc,
        }
    }

    /// Sets the value of a key, in place of the one that it has, if any. Every other key keeps its
    /// value. The empty key is a key like any other.
    ///
    /// Fails only if memory is refused; the map is then unchanged, and `value` is dropped.
    #[tactic(auto, using(crate::proofs::lemmas::rows::KeysInRows::row_inserted, crate::proofs::lemmas::rows::KeysInRows::row_replaced, crate::proofs::lemmas::rows::RememberedRanges::searchable_set, crate::proofs::lemmas::rows::RememberedRanges::searchable_inserted))]
    pub fn insert(&mut self, key: &[u8], value: V) -> Result<(), AllocError>
        ensures ok { OnOk result (self.new ≡ map.insert self.old key.now value) }
        ensures err { OnErr result (self.new ≡ self.old) }
    {
        let row = new_row(self.alloc, key, value)?;
        self.places.clear();
        match place_of(&self.rows, key, self.rows.near()) {
            Ok(place) => {
                self.rows.set(place, row);
                Ok(())
            }
            Err(place) => self.rows.insert(place, row),
        }
    }

    /// Takes a key out of the map and returns its value, or `None` if the map doesn't have the key. Every other key keeps its value.
    /// Takes no memory.
    pub fn remove(&mut self, key: &[u8]) -> Option<V>
        ensures value { result ≡ map.get self.old key.now }
        ensures others { self.new ≡ map.remove self.old key.now }
    {
        match place_of(&self.rows, key, self.rows.near()) {
            Ok(place) => {
                self.places.clear();
                let row = self.rows.remove(place);
                Some(row.into_value())
            }
            Err(_) => None,
        }
    }

    /// The number of keys. The empty key counts like any other.
    #[tactic(auto, using(crate::proofs::lemmas::rows::KeysInRows::counted))]
    pub fn len(&self) -> usize
        ensures { result ≡ map.len self.now }
    {
        self.rows.len()
    }

    /// The key at a place in the order of the keys' bytes, and its value; `None` from [`KeyMap::len`] on. The first place is 0.
    #[tactic(auto, using(crate::proofs::lemmas::rows::RowPlaces::as_many))]
    pub fn get_index(&self, index: usize) -> Option<(&[u8], &V)>
        ensures entry { IfSome result (λ entry. IsEntryAt self.now index entry.0.now entry.1.now) }
        ensures none { IfNone result (map.len self.now ≤ index) }
    {
        if index < self.rows.len() {
            let row = &self.rows[index];
            Some((row.key(), &row.value))
        } else {
            None
        }
    }

    /// The places of the keys that begin with a text and are longer, as [`KeyMap::get_index`] has them. The range is empty if there are
    /// none.
    pub fn extensions(&self, text: &[u8]) -> Range<usize>
        ensures keys { AreExtensions self.now text.now result.start result.end }
        ensures some { (result.start < result.end) ↔ IsExtended self.now text.now }
    {
        let (low, high) = extensions_of(&self.rows, &self.places, text);
        low.min(high)..high
    }

    /// Asks once for the memory of so many keys more, so that inserts needn't ask for it again and again. It is that of 512 keys at most:
    /// more of them take memory for every 512, and a long key takes memory of its own. The map stays the same. Fails only if memory is
    /// refused.
    pub fn reserve(&mut self, additional: usize) -> Result<(), AllocError>
        ensures { self.new ≡ self.old }
    {
        self.rows.reserve(additional)
    }

    /// Remembers ranges of keys that begin with the same bytes, so that lookups are quicker. It is there for speed alone: the map
    /// stays the same, and so do all answers. Fails only if memory is refused; it then remembers no more than before.
    ///
    /// Call it after the last insert, since each insert forgets what is remembered. A clone remembers nothing.
    pub fn remember(&mut self) -> Result<(), AllocError>
        ensures { self.new ≡ self.old }
    {
        self.rows.close()?;
        self.places = remembered_ranges(self.alloc, &self.rows)?;
        Ok(())
    }

    /// Finds the longest key that is a prefix of the text `key`. Pass true for `maybe_more` if more
    /// of the text may follow: the answer is then `Ambiguous` if a longer key is still possible, and
    /// an `Exact` answer holds however the text goes on. Takes no memory.
    ///
    /// This is the rule in the documentation of termwiz's `KeyMap::lookup`, with all keys taken into
    /// account: `NeedData` and `Ambiguous` are given only if some key begins with the whole text and
    /// is longer.
    pub fn lookup(&self, key: &[u8], maybe_more: bool) -> Found<&V>
        ensures { LookupGives self.now key.now maybe_more (found_copied result) }
    {
        let (longest, extended) = self.walk(key);
        match longest {
            Some((len, value)) if extended && maybe_more => Found::Ambiguous(len, value),
            Some((len, value)) => Found::Exact(len, value),
            None if extended => Found::NeedData,
            None => Found::None,
        }
    }

    // The length and the value of the longest key that is a prefix of a text, and whether some key begins
    // with the whole text and is longer.
    fn walk(&self, text: &[u8]) -> (Option<(usize, &V)>, bool)
        ensures longest { IfSome result.0 (λ found. IsLongestKey self.now text.now found.0 found.1.now) }
        ensures none { IfNone result.0 (NoKeyBegins self.now text.now) }
        ensures extended { IsTrue result.1 ↔ IsExtended self.now text.now }
    {
        let (longest, extended) = found_for(&self.rows, &self.places, text);
        if longest < self.rows.len() {
            let row = &self.rows[longest];
            (Some((row.key().len(), &row.value)), extended)
        } else {
            (None, extended)
        }
    }

    /// A map with the same keys and with a clone of each value. If clones of the values equal them,
    /// it is the same map.
    ///
    /// Takes memory from the allocator of this map. Fails only if memory is refused or if the clone
    /// of a value fails.
    #[tactic(auto, using(crate::proofs::lemmas::rows::ClonedRows::map_cloned, crate::proofs::lemmas::rows::ClonedRows::map_same))]
    pub fn clone(&self) -> Result<KeyMap<V>, AllocError>
        ensures cloned { IfOk result (IsClone V.is_clone self.now) }
        ensures same { ClonesEqual V.is_clone → IfOk result (λ copy. copy ≡ self.now) }
    {
        Ok(KeyMap {
            rows: Blocks::from_vec(self.alloc, copied(self.alloc, &self.rows)?),
            places: Vec::new(self.alloc),
            alloc: self.alloc,
        })
    }
}
