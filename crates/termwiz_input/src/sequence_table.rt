//! The sequence table, whose rows are found by their bytes and by their keys.
ghost use Rattle.std.specs.Prelude.{◌≡◌, ◌+◌, ◌<◌, ◌≤◌, ◌^◌, ◌↔◌, ℕ, List, IfOk, IsTrue};
ghost use Rattle.std.specs.FinMap as map;
ghost use Rattle.termwiz_keys.specs.declared.types.KeyEvent.{KeyEvent};
ghost use Rattle.termwiz_grammar.specs.RowsInOrder.{IsRowAt};
ghost use Rattle.termwiz_grammar.specs.Table.{table};
ghost use Rattle.termwiz_input.specs.KeyBuckets.{AreFirst, AreNext, IsOfBucket, bucket_of, code_of};
ghost use Rattle.termwiz_input.specs.KeyPlaces.{IsNextPlaceOf};

use std::alloc::{AllocError, Global};
use std::marker::Model;
use termwiz_base::Flags;
use termwiz_keymap::keymap::KeyMap;
use termwiz_keys::laws::equality;
use termwiz_keys::types::{KeyCode, KeyEvent};
use termwiz_table::add_rows;

// How many buckets the keys are parted into.
const BUCKETS: usize = 256;

// A number of a key code.
fn code_of(code: &KeyCode) -> u32
    ensures code { result ≡ code_of code.now }
    ensures few { result < 2 ^ 21 }
{
    match *code {
        KeyCode::Char(character) => u32::from(character),
        KeyCode::Function(number) => 128 + u32::from(number),
        _ => 0,
    }
}

// The bucket of a key.
#[tactic(auto, unfolding(crate::specs::KeyBuckets::bucket_of))]
fn bucket_of(key: &KeyEvent) -> usize
    ensures bucket { result ≡ bucket_of key.now }
    ensures inside { result < BUCKETS }
{
    let number = code_of(&key.key) + 16 * u32::from(key.modifiers.bits());
    number as usize % BUCKETS
}

// Whether two keys are the same.
fn is_same(key: &KeyEvent, other: &KeyEvent) -> bool
    ensures { IsTrue result ↔ (key.now ≡ other.now) }
{
    equality();
    key == other
}

// The sequence table in a key map.
#[tactic(auto, unfolding(termwiz_grammar::specs::Table::table))]
fn key_map(alloc: Global) -> Result<KeyMap<KeyEvent>, AllocError>
    ensures { IfOk result (λ m. m ≡ table) }
{
    let mut key_map = KeyMap::new(alloc);
    add_rows(alloc, &mut key_map)?;
    key_map.remember()?;
    Ok(key_map)
}

// The places of the rows, as a chain for each bucket of keys.
#[derive(Debug, Drop)]
struct Places {
    // The first place of each bucket, or the number of rows.
    first: Vec<u16>,
    // For each row the next place of its key's bucket, or the number of rows.
    next: Vec<u16>,
}

// The chains of the sequence table, made from its last row to its first.
fn places_of(alloc: Global, key_map: &KeyMap<KeyEvent>) -> Result<Places, AllocError>
    requires { key_map.now ≡ table }
    ensures first { IfOk result (λ places. AreFirst 0 places.first.items) }
    ensures next { IfOk result (λ places. AreNext 0 places.next.items) }
{
    let count = key_map.len();
    let mut first = vec![in alloc; count as u16; BUCKETS]?;
    let mut next = vec![in alloc; count as u16; count]?;
    let mut place = count;
    while place > 0 {
        place -= 1;
        if let Some((_, key)) = key_map.get_index(place) {
            let bucket = bucket_of(key);
            next[place] = first[bucket];
            first[bucket] = place as u16;
        }
    }
    Ok(Places { first, next })
}

/// The sequence table. Its rows are found by their bytes and by their keys.
#[derive(Debug, Drop)]
pub struct SequenceTable {
    key_map: KeyMap<KeyEvent>,
    places: Places,
}

impl Model for SequenceTable {
    ghost use Rattle.std.specs.Prelude.{◌≡◌};
    ghost use Rattle.termwiz_grammar.specs.Table.{table};
    ghost use Rattle.termwiz_input.specs.KeyBuckets.{AreFirst, AreNext};

    // There is one sequence table.
    ghost Value = { Unit {0} };

    ghost view = { λ _. tt };

    ghost invariant = { λ t. (t.key_map ≡ table) × AreFirst 0 t.places.first.items × AreNext 0 t.places.next.items };
}

impl SequenceTable {
    /// The sequence table, in new memory.
    pub fn new(alloc: Global) -> Result<SequenceTable, AllocError> {
        let key_map = key_map(alloc)?;
        let places = places_of(alloc, &key_map)?;
        Ok(SequenceTable { key_map, places })
    }

    /// The rows by their bytes.
    pub fn key_map(&self) -> &KeyMap<KeyEvent>
        ensures { result.now ≡ table }
    {
        &self.key_map
    }

    /// The first place of a row that has this key, or the number of rows if there is none.
    pub fn first_place(&self, key: &KeyEvent) -> usize
        ensures { IsNextPlaceOf key.now 0 result }
    {
        self.place_from(key, usize::from(self.places.first[bucket_of(key)]))
    }

    /// The first place after that of a row where a row has the same key, or the number of rows if there is none.
    pub fn next_place(&self, place: usize) -> usize
        ensures { (bytes : List ℕ) (key : KeyEvent) → IsRowAt place bytes key → IsNextPlaceOf key (place + 1) result }
    {
        match self.key_map.get_index(place) {
            Some((_, key)) => self.place_from(key, usize::from(self.places.next[place])),
            None => place,
        }
    }

    // The first place of a row that has the key, from a place of the key's bucket on, or the number of rows if there is none.
    fn place_from(&self, key: &KeyEvent, from: usize) -> usize
        requires bucket { IsOfBucket (bucket_of key.now) from }
        requires inside { from ≤ map.len table }
        ensures { IsNextPlaceOf key.now from result }
    {
        let mut place = from;
        while let Some((_, own)) = self.key_map.get_index(place) {
            if is_same(own, key) {
                return place;
            }
            place = usize::from(self.places.next[place]);
        }
        place
    }
}
