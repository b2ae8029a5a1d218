//! The rows of a key map. A short key is in the row itself, so that a search reads no more than the list of rows.
ghost use Rattle.std.specs.Prelude.{◌≡◌, ◌<◌, ◌≤◌, length, get_or, take, IfOk};
ghost use Rattle.termwiz_keymap.specs.KeyRows.{AreRowClones, IsRowOf, bytes_of};

use super::blocks::Blocks;
use std::alloc::{AllocError, Global};

/// The length of the longest key that is in its row. With its length and the kind of key it fills 16 bytes.
pub const SHORT: usize = 14;

/// The bytes of a key.
#[derive(Debug, Drop)]
pub enum Key {
    /// A short key, with zeros after it, and its length.
    Short([u8; SHORT], u8),
    /// A long key.
    Long(Box<Vec<u8>, Global>),
}

impl Key {
    /// A copy of the bytes, which takes memory if they are many.
    #[tactic(auto, unfolding(crate::specs::KeyRows::bytes_of))]
    pub fn new(alloc: Global, bytes: &[u8]) -> Result<Key, AllocError>
        ensures { IfOk result (λ key. bytes_of key ≡ bytes.now) }
    {
        if bytes.len() <= SHORT {
            return Ok(Key::Short(short_of(bytes), bytes.len() as u8));
        }
        let long = bytes.to_vec(alloc)?;
        Ok(Key::Long(Box::new(alloc, long)?))
    }

    /// The bytes.
    #[tactic(auto, unfolding(crate::specs::KeyRows::bytes_of))]
    pub fn as_slice(&self) -> &[u8]
        ensures { result.now ≡ bytes_of self.now }
    {
        match self {
            Key::Short(bytes, len) => &bytes[..(*len as usize).min(SHORT)],
            Key::Long(bytes) => bytes.as_slice(),
        }
    }
}

/// A key and its value.
#[derive(Debug, Drop)]
pub struct Row<V> {
    pub key: Key,
    pub value: V,
}

impl<V> Row<V> {
    ghost use Rattle.termwiz_keymap.specs.KeyRows.{key_of, value_of};

    /// The bytes of the key.
    pub fn key(&self) -> &[u8]
        ensures { result.now ≡ key_of self.now }
    {
        self.key.as_slice()
    }

    /// The value, without the key.
    pub fn into_value(self) -> V
        ensures { result ≡ value_of self }
    {
        self.value
    }

    /// The byte of the key at a depth.
    pub fn byte(&self, depth: usize) -> u8
        requires { depth < length (key_of self.now) }
        ensures { result ≡ get_or (key_of self.now) depth 0 }
    {
        self.key()[depth]
    }
}

// A short key, with zeros after it.
fn short_of(key: &[u8]) -> [u8; SHORT]
    requires { length key.now ≤ SHORT }
    ensures { take (length key.now) result ≡ key.now }
{
    let mut short = [0; SHORT];
    short[..key.len()].copy_from_slice(key);
    short
}

/// A row with a copy of the key, which takes memory if it is long.
pub fn new_row<V: Drop>(alloc: Global, key: &[u8], value: V) -> Result<Row<V>, AllocError>
    ensures { IfOk result (IsRowOf key.now value) }
{
    Ok(Row {
        key: Key::new(alloc, key)?,
        value,
    })
}

/// Copies of rows in new memory, with clones of their values.
#[tactic(auto, using(crate::proofs::lemmas::rows::ClonedRows::one_more_copied))]
pub fn copied<V: Clone + Drop>(
    alloc: Global,
    rows: &Blocks<Row<V>>,
) -> Result<Vec<Row<V>>, AllocError>
    ensures { IfOk result (λ copies. AreRowClones V.is_clone rows.now copies.items) }
{
    let mut copies = Vec::with_capacity(alloc, rows.len())?;
    for place in 0..rows.len() {
        let row = &rows[place];
        let copy = new_row(alloc, row.key(), row.value.clone()?)?;
        copies.push(copy)?;
    }
    Ok(copies)
}
