//! A list in blocks, so that an insert or a removal moves the elements of one block, however many there are.
ghost use Rattle.std.specs.Prelude.{◌≡◌, ◌+◌, ◌-◌, ◌<◌, ◌≤◌, ◌++◌, ◌^◌, ℕ, [], length, take, drop, set, get_or, IfOk, IfSome, OnOk, OnErr};
ghost use Rattle.std.specs.List.{insert, remove};
ghost use Rattle.termwiz_keymap.specs.declared.keymap.blocks.Block.{Block};
ghost use Rattle.termwiz_keymap.specs.InBlocks.{AreFilled, AreStarted, IsHolder, elements};

use std::alloc::{AllocError, Global};
use std::marker::Model;
use std::mem;
use std::ops::Index;

// A block of so many elements is parted before an insert.
const FULL: usize = 512;

/// Elements that follow one another in a list, and the place of the first.
#[derive(Debug, Drop)]
pub struct Block<T> {
    pub start: usize,
    pub items: Vec<T>,
}

/// A list of elements, which contracts see as such.
#[derive(Debug, Drop)]
pub struct Blocks<T> {
    // All elements, as long as they are few or the list is closed; else none.
    first: Vec<T>,
    // The blocks of the others, each with some.
    rest: Vec<Block<T>>,
    len: usize,
    near: usize,
    alloc: Global,
}

impl<T> Model for Blocks<T> {
    ghost use Rattle.std.specs.Prelude.{◌≡◌, ◌+◌, ◌++◌, List, length};
    ghost use Rattle.std.specs.Coded.{coded_list};
    ghost use Rattle.termwiz_keymap.specs.InBlocks.{AreBlocks, elements};

    ghost Value = { List T };

    ghost coded = { coded_list T.code };

    ghost view = { λ b. b.first.items ++ elements b.rest.items };

    ghost invariant = { λ b. AreBlocks b.first.items b.rest.items b.len };
}

impl<T> Blocks<T> {
    /// A list with the elements of a vector, in one block.
    pub fn from_vec(alloc: Global, items: Vec<T>) -> Blocks<T>
        ensures { result ≡ items.items }
    {
        let len = items.len();
        Blocks {
            first: items,
            rest: Vec::new(alloc),
            len,
            near: len,
            alloc,
        }
    }

    /// How many elements there are.
    pub fn len(&self) -> usize
        ensures { result ≡ length self.now }
    {
        self.len
    }

    /// The place behind the last insert, or that of a removal after it. A search for what comes next may begin there.
    pub fn near(&self) -> usize {
        self.near
    }

    /// All elements, if they are in one block.
    pub fn in_one(&self) -> Option<&[T]>
        ensures { IfSome result (λ items. items.now ≡ self.now) }
    {
        if self.rest.is_empty() {
            Some(&self.first)
        } else {
            None
        }
    }

    /// The blocks: the first elements, and the blocks after them.
    pub fn parts(&self) -> (&[T], &[Block<T>])
        ensures whole { result.0.now ++ elements result.1.now ≡ self.now }
        ensures started { AreStarted (length result.0.now) result.1.now }
        ensures filled { AreFilled result.1.now }
        ensures fits { length self.now < 2 ^ 64 }
    {
        // (A length that is read fits its type.)
        let _len = self.len;
        (&self.first, &self.rest)
    }
}

impl<T> Index<usize> for Blocks<T> {
    ghost use Rattle.std.specs.Prelude.{◌≡◌, ◌<◌, length, get_or};

    type Output = T;

    ghost can_index = { λ b i. i < length b };

    ghost index_gives = { λ b i x. x ≡ get_or b i x };

    fn index(&self, place: usize) -> &T {
        if place < self.first.len() {
            &self.first[place]
        } else {
            let block = &self.rest[holder(&self.rest, place)];
            &block.items[place - block.start]
        }
    }
}

impl<T: Drop> Blocks<T> {
    /// Sets the element at a place.
    pub fn set(&mut self, place: usize, value: T)
        requires { place < length self.old }
        ensures { self.new ≡ set self.old place value }
    {
        if place < self.first.len() {
            self.first[place] = value;
        } else {
            let at = holder(&self.rest, place);
            let block = &mut self.rest[at];
            let start = block.start;
            block.items[place - start] = value;
        }
    }

    /// Inserts an element at a place. Fails only if memory is refused; the list is then unchanged, and the element is dropped.
    pub fn insert(&mut self, place: usize, value: T) -> Result<(), AllocError>
        requires { place ≤ length self.old }
        ensures ok { OnOk result (self.new ≡ insert self.old place value) }
        ensures err { OnErr result (self.new ≡ self.old) }
    {
        let len = self.len.checked_add(1).ok_or(AllocError)?;
        if self.rest.is_empty() && self.first.len() < FULL {
            self.first.insert(place, value)?;
        } else {
            move_first(self.alloc, &mut self.first, &mut self.rest)?;
            insert_among(&mut self.rest, place, value)?;
        }
        self.len = len;
        self.near = len.min(place + 1);
        Ok(())
    }

    /// Takes the element at a place out of the list. Takes no memory.
    pub fn remove(&mut self, place: usize) -> T
        requires { place < length self.old }
        ensures value { result ≡ get_or self.old place result }
        ensures items { self.new ≡ remove self.old place }
    {
        self.len -= 1;
        self.near = place;
        if place < self.first.len() {
            let value = self.first.remove(place);
            write_starts(&mut self.rest, 0, self.first.len());
            return value;
        }
        let at = holder(&self.rest, place);
        let start = self.rest[at].start;
        let value = take_out(&mut self.rest, at, place - start);
        write_starts(&mut self.rest, at, start);
        value
    }

    /// Asks for memory for so many elements more in the first block, at most for those of a full one. The list is unchanged.
    pub fn reserve(&mut self, additional: usize) -> Result<(), AllocError>
        ensures { self.new ≡ self.old }
    {
        self.first.reserve(additional.min(FULL))
    }

    /// Puts all elements into one block, and frees the memory of the others. The list is unchanged. Fails only if memory is refused.
    /// Later inserts part the block again.
    pub fn close(&mut self) -> Result<(), AllocError>
        ensures { self.new ≡ self.old }
    {
        self.first.reserve(self.len - self.first.len())?;
        while !self.rest.is_empty() {
            self.first.append(&mut self.rest[0].items)?;
            self.rest.remove(0);
        }
        self.rest.shrink_to_fit();
        Ok(())
    }
}

// Of the blocks that start at a place or before it, the number of the last one.
fn holder<T>(blocks: &[Block<T>], place: usize) -> usize
    requires some { 0 < length blocks.now }
    requires started { (b : Block T) → (get_or blocks.now 0 b).start ≤ place }
    ensures { IsHolder blocks.now place result }
{
    let (mut low, mut high) = (0, blocks.len());
    while low + 1 < high {
        let middle = low + (high - low) / 2;
        if blocks[middle].start <= place {
            low = middle;
        } else {
            high = middle;
        }
    }
    low
}

// Writes where each block from the number `from` on starts, of which the first starts at a place.
fn write_starts<T>(blocks: &mut Vec<Block<T>>, from: usize, mut start: usize)
    requires from { from ≤ length blocks.old.items }
    requires fits { start + length (elements (drop from blocks.old.items)) < 2 ^ 64 }
    ensures started { (first : ℕ) → AreStarted first (take from blocks.old.items) → start ≡ first + length (elements (take from blocks.old.items)) → AreStarted first blocks.new.items }
    ensures filled { AreFilled blocks.old.items → AreFilled blocks.new.items }
    ensures same { elements blocks.new.items ≡ elements blocks.old.items }
{
    for number in from..blocks.len() {
        let block = &mut blocks[number];
        block.start = start;
        start += block.items.len();
    }
}

// Takes an element out of a block, and the block if that has no other.
fn take_out<T: Drop>(blocks: &mut Vec<Block<T>>, at: usize, offset: usize) -> T
    requires at { at < length blocks.old.items }
    requires offset { (b : Block T) → offset < length (get_or blocks.old.items at b).items.items }
    requires filled { AreFilled blocks.old.items }
    ensures value { (b : Block T) → result ≡ get_or (get_or blocks.old.items at b).items.items offset result }
    ensures items { elements blocks.new.items ≡ remove (elements blocks.old.items) (length (elements (take at blocks.old.items)) + offset) }
    ensures before { take at blocks.new.items ≡ take at blocks.old.items }
    ensures filled { AreFilled blocks.new.items }
{
    let block = &mut blocks[at];
    let value = block.items.remove(offset);
    if block.items.is_empty() {
        blocks.remove(at);
    }
    value
}

// Moves the elements of the first block, if there are some, to a block among the others.
fn move_first<T: Drop>(
    alloc: Global,
    first: &mut Vec<T>,
    rest: &mut Vec<Block<T>>,
) -> Result<(), AllocError>
    requires started { AreStarted (length first.old.items) rest.old.items }
    requires filled { AreFilled rest.old.items }
    ensures ok { OnOk result (first.new.items ≡ []) }
    ensures same { first.new.items ++ elements rest.new.items ≡ first.old.items ++ elements rest.old.items }
    ensures started { AreStarted (length first.new.items) rest.new.items }
    ensures filled { AreFilled rest.new.items }
{
    if first.is_empty() {
        return Ok(());
    }
    rest.reserve(1)?;
    let items = mem::replace(first, Vec::new(alloc));
    rest.insert(0, Block { start: 0, items })?;
    Ok(())
}

// Inserts an element at a place among those of the blocks.
fn insert_among<T: Drop>(
    blocks: &mut Vec<Block<T>>,
    place: usize,
    value: T,
) -> Result<(), AllocError>
    requires some { 0 < length (elements blocks.old.items) }
    requires inside { place ≤ length (elements blocks.old.items) }
    requires room { length (elements blocks.old.items) + 1 < 2 ^ 64 }
    requires started { AreStarted 0 blocks.old.items }
    requires filled { AreFilled blocks.old.items }
    ensures ok { OnOk result (elements blocks.new.items ≡ insert (elements blocks.old.items) place value) }
    ensures err { OnErr result (elements blocks.new.items ≡ elements blocks.old.items) }
    ensures started { AreStarted 0 blocks.new.items }
    ensures filled { AreFilled blocks.new.items }
{
    let at = with_room(blocks, place)?;
    let block = &mut blocks[at];
    let start = block.start;
    block.items.insert(place - start, value)?;
    write_starts(blocks, at, start);
    Ok(())
}

// The number of the block that gets an element at a place, which is that of the element before. If it is full it is parted before.
fn with_room<T: Drop>(blocks: &mut Vec<Block<T>>, place: usize) -> Result<usize, AllocError>
    requires some { 0 < length (elements blocks.old.items) }
    requires inside { place ≤ length (elements blocks.old.items) }
    requires room { length (elements blocks.old.items) < 2 ^ 64 }
    requires started { AreStarted 0 blocks.old.items }
    requires filled { AreFilled blocks.old.items }
    ensures held { IfOk result (λ at. IsHolder blocks.new.items (place - 1) at) }
    ensures same { elements blocks.new.items ≡ elements blocks.old.items }
    ensures started { AreStarted 0 blocks.new.items }
    ensures filled { AreFilled blocks.new.items }
{
    let before = place.saturating_sub(1);
    let at = holder(blocks, before);
    if blocks[at].items.len() < FULL {
        return Ok(at);
    }
    part(blocks, at, place)?;
    Ok(holder(blocks, before))
}

// Parts a block in two for an insert at a place.
fn part<T: Drop>(blocks: &mut Vec<Block<T>>, at: usize, place: usize) -> Result<(), AllocError>
    requires at { at < length blocks.old.items }
    requires long { (b : Block T) → 1 < length (get_or blocks.old.items at b).items.items }
    requires room { length (elements blocks.old.items) < 2 ^ 64 }
    requires started { AreStarted 0 blocks.old.items }
    requires filled { AreFilled blocks.old.items }
    ensures same { elements blocks.new.items ≡ elements blocks.old.items }
    ensures started { AreStarted 0 blocks.new.items }
    ensures filled { AreFilled blocks.new.items }
{
    blocks.reserve(1)?;
    let block = &mut blocks[at];
    let kept = kept_of(block.items.len(), place.saturating_sub(block.start));
    let start = block.start + kept;
    let items = block.items.split_off(kept)?;
    blocks.insert(at + 1, Block { start, items })?;
    Ok(())
}

// How many elements of a full block stay in it: half of them, or all but the last if one is to be inserted behind that. So elements that
// come in rising order leave full blocks.
fn kept_of(len: usize, offset: usize) -> usize
    requires { 1 < len }
    ensures some { 0 < result }
    ensures not_all { result < len }
{
    if offset == len { len - 1 } else { len / 2 }
}
