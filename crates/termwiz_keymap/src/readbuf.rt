//! A buffer of bytes that came and weren't used yet.
ghost use Rattle.std.specs.Prelude.{◌≡◌, ◌≤◌, ◌++◌, ◌↔◌, [], length, take, drop, IsTrue, OnOk, OnErr, IsOk, Some};
ghost use Rattle.memchr.specs.Find.{FindsNeedle};

use crate::bytes::find_from;
use std::alloc::{AllocError, Global};
use std::marker::Model;

/// Bytes that came and weren't used yet: append with [`ReadBuffer::extend_with`], drop from the front with
/// [`ReadBuffer::advance`]. Contracts see a list of bytes. The buffer keeps its allocator.
///
/// The list is a vector from its front position on. Dropping bytes moves the front and copies nothing; the bytes that are
/// left move to the start of the vector when what comes would have no room after them.
#[derive(Debug, Drop)]
pub struct ReadBuffer {
    bytes: Vec<u8>,
    front: usize,
}

impl Model for ReadBuffer {
    ghost use Rattle.std.specs.Prelude.{List, ℕ, ◌≤◌, length, drop};

    ghost Value = { List ℕ };

    ghost view = { λ b. drop b.front b.bytes.items };

    ghost invariant = { λ b. b.front ≤ length b.bytes.items };
}

impl ReadBuffer {
    /// An empty buffer, which takes no memory.
    pub fn new(alloc: Global) -> ReadBuffer
        ensures { result ≡ [] }
    {
        ReadBuffer {
            bytes: Vec::new(alloc),
            front: 0,
        }
    }

    /// The bytes.
    pub fn as_slice(&self) -> &[u8]
        ensures { result.now ≡ self.now }
    {
        &self.bytes[self.front..]
    }

    /// How many bytes there are.
    pub fn len(&self) -> usize
        ensures { result ≡ length self.now }
    {
        self.bytes.len() - self.front
    }

    /// Whether there are no bytes.
    pub fn is_empty(&self) -> bool
        ensures { IsTrue result ↔ (self.now ≡ []) }
    {
        self.len() == 0
    }

    /// How many bytes the buffer's memory has room for: those that it holds, and those that it can take before it asks for more.
    pub fn capacity(&self) -> usize
        ensures { length self.now ≤ result }
    {
        self.bytes.capacity()
    }

    /// Drops the first `len` bytes.
    pub fn advance(&mut self, len: usize)
        requires { len ≤ length self.old }
        ensures { self.new ≡ drop len self.old }
    {
        self.front += len;
    }

    /// Takes out the bytes from the place `from` up to `to`. It asks for no memory.
    ///
    /// The bytes before `from` are moved up to what follows. So the call costs as much as there are bytes before `from`, however many follow.
    pub fn cut_out(&mut self, from: usize, to: usize)
        requires in_order { from ≤ to }
        requires within { to ≤ length self.old }
        ensures { self.new ≡ take from self.old ++ drop to self.old }
    {
        let first = self.front;
        let count = to - from;
        self.bytes.copy_within(first..first + from, first + count);
        self.front = first + count;
    }

    // Moves the bytes to the start of the vector, which keeps its memory.
    fn close_up(&mut self)
        ensures { self.new ≡ self.old }
    {
        if self.front > 0 {
            let left = self.len();
            self.bytes.copy_within(self.front.., 0);
            self.bytes.truncate(left);
            self.front = 0;
        }
    }

    /// Appends the bytes. If memory is refused, the buffer is unchanged. No bytes need no memory.
    pub fn extend_with(&mut self, slice: &[u8]) -> Result<(), AllocError>
        ensures ok { OnOk result (self.new ≡ self.old ++ slice.now) }
        ensures err { OnErr result (self.new ≡ self.old) }
        ensures nothing { slice.now ≡ [] → IsOk result }
    {
        if slice.is_empty() {
            return Ok(());
        }
        if self.is_empty() || slice.len() > self.bytes.capacity() - self.bytes.len() {
            self.close_up();
        }
        self.bytes.extend_from_slice(slice)
    }

    /// Gives back memory that holds no bytes, as far as there is room for `min_capacity` bytes afterwards. The bytes are unchanged. If the
    /// smaller memory is refused, the buffer keeps the one that it has.
    pub fn shrink_to(&mut self, min_capacity: usize)
        ensures { self.new ≡ self.old }
    {
        self.close_up();
        self.bytes.shrink_to(min_capacity);
    }

    /// The first place at or after `offset` where `needle` occurs, and `None` if it occurs nowhere there. An empty needle
    /// occurs at `offset`.
    pub fn find_subsequence(&self, offset: usize, needle: &[u8]) -> Option<usize>
        requires { offset ≤ length self.now }
        ensures first { FindsNeedle self.now needle.now offset result }
        ensures empty { needle.now ≡ [] → result ≡ Some offset }
    {
        find_from(self.as_slice(), offset, needle)
    }
}
