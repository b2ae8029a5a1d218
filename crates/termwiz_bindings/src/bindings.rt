//! Bindings: what a program does at which keys. They are a finite map from chords to values.
ghost use Rattle.std.specs.Prelude.{◌≡◌, ◌≢◌, ◌↔◌, ◌≤◌, ◌<◌, [], None, Some, Err, IfOk, IfSome, IfNone, OnOk, OnErr};
ghost use Rattle.std.specs.FinMap as map;
ghost use Rattle.termwiz_bindings.specs.declared.bindings.BindError.TheVariants as error;

use crate::chord::{CODE_LEN, Chord, of_codes};
use std::alloc::{AllocError, Global};
use std::fmt::Debug;
use std::marker::Model;
use std::ops::Range;
use termwiz_keymap::keymap::{Found, KeyMap};
use thiserror::Error;

/// A chord wasn't bound. The bindings are unchanged, and the value is dropped.
#[derive(Clone, Copy, PartialEq, Eq, Debug, Error)]
pub enum BindError {
    /// The chord has no presses.
    #[error("a chord needs a key")]
    Empty,
    /// Memory was refused.
    #[error("out of memory")]
    Memory,
}

impl From<AllocError> for BindError {
    ghost from_gives = { λ _ e. e ≡ error.Memory };

    fn from(_e: AllocError) -> BindError {
        BindError::Memory
    }
}

/// A finite map from chords to values: what a program does at which keys. One chord may begin another one.
#[derive(Debug, Drop)]
pub struct Bindings<V: Debug + Clone + Drop> {
    // The values by the codes of their chords.
    by_codes: KeyMap<V>,
}

impl<V: Debug + Clone + Drop> Model for Bindings<V> {
    ghost use Rattle.std.specs.Ordering.{nat_cmp};
    ghost use Rattle.std.specs.Cmp.Lexicographic.{slice_cmp};
    ghost use Rattle.std.specs.FinMap as map;
    ghost use Rattle.std.specs.Coded.{coded_ℕ, coded_list};
    ghost use Rattle.termwiz_bindings.specs.Bindings.{AreBindings};

    ghost Value = { map.FinMap (slice_cmp nat_cmp) V };

    ghost coded = { map.code (coded_list coded_ℕ) V.code };

    ghost view = { λ b. b.by_codes };

    ghost invariant = { λ b. AreBindings b.by_codes };
}

impl<V: Debug + Clone + Drop> Bindings<V> {
    ghost use Rattle.termwiz_keymap.specs.Lookup.{ClonesEqual, found_copied};
    ghost use Rattle.termwiz_bindings.specs.Bindings.{AreBindings, AreContinuations, FindGives, IsBindingAt, IsCloneByChord, bound, find, unbound};
    ghost use Rattle.termwiz_bindings.specs.Chords.{AreCodes};
    ghost use Rattle.termwiz_bindings.specs.Codes.{presses_with};
    ghost use Rattle.termwiz_bindings.specs.Matching.{IsContinued};

    /// Bindings of no chord. Takes no memory; later calls take theirs from `alloc`.
    pub fn new(alloc: Global) -> Bindings<V>
        ensures { result ≡ map.empty }
    {
        Bindings {
            by_codes: KeyMap::new(alloc),
        }
    }

    /// Binds a value to a chord, in place of the one that it has, if any. Every other chord keeps its value, also one that begins
    /// with this one.
    ///
    /// Fails if the chord has no presses, or if memory is refused. The bindings are then unchanged, and `value` is dropped.
    pub fn bind(&mut self, chord: &Chord, value: V) -> Result<(), BindError>
        ensures ok { OnOk result (self.new ≡ bound self.old chord.now value) }
        ensures err { OnErr result (self.new ≡ self.old) }
        ensures empty { (result ≡ Err error.Empty) ↔ (chord.now ≡ []) }
    {
        if chord.is_empty() {
            return Err(BindError::Empty);
        }
        self.put(chord, value)?;
        Ok(())
    }

    // Binds a value to a chord that has presses.
    fn put(&mut self, chord: &Chord, value: V) -> Result<(), AllocError>
        requires { chord.now ≢ [] }
        ensures ok { OnOk result (self.new ≡ bound self.old chord.now value) }
        ensures err { OnErr result (self.new ≡ self.old) }
    {
        self.by_codes.insert(chord.codes(), value)?;
        Ok(())
    }

    /// Takes the value of a chord away and returns it, or `None` if it has none. Every other chord keeps its value. Takes no memory.
    pub fn unbind(&mut self, chord: &Chord) -> Option<V>
        ensures value { result ≡ find self.old chord.now }
        ensures others { self.new ≡ unbound self.old chord.now }
    {
        self.by_codes.remove(chord.codes())
    }

    /// The value of a chord, or `None` if it has none.
    pub fn lookup(&self, chord: &Chord) -> Option<&V>
        ensures some { IfSome result (λ value. find self.now chord.now ≡ Some value.now) }
        ensures none { IfNone result (find self.now chord.now ≡ None) }
    {
        let codes = chord.codes();
        match self.by_codes.lookup(codes, false) {
            Found::Exact(len, value) if len == codes.len() => Some(value),
            _ => None,
        }
    }

    /// The number of chords.
    pub fn len(&self) -> usize
        ensures { result ≡ map.len self.now }
    {
        self.by_codes.len()
    }

    /// The chord at a place in the order of codes, and its value; `None` from [`Bindings::len`] on. The first place is 0.
    pub fn entry(&self, index: usize) -> Option<(Chord, &V)>
        ensures entry { IfSome result (λ entry. IsBindingAt self.now index entry.0 entry.1.now) }
        ensures none { IfNone result (map.len self.now ≤ index) }
    {
        let (codes, value) = self.by_codes.get_index(index)?;
        Some((of_codes(codes), value))
    }

    /// The places of the chords that begin with these presses and are longer, as [`Bindings::entry`] has them. The range is empty if
    /// there are none.
    pub fn continuations(&self, keys: &Chord) -> Range<usize>
        ensures chords { AreContinuations self.now keys.now result.start result.end }
        ensures some { (result.start < result.end) ↔ IsContinued (find self.now) keys.now }
    {
        self.by_codes.extensions(keys.codes())
    }

    /// Finds the longest chord that begins these presses, and tells whether a longer one is still possible. Pass true for `maybe_more`
    /// if more presses may follow. The answers are those of [`KeyMap::lookup`], with the number of presses for that of bytes.
    pub fn find(&self, keys: &Chord, maybe_more: bool) -> Found<&V>
        ensures found { FindGives self.now keys.now maybe_more (found_copied result) }
        ensures bindings { AreBindings self.now }
    {
        self.find_codes(keys.codes(), maybe_more)
    }

    // Finds what `find` does, for presses that are given by their codes.
    pub(crate) fn find_codes(&self, codes: &[u8], maybe_more: bool) -> Found<&V>
        requires { AreCodes codes.now }
        ensures found { FindGives self.now (presses_with codes.now) maybe_more (found_copied result) }
        ensures bindings { AreBindings self.now }
    {
        match self.by_codes.lookup(codes, maybe_more) {
            Found::Exact(len, value) => Found::Exact(len / CODE_LEN, value),
            Found::Ambiguous(len, value) => Found::Ambiguous(len / CODE_LEN, value),
            Found::NeedData => Found::NeedData,
            Found::None => Found::None,
        }
    }

    /// Bindings of the same chords, each to a clone of its value. If clones of the values equal them, they are the same bindings.
    ///
    /// Takes memory from the allocator of these bindings. Fails only if memory is refused or if the clone of a value fails.
    pub fn clone(&self) -> Result<Bindings<V>, AllocError>
        ensures cloned { IfOk result (IsCloneByChord V.is_clone self.now) }
        ensures same { ClonesEqual V.is_clone → IfOk result (λ copy. copy ≡ self.now) }
    {
        Ok(Bindings {
            by_codes: self.by_codes.clone()?,
        })
    }
}
