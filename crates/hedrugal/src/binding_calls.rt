// The calls of bindings.
ghost use Rattle.std.specs.Prelude.{◌≡◌, ◌≢◌, ◌↔◌, ◌⊎◌, None};
ghost use Rattle.hedrugal.specs.BindingCalls.{AreOfNoPresses, BindNothing, Binds, BindsName, GoNotOn, GoOn, HasNoValue, HasValue, IsPastChords, IsUnbound, Unbinds, WroteEntry, bindings_len};
ghost use Rattle.hedrugal.specs.NameCalls.{AreOfNoChord};

use crate::chord_bindings::ChordBindings;
use crate::chords::{chord_of, copy_presses, presses_of};
use crate::handles::BindingsHandle;
use crate::name_calls::chord_named;
use crate::press_calls::CKeyPress;
use crate::status::{BAD_NUMBER, NO_MEMORY, NONE, NOT_INITIALIZED, OK};
use std::alloc::Global;
use termwiz_bindings::bindings::Bindings;

/// Makes bindings of no chord, and frees those that were there.
#[unsafe(no_mangle)]
pub extern "C" fn hed_bindings_init(alloc: Global, bindings: &mut BindingsHandle) -> u32
    ensures answers { (result ≡ OK) ⊎ (result ≡ NO_MEMORY) }
    ensures made { result ≡ OK → BindNothing bindings.new.state.held }
    ensures same { result ≢ OK → bindings.new.state.held ≡ bindings.old.state.held }
{
    let none = ChordBindings {
        chords: Bindings::new(alloc),
    };
    bindings.view().replace(alloc, none)
}

/// Frees the bindings, if there are some, and leaves none.
#[unsafe(no_mangle)]
pub extern "C" fn hed_bindings_free(alloc: Global, bindings: &mut BindingsHandle)
    ensures { bindings.new.state.held ≡ None }
{
    bindings.view().free(alloc);
}

/// Sets the value of a chord, in place of the one that it has, if any.
#[unsafe(no_mangle)]
pub extern "C" fn hed_bindings_bind(
    bindings: &mut BindingsHandle,
    keys: &[CKeyPress],
    value: u64,
) -> u32
    ensures answers { (result ≡ OK) ⊎ ((result ≡ NO_MEMORY) ⊎ ((result ≡ BAD_NUMBER) ⊎ (result ≡ NOT_INITIALIZED))) }
    ensures bound { result ≡ OK → Binds bindings.old.state.held keys.now value bindings.new.state.held }
    ensures no_memory { result ≡ NO_MEMORY → bindings.old.state.held ≢ None }
    ensures bad_number { result ≡ BAD_NUMBER ↔ AreOfNoChord keys.now }
    ensures no_bindings { result ≡ NOT_INITIALIZED → bindings.old.state.held ≡ None }
    ensures same { result ≢ OK → bindings.new.state.held ≡ bindings.old.state.held }
{
    let Some(chord) = chord_of(keys) else {
        return BAD_NUMBER;
    };
    let Some(held) = bindings.get_mut() else {
        return NOT_INITIALIZED;
    };
    if held.chords.bind(&chord, value).is_err() {
        return NO_MEMORY;
    }
    OK
}

/// Sets the value of the chord that has this name. If that is none, the answer says what is wrong with it, and `at` is the byte where the part
/// that is wrong starts; else that is 0.
#[unsafe(no_mangle)]
pub extern "C" fn hed_bindings_bind_name(
    bindings: &mut BindingsHandle,
    text: &[u8],
    value: u64,
    at: &mut usize,
) -> u32
    ensures bound { result ≡ OK → BindsName bindings.old.state.held text.now value bindings.new.state.held }
    ensures refused { result ≢ OK → IsUnbound bindings.old.state.held text.now result at.new }
    ensures nothing_wrong { result ≡ OK → at.new ≡ 0 }
    ensures same { result ≢ OK → bindings.new.state.held ≡ bindings.old.state.held }
{
    *at = 0;
    let chord = match chord_named(text) {
        Ok(chord) => chord,
        Err(bad) => {
            *at = bad.at;
            return bad.status;
        }
    };
    let Some(held) = bindings.get_mut() else {
        return NOT_INITIALIZED;
    };
    if held.chords.bind(&chord, value).is_err() {
        return NO_MEMORY;
    }
    OK
}

/// Takes the value of a chord away, if it has one, and sets `value` to it.
#[unsafe(no_mangle)]
pub extern "C" fn hed_bindings_unbind(
    bindings: &mut BindingsHandle,
    keys: &[CKeyPress],
    value: &mut u64,
) -> u32
    ensures answers { (result ≡ OK) ⊎ ((result ≡ NONE) ⊎ ((result ≡ BAD_NUMBER) ⊎ (result ≡ NOT_INITIALIZED))) }
    ensures value { result ≡ OK → HasValue bindings.old.state.held keys.now value.new }
    ensures unbound { result ≡ OK → Unbinds bindings.old.state.held keys.now bindings.new.state.held }
    ensures none { result ≡ NONE → HasNoValue bindings.old.state.held keys.now }
    ensures bad_number { result ≡ BAD_NUMBER ↔ AreOfNoChord keys.now }
    ensures no_bindings { result ≡ NOT_INITIALIZED → bindings.old.state.held ≡ None }
    ensures same { result ≢ OK → bindings.new.state.held ≡ bindings.old.state.held }
    ensures value_same { result ≢ OK → value.new ≡ value.old }
{
    let Some(chord) = chord_of(keys) else {
        return BAD_NUMBER;
    };
    let Some(held) = bindings.get_mut() else {
        return NOT_INITIALIZED;
    };
    if held.chords.lookup(&chord).is_none() {
        return NONE;
    }
    let Some(taken) = held.chords.unbind(&chord) else {
        return NONE;
    };
    *value = taken;
    OK
}

/// Finds the value of a chord, if it has one.
#[unsafe(no_mangle)]
pub extern "C" fn hed_bindings_lookup(
    bindings: &mut BindingsHandle,
    keys: &[CKeyPress],
    value: &mut u64,
) -> u32
    ensures answers { (result ≡ OK) ⊎ ((result ≡ NONE) ⊎ ((result ≡ BAD_NUMBER) ⊎ (result ≡ NOT_INITIALIZED))) }
    ensures value { result ≡ OK → HasValue bindings.old.state.held keys.now value.new }
    ensures none { result ≡ NONE → HasNoValue bindings.old.state.held keys.now }
    ensures bad_number { result ≡ BAD_NUMBER ↔ AreOfNoChord keys.now }
    ensures no_bindings { result ≡ NOT_INITIALIZED → bindings.old.state.held ≡ None }
    ensures same { bindings.new.state ≡ bindings.old.state }
    ensures value_same { result ≢ OK → value.new ≡ value.old }
{
    let Some(chord) = chord_of(keys) else {
        return BAD_NUMBER;
    };
    let Some(held) = bindings.get_mut() else {
        return NOT_INITIALIZED;
    };
    let Some(found) = held.chords.lookup(&chord) else {
        return NONE;
    };
    *value = *found;
    OK
}

/// The number of chords that have a value; 0 if there are no bindings.
#[unsafe(no_mangle)]
pub extern "C" fn hed_bindings_len(bindings: &mut BindingsHandle) -> usize
    ensures same { bindings.new.state ≡ bindings.old.state }
    ensures len { result ≡ bindings_len bindings.old.state.held }
{
    let Some(held) = bindings.get_mut() else {
        return 0;
    };
    held.chords.len()
}

/// Shows the chord at a place, if there is one, and its value. `keys` has as many of its presses as it has room for, and `count` is how many they are;
/// else that is 0.
#[unsafe(no_mangle)]
pub extern "C" fn hed_bindings_entry(
    bindings: &mut BindingsHandle,
    place: usize,
    keys: &mut [CKeyPress],
    count: &mut usize,
    value: &mut u64,
) -> u32
    ensures answers { (result ≡ OK) ⊎ ((result ≡ NONE) ⊎ (result ≡ NOT_INITIALIZED)) }
    ensures entry { result ≡ OK → WroteEntry bindings.old.state.held place keys.old keys.new count.new value.new }
    ensures none { result ≡ NONE → IsPastChords bindings.old.state.held place }
    ensures no_bindings { result ≡ NOT_INITIALIZED ↔ (bindings.old.state.held ≡ None) }
    ensures same { bindings.new.state ≡ bindings.old.state }
    ensures no_count { result ≢ OK → count.new ≡ 0 }
    ensures keys_same { result ≢ OK → keys.new ≡ keys.old }
    ensures value_same { result ≢ OK → value.new ≡ value.old }
{
    *count = 0;
    let Some(held) = bindings.get_mut() else {
        return NOT_INITIALIZED;
    };
    let Some((chord, found)) = held.chords.entry(place) else {
        return NONE;
    };
    *count = copy_presses(&chord, keys);
    *value = *found;
    OK
}

/// Tells which chords begin with some presses and are longer, if there are such: those from the place `first` up to `end`; else these are 0.
#[unsafe(no_mangle)]
pub extern "C" fn hed_bindings_continuations(
    bindings: &mut BindingsHandle,
    keys: &[CKeyPress],
    first: &mut usize,
    end: &mut usize,
) -> u32
    ensures answers { (result ≡ OK) ⊎ ((result ≡ NONE) ⊎ ((result ≡ BAD_NUMBER) ⊎ (result ≡ NOT_INITIALIZED))) }
    ensures some { result ≡ OK → GoOn bindings.old.state.held keys.now first.new end.new }
    ensures none { result ≡ NONE → GoNotOn bindings.old.state.held keys.now }
    ensures bad_number { result ≡ BAD_NUMBER ↔ AreOfNoPresses keys.now }
    ensures no_bindings { result ≡ NOT_INITIALIZED → bindings.old.state.held ≡ None }
    ensures same { bindings.new.state ≡ bindings.old.state }
    ensures first_none { result ≢ OK → first.new ≡ 0 }
    ensures end_none { result ≢ OK → end.new ≡ 0 }
{
    *first = 0;
    *end = 0;
    let Some(presses) = presses_of(keys) else {
        return BAD_NUMBER;
    };
    let Some(held) = bindings.get_mut() else {
        return NOT_INITIALIZED;
    };
    let places = held.chords.continuations(&presses);
    if places.is_empty() {
        return NONE;
    }
    *first = places.start;
    *end = places.end;
    OK
}
