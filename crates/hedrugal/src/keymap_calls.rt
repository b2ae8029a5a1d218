// The calls of a key map.
ghost use Rattle.std.specs.Prelude.{◌≡◌, ◌≢◌, ◌↔◌, ◌⊎◌, None};
ghost use Rattle.hedrugal.specs.KeymapCalls.{Finds, Inserted, IsEmpty, keymap_len};

use crate::bindings::Bindings;
use crate::handles::MapHandle;
use crate::status::{AMBIGUOUS, NEED_DATA, NO_MEMORY, NONE, NOT_INITIALIZED, OK};
use std::alloc::Global;
use termwiz_input::keymap::{Found, KeyMap};

/// `hed_match`: the key that a lookup found.
#[repr(C)]
#[derive(Clone, Copy)]
pub struct CMatch {
    /// The key's length.
    pub len: usize,
    /// Its value.
    pub value: u64,
}

/// Makes an empty key map, and frees the one that was there.
#[unsafe(no_mangle)]
pub extern "C" fn hed_keymap_init(alloc: Global, map: &mut MapHandle) -> u32
    ensures answers { (result ≡ OK) ⊎ (result ≡ NO_MEMORY) }
    ensures made { result ≡ OK → IsEmpty map.new.state.held }
    ensures same { result ≢ OK → map.new.state.held ≡ map.old.state.held }
{
    let empty = Bindings {
        map: KeyMap::new(alloc),
    };
    map.view().replace(alloc, empty)
}

/// Frees the key map, if there is one, and leaves none.
#[unsafe(no_mangle)]
pub extern "C" fn hed_keymap_free(alloc: Global, map: &mut MapHandle)
    ensures { map.new.state.held ≡ None }
{
    map.view().free(alloc);
}

/// Sets the value of a key, in place of the one that it has, if any.
#[unsafe(no_mangle)]
pub extern "C" fn hed_keymap_insert(map: &mut MapHandle, key: &[u8], value: u64) -> u32
    ensures answers { (result ≡ OK) ⊎ ((result ≡ NO_MEMORY) ⊎ (result ≡ NOT_INITIALIZED)) }
    ensures inserted { result ≡ OK → Inserted map.old.state.held key.now value map.new.state.held }
    ensures no_map { result ≡ NOT_INITIALIZED ↔ (map.old.state.held ≡ None) }
    ensures same { result ≢ OK → map.new.state.held ≡ map.old.state.held }
{
    let Some(held) = map.get_mut() else {
        return NOT_INITIALIZED;
    };
    if held.map.insert(key, value).is_err() {
        return NO_MEMORY;
    }
    OK
}

/// Finds the longest key that is a prefix of a text, and sets `found` to its length and value. The text may be a prefix of a longer key too, if more
/// may follow. If no key is a prefix of it, it may still be a prefix of a key.
#[unsafe(no_mangle)]
pub extern "C" fn hed_keymap_lookup(
    map: &mut MapHandle,
    text: &[u8],
    maybe_more: bool,
    found: &mut CMatch,
) -> u32
    ensures answers { (result ≡ OK) ⊎ ((result ≡ AMBIGUOUS) ⊎ ((result ≡ NEED_DATA) ⊎ ((result ≡ NONE) ⊎ (result ≡ NOT_INITIALIZED)))) }
    ensures none { result ≡ NONE → Finds map.old.state.held text.now maybe_more Found.None }
    ensures exact { result ≡ OK → Finds map.old.state.held text.now maybe_more (Found.Exact found.new.len found.new.value) }
    ensures ambiguous { result ≡ AMBIGUOUS → Finds map.old.state.held text.now maybe_more (Found.Ambiguous found.new.len found.new.value) }
    ensures need_data { result ≡ NEED_DATA → Finds map.old.state.held text.now maybe_more Found.NeedData }
    ensures no_map { result ≡ NOT_INITIALIZED ↔ (map.old.state.held ≡ None) }
    ensures same { map.new.state ≡ map.old.state }
    ensures match_same { result ≢ OK → result ≢ AMBIGUOUS → found.new ≡ found.old }
{
    let Some(held) = map.get_mut() else {
        return NOT_INITIALIZED;
    };
    match held.map.lookup(text, maybe_more) {
        Found::None => NONE,
        Found::Exact(len, value) => {
            *found = CMatch { len, value: *value };
            OK
        }
        Found::Ambiguous(len, value) => {
            *found = CMatch { len, value: *value };
            AMBIGUOUS
        }
        Found::NeedData => NEED_DATA,
    }
}

/// The number of keys; 0 if there is no map.
#[unsafe(no_mangle)]
pub extern "C" fn hed_keymap_len(map: &mut MapHandle) -> usize
    ensures same { map.new.state ≡ map.old.state }
    ensures len { result ≡ keymap_len map.old.state.held }
{
    let Some(held) = map.get_mut() else {
        return 0;
    };
    held.map.len()
}
