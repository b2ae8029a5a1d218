//! The library for programs in C, and in other languages that call C. Numbers stand for keys, flags and answers, as the C header lists them.
//!
//! The caller keeps a `hed_parser`, all zero at first. It says which bytes came and when by `hed_parser_feed`, and that none came by
//! `hed_parser_idle`, and is told the events, one at a time, by `hed_parser_next`. A `hed_keymap` and a `hed_bindings` are kept in the same way.
//! The calls whose names begin with `hed_encode` go the other way, from a key or an event to the bytes that a terminal sends for it.
//! `hed_parser_press` tells the press of a key, and `hed_key_read` and `hed_key_print` read and print the names of keys. `hed_send_names` writes
//! what a terminal sends for named keys.
#![tactic(auto)]

ghost use Rattle.std.specs.Prelude.{◌≡◌, ◌≢◌, ◌↔◌, ◌⊎◌, ◌+◌, ◌*◌, ◌++◌, [], ◌∷◌, length, false};
ghost use Rattle.event_text.specs.Names.{variant_name};
ghost use Rattle.termwiz_input.specs.KeyCode.{KeyCode as Key};
ghost use Rattle.termwiz_bindings.specs.Numbers.{key_number};
ghost use Rattle.hedrugal.specs.Calls.{copied};
ghost use Rattle.hedrugal.specs.Keys.{IsNoKey};
ghost use Rattle.hedrugal.specs.Presses.{HasNoText, IsBad, Wrote};

mod binding_calls;
mod bindings;
mod chord_bindings;
mod chords;
mod copying;
mod entry_calls;
mod event_arrays;
mod event_calls;
mod events;
mod handles;
mod holder;
mod key_reports;
mod keymap_calls;
mod kitty_calls;
mod matcher_calls;
mod modes;
mod name_calls;
mod parser_and_text;
mod parser_calls;
mod paste_lines;
mod policy;
mod press_calls;
mod question_calls;
mod questions;
mod raw_box;
mod reading_calls;
mod replies;
mod reply_calls;
mod sender_calls;
mod sending;
mod sent_names;
mod slot;
mod status;
mod timer_calls;
mod words;

use crate::copying::{copy_with_zero, write_out};
use crate::modes::{CModes, press_of};
use crate::status::{BAD_NUMBER, NO_MEMORY, OK, REFUSED_KEY};
use event_text::variant_name;
use std::alloc::Global;
use termwiz_bindings::numbers::key_at;
use termwiz_input::input::EncodeError;

// The version of the library, which the header and the other packages have too.
const VERSION_MAJOR: u32 = 0;

const VERSION_MINOR: u32 = 1;

const VERSION_PATCH: u32 = 0;

/// Encodes a key that is pressed while `modifiers` are held, or that is up. `out` has as much of the text as it has room for, and `text_len` is its
/// whole length; else that is 0.
#[tactic(auto, using(crate::proofs::Pressed::not_bad))]
#[unsafe(no_mangle)]
pub extern "C" fn hed_encode(
    alloc: Global,
    key: u16,
    detail: u32,
    modifiers: u16,
    is_down: bool,
    modes: &CModes,
    out: &mut [u8],
    text_len: &mut usize,
) -> u32
    ensures answers { (result ≡ OK) ⊎ ((result ≡ REFUSED_KEY) ⊎ ((result ≡ NO_MEMORY) ⊎ (result ≡ BAD_NUMBER))) }
    ensures text { result ≡ OK → Wrote key detail modifiers is_down modes.now out.old out.new text_len.new }
    ensures refused_key { result ≡ REFUSED_KEY ↔ HasNoText key detail modifiers is_down modes.now }
    ensures bad_number { result ≡ BAD_NUMBER ↔ IsBad key detail modifiers modes.now }
    ensures up { is_down ≡ false → result ≢ NO_MEMORY }
    ensures none { result ≢ OK → text_len.new ≡ 0 }
    ensures same { result ≢ OK → out.new ≡ out.old }
{
    *text_len = 0;
    let Some(press) = press_of(key, detail, modifiers, modes) else {
        return BAD_NUMBER;
    };
    match press
        .key
        .encode(alloc, press.modifiers, press.modes, is_down)
    {
        Ok(text) => write_out(text.as_bytes(), out, text_len),
        Err(EncodeError::UnhandledFunctionKey(_)) => REFUSED_KEY,
        Err(EncodeError::Memory) => NO_MEMORY,
    }
}

/// Copies the name of the key with this number and a final zero byte, as much of both as `out` has room for, and returns the length of
/// the name. The length is 0, and `out` unchanged, if no key has the number.
#[unsafe(no_mangle)]
pub extern "C" fn hed_key_name(key: u16, out: &mut [u8]) -> usize
    ensures len { (named : Key) → key_number named ≡ key → result ≡ length (variant_name named) }
    ensures bytes { (named : Key) → key_number named ≡ key → out.new ≡ copied (variant_name named ++ (0 ∷ [])) out.old }
    ensures no_key { IsNoKey key → result ≡ 0 }
    ensures no_key_same { IsNoKey key → out.new ≡ out.old }
{
    match key_at(key) {
        Some(named) => copy_with_zero(variant_name(named).as_bytes(), out),
        None => 0,
    }
}

/// The version of the library in one number: 65536 times the first of its three numbers, 256 times the second, and the third.
#[unsafe(no_mangle)]
pub extern "C" fn hed_version() -> u32
    ensures { result ≡ VERSION_MAJOR * 65536 + VERSION_MINOR * 256 + VERSION_PATCH }
{
    VERSION_MAJOR * 65536 + VERSION_MINOR * 256 + VERSION_PATCH
}
