//! The rules of the sequence table, each of which puts its rows into a key map. The sequences are those of xterm
//! ("PC-Style Function Keys", "VT220-Style Function Keys" and modifyOtherKeys in its "Control Sequences"), of fixterms
//! (CSI u) and of rxvt (`$`, `^` and `@` at the end).
#![tactic(auto)]

ghost use Rattle.std.specs.Prelude.{◌≡◌, OnOk};
ghost use Rattle.termwiz_grammar.specs.Table.{rows, with_rows};

mod cursor;
mod function;
mod insert;
mod lists;
mod numbers;
mod single;

use crate::cursor::{
    application_arrows, application_home_end, ctrl_arrows, cursor_keys,
    modified_application_arrows, modified_cursor_keys, shift_arrows,
};
use crate::function::{
    edit_keys, high_function_keys, lettered_function_keys, modified_edit_keys,
    numbered_function_keys, ss3_function_keys,
};
use crate::numbers::{csi_u, modify_other_keys};
use crate::single::{
    alt_bracket, alt_letters, backspace_bytes, control_letters, ctrl_shift_tab, enter_bytes,
    escape_byte, paste_end, paste_start, shift_tab, tab_byte,
};
use std::alloc::{AllocError, Global};
use termwiz_keymap::keymap::KeyMap;
use termwiz_keys::types::KeyEvent;

// The rows for which memory is asked at once: those of a block.
const ROOM: usize = 512;

/// Puts all rows of the sequence table into `keys`, a key map from sequences to keys. If memory is refused, a part of the rows may
/// be in the map.
///
/// The order of the rules is for speed: those whose rows lie far apart come before those with many rows, which come in rising order.
#[tactic(auto, using(crate::proofs::lemmas::InsertedRows::joined_rows), unfolding(termwiz_grammar::specs::Table::rows))]
pub fn add_rows(alloc: Global, keys: &mut KeyMap<KeyEvent>) -> Result<(), AllocError>
    ensures { OnOk result (keys.new ≡ with_rows keys.old rows) }
{
    keys.reserve(ROOM)?;
    control_letters(keys)?;
    backspace_bytes(keys)?;
    tab_byte(keys)?;
    enter_bytes(keys)?;
    escape_byte(keys)?;
    alt_letters(keys)?;
    alt_bracket(keys)?;
    ctrl_arrows(alloc, keys)?;
    application_arrows(alloc, keys)?;
    modified_application_arrows(alloc, keys)?;
    ss3_function_keys(alloc, keys)?;
    application_home_end(alloc, keys)?;
    cursor_keys(alloc, keys)?;
    shift_tab(keys)?;
    shift_arrows(alloc, keys)?;
    edit_keys(alloc, keys)?;
    modified_edit_keys(alloc, keys)?;
    paste_start(keys)?;
    paste_end(keys)?;
    modified_cursor_keys(alloc, keys)?;
    lettered_function_keys(alloc, keys)?;
    ctrl_shift_tab(keys)?;
    numbered_function_keys(alloc, keys)?;
    high_function_keys(alloc, keys)?;
    csi_u(alloc, keys)?;
    modify_other_keys(alloc, keys)
}
