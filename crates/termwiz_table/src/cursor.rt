// Rules of the cursor keys.
ghost use Rattle.std.specs.Prelude.{◌≡◌, OnOk};
ghost use Rattle.termwiz_grammar.specs.Table.{with_rows, cursor_keys_rows, modified_cursor_keys_rows, shift_arrows_rows, ctrl_arrows_rows, application_arrows_rows, modified_application_arrows_rows, application_home_end_rows};

use crate::insert::{insert_each_suffixed, insert_each_with};
use crate::lists::{
    APPLICATION_ARROWS, BEFORE_NINE, CURSOR_KEYS, HOME_AND_END, SMALL_ARROWS, SUFFIXES,
};
use std::alloc::{AllocError, Global};
use termwiz_base::Modifiers;
use termwiz_keymap::keymap::KeyMap;
use termwiz_keys::types::KeyEvent;

// ESC [ and a letter: a cursor key.
#[tactic(auto, unfolding(termwiz_grammar::specs::Table::cursor_keys_rows))]
pub(super) fn cursor_keys(alloc: Global, keys: &mut KeyMap<KeyEvent>) -> Result<(), AllocError>
    ensures { OnOk result (keys.new ≡ with_rows keys.old cursor_keys_rows) }
{
    insert_each_with(alloc, keys, "\x1b[", CURSOR_KEYS, Modifiers::NONE)
}

// ESC [1 s and a letter: a cursor key, with the modifiers of the suffix s.
#[tactic(auto, unfolding(termwiz_grammar::specs::Table::modified_cursor_keys_rows))]
pub(super) fn modified_cursor_keys(
    alloc: Global,
    keys: &mut KeyMap<KeyEvent>,
) -> Result<(), AllocError>
    ensures { OnOk result (keys.new ≡ with_rows keys.old modified_cursor_keys_rows) }
{
    insert_each_suffixed(alloc, keys, "\x1b[1", SUFFIXES, CURSOR_KEYS)
}

// ESC [ and a lower case letter: an arrow with Shift.
#[tactic(auto, unfolding(termwiz_grammar::specs::Table::shift_arrows_rows))]
pub(super) fn shift_arrows(alloc: Global, keys: &mut KeyMap<KeyEvent>) -> Result<(), AllocError>
    ensures { OnOk result (keys.new ≡ with_rows keys.old shift_arrows_rows) }
{
    insert_each_with(alloc, keys, "\x1b[", SMALL_ARROWS, Modifiers::SHIFT)
}

// ESC O and a lower case letter: an arrow with Ctrl.
#[tactic(auto, unfolding(termwiz_grammar::specs::Table::ctrl_arrows_rows))]
pub(super) fn ctrl_arrows(alloc: Global, keys: &mut KeyMap<KeyEvent>) -> Result<(), AllocError>
    ensures { OnOk result (keys.new ≡ with_rows keys.old ctrl_arrows_rows) }
{
    insert_each_with(alloc, keys, "\x1bO", SMALL_ARROWS, Modifiers::CTRL)
}

// ESC O and a letter: an arrow in application cursor mode.
#[tactic(auto, unfolding(termwiz_grammar::specs::Table::application_arrows_rows))]
pub(super) fn application_arrows(
    alloc: Global,
    keys: &mut KeyMap<KeyEvent>,
) -> Result<(), AllocError>
    ensures { OnOk result (keys.new ≡ with_rows keys.old application_arrows_rows) }
{
    insert_each_with(alloc, keys, "\x1bO", APPLICATION_ARROWS, Modifiers::NONE)
}

// ESC O1 s and a letter: such an arrow, with the modifiers of the suffix s.
#[tactic(auto, unfolding(termwiz_grammar::specs::Table::modified_application_arrows_rows))]
pub(super) fn modified_application_arrows(
    alloc: Global,
    keys: &mut KeyMap<KeyEvent>,
) -> Result<(), AllocError>
    ensures { OnOk result (keys.new ≡ with_rows keys.old modified_application_arrows_rows) }
{
    insert_each_suffixed(
        alloc,
        keys,
        "\x1bO1",
        &SUFFIXES[..BEFORE_NINE],
        APPLICATION_ARROWS,
    )
}

// ESC O and H or F: Home or End in application cursor mode.
#[tactic(auto, unfolding(termwiz_grammar::specs::Table::application_home_end_rows))]
pub(super) fn application_home_end(
    alloc: Global,
    keys: &mut KeyMap<KeyEvent>,
) -> Result<(), AllocError>
    ensures { OnOk result (keys.new ≡ with_rows keys.old application_home_end_rows) }
{
    insert_each_with(alloc, keys, "\x1bO", HOME_AND_END, Modifiers::NONE)
}
