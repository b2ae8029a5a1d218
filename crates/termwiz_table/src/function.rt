// Rules of the function keys and of the editing block.
ghost use Rattle.std.specs.Prelude.{◌≡◌, flat_map, OnOk};
ghost use Rattle.termwiz_table.specs.CodeLists.{suffixes_with_bits};
ghost use Rattle.termwiz_grammar.specs.Table.{with_rows, function_key_of, keys_by_digit, ss3_function_keys_rows, lettered_function_keys_rows, numbered_function_keys_rows, edit_keys_rows, modified_edit_keys_rows, high_function_keys_rows};

use crate::insert::{insert_each_suffixed, insert_each_with, insert_suffixed};
use crate::lists::{
    BEFORE_NINE, DIGIT_ENDS, DIGIT_KEYS, FIRST_FUNCTIONS, MODIFIED_DIGIT_KEYS, SUFFIXES, Suffix,
};
use std::alloc::{AllocError, Global};
use termwiz_base::Modifiers;
use termwiz_keymap::keymap::KeyMap;
use termwiz_keys::function_codes::{FUNCTION_CODES, HIGH_FUNCTION_CODES};
use termwiz_keys::types::{KeyCode, KeyEvent};

// ESC O and P to S: F1 to F4.
#[tactic(auto, unfolding(termwiz_grammar::specs::Table::ss3_function_keys_rows))]
pub(super) fn ss3_function_keys(
    alloc: Global,
    keys: &mut KeyMap<KeyEvent>,
) -> Result<(), AllocError>
    ensures { OnOk result (keys.new ≡ with_rows keys.old ss3_function_keys_rows) }
{
    insert_each_with(alloc, keys, "\x1bO", FIRST_FUNCTIONS, Modifiers::NONE)
}

// ESC [1 s and P to S: F1 to F4, with the modifiers of the suffix s.
#[tactic(auto, unfolding(termwiz_grammar::specs::Table::lettered_function_keys_rows))]
pub(super) fn lettered_function_keys(
    alloc: Global,
    keys: &mut KeyMap<KeyEvent>,
) -> Result<(), AllocError>
    ensures { OnOk result (keys.new ≡ with_rows keys.old lettered_function_keys_rows) }
{
    insert_each_suffixed(alloc, keys, "\x1b[1", SUFFIXES, FIRST_FUNCTIONS)
}

// ESC [ code s ~: function keys by their codes, with the modifiers of the suffix s.
fn insert_function_keys(
    alloc: Global,
    keys: &mut KeyMap<KeyEvent>,
    codes: &[(u8, u8)],
) -> Result<(), AllocError>
    ensures { OnOk result (keys.new ≡ with_rows keys.old (flat_map function_key_of codes.now)) }
{
    for (code, number) in codes {
        let front = format!(in alloc; "\x1b[{code}")?;
        let key = KeyCode::Function(*number);
        insert_suffixed(alloc, keys, front.as_str(), SUFFIXES, "~", key)?;
    }
    Ok(())
}

// The same for F1 to F20.
#[tactic(auto, unfolding(termwiz_grammar::specs::Table::numbered_function_keys_rows))]
pub(super) fn numbered_function_keys(
    alloc: Global,
    keys: &mut KeyMap<KeyEvent>,
) -> Result<(), AllocError>
    ensures { OnOk result (keys.new ≡ with_rows keys.old numbered_function_keys_rows) }
{
    insert_function_keys(alloc, keys, FUNCTION_CODES)
}

// The same for F21 to F24.
#[tactic(auto, unfolding(termwiz_grammar::specs::Table::high_function_keys_rows))]
pub(super) fn high_function_keys(
    alloc: Global,
    keys: &mut KeyMap<KeyEvent>,
) -> Result<(), AllocError>
    ensures { OnOk result (keys.new ≡ with_rows keys.old high_function_keys_rows) }
{
    insert_function_keys(alloc, keys, HIGH_FUNCTION_CODES)
}

// ESC [ digit s end: each key of a list by its digit, with the modifiers of the suffix s.
fn insert_by_digit(
    alloc: Global,
    keys: &mut KeyMap<KeyEvent>,
    suffixes: &[Suffix],
    end: &str,
    list: &[(u8, KeyCode)],
) -> Result<(), AllocError>
    ensures { OnOk result (keys.new ≡ with_rows keys.old (keys_by_digit (suffixes_with_bits suffixes.now) end.now list.now)) }
{
    for (digit, key) in list {
        let front = format!(in alloc; "\x1b[{digit}")?;
        insert_suffixed(alloc, keys, front.as_str(), suffixes, end, *key)?;
    }
    Ok(())
}

// ESC [ digit end: a key of the editing block, with the modifiers of the end.
#[tactic(auto, unfolding(termwiz_grammar::specs::Table::edit_keys_rows))]
pub(super) fn edit_keys(alloc: Global, keys: &mut KeyMap<KeyEvent>) -> Result<(), AllocError>
    ensures { OnOk result (keys.new ≡ with_rows keys.old edit_keys_rows) }
{
    insert_by_digit(alloc, keys, DIGIT_ENDS, "", DIGIT_KEYS)
}

// ESC [ digit s ~, s not empty: Insert, Delete, PageUp and PageDown, with the modifiers of the suffix s.
#[tactic(auto, unfolding(termwiz_grammar::specs::Table::modified_edit_keys_rows))]
pub(super) fn modified_edit_keys(
    alloc: Global,
    keys: &mut KeyMap<KeyEvent>,
) -> Result<(), AllocError>
    ensures { OnOk result (keys.new ≡ with_rows keys.old modified_edit_keys_rows) }
{
    insert_by_digit(
        alloc,
        keys,
        &SUFFIXES[1..BEFORE_NINE],
        "~",
        MODIFIED_DIGIT_KEYS,
    )
}
