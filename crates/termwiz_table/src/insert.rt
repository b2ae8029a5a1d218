// Puts rows into a key map that differ in their suffixes and keys alone.
ghost use Rattle.std.specs.Prelude.{◌≡◌, ◌++◌, OnOk, string_bytes};
ghost use Rattle.termwiz_keys.specs.Keys.{key_with};
ghost use Rattle.termwiz_grammar.specs.Table.{with_rows, key_with_each_suffix, keys_with_each_suffix, keys_with_modifiers};
ghost use Rattle.termwiz_table.specs.CodeLists.{suffixes_with_bits, keys_with_texts, held_together};

use crate::lists::Suffix;
use bitflags::Flags;
use std::alloc::{AllocError, Global};
use termwiz_base::Modifiers;
use termwiz_keymap::keymap::KeyMap;
use termwiz_keys::types::{KeyCode, KeyEvent};

// A key with these modifiers.
pub(super) fn key_with(key: KeyCode, modifiers: Modifiers) -> KeyEvent
    ensures { result ≡ key_with key modifiers.0 }
{
    KeyEvent { key, modifiers }
}

// The modifiers of a list, held together.
pub(super) fn together(modifiers: &[Modifiers]) -> Modifiers
    ensures { result ≡ held_together modifiers.now }
{
    modifiers
        .iter()
        .fold(Modifiers::NONE, |held, modifier| held.union(*modifier))
}

// Sets a text to three others, one after another. It keeps its memory, so that one text serves many rows.
fn join_into(text: &mut String, front: &str, middle: &str, end: &str) -> Result<(), AllocError>
    ensures { OnOk result (string_bytes text.new ≡ front.now ++ middle.now ++ end.now) }
{
    text.clear();
    text.push_str(front)?;
    text.push_str(middle)?;
    text.push_str(end)
}

// One key with each suffix, between a front and an end.
pub(super) fn insert_suffixed(
    alloc: Global,
    keys: &mut KeyMap<KeyEvent>,
    front: &str,
    suffixes: &[Suffix],
    end: &str,
    key: KeyCode,
) -> Result<(), AllocError>
    ensures { OnOk result (keys.new ≡ with_rows keys.old (key_with_each_suffix front.now (suffixes_with_bits suffixes.now) end.now key)) }
{
    let mut bytes = String::new(alloc);
    for (suffix, held) in suffixes {
        join_into(&mut bytes, front, suffix, end)?;
        keys.insert(bytes.as_bytes(), key_with(key, together(held)))?;
    }
    Ok(())
}

// Each key of a list with each suffix, where the key's own text is the end.
pub(super) fn insert_each_suffixed(
    alloc: Global,
    keys: &mut KeyMap<KeyEvent>,
    front: &str,
    suffixes: &[Suffix],
    list: &[(&str, KeyCode)],
) -> Result<(), AllocError>
    ensures { OnOk result (keys.new ≡ with_rows keys.old (keys_with_each_suffix front.now (suffixes_with_bits suffixes.now) (keys_with_texts list.now))) }
{
    for (end, key) in list {
        insert_suffixed(alloc, keys, front, suffixes, end, *key)?;
    }
    Ok(())
}

// Each key of a list with these modifiers, behind a front.
pub(super) fn insert_each_with(
    alloc: Global,
    keys: &mut KeyMap<KeyEvent>,
    front: &str,
    list: &[(&str, KeyCode)],
    modifiers: Modifiers,
) -> Result<(), AllocError>
    ensures { OnOk result (keys.new ≡ with_rows keys.old (keys_with_modifiers front.now (keys_with_texts list.now) modifiers.0)) }
{
    let mut bytes = String::new(alloc);
    for (end, key) in list {
        join_into(&mut bytes, front, "", end)?;
        keys.insert(bytes.as_bytes(), key_with(*key, modifiers))?;
    }
    Ok(())
}
