// Rules whose sequences give a character by its number.
ghost use Rattle.std.specs.Prelude.{◌≡◌, OnOk};
ghost use Rattle.termwiz_grammar.specs.Table.{with_rows, key_of_code, csi_u_rows, modify_other_keys_of, modify_other_keys_rows};

use crate::insert::{insert_suffixed, key_with, together};
use crate::lists::{BEFORE_NINE, SUFFIXES};
use std::alloc::{AllocError, Global};
use std::fmt::Write;
use termwiz_base::Modifiers;
use termwiz_keymap::keymap::KeyMap;
use termwiz_keys::types::{KeyCode, KeyEvent};

// ESC [ c s u, c from 0 to 127 in decimal: the character c, with the modifiers of the suffix s.
#[tactic(auto, unfolding(termwiz_grammar::specs::Table::csi_u_rows))]
pub(super) fn csi_u(alloc: Global, keys: &mut KeyMap<KeyEvent>) -> Result<(), AllocError>
    ensures { OnOk result (keys.new ≡ with_rows keys.old csi_u_rows) }
{
    let suffixes = &SUFFIXES[..BEFORE_NINE];
    for code in 0..128u8 {
        let front = format!(in alloc; "\x1b[{code}")?;
        let key = character_of_code(code);
        insert_suffixed(alloc, keys, front.as_str(), suffixes, "u", key)?;
    }
    Ok(())
}

// ESC [27 s ; c ~, s not empty and c from 0 to 127 in decimal: the key of c, with the modifiers of the suffix s.
#[tactic(auto, unfolding(termwiz_grammar::specs::Table::modify_other_keys_rows))]
pub(super) fn modify_other_keys(
    alloc: Global,
    keys: &mut KeyMap<KeyEvent>,
) -> Result<(), AllocError>
    ensures { OnOk result (keys.new ≡ with_rows keys.old modify_other_keys_rows) }
{
    let suffixes = &SUFFIXES[1..BEFORE_NINE];
    for (suffix, held) in suffixes {
        insert_other_keys(alloc, keys, suffix, together(held))?;
    }
    Ok(())
}

// The rows of `modify_other_keys` with one suffix, which stands for these modifiers.
fn insert_other_keys(
    alloc: Global,
    keys: &mut KeyMap<KeyEvent>,
    suffix: &str,
    modifiers: Modifiers,
) -> Result<(), AllocError>
    ensures { OnOk result (keys.new ≡ with_rows keys.old (modify_other_keys_of (suffix.now, modifiers.0))) }
{
    let mut bytes = String::new(alloc);
    for code in 0..128u8 {
        bytes.clear();
        write!(bytes, "\x1b[27{suffix};{code}~")?;
        keys.insert(bytes.as_bytes(), key_with(key_of_code(code), modifiers))?;
    }
    Ok(())
}

// The key for a number in a CSI u sequence: the character itself, also for a control character.
fn character_of_code(code: u8) -> KeyCode
    ensures { result ≡ KeyCode.Char code }
{
    KeyCode::Char(code as char)
}

// The key for a number in a modifyOtherKeys sequence: the key that sends this control character, if there is one, and
// otherwise the character itself.
fn key_of_code(code: u8) -> KeyCode
    ensures { result ≡ key_of_code code }
{
    match code {
        8 | 127 => KeyCode::Backspace,
        9 => KeyCode::Tab,
        10 | 13 => KeyCode::Enter,
        27 => KeyCode::Escape,
        _ => character_of_code(code),
    }
}
