// Rules of single bytes, of ESC and a byte, and of sequences that stand alone.
ghost use Rattle.std.specs.Prelude.{◌≡◌, OnOk};
ghost use Rattle.termwiz_grammar.specs.Table.{with_rows, is_letter, control_letters_rows, backspace_bytes_rows, tab_byte_rows, enter_bytes_rows, escape_byte_rows, alt_letters_rows, alt_bracket_rows, shift_tab_rows, paste_start_rows, paste_end_rows, ctrl_shift_tab_rows};

use crate::insert::key_with;
use bitflags::Flags;
use std::alloc::AllocError;
use termwiz_base::Modifiers;
use termwiz_keymap::keymap::KeyMap;
use termwiz_keys::types::{KeyCode, KeyEvent};

// The bytes 1 to 26 but 8, 9, 10 and 13: Ctrl and the letter at that place in the alphabet.
#[tactic(auto, unfolding(termwiz_grammar::specs::Table::control_letters_rows))]
pub(super) fn control_letters(keys: &mut KeyMap<KeyEvent>) -> Result<(), AllocError>
    ensures { OnOk result (keys.new ≡ with_rows keys.old control_letters_rows) }
{
    for byte in 1..27u8 {
        if is_letter(byte) {
            let letter = (b'a' - 1 + byte) as char;
            keys.insert(&[byte], key_with(KeyCode::Char(letter), Modifiers::CTRL))?;
        }
    }
    Ok(())
}

// Whether a control byte stands for no key of its own.
fn is_letter(byte: u8) -> bool
    ensures { result ≡ is_letter byte }
{
    !matches!(byte, 8 | 9 | 10 | 13)
}

// 8 and 0x7f: Backspace.
#[tactic(auto, unfolding(termwiz_grammar::specs::Table::backspace_bytes_rows))]
pub(super) fn backspace_bytes(keys: &mut KeyMap<KeyEvent>) -> Result<(), AllocError>
    ensures { OnOk result (keys.new ≡ with_rows keys.old backspace_bytes_rows) }
{
    keys.insert(b"\x08", key_with(KeyCode::Backspace, Modifiers::NONE))?;
    keys.insert(b"\x7f", key_with(KeyCode::Backspace, Modifiers::NONE))
}

// 9: Tab.
#[tactic(auto, unfolding(termwiz_grammar::specs::Table::tab_byte_rows))]
pub(super) fn tab_byte(keys: &mut KeyMap<KeyEvent>) -> Result<(), AllocError>
    ensures { OnOk result (keys.new ≡ with_rows keys.old tab_byte_rows) }
{
    keys.insert(b"\t", key_with(KeyCode::Tab, Modifiers::NONE))
}

// 10 and 13: Enter.
#[tactic(auto, unfolding(termwiz_grammar::specs::Table::enter_bytes_rows))]
pub(super) fn enter_bytes(keys: &mut KeyMap<KeyEvent>) -> Result<(), AllocError>
    ensures { OnOk result (keys.new ≡ with_rows keys.old enter_bytes_rows) }
{
    keys.insert(b"\n", key_with(KeyCode::Enter, Modifiers::NONE))?;
    keys.insert(b"\r", key_with(KeyCode::Enter, Modifiers::NONE))
}

// ESC: Escape.
#[tactic(auto, unfolding(termwiz_grammar::specs::Table::escape_byte_rows))]
pub(super) fn escape_byte(keys: &mut KeyMap<KeyEvent>) -> Result<(), AllocError>
    ensures { OnOk result (keys.new ≡ with_rows keys.old escape_byte_rows) }
{
    keys.insert(b"\x1b", key_with(KeyCode::Escape, Modifiers::NONE))
}

// ESC and an upper case letter: that letter with Alt.
#[tactic(auto, unfolding(termwiz_grammar::specs::Table::alt_letters_rows))]
pub(super) fn alt_letters(keys: &mut KeyMap<KeyEvent>) -> Result<(), AllocError>
    ensures { OnOk result (keys.new ≡ with_rows keys.old alt_letters_rows) }
{
    for letter in b'A'..b'Z' + 1 {
        keys.insert(
            &[0x1b, letter],
            key_with(KeyCode::Char(letter as char), Modifiers::ALT),
        )?;
    }
    Ok(())
}

// ESC [: the bracket with Alt.
#[tactic(auto, unfolding(termwiz_grammar::specs::Table::alt_bracket_rows))]
pub(super) fn alt_bracket(keys: &mut KeyMap<KeyEvent>) -> Result<(), AllocError>
    ensures { OnOk result (keys.new ≡ with_rows keys.old alt_bracket_rows) }
{
    keys.insert(b"\x1b[", key_with(KeyCode::Char('['), Modifiers::ALT))
}

// ESC [Z: Tab with Shift.
#[tactic(auto, unfolding(termwiz_grammar::specs::Table::shift_tab_rows))]
pub(super) fn shift_tab(keys: &mut KeyMap<KeyEvent>) -> Result<(), AllocError>
    ensures { OnOk result (keys.new ≡ with_rows keys.old shift_tab_rows) }
{
    keys.insert(b"\x1b[Z", key_with(KeyCode::Tab, Modifiers::SHIFT))
}

// ESC [200~: a pasted text begins.
#[tactic(auto, unfolding(termwiz_grammar::specs::Table::paste_start_rows))]
pub(super) fn paste_start(keys: &mut KeyMap<KeyEvent>) -> Result<(), AllocError>
    ensures { OnOk result (keys.new ≡ with_rows keys.old paste_start_rows) }
{
    keys.insert(
        b"\x1b[200~",
        key_with(KeyCode::InternalPasteStart, Modifiers::NONE),
    )
}

// ESC [201~: it ends.
#[tactic(auto, unfolding(termwiz_grammar::specs::Table::paste_end_rows))]
pub(super) fn paste_end(keys: &mut KeyMap<KeyEvent>) -> Result<(), AllocError>
    ensures { OnOk result (keys.new ≡ with_rows keys.old paste_end_rows) }
{
    keys.insert(
        b"\x1b[201~",
        key_with(KeyCode::InternalPasteEnd, Modifiers::NONE),
    )
}

// ESC [1;5Z: Tab with Ctrl and Shift.
#[tactic(auto, unfolding(termwiz_grammar::specs::Table::ctrl_shift_tab_rows))]
pub(super) fn ctrl_shift_tab(keys: &mut KeyMap<KeyEvent>) -> Result<(), AllocError>
    ensures { OnOk result (keys.new ≡ with_rows keys.old ctrl_shift_tab_rows) }
{
    keys.insert(
        b"\x1b[1;5Z",
        key_with(KeyCode::Tab, Modifiers::CTRL.union(Modifiers::SHIFT)),
    )
}
