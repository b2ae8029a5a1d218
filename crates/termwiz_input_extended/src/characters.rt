// What is known by few bytes at the front of a text: characters, control characters, and ESC O and a letter.
ghost use Rattle.std.specs.Prelude.{◌↔◌, ◌∷◌, [], Bool, Contains, IfSome, IsTrue};
ghost use Rattle.termwiz_grammar.specs.Table.{rows as table_rows};
ghost use Rattle.termwiz_input_extended.specs.NextItems.{IsControlKey, IsPlainCharacter, IsSs3Key};

use crate::form::ESCAPE;
use termwiz_base::{Flags, Modifiers};
use termwiz_extended_events::types::Reading;
use termwiz_input::input::{character_at, is_printable_ascii};
use termwiz_keys::types::{KeyCode, KeyEvent};

// The first byte that isn't ASCII.
const HIGH: u8 = 0x80;

// Whether a byte is a control character, but ESC, that is a row of the sequence table.
pub(crate) fn is_control_key(byte: u8) -> bool
    ensures { IsTrue result ↔ IsControlKey byte }
{
    matches!(byte, 1..=26 | 0x7f)
}

// The key of such a character: its row in the sequence table, which this finds without a lookup.
#[inline(never)]
pub(crate) fn control_key(byte: u8) -> KeyEvent
    requires { IsControlKey byte }
    ensures { Contains table_rows (byte ∷ [], result) }
{
    let key = match byte {
        0x08 | 0x7f => KeyCode::Backspace,
        b'\t' => KeyCode::Tab,
        b'\n' | b'\r' => KeyCode::Enter,
        _ => {
            let (key, modifiers) = (KeyCode::Char(char::from(b'a' - 1 + byte)), Modifiers::CTRL);
            return KeyEvent { key, modifiers };
        }
    };
    let modifiers = Modifiers::NONE;
    KeyEvent { key, modifiers }
}

// The key of ESC O and a letter: its row in the sequence table, which this finds without a lookup. It is an item, whatever follows it.
pub(crate) fn ss3_key(text: &[u8]) -> Option<KeyEvent>
    ensures { IfSome result (λ key. IsSs3Key text.now key) }
{
    let key = match text {
        [ESCAPE, b'O', b'A', ..] => KeyCode::ApplicationUpArrow,
        [ESCAPE, b'O', b'B', ..] => KeyCode::ApplicationDownArrow,
        [ESCAPE, b'O', b'C', ..] => KeyCode::ApplicationRightArrow,
        [ESCAPE, b'O', b'D', ..] => KeyCode::ApplicationLeftArrow,
        [ESCAPE, b'O', b'F', ..] => KeyCode::End,
        [ESCAPE, b'O', b'H', ..] => KeyCode::Home,
        [ESCAPE, b'O', letter @ b'P'..=b'S', ..] => KeyCode::Function(*letter - b'O'),
        _ => return None,
    };
    let modifiers = Modifiers::NONE;
    Some(KeyEvent { key, modifiers })
}

// The character at the front of a text, and the number of its bytes: printable ASCII, or one of several bytes. It is an item, whatever
// follows it.
#[inline(always)]
pub(crate) fn match_character(text: &[u8]) -> Option<(char, usize)>
    ensures { IfSome result (λ found. (reading : Reading) (more : Bool)
        → IsPlainCharacter reading text.now more found.0 found.1) }
{
    match text {
        [first, ..] if is_printable_ascii(*first) => Some((char::from(*first), 1)),
        [first, ..] if *first >= HIGH => character_at(text),
        _ => None,
    }
}
