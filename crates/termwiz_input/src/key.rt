// Keys as events carry them.
ghost use Rattle.std.specs.Prelude.{◌≡◌};
ghost use Rattle.termwiz_keys.specs.Keys.{plain, escape, with_alt};

use termwiz_base::{Flags, Modifiers};
use termwiz_keys::types::{KeyCode, KeyEvent};

// The key Escape without modifiers, as a value to borrow.
pub(crate) const ESCAPE_KEY: KeyEvent = KeyEvent {
    key: KeyCode::Escape,
    modifiers: Modifiers::NONE,
};

/// The key Escape without modifiers.
pub fn escape_key() -> KeyEvent
    ensures { result ≡ escape }
{
    KeyEvent {
        key: KeyCode::Escape,
        modifiers: Modifiers::NONE,
    }
}

/// A copy of the key.
pub fn copied(key: &KeyEvent) -> KeyEvent
    ensures { result ≡ key.now }
{
    KeyEvent {
        key: key.key,
        modifiers: key.modifiers,
    }
}

/// The key of a character, without modifiers.
pub fn plain_key(character: char) -> KeyEvent
    ensures { result ≡ plain character }
{
    KeyEvent {
        key: KeyCode::Char(character),
        modifiers: Modifiers::NONE,
    }
}

/// The same key with ALT added to its modifiers.
pub fn alt_key(key: KeyEvent) -> KeyEvent
    ensures { result ≡ with_alt key }
{
    KeyEvent {
        key: key.key,
        modifiers: key.modifiers.union(Modifiers::ALT),
    }
}
