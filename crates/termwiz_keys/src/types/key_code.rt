// What a key's code says by itself: the key with Shift, and whether it is a modifier.

ghost use Rattle.std.specs.Prelude.{◌≡◌, ◌↔◌, IsTrue};
ghost use Rattle.termwiz_keys.specs.KeyCodes.{IsModifier, shifted};

use super::KeyCode;
use termwiz_base::{Flags, Modifiers};

impl KeyCode {
    /// The key as Shift makes it: where Shift is held, a lowercase ASCII letter becomes the uppercase one. Any other
    /// key stays as it is.
    #[tactic(auto, unfolding(crate::specs::KeyCodes::shifted))]
    pub fn normalize_shift_to_upper_case(self, modifiers: Modifiers) -> KeyCode
        ensures { result ≡ shifted self modifiers.0 }
    {
        match self {
            KeyCode::Char(c) if c.is_ascii_lowercase() && modifiers.contains(Modifiers::SHIFT) => {
                KeyCode::Char(c.to_ascii_uppercase())
            }
            _ => self,
        }
    }

    /// Whether the key is held to modify another one, as Shift is. Keys that lock, such as `CapsLock`, are none of
    /// these.
    pub fn is_modifier(self) -> bool
        ensures { IsTrue result ↔ IsModifier self }
    {
        matches!(
            self,
            KeyCode::Hyper
                | KeyCode::Super
                | KeyCode::Meta
                | KeyCode::Shift
                | KeyCode::LeftShift
                | KeyCode::RightShift
                | KeyCode::Control
                | KeyCode::LeftControl
                | KeyCode::RightControl
                | KeyCode::Alt
                | KeyCode::LeftAlt
                | KeyCode::RightAlt
                | KeyCode::LeftWindows
                | KeyCode::RightWindows
        )
    }
}
