// What the handle of a key map leads to.
use termwiz_input::keymap::KeyMap;

/// A map from byte strings to numbers.
#[derive(Drop)]
pub struct Bindings {
    pub(crate) map: KeyMap<u64>,
}
