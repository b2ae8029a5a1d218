// What the handle of bindings leads to.
use termwiz_bindings::bindings::Bindings;

/// A map from chords to numbers.
#[derive(Drop)]
pub struct ChordBindings {
    pub(crate) chords: Bindings<u64>,
}
