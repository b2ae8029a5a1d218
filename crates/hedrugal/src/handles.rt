// What C holds: `hed_parser`, `hed_keymap` and `hed_bindings`. Each is one of these, or none, which is all zero. It may be moved; then only its
// new place counts.
ghost use Rattle.std.specs.Prelude.{◌≡◌, is_some};

use crate::words::{BindingsWord, MapWord, ParserWord};

mod lends;
mod views;

/// `hed_parser`: a parser, or none.
#[repr(C)]
pub struct ParserHandle {
    live: bool,
    pub state: ParserWord,
    ghost agrees: { live ≡ is_some state.held },
}

/// `hed_keymap`: a key map, or none.
#[repr(C)]
pub struct MapHandle {
    live: bool,
    pub state: MapWord,
    ghost agrees: { live ≡ is_some state.held },
}

/// `hed_bindings`: bindings, or none.
#[repr(C)]
pub struct BindingsHandle {
    live: bool,
    pub state: BindingsWord,
    ghost agrees: { live ≡ is_some state.held },
}
