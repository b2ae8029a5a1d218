// The pointers of what C holds. Each owns a block of its own kind, or nothing. C carries it and never reads it.
ghost use Rattle.std.specs.Prelude.{Option};
ghost use Rattle.std.specs.Coded.{coded_option};
ghost use Rattle.hedrugal.specs.declared.bindings.Bindings.{Bindings};
ghost use Rattle.hedrugal.specs.declared.chord_bindings.ChordBindings.{ChordBindings};
ghost use Rattle.hedrugal.specs.declared.parser_and_text.ParserAndText.{ParserAndText};
ghost use Rattle.hedrugal.specs.contracts.bindings.Bindings as bindings;
ghost use Rattle.hedrugal.specs.contracts.chord_bindings.ChordBindings as chord_bindings;
ghost use Rattle.hedrugal.specs.contracts.parser_and_text.ParserAndText as parser;

use std::marker::Model;

/// Of a parser.
#[repr(C)]
pub struct ParserWord {
    pointer: *mut u8,
    pub ghost held: { Option ParserAndText } by { coded_option parser.the_row.coded },
}

impl Model for ParserWord {
    ghost use Rattle.hedrugal.specs.Owned.{owned};
    ghost use Rattle.hedrugal.specs.contracts.parser_and_text.ParserAndText.{the_row};

    ghost also_owns = { λ s. owned the_row s.pointer s.held };
}

/// Of a key map.
#[repr(C)]
pub struct MapWord {
    pointer: *mut u8,
    pub ghost held: { Option Bindings } by { coded_option bindings.the_row.coded },
}

impl Model for MapWord {
    ghost use Rattle.hedrugal.specs.Owned.{owned};
    ghost use Rattle.hedrugal.specs.contracts.bindings.Bindings.{the_row};

    ghost also_owns = { λ s. owned the_row s.pointer s.held };
}

/// Of bindings.
#[repr(C)]
pub struct BindingsWord {
    pointer: *mut u8,
    pub ghost held: { Option ChordBindings } by { coded_option chord_bindings.the_row.coded },
}

impl Model for BindingsWord {
    ghost use Rattle.hedrugal.specs.Owned.{owned};
    ghost use Rattle.hedrugal.specs.contracts.chord_bindings.ChordBindings.{the_row};

    ghost also_owns = { λ s. owned the_row s.pointer s.held };
}

// SAFETY: the value in each block may be sent, and any thread may free the block, as proofs/Crossing.antt shows.
unsafe impl Send for ParserWord {}

unsafe impl Send for MapWord {}

unsafe impl Send for BindingsWord {}
