//! Laws of the types' values: which are equal, what a clone is, what is hashed, and which bits the flags have. Each is
//! the contract of a function without effect. A quote such as `⟦<Modifiers as PartialEq>⟧.eq` is what the calls of that
//! trait answer, by the trait's own contracts.
#![tactic(auto, unfolding(bitflags::proofs::OnLiterals::bitflags_on_literals))]

ghost use Rattle.std.specs.Prelude.{◌≡◌, ◌∷◌, [], map};
ghost use Rattle.bitflags.specs.Sets.{known_bits};
ghost use Rattle.termwiz_base.specs.Kitty as kitty;
ghost use Rattle.termwiz_base.specs.Laws.{AlwaysCloned, ClonesEqual, EveryByUnion, HashesAgree, TellsEqual};
ghost use Rattle.termwiz_base.specs.Modifiers as modifiers;

use crate::kitty::KittyKeyboardFlags;
use crate::modifiers::Modifiers;
use crate::mouse::{MouseButton, MouseReport};
use bitflags::Flags;
use std::hash::Hash;

/// Two values are equal by `==` exactly if they are the same value.
pub fn equality()
    ensures modifiers { TellsEqual ⟦<Modifiers as PartialEq>⟧.eq }
    ensures kitty_flags { TellsEqual ⟦<KittyKeyboardFlags as PartialEq>⟧.eq }
    ensures mouse_button { TellsEqual ⟦<MouseButton as PartialEq>⟧.eq }
    ensures mouse_report { TellsEqual ⟦<MouseReport as PartialEq>⟧.eq }
{}

/// A clone equals its original, and no clone fails.
pub fn clones()
    ensures modifiers { ClonesEqual ⟦<Modifiers as Clone>⟧.is_clone }
    ensures modifiers_succeed { AlwaysCloned ⟦<Modifiers as Clone>⟧.is_infallible }
    ensures kitty_flags { ClonesEqual ⟦<KittyKeyboardFlags as Clone>⟧.is_clone }
    ensures kitty_flags_succeed { AlwaysCloned ⟦<KittyKeyboardFlags as Clone>⟧.is_infallible }
    ensures mouse_button { ClonesEqual ⟦<MouseButton as Clone>⟧.is_clone }
    ensures mouse_button_succeed { AlwaysCloned ⟦<MouseButton as Clone>⟧.is_infallible }
    ensures mouse_report { ClonesEqual ⟦<MouseReport as Clone>⟧.is_clone }
    ensures mouse_report_succeed { AlwaysCloned ⟦<MouseReport as Clone>⟧.is_infallible }
{}

/// Equal modifiers have equal hashes: what they write to a hasher is the same.
pub fn hashes()
    ensures { HashesAgree ⟦<Modifiers as PartialEq>⟧.eq ⟦<Modifiers as Hash>⟧.hash_input }
{}

/// The contracts of [`Flags`] hold at [`Modifiers`], and the set that they speak of is the number in the field. `named` and
/// `table` list the bits of each flag, as a constant and in the table of flags, and `known` those of all together. By
/// default no flag is set.
pub fn modifier_flags()
    ensures exact { ⟦<Modifiers as Flags>⟧.exact }
    ensures bits { (held : Modifiers) → ⟦<Modifiers as Flags>⟧.set_of held ≡ held.0 }
    ensures table { map (λ row. row.1) ⟦<Modifiers as Flags>⟧.table ≡ modifiers.flag_bits }
    ensures known { known_bits ⟦<Modifiers as Flags>⟧.table ≡ modifiers.every_flag }
    ensures default { (held : Modifiers) → ⟦<Modifiers as Default>⟧.is_default held → held.0 ≡ 0 }
    ensures named { (Modifiers.NONE.0
        ∷ Modifiers.SHIFT.0
        ∷ Modifiers.ALT.0
        ∷ Modifiers.CTRL.0
        ∷ Modifiers.SUPER.0
        ∷ Modifiers.LEFT_ALT.0
        ∷ Modifiers.RIGHT_ALT.0
        ∷ Modifiers.LEADER.0
        ∷ Modifiers.LEFT_CTRL.0
        ∷ Modifiers.RIGHT_CTRL.0
        ∷ Modifiers.LEFT_SHIFT.0
        ∷ Modifiers.RIGHT_SHIFT.0
        ∷ [])
        ≡ modifiers.flag_bits }
{}

/// The same of [`KittyKeyboardFlags`], which has no default.
pub fn kitty_flags()
    ensures exact { ⟦<KittyKeyboardFlags as Flags>⟧.exact }
    ensures bits { (asked : KittyKeyboardFlags) → ⟦<KittyKeyboardFlags as Flags>⟧.set_of asked ≡ asked.0 }
    ensures table { map (λ row. row.1) ⟦<KittyKeyboardFlags as Flags>⟧.table ≡ kitty.flag_bits }
    ensures known { known_bits ⟦<KittyKeyboardFlags as Flags>⟧.table ≡ kitty.every_flag }
    ensures named { (KittyKeyboardFlags.NONE.0
        ∷ KittyKeyboardFlags.DISAMBIGUATE_ESCAPE_CODES.0
        ∷ KittyKeyboardFlags.REPORT_EVENT_TYPES.0
        ∷ KittyKeyboardFlags.REPORT_ALTERNATE_KEYS.0
        ∷ KittyKeyboardFlags.REPORT_ALL_KEYS_AS_ESCAPE_CODES.0
        ∷ KittyKeyboardFlags.REPORT_ASSOCIATED_TEXT.0
        ∷ [])
        ≡ kitty.flag_bits }
{}

/// A set of bits has every bit of another exactly if their union is the first set: the contract of `is_all` speaks of the union.
pub fn every_by_union()
    ensures { EveryByUnion }
{}
