//! Laws of the types' values, each the contract of a function without effect: what their own `==`, `clone`, `hash`, `default` and
//! flags answer. A quote such as `⟦<KeyCode as PartialEq>⟧.eq` is what the calls of that trait answer, by the trait's contracts.
ghost use Rattle.std.specs.Prelude.{◌≡◌, ◌∷◌, [], map};
ghost use Rattle.bitflags.specs.Sets.{known_bits};
ghost use Rattle.termwiz_base.specs.Laws.{AlwaysCloned, ClonesEqual, HashesAgree, TellsEqual};
ghost use Rattle.termwiz_keys.specs.Buttons as buttons;

use crate::encode::{EncodeError, KeyCodeEncodeModes, KeyboardEncoding};
use crate::types::{
    InputEvent, KeyCode, KeyEvent, MouseButtons, MouseEvent, PastedText, PixelMouseEvent,
};
use bitflags::Flags;
use std::hash::Hash;

/// Two values of the types of keys, events and encodings are equal by `==` exactly if they are the same value: pasted texts if
/// they have the same bytes.
pub fn equality()
    ensures key_code { TellsEqual ⟦<KeyCode as PartialEq>⟧.eq }
    ensures key_event { TellsEqual ⟦<KeyEvent as PartialEq>⟧.eq }
    ensures mouse_buttons { TellsEqual ⟦<MouseButtons as PartialEq>⟧.eq }
    ensures mouse_event { TellsEqual ⟦<MouseEvent as PartialEq>⟧.eq }
    ensures pixel_mouse_event { TellsEqual ⟦<PixelMouseEvent as PartialEq>⟧.eq }
    ensures pasted_text { TellsEqual ⟦<PastedText as PartialEq>⟧.eq }
    ensures input_event { TellsEqual ⟦<InputEvent as PartialEq>⟧.eq }
    ensures encoding { TellsEqual ⟦<KeyboardEncoding as PartialEq>⟧.eq }
    ensures encode_error { TellsEqual ⟦<EncodeError as PartialEq>⟧.eq }
{}

/// A clone equals its original, and no clone fails. (That of an event is said at [`InputEvent::clone`], since it takes memory.)
pub fn clones()
    ensures key_code { ClonesEqual ⟦<KeyCode as Clone>⟧.is_clone }
    ensures key_code_succeeds { AlwaysCloned ⟦<KeyCode as Clone>⟧.is_infallible }
    ensures key_event { ClonesEqual ⟦<KeyEvent as Clone>⟧.is_clone }
    ensures key_event_succeeds { AlwaysCloned ⟦<KeyEvent as Clone>⟧.is_infallible }
    ensures mouse_buttons { ClonesEqual ⟦<MouseButtons as Clone>⟧.is_clone }
    ensures mouse_buttons_succeed { AlwaysCloned ⟦<MouseButtons as Clone>⟧.is_infallible }
    ensures mouse_event { ClonesEqual ⟦<MouseEvent as Clone>⟧.is_clone }
    ensures mouse_event_succeeds { AlwaysCloned ⟦<MouseEvent as Clone>⟧.is_infallible }
    ensures pixel_mouse_event { ClonesEqual ⟦<PixelMouseEvent as Clone>⟧.is_clone }
    ensures pixel_mouse_event_succeeds { AlwaysCloned ⟦<PixelMouseEvent as Clone>⟧.is_infallible }
    ensures encoding { ClonesEqual ⟦<KeyboardEncoding as Clone>⟧.is_clone }
    ensures encoding_succeeds { AlwaysCloned ⟦<KeyboardEncoding as Clone>⟧.is_infallible }
    ensures modes { ClonesEqual ⟦<KeyCodeEncodeModes as Clone>⟧.is_clone }
    ensures modes_succeed { AlwaysCloned ⟦<KeyCodeEncodeModes as Clone>⟧.is_infallible }
    ensures encode_error { ClonesEqual ⟦<EncodeError as Clone>⟧.is_clone }
    ensures encode_error_succeeds { AlwaysCloned ⟦<EncodeError as Clone>⟧.is_infallible }
{}

/// Equal keys have equal hashes: what they write to a hasher, of whatever type, is the same.
pub fn hashes()
    ensures { HashesAgree ⟦<KeyCode as PartialEq>⟧.eq ⟦<KeyCode as Hash>⟧.hash_input }
{}

/// The contracts of [`Flags`] hold at [`MouseButtons`], and the set that they speak of is the number in the field. `named` and
/// `table` list the bits of each flag, as a constant and in the table of flags, and `known` those of all together. By default
/// no flag is set.
#[tactic(auto, unfolding(bitflags::proofs::OnLiterals::bitflags_on_literals))]
pub fn mouse_button_flags()
    ensures exact { ⟦<MouseButtons as Flags>⟧.exact }
    ensures bits { (held : MouseButtons) → ⟦<MouseButtons as Flags>⟧.set_of held ≡ held.0 }
    ensures table { map (λ row. row.1) ⟦<MouseButtons as Flags>⟧.table ≡ buttons.flag_bits }
    ensures known { known_bits ⟦<MouseButtons as Flags>⟧.table ≡ buttons.every_button }
    ensures default { (held : MouseButtons) → ⟦<MouseButtons as Default>⟧.is_default held → held.0 ≡ 0 }
    ensures named { (MouseButtons.NONE.0
        ∷ MouseButtons.LEFT.0
        ∷ MouseButtons.RIGHT.0
        ∷ MouseButtons.MIDDLE.0
        ∷ MouseButtons.VERT_WHEEL.0
        ∷ MouseButtons.HORZ_WHEEL.0
        ∷ MouseButtons.WHEEL_POSITIVE.0
        ∷ [])
        ≡ buttons.flag_bits }
{}
