// What the numbers of a key that is to be encoded stand for.
ghost use Rattle.std.specs.Prelude.{◌≡◌, ◌↔◌, Some};
ghost use Rattle.termwiz_base.specs.declared.kitty.KittyKeyboardFlags.{KittyKeyboardFlags as Asked};
ghost use Rattle.termwiz_base.specs.declared.modifiers.Modifiers.{Modifiers as Held};
ghost use Rattle.termwiz_input.specs.KeyboardEncoding.{KeyboardEncoding as Encoding};
ghost use Rattle.termwiz_input.specs.KeyCodeEncodeModes.{KeyCodeEncodeModes as Modes};
ghost use Rattle.hedrugal.specs.declared.modes.Press.{Press as Pressed};
ghost use Rattle.hedrugal.specs.Presses.{AreFlags, AreModes, AreModifiers, IsEncoding, IsPress};

use bitflags::Flags;
use termwiz_base::{KittyKeyboardFlags, Modifiers};
use termwiz_bindings::numbers::key_of;
use termwiz_input::input::{KeyCode, KeyCodeEncodeModes, KeyboardEncoding};

/// `hed_modes`: the modes of a terminal that change the text of a key.
#[repr(C)]
#[derive(Clone, Copy)]
pub struct CModes {
    /// The level of modifyOtherKeys, if `has_modify_other_keys` is true.
    pub modify_other_keys: i64,
    /// 0 for xterm's encoding, 1 for CSI u, 2 for Win32, 3 for kitty's.
    pub encoding: u8,
    /// The flags of kitty's encoding.
    pub kitty_flags: u8,
    /// Application cursor mode.
    pub application_cursor_keys: bool,
    /// Newline mode.
    pub newline_mode: bool,
    /// Whether modifyOtherKeys is on.
    pub has_modify_other_keys: bool,
}

// A key, the modifiers that are held with it, and the modes of the terminal.
#[derive(Clone, Copy)]
pub(crate) struct Press {
    pub(crate) key: KeyCode,
    pub(crate) modifiers: Modifiers,
    pub(crate) modes: KeyCodeEncodeModes,
}

// The modifiers of these bits. `None` if a bit has no name.
#[tactic(auto, using(std::proofs::lemmas::Nat::and_comm), unfolding(bitflags::proofs::OnLiterals::bitflags_on_literals))]
pub(crate) fn modifiers_of(bits: u16) -> Option<Modifiers>
    ensures { (held : Held) → (result ≡ Some held) ↔ AreModifiers held bits }
{
    Modifiers::from_bits(bits)
}

// The flags of kitty's protocol with these bits. `None` if a bit has no name.
#[tactic(auto, using(std::proofs::lemmas::Nat::and_comm), unfolding(bitflags::proofs::OnLiterals::bitflags_on_literals))]
pub(crate) fn flags_of(bits: u8) -> Option<KittyKeyboardFlags>
    ensures { (asked : Asked) → (result ≡ Some asked) ↔ AreFlags asked bits }
{
    KittyKeyboardFlags::from_bits(u16::from(bits))
}

// The encoding with this number. `None` if there is none, or a bit of kitty's flags has no name.
fn encoding_of(number: u8, kitty_flags: u8) -> Option<KeyboardEncoding>
    ensures { (encoding : Encoding) → (result ≡ Some encoding) ↔ IsEncoding encoding number kitty_flags }
{
    match number {
        0 => Some(KeyboardEncoding::Xterm),
        1 => Some(KeyboardEncoding::CsiU),
        2 => Some(KeyboardEncoding::Win32),
        3 => Some(KeyboardEncoding::Kitty(flags_of(kitty_flags)?)),
        _ => None,
    }
}

// The modes that these numbers stand for.
pub(crate) fn modes_of(modes: &CModes) -> Option<KeyCodeEncodeModes>
    ensures { (m : Modes) → (result ≡ Some m) ↔ AreModes m modes.now }
{
    Some(KeyCodeEncodeModes {
        encoding: encoding_of(modes.encoding, modes.kitty_flags)?,
        application_cursor_keys: modes.application_cursor_keys,
        newline_mode: modes.newline_mode,
        modify_other_keys: modes
            .has_modify_other_keys
            .then_some(modes.modify_other_keys),
    })
}

// The key, the modifiers and the modes that these numbers stand for.
pub(crate) fn press_of(key: u16, detail: u32, modifiers: u16, modes: &CModes) -> Option<Press>
    ensures { (press : Pressed) → (result ≡ Some press) ↔ IsPress press key detail modifiers modes.now }
{
    Some(Press {
        key: key_of(key, detail)?,
        modifiers: modifiers_of(modifiers)?,
        modes: modes_of(modes)?,
    })
}
