//! Laws of the twins of presses by Kitty's protocol.
ghost use Rattle.termwiz_binding_laws.specs.KittyPresses.{KittyKeepsPresses, TypedKeysKeepPresses};

/// With the flags 1 and 4, and with 16 too if 8 is among them, the twin of a press or repeat has its very press. Only a key that is sent as the
/// text that it types may lose SHIFT. With flag 8 no key is sent so.
pub fn kitty_keeps_presses()
    ensures { KittyKeepsPresses }
{}

/// The press of what a key types is that of the key, but where SHIFT is held and lost: with the space, and with a character that doesn't show
/// SHIFT where what it is with SHIFT isn't told. Letters of ASCII show it, other capitals, and the signs that a PC-101 keyboard types with SHIFT.
pub fn typed_keys_keep_presses()
    ensures { TypedKeysKeepPresses }
{}
