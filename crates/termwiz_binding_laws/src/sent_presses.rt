//! The law of presses: what is sent for a key is read as the press of the key's twin.
ghost use Rattle.termwiz_binding_laws.specs.SentPresses.{PressesOfWhatIsSent};

/// What `KeyCode::encode` writes for a key in any modes, and what `encode_kitty` writes for a press or a repeat under any flags, is read as the
/// press of the key's twin, and nothing stays buffered. So a terminal may take, push or pop modes and flags between any two keys: each key is read
/// as its press before or after.
///
/// The parser reads by `Dialect::Extended`, with its first settings: Backspace sends 127, and byte 10 is ctrl+j. It may read X10 mouse reports or
/// not, and any number of questions for the cursor's position may be open. Only F3 with a modifier, as `KeyCode::encode` writes it, is left out
/// while one is: its text is then a position.
///
/// Of `KeyCode::encode` it holds for all keys but the character U+0000, with SHIFT, ALT, CTRL and SUPER, and no more bytes to come. Enter in
/// newline mode has two twins, enter and ctrl+j. Of `encode_kitty` it holds for each report that a terminal can write, with a text of at most one
/// character, of the key of a character or without a key. More bytes may come, but for Escape, and Escape, `[`, `O`, `P`, `]` and `_` with ALT,
/// where they are sent as before the protocol.
///
/// A twin is the key itself, but for the keys that the bytes don't tell apart. A text that a key types tells its character, without SHIFT. A report
/// tells what the flags ask for: without flag 4 nothing of what the key types with Shift, and without 8 and 16 nothing of its text.
pub fn presses_of_what_is_sent()
    ensures { PressesOfWhatIsSent }
{}
