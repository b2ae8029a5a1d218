//! Keys to the text that a terminal sends for them.

ghost use Rattle.std.specs.Prelude.{◌≡◌, ◌++◌, ◌↔◌, ℕ, [], Some, None, Err, false, IfOk, IsOkAnd, OnOk, IsTrue, string_bytes};
ghost use Rattle.termwiz_keys.specs.Introducers as bytes;
ghost use Rattle.termwiz_keys.specs.Encoding.{enc, key_text, normal_key, normal_held, shows_shift, named_key, unhandled};
ghost use Rattle.termwiz_keys.specs.declared.encode.EncodeError.TheVariants as error;

mod characters;
mod sequences;

use crate::types::KeyCode;
use characters::{push_backspace, push_char, push_enter, push_escape, push_tab};
use sequences::{
    push_application_arrow, push_cursor_key, push_edit_key, push_function_key, push_keypad_key,
};
use std::alloc::{AllocError, Global};
use termwiz_base::{Flags, KittyKeyboardFlags, Modifiers};
use thiserror::Error;

/// What a control sequence begins with: ESC `[`, the control sequence introducer.
pub const CSI: &str = "\x1b[";

/// What the sequence of an application key begins with: ESC `O`, single shift three.
pub const SS3: &str = "\x1bO";

// The bytes of the two.
fn introducers()
    ensures csi { CSI.now ≡ bytes.CSI }
    ensures ss3 { SS3.now ≡ bytes.SS3 }
{}

/// How a terminal encodes the keys that it sends.
#[derive(Clone, Copy, PartialEq, Eq, Debug)]
pub enum KeyboardEncoding {
    /// The characters themselves, and xterm's control sequences.
    Xterm,
    /// The same, but a character with modifiers that it can't show is sent as ESC `[` c `;` m `u` (fixterms).
    CsiU,
    /// Records of the Windows console. [`KeyCode::encode`] takes it for `Xterm`.
    Win32,
    /// kitty's keyboard protocol, with the flags that the program asked for. [`KeyCode::encode`] takes it for `Xterm`.
    Kitty(KittyKeyboardFlags),
}

/// The modes of a terminal that change the text of a key.
#[derive(Clone, Copy, Debug)]
pub struct KeyCodeEncodeModes {
    /// The encoding of keys.
    pub encoding: KeyboardEncoding,
    /// Whether the arrows, Home and End send ESC `O` in place of ESC `[` (application cursor mode, DECCKM).
    pub application_cursor_keys: bool,
    /// Whether Enter sends a line feed after the carriage return (newline mode, LNM).
    pub newline_mode: bool,
    /// The level of xterm's modifyOtherKeys, or `None` if it is off.
    pub modify_other_keys: Option<i64>,
}

/// Why [`KeyCode::encode`] made no text.
#[derive(Clone, Copy, PartialEq, Eq, Debug, Error)]
pub enum EncodeError {
    /// The function key with this number isn't one of F1 to F24.
    #[error("unhandled fkey number {0}")]
    UnhandledFunctionKey(u8),
    /// Memory was refused.
    #[error("out of memory")]
    Memory,
}

impl From<AllocError> for EncodeError {
    ghost from_gives = { λ _ e. e ≡ error.Memory };

    fn from(_e: AllocError) -> EncodeError {
        EncodeError::Memory
    }
}

impl KeyCode {
    /// The text that a terminal in these modes sends for the key, with the modifiers that are held. It is empty for a
    /// key that sends nothing, and for every key that is up (`is_down` is false).
    ///
    /// `Function(0)` and the function keys above F24 are refused while they are down. The only other error is `Memory`.
    /// A key that is up takes no memory, and always succeeds.
    #[tactic(auto, using(crate::proofs::lemmas::encoding::NormalForm::normal_key_unhandled), unfolding(crate::specs::Encoding::enc))]
    pub fn encode(
        &self,
        alloc: Global,
        mods: Modifiers,
        modes: KeyCodeEncodeModes,
        is_down: bool,
    ) -> Result<String, EncodeError>
        ensures text { IsTrue is_down → IfOk result (λ text. enc self.now mods modes ≡ Some (string_bytes text)) }
        ensures up { is_down ≡ false → IsOkAnd result (λ text. string_bytes text ≡ []) }
        ensures refused { (n : ℕ) → (result ≡ Err (error.UnhandledFunctionKey n)) ↔ (IsTrue is_down × (unhandled self.now ≡ Some n)) }
    {
        let mut text = String::new(alloc);
        if !is_down {
            return Ok(text);
        }
        if let Some(number) = unhandled(*self) {
            return Err(EncodeError::UnhandledFunctionKey(number));
        }
        let (key, held) = normalized(*self, mods);
        push_key(&mut text, key, held, modes)?;
        Ok(text)
    }
}

// The number of a function key that has no text: only F1 to F24 have one.
fn unhandled(key: KeyCode) -> Option<u8>
    ensures { result ≡ unhandled key }
{
    match key {
        KeyCode::Function(1..=24) => None,
        KeyCode::Function(number) => Some(number),
        _ => None,
    }
}

// The normal form of a key and the modifiers that are held with it.
#[tactic(auto, unfolding(crate::specs::Encoding::normal_key, crate::specs::Encoding::normal_held))]
fn normalized(key: KeyCode, mods: Modifiers) -> (KeyCode, Modifiers)
    ensures key { result.0 ≡ normal_key key mods.0 }
    ensures held { result.1.0 ≡ normal_held key mods.0 }
{
    let mut held = mods.remove_positional_mods();
    let key = key.normalize_shift_to_upper_case(held);
    if shows_shift(key) {
        held.remove(Modifiers::SHIFT);
    }
    (named_key(key), held)
}

// Whether the key shows by itself that Shift is held: an uppercase letter or punctuation of ASCII.
#[tactic(auto, unfolding(crate::specs::Encoding::shows_shift))]
fn shows_shift(key: KeyCode) -> bool
    ensures { result ≡ shows_shift key }
{
    match key {
        KeyCode::Char(c) => c.is_ascii_uppercase() || c.is_ascii_punctuation(),
        _ => false,
    }
}

// The key that a control character stands for: `Delete` for DEL and `Backspace` for BS. Other keys are unchanged.
#[tactic(auto, unfolding(crate::specs::Encoding::named_key))]
fn named_key(key: KeyCode) -> KeyCode
    ensures { result ≡ named_key key }
{
    match key {
        KeyCode::Char('\x7f') => KeyCode::Delete,
        KeyCode::Char('\x08') => KeyCode::Backspace,
        _ => key,
    }
}

// Appends the text of a key in its normal form.
#[tactic(auto, unfolding(crate::specs::Encoding::key_text))]
fn push_key(
    text: &mut String,
    key: KeyCode,
    mods: Modifiers,
    modes: KeyCodeEncodeModes,
) -> Result<(), AllocError>
    requires { unhandled key ≡ None }
    ensures { OnOk result (string_bytes text.new ≡ string_bytes text.old ++ key_text key mods.0 modes) }
{
    match key {
        KeyCode::Char(c) => push_char(text, c, mods, modes),
        KeyCode::Backspace => push_backspace(text, mods, modes),
        KeyCode::Enter => push_enter(text, mods, modes),
        KeyCode::Escape => push_escape(text, mods, modes),
        KeyCode::Tab => push_tab(text, mods, modes),
        KeyCode::UpArrow => push_cursor_key(text, "A", mods, modes),
        KeyCode::DownArrow => push_cursor_key(text, "B", mods, modes),
        KeyCode::RightArrow => push_cursor_key(text, "C", mods, modes),
        KeyCode::LeftArrow => push_cursor_key(text, "D", mods, modes),
        KeyCode::Home | KeyCode::KeyPadHome => push_cursor_key(text, "H", mods, modes),
        KeyCode::End | KeyCode::KeyPadEnd => push_cursor_key(text, "F", mods, modes),
        KeyCode::ApplicationUpArrow => push_application_arrow(text, "A", mods),
        KeyCode::ApplicationDownArrow => push_application_arrow(text, "B", mods),
        KeyCode::ApplicationRightArrow => push_application_arrow(text, "C", mods),
        KeyCode::ApplicationLeftArrow => push_application_arrow(text, "D", mods),
        KeyCode::Insert => push_edit_key(text, 2, mods),
        KeyCode::Delete => push_edit_key(text, 3, mods),
        KeyCode::PageUp | KeyCode::KeyPadPageUp => push_edit_key(text, 5, mods),
        KeyCode::PageDown | KeyCode::KeyPadPageDown => push_edit_key(text, 6, mods),
        KeyCode::Function(number) => push_function_key(text, number, mods),
        _ => push_keypad_key(text, key, mods),
    }
}
