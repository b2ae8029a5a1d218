//! Names of keys, as people write them and programs show them.
ghost use Rattle.std.specs.Prelude.{◌≡◌, Ok, Err, IfOk, MatchResult, string_bytes};
ghost use Rattle.termwiz_bindings.specs.Names.{printed};
ghost use Rattle.termwiz_bindings.specs.ChordNames as rules;

mod chords;
mod keys;
mod numbers;
mod printing;
mod words;

use crate::chord::Chord;
use crate::press::KeyPress;
use chords::{push_chord, read_chord};
use printing::push_press;
use std::alloc::{AllocError, Global};
use thiserror::Error;

/// What is wrong with a text that [`read`] refused.
#[derive(Clone, Copy, PartialEq, Eq, Debug, Error)]
pub enum ReadErrorKind {
    /// A control character but the tab stands in the text.
    #[error("a control character")]
    ControlCharacter,
    /// A modifier is written twice, as in `ctrl+ctrl+x` or `M-A-x`.
    #[error("a modifier is written twice")]
    ModifierTwice,
    /// A word before `+` or `-` is no modifier, as in `foo+x`.
    #[error("no modifier has this name")]
    UnknownModifier,
    /// No key stands behind the modifiers, as in `ctrl+` and `C-M-`.
    #[error("no key stands behind the modifiers")]
    MissingKey,
    /// A number names no key: no character has it, as `U+D800`, or it isn't in the table, as in `f256` and `kitty1`. Leading zeros
    /// are wrong too, but not behind `U+`.
    #[error("no key has this number")]
    BadNumber,
    /// No key has this name.
    #[error("no key has this name")]
    UnknownName,
    /// The name `DEL` in capitals is Backspace to Emacs, and Delete to others. Write `backspace` or `delete`.
    #[error("`DEL` may be Backspace or Delete")]
    Ambiguous,
    /// The key makes no press by itself: a modifier, a lock or a mark of a paste.
    #[error("the key makes no press by itself")]
    NotAKey,
    /// Shift is written with a sign that shows it, as in `shift+!`. Write the sign alone.
    #[error("Shift stands with a sign that shows it")]
    ShiftedCharacter,
    /// The text has more keys than a chord may have.
    #[error("too many keys")]
    TooLong,
    /// The text has no key.
    #[error("no key")]
    Empty,
}

/// Why a text isn't the name of a key or of a chord, and where. A program shows its user that place of the text.
#[derive(Clone, Copy, PartialEq, Eq, Debug, Error)]
#[error("byte {at}: {kind}")]
pub struct ReadError {
    /// What is wrong.
    pub kind: ReadErrorKind,
    /// The byte of the text where the part that is wrong starts.
    pub at: usize,
}

/// Reads the chord that a text names: the names of one to [`MAX_KEYS`](crate::chord::MAX_KEYS) keys, parted by spaces and tabs. It takes no
/// memory.
///
/// A key is written in one of three ways. In words, with `+` or `-` between: `ctrl+shift+up`, `Alt-x`. As in Emacs: `C-x`, `C-M-<f5>`. As in
/// Vim: `<C-W>`, `<S-Tab>`. Words are read in any case.
pub fn read(text: &str) -> Result<Chord, ReadError>
    ensures { MatchResult result (λ chord. rules.read text.now ≡ Ok chord) (λ error. rules.read text.now ≡ Err error) }
{
    read_chord(text)
}

/// Prints a chord, as in `ctrl+x ctrl+s`: the names of its presses, with spaces between them. Reading it gives the chord again, unless
/// it is empty.
///
/// Fails only if memory is refused.
pub fn print(alloc: Global, chord: &Chord) -> Result<String, AllocError>
    ensures { IfOk result (λ text. string_bytes text ≡ rules.printed_chord chord.now) }
{
    let mut out = String::new(alloc);
    push_chord(&mut out, chord)?;
    Ok(out)
}

/// Prints the name of a press, as in `ctrl+shift+up`, `alt+<` or `f5`. Reading it gives the press again. The modifiers stand in this order:
/// `super+`, `hyper+`, `meta+`, `ctrl+`, `alt+`, `shift+`.
///
/// Fails only if memory is refused.
pub fn print_press(alloc: Global, press: KeyPress) -> Result<String, AllocError>
    ensures { IfOk result (λ text. string_bytes text ≡ printed press) }
{
    let mut out = String::new(alloc);
    push_press(&mut out, press)?;
    Ok(out)
}
