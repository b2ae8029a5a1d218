//! Chords: the presses that a program binds a command to, one after another.
ghost use Rattle.std.specs.Prelude.{Some, ◌≡◌, ◌↔◌, ◌<◌, ◌≤◌, ◌++◌, ◌∷◌, [], ◌*◌, ◌-◌, ◌+◌, length, take, drop, replicate, slice_get, IsTrue, IfSome, if◌then◌else◌};
ghost use Rattle.termwiz_bindings.specs.declared.press.KeyPress.{KeyPress as Press};
ghost use Rattle.termwiz_bindings.specs.Codes.{IsCode, IsPress, code as code_of, codes};
ghost use Rattle.termwiz_bindings.specs.Chords.{AreCodes, IsChord};
ghost use Rattle.termwiz_bindings.specs.Presses.{character_press};

use crate::numbers::reported_key;
use crate::press::{KeyPress, SHIFT};
use std::marker::Model;

/// The most presses that a chord has.
pub const MAX_KEYS: usize = 32;

/// How many bytes the code of a press has.
pub const CODE_LEN: usize = 5;

/// The most bytes that the codes of a chord have.
pub const CODES_MOST: usize = 160;

const _: () = prove!(CODES_MOST == MAX_KEYS * CODE_LEN);

// The numbers of the keys that carry a character, and the number of a function key.
const CHARACTER: u8 = 1;

const FUNCTION: u8 = 60;

/// A list of at most [`MAX_KEYS`] presses, as Ctrl-X and then Ctrl-S. It takes no memory beside its own.
#[derive(Clone, Copy, PartialEq, Eq, Debug)]
pub struct Chord {
    // The codes of the presses, and zeros after them.
    codes: [u8; MAX_KEYS * CODE_LEN],
    len: usize,
}

impl Model for Chord {
    ghost use Rattle.std.specs.Prelude.{List, length};
    ghost use Rattle.termwiz_bindings.specs.declared.press.KeyPress.{KeyPress};

    ghost Value = { List KeyPress };

    ghost use Rattle.termwiz_bindings.specs.Chords.{HoldChord, held_presses, padded};

    ghost view = { λ c. held_presses c.codes c.len };

    ghost invariant = { λ c. HoldChord c.codes c.len };

    ghost inverse = { λ ps. record { codes = padded ps; len = length ps } };

    ghost inverse_ok = { λ c is i. record { codes = is.padding i; len = is.count i } };
}

impl Chord {
    /// The chord without presses.
    pub fn new() -> Chord
        ensures { result ≡ [] }
    {
        Chord {
            codes: [0; MAX_KEYS * CODE_LEN],
            len: 0,
        }
    }

    /// Puts a press behind the others. Returns false if there are [`MAX_KEYS`] already: the chord is then unchanged.
    pub fn push(&mut self, press: KeyPress) -> bool
        requires { IsPress press }
        ensures pushed { IsTrue result ↔ (length self.old < MAX_KEYS) }
        ensures presses { self.new ≡ (if result then self.old ++ press ∷ [] else self.old) }
    {
        if self.len == MAX_KEYS {
            return false;
        }
        write_code(&mut self.codes, self.len * CODE_LEN, press);
        self.len += 1;
        true
    }

    /// The number of presses.
    pub fn len(&self) -> usize
        ensures { result ≡ length self.now }
    {
        self.len
    }

    /// Whether there are no presses.
    pub fn is_empty(&self) -> bool
        ensures { IsTrue result ↔ (self.now ≡ []) }
    {
        self.len == 0
    }

    /// The press at a place, or `None` from [`Chord::len`] on. The first place is 0.
    pub fn get(&self, index: usize) -> Option<KeyPress>
        ensures press { result ≡ slice_get self.now index }
        ensures presses { IfSome result IsPress }
    {
        if index < self.len {
            let start = index * CODE_LEN;
            press_with(&self.codes[start..start + CODE_LEN])
        } else {
            None
        }
    }

    /// The codes of the presses, one after another.
    pub fn codes(&self) -> &[u8]
        ensures codes { result.now ≡ codes self.now }
        ensures chord { IsChord self.now }
    {
        &self.codes[..self.len * CODE_LEN]
    }

    /// Takes presses away from the front, so many of them.
    #[tactic(auto, using(crate::proofs::lemmas::CodedPresses::codes_length))]
    pub fn remove_first(&mut self, count: usize)
        requires { count ≤ length self.old }
        ensures { self.new ≡ drop count self.old }
    {
        let rest = of_codes(&self.codes()[count * CODE_LEN..]);
        *self = rest;
    }
}

// Writes the code of a press, from this byte on.
fn write_code(codes: &mut [u8; MAX_KEYS * CODE_LEN], start: usize, press: KeyPress)
    requires { start + CODE_LEN ≤ MAX_KEYS * CODE_LEN }
    ensures { codes.new ≡ take start codes.old ++ (code_of press ++ drop (start + CODE_LEN) codes.old) }
{
    codes[start..start + CODE_LEN].copy_from_slice(&press.code());
}

// The press with a code.
pub(crate) fn press_with(code: &[u8]) -> Option<KeyPress>
    requires { length code.now ≡ CODE_LEN }
    ensures only { (press : Press) → IsPress press → code.now ≡ code_of press → result ≡ Some press }
    ensures press { IfSome result IsPress }
{
    let detail = u32::from(code[1]) * 0x10000 + u32::from(code[2]) * 0x100 + u32::from(code[3]);
    let key = reported_key(u16::from(code[0]), detail)?;
    KeyPress::new(key, code[4])
}

// These bytes, and zeros after them.
fn padded(bytes: &[u8]) -> [u8; MAX_KEYS * CODE_LEN]
    requires { length bytes.now ≤ MAX_KEYS * CODE_LEN }
    ensures { result ≡ bytes.now ++ replicate (MAX_KEYS * CODE_LEN - length bytes.now) 0 }
{
    let mut codes = [0; MAX_KEYS * CODE_LEN];
    codes[..bytes.len()].copy_from_slice(bytes);
    codes
}

// Whether a press of this character is left alone by all rules: it is of ASCII, no control character and no capital, and without SHIFT.
#[tactic(auto, using(crate::proofs::lemmas::PlainCodes::character_own))]
fn is_plain_character(character: u8, held: u8) -> bool
    requires { held < 64 }
    ensures { IsTrue result → IsPress (character_press character held) }
{
    if character < 32 || character > 126 {
        return false;
    }
    !character.is_ascii_uppercase() && held & SHIFT == 0
}

// Whether these bytes are the code of a press that is known without the rules: that of a plain character, or of a function key.
#[tactic(auto, using(crate::proofs::lemmas::PlainCodes::plain_character, crate::proofs::lemmas::PlainCodes::plain_function))]
fn is_plain_code(code: &[u8]) -> bool
    requires { length code.now ≡ CODE_LEN }
    ensures { IsTrue result → IsCode code.now }
{
    if code[1] != 0 || code[2] != 0 || code[4] >= 64 {
        return false;
    }
    if code[0] == FUNCTION {
        return true;
    }
    code[0] == CHARACTER && is_plain_character(code[3], code[4])
}

/// Whether these bytes are the code of a press. Most are known without the rules.
pub fn is_code(code: &[u8]) -> bool
    requires { length code.now ≡ CODE_LEN }
    ensures { IsTrue result ↔ IsCode code.now }
{
    if is_plain_code(code) {
        return true;
    }
    match press_with(code) {
        Some(press) => press.code().as_slice() == code,
        None => false,
    }
}

/// Whether these bytes are the codes of a chord, one after another.
pub fn are_codes(bytes: &[u8]) -> bool
    requires { length bytes.now ≤ MAX_KEYS * CODE_LEN }
    ensures { IsTrue result ↔ AreCodes bytes.now }
{
    let mut rest = bytes;
    while rest.len() >= CODE_LEN {
        let (code, behind) = rest.split_at(CODE_LEN);
        if !is_code(code) {
            return false;
        }
        rest = behind;
    }
    rest.is_empty()
}

/// The chord with these codes.
pub fn of_codes(bytes: &[u8]) -> Chord
    requires { AreCodes bytes.now }
    ensures codes { codes result ≡ bytes.now }
    ensures chord { IsChord result }
{
    Chord {
        codes: padded(bytes),
        len: bytes.len() / CODE_LEN,
    }
}
