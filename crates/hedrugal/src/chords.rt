// Presses and chords in numbers.
ghost use Rattle.std.specs.Prelude.{◌≡◌, List, Some, length, IfSome, IfNone};
ghost use Rattle.termwiz_bindings.specs.declared.press.KeyPress.{KeyPress as Pressed};
ghost use Rattle.hedrugal.specs.Chords.{AreOfChord, AreOfPress, AreOfPresses, IsCodeOf, with_presses};

use crate::press_calls::{CKeyPress, c_press};
use termwiz_bindings::chord::{CODE_LEN, Chord, MAX_KEYS, is_code};
use termwiz_bindings::numbers::reported_key;
use termwiz_bindings::press::KeyPress;

// The press that has these numbers.
pub(crate) fn press_of(numbers: &CKeyPress) -> Option<KeyPress>
    ensures some { IfSome result (λ press. AreOfPress numbers.now press) }
    ensures only { (press : Pressed) → AreOfPress numbers.now press → result ≡ Some press }
{
    let key = reported_key(numbers.key, numbers.detail)?;
    let press = KeyPress::new(key, numbers.held)?;
    (c_press(press) == *numbers).then_some(press)
}

// The code of the press that has these numbers.
pub(crate) fn code_of(numbers: &CKeyPress) -> Option<[u8; CODE_LEN]>
    ensures some { IfSome result (λ code. IsCodeOf numbers.now code) }
    ensures none { IfNone result ((press : Pressed) → ¬ AreOfPress numbers.now press) }
{
    if numbers.key > 255 || numbers.detail > 0xff_ffff {
        return None;
    }
    let code = [
        numbers.key as u8,
        (numbers.detail / 0x10000) as u8,
        (numbers.detail / 0x100 % 0x100) as u8,
        (numbers.detail % 0x100) as u8,
        numbers.held,
    ];
    if is_code(&code) { Some(code) } else { None }
}

// The chord of 1 to 32 presses that have these numbers.
pub(crate) fn chord_of(keys: &[CKeyPress]) -> Option<Chord>
    ensures some { IfSome result (λ presses. AreOfChord keys.now presses) }
    ensures none { IfNone result ((presses : List Pressed) → ¬ AreOfChord keys.now presses) }
{
    if keys.is_empty() {
        return None;
    }
    presses_of(keys)
}

// The presses that have these numbers, at most 32 of them.
pub(crate) fn presses_of(keys: &[CKeyPress]) -> Option<Chord>
    ensures some { IfSome result (λ presses. AreOfPresses keys.now presses) }
    ensures none { IfNone result ((presses : List Pressed) → ¬ AreOfPresses keys.now presses) }
{
    if keys.len() > MAX_KEYS {
        return None;
    }
    let mut chord = Chord::new();
    for numbers in keys {
        chord.push(press_of(numbers)?);
    }
    Some(chord)
}

// Writes as many of the presses as `keys` has room for, and returns how many they are.
pub(crate) fn copy_presses(chord: &Chord, keys: &mut [CKeyPress]) -> usize
    ensures count { result ≡ length chord.now }
    ensures keys { keys.new ≡ with_presses chord.now keys.old }
{
    let room = keys.len().min(chord.len());
    for place in 0..room {
        let Some(press) = chord.get(place) else {
            break;
        };
        keys[place] = c_press(press);
    }
    chord.len()
}
