// The calls that read and print the names of keys.
ghost use Rattle.std.specs.Prelude.{◌≡◌, ◌≢◌, ◌≤◌, ◌↔◌, ◌⊎◌, ◌∷◌, [], IfOk, IfErr};
ghost use Rattle.hedrugal.specs.NameCalls.{AreOfNoChord, AreOfNoPress, HasChord, IsNoName, PrintedKeys, PrintedPress, ReadKeys, WroteText, error_number};

use crate::chords::{chord_of, copy_presses, press_of};
use crate::copying::{copy_with_zero, put_behind, write_out};
use crate::press_calls::CKeyPress;
use crate::status::{
    BAD_NUMBER, BAD_TEXT, NAME_AMBIGUOUS, NAME_BAD_NUMBER, NAME_CONTROL_CHARACTER, NAME_EMPTY,
    NAME_MISSING_KEY, NAME_MODIFIER_TWICE, NAME_NOT_A_KEY, NAME_SHIFTED_CHARACTER, NAME_TOO_LONG,
    NAME_UNKNOWN_MODIFIER, NAME_UNKNOWN_NAME, NO_MEMORY, OK,
};
use std::alloc::Global;
use std::str;
use termwiz_bindings::chord::Chord;
use termwiz_bindings::names::{ReadErrorKind, print, read};

// The number of what is wrong with a name.
#[tactic(auto, unfolding(crate::specs::NameCalls::error_number))]
fn error_number(kind: ReadErrorKind) -> u32
    ensures number { result ≡ error_number kind }
    ensures least { 20 ≤ result }
    ensures most { result ≤ 30 }
{
    match kind {
        ReadErrorKind::ControlCharacter => NAME_CONTROL_CHARACTER,
        ReadErrorKind::ModifierTwice => NAME_MODIFIER_TWICE,
        ReadErrorKind::UnknownModifier => NAME_UNKNOWN_MODIFIER,
        ReadErrorKind::MissingKey => NAME_MISSING_KEY,
        ReadErrorKind::BadNumber => NAME_BAD_NUMBER,
        ReadErrorKind::UnknownName => NAME_UNKNOWN_NAME,
        ReadErrorKind::Ambiguous => NAME_AMBIGUOUS,
        ReadErrorKind::NotAKey => NAME_NOT_A_KEY,
        ReadErrorKind::ShiftedCharacter => NAME_SHIFTED_CHARACTER,
        ReadErrorKind::TooLong => NAME_TOO_LONG,
        ReadErrorKind::Empty => NAME_EMPTY,
    }
}

// The status of a name that is none, and the byte at which the part that is wrong starts.
#[derive(Clone, Copy)]
pub(crate) struct BadName {
    pub(crate) status: u32,
    pub(crate) at: usize,
}

// The chord that has this name.
pub(crate) fn chord_named(text: &[u8]) -> Result<Chord, BadName>
    ensures ok { IfOk result (λ chord. HasChord text.now chord) }
    ensures err { IfErr result (λ bad. IsNoName text.now bad.status bad.at) }
    ensures not_ok { IfErr result (λ bad. 9 ≤ bad.status) }
{
    let name = str::from_utf8(text).map_err(|error| BadName {
        status: BAD_TEXT,
        at: error.valid_up_to(),
    })?;
    read(name).map_err(|error| BadName {
        status: error_number(error.kind),
        at: error.at,
    })
}

/// Reads the name of a chord: 1 to 32 keys, parted by blanks. `keys` has as many of its presses as it has room for, and `count` is how many they
/// are. If the text is no name, the answer says what is wrong with it, `count` is 0, and `at` is the byte where the part that is wrong starts.
#[unsafe(no_mangle)]
pub extern "C" fn hed_key_read(
    text: &[u8],
    keys: &mut [CKeyPress],
    count: &mut usize,
    at: &mut usize,
) -> u32
    ensures keys { result ≡ OK → ReadKeys text.now keys.old keys.new count.new }
    ensures wrong { result ≢ OK → IsNoName text.now result at.new }
    ensures nothing_wrong { result ≡ OK → at.new ≡ 0 }
    ensures none { result ≢ OK → count.new ≡ 0 }
    ensures same { result ≢ OK → keys.new ≡ keys.old }
{
    *count = 0;
    *at = 0;
    match chord_named(text) {
        Ok(chord) => {
            *count = copy_presses(&chord, keys);
            OK
        }
        Err(bad) => {
            *at = bad.at;
            bad.status
        }
    }
}

/// Prints the name of a chord: of 1 to 32 presses. `out` has as much of the name as it has room for, and `name_len` is its whole length; else that
/// is 0.
#[unsafe(no_mangle)]
pub extern "C" fn hed_key_print(
    alloc: Global,
    keys: &[CKeyPress],
    out: &mut [u8],
    name_len: &mut usize,
) -> u32
    ensures answers { (result ≡ OK) ⊎ ((result ≡ NO_MEMORY) ⊎ (result ≡ BAD_NUMBER)) }
    ensures name { result ≡ OK → PrintedKeys keys.now out.old out.new name_len.new }
    ensures bad_number { result ≡ BAD_NUMBER ↔ AreOfNoChord keys.now }
    ensures none { result ≢ OK → name_len.new ≡ 0 }
    ensures same { result ≢ OK → out.new ≡ out.old }
{
    *name_len = 0;
    let Some(chord) = chord_of(keys) else {
        return BAD_NUMBER;
    };
    match print(alloc, &chord) {
        Ok(name) => write_out(name.as_bytes(), out, name_len),
        Err(_) => NO_MEMORY,
    }
}

/// Prints the name of a press, and a final zero byte if there is room for it. `name_len` is the length of the name; else that is 0.
#[unsafe(no_mangle)]
pub extern "C" fn hed_press_print(
    alloc: Global,
    press: &CKeyPress,
    out: &mut [u8],
    name_len: &mut usize,
) -> u32
    ensures answers { (result ≡ OK) ⊎ ((result ≡ NO_MEMORY) ⊎ (result ≡ BAD_NUMBER)) }
    ensures name { result ≡ OK → PrintedPress press.now out.old out.new name_len.new }
    ensures bad_number { result ≡ BAD_NUMBER ↔ AreOfNoChord (press.now ∷ []) }
    ensures none { result ≢ OK → name_len.new ≡ 0 }
    ensures same { result ≢ OK → out.new ≡ out.old }
{
    let status = hed_key_print(alloc, &[*press], out, name_len);
    if status == OK {
        put_behind(out, *name_len, 0);
    }
    status
}

/// Copies the character that a press types, in UTF-8, and a final zero byte, as much of both as `out` has room for. Returns how many bytes the
/// character has. The answer is 0, and `out` unchanged, if it types none, or the numbers are those of no press.
#[unsafe(no_mangle)]
pub extern "C" fn hed_press_text(press: &CKeyPress, out: &mut [u8]) -> usize
    ensures text { WroteText press.now out.old out.new result }
    ensures no_press { AreOfNoPress press.now → result ≡ 0 }
    ensures no_press_same { AreOfNoPress press.now → out.new ≡ out.old }
{
    let Some(typed) = press_of(press).and_then(|told| told.text()) else {
        return 0;
    };
    let mut bytes = [0; 4];
    copy_with_zero(typed.encode_utf8(&mut bytes).as_bytes(), out)
}
