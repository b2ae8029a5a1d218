// The call that encodes keys by Kitty's keyboard protocol.
ghost use Rattle.std.specs.Prelude.{◌≡◌, ◌≢◌, ◌⊎◌, ◌↔◌};
ghost use Rattle.std.specs.Str.{IsUtf8};
ghost use Rattle.hedrugal.specs.KittyCalls.{HasLongSequence, HasNoSequence, IsBadReport, WroteReport};

use crate::copying::write_out;
use crate::events::CEvent;
use crate::key_reports::key_report_of;
use crate::modes::flags_of;
use crate::status::{BAD_NUMBER, BAD_TEXT, NO_MEMORY, OK, REFUSED_KEY, TOO_LONG};
use std::alloc::Global;
use std::str;
use termwiz_input_extended::types::KeyText;
use termwiz_kitty::encode::{KittyEncodeError, encode_kitty};

/// Writes what a terminal sends for a key, of which this is the event with the text that the key types, if the program asked for these flags of
/// Kitty's keyboard protocol. `out` has as much of the bytes as it has room for, and `sent_len` is how many they are; else that is 0.
#[unsafe(no_mangle)]
pub extern "C" fn hed_encode_kitty(
    alloc: Global,
    event: &CEvent,
    text: &[u8],
    flags: u8,
    out: &mut [u8],
    sent_len: &mut usize,
) -> u32
    ensures answers { (result ≡ OK) ⊎ ((result ≡ REFUSED_KEY) ⊎ ((result ≡ NO_MEMORY) ⊎ ((result ≡ BAD_NUMBER) ⊎ ((result ≡ TOO_LONG) ⊎ (result ≡ BAD_TEXT))))) }
    ensures text { result ≡ OK → WroteReport event.now text.now flags out.old out.new sent_len.new }
    ensures refused_key { result ≡ REFUSED_KEY → HasNoSequence event.now text.now flags }
    ensures too_long { result ≡ TOO_LONG → HasLongSequence event.now text.now flags }
    ensures bad_number { result ≡ BAD_NUMBER ↔ IsBadReport event.now flags }
    ensures bad_text { result ≡ BAD_TEXT ↔ ((¬ IsBadReport event.now flags) × (¬ IsUtf8 text.now)) }
    ensures none { result ≢ OK → sent_len.new ≡ 0 }
    ensures same { result ≢ OK → out.new ≡ out.old }
{
    *sent_len = 0;
    let Some(asked) = flags_of(flags) else {
        return BAD_NUMBER;
    };
    let Some(mut told) = key_report_of(alloc, event) else {
        return BAD_NUMBER;
    };
    let Ok(typed) = str::from_utf8(text) else {
        return BAD_TEXT;
    };
    let Ok(typed) = String::from_str(alloc, typed) else {
        return NO_MEMORY;
    };
    told.text = KeyText::new(typed);
    match encode_kitty(alloc, &told, asked) {
        Ok(sent) => write_out(sent.as_bytes(), out, sent_len),
        Err(KittyEncodeError::UnknownKey) => REFUSED_KEY,
        Err(KittyEncodeError::TooLong) => TOO_LONG,
        Err(KittyEncodeError::Memory) => NO_MEMORY,
    }
}
