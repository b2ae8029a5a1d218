// Base64 as RFC 4648 has it, with padding.
ghost use Rattle.std.specs.Prelude.{◌≡◌, ◌<◌, ◌++◌, IfOk, IfSome, IsSome, OnOk, Some, is_some, option_map, true};
ghost use Rattle.termwiz_extended_events.specs.Base64.{sextet, four, decoded, filler};
ghost use Rattle.termwiz_extended_events.specs.SpelledReplies.{bytes_of};

use std::alloc::{AllocError, Global};

// What fills the last four letters.
const FILLER: u8 = b'=';

// The bytes of four letters: three, or fewer if they are filled.
#[derive(Clone, Copy)]
enum DecodedBytes {
    Three(u8, u8, u8),
    Two(u8, u8),
    One(u8),
}

// What a letter stands for.
#[tactic(auto, unfolding(crate::specs::Base64::sextet))]
fn sextet(letter: u8) -> Option<u8>
    ensures value { result ≡ sextet letter }
    ensures small { IfSome result (λ n. n < 64) }
{
    match letter {
        b'A'..=b'Z' => Some(letter - b'A'),
        b'a'..=b'z' => Some(letter - b'a' + 26),
        b'0'..=b'9' => Some(letter - b'0' + 52),
        b'+' => Some(62),
        b'/' => Some(63),
        _ => None,
    }
}

// The bytes of four letters that a filler ends.
#[tactic(auto, unfolding(crate::specs::Base64::four))]
fn filled(a: u8, b: u8, c: u8) -> Option<DecodedBytes>
    ensures { option_map bytes_of result ≡ four true a b c filler }
{
    let p = sextet(a)?;
    let q = sextet(b)?;
    if c == FILLER {
        if q % 16 == 0 {
            return Some(DecodedBytes::One(p * 4 + q / 16));
        }
        return None;
    }
    let r = sextet(c)?;
    if r % 4 == 0 {
        Some(DecodedBytes::Two(p * 4 + q / 16, q % 16 * 16 + r / 4))
    } else {
        None
    }
}

// The bytes of four letters. Only the last four may be filled.
#[tactic(auto, unfolding(crate::specs::Base64::four))]
fn four(is_last: bool, letters: (u8, u8, u8, u8)) -> Option<DecodedBytes>
    ensures { option_map bytes_of result ≡ four is_last letters.0 letters.1 letters.2 letters.3 }
{
    let (a, b, c, d) = letters;
    if is_last && d == FILLER {
        return filled(a, b, c);
    }
    let p = sextet(a)?;
    let q = sextet(b)?;
    let r = sextet(c)?;
    let s = sextet(d)?;
    Some(DecodedBytes::Three(p * 4 + q / 16, q % 16 * 16 + r / 4, r % 4 * 64 + s))
}

// Whether a text stands for bytes.
pub(crate) fn is_base64(text: &[u8]) -> bool
    ensures { result ≡ is_some (decoded text.now) }
{
    let mut rest = text;
    while let [a, b, c, d, more @ ..] = rest {
        if four(more.is_empty(), (*a, *b, *c, *d)).is_none() {
            return false;
        }
        rest = more;
    }
    rest.is_empty()
}

// Appends the bytes of four letters.
fn push(bytes: &mut Vec<u8>, four: DecodedBytes) -> Result<(), AllocError>
    ensures { OnOk result (bytes.new.items ≡ bytes.old.items ++ bytes_of four) }
{
    match four {
        DecodedBytes::Three(first, second, third) => bytes.extend_from_slice(&[
            first, second, third,
        ])?,
        DecodedBytes::Two(first, second) => bytes.extend_from_slice(&[first, second])?,
        DecodedBytes::One(first) => bytes.push(first)?,
    }
    Ok(())
}

// The bytes that a text stands for.
#[tactic(auto, using(crate::proofs::ReplyLemmas::more_bytes))]
pub(crate) fn decoded(alloc: Global, text: &[u8]) -> Result<Vec<u8>, AllocError>
    requires { IsSome (decoded text.now) }
    ensures { IfOk result (λ bytes. decoded text.now ≡ Some bytes.items) }
{
    let mut bytes = Vec::new(alloc);
    let mut rest = text;
    while let [a, b, c, d, more @ ..] = rest {
        if let Some(four) = four(more.is_empty(), (*a, *b, *c, *d)) {
            push(&mut bytes, four)?;
        }
        rest = more;
    }
    Ok(bytes)
}
