// The colours of replies.
ghost use Rattle.std.specs.Prelude.{◌≡◌, ◌-◌, ◌<◌, ◌≤◌, ◌^◌, IfSome, length};
ghost use Rattle.termwiz_extended_events.specs.ReplyValues as rules;
ghost use Rattle.termwiz_extended_events.specs.ReplyValues.{colour_part};

use crate::attributes::hex_digit;
use crate::fields::{Fields, after_start};
use crate::numbers::short_number;
use crate::reply_types::{Colour, ColourName, Reply};

// The number that hexadecimal digits write.
#[tactic(auto, unfolding(crate::specs::ReplyValues::hex_digit))]
fn hex_number(digits: &[u8]) -> Option<u32>
    requires { length digits.now ≤ 4 }
    ensures value { result ≡ rules.hex_number digits.now }
    ensures small { IfSome result (λ n. n < 16 ^ length digits.now) }
{
    let mut value = 0u32;
    for byte in digits {
        value = value * 16 + hex_digit(*byte)?;
    }
    Some(value)
}

// The largest number of one to four hexadecimal digits.
fn largest_of(count: usize) -> u32
    requires some { 0 < count }
    requires few { count ≤ 4 }
    ensures { result ≡ 16 ^ count - 1 }
{
    match count {
        1 => 0xf,
        2 => 0xff,
        3 => 0xfff,
        _ => 0xffff,
    }
}

// A part of a colour: as large a share of 65535 as the number is of the largest one with as many digits.
#[tactic(auto, unfolding(crate::specs::ReplyValues::colour_part))]
fn colour_part(digits: &[u8]) -> Option<u16>
    ensures { result ≡ colour_part digits.now }
{
    if digits.is_empty() || digits.len() > 4 {
        return None;
    }
    let value = hex_number(digits)?;
    Some((value * 65535 / largest_of(digits.len())) as u16)
}

// rgb: red / green / blue.
#[tactic(auto, unfolding(crate::specs::ReplyValues::rgb))]
fn rgb(text: &[u8]) -> Option<Colour>
    ensures { result ≡ rules.rgb text.now }
{
    let mut parts = Fields::new(after_start(text, b"rgb:")?, b'/');
    let red = colour_part(parts.next()?)?;
    let green = colour_part(parts.next()?)?;
    let blue = colour_part(parts.next()?)?;
    match parts.next() {
        Some(_) => None,
        None => Some(Colour { red, green, blue }),
    }
}

// Which colour the number of a command is about, but for those of the palette.
#[tactic(auto, unfolding(crate::specs::ReplyValues::colour_named))]
fn colour_named(digits: &[u8]) -> Option<ColourName>
    ensures { result ≡ rules.colour_named digits.now }
{
    if digits == b"10".as_slice() {
        Some(ColourName::Foreground)
    } else if digits == b"11".as_slice() {
        Some(ColourName::Background)
    } else if digits == b"12".as_slice() {
        Some(ColourName::Cursor)
    } else {
        None
    }
}

// 10, 11 or 12, or 4 ; index, and then ; and a colour.
#[tactic(auto, unfolding(crate::specs::ReplyValues::colour))]
pub(crate) fn colour(t: &[u8]) -> Option<Reply>
    ensures { result ≡ rules.colour t.now }
{
    let mut fields = Fields::new(t, b';');
    let front = fields.next()?;
    let second = fields.next()?;
    match fields.next() {
        None => {
            let name = colour_named(front)?;
            let colour = rgb(second)?;
            Some(Reply::Colour { name, colour })
        }
        Some(third) => {
            if fields.next().is_some() || front != b"4".as_slice() {
                return None;
            }
            let name = ColourName::Palette(short_number(second)?);
            let colour = rgb(third)?;
            Some(Reply::Colour { name, colour })
        }
    }
}
