// The numbers of control sequences.
ghost use Rattle.std.specs.Prelude.{◌≡◌, ◌≤◌, ◌<◌, ◌==◌, IfSome, None, Some, if◌then◌else◌, option_map};
ghost use Rattle.std.specs.List.{slice_split};
ghost use Rattle.termwiz_extended_events.specs.FieldsLeft.{fields_in};
ghost use Rattle.termwiz_extended_events.specs.Numbers.{ReadsDigits, first_number, is_scalar, number_within, number, place_number, short_number, scalar};

// How many digits a number has at most in the reports of keys.
pub(crate) const MOST_DIGITS: usize = 7;

// How many it has at most in the other reports.
pub(crate) const FEW_DIGITS: usize = 5;

// The value of the decimal digits at the front of a text, of at most so many, and how many these are.
#[inline(always)]
fn leading_digits(text: &[u8], most: usize) -> (u32, usize)
    requires { most ≤ 7 }
    ensures { ReadsDigits most text.now result.0 result.1 }
{
    let mut value = 0u32;
    let end = text.len().min(most);
    for len in 0..end {
        let byte = text[len];
        if !byte.is_ascii_digit() {
            return (value, len);
        }
        value = value * 10 + u32::from(byte - b'0');
    }
    (value, end)
}

// The number from `least` to `limit` that one to `most` decimal digits write.
#[tactic(auto, unfolding(crate::specs::Numbers::number_within))]
pub(crate) fn number_within(digits: &[u8], most: usize, least: u32, limit: u32) -> Option<u32>
    requires { most ≤ 7 }
    ensures value { result ≡ number_within most least limit digits.now }
    ensures within { IfSome result (λ n. (least ≤ n) × (n ≤ limit)) }
{
    let (value, len) = leading_digits(digits, most);
    if 0 < len && len == digits.len() && least <= value && value <= limit {
        Some(value)
    } else {
        None
    }
}

// The number that the first field of a text writes, and what follows the separator behind it. Each byte is read once.
#[inline(always)]
pub(crate) fn first_number(
    text: &[u8],
    separator: u8,
    most: usize,
    least: u32,
    limit: u32,
) -> Option<(u32, Option<&[u8]>)>
    requires few { most ≤ 7 }
    requires apart { 57 < separator }
    ensures number { option_map (λ found. (found.0, fields_in separator found.1)) result
        ≡ first_number most least limit (slice_split (λ b. b == separator) text.now) }
    ensures within { IfSome result (λ found. (least ≤ found.0) × (found.0 ≤ limit)) }
{
    let (value, len) = leading_digits(text, most);
    if len == 0 || value < least || limit < value {
        return None;
    }
    match &text[len..] {
        [] => Some((value, None)),
        [byte, rest @ ..] if *byte == separator => Some((value, Some(rest))),
        _ => None,
    }
}

// A number of the reports of keys.
pub(crate) fn number(digits: &[u8], least: u32, limit: u32) -> Option<u32>
    ensures value { result ≡ number least limit digits.now }
    ensures within { IfSome result (λ n. (least ≤ n) × (n ≤ limit)) }
{
    number_within(digits, MOST_DIGITS, least, limit)
}

// A number of the other reports, up to 65535.
pub(crate) fn short_number(digits: &[u8]) -> Option<u16>
    ensures { result ≡ short_number digits.now }
{
    match number_within(digits, FEW_DIGITS, 0, 65535) {
        Some(value) => Some(value as u16),
        None => None,
    }
}

// The number of a row or a column, which count from 1.
pub(crate) fn place_number(digits: &[u8]) -> Option<u16>
    ensures { result ≡ place_number digits.now }
{
    match number_within(digits, FEW_DIGITS, 1, 65535) {
        Some(value) => Some(value as u16),
        None => None,
    }
}

// The character of a number.
pub(crate) fn character_at(n: u32) -> Option<char>
    ensures { result ≡ (if is_scalar n then Some n else None) }
{
    char::from_u32(n)
}

// The character whose number the text writes.
#[tactic(auto, unfolding(crate::specs::Numbers::scalar))]
pub(crate) fn scalar(digits: &[u8]) -> Option<char>
    ensures { result ≡ scalar digits.now }
{
    character_at(number(digits, 0, 0x10ffff)?)
}
