// The numbers in names of keys.
ghost use Rattle.std.specs.Prelude.{◌≡◌, ◌≤◌, length, IfSome, IfOk};
ghost use Rattle.std.specs.Char as chars;
ghost use Rattle.std.specs.List.{list_all};
ghost use Rattle.termwiz_bindings.specs.Names as rules;

use super::ReadErrorKind;
use super::words::is_same_word;
use termwiz_extended_events::types::ReportedKey;
use termwiz_keys::types::KeyCode;

// The number that at most six digits write, in a base of at most 16.
#[tactic(auto, unfolding(crate::specs::Names::value_in))]
fn value_in(base: u32, digits: &[u8]) -> Option<u32>
    requires least_base { 2 ≤ base }
    requires most_base { base ≤ 16 }
    requires few { length digits.now ≤ 6 }
    ensures { result ≡ rules.value_in base digits.now }
{
    let mut value = 0;
    for byte in digits {
        let digit = char::from(*byte).to_digit(base)?;
        value = value * base + digit;
    }
    Some(value)
}

// Whether the digits have a zero in front that says nothing.
fn has_leading_zero(digits: &[u8]) -> bool
    ensures { result ≡ rules.has_leading_zero digits.now }
{
    digits.len() > 1 && digits[0] == b'0'
}

// The number that at most five digits write, without leading zeros, if it is one from `least` to `most`.
#[tactic(auto, unfolding(crate::specs::Names::number_within))]
fn number_within(least: u32, most: u32, digits: &[u8]) -> Option<u32>
    ensures value { result ≡ rules.number_within least most digits.now }
    ensures within { IfSome result (λ n. n ≤ most) }
{
    if digits.len() > 5 || has_leading_zero(digits) {
        return None;
    }
    let value = value_in(10, digits)?;
    if least <= value && value <= most {
        Some(value)
    } else {
        None
    }
}

// Whether the byte is a decimal digit.
fn is_digit(byte: u8) -> bool
    ensures { result ≡ chars.is_digit byte 10 }
{
    char::from(byte).is_digit(10)
}

// Whether each byte is a decimal digit.
fn are_digits(bytes: &[u8]) -> bool
    ensures { result ≡ list_all (λ c. chars.is_digit c 10) bytes.now }
{
    bytes.iter().all(|byte| is_digit(*byte))
}

// Whether the name is this word in any case, and one or more digits behind it.
fn is_numbered(word: &[u8], name: &[u8]) -> bool
    ensures { result ≡ rules.is_numbered word.now name.now }
{
    if name.len() <= word.len() {
        return false;
    }
    let (start, digits) = name.split_at(word.len());
    is_same_word(start, word) && are_digits(digits)
}

// The number behind this word, if the name is so.
#[tactic(auto, unfolding(crate::specs::Names::numbered))]
fn numbered(word: &[u8], least: u32, most: u32, name: &[u8]) -> Option<Result<u32, ReadErrorKind>>
    ensures value { result ≡ rules.numbered word.now least most name.now }
    ensures within { IfSome result (λ number. IfOk number (λ n. n ≤ most)) }
{
    if !is_numbered(word, name) {
        return None;
    }
    Some(number_within(least, most, &name[word.len()..]).ok_or(ReadErrorKind::BadNumber))
}

// A function key, `f0` to `f255`.
#[tactic(auto, unfolding(crate::specs::Names::function_key))]
pub(super) fn function_key(name: &[u8]) -> Option<Result<ReportedKey, ReadErrorKind>>
    ensures { result ≡ rules.function_key name.now }
{
    match numbered(b"f", 0, 255, name)? {
        Ok(number) => Some(Ok(ReportedKey::Named(KeyCode::Function(number as u8)))),
        Err(kind) => Some(Err(kind)),
    }
}

// A functional key by its number in Kitty's table.
#[tactic(auto, unfolding(crate::specs::Names::kitty_key))]
pub(super) fn kitty_key(name: &[u8]) -> Option<Result<ReportedKey, ReadErrorKind>>
    ensures { result ≡ rules.kitty_key name.now }
{
    match numbered(b"kitty", 57344, 63743, name)? {
        Ok(number) => Some(Ok(ReportedKey::Functional(number))),
        Err(kind) => Some(Err(kind)),
    }
}

// The number behind `U+` in any case, if four to six hexadecimal digits follow.
#[tactic(auto, unfolding(crate::specs::Names::code_point_number))]
fn code_point_number(name: &[u8]) -> Option<u32>
    ensures { result ≡ rules.code_point_number name.now }
{
    if name.len() < 6 || name.len() > 8 || !name[0].eq_ignore_ascii_case(&b'u') || name[1] != b'+' {
        return None;
    }
    value_in(16, &name[2..])
}

// The key of the character with this number.
fn character_key(number: u32) -> Result<ReportedKey, ReadErrorKind>
    ensures { result ≡ rules.character_key number }
{
    match char::from_u32(number) {
        Some(c) => Ok(ReportedKey::Named(KeyCode::Char(c))),
        None => Err(ReadErrorKind::BadNumber),
    }
}

// A character by its number.
#[tactic(auto, unfolding(crate::specs::Names::code_point_key))]
pub(super) fn code_point_key(name: &[u8]) -> Option<Result<ReportedKey, ReadErrorKind>>
    ensures { result ≡ rules.code_point_key name.now }
{
    Some(character_key(code_point_number(name)?))
}
