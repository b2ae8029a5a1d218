// The numbers of a terminal's attributes.
ghost use Rattle.std.specs.Prelude.{◌≡◌, ◌<◌, ◌∷◌, IfOk, IfSome, IsSome, OnErr, Some, is_some, option_map, option_copied, option_and_then};
ghost use Rattle.termwiz_extended_events.specs.FieldsLeft.{fields_left};
ghost use Rattle.termwiz_extended_events.specs.Numbers.{after_start, before_end};
ghost use Rattle.termwiz_extended_events.specs.ReplyValues as rules;
ghost use Rattle.termwiz_extended_events.specs.ReplyValues.{NeedsMemory, hex_bytes, hex_digit, numbers_there, reply_number};

use crate::fields::{Fields, after_start, before_end};
use crate::numbers::number;
use crate::reply_types::{DeviceAttributes, Reply, ReplyNumbers};
use std::alloc::{AllocError, Global};

// The largest number of seven digits.
const LARGEST_OF_SEVEN: u32 = 9_999_999;

// A number of a reply.
pub(crate) fn reply_number(digits: &[u8]) -> Option<u32>
    ensures { result ≡ reply_number digits.now }
{
    number(digits, 0, LARGEST_OF_SEVEN)
}

// A number that may be missing.
#[tactic(auto, unfolding(crate::specs::ReplyValues::optional_number))]
fn optional_number(digits: &[u8]) -> Option<Option<u32>>
    ensures { result ≡ rules.optional_number digits.now }
{
    if digits.is_empty() {
        return Some(None);
    }
    Some(Some(reply_number(digits)?))
}

// Whether each field is a number or missing.
fn are_numbers(fields: Fields) -> bool
    ensures { result ≡ is_some (numbers_there (fields_left fields.entry)) }
{
    for digits in fields {
        if optional_number(digits).is_none() {
            return false;
        }
    }
    true
}

// A number, and the numbers of the fields behind it.
#[tactic(auto, using(crate::proofs::ReplyLemmas::one_number_more))]
fn listed(alloc: Global, first: u32, fields: Fields) -> Result<Vec<u32>, AllocError>
    requires { IsSome (numbers_there (fields_left fields)) }
    ensures { IfOk result (λ numbers. option_map (λ more. first ∷ more) (numbers_there (fields_left fields.entry)) ≡ Some numbers.items) }
{
    let mut numbers = Vec::new(alloc);
    numbers.push(first)?;
    for digits in fields {
        if let Some(Some(number)) = optional_number(digits) {
            numbers.push(number)?;
        }
    }
    Ok(numbers)
}

// What follows a start and stands before an end.
fn between<'t>(t: &'t [u8], start: &[u8], end: &[u8]) -> Option<&'t [u8]>
    ensures { option_copied result ≡ option_and_then (after_start start.now) (before_end end.now t.now) }
{
    after_start(before_end(t, end)?, start)
}

// ? n ; n .. c, of which only the first n must be there: the primary attributes.
#[tactic(auto, unfolding(crate::specs::ReplyValues::primary_attributes))]
pub(crate) fn primary_attributes(alloc: Global, t: &[u8]) -> Result<Option<Reply>, AllocError>
    ensures ok { IfOk result (λ reply. reply ≡ rules.primary_attributes t.now) }
    ensures refused { OnErr result (NeedsMemory (rules.primary_attributes t.now)) }
{
    let Some(body) = between(t, b"?", b"c") else {
        return Ok(None);
    };
    let mut fields = Fields::new(body, b';');
    let Some(first) = fields.next().and_then(reply_number) else {
        return Ok(None);
    };
    if !are_numbers(fields) {
        return Ok(None);
    }
    let numbers = listed(alloc, first, fields)?;
    Ok(Some(Reply::DeviceAttributes {
        report: DeviceAttributes::Primary,
        numbers: ReplyNumbers::new(numbers),
    }))
}

// The three numbers of fields.
fn three_numbers(mut fields: Fields) -> Option<[u32; 3]>
    ensures { result ≡ rules.secondary_numbers (fields_left fields.entry) }
{
    let kind = reply_number(fields.next()?)?;
    let version = reply_number(fields.next()?)?;
    let last = reply_number(fields.next()?)?;
    match fields.next() {
        Some(_) => None,
        None => Some([kind, version, last]),
    }
}

// > a ; b ; c c: the secondary attributes.
#[tactic(auto, unfolding(crate::specs::ReplyValues::secondary_attributes))]
pub(crate) fn secondary_attributes(alloc: Global, t: &[u8]) -> Result<Option<Reply>, AllocError>
    ensures ok { IfOk result (λ reply. reply ≡ rules.secondary_attributes t.now) }
    ensures refused { OnErr result (NeedsMemory (rules.secondary_attributes t.now)) }
{
    let Some(body) = between(t, b">", b"c") else {
        return Ok(None);
    };
    let Some(numbers) = three_numbers(Fields::new(body, b';')) else {
        return Ok(None);
    };
    Ok(Some(Reply::DeviceAttributes {
        report: DeviceAttributes::Secondary,
        numbers: ReplyNumbers::new(numbers.to_vec(alloc)?),
    }))
}

// The value of a hexadecimal digit.
#[tactic(auto, unfolding(crate::specs::ReplyValues::hex_digit))]
pub(crate) fn hex_digit(byte: u8) -> Option<u32>
    ensures value { result ≡ hex_digit byte }
    ensures small { IfSome result (λ n. n < 16) }
{
    char::from(byte).to_digit(16)
}

// The byte that two hexadecimal digits write.
#[tactic(auto, unfolding(crate::specs::ReplyValues::hex_byte))]
fn hex_byte(high: u8, low: u8) -> Option<u32>
    ensures { result ≡ rules.hex_byte high low }
{
    Some(hex_digit(high)? * 16 + hex_digit(low)?)
}

// Whether a text is pairs of hexadecimal digits.
fn are_pairs(text: &[u8]) -> bool
    ensures { result ≡ is_some (hex_bytes text.now) }
{
    let mut rest = text;
    while let [high, low, more @ ..] = rest {
        if hex_byte(*high, *low).is_none() {
            return false;
        }
        rest = more;
    }
    rest.is_empty()
}

// The bytes that pairs of hexadecimal digits write.
#[tactic(auto, using(crate::proofs::ReplyLemmas::one_number_more))]
fn hex_bytes(alloc: Global, text: &[u8]) -> Result<Vec<u32>, AllocError>
    requires { IsSome (hex_bytes text.now) }
    ensures { IfOk result (λ bytes. hex_bytes text.now ≡ Some bytes.items) }
{
    let mut bytes = Vec::new(alloc);
    let mut rest = text;
    while let [high, low, more @ ..] = rest {
        if let Some(byte) = hex_byte(*high, *low) {
            bytes.push(byte)?;
        }
        rest = more;
    }
    Ok(bytes)
}

// ! | and pairs of hexadecimal digits: the tertiary attributes.
#[tactic(auto, unfolding(crate::specs::ReplyValues::tertiary_attributes))]
pub(crate) fn tertiary_attributes(alloc: Global, t: &[u8]) -> Result<Option<Reply>, AllocError>
    ensures ok { IfOk result (λ reply. reply ≡ rules.tertiary_attributes t.now) }
    ensures refused { OnErr result (NeedsMemory (rules.tertiary_attributes t.now)) }
{
    let Some(digits) = after_start(t, b"!|") else {
        return Ok(None);
    };
    if digits.is_empty() {
        return Ok(None);
    }
    if !are_pairs(digits) {
        return Ok(None);
    }
    let numbers = hex_bytes(alloc, digits)?;
    Ok(Some(Reply::DeviceAttributes {
        report: DeviceAttributes::Tertiary,
        numbers: ReplyNumbers::new(numbers),
    }))
}
