// The fields of a key report.
ghost use Rattle.std.specs.Prelude.{◌≡◌, ◌≢◌, [], IfOk, IfSome, IsSome, OnErr, Some, is_some, option_map};
ghost use Rattle.termwiz_extended_events.specs.FieldsLeft.{fields_in};
ghost use Rattle.termwiz_extended_events.specs.Numbers.{colon, parts};
ghost use Rattle.termwiz_extended_events.specs.KeyReports.{first_modifiers, kind_of, manner_of, optional_scalar, codes_of, text_of};

use crate::fields::Fields;
use crate::numbers::{MOST_DIGITS, first_number, number, scalar};
use crate::types::{KeyEventKind, KeyText, Manner};
use std::alloc::{AllocError, Global};

// The character of a key, what it types with Shift, and what the key at its place types on the standard layout.
#[derive(Clone, Copy)]
pub(crate) struct Codes {
    pub own: char,
    pub shifted: Option<char>,
    pub base: Option<char>,
}

// The bits of the modifiers, which the first part of a field says: their number is one more, and 1 where it is missing. Beside them is what
// follows that part.
#[tactic(auto, unfolding(crate::specs::KeyReports::modifiers_of))]
#[inline(always)]
fn first_modifiers(field: &[u8]) -> Option<(u8, Option<&[u8]>)>
    ensures { option_map (λ found. (found.0, fields_in colon found.1)) result ≡ first_modifiers (parts field.now) }
{
    match field {
        [] => Some((0, None)),
        [b':', rest @ ..] => Some((0, Some(rest))),
        _ => {
            let (one_more, rest) = first_number(field, b':', MOST_DIGITS, 1, 256)?;
            Some(((one_more - 1) as u8, rest))
        }
    }
}

// What happened to the key.
#[tactic(auto, unfolding(crate::specs::KeyReports::kind_of))]
fn kind_of(digits: &[u8]) -> Option<KeyEventKind>
    ensures { result ≡ kind_of digits.now }
{
    match number(digits, 1, 3)? {
        1 => Some(KeyEventKind::Press),
        2 => Some(KeyEventKind::Repeat),
        _ => Some(KeyEventKind::Release),
    }
}

// The manner that a field says.
#[tactic(auto, unfolding(crate::specs::KeyReports::manner_of))]
#[inline(always)]
pub(crate) fn manner_of(field: &[u8]) -> Option<Manner>
    ensures { result ≡ manner_of field.now }
{
    let (modifiers, kind) = first_modifiers(field)?;
    let kind = match kind {
        Some(digits) => kind_of(digits)?,
        None => KeyEventKind::Press,
    };
    Some(Manner { modifiers, kind })
}

// A character that may be missing.
#[tactic(auto, unfolding(crate::specs::KeyReports::optional_scalar))]
fn optional_scalar(digits: &[u8]) -> Option<Option<char>>
    ensures { result ≡ optional_scalar digits.now }
{
    if digits.is_empty() {
        return Some(None);
    }
    Some(Some(scalar(digits)?))
}

// The codes that a field says.
#[tactic(auto, unfolding(crate::specs::KeyReports::codes_of))]
pub(crate) fn codes_of(field: &[u8]) -> Option<Codes>
    ensures { result ≡ codes_of field.now }
{
    let mut parts = Fields::new(field, b':');
    let own = scalar(parts.next()?)?;
    let Some(shifted) = parts.next() else {
        return Some(Codes {
            own,
            shifted: None,
            base: None,
        });
    };
    let Some(base) = parts.next() else {
        return Some(Codes {
            own,
            shifted: Some(scalar(shifted)?),
            base: None,
        });
    };
    if parts.next().is_some() {
        return None;
    }
    Some(Codes {
        own,
        shifted: optional_scalar(shifted)?,
        base: Some(scalar(base)?),
    })
}

// Whether a field says a text.
#[tactic(auto, unfolding(crate::specs::KeyReports::text_of))]
pub(crate) fn is_text(field: &[u8]) -> bool
    ensures { result ≡ is_some (text_of field.now) }
{
    if field.is_empty() {
        return true;
    }
    for digits in Fields::new(field, b':') {
        if scalar(digits).is_none() {
            return false;
        }
    }
    true
}

// The text that a field says: the numbers of its characters.
#[tactic(auto, unfolding(crate::specs::KeyReports::text_of))]
fn spelled_text(alloc: Global, field: &[u8]) -> Result<KeyText, AllocError>
    requires some { field.now ≢ [] }
    requires text { IsSome (text_of field.now) }
    ensures ok { IfOk result (λ text. text_of field.now ≡ Some text) }
    ensures refused { OnErr result (IfSome (text_of field.now) (λ text. text ≢ [])) }
{
    let mut text = String::new(alloc);
    for digits in Fields::new(field, b':') {
        if let Some(c) = scalar(digits) {
            text.push(c)?;
        }
    }
    Ok(KeyText::new(text))
}

// The same, or nothing. Only a text needs memory, and most reports have none: that is told without a call.
#[tactic(auto, unfolding(crate::specs::KeyReports::text_of))]
#[inline(always)]
pub(crate) fn text_of(alloc: Global, field: &[u8]) -> Result<KeyText, AllocError>
    requires { IsSome (text_of field.now) }
    ensures ok { IfOk result (λ text. text_of field.now ≡ Some text) }
    ensures refused { OnErr result (IfSome (text_of field.now) (λ text. text ≢ [])) }
{
    if field.is_empty() {
        return Ok(KeyText::new(String::new(alloc)));
    }
    spelled_text(alloc, field)
}
