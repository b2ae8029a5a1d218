//! Keys to the bytes that a terminal writes for them under Kitty's keyboard protocol.
ghost use Rattle.std.specs.Prelude.{◌≡◌, ◌++◌, ◌↔◌, ◌≤◌, ◌<◌, Some, None, Err, IfOk, OnOk, length, string_bytes, encode_utf8};
ghost use Rattle.termwiz_kitty.specs.KeyForms.{form_of};
ghost use Rattle.termwiz_kitty.specs.Telling as rules;
ghost use Rattle.termwiz_kitty.specs.KittyTexts as texts;
ghost use Rattle.termwiz_kitty.specs.KittyTexts.{kitty_text, sequence_text, IsTooLong, IsWithin};
ghost use Rattle.termwiz_kitty.specs.declared.encode.KittyEncodeError.TheVariants as error;

pub mod sequences;

use crate::key_forms::{KeyForm, form_of};
use crate::legacy::{LegacyText, with_shift};
use crate::telling::{
    Telling, is_shifted, is_typed_text, telling_of, told_base, told_key, told_kind, told_modifiers,
    told_shifted, told_text,
};
use sequences::{Codes, Manner, push_coded, push_lettered, push_numbered};
use std::alloc::{AllocError, Global};
use std::fmt::Write;
use termwiz_base::KittyKeyboardFlags;
use termwiz_extended_events::types::{KeyEventKind, KeyReport, ReportedKey};
use termwiz_keys::encode::{CSI, SS3};
use termwiz_keys::types::KeyCode;
use thiserror::Error;

/// How many bytes a control sequence may have: the extended parser reads no longer one.
pub const MOST_BYTES: usize = 256;

/// Why [`encode_kitty`] made no bytes.
#[derive(Clone, Copy, PartialEq, Eq, Debug, Error)]
pub enum KittyEncodeError {
    /// The protocol has no number for the key, so there is no report of it to send.
    #[error("the protocol has no number for the key")]
    UnknownKey,
    /// The sequence would have more than [`MOST_BYTES`] bytes. Only a key with a long text has such a sequence.
    #[error("the text of the key is too long")]
    TooLong,
    /// Memory was refused.
    #[error("out of memory")]
    Memory,
}

impl From<AllocError> for KittyEncodeError {
    ghost from_gives = { λ _ e. e ≡ error.Memory };

    fn from(_e: AllocError) -> KittyEncodeError {
        KittyEncodeError::Memory
    }
}

/// What a terminal writes for a key if the program asked for these flags of Kitty's keyboard protocol, by the rules of Kitty's page
/// "Comprehensive keyboard handling in terminals". It is empty for a key that isn't sent, such as a release without
/// `REPORT_EVENT_TYPES`. The protocol sends no control characters as text, so a text that has some counts as none.
///
/// `UnknownKey` comes exactly where the key's report would be sent and the protocol has no number for the key. `TooLong` comes only
/// for a sequence of more than [`MOST_BYTES`] bytes, and no returned sequence is longer. The only other error is `Memory`.
#[tactic(auto, unfolding(crate::specs::KittyTexts::kitty_text))]
pub fn encode_kitty(
    alloc: Global,
    report: &KeyReport,
    flags: KittyKeyboardFlags,
) -> Result<String, KittyEncodeError>
    ensures text { IfOk result (λ text. kitty_text report.now flags.0 ≡ Some (string_bytes text)) }
    ensures within { IfOk result (λ text. IsWithin report.now flags.0 (string_bytes text)) }
    ensures unknown { (result ≡ Err error.UnknownKey) ↔ (kitty_text report.now flags.0 ≡ None) }
    ensures too_long { result ≡ Err error.TooLong → IsTooLong report.now flags.0 }
{
    match telling_of(report, flags) {
        Telling::Nothing => Ok(String::new(alloc)),
        Telling::Typed => Ok(typed_text(alloc, told_key(report, flags), report)?),
        Telling::Legacy(text) => Ok(legacy_string(alloc, text)?),
        Telling::Reported => sequence(alloc, report, flags),
    }
}

// The character that a key shows.
fn shown(c: char, report: &KeyReport) -> char
    ensures { result ≡ texts.shown c report.now.modifiers report.now.shifted }
{
    if is_shifted(report.modifiers) {
        with_shift(c, report.shifted).unwrap_or(c)
    } else {
        c
    }
}

// What a key types by itself.
fn typed_by(key: ReportedKey, report: &KeyReport) -> char
    ensures { encode_utf8 result ≡ texts.typed_by key report.now }
{
    match key {
        ReportedKey::Named(KeyCode::Char(c)) => shown(c, report),
        ReportedKey::Named(KeyCode::Tab) => '\t',
        ReportedKey::Named(KeyCode::Backspace) => '\x7f',
        _ => '\r',
    }
}

// What a key types: the text of its report, or else what it types by itself.
#[tactic(auto, unfolding(crate::specs::KittyTexts::typed_text))]
fn typed_text(alloc: Global, key: ReportedKey, report: &KeyReport) -> Result<String, AllocError>
    ensures { IfOk result (λ text. string_bytes text ≡ texts.typed_text key report.now) }
{
    let mut text = String::new(alloc);
    if is_typed_text(report.text.as_str()) {
        text.push_str(report.text.as_str())?;
    } else {
        text.push(typed_by(key, report))?;
    }
    Ok(text)
}

// What a key sends before the protocol.
#[tactic(auto, unfolding(crate::specs::KittyTexts::legacy_bytes))]
fn legacy_string(alloc: Global, sent: LegacyText) -> Result<String, AllocError>
    ensures { IfOk result (λ text. string_bytes text ≡ texts.legacy_bytes sent) }
{
    let mut text = String::new(alloc);
    match sent {
        LegacyText::Alone(c) => text.push(c)?,
        LegacyText::AfterEscape(c) => write!(text, "\x1b{c}")?,
        LegacyText::BackTab => write!(text, "{CSI}Z")?,
        LegacyText::EscapeAndBackTab => write!(text, "\x1b{CSI}Z")?,
        LegacyText::FunctionLetter(letter) => write!(text, "{SS3}{letter}")?,
        LegacyText::Menu(modifiers) => push_numbered(
            &mut text,
            29,
            Manner {
                modifiers,
                kind: KeyEventKind::Press,
            },
        )?,
    }
    Ok(text)
}

// Appends the sequence of what is sent of a report.
#[tactic(auto, unfolding(crate::specs::KittyTexts::sequence_text, crate::specs::Telling::reported))]
fn push_sequence(
    text: &mut String,
    form: KeyForm,
    report: &KeyReport,
    flags: KittyKeyboardFlags,
) -> Result<(), AllocError>
    ensures { OnOk result (string_bytes text.new ≡ string_bytes text.old ++ sequence_text form (rules.reported report.now flags.0)) }
{
    let manner = Manner {
        modifiers: told_modifiers(report, flags),
        kind: told_kind(report.kind, flags),
    };
    match form {
        KeyForm::Letter(letter) => push_lettered(text, letter, manner),
        KeyForm::Number(number) => push_numbered(text, number, manner),
        KeyForm::Code(own) => {
            let codes = Codes {
                own,
                shifted: told_shifted(report, flags),
                base: told_base(report, flags),
            };
            push_coded(text, codes, manner, told_text(report, flags))
        }
    }
}

// The sequence of what is sent of a report.
fn sequence(
    alloc: Global,
    report: &KeyReport,
    flags: KittyKeyboardFlags,
) -> Result<String, KittyEncodeError>
    ensures text { IfOk result (λ text. texts.report_text report.now flags.0 ≡ Some (string_bytes text)) }
    ensures within { IfOk result (λ text. length (string_bytes text) ≤ 256) }
    ensures unknown { (result ≡ Err error.UnknownKey) ↔ (texts.report_text report.now flags.0 ≡ None) }
    ensures too_long { result ≡ Err error.TooLong → texts.IsTooLongReport report.now flags.0 }
{
    let Some(form) = form_of(told_key(report, flags)) else {
        return Err(KittyEncodeError::UnknownKey);
    };
    let mut text = String::new(alloc);
    push_sequence(&mut text, form, report, flags)?;
    if text.len() > MOST_BYTES {
        return Err(KittyEncodeError::TooLong);
    }
    Ok(text)
}
