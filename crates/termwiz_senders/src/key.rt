// Keys to bytes that are read as them.
ghost use Rattle.std.specs.Prelude.{◌≡◌, ℕ, List, ◌∷◌, IfOk, IfSome, IfNone};
ghost use Rattle.termwiz_senders.specs.KeyTexts as rules;
ghost use Rattle.termwiz_senders.specs.KeyTexts.{IsCharacterText, IsEscapedText, IsFirstRow, IsPlainKeyText, IsSentText, IsTypedText};

use crate::reader::Reader;
use bitflags::Flags;
use std::alloc::{AllocError, Global};
use termwiz_base::Modifiers;
use termwiz_extended_events::types::{KeyReport, Reading, ReportedKey};
use termwiz_input_extended::input::ExtendedParser;
use termwiz_keys::encode::{EncodeError, KeyCodeEncodeModes, KeyboardEncoding};
use termwiz_keys::types::{KeyCode, KeyEvent};

// Every mode is off.
const NO_MODES: KeyCodeEncodeModes = KeyCodeEncodeModes {
    encoding: KeyboardEncoding::Xterm,
    application_cursor_keys: false,
    newline_mode: false,
    modify_other_keys: None,
};

// All of Kitty's bits of SHIFT, ALT, CTRL and SUPER. The port's are twice as much.
const BITS_OF_PORT: u8 = 15;

// Kitty's bit of ALT, and all others.
const ALT_BIT: u8 = 2;

const OTHER_BITS: u8 = 253;

// The port's key of a report, if there is one.
fn port_key(report: &KeyReport) -> Option<KeyEvent>
    ensures { result ≡ rules.port_key report.now }
{
    match report.key {
        ReportedKey::Named(key) if report.modifiers <= BITS_OF_PORT => Some(KeyEvent {
            key,
            modifiers: Modifiers::from_bits_retain(2 * u16::from(report.modifiers)),
        }),
        _ => None,
    }
}

// What a terminal sends for the key, if that is read as it.
fn sent_text(
    alloc: Global,
    reader: &mut Reader,
    reading: Reading,
    report: &KeyReport,
) -> Result<Option<Vec<u8>>, AllocError>
    ensures some { IfOk result (λ text. IfSome text (λ text. IsSentText reading report.now text.items)) }
    ensures none { IfOk result (λ text. IfNone text ((bytes : List ℕ) → ¬ IsSentText reading report.now bytes)) }
{
    let Some(key) = port_key(report) else {
        return Ok(None);
    };
    let text = match key.key.encode(alloc, key.modifiers, NO_MODES, true) {
        Ok(text) => text.into_bytes(),
        Err(EncodeError::UnhandledFunctionKey(_)) => return Ok(None),
        Err(EncodeError::Memory) => return Err(AllocError),
    };
    if reader.reads_key(reading, &text, report)? {
        Ok(Some(text))
    } else {
        Ok(None)
    }
}

// The encoding of the character of a key, if it is read as the key.
fn character_text(
    alloc: Global,
    reader: &mut Reader,
    reading: Reading,
    report: &KeyReport,
) -> Result<Option<Vec<u8>>, AllocError>
    ensures some { IfOk result (λ text. IfSome text (λ text. IsCharacterText reading report.now text.items)) }
    ensures none { IfOk result (λ text. IfNone text ((bytes : List ℕ) → ¬ IsCharacterText reading report.now bytes)) }
{
    let ReportedKey::Named(KeyCode::Char(c)) = report.key else {
        return Ok(None);
    };
    let text = format!(in alloc; "{c}")?.into_bytes();
    if reader.reads_key(reading, &text, report)? {
        Ok(Some(text))
    } else {
        Ok(None)
    }
}

// The first row that is read as the key.
fn row_text(
    alloc: Global,
    reader: &mut Reader,
    reading: Reading,
    report: &KeyReport,
) -> Result<Option<Vec<u8>>, AllocError>
    ensures some { IfOk result (λ text. IfSome text (λ text. IsFirstRow reading report.now text.items)) }
    ensures none { IfOk result (λ text. IfNone text ((bytes : List ℕ) → ¬ IsFirstRow reading report.now bytes)) }
{
    match reader.first_row(reading, report)? {
        Some(row) => Ok(Some(row.to_vec(alloc)?)),
        None => Ok(None),
    }
}

// The text of a key without an ESC before it.
fn plain_text(
    alloc: Global,
    reader: &mut Reader,
    reading: Reading,
    report: &KeyReport,
) -> Result<Option<Vec<u8>>, AllocError>
    ensures some { IfOk result (λ text. IfSome text (λ text. IsPlainKeyText reading report.now text.items)) }
    ensures none { IfOk result (λ text. IfNone text ((bytes : List ℕ) → ¬ IsPlainKeyText reading report.now bytes)) }
{
    if let Some(text) = sent_text(alloc, reader, reading, report)? {
        return Ok(Some(text));
    }
    if let Some(character) = character_text(alloc, reader, reading, report)? {
        return Ok(Some(character));
    }
    row_text(alloc, reader, reading, report)
}

// The key without ALT.
fn without_alt(alloc: Global, report: &KeyReport) -> Result<KeyReport, AllocError>
    ensures { IfOk result (λ other. other ≡ rules.without_alt report.now) }
{
    let whole = report.clone(alloc)?;
    Ok(KeyReport {
        key: whole.key,
        modifiers: whole.modifiers & OTHER_BITS,
        kind: whole.kind,
        shifted: whole.shifted,
        base: whole.base,
        text: whole.text,
    })
}

// ESC and a text.
fn after_escape(alloc: Global, text: &[u8]) -> Result<Vec<u8>, AllocError>
    ensures { IfOk result (λ bytes. bytes.items ≡ 27 ∷ text.now) }
{
    let mut bytes = Vec::from_array(alloc, [0x1b])?;
    bytes.extend_from_slice(text)?;
    Ok(bytes)
}

// ESC and the text of the key without ALT, if that is read as the key.
fn escaped_text(
    alloc: Global,
    reader: &mut Reader,
    reading: Reading,
    report: &KeyReport,
) -> Result<Option<Vec<u8>>, AllocError>
    ensures some { IfOk result (λ text. IfSome text (λ text. IsEscapedText reading report.now text.items)) }
    ensures none { IfOk result (λ text. IfNone text ((bytes : List ℕ) → ¬ IsEscapedText reading report.now bytes)) }
{
    if report.modifiers & ALT_BIT == 0 {
        return Ok(None);
    }
    let other = without_alt(alloc, report)?;
    let Some(text) = plain_text(alloc, reader, reading, &other)? else {
        return Ok(None);
    };
    let bytes = after_escape(alloc, &text)?;
    if reader.reads_key(reading, &bytes, report)? {
        Ok(Some(bytes))
    } else {
        Ok(None)
    }
}

// The text of a key that isn't written as a report, if it has one.
fn typed_text(
    alloc: Global,
    reader: &mut Reader,
    reading: Reading,
    report: &KeyReport,
) -> Result<Option<Vec<u8>>, AllocError>
    ensures some { IfOk result (λ text. IfSome text (λ text. IsTypedText reading report.now text.items)) }
    ensures none { IfOk result (λ text. IfNone text ((bytes : List ℕ) → ¬ IsTypedText reading report.now bytes)) }
{
    if let Some(text) = plain_text(alloc, reader, reading, report)? {
        return Ok(Some(text));
    }
    escaped_text(alloc, reader, reading, report)
}

// The same as a parser reads.
pub(crate) fn typed_key_text(
    alloc: Global,
    parser: &ExtendedParser,
    report: &KeyReport,
) -> Result<Option<Vec<u8>>, AllocError>
    ensures some { IfOk result (λ text. IfSome text (λ text. IsTypedText parser.now.reading report.now text.items)) }
    ensures none { IfOk result (λ text. IfNone text ((bytes : List ℕ) → ¬ IsTypedText parser.now.reading report.now bytes)) }
{
    let reading = parser.reading();
    let mut reader = Reader::beside(parser)?;
    typed_text(alloc, &mut reader, reading, report)
}
