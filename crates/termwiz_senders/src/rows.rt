// Which row of the sequence table is read as a key. Few rows are tried: those of a few keys, which the table finds.
ghost use Rattle.std.specs.Prelude.{◌≡◌, ℕ, List, Some, IfOk, IfSome, IfNone};
ghost use Rattle.termwiz_senders.specs.KeyTexts.{IsFirstRow};
ghost use Rattle.termwiz_senders.specs.RowKeys as rules;
ghost use Rattle.termwiz_senders.specs.RowKeys.{HasCode, IsAny, IsFirstRead};

use crate::reader::reads_key;
use bitflags::Flags;
use std::alloc::AllocError;
use termwiz_base::Modifiers;
use termwiz_extended_events::types::{KeyEventKind, KeyReport, Reading, ReportedKey};
use termwiz_input::input::InputParser;
use termwiz_input_extended::input::ExtendedParser;
use termwiz_keys::types::{KeyCode, KeyEvent};

// Kitty's bits of SHIFT, ALT and CTRL.
const BITS_OF_ROWS: u8 = 7;

const ALT_BIT: u8 = 2;

const SUPER_BIT: u8 = 8;

// The key that a control character is, and any other key itself.
fn main_code(key: KeyCode) -> KeyCode
    ensures { result ≡ rules.main_code key }
{
    match key {
        KeyCode::Char('\x08' | '\x7f') => KeyCode::Backspace,
        KeyCode::Char('\t') => KeyCode::Tab,
        KeyCode::Char('\n' | '\r') => KeyCode::Enter,
        KeyCode::Char('\x1b') => KeyCode::Escape,
        _ => key,
    }
}

// The same of a report, if a row can tell it.
fn row_code(report: &KeyReport) -> Option<KeyCode>
    ensures { result ≡ rules.row_code report.now }
{
    if report.kind != KeyEventKind::Press
        || report.base.is_some()
        || !report.text.as_str().is_empty()
    {
        return None;
    }
    match report.key {
        ReportedKey::Named(key) => Some(main_code(key)),
        ReportedKey::Functional(0) => Some(KeyCode::Char('\0')),
        ReportedKey::Functional(_) => None,
    }
}

// The first character that is this key.
fn first_character(key: KeyCode) -> Option<KeyCode>
    ensures { result ≡ rules.first_character key }
{
    match key {
        KeyCode::Backspace => Some(KeyCode::Char('\x08')),
        KeyCode::Tab => Some(KeyCode::Char('\t')),
        KeyCode::Enter => Some(KeyCode::Char('\n')),
        KeyCode::Escape => Some(KeyCode::Char('\x1b')),
        _ => None,
    }
}

// The second one.
fn second_character(key: KeyCode) -> Option<KeyCode>
    ensures { result ≡ rules.second_character key }
{
    match key {
        KeyCode::Backspace => Some(KeyCode::Char('\x7f')),
        KeyCode::Enter => Some(KeyCode::Char('\r')),
        _ => None,
    }
}

// The modifiers of the rows that are read with these bits.
fn row_modifiers(held: u8) -> Modifiers
    ensures { result.0 ≡ rules.row_modifiers held }
{
    let bits = if held & SUPER_BIT == 0 {
        held
    } else {
        held & BITS_OF_ROWS | ALT_BIT
    };
    Modifiers::from_bits_retain(2 * u16::from(bits))
}

// The place of the first row of a key that is read as a report, or the number of rows if none is.
fn first_read(
    rows: &InputParser,
    parser: &mut ExtendedParser,
    reading: Reading,
    key: &KeyEvent,
    report: &KeyReport,
) -> Result<usize, AllocError>
    ensures { IfOk result (IsFirstRead (λ own. own ≡ key.now) reading report.now) }
{
    let mut place = rows.first_place(key);
    while let Some((row, _)) = rows.row(place) {
        if reads_key(parser, reading, row, report)? {
            return Ok(place);
        }
        place = rows.next_place(place);
    }
    Ok(place)
}

// The same of the key with this code. If there is none, no row is at the place.
fn first_read_of(
    rows: &InputParser,
    parser: &mut ExtendedParser,
    reading: Reading,
    code: Option<KeyCode>,
    modifiers: Modifiers,
    report: &KeyReport,
) -> Result<usize, AllocError>
    ensures { IfOk result (IsFirstRead (HasCode code modifiers) reading report.now) }
{
    match code {
        Some(key) => first_read(rows, parser, reading, &KeyEvent { key, modifiers }, report),
        None => Ok(usize::MAX),
    }
}

// The place of the first row of any key that is read as a report.
fn first_place(
    rows: &InputParser,
    parser: &mut ExtendedParser,
    reading: Reading,
    code: KeyCode,
    report: &KeyReport,
) -> Result<usize, AllocError>
    requires { rules.row_code report.now ≡ Some code }
    ensures { IfOk result (IsFirstRead IsAny reading report.now) }
{
    let modifiers = row_modifiers(report.modifiers);
    let own = first_read_of(rows, parser, reading, Some(code), modifiers, report)?;
    let first = first_read_of(
        rows,
        parser,
        reading,
        first_character(code),
        modifiers,
        report,
    )?;
    let second = first_read_of(
        rows,
        parser,
        reading,
        second_character(code),
        modifiers,
        report,
    )?;
    Ok(own.min(first).min(second))
}

// The first row that is read as a report.
pub(crate) fn first_row<'r>(
    rows: &'r InputParser,
    parser: &mut ExtendedParser,
    reading: Reading,
    report: &KeyReport,
) -> Result<Option<&'r [u8]>, AllocError>
    ensures row { IfOk result (λ row. IfSome row (λ row. IsFirstRow reading report.now row.now)) }
    ensures none { IfOk result (λ row. IfNone row ((bytes : List ℕ) → ¬ IsFirstRow reading report.now bytes)) }
{
    let Some(code) = row_code(report) else {
        return Ok(None);
    };
    let place = first_place(rows, parser, reading, code, report)?;
    match rows.row(place) {
        Some((row, _)) => Ok(Some(row)),
        None => Ok(None),
    }
}
