// Key reports to sequences that every reading reads as these reports.
ghost use Rattle.std.specs.Prelude.{◌≡◌, ◌==◌, ◌||◌, ◌≢◌, ◌++◌, codes, ◌≤◌, ◌<◌, ℕ, List, IfOk, OnOk, Some, Err, length, is_some, option_map, string_bytes};
ghost use Rattle.std.specs.Str.{chars};
ghost use Rattle.termwiz_extended_events.specs.ReportedKeys as keys;
ghost use Rattle.termwiz_extended_events.specs.declared.types.Event.TheVariants as event;
ghost use Rattle.termwiz_kitty.specs.KeyForms.{is_character};
ghost use Rattle.termwiz_senders.specs.EventTexts.{IsTooLong};
ghost use Rattle.termwiz_senders.specs.ReportTexts as rules;
ghost use Rattle.termwiz_senders.specs.ReportTexts.{first_fields, full_report_text, further_fields, last_manner, plain_report_text, private_report_text, short_manner, told_manner};
ghost use Rattle.termwiz_senders.specs.declared.event.EncodeEventError.TheVariants as error;

use crate::event::EncodeEventError;
use std::alloc::{AllocError, Global};
use std::fmt::Write;
use termwiz_extended_events::reported_keys::functional_key;
use termwiz_extended_events::types::{KeyEventKind, KeyReport, ReportedKey};
use termwiz_keys::encode::CSI;
use termwiz_keys::types::KeyCode;
use termwiz_kitty::encode::MOST_BYTES;
use termwiz_kitty::encode::sequences::{Codes, push_codes, push_further};
use termwiz_kitty::key_forms::{KeyForm, form_of};

// Kitty's numbers of functional keys run from here to there.
const FIRST_FUNCTIONAL: u32 = 57344;

const LAST_FUNCTIONAL: u32 = 63743;

// The number of the middle key of the keypad, which is also told by a letter.
const KEYPAD_BEGIN: u32 = 57427;

// The number of a text that no key typed.
const NO_KEY: u32 = 0;

// The number of Backspace.
const BACKSPACE: u32 = 127;

// Its other number, which has fewer digits.
const SHORT_BACKSPACE: u32 = 8;

// Kitty's bit of Shift.
const SHIFT: u8 = 1;

// The number of what happened to a key.
fn kind_number(kind: KeyEventKind) -> u8
    ensures { result ≡ rules.kind_number kind }
{
    match kind {
        KeyEventKind::Press => 1,
        KeyEventKind::Repeat => 2,
        KeyEventKind::Release => 3,
    }
}

// Appends the number of the modifiers, and that of what happened to the key.
#[tactic(auto, unfolding(crate::specs::ReportTexts::told_manner))]
fn push_told_manner(text: &mut String, modifiers: u8, kind: KeyEventKind) -> Result<(), AllocError>
    ensures { OnOk result (string_bytes text.new ≡ string_bytes text.old ++ told_manner modifiers kind) }
{
    let number = 1 + u32::from(modifiers);
    let kind = kind_number(kind);
    write!(text, "{number}:{kind}")
}

// Appends the sequence of a key of this form, of which nothing more is said.
#[tactic(auto, unfolding(crate::specs::ReportTexts::plain_report_text))]
fn push_plain(
    text: &mut String,
    form: KeyForm,
    modifiers: u8,
    kind: KeyEventKind,
) -> Result<(), AllocError>
    ensures { OnOk result (string_bytes text.new ≡ string_bytes text.old ++ plain_report_text form modifiers kind) }
{
    match form {
        KeyForm::Letter(_) => write!(text, "{CSI}1;")?,
        KeyForm::Number(number) | KeyForm::Code(number) => write!(text, "{CSI}{number};")?,
    }
    push_told_manner(text, modifiers, kind)?;
    match form {
        KeyForm::Letter(letter) => text.push(letter),
        KeyForm::Number(_) => text.push('~'),
        KeyForm::Code(_) => text.push('u'),
    }
}

// Appends the modifiers if any is held, and what happened to the key unless it was pressed.
#[tactic(auto, unfolding(crate::specs::ReportTexts::short_manner))]
fn push_short_manner(text: &mut String, modifiers: u8, kind: KeyEventKind) -> Result<(), AllocError>
    ensures { OnOk result (string_bytes text.new ≡ string_bytes text.old ++ short_manner modifiers kind) }
{
    if modifiers != 0 {
        write!(text, "{}", 1 + u32::from(modifiers))?;
    }
    match kind {
        KeyEventKind::Press => Ok(()),
        KeyEventKind::Repeat => text.push_str(":2"),
        KeyEventKind::Release => text.push_str(":3"),
    }
}

// Appends the field of the manner at the end of a report, unless the key was pressed and no modifier is held.
fn push_last_manner(text: &mut String, modifiers: u8, kind: KeyEventKind) -> Result<(), AllocError>
    ensures { OnOk result (string_bytes text.new ≡ string_bytes text.old ++ last_manner modifiers kind) }
{
    if modifiers == 0 && kind == KeyEventKind::Press {
        return Ok(());
    }
    push_manner_field(text, modifiers, kind)
}

// Appends the field of the manner, which may be empty.
fn push_manner_field(text: &mut String, modifiers: u8, kind: KeyEventKind) -> Result<(), AllocError>
    ensures { OnOk result (string_bytes text.new ≡ string_bytes text.old ++ codes ";" ++ short_manner modifiers kind) }
{
    text.push_str(";")?;
    push_short_manner(text, modifiers, kind)
}

// Appends this field, and the number of the first character that the key types.
fn push_first(
    text: &mut String,
    modifiers: u8,
    kind: KeyEventKind,
    first: char,
) -> Result<(), AllocError>
    ensures { OnOk result (string_bytes text.new ≡ string_bytes text.old ++ first_fields modifiers kind first) }
{
    push_manner_field(text, modifiers, kind)?;
    write!(text, ";{}", u32::from(first))
}

// Appends the fields after the first one: the manner, and the numbers of the characters that the key types.
#[tactic(auto, unfolding(crate::specs::ReportTexts::further_fields, termwiz_kitty::specs::KittyTexts::characters_text))]
fn push_further_fields(
    text: &mut String,
    modifiers: u8,
    kind: KeyEventKind,
    typed: &str,
) -> Result<(), AllocError>
    ensures { OnOk result (string_bytes text.new ≡ string_bytes text.old ++ further_fields modifiers kind (chars typed.now)) }
{
    let mut rest = typed.chars();
    let Some(first) = rest.next() else {
        return push_last_manner(text, modifiers, kind);
    };
    push_first(text, modifiers, kind, first)?;
    push_further(text, rest.as_str())
}

// The sequence of a key of this number, with all that is said of it.
#[tactic(auto, unfolding(crate::specs::ReportTexts::full_report_text))]
fn full_text(alloc: Global, own: u32, report: &KeyReport) -> Result<String, AllocError>
    ensures { IfOk result (λ text. string_bytes text ≡ full_report_text own report.now) }
{
    let mut text = String::new(alloc);
    text.push_str(CSI)?;
    let codes = Codes {
        own,
        shifted: report.shifted,
        base: report.base,
    };
    push_codes(&mut text, codes)?;
    push_further_fields(
        &mut text,
        report.modifiers,
        report.kind,
        report.text.as_str(),
    )?;
    text.push('u')?;
    Ok(text)
}

// The same, in which Backspace is told by its other number where the first one makes the sequence too long.
fn told_text(alloc: Global, own: u32, report: &KeyReport) -> Result<String, AllocError>
    ensures { IfOk result (λ text. string_bytes text ≡ full_report_text (rules.told_number report.now own) report.now) }
{
    let text = full_text(alloc, own, report)?;
    if own == BACKSPACE && text.len() > MOST_BYTES {
        return full_text(alloc, SHORT_BACKSPACE, report);
    }
    Ok(text)
}

// Whether a report says no more than its key, the modifiers and what happened.
fn says_no_more(report: &KeyReport) -> bool
    ensures { result ≡ rules.says_no_more report.now }
{
    report.shifted.is_none() && report.base.is_none() && report.text.as_str().is_empty()
}

// The number of a key of its own.
#[tactic(auto, unfolding(crate::specs::ReportTexts::own_number))]
fn own_number(key: ReportedKey) -> Option<u32>
    ensures { result ≡ rules.own_number key }
{
    if let ReportedKey::Named(KeyCode::KeyPadBegin) = key {
        return Some(KEYPAD_BEGIN);
    }
    match form_of(key) {
        Some(KeyForm::Code(number)) => Some(number),
        _ => None,
    }
}

// Whether a number is one of Kitty's numbers of functional keys.
fn is_functional(number: u32) -> bool
    ensures { result ≡ keys.is_functional number }
{
    FIRST_FUNCTIONAL <= number && number <= LAST_FUNCTIONAL
}

// Whether the number of a character is that of Tab, Enter, Escape or Backspace, or of a text that no key typed.
fn is_control_key(c: char) -> bool
    ensures { result ≡ ((c == keys.no_key) || is_some (keys.entry_at keys.control_keys c)) }
{
    matches!(c, '\0' | '\x08' | '\t' | '\n' | '\r' | '\x1b' | '\x7f')
}

// Whether a character is the key that its number is read as.
fn is_own_character(c: char) -> bool
    ensures { result ≡ is_character (keys.key_of c) }
{
    !is_functional(u32::from(c)) && !is_control_key(c)
}

// Whether a number is read as a key without a name.
fn is_nameless(number: u32) -> bool
    ensures { result ≡ rules.is_nameless (keys.key_of number) }
{
    if number == NO_KEY {
        return true;
    }
    is_functional(number) && matches!(functional_key(number), ReportedKey::Functional(_))
}

// Whether the key is the one that its number is read as.
#[tactic(auto, unfolding(crate::specs::ReportTexts::is_own_key))]
fn is_own_key(key: ReportedKey) -> bool
    ensures { result ≡ rules.is_own_key key }
{
    match key {
        ReportedKey::Named(KeyCode::Char(c)) => is_own_character(c),
        ReportedKey::Functional(number) => is_nameless(number),
        _ => true,
    }
}

// The character of a key, if its number is that of a functional key.
#[tactic(auto, unfolding(crate::specs::ReportTexts::private_character))]
fn private_character(key: ReportedKey) -> Option<char>
    ensures { result ≡ rules.private_character key }
{
    match key {
        ReportedKey::Named(KeyCode::Char(c)) if is_functional(u32::from(c)) => Some(c),
        _ => None,
    }
}

// A character as xterm's modifyOtherKeys reports it.
#[tactic(auto, unfolding(crate::specs::ReportTexts::private_report_text))]
fn private_text(alloc: Global, c: char, modifiers: u8) -> Result<String, AllocError>
    ensures { IfOk result (λ text. string_bytes text ≡ private_report_text c modifiers) }
{
    let number = 1 + u32::from(modifiers);
    let text = format!(in alloc; "{CSI}27;{number};{}~", u32::from(c))?;
    Ok(text)
}

// Whether a report by xterm's modifyOtherKeys is read with this shifted character: with Shift the character itself, and none without it.
fn is_shifted_as(c: char, modifiers: u8, shifted: Option<char>) -> bool
    ensures { result ≡ rules.is_shifted_as c modifiers shifted }
{
    let is_shifted = modifiers & SHIFT != 0;
    match shifted {
        Some(shifted) => is_shifted && shifted == c,
        None => !is_shifted,
    }
}

// Whether a report of this character says what is read from xterm's.
fn says_as_xterm(report: &KeyReport, c: char) -> bool
    ensures { result ≡ rules.says_as_xterm report.now c }
{
    is_shifted_as(c, report.modifiers, report.shifted)
        && report.base.is_none()
        && report.text.as_str().is_empty()
        && report.kind == KeyEventKind::Press
}

// The sequence of a report, however long it is. `None` if there is none.
#[tactic(auto, unfolding(crate::specs::ReportTexts::report_text))]
fn sequence(alloc: Global, report: &KeyReport) -> Result<Option<String>, AllocError>
    ensures { IfOk result (λ text. rules.report_text report.now ≡ option_map string_bytes text) }
{
    if let Some(c) = private_character(report.key) {
        if !says_as_xterm(report, c) {
            return Ok(None);
        }
        return Ok(Some(private_text(alloc, c, report.modifiers)?));
    }
    if !is_own_key(report.key) {
        return Ok(None);
    }
    if !says_no_more(report) {
        let Some(own) = own_number(report.key) else {
            return Ok(None);
        };
        return Ok(Some(told_text(alloc, own, report)?));
    }
    let Some(form) = form_of(report.key) else {
        return Ok(None);
    };
    let mut text = String::new(alloc);
    push_plain(&mut text, form, report.modifiers, report.kind)?;
    Ok(Some(text))
}

// The sequence of a report.
#[tactic(auto, unfolding(crate::specs::EventTexts::IsTooLong))]
pub(crate) fn report_text(alloc: Global, report: &KeyReport) -> Result<Vec<u8>, EncodeEventError>
    ensures sent { IfOk result (λ sent. (rules.report_text report.now ≡ Some sent.items) × (length sent.items ≤ 256)) }
    ensures no_text { result ≡ Err error.NoText → (bytes : List ℕ) → rules.report_text report.now ≢ Some bytes }
    ensures too_long { result ≡ Err error.TooLong → IsTooLong (event.Key report.now) }
{
    let Some(text) = sequence(alloc, report)? else {
        return Err(EncodeEventError::NoText);
    };
    if text.len() > MOST_BYTES {
        return Err(EncodeEventError::TooLong);
    }
    Ok(text.into_bytes())
}
