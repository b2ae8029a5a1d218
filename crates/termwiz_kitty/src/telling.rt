// What a terminal sends for a key, by the flags of Kitty's keyboard protocol.
ghost use Rattle.std.specs.Prelude.{◌≡◌};
ghost use Rattle.termwiz_kitty.specs.Telling as rules;

use crate::key_forms::{KeyForm, form_of, is_character, main_key};
use crate::legacy::{LegacyText, legacy_text};
use termwiz_base::{Flags, KittyKeyboardFlags};
use termwiz_extended_events::types::{KeyEventKind, KeyReport, ReportedKey};
use termwiz_keys::types::KeyCode;

// How a key is sent.
#[derive(Clone, Copy, PartialEq, Eq, Debug)]
pub(crate) enum Telling {
    // Nothing is sent.
    Nothing,
    // As the text that it types.
    Typed,
    // As this text from before the protocol.
    Legacy(LegacyText),
    // As a key report.
    Reported,
}

// Kitty's bit of Shift.
const SHIFT: u8 = 1;

// The bits of all modifiers but the locks.
const ALL_BUT_LOCKS: u8 = 63;

// The same without Shift.
const ALL_BUT_SHIFT_AND_LOCKS: u8 = 62;

// Whether the key was released.
fn is_release(kind: KeyEventKind) -> bool
    ensures { result ≡ rules.is_release kind }
{
    matches!(kind, KeyEventKind::Release)
}

// Whether the key was pressed.
pub(crate) fn is_press(kind: KeyEventKind) -> bool
    ensures { result ≡ rules.is_press kind }
{
    matches!(kind, KeyEventKind::Press)
}

// Whether Shift is held.
pub(crate) fn is_shifted(modifiers: u8) -> bool
    ensures { result ≡ rules.is_shifted modifiers }
{
    modifiers & SHIFT != 0
}

// Whether no modifier is held, but maybe a lock is on.
fn is_bare(modifiers: u8) -> bool
    ensures { result ≡ rules.is_bare modifiers }
{
    modifiers & ALL_BUT_LOCKS == 0
}

// Whether the key is a modifier key or that of a lock.
fn is_modifier(key: ReportedKey) -> bool
    ensures { result ≡ rules.is_modifier key }
{
    !is_character(key)
        && matches!(
            form_of(key),
            Some(KeyForm::Code(57358..=57360 | 57441..=57454))
        )
}

// Whether the key is Enter, Tab or Backspace.
fn sends_control(key: ReportedKey) -> bool
    ensures { result ≡ rules.sends_control key }
{
    matches!(
        key,
        ReportedKey::Named(KeyCode::Enter | KeyCode::Tab | KeyCode::Backspace)
    )
}

// Whether the text has a control character. Kitty's protocol never sends one as text.
pub(crate) fn has_control(text: &str) -> bool
    ensures { result ≡ rules.has_control text.now }
{
    text.chars().any(|c| c.is_control())
}

// Whether the text is sent as it is: it has characters, and no control characters.
pub(crate) fn is_typed_text(text: &str) -> bool
    ensures { result ≡ rules.is_typed_text text.now }
{
    !text.is_empty() && !has_control(text)
}

// Whether the key types a character that is no control character.
fn types_character(key: ReportedKey) -> bool
    ensures { result ≡ rules.types_character key }
{
    match key {
        ReportedKey::Named(KeyCode::Char(c)) => !c.is_control(),
        _ => false,
    }
}

// Whether the key types a text: that of its report, or one by itself.
fn types(key: ReportedKey, report: &KeyReport) -> bool
    ensures { result ≡ rules.types key report.now }
{
    let is_at_most_shifted = report.modifiers & ALL_BUT_SHIFT_AND_LOCKS == 0;
    if is_at_most_shifted && (is_typed_text(report.text.as_str()) || types_character(key)) {
        return true;
    }
    sends_control(key) && is_bare(report.modifiers)
}

// Whether the program asked for reports of all keys.
fn tells_all_keys(flags: KittyKeyboardFlags) -> bool
    ensures { result ≡ rules.tells_all_keys flags.0 }
{
    flags.contains(KittyKeyboardFlags::REPORT_ALL_KEYS_AS_ESCAPE_CODES)
}

// Whether the program asked for repeats and releases.
fn tells_event_types(flags: KittyKeyboardFlags) -> bool
    ensures { result ≡ rules.tells_event_types flags.0 }
{
    flags.contains(KittyKeyboardFlags::REPORT_EVENT_TYPES)
}

// What happened to the key, as it is reported.
pub(crate) fn told_kind(kind: KeyEventKind, flags: KittyKeyboardFlags) -> KeyEventKind
    ensures { result ≡ rules.told_kind flags.0 kind }
{
    if tells_event_types(flags) {
        kind
    } else {
        KeyEventKind::Press
    }
}

// Whether keys are sent as before the protocol: neither flag that makes reports of them is on.
fn is_legacy(flags: KittyKeyboardFlags) -> bool
    ensures { result ≡ rules.is_legacy flags.0 }
{
    !flags.contains(KittyKeyboardFlags::DISAMBIGUATE_ESCAPE_CODES) && !tells_all_keys(flags)
}

// The key that is told: before the protocol a key of the keypad is its main key.
pub(crate) fn told_key(report: &KeyReport, flags: KittyKeyboardFlags) -> ReportedKey
    ensures { result ≡ rules.told_key report.now flags.0 }
{
    if is_legacy(flags) {
        main_key(report.key)
    } else {
        report.key
    }
}

// Whether the key is told as a press as before the protocol.
fn is_legacy_press(report: &KeyReport, flags: KittyKeyboardFlags) -> bool
    ensures { result ≡ rules.is_legacy_press report.now flags.0 }
{
    is_legacy(flags) && is_press(told_kind(report.kind, flags))
}

// What such a press sends that isn't its report.
fn legacy_of(report: &KeyReport, flags: KittyKeyboardFlags) -> Option<LegacyText>
    ensures { result ≡ rules.legacy_of report.now flags.0 }
{
    if !is_legacy_press(report, flags) {
        return None;
    }
    let held = report.modifiers & ALL_BUT_LOCKS;
    legacy_text(told_key(report, flags), held, report.shifted)
}

// How a key is sent if not all keys are reported as escape codes.
fn telling_some(report: &KeyReport, flags: KittyKeyboardFlags) -> Telling
    ensures { result ≡ rules.telling_some report.now flags.0 }
{
    let key = told_key(report, flags);
    let is_release = is_release(report.kind);
    if sends_control(key) && is_release {
        return Telling::Nothing;
    }
    if types(key, report) && !is_release {
        return Telling::Typed;
    }
    match legacy_of(report, flags) {
        Some(text) => Telling::Legacy(text),
        None => Telling::Reported,
    }
}

// How a key is sent.
#[tactic(auto, unfolding(crate::specs::Telling::telling))]
pub(crate) fn telling_of(report: &KeyReport, flags: KittyKeyboardFlags) -> Telling
    ensures { result ≡ rules.telling report.now flags.0 }
{
    if is_release(report.kind) && !tells_event_types(flags) {
        return Telling::Nothing;
    }
    let all = tells_all_keys(flags);
    if is_modifier(report.key) && !all {
        return Telling::Nothing;
    }
    if all {
        return Telling::Reported;
    }
    telling_some(report, flags)
}

// Whether the locks aren't reported.
fn hides_locks(report: &KeyReport, flags: KittyKeyboardFlags) -> bool
    ensures { result ≡ rules.hides_locks report.now flags.0 }
{
    (is_character(told_key(report, flags)) && !tells_all_keys(flags))
        || is_legacy_press(report, flags)
}

// The modifiers, as they are reported.
pub(crate) fn told_modifiers(report: &KeyReport, flags: KittyKeyboardFlags) -> u8
    ensures { result ≡ rules.told_modifiers report.now flags.0 }
{
    if hides_locks(report, flags) {
        report.modifiers & ALL_BUT_LOCKS
    } else {
        report.modifiers
    }
}

// Whether what the key types with Shift, and what its place types, is reported.
fn tells_alternates(report: &KeyReport, flags: KittyKeyboardFlags) -> bool
    ensures { result ≡ rules.tells_alternates report.now flags.0 }
{
    flags.contains(KittyKeyboardFlags::REPORT_ALTERNATE_KEYS)
        && is_character(told_key(report, flags))
}

// What the key types with Shift, if it is reported.
pub(crate) fn told_shifted(report: &KeyReport, flags: KittyKeyboardFlags) -> Option<char>
    ensures { result ≡ rules.told_shifted report.now flags.0 }
{
    if tells_alternates(report, flags) && is_shifted(report.modifiers) {
        report.shifted
    } else {
        None
    }
}

// What the place of the key types on the standard layout, if it is reported.
pub(crate) fn told_base(report: &KeyReport, flags: KittyKeyboardFlags) -> Option<char>
    ensures { result ≡ rules.told_base report.now flags.0 }
{
    if tells_alternates(report, flags) {
        report.base
    } else {
        None
    }
}

// Whether the text of a key is reported.
fn tells_text(report: &KeyReport, flags: KittyKeyboardFlags) -> bool
    ensures { result ≡ rules.tells_text report.now flags.0 }
{
    flags.contains(KittyKeyboardFlags::REPORT_ASSOCIATED_TEXT)
        && tells_all_keys(flags)
        && matches!(form_of(told_key(report, flags)), Some(KeyForm::Code(_)))
        && !has_control(report.text.as_str())
}

// The text of the key, if it is reported, and else an empty one.
pub(crate) fn told_text<'a>(report: &'a KeyReport, flags: KittyKeyboardFlags) -> &'a str
    ensures { result.now ≡ rules.told_text report.now flags.0 }
{
    if tells_text(report, flags) {
        report.text.as_str()
    } else {
        ""
    }
}
