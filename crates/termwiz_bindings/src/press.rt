//! Presses: a key and the modifiers held with it, the same however the terminal reports the key.
ghost use Rattle.std.specs.Prelude.{◌≡◌, ◌%◌, [], ◌∷◌, ◌++◌, IfSome, MatchOption};
ghost use Rattle.std.specs.Char.{encode_utf8};
ghost use Rattle.std.specs.Str.{chars};
ghost use Rattle.termwiz_extended_events.specs.declared.types.KeyEventKind.TheVariants.{Press};
ghost use Rattle.termwiz_extended_events.specs.KeyReports.{report_of};
ghost use Rattle.termwiz_extended_events.specs.PortEvents.{kitty_bits};
ghost use Rattle.termwiz_bindings.specs.Codes.{IsPress, code};
ghost use Rattle.termwiz_bindings.specs.Presses as rules;
ghost use Rattle.termwiz_bindings.specs.Presses.{canonical, event_report};

mod characters;
mod keys;
mod letters;

use crate::numbers::{reported_detail, reported_number};
pub(crate) use characters::character;
use characters::{character_press, control_press, is_told, shift_rules};
pub(crate) use keys::main_key;
use keys::{is_no_key, makes_no_press};
pub(crate) use letters::is_shifted_sign;
use letters::{shown_with_shift, standard_shifted};
use termwiz_base::{Flags, Modifiers};
use termwiz_extended_events::types::{KeyEventKind, KeyReport, ReportedKey};
use termwiz_keys::types::{KeyCode, KeyEvent};

// Kitty's bits of the modifiers.
pub(crate) const SHIFT: u8 = 1;

pub(crate) const ALT: u8 = 2;

pub(crate) const CTRL: u8 = 4;

pub(crate) const SUPER: u8 = 8;

pub(crate) const HYPER: u8 = 16;

pub(crate) const META: u8 = 32;

// All modifiers but the locks.
const ALL_BUT_LOCKS: u8 = 63;

// The same without SHIFT.
const ALL_BUT_SHIFT: u8 = 62;

// The strong ones, with which a letter is told in lower case: CTRL, SUPER, HYPER and META.
const STRONG: u8 = 60;

/// A key that was pressed, and the modifiers held with it: one name for the key in every mode of the terminal. So a program
/// compares presses, and looks up by them what a key does.
///
/// Letters, digits and signs are the characters that they type: Shift with `a` is `A`, and with `1` on many keyboards `!`. Where
/// CTRL, SUPER, HYPER or META is held too, a letter that has a capital keeps SHIFT: Ctrl, Shift and `a` are `a` with CTRL and
/// SHIFT. The keypad and the arrows in application mode are the keys of the main block. Caps Lock and Num Lock are never held.
///
/// A program that turns Kitty's keyboard protocol on should ask for `DISAMBIGUATE_ESCAPE_CODES` and `REPORT_ALTERNATE_KEYS`, and
/// with `REPORT_ALL_KEYS_AS_ESCAPE_CODES` for `REPORT_ASSOCIATED_TEXT` too. Otherwise Ctrl, Shift and `1` come without the `!`,
/// and are `1` with CTRL and SHIFT. That is the second press where the `!` is told.
#[derive(Clone, Copy, PartialEq, Eq, Debug)]
pub struct KeyPress {
    key: ReportedKey,
    held: u8,
}

// The bits of the port's modifiers as Kitty's.
fn kitty_bits(modifiers: Modifiers) -> u8
    ensures { result ≡ kitty_bits modifiers.0 }
{
    let bits = modifiers.encode_xterm();
    if modifiers.contains(Modifiers::SUPER) {
        bits + SUPER
    } else {
        bits
    }
}

// The last byte of a number.
fn low_byte(number: u32) -> u8
    ensures { result ≡ number % 256 }
{
    (number % 256) as u8
}

// Whether a modifier is held beside SHIFT and the locks.
fn is_shortcut(held: u8) -> bool
    ensures { result ≡ rules.is_shortcut held }
{
    held & ALL_BUT_SHIFT != 0
}

// A character that a report has beside its key: a control character counts as none.
fn counted(c: Option<char>) -> Option<char>
    ensures { result ≡ rules.counted c }
{
    match c {
        Some(c) if c.is_control() => None,
        _ => c,
    }
}

// Whether the text has a control character.
fn has_control(text: &str) -> bool
    ensures { result ≡ rules.has_control text.now }
{
    text.chars().any(|c| c.is_control())
}

// Whether the text has characters, and no control characters.
fn is_counted_text(text: &str) -> bool
    ensures { result ≡ rules.is_counted_text text.now }
{
    !text.is_empty() && !has_control(text)
}

// Whether the key was released.
fn is_release(kind: KeyEventKind) -> bool
    ensures { result ≡ rules.is_release kind }
{
    matches!(kind, KeyEventKind::Release)
}

// Whether a key may type: it makes a press, or the text comes without a key.
fn may_type(key: ReportedKey) -> bool
    ensures { result ≡ rules.may_type key }
{
    is_no_key(key) || !makes_no_press(key)
}

// Whether a report with these modifiers and this text is typed: it has a text, and no modifiers but SHIFT and the locks.
fn is_typed(modifiers: u8, text: &str) -> bool
    ensures { result ≡ rules.is_typed modifiers text.now }
{
    is_counted_text(text) && !is_shortcut(modifiers)
}

// Whether a report with this text in place of its own types it.
fn types_text(report: &KeyReport, text: &str) -> bool
    ensures { result ≡ rules.types_text (rules.with_text report.now text.now) }
{
    may_type(report.key) && is_typed(report.modifiers, text)
}

// The first character of a text, and the text behind it.
pub(crate) fn split_first(text: &str) -> Option<(char, &str)>
    ensures chars { MatchOption result (chars text.now ≡ []) (λ parts. chars text.now ≡ parts.0 ∷ chars parts.1.now) }
    ensures bytes { IfSome result (λ parts. text.now ≡ encode_utf8 parts.0 ++ parts.1.now) }
{
    let mut rest = text.chars();
    let first = rest.next()?;
    Some((first, rest.as_str()))
}

// The press of a typed text: its character, if it has only one.
#[tactic(auto, unfolding(crate::specs::Presses::typed_press))]
fn typed_press(text: &str, held: u8) -> Option<KeyPress>
    ensures { result ≡ rules.typed_press (chars text.now) held }
{
    let (c, rest) = split_first(text)?;
    if split_first(rest).is_some() {
        return None;
    }
    Some(character_press(c, if c == ' ' { held & SHIFT } else { 0 }))
}

// The key by its main name, before SHIFT is looked at.
#[tactic(auto, unfolding(crate::specs::Presses::plain_press, crate::specs::Presses::main_press))]
fn plain_press(key: ReportedKey, modifiers: u8) -> KeyPress
    ensures { result ≡ rules.plain_press (record { key = key; held = modifiers }) }
{
    control_press(KeyPress {
        key: main_key(key),
        held: modifiers & ALL_BUT_LOCKS,
    })
}

// The press of a key that types no text.
#[tactic(auto, unfolding(crate::specs::Presses::settled))]
fn settled(key: ReportedKey, modifiers: u8, shifted: Option<char>) -> KeyPress
    ensures { result ≡ rules.settled shifted (record { key = key; held = modifiers }) }
{
    shift_rules(counted(shifted), plain_press(key, modifiers))
}

// Whether the key types a character that isn't of ASCII.
fn is_beyond_ascii(key: ReportedKey) -> bool
    ensures { result ≡ rules.is_beyond_ascii key }
{
    match character(key) {
        Some(c) => !c.is_ascii(),
        None => false,
    }
}

// The press of the key of a PC-101 keyboard that types this character.
#[tactic(auto, unfolding(crate::specs::Presses::canonical, crate::specs::MainKeys::makes_no_press))]
fn standard_press(base: char, modifiers: u8) -> Option<KeyPress>
    ensures value { result ≡ canonical (rules.standard_report base modifiers) }
    ensures press { IfSome result IsPress }
{
    let key = ReportedKey::Named(KeyCode::Char(base));
    Some(settled(key, modifiers, standard_shifted(base)))
}

// The press of the key at the same place of a PC-101 keyboard: of a shortcut whose character isn't of ASCII.
#[tactic(auto, unfolding(crate::specs::Presses::placed_second))]
fn placed_second(report: &KeyReport) -> Option<KeyPress>
    ensures value { result ≡ rules.placed_second report.now }
    ensures press { IfSome result IsPress }
{
    if !is_shortcut(report.modifiers) || !is_beyond_ascii(report.key) {
        return None;
    }
    let base = counted(report.base)?;
    standard_press(base, report.modifiers)
}

// Whether SHIFT was lost to another character that was told, where SHIFT would have stayed.
fn lost_shift(shifted: Option<char>, press: KeyPress) -> bool
    ensures { result ≡ rules.lost_shift shifted press }
{
    match (character(press.key), shifted) {
        (Some(c), Some(told)) => {
            is_told(c, press.held) && c != told && shown_with_shift(c).is_none()
        }
        _ => false,
    }
}

// The press with SHIFT of a shortcut that lost SHIFT to the character that was told.
#[tactic(auto, unfolding(crate::specs::Presses::untold_second))]
fn untold_second(report: &KeyReport) -> Option<KeyPress>
    ensures value { result ≡ rules.untold_second report.now }
    ensures press { IfSome result IsPress }
{
    let press = plain_press(report.key, report.modifiers);
    if !is_shortcut(report.modifiers) || !lost_shift(counted(report.shifted), press) {
        return None;
    }
    KeyPress::new(report.key, report.modifiers)
}

// The press of the key that sends this control character on some terminals: Backspace with CTRL, and Enter.
#[tactic(auto, unfolding(crate::specs::Presses::sending_second))]
fn sending_second(report: &KeyReport) -> Option<KeyPress>
    ensures value { result ≡ rules.sending_second report.now }
    ensures press { IfSome result IsPress }
{
    match character(report.key)? {
        '\u{8}' => KeyPress::new(
            ReportedKey::Named(KeyCode::Backspace),
            report.modifiers | CTRL,
        ),
        '\n' => KeyPress::new(ReportedKey::Named(KeyCode::Enter), report.modifiers),
        _ => None,
    }
}

// Whether the press types the character of its key: nothing is held, or SHIFT with the space alone.
fn is_typed_with(held: u8, c: char) -> bool
    ensures { result ≡ rules.is_typed_with held c }
{
    held == 0 || (held == SHIFT && c == ' ')
}

impl KeyPress {
    /// Returns the press of a key and of modifiers held with it, as Kitty's bits. So a key by another name is that of the main block,
    /// and `A` with SHIFT is `A`. `None` is for a modifier or a lock by itself, for the marks of a paste, and for a number that is not in
    /// Kitty's table.
    #[tactic(auto, unfolding(crate::specs::Presses::canonical))]
    pub fn new(key: ReportedKey, held: u8) -> Option<KeyPress>
        ensures value { result ≡ canonical (report_of key (record { modifiers = held; kind = Press })) }
        ensures press { IfSome result IsPress }
    {
        if makes_no_press(key) {
            return None;
        }
        Some(settled(key, held, None))
    }

    /// Returns the press of a key that the port reads, or `None` for a modifier or a lock by itself, and for the marks of a paste. Of the
    /// modifiers SHIFT, ALT, CTRL and SUPER count: not LEADER, nor which of two keys is held. The extended parser gives reports.
    pub fn of_event(event: &KeyEvent) -> Option<KeyPress>
        ensures value { result ≡ canonical (event_report event.now) }
        ensures press { IfSome result IsPress }
    {
        KeyPress::new(ReportedKey::Named(event.key), kitty_bits(event.modifiers))
    }

    /// Returns the press of a key report. `None` is for a release, for a modifier or a lock by itself, and for a report that
    /// types several characters: [`typed_text`] returns these. A repeat counts as a press.
    pub fn of_report(report: &KeyReport) -> Option<KeyPress>
        ensures value { result ≡ canonical report.now }
        ensures press { IfSome result IsPress }
    {
        KeyPress::of_report_typing(report, report.text.as_str())
    }

    /// Returns the press of a key report with another text in place of its own, as [`KeyPress::of_report`] does. It is for callers
    /// that have the text elsewhere.
    #[tactic(auto, unfolding(crate::specs::Presses::canonical))]
    pub fn of_report_typing(report: &KeyReport, text: &str) -> Option<KeyPress>
        ensures value { result ≡ canonical (rules.with_text report.now text.now) }
        ensures press { IfSome result IsPress }
    {
        if is_release(report.kind) {
            return None;
        }
        if types_text(report, text) {
            return typed_press(text, report.modifiers);
        }
        if makes_no_press(report.key) {
            return None;
        }
        Some(settled(report.key, report.modifiers, report.shifted))
    }

    /// Returns a second press of a key report, for a program in which the first one leads nowhere. It is there for three kinds of keys.
    ///
    /// A key whose character isn't of ASCII has that of the key at the same place of a PC-101 keyboard, with the same modifiers. So Ctrl
    /// with the Cyrillic letter es is tried as Ctrl with `c`. The terminal must tell that key (`REPORT_ALTERNATE_KEYS` of Kitty's
    /// protocol), and a modifier beside SHIFT must be held. Ctrl with `c` on a Dvorak keyboard is never tried as another key.
    ///
    /// A digit or a sign whose character with Shift was told has the press with SHIFT: Ctrl with `!` is tried as Ctrl, Shift and `1`.
    /// Letters have none such.
    ///
    /// The characters U+0008 and U+000A are also what Ctrl-Backspace and Enter send on some terminals, so these are tried.
    #[tactic(auto, unfolding(crate::specs::Presses::second))]
    pub fn second(report: &KeyReport) -> Option<KeyPress>
        ensures value { result ≡ rules.second report.now }
        ensures press { IfSome result IsPress }
    {
        if is_release(report.kind) || makes_no_press(report.key) {
            return None;
        }
        placed_second(report)
            .or(untold_second(report))
            .or(sending_second(report))
    }

    /// Returns the key.
    pub fn key(self) -> ReportedKey
        ensures { result ≡ self.key }
    {
        self.key
    }

    /// Returns the modifiers as Kitty's bits: 1 SHIFT, 2 ALT, 4 CTRL, 8 SUPER, 16 HYPER, 32 META.
    pub fn held(self) -> u8
        ensures { result ≡ self.held }
    {
        self.held
    }

    /// Returns the code of the press: the key's number in the C header, what the key carries in three bytes, and the modifiers. Of a key
    /// without a name the number is 0, and it carries its number in Kitty's table. Presses have different codes, and a program may
    /// store these.
    #[tactic(auto, using(crate::proofs::lemmas::KeyNumbers::number_below), unfolding(crate::specs::Codes::code))]
    pub fn code(self) -> [u8; 5]
        ensures { result ≡ code self }
    {
        let detail = reported_detail(self.key);
        [
            reported_number(self.key) as u8,
            low_byte(detail / 0x10000),
            low_byte(detail / 0x100),
            low_byte(detail),
            self.held,
        ]
    }

    /// Returns the character that the press types, if it does: nothing is held, or SHIFT with the space alone. A program inserts it
    /// if the press does nothing else. Enter and Tab type none.
    #[tactic(auto, unfolding(crate::specs::Presses::text_of_press))]
    pub fn text(self) -> Option<char>
        ensures { result ≡ rules.text_of_press self }
    {
        counted(character(self.key)).filter(|c| is_typed_with(self.held, *c))
    }
}

/// Returns the text of a report that has no press because it types several characters, as a compose key or an input method
/// may. It is to be inserted as a paste is. The text of any other report is empty here.
#[tactic(auto, unfolding(crate::specs::Presses::typed_text))]
pub fn typed_text<'a>(report: &'a KeyReport) -> &'a str
    ensures { result.now ≡ rules.typed_text report.now }
{
    let text = report.text.as_str();
    if is_release(report.kind) || !types_text(report, text) {
        return "";
    }
    match typed_press(text, report.modifiers) {
        Some(_) => "",
        None => text,
    }
}
