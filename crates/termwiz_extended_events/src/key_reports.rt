// The sequences that report a key.
ghost use Rattle.std.specs.Prelude.{◌≡◌, ◌≢◌, ◌∷◌, [], IfOk, IfSome, IsSome, OnErr, Some, codes, option_map};
ghost use Rattle.termwiz_extended_events.specs.declared.types.ReportedKey.{ReportedKey as Key};
ghost use Rattle.termwiz_extended_events.specs.declared.types.ReportedKey.TheVariants.{Named};
ghost use Rattle.termwiz_extended_events.specs.Numbers.{fields, first_some};
ghost use Rattle.termwiz_extended_events.specs.Numbers as numbers;
ghost use Rattle.termwiz_extended_events.specs.KeyReports as rules;
ghost use Rattle.termwiz_extended_events.specs.KeyReports.{IsSpelled, numbered_of_fields, other_of_fields, report_of, report_behind, lettered_of_fields, plain_report, spelled_report};
ghost use Rattle.termwiz_keys.specs.declared.types.KeyCode.{KeyCode as Code};
ghost use Rattle.termwiz_grammar.specs.MouseReports.{semicolon};
ghost use Rattle.termwiz_grammar.specs.Table.{key_of_code};
ghost use Rattle.termwiz_extended_events.specs.FieldsLeft.{fields_in};

use crate::fields::{Fields, before_end};
use crate::key_fields::{codes_of, is_text, manner_of, text_of};
use crate::numbers::{MOST_DIGITS, character_at, first_number, number_within, scalar};
use crate::reported_keys;
use crate::reported_keys::{LAST_FUNCTIONAL, NO_KEY};
use crate::types::{KeyEventKind, KeyReport, Manner, PlainReport, ReportedKey};
use std::alloc::{AllocError, Global};
use termwiz_keys::types::KeyCode;

// Shift and Ctrl as Kitty's bits.
const SHIFT_BIT: u8 = 1;

const CTRL_BIT: u8 = 4;

// A press with no modifier.
const PRESSED: Manner = Manner {
    modifiers: 0,
    kind: KeyEventKind::Press,
};

/// A key report whose text is still spelled in its sequence, by the numbers of its characters. It holds no memory.
#[derive(Drop)]
pub struct SpelledReport<'t> {
    key: ReportedKey,
    manner: Manner,
    shifted: Option<char>,
    base: Option<char>,
    text: &'t [u8],
}

impl<'t> SpelledReport<'t> {
    // A report without a text.
    #[tactic(auto, unfolding(crate::specs::KeyReports::text_of))]
    pub(crate) fn plain(report: PlainReport) -> SpelledReport<'t>
        ensures { spelled_report result ≡ Some (plain_report report) }
    {
        SpelledReport {
            key: report.key,
            manner: report.manner,
            shifted: report.shifted,
            base: None,
            text: b"",
        }
    }

    // The report with its text. Only a text needs memory.
    pub(crate) fn whole(self, alloc: Global) -> Result<KeyReport, AllocError>
        requires { IsSome (spelled_report self) }
        ensures ok { IfOk result (λ report. spelled_report self.entry ≡ Some report) }
        ensures refused { OnErr result (IfSome (spelled_report self.entry) (λ report. report.text ≢ [])) }
    {
        Ok(KeyReport {
            key: self.key,
            modifiers: self.manner.modifiers,
            kind: self.manner.kind,
            shifted: self.shifted,
            base: self.base,
            text: text_of(alloc, self.text)?,
        })
    }
}

// The report of a key that says no more than its manner.
pub(crate) fn report_of(alloc: Global, key: ReportedKey, manner: Manner) -> KeyReport
    ensures { result ≡ report_of key manner }
{
    PlainReport::new(key, manner).whole(alloc)
}

// The report of a press of a key with these modifiers.
fn pressed_with(modifiers: u8, key: ReportedKey) -> PlainReport
    ensures { plain_report result ≡ rules.report_of key (record { modifiers = modifiers; kind = KeyEventKind.Press }) }
{
    let manner = Manner {
        modifiers,
        kind: KeyEventKind::Press,
    };
    PlainReport::new(key, manner)
}

// c : shifted : base ; modifiers : kind ; text u, of which only c must be there: the key of c.
#[tactic(auto, unfolding(crate::specs::KeyReports::character_key, crate::specs::KeyReports::text_of))]
fn character_key(t: &[u8]) -> Option<SpelledReport<'_>>
    ensures { IsSpelled result (rules.character_key t.now) }
{
    let mut fields = Fields::new(before_end(t, b"u")?, b';');
    let codes = fields.next().and_then(codes_of)?;
    let manner = fields.next().map_or(Some(PRESSED), manner_of)?;
    let text = fields.next().unwrap_or(b"");
    if !is_text(text) {
        return None;
    }
    if fields.next().is_some() {
        return None;
    }
    Some(SpelledReport {
        key: reported_keys::key_of(codes.own),
        manner,
        shifted: codes.shifted,
        base: codes.base,
        text,
    })
}

// The manner that what follows the first field says.
#[inline(always)]
fn manner_behind(rest: Option<&[u8]>) -> Option<Manner>
    ensures { (key : Key) → option_map (rules.report_of key) result ≡ report_behind key (fields_in semicolon rest.entry) }
{
    match rest {
        Some(field) => manner_of(field),
        None => Some(PRESSED),
    }
}

// 1 ; modifiers : kind, of which nothing must be there: the manner of a key that the last byte tells.
#[inline(always)]
fn manner_behind_one(t: &[u8]) -> Option<Manner>
    ensures { (code : Code) → option_map (rules.report_of (Named code)) result ≡ lettered_of_fields code (fields t.now) }
{
    match t {
        [] | [b'1'] => Some(PRESSED),
        [b';', field @ ..] => manner_of(field),
        [b'1', b';', field @ ..] => manner_of(field),
        _ => None,
    }
}

// 1 ; modifiers : kind and a letter, of which only the letter must be there: a key by its letter.
#[tactic(auto, unfolding(crate::specs::KeyReports::lettered_key))]
#[inline(always)]
fn lettered_key(t: &[u8]) -> Option<PlainReport>
    ensures { option_map plain_report result ≡ rules.lettered_key t.now }
{
    let last = *t.last()?;
    // It ends positions of the cursor, and no key of these.
    if last == b'R' {
        return None;
    }
    // The table of letters is read last, so that it is read without a branch for each letter.
    let manner = manner_behind_one(&t[..t.len() - 1])?;
    let key = reported_keys::lettered_key(last)?;
    Some(PlainReport::new(ReportedKey::Named(key), manner))
}

// n ; modifiers : kind, of which only n must be there: a key by its number.
#[inline(always)]
fn numbered_report(body: &[u8]) -> Option<PlainReport>
    ensures { option_map plain_report result ≡ numbered_of_fields (fields body.now) }
{
    let (n, rest) = first_number(body, b';', MOST_DIGITS, 0, LAST_FUNCTIONAL)?;
    let key = reported_keys::tilde_key(n)?;
    let manner = manner_behind(rest)?;
    Some(PlainReport::new(key, manner))
}

// The key of a character's number as xterm reports it, as in the sequence table.
fn key_of_code(c: char) -> KeyCode
    ensures { result ≡ key_of_code c }
{
    match c {
        '\x08' | '\x7f' => KeyCode::Backspace,
        '\x1b' => KeyCode::Escape,
        '\t' => KeyCode::Tab,
        '\n' | '\r' => KeyCode::Enter,
        _ => KeyCode::Char(c),
    }
}

// m ; c behind 27 ;: the bits of the modifiers, and c.
fn other_held(held: &[u8]) -> Option<(u8, char)>
    ensures { result ≡ other_of_fields (codes "27" ∷ fields held.now) }
{
    let (one_more, c) = first_number(held, b';', MOST_DIGITS, 1, 256)?;
    Some(((one_more - 1) as u8, scalar(c?)?))
}

// The key of this character as xterm reports it.
fn other_code(c: char) -> ReportedKey
    ensures { result ≡ rules.other_code c }
{
    if u32::from(c) == NO_KEY {
        ReportedKey::Functional(NO_KEY)
    } else {
        ReportedKey::Named(key_of_code(c))
    }
}

// Whether the character is what Shift made.
fn is_shifted_by(modifiers: u8, c: char) -> bool
    ensures { result ≡ rules.is_shifted_by modifiers c }
{
    modifiers & SHIFT_BIT != 0 && !c.is_control()
}

// The report of a key by its modifiers and its character.
fn other_report(modifiers: u8, c: char) -> PlainReport
    ensures { plain_report result ≡ rules.other_report (modifiers, c) }
{
    PlainReport {
        key: other_code(c),
        manner: Manner {
            modifiers,
            kind: KeyEventKind::Press,
        },
        shifted: if is_shifted_by(modifiers, c) {
            Some(c)
        } else {
            None
        },
    }
}

// The report of a key that a tilde ends: by its number, or behind 27 by its character, as xterm's modifyOtherKeys reports it.
#[tactic(auto, unfolding(crate::specs::KeyReports::numbered_key, crate::specs::KeyReports::other_key, crate::specs::KeyReports::other_held))]
#[inline(never)]
fn tilde_report(t: &[u8]) -> Option<PlainReport>
    ensures { option_map plain_report result ≡ first_some (rules.numbered_key t.now ∷ rules.other_key t.now ∷ []) }
{
    let body = before_end(t, b"~")?;
    match body {
        [b'2', b'7', b';', held @ ..] => {
            let (modifiers, c) = other_held(held)?;
            Some(other_report(modifiers, c))
        }
        _ => numbered_report(body),
    }
}

// c ; modifiers : kind u, of which only c must be there: the key of c, if it is reported with no other character and no text.
#[tactic(auto, unfolding(crate::specs::KeyReports::character_key))]
#[inline(never)]
fn plain_character_key(t: &[u8]) -> Option<PlainReport>
    ensures { IfSome result (λ report. rules.character_key t.now ≡ Some (plain_report report)) }
{
    let (n, rest) = first_number(before_end(t, b"u")?, b';', MOST_DIGITS, 0, 0x10ffff)?;
    let own = character_at(n)?;
    let manner = manner_behind(rest)?;
    Some(PlainReport::new(reported_keys::key_of(own), manner))
}

// The report of a key, if it has no base and no text. `None` decides nothing. The last byte tells which rules can fit.
#[inline(always)]
pub(crate) fn plain_report(t: &[u8]) -> Option<PlainReport>
    ensures { IfSome result (λ report. rules.key_report t.now ≡ Some (plain_report report)) }
{
    let last = *t.last()?;
    if last == b'u' {
        return plain_character_key(t);
    }
    if last == b'~' {
        return tilde_report(t);
    }
    lettered_key(t)
}

// A report without a text, if it is there.
fn without_text<'t>(plain: Option<PlainReport>) -> Option<SpelledReport<'t>>
    ensures { IsSpelled result (option_map plain_report plain) }
{
    match plain {
        Some(report) => Some(SpelledReport::plain(report)),
        None => None,
    }
}

// The report of a key by the first of these rules that fits. The last byte tells which can.
pub(crate) fn key_report(t: &[u8]) -> Option<SpelledReport<'_>>
    ensures { IsSpelled result (rules.key_report t.now) }
{
    let last = *t.last()?;
    if last == b'u' {
        return character_key(t);
    }
    if last == b'~' {
        return without_text(tilde_report(t));
    }
    without_text(lettered_key(t))
}

// 1 ; modifiers : kind R, of which only R must be there: F3, where no position of the cursor can be meant.
#[tactic(auto, unfolding(crate::specs::KeyReports::third_function_key))]
#[inline(always)]
pub(crate) fn third_function_key(t: &[u8]) -> Option<PlainReport>
    ensures { option_map plain_report result ≡ rules.third_function_key t.now }
{
    let manner = manner_behind_one(before_end(t, b"R")?)?;
    Some(PlainReport::new(ReportedKey::Named(KeyCode::Function(3)), manner))
}

// 1 ; modifiers : kind Z, of which ; and Z must be there: Tab with Shift and these modifiers.
#[tactic(auto, unfolding(crate::specs::KeyReports::back_tab))]
fn back_tab(t: &[u8]) -> Option<PlainReport>
    ensures { option_map plain_report result ≡ rules.back_tab t.now }
{
    let mut fields = Fields::new(before_end(t, b"Z")?, b';');
    match fields.next()? {
        [] | [b'1'] => {}
        _ => return None,
    }
    let manner = manner_of(fields.next()?)?;
    match fields.next() {
        Some(_) => None,
        None => {
            let held = Manner {
                modifiers: manner.modifiers | SHIFT_BIT,
                kind: manner.kind,
            };
            Some(PlainReport::new(ReportedKey::Named(KeyCode::Tab), held))
        }
    }
}

// The key of a letter after a digit: that of the letter alone, and F3.
fn cursor_letter(letter: u8) -> Option<KeyCode>
    ensures { result ≡ rules.cursor_letter letter }
{
    if letter == b'R' {
        return Some(KeyCode::Function(3));
    }
    reported_keys::lettered_key(letter)
}

// m from 2 to 8 and a letter: the key of the letter with the modifiers of m, as xterm reports it by modifyCursorKeys 1.
#[tactic(auto, unfolding(crate::specs::KeyReports::short_key))]
fn short_key(t: &[u8]) -> Option<PlainReport>
    ensures { option_map plain_report result ≡ rules.short_key t.now }
{
    match t {
        [digit @ b'2'..=b'8', letter] => {
            let key = cursor_letter(*letter)?;
            Some(pressed_with(*digit - b'1', ReportedKey::Named(key)))
        }
        _ => None,
    }
}

// G: the middle key of the keypad.
#[tactic(auto, unfolding(crate::specs::KeyReports::middle_key))]
fn middle_key(t: &[u8]) -> Option<PlainReport>
    ensures { option_map plain_report result ≡ rules.middle_key t.now }
{
    match t {
        [b'G'] => Some(PlainReport::new(ReportedKey::Named(KeyCode::KeyPadBegin), PRESSED)),
        _ => None,
    }
}

// The keys of a few terminals, by the first of these rules that fits.
#[tactic(auto, unfolding(crate::specs::KeyReports::further_key))]
pub(crate) fn further_key(t: &[u8]) -> Option<PlainReport>
    ensures { option_map plain_report result ≡ rules.further_key t.now }
{
    back_tab(t)
        .or_else(|| short_key(t))
        .or_else(|| middle_key(t))
}

// The number of a key of rxvt-unicode's, without a leading zero.
fn rxvt_number(digits: &[u8]) -> Option<u32>
    ensures { result ≡ rules.rxvt_number digits.now }
{
    match digits {
        [] | [b'0', ..] => None,
        _ => number_within(digits, 2, 2, 38),
    }
}

// The key of such a number with these modifiers.
fn rxvt_report(modifiers: u8, digits: &[u8]) -> Option<PlainReport>
    ensures { option_map plain_report result ≡ rules.rxvt_report modifiers (Some digits.now) }
{
    let key = reported_keys::rxvt_key_at(rxvt_number(digits)?)?;
    Some(pressed_with(modifiers, ReportedKey::Named(key)))
}

// The key of such a number before this end.
fn rxvt_key_before(t: &[u8], end: &[u8], modifiers: u8) -> Option<PlainReport>
    ensures { option_map plain_report result ≡ rules.rxvt_report modifiers (numbers.before_end end.now t.now) }
{
    rxvt_report(modifiers, before_end(t, end)?)
}

// n and ^, @ or $: the key of n with Ctrl, with Ctrl and Shift, or with Shift, as rxvt-unicode sends it.
#[tactic(auto, unfolding(crate::specs::KeyReports::rxvt_key))]
pub(crate) fn rxvt_key(t: &[u8]) -> Option<PlainReport>
    ensures { option_map plain_report result ≡ rules.rxvt_key t.now }
{
    rxvt_key_before(t, b"^", CTRL_BIT)
        .or_else(|| rxvt_key_before(t, b"@", SHIFT_BIT + CTRL_BIT))
        .or_else(|| rxvt_key_before(t, b"$", SHIFT_BIT))
}

// [ and a letter from A to E: F1 to F5, as the Linux console reports them.
#[tactic(auto, unfolding(crate::specs::KeyReports::console_key))]
pub(crate) fn console_key(t: &[u8]) -> Option<PlainReport>
    ensures { option_map plain_report result ≡ rules.console_key t.now }
{
    match t {
        [b'[', letter] => {
            let key = reported_keys::console_key(*letter)?;
            Some(PlainReport::new(ReportedKey::Named(key), PRESSED))
        }
        _ => None,
    }
}

// A letter after ESC O: a key of the keypad in application mode.
#[tactic(auto, unfolding(crate::specs::KeyReports::keypad_key))]
pub(crate) fn keypad_key(t: &[u8]) -> Option<PlainReport>
    ensures { option_map plain_report result ≡ rules.keypad_key t.now }
{
    match t {
        [letter] => Some(PlainReport::new(reported_keys::keypad_key(*letter)?, PRESSED)),
        _ => None,
    }
}

// The key of a letter with the modifiers of a number from 2 to 8, which is one more than their bits.
fn modified_report(number: u8, letter: u8) -> Option<PlainReport>
    ensures { option_map plain_report result ≡ rules.modified_report number letter }
{
    match number {
        b'2'..=b'8' => {
            let key = reported_keys::modified_keypad_key(letter)?;
            Some(pressed_with(number - b'1', key))
        }
        _ => None,
    }
}

// m and a letter after ESC O, where 0 ; may stand before m: a key of the keypad, or F1 to F4, with modifiers. For F1 to F4 it may be 1 ; too.
#[tactic(auto, unfolding(crate::specs::KeyReports::modified_keypad_key))]
pub(crate) fn modified_keypad_key(t: &[u8]) -> Option<PlainReport>
    ensures { option_map plain_report result ≡ rules.modified_keypad_key t.now }
{
    match t {
        [number, letter] => modified_report(*number, *letter),
        [b'0', b';', number, letter] => modified_report(*number, *letter),
        [b'1', b';', number, letter @ b'P'..=b'S'] => modified_report(*number, *letter),
        _ => None,
    }
}
