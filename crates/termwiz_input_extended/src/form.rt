// Forms of extra sequences, recognised at the front of a text: control sequences, X10 mouse reports, console and keypad keys, and
// titles.
ghost use Rattle.std.specs.Prelude.{◌≡◌, ◌≢◌, ◌+◌, ◌<◌, ◌≤◌, ◌↔◌, [], ◌∷◌, ◌++◌, length, take, slice_index, Bool, true, false, IfSome, IfNone, IsTrue, ℕ};
ghost use Rattle.std.specs.List.{AllByRecursion};
ghost use Rattle.termwiz_keys.specs.Introducers.{ESC, CSI, SS3};
ghost use Rattle.termwiz_extended_grammar.specs.Forms.{introducer, IsInner, IsFinal, IsKeypadLetter, IsModifierDigit, IsModifiedFront, IsLetterBehind, IsRxvtDigit, IsRxvtPair, IsTitleLetter, IsUnfinishedForm};
ghost use Rattle.termwiz_input_extended.specs.FormAnswers.{HasForm, IsPartedFirst, IsScanned, IsRow, StartsShifted, front_of};

use crate::string::{EndAt, TYPED_TITLE, data_end, end_at};
use termwiz_extended_events::types::StringKind;

// What is at the front of a text, as far as the forms of extra sequences go.
#[derive(Clone, Copy)]
pub(crate) enum FormAt {
    // A form, by the number of its bytes.
    Whole(usize),
    // The whole text properly begins one.
    Unfinished,
    // None begins the text, and the text begins none.
    Absent,
}

pub(crate) const ESCAPE: u8 = 0x1b;

// How many bytes a control sequence may have.
const MOST_CONTROL: usize = 256;

// How many bytes ESC and the byte after it are.
pub(crate) const INTRODUCED: usize = 2;

// Whether a byte may stand in a control sequence before its last one.
fn is_inner(byte: u8) -> bool
    ensures { IsTrue result ↔ IsInner byte }
{
    matches!(byte, 0x20..=0x3f)
}

// Whether a byte ends a control sequence.
pub(crate) fn is_final(byte: u8) -> bool
    ensures { IsTrue result ↔ IsFinal byte }
{
    matches!(byte, 0x40..=0x7e)
}

// Whether a byte is the letter of a key of the application keypad.
pub(crate) fn is_keypad_letter(byte: u8) -> bool
    ensures { IsTrue result ↔ IsKeypadLetter byte }
{
    matches!(byte, b'M' | b'X' | b'E' | b'G' | b'j'..=b'y')
}

// Whether a byte is the letter of a title.
pub(crate) fn is_title_letter(byte: u8) -> bool
    ensures { IsTrue result ↔ IsTitleLetter byte }
{
    matches!(byte, b'l' | b'L')
}

// Whether a digit alone is a number by which rxvt-unicode tells a key.
fn is_rxvt_digit(digit: u8) -> bool
    ensures { IsTrue result ↔ IsRxvtDigit digit }
{
    matches!(digit, b'2' | b'3' | b'5'..=b'8')
}

// Whether two digits are such a number.
fn is_rxvt_pair(first: u8, second: u8) -> bool
    ensures { IsTrue result ↔ IsRxvtPair first second }
{
    match first {
        b'1' => matches!(second, b'1'..=b'5' | b'7'..=b'9'),
        b'2' => matches!(second, b'0' | b'1' | b'3'..=b'6' | b'8' | b'9'),
        b'3' => matches!(second, b'1'..=b'8'),
        _ => false,
    }
}

// The form at the front of ESC [ and the rest, if `$` decides it: that of a key with Shift, and none where a row begins.
#[inline(always)]
fn dollar_at(rest: &[u8]) -> Option<FormAt>
    ensures form { IfSome result (λ form. (x10_mouse : Bool) → HasForm x10_mouse (CSI ++ rest.now) form) }
    ensures no_key { IfNone result (¬ StartsShifted rest.now) }
    ensures no_row { IfNone result (¬ IsRow rest.now) }
{
    match rest {
        [digit, b'$', ..] if is_rxvt_digit(*digit) => Some(FormAt::Whole(INTRODUCED + 2)),
        [b'1'..=b'8', b'$', ..] => Some(FormAt::Absent),
        [first, second, b'$', ..] if is_rxvt_pair(*first, *second) => {
            Some(FormAt::Whole(INTRODUCED + 3))
        }
        _ => None,
    }
}

// The form at the front of ESC [ and the rest, where [ doesn't come first, nor M, if it begins a mouse report.
#[inline(always)]
pub(crate) fn control_at(rest: &[u8], scanned: usize, x10_mouse: bool) -> FormAt
    requires no_mouse { x10_mouse ≡ true → slice_index rest.now 0 ≢ 77 }
    requires no_console { slice_index rest.now 0 ≢ 91 }
    requires scanned { AllByRecursion IsInner (take scanned rest.now) }
    ensures { HasForm x10_mouse (CSI ++ rest.now) result }
{
    if let Some(form) = dollar_at(rest) {
        return form;
    }
    for len in scanned..rest.len().min(MOST_CONTROL - INTRODUCED) {
        let byte = rest[len];
        if !is_inner(byte) {
            return if is_final(byte) {
                FormAt::Whole(INTRODUCED + len + 1)
            } else {
                FormAt::Absent
            };
        }
    }
    if rest.len() < MOST_CONTROL - INTRODUCED {
        FormAt::Unfinished
    } else {
        FormAt::Absent
    }
}

// The form at the front of ESC [M and the rest, where it begins a mouse report.
fn x10_report_at(rest: &[u8]) -> FormAt
    ensures { HasForm true (CSI ++ 77 ∷ rest.now) result }
{
    for len in 0..rest.len().min(3) {
        if rest[len] < 0x20 {
            return FormAt::Absent;
        }
    }
    if rest.len() < 3 {
        FormAt::Unfinished
    } else {
        FormAt::Whole(6)
    }
}

// The form at the front of ESC [[ and the rest.
fn console_key_at(rest: &[u8]) -> FormAt
    ensures { (x10_mouse : Bool) → HasForm x10_mouse (CSI ++ 91 ∷ rest.now) result }
{
    match rest {
        [] => FormAt::Unfinished,
        [b'A'..=b'E', ..] => FormAt::Whole(4),
        _ => FormAt::Absent,
    }
}

// Whether a byte is such a letter behind the digit, where this byte and `;` stand before it, or nothing: behind 1; it is P to S.
fn is_letter_behind(first: Option<u8>, letter: u8) -> bool
    ensures { IsTrue result ↔ IsLetterBehind (front_of first) letter }
{
    match first {
        Some(b'1') => matches!(letter, b'P'..=b'S'),
        _ => matches!(letter, b'P'..=b'S' | b'M' | b'X' | b'j'..=b'y'),
    }
}

// The form at the front of ESC O, what may stand before a digit, the digit, and the rest.
fn modified_key_at(first: Option<u8>, rest: &[u8]) -> FormAt
    requires { IsModifiedFront (front_of first) }
    ensures { (x10_mouse : Bool) (digit : ℕ) → IsModifierDigit digit → HasForm x10_mouse (SS3 ++ front_of first ++ digit ∷ rest.now) result }
{
    match rest {
        [] => FormAt::Unfinished,
        [letter, ..] if is_letter_behind(first, *letter) => {
            FormAt::Whole(INTRODUCED + if first.is_some() { 4 } else { 2 })
        }
        _ => FormAt::Absent,
    }
}

// The form at the front of ESC O, 0; or 1;, and the rest.
fn parted_key_at(first: u8, rest: &[u8]) -> FormAt
    requires { IsPartedFirst first }
    ensures { (x10_mouse : Bool) → HasForm x10_mouse (SS3 ++ first ∷ 59 ∷ rest.now) result }
{
    match rest {
        [] => FormAt::Unfinished,
        [b'2'..=b'8', rest @ ..] => modified_key_at(Some(first), rest),
        _ => FormAt::Absent,
    }
}

// The form at the front of ESC O, 0 or 1, and the rest.
fn begun_key_at(first: u8, rest: &[u8]) -> FormAt
    requires { IsPartedFirst first }
    ensures { (x10_mouse : Bool) → HasForm x10_mouse (SS3 ++ first ∷ rest.now) result }
{
    match rest {
        [] => FormAt::Unfinished,
        [b';', rest @ ..] => parted_key_at(first, rest),
        _ => FormAt::Absent,
    }
}

// The form at the front of ESC O and the rest.
fn keypad_key_at(rest: &[u8]) -> FormAt
    ensures { (x10_mouse : Bool) → HasForm x10_mouse (SS3 ++ rest.now) result }
{
    match rest {
        [] => FormAt::Unfinished,
        [letter, ..] if is_keypad_letter(*letter) => FormAt::Whole(3),
        [b'2'..=b'8', rest @ ..] => modified_key_at(None, rest),
        [first @ (b'0' | b'1'), rest @ ..] => begun_key_at(*first, rest),
        _ => FormAt::Absent,
    }
}

// The form at the front of ESC [ and the rest, of which the first bytes were looked at before.
#[inline(always)]
pub(crate) fn bracketed_at(rest: &[u8], scanned: usize, x10_mouse: bool) -> FormAt
    requires { AllByRecursion IsInner (take scanned rest.now) }
    ensures { HasForm x10_mouse (CSI ++ rest.now) result }
{
    match rest.first() {
        Some(b'M') if x10_mouse => x10_report_at(&rest[1..]),
        Some(b'[') => console_key_at(&rest[1..]),
        _ => control_at(rest, scanned, x10_mouse),
    }
}

// The title at the front of ESC ] and the rest, which begins with the letter of a title.
fn lettered_title_at(rest: &[u8]) -> FormAt
    requires some { rest.now ≢ [] }
    requires letter { IsTitleLetter (slice_index rest.now 0) }
    ensures { (x10_mouse : Bool) → HasForm x10_mouse (introducer StringKind.Osc ++ rest.now) result }
{
    let body = &rest[1..];
    let len = data_end(StringKind::Osc, &body[..body.len().min(TYPED_TITLE)]);
    if len == TYPED_TITLE {
        return FormAt::Absent;
    }
    match end_at(StringKind::Osc, &body[len..]) {
        EndAt::End(end) => FormAt::Whole(INTRODUCED + 1 + len + end),
        EndAt::Held => FormAt::Unfinished,
        EndAt::Escape | EndAt::Escapes => FormAt::Absent,
    }
}

// The form at the front of ESC ] and the rest. It is a title.
fn title_at(rest: &[u8]) -> FormAt
    ensures { (x10_mouse : Bool) → HasForm x10_mouse (introducer StringKind.Osc ++ rest.now) result }
{
    match rest.first() {
        Some(letter) if is_title_letter(*letter) => lettered_title_at(rest),
        Some(_) => FormAt::Absent,
        None => FormAt::Unfinished,
    }
}

// The form at the front of a text. The bytes before `scanned` were looked at before.
#[inline(always)]
pub(crate) fn form_at(text: &[u8], scanned: usize, x10_mouse: bool) -> FormAt
    requires some { text.now ≢ [] }
    requires scanned { IsScanned text.now scanned }
    ensures { HasForm x10_mouse text.now result }
{
    if text[0] != ESCAPE {
        return FormAt::Absent;
    }
    if text.len() == 1 {
        return FormAt::Unfinished;
    }
    let rest = &text[INTRODUCED..];
    let scanned = scanned.saturating_sub(INTRODUCED);
    match text[1] {
        b'[' => bracketed_at(rest, scanned, x10_mouse),
        b'O' => keypad_key_at(rest),
        b']' => title_at(rest),
        _ => FormAt::Absent,
    }
}

// Where the next search starts once more bytes come: in a control sequence at its last byte, else at the start.
pub(crate) fn next_scan(text: &[u8]) -> usize
    requires { (x10_mouse : Bool) × IsUnfinishedForm x10_mouse text.now }
    ensures place { IsScanned text.now result }
    ensures within { result ≤ length text.now }
{
    if text.len() > INTRODUCED && text[1] == b'[' && is_inner(text[INTRODUCED]) {
        text.len() - 1
    } else {
        0
    }
}
