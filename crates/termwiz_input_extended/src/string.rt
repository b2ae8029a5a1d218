// Strings at the front of a text: a string is known by its opening, and its data are bytes of any kind up to its end.
//
// A string may come in many reads, so data that were looked at before are not looked at again.
ghost use Rattle.std.specs.Prelude.{◌≡◌, ◌≢◌, ◌<◌, ◌≤◌, ◌↔◌, [], ◌++◌, length, take, slice_index, IsTrue};
ghost use Rattle.std.specs.List.{AllByRecursion};
ghost use Rattle.termwiz_grammar.specs.MouseReports.{IsDigit};
ghost use Rattle.termwiz_extended_grammar.specs.Forms.{introducer, IsData, IsTitleLetter};
ghost use Rattle.termwiz_extended_grammar.specs.Strings.{IsHead, IsReplySign};
ghost use Rattle.termwiz_input_extended.specs.FormAnswers.{IsScanned};
ghost use Rattle.termwiz_input_extended.specs.StringAnswers.{HasEnd, HasOpening, IsLiteralStart, IsOnlyHead, IsOpeningOf, IsStringAt};

use crate::form::{ESCAPE, INTRODUCED, is_final, is_title_letter};
use memchr::{memchr, memchr2};
use termwiz_extended_events::types::StringKind;

// What is at the front of a text, as far as openings of strings go.
#[derive(Clone, Copy)]
pub(crate) enum OpeningAt {
    // An opening, by its kind and the number of its bytes.
    Opening(StringKind, usize),
    // The whole text properly begins one.
    Unfinished,
    // None begins the text, and the text begins none.
    Absent,
}

// How a string ended.
#[derive(Clone, Copy)]
pub(crate) enum StringManner {
    // With its end.
    Whole,
    // It goes on.
    Part,
    // It was cut off.
    Cut,
}

// The item of a string at the front of a text.
#[derive(Clone, Copy)]
pub(crate) struct StringItem {
    pub kind: StringKind,
    pub manner: StringManner,
    // Its bytes are those after its introducer and before this place.
    pub end: usize,
    // The bytes from `kept` up to `taken` are consumed: of a part all but its opening.
    pub kept: usize,
    pub taken: usize,
}

// What comes of a string at the front of a text.
#[derive(Clone, Copy)]
pub(crate) enum StringAt {
    // An item.
    Item(StringItem),
    // None yet. The search for its end goes on from this place.
    Open(usize),
}

// What stands where the data of a string stop.
#[derive(Clone, Copy)]
pub(crate) enum EndAt {
    // The string's end, by the number of its bytes.
    End(usize),
    // Nothing, or ESC alone.
    Held,
    // ESC and a byte other than ESC and `\`.
    Escape,
    // ESC ESC.
    Escapes,
}

const BELL: u8 = 0x07;

// How many digits the number in an opening may have.
const MOST_DIGITS: usize = 5;

// As many bytes after the letter of a title are no typed text: they complete an opening.
pub(crate) const TYPED_TITLE: usize = 252;

// How many bytes follow ESC _ in an opening: G, a letter and `=`.
const GRAPHICS: usize = 3;

// How many bytes of a string may be read before its event: its opening and the data after it.
const MOST_STRING: usize = 65535;

// Whether a byte stands between the number and the last byte of a reply's opening.
fn is_reply_sign(byte: u8) -> bool
    ensures { IsTrue result ↔ IsReplySign byte }
{
    matches!(byte, b'$' | b'+' | b'!')
}

// How many digits begin a text, as far as the number in an opening goes.
fn digits_at(rest: &[u8]) -> usize
    ensures digits { AllByRecursion IsDigit (take result rest.now) }
    ensures within { result ≤ length rest.now }
    ensures few { result ≤ 5 }
    ensures stops { result < 5 → result < length rest.now → ¬ IsDigit (slice_index rest.now result) }
{
    let most = rest.len().min(MOST_DIGITS);
    for len in 0..most {
        if !matches!(rest[len], b'0'..=b'9') {
            return len;
        }
    }
    most
}

// Where the data stop that begin a text.
pub(crate) fn data_end(kind: StringKind, text: &[u8]) -> usize
    ensures data { AllByRecursion (IsData kind) (take result text.now) }
    ensures within { result ≤ length text.now }
    ensures stops { result < length text.now → ¬ IsData kind (slice_index text.now result) }
{
    let stop = match kind {
        StringKind::Osc => memchr2(ESCAPE, BELL, text),
        StringKind::Dcs | StringKind::Apc => memchr(ESCAPE, text),
    };
    stop.unwrap_or(text.len())
}

// What stands where the data of a string stop, by the bytes from there on.
pub(crate) fn end_at(kind: StringKind, after: &[u8]) -> EndAt
    requires { after.now ≢ [] → ¬ IsData kind (slice_index after.now 0) }
    ensures { HasEnd kind after.now result }
{
    match after {
        [] | [ESCAPE] => EndAt::Held,
        [ESCAPE, b'\\', ..] => EndAt::End(2),
        [ESCAPE, ESCAPE, ..] => EndAt::Escapes,
        [ESCAPE, ..] => EndAt::Escape,
        _ => EndAt::End(1),
    }
}

// The opening at the front of ESC ] and the rest, which begins with the letter of a title.
fn long_title_at(rest: &[u8]) -> OpeningAt
    requires some { rest.now ≢ [] }
    requires letter { IsTitleLetter (slice_index rest.now 0) }
    ensures { HasOpening (introducer StringKind.Osc ++ rest.now) result }
{
    let body = &rest[1..];
    let len = data_end(StringKind::Osc, &body[..body.len().min(TYPED_TITLE)]);
    if len == TYPED_TITLE {
        OpeningAt::Opening(StringKind::Osc, INTRODUCED + 1 + len)
    } else if len == body.len() {
        OpeningAt::Unfinished
    } else {
        OpeningAt::Absent
    }
}

// The opening at the front of ESC ] and the rest, which doesn't begin with the letter of a title.
fn numbered_at(rest: &[u8]) -> OpeningAt
    requires { ¬ IsTitleLetter (slice_index rest.now 0) }
    ensures { HasOpening (introducer StringKind.Osc ++ rest.now) result }
{
    let digits = digits_at(rest);
    match rest.get(digits) {
        Some(b';') if digits > 0 => OpeningAt::Opening(StringKind::Osc, INTRODUCED + digits + 1),
        Some(_) => OpeningAt::Absent,
        None => OpeningAt::Unfinished,
    }
}

// The opening at the front of ESC ] and the rest.
fn command_at(rest: &[u8]) -> OpeningAt
    ensures { HasOpening (introducer StringKind.Osc ++ rest.now) result }
{
    match rest.first() {
        Some(letter) if is_title_letter(*letter) => long_title_at(rest),
        _ => numbered_at(rest),
    }
}

// The opening at the front of ESC P and the rest, where `head` alone may follow ESC P, by the first byte of the rest.
fn literal_at(rest: &[u8], head: &[u8]) -> OpeningAt
    requires some { rest.now ≢ [] }
    requires is_head { IsHead StringKind.Dcs head.now }
    requires only { IsOnlyHead (slice_index rest.now 0) head.now }
    ensures { HasOpening (introducer StringKind.Dcs ++ rest.now) result }
{
    if rest.starts_with(head) {
        OpeningAt::Opening(StringKind::Dcs, INTRODUCED + head.len())
    } else if head.starts_with(rest) {
        OpeningAt::Unfinished
    } else {
        OpeningAt::Absent
    }
}

// The opening at the front of ESC P and the rest, where neither >, ! nor @ comes first.
fn numbered_reply_at(rest: &[u8]) -> OpeningAt
    requires { ¬ IsLiteralStart (slice_index rest.now 0) }
    ensures { HasOpening (introducer StringKind.Dcs ++ rest.now) result }
{
    let digits = digits_at(rest);
    match &rest[digits..] {
        [] => OpeningAt::Unfinished,
        [_, ..] if digits == 0 => OpeningAt::Absent,
        [sign, ..] if !is_reply_sign(*sign) => OpeningAt::Absent,
        [_] => OpeningAt::Unfinished,
        [_, last, ..] if is_final(*last) => {
            OpeningAt::Opening(StringKind::Dcs, INTRODUCED + digits + 2)
        }
        _ => OpeningAt::Absent,
    }
}

// The opening at the front of ESC P and the rest.
fn device_control_at(rest: &[u8]) -> OpeningAt
    ensures { HasOpening (introducer StringKind.Dcs ++ rest.now) result }
{
    match rest.first() {
        Some(b'>') => literal_at(rest, b">|"),
        Some(b'!') => literal_at(rest, b"!|"),
        Some(b'@') => literal_at(rest, b"@kitty-"),
        _ => numbered_reply_at(rest),
    }
}

// The opening at the front of ESC _ and the rest.
fn graphics_at(rest: &[u8]) -> OpeningAt
    ensures { HasOpening (introducer StringKind.Apc ++ rest.now) result }
{
    match rest {
        [] | [b'G'] => OpeningAt::Unfinished,
        [b'G', letter, ..] if !letter.is_ascii_alphabetic() => OpeningAt::Absent,
        [b'G', _] => OpeningAt::Unfinished,
        [b'G', _, b'=', ..] => OpeningAt::Opening(StringKind::Apc, INTRODUCED + GRAPHICS),
        _ => OpeningAt::Absent,
    }
}

// What is at the front of a text, as far as openings go.
pub(crate) fn opening_at(text: &[u8]) -> OpeningAt
    ensures { HasOpening text.now result }
{
    match text {
        [] | [ESCAPE] => OpeningAt::Unfinished,
        [ESCAPE, b']', rest @ ..] => command_at(rest),
        [ESCAPE, b'P', rest @ ..] => device_control_at(rest),
        [ESCAPE, b'_', rest @ ..] => graphics_at(rest),
        _ => OpeningAt::Absent,
    }
}

// The item of a string whose data stop at `end`. All bytes before `taken` are consumed.
fn ended(kind: StringKind, manner: StringManner, end: usize, taken: usize) -> StringAt
    ensures { result ≡ StringAt.Item (record { kind = kind; manner = manner; end = end; kept = 0; taken = taken }) }
{
    StringAt::Item(StringItem {
        kind,
        manner,
        end,
        kept: 0,
        taken,
    })
}

// What comes of the string at the front of a text, whose opening has so many bytes. The bytes before `scanned` were looked at before.
pub(crate) fn string_at(
    kind: StringKind,
    opening: usize,
    text: &[u8],
    scanned: usize,
    maybe_more: bool,
) -> StringAt
    requires opening { IsOpeningOf text.now kind opening }
    requires scanned { IsScanned text.now scanned }
    ensures { IsStringAt text.now maybe_more result }
{
    let most = text.len().min(MOST_STRING);
    let from = opening.max(scanned).min(most);
    let end = from + data_end(kind, &text[from..most]);
    if end == MOST_STRING {
        return StringAt::Item(StringItem {
            kind,
            manner: StringManner::Part,
            end,
            kept: opening,
            taken: end,
        });
    }
    match end_at(kind, &text[end..]) {
        EndAt::End(len) => ended(kind, StringManner::Whole, end, end + len),
        EndAt::Escape => ended(kind, StringManner::Cut, end, end),
        EndAt::Escapes => ended(kind, StringManner::Cut, end, end + 1),
        EndAt::Held if maybe_more => StringAt::Open(end),
        EndAt::Held => ended(kind, StringManner::Cut, end, text.len()),
    }
}
