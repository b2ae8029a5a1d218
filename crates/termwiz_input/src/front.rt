// What is at the front of a text: one item, or a run of printable ASCII. All loops of the parser ask `front`.
ghost use Rattle.std.specs.Prelude.{◌≡◌, ◌≢◌, ◌<◌, ◌+◌, ◌++◌, ◌≤◌, ◌↔◌, Bool, [], length, take, IfSome, IfNone, IsSome, IsTrue};
ghost use Rattle.termwiz_keymap.specs.Bytes.{Begins};
ghost use Rattle.termwiz_keys.specs.Introducers.{ESC, START};
ghost use Rattle.termwiz_keys.specs.Keys.{escape};
ghost use Rattle.termwiz_grammar.specs.Sequences.Meaning.{Row};
ghost use Rattle.termwiz_grammar.specs.Grammar.{IsLongest, IsOpen};
ghost use Rattle.termwiz_grammar.specs.Table.{table};
ghost use Rattle.termwiz_grammar.specs.WaitingKinds.{IsOneOrTwoEscapes};
ghost use Rattle.termwiz_input.specs.Fronts.{IsFront};
ghost use Rattle.termwiz_input.specs.Matches.{BeginsWithHighByte, HasHead, HasNoHeadYet, HasRow};
ghost use Rattle.termwiz_input.specs.PasteSearch.{NoEndBefore};

use crate::head::{MatchedHead, character_or_byte_at, row_or_character_at};
use crate::key::ESCAPE_KEY;
use crate::mouse_report::{FrontReport, mouse_report_at};
use crate::paste::{PASTE_START, begins_paste, pasted_bytes};
use crate::printable_ascii::{is_printable_ascii, printable_ascii_front};
use std::char::REPLACEMENT_CHARACTER;
use termwiz_keymap::keymap::KeyMap;
use termwiz_keys::types::{KeyEvent, MouseEvent};

// What is at the front of a text. A `usize` is the number of its bytes.
#[derive(Drop)]
pub(crate) enum AtFront<'t, 'k> {
    // A run of printable ASCII: some characters that the text begins with.
    PrintableAscii(&'t [u8]),
    // Another character, or U+FFFD for a byte that begins none.
    Character(char, usize),
    // A key of the sequence table, borrowed from the key map.
    Key(&'k KeyEvent, usize),
    // The Escape key before a mouse report or a paste: one byte.
    Escape,
    // ESC and a character, or ESC and a byte that begins none.
    AltCharacter(char, usize),
    // ESC and a key of the table.
    AltKey(&'k KeyEvent, usize),
    MouseReport(MouseEvent, usize),
    // A paste, by the bytes of its text.
    Paste(&'t [u8], usize),
    // No item: the text is empty, undecided or an open paste.
    Incomplete,
}

// A sequence begins with a byte below SPACE, or with DELETE.
const SPACE: u8 = 0x20;

const DELETE: u8 = 0x7f;

// The first byte that isn't ASCII.
const HIGH: u8 = 0x80;

// Whether a byte begins no sequence: it is from 0x20 to 0x7e, or from 0x80 on.
fn begins_no_sequence(byte: u8) -> bool
    ensures { IsTrue result ↔ ((0x20 ≤ byte) × (byte ≢ 0x7f)) }
{
    byte >= SPACE && byte != DELETE
}

// The head of any text: a mouse report, or else a row, or else a character or a broken byte. `head_at` is quicker where no sequence begins.
#[inline(always)]
fn sequence_or_character_at<'k>(
    key_map: &'k KeyMap<KeyEvent>,
    text: &[u8],
    maybe_more: bool,
) -> Option<MatchedHead<'k>>
    requires { key_map.now ≡ table }
    ensures closed { IsSome result → ¬ IsOpen text.now maybe_more }
    ensures head { IfSome result (HasHead text.now) }
    ensures waits { IfNone result (HasNoHeadYet text.now maybe_more) }
{
    match mouse_report_at(text) {
        FrontReport::Whole(event, len) => Some(MatchedHead::Report(event, len)),
        FrontReport::Begun if maybe_more => None,
        FrontReport::Begun => row_or_character_at(key_map, text, maybe_more),
        FrontReport::Absent => row_or_character_at(key_map, text, maybe_more),
    }
}

// The head of a text. `None` if more bytes may change it, and if the text is empty. An ESC before a byte that isn't printable ASCII is a
// head by itself, since no sequence has such a byte after its first.
#[inline(always)]
fn head_at<'k>(
    key_map: &'k KeyMap<KeyEvent>,
    text: &[u8],
    maybe_more: bool,
) -> Option<MatchedHead<'k>>
    requires { key_map.now ≡ table }
    ensures closed { IsSome result → ¬ IsOpen text.now maybe_more }
    ensures head { IfSome result (HasHead text.now) }
    ensures waits { IfNone result (HasNoHeadYet text.now maybe_more) }
{
    match text {
        [] => None,
        [first, ..] if begins_no_sequence(*first) => character_or_byte_at(text, maybe_more),
        [b'\x1b', next, ..] if !is_printable_ascii(*next) => Some(MatchedHead::Row(&ESCAPE_KEY, 1)),
        _ => sequence_or_character_at(key_map, text, maybe_more),
    }
}

// What follows the Escape, if the head of the text is the byte ESC and the text goes on after it.
fn after_escape(text: &[u8], len: usize) -> Option<&[u8]>
    requires { len ≤ length text.now }
    ensures some { IfSome result (λ rest. (len ≡ 1) × (text.now ≡ ESC ++ rest.now) × (rest.now ≢ [])) }
    ensures none { IfNone result (take len text.now ≡ ESC → text.now ≡ ESC) }
{
    match text {
        [b'\x1b', rest @ ..] if len == 1 && !rest.is_empty() => Some(rest),
        _ => None,
    }
}

// Whether the row at the front of a text, of so many bytes, is the start of a paste.
fn is_paste_start(text: &[u8], len: usize) -> bool
    requires { (key : KeyEvent) × HasRow text.now key len }
    ensures { IsTrue result ↔ Begins START text.now }
{
    len == PASTE_START.len() && begins_paste(text)
}

// What is at the front of ESC and `rest`. The Escape is alone before a mouse report and a paste; otherwise it adds ALT to what follows.
fn front_of_escape<'t, 'k>(
    key_map: &'k KeyMap<KeyEvent>,
    rest: &[u8],
    maybe_more: bool,
) -> AtFront<'t, 'k>
    requires rows { key_map.now ≡ table }
    requires closed { ¬ IsOpen (ESC ++ rest.now) maybe_more }
    requires head { IsLongest (ESC ++ rest.now) ESC (Row escape) }
    requires some { rest.now ≢ [] }
    ensures { IsFront (ESC ++ rest.now) maybe_more result }
{
    match head_at(key_map, rest, maybe_more) {
        Some(MatchedHead::Row(_, len)) if is_paste_start(rest, len) => AtFront::Escape,
        Some(MatchedHead::Row(key, len)) => AtFront::AltKey(key, 1 + len),
        Some(MatchedHead::Character(character, len)) => AtFront::AltCharacter(character, 1 + len),
        Some(MatchedHead::Broken) => AtFront::AltCharacter(REPLACEMENT_CHARACTER, 2),
        Some(MatchedHead::Report(..)) => AtFront::Escape,
        None => AtFront::Incomplete,
    }
}

// What is at the front of a text that begins with START.
fn front_of_paste<'t, 'k>(text: &'t [u8], searched: usize) -> AtFront<'t, 'k>
    requires begins { Begins START text.now }
    requires searched { NoEndBefore text.now searched }
    ensures { (more : Bool) → IsFront text.now more result }
{
    match pasted_bytes(text, searched) {
        Some((body, len)) => AtFront::Paste(body, len),
        None => AtFront::Incomplete,
    }
}

// What is at the front of a text whose head is this row of the sequence table.
fn front_of_row<'t, 'k>(
    key_map: &'k KeyMap<KeyEvent>,
    text: &'t [u8],
    key: &'k KeyEvent,
    len: usize,
    searched: usize,
    maybe_more: bool,
) -> AtFront<'t, 'k>
    requires rows { key_map.now ≡ table }
    requires row { HasRow text.now key.now len }
    requires closed { ¬ IsOpen text.now maybe_more }
    requires searched { NoEndBefore text.now searched }
    ensures { IsFront text.now maybe_more result }
{
    match after_escape(text, len) {
        Some(rest) => front_of_escape(key_map, rest, maybe_more),
        None if is_paste_start(text, len) => front_of_paste(text, searched),
        None => AtFront::Key(key, len),
    }
}

// What is at the front of any text, by its head. It returns no run; `front` is quicker for printable ASCII.
#[inline(always)]
fn front_of_head<'t, 'k>(
    key_map: &'k KeyMap<KeyEvent>,
    text: &'t [u8],
    searched: usize,
    maybe_more: bool,
) -> AtFront<'t, 'k>
    requires rows { key_map.now ≡ table }
    requires searched { NoEndBefore text.now searched }
    ensures { IsFront text.now maybe_more result }
{
    match head_at(key_map, text, maybe_more) {
        Some(MatchedHead::Row(key, len)) => {
            front_of_row(key_map, text, key, len, searched, maybe_more)
        }
        Some(MatchedHead::Report(event, len)) => AtFront::MouseReport(event, len),
        Some(MatchedHead::Character(character, len)) => AtFront::Character(character, len),
        Some(MatchedHead::Broken) => AtFront::Character(REPLACEMENT_CHARACTER, 1),
        None => AtFront::Incomplete,
    }
}

// What is at the front of a text. A run of printable ASCII has at most `most` characters. The end of a paste is looked for from `searched`
// on, since it begins nowhere before.
#[inline(always)]
pub(crate) fn front<'t, 'k>(
    key_map: &'k KeyMap<KeyEvent>,
    text: &'t [u8],
    searched: usize,
    most: usize,
    maybe_more: bool,
) -> AtFront<'t, 'k>
    requires rows { key_map.now ≡ table }
    requires searched { NoEndBefore text.now searched }
    requires most { 0 < most }
    ensures { IsFront text.now maybe_more result }
{
    match text {
        [first, ..] if is_printable_ascii(*first) => AtFront::PrintableAscii(printable_ascii_front(
            text, most,
        )),
        _ => front_of_head(key_map, text, searched, maybe_more),
    }
}

// Whether the text is ESC or ESC ESC.
pub(crate) fn is_escape(text: &[u8]) -> bool
    ensures { IsTrue result ↔ IsOneOrTwoEscapes text.now }
{
    match text {
        [b'\x1b'] | [b'\x1b', b'\x1b'] => true,
        _ => false,
    }
}

/// What follows a first ESC.
pub fn follows_escape(text: &[u8]) -> Option<&[u8]>
    ensures some { IfSome result (λ after. text.now ≡ ESC ++ after.now) }
    ensures none { IfNone result (¬ Begins ESC text.now) }
{
    match text {
        [b'\x1b', after @ ..] => Some(after),
        _ => None,
    }
}

// Whether the first byte isn't ASCII, or the byte after a first ESC isn't.
pub(crate) fn begins_with_high_byte(text: &[u8]) -> bool
    ensures { IsTrue result ↔ BeginsWithHighByte text.now }
{
    match text {
        [b'\x1b', next, ..] => *next >= HIGH,
        [first, ..] => *first >= HIGH,
        [] => false,
    }
}
