// What is at the front of a text: an extra sequence, a string, the Escape key before one, or what the port finds there.
ghost use Rattle.std.specs.Prelude.{◌≡◌, ◌≢◌, ◌≤◌, length, ◌↔◌, ◌⊎◌, ◌++◌, ℕ, Bool, List, false, [], take, IfSome, IsTrue, Some, Contains};
ghost use Rattle.termwiz_keymap.specs.Bytes.{Begins};
ghost use Rattle.termwiz_keys.specs.Introducers.{ESC, CSI};
ghost use Rattle.termwiz_keys.specs.declared.types.KeyEvent.{KeyEvent as Key};
ghost use Rattle.termwiz_keys.specs.declared.types.MouseEvent.{MouseEvent as Mouse};
ghost use Rattle.termwiz_grammar.specs.MouseReports.{IsMouseReport};
ghost use Rattle.termwiz_grammar.specs.Table.{rows as table_rows};
ghost use Rattle.termwiz_input.specs.MouseReportAnswers.{HasNoPartInMouseReports};
ghost use Rattle.termwiz_extended_events.specs.declared.types.Event.TheVariants.{Key as KeyReported};
ghost use Rattle.termwiz_extended_events.specs.KeyReports.{plain_report};
ghost use Rattle.termwiz_extended_events.specs.Meanings.{event_from};
ghost use Rattle.termwiz_extended_grammar.specs.Forms.{IsForm, IsKeypadKey};
ghost use Rattle.termwiz_extended_grammar.specs.ExtraSequences.{EndsAsRxvt, EndsWithZ, IsBackTab, IsBareKey, IsBeginKey, IsCursorLetter, IsLetteredKey, IsRxvtFunction, IsShortKey};
ghost use Rattle.termwiz_extended_grammar.specs.Readings.{ReadsMore, event_in};
ghost use Rattle.termwiz_input_extended.specs.FormAnswers.{HasForm, IsScanned};
ghost use Rattle.termwiz_input_extended.specs.StringAnswers.{HasOpening, string_event};
ghost use Rattle.termwiz_input_extended.specs.NextItems.{IsFocus, IsFormMatch, IsNextItem, IsExtraAt, IsFormAt, IsPortsOwn, IsPrivate, IsReadAfterEscape, IsScannedTo, IsSomeExtra, front_key};

use crate::characters::is_control_key;
use crate::form::{ESCAPE, FormAt, INTRODUCED, bracketed_at, form_at, is_keypad_letter, next_scan};
use crate::string::{OpeningAt, StringItem, StringManner, opening_at};
use termwiz_extended_events::meanings::{Meaning, meaning_of, plain_report};
use termwiz_extended_events::port_events::decided_key;
use termwiz_extended_events::types::{Dialect, PlainReport, Reading, StringKind};
use termwiz_input::input::{
    FrontReport, InputParser, begins_paste, follows_escape, mouse_report_at,
};
use termwiz_input::keymap::Found;
use termwiz_keys::types::{KeyCode, MouseEvent};

// What form, or opening of a string, is at the front of a text.
#[derive(Drop)]
enum FormMatch {
    // A form that is no mouse report, by the number of its bytes: an extra sequence, or a row of the sequence table.
    Form(usize),
    // The opening of a string, by its kind and the number of its bytes.
    Opening(StringKind, usize),
    // A mouse report, which has the form of a control sequence.
    MouseReport(usize, MouseEvent),
    // The whole text properly begins a form or an opening. The search goes on from this place.
    Unfinished(usize),
    // None begins the text, and the text begins none.
    Absent,
}

// What is at the front of a text that no character begins. A `usize` is the number of its bytes, but for `Incomplete`.
#[derive(Drop)]
pub(crate) enum NextItem {
    // A control character, but ESC, that is read as its key.
    Control(u8),
    // A form that is no mouse report: an extra sequence, or a row of the sequence table.
    Form(usize),
    // ESC and a bare key of so many bytes.
    AltForm(usize),
    // The opening of a string.
    String(StringKind, usize),
    // A mouse report, which the port finds there too.
    MouseReport(usize, MouseEvent),
    // The Escape key before an extra sequence that is no bare key, or before a string.
    Escape,
    // The Escape key with ALT: two ESC before a third one.
    AltEscape,
    // The start of a paste.
    Paste,
    // What the port finds there, whatever it is.
    Usual,
    // No item: more bytes may complete a sequence or a string. The search for the end of an extra one goes on from this place.
    Incomplete(usize),
}

// Whether a text is a report of the focus, or begins with ESC [ and a byte from < to ?, and more follows. Neither is a row of the sequence table.
fn is_unlisted(text: &[u8]) -> bool
    ensures { IsTrue result ↔ (IsFocus text.now ⊎ IsPrivate text.now) }
{
    matches!(
        text,
        [ESCAPE, b'[', b'I' | b'O'] | [ESCAPE, b'[', b'<'..=b'?', _, ..]
    )
}

// Whether bytes are a row of the sequence table.
fn is_table_row(parser: &InputParser, bytes: &[u8]) -> bool
    ensures { IsTrue result ↔ ((key : Key) × Contains table_rows (bytes.now, key)) }
{
    if is_unlisted(bytes) {
        false
    } else {
        match parser.lookup(bytes, false) {
            Found::Exact(len, _) => len == bytes.len(),
            Found::Ambiguous(..) => false,
            Found::NeedData => false,
            Found::None => false,
        }
    }
}

// What a sequence means as it is read: while a question for the cursor's position is open, it may be the reply.
pub(crate) fn meaning_in(reading: Reading, text: &[u8]) -> Meaning<'_>
    ensures { event_from result ≡ Some (event_in reading text.now) }
{
    meaning_of(text, reading.questions > 0)
}

// Whether a form that is no mouse report is an extra sequence.
fn is_extra(parser: &InputParser, reading: Reading, form: &[u8], meaning: &Meaning<'_>) -> bool
    requires reads { ReadsMore reading }
    requires form { IsForm reading.x10_mouse form.now }
    requires no_mouse { (event : Mouse) → ¬ IsMouseReport form.now event }
    requires means { event_from meaning.now ≡ Some (event_in reading form.now) }
    ensures { IsTrue result ↔ IsSomeExtra reading form.now }
{
    if meaning.is_key_or_position() {
        return true;
    }
    !is_table_row(parser, form)
}

// Whether a form of this meaning is a key of the application keypad: ESC O and a letter.
fn is_keypad_key(form: &[u8]) -> bool
    ensures { IsTrue result ↔ IsKeypadKey form.now }
{
    matches!(form, [ESCAPE, b'O', letter] if is_keypad_letter(*letter))
}

// Whether a text is a key as rxvt-unicode sends it: with Ctrl or Shift it ends with ^, @ or $, and F21 to F24 have numbers of their own.
fn is_rxvt_key(form: &[u8]) -> bool
    ensures { IsTrue result ↔ (EndsAsRxvt form.now ⊎ IsRxvtFunction form.now) }
{
    matches!(form.last(), Some(b'^' | b'@' | b'$'))
        || matches!(form, [ESCAPE, b'[', b'3', b'5'..=b'8', b'~'])
}

// Whether a text is a key by its last letter: ESC [ and Z behind anything, a letter of a cursor key or of F1 to F4 behind a digit from 2 to 8, or
// E or G alone.
fn is_lettered_key(form: &[u8]) -> bool
    ensures { IsTrue result ↔ IsLetteredKey form.now }
{
    matches!(
        form,
        [ESCAPE, b'[', .., b'Z']
            | [ESCAPE, b'[', b'2'..=b'8', b'A'..=b'F' | b'H' | b'P'..=b'S']
            | [ESCAPE, b'[', b'E' | b'G']
    )
}

// Whether a text of this meaning is a bare key, to which ESC is joined.
fn is_bare_key(parser: &InputParser, form: &[u8], meaning: &Meaning<'_>) -> bool
    ensures { (reading : Reading) → event_from meaning.now ≡ Some (event_in reading form.now) → IsTrue result ↔ IsBareKey reading form.now }
{
    if !meaning.is_key() {
        return false;
    }
    if is_keypad_key(form) || is_rxvt_key(form) || is_lettered_key(form) {
        return true;
    }
    is_table_row(parser, form)
}

// How a form that follows an ESC is read.
#[derive(Clone, Copy)]
enum AfterEscape {
    // As a bare key, to which the ESC is joined.
    Joined,
    // As another extra sequence, before which the ESC is the Escape key.
    Apart,
    // As the port reads it.
    OfPort,
}

// How a form that is no mouse report is read after an ESC. It isn't inlined, since its meaning would have its place in the frame of every
// sequence.
#[inline(never)]
fn after_escape(parser: &InputParser, reading: Reading, form: &[u8]) -> AfterEscape
    requires reads { ReadsMore reading }
    requires form { IsForm reading.x10_mouse form.now }
    requires no_mouse { (event : Mouse) → ¬ IsMouseReport form.now event }
    ensures { IsReadAfterEscape reading form.now result }
{
    let meaning = meaning_in(reading, form);
    if !is_extra(parser, reading, form, &meaning) {
        AfterEscape::OfPort
    } else if is_bare_key(parser, form, &meaning) {
        AfterEscape::Joined
    } else {
        AfterEscape::Apart
    }
}

// Whether the form of so many bytes at the front of a text, which has this meaning, is an extra sequence.
#[inline(always)]
pub(crate) fn is_extra_at(
    parser: &InputParser,
    reading: Reading,
    text: &[u8],
    len: usize,
    meaning: &Meaning<'_>,
) -> bool
    requires form { IsFormAt reading text.now len }
    requires means { event_from meaning.now ≡ Some (event_in reading (take len text.now)) }
    ensures some { IsTrue result → IsExtraAt reading text.now len }
    ensures none { result ≡ false → (more : Bool) → IsPortsOwn reading text.now more }
{
    is_extra(parser, reading, &text[..len], meaning)
}

// The key report of the form of so many bytes at the front of a text, if it is read as one that says no more than a key and its manner. It
// is a small value, from which the event is built once, and so it is quicker than a meaning. `None` decides nothing.
#[inline(always)]
pub(crate) fn plain_report_at(text: &[u8], len: usize) -> Option<PlainReport>
    requires { len ≤ length text.now }
    ensures { (reading : Reading) → IsFormAt reading text.now len
        → IfSome result (λ report. IsExtraAt reading text.now len × (event_in reading (take len text.now) ≡ KeyReported (plain_report report))) }
{
    plain_report(&text[..len])
}

// What opening is at the front of a text that begins with ESC. It is quick where the next byte introduces no string.
#[inline(always)]
fn match_opening(text: &[u8]) -> OpeningAt
    requires { Begins ESC text.now }
    ensures { HasOpening text.now result }
{
    match text {
        [_, b']' | b'P' | b'_', ..] => opening_at(text),
        [_, _, ..] => OpeningAt::Absent,
        _ => OpeningAt::Unfinished,
    }
}

// What is at the front of a text where no opening and no part of a mouse report is, by the form that is there.
#[inline(always)]
fn match_of(text: &[u8], form: FormAt, x10_mouse: bool) -> FormMatch
    requires no_mouse { HasNoPartInMouseReports text.now }
    requires no_opening { HasOpening text.now OpeningAt.Absent }
    requires form { HasForm x10_mouse text.now form }
    ensures { IsFormMatch x10_mouse text.now result }
{
    match form {
        FormAt::Whole(len) => FormMatch::Form(len),
        FormAt::Unfinished => FormMatch::Unfinished(next_scan(text)),
        FormAt::Absent => FormMatch::Absent,
    }
}

// What form is at the front of a text where no opening is. The bytes before `scanned` were looked at before.
#[inline(always)]
fn match_form(text: &[u8], scanned: usize, x10_mouse: bool) -> FormMatch
    requires some { text.now ≢ [] }
    requires no_opening { HasOpening text.now OpeningAt.Absent }
    requires scanned { IsScanned text.now scanned }
    ensures { IsFormMatch x10_mouse text.now result }
{
    match mouse_report_at(text) {
        FrontReport::Whole(event, len) => FormMatch::MouseReport(len, event),
        FrontReport::Begun => FormMatch::Unfinished(next_scan(text)),
        FrontReport::Absent => match_of(text, form_at(text, scanned, x10_mouse), x10_mouse),
    }
}

// What form or opening is at the front of a text that begins with ESC. The bytes before `scanned` were looked at before.
#[inline(always)]
fn match_front(text: &[u8], scanned: usize, x10_mouse: bool) -> FormMatch
    requires escape { Begins ESC text.now }
    requires scanned { IsScanned text.now scanned }
    ensures { IsFormMatch x10_mouse text.now result }
{
    match match_opening(text) {
        OpeningAt::Opening(kind, len) => FormMatch::Opening(kind, len),
        OpeningAt::Unfinished => FormMatch::Unfinished(0),
        OpeningAt::Absent => match_form(text, scanned, x10_mouse),
    }
}

// The meaning of what comes of a string, by its bytes.
pub(crate) fn string_meaning(item: StringItem, bytes: &[u8]) -> Meaning<'_>
    ensures { event_from result ≡ Some (string_event item.manner item.kind bytes.now) }
{
    let kind = item.kind;
    match item.manner {
        StringManner::Whole => match kind {
            StringKind::Osc => Meaning::Osc(bytes),
            StringKind::Dcs => Meaning::Dcs(bytes),
            StringKind::Apc => Meaning::Apc(bytes),
        },
        StringManner::Part => Meaning::StringPart { kind, bytes },
        StringManner::Cut => Meaning::StringCut { kind, bytes },
    }
}

// What is at the front of a text that starts with ESC ESC, by what follows the first one.
fn item_of_two_escapes(
    parser: &InputParser,
    reading: Reading,
    after: &[u8],
    scanned: usize,
    maybe_more: bool,
) -> NextItem
    requires reads { ReadsMore reading }
    requires escape { Begins ESC after.now }
    requires scanned { IsScanned after.now scanned }
    ensures { IsNextItem reading (ESC ++ after.now) maybe_more result }
{
    match match_front(after, scanned, reading.x10_mouse) {
        FormMatch::Form(len) => match after_escape(parser, reading, &after[..len]) {
            AfterEscape::Joined => NextItem::AltForm(len),
            AfterEscape::Apart => NextItem::Escape,
            AfterEscape::OfPort => NextItem::Usual,
        },
        FormMatch::Opening(..) => NextItem::Escape,
        FormMatch::Unfinished(place) if maybe_more => NextItem::Incomplete(1 + place),
        FormMatch::Unfinished(..) => NextItem::Usual,
        FormMatch::MouseReport(..) => NextItem::Usual,
        FormMatch::Absent => NextItem::Usual,
    }
}

// What is at the front of a text that begins with one ESC alone, by the form or opening that is there.
#[inline(always)]
fn item_of_front(front: FormMatch, maybe_more: bool) -> NextItem
    ensures { (reading : Reading) (text : List ℕ) → ReadsMore reading → Begins ESC text → ¬ Begins (ESC ++ ESC) text
        → IsFormMatch reading.x10_mouse text front → IsNextItem reading text maybe_more result }
{
    match front {
        FormMatch::Form(len) => NextItem::Form(len),
        FormMatch::Opening(kind, len) => NextItem::String(kind, len),
        FormMatch::MouseReport(len, event) => NextItem::MouseReport(len, event),
        FormMatch::Unfinished(place) if maybe_more => NextItem::Incomplete(place),
        FormMatch::Unfinished(_) => NextItem::Usual,
        FormMatch::Absent => NextItem::Usual,
    }
}

// What is at the front of a text that is ESC [ and the rest. Behind `<` it may be a mouse report, and behind 2 the start of a paste.
#[inline(always)]
fn item_of_control(
    reading: Reading,
    text: &[u8],
    rest: &[u8],
    scanned: usize,
    maybe_more: bool,
) -> NextItem
    requires reads { ReadsMore reading }
    requires introduced { text.now ≡ CSI ++ rest.now }
    requires scanned { IsScanned text.now scanned }
    ensures { IsNextItem reading text.now maybe_more result }
{
    let x10_mouse = reading.x10_mouse;
    match rest.first() {
        None | Some(b'<') => item_of_front(match_form(text, scanned, x10_mouse), maybe_more),
        Some(b'2') if begins_paste(text) => NextItem::Paste,
        Some(_) => {
            let form = bracketed_at(rest, scanned.saturating_sub(INTRODUCED), x10_mouse);
            item_of_front(match_of(text, form, x10_mouse), maybe_more)
        }
    }
}

// What is at the front of a text that begins with no ESC.
#[inline(always)]
fn item_without_escape(text: &[u8]) -> NextItem
    requires { ¬ Begins ESC text.now }
    ensures { (reading : Reading) → ReadsMore reading → (more : Bool) → IsNextItem reading text.now more result }
{
    match text {
        [] => NextItem::Incomplete(0),
        [first, ..] if is_control_key(*first) => NextItem::Control(*first),
        _ => NextItem::Usual,
    }
}

// Whether a text begins with three ESC. Before the third one the first two are a key, whatever comes.
fn is_alt_escape(text: &[u8]) -> bool
    ensures { (reading : Reading) (more : Bool) → IsTrue result → IsNextItem reading text.now more NextItem.AltEscape }
{
    matches!(text, [ESCAPE, ESCAPE, ESCAPE, ..])
}

// What is at the front of a text to which more belongs than the port's sequences.
#[inline(always)]
fn extended_item(
    parser: &InputParser,
    reading: Reading,
    text: &[u8],
    scanned: usize,
    maybe_more: bool,
) -> NextItem
    requires reads { ReadsMore reading }
    requires scanned { IsScannedTo text.now scanned }
    ensures { IsNextItem reading text.now maybe_more result }
{
    // Nearly every sequence begins so.
    if let [ESCAPE, b'[', rest @ ..] = text {
        return item_of_control(reading, text, rest, scanned, maybe_more);
    }
    if is_alt_escape(text) {
        return NextItem::AltEscape;
    }
    match follows_escape(text) {
        None => item_without_escape(text),
        Some(after) => match follows_escape(after) {
            Some(_) => {
                let place = scanned.saturating_sub(1);
                item_of_two_escapes(parser, reading, after, place, maybe_more)
            }
            None => item_of_front(match_front(text, scanned, reading.x10_mouse), maybe_more),
        },
    }
}

// What is at the front of a text. A character is the port's: `match_character` is quicker for it. The bytes before `scanned` were looked at
// before.
#[inline(always)]
pub(crate) fn next_item(
    parser: &InputParser,
    reading: Reading,
    text: &[u8],
    scanned: usize,
    maybe_more: bool,
) -> NextItem
    requires { IsScannedTo text.now scanned }
    ensures { IsNextItem reading text.now maybe_more result }
{
    match reading.dialect {
        Dialect::Extended => extended_item(parser, reading, text, scanned, maybe_more),
        Dialect::Termwiz if is_alt_escape(text) => NextItem::AltEscape,
        Dialect::Termwiz => NextItem::Usual,
    }
}

// The key that the reading decides at the front of a text: of its first byte, or of the one after an ESC.
pub(crate) fn decided_at(reading: Reading, text: &[u8]) -> Option<KeyCode>
    ensures { result ≡ front_key reading.dialect reading text.now }
{
    match reading.dialect {
        Dialect::Extended => match text {
            [ESCAPE, byte, ..] => decided_key(reading, *byte),
            [byte, ..] => decided_key(reading, *byte),
            [] => None,
        },
        Dialect::Termwiz => None,
    }
}
