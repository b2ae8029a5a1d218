// Whether bytes are read as an event.
ghost use Rattle.std.specs.Prelude.{◌≡◌, ◌↔◌, ℕ, List, [], ◌∷◌, IfOk, IfSome, IfNone, IsTrue};
ghost use Rattle.termwiz_extended_events.specs.declared.types.Event.{Event};
ghost use Rattle.termwiz_extended_events.specs.declared.types.Event.TheVariants as event;
ghost use Rattle.termwiz_extended_grammar.specs.ExtendedGrammar.{Means};
ghost use Rattle.termwiz_senders.specs.KeyTexts.{IsFirstRow, IsReadAsKey, IsTried};

use crate::rows::first_row;
use std::alloc::AllocError;
use termwiz_extended_events::types::{Event, KeyReport, Reading, ReportedKey};
use termwiz_input::input::InputParser;
use termwiz_input_extended::input::ExtendedParser;
use termwiz_keys::laws::equality;

// Reads what is written, as parsers do.
#[derive(Drop)]
pub(crate) struct Reader {
    // Has the sequence table.
    rows: InputParser,
    parser: ExtendedParser,
}

impl Reader {
    // Reads by the sequence table of a parser, whose own bytes stay buffered.
    pub(crate) fn beside(parser: &ExtendedParser) -> Result<Reader, AllocError> {
        Ok(Reader {
            rows: parser.input().sharing()?,
            parser: parser.sharing(parser.dialect())?,
        })
    }

    // Whether bytes are this event alone, and nothing stays buffered.
    pub(crate) fn reads(
        &mut self,
        reading: Reading,
        bytes: &[u8],
        maybe_more: bool,
        event: &Event,
    ) -> Result<bool, AllocError>
        requires { IsTried event.now }
        ensures { IfOk result (λ read. IsTrue read ↔ Means reading bytes.now maybe_more (event.now ∷ []) []) }
    {
        reads(&mut self.parser, reading, bytes, maybe_more, event)
    }

    // Whether bytes, with no more to come, are this key alone.
    pub(crate) fn reads_key(
        &mut self,
        reading: Reading,
        bytes: &[u8],
        report: &KeyReport,
    ) -> Result<bool, AllocError>
        ensures { IfOk result (λ read. IsTrue read ↔ IsReadAsKey reading report.now bytes.now) }
    {
        reads_key(&mut self.parser, reading, bytes, report)
    }

    // The first row that is read as a report.
    pub(crate) fn first_row(
        &mut self,
        reading: Reading,
        report: &KeyReport,
    ) -> Result<Option<&[u8]>, AllocError>
        ensures row { IfOk result (λ row. IfSome row (λ row. IsFirstRow reading report.now row.now)) }
        ensures none { IfOk result (λ row. IfNone row ((bytes : List ℕ) → ¬ IsFirstRow reading report.now bytes)) }
    {
        first_row(&self.rows, &mut self.parser, reading, report)
    }
}

// The event that bytes are alone by this reading, if they are one and nothing stays buffered.
fn only_event(
    parser: &mut ExtendedParser,
    reading: Reading,
    bytes: &[u8],
    maybe_more: bool,
) -> Result<Option<Event>, AllocError>
    ensures some { IfOk result (λ found. IfSome found (λ event. Means reading bytes.now maybe_more (event ∷ []) [])) }
    ensures none { IfOk result (λ found. IfNone found ((event : Event) → ¬ Means reading bytes.now maybe_more (event ∷ []) [])) }
{
    parser.reset();
    parser.set_reading(reading);
    parser.feed(bytes)?;
    let Some(found) = parser.next_event(maybe_more)? else {
        return Ok(None);
    };
    if is_nothing(parser.waiting_text()) {
        Ok(Some(found))
    } else {
        Ok(None)
    }
}

// Whether nothing is left.
fn is_nothing(left: &[u8]) -> bool
    ensures { IsTrue result ↔ (left.now ≡ []) }
{
    left.is_empty()
}

// Whether bytes are this event alone by this reading, and nothing stays buffered.
fn reads(
    parser: &mut ExtendedParser,
    reading: Reading,
    bytes: &[u8],
    maybe_more: bool,
    event: &Event,
) -> Result<bool, AllocError>
    requires { IsTried event.now }
    ensures { IfOk result (λ read. IsTrue read ↔ Means reading bytes.now maybe_more (event.now ∷ []) []) }
{
    match only_event(parser, reading, bytes, maybe_more)? {
        Some(found) => Ok(is_same(&found, event)),
        None => Ok(false),
    }
}

// Whether an event is this one.
fn is_same(found: &Event, event: &Event) -> bool
    requires { IsTried event.now }
    ensures { IsTrue result ↔ (found.now ≡ event.now) }
{
    match (found, event) {
        (Event::Key(a), Event::Key(b)) => is_report(a, b),
        (Event::Csi(a), Event::Csi(b)) => a.as_slice() == b.as_slice(),
        (Event::Osc(a), Event::Osc(b)) => a.as_slice() == b.as_slice(),
        (Event::Dcs(a), Event::Dcs(b)) => a.as_slice() == b.as_slice(),
        (Event::Apc(a), Event::Apc(b)) => a.as_slice() == b.as_slice(),
        _ => false,
    }
}

// Whether a key is this one.
fn is_key(found: ReportedKey, key: ReportedKey) -> bool
    ensures { IsTrue result ↔ (found ≡ key) }
{
    equality();
    match (found, key) {
        (ReportedKey::Named(a), ReportedKey::Named(b)) => a == b,
        (ReportedKey::Functional(a), ReportedKey::Functional(b)) => a == b,
        _ => false,
    }
}

// Whether a report is this one.
fn is_report(found: &KeyReport, report: &KeyReport) -> bool
    ensures { IsTrue result ↔ (found.now ≡ report.now) }
{
    is_key(found.key, report.key)
        && found.modifiers == report.modifiers
        && found.kind == report.kind
        && found.shifted == report.shifted
        && found.base == report.base
        && found.text.as_str() == report.text.as_str()
}

// Whether an event is this key.
fn is_key_event(found: &Event, report: &KeyReport) -> bool
    ensures { IsTrue result ↔ (found.now ≡ event.Key report.now) }
{
    match found {
        Event::Key(found) => is_report(found, report),
        _ => false,
    }
}

// Whether bytes, with no more to come, are this key alone.
pub(crate) fn reads_key(
    parser: &mut ExtendedParser,
    reading: Reading,
    bytes: &[u8],
    report: &KeyReport,
) -> Result<bool, AllocError>
    ensures { IfOk result (λ read. IsTrue read ↔ IsReadAsKey reading report.now bytes.now) }
{
    match only_event(parser, reading, bytes, false)? {
        Some(found) => Ok(is_key_event(&found, report)),
        None => Ok(false),
    }
}
