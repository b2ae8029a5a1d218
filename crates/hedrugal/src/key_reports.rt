// What the numbers of a key stand for.
ghost use Rattle.std.specs.Prelude.{◌≡◌, ℕ, [], Option, Some, IfSome, IfNone};
ghost use Rattle.termwiz_extended_events.specs.declared.types.KeyEventKind.{KeyEventKind as Kind};
ghost use Rattle.termwiz_extended_events.specs.declared.types.KeyReport.{KeyReport as Report};
ghost use Rattle.hedrugal.specs.Events.{key_event_kind_number};
ghost use Rattle.hedrugal.specs.KittyCalls.{IsCode, StandForKey, StandForReport, without_text};

use crate::events::{
    CEvent, KEY_EVENT_KIND_PRESS, KEY_EVENT_KIND_RELEASE, KEY_EVENT_KIND_REPEAT, KIND_KEY, NO_CODE,
};
use std::alloc::Global;
use termwiz_bindings::numbers::reported_key;
use termwiz_input_extended::types::{KeyEventKind, KeyReport, KeyText};

// What happened to a key, by its number.
#[tactic(auto, unfolding(crate::specs::Events::key_event_kind_number))]
fn kind_of(number: u8) -> Option<KeyEventKind>
    ensures some { IfSome result (λ kind. key_event_kind_number kind ≡ number) }
    ensures only { (kind : Kind) → key_event_kind_number kind ≡ number → result ≡ Some kind }
    ensures none { IfNone result ((kind : Kind) → ¬ (key_event_kind_number kind ≡ number)) }
{
    match number {
        KEY_EVENT_KIND_PRESS => Some(KeyEventKind::Press),
        KEY_EVENT_KIND_REPEAT => Some(KeyEventKind::Repeat),
        KEY_EVENT_KIND_RELEASE => Some(KeyEventKind::Release),
        _ => None,
    }
}

// A character that may be missing, by its code point. The outer `None` is for a number that is neither.
fn character_of(code: u32) -> Option<Option<char>>
    ensures some { IfSome result (λ character. IsCode code character) }
    ensures only { (character : Option ℕ) → IsCode code character → result ≡ Some character }
    ensures none { IfNone result ((character : Option ℕ) → ¬ IsCode code character) }
{
    if code == NO_CODE {
        return Some(None);
    }
    Some(Some(char::from_u32(code)?))
}

// The report that the numbers stand for, with no text.
pub(crate) fn report_of(alloc: Global, numbers: &CEvent) -> Option<KeyReport>
    ensures some { IfSome result (λ report. StandForReport numbers.now report) }
    ensures only { (report : Report) → StandForReport numbers.now report → result ≡ Some (without_text report) }
    ensures text { IfSome result (λ report. report.text ≡ []) }
    ensures none { IfNone result ((report : Report) → ¬ StandForReport numbers.now report) }
{
    Some(KeyReport {
        key: reported_key(numbers.key, numbers.detail)?,
        modifiers: numbers.modifiers,
        kind: kind_of(numbers.key_event_kind)?,
        shifted: character_of(numbers.shifted)?,
        base: character_of(numbers.base)?,
        text: KeyText::new(String::new(alloc)),
    })
}

// The same of an event of a key; none if it is no key's.
pub(crate) fn key_report_of(alloc: Global, numbers: &CEvent) -> Option<KeyReport>
    ensures some { IfSome result (λ report. StandForKey numbers.now report) }
    ensures text { IfSome result (λ report. report.text ≡ []) }
    ensures none { IfNone result ((report : Report) → ¬ StandForKey numbers.now report) }
{
    if numbers.kind != KIND_KEY {
        return None;
    }
    report_of(alloc, numbers)
}
