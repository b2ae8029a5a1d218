// The key of an event.
ghost use Rattle.std.specs.Prelude.{◌≡◌, [], IfOk, IsOk, option_map};
ghost use Rattle.termwiz_extended_events.specs.EventKeys.{key_of_event};

use crate::types::{Event, KeyReport, KeyText};
use std::alloc::{AllocError, Global};

impl KeyReport {
    /// Returns an equal report. Only a text takes memory, so only the clone of a report with a text can fail.
    pub fn clone(&self, alloc: Global) -> Result<KeyReport, AllocError>
        ensures same { IfOk result (λ report. report ≡ self.now) }
        ensures free { self.now.text ≡ [] → IsOk result }
    {
        let text = self.text.as_str();
        let copy = if text.is_empty() {
            String::new(alloc)
        } else {
            String::from_str(alloc, text)?
        };
        Ok(KeyReport {
            key: self.key,
            modifiers: self.modifiers,
            kind: self.kind,
            shifted: self.shifted,
            base: self.base,
            text: KeyText::new(copy),
        })
    }
}

impl Event {
    /// Returns the report of a key, or `None` for any other event.
    pub fn key(&self) -> Option<&KeyReport>
        ensures { option_map (λ report. report.now) result ≡ key_of_event self.now }
    {
        match self {
            Event::Key(report) => Some(report),
            _ => None,
        }
    }
}
