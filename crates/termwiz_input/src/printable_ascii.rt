// Printable ASCII: the characters from SPACE to `~`, each an event of its own.
ghost use Rattle.std.specs.Prelude.{◌≡◌, ◌+◌, ◌++◌, ◌<◌, ◌≤◌, ◌↔◌, length, slice_index_or, IsTrue, vec_len, vec_capacity};
ghost use Rattle.termwiz_input.specs.Fronts.{IsRun};
ghost use Rattle.termwiz_input.specs.PrintableAscii.{IsPrintableAscii, printable_events};

use crate::key::plain_key;
use termwiz_keys::types::InputEvent;

/// Whether a byte is a character from SPACE to `~`. No sequence begins with one.
pub fn is_printable_ascii(byte: u8) -> bool
    ensures { IsTrue result ↔ IsPrintableAscii byte }
{
    byte >= b' ' && byte <= b'~'
}

// The run of printable ASCII at the front of a text that begins with such a character, up to the first other byte. It has at most `most`
// characters.
pub(crate) fn printable_ascii_front(text: &[u8], most: usize) -> &[u8]
    requires some { 0 < most }
    requires inside { 0 < length text.now }
    requires first { IsPrintableAscii (slice_index_or text.now 0 0) }
    ensures { IsRun text.now result.now }
{
    let limit = text.len().min(most);
    for len in 1..limit {
        if !is_printable_ascii(text[len]) {
            return &text[..len];
        }
    }
    &text[..limit]
}

// Appends the events of a run, for which the list has room.
pub(crate) fn append_printable_ascii(events: &mut Vec<InputEvent>, characters: &[u8])
    requires room { vec_len events.old + length characters.now ≤ vec_capacity events.old }
    ensures { events.new.items ≡ events.old.items ++ printable_events characters.now }
{
    for byte in characters {
        events.push_reserved(InputEvent::Key(plain_key(char::from(*byte))));
    }
}
