//! What the cases of refusals print. It takes no memory. What can't be printed is missing from the line.
use crate::parses::Left;
use itoa::Buffer;
use std::io::Write;
use termwiz_input::input::{InputEvent, Modifiers, PastedText};
use termwiz_input::keymap::Found;

/// Prints a word.
pub fn print_word(rt: &HostRuntime, word: &str) {
    let _ = rt.stdout().write_all(word.as_bytes());
}

/// Prints a word and a number.
pub fn print_number(rt: &HostRuntime, word: &str, number: usize) {
    print_word(rt, word);
    print_word(rt, Buffer::new().format(number));
}

/// Prints a text as Debug does.
pub fn print_text(rt: &HostRuntime, text: &str) {
    let _ = print!(rt; "{text:?}");
}

/// Prints that a call was refused, if it was.
pub fn print_refused(rt: &HostRuntime, refused: bool) {
    if refused {
        print_word(rt, " / refused");
    }
}

/// Prints how many bytes there were after a refusal, if there was one.
pub fn print_found(rt: &HostRuntime, word: &str, refused: Option<usize>) {
    if let Some(len) = refused {
        print_number(rt, word, len);
    }
}

/// Prints how many bytes are buffered in the end.
pub fn print_waiting(rt: &HostRuntime, waiting: usize) {
    print_number(rt, " / waiting ", waiting);
}

/// Prints an answer of a lookup, after the word that was looked up.
pub fn print_answer(rt: &HostRuntime, word: &str, found: Found<u8>) {
    print_word(rt, word);
    match found {
        Found::None => print_word(rt, " None"),
        Found::NeedData => print_word(rt, " NeedData"),
        Found::Exact(len, value) => print_entry(rt, " Exact(", len, value),
        Found::Ambiguous(len, value) => print_entry(rt, " Ambiguous(", len, value),
    }
}

fn print_entry(rt: &HostRuntime, kind: &str, len: usize, value: u8) {
    print_number(rt, kind, len);
    print_number(rt, ", ", usize::from(value));
    print_word(rt, ")");
}

/// Prints an event.
pub fn print_event(rt: &HostRuntime, event: &InputEvent) {
    match event {
        InputEvent::Key(key) if key.modifiers == Modifiers::NONE => {
            let _ = print!(rt; "{:?}", key.key);
        }
        InputEvent::Paste(text) => print_pasted(rt, text),
        _ => print_word(rt, "another event"),
    }
}

/// Prints a pasted text.
pub fn print_pasted(rt: &HostRuntime, text: &PastedText) {
    print_word(rt, "Paste(");
    print_text(rt, text.as_str());
    print_word(rt, ")");
}

/// Prints the text of a part, if there is one.
pub fn print_part(rt: &HostRuntime, part: Option<&PastedText>) {
    if let Some(text) = part {
        print_word(rt, " / part ");
        print_text(rt, text.as_str());
    }
}

/// Prints what a refused call left.
pub fn print_left(rt: &HostRuntime, left: Left) {
    print_number(rt, ", waiting ", left.waiting);
    if left.is_paste_open {
        print_word(rt, " in a paste");
    }
}
