//! The line that answers a command.
use event_text::{push_decimal, push_event, push_hex, push_key, push_key_name, push_modifiers};
use std::alloc::{AllocError, Global};
use std::fmt::Display;
use std::io::Write;
use termwiz_base::Modifiers;
use termwiz_input::types::{InputEvent, KeyCode, KeyEvent, PastedText};

/// A line, as long as memory for it was granted. What is appended fails nowhere else.
#[derive(Drop)]
pub struct Line {
    text: Vec<u8>,
    is_refused: bool,
}

impl Line {
    /// An empty line.
    pub fn new(alloc: Global) -> Line {
        Line {
            text: Vec::new(alloc),
            is_refused: false,
        }
    }

    // Notes whether memory was refused.
    fn note(&mut self, appended: Result<(), AllocError>) {
        self.is_refused |= appended.is_err();
    }

    /// Appends a word.
    pub fn word(&mut self, word: &str) {
        let appended = self.text.extend_from_slice(word.as_bytes());
        self.note(appended);
    }

    /// Appends whether something holds.
    pub fn holds(&mut self, it: bool) {
        self.word(if it { "true" } else { "false" });
    }

    /// Appends a number.
    pub fn number(&mut self, number: usize) {
        let appended = push_decimal(&mut self.text, number);
        self.note(appended);
    }

    /// Appends a number, if there is one.
    pub fn option(&mut self, number: Option<usize>) {
        match number {
            Some(number) => self.number(number),
            None => self.word("None"),
        }
    }

    /// Appends how many bytes stay buffered.
    pub fn waiting(&mut self, len: usize) {
        self.number(len);
        self.word(" wait");
    }

    /// Appends bytes in hexadecimal.
    pub fn hex(&mut self, bytes: &[u8]) {
        let appended = push_hex(&mut self.text, bytes);
        self.note(appended);
    }

    /// Appends an event.
    pub fn event(&mut self, event: &InputEvent) {
        let appended = push_event(&mut self.text, event);
        self.note(appended);
    }

    /// Appends a pasted text, as of an event.
    pub fn pasted(&mut self, text: &PastedText) {
        let bytes = text.as_str().as_bytes();
        self.word("paste ");
        self.number(bytes.len());
        self.word(":");
        self.hex(bytes);
    }

    /// Appends a key and its modifiers.
    pub fn key(&mut self, event: &KeyEvent) {
        let appended = push_key(&mut self.text, event.key, event.modifiers);
        self.note(appended);
    }

    /// Appends the name of a key.
    pub fn name(&mut self, key: KeyCode) {
        let appended = push_key_name(&mut self.text, key);
        self.note(appended);
    }

    /// Appends modifiers.
    pub fn modifiers(&mut self, held: Modifiers) {
        let appended = push_modifiers(&mut self.text, held);
        self.note(appended);
    }

    /// Appends what is displayed.
    pub fn shown<D: Display + Drop>(&mut self, it: D) {
        self.is_refused |= self.text.write_fmt(it).is_err();
    }

    /// The text, and the end of a line, unless memory was refused.
    pub fn end(mut self) -> Result<Vec<u8>, AllocError> {
        self.word("\n");
        if self.is_refused {
            return Err(AllocError);
        }
        Ok(self.text)
    }
}
