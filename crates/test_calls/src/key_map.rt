//! Commands to a map whose values own memory, and to a clone of it.
use crate::conversation::{Command, Session, bytes_of};
use crate::failure::Failure;
use crate::line::Line;
use itoa::Buffer;
use std::alloc::{AllocError, Global};
use std::mem::swap;
use std::ops::Range;
use termwiz_keymap::keymap::{Found, KeyMap};

/// A map, and one that was cloned from it.
#[derive(Drop)]
pub struct MapSession {
    map: KeyMap<String>,
    copy: KeyMap<String>,
}

impl MapSession {
    /// Two empty maps.
    pub fn new(alloc: Global) -> MapSession {
        MapSession {
            map: KeyMap::new(alloc),
            copy: KeyMap::new(alloc),
        }
    }
}

impl Session for MapSession {
    fn answer(
        &mut self,
        alloc: Global,
        command: &Command<'_>,
        line: &mut Line,
    ) -> Result<(), Failure> {
        let key = bytes_of(alloc, command.hex)?;
        match command.name {
            "new" => self.map = KeyMap::new(alloc),
            "clone" => self.copy = self.map.clone()?,
            "exchange" => swap(&mut self.map, &mut self.copy),
            _ => answer_by(&mut self.map, alloc, command, &key, line)?,
        }
        Ok(())
    }
}

// Makes the call of a map that a command names. Its number is the value, whether more may follow, a place, or how many keys are to come.
fn answer_by(
    map: &mut KeyMap<String>,
    alloc: Global,
    command: &Command<'_>,
    key: &[u8],
    line: &mut Line,
) -> Result<(), Failure> {
    match command.name {
        "insert" => map.insert(key, decimal(alloc, command.number)?)?,
        "remove" => show_value(map.remove(key).as_ref(), line),
        "remember" => map.remember()?,
        "reserve" => map.reserve(command.number as usize)?,
        _ => ask(map, command, key, line)?,
    }
    Ok(())
}

// Appends what a map answers.
fn ask(
    map: &KeyMap<String>,
    command: &Command<'_>,
    key: &[u8],
    line: &mut Line,
) -> Result<(), Failure> {
    match command.name {
        "lookup" => show_found(map.lookup(key, command.number == 1), line),
        "len" => line.number(map.len()),
        "get_index" => show_entry(map.get_index(command.number as usize), line),
        "extensions" => show_range(map.extensions(key), line),
        _ => return Err(Failure::NoSuchWord),
    }
    Ok(())
}

// The digits of a number.
fn decimal(alloc: Global, number: u64) -> Result<String, AllocError> {
    String::from_str(alloc, Buffer::new().format(number))
}

// Appends a value, if there is one.
fn show_value(value: Option<&String>, line: &mut Line) {
    match value {
        Some(value) => line.word(value.as_str()),
        None => line.word("None"),
    }
}

// Appends what a lookup finds.
fn show_found(found: Found<&String>, line: &mut Line) {
    match found {
        Found::None => line.word("None"),
        Found::NeedData => line.word("NeedData"),
        Found::Exact(len, value) => show_match("Exact ", len, value.as_str(), line),
        Found::Ambiguous(len, value) => show_match("Ambiguous ", len, value.as_str(), line),
    }
}

fn show_match(kind: &str, len: usize, value: &str, line: &mut Line) {
    line.word(kind);
    line.number(len);
    line.word(" ");
    line.word(value);
}

// Appends a key and its value.
fn show_entry(entry: Option<(&[u8], &String)>, line: &mut Line) {
    match entry {
        Some((key, value)) => {
            line.hex(key);
            line.word(" ");
            line.word(value.as_str());
        }
        None => line.word("None"),
    }
}

// Appends the places of a range.
fn show_range(places: Range<usize>, line: &mut Line) {
    line.number(places.start);
    line.word("..");
    line.number(places.end);
}
