//! Makes calls that can be refused memory, goes on after a refusal as a caller does, and prints what was seen.
//!
//! It prints one line for each case: its name, what the calls answered, and, after
//! `refused`, what stood after the refusal, if there was one. It refuses nothing itself: `tools/refusals.sh` runs it again and
//! again, and refuses one more request for memory each time.

use crate::failure::Failure;
use crate::parses::Stop;
use crate::printing::{
    print_answer, print_event, print_found, print_left, print_number, print_part, print_refused,
    print_text, print_waiting, print_word,
};
use crate::{extended_refusals, parses, parts};
use std::env::Args;
use termwiz_input::encode::KeyboardEncoding;
use termwiz_input::input::{
    InputEvent, InputParser, KeyCode, KeyCodeEncodeModes, Modifiers, PastedText,
};
use termwiz_input::keymap::KeyMap;
use termwiz_input::readbuf::ReadBuffer;

/// Shows each case that the program was called with.
pub fn show_all(rt: &HostRuntime, cases: Args) -> Result<(), Failure> {
    for case in cases {
        print_word(rt, case.as_str());
        show(rt, case.as_str())?;
        print_word(rt, "\n");
    }
    Ok(())
}

// Makes the calls of a case, and prints what was seen.
fn show(rt: &HostRuntime, case: &str) -> Result<(), Failure> {
    match case {
        "new" => show_new(rt),
        "extend_with" => show_extend(rt, &mut ReadBuffer::new(rt.alloc())),
        "insert" => show_insert(rt, &mut KeyMap::new(rt.alloc())),
        "clone-map" => show_map_clone(rt, &mut KeyMap::new(rt.alloc())),
        "clone-event" => show_event_clone(rt),
        "encode" => show_encode(rt),
        "extended-new" => extended_refusals::show_new(rt),
        _ if case.starts_with("extended-") => extended_refusals::show(rt, case),
        _ => show_lent(rt, &mut InputParser::new(rt.alloc())?, case),
    }
}

// Lends a parser to a case.
fn show_lent(rt: &HostRuntime, parser: &mut InputParser, case: &str) -> Result<(), Failure> {
    match case {
        "parse" => show_parse(rt, parser)?,
        "parse_as_vec" => show_parse_as_vec(rt, parser, b"hello")?,
        "parse_as_vec-paste" => show_parse_as_vec(rt, parser, HELD_AND_PASTE)?,
        "parse_as_vec-long" => show_parse_as_vec(rt, parser, MANY_KEYS)?,
        "parse_pieces" => show_parse_pieces(rt, parser)?,
        "end_paste" => show_end_paste(rt, parser)?,
        "take_paste" => show_take_paste(rt, parser)?,
        _ => return Err(Failure::NoSuchWord),
    }
    print_waiting(rt, parser.waiting_len());
    Ok(())
}

fn show_new(rt: &HostRuntime) -> Result<(), Failure> {
    let Ok((parser, refused)) = parts::make_parser(rt.alloc()) else {
        return Err(Failure::Failed);
    };
    print_refused(rt, refused);
    print_waiting(rt, parser.waiting_len());
    Ok(())
}

// Appends the alphabet from its third letter on.
fn show_extend(rt: &HostRuntime, buffer: &mut ReadBuffer) -> Result<(), Failure> {
    buffer.extend_with(b"ab")?;
    let Ok(refused) = parts::extend(buffer, b"cdefghijklmnopqrstuvwxyz") else {
        return Err(Failure::Failed);
    };
    print_found(rt, " / refused, length ", refused);
    print_number(rt, " / length ", buffer.len());
    Ok(())
}

// Sets a key beside `boo` that goes on after it, and looks `boo` up. The key is so long that it takes memory of its own.
fn show_insert(rt: &HostRuntime, keys: &mut KeyMap<u8>) -> Result<(), Failure> {
    keys.insert(b"boo", 1)?;
    let Ok(refused) = parts::insert(keys, b"boomerang thrower", 2, b"boo") else {
        return Err(Failure::Failed);
    };
    if let Some(found) = refused {
        print_answer(rt, " / refused, boo", found);
    }
    print_answer(rt, " / boo", parts::look_up(keys, b"boo"));
    Ok(())
}

fn show_map_clone(rt: &HostRuntime, keys: &mut KeyMap<u8>) -> Result<(), Failure> {
    keys.insert(b"boo", 1)?;
    keys.insert(b"boom", 2)?;
    let Ok((copy, refused)) = parts::clone_map(keys) else {
        return Err(Failure::Failed);
    };
    print_refused(rt, refused);
    print_answer(rt, " / boo", parts::look_up(&copy, b"boo"));
    print_answer(rt, " / boom", parts::look_up(&copy, b"boom"));
    Ok(())
}

fn show_event_clone(rt: &HostRuntime) -> Result<(), Failure> {
    let event = InputEvent::Paste(PastedText::new(String::from_str(rt.alloc(), "ab")?));
    let Ok((copy, refused)) = parts::clone_event(rt.alloc(), &event) else {
        return Err(Failure::Failed);
    };
    print_refused(rt, refused);
    print_word(rt, " / ");
    print_event(rt, &copy);
    Ok(())
}

fn show_encode(rt: &HostRuntime) -> Result<(), Failure> {
    let modes = KeyCodeEncodeModes {
        encoding: KeyboardEncoding::Xterm,
        application_cursor_keys: false,
        newline_mode: false,
        modify_other_keys: None,
    };
    let encoded = parts::encode(rt.alloc(), KeyCode::LeftArrow, Modifiers::ALT, modes);
    let Ok((text, refused)) = encoded else {
        return Err(Failure::Failed);
    };
    print_refused(rt, refused);
    print_word(rt, " / ");
    print_text(rt, text.as_str());
    Ok(())
}

// Prints an event, after the name of its call.
fn print_given(rt: &HostRuntime, call: &str, event: &InputEvent) {
    print_word(rt, call);
    print_event(rt, event);
}

// Prints what stood after a refusal of the bytes, if there was one.
pub fn print_stop(rt: &HostRuntime, stop: Option<Stop>) {
    if let Some(stop) = stop {
        print_word(rt, " / refused ");
        print_word(rt, if stop.taken { "Taken" } else { "NotTaken" });
        print_left(rt, stop.left);
    }
}

// An ESC that is held, a paste and a key.
const HELD_AND_PASTE: &[u8] = b"\x1b\x1b[200~ab\x1b[201~q";

// More keys than the list of events has room for at first: it grows after 64 of them are stored.
const MANY_KEYS: &[u8] = b"\t\t\t\t\t\t\t\t\t\t\t\t\t\t\t\t\t\t\t\t\t\t\t\t\t\t\t\t\t\t\t\t\
    \t\t\t\t\t\t\t\t\t\t\t\t\t\t\t\t\t\t\t\t\t\t\t\t\t\t\t\t\t\t\t\tab";

fn show_parse(rt: &HostRuntime, parser: &mut InputParser) -> Result<(), Failure> {
    let mut first = |event: InputEvent| print_given(rt, " / first ", &event);
    let mut later = |event: InputEvent| print_given(rt, " / later ", &event);
    let Ok(stop) = parses::parse(parser, HELD_AND_PASTE, &mut first, &mut later) else {
        return Err(Failure::Failed);
    };
    print_stop(rt, stop);
    Ok(())
}

fn show_parse_as_vec(
    rt: &HostRuntime,
    parser: &mut InputParser,
    text: &[u8],
) -> Result<(), Failure> {
    let Ok(lists) = parses::parse_as_vec(rt.alloc(), parser, text) else {
        return Err(Failure::Failed);
    };
    print_events(rt, " / first ", &lists.first);
    print_events(rt, " / later ", &lists.later);
    print_stop(rt, lists.stop);
    Ok(())
}

// Prints the events of a call.
fn print_events(rt: &HostRuntime, call: &str, events: &[InputEvent]) {
    for event in events {
        print_given(rt, call, event);
    }
}

// An ESC that is held, a paste whose end is a piece of its own, and a key.
const PIECES: &[&[u8]] = &[b"\x1b\x1b[200~a", b"\x1b[201~", b"z"];

fn show_parse_pieces(rt: &HostRuntime, parser: &mut InputParser) -> Result<(), Failure> {
    let mut first = |number: usize, event: InputEvent| {
        print_numbered(rt, " / first ", number, &event);
    };
    let mut later = |number: usize, event: InputEvent| {
        print_numbered(rt, " / later ", number, &event);
    };
    let Ok(stop) = parses::parse_pieces(parser, PIECES, &mut first, &mut later) else {
        return Err(Failure::Failed);
    };
    if let Some(stop) = stop {
        print_number(rt, " / refused after ", stop.taken);
        print_word(rt, " pieces");
        print_left(rt, stop.left);
    }
    Ok(())
}

// Prints an event, after the name of its call and the number of its piece.
fn print_numbered(rt: &HostRuntime, call: &str, number: usize, event: &InputEvent) {
    print_number(rt, call, number);
    print_given(rt, " ", event);
}

fn show_end_paste(rt: &HostRuntime, parser: &mut InputParser) -> Result<(), Failure> {
    parser.feed(b"\x1b[200~ab")?;
    let Ok((event, refused)) = parts::end_paste(parser) else {
        return Err(Failure::Failed);
    };
    print_found(rt, " / refused, waiting ", refused);
    if let Some(event) = event {
        print_given(rt, " / ", &event);
    }
    Ok(())
}

// A paste of two letters, and half a character, which is held back.
pub const OPEN_PASTE: &[u8] = b"\x1b[200~ab\xc3";

fn show_take_paste(rt: &HostRuntime, parser: &mut InputParser) -> Result<(), Failure> {
    parser.feed(OPEN_PASTE)?;
    let Ok((part, refused)) = parts::take_paste(parser) else {
        return Err(Failure::Failed);
    };
    print_found(rt, " / refused, waiting ", refused);
    print_part(rt, part.as_ref());
    Ok(())
}
