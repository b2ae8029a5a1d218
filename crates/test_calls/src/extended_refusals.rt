//! The cases of the extended parser.

use crate::extended;
use crate::failure::Failure;
use crate::printing::{
    print_found, print_part, print_pasted, print_refused, print_text, print_waiting, print_word,
};
use crate::refusals::{OPEN_PASTE, print_stop};
use termwiz_extended_events::types::KeyReport;
use termwiz_input_extended::input::ExtendedParser;
use termwiz_input_extended::types::{Dialect, Event};

// An ESC that is held, a paste, the reply with a colour, a control sequence that has no event of its own, and a key with its text.
const ALL_KINDS: &[u8] = b"\x1b\x1b[200~ab\x1b[201~\x1b]4;1\x07\x1b[?62c\x1b[97;;98u";

/// Lends a parser to a case.
pub fn show(rt: &HostRuntime, case: &str) -> Result<(), Failure> {
    show_lent(
        rt,
        &mut ExtendedParser::new(rt.alloc(), Dialect::Extended)?,
        case,
    )
}

// Makes the calls of a case, and prints what was seen.
fn show_lent(rt: &HostRuntime, parser: &mut ExtendedParser, case: &str) -> Result<(), Failure> {
    match case {
        "extended-feed" => show_feed(rt, parser)?,
        "extended-next_event" => show_next_events(rt, parser)?,
        "extended-for_each_event" => {
            parser.feed(ALL_KINDS)?;
            show_called_back(rt, parser, true)?;
        }
        "extended-parse" => show_called_back(rt, parser, false)?,
        "extended-parse_as_vec" => show_parse_as_vec(rt, parser)?,
        "extended-end_paste" => show_end_paste(rt, parser)?,
        "extended-take_paste" => show_take_paste(rt, parser)?,
        _ => return Err(Failure::NoSuchWord),
    }
    print_waiting(rt, parser.waiting_len());
    Ok(())
}

/// Makes a parser.
pub fn show_new(rt: &HostRuntime) -> Result<(), Failure> {
    let Ok((parser, refused)) = extended::make_parser(rt.alloc(), Dialect::Extended) else {
        return Err(Failure::Failed);
    };
    print_refused(rt, refused);
    print_waiting(rt, parser.waiting_len());
    Ok(())
}

fn show_feed(rt: &HostRuntime, parser: &mut ExtendedParser) -> Result<(), Failure> {
    let Ok(refused) = extended::feed(parser, ALL_KINDS) else {
        return Err(Failure::Failed);
    };
    print_found(rt, " / refused, waiting ", refused);
    Ok(())
}

// Prints an event, after the name of its call.
fn print_given(rt: &HostRuntime, call: &str, event: &Event) {
    print_word(rt, call);
    match event {
        Event::Key(report) => print_key(rt, report),
        Event::Paste(text) => print_pasted(rt, text),
        Event::Csi(bytes) => print_bytes(rt, "Csi(", bytes.as_slice()),
        Event::Osc(bytes) => print_bytes(rt, "Osc(", bytes.as_slice()),
        _ => print_word(rt, "another event"),
    }
}

fn print_key(rt: &HostRuntime, report: &KeyReport) {
    let _ = print!(rt; "Key({:?}, ", report.key);
    print_text(rt, report.text.as_str());
    print_word(rt, ")");
}

// Prints bytes, which are ASCII, after a name.
fn print_bytes(rt: &HostRuntime, name: &str, bytes: &[u8]) {
    print_word(rt, name);
    print_word(rt, str::from_utf8(bytes).unwrap_or("no text"));
    print_word(rt, ")");
}

// Prints an event that a callback is given.
fn take(rt: &HostRuntime, call: &str, event: Event) {
    print_given(rt, call, &event);
}

// Takes up to six events.
fn show_next_events(rt: &HostRuntime, parser: &mut ExtendedParser) -> Result<(), Failure> {
    parser.feed(ALL_KINDS)?;
    for _ in 0..6 {
        show_next_event(rt, parser)?;
    }
    Ok(())
}

// Takes the next event, and prints it, after what was buffered if it was refused.
fn show_next_event(rt: &HostRuntime, parser: &mut ExtendedParser) -> Result<(), Failure> {
    let Ok((event, refused)) = extended::next_event(parser) else {
        return Err(Failure::Failed);
    };
    print_found(rt, " / refused, waiting ", refused);
    print_optional(rt, " / next ", event.as_ref());
    Ok(())
}

// Prints an event, if there is one.
fn print_optional(rt: &HostRuntime, call: &str, event: Option<&Event>) {
    if let Some(event) = event {
        print_given(rt, call, event);
    }
}

// Makes a call with a callback: `for_each_event` if the bytes were fed, else `parse`.
fn show_called_back(
    rt: &HostRuntime,
    parser: &mut ExtendedParser,
    is_fed: bool,
) -> Result<(), Failure> {
    let mut first = |event: Event| take(rt, " / first ", event);
    let mut later = |event: Event| take(rt, " / later ", event);
    let stop = if is_fed {
        extended::for_each_event(parser, &mut first, &mut later).ok()
    } else {
        extended::parse(parser, ALL_KINDS, &mut first, &mut later).ok()
    };
    let Some(stop) = stop else {
        return Err(Failure::Failed);
    };
    print_stop(rt, stop);
    Ok(())
}

fn show_parse_as_vec(rt: &HostRuntime, parser: &mut ExtendedParser) -> Result<(), Failure> {
    let Ok(lists) = extended::parse_as_vec(rt.alloc(), parser, ALL_KINDS) else {
        return Err(Failure::Failed);
    };
    print_events(rt, " / first ", &lists.first);
    print_events(rt, " / later ", &lists.later);
    print_stop(rt, lists.stop);
    Ok(())
}

// Prints the events of a call.
fn print_events(rt: &HostRuntime, call: &str, events: &[Event]) {
    for event in events {
        print_given(rt, call, event);
    }
}

fn show_end_paste(rt: &HostRuntime, parser: &mut ExtendedParser) -> Result<(), Failure> {
    parser.feed(b"\x1b[200~ab")?;
    let Ok((event, refused)) = extended::end_paste(parser) else {
        return Err(Failure::Failed);
    };
    print_found(rt, " / refused, waiting ", refused);
    print_optional(rt, " / ", event.as_ref());
    Ok(())
}

fn show_take_paste(rt: &HostRuntime, parser: &mut ExtendedParser) -> Result<(), Failure> {
    parser.feed(OPEN_PASTE)?;
    let Ok((part, refused)) = extended::take_paste(parser) else {
        return Err(Failure::Failed);
    };
    print_found(rt, " / refused, waiting ", refused);
    print_part(rt, part.as_ref());
    Ok(())
}
