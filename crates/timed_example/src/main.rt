//! The loop over a parser with a clock. What came when is a list here, in place of a clock and a terminal.
#![tactic(auto)]

use std::io;
use termwiz_timed::parser::{TimedEvent, TimedParser};
use termwiz_timed::types::{Dialect, Event};

/// Prints an event.
fn print(rt: &HostRuntime, event: TimedEvent) -> io::Result<()> {
    match event {
        TimedEvent::Whole(Event::Key(key)) => println!(rt; "{:?} {}", key.key, key.modifiers),
        TimedEvent::Whole(Event::Paste(text)) => println!(rt; "pasted {:?}", text.as_str()),
        TimedEvent::Whole(event) => println!(rt; "{event:?}"),
        TimedEvent::PastePart(text) => println!(rt; "more to paste: {:?}", text.as_str()),
    }
}

/// Prints all events, up to none.
fn tell(rt: &HostRuntime, parser: &mut TimedParser) -> anyhow::Result<()> {
    // Each event takes a byte at least.
    for _ in 0..=parser.waiting_len() {
        match parser.next()? {
            Some(event) => print(rt, event)?,
            None => break,
        }
    }
    Ok(())
}

fn main(rt: HostRuntime) -> anyhow::Result<()> {
    let mut parser = TimedParser::new(rt.alloc(), Dialect::Extended)?;
    // At 69 and at 70 milliseconds the program looked, and nothing had come.
    for (now, text) in [
        (0, "a\x1b[1;"),
        (20, "5A\x1b"),
        (69, ""),
        (70, ""),
        (900, "\x1b[200~hi"),
    ] {
        if text.is_empty() {
            parser.idle(now);
        } else if parser.feed(now, text.as_bytes()).is_err() {
            anyhow::bail!("out of memory");
        }
        tell(&rt, &mut parser)?;
        println!(rt; "at {}: wait {:?}", now, parser.timeout(now))?;
    }
    parser.end();
    tell(&rt, &mut parser)
}
