//! Prints the events of standard input, one per line. `tools/new_program.sh` makes a program of your own from it.
#![tactic(auto)]

ghost use Rattle.std.specs.Prelude.{◌++◌, ℕ, List, false, OnOk};
ghost use Rattle.std.specs.Io.KnownBytes.{Consumes, IsAtEnd};
ghost use Rattle.termwiz_input.specs.InputEvent.{InputEvent as Event};
ghost use Rattle.termwiz_input.specs.Callbacks.{WasCalledOn};
ghost use Rattle.termwiz_input.specs.Grammar.{Means};

use std::io;
use std::io::Read;
use termwiz_input::input::{InputEvent, InputParser};
use termwiz_input::laws::resumes;

/// Reads to the end of the input, and calls back with each event.
fn read_events<R: Read, F: FnMut(InputEvent)>(
    parser: &mut InputParser,
    reader: &mut R,
    callback: &mut F,
) -> anyhow::Result<()>
    requires { F.IsAlwaysCallable callback.old }
    ensures { OnOk result ((text : List ℕ) × (events : List Event)
        × Consumes (R.remaining reader.old) (R.remaining reader.new) text
        × IsAtEnd (R.remaining reader.new)
        × Means (parser.old ++ text) false events parser.new
        × WasCalledOn F.step callback.old events callback.new) }
{
    // By this law the events are those of the whole input, however the reads cut it.
    resumes();
    let mut buffer = [0; 4096];
    for _ in 0..u64::MAX {
        let count = reader.read(&mut buffer)?;
        if count == 0 {
            // The end of the input: an ESC that stayed buffered was the Escape key.
            parser.parse(b"", callback, false)?;
            return Ok(());
        }
        parser.parse(&buffer[..count], callback, true)?;
    }
    anyhow::bail!("the input has no end")
}

/// Prints an event.
fn print(rt: &HostRuntime, event: InputEvent) -> io::Result<()> {
    match event {
        InputEvent::Key(key) => println!(rt; "{:?} {:?}", key.key, key.modifiers),
        InputEvent::Mouse(mouse) => println!(rt; "mouse at {}, {}", mouse.x, mouse.y),
        InputEvent::Paste(text) => println!(rt; "pasted {:?}", text.as_str()),
        _ => Ok(()),
    }
}

fn main(rt: HostRuntime) -> anyhow::Result<()> {
    let mut parser = InputParser::new(rt.alloc())?;
    let mut printed = Ok(());
    let mut print_event = |event: InputEvent| {
        if printed.is_ok() {
            printed = print(&rt, event);
        }
    };
    read_events(&mut parser, &mut rt.stdin(), &mut print_event)?;
    printed?;
    Ok(())
}
