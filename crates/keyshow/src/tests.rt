// The flush after all lines. No clause speaks of its failure, since the contract of `flush` tells none.

use crate::pump::{RunError, run};
use std::alloc::Global;
use std::io;
use std::io::{Error, ErrorKind, Write};

// Takes all bytes, and counts its flushes, which may fail.
#[derive(Drop)]
struct Target {
    bytes: usize,
    flushes: usize,
    is_flushable: bool,
}

impl Target {
    fn new(is_flushable: bool) -> Target {
        Target {
            bytes: 0,
            flushes: 0,
            is_flushable,
        }
    }
}

impl Write for Target {
    fn write(&mut self, buf: &[u8]) -> io::Result<usize> {
        self.bytes = self.bytes.saturating_add(buf.len());
        Ok(buf.len())
    }

    fn flush(&mut self) -> io::Result<()> {
        self.flushes = self.flushes.saturating_add(1);
        if self.is_flushable {
            Ok(())
        } else {
            Err(Error::from(ErrorKind::BrokenPipe))
        }
    }
}

// Shows a key and an Escape, which are lines of two reads.
fn run_over(alloc: Global, target: &mut Target) -> Result<(), RunError> {
    let mut source: &[u8] = b"q\x1b";
    run(alloc, &mut source, target, 1)
}

#[test]
fn a_flush_that_fails_is_a_write_that_fails(rt: HostRuntime) {
    let mut target = Target::new(false);
    let outcome = run_over(rt.alloc(), &mut target);
    assert!(rt; outcome == Err(RunError::Write));
    assert!(rt; target.bytes == b"key U+0071 NONE\nkey Escape NONE\n".len());
    assert!(rt; target.flushes == 1);
}

#[test]
fn the_writer_is_flushed_once(rt: HostRuntime) {
    let mut target = Target::new(true);
    let outcome = run_over(rt.alloc(), &mut target);
    assert!(rt; outcome == Ok(()));
    assert!(rt; target.flushes == 1);
}
