//! Commands to a buffer.
use crate::conversation::{Command, Session, bytes_of};
use crate::failure::Failure;
use crate::line::Line;
use std::alloc::Global;
use termwiz_keymap::readbuf::ReadBuffer;

/// A buffer.
#[derive(Drop)]
pub struct BufferSession {
    buffer: ReadBuffer,
}

impl BufferSession {
    /// An empty buffer.
    pub fn new(alloc: Global) -> BufferSession {
        BufferSession {
            buffer: ReadBuffer::new(alloc),
        }
    }
}

impl Session for BufferSession {
    fn answer(
        &mut self,
        alloc: Global,
        command: &Command<'_>,
        line: &mut Line,
    ) -> Result<(), Failure> {
        let bytes = bytes_of(alloc, command.hex)?;
        answer_by(&mut self.buffer, command, &bytes, line)
    }
}

// Makes the call that a command names. Its number is how many bytes are dropped, or where a search begins.
fn answer_by(
    buffer: &mut ReadBuffer,
    command: &Command<'_>,
    bytes: &[u8],
    line: &mut Line,
) -> Result<(), Failure> {
    let place = (command.number as usize).min(buffer.len());
    match command.name {
        "extend_with" => buffer.extend_with(bytes)?,
        "advance" => buffer.advance(place),
        "find_subsequence" => line.option(buffer.find_subsequence(place, bytes)),
        "len" => line.number(buffer.len()),
        "is_empty" => line.holds(buffer.is_empty()),
        "capacity" => line.number(buffer.capacity()),
        "as_slice" => line.hex(buffer.as_slice()),
        _ => return Err(Failure::NoSuchWord),
    }
    Ok(())
}
