//! One line by itself: read as the canonical bytes of its frame, and written of a borrowed frame.

ghost use Rattle.std.specs.Prelude.{◌<◌, ◌^◌, length};
ghost use Rattle.amqp_wire.specs.Frames.{raw_of};
ghost use Rattle.amqp_lines.specs.OneLine.{AppendsCanonical, AppendsRawLine};

use crate::errors::TextError;
use crate::line_reading::LineReader;
use crate::line_text::LineText;
use amqp_stream::StreamError;
use amqp_types::{ChunkSize, append_bytes};
use amqp_wire::AMQPRawFrame;
use std::alloc::Global;

/// Appends the canonical bytes of the frame that a line, with its newline, is the line of. The line of a payload above
/// `max_payload` bytes is bad text.
pub fn undump_line(
    alloc: Global,
    out: &mut Vec<u8>,
    i: &[u8],
    max_payload: ChunkSize,
) -> Result<(), TextError>
    ensures { AppendsCanonical max_payload i.now out.old.items out.new.items result }
{
    let mut reader = LineReader::open(alloc)?;
    if !reader.is_line(i, max_payload)? {
        return Err(TextError::BadText);
    }
    match append_bytes(out, reader.canonical()) {
        Ok(()) => Ok(()),
        Err(_) => Err(TextError::NoMemory),
    }
}

/// Appends the line of a borrowed frame, with its newline, or returns the fault of its payload.
pub fn dump_line(alloc: Global, out: &mut Vec<u8>, raw: AMQPRawFrame<'_>) -> Result<(), StreamError>
    requires few { length raw.payload.now < 2 ^ 32 }
    ensures { AppendsRawLine (raw_of raw.entry) out.old.items out.new.items result }
{
    match LineText::open(alloc) {
        Err(_) => Err(StreamError::NoMemory),
        Ok(mut text) => match text.put_line(raw) {
            Err(error) => Err(error),
            Ok(()) => match append_bytes(out, text.line()) {
                Ok(()) => Ok(()),
                Err(_) => Err(StreamError::NoMemory),
            },
        },
    }
}
