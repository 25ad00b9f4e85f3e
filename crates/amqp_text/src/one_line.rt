//! One line by itself, read as a typed frame.

ghost use Rattle.amqp_text.specs.OneLine.{ParsesLine};

use amqp_frame::{AMQPFrame, parse_frame};
use amqp_lines::{TextError, undump_line};
use amqp_types::ChunkSize;
use std::alloc::Global;

/// Reads a line, with its newline, as the frame that it is the line of. The line of a payload above `max_payload` bytes
/// is bad text.
pub fn parse_line(alloc: Global, i: &[u8], max_payload: ChunkSize) -> Result<AMQPFrame, TextError>
    ensures { ParsesLine max_payload i.now result }
{
    let mut canonical = Vec::new(alloc);
    undump_line(alloc, &mut canonical, i, max_payload)?;
    match parse_frame(alloc, &canonical) {
        Ok((_, frame)) => Ok(frame),
        Err(_) => Err(TextError::NoMemory),
    }
}
