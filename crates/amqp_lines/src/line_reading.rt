//! Lines read back: whether a text is the line of a frame, whose canonical bytes are then held.

ghost use Rattle.std.specs.Prelude.{◌≡◌, ◌≢◌, ◌↔◌, ◌+◌, ◌≤◌, true, false, length, IsTrue, Ok};
ghost use Rattle.amqp_lines.specs.LineReading.{RendersLine};

use crate::line_text::{LineText, without_last};
use crate::reading::lines::read_words;
use amqp_stream::StreamError;
use amqp_types::{ChunkSize, NoMemory, are_bytes, short_held};
use amqp_wire::AMQPRawFrame;
use std::alloc::Global;

/// Whether canonical bytes are within the limit on payloads.
fn is_within(canonical: &[u8], max_payload: ChunkSize) -> bool
    ensures { IsTrue result ↔ length canonical.now ≤ max_payload + 8 }
{
    canonical.len() <= max_payload as usize + 8
}

/// Whether two texts are the same.
fn is_same(one: &[u8], other: &[u8]) -> bool
    ensures { IsTrue result ↔ one.now ≡ other.now }
{
    one == other
}

/// What is returned for a text whose frame was not put.
fn refused(error: StreamError) -> Result<bool, NoMemory>
    ensures never { result ≢ Ok true }
    ensures none { result ≡ Ok false → error ≢ StreamError.NoMemory }
{
    match error {
        StreamError::NoMemory => Err(NoMemory),
        _ => Ok(false),
    }
}

/// The payload that is read of a line, and the canonical bytes and the line of its frame, in memory that is used again.
#[derive(Drop)]
pub(crate) struct LineReader {
    payload: Vec<u8>,
    text: LineText,
}

impl LineReader {
    /// Of no line yet.
    pub(crate) fn open(alloc: Global) -> Result<LineReader, NoMemory> {
        Ok(LineReader {
            payload: Vec::new(alloc),
            text: LineText::open(alloc)?,
        })
    }

    /// The canonical bytes of the frame of the last line that was one.
    pub(crate) fn canonical(&self) -> &[u8]
        ensures { result.now ≡ self.now.text.canonical.bytes }
    {
        self.text.canonical()
    }

    /// Whether a text is the line of a frame within the limit, whose canonical bytes are then held.
    pub(crate) fn is_line(&mut self, text: &[u8], max_payload: ChunkSize) -> Result<bool, NoMemory>
        ensures { RendersLine max_payload text.now self.new.text.canonical.bytes result }
    {
        self.payload.clear();
        let found = read_words(&mut self.payload, without_last(text))?;
        if self.payload.len() > u32::MAX as usize {
            return Ok(false);
        }
        let raw = AMQPRawFrame {
            frame_type: found.0,
            channel_id: found.1,
            payload: self.payload.as_slice(),
        };
        are_bytes(raw.payload);
        short_held(found.1);
        match self.text.put(raw) {
            Err(error) => return refused(error),
            Ok(()) => {}
        }
        are_bytes(self.text.canonical());
        if !is_within(self.text.canonical(), max_payload) {
            return Ok(false);
        }
        Ok(is_same(self.text.line(), text))
    }
}
