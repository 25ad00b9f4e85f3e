//! The canonical bytes and the line of one borrowed frame, in memory that is used again for the next.

ghost use Rattle.std.specs.Prelude.{◌≡◌, ◌-◌, ◌^◌, ◌<◌, ◌≤◌, [], length, take, IfErr, OnOk};
ghost use Rattle.amqp_wire.specs.Canonical.{canon, payload_of};
ghost use Rattle.amqp_wire.specs.Frames.{Frame, raw_of};
ghost use Rattle.amqp_wire.specs.Outlines.{outline_of};
ghost use Rattle.amqp_lines.specs.Lines.{line};
ghost use Rattle.amqp_lines.specs.LineTexts.{PutsBoth, PutsCanonical, PutsLine};
ghost use Rattle.amqp_lines.specs.Payloads.{IsIn};

use crate::lines::write_line;
use amqp_canonical::bytes_from;
use amqp_stream::{OutputBuffer, StreamError, payload_error};
use amqp_types::{NoMemory, are_bytes};
use amqp_wire::{AMQPRawFrame, FrameOutline, judge_frame, outline_raw};
use std::alloc::Global;

/// Empties a buffer, and makes it so large at least.
fn empty_with_room(alloc: Global, buffer: &mut OutputBuffer, room: usize) -> Result<(), NoMemory>
    ensures empty { OnOk result (buffer.new.bytes ≡ []) }
    ensures room { OnOk result (room ≤ buffer.new.room) }
{
    buffer.clear();
    if room <= buffer.room() {
        return Ok(());
    }
    *buffer = OutputBuffer::open(alloc, room)?;
    Ok(())
}

/// Puts the canonical bytes of a borrowed frame into a buffer, in place of what was there.
#[tactic(auto, using(crate::proofs::Borrowed::unrendered))]
fn put_canonical(
    alloc: Global,
    buffer: &mut OutputBuffer,
    raw: AMQPRawFrame<'_>,
) -> Result<(), StreamError>
    requires few { length raw.payload.now < 2 ^ 32 }
    ensures { PutsCanonical (raw_of raw.entry) buffer.new.bytes result }
{
    match empty_with_room(alloc, buffer, raw.payload.len() + 8) {
        Err(_) => return Err(StreamError::NoMemory),
        Ok(()) => {}
    }
    match buffer.push_raw(raw) {
        Ok(()) => Ok(()),
        Err(error) => Err(payload_error(error)),
    }
}

/// All but the last byte.
pub(crate) fn without_last(bytes: &[u8]) -> &[u8]
    ensures { result.now ≡ take (length bytes.now - 1) bytes.now }
{
    match bytes {
        [front @ .., _] => front,
        [] => &[],
    }
}

/// The payload in the canonical bytes of a frame.
pub fn payload_in(outline: FrameOutline, bytes: &[u8]) -> &[u8]
    ensures { (frame : Frame) → outline ≡ outline_of frame
        → bytes.now ≡ canon frame → result.now ≡ payload_of frame }
{
    match outline {
        FrameOutline::ProtocolHeader => bytes_from(bytes, 5),
        _ => without_last(bytes_from(bytes, 7)),
    }
}

/// Puts the line of a frame into a vector, in place of what was there, by its outline and its canonical payload.
fn put_line(out: &mut Vec<u8>, outline: FrameOutline, payload: &[u8]) -> Result<(), StreamError>
    ensures line { OnOk result
        ((frame : Frame) → IsIn outline payload.now frame → out.new.items ≡ line frame) }
    ensures memory { IfErr result (λ error. error ≡ StreamError.NoMemory) }
{
    out.clear();
    match write_line(out, outline, payload) {
        Ok(()) => Ok(()),
        Err(_) => Err(StreamError::NoMemory),
    }
}

/// The canonical bytes and the line of a borrowed frame.
#[derive(Drop)]
pub(crate) struct LineText {
    alloc: Global,
    canonical: OutputBuffer,
    line: Vec<u8>,
}

impl LineText {
    /// Of no frame yet.
    pub(crate) fn open(alloc: Global) -> Result<LineText, NoMemory> {
        Ok(LineText {
            alloc,
            canonical: OutputBuffer::open(alloc, 0)?,
            line: Vec::new(alloc),
        })
    }

    /// The canonical bytes.
    pub(crate) fn canonical(&self) -> &[u8]
        ensures { result.now ≡ self.now.canonical.bytes }
    {
        self.canonical.bytes()
    }

    /// The line.
    pub(crate) fn line(&self) -> &[u8]
        ensures { result.now ≡ self.now.line.items }
    {
        self.line.as_slice()
    }

    /// Puts the canonical bytes and the line of a borrowed frame, in place of those of an earlier one.
    pub(crate) fn put(&mut self, raw: AMQPRawFrame<'_>) -> Result<(), StreamError>
        requires few { length raw.payload.now < 2 ^ 32 }
        ensures { PutsBoth (raw_of raw.entry) self.new.canonical.bytes self.new.line.items result }
    {
        match put_canonical(self.alloc, &mut self.canonical, raw) {
            Err(error) => return Err(error),
            Ok(()) => {}
        }
        are_bytes(raw.payload);
        let outline = outline_raw(raw);
        put_line(
            &mut self.line,
            outline,
            payload_in(outline, self.canonical.bytes()),
        )
    }

    /// Puts the line of a borrowed frame, in place of that of an earlier one. A canonical payload is not copied, so the
    /// canonical bytes may be those of an earlier frame.
    pub(crate) fn put_line(&mut self, raw: AMQPRawFrame<'_>) -> Result<(), StreamError>
        requires few { length raw.payload.now < 2 ^ 32 }
        ensures { PutsLine (raw_of raw.entry) self.new.line.items result }
    {
        match judge_frame(raw) {
            Err(error) => Err(payload_error(error)),
            Ok(judged) if judged.canonical => {
                are_bytes(raw.payload);
                put_line(&mut self.line, outline_raw(raw), raw.payload)
            }
            Ok(_) => self.put(raw),
        }
    }
}
