//! Writing: all of some bytes, what is pending, and the canonical bytes of a frame.

ghost use Rattle.std.specs.Prelude.{◌≡◌, ◌+◌, ◌++◌, ◌^◌, ◌<◌, ◌≤◌, [], length, Ok, Err};
ghost use Rattle.amqp_wire.specs.Frames.{raw_of, IsTyped, frame_length};
ghost use Rattle.amqp_wire.specs.Spelling.{framed};
ghost use Rattle.amqp_wire.specs.Verdicts.{IsPayloadError, decode_raw};
ghost use Rattle.amqp_stream.specs.Writing.{WritesAll, WritesFrame, Gathers};
ghost use Rattle.amqp_stream.specs.Writing.{stream_result, payload_fault};
ghost use Rattle.amqp_stream.specs.Buffers.{Adds};
ghost use Rattle.amqp_stream.specs.Ends.{Store};
ghost use Rattle.amqp_stream.specs.Streaming.{EndsWith};
ghost use Rattle.amqp_types.specs.Constants.{body_byte};

use crate::errors::{RunError, StreamError};
use crate::output_buffer::OutputBuffer;
use crate::sink::{Sink, SinkFault};
use amqp_types::{ChannelId, FRAME_BODY, FRAME_END, ParserError};
use amqp_wire::{
    AMQPFrameType, AMQPRawFrame, ProtocolVersion, frame_head, header_bytes, heartbeat_bytes,
};

/// Bodies up to this size are pending with the small frames; larger ones are written from where they
/// lie.
pub const SMALL_BODY: usize = 4096;

/// Writes all of the bytes, in as many writes as it takes.
pub fn write_all<K: Sink>(sink: &mut K, bytes: &[u8]) -> Result<(), SinkFault>
    ensures { WritesAll (K.store sink.old) (K.store sink.new) bytes.now result }
{
    let mut done = 0;
    while done < bytes.len() {
        match sink.write(&bytes[done..]) {
            Ok(count) => done += count,
            Err(fault) => return Err(fault),
        }
    }
    Ok(())
}

/// Writes what is pending. Nothing is pending afterwards, also where a write failed.
pub fn flush<K: Sink>(out: &mut OutputBuffer, sink: &mut K) -> Result<(), SinkFault>
    ensures written { WritesAll (K.store sink.old) (K.store sink.new) out.old.bytes result }
    ensures empty { out.new ≡ record { room = out.old.room; bytes = [] } }
    ensures nothing { out.old.bytes ≡ [] → (result ≡ Ok tt) × (sink.new ≡ sink.old) }
{
    if out.bytes().is_empty() {
        return Ok(());
    }
    let written = write_all(sink, out.bytes());
    out.clear();
    written
}

/// Puts bytes after the pending ones, where they fit; else writes what is pending and then them.
#[tactic(auto, using(crate::proofs::Writes::pushed, crate::proofs::Writes::written_after, crate::proofs::Writes::flush_failed))]
pub fn gather<K: Sink>(out: &mut OutputBuffer, sink: &mut K, bytes: &[u8]) -> Result<(), SinkFault>
    ensures room { out.new.room ≡ out.old.room }
    ensures gathers { Gathers (K.store sink.old)
        (K.store sink.new) out.old.bytes out.new.bytes bytes.now result }
{
    if bytes.len() <= out.room() {
        out.push(bytes);
        return Ok(());
    }
    match flush(out, sink) {
        Err(fault) => Err(fault),
        Ok(()) => write_all(sink, bytes),
    }
}

/// Writes what is pending, and then these bytes. Nothing is pending afterwards, also where a write failed. Bytes that
/// are not worth a write of their own are written together with what is pending.
pub(crate) fn write_after<K: Sink>(
    out: &mut OutputBuffer,
    sink: &mut K,
    bytes: &[u8],
    worth: bool,
) -> Result<(), SinkFault>
    ensures written { WritesAll (K.store sink.old)
        (K.store sink.new) (out.old.bytes ++ bytes.now) result }
    ensures empty { out.new ≡ record { room = out.old.room; bytes = [] } }
    ensures nothing { out.old.bytes ≡ [] → bytes.now ≡ []
        → (result ≡ Ok tt) × (sink.new ≡ sink.old) }
{
    if bytes.is_empty() {
        return flush(out, sink);
    }
    if !worth && !out.bytes().is_empty() {
        match gather(out, sink, bytes) {
            Err(fault) => return Err(fault),
            Ok(()) => return flush(out, sink),
        }
    }
    match flush(out, sink) {
        Err(fault) => Err(fault),
        Ok(()) => write_all(sink, bytes),
    }
}

/// Gathers bytes: those that are worth a write of their own are written from where they lie.
pub(crate) fn gather_stretch<K: Sink>(
    out: &mut OutputBuffer,
    sink: &mut K,
    bytes: &[u8],
    worth: bool,
) -> Result<(), SinkFault>
    ensures room { out.new.room ≡ out.old.room }
    ensures gathers { Gathers (K.store sink.old)
        (K.store sink.new) out.old.bytes out.new.bytes bytes.now result }
{
    if bytes.is_empty() {
        return Ok(());
    }
    if worth {
        return write_after(out, sink, bytes, true);
    }
    gather(out, sink, bytes)
}

/// Puts a body frame after the pending bytes.
fn push_body(out: &mut OutputBuffer, channel_id: ChannelId, payload: &[u8])
    requires few { length payload.now < 2 ^ 32 }
    requires room { length out.old.bytes + (length payload.now + 8) ≤ out.old.room }
    ensures room { out.new.room ≡ out.old.room }
    ensures pushed { out.new.bytes ≡ out.old.bytes ++ framed body_byte channel_id payload.now }
{
    out.push(&frame_head(FRAME_BODY, channel_id, payload.len() as u32));
    out.push(payload);
    out.push(&[FRAME_END]);
}

/// Writes what is pending and a body frame, its payload from where it lies. Its end is pending.
fn write_body<K: Sink>(
    out: &mut OutputBuffer,
    sink: &mut K,
    channel_id: ChannelId,
    payload: &[u8],
) -> Result<(), SinkFault>
    requires few { length payload.now < 2 ^ 32 }
    requires room { length out.old.bytes + (length payload.now + 8) ≤ out.old.room }
    ensures room { out.new.room ≡ out.old.room }
    ensures gathers { Gathers (K.store sink.old) (K.store sink.new) out.old.bytes out.new.bytes
        (framed body_byte channel_id payload.now) result }
    ensures compact { length out.new.bytes ≤ length out.old.bytes + (length payload.now + 8) }
{
    out.push(&frame_head(FRAME_BODY, channel_id, payload.len() as u32));
    match flush(out, sink) {
        Err(fault) => Err(fault),
        Ok(()) => match write_all(sink, payload) {
            Err(fault) => Err(fault),
            Ok(()) => {
                out.push(&[FRAME_END]);
                Ok(())
            }
        },
    }
}

/// A failed write, as an error of a stream.
fn as_stream(written: Result<(), SinkFault>) -> Result<(), StreamError>
    ensures { result ≡ stream_result written }
{
    match written {
        Ok(()) => Ok(()),
        Err(_) => Err(StreamError::WriteFault),
    }
}

/// Writes what is pending, and returns the error that a run ends with: this one, where it could be written.
pub(crate) fn stop<K: Sink, R: Drop>(
    out: &mut OutputBuffer,
    sink: &mut K,
    error: RunError<R>,
) -> RunError<R>
    ensures room { out.new.room ≡ out.old.room }
    ensures ends { EndsWith (K.store sink.old) (K.store sink.new) out.old.bytes error (Err result) }
{
    match flush(out, sink) {
        Ok(()) => error,
        Err(_) => RunError::Stream(StreamError::WriteFault),
    }
}

/// The same of what is pending, and then these bytes.
pub(crate) fn stop_after<K: Sink, R: Drop>(
    out: &mut OutputBuffer,
    sink: &mut K,
    bytes: &[u8],
    worth: bool,
    error: RunError<R>,
) -> RunError<R>
    ensures room { out.new.room ≡ out.old.room }
    ensures ends { EndsWith (K.store sink.old) (K.store sink.new)
        (out.old.bytes ++ bytes.now) error (Err result) }
{
    match write_after(out, sink, bytes, worth) {
        Ok(()) => error,
        Err(_) => RunError::Stream(StreamError::WriteFault),
    }
}

/// The error of a whole payload, as an error of a stream.
pub fn payload_error(error: ParserError) -> StreamError
    requires { IsPayloadError error }
    ensures { result ≡ payload_fault error }
{
    match error {
        ParserError::ShortPayload => StreamError::ShortPayload,
        ParserError::TrailingBytes => StreamError::TrailingBytes,
        ParserError::UnknownClass => StreamError::UnknownClass,
        ParserError::UnknownMethod => StreamError::UnknownMethod,
        ParserError::NotUtf8 => StreamError::NotUtf8,
        ParserError::UnknownTag => StreamError::UnknownTag,
        ParserError::TooDeep => StreamError::TooDeep,
        ParserError::NoMemory => StreamError::NoMemory,
        ParserError::Incomplete
        | ParserError::UnknownFrameType
        | ParserError::BadProtocolHeader
        | ParserError::BadFrameEnd => unreachable!(),
    }
}

/// Puts the canonical bytes of a method or content header after the pending ones.
#[tactic(auto, using(crate::proofs::Writes::added_refused, crate::proofs::Writes::added))]
#[inline(always)]
fn write_typed(out: &mut OutputBuffer, raw: AMQPRawFrame<'_>) -> Result<(), StreamError>
    requires typed { IsTyped raw.frame_type }
    requires few { length raw.payload.now < 2 ^ 32 }
    requires room { length out.old.bytes + (length raw.payload.now + 8) ≤ out.old.room }
    ensures room { out.new.room ≡ out.old.room }
    ensures writes { (store : Store)
        → WritesFrame (raw_of raw.entry) store store out.old.bytes out.new.bytes result }
    ensures compact { length out.new.bytes
        ≤ length out.old.bytes + (length raw.entry.payload.now + 8) }
{
    match out.push_raw(raw) {
        Err(error) => Err(payload_error(error)),
        Ok(()) => Ok(()),
    }
}

/// Gathers the canonical bytes of a borrowed frame. A large body is written from where it lies.
#[tactic(auto, unfolding(amqp_wire::specs::Verdicts::decode_payload, amqp_wire::specs::Canonical::canon))]
#[inline(always)]
pub fn write_canonical<K: Sink>(
    out: &mut OutputBuffer,
    sink: &mut K,
    raw: AMQPRawFrame<'_>,
) -> Result<(), StreamError>
    requires few { length raw.payload.now < 2 ^ 32 }
    requires room { length out.old.bytes + frame_length (raw_of raw) ≤ out.old.room }
    ensures room { out.new.room ≡ out.old.room }
    ensures writes { WritesFrame (raw_of raw.entry) (K.store sink.old)
        (K.store sink.new) out.old.bytes out.new.bytes result }

    // No more bytes are pending than the frame had.
    ensures compact { length out.new.bytes
        ≤ length out.old.bytes + frame_length (raw_of raw.entry) }
{
    match raw.frame_type {
        AMQPFrameType::ProtocolHeader => match ProtocolVersion::from_payload(raw.payload) {
            Ok(version) => {
                out.push(&header_bytes(version));
                Ok(())
            }
            Err(error) => Err(payload_error(error)),
        },
        AMQPFrameType::Method => write_typed(out, raw),
        AMQPFrameType::Header => write_typed(out, raw),
        AMQPFrameType::Body if raw.payload.len() <= SMALL_BODY => {
            push_body(out, raw.channel_id, raw.payload);
            Ok(())
        }
        AMQPFrameType::Body => as_stream(write_body(out, sink, raw.channel_id, raw.payload)),
        AMQPFrameType::Heartbeat => {
            out.push(&heartbeat_bytes(raw.channel_id));
            Ok(())
        }
    }
}
