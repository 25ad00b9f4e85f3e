//! Writing typed frames: the number of their canonical bytes, these bytes at a place of a slice, and appended to a vector.
//! What writes frames around payloads is passed on.

ghost use Rattle.std.specs.Prelude.{◌≡◌, ◌+◌, ◌^◌, ◌<◌, ◌≤◌, length, IsOk};
ghost use Rattle.amqp_types.specs.Writing.{Puts, Appends};
ghost use Rattle.amqp_types.specs.Methods.{payload_bytes, payload_size};
ghost use Rattle.amqp_types.specs.ContentHeaders.{content_header_bytes, content_header_size};
ghost use Rattle.amqp_types.specs.Constants.{header_byte, method_byte};
ghost use Rattle.amqp_protocol.specs.Classes.{method_of};
ghost use Rattle.amqp_wire.specs.Canonical.{canon, size_of, framed_size, SliceAnswers};
ghost use Rattle.amqp_wire.specs.Spelling.{framed};
ghost use Rattle.amqp_frame.specs.Frames.{frame_of, header_of};

use crate::frame::AMQPFrame;
use amqp_properties::{AMQPContentHeader, put_content_header, size_content_header};
use amqp_protocol::{AMQPClass, put_class, size_class};
use amqp_types::{ChannelId, FRAME_BODY, FRAME_HEADER, FRAME_METHOD, GenError, grow, put_bytes};
pub use amqp_wire::generation::{
    frame_head, header_bytes, heartbeat_bytes, put_around, put_framed,
};
use std::alloc::Global;

/// The number of bytes of a frame, by that of its payload.
fn size_framed(payload: Result<u64, GenError>) -> Result<u64, GenError>
    ensures { result ≡ framed_size payload }
{
    match payload {
        Err(refusal) => Err(refusal),
        Ok(size) if size > u32::MAX as u64 => Err(GenError::TooLong),
        Ok(size) => Ok(size + 8),
    }
}

/// The number of canonical bytes. Nothing but `TooDeep` or `TooLong` is returned as an error.
#[tactic(auto, using(amqp_wire::proofs::Sizes::framed_length), unfolding(amqp_wire::specs::Canonical::size_of, amqp_wire::specs::Canonical::canon))]
pub fn frame_size(frame: &AMQPFrame) -> Result<u64, GenError>
    ensures { result ≡ size_of (frame_of frame.now) }
{
    match frame {
        AMQPFrame::ProtocolHeader(_) => Ok(8),
        AMQPFrame::Method(_, class) => size_framed(size_class(class)),
        AMQPFrame::Header(_, header) => size_framed(size_content_header(header)),
        AMQPFrame::Body(_, content) => size_framed(Ok(content.len() as u64)),
        AMQPFrame::Heartbeat => Ok(8),
        AMQPFrame::InvalidHeartbeat(_) => Ok(8),
    }
}

/// Puts the frame of a method.
fn put_method(buf: &mut [u8], at: usize, channel_id: ChannelId, class: &AMQPClass) -> usize
    requires fits { IsOk (payload_size (method_of class.now)) }
    requires few { length (payload_bytes (method_of class.now)) < 2 ^ 32 }
    requires room { at
        + length (framed method_byte channel_id (payload_bytes (method_of class.now)))
        ≤ length buf.old }
    ensures { Puts buf.old buf.new at
        (framed method_byte channel_id (payload_bytes (method_of class.now))) result }
{
    let end = put_class(buf, at + 7, class);
    put_around(buf, at, end, FRAME_METHOD, channel_id)
}

/// Puts the frame of a content header.
fn put_header(buf: &mut [u8], at: usize, channel_id: ChannelId, header: &AMQPContentHeader) -> usize
    requires fits { IsOk (content_header_size (header_of header.now)) }
    requires few { length (content_header_bytes (header_of header.now)) < 2 ^ 32 }
    requires room { at
        + length (framed header_byte channel_id (content_header_bytes (header_of header.now)))
        ≤ length buf.old }
    ensures { Puts buf.old buf.new at
        (framed header_byte channel_id (content_header_bytes (header_of header.now))) result }
{
    let end = put_content_header(buf, at + 7, header);
    put_around(buf, at, end, FRAME_HEADER, channel_id)
}

/// Puts the canonical bytes at a place of a slice, and returns the place after them.
#[tactic(auto, unfolding(amqp_wire::specs::Canonical::canon))]
pub fn put_frame(buf: &mut [u8], at: usize, frame: &AMQPFrame) -> usize
    requires fits { IsOk (size_of (frame_of frame.now)) }
    requires room { at + length (canon (frame_of frame.now)) ≤ length buf.old }
    ensures { Puts buf.old buf.new at (canon (frame_of frame.now)) result }
{
    match frame {
        AMQPFrame::ProtocolHeader(version) => put_bytes(buf, at, &header_bytes(*version)),
        AMQPFrame::Method(channel_id, class) => put_method(buf, at, *channel_id, class),
        AMQPFrame::Header(channel_id, header) => put_header(buf, at, *channel_id, header),
        AMQPFrame::Body(channel_id, content) => {
            put_framed(buf, at, FRAME_BODY, *channel_id, content.as_slice())
        }
        AMQPFrame::Heartbeat => put_bytes(buf, at, &heartbeat_bytes(0)),
        AMQPFrame::InvalidHeartbeat(channel_id) => {
            put_bytes(buf, at, &heartbeat_bytes(*channel_id))
        }
    }
}

/// Appends the one canonical encoding of a frame to a vector. Where there is an error, that of measuring the frame or out
/// of memory, the vector stays as it was.
#[tactic(auto, using(amqp_wire::proofs::Sizes::size_is_length))]
pub fn gen_frame(_alloc: Global, out: &mut Vec<u8>, frame: &AMQPFrame) -> Result<(), GenError>
    ensures { Appends out.old.items out.new.items
        (size_of (frame_of frame.now)) (canon (frame_of frame.now)) result }
{
    let size = frame_size(frame)?;
    let at = grow(out, size)?;
    put_frame(out, at, frame);
    Ok(())
}

/// Puts the canonical bytes at the front of a slice, and returns how many they are. Where there is an error the slice
/// stays as it was; a slice that is too short is `BufferTooSmall`.
#[tactic(auto, using(amqp_wire::proofs::Sizes::size_is_length, amqp_wire::proofs::Sizes::slice_refused))]
pub fn gen_frame_slice(buf: &mut [u8], frame: &AMQPFrame) -> Result<usize, GenError>
    ensures { SliceAnswers buf.old buf.new (size_of (frame_of frame.now))
        (canon (frame_of frame.now)) result }
{
    match frame_size(frame) {
        Err(refusal) => Err(refusal),
        Ok(size) if size > buf.len() as u64 => Err(GenError::BufferTooSmall),
        Ok(size) => {
            put_frame(buf, 0, frame);
            Ok(size as usize)
        }
    }
}
