//! Outlines of frames: kind, channel, ids and sizes, read without the other fields and without memory.

ghost use Rattle.std.specs.Prelude.{◌≡◌, ◌≤◌, ◌↔◌, Some, length, IsOk, IsSome, IsTrue};
ghost use Rattle.amqp_types.specs.Tidiness.{short_at};
ghost use Rattle.amqp_wire.specs.Frames.{Frame, raw_of};
ghost use Rattle.amqp_wire.specs.Outlines.{IsEnough, long_long_at, outline_at};
ghost use Rattle.amqp_wire.specs.Outlines.{outline_channel, outline_front, outline_of};
ghost use Rattle.amqp_wire.specs.Verdicts.{decode_raw, decode_payload};

use crate::frame_type::AMQPFrameType;
use crate::raw_frame::AMQPRawFrame;
use amqp_types::{ChannelId, Identifier, PayloadSize};

/// The kind, channel, ids and sizes of a frame, without its fields.
#[derive(Clone, Copy, Debug, PartialEq, Eq)]
pub enum FrameOutline {
    /// The eight bytes with which a connection begins.
    ProtocolHeader,

    /// A method by its class and its id in the class.
    Method {
        channel_id: ChannelId,
        class_id: Identifier,
        method_id: Identifier,
    },

    /// A content header, and the size in bytes of the whole body that it announces.
    Header {
        channel_id: ChannelId,
        class_id: Identifier,
        body_size: PayloadSize,
    },

    /// A piece of a message's body, of so many bytes.
    Body {
        channel_id: ChannelId,
        length: PayloadSize,
    },

    /// A heartbeat, also one on a channel where none belongs.
    Heartbeat {
        channel_id: ChannelId,
    },
}

impl FrameOutline {
    /// The channel, 0 for a protocol header.
    pub fn channel_id(&self) -> ChannelId
        ensures { result ≡ outline_channel self.now }
    {
        match self {
            FrameOutline::ProtocolHeader => 0,
            FrameOutline::Method { channel_id, .. } => *channel_id,
            FrameOutline::Header { channel_id, .. } => *channel_id,
            FrameOutline::Body { channel_id, .. } => *channel_id,
            FrameOutline::Heartbeat { channel_id } => *channel_id,
        }
    }
}

/// The outline of a method, by the front of its payload.
fn method_outline(channel_id: ChannelId, payload: &[u8]) -> FrameOutline
    requires { 4 ≤ length payload.now }
    ensures { result
        ≡ FrameOutline.Method channel_id (short_at 0 payload.now) (short_at 2 payload.now) }
{
    FrameOutline::Method {
        channel_id,
        class_id: u16::from_be_bytes([payload[0], payload[1]]),
        method_id: u16::from_be_bytes([payload[2], payload[3]]),
    }
}

/// The outline of a content header, by the front of its payload. The weight is skipped.
fn header_outline(channel_id: ChannelId, payload: &[u8]) -> FrameOutline
    requires { 12 ≤ length payload.now }
    ensures { result
        ≡ FrameOutline.Header channel_id (short_at 0 payload.now) (long_long_at 4 payload.now) }
{
    FrameOutline::Header {
        channel_id,
        class_id: u16::from_be_bytes([payload[0], payload[1]]),
        body_size: u64::from_be_bytes([
            payload[4],
            payload[5],
            payload[6],
            payload[7],
            payload[8],
            payload[9],
            payload[10],
            payload[11],
        ]),
    }
}

/// The outline of a frame of this type, by the front of its payload.
fn outline_at(frame_type: AMQPFrameType, channel_id: ChannelId, payload: &[u8]) -> FrameOutline
    requires { IsEnough frame_type payload.now }
    ensures { result ≡ outline_at frame_type channel_id payload.now }
{
    match frame_type {
        AMQPFrameType::ProtocolHeader => FrameOutline::ProtocolHeader,
        AMQPFrameType::Method => method_outline(channel_id, payload),
        AMQPFrameType::Header => header_outline(channel_id, payload),
        AMQPFrameType::Body => FrameOutline::Body {
            channel_id,
            length: payload.len() as u64,
        },
        AMQPFrameType::Heartbeat => FrameOutline::Heartbeat { channel_id },
    }
}

/// Whether the ids and sizes of a frame of this type are there.
fn is_enough(frame_type: AMQPFrameType, payload: &[u8]) -> bool
    ensures { IsTrue result ↔ IsEnough frame_type payload.now }
{
    match frame_type {
        AMQPFrameType::Method => payload.len() >= 4,
        AMQPFrameType::Header => payload.len() >= 12,
        _ => true,
    }
}

/// The outline of a frame of this type, where its ids and sizes are there.
fn outline_if_enough(
    frame_type: AMQPFrameType,
    channel_id: ChannelId,
    payload: &[u8],
) -> Option<FrameOutline>
    ensures whole { (frame : Frame) → decode_payload frame_type channel_id payload.now ≡ Ok frame
        → result ≡ Some (outline_of frame) }
    ensures enough { IsEnough frame_type payload.now
        → result ≡ Some (outline_at frame_type channel_id payload.now) }
    ensures none { IsSome result → IsEnough frame_type payload.now }
{
    if is_enough(frame_type, payload) {
        Some(outline_at(frame_type, channel_id, payload))
    } else {
        None
    }
}

/// The outline that the ids and sizes at the front of a payload give, and `None` where they are not there. Of a whole
/// payload it is the outline of the frame.
pub fn outline_front(raw: AMQPRawFrame<'_>) -> Option<FrameOutline>
    ensures whole { (frame : Frame) → decode_raw (raw_of raw.entry) ≡ Ok frame
        → result ≡ Some (outline_of frame) }
    ensures enough { IsEnough raw.entry.frame_type raw.entry.payload.now
        → result
        ≡ Some (outline_at raw.entry.frame_type raw.entry.channel_id raw.entry.payload.now) }
    ensures none { IsSome result → IsEnough raw.entry.frame_type raw.entry.payload.now }
{
    outline_if_enough(raw.frame_type, raw.channel_id, raw.payload)
}

/// The outline of the frame that a whole payload of this type encodes.
fn outline_whole(frame_type: AMQPFrameType, channel_id: ChannelId, payload: &[u8]) -> FrameOutline
    requires { IsOk (decode_payload frame_type channel_id payload.now) }
    ensures frame { (frame : Frame) → decode_payload frame_type channel_id payload.now ≡ Ok frame
        → result ≡ outline_of frame }
    ensures front { result ≡ outline_at frame_type channel_id payload.now }
{
    outline_at(frame_type, channel_id, payload)
}

/// The outline of the frame that a whole payload encodes. Only ids and sizes are read of the payload, and no memory is
/// taken.
pub fn outline_raw(raw: AMQPRawFrame<'_>) -> FrameOutline
    requires whole { IsOk (decode_raw (raw_of raw)) }
    ensures frame { (frame : Frame) → decode_raw (raw_of raw.entry) ≡ Ok frame
        → result ≡ outline_of frame }
    ensures front { result ≡ outline_front (raw_of raw.entry) }
{
    outline_whole(raw.frame_type, raw.channel_id, raw.payload)
}
