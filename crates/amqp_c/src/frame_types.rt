//! Frame types as the bytes that name them.

ghost use Rattle.std.specs.Prelude.{◌≡◌};
ghost use Rattle.amqp_wire.specs.HeaderScan.{type_of};
ghost use Rattle.amqp_wire.specs.Spelling.{byte_of};

use amqp_types::{FRAME_BODY, FRAME_HEADER, FRAME_HEARTBEAT, FRAME_METHOD};
use amqp_wire::{AMQPFrameType, PROTOCOL_BYTE};

/// The first byte of a frame of this type.
pub(crate) fn byte_of_type(frame_type: AMQPFrameType) -> u8
    ensures { result ≡ byte_of frame_type }
{
    match frame_type {
        AMQPFrameType::ProtocolHeader => PROTOCOL_BYTE,
        AMQPFrameType::Method => FRAME_METHOD,
        AMQPFrameType::Header => FRAME_HEADER,
        AMQPFrameType::Body => FRAME_BODY,
        AMQPFrameType::Heartbeat => FRAME_HEARTBEAT,
    }
}

/// The type that a frame's first byte names.
pub(crate) fn type_of_byte(byte: u8) -> Option<AMQPFrameType>
    ensures { result ≡ type_of byte }
{
    match byte {
        PROTOCOL_BYTE => Some(AMQPFrameType::ProtocolHeader),
        FRAME_METHOD => Some(AMQPFrameType::Method),
        FRAME_HEADER => Some(AMQPFrameType::Header),
        FRAME_BODY => Some(AMQPFrameType::Body),
        FRAME_HEARTBEAT => Some(AMQPFrameType::Heartbeat),
        _ => None,
    }
}
