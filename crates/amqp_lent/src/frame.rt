//! Frames that are borrowed from payloads that were decoded before.

ghost use Rattle.std.specs.Prelude.{◌≡◌, ◌≤◌, [], length, IfOk, IsOk};
ghost use Rattle.amqp_wire.specs.declared.frame_type.AMQPFrameType.TheVariants as kinds;
ghost use Rattle.amqp_wire.specs.Frames.{raw_of, raw_as};
ghost use Rattle.amqp_wire.specs.Verdicts.{decode_raw, decode_payload};
ghost use Rattle.amqp_lent.specs.Frames.{Lends, payload_of, raw_of as raw_of_lent};

use amqp_canonical::{header_parts, method_parts};
use amqp_types::{ChannelId, Identifier, ParserError, PayloadSize};
use amqp_wire::{AMQPFrameType, AMQPRawFrame, ProtocolVersion, judge_frame};

/// A lent frame: it owns no memory, since its payload is borrowed where it is more than numbers.
#[derive(Clone, Copy, Debug, PartialEq, Eq)]
pub enum LentFrame<'a> {
    /// A protocol header, which has no channel.
    ProtocolHeader(ProtocolVersion),

    /// A method: its class id, its method id, and the bytes of its fields (AMQP 0-9-1, section 4.2.4).
    Method {
        /// The channel of the frame.
        channel: ChannelId,

        /// The id of the class.
        class_id: Identifier,

        /// The id of the method in its class.
        method_id: Identifier,

        /// The bytes of the fields, as they were read: not always the canonical ones.
        slots: &'a [u8],
    },

    /// A content header without its weight (AMQP 0-9-1, section 4.2.6.1).
    Header {
        /// The channel of the frame.
        channel: ChannelId,

        /// The id of the class.
        class_id: Identifier,

        /// The size of the body that follows, in bytes.
        body_size: PayloadSize,

        /// The bytes of the properties from the mask on, as they were read: not always the canonical ones.
        properties: &'a [u8],
    },

    /// A part of a body, with its channel.
    Body(ChannelId, &'a [u8]),

    /// A heartbeat on channel 0.
    Heartbeat,

    /// A heartbeat on a channel where none belongs.
    InvalidHeartbeat(ChannelId),
}

/// The method in a payload.
fn method_in<'a>(channel: ChannelId, payload: &'a [u8]) -> LentFrame<'a>
    requires { 4 ≤ length payload.now }
    ensures { raw_of_lent result ≡ raw_as kinds.Method channel payload.now }
{
    let (class_id, method_id, slots) = method_parts(payload);
    LentFrame::Method {
        channel,
        class_id,
        method_id,
        slots,
    }
}

/// The content header in a payload, without its weight.
fn header_in<'a>(channel: ChannelId, payload: &'a [u8]) -> LentFrame<'a>
    requires { 12 ≤ length payload.now }
    ensures same { decode_raw (raw_of_lent result)
        ≡ decode_payload kinds.Header channel payload.now }
    ensures as_many { length (payload_of result) ≡ length payload.now }
{
    let (class_id, body_size, properties) = header_parts(payload);
    LentFrame::Header {
        channel,
        class_id,
        body_size,
        properties,
    }
}

/// The protocol header with this version.
fn version_in<'a>(payload: &'a [u8]) -> LentFrame<'a>
    requires { length payload.now ≡ 3 }
    ensures { raw_of_lent result ≡ raw_as kinds.ProtocolHeader 0 payload.now }
{
    LentFrame::ProtocolHeader(ProtocolVersion {
        major: payload[0],
        minor: payload[1],
        revision: payload[2],
    })
}

/// The heartbeat on a channel.
fn heartbeat_on<'a>(channel: ChannelId) -> LentFrame<'a>
    ensures { raw_of_lent result ≡ raw_as kinds.Heartbeat channel [] }
{
    if channel == 0 {
        LentFrame::Heartbeat
    } else {
        LentFrame::InvalidHeartbeat(channel)
    }
}

/// Borrows the frame that a payload of this type is, once it was decoded.
fn lent_as<'a>(frame_type: AMQPFrameType, channel: ChannelId, payload: &'a [u8]) -> LentFrame<'a>
    requires whole { IsOk (decode_payload frame_type channel payload.now) }
    ensures same { decode_raw (raw_of_lent result) ≡ decode_payload frame_type channel payload.now }
    ensures within { length (payload_of result) ≤ length payload.now }
{
    match frame_type {
        AMQPFrameType::ProtocolHeader => version_in(payload),
        AMQPFrameType::Method => method_in(channel, payload),
        AMQPFrameType::Header => header_in(channel, payload),
        AMQPFrameType::Body => LentFrame::Body(channel, payload),
        AMQPFrameType::Heartbeat => heartbeat_on(channel),
    }
}

/// Borrows a frame from its whole payload, and refuses it as `parse_payload` does. No memory is taken.
pub fn lent_frame<'a>(frame: AMQPRawFrame<'a>) -> Result<LentFrame<'a>, ParserError>
    ensures judged { Lends result (decode_raw (raw_of frame.entry)) }
    ensures within { IfOk result
        (λ lent. length (payload_of lent) ≤ length frame.entry.payload.now) }
{
    match judge_frame(frame) {
        Ok(_) => Ok(lent_as(frame.frame_type, frame.channel_id, frame.payload)),
        Err(error) => Err(error),
    }
}
