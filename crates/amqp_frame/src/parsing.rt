//! Decoding typed frames from the front of a slice, and from whole payloads. The parts of frames are passed on.

ghost use Rattle.std.specs.Prelude.{◌≡◌, ◌≤◌, ◌<◌, ◌+◌, ◌^◌, length, None, Err, IfOk, IfErr};
ghost use Rattle.amqp_types.specs.Levels.{plain};
ghost use Rattle.amqp_types.specs.Answers.{Answers, AnswersWhole};
ghost use Rattle.amqp_types.specs.ValueLaws.{IsNoLonger as IsSizedWithin};
ghost use Rattle.amqp_types.specs.Methods.{judge_payload};
ghost use Rattle.amqp_types.specs.ContentHeaders.{judge_content_header};
ghost use Rattle.amqp_protocol.specs.Classes.{method_of};
ghost use Rattle.amqp_wire.specs.Canonical.{canon, size_of};
ghost use Rattle.amqp_wire.specs.HeaderScan.{BeginsWith};
ghost use Rattle.amqp_wire.specs.Verdicts.{IsPayloadError, all_of};
ghost use Rattle.amqp_wire.specs.Verdicts.{judge_frame, decode_raw, decode_payload};
ghost use Rattle.amqp_frame.specs.Frames.{frame_of, header_of, raw_of, beat_on, OwnsMemory};

use crate::frame::AMQPFrame;
use amqp_properties::AMQPContentHeader;
pub use amqp_properties::parse_content_header;
use amqp_protocol::{AMQPClass, parse_class};
use amqp_types::{ByteArray, ChannelId, ParserError};
pub use amqp_wire::parsing::{
    parse_channel, parse_frame_type, parse_protocol_header, parse_raw_frame,
};
use amqp_wire::{AMQPFrameType, AMQPRawFrame, Look, ProtocolVersion, look_at};
use std::alloc::Global;

/// A heartbeat on this channel.
fn heartbeat(channel_id: ChannelId) -> AMQPFrame
    ensures { frame_of result ≡ beat_on channel_id }
{
    if channel_id == 0 {
        AMQPFrame::Heartbeat
    } else {
        AMQPFrame::InvalidHeartbeat(channel_id)
    }
}

/// Decodes the method that fills a payload.
#[tactic(auto, using(amqp_wire::proofs::Payloads::refused_all))]
fn parse_method(alloc: Global, payload: &[u8]) -> Result<AMQPClass, ParserError>
    ensures { AnswersWhole method_of result (all_of judge_payload payload.now) }
{
    match parse_class(alloc, payload) {
        Err(error) => Err(error.inside()),
        Ok((used, _)) if used < payload.len() => Err(ParserError::TrailingBytes),
        Ok((_, class)) => Ok(class),
    }
}

/// Decodes the content header that fills a payload.
#[tactic(auto, using(amqp_wire::proofs::Payloads::refused_all))]
fn parse_header(alloc: Global, payload: &[u8]) -> Result<AMQPContentHeader, ParserError>
    ensures { AnswersWhole header_of result (all_of judge_content_header payload.now) }
{
    match parse_content_header(alloc, payload) {
        Err(error) => Err(error.inside()),
        Ok((used, _)) if used < payload.len() => Err(ParserError::TrailingBytes),
        Ok((_, header)) => Ok(header),
    }
}

/// Decodes the frame that a whole payload of this type encodes.
#[tactic(auto, using(amqp_wire::proofs::Payloads::refused_map), unfolding(amqp_wire::specs::Verdicts::decode_payload))]
fn read_as(
    alloc: Global,
    frame_type: AMQPFrameType,
    channel_id: ChannelId,
    payload: &[u8],
) -> Result<AMQPFrame, ParserError>
    ensures whole { AnswersWhole frame_of result
        (decode_payload frame_type channel_id payload.now) }
    ensures memory { result ≡ Err ParserError.NoMemory → OwnsMemory frame_type }
{
    match frame_type {
        AMQPFrameType::ProtocolHeader => match ProtocolVersion::from_payload(payload) {
            Ok(version) => Ok(AMQPFrame::ProtocolHeader(version)),
            Err(error) => Err(error),
        },
        AMQPFrameType::Method => {
            let class = parse_method(alloc, payload)?;
            Ok(AMQPFrame::Method(channel_id, class))
        }
        AMQPFrameType::Header => {
            let header = parse_header(alloc, payload)?;
            Ok(AMQPFrame::Header(channel_id, header))
        }
        AMQPFrameType::Body => {
            let bytes = ByteArray::new(alloc, payload)?;
            Ok(AMQPFrame::Body(channel_id, bytes))
        }
        AMQPFrameType::Heartbeat => Ok(heartbeat(channel_id)),
    }
}

/// Decodes it, and says what follows from the bytes that it was decoded from. Split for the proof.
fn read_whole(
    alloc: Global,
    frame_type: AMQPFrameType,
    channel_id: ChannelId,
    payload: &[u8],
) -> Result<AMQPFrame, ParserError>
    ensures whole { AnswersWhole frame_of result
        (decode_payload frame_type channel_id payload.now) }
    ensures inside { IfErr result IsPayloadError }
    ensures memory { result ≡ Err ParserError.NoMemory → OwnsMemory frame_type }
    ensures within { length payload.now < 2 ^ 32
        → IfOk result (λ frame.
        IsSizedWithin (size_of (frame_of frame))
        (canon (frame_of frame)) (length payload.now + 8)) }
{
    read_as(alloc, frame_type, channel_id, payload)
}

/// Decodes a whole payload. A body is copied; a heartbeat's payload is dropped.
pub fn parse_payload(alloc: Global, raw: AMQPRawFrame<'_>) -> Result<AMQPFrame, ParserError>
    ensures whole { AnswersWhole frame_of result (decode_raw (raw_of raw.entry)) }
    ensures inside { IfErr result IsPayloadError }
    ensures memory { result ≡ Err ParserError.NoMemory → OwnsMemory raw.entry.frame_type }

    // The frame is neither long nor too deep, and is written in no more bytes than it was decoded from.
    ensures within { length raw.entry.payload.now < 2 ^ 32
        → IfOk result (λ frame.
        IsSizedWithin (size_of (frame_of frame))
        (canon (frame_of frame)) (length raw.entry.payload.now + 8)) }
{
    read_whole(alloc, raw.frame_type, raw.channel_id, raw.payload)
}

/// Decodes the frame at the front. Split for the proof.
#[tactic(auto, using(amqp_wire::proofs::Payloads::refused_frame, amqp_wire::proofs::HeaderScan::never_large), unfolding(amqp_wire::specs::Verdicts::judge_frame))]
fn read_frame(alloc: Global, i: &[u8]) -> Result<(usize, AMQPFrame), ParserError>
    ensures judged { Answers frame_of result (judge_frame plain None i.now) }
    ensures used { IfOk result (λ found. found.0 ≤ length i.now) }
    ensures memory { result ≡ Err ParserError.NoMemory → BeginsWith OwnsMemory None i.now }
{
    match look_at(None, i) {
        Look::Incomplete => Err(ParserError::Incomplete),
        Look::UnknownFrameType => Err(ParserError::UnknownFrameType),
        Look::BadProtocolHeader => Err(ParserError::BadProtocolHeader),
        Look::TooLarge => unreachable!(),
        Look::BadFrameEnd => Err(ParserError::BadFrameEnd),
        Look::Whole(layout) => {
            let payload = &i[layout.payload_start..layout.payload_start + layout.payload_len];
            let frame = read_as(alloc, layout.frame_type, layout.channel_id, payload)?;
            Ok((layout.frame_len, frame))
        }
    }
}

/// Decodes one frame at the front, with no limit on its payload: `Ok` has the frame that the bytes there spell, and how
/// many they are, and an error is the first fault from left to right. No bytes are `Incomplete`.
pub fn parse_frame(alloc: Global, i: &[u8]) -> Result<(usize, AMQPFrame), ParserError>
    ensures judged { Answers frame_of result (judge_frame plain None i.now) }
    ensures used { IfOk result (λ found. found.0 ≤ length i.now) }
    ensures memory { result ≡ Err ParserError.NoMemory → BeginsWith OwnsMemory None i.now }

    // The frame is neither long nor too deep, and is written in no more bytes than were used.
    ensures within { IfOk result
        (λ found. IsSizedWithin (size_of (frame_of found.1)) (canon (frame_of found.1)) found.0) }
{
    read_frame(alloc, i)
}
