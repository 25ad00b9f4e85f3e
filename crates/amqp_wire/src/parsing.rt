//! Decoding the parts of frames from the front of a slice: channels, types, versions, and frames whose payloads are borrowed.

ghost use Rattle.std.specs.Prelude.{◌≤◌, ◌<◌, ◌^◌, length, None, IfOk};
ghost use Rattle.amqp_types.specs.Answers.{AnswersFully};
ghost use Rattle.amqp_wire.specs.Channels.{judge_channel};
ghost use Rattle.amqp_wire.specs.Frames.{raw_of};
ghost use Rattle.amqp_wire.specs.HeaderScan.{judge_frame_type, judge_version, judge_raw};

use crate::channel::AMQPChannel;
use crate::frame_type::AMQPFrameType;
use crate::looking::{Look, agrees, look_raw};
use crate::raw_frame::AMQPRawFrame;
use crate::version::ProtocolVersion;
use amqp_types::{
    FRAME_BODY, FRAME_HEADER, FRAME_HEARTBEAT, FRAME_METHOD, PROTOCOL_BYTE, ParserError, parse_id,
};

/// Decodes a channel's number, 2 bytes. Fewer are `Incomplete`.
#[tactic(auto, using(amqp_types::proofs::Judged::refuses_next))]
pub fn parse_channel(i: &[u8]) -> Result<(usize, AMQPChannel), ParserError>
    ensures judged { AnswersFully (λ channel. channel) result (judge_channel i.now) }
    ensures used { IfOk result (λ found. found.0 ≤ length i.now) }
{
    match parse_id(i) {
        Ok((used, id)) => Ok((used, AMQPChannel::from(id))),
        Err(error) => Err(error),
    }
}

/// Decodes the first byte of a frame. No byte is `Incomplete`.
pub fn parse_frame_type(i: &[u8]) -> Result<(usize, AMQPFrameType), ParserError>
    ensures judged { AnswersFully (λ kind. kind) result (judge_frame_type i.now) }
    ensures used { IfOk result (λ found. found.0 ≤ length i.now) }
{
    match i {
        [] => Err(ParserError::Incomplete),
        [PROTOCOL_BYTE, ..] => Ok((1, AMQPFrameType::ProtocolHeader)),
        [FRAME_METHOD, ..] => Ok((1, AMQPFrameType::Method)),
        [FRAME_HEADER, ..] => Ok((1, AMQPFrameType::Header)),
        [FRAME_BODY, ..] => Ok((1, AMQPFrameType::Body)),
        [FRAME_HEARTBEAT, ..] => Ok((1, AMQPFrameType::Heartbeat)),
        [_, ..] => Err(ParserError::UnknownFrameType),
    }
}

/// Decodes the seven bytes of a protocol header that follow its `A`. Any version is decoded.
#[tactic(auto, unfolding(crate::specs::HeaderScan::judge_version))]
pub fn parse_protocol_header(i: &[u8]) -> Result<(usize, ProtocolVersion), ParserError>
    ensures judged { AnswersFully (λ version. version) result (judge_version i.now) }
    ensures used { IfOk result (λ found. found.0 ≤ length i.now) }
{
    if !agrees(i, b"MQP\0") {
        return Err(ParserError::BadProtocolHeader);
    }
    if i.len() < 7 {
        return Err(ParserError::Incomplete);
    }
    let version = ProtocolVersion {
        major: i[4],
        minor: i[5],
        revision: i[6],
    };
    Ok((7, version))
}

/// Decodes what follows a type byte: channel, length, payload and the end byte 206. The payload is borrowed, and not
/// decoded. `ProtocolHeader` is a type like the others here.
#[tactic(auto, using(crate::proofs::HeaderScan::raw_never_large))]
pub fn parse_raw_frame<'a>(
    frame_type: AMQPFrameType,
    i: &'a [u8],
) -> Result<(usize, AMQPRawFrame<'a>), ParserError>
    ensures judged { AnswersFully raw_of result (judge_raw None frame_type i.now) }
    ensures used { IfOk result (λ found. found.0 ≤ length i.now) }
    ensures few { IfOk result (λ found. length found.1.payload.now < 2 ^ 32) }
{
    match look_raw(None, frame_type, i) {
        Look::Incomplete => Err(ParserError::Incomplete),
        Look::UnknownFrameType => Err(ParserError::UnknownFrameType),
        Look::BadProtocolHeader => Err(ParserError::BadProtocolHeader),
        Look::TooLarge => unreachable!(),
        Look::BadFrameEnd => Err(ParserError::BadFrameEnd),
        Look::Whole(layout) => {
            let start = layout.payload_start - 1;
            let raw = AMQPRawFrame {
                frame_type: layout.frame_type,
                channel_id: layout.channel_id,
                payload: &i[start..start + layout.payload_len],
            };
            Ok((layout.frame_len - 1, raw))
        }
    }
}
