//! Decoding whole payloads without memory: whether they are frames, and at which levels these are encoded.

ghost use Rattle.std.specs.Prelude.{length};
ghost use Rattle.amqp_types.specs.Judging.{Judge};
ghost use Rattle.amqp_types.specs.Methods.{judge_payload, payload_bytes};
ghost use Rattle.amqp_types.specs.ContentHeaders.{judge_content_header, content_header_bytes};
ghost use Rattle.amqp_types.specs.Tidiness.{is_tidy_payload, is_tidy_content_header};
ghost use Rattle.amqp_wire.specs.Frames.{raw_of};
ghost use Rattle.amqp_wire.specs.Judgements.{JudgesAll, JudgesFrame};

use crate::frame_type::AMQPFrameType;
use crate::raw_frame::AMQPRawFrame;
use crate::version::ProtocolVersion;
use amqp_canonical::{judge_content_header, judge_payload};
use amqp_types::{ChannelId, ParserError};

/// At which levels the bytes of a whole frame encode it.
#[derive(Clone, Copy, Debug, PartialEq, Eq)]
pub struct FrameJudgement {
    /// Whether these bytes are its canonical bytes.
    pub canonical: bool,

    /// Whether these bytes are tidy: reserved fields, the weight and unused bits stand at their constants, and a
    /// heartbeat is empty.
    pub tidy: bool,
}

/// Decodes the method that fills a payload.
#[inline(always)]
fn judge_method(payload: &[u8]) -> Result<FrameJudgement, ParserError>
    ensures { JudgesAll judge_payload payload_bytes is_tidy_payload payload.now result }
{
    match judge_payload(payload) {
        Err(error) => Err(error.inside()),
        Ok(found) if found.used < payload.len() => Err(ParserError::TrailingBytes),
        Ok(found) => Ok(FrameJudgement {
            canonical: found.canonical,
            tidy: found.tidy,
        }),
    }
}

/// Decodes the content header that fills a payload.
fn judge_header(payload: &[u8]) -> Result<FrameJudgement, ParserError>
    ensures { JudgesAll judge_content_header content_header_bytes
        is_tidy_content_header payload.now result }
{
    match judge_content_header(payload) {
        Err(error) => Err(error.inside()),
        Ok(found) if found.used < payload.len() => Err(ParserError::TrailingBytes),
        Ok(found) => Ok(FrameJudgement {
            canonical: found.canonical,
            tidy: found.tidy,
        }),
    }
}

/// Decodes a whole payload of this type.
#[inline(always)]
fn judge_as(
    frame_type: AMQPFrameType,
    channel_id: ChannelId,
    payload: &[u8],
) -> Result<FrameJudgement, ParserError>
    ensures { JudgesFrame
        (record { kind = frame_type; channel = channel_id; payload = payload.now }) result }
{
    match frame_type {
        AMQPFrameType::ProtocolHeader => match ProtocolVersion::from_payload(payload) {
            Err(error) => Err(error),
            Ok(_) => Ok(FrameJudgement {
                canonical: true,
                tidy: true,
            }),
        },
        AMQPFrameType::Method => judge_method(payload),
        AMQPFrameType::Header => judge_header(payload),
        AMQPFrameType::Body => Ok(FrameJudgement {
            canonical: true,
            tidy: true,
        }),
        AMQPFrameType::Heartbeat => {
            let empty = payload.is_empty();
            Ok(FrameJudgement {
                canonical: empty,
                tidy: empty,
            })
        }
    }
}

/// Says at which levels a whole payload encodes a frame, or has a fault as `parse_payload` has. No memory is taken.
#[inline(always)]
pub fn judge_frame(raw: AMQPRawFrame<'_>) -> Result<FrameJudgement, ParserError>
    ensures { JudgesFrame (raw_of raw.entry) result }
{
    judge_as(raw.frame_type, raw.channel_id, raw.payload)
}
