//! Putting the canonical bytes of a borrowed frame, without memory. Most frames come in them, and are copied.

ghost use Rattle.std.specs.Prelude.{◌≡◌, ◌≢◌, ◌+◌, ◌^◌, ◌<◌, ◌≤◌, ℕ};
ghost use Rattle.std.specs.Prelude.{List, Ok, Err, length, IfOk, IfErr};
ghost use Rattle.amqp_types.specs.Methods.{judge_payload};
ghost use Rattle.amqp_types.specs.ContentHeaders.{judge_content_header};
ghost use Rattle.amqp_types.specs.Writing.{Puts};
ghost use Rattle.amqp_canonical.specs.Payloads.{canonical_header, canonical_method};
ghost use Rattle.amqp_canonical.specs.Writes.{IsRead};
ghost use Rattle.amqp_wire.specs.Frames.{raw_of, length_around};
ghost use Rattle.amqp_wire.specs.Judgements.{JudgesFrame};
ghost use Rattle.amqp_wire.specs.Rewrites.{Rewrites};
ghost use Rattle.amqp_wire.specs.Spelling.{framed};
ghost use Rattle.amqp_wire.specs.Verdicts.{IsPayloadError, decode_raw, decode_payload};
ghost use Rattle.amqp_types.specs.Constants.{header_byte, method_byte};

use crate::frame_type::AMQPFrameType;
use crate::generation::{heartbeat_bytes, put_around, put_framed};
use crate::judging::{FrameJudgement, judge_frame};
use crate::raw_frame::AMQPRawFrame;
use amqp_canonical::{EntryMark, put_content_header, put_payload};
use amqp_types::{ChannelId, FRAME_BODY, FRAME_HEADER, FRAME_METHOD, ParserError, put_bytes};

/// Puts the canonical bytes of a method's frame.
fn put_method(
    buf: &mut [u8],
    at: usize,
    scratch: &mut [EntryMark],
    channel_id: ChannelId,
    payload: &[u8],
) -> usize
    requires read { IsRead (judge_payload payload.now) }
    requires few { length payload.now < 2 ^ 32 }
    requires room { at + length payload.now + 8 ≤ length buf.old }
    ensures { Puts buf.old buf.new at
        (framed method_byte channel_id (canonical_method payload.now)) result }
{
    let end = put_payload(buf, at + 7, scratch, payload);
    put_around(buf, at, end, FRAME_METHOD, channel_id)
}

/// Puts the canonical bytes of a content header's frame.
fn put_header(
    buf: &mut [u8],
    at: usize,
    scratch: &mut [EntryMark],
    channel_id: ChannelId,
    payload: &[u8],
) -> usize
    requires read { IsRead (judge_content_header payload.now) }
    requires few { length payload.now < 2 ^ 32 }
    requires room { at + length payload.now + 8 ≤ length buf.old }
    ensures { Puts buf.old buf.new at
        (framed header_byte channel_id (canonical_header payload.now)) result }
{
    let end = put_content_header(buf, at + 7, scratch, payload);
    put_around(buf, at, end, FRAME_HEADER, channel_id)
}

/// Puts the canonical bytes of the frame that a whole payload of this type encodes, as `put_canonical` does, where it is
/// judged already.
#[inline(always)]
pub fn put_judged(
    buf: &mut [u8],
    at: usize,
    scratch: &mut [EntryMark],
    frame_type: AMQPFrameType,
    channel_id: ChannelId,
    payload: &[u8],
    judged: FrameJudgement,
) -> usize
    requires whole { JudgesFrame
        (record { kind = frame_type; channel = channel_id; payload = payload.now }) (Ok judged) }
    requires few { length payload.now < 2 ^ 32 }
    requires room { at + length_around frame_type (length payload.now) ≤ length buf.old }
    ensures puts { Rewrites buf.old buf.new at
        (decode_payload frame_type channel_id payload.now) (Ok result) }

    // No more bytes are put than the frame has.
    ensures within { result ≤ at + length_around frame_type (length payload.now) }
{
    match frame_type {
        AMQPFrameType::ProtocolHeader => {
            let at = put_bytes(buf, at, b"AMQP\0");
            put_bytes(buf, at, payload)
        }
        AMQPFrameType::Method if judged.canonical => {
            put_framed(buf, at, FRAME_METHOD, channel_id, payload)
        }
        AMQPFrameType::Method => put_method(buf, at, scratch, channel_id, payload),
        AMQPFrameType::Header if judged.canonical => {
            put_framed(buf, at, FRAME_HEADER, channel_id, payload)
        }
        AMQPFrameType::Header => put_header(buf, at, scratch, channel_id, payload),
        AMQPFrameType::Body => put_framed(buf, at, FRAME_BODY, channel_id, payload),
        AMQPFrameType::Heartbeat => put_bytes(buf, at, &heartbeat_bytes(channel_id)),
    }
}

/// Puts the canonical bytes of the frame that a whole payload encodes at a place of a slice, and returns the place
/// after them. No memory is taken: entries of tables that are not in ascending key order are sorted in the scratch. A
/// payload of n bytes has at most n / 2 of them, and takes quadratic time where there are fewer marks.
#[inline(always)]
pub fn put_canonical(
    buf: &mut [u8],
    at: usize,
    scratch: &mut [EntryMark],
    raw: AMQPRawFrame<'_>,
) -> Result<usize, ParserError>
    requires few { length raw.payload.now < 2 ^ 32 }
    requires room { at + length raw.payload.now + 8 ≤ length buf.old }
    ensures whole { Rewrites buf.old buf.new at (decode_raw (raw_of raw.entry)) result }

    ensures within { IfOk result (λ end. end ≤ at + length raw.entry.payload.now + 8) }
    ensures inside { IfErr result IsPayloadError }
    ensures memory { result ≢ Err ParserError.NoMemory }
{
    let judged = judge_frame(raw)?;
    let (frame_type, channel_id, payload) = (raw.frame_type, raw.channel_id, raw.payload);
    Ok(put_judged(buf, at, scratch, frame_type, channel_id, payload, judged))
}
