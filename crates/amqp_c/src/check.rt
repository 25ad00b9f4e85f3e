//! Whole payloads: whether they are frames, and the ids and sizes that stand in them.

ghost use Rattle.std.specs.Prelude.{◌≡◌, ℕ};
ghost use Rattle.amqp_c.specs.Checks.{raw_after, standing, summary_of, summary_or, summed, SumsUp};
ghost use Rattle.amqp_wire.specs.Frames.{raw_of};

use crate::frame_types::type_of_byte;
use amqp_fields::count_fields;
use amqp_stream::{StreamError, payload_error};
use amqp_types::{Identifier, PayloadSize};
use amqp_wire::{AMQPRawFrame, FrameJudgement, FrameOutline, judge_frame, outline_raw};

/// What stands in a whole payload. Where it is no frame, all but the status is 0. In C it has 16 bytes and no padding.
#[repr(C)]
#[derive(Clone, Copy, Debug, PartialEq, Eq)]
pub struct PayloadSummary {
    /// The size of the whole body that a content header announces, in bytes.
    pub body_size: u64,

    /// The class of a method or content header.
    pub class_id: u16,

    /// The method's id in its class.
    pub method_id: u16,

    /// Whether the payload is the canonical one.
    pub canonical: bool,

    /// Whether the payload is tidy.
    pub tidy: bool,

    /// 0 where the payload is a frame, or the fault's status.
    pub status: u8,

    /// How many fields the frame has: of a method those that are not reserved, each flag one; the properties that are
    /// set; 3 of a protocol header.
    pub fields: u8,
}

/// Sums up a frame by what stands in it.
fn summary(
    judged: FrameJudgement,
    class_id: Identifier,
    method_id: Identifier,
    body_size: PayloadSize,
) -> PayloadSummary
    ensures { result ≡ standing judged.canonical judged.tidy class_id method_id body_size }
{
    PayloadSummary {
        body_size,
        class_id,
        method_id,
        canonical: judged.canonical,
        tidy: judged.tidy,
        status: 0,
        fields: 0,
    }
}

/// Sums up a frame by its outline, without the number of its fields.
pub(crate) fn sum_up(judged: FrameJudgement, outline: FrameOutline) -> PayloadSummary
    ensures { result ≡ summed judged.canonical judged.tidy outline }
{
    match outline {
        FrameOutline::Method {
            class_id,
            method_id,
            ..
        } => summary(judged, class_id, method_id, 0),
        FrameOutline::Header {
            class_id,
            body_size,
            ..
        } => summary(judged, class_id, 0, body_size),
        FrameOutline::ProtocolHeader | FrameOutline::Body { .. } | FrameOutline::Heartbeat { .. } =>
            summary(judged, 0, 0, 0),
    }
}

/// Sums up a whole payload, or says why it is no frame.
fn check_raw(raw: AMQPRawFrame<'_>) -> Result<PayloadSummary, StreamError>
    ensures { SumsUp (raw_of raw.entry) result }
{
    match judge_frame(raw) {
        Err(error) => Err(payload_error(error)),
        Ok(judged) => {
            let outline = outline_raw(raw);
            Ok(PayloadSummary {
                fields: count_fields(outline, raw.payload),
                ..sum_up(judged, outline)
            })
        }
    }
}

/// The same of a whole payload after this type byte.
fn check(frame_type: u8, payload: &[u8]) -> Result<PayloadSummary, StreamError>
    ensures { (channel : ℕ)
        → summary_or result ≡ summary_of (raw_after frame_type channel payload.now) }
{
    let Some(frame_type) = type_of_byte(frame_type) else {
        return Err(StreamError::UnknownFrameType);
    };
    if payload.len() > u32::MAX as usize {
        return Err(StreamError::TooLarge);
    }
    check_raw(AMQPRawFrame {
        frame_type,
        channel_id: 0,
        payload,
    })
}

/// Whether a whole payload is a frame of the type that this byte names, and what stands in it. That is the same on each
/// channel.
#[unsafe(no_mangle)]
pub extern "C" fn feksroum_check(frame_type: u8, payload: &[u8]) -> PayloadSummary
    ensures { (channel : ℕ) → result ≡ summary_of (raw_after frame_type channel payload.now) }
{
    match check(frame_type, payload) {
        Ok(summary) => summary,
        Err(error) => PayloadSummary {
            body_size: 0,
            class_id: 0,
            method_id: 0,
            canonical: false,
            tidy: false,
            status: error.status(),
            fields: 0,
        },
    }
}
