//! The header scan: what stands at the front of some bytes, whatever its payload is.

ghost use Rattle.std.specs.Prelude.{◌≡◌};
ghost use Rattle.amqp_wire.specs.declared.frame_type.AMQPFrameType.TheVariants as kinds;
ghost use Rattle.amqp_wire.specs.Looks.{looked, looked_behind, LiesInside};
ghost use Rattle.amqp_wire.specs.Looks.{IsBehind, IsPlaced, IsPlacedAt};
ghost use Rattle.amqp_wire.specs.HeaderScan.{scan, judge_raw, version_at, begins_as};

use crate::frame_type::AMQPFrameType;
use amqp_types::{
    ChannelId, FRAME_BODY, FRAME_END, FRAME_HEADER, FRAME_HEARTBEAT, FRAME_METHOD, PROTOCOL_BYTE,
};

/// Where the parts of a frame lie, counted from its first byte.
#[derive(Clone, Copy, Debug, PartialEq, Eq)]
pub struct FrameLayout {
    /// What the first byte names.
    pub frame_type: AMQPFrameType,

    /// The channel, 0 for a protocol header.
    pub channel_id: ChannelId,

    /// The place of the payload's first byte: 5 in a protocol header, whose payload is its version, and 7 in any other.
    pub payload_start: usize,

    /// The number of bytes of the payload, 3 in a protocol header.
    pub payload_len: usize,

    /// The number of bytes of the whole frame, with its end byte.
    pub frame_len: usize,
}

/// What a header scan finds at the front of some bytes.
#[derive(Clone, Copy, Debug, PartialEq, Eq)]
pub enum Look {
    /// The bytes end inside a frame, or there are none.
    Incomplete,

    /// The first byte names no frame type.
    UnknownFrameType,

    /// A first byte 65 that does not begin a protocol header.
    BadProtocolHeader,

    /// A payload above the limit.
    TooLarge,

    /// The byte after the payload is not 206.
    BadFrameEnd,

    /// A whole frame.
    Whole(FrameLayout),
}

/// Scans the header of the frame at the front of some bytes, with a limit in bytes on its payload, which is tested as
/// soon as the length is there. A protocol header has no limit.
#[inline(always)]
#[tactic(auto, using(crate::proofs::Looked::looked_behind_one), unfolding(crate::specs::HeaderScan::scan, crate::specs::HeaderScan::behind_type))]
pub fn look_at(max_payload: Option<u32>, bytes: &[u8]) -> Look
    ensures value { scan max_payload bytes.now ≡ looked result bytes.now }
    ensures inside { LiesInside result bytes.now }
    ensures placed { IsPlaced result }
{
    match bytes {
        [] => Look::Incomplete,
        [PROTOCOL_BYTE, rest @ ..] => look_version(rest),
        [FRAME_METHOD, rest @ ..] => look_raw(max_payload, AMQPFrameType::Method, rest),
        [FRAME_HEADER, rest @ ..] => look_raw(max_payload, AMQPFrameType::Header, rest),
        [FRAME_BODY, rest @ ..] => look_raw(max_payload, AMQPFrameType::Body, rest),
        [FRAME_HEARTBEAT, rest @ ..] => look_raw(max_payload, AMQPFrameType::Heartbeat, rest),
        [_, ..] => Look::UnknownFrameType,
    }
}

/// Whether the bytes begin as expected, as far as both go.
pub(crate) fn agrees(bytes: &[u8], wanted: &[u8]) -> bool
    ensures { result ≡ begins_as bytes.now wanted.now }
{
    match bytes {
        [] => true,
        [byte, bytes @ ..] => match wanted {
            [] => true,
            [want, wanted @ ..] => *byte == *want && agrees(bytes, wanted),
        },
    }
}

/// Scans a protocol header after its first byte.
#[tactic(auto, using(crate::proofs::Looked::version_payload), unfolding(crate::specs::HeaderScan::judge_version))]
fn look_version(rest: &[u8]) -> Look
    ensures value { version_at rest.now ≡ looked_behind result rest.now }
    ensures inside { IsBehind result rest.now }
    ensures placed { IsPlacedAt kinds.ProtocolHeader 5 result }
{
    if !agrees(rest, b"MQP\0") {
        return Look::BadProtocolHeader;
    }
    if rest.len() < 7 {
        return Look::Incomplete;
    }
    Look::Whole(FrameLayout {
        frame_type: AMQPFrameType::ProtocolHeader,
        channel_id: 0,
        payload_start: 5,
        payload_len: 3,
        frame_len: 8,
    })
}

/// Scans any other frame after its type byte.
#[tactic(auto, unfolding(crate::specs::HeaderScan::judge_raw, crate::specs::HeaderScan::ended_payload))]
pub(crate) fn look_raw(max_payload: Option<u32>, frame_type: AMQPFrameType, rest: &[u8]) -> Look
    ensures value { judge_raw max_payload frame_type rest.now ≡ looked_behind result rest.now }
    ensures inside { IsBehind result rest.now }
    ensures placed { IsPlacedAt frame_type 7 result }
{
    if rest.len() < 6 {
        return Look::Incomplete;
    }
    let channel_id = u16::from_be_bytes([rest[0], rest[1]]);
    let payload_len = u32::from_be_bytes([rest[2], rest[3], rest[4], rest[5]]);
    if let Some(max_payload) = max_payload
        && payload_len > max_payload
    {
        return Look::TooLarge;
    }
    let payload_len = payload_len as usize;
    if rest.len() - 6 <= payload_len {
        return Look::Incomplete;
    }
    if rest[6 + payload_len] != FRAME_END {
        return Look::BadFrameEnd;
    }
    Look::Whole(FrameLayout {
        frame_type,
        channel_id,
        payload_start: 7,
        payload_len,
        frame_len: payload_len + 8,
    })
}
