//! Reading whole frames as heads and nodes.

ghost use Rattle.std.specs.Prelude.{◌≡◌, ◌≤◌, ◌<◌, ◌+◌, ◌^◌, length};
ghost use Rattle.amqp_wire.specs.Frames.{raw_of};
ghost use Rattle.amqp_wire.specs.Looks.{laid_out};
ghost use Rattle.amqp_wire.specs.Spelling.{byte_of};
ghost use Rattle.amqp_fields.specs.Frames.{EndsWith, ReadsFrames, in_reach, least_length};
ghost use Rattle.amqp_fields.specs.Frames.{payload_limit};
ghost use Rattle.amqp_fields.specs.Framing.{FindsFrame, IsNext, Reads, outlined};
ghost use Rattle.amqp_fields.specs.Heads.{form_of};

use crate::decoding::decode;
use crate::head::{CANONICAL, Head, TIDY};
use crate::node::Node;
use amqp_canonical::bytes_from;
use amqp_types::{
    FRAME_BODY, FRAME_HEADER, FRAME_HEARTBEAT, FRAME_METHOD, PROTOCOL_BYTE, ParserError,
};
use amqp_wire::{
    AMQPFrameType, AMQPRawFrame, FrameJudgement, FrameLayout, FrameOutline, Look, look_at,
    outline_raw,
};

/// What comes after the frames that were read.
#[derive(Clone, Copy, Debug, PartialEq, Eq)]
pub enum FramesEnd {
    /// Nothing: all bytes were read.
    Done,

    /// The bytes that are looked at end inside the next frame, or before it.
    Incomplete {
        /// How many bytes it has at least: 8 until its length is there.
        needed: u64,
    },

    /// A payload above the limit.
    TooLarge,

    /// Any other fault of the next frame.
    Fault(ParserError),

    /// The next frame is whole and has no fault, and a list has no room for it.
    Full {
        /// How many nodes it has.
        needed: usize,
    },
}

/// What was read of some bytes.
#[derive(Clone, Copy, Debug, PartialEq, Eq)]
pub struct FramesRead {
    /// How many bytes the frames have.
    pub used: usize,

    /// How many they are.
    pub heads: usize,

    /// How many nodes they have.
    pub nodes: usize,

    /// What comes after them.
    pub end: FramesEnd,
}

/// The most bytes that are looked at, so that each place is written in four bytes.
const REACH: usize = u32::MAX as usize;

/// The longest payload whose frame has no more bytes than these.
const LONGEST: u32 = u32::MAX - 8;

/// The most bytes of a payload that are read.
#[inline(always)]
fn payload_limit(max_payload: u32) -> u32
    ensures { result ≡ payload_limit max_payload }
{
    if max_payload < LONGEST {
        max_payload
    } else {
        LONGEST
    }
}

/// The bytes that are looked at.
fn in_reach(bytes: &[u8]) -> &[u8]
    ensures { result.now ≡ in_reach bytes.now }
{
    if bytes.len() <= REACH {
        bytes
    } else {
        &bytes[..REACH]
    }
}

/// The first byte of a frame of this type.
fn byte_of(frame_type: AMQPFrameType) -> u8
    ensures { result ≡ byte_of frame_type }
{
    match frame_type {
        AMQPFrameType::ProtocolHeader => PROTOCOL_BYTE,
        AMQPFrameType::Method => FRAME_METHOD,
        AMQPFrameType::Header => FRAME_HEADER,
        AMQPFrameType::Body => FRAME_BODY,
        AMQPFrameType::Heartbeat => FRAME_HEARTBEAT,
    }
}

/// The form of a payload.
fn form_of(judged: FrameJudgement) -> u8
    ensures { result ≡ form_of judged.canonical judged.tidy }
{
    let canonical = if judged.canonical { CANONICAL } else { 0 };
    let tidy = if judged.tidy { TIDY } else { 0 };
    canonical + tidy
}

/// The head with the ids and sizes of an outline.
fn outlined(head: Head, outline: FrameOutline) -> Head
    ensures { result ≡ outlined head outline }
{
    match outline {
        FrameOutline::Method {
            class_id,
            method_id,
            ..
        } => Head {
            class_id,
            method_id,
            ..head
        },
        FrameOutline::Header {
            class_id,
            body_size,
            ..
        } => Head {
            class_id,
            body_size,
            ..head
        },
        FrameOutline::ProtocolHeader | FrameOutline::Body { .. } | FrameOutline::Heartbeat { .. } =>
            head,
    }
}

/// How many bytes a frame that begins so has at least: 8 until its length is there.
pub fn least_length(bytes: &[u8]) -> u64
    ensures { result ≡ least_length bytes.now }
{
    match bytes {
        [PROTOCOL_BYTE, ..] => 8,
        [_, _, _, a, b, c, d, ..] => u32::from_be_bytes([*a, *b, *c, *d]) as u64 + 8,
        _ => 8,
    }
}

/// Where the frame in front lies, or why there is none.
#[tactic(auto, unfolding(amqp_wire::specs::Verdicts::judge_frame))]
fn find(max_payload: u32, left: &[u8]) -> Result<FrameLayout, FramesEnd>
    ensures { FindsFrame (payload_limit max_payload) left.now result }
{
    match look_at(Some(payload_limit(max_payload)), left) {
        Look::Whole(layout) => Ok(layout),
        Look::Incomplete => Err(FramesEnd::Incomplete {
            needed: least_length(left),
        }),
        Look::TooLarge => Err(FramesEnd::TooLarge),
        Look::UnknownFrameType => Err(FramesEnd::Fault(ParserError::UnknownFrameType)),
        Look::BadProtocolHeader => Err(FramesEnd::Fault(ParserError::BadProtocolHeader)),
        Look::BadFrameEnd => Err(FramesEnd::Fault(ParserError::BadFrameEnd)),
    }
}

/// The frame that lies so at the front of some bytes.
fn frame_at(left: &[u8], layout: FrameLayout) -> AMQPRawFrame<'_>
    requires { layout.payload_start + layout.payload_len ≤ length left.now }
    ensures frame { raw_of result ≡ laid_out layout left.now }
    ensures size { length result.payload.now ≡ layout.payload_len }
{
    AMQPRawFrame {
        frame_type: layout.frame_type,
        channel_id: layout.channel_id,
        payload: &left[layout.payload_start..layout.payload_start + layout.payload_len],
    }
}

/// The head of a frame whose payload begins at a place of the bytes. Its nodes are put after `first` others.
fn read_raw(
    raw: AMQPRawFrame<'_>,
    start: u32,
    deep: bool,
    nodes: &mut [Node],
    first: u32,
) -> Result<Head, ParserError>
    requires few { start + length raw.payload.now < 2 ^ 32 }
    ensures { Reads (raw_of raw.entry) start deep nodes.old first nodes.new result }
{
    let length = raw.payload.len() as u32;
    let end = start + length;
    let decoded = match decode::<1>(raw, nodes, first, deep, end) {
        Ok(decoded) => decoded,
        Err(error) => return Err(error),
    };
    let head = Head {
        start,
        length,
        first,
        nodes: decoded.count.saturating_sub(first),
        channel: raw.channel_id,
        frame_type: byte_of(raw.frame_type),
        form: form_of(decoded.judged),
        ..Head::default()
    };
    Ok(outlined(head, outline_raw(raw)))
}

/// The frame after so many bytes: how many bytes it has, and its head. Its nodes are put after `first` others.
#[tactic(auto, using(crate::proofs::FramesGiven::next_frame, crate::proofs::FramesGiven::payload_fault))]
fn read_next(
    bytes: &[u8],
    used: usize,
    max_payload: u32,
    deep: bool,
    nodes: &mut [Node],
    first: u32,
) -> Result<(usize, Head), FramesEnd>
    requires few { length bytes.now < 2 ^ 32 }
    requires within { used ≤ length bytes.now }
    requires counted { first ≤ used }
    ensures { IsNext (payload_limit max_payload) deep
        bytes.now used nodes.old first nodes.new result }
{
    let left = bytes_from(bytes, used);
    let layout = find(max_payload, left)?;
    let raw = frame_at(left, layout);
    let start = (used + layout.payload_start) as u32;
    match read_raw(raw, start, deep, nodes, first) {
        Ok(head) => Ok((layout.frame_len, head)),
        Err(error) => Err(FramesEnd::Fault(error)),
    }
}

/// Reads as many whole frames in front of the bytes, with payloads of at most `max_payload` bytes, as both lists have room
/// for. Each frame has a head, and its nodes are those that `read_fields` gives of its payload, but that all spans are counted
/// from the front of `bytes`. Of more than 2^32 - 1 bytes only so many in front are looked at; a frame that has more by itself is
/// `TooLarge` at any limit. What stands in the lists behind
/// what is given is not specified. No memory is taken, and the time is linear: the payload of the frame that no longer fits is
/// read, and none after it.
pub fn read_frames(
    bytes: &[u8],
    max_payload: u32,
    deep: bool,
    heads: &mut [Head],
    nodes: &mut [Node],
) -> FramesRead
    ensures same_heads { length heads.new ≡ length heads.old }
    ensures same_nodes { length nodes.new ≡ length nodes.old }
    ensures frames { ReadsFrames (payload_limit max_payload) deep
        bytes.now heads.new nodes.new result }
    ensures end { EndsWith (payload_limit max_payload) deep
        bytes.now heads.new nodes.new result result.end }
{
    let reach = in_reach(bytes);
    let mut used = 0;
    let mut count = 0;
    let mut total: u32 = 0;
    while used < bytes.len() {
        let (size, head) = match read_next(reach, used, max_payload, deep, nodes, total) {
            Ok(found) => found,
            Err(end) => {
                return FramesRead {
                    used,
                    heads: count,
                    nodes: total as usize,
                    end,
                };
            }
        };
        let more = total + head.nodes;
        if count >= heads.len() || more as usize > nodes.len() {
            return FramesRead {
                used,
                heads: count,
                nodes: total as usize,
                end: FramesEnd::Full {
                    needed: head.nodes as usize,
                },
            };
        }
        heads[count] = head;
        used += size;
        count += 1;
        total = more;
    }
    FramesRead {
        used,
        heads: count,
        nodes: total as usize,
        end: FramesEnd::Done,
    }
}
