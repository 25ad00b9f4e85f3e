//! Whole frames as heads and nodes.

ghost use Rattle.std.specs.Prelude.{◌≡◌, length};
ghost use Rattle.amqp_c.specs.Batches.{AreFew, GivesAsked, GivesFrames, batch_of, end_needed};
ghost use Rattle.amqp_c.specs.Batches.{end_status, no_batch};
ghost use Rattle.amqp_c.specs.Fields.{deep_at};
ghost use Rattle.amqp_fields.specs.Frames.{payload_limit};

use crate::fields::deep_at;
use crate::statuses::{BAD_ARGUMENT, BUFFER_TOO_SMALL, decoding_error};
use amqp_fields::{FramesEnd, FramesRead, Head, Node, read_frames};
use amqp_stream::StreamError;

/// How many frames are given, and what comes after them. In C it has 32 bytes and no padding.
#[repr(C)]
#[derive(Clone, Copy, Debug)]
pub struct FrameBatch {
    /// How many bytes the frames have.
    pub used: u64,

    /// At status 21 how many bytes the next frame has at least, at 40 how many nodes it has; else 0.
    pub needed: u64,

    /// How many frames are given: so many heads.
    pub heads: u32,

    /// How many nodes they have.
    pub nodes: u32,

    /// 0 where nothing comes after them, 21 where the bytes end inside the next frame, 40 where a list has no room for it, or its
    /// fault's status.
    pub status: u32,

    /// Kept for later; 0.
    pub unused: u32,
}

/// The status of what comes after the frames.
fn end_status(end: FramesEnd) -> u32
    ensures { result ≡ end_status end }
{
    match end {
        FramesEnd::Done => 0,
        FramesEnd::Incomplete { .. } => StreamError::CutShort.status() as u32,
        FramesEnd::TooLarge => StreamError::TooLarge.status() as u32,
        FramesEnd::Fault(error) => decoding_error(error).status() as u32,
        FramesEnd::Full { .. } => BUFFER_TOO_SMALL as u32,
    }
}

/// How many bytes or nodes are needed.
fn end_needed(end: FramesEnd) -> u64
    ensures { result ≡ end_needed end }
{
    match end {
        FramesEnd::Incomplete { needed } => needed,
        FramesEnd::Full { needed } => needed as u64,
        FramesEnd::Done | FramesEnd::TooLarge | FramesEnd::Fault(_) => 0,
    }
}

/// What is reported of frames that were read.
fn report(read: FramesRead) -> FrameBatch
    requires few { AreFew read }
    ensures { result ≡ batch_of read }
{
    FrameBatch {
        used: read.used as u64,
        needed: end_needed(read.end),
        heads: read.heads as u32,
        nodes: read.nodes as u32,
        status: end_status(read.end),
        unused: 0,
    }
}

/// The frames in front, alone or with all that lies inside their tables.
fn read_batch(
    bytes: &[u8],
    max_payload: u32,
    deep: bool,
    heads: &mut [Head],
    nodes: &mut [Node],
) -> FrameBatch
    ensures same_heads { length heads.new ≡ length heads.old }
    ensures same_nodes { length nodes.new ≡ length nodes.old }
    ensures given { GivesFrames (payload_limit max_payload) deep
        bytes.now heads.new nodes.new result }
{
    report(read_frames(bytes, max_payload, deep, heads, nodes))
}

/// Reads as many whole frames in front of the bytes, with payloads of at most `max_payload` bytes, as both lists have room for:
/// a head for each, and its nodes as `feksroum_read` gives them, with `detail` 0 those of its fields alone, with 1 all that
/// lies inside them too. All spans are counted from the front of `bytes`. Of more than 2^32 - 1 bytes only so many in front are
/// looked at, and a frame of more by itself is too large at any limit. What stands in the lists behind what is given is not specified.
#[unsafe(no_mangle)]
pub extern "C" fn feksroum_frames(
    bytes: &[u8],
    max_payload: u32,
    detail: u8,
    heads: &mut [Head],
    nodes: &mut [Node],
) -> FrameBatch
    ensures same_heads { length heads.new ≡ length heads.old }
    ensures same_nodes { length nodes.new ≡ length nodes.old }
    ensures given { GivesAsked max_payload (deep_at detail) bytes.now heads.new nodes.new result }
{
    match deep_at(detail) {
        Some(deep) => read_batch(bytes, max_payload, deep, heads, nodes),
        None => FrameBatch {
            used: 0,
            needed: 0,
            heads: 0,
            nodes: 0,
            status: BAD_ARGUMENT as u32,
            unused: 0,
        },
    }
}
