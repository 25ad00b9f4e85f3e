//! Writing frames around payloads: their front, protocol headers and heartbeats, and a frame at a place of a slice.

ghost use Rattle.std.specs.Prelude.{◌≡◌, ◌+◌, ◌^◌, ◌<◌, ◌≤◌, List, [], ℕ, length};
ghost use Rattle.amqp_types.specs.Writing.{Puts};
ghost use Rattle.amqp_types.specs.Constants.{heartbeat_byte};
ghost use Rattle.amqp_wire.specs.Spelling.{head, framed, proto};

use crate::version::ProtocolVersion;
use amqp_types::{
    ChannelId, ChunkSize, FRAME_END, FRAME_HEARTBEAT, PROTOCOL_BYTE, put_bytes, put_long_uint,
    put_short_uint,
};

/// Type, channel and length, which come before a payload of this length in bytes (AMQP 0-9-1, section 4.2.3).
pub fn frame_head(frame_type: u8, channel_id: ChannelId, len: ChunkSize) -> [u8; 7]
    ensures { result ≡ head frame_type channel_id len }
{
    let channel = channel_id.to_be_bytes();
    let len = len.to_be_bytes();
    [
        frame_type, channel[0], channel[1], len[0], len[1], len[2], len[3],
    ]
}

/// The bytes of a protocol header (AMQP 0-9-1, section 4.2.2).
pub fn header_bytes(version: ProtocolVersion) -> [u8; 8]
    ensures { result ≡ proto version.major version.minor version.revision }
{
    [
        PROTOCOL_BYTE,
        77,
        81,
        80,
        0,
        version.major,
        version.minor,
        version.revision,
    ]
}

/// The bytes of a heartbeat (AMQP 0-9-1, section 4.2.7), whose payload is empty.
pub fn heartbeat_bytes(channel_id: ChannelId) -> [u8; 8]
    ensures { result ≡ framed heartbeat_byte channel_id [] }
{
    let channel = channel_id.to_be_bytes();
    [
        FRAME_HEARTBEAT,
        channel[0],
        channel[1],
        0,
        0,
        0,
        0,
        FRAME_END,
    ]
}

/// Puts an array at a place of a slice, and returns the place after it. The length is a constant, so
/// that small arrays are stored and not copied by a call.
#[inline(always)]
#[tactic(auto, unfolding(amqp_types::specs::Writing::written))]
fn put_array<const N: usize>(buf: &mut [u8], at: usize, bytes: [u8; N]) -> usize
    requires { at + length bytes ≤ length buf.old }
    ensures { Puts buf.old buf.new at bytes.entry result }
{
    let end = at + N;
    buf[at..end].copy_from_slice(&bytes);
    end
}

/// Puts type, channel and length. Each number is stored by itself, so that no array goes through memory.
#[inline(always)]
fn put_head(
    buf: &mut [u8],
    at: usize,
    frame_type: u8,
    channel_id: ChannelId,
    len: ChunkSize,
) -> usize
    requires { at + 7 ≤ length buf.old }
    ensures { Puts buf.old buf.new at (head frame_type channel_id len) result }
{
    let at = put_array(buf, at, [frame_type]);
    let at = put_short_uint(buf, at, &channel_id);
    put_long_uint(buf, at, &len)
}

/// Puts a frame of this type around a payload that stands from 7 bytes after a place to `end`, and returns the place
/// after the frame.
#[inline(always)]
pub fn put_around(
    buf: &mut [u8],
    at: usize,
    end: usize,
    frame_type: u8,
    channel_id: ChannelId,
) -> usize
    requires payload { at + 7 ≤ end }
    requires few { end < at + 7 + 2 ^ 32 }
    requires room { end < length buf.old }
    ensures { (before payload : List ℕ) → Puts before buf.old (at + 7) payload end
        → at + length (framed frame_type channel_id payload) ≤ length before
        → Puts before buf.new at (framed frame_type channel_id payload) result }
{
    put_head(buf, at, frame_type, channel_id, (end - at - 7) as u32);
    put_array(buf, end, [FRAME_END])
}

/// Puts a frame of this type with a payload, and returns the place after it.
#[inline(always)]
pub fn put_framed(
    buf: &mut [u8],
    at: usize,
    frame_type: u8,
    channel_id: ChannelId,
    payload: &[u8],
) -> usize
    requires short { length payload.now < 2 ^ 32 }
    requires room { at + length (framed frame_type channel_id payload.now) ≤ length buf.old }
    ensures { Puts buf.old buf.new at (framed frame_type channel_id payload.now) result }
{
    let end = put_bytes(buf, at + 7, payload);
    put_around(buf, at, end, frame_type, channel_id)
}
