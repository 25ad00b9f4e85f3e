//! The canonical bytes of borrowed frames: how many they are, and these bytes. No memory is taken.

ghost use Rattle.std.specs.Prelude.{◌≡◌, ◌+◌, ◌^◌, ◌<◌, ◌≤◌, ℕ, List, Ok, length};
ghost use Rattle.amqp_types.specs.Methods.{judge_payload};
ghost use Rattle.amqp_types.specs.ContentHeaders.{judge_content_header};
ghost use Rattle.amqp_canonical.specs.Writes.{IsRead, PutsIfRoom};
ghost use Rattle.amqp_wire.specs.Canonical.{SliceAnswers, canon};
ghost use Rattle.amqp_wire.specs.Frames.{Frame};
ghost use Rattle.amqp_wire.specs.Spelling.{framed};
ghost use Rattle.amqp_lent.specs.Frames.{IsFrame, StandsFor, payload_of};
ghost use Rattle.amqp_canonical.specs.Payloads.{header_payload, method_payload};
ghost use Rattle.amqp_canonical.specs.Payloads.{canonical_header, canonical_method};
ghost use Rattle.amqp_types.specs.Constants.{body_byte, header_byte, method_byte};

use crate::frame::LentFrame;
use amqp_canonical::{Tested, put_header, put_if_room, put_method};
use amqp_types::{
    ChannelId, FRAME_BODY, FRAME_HEADER, FRAME_METHOD, GenError, Identifier, PayloadSize,
};
use amqp_wire::{header_bytes, heartbeat_bytes, put_around};

/// Puts a frame of this type around a payload that stands from byte 7 to `end`, where there is room for both, and
/// returns the place after it in any case.
fn put_frame(buf: &mut [u8], end: usize, frame_type: u8, channel: ChannelId) -> usize
    requires payload { 7 ≤ end }
    requires few { end < 7 + 2 ^ 32 }
    ensures { (before payload : List ℕ) → PutsIfRoom before buf.old 7 payload end
        → PutsIfRoom before buf.new 0 (framed frame_type channel payload) result }
{
    if end >= buf.len() {
        return end + 1;
    }
    put_around(buf, 0, end, frame_type, channel);
    end + 1
}

/// Puts the frame of a method where there is room for it, and returns the place after it in any case.
fn put_method_frame(
    buf: &mut [u8],
    channel: ChannelId,
    class: Identifier,
    id: Identifier,
    slots: &[u8],
) -> usize
    requires read { IsRead (judge_payload (method_payload class id slots.now)) }
    requires few { length (method_payload class id slots.now) < 2 ^ 32 }
    ensures { PutsIfRoom buf.old buf.new 0
        (framed method_byte channel (canonical_method (method_payload class id slots.now))) result }
{
    let end = put_method::<Tested>(buf, 7, &mut [], class, id, slots);
    put_frame(buf, end, FRAME_METHOD, channel)
}

/// Puts the frame of a content header where there is room for it, and returns the place after it in any case.
fn put_header_frame(
    buf: &mut [u8],
    channel: ChannelId,
    class: Identifier,
    body_size: PayloadSize,
    properties: &[u8],
) -> usize
    requires read { IsRead (judge_content_header (header_payload class body_size properties.now)) }
    requires few { length (header_payload class body_size properties.now) < 2 ^ 32 }
    ensures { PutsIfRoom buf.old buf.new 0
        (framed header_byte channel
        (canonical_header (header_payload class body_size properties.now)))
        result }
{
    let end = put_header::<Tested>(buf, 7, &mut [], class, body_size, properties);
    put_frame(buf, end, FRAME_HEADER, channel)
}

/// Puts the frame of a body where there is room for it, and returns the place after it in any case.
fn put_body_frame(buf: &mut [u8], channel: ChannelId, content: &[u8]) -> usize
    requires few { length content.now < 2 ^ 32 }
    ensures { PutsIfRoom buf.old buf.new 0 (framed body_byte channel content.now) result }
{
    let end = put_if_room::<Tested>(buf, 7, content);
    put_frame(buf, end, FRAME_BODY, channel)
}

/// Puts the canonical bytes at the front of a slice where there is room for them, and returns how many they are.
fn put_lent(buf: &mut [u8], frame: LentFrame<'_>) -> usize
    requires stands { IsFrame frame }
    requires few { length (payload_of frame) < 2 ^ 32 }
    ensures { (read : Frame) → StandsFor frame.entry read
        → PutsIfRoom buf.old buf.new 0 (canon read) result }
{
    match frame {
        LentFrame::Method {
            channel,
            class_id,
            method_id,
            slots,
        } => put_method_frame(buf, channel, class_id, method_id, slots),
        LentFrame::Header {
            channel,
            class_id,
            body_size,
            properties,
        } => put_header_frame(buf, channel, class_id, body_size, properties),
        LentFrame::Body(channel, content) => put_body_frame(buf, channel, content),
        LentFrame::ProtocolHeader(version) => put_if_room::<Tested>(buf, 0, &header_bytes(version)),
        LentFrame::Heartbeat => put_if_room::<Tested>(buf, 0, &heartbeat_bytes(0)),
        LentFrame::InvalidHeartbeat(channel) => put_if_room::<Tested>(
            buf,
            0,
            &heartbeat_bytes(channel),
        ),
    }
}

/// How many canonical bytes the frame has that a borrowed frame stands for: they are put where there is no room.
pub fn lent_size(frame: LentFrame<'_>) -> u64
    requires stands { IsFrame frame }
    requires few { length (payload_of frame) < 2 ^ 32 }
    ensures { (read : Frame) → StandsFor frame.entry read → result ≡ length (canon read) }
{
    put_lent(&mut [], frame) as u64
}

/// Puts the canonical bytes of the frame that a borrowed frame stands for at the front of a slice, and returns how many
/// they are. A slice that is too short stays as it is, and nothing else is refused.
pub fn write_lent(buf: &mut [u8], frame: LentFrame<'_>) -> Result<usize, GenError>
    requires stands { IsFrame frame }
    requires few { length (payload_of frame) < 2 ^ 32 }
    ensures { (read : Frame) → StandsFor frame.entry read
        → SliceAnswers buf.old buf.new (Ok (length (canon read))) (canon read) result }
{
    let size = lent_size(frame);
    if size > buf.len() as u64 {
        return Err(GenError::BufferTooSmall);
    }
    Ok(put_lent(buf, frame))
}
