//! Frames with no fields: bodies, heartbeats and protocol headers.

ghost use Rattle.std.specs.Prelude.{None};
ghost use Rattle.amqp_wire.specs.Frames.{Body, Beat, Proto};
ghost use Rattle.amqp_put.specs.MadeFrames.{MakesFrame, MakesEight};

use amqp_entries::PutError;
use amqp_types::{ChannelId, FRAME_BODY, put_bytes};
use amqp_wire::{ProtocolVersion, header_bytes, heartbeat_bytes, put_framed};

/// Puts the frame of a part of a body at the front of a slice, and returns how many bytes it has, 8 for an empty one
/// (AMQP 0-9-1, section 4.2.6.2).
#[inline(always)]
pub fn put_body_frame(
    channel: ChannelId,
    payload: &[u8],
    max_payload: u32,
    out: &mut [u8],
) -> Result<usize, PutError>
    ensures { MakesFrame out.old out.new max_payload (Body channel payload.now) None result }
{
    let size = payload.len();
    if size > max_payload as usize {
        return Err(PutError::TooLarge);
    }
    if out.len() < size + 8 {
        return Err(PutError::BufferTooSmall(size + 8));
    }
    Ok(put_framed(out, 0, FRAME_BODY, channel, payload))
}

/// Puts a heartbeat at the front of a slice, and returns how many bytes it has, 8 (AMQP 0-9-1, section 4.2.7).
#[inline(always)]
pub fn put_heartbeat(out: &mut [u8]) -> Result<usize, PutError>
    ensures { MakesEight out.old out.new Beat result }
{
    if out.len() < 8 {
        return Err(PutError::BufferTooSmall(8));
    }
    Ok(put_bytes(out, 0, &heartbeat_bytes(0)))
}

/// Puts a protocol header at the front of a slice, and returns how many bytes it has, 8 (AMQP 0-9-1, section 4.2.2).
#[inline(always)]
pub fn put_protocol_header(version: ProtocolVersion, out: &mut [u8]) -> Result<usize, PutError>
    ensures { MakesEight out.old out.new
        (Proto version.major version.minor version.revision) result }
{
    if out.len() < 8 {
        return Err(PutError::BufferTooSmall(8));
    }
    Ok(put_bytes(out, 0, &header_bytes(version)))
}
