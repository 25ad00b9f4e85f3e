//! Body frames that are cut out of two parts, of which one follows the other.

ghost use Rattle.std.specs.Prelude.{◌≡◌, ◌+◌, ◌-◌, ◌++◌, ◌^◌, ◌<◌, ◌≤◌, [], length, drop, IfOk};
ghost use Rattle.amqp_wire.specs.Canonical.{canon_frames};
ghost use Rattle.amqp_wire.specs.Spelling.{framed};
ghost use Rattle.amqp_stream.specs.Writing.{Gathers};
ghost use Rattle.amqp_turns.specs.Splits.{frames_given};
ghost use Rattle.amqp_types.specs.Constants.{body_byte};

use amqp_stream::{OutputBuffer, SMALL_BODY, Sink, SinkFault, flush, gather};
use amqp_types::{ChannelId, FRAME_BODY, FRAME_END, NoMemory};
use amqp_wire::frame_head;
use std::alloc::Global;

/// Puts a body frame whose payload is two parts after the pending bytes.
#[inline(always)]
fn push_piece(out: &mut OutputBuffer, channel_id: ChannelId, front: &[u8], back: &[u8])
    requires few { length front.now + length back.now < 2 ^ 32 }
    requires room { length out.old.bytes + (length front.now + length back.now + 8) ≤ out.old.room }
    ensures room { out.new.room ≡ out.old.room }
    ensures pushed { out.new.bytes
        ≡ out.old.bytes ++ framed body_byte channel_id (front.now ++ back.now) }
{
    out.push(&frame_head(FRAME_BODY, channel_id, (front.len() + back.len()) as u32));
    out.push(front);
    out.push(back);
    out.push(&[FRAME_END]);
}

/// Gathers a body frame whose payload is two parts.
#[inline(always)]
fn write_piece<K: Sink>(
    out: &mut OutputBuffer,
    sink: &mut K,
    channel_id: ChannelId,
    front: &[u8],
    back: &[u8],
) -> Result<(), SinkFault>
    requires few { length front.now + length back.now < 2 ^ 32 }
    ensures room { out.new.room ≡ out.old.room }
    ensures gathers { Gathers (K.store sink.old) (K.store sink.new) out.old.bytes out.new.bytes
        (framed body_byte channel_id (front.now ++ back.now)) result }
{
    let len = front.len() + back.len();
    if len <= SMALL_BODY && len + 8 <= out.room() {
        push_piece(out, channel_id, front, back);
        return Ok(());
    }
    gather_piece(out, sink, channel_id, front, back)
}

/// The same by parts, each of which is written from where it lies where it does not fit.
fn gather_piece<K: Sink>(
    out: &mut OutputBuffer,
    sink: &mut K,
    channel_id: ChannelId,
    front: &[u8],
    back: &[u8],
) -> Result<(), SinkFault>
    requires few { length front.now + length back.now < 2 ^ 32 }
    ensures room { out.new.room ≡ out.old.room }
    ensures gathers { Gathers (K.store sink.old) (K.store sink.new) out.old.bytes out.new.bytes
        (framed body_byte channel_id (front.now ++ back.now)) result }
{
    let head = frame_head(FRAME_BODY, channel_id, (front.len() + back.len()) as u32);
    match gather(out, sink, &head) {
        Err(fault) => return Err(fault),
        Ok(()) => {}
    }
    match gather(out, sink, front) {
        Err(fault) => return Err(fault),
        Ok(()) => {}
    }
    match gather(out, sink, back) {
        Err(fault) => return Err(fault),
        Ok(()) => {}
    }
    let end = gather(out, sink, &[FRAME_END]);
    end
}

/// Gathers the pieces of two parts as body frames: those of the whole size, and at the end of a body what is left too.
pub(crate) fn write_pieces<K: Sink>(
    out: &mut OutputBuffer,
    sink: &mut K,
    channel_id: ChannelId,
    size: usize,
    front: &[u8],
    back: &[u8],
    ends: bool,
) -> Result<(), SinkFault>
    requires some { 1 ≤ size }
    requires few { size < 2 ^ 32 }
    ensures room { out.new.room ≡ out.old.room }
    ensures gathers { Gathers (K.store sink.old) (K.store sink.new) out.old.bytes out.new.bytes
        (canon_frames (frames_given size channel_id ends (front.now ++ back.now))) result }
{
    let mut first = front;
    let mut second = back;
    while first.len() + second.len() >= size {
        let n = first.len().min(size);
        let m = size - n;
        match write_piece(out, sink, channel_id, &first[..n], &second[..m]) {
            Err(fault) => return Err(fault),
            Ok(()) => {}
        }
        first = &first[n..];
        second = &second[m..];
    }
    if ends && first.len() + second.len() > 0 {
        let last = write_piece(out, sink, channel_id, first, second);
        return last;
    }
    Ok(())
}

/// Writes what is pending, where it is more than this.
pub(crate) fn settle<K: Sink>(
    out: &mut OutputBuffer,
    sink: &mut K,
    most: usize,
) -> Result<(), SinkFault>
    ensures room { out.new.room ≡ out.old.room }
    ensures gathers { Gathers (K.store sink.old)
        (K.store sink.new) out.old.bytes out.new.bytes [] result }
    ensures few { length out.new.bytes ≤ most }
{
    if out.bytes().len() <= most {
        return Ok(());
    }
    flush(out, sink)
}

/// The last `count` bytes of two parts.
pub(crate) fn last_of(
    alloc: Global,
    front: &[u8],
    back: &[u8],
    count: usize,
) -> Result<Vec<u8>, NoMemory>
    requires { count ≤ length front.now + length back.now }
    ensures { IfOk result (λ bytes. bytes.items
        ≡ drop ((length front.now + length back.now) - count) (front.now ++ back.now)) }
{
    let after = count.min(back.len());
    let before = count - after;
    let mut bytes = Vec::from_slice(alloc, &front[front.len() - before..])?;
    bytes.extend_from_slice(&back[back.len() - after..])?;
    Ok(bytes)
}
