//! The stream that is generated.

ghost use Rattle.std.specs.Prelude.{◌≡◌, ◌+◌, ◌^◌, ◌<◌, ◌≤◌, [], length};
ghost use Rattle.std.specs.Prelude.{min, IfOk, IsOk, IsTrue, false};
ghost use Rattle.amqp_types.specs.Writing.{Puts};
ghost use Rattle.amqp_stream.specs.Ends.{Takes, piece_of};
ghost use Rattle.amqp_stream.specs.Made.{made, made_frame, most_frames};
ghost use Rattle.amqp_stream.specs.Making.{IsMaking, left_in};
ghost use Rattle.amqp_stream.specs.Scripts.{faultless};

use crate::buffer::Span;
use crate::source::{Source, SourceFault};
use amqp_types::{ChannelId, FRAME_BODY, FRAME_HEARTBEAT, FRAME_METHOD, put_bytes};
use amqp_wire::put_framed;
use std::marker::Model;

/// The length of the longest frame.
const LONGEST: usize = 28;

/// `confirm.select`, in a loose encoding.
const SELECT: [u8; 5] = [0, 85, 0, 10, 255];

/// `queue.declare`, in a loose encoding.
const DECLARE: [u8; 20] = [
    0, 50, 0, 10, 0, 9, 0, 255, 0, 0, 0, 8, 1, 97, 116, 0, 1, 97, 116, 7,
];

/// Puts the frame of this number at the front, and returns its length.
#[tactic(auto, using(amqp_wire::proofs::Sizes::framed_length), unfolding(crate::specs::Made::made_frame))]
fn put_made(buf: &mut [u8], number: u32) -> usize
    requires { LONGEST ≤ length buf.old }
    ensures { Puts buf.old buf.new 0 (made_frame number) result }
{
    let channel_id = 1 + (number % 1000) as ChannelId;
    let byte = (number % 256) as u8;
    match number % 4 {
        0 => put_framed(buf, 0, FRAME_HEARTBEAT, 0, &[byte]),
        1 => put_framed(buf, 0, FRAME_BODY, channel_id, &[byte]),
        2 => put_framed(buf, 0, FRAME_METHOD, channel_id, &SELECT),
        _ => put_framed(buf, 0, FRAME_METHOD, channel_id, &DECLARE),
    }
}

/// Makes the next frame, where nothing is left of the one before it. Returns whether a byte is left.
#[tactic(auto, using(crate::proofs::Giving::refilled_same))]
fn refill(frame: &mut [u8; LONGEST], span: &mut Span, next: &mut u32, frames: u32) -> bool
    requires { IsMaking frame.old span.old next.old frames }
    ensures making { IsMaking frame.new span.new next.new frames }
    ensures same { left_in frame.new span.new next.new frames
        ≡ left_in frame.old span.old next.old frames }
    ensures some { IsTrue result → span.new.start < span.new.end }
    ensures none { result ≡ false → left_in frame.new span.new next.new frames ≡ [] }
{
    if span.start < span.end {
        return true;
    }
    if *next == frames {
        return false;
    }
    let end = put_made(frame, *next);
    *span = Span { start: 0, end };
    *next += 1;
    true
}

/// The generated stream, of which each read gives as much as fits. It takes no memory.
#[derive(Drop)]
pub struct MakeSource {
    frame: [u8; LONGEST],
    span: Span,
    next: u32,
    frames: u32,
}

impl Model for MakeSource {
    ghost use Rattle.std.specs.Prelude.{ℕ, List};
    ghost use Rattle.amqp_stream.specs.Making.{IsMaking, left_in};

    ghost Value = { List ℕ };

    ghost view = { λ source. left_in source.frame source.span source.next source.frames };

    ghost invariant = { λ source. IsMaking source.frame source.span source.next source.frames };
}

impl MakeSource {
    /// So many frames are left, at most 100,000.
    pub fn new(frames: u32) -> MakeSource
        requires { frames ≤ most_frames }
        ensures { result ≡ made frames }
    {
        MakeSource {
            frame: [0; LONGEST],
            span: Span { start: 0, end: 0 },
            next: 0,
            frames,
        }
    }
}

impl Source for MakeSource {
    ghost supply = { faultless };

    fn read(&mut self, buf: &mut [u8]) -> Result<usize, SourceFault>
        requires { 0 < length buf.old }
        ensures bound { IfOk result (λ n. n ≤ length buf.old) }
        ensures takes { Takes (faultless self.old)
            (faultless self.new) (piece_of result buf.new) 1 }
        ensures end { IfOk result (λ n. n ≡ 0 → self.new ≡ []) }

        // No read fails, and each gives as much as fits.
        ensures never { IsOk result }
        ensures count { IfOk result (λ n. n ≡ min (length self.old) (length buf.old)) }
    {
        let mut count = 0;
        while count < buf.len() {
            if !refill(&mut self.frame, &mut self.span, &mut self.next, self.frames) {
                return Ok(count);
            }
            let start = self.span.start;
            let most = (self.span.end - start).min(buf.len() - count);
            count = put_bytes(buf, count, &self.frame[start..start + most]);
            self.span.start = start + most;
        }
        Ok(count)
    }
}
