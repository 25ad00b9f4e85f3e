//! What a writer decides of a frame before anything is written for it.

ghost use Rattle.std.specs.Prelude.{◌≡◌, ◌+◌, ◌^◌, ◌<◌, ◌≤◌, length};
ghost use Rattle.amqp_wire.specs.Frames.{raw_of, frame_length};
ghost use Rattle.amqp_stream.specs.Decisions.{stands, IsDecided, PutsDecided};

use crate::output_buffer::OutputBuffer;
use amqp_wire::{AMQPRawFrame, FrameJudgement};

/// What a writer decides of a frame before anything is written for it.
#[derive(Clone, Copy)]
pub enum Decision {
    /// Its canonical bytes are written. It was judged so.
    Kept(FrameJudgement),

    /// Nothing is written.
    Dropped,
}

/// Whether a frame's own bytes are what is written for it, by what a writer returned for it.
#[inline(always)]
pub(crate) fn stands<E>(passed: &Result<Option<Decision>, E>) -> bool
    ensures { result ≡ stands passed.now }
{
    match passed {
        Ok(Some(Decision::Kept(judged))) => judged.canonical,
        Ok(Some(Decision::Dropped)) => false,
        Ok(None) => false,
        Err(_) => false,
    }
}

/// Puts what was decided of a borrowed frame after the pending bytes.
pub fn put_decided(out: &mut OutputBuffer, raw: AMQPRawFrame<'_>, decision: Decision)
    requires decided { IsDecided (raw_of raw) decision }
    requires few { length raw.payload.now < 2 ^ 32 }
    requires room { length out.old.bytes + frame_length (raw_of raw) ≤ out.old.room }
    ensures room { out.new.room ≡ out.old.room }
    ensures puts { PutsDecided (raw_of raw.entry) out.old.bytes out.new.bytes decision }
    ensures compact { length out.new.bytes
        ≤ length out.old.bytes + frame_length (raw_of raw.entry) }
{
    match decision {
        Decision::Kept(judged) => out.push_judged(raw, judged),
        Decision::Dropped => {}
    }
}
