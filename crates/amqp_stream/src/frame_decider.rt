//! Writers that decide of each frame, and write no bytes but canonical ones.

ghost use Rattle.std.specs.Prelude.{◌≡◌, ◌^◌, ◌<◌, length};
ghost use Rattle.amqp_wire.specs.Frames.{raw_of};
ghost use Rattle.amqp_stream.specs.Steps.{Manner};
ghost use Rattle.amqp_stream.specs.Streaming.{end_result};
ghost use Rattle.amqp_stream.specs.Decisions.{DecidesBy, PassesBy};

use crate::decision::{Decision, put_decided};
use crate::errors::RunError;
use crate::frame_writer::FrameWriter;
use crate::output_buffer::OutputBuffer;
use crate::sink::Sink;
use amqp_wire::AMQPRawFrame;

/// A writer that only decides of each frame: its canonical bytes are written, or nothing, or it is refused. Each is a
/// `FrameWriter`.
pub trait FrameDecider {
    /// Why a whole frame, or the end of input, is refused.
    type Refusal: Drop;

    /// The manner of the writer, as of a `FrameWriter`.
    ghost manner: { Manner Self Self.Refusal };

    /// The next step of the manner: whether a borrowed frame is kept, left out or refused. It is not known yet whether its
    /// payload is one.
    fn decide(&mut self, raw: AMQPRawFrame<'_>) -> Result<Decision, RunError<Self::Refusal>>
        requires few { length raw.payload.now < 2 ^ 32 }
        ensures decides { DecidesBy manner self.old self.new (raw_of raw.entry) result };

    /// The same, as `FrameWriter::pass` does it: each run calls this. A writer may say anew what it decides, where that
    /// makes quicker code, as for each type of frame apart.
    #[inline(always)]
    fn pass_decided(
        &mut self,
        raw: AMQPRawFrame<'_>,
    ) -> Result<Option<Decision>, RunError<Self::Refusal>>
        requires few { length raw.payload.now < 2 ^ 32 }
        ensures passes { PassesBy manner self.old self.new (raw_of raw.entry) result }
    {
        match self.decide(raw) {
            Ok(decision) => Ok(Some(decision)),
            Err(error) => Err(error),
        }
    }

    /// Whether the stream may end after the frames so far.
    fn finish(&self) -> Result<(), Self::Refusal>
        ensures { result ≡ end_result (manner.end self.now) };
}

impl<D: FrameDecider> FrameWriter for D {
    type Refusal = D::Refusal;

    ghost manner = { D.manner };

    #[inline(always)]
    fn pass(&mut self, raw: AMQPRawFrame<'_>) -> Result<Option<Decision>, RunError<D::Refusal>> {
        self.pass_decided(raw)
    }

    // A run calls this only for a frame that a `pass_decided` of the writer's own left.
    fn write_frame<K: Sink>(
        &mut self,
        out: &mut OutputBuffer,
        _sink: &mut K,
        raw: AMQPRawFrame<'_>,
    ) -> Result<(), RunError<D::Refusal>> {
        match self.decide(raw) {
            Ok(decision) => {
                put_decided(out, raw, decision);
                Ok(())
            }
            Err(error) => Err(error),
        }
    }

    #[inline(always)]
    fn finish(&self) -> Result<(), D::Refusal> {
        FrameDecider::finish(self)
    }
}
