//! What is written for each frame of a stream.

ghost use Rattle.std.specs.Prelude.{◌≡◌, ◌+◌, ◌^◌, ◌<◌, ◌≤◌, length, IfOk, IsTrue};
ghost use Rattle.amqp_wire.specs.Frames.{raw_of, frame_length};
ghost use Rattle.amqp_stream.specs.Steps.{Manner};
ghost use Rattle.amqp_stream.specs.Streaming.{WritesBy, ending_of, end_result};
ghost use Rattle.amqp_stream.specs.Decisions.{PassesBy};

use crate::decision::Decision;
use crate::errors::RunError;
use crate::output_buffer::OutputBuffer;
use crate::sink::Sink;
use amqp_wire::AMQPRawFrame;

/// What is written for the frames of a stream, one after another. A writer either decides of each frame, and then it is a
/// `FrameDecider` and by that a `FrameWriter`; or it writes other bytes, and implements this. What contracts see of a writer
/// is its state between two frames.
pub trait FrameWriter {
    /// Why a whole frame, or the end of input, is refused.
    type Refusal: Drop;

    /// The manner of the writer, all that contracts see of how it writes: the level that frames are read at, the step from frame to frame, where
    /// the stream may end, where memory may run out, and whether it is compact.
    ghost manner: { Manner Self Self.Refusal };

    /// Takes a borrowed frame without writing, where its canonical bytes are to be written, or nothing; and else
    /// leaves it to `write_frame`. Where it refuses one, `write_frame` would. Without a body of its own it leaves each.
    fn pass(&mut self, raw: AMQPRawFrame<'_>) -> Result<Option<Decision>, RunError<Self::Refusal>>
        requires few { length raw.payload.now < 2 ^ 32 }
        ensures passes { PassesBy manner self.old self.new (raw_of raw.entry) result }
    {
        Ok(None)
    }

    /// Gathers what is written for a borrowed frame.
    fn write_frame<K: Sink>(
        &mut self,
        out: &mut OutputBuffer,
        sink: &mut K,
        raw: AMQPRawFrame<'_>,
    ) -> Result<(), RunError<Self::Refusal>>
        requires few { length raw.payload.now < 2 ^ 32 }

        // What is pending for a compact writer and the next frame always fit.
        requires room { IsTrue manner.compact
            → length out.old.bytes + frame_length (raw_of raw) ≤ out.old.room }
        ensures room { out.new.room ≡ out.old.room }
        ensures writes { WritesBy manner self.old self.new
            (raw_of raw.entry) (K.store sink.old) (K.store sink.new)
            out.old.bytes out.new.bytes (ending_of result) }
        ensures compact { IsTrue manner.compact
            → length out.new.bytes ≤ length out.old.bytes + frame_length (raw_of raw.entry) };

    /// Whether the stream may end after the frames so far.
    fn finish(&self) -> Result<(), Self::Refusal>
        ensures { result ≡ end_result (manner.end self.now) };
}
