//! A writer with a state: it counts the frames that it writes for.

use amqp_stream::{FrameWriter, OutputBuffer, RunError, Sink, write_canonical};
use amqp_wire::AMQPRawFrame;
use std::convert::Infallible;

/// Writes the canonical bytes of each frame, and counts them.
#[derive(Drop)]
pub struct Counting {
    /// How many frames were written, at most 2^64 - 1.
    pub frames: u64,
}

impl FrameWriter for Counting {
    ghost use Rattle.amqp_vectors_streams.specs.Counting.{counting};

    type Refusal = Infallible;

    ghost manner = { counting };

    fn write_frame<K: Sink>(
        &mut self,
        out: &mut OutputBuffer,
        sink: &mut K,
        raw: AMQPRawFrame<'_>,
    ) -> Result<(), RunError<Infallible>> {
        match write_canonical(out, sink, raw) {
            Ok(()) => {
                self.frames = self.frames.saturating_add(1);
                Ok(())
            }
            Err(error) => Err(RunError::Stream(error)),
        }
    }

    fn finish(&self) -> Result<(), Infallible> {
        Ok(())
    }
}
