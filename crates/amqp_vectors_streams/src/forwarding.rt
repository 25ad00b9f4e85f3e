//! A loop over the frames of a source: each one is read, and its canonical bytes are written before the next.

ghost use Rattle.std.specs.Prelude.{◌≡◌, ◌+◌, ◌^◌, ◌<◌, ◌≤◌, [], length};
ghost use Rattle.amqp_wire.specs.Frames.{raw_of, frame_length};
ghost use Rattle.amqp_stream.specs.Writing.{WritesFrame};
ghost use Rattle.amqp_vectors_streams.specs.Forwarding.{Forwards};

use amqp_stream::{
    FrameReader, OutputBuffer, Sink, SinkFault, Source, StreamError, flush, write_canonical,
};
use amqp_wire::AMQPRawFrame;

/// Writes the canonical bytes of a borrowed frame, and leaves nothing pending.
fn write_now<K: Sink>(
    out: &mut OutputBuffer,
    sink: &mut K,
    raw: AMQPRawFrame<'_>,
) -> Result<(), StreamError>
    requires few { length raw.payload.now < 2 ^ 32 }
    requires empty { out.old.bytes ≡ [] }
    requires room { frame_length (raw_of raw) ≤ out.old.room }
    ensures out { out.new ≡ out.old }
    ensures writes { WritesFrame (raw_of raw.entry)
        (K.store sink.old) (K.store sink.new) [] [] result }
{
    match write_canonical(out, sink, raw) {
        Err(error) => Err(error),
        Ok(()) => match flush(out, sink) {
            Ok(()) => Ok(()),
            Err(SinkFault) => Err(StreamError::WriteFault),
        },
    }
}

/// Writes the canonical bytes of each frame that comes, before the next is read, to the end of input or an error.
/// Each read takes one of the read budget.
pub fn forward<S: Source, K: Sink>(
    reader: &mut FrameReader,
    out: &mut OutputBuffer,
    source: &mut S,
    sink: &mut K,
    budget: &mut u64,
) -> Result<(), StreamError>
    requires empty { out.old.bytes ≡ [] }
    requires room { reader.old.limit + 8 ≤ out.old.room }
    ensures limit { reader.new.limit ≡ reader.old.limit }
    ensures out { out.new ≡ out.old }
    ensures forwards { Forwards reader.old.limit reader.old.held budget.old budget.new
        (S.supply source.old) (S.supply source.new)
        (K.store sink.old) (K.store sink.new) reader.new.held result }
{
    'frames: loop {
        let Some(raw) = reader.next(source, budget)? else {
            return Ok(());
        };
        write_now(out, sink, raw)?;
    }
}
