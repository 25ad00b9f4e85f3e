//! Streams whose frames are written as lines of text.

ghost use Rattle.std.specs.Prelude.{◌≢◌, ◌⊎◌, Err};
ghost use Rattle.amqp_stream.specs.Changes.{◌⇒◌};
ghost use Rattle.amqp_stream.specs.Calls.{call_of};
ghost use Rattle.amqp_stream.specs.Causes.{NeverBegan};
ghost use Rattle.amqp_stream.specs.Reports.{NeverBeganReport, unreported};
ghost use Rattle.amqp_lines.specs.Dumping.{DumpReport, DumpRun};

use crate::line_text::LineText;
use amqp_stream::{
    FrameWriter, OutputBuffer, RunError, RunReport, Sink, Source, StreamError, gather,
    run_stream_reported, unrefused_report, unreported,
};
use amqp_types::ChunkSize;
use amqp_wire::AMQPRawFrame;
use std::alloc::Global;
use std::convert::Infallible;
use std::marker::Model;

/// Writes the line of each frame. What it keeps is memory that is used again, of which contracts see nothing.
#[derive(Drop)]
pub(crate) struct Dumper {
    text: LineText,
}

impl Model for Dumper {
    ghost Value = { Unit {0} };

    ghost view = { λ dumper. tt };
}

impl FrameWriter for Dumper {
    ghost use Rattle.amqp_lines.specs.Dumping.{dumping};

    type Refusal = Infallible;

    ghost manner = { dumping };

    fn write_frame<K: Sink>(
        &mut self,
        out: &mut OutputBuffer,
        sink: &mut K,
        raw: AMQPRawFrame<'_>,
    ) -> Result<(), RunError<Infallible>> {
        match self.text.put_line(raw) {
            Err(error) => return Err(RunError::Stream(error)),
            Ok(()) => {}
        }
        match gather(out, sink, self.text.line()) {
            Ok(()) => Ok(()),
            Err(_) => Err(RunError::Stream(StreamError::WriteFault)),
        }
    }

    fn finish(&self) -> Result<(), Infallible> {
        Ok(())
    }
}

/// Writes the line of each frame of a stream, to the end of input or an error, and reports where that is. `budget` is the
/// read budget: so many reads at most are made. `max_payload` is in bytes; a longer payload is `TooLarge`. Memory may
/// run out at any frame: a line is longer than its frame.
pub fn dump_reported<S: Source, K: Sink>(
    alloc: Global,
    source: &mut S,
    sink: &mut K,
    max_payload: ChunkSize,
    budget: u64,
) -> Result<(), RunReport<StreamError>>
    ensures run { DumpReport S.supply K.store
        (call_of max_payload budget (source.old ⇒ source.new) (sink.old ⇒ sink.new)) result
        ⊎ NeverBeganReport (source.old ⇒ source.new)
        (sink.old ⇒ sink.new) StreamError.NoMemory result }
    ensures never_untidy { unreported result ≢ Err StreamError.NotTidy }
{
    match LineText::open(alloc) {
        Ok(text) => {
            let mut writer = Dumper { text };
            let run = run_stream_reported(alloc, &mut writer, source, sink, max_payload, budget);
            unrefused_report(run)
        }
        Err(_) => Err(RunReport::at_start(StreamError::NoMemory)),
    }
}

/// The same, without where it ended.
pub fn dump<S: Source, K: Sink>(
    alloc: Global,
    source: &mut S,
    sink: &mut K,
    max_payload: ChunkSize,
    budget: u64,
) -> Result<(), StreamError>
    ensures run { DumpRun S.supply K.store
        (call_of max_payload budget (source.old ⇒ source.new) (sink.old ⇒ sink.new)) result
        ⊎ NeverBegan (source.old ⇒ source.new)
        (sink.old ⇒ sink.new) StreamError.NoMemory result }
    ensures never_untidy { result ≢ Err StreamError.NotTidy }
{
    unreported(dump_reported(alloc, source, sink, max_payload, budget))
}
