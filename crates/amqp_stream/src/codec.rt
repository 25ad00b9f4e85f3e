//! A reader and an output buffer, reserved in full, and what runs over them.

ghost use Rattle.std.specs.Prelude.{◌≡◌, ◌≢◌, ◌⊎◌, ◌+◌, ◌-◌, ◌≤◌, length, Err, IfOk, IfErr};
ghost use Rattle.amqp_types.specs.Levels.{plain, level_of};
ghost use Rattle.amqp_stream.specs.Changes.{◌⇒◌};
ghost use Rattle.amqp_stream.specs.Calls.{call_of};
ghost use Rattle.amqp_stream.specs.Runs.{CanonicalRun, WriterRun, NeverRan};
ghost use Rattle.amqp_stream.specs.Causes.{NeverBegan};
ghost use Rattle.amqp_stream.specs.Reports.{channel_in, unreported};
ghost use Rattle.amqp_stream.specs.Reports.{WriterReport, NeverRanReport};
ghost use Rattle.amqp_stream.specs.Reports.{CanonicalReport, NeverBeganReport};

use crate::canonical::{Canonical, TidyCanonical};
use crate::engine::run_with;
use crate::errors::{RunError, StreamError};
use crate::frame_writer::FrameWriter;
use crate::output_buffer::OutputBuffer;
use crate::reader::FrameReader;
use crate::report::{RunReport, unrefused_report, unreported};
use crate::sink::Sink;
use crate::source::Source;
use amqp_types::{ChunkSize, NoMemory, Profile};
use std::alloc::Global;
use std::marker::Model;

/// The result of a run with its report: it ended before what is held of the bytes that came.
fn reported<E>(reader: &FrameReader, came: u64, ended: Result<(), E>) -> Result<(), RunReport<E>>
    ensures error { unreported result ≡ ended }
    ensures place { IfErr result (λ report. report.place ≡ came - length reader.now.held) }
    ensures channel { IfErr result (λ report. report.channel ≡ channel_in reader.now.held) }
    ensures few { length reader.now.held ≤ reader.now.limit + 8 }
{
    let held = reader.held().len() as u64;
    match ended {
        Ok(()) => Ok(()),
        Err(error) => Err(RunReport {
            error,
            place: came.saturating_sub(held),
            channel: reader.channel(),
        }),
    }
}

/// A reader and an output buffer, both reserved in full, over which streams are read and written.
#[derive(Drop)]
pub struct Codec {
    reader: FrameReader,
    out: OutputBuffer,
}

impl Model for Codec {
    ghost use Rattle.std.specs.Prelude.{ℕ, ◌+◌, ◌≤◌};

    ghost Value = { ℕ };

    ghost view = { λ codec. codec.reader.limit };

    ghost invariant = { λ codec. codec.reader.limit + 8 ≤ codec.out.room };
}

impl Codec {
    /// A codec for payloads of at most so many bytes. In contracts a codec is that limit. It holds two buffers of the
    /// largest frame's size, and the scratch in which entries of tables are sorted: eight times that size.
    pub fn open(alloc: Global, max_payload: ChunkSize) -> Result<Codec, NoMemory>
        ensures { IfOk result (λ codec. codec ≡ max_payload) }
    {
        let reader = FrameReader::open(alloc, max_payload)?;
        let out = OutputBuffer::open(alloc, max_payload as usize + 8)?;
        Ok(Codec { reader, out })
    }

    /// Writes for each frame that is read, to the end of input or an error, and reports where that is. Each read takes
    /// one of the read budget. What an earlier call left in the codec is dropped.
    pub fn run_reported<W: FrameWriter, S: Source, K: Sink>(
        &mut self,
        writer: &mut W,
        source: &mut S,
        sink: &mut K,
        budget: u64,
    ) -> Result<(), RunReport<RunError<W::Refusal>>>
        ensures limit { self.new ≡ self.old }
        ensures run { WriterReport W.manner (writer.old ⇒ writer.new) S.supply K.store
            (call_of self.old budget (source.old ⇒ source.new) (sink.old ⇒ sink.new)) result }
    {
        self.reader.clear();
        let mut came = 0;
        let ended = run_with(
            &mut self.reader,
            &mut self.out,
            writer,
            source,
            sink,
            budget,
            &mut came,
        );
        reported(&self.reader, came, ended)
    }

    /// The same, without where the run ended.
    pub fn run<W: FrameWriter, S: Source, K: Sink>(
        &mut self,
        writer: &mut W,
        source: &mut S,
        sink: &mut K,
        budget: u64,
    ) -> Result<(), RunError<W::Refusal>>
        ensures limit { self.new ≡ self.old }
        ensures run { WriterRun W.manner (writer.old ⇒ writer.new) S.supply K.store
            (call_of self.old budget (source.old ⇒ source.new) (sink.old ⇒ sink.new)) result }
    {
        unreported(self.run_reported(writer, source, sink, budget))
    }

    /// Writes the canonical bytes of each frame that is read in a profile, to the end of input or an error, and reports
    /// where that is. Each read takes one of the read budget. What an earlier call left in the codec is dropped. No
    /// memory is taken.
    pub fn rewrite_reported<S: Source, K: Sink>(
        &mut self,
        profile: Profile,
        source: &mut S,
        sink: &mut K,
        budget: u64,
    ) -> Result<(), RunReport<StreamError>>
        ensures limit { self.new ≡ self.old }
        ensures run { CanonicalReport (level_of profile) S.supply K.store
            (call_of self.old budget (source.old ⇒ source.new) (sink.old ⇒ sink.new)) result }
        ensures memory { unreported result ≢ Err StreamError.NoMemory }
    {
        match profile {
            Profile::Plain => {
                unrefused_report(self.run_reported(&mut Canonical, source, sink, budget))
            }
            Profile::Tidy => {
                unrefused_report(self.run_reported(&mut TidyCanonical, source, sink, budget))
            }
        }
    }

    /// The same, without where the run ended.
    pub fn rewrite<S: Source, K: Sink>(
        &mut self,
        profile: Profile,
        source: &mut S,
        sink: &mut K,
        budget: u64,
    ) -> Result<(), StreamError>
        ensures limit { self.new ≡ self.old }
        ensures run { CanonicalRun (level_of profile) S.supply K.store
            (call_of self.old budget (source.old ⇒ source.new) (sink.old ⇒ sink.new)) result }
        ensures memory { result ≢ Err StreamError.NoMemory }
    {
        unreported(self.rewrite_reported(profile, source, sink, budget))
    }
}

/// Opens a codec and runs a writer over it, and reports where the run ended.
pub fn run_stream_reported<W: FrameWriter, S: Source, K: Sink>(
    alloc: Global,
    writer: &mut W,
    source: &mut S,
    sink: &mut K,
    max_payload: ChunkSize,
    budget: u64,
) -> Result<(), RunReport<RunError<W::Refusal>>>
    ensures run { WriterReport W.manner (writer.old ⇒ writer.new) S.supply K.store
        (call_of max_payload budget (source.old ⇒ source.new) (sink.old ⇒ sink.new)) result
        ⊎ NeverRanReport (writer.old ⇒ writer.new)
        (source.old ⇒ source.new) (sink.old ⇒ sink.new) result }
{
    match Codec::open(alloc, max_payload) {
        Ok(codec) => {
            let mut codec = codec;
            codec.run_reported(writer, source, sink, budget)
        }
        Err(_) => Err(RunReport::at_start(RunError::Stream(StreamError::NoMemory))),
    }
}

/// Opens a codec and runs a writer over it.
pub fn run_stream<W: FrameWriter, S: Source, K: Sink>(
    alloc: Global,
    writer: &mut W,
    source: &mut S,
    sink: &mut K,
    max_payload: ChunkSize,
    budget: u64,
) -> Result<(), RunError<W::Refusal>>
    ensures run { WriterRun W.manner (writer.old ⇒ writer.new) S.supply K.store
        (call_of max_payload budget (source.old ⇒ source.new) (sink.old ⇒ sink.new)) result
        ⊎ NeverRan (writer.old ⇒ writer.new)
        (source.old ⇒ source.new) (sink.old ⇒ sink.new) result }
{
    unreported(run_stream_reported(alloc, writer, source, sink, max_payload, budget))
}

/// Opens a codec, and canonicalizes with it what can be read, and reports where that ended.
pub fn canonicalize_reported<S: Source, K: Sink>(
    alloc: Global,
    source: &mut S,
    sink: &mut K,
    max_payload: ChunkSize,
    budget: u64,
) -> Result<(), RunReport<StreamError>>
    ensures run { CanonicalReport plain S.supply K.store
        (call_of max_payload budget (source.old ⇒ source.new) (sink.old ⇒ sink.new)) result
        ⊎ NeverBeganReport (source.old ⇒ source.new)
        (sink.old ⇒ sink.new) StreamError.NoMemory result }
    ensures never_untidy { unreported result ≢ Err StreamError.NotTidy }
{
    match Codec::open(alloc, max_payload) {
        Ok(codec) => {
            let mut codec = codec;
            codec.rewrite_reported(Profile::Plain, source, sink, budget)
        }
        Err(_) => Err(RunReport::at_start(StreamError::NoMemory)),
    }
}

/// Writes the canonical encoding of each frame that can be read, in order: `Ok` only where all that the source gives is
/// whole frames within the limit, and else the error says why the frame after those that were written was not.
pub fn canonicalize<S: Source, K: Sink>(
    alloc: Global,
    source: &mut S,
    sink: &mut K,
    max_payload: ChunkSize,
    budget: u64,
) -> Result<(), StreamError>
    ensures run { CanonicalRun plain S.supply K.store
        (call_of max_payload budget (source.old ⇒ source.new) (sink.old ⇒ sink.new)) result
        ⊎ NeverBegan (source.old ⇒ source.new)
        (sink.old ⇒ sink.new) StreamError.NoMemory result }
    ensures never_untidy { result ≢ Err StreamError.NotTidy }
{
    unreported(canonicalize_reported(alloc, source, sink, max_payload, budget))
}
