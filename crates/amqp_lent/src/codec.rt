//! A codec that takes no memory once it is open.

ghost use Rattle.std.specs.Prelude.{◌≡◌, ◌≢◌, ◌⊎◌, Err, IfOk};
ghost use Rattle.amqp_types.specs.Levels.{plain};
ghost use Rattle.amqp_stream.specs.Changes.{◌⇒◌};
ghost use Rattle.amqp_stream.specs.Calls.{call_of};
ghost use Rattle.amqp_stream.specs.Runs.{CanonicalRun};
ghost use Rattle.amqp_stream.specs.Causes.{NeverBegan};
ghost use Rattle.amqp_stream.specs.Reports.{CanonicalReport, NeverBeganReport, unreported};
ghost use Rattle.amqp_lent.specs.Errors.{as_stream, as_stream_reported, codec_error};

use crate::errors::LentError;
use amqp_stream::{Codec, RunReport, Sink, Source, StreamError, unreported};
use amqp_types::{ChunkSize, NoMemory, Profile};
use std::alloc::Global;
use std::marker::Model;

/// A codec that canonicalizes streams and takes no memory once it is open. In contracts it is the limit of
/// payloads, in bytes.
#[derive(Drop)]
pub struct LentCodec {
    codec: Codec,
}

impl Model for LentCodec {
    ghost use Rattle.std.specs.Prelude.{ℕ};

    ghost Value = { ℕ };

    ghost view = { λ lent. lent.codec };
}

/// The same error, which is neither of the two that never come.
fn lent_error(error: StreamError) -> LentError
    requires memory { error ≢ StreamError.NoMemory }
    requires never_untidy { error ≢ StreamError.NotTidy }
    ensures { codec_error result ≡ error }
{
    match error {
        StreamError::UnknownFrameType => LentError::UnknownFrameType,
        StreamError::BadProtocolHeader => LentError::BadProtocolHeader,
        StreamError::TooLarge => LentError::TooLarge,
        StreamError::BadFrameEnd => LentError::BadFrameEnd,
        StreamError::UnknownClass => LentError::UnknownClass,
        StreamError::UnknownMethod => LentError::UnknownMethod,
        StreamError::ShortPayload => LentError::ShortPayload,
        StreamError::TrailingBytes => LentError::TrailingBytes,
        StreamError::NotUtf8 => LentError::NotUtf8,
        StreamError::UnknownTag => LentError::UnknownTag,
        StreamError::TooDeep => LentError::TooDeep,
        StreamError::CutShort => LentError::CutShort,
        StreamError::TurnsSpent => LentError::TurnsSpent,
        StreamError::ReadFault => LentError::ReadFault,
        StreamError::WriteFault => LentError::WriteFault,
        StreamError::NotTidy => unreachable!(),
        StreamError::NoMemory => unreachable!(),
    }
}

/// What a stream returned and reported, with the same error.
fn lent_reported(answer: Result<(), RunReport<StreamError>>) -> Result<(), RunReport<LentError>>
    requires memory { unreported answer ≢ Err StreamError.NoMemory }
    requires never_untidy { unreported answer ≢ Err StreamError.NotTidy }
    ensures { answer ≡ as_stream_reported result }
{
    match answer {
        Ok(()) => Ok(()),
        Err(report) => Err(RunReport {
            error: lent_error(report.error),
            place: report.place,
            channel: report.channel,
        }),
    }
}

/// The same back.
fn stream_reported(answer: Result<(), RunReport<LentError>>) -> Result<(), RunReport<StreamError>>
    ensures { result ≡ as_stream_reported answer }
{
    match answer {
        Ok(()) => Ok(()),
        Err(report) => Err(RunReport {
            error: StreamError::from(report.error),
            place: report.place,
            channel: report.channel,
        }),
    }
}

impl LentCodec {
    /// A codec for payloads of at most so many bytes. All its memory is taken here.
    pub fn open(alloc: Global, max_payload: ChunkSize) -> Result<LentCodec, NoMemory>
        ensures { IfOk result (λ codec. codec ≡ max_payload) }
    {
        let codec = Codec::open(alloc, max_payload)?;
        Ok(LentCodec { codec })
    }

    /// Writes the canonical bytes of each frame that can be read, to the end of input or an error, and reports where
    /// that is. Each read takes one of the read budget. What an earlier call left in the codec is dropped.
    pub fn canonicalize_reported<S: Source, K: Sink>(
        &mut self,
        source: &mut S,
        sink: &mut K,
        budget: u64,
    ) -> Result<(), RunReport<LentError>>
        ensures limit { self.new ≡ self.old }
        ensures run { CanonicalReport plain S.supply K.store
            (call_of self.old budget (source.old ⇒ source.new) (sink.old ⇒ sink.new))
            (as_stream_reported result) }
    {
        lent_reported(
            self.codec
                .rewrite_reported(Profile::Plain, source, sink, budget),
        )
    }

    /// The same, without where it ended.
    pub fn canonicalize<S: Source, K: Sink>(
        &mut self,
        source: &mut S,
        sink: &mut K,
        budget: u64,
    ) -> Result<(), LentError>
        ensures limit { self.new ≡ self.old }
        ensures run { CanonicalRun plain S.supply K.store
            (call_of self.old budget (source.old ⇒ source.new) (sink.old ⇒ sink.new))
            (as_stream result) }
    {
        unreported(self.canonicalize_reported(source, sink, budget))
    }
}

/// Opens a codec, and canonicalizes with it what can be read, and reports where that ended. Memory runs out before the
/// first read, or not at all.
pub fn canonicalize_lent_reported<S: Source, K: Sink>(
    alloc: Global,
    source: &mut S,
    sink: &mut K,
    max_payload: ChunkSize,
    budget: u64,
) -> Result<(), RunReport<StreamError>>
    ensures run { CanonicalReport plain S.supply K.store
        (call_of max_payload budget (source.old ⇒ source.new) (sink.old ⇒ sink.new)) result
        ⊎ NeverBeganReport (source.old ⇒ source.new)
        (sink.old ⇒ sink.new) StreamError.NoMemory result }
    ensures never_untidy { unreported result ≢ Err StreamError.NotTidy }
{
    match LentCodec::open(alloc, max_payload) {
        Ok(codec) => {
            let mut codec = codec;
            stream_reported(codec.canonicalize_reported(source, sink, budget))
        }
        Err(_) => Err(RunReport::at_start(StreamError::NoMemory)),
    }
}

/// The same, without where it ended.
pub fn canonicalize_lent<S: Source, K: Sink>(
    alloc: Global,
    source: &mut S,
    sink: &mut K,
    max_payload: ChunkSize,
    budget: u64,
) -> Result<(), StreamError>
    ensures run { CanonicalRun plain S.supply K.store
        (call_of max_payload budget (source.old ⇒ source.new) (sink.old ⇒ sink.new)) result
        ⊎ NeverBegan (source.old ⇒ source.new)
        (sink.old ⇒ sink.new) StreamError.NoMemory result }
    ensures never_untidy { result ≢ Err StreamError.NotTidy }
{
    unreported(canonicalize_lent_reported(alloc, source, sink, max_payload, budget))
}
