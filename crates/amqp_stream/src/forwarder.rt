//! Going on from call to call: each reads once at most, and writes for all whole frames that are then there.

ghost use Rattle.std.specs.Prelude.{◌≡◌, ◌≢◌, ◌+◌, ◌-◌, ◌≤◌, [], Some, None};
ghost use Rattle.std.specs.Prelude.{Ok, Err, IfOk, IfSome, length};
ghost use Rattle.amqp_types.specs.Levels.{plain};
ghost use Rattle.amqp_stream.specs.Changes.{◌⇒◌};
ghost use Rattle.amqp_stream.specs.Streaming.{ending_of};
ghost use Rattle.amqp_stream.specs.Forwarding.{ForwardsBy, Forwards, Lasts};
ghost use Rattle.amqp_stream.specs.Forwarding.{as_forward, forward_ending, lasting};
ghost use Rattle.amqp_stream.specs.declared.errors.StreamError.{StreamError};

use crate::canonical::Canonical;
use crate::engine::run_with;
use crate::errors::{RunError, StreamError};
use crate::frame_writer::FrameWriter;
use crate::output_buffer::OutputBuffer;
use crate::reader::FrameReader;
use crate::sink::Sink;
use crate::source::Source;
use amqp_types::{ChunkSize, NoMemory};
use std::alloc::Global;
use std::convert::Infallible;
use std::marker::Model;

/// What a call found.
#[derive(Clone, Copy, Debug, PartialEq, Eq)]
pub enum Forwarded {
    /// Bytes came, and more may come.
    More,

    /// The input ended after a whole frame.
    Ended,
}

/// The error, if it is returned from then on. After the others the next call goes on.
fn lasting(error: StreamError) -> Option<StreamError>
    ensures lasting { result ≡ lasting error }
    ensures lasts { IfSome result Lasts }
{
    match error {
        StreamError::CutShort | StreamError::TurnsSpent | StreamError::ReadFault => None,
        _ => Some(error),
    }
}

/// The result of a call in which nothing is refused.
fn unrefused(answer: Result<Forwarded, RunError<Infallible>>) -> Result<Forwarded, StreamError>
    ensures { answer ≡ as_forward result }
{
    match answer {
        Ok(forwarded) => Ok(forwarded),
        Err(RunError::Stream(error)) => Err(error),
        Err(RunError::Refused(never)) => match never {},
    }
}

/// A stream that goes on from call to call, over buffers that are reserved in full. Between two calls it holds the bytes that
/// were read and belong to no frame written for; nothing is pending.
#[derive(Drop)]
pub struct Forwarder {
    reader: FrameReader,
    out: OutputBuffer,
    came: u64,
    fault: Option<StreamError>,
}

impl Model for Forwarder {
    ghost use Rattle.std.specs.Prelude.{◌+◌, ◌≤◌, IfSome};
    ghost use Rattle.amqp_stream.specs.Forwarding.{Forwarding, Lasts};

    ghost Value = { Forwarding };

    ghost view = { λ f.
        record { limit = f.reader.limit; held = f.reader.held; came = f.came; fault = f.fault } };

    ghost invariant = { λ f. (f.reader.limit + 8 ≤ f.out.room) × IfSome f.fault Lasts };
}

impl Forwarder {
    /// A forwarder that holds nothing, for payloads of at most so many bytes. No later call takes memory.
    pub fn open(alloc: Global, max_payload: ChunkSize) -> Result<Forwarder, NoMemory>
        ensures { IfOk result
            (λ f. f ≡ record { limit = max_payload; held = []; came = 0; fault = None }) }
    {
        let reader = FrameReader::open(alloc, max_payload)?;
        let out = OutputBuffer::open(alloc, max_payload as usize + 8)?;
        Ok(Forwarder {
            reader,
            out,
            came: 0,
            fault: None,
        })
    }

    /// Begins anew, with nothing held.
    pub fn clear(&mut self)
        ensures { self.new ≡ record { limit = self.old.limit; held = []; came = 0; fault = None } }
    {
        self.reader.clear();
        self.came = 0;
        self.fault = None;
    }

    /// The held bytes: fewer than a whole frame, or those from a fault or from a refused frame on.
    pub fn held(&self) -> &[u8]
        ensures held { result.now ≡ self.now.held }
        ensures room { length self.now.held ≤ self.now.limit + 8 }
    {
        self.reader.held()
    }

    /// How many bytes came in all; the count stays at its last value, 2^64 - 1.
    pub fn came(&self) -> u64
        ensures { result ≡ self.now.came }
    {
        self.came
    }

    /// Where the held bytes begin in the input: how many bytes the frames before them have. After a fault of bytes that is
    /// the place of the frame at fault.
    pub fn place(&self) -> u64
        ensures { result ≡ self.now.came - length self.now.held }
    {
        self.came.saturating_sub(self.reader.held().len() as u64)
    }

    /// The error that each call returns from now on.
    pub fn fault(&self) -> Option<StreamError>
        ensures fault { result ≡ self.now.fault }
        ensures lasts { IfSome result Lasts }
    {
        self.fault
    }

    /// Reads once at most, and writes for all whole frames that are then held. After a failed read, and where the input
    /// ended, the next call goes on; a fault of bytes, of the sink or of memory is returned from then on. A frame that the
    /// writer refuses stays held, and the next call gives it to the writer again.
    pub fn forward_with<W: FrameWriter, S: Source, K: Sink>(
        &mut self,
        writer: &mut W,
        source: &mut S,
        sink: &mut K,
    ) -> Result<Forwarded, RunError<W::Refusal>>
        ensures forwards { self.old.fault ≡ None
            → ForwardsBy W.manner (writer.old ⇒ writer.new) (self.old ⇒ self.new)
            (S.supply source.old ⇒ S.supply source.new)
            (K.store sink.old ⇒ K.store sink.new) result }
        ensures never_spent { result ≢ Err (RunError.Stream StreamError.TurnsSpent) }

        // A lasting fault is returned again, and nothing is read or written.
        ensures again { (error : StreamError) → self.old.fault ≡ Some error
            → result ≡ Err (RunError.Stream error) }
        ensures same { (error : StreamError) → self.old.fault ≡ Some error → self.new ≡ self.old }
        ensures unstepped { (error : StreamError)
            → self.old.fault ≡ Some error → writer.new ≡ writer.old }
        ensures unread { (error : StreamError)
            → self.old.fault ≡ Some error → source.new ≡ source.old }
        ensures unwritten { (error : StreamError)
            → self.old.fault ≡ Some error → sink.new ≡ sink.old }
    {
        if let Some(error) = self.fault {
            return Err(RunError::Stream(error));
        }
        let (reader, out, came) = (&mut self.reader, &mut self.out, &mut self.came);
        match run_with(reader, out, writer, source, sink, 1, came) {
            Ok(()) => Ok(Forwarded::Ended),
            Err(RunError::Refused(why)) => Err(RunError::Refused(why)),
            Err(RunError::Stream(StreamError::TurnsSpent)) => Ok(Forwarded::More),
            Err(RunError::Stream(error)) => {
                self.fault = lasting(error);
                Err(RunError::Stream(error))
            }
        }
    }

    /// The same, writing the canonical bytes of each frame. No memory is taken.
    pub fn forward<S: Source, K: Sink>(
        &mut self,
        source: &mut S,
        sink: &mut K,
    ) -> Result<Forwarded, StreamError>
        ensures forwards { self.old.fault ≡ None → Forwards plain (self.old ⇒ self.new)
            (S.supply source.old ⇒ S.supply source.new)
            (K.store sink.old ⇒ K.store sink.new) result }
        ensures never_spent { result ≢ Err StreamError.TurnsSpent }

        // A lasting fault is returned again, and nothing is read or written.
        ensures again { (error : StreamError) → self.old.fault ≡ Some error → result ≡ Err error }
        ensures same { (error : StreamError) → self.old.fault ≡ Some error → self.new ≡ self.old }
        ensures unread { (error : StreamError)
            → self.old.fault ≡ Some error → source.new ≡ source.old }
        ensures unwritten { (error : StreamError)
            → self.old.fault ≡ Some error → sink.new ≡ sink.old }
    {
        unrefused(self.forward_with(&mut Canonical, source, sink))
    }
}
