//! Sinks in memory, and a writer of the system.

ghost use Rattle.std.specs.Prelude.{◌≡◌, ◌+◌, ◌<◌, ◌≤◌, [], length, min, take};
ghost use Rattle.std.specs.Prelude.{Contains, IfOk, IsErr, OnOk, OnErr, MatchResult};
ghost use Rattle.std.specs.Io.KnownBytes.{Appends, WriteAppends};
ghost use Rattle.amqp_stream.specs.Ends.{Gains, Rises, last, piece_of};
ghost use Rattle.amqp_stream.specs.Scripts.{store_of, most_of, store_over};

use crate::sink::{Sink, SinkFault};
use crate::sources::most_at;
use std::alloc::Global;
use std::io::{ErrorKind, Write};
use std::marker::Model;

/// A list of bytes that grows by whole pieces. Running out of memory is a counted fault.
#[derive(Drop)]
pub struct VecSink {
    bytes: Vec<u8>,
    faults: u64,
}

impl Model for VecSink {
    ghost use Rattle.std.specs.Prelude.{◌<◌, ◌^◌};
    ghost use Rattle.amqp_stream.specs.Scripts.{KeptBytes};

    ghost Value = { KeptBytes };

    ghost view = { λ sink. record { bytes = sink.bytes.items; faults = sink.faults } };

    ghost invariant = { λ sink. sink.faults < 2 ^ 64 };
}

impl VecSink {
    /// Nothing was taken, and no write has failed yet.
    pub fn new(alloc: Global) -> VecSink
        ensures { result ≡ record { bytes = []; faults = 0 } }
    {
        VecSink {
            bytes: Vec::new(alloc),
            faults: 0,
        }
    }

    /// What was taken.
    pub fn bytes(&self) -> &[u8]
        ensures { result.now ≡ self.now.bytes }
    {
        self.bytes.as_slice()
    }
}

impl Sink for VecSink {
    ghost store = { store_of };

    fn write(&mut self, piece: &[u8]) -> Result<usize, SinkFault>
        requires { 0 < length piece.now }
        ensures some { IfOk result (λ n. (0 < n) × (n ≤ length piece.now)) }
        ensures gains { Gains (store_of self.old) (store_of self.new) (piece_of result piece.now) }
        ensures fault { OnErr result (Rises self.old.faults self.new.faults) }
        ensures most { self.new.faults ≤ last }
        ensures faultless { OnOk result (self.new.faults ≡ self.old.faults) }

        // A write that does not fail takes the whole piece.
        ensures whole { IfOk result (λ n. n ≡ length piece.now) }
    {
        match self.bytes.extend_from_slice(piece) {
            Ok(()) => Ok(piece.len()),
            Err(_) => {
                self.faults = self.faults.saturating_add(1);
                Err(SinkFault)
            }
        }
    }
}

/// A list of bytes that grows by a script: which writes fail, counted from 0, and how many bytes
/// each write takes at most. Running out of memory is a counted fault.
#[derive(Drop)]
pub struct ScriptSink<'a> {
    kept: VecSink,
    pieces: &'a [usize],
    failing: &'a [u64],
    writes: u64,
}

impl<'a> Model for ScriptSink<'a> {
    ghost use Rattle.amqp_stream.specs.Scripts.{ScriptedSink};

    ghost Value = { ScriptedSink };

    ghost view = { λ sink.
        record {
          kept = sink.kept;
          pieces = sink.pieces.now;
          failing = sink.failing.now;
          writes = sink.writes;
        } };
}

impl<'a> ScriptSink<'a> {
    /// Nothing was taken, and no write was made. After the end of `pieces` the whole piece is taken.
    pub fn new(alloc: Global, pieces: &'a [usize], failing: &'a [u64]) -> ScriptSink<'a>
        ensures { result
            ≡ record {
              kept = record { bytes = []; faults = 0 };
              pieces = pieces.now;
              failing = failing.now;
              writes = 0;
            } }
    {
        ScriptSink {
            kept: VecSink::new(alloc),
            pieces,
            failing,
            writes: 0,
        }
    }

    /// What was taken.
    pub fn bytes(&self) -> &[u8]
        ensures { result.now ≡ self.now.kept.bytes }
    {
        self.kept.bytes()
    }

    /// How many writes were made.
    pub fn writes(&self) -> u64
        ensures { result ≡ self.now.writes }
    {
        self.writes
    }
}

impl<'a> Sink for ScriptSink<'a> {
    ghost store = { λ sink. store_of sink.kept };

    fn write(&mut self, piece: &[u8]) -> Result<usize, SinkFault>
        requires { 0 < length piece.now }
        ensures some { IfOk result (λ n. (0 < n) × (n ≤ length piece.now)) }
        ensures gains { Gains (store_of self.old.kept)
            (store_of self.new.kept) (piece_of result piece.now) }
        ensures fault { OnErr result (Rises self.old.kept.faults self.new.kept.faults) }
        ensures most { self.new.kept.faults ≤ last }
        ensures faultless { OnOk result (self.new.kept.faults ≡ self.old.kept.faults) }

        // Each call is counted, whether it fails or not.
        ensures writes { self.new.writes ≡ min (self.old.writes + 1) last }

        // A listed call fails. Any other that does not run out of memory takes as the script has it.
        ensures listed { Contains self.old.failing self.old.writes → IsErr result }
        ensures count { IfOk result
            (λ n. n ≡ most_of self.old.pieces self.old.writes (length piece.now)) }
        ensures script { (self.new.pieces ≡ self.old.pieces)
            × (self.new.failing ≡ self.old.failing) }
    {
        let call = self.writes;
        self.writes = self.writes.saturating_add(1);
        if self.failing.contains(&call) {
            self.kept.faults = self.kept.faults.saturating_add(1);
            return Err(SinkFault);
        }
        let count = most_at(self.pieces, call, piece.len());
        self.kept.write(&piece[..count])
    }
}

/// One write, made again where a signal interrupts it.
fn write_again<W: Write>(writer: &mut W, piece: &[u8]) -> Result<usize, SinkFault>
    ensures bound { IfOk result (λ n. n ≤ length piece.now) }
    ensures bytes { WriteAppends (W.contents writer.old) (W.contents writer.new) result piece.now }
{
    'tries: for _ in 0..u64::MAX {
        match writer.write(piece) {
            Ok(count) => return Ok(count),
            Err(error) => {
                if error.kind() != ErrorKind::Interrupted {
                    return Err(SinkFault);
                }
            }
        }
    }
    Err(SinkFault)
}

/// One write, and a flush of what was taken. Where one of them fails, or nothing was taken, the error is how many bytes were
/// taken and are not known to be flushed.
#[tactic(auto, using(crate::proofs::Flushes::flushed, crate::proofs::Flushes::failed))]
fn write_flushed<W: Write>(writer: &mut W, piece: &[u8]) -> Result<usize, usize>
    ensures some { IfOk result (λ n. 0 < n) }
    ensures bound { MatchResult result (λ n. n ≤ length piece.now) (λ n. n ≤ length piece.now) }
    ensures bytes { MatchResult result
        (λ n. Appends (W.contents writer.old) (W.contents writer.new) (take n piece.now))
        (λ n. Appends (W.contents writer.old) (W.contents writer.new) (take n piece.now)) }
{
    match write_again(writer, piece) {
        Ok(count) if count > 0 => match writer.flush() {
            Ok(()) => Ok(count),
            Err(_) => Err(count),
        },
        _ => Err(0),
    }
}

/// A writer of the system, flushed in each write. What was taken is what the writer has, where it reports its bytes; each
/// failed write is counted. One that a signal interrupts is made again.
///
/// Where a flush fails, so does the write, and what becomes of the bytes that the writer took in it is not known. They are
/// not reported as taken, and each later write fails and writes nothing.
#[derive(Drop)]
pub struct StdSink<W> {
    writer: W,
    unflushed: usize,
    faults: u64,
}

impl<W> Model for StdSink<W> {
    ghost use Rattle.std.specs.Prelude.{◌<◌, ◌^◌};
    ghost use Rattle.amqp_stream.specs.Scripts.{CountedWrites};

    ghost Value = { CountedWrites W };

    ghost view = { λ sink.
        record { writer = sink.writer; unflushed = sink.unflushed; faults = sink.faults } };

    ghost invariant = { λ sink. (sink.faults < 2 ^ 64) × (sink.unflushed < 2 ^ 64) };
}

impl<W: Write> StdSink<W> {
    /// No write has failed yet.
    pub fn new(writer: W) -> StdSink<W>
        ensures { result ≡ record { writer = writer; unflushed = 0; faults = 0 } }
    {
        StdSink {
            writer,
            unflushed: 0,
            faults: 0,
        }
    }

    /// How many of the last bytes that the writer took are not known to be flushed: 0, until a flush fails.
    pub fn unflushed(&self) -> usize
        ensures { result ≡ self.now.unflushed }
    {
        self.unflushed
    }

    /// The writer.
    pub fn into_inner(self) -> W
        ensures { result ≡ self.writer }
    {
        self.writer
    }
}

impl<W: Write> Sink for StdSink<W> {
    ghost store = { λ sink. store_over (W.contents sink.writer) sink.unflushed sink.faults };

    #[tactic(auto, using(crate::proofs::Flushes::all_gained, crate::proofs::Flushes::none_gained))]
    fn write(&mut self, piece: &[u8]) -> Result<usize, SinkFault>
        requires { 0 < length piece.now }
        ensures some { IfOk result (λ n. (0 < n) × (n ≤ length piece.now)) }
        ensures gains { Gains
            (store_over (W.contents self.old.writer) self.old.unflushed self.old.faults)
            (store_over (W.contents self.new.writer) self.new.unflushed self.new.faults)
            (piece_of result piece.now) }
        ensures fault { OnErr result (Rises self.old.faults self.new.faults) }
        ensures most { self.new.faults ≤ last }
        ensures faultless { OnOk result (self.new.faults ≡ self.old.faults) }

        // Where the writer reports its bytes, those that were taken stand after the others.
        ensures bytes { IfOk result (λ n.
            Appends (W.contents self.old.writer) (W.contents self.new.writer) (take n piece.now)) }

        // A write that does not fail leaves all flushed. One that fails leaves so many of the piece unflushed.
        ensures flushed { OnOk result (self.new.unflushed ≡ 0) }
        ensures unflushed { OnErr result (self.old.unflushed ≡ 0
            → Appends (W.contents self.old.writer) (W.contents self.new.writer)
            (take self.new.unflushed piece.now)) }

        // After a flush that failed nothing is written.
        ensures lasts { 0 < self.old.unflushed → IsErr result
            × (self.new.writer ≡ self.old.writer) × (self.new.unflushed ≡ self.old.unflushed) }
    {
        if self.unflushed > 0 {
            self.faults = self.faults.saturating_add(1);
            return Err(SinkFault);
        }
        match write_flushed(&mut self.writer, piece) {
            Ok(count) => Ok(count),
            Err(unflushed) => {
                self.unflushed = unflushed;
                self.faults = self.faults.saturating_add(1);
                Err(SinkFault)
            }
        }
    }
}
