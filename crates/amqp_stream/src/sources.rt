//! Sources in memory, and a reader of the system.

ghost use Rattle.std.specs.Prelude.{◌≡◌, ◌≢◌, ◌<◌, ◌≤◌, [], length, min, Contains, IfOk};
ghost use Rattle.std.specs.Prelude.{IsErr, OnOk, OnErr, None, Some};
ghost use Rattle.amqp_stream.specs.Ends.{Takes, Rises, IsEmpty, last, piece_of};
ghost use Rattle.std.specs.Io.KnownBytes.{ReadConsumes};
ghost use Rattle.amqp_stream.specs.Scripts.{supply_of, faultless, most_of, supply_over};

use crate::source::{Source, SourceFault};
use std::io::{ErrorKind, Read};
use std::marker::Model;

/// Bytes in memory, of which each read gives as many as fit.
#[derive(Drop)]
pub struct SliceSource<'a> {
    bytes: &'a [u8],
}

impl<'a> Model for SliceSource<'a> {
    ghost use Rattle.std.specs.Prelude.{ℕ, List};

    ghost Value = { List ℕ };

    ghost view = { λ source. source.bytes.now };
}

impl<'a> SliceSource<'a> {
    /// All of the bytes are left.
    pub fn new(bytes: &'a [u8]) -> SliceSource<'a>
        ensures { result ≡ bytes.now }
    {
        SliceSource { bytes }
    }
}

impl<'a> Source for SliceSource<'a> {
    ghost supply = { faultless };

    fn read(&mut self, buf: &mut [u8]) -> Result<usize, SourceFault>
        requires { 0 < length buf.old }
        ensures bound { IfOk result (λ n. n ≤ length buf.old) }
        ensures takes { Takes (faultless self.old)
            (faultless self.new) (piece_of result buf.new) 1 }
        ensures end { IfOk result (λ n. n ≡ 0 → IsEmpty (faultless self.new).left) }
        ensures fault { OnErr result
            (Rises (faultless self.old).faults (faultless self.new).faults) }
        ensures most { (faultless self.new).faults ≤ last }

        // As many bytes as fit are given.
        ensures count { result ≡ Ok (min (length self.old) (length buf.old)) }
    {
        let count = self.bytes.len().min(buf.len());
        let (piece, rest) = self.bytes.split_at(count);
        buf[..count].copy_from_slice(piece);
        self.bytes = rest;
        Ok(count)
    }
}

/// Bytes in memory, given by a script: which reads fail, counted from 0, and how many bytes each
/// read gives at most. At least one is given while any is left.
#[derive(Drop)]
pub struct PieceSource<'a> {
    bytes: &'a [u8],
    pieces: &'a [usize],
    failing: &'a [u64],
    reads: u64,
    faults: u64,
}

impl<'a> Model for PieceSource<'a> {
    ghost use Rattle.amqp_stream.specs.Scripts.{ScriptedSource};

    ghost Value = { ScriptedSource };

    ghost view = { λ source.
        record {
          left = source.bytes.now;
          pieces = source.pieces.now;
          failing = source.failing.now;
          reads = source.reads;
          faults = source.faults;
        } };
}

impl<'a> PieceSource<'a> {
    /// All of the bytes are left, and no read was made. After the end of `pieces` as much is given as
    /// fits.
    pub fn new(bytes: &'a [u8], pieces: &'a [usize], failing: &'a [u64]) -> PieceSource<'a>
        ensures { result
            ≡ record {
              left = bytes.now;
              pieces = pieces.now;
              failing = failing.now;
              reads = 0;
              faults = 0;
            } }
    {
        PieceSource {
            bytes,
            pieces,
            failing,
            reads: 0,
            faults: 0,
        }
    }
}

/// At most so many bytes: as the script has it for the call, one at least, and after its end as many
/// as fit.
pub(crate) fn most_at(pieces: &[usize], call: u64, fit: usize) -> usize
    ensures { result ≡ most_of pieces.now call fit }
{
    match pieces.get(call as usize) {
        Some(most) => fit.min((*most).max(1)),
        None => fit,
    }
}

impl<'a> Source for PieceSource<'a> {
    ghost supply = { supply_of };

    fn read(&mut self, buf: &mut [u8]) -> Result<usize, SourceFault>
        requires { 0 < length buf.old }
        ensures bound { IfOk result (λ n. n ≤ length buf.old) }
        ensures takes { Takes (supply_of self.old)
            (supply_of self.new) (piece_of result buf.new) 1 }
        ensures end { IfOk result (λ n. n ≡ 0 → IsEmpty (supply_of self.new).left) }
        ensures fault { OnErr result (Rises self.old.faults self.new.faults) }
        ensures most { self.new.faults ≤ last }
        ensures faultless { OnOk result (self.new.faults ≡ self.old.faults) }

        // A listed call fails, and no other. Any other gives as the script has it.
        ensures listed { Contains self.old.failing self.old.reads → IsErr result }
        ensures only_listed { OnErr result (Contains self.old.failing self.old.reads) }
        ensures count { IfOk result (λ n. n
            ≡ min (length self.old.left)
            (most_of self.old.pieces self.old.reads (length buf.old))) }
        ensures script { (self.new.pieces ≡ self.old.pieces)
            × (self.new.failing ≡ self.old.failing) }
    {
        let call = self.reads;
        self.reads = self.reads.saturating_add(1);
        if self.failing.contains(&call) {
            self.faults = self.faults.saturating_add(1);
            return Err(SourceFault);
        }
        let most = most_at(self.pieces, call, buf.len());
        let count = self.bytes.len().min(most);
        let (piece, rest) = self.bytes.split_at(count);
        buf[..count].copy_from_slice(piece);
        self.bytes = rest;
        Ok(count)
    }
}

/// One read, made again where a signal interrupts it.
fn read_again<R: Read>(reader: &mut R, buf: &mut [u8]) -> Result<usize, SourceFault>
    ensures bound { IfOk result (λ n. n ≤ length buf.old) }
    ensures bytes { ReadConsumes (R.remaining reader.old) (R.remaining reader.new) result buf.new }
{
    'tries: for _ in 0..u64::MAX {
        match reader.read(buf) {
            Ok(count) => return Ok(count),
            Err(error) => {
                if error.kind() != ErrorKind::Interrupted {
                    return Err(SourceFault);
                }
            }
        }
    }
    Err(SourceFault)
}

/// A reader of the system. What is left is what the reader has left, where it reports its bytes; each failed read is
/// counted. One that a signal interrupts is made again.
#[derive(Drop)]
pub struct StdSource<R> {
    reader: R,
    faults: u64,
}

impl<R> Model for StdSource<R> {
    ghost use Rattle.std.specs.Prelude.{◌<◌, ◌^◌};
    ghost use Rattle.amqp_stream.specs.Scripts.{CountedReads};

    ghost Value = { CountedReads R };

    ghost view = { λ source. record { reader = source.reader; faults = source.faults } };

    ghost invariant = { λ source. source.faults < 2 ^ 64 };
}

impl<R: Read> StdSource<R> {
    /// No read has failed yet.
    pub fn new(reader: R) -> StdSource<R>
        ensures { result ≡ record { reader = reader; faults = 0 } }
    {
        StdSource { reader, faults: 0 }
    }
}

impl<R: Read> Source for StdSource<R> {
    ghost supply = { λ source. supply_over (R.remaining source.reader) source.faults };

    fn read(&mut self, buf: &mut [u8]) -> Result<usize, SourceFault>
        requires { 0 < length buf.old }
        ensures bound { IfOk result (λ n. n ≤ length buf.old) }
        ensures takes { Takes
            (supply_over (R.remaining self.old.reader) self.old.faults)
            (supply_over (R.remaining self.new.reader) self.new.faults)
            (piece_of result buf.new) 1 }
        ensures end { IfOk result (λ n. n ≡ 0 → IsEmpty (R.remaining self.new.reader)) }
        ensures fault { OnErr result (Rises self.old.faults self.new.faults) }
        ensures most { self.new.faults ≤ last }
        ensures faultless { OnOk result (self.new.faults ≡ self.old.faults) }
    {
        match read_again(&mut self.reader, buf) {
            Ok(count) => Ok(count),
            Err(SourceFault) => {
                self.faults = self.faults.saturating_add(1);
                Err(SourceFault)
            }
        }
    }
}
