//! A reader and a writer of the system as source and sink: what no clause says of them.

use crate::asking::{HEARTBEAT, LIMIT, START, START_IN_ORDER, TWO_HEARTBEATS};
use crate::vector::canonicalized;
use amqp_stream::{
    Sink, SinkFault, Source, SourceFault, StdSink, StdSource, StreamError, canonicalize,
};
use amqp_vectors::asking::{same, same_in};
use std::cell::Cell;
use std::io::{Cursor, Error, ErrorKind, Read, Result as IoResult, Write};
use std::test::Fail;

/// A writer that takes at most five bytes a call, counts its calls, and fails from so many flushes on.
#[derive(Drop)]
struct Tally<'a> {
    taken: &'a Cell<usize>,
    flushes: &'a Cell<u64>,
    flushes_taken: &'a Cell<usize>,
    fails_from: u64,
}

impl<'a> Write for Tally<'a> {
    fn write(&mut self, buf: &[u8]) -> IoResult<usize> {
        let count = buf.len().min(5);
        self.taken.set(self.taken.get().saturating_add(count));
        Ok(count)
    }

    fn flush(&mut self) -> IoResult<()> {
        let flush = self.flushes.get();
        self.flushes.set(flush.saturating_add(1));
        if flush >= self.fails_from {
            return Err(Error::from(ErrorKind::BrokenPipe));
        }
        self.flushes_taken.set(self.taken.get());
        Ok(())
    }
}

/// What a write returns, and after it how many bytes the writer took, and how many of them are flushed.
const WRITES: &[(Result<usize, SinkFault>, usize, usize)] = &[
    (Ok(5), 5, 5),
    (Ok(5), 10, 10),
    (Err(SinkFault), 15, 10),
    (Err(SinkFault), 15, 10),
];

/// Each write flushes what it wrote, and fails where that does. After that nothing is written, and each write fails.
#[test]
fn each_write_is_flushed(_rt: HostRuntime) -> Result<(), Fail> {
    let (taken, flushes, flushed) = (Cell::new(0), Cell::new(0), Cell::new(0));
    let mut sink = StdSink::new(Tally {
        taken: &taken,
        flushes: &flushes,
        flushes_taken: &flushed,
        fails_from: 2,
    });
    for (outcome, written, settled) in WRITES {
        same(sink.write(&HEARTBEAT), *outcome)?;
        same(taken.get(), *written)?;
        same(flushed.get(), *settled)?;
    }
    same(flushes.get(), 3)?;
    same(sink.unflushed(), 5)
}

/// A stream ends with the first write whose flush fails.
#[test]
fn a_failed_flush_ends_a_stream(rt: HostRuntime) -> Result<(), Fail> {
    let (taken, flushes, flushed) = (Cell::new(0), Cell::new(0), Cell::new(0));
    let mut sink = StdSink::new(Tally {
        taken: &taken,
        flushes: &flushes,
        flushes_taken: &flushed,
        fails_from: 1,
    });
    let mut source = StdSource::new(Cursor::new(TWO_HEARTBEATS));
    let found = canonicalize(rt.alloc(), &mut source, &mut sink, LIMIT, 100);
    same(found, Err(StreamError::WriteFault))?;
    same(taken.get(), 10)?;
    same(flushed.get(), 5)?;
    same(sink.unflushed(), 5)
}

/// What a cursor has from its position on, and what a slice has, is canonicalized into a vector.
#[test]
fn a_vector_has_the_canonical_bytes(rt: HostRuntime) -> Result<(), Fail> {
    let mut cursor = Cursor::new(TWO_HEARTBEATS);
    cursor.set_position(8);
    let rest = canonicalized(rt.alloc(), cursor, LIMIT)?;
    same(rest.as_slice(), HEARTBEAT.as_slice())?;
    let start = canonicalized(rt.alloc(), START.as_slice(), LIMIT)?;
    same(start.as_slice(), START_IN_ORDER.as_slice())
}

/// A reader that gives three bytes a call. A signal interrupts its second, and its fourth would block.
#[derive(Drop)]
struct Threes {
    calls: u8,
}

impl Read for Threes {
    fn read(&mut self, buf: &mut [u8]) -> IoResult<usize> {
        let call = self.calls;
        self.calls = self.calls.saturating_add(1);
        match call {
            1 => return Err(Error::from(ErrorKind::Interrupted)),
            3 => return Err(Error::from(ErrorKind::WouldBlock)),
            _ => {}
        }
        let count = buf.len().min(3);
        for byte in &mut buf[..count] {
            *byte = call;
        }
        Ok(count)
    }
}

/// What a read returns, and what stands in the buffer after it.
const READS: &[(Result<usize, SourceFault>, [u8; 4])] = &[
    (Ok(3), [0, 0, 0, 9]),
    (Ok(3), [2, 2, 2, 9]),
    (Err(SourceFault), [9, 9, 9, 9]),
    (Ok(3), [4, 4, 4, 9]),
];

/// Each read gives what the reader gave: one that was interrupted is made again, one that would block is a fault, and the
/// next goes on.
#[test]
fn each_read_is_one_of_the_reader(_rt: HostRuntime) -> Result<(), Fail> {
    let mut source = StdSource::new(Threes { calls: 0 });
    for (outcome, bytes) in READS {
        let mut buf = [9u8; 4];
        let found = source.read(&mut buf);
        same_in("a read", found, *outcome)?;
        same_in("a buffer", buf, *bytes)?;
    }
    Ok(())
}
