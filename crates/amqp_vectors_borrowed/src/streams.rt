//! Streams through the codec of borrowed frames: worked examples, ends that fail, and memory that is refused.

use amqp_lent::{LentCodec, LentError, canonicalize_lent};
use amqp_stream::{PieceSource, ScriptSink, StreamError};
use amqp_vectors::asking::{same, same_in, shows};
use std::alloc::Global;
use std::test::Fail;

/// The limit on payloads, in bytes.
const LIMIT: u32 = 131_072;

/// Two heartbeats on channel 0.
const TWO_HEARTBEATS: [u8; 16] = [8, 0, 0, 0, 0, 0, 0, 206, 8, 0, 0, 0, 0, 0, 0, 206];

/// A broker's `connection.start`, whose properties are not in ascending key order.
const START: [u8; 97] = [
    1, 0, 0, 0, 0, 0, 89, 0, 10, 0, 10, 0, 9, 0, 0, 0, 52, 7, 112, 114, 111, 100, 117, 99, 116, 83,
    0, 0, 0, 8, 82, 97, 98, 98, 105, 116, 77, 81, 12, 99, 97, 112, 97, 98, 105, 108, 105, 116, 105,
    101, 115, 70, 0, 0, 0, 13, 10, 98, 97, 115, 105, 99, 46, 110, 97, 99, 107, 116, 1, 0, 0, 0, 14,
    80, 76, 65, 73, 78, 32, 65, 77, 81, 80, 76, 65, 73, 78, 0, 0, 0, 5, 101, 110, 95, 85, 83, 206,
];

/// The same in ascending key order.
const START_IN_ORDER: [u8; 97] = [
    1, 0, 0, 0, 0, 0, 89, 0, 10, 0, 10, 0, 9, 0, 0, 0, 52, 12, 99, 97, 112, 97, 98, 105, 108, 105,
    116, 105, 101, 115, 70, 0, 0, 0, 13, 10, 98, 97, 115, 105, 99, 46, 110, 97, 99, 107, 116, 1, 7,
    112, 114, 111, 100, 117, 99, 116, 83, 0, 0, 0, 8, 82, 97, 98, 98, 105, 116, 77, 81, 0, 0, 0,
    14, 80, 76, 65, 73, 78, 32, 65, 77, 81, 80, 76, 65, 73, 78, 0, 0, 0, 5, 101, 110, 95, 85, 83,
    206,
];

/// What is sent, which reads and writes fail, the outcome, and what is written.
type Row = (
    &'static [u8],
    &'static [u64],
    &'static [u64],
    Result<(), StreamError>,
    &'static [u8],
);

const ROWS: [(&str, Row); 6] = [
    (
        "a heartbeat with a payload",
        (
            &[8, 0, 0, 0, 0, 0, 1, 7, 206],
            &[],
            &[],
            Ok(()),
            &[8, 0, 0, 0, 0, 0, 0, 206],
        ),
    ),
    (
        "entries that are not in order",
        (&START, &[], &[], Ok(()), &START_IN_ORDER),
    ),
    (
        "a tag that names no kind",
        (
            &[
                1, 0, 1, 0, 0, 0, 14, 0, 50, 0, 10, 0, 0, 0, 0, 0, 0, 0, 2, 0, 90, 206,
            ],
            &[],
            &[],
            Err(StreamError::UnknownTag),
            &[],
        ),
    ),
    (
        "a class that is none",
        (
            &[1, 0, 1, 0, 0, 0, 2, 0, 99, 206],
            &[],
            &[],
            Err(StreamError::UnknownClass),
            &[],
        ),
    ),
    (
        "a read that fails",
        (
            &TWO_HEARTBEATS,
            &[1],
            &[],
            Err(StreamError::ReadFault),
            &[8, 0, 0, 0, 0, 0, 0, 206],
        ),
    ),
    (
        "a write that fails",
        (
            &TWO_HEARTBEATS,
            &[],
            &[0],
            Err(StreamError::WriteFault),
            &[],
        ),
    ),
];

/// Fails unless the codec returns this outcome, and writes these bytes.
fn by_codec(alloc: Global, codec: &mut LentCodec, name: &str, row: &Row) -> Result<(), Fail> {
    let (bytes, reads, writes, outcome, written) = row;
    let mut source = PieceSource::new(bytes, &[8], reads);
    let mut sink = ScriptSink::new(alloc, &[], writes);
    let found = match codec.canonicalize(&mut source, &mut sink, 100) {
        Ok(()) => Ok(()),
        Err(error) => Err(StreamError::from(error)),
    };
    same_in(name, (found, sink.bytes()), (*outcome, *written))
}

/// The same of the call that opens a codec of its own.
fn by_call(alloc: Global, name: &str, row: &Row) -> Result<(), Fail> {
    let (bytes, reads, writes, outcome, written) = row;
    let mut source = PieceSource::new(bytes, &[8], reads);
    let mut sink = ScriptSink::new(alloc, &[], writes);
    let found = canonicalize_lent(alloc, &mut source, &mut sink, LIMIT, 100);
    same_in(name, (found, sink.bytes()), (*outcome, *written))
}

/// Fails unless it is so of each row.
fn all_are_canonicalized(alloc: Global, codec: &mut LentCodec) -> Result<(), Fail> {
    for (name, row) in &ROWS {
        by_codec(alloc, codec, name, row)?;
        by_call(alloc, name, row)?;
        by_codec(alloc, codec, name, row)?;
    }
    Ok(())
}

/// One codec serves for all of them, and for each twice.
#[test]
fn streams_are_canonicalized(rt: HostRuntime) -> Result<(), Fail> {
    let mut codec = LentCodec::open(rt.alloc(), LIMIT)?;
    all_are_canonicalized(rt.alloc(), &mut codec)
}

#[test]
fn errors_have_names_and_numbers(rt: HostRuntime) -> Result<(), Fail> {
    let error = LentError::UnknownClass;
    same((error.name(), error.status()), ("UnknownClass", 14))?;
    shows(rt.alloc(), &error, "", "UnknownClass", "")
}

/// Whether two heartbeats are written as they came, or memory ran out before the first read or in the sink.
fn is_whole_or_refused(alloc: Global) -> bool {
    let mut source = PieceSource::new(&TWO_HEARTBEATS, &[], &[]);
    let mut sink = ScriptSink::new(alloc, &[], &[]);
    match canonicalize_lent(alloc, &mut source, &mut sink, LIMIT, 17) {
        Ok(()) => sink.bytes() == TWO_HEARTBEATS.as_slice(),
        Err(StreamError::NoMemory | StreamError::WriteFault) => sink.bytes().is_empty(),
        Err(_) => false,
    }
}

/// Memory that runs out: `rt try --test --fail-alloc N` lets the Nth allocation of each test fail.
#[test]
fn refused_memory_leaves_a_stream(rt: HostRuntime) {
    assert!(rt; is_whole_or_refused(rt.alloc()));
}
