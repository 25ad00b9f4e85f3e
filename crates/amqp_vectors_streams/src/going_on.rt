//! Streams that go on from call to call: in pieces, over a failed read, to the end of input, and after a fault.

use crate::asking::{HEARTBEAT, LIMIT, MESSAGE, START, START_IN_ORDER, TWO_HEARTBEATS};
use amqp_stream::{
    Forwarded, Forwarder, PieceSource, RunError, ScriptSink, SliceSource, StreamError,
    TidyCanonical, VecSink,
};
use amqp_vectors::asking::{same, same_in};
use std::test::Fail;

/// What a call returns, and after it how many bytes are written, how many are held, and how many the frames before
/// those have.
type Call = (Result<Forwarded, StreamError>, usize, usize, u64);

/// Bytes, the pieces in which they come, the reads that fail, what is written for them, and the calls.
type Row = (
    &'static str,
    &'static [u8],
    &'static [usize],
    &'static [u64],
    &'static [u8],
    &'static [Call],
);

const MORE: Result<Forwarded, StreamError> = Ok(Forwarded::More);

const ENDED: Result<Forwarded, StreamError> = Ok(Forwarded::Ended);

const ROWS: &[Row] = &[
    (
        "a message, over a read that fails",
        &MESSAGE,
        &[30, 30, 30, 30],
        &[1],
        &MESSAGE,
        &[
            (MORE, 22, 8, 22),
            (Err(StreamError::ReadFault), 22, 8, 22),
            (MORE, 56, 4, 56),
            (MORE, 69, 0, 69),
            (ENDED, 69, 0, 69),
        ],
    ),
    (
        "a start that is not canonical",
        &START,
        &[50, 50],
        &[],
        &START_IN_ORDER,
        &[(MORE, 0, 50, 0), (MORE, 97, 0, 97), (ENDED, 97, 0, 97)],
    ),
    (
        "a byte that names no frame type",
        &[8, 0, 0, 0, 0, 0, 0, 206, 9, 9],
        &[],
        &[],
        &HEARTBEAT,
        &[
            (Err(StreamError::UnknownFrameType), 8, 2, 8),
            (Err(StreamError::UnknownFrameType), 8, 2, 8),
        ],
    ),
    (
        "a class that is none",
        &[
            8, 0, 0, 0, 0, 0, 0, 206, 1, 0, 1, 0, 0, 0, 4, 0, 99, 0, 10, 206,
        ],
        &[],
        &[],
        &HEARTBEAT,
        &[
            (Err(StreamError::UnknownClass), 8, 12, 8),
            (Err(StreamError::UnknownClass), 8, 12, 8),
        ],
    ),
    (
        "an end inside a frame",
        &[8, 0, 0, 0, 0, 0, 0, 206, 8, 0, 0],
        &[],
        &[],
        &HEARTBEAT,
        &[
            (MORE, 8, 3, 8),
            (Err(StreamError::CutShort), 8, 3, 8),
            (Err(StreamError::CutShort), 8, 3, 8),
        ],
    ),
];

/// Each call writes what is there, and the next goes on after it.
#[test]
fn calls_go_on(rt: HostRuntime) -> Result<(), Fail> {
    let alloc = rt.alloc();
    for (row, bytes, pieces, failing, written, calls) in ROWS {
        let mut forwarder = Forwarder::open(alloc, LIMIT)?;
        let mut source = PieceSource::new(bytes, pieces, failing);
        let mut sink = VecSink::new(alloc);
        for (outcome, len, held, place) in *calls {
            let found = forwarder.forward(&mut source, &mut sink);
            same_in(row, found, *outcome)?;
            let wanted = written.get(..*len).unwrap_or_default();
            same_in(row, sink.bytes(), wanted)?;
            same_in(row, forwarder.held().len(), *held)?;
            same_in(row, forwarder.place(), *place)?;
        }
    }
    Ok(())
}

/// After a write that failed nothing more is written.
#[test]
fn a_failed_write_is_the_last(rt: HostRuntime) -> Result<(), Fail> {
    let alloc = rt.alloc();
    let mut forwarder = Forwarder::open(alloc, LIMIT)?;
    let mut source = PieceSource::new(&TWO_HEARTBEATS, &[8, 8], &[]);
    let mut sink = ScriptSink::new(alloc, &[], &[1]);
    let first = forwarder.forward(&mut source, &mut sink);
    let second = forwarder.forward(&mut source, &mut sink);
    let third = forwarder.forward(&mut source, &mut sink);
    same(first, MORE)?;
    same(second, Err(StreamError::WriteFault))?;
    same(third, Err(StreamError::WriteFault))?;
    same(forwarder.fault(), Some(StreamError::WriteFault))?;
    same(sink.writes(), 2)?;
    same(sink.bytes(), HEARTBEAT.as_slice())
}

/// A heartbeat with a payload is not tidy. A forwarder that begins anew takes what is.
#[test]
fn a_forwarder_has_any_writer(rt: HostRuntime) -> Result<(), Fail> {
    let alloc = rt.alloc();
    let mut forwarder = Forwarder::open(alloc, LIMIT)?;
    let mut source = SliceSource::new(&[8, 0, 0, 0, 0, 0, 1, 7, 206]);
    let mut sink = VecSink::new(alloc);
    match forwarder.forward_with(&mut TidyCanonical, &mut source, &mut sink) {
        Err(RunError::Stream(error)) => same(error, StreamError::NotTidy)?,
        _ => return Err(Fail::new(format_args!("it is taken"))),
    }
    same(forwarder.came(), 9)?;
    forwarder.clear();
    let mut source = SliceSource::new(&HEARTBEAT);
    same(forwarder.forward(&mut source, &mut sink), MORE)?;
    same(sink.bytes(), HEARTBEAT.as_slice())
}
