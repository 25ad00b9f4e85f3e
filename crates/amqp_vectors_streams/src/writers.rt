//! A writer of the tests' own runs over a codec, and by itself.

use crate::asking::{LIMIT, MESSAGE, TWO_HEARTBEATS, has_ended};
use crate::counting::Counting;
use amqp_stream::{Codec, RunError, SliceSource, StreamError, VecSink, run_stream, unrefused};
use amqp_vectors::asking::same;
use std::alloc::Global;
use std::convert::Infallible;
use std::test::Fail;

/// Two heartbeats, and a byte that begins no frame.
const SPOILT: [u8; 17] = [8, 0, 0, 0, 0, 0, 0, 206, 8, 0, 0, 0, 0, 0, 0, 206, 9];

/// Bytes, the outcome, what is written for them, and how many frames are counted.
type Row = (&'static [u8], Result<(), StreamError>, &'static [u8], u64);

const ROWS: &[Row] = &[
    (&[], Ok(()), &[], 0),
    (&MESSAGE, Ok(()), &MESSAGE, 3),
    (
        &SPOILT,
        Err(StreamError::UnknownFrameType),
        &TWO_HEARTBEATS,
        2,
    ),
];

/// Fails unless a run has ended so, and as many frames were counted.
fn has_counted(
    run: Result<(), RunError<Infallible>>,
    outcome: Result<(), StreamError>,
    bytes: &[u8],
    written: &[u8],
    counted: u64,
    frames: u64,
) -> Result<(), Fail> {
    has_ended("a run", unrefused(run), outcome, bytes, written)?;
    same(counted, frames)
}

/// Fails unless the writer runs so over a codec.
fn counts(alloc: Global, codec: &mut Codec, row: Row) -> Result<(), Fail> {
    let (bytes, outcome, written, frames) = row;
    let mut writer = Counting { frames: 0 };
    let mut source = SliceSource::new(bytes);
    let mut sink = VecSink::new(alloc);
    let run = codec.run(&mut writer, &mut source, &mut sink, 100);
    has_counted(run, outcome, sink.bytes(), written, writer.frames, frames)
}

/// Fails unless it runs so by itself.
fn counts_alone(alloc: Global, row: Row) -> Result<(), Fail> {
    let (bytes, outcome, written, frames) = row;
    let mut writer = Counting { frames: 0 };
    let mut source = SliceSource::new(bytes);
    let mut sink = VecSink::new(alloc);
    let run = run_stream(alloc, &mut writer, &mut source, &mut sink, LIMIT, 100);
    has_counted(run, outcome, sink.bytes(), written, writer.frames, frames)
}

#[test]
fn a_writer_counts(rt: HostRuntime) -> Result<(), Fail> {
    let alloc = rt.alloc();
    let mut codec = Codec::open(alloc, LIMIT)?;
    for row in ROWS {
        counts(alloc, &mut codec, *row)?;
        counts_alone(alloc, *row)?;
    }
    Ok(())
}
