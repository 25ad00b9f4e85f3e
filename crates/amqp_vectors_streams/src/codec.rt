//! A codec that serves one stream after another.

use crate::asking::{HEARTBEAT, LIMIT, MESSAGE, has_ended};
use amqp_stream::{Codec, PieceSource, StreamError, VecSink};
use amqp_types::Profile;
use std::alloc::Global;
use std::test::Fail;

/// Bytes, in which pieces they come, which reads fail, the outcome, and what is written for them.
type Run = (
    &'static [u8],
    &'static [usize],
    &'static [u64],
    Result<(), StreamError>,
    &'static [u8],
);

/// A heartbeat with a payload.
const LOOSE: [u8; 9] = [8, 0, 0, 0, 0, 0, 1, 7, 206];

/// What a failed read left is dropped.
const RUNS: &[Run] = &[
    (&HEARTBEAT, &[3], &[1], Err(StreamError::ReadFault), &[]),
    (&HEARTBEAT, &[], &[], Ok(()), &HEARTBEAT),
    (&LOOSE, &[], &[], Ok(()), &HEARTBEAT),
    (&LOOSE, &[], &[], Ok(()), &HEARTBEAT),
    (&MESSAGE, &[], &[], Ok(()), &MESSAGE),
    (&MESSAGE, &[], &[], Ok(()), &MESSAGE),
];

/// Fails unless the codec ends so.
fn serves(alloc: Global, codec: &mut Codec, run: Run) -> Result<(), Fail> {
    let (bytes, pieces, failing, outcome, written) = run;
    let mut source = PieceSource::new(bytes, pieces, failing);
    let mut sink = VecSink::new(alloc);
    let found = codec.rewrite(Profile::Plain, &mut source, &mut sink, 100);
    has_ended("a run", found, outcome, sink.bytes(), written)
}

#[test]
fn a_codec_serves_again(rt: HostRuntime) -> Result<(), Fail> {
    let mut codec = Codec::open(rt.alloc(), LIMIT)?;
    for run in RUNS {
        serves(rt.alloc(), &mut codec, *run)?;
    }
    Ok(())
}
