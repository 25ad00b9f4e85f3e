//! The generated stream, and the sink that counts.

use crate::asking::{LIMIT, ends};
use amqp_stream::{CountSink, MakeSource, Source, canonicalize};
use amqp_vectors::asking::same;
use std::test::Fail;

/// The first six frames that are made.
const MADE: [u8; 77] = [
    8, 0, 0, 0, 0, 0, 1, 0, 206, 3, 0, 2, 0, 0, 0, 1, 1, 206, 1, 0, 3, 0, 0, 0, 5, 0, 85, 0, 10,
    255, 206, 1, 0, 4, 0, 0, 0, 20, 0, 50, 0, 10, 0, 9, 0, 255, 0, 0, 0, 8, 1, 97, 116, 0, 1, 97,
    116, 7, 206, 8, 0, 0, 0, 0, 0, 1, 4, 206, 3, 0, 6, 0, 0, 0, 1, 5, 206,
];

#[test]
fn frames_are_made(rt: HostRuntime) -> Result<(), Fail> {
    let mut source = MakeSource::new(6);
    let mut small = [0u8; 5];
    let mut all = Vec::new(rt.alloc());
    for _ in 0..17 {
        let count = source.read(&mut small)?;
        all.extend_from_slice(&small[..count])?;
    }
    same(all.as_slice(), &MADE)?;
    let mut source = MakeSource::new(6);
    let mut large = [0u8; 100];
    same(source.read(&mut large), Ok(77))?;
    same(large.get(..77), Some(&MADE))?;
    same(source.read(&mut large), Ok(0))?;
    same(MakeSource::new(0).read(&mut large), Ok(0))
}

/// The canonical bytes of the first four.
const CANONICAL: [u8; 54] = [
    8, 0, 0, 0, 0, 0, 0, 206, 3, 0, 2, 0, 0, 0, 1, 1, 206, 1, 0, 3, 0, 0, 0, 5, 0, 85, 0, 10, 1,
    206, 1, 0, 4, 0, 0, 0, 16, 0, 50, 0, 10, 0, 0, 0, 31, 0, 0, 0, 4, 1, 97, 116, 1, 206,
];

#[test]
fn made_frames_are_canonicalized(rt: HostRuntime) -> Result<(), Fail> {
    let alloc = rt.alloc();
    let mut source = MakeSource::new(4);
    ends(alloc, "made", &mut source, 60, Ok(()), &CANONICAL)?;
    let mut source = MakeSource::new(100_000);
    let mut sink = CountSink::new();
    let outcome = canonicalize(alloc, &mut source, &mut sink, LIMIT, 1_475_001);
    same(outcome, Ok(()))?;
    same(sink.total(), 1_350_000)
}
