//! A budget of reads, reads and writes that fail, and how many writes are made.

use crate::asking::{HEARTBEAT, LIMIT, MESSAGE, ONES, TWO_HEARTBEATS, ends, has_ended};
use amqp_stream::{PieceSource, ScriptSink, SliceSource, Source, StreamError, canonicalize};
use amqp_vectors::asking::same_in;
use std::alloc::Global;
use std::test::Fail;

/// The read budget is spent.
const SPENT: Result<(), StreamError> = Err(StreamError::TurnsSpent);

/// In which pieces a heartbeat comes, how many reads there may be, the outcome, and what is written.
type Budget = (
    &'static [usize],
    u64,
    Result<(), StreamError>,
    &'static [u8],
);

/// In single bytes, and in one piece.
const BUDGETS: &[Budget] = &[
    (&ONES, 8, SPENT, &HEARTBEAT),
    (&ONES, 9, Ok(()), &HEARTBEAT),
    (&[], 0, SPENT, &[]),
    (&[], 1, SPENT, &HEARTBEAT),
    (&[], 2, Ok(()), &HEARTBEAT),
];

/// How many reads a heartbeat takes.
#[test]
fn reads_have_a_budget(rt: HostRuntime) -> Result<(), Fail> {
    let alloc = rt.alloc();
    for (pieces, budget, outcome, written) in BUDGETS {
        let mut source = PieceSource::new(&HEARTBEAT, pieces, &[]);
        ends(alloc, "a budget", &mut source, *budget, *outcome, written)?;
    }
    Ok(())
}

/// How many bytes of the message are whole frames, of its first `k` bytes.
fn whole_frames(k: u64) -> usize {
    match k {
        0..=21 => 0,
        22..=55 => 22,
        56..=68 => 56,
        _ => 69,
    }
}

/// Frames that came before a failing read are written: of two heartbeats, and of a message in single bytes.
#[test]
fn each_read_may_fail(rt: HostRuntime) -> Result<(), Fail> {
    let alloc = rt.alloc();
    let fault = Err(StreamError::ReadFault);
    let mut source = PieceSource::new(&TWO_HEARTBEATS, &[8], &[1]);
    ends(alloc, "heartbeats", &mut source, 17, fault, &HEARTBEAT)?;
    for k in 0..70u64 {
        let failing = [k];
        let mut source = PieceSource::new(&MESSAGE, &ONES, &failing);
        let written = MESSAGE.get(..whole_frames(k)).unwrap_or_default();
        ends(alloc, "a message", &mut source, 70, fault, written)?;
    }
    Ok(())
}

/// Fails unless canonicalizing into a sink that takes such pieces and fails at these writes ends so, and has made so
/// many writes.
fn ends_after<S: Source>(
    alloc: Global,
    row: &str,
    source: &mut S,
    pieces: &[usize],
    failing: &[u64],
    outcome: Result<(), StreamError>,
    written: &[u8],
    writes: u64,
) -> Result<(), Fail> {
    let mut sink = ScriptSink::new(alloc, pieces, failing);
    let found = canonicalize(alloc, source, &mut sink, LIMIT, 70);
    same_in(row, sink.writes(), writes)?;
    has_ended(row, found, outcome, sink.bytes(), written)
}

/// What was written before a failing write stands: of a heartbeat, and of a message that goes in single bytes.
#[test]
fn each_write_may_fail(rt: HostRuntime) -> Result<(), Fail> {
    let alloc = rt.alloc();
    let fault = Err(StreamError::WriteFault);
    let mut source = SliceSource::new(&HEARTBEAT);
    ends_after(alloc, "a heartbeat", &mut source, &[], &[0], fault, &[], 1)?;
    for k in 0..70u64 {
        let failing = [k];
        let outcome = if k < 69 { fault } else { Ok(()) };
        let written = MESSAGE.get(..k as usize).unwrap_or_default();
        let writes = (k + 1).min(69);
        let mut source = SliceSource::new(&MESSAGE);
        let row = "a message";
        ends_after(
            alloc,
            row,
            &mut source,
            &ONES,
            &failing,
            outcome,
            written,
            writes,
        )?;
    }
    Ok(())
}

/// In which pieces two heartbeats come, and how many writes are made for them.
const GATHERED: &[(&[usize], u64)] = &[(&[], 1), (&[8], 2)];

/// How many writes are made, which no clause says: one for what came in one read.
#[test]
fn writes_are_gathered(rt: HostRuntime) -> Result<(), Fail> {
    for (pieces, writes) in GATHERED {
        let mut source = PieceSource::new(&TWO_HEARTBEATS, pieces, &[]);
        let row = "two heartbeats";
        ends_after(
            rt.alloc(),
            row,
            &mut source,
            &[],
            &[],
            Ok(()),
            &TWO_HEARTBEATS,
            *writes,
        )?;
    }
    Ok(())
}

/// A heartbeat, a body of 5,000 bytes, and a heartbeat that ends with these bytes, from the last one of its length on.
fn around_large(alloc: Global, end: &[u8]) -> Result<Vec<u8>, Fail> {
    let mut bytes = Vec::from_slice(alloc, &HEARTBEAT)?;
    bytes.extend_from_slice(&[3, 0, 1, 0, 0, 19, 136])?;
    bytes.extend_from_slice(&[7; 5000])?;
    bytes.extend_from_slice(&[206, 8, 0, 0, 0, 0, 0])?;
    bytes.extend_from_slice(end)?;
    Ok(bytes)
}

/// How the second heartbeat ends, without a payload and with one, and how many writes are made.
const ENDS: &[(&[u8], u64)] = &[(&[0, 206], 1), (&[2, 1, 2, 206], 1)];

/// How many writes are made for a large body between small frames: one where all of them stand, and one where the last
/// gets shorter, and is written with those before it.
#[test]
fn large_bodies_are_written_with_what_stands(rt: HostRuntime) -> Result<(), Fail> {
    let alloc = rt.alloc();
    let written = around_large(alloc, &[0, 206])?;
    for (end, writes) in ENDS {
        let bytes = around_large(alloc, end)?;
        let mut source = SliceSource::new(&bytes);
        ends_after(
            alloc,
            "a large body",
            &mut source,
            &[],
            &[],
            Ok(()),
            &written,
            *writes,
        )?;
    }
    Ok(())
}
