//! Ends that fail, memory that is refused, and errors.

use crate::rows::{INTERLEAVED, LIMIT, PUBLISHED, parse};
use amqp_filter::{
    FilterError, all_is_written, channels_select_alike, equal_filter_errors, filter, twice_is_once,
    units_are_kept,
};
use amqp_select::{RuleError, Rules};
use amqp_stream::{PieceSource, ScriptSink, SliceSource, StreamError, VecSink};
use amqp_turns::ContentFault;
use amqp_vectors::asking::{same, shows};
use std::alloc::Global;
use std::test::Fail;

/// Keeps the message of the stream that is read in pieces of 39 and then 39 bytes, with these failing reads and writes.
fn ends(
    alloc: Global,
    failing: (&[u64], &[u64]),
    budget: u64,
    error: StreamError,
    written: usize,
) -> Result<(), Fail> {
    let rules = parse(alloc, &["keep"])?;
    let mut source = PieceSource::new(PUBLISHED, &[39, 39], failing.0);
    let mut sink = ScriptSink::new(alloc, &[], failing.1);
    let found = filter(alloc, &rules, &mut source, &mut sink, LIMIT, budget);
    same(found, Err(FilterError::Stream(error)))?;
    same(Some(sink.bytes()), PUBLISHED.get(..written))
}

#[test]
fn ends_fail(rt: HostRuntime) -> Result<(), Fail> {
    let alloc = rt.alloc();
    ends(alloc, (&[0], &[]), 9, StreamError::ReadFault, 0)?;
    ends(alloc, (&[1], &[]), 9, StreamError::ReadFault, 39)?;
    ends(alloc, (&[2], &[]), 9, StreamError::ReadFault, 78)?;
    ends(alloc, (&[], &[0]), 9, StreamError::WriteFault, 0)?;
    ends(alloc, (&[], &[1]), 9, StreamError::WriteFault, 39)?;
    ends(alloc, (&[], &[]), 0, StreamError::TurnsSpent, 0)?;
    ends(alloc, (&[], &[]), 1, StreamError::TurnsSpent, 39)?;
    ends(alloc, (&[], &[]), 2, StreamError::TurnsSpent, 78)
}

/// Rules that keep all, read once more where memory ran out.
fn keep_all(alloc: Global) -> Result<Rules, RuleError> {
    match parse(alloc, &["keep"]) {
        Err(RuleError::NoMemory) => parse(alloc, &["keep"]),
        rules => rules,
    }
}

/// Memory that runs out ends a stream at a method, and what stands then is a front of what is to be written:
/// `rt try --test --fail-alloc N` lets the Nth allocation of each test fail.
#[test]
fn refused_memory_leaves_a_front(rt: HostRuntime) -> Result<(), Fail> {
    let alloc = rt.alloc();
    let rules = keep_all(alloc)?;
    let mut source = SliceSource::new(INTERLEAVED);
    let mut sink = VecSink::new(alloc);
    match filter(alloc, &rules, &mut source, &mut sink, LIMIT, 1000) {
        Ok(()) => same(sink.bytes(), INTERLEAVED),
        Err(FilterError::Stream(StreamError::NoMemory | StreamError::WriteFault)) => {
            same(INTERLEAVED.starts_with(sink.bytes()), true)
        }
        Err(error) => same(error, FilterError::OpenContent),
    }
}

/// Each error, its status, and its name.
const ERRORS: &[(FilterError, u8, &str)] = &[
    (FilterError::Stream(StreamError::CutShort), 21, "CutShort"),
    (FilterError::Stream(StreamError::NoMemory), 3, "NoMemory"),
    (
        FilterError::BadContent(ContentFault::WrongClass),
        24,
        "BadContent",
    ),
    (FilterError::OpenContent, 25, "OpenContent"),
];

#[test]
fn errors_are_named(rt: HostRuntime) -> Result<(), Fail> {
    for (error, status, name) in ERRORS {
        same(error.status(), *status)?;
        same(error.name(), *name)?;
        same(
            equal_filter_errors(error, &FilterError::OpenContent),
            *status == 25,
        )?;
        shows(rt.alloc(), error, "", name, "")?;
    }
    Ok(())
}

#[test]
fn laws_are_called() -> Result<(), Fail> {
    units_are_kept();
    twice_is_once();
    all_is_written();
    channels_select_alike();
    Ok(())
}
