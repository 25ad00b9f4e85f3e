//! Memory that runs out: `rt try --test --fail-alloc N` lets the Nth allocation of each test fail.

use crate::rules::parse;
use crate::selecting::LIMIT;
use amqp_frame::FrameOutline;
use amqp_select::{RuleError, Rules, select};
use amqp_stream::{CountSink, SliceSource, StreamError};
use amqp_types::NoMemory;
use std::alloc::Global;
use std::test::Fail;

/// Two rules, of which the first covers the second, read once more where memory ran out.
fn rules(alloc: Global) -> Result<Rules, RuleError> {
    let words = ["keep,kind=beat", "drop,channel=1,kind=beat"];
    match parse(alloc, &words) {
        Err(RuleError::NoMemory) => parse(alloc, &words),
        rules => rules,
    }
}

/// The rules that no earlier one covers, copied once more where memory ran out.
fn without_covered(alloc: Global, rules: &Rules) -> Result<Rules, NoMemory> {
    match rules.without_covered(alloc) {
        Err(NoMemory) => rules.without_covered(alloc),
        fewer => fewer,
    }
}

/// Where memory runs out rules stay, and a second call returns what the first would have.
#[test]
fn refused_memory_leaves_rules(rt: HostRuntime) -> Result<(), Fail> {
    let rules = rules(rt.alloc())?;
    assert_eq!(rt; rules.len(), 2);
    let fewer = without_covered(rt.alloc(), &rules)?;
    assert_eq!(rt; fewer.len(), 1);
    assert!(rt; fewer.decide_outline(FrameOutline::Heartbeat { channel_id: 1 }));
    Ok(())
}

/// A body and a heartbeat on channel 1.
const STREAM: &[u8] = &[3, 0, 1, 0, 0, 0, 1, 7, 206, 8, 0, 1, 0, 0, 0, 0, 206];

/// Where memory runs out nothing is read or written: a second call writes all.
#[test]
fn refused_memory_leaves_a_stream(rt: HostRuntime) -> Result<(), Fail> {
    let alloc = rt.alloc();
    let rules = rules(alloc)?;
    let mut source = SliceSource::new(STREAM);
    let mut sink = CountSink::new();
    let first = select(alloc, &rules, &mut source, &mut sink, LIMIT, 100);
    if first != Ok(()) {
        assert_eq!(rt; first, Err(StreamError::NoMemory));
        let second = select(alloc, &rules, &mut source, &mut sink, LIMIT, 100);
        assert_eq!(rt; second, Ok(()));
    }
    assert_eq!(rt; sink.total(), 8);
    Ok(())
}
