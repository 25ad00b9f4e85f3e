//! Streams of which rules keep some frames, at once and in single bytes, and streams whose reads or writes fail.

use crate::rules::parse;
use amqp_select::select;
use amqp_stream::{PieceSource, ScriptSink, StreamError, VecSink};
use std::test::Fail;

/// The limit on payloads, in bytes.
pub const LIMIT: u32 = 131_072;

/// Pieces of one byte.
const ONES: &[usize] = &[1; 70];

/// A client's message on channel 1: `basic.publish`, its content header and its body, of 22, 34 and 13 bytes.
pub const MESSAGE: &[u8] = &[
    1, 0, 1, 0, 0, 0, 14, 0, 60, 0, 40, 0, 0, 0, 5, 104, 101, 108, 108, 111, 0, 206, 2, 0, 1, 0, 0,
    0, 26, 0, 60, 0, 0, 0, 0, 0, 0, 0, 0, 0, 5, 144, 0, 10, 116, 101, 120, 116, 47, 112, 108, 97,
    105, 110, 2, 206, 3, 0, 1, 0, 0, 0, 5, 104, 101, 108, 108, 111, 206,
];

/// A heartbeat, and a byte that begins no frame.
const HEARTBEAT: &[u8] = &[8, 0, 0, 0, 0, 0, 0, 206, 9];

/// A queue declaration whose payload is too short.
const SHORT: &[u8] = &[1, 0, 1, 0, 0, 0, 4, 0, 50, 0, 10, 206];

/// Words, input, how many of its bytes at the end are written, and how the stream ends.
const ROWS: &[(&[&str], &[u8], usize, Result<(), StreamError>)] = &[
    (&["keep"], MESSAGE, 69, Ok(())),
    (&["keep,kind=body"], MESSAGE, 13, Ok(())),
    (
        &["drop,class=60,method=40", "keep,channel=1-5"],
        MESSAGE,
        47,
        Ok(()),
    ),
    (&["keep,channel=2"], MESSAGE, 0, Ok(())),
    (&["drop"], HEARTBEAT, 0, Err(StreamError::UnknownFrameType)),
    (&["drop"], SHORT, 0, Err(StreamError::ShortPayload)),
    (&["keep"], SHORT, 0, Err(StreamError::ShortPayload)),
];

#[test]
fn kept_frames_are_written(rt: HostRuntime) -> Result<(), Fail> {
    let alloc = rt.alloc();
    for (words, input, count, outcome) in ROWS {
        let rules = parse(alloc, words)?;
        for pieces in [&[], ONES] {
            let mut source = PieceSource::new(input, pieces, &[]);
            let mut sink = VecSink::new(alloc);
            let found = select(alloc, &rules, &mut source, &mut sink, LIMIT, 100);
            assert_eq!(rt; found, *outcome);
            assert_eq!(rt;
                Some(sink.bytes()),
                input.get(input.len().saturating_sub(*count)..)
            );
        }
    }
    Ok(())
}

/// Which reads and writes of the message by single bytes fail, the read budget, how selecting its content header and its
/// body ends, and where in the message what is written ends.
const ENDS: &[(&[u64], &[u64], u64, StreamError, usize)] = &[
    (&[0], &[], 100, StreamError::ReadFault, 22),
    (&[55], &[], 100, StreamError::ReadFault, 22),
    (&[56], &[], 100, StreamError::ReadFault, 56),
    (&[69], &[], 100, StreamError::ReadFault, 69),
    (&[], &[0], 100, StreamError::WriteFault, 22),
    (&[], &[33], 100, StreamError::WriteFault, 55),
    (&[], &[46], 100, StreamError::WriteFault, 68),
    (&[], &[], 0, StreamError::TurnsSpent, 22),
    (&[], &[], 56, StreamError::TurnsSpent, 56),
    (&[], &[], 69, StreamError::TurnsSpent, 69),
];

#[test]
fn kept_frames_before_a_failed_end_are_written(rt: HostRuntime) -> Result<(), Fail> {
    let alloc = rt.alloc();
    let rules = parse(alloc, &["drop,class=60,method=40", "keep,channel=1-5"])?;
    for (reads, writes, budget, error, end) in ENDS {
        let mut source = PieceSource::new(MESSAGE, ONES, reads);
        let mut sink = ScriptSink::new(alloc, ONES, writes);
        let found = select(alloc, &rules, &mut source, &mut sink, LIMIT, *budget);
        assert_eq!(rt; found, Err(*error));
        assert_eq!(rt; Some(sink.bytes()), MESSAGE.get(22..*end));
    }
    Ok(())
}
