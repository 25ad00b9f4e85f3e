//! Frames dumped as lines, at once and in single bytes, and dumps whose reads or writes fail.

use crate::frames::{
    BEAT, DECLARE, DECLARE_LINE, KINDS, KINDS_LINE, LIMIT, MESSAGE, MESSAGE_LINES, ONES,
    PROPERTIES, PROPERTIES_LINE, UNORDERED, UNORDERED_LINE,
};
use crate::method_rows::{METHOD_LINES, METHODS};
use amqp_stream::{PieceSource, ScriptSink, StreamError, VecSink};
use amqp_text::{
    bytes_and_texts_correspond, dump, dumped_text_is_read_back, equal_lines_are_equal_frames,
    equal_texts_are_equal_sequences, lines_have_one_newline, one_longest_text,
    strict_frames_are_usual, undump_undoes_dump,
};
use amqp_vectors::asking::{same, same_in};
use std::alloc::Global;
use std::test::Fail;

/// A broker's `connection.start`, whose properties are not in ascending key order.
const START: [u8; 97] = [
    1, 0, 0, 0, 0, 0, 89, 0, 10, 0, 10, 0, 9, 0, 0, 0, 52, 7, 112, 114, 111, 100, 117, 99, 116, 83,
    0, 0, 0, 8, 82, 97, 98, 98, 105, 116, 77, 81, 12, 99, 97, 112, 97, 98, 105, 108, 105, 116, 105,
    101, 115, 70, 0, 0, 0, 13, 10, 98, 97, 115, 105, 99, 46, 110, 97, 99, 107, 116, 1, 0, 0, 0, 14,
    80, 76, 65, 73, 78, 32, 65, 77, 81, 80, 76, 65, 73, 78, 0, 0, 0, 5, 101, 110, 95, 85, 83, 206,
];

/// The line of `START`.
const START_LINE: &str =
    "method 0 10.10 0 9 {\"capabilities\"=F:{\"basic.nack\"=t:1},\"product\"=S:\"RabbitMQ\"} \"PLAIN AMQPLAIN\" \"en_US\"\n";

/// A content header with each property, the greatest body size, and a weight and unused bits that are dropped.
const WEIGHTED: [u8; 56] = [
    2, 255, 255, 0, 0, 0, 48, 0, 60, 0, 5, 255, 255, 255, 255, 255, 255, 255, 255, 255, 255, 1, 97,
    1, 98, 0, 0, 0, 0, 1, 9, 1, 99, 1, 100, 1, 101, 1, 102, 0, 0, 0, 0, 0, 0, 0, 7, 1, 103, 1, 104,
    1, 105, 1, 106, 206,
];

/// Bytes, the lines of the frames at their front, and how the dump ends.
type Row = (&'static [u8], &'static str, Result<(), StreamError>);

const ROWS: &[Row] = &[
    (&MESSAGE, MESSAGE_LINES, Ok(())),
    (&DECLARE, DECLARE_LINE, Ok(())),
    (&START, START_LINE, Ok(())),
    (&KINDS, KINDS_LINE, Ok(())),
    (&UNORDERED, UNORDERED_LINE, Ok(())),
    (&PROPERTIES, PROPERTIES_LINE, Ok(())),
    (&WEIGHTED, PROPERTIES_LINE, Ok(())),
    (&METHODS, METHOD_LINES, Ok(())),
    (&[], "", Ok(())),
    (&[65, 77, 81, 80, 0, 0, 9, 1], "proto 0.9.1\n", Ok(())),
    (&BEAT, "beat\n", Ok(())),
    (&[8, 0, 0, 0, 0, 0, 1, 7, 206], "beat\n", Ok(())),
    (&[8, 255, 255, 0, 0, 0, 0, 206], "beat 65535\n", Ok(())),
    (&[3, 0, 2, 0, 0, 0, 0, 206], "body 2 x\n", Ok(())),
    (
        &[8, 0, 0, 0, 0, 0, 0, 206, 9],
        "beat\n",
        Err(StreamError::UnknownFrameType),
    ),
    (
        &[8, 0, 0, 0, 0, 0, 0, 206, 8, 0],
        "beat\n",
        Err(StreamError::CutShort),
    ),
    (
        &[8, 0, 0, 0, 0, 0, 0, 205],
        "",
        Err(StreamError::BadFrameEnd),
    ),
    (
        &[1, 0, 1, 0, 0, 0, 4, 0, 50, 0, 10, 206],
        "",
        Err(StreamError::ShortPayload),
    ),
];

/// Fails unless dumping the bytes of the row in such pieces ends so.
fn is_dumped(alloc: Global, row: Row, pieces: &[usize]) -> Result<(), Fail> {
    let (bytes, lines, outcome) = row;
    let mut source = PieceSource::new(bytes, pieces, &[]);
    let mut sink = VecSink::new(alloc);
    let found = dump(alloc, &mut source, &mut sink, LIMIT, 200);
    same_in(lines, (found, sink.bytes()), (outcome, lines.as_bytes()))
}

#[test]
fn frames_are_dumped_as_lines(rt: HostRuntime) -> Result<(), Fail> {
    for row in ROWS {
        is_dumped(rt.alloc(), *row, &[])?;
        is_dumped(rt.alloc(), *row, &ONES)?;
    }
    Ok(())
}

/// Which read or write of the message by single bytes fails, the read budget, how the dump ends, and how many bytes of
/// its lines are written.
type End = (&'static [u64], &'static [u64], u64, StreamError, usize);

const ENDS: &[End] = &[
    (&[0], &[], 200, StreamError::ReadFault, 0),
    (&[21], &[], 200, StreamError::ReadFault, 0),
    (&[22], &[], 200, StreamError::ReadFault, 29),
    (&[55], &[], 200, StreamError::ReadFault, 29),
    (&[56], &[], 200, StreamError::ReadFault, 85),
    (&[69], &[], 200, StreamError::ReadFault, 104),
    (&[], &[0], 200, StreamError::WriteFault, 0),
    (&[], &[1], 200, StreamError::WriteFault, 1),
    (&[], &[29], 200, StreamError::WriteFault, 29),
    (&[], &[103], 200, StreamError::WriteFault, 103),
    (&[], &[], 0, StreamError::TurnsSpent, 0),
    (&[], &[], 21, StreamError::TurnsSpent, 0),
    (&[], &[], 22, StreamError::TurnsSpent, 29),
    (&[], &[], 69, StreamError::TurnsSpent, 104),
];

/// Fails unless dumping the message ends so.
fn has_ended(alloc: Global, end: End) -> Result<(), Fail> {
    let (failing_reads, failing_writes, budget, error, count) = end;
    let mut source = PieceSource::new(&MESSAGE, &ONES, failing_reads);
    let mut sink = ScriptSink::new(alloc, &ONES, failing_writes);
    let found = dump(alloc, &mut source, &mut sink, LIMIT, budget);
    let lines = MESSAGE_LINES.as_bytes().get(..count).unwrap_or_default();
    same((found, sink.bytes()), (Err(error), lines))
}

#[test]
fn lines_before_a_failed_end_are_written(rt: HostRuntime) -> Result<(), Fail> {
    for end in ENDS {
        has_ended(rt.alloc(), *end)?;
    }
    Ok(())
}

#[test]
fn laws_are_called() {
    lines_have_one_newline();
    equal_lines_are_equal_frames();
    equal_texts_are_equal_sequences();
    one_longest_text();
    dumped_text_is_read_back();
    bytes_and_texts_correspond();
    strict_frames_are_usual();
    undump_undoes_dump();
}
