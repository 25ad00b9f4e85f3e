//! Worked cases of recutting: what is written, and how the stream ends.

use amqp_recut::{RecutError, recut, recut_reported};
use amqp_stream::{PieceSource, ScriptSink, Sink, SliceSource, Source, StreamError, VecSink};
use amqp_turns::ContentFault;
use amqp_vectors::asking::{same, same_in, shows};
use std::alloc::Global;
use std::test::Fail;

/// The limit on payloads, in bytes.
const LIMIT: u32 = 131_072;

/// A message of five bytes on channel 1: `basic.publish`, its content header and its body, of 22, 34 and 13 bytes.
const MESSAGE: [u8; 69] = [
    1, 0, 1, 0, 0, 0, 14, 0, 60, 0, 40, 0, 0, 0, 5, 104, 101, 108, 108, 111, 0, 206, 2, 0, 1, 0, 0,
    0, 26, 0, 60, 0, 0, 0, 0, 0, 0, 0, 0, 0, 5, 144, 0, 10, 116, 101, 120, 116, 47, 112, 108, 97,
    105, 110, 2, 206, 3, 0, 1, 0, 0, 0, 5, 104, 101, 108, 108, 111, 206,
];

/// The same, cut by 1.
const BY_ONE: [u8; 101] = [
    1, 0, 1, 0, 0, 0, 14, 0, 60, 0, 40, 0, 0, 0, 5, 104, 101, 108, 108, 111, 0, 206, 2, 0, 1, 0, 0,
    0, 26, 0, 60, 0, 0, 0, 0, 0, 0, 0, 0, 0, 5, 144, 0, 10, 116, 101, 120, 116, 47, 112, 108, 97,
    105, 110, 2, 206, 3, 0, 1, 0, 0, 0, 1, 104, 206, 3, 0, 1, 0, 0, 0, 1, 101, 206, 3, 0, 1, 0, 0,
    0, 1, 108, 206, 3, 0, 1, 0, 0, 0, 1, 108, 206, 3, 0, 1, 0, 0, 0, 1, 111, 206,
];

/// The same, cut by 2.
const BY_TWO: [u8; 85] = [
    1, 0, 1, 0, 0, 0, 14, 0, 60, 0, 40, 0, 0, 0, 5, 104, 101, 108, 108, 111, 0, 206, 2, 0, 1, 0, 0,
    0, 26, 0, 60, 0, 0, 0, 0, 0, 0, 0, 0, 0, 5, 144, 0, 10, 116, 101, 120, 116, 47, 112, 108, 97,
    105, 110, 2, 206, 3, 0, 1, 0, 0, 0, 2, 104, 101, 206, 3, 0, 1, 0, 0, 0, 2, 108, 108, 206, 3, 0,
    1, 0, 0, 0, 1, 111, 206,
];

/// The same, cut by 4.
const BY_FOUR: [u8; 77] = [
    1, 0, 1, 0, 0, 0, 14, 0, 60, 0, 40, 0, 0, 0, 5, 104, 101, 108, 108, 111, 0, 206, 2, 0, 1, 0, 0,
    0, 26, 0, 60, 0, 0, 0, 0, 0, 0, 0, 0, 0, 5, 144, 0, 10, 116, 101, 120, 116, 47, 112, 108, 97,
    105, 110, 2, 206, 3, 0, 1, 0, 0, 0, 4, 104, 101, 108, 108, 206, 3, 0, 1, 0, 0, 0, 1, 111, 206,
];

/// Messages of three bytes on channels 1 and 2, and a heartbeat between their bodies.
const INTERLEAVED: [u8; 124] = [
    1, 0, 1, 0, 0, 0, 9, 0, 60, 0, 40, 0, 0, 0, 0, 0, 206, 1, 0, 2, 0, 0, 0, 9, 0, 60, 0, 40, 0, 0,
    0, 0, 0, 206, 2, 0, 1, 0, 0, 0, 14, 0, 60, 0, 0, 0, 0, 0, 0, 0, 0, 0, 3, 0, 0, 206, 2, 0, 2, 0,
    0, 0, 14, 0, 60, 0, 0, 0, 0, 0, 0, 0, 0, 0, 3, 0, 0, 206, 3, 0, 1, 0, 0, 0, 2, 97, 98, 206, 3,
    0, 2, 0, 0, 0, 1, 120, 206, 8, 0, 0, 0, 0, 0, 0, 206, 3, 0, 1, 0, 0, 0, 1, 99, 206, 3, 0, 2, 0,
    0, 0, 2, 121, 122, 206,
];

/// The same, cut by 2.
const INTERLEAVED_BY_TWO: [u8; 124] = [
    1, 0, 1, 0, 0, 0, 9, 0, 60, 0, 40, 0, 0, 0, 0, 0, 206, 1, 0, 2, 0, 0, 0, 9, 0, 60, 0, 40, 0, 0,
    0, 0, 0, 206, 2, 0, 1, 0, 0, 0, 14, 0, 60, 0, 0, 0, 0, 0, 0, 0, 0, 0, 3, 0, 0, 206, 2, 0, 2, 0,
    0, 0, 14, 0, 60, 0, 0, 0, 0, 0, 0, 0, 0, 0, 3, 0, 0, 206, 3, 0, 1, 0, 0, 0, 2, 97, 98, 206, 8,
    0, 0, 0, 0, 0, 0, 206, 3, 0, 1, 0, 0, 0, 1, 99, 206, 3, 0, 2, 0, 0, 0, 2, 120, 121, 206, 3, 0,
    2, 0, 0, 0, 1, 122, 206,
];

/// A message of two bytes with empty bodies in between, and a message without a body.
const EMPTY: [u8; 112] = [
    1, 0, 1, 0, 0, 0, 9, 0, 60, 0, 40, 0, 0, 0, 0, 0, 206, 2, 0, 1, 0, 0, 0, 14, 0, 60, 0, 0, 0, 0,
    0, 0, 0, 0, 0, 2, 0, 0, 206, 3, 0, 1, 0, 0, 0, 0, 206, 3, 0, 1, 0, 0, 0, 1, 97, 206, 3, 0, 1,
    0, 0, 0, 0, 206, 3, 0, 1, 0, 0, 0, 1, 98, 206, 1, 0, 1, 0, 0, 0, 9, 0, 60, 0, 40, 0, 0, 0, 0,
    0, 206, 2, 0, 1, 0, 0, 0, 14, 0, 60, 0, 0, 0, 0, 0, 0, 0, 0, 0, 0, 0, 0, 206,
];

/// The same, cut by 1.
const EMPTY_BY_ONE: [u8; 96] = [
    1, 0, 1, 0, 0, 0, 9, 0, 60, 0, 40, 0, 0, 0, 0, 0, 206, 2, 0, 1, 0, 0, 0, 14, 0, 60, 0, 0, 0, 0,
    0, 0, 0, 0, 0, 2, 0, 0, 206, 3, 0, 1, 0, 0, 0, 1, 97, 206, 3, 0, 1, 0, 0, 0, 1, 98, 206, 1, 0,
    1, 0, 0, 0, 9, 0, 60, 0, 40, 0, 0, 0, 0, 0, 206, 2, 0, 1, 0, 0, 0, 14, 0, 60, 0, 0, 0, 0, 0, 0,
    0, 0, 0, 0, 0, 0, 206,
];

/// The same, cut by 2.
const EMPTY_BY_TWO: [u8; 88] = [
    1, 0, 1, 0, 0, 0, 9, 0, 60, 0, 40, 0, 0, 0, 0, 0, 206, 2, 0, 1, 0, 0, 0, 14, 0, 60, 0, 0, 0, 0,
    0, 0, 0, 0, 0, 2, 0, 0, 206, 3, 0, 1, 0, 0, 0, 2, 97, 98, 206, 1, 0, 1, 0, 0, 0, 9, 0, 60, 0,
    40, 0, 0, 0, 0, 0, 206, 2, 0, 1, 0, 0, 0, 14, 0, 60, 0, 0, 0, 0, 0, 0, 0, 0, 0, 0, 0, 0, 206,
];

/// Messages of three bytes, one after another: `basic.publish`, `basic.return`, `basic.deliver` and `basic.get-ok`.
const OPENINGS: [u8; 217] = [
    1, 0, 1, 0, 0, 0, 9, 0, 60, 0, 40, 0, 0, 0, 0, 0, 206, 2, 0, 1, 0, 0, 0, 14, 0, 60, 0, 0, 0, 0,
    0, 0, 0, 0, 0, 3, 0, 0, 206, 3, 0, 1, 0, 0, 0, 3, 97, 98, 99, 206, 1, 0, 1, 0, 0, 0, 9, 0, 60,
    0, 50, 1, 56, 0, 0, 0, 206, 2, 0, 1, 0, 0, 0, 14, 0, 60, 0, 0, 0, 0, 0, 0, 0, 0, 0, 3, 0, 0,
    206, 3, 0, 1, 0, 0, 0, 3, 97, 98, 99, 206, 1, 0, 1, 0, 0, 0, 16, 0, 60, 0, 60, 0, 0, 0, 0, 0,
    0, 0, 0, 1, 0, 0, 0, 206, 2, 0, 1, 0, 0, 0, 14, 0, 60, 0, 0, 0, 0, 0, 0, 0, 0, 0, 3, 0, 0, 206,
    3, 0, 1, 0, 0, 0, 3, 97, 98, 99, 206, 1, 0, 1, 0, 0, 0, 19, 0, 60, 0, 71, 0, 0, 0, 0, 0, 0, 0,
    1, 0, 0, 0, 0, 0, 0, 0, 206, 2, 0, 1, 0, 0, 0, 14, 0, 60, 0, 0, 0, 0, 0, 0, 0, 0, 0, 3, 0, 0,
    206, 3, 0, 1, 0, 0, 0, 3, 97, 98, 99, 206,
];

/// The same, cut by 2.
const OPENINGS_BY_TWO: [u8; 249] = [
    1, 0, 1, 0, 0, 0, 9, 0, 60, 0, 40, 0, 0, 0, 0, 0, 206, 2, 0, 1, 0, 0, 0, 14, 0, 60, 0, 0, 0, 0,
    0, 0, 0, 0, 0, 3, 0, 0, 206, 3, 0, 1, 0, 0, 0, 2, 97, 98, 206, 3, 0, 1, 0, 0, 0, 1, 99, 206, 1,
    0, 1, 0, 0, 0, 9, 0, 60, 0, 50, 1, 56, 0, 0, 0, 206, 2, 0, 1, 0, 0, 0, 14, 0, 60, 0, 0, 0, 0,
    0, 0, 0, 0, 0, 3, 0, 0, 206, 3, 0, 1, 0, 0, 0, 2, 97, 98, 206, 3, 0, 1, 0, 0, 0, 1, 99, 206, 1,
    0, 1, 0, 0, 0, 16, 0, 60, 0, 60, 0, 0, 0, 0, 0, 0, 0, 0, 1, 0, 0, 0, 206, 2, 0, 1, 0, 0, 0, 14,
    0, 60, 0, 0, 0, 0, 0, 0, 0, 0, 0, 3, 0, 0, 206, 3, 0, 1, 0, 0, 0, 2, 97, 98, 206, 3, 0, 1, 0,
    0, 0, 1, 99, 206, 1, 0, 1, 0, 0, 0, 19, 0, 60, 0, 71, 0, 0, 0, 0, 0, 0, 0, 1, 0, 0, 0, 0, 0, 0,
    0, 206, 2, 0, 1, 0, 0, 0, 14, 0, 60, 0, 0, 0, 0, 0, 0, 0, 0, 0, 3, 0, 0, 206, 3, 0, 1, 0, 0, 0,
    2, 97, 98, 206, 3, 0, 1, 0, 0, 0, 1, 99, 206,
];

/// A heartbeat, a body on channel 2, where no message was opened, and the message.
const STRAY: [u8; 86] = [
    8, 0, 0, 0, 0, 0, 0, 206, 3, 0, 2, 0, 0, 0, 1, 7, 206, 1, 0, 1, 0, 0, 0, 14, 0, 60, 0, 40, 0,
    0, 0, 5, 104, 101, 108, 108, 111, 0, 206, 2, 0, 1, 0, 0, 0, 26, 0, 60, 0, 0, 0, 0, 0, 0, 0, 0,
    0, 5, 144, 0, 10, 116, 101, 120, 116, 47, 112, 108, 97, 105, 110, 2, 206, 3, 0, 1, 0, 0, 0, 5,
    104, 101, 108, 108, 111, 206,
];

/// The message, whose body has a byte too many.
const OVERRUN: [u8; 70] = [
    1, 0, 1, 0, 0, 0, 14, 0, 60, 0, 40, 0, 0, 0, 5, 104, 101, 108, 108, 111, 0, 206, 2, 0, 1, 0, 0,
    0, 26, 0, 60, 0, 0, 0, 0, 0, 0, 0, 0, 0, 5, 144, 0, 10, 116, 101, 120, 116, 47, 112, 108, 97,
    105, 110, 2, 206, 3, 0, 1, 0, 0, 0, 6, 104, 101, 108, 108, 111, 33, 206,
];

/// Two of three bytes of a message.
const OPEN: [u8; 49] = [
    1, 0, 1, 0, 0, 0, 9, 0, 60, 0, 40, 0, 0, 0, 0, 0, 206, 2, 0, 1, 0, 0, 0, 14, 0, 60, 0, 0, 0, 0,
    0, 0, 0, 0, 0, 3, 0, 0, 206, 3, 0, 1, 0, 0, 0, 2, 97, 98, 206,
];

/// A second method inside a message.
const TWO_OPENED: [u8; 34] = [
    1, 0, 1, 0, 0, 0, 9, 0, 60, 0, 40, 0, 0, 0, 0, 0, 206, 1, 0, 1, 0, 0, 0, 9, 0, 60, 0, 40, 0, 0,
    0, 0, 0, 206,
];

/// A byte that begins no frame, inside a message.
const BAD_TYPE: [u8; 57] = [
    1, 0, 1, 0, 0, 0, 14, 0, 60, 0, 40, 0, 0, 0, 5, 104, 101, 108, 108, 111, 0, 206, 2, 0, 1, 0, 0,
    0, 26, 0, 60, 0, 0, 0, 0, 0, 0, 0, 0, 0, 5, 144, 0, 10, 116, 101, 120, 116, 47, 112, 108, 97,
    105, 110, 2, 206, 9,
];

/// The first bytes of a body, inside a message.
const CUT: [u8; 59] = [
    1, 0, 1, 0, 0, 0, 14, 0, 60, 0, 40, 0, 0, 0, 5, 104, 101, 108, 108, 111, 0, 206, 2, 0, 1, 0, 0,
    0, 26, 0, 60, 0, 0, 0, 0, 0, 0, 0, 0, 0, 5, 144, 0, 10, 116, 101, 120, 116, 47, 112, 108, 97,
    105, 110, 2, 206, 3, 0, 1,
];

/// A method inside a message, whose payload is too short.
const SHORT: [u8; 29] = [
    1, 0, 1, 0, 0, 0, 9, 0, 60, 0, 40, 0, 0, 0, 0, 0, 206, 1, 0, 1, 0, 0, 0, 4, 0, 50, 0, 10, 206,
];

/// The body of the message alone.
const BODY: [u8; 13] = [3, 0, 1, 0, 0, 0, 5, 104, 101, 108, 108, 111, 206];

const UNEXPECTED_BODY: Result<(), RecutError> = Err(RecutError::BadContent(
    ContentFault::UnexpectedBody,
));

/// What a case is about, the size, the input, what is written of it, and how the stream ends.
type Row = (
    &'static str,
    u32,
    &'static [u8],
    &'static [u8],
    Result<(), RecutError>,
);

/// The first bytes of some.
fn front(bytes: &'static [u8], count: usize) -> &'static [u8] {
    bytes.get(..count).unwrap_or(&[])
}

/// The cases.
fn rows() -> [Row; 21] {
    [
        ("cut by 1", 1, &MESSAGE, &BY_ONE, Ok(())),
        ("cut by 2", 2, &MESSAGE, &BY_TWO, Ok(())),
        ("cut by less by one", 4, &MESSAGE, &BY_FOUR, Ok(())),
        ("cut by its size", 5, &MESSAGE, &MESSAGE, Ok(())),
        ("cut by more by one", 6, &MESSAGE, &MESSAGE, Ok(())),
        ("joined", 131_072, &BY_TWO, &MESSAGE, Ok(())),
        ("cut by less", 1, &BY_TWO, &BY_ONE, Ok(())),
        (
            "channels in turn",
            2,
            &INTERLEAVED,
            &INTERLEAVED_BY_TWO,
            Ok(()),
        ),
        ("empty bodies", 1, &EMPTY, &EMPTY_BY_ONE, Ok(())),
        ("empty bodies, joined", 2, &EMPTY, &EMPTY_BY_TWO, Ok(())),
        ("each opening", 2, &OPENINGS, &OPENINGS_BY_TWO, Ok(())),
        ("nothing", 2, &[], &[], Ok(())),
        (
            "a message without its body",
            2,
            front(&MESSAGE, 56),
            front(&MESSAGE, 56),
            Err(RecutError::OpenContent),
        ),
        (
            "a body not complete",
            3,
            &OPEN,
            front(&OPEN, 39),
            Err(RecutError::OpenContent),
        ),
        ("a body in front", 2, &BODY, &[], UNEXPECTED_BODY),
        (
            "frames after a fault",
            2,
            &STRAY,
            front(&STRAY, 8),
            UNEXPECTED_BODY,
        ),
        (
            "a byte too many",
            2,
            &OVERRUN,
            front(&OVERRUN, 56),
            Err(RecutError::BadContent(ContentFault::BodyOverrun)),
        ),
        (
            "a method in a message",
            2,
            &TWO_OPENED,
            front(&TWO_OPENED, 17),
            Err(RecutError::BadContent(ContentFault::UnexpectedMethod)),
        ),
        (
            "a fault of bytes first",
            2,
            &BAD_TYPE,
            front(&BAD_TYPE, 56),
            Err(RecutError::Stream(StreamError::UnknownFrameType)),
        ),
        (
            "a fault of the payload first",
            2,
            &SHORT,
            front(&SHORT, 17),
            Err(RecutError::Stream(StreamError::ShortPayload)),
        ),
        (
            "a frame that is cut",
            2,
            &CUT,
            front(&CUT, 56),
            Err(RecutError::Stream(StreamError::CutShort)),
        ),
    ]
}

/// Recuts by a size that may be asked.
pub fn recut_by_size<S: Source, K: Sink>(
    alloc: Global,
    source: &mut S,
    sink: &mut K,
    limit: u32,
    size: u32,
) -> Result<Result<(), RecutError>, Fail> {
    if size == 0 || limit < size {
        return Err(Fail::new(format_args!("no size")));
    }
    Ok(recut(alloc, source, sink, limit, size, 10_000))
}

/// What a case writes, whatever pieces it comes in.
fn check(alloc: Global, row: Row, pieces: &[usize]) -> Result<(), Fail> {
    let (name, size, input, written, outcome) = row;
    let mut source = PieceSource::new(input, pieces, &[]);
    let mut sink = VecSink::new(alloc);
    let found = recut_by_size(alloc, &mut source, &mut sink, LIMIT, size)?;
    same_in(name, found, outcome)?;
    same_in(name, sink.bytes(), written)
}

#[test]
fn rows_are_recut(rt: HostRuntime) -> Result<(), Fail> {
    for row in rows() {
        check(rt.alloc(), row, &[])?;
        check(rt.alloc(), row, &[1; 200])?;
    }
    Ok(())
}

/// Recuts the message by 2 from a source with these failing reads to a sink with these failing writes.
fn ends(
    alloc: Global,
    failing: (&[u64], &[u64]),
    budget: u64,
    outcome: RecutError,
    written: &[u8],
) -> Result<(), Fail> {
    let mut source = PieceSource::new(&MESSAGE, &[60, 9], failing.0);
    let mut sink = ScriptSink::new(alloc, &[], failing.1);
    let found = recut(alloc, &mut source, &mut sink, LIMIT, 2, budget);
    same(found, Err(outcome))?;
    same(sink.bytes(), written)
}

#[test]
fn ends_fail(rt: HostRuntime) -> Result<(), Fail> {
    let alloc = rt.alloc();
    let read = RecutError::Stream(StreamError::ReadFault);
    let write = RecutError::Stream(StreamError::WriteFault);
    let spent = RecutError::Stream(StreamError::TurnsSpent);
    ends(alloc, (&[0], &[]), 9, read, &[])?;
    ends(alloc, (&[1], &[]), 9, read, front(&MESSAGE, 56))?;
    ends(alloc, (&[2], &[]), 9, read, &BY_TWO)?;
    ends(alloc, (&[], &[0]), 9, write, &[])?;
    ends(alloc, (&[], &[1]), 9, write, front(&MESSAGE, 56))?;
    ends(alloc, (&[], &[]), 0, spent, &[])?;
    ends(alloc, (&[], &[]), 1, spent, front(&MESSAGE, 56))?;
    ends(alloc, (&[], &[]), 2, spent, &BY_TWO)
}

/// `basic.publish` on channels 3, 1 and 2, of 17 bytes each.
const OPENED: [u8; 51] = [
    1, 0, 3, 0, 0, 0, 9, 0, 60, 0, 40, 0, 0, 0, 0, 0, 206, 1, 0, 1, 0, 0, 0, 9, 0, 60, 0, 40, 0, 0,
    0, 0, 0, 206, 1, 0, 2, 0, 0, 0, 9, 0, 60, 0, 40, 0, 0, 0, 0, 0, 206,
];

#[test]
fn the_least_open_channel_is_reported(rt: HostRuntime) -> Result<(), Fail> {
    for (count, channel) in [(17, 3), (34, 1), (51, 1)] {
        let open = OPENED.get(..count).unwrap_or(&[]);
        let mut source = PieceSource::new(open, &[1; 60], &[]);
        let mut sink = VecSink::new(rt.alloc());
        let found = recut_reported(rt.alloc(), &mut source, &mut sink, LIMIT, 2, 1000);
        let Err(report) = found else {
            return Err(Fail::new(format_args!("no error")));
        };
        same(report.error, RecutError::OpenContent)?;
        same(report.place, open.len() as u64)?;
        same(report.channel, Some(channel))?;
    }
    Ok(())
}

/// Memory that runs out ends a stream at a method, a content header or a body, and what stands then is a front of what
/// is to be written: `rt try --test --fail-alloc N` lets the Nth allocation of each test fail.
#[test]
fn refused_memory_leaves_a_front(rt: HostRuntime) -> Result<(), Fail> {
    let alloc = rt.alloc();
    let mut source = SliceSource::new(&INTERLEAVED);
    let mut sink = VecSink::new(alloc);
    match recut(alloc, &mut source, &mut sink, LIMIT, 2, 1000) {
        Ok(()) => same(sink.bytes(), &INTERLEAVED_BY_TWO),
        Err(RecutError::Stream(StreamError::NoMemory | StreamError::WriteFault)) => {
            same(INTERLEAVED_BY_TWO.starts_with(sink.bytes()), true)
        }
        Err(error) => same(error, RecutError::OpenContent),
    }
}

/// Each error, its status, and its name.
const ERRORS: [(RecutError, u8, &str); 4] = [
    (RecutError::Stream(StreamError::CutShort), 21, "CutShort"),
    (RecutError::Stream(StreamError::NoMemory), 3, "NoMemory"),
    (
        RecutError::BadContent(ContentFault::WrongClass),
        24,
        "BadContent",
    ),
    (RecutError::OpenContent, 25, "OpenContent"),
];

#[test]
fn errors_are_named(rt: HostRuntime) -> Result<(), Fail> {
    for (error, status, name) in ERRORS {
        same(error.status(), status)?;
        same(error.name(), name)?;
        shows(rt.alloc(), &error, "", name, "")?;
    }
    Ok(())
}
