//! Worked streams: which of their bytes are kept, and how each ends.

use amqp_filter::{FilterError, filter, filter_reported};
use amqp_select::{RuleError, Rules};
use amqp_stream::{PieceSource, StreamError, VecSink};
use amqp_turns::ContentFault;
use amqp_vectors::asking::{same, same_in};
use std::alloc::{AllocError, Global};
use std::test::Fail;

/// The limit on payloads, in bytes.
pub const LIMIT: u32 = 131_072;

/// Pieces of one byte.
pub const ONES: &[usize] = &[1; 130];

/// A message of three bytes on channel 1, with a heartbeat between its bodies, and `basic.qos-ok`: `basic.publish`, its
/// content header, a body, the heartbeat, a body and the method, of 17, 22, 10, 8, 9 and 12 bytes.
pub const PUBLISHED: &[u8] = &[
    1, 0, 1, 0, 0, 0, 9, 0, 60, 0, 40, 0, 0, 0, 0, 0, 206, 2, 0, 1, 0, 0, 0, 14, 0, 60, 0, 0, 0, 0,
    0, 0, 0, 0, 0, 3, 0, 0, 206, 3, 0, 1, 0, 0, 0, 2, 97, 98, 206, 8, 0, 0, 0, 0, 0, 0, 206, 3, 0,
    1, 0, 0, 0, 1, 99, 206, 1, 0, 1, 0, 0, 0, 4, 0, 60, 0, 11, 206,
];

/// Messages of three bytes on channels 1 and 2, and a heartbeat between their bodies: two methods, two content headers,
/// a body of each, the heartbeat, and a body of each, of 17, 17, 22, 22, 10, 9, 8, 9 and 10 bytes.
pub const INTERLEAVED: &[u8] = &[
    1, 0, 1, 0, 0, 0, 9, 0, 60, 0, 40, 0, 0, 0, 0, 0, 206, 1, 0, 2, 0, 0, 0, 9, 0, 60, 0, 40, 0, 0,
    0, 0, 0, 206, 2, 0, 1, 0, 0, 0, 14, 0, 60, 0, 0, 0, 0, 0, 0, 0, 0, 0, 3, 0, 0, 206, 2, 0, 2, 0,
    0, 0, 14, 0, 60, 0, 0, 0, 0, 0, 0, 0, 0, 0, 3, 0, 0, 206, 3, 0, 1, 0, 0, 0, 2, 97, 98, 206, 3,
    0, 2, 0, 0, 0, 1, 120, 206, 8, 0, 0, 0, 0, 0, 0, 206, 3, 0, 1, 0, 0, 0, 1, 99, 206, 3, 0, 2, 0,
    0, 0, 2, 121, 122, 206,
];

/// A message of three bytes that was got, and that there is none: `basic.get-ok`, its content header, its body and
/// `basic.get-empty`, of 27, 22, 11 and 13 bytes.
const GOT: &[u8] = &[
    1, 0, 1, 0, 0, 0, 19, 0, 60, 0, 71, 0, 0, 0, 0, 0, 0, 0, 1, 0, 0, 0, 0, 0, 0, 0, 206, 2, 0, 1,
    0, 0, 0, 14, 0, 60, 0, 0, 0, 0, 0, 0, 0, 0, 0, 3, 0, 0, 206, 3, 0, 1, 0, 0, 0, 3, 97, 98, 99,
    206, 1, 0, 1, 0, 0, 0, 5, 0, 60, 0, 72, 0, 206,
];

/// Messages without a body, one after another: `basic.publish`, its content header, `basic.return` and its content
/// header, of 17, 22, 17 and 22 bytes.
const EMPTY: &[u8] = &[
    1, 0, 1, 0, 0, 0, 9, 0, 60, 0, 40, 0, 0, 0, 0, 0, 206, 2, 0, 1, 0, 0, 0, 14, 0, 60, 0, 0, 0, 0,
    0, 0, 0, 0, 0, 0, 0, 0, 206, 1, 0, 1, 0, 0, 0, 9, 0, 60, 0, 50, 1, 56, 0, 0, 0, 206, 2, 0, 1,
    0, 0, 0, 14, 0, 60, 0, 0, 0, 0, 0, 0, 0, 0, 0, 0, 0, 0, 206,
];

/// A message of three bytes, whose body has a byte too many: 17, 22 and 12 bytes.
const OVERRUN: &[u8] = &[
    1, 0, 1, 0, 0, 0, 9, 0, 60, 0, 40, 0, 0, 0, 0, 0, 206, 2, 0, 1, 0, 0, 0, 14, 0, 60, 0, 0, 0, 0,
    0, 0, 0, 0, 0, 3, 0, 0, 206, 3, 0, 1, 0, 0, 0, 4, 97, 98, 99, 100, 206,
];

/// A heartbeat, and a body on channel 2, where no message was opened.
const STRAY: &[u8] = &[8, 0, 0, 0, 0, 0, 0, 206, 3, 0, 2, 0, 0, 0, 1, 7, 206];

/// A method inside a message.
const TWO_OPENED: &[u8] = &[
    1, 0, 1, 0, 0, 0, 9, 0, 60, 0, 40, 0, 0, 0, 0, 0, 206, 1, 0, 1, 0, 0, 0, 9, 0, 60, 0, 40, 0, 0,
    0, 0, 0, 206,
];

/// A `basic.publish` whose payload is too short.
const SHORT: &[u8] = &[1, 0, 1, 0, 0, 0, 4, 0, 60, 0, 40, 206];

/// A `basic.publish`, and a content header with a byte too many.
const TRAILING: &[u8] = &[
    1, 0, 1, 0, 0, 0, 9, 0, 60, 0, 40, 0, 0, 0, 0, 0, 206, 2, 0, 1, 0, 0, 0, 15, 0, 60, 0, 0, 0, 0,
    0, 0, 0, 0, 0, 3, 0, 0, 9, 206,
];

const OVERRUNS: Result<(), FilterError> = Err(FilterError::BadContent(ContentFault::BodyOverrun));

/// What a case is about, the rules, the input, from where to where its bytes are kept, and how the stream ends.
type Row = (
    &'static str,
    &'static [&'static str],
    &'static [u8],
    &'static [(usize, usize)],
    Result<(), FilterError>,
);

/// Streams that come to their end.
const WHOLE: &[Row] = &[
    ("all", &["keep"], PUBLISHED, &[(0, 78)], Ok(())),
    ("nothing", &["drop"], PUBLISHED, &[], Ok(())),
    (
        "a message is dropped whole",
        &["drop,class=60,method=40", "keep"],
        PUBLISHED,
        &[(49, 57), (66, 78)],
        Ok(()),
    ),
    (
        "a message is kept whole",
        &["keep,class=60,method=40"],
        PUBLISHED,
        &[(0, 49), (57, 66)],
        Ok(()),
    ),
    (
        "methods, and what belongs to them",
        &["keep,kind=method"],
        PUBLISHED,
        &[(0, 49), (57, 78)],
        Ok(()),
    ),
    (
        "bodies decide nothing",
        &["keep,kind=body"],
        PUBLISHED,
        &[],
        Ok(()),
    ),
    (
        "nor do content headers",
        &["drop,kind=header", "drop,kind=body", "keep"],
        PUBLISHED,
        &[(0, 78)],
        Ok(()),
    ),
    (
        "channels in turn",
        &["drop,channel=1", "keep"],
        INTERLEAVED,
        &[(17, 34), (56, 78), (88, 105), (114, 124)],
        Ok(()),
    ),
    (
        "a message that was got",
        &["keep,class=60,method=71"],
        GOT,
        &[(0, 60)],
        Ok(()),
    ),
    (
        "there is none to get",
        &["drop,class=60,method=71", "keep"],
        GOT,
        &[(60, 73)],
        Ok(()),
    ),
    (
        "messages without a body",
        &["drop,class=60,method=40", "keep"],
        EMPTY,
        &[(39, 78)],
        Ok(()),
    ),
    ("no input", &["keep"], &[], &[], Ok(())),
];

/// Streams that end early.
const ENDED: &[Row] = &[
    (
        "a kept body is too long",
        &["keep"],
        OVERRUN,
        &[(0, 39)],
        OVERRUNS,
    ),
    (
        "a dropped body is too long",
        &["drop"],
        OVERRUN,
        &[],
        OVERRUNS,
    ),
    (
        "a body outside of a message",
        &["keep"],
        STRAY,
        &[(0, 8)],
        Err(FilterError::BadContent(ContentFault::UnexpectedBody)),
    ),
    (
        "a method in a dropped message",
        &["drop"],
        TWO_OPENED,
        &[],
        Err(FilterError::BadContent(ContentFault::UnexpectedMethod)),
    ),
    (
        "a dropped method is no method",
        &["drop"],
        SHORT,
        &[],
        Err(FilterError::Stream(StreamError::ShortPayload)),
    ),
    (
        "a dropped content header is none",
        &["drop"],
        TRAILING,
        &[],
        Err(FilterError::Stream(StreamError::TrailingBytes)),
    ),
];

/// The rules that these words stand for.
pub fn parse(alloc: Global, words: &[&str]) -> Result<Rules, RuleError> {
    let mut all = Vec::new(alloc);
    for word in words {
        match String::from_str(alloc, word) {
            Ok(word) => all.push(word)?,
            Err(_) => return Err(RuleError::NoMemory),
        }
    }
    Rules::parse(alloc, all.as_slice())
}

/// The bytes that stand at these places, one after another.
fn cut_out(alloc: Global, input: &[u8], places: &[(usize, usize)]) -> Result<Vec<u8>, AllocError> {
    let mut bytes = Vec::new(alloc);
    for (start, end) in places {
        bytes.extend_from_slice(input.get(*start..*end).unwrap_or(&[]))?;
    }
    Ok(bytes)
}

/// What a case writes, whatever pieces it comes in.
fn check(alloc: Global, row: Row, pieces: &[usize]) -> Result<(), Fail> {
    let (name, words, input, places, outcome) = row;
    let rules = parse(alloc, words)?;
    let wanted = cut_out(alloc, input, places)?;
    let mut source = PieceSource::new(input, pieces, &[]);
    let mut sink = VecSink::new(alloc);
    let found = filter(alloc, &rules, &mut source, &mut sink, LIMIT, 1000);
    same_in(name, found, outcome)?;
    same_in(name, sink.bytes(), wanted.as_slice())
}

#[test]
fn whole_messages_are_kept(rt: HostRuntime) -> Result<(), Fail> {
    for row in WHOLE {
        check(rt.alloc(), *row, &[])?;
        check(rt.alloc(), *row, ONES)?;
    }
    Ok(())
}

#[test]
fn dropped_frames_are_judged(rt: HostRuntime) -> Result<(), Fail> {
    for row in ENDED {
        check(rt.alloc(), *row, &[])?;
        check(rt.alloc(), *row, ONES)?;
    }
    Ok(())
}

#[test]
fn open_messages_are_no_end(rt: HostRuntime) -> Result<(), Fail> {
    for (words, count) in [("keep", 39), ("drop", 0)] {
        let rules = parse(rt.alloc(), &[words])?;
        let open = PUBLISHED.get(..39).unwrap_or(&[]);
        let mut source = PieceSource::new(open, &[], &[]);
        let mut sink = VecSink::new(rt.alloc());
        let found = filter(rt.alloc(), &rules, &mut source, &mut sink, LIMIT, 1000);
        same_in(words, found, Err(FilterError::OpenContent))?;
        same_in(words, sink.bytes().len(), count)?;
    }
    Ok(())
}

/// `basic.publish` on channels 3, 1 and 2, of 17 bytes each.
const OPENED: &[u8] = &[
    1, 0, 3, 0, 0, 0, 9, 0, 60, 0, 40, 0, 0, 0, 0, 0, 206, 1, 0, 1, 0, 0, 0, 9, 0, 60, 0, 40, 0, 0,
    0, 0, 0, 206, 1, 0, 2, 0, 0, 0, 9, 0, 60, 0, 40, 0, 0, 0, 0, 0, 206,
];

#[test]
fn the_least_open_channel_is_reported(rt: HostRuntime) -> Result<(), Fail> {
    let rules = parse(rt.alloc(), &["drop"])?;
    for (count, channel) in [(17, 3), (34, 1), (51, 1)] {
        for pieces in [[].as_slice(), ONES] {
            let open = OPENED.get(..count).unwrap_or(&[]);
            let mut source = PieceSource::new(open, pieces, &[]);
            let mut sink = VecSink::new(rt.alloc());
            let found = filter_reported(rt.alloc(), &rules, &mut source, &mut sink, LIMIT, 1000);
            let Err(report) = found else {
                return Err(Fail::new(format_args!("no error")));
            };
            same(report.error, FilterError::OpenContent)?;
            same(report.place, open.len() as u64)?;
            same(report.channel, Some(channel))?;
        }
    }
    Ok(())
}
