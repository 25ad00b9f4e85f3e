//! Streams of which only tidy bytes are taken: reserved fields, unused bits and heartbeat payloads stand at
//! their constants.

use crate::asking::{
    DECLARE, HEARTBEAT, LIMIT, MESSAGE, ONES, START, START_IN_ORDER, ends_in, has_ended,
};
use amqp_stream::{Codec, PieceSource, StreamError, VecSink};
use amqp_types::Profile;
use std::alloc::Global;
use std::test::Fail;

/// Bytes, the outcome, and what is written for them.
const ROWS: &[(&str, &[u8], Result<(), StreamError>, &[u8])] = &[
    ("no frames", &[], Ok(()), &[]),
    ("a queue is declared", &DECLARE, Ok(()), &DECLARE),
    ("a message", &MESSAGE, Ok(()), &MESSAGE),
    (
        "entries that are not in order",
        &START,
        Ok(()),
        &START_IN_ORDER,
    ),
    (
        "of equal keys the last one, and a truth byte of 7",
        &[
            1, 0, 1, 0, 0, 0, 20, 0, 50, 0, 10, 0, 0, 0, 31, 0, 0, 0, 8, 1, 97, 116, 0, 1, 97, 116,
            7, 206,
        ],
        Ok(()),
        &[
            1, 0, 1, 0, 0, 0, 16, 0, 50, 0, 10, 0, 0, 0, 31, 0, 0, 0, 4, 1, 97, 116, 1, 206,
        ],
    ),
    (
        "a heartbeat with a payload",
        &[8, 0, 0, 0, 0, 0, 1, 7, 206],
        Err(StreamError::NotTidy),
        &[],
    ),
    (
        "a reserved number that is 1, filled with 9",
        &[1, 0, 1, 0, 0, 0, 6, 0, 30, 0, 11, 0, 9, 206],
        Err(StreamError::NotTidy),
        &[],
    ),
    (
        "spare bits of a byte of flags",
        &[1, 0, 1, 0, 0, 0, 5, 0, 85, 0, 10, 255, 206],
        Err(StreamError::NotTidy),
        &[],
    ),
    (
        "the weight of a content header, and spare bits of its mask",
        &[
            2, 0, 1, 0, 0, 0, 14, 0, 60, 0, 7, 0, 0, 0, 0, 0, 0, 0, 5, 0, 3, 206,
        ],
        Err(StreamError::NotTidy),
        &[],
    ),
    (
        "the spare bit 0 of a mask",
        &[
            2, 0, 1, 0, 0, 0, 14, 0, 60, 0, 0, 0, 0, 0, 0, 0, 0, 0, 5, 0, 1, 206,
        ],
        Err(StreamError::NotTidy),
        &[],
    ),
    (
        "a reserved short string and a reserved flag that are filled",
        &[1, 0, 0, 0, 0, 0, 9, 0, 10, 0, 40, 1, 47, 1, 120, 1, 206],
        Err(StreamError::NotTidy),
        &[],
    ),
    (
        "a reserved number that is filled, before a tag that is none",
        &[
            1, 0, 1, 0, 0, 0, 14, 0, 50, 0, 10, 0, 9, 0, 0, 0, 0, 0, 2, 0, 90, 206,
        ],
        Err(StreamError::UnknownTag),
        &[],
    ),
    (
        "a heartbeat with a payload, and an end byte that is none",
        &[8, 0, 0, 0, 0, 0, 1, 7, 205],
        Err(StreamError::BadFrameEnd),
        &[],
    ),
    (
        "frames before the one that is not tidy",
        &[
            8, 0, 0, 0, 0, 0, 0, 206, 8, 0, 0, 0, 0, 0, 1, 7, 206, 8, 0, 0, 0, 0, 0, 0, 206,
        ],
        Err(StreamError::NotTidy),
        &HEARTBEAT,
    ),
];

/// Fails unless a codec ends so.
fn codec_ends(
    alloc: Global,
    row: &str,
    codec: &mut Codec,
    source: &mut PieceSource<'_>,
    outcome: Result<(), StreamError>,
    written: &[u8],
) -> Result<(), Fail> {
    let mut sink = VecSink::new(alloc);
    let found = codec.rewrite(Profile::Tidy, source, &mut sink, 98);
    has_ended(row, found, outcome, sink.bytes(), written)
}

#[test]
fn only_tidy_bytes_are_taken(rt: HostRuntime) -> Result<(), Fail> {
    let alloc = rt.alloc();
    let mut codec = Codec::open(alloc, LIMIT)?;
    for (row, bytes, outcome, written) in ROWS {
        for pieces in [[].as_slice(), ONES.as_slice()] {
            let mut source = PieceSource::new(bytes, pieces, &[]);
            let tidy = Profile::Tidy;
            ends_in(alloc, row, tidy, &mut source, 98, *outcome, written)?;
            let mut source = PieceSource::new(bytes, pieces, &[]);
            codec_ends(alloc, row, &mut codec, &mut source, *outcome, written)?;
        }
    }
    Ok(())
}
