//! Canonical bytes that are put in place of a borrowed frame, and how such a frame is decoded.

use amqp_frame::AMQPFrameType::{self, Body, Header, Heartbeat, Method, ProtocolHeader};
use amqp_frame::{
    AMQPRawFrame, EntryMark, FrameJudgement, ParserError, judge_frame, put_canonical,
};
use amqp_vectors::asking::same;
use std::test::Fail;

/// A type, a channel, a payload, and the canonical bytes of the frame.
type Row = (AMQPFrameType, u16, &'static [u8], &'static [u8]);

const ROWS: &[Row] = &[
    (ProtocolHeader, 0, &[0, 9, 1], b"AMQP\0\0\x09\x01"),
    // An unused flag bit, and then all of them.
    (
        Method,
        3,
        &[0, 85, 0, 10, 1],
        &[1, 0, 3, 0, 0, 0, 5, 0, 85, 0, 10, 1, 206],
    ),
    (
        Method,
        3,
        &[0, 85, 0, 10, 255],
        &[1, 0, 3, 0, 0, 0, 5, 0, 85, 0, 10, 1, 206],
    ),
    // A table whose keys are not in ascending order, with duplicates.
    (
        Method,
        1,
        &[
            0, 50, 0, 10, 0, 0, 0, 0, 0, 0, 0, 11, 1, 98, 86, 1, 97, 86, 1, 98, 85, 0, 5,
        ],
        &[
            1, 0, 1, 0, 0, 0, 20, 0, 50, 0, 10, 0, 0, 0, 0, 0, 0, 0, 8, 1, 97, 86, 1, 98, 115, 0,
            5, 206,
        ],
    ),
    // A weight, and the two bits of the mask that no property has.
    (
        Header,
        1,
        &[0, 60, 0, 7, 0, 0, 0, 0, 0, 0, 0, 5, 16, 3, 2],
        &[
            2, 0, 1, 0, 0, 0, 15, 0, 60, 0, 0, 0, 0, 0, 0, 0, 0, 0, 5, 16, 0, 2, 206,
        ],
    ),
    (Body, 1, &[104, 105], &[3, 0, 1, 0, 0, 0, 2, 104, 105, 206]),
    (Heartbeat, 0, &[1, 2, 3], &[8, 0, 0, 0, 0, 0, 0, 206]),
    (Heartbeat, 5, &[], &[8, 0, 5, 0, 0, 0, 0, 206]),
];

/// Whether just these bytes are put after a byte that stands before.
fn puts(raw: AMQPRawFrame<'_>, wanted: &[u8]) -> bool {
    if raw.payload.len() > 40 {
        return false;
    }
    let mut scratch = [EntryMark::default(); 20];
    let mut buf = [7; 64];
    match put_canonical(&mut buf, 1, &mut scratch, raw) {
        Ok(end) => buf[0] == 7 && &buf[1..end] == wanted && buf[end..].iter().all(|b| *b == 7),
        Err(_) => false,
    }
}

#[test]
fn canonical_bytes_are_put(rt: HostRuntime) {
    for (frame_type, channel_id, payload, wanted) in ROWS {
        let raw = AMQPRawFrame {
            frame_type: *frame_type,
            channel_id: *channel_id,
            payload,
        };
        assert!(rt; puts(raw, wanted));
    }
}

/// A frame that comes in its canonical bytes.
const CANONICAL: FrameJudgement = FrameJudgement {
    canonical: true,
    tidy: true,
};

/// A frame that does not, and is not tidy.
const LOOSE: FrameJudgement = FrameJudgement {
    canonical: false,
    tidy: false,
};

/// A type, a payload on channel 1, and how it is decoded.
type Judged = (
    AMQPFrameType,
    &'static [u8],
    Result<FrameJudgement, ParserError>,
);

const JUDGED: &[Judged] = &[
    (ProtocolHeader, &[0, 9, 1], Ok(CANONICAL)),
    (ProtocolHeader, &[0, 9], Err(ParserError::ShortPayload)),
    (
        ProtocolHeader,
        &[0, 9, 1, 1],
        Err(ParserError::TrailingBytes),
    ),
    (Method, &[0, 85, 0, 10, 1], Ok(CANONICAL)),
    (Method, &[0, 85, 0, 10, 3], Ok(LOOSE)),
    (Method, &[0, 85, 0, 10], Err(ParserError::ShortPayload)),
    (
        Method,
        &[0, 85, 0, 10, 1, 0],
        Err(ParserError::TrailingBytes),
    ),
    (Method, &[0, 1, 0, 10], Err(ParserError::UnknownClass)),
    (Heartbeat, &[9], Ok(LOOSE)),
    (Body, &[], Ok(CANONICAL)),
];

#[test]
fn payloads_are_judged() -> Result<(), Fail> {
    for (frame_type, payload, wanted) in JUDGED {
        let raw = AMQPRawFrame {
            frame_type: *frame_type,
            channel_id: 1,
            payload,
        };
        same(judge_frame(raw), *wanted)?;
    }
    Ok(())
}
