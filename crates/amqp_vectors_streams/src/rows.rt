//! Worked cases of bytes: how they end, and what is written for them.

use crate::asking::{DECLARE, HEARTBEAT, MESSAGE, START, START_IN_ORDER, canonicalizes, ends_in};
use amqp_stream::{SliceSource, StreamError};
use amqp_types::Profile;
use std::test::Fail;

/// Bytes, how they end, and what is written for them: the canonical bytes of the frames in front.
const ROWS: &[(&str, &[u8], Result<(), StreamError>, &[u8])] = &[
    ("no frames", &[], Ok(()), &[]),
    (
        "a protocol header",
        &[65, 77, 81, 80, 0, 0, 9, 1],
        Ok(()),
        &[65, 77, 81, 80, 0, 0, 9, 1],
    ),
    (
        "a heartbeat with a payload",
        &[8, 0, 0, 0, 0, 0, 1, 7, 206],
        Ok(()),
        &HEARTBEAT,
    ),
    (
        "a heartbeat on a channel where none belongs",
        &[8, 0, 1, 0, 0, 0, 0, 206],
        Ok(()),
        &[8, 0, 1, 0, 0, 0, 0, 206],
    ),
    (
        "a body",
        &[3, 0, 1, 0, 0, 0, 1, 104, 206],
        Ok(()),
        &[3, 0, 1, 0, 0, 0, 1, 104, 206],
    ),
    (
        "a reserved number that is 1, filled with 9",
        &[1, 0, 1, 0, 0, 0, 6, 0, 30, 0, 11, 0, 9, 206],
        Ok(()),
        &[1, 0, 1, 0, 0, 0, 6, 0, 30, 0, 11, 0, 1, 206],
    ),
    (
        "spare bits of a byte of flags",
        &[1, 0, 1, 0, 0, 0, 5, 0, 85, 0, 10, 255, 206],
        Ok(()),
        &[1, 0, 1, 0, 0, 0, 5, 0, 85, 0, 10, 1, 206],
    ),
    ("a queue is declared", &DECLARE, Ok(()), &DECLARE),
    (
        "the weight of a content header, and spare bits of its mask",
        &[
            2, 0, 1, 0, 0, 0, 14, 0, 60, 0, 7, 0, 0, 0, 0, 0, 0, 0, 5, 0, 3, 206,
        ],
        Ok(()),
        &[
            2, 0, 1, 0, 0, 0, 14, 0, 60, 0, 0, 0, 0, 0, 0, 0, 0, 0, 5, 0, 0, 206,
        ],
    ),
    (
        "a content header with the delivery mode alone",
        &[
            2, 0, 1, 0, 0, 0, 15, 0, 60, 0, 0, 0, 0, 0, 0, 0, 0, 0, 5, 16, 0, 2, 206,
        ],
        Ok(()),
        &[
            2, 0, 1, 0, 0, 0, 15, 0, 60, 0, 0, 0, 0, 0, 0, 0, 0, 0, 5, 16, 0, 2, 206,
        ],
    ),
    (
        "of equal keys the last one, and a truth byte of 7",
        &[
            1, 0, 1, 0, 0, 0, 20, 0, 50, 0, 10, 0, 0, 0, 31, 0, 0, 0, 8, 1, 97, 116, 0, 1, 97, 116,
            7, 206,
        ],
        Ok(()),
        &[
            1, 0, 1, 0, 0, 0, 16, 0, 50, 0, 10, 0, 0, 0, 31, 0, 0, 0, 4, 1, 97, 116, 1, 206,
        ],
    ),
    (
        "a reserved long string that is filled",
        &[1, 0, 1, 0, 0, 0, 9, 0, 20, 0, 11, 0, 0, 0, 1, 120, 206],
        Ok(()),
        &[1, 0, 1, 0, 0, 0, 8, 0, 20, 0, 11, 0, 0, 0, 0, 206],
    ),
    (
        "a reserved short string and a reserved flag that are filled",
        &[1, 0, 0, 0, 0, 0, 9, 0, 10, 0, 40, 1, 47, 1, 120, 1, 206],
        Ok(()),
        &[1, 0, 0, 0, 0, 0, 8, 0, 10, 0, 40, 1, 47, 0, 0, 206],
    ),
    (
        "the id 51 of exchange.unbind-ok",
        &[1, 0, 2, 0, 0, 0, 4, 0, 40, 0, 51, 206],
        Ok(()),
        &[1, 0, 2, 0, 0, 0, 4, 0, 40, 0, 51, 206],
    ),
    (
        "the first of two flags",
        &[
            1, 0, 1, 0, 0, 0, 13, 0, 60, 0, 120, 0, 0, 0, 0, 0, 0, 0, 1, 1, 206,
        ],
        Ok(()),
        &[
            1, 0, 1, 0, 0, 0, 13, 0, 60, 0, 120, 0, 0, 0, 0, 0, 0, 0, 1, 1, 206,
        ],
    ),
    ("a message", &MESSAGE, Ok(()), &MESSAGE),
    (
        "entries that are not in order",
        &START,
        Ok(()),
        &START_IN_ORDER,
    ),
    (
        "no frame type",
        &[9],
        Err(StreamError::UnknownFrameType),
        &[],
    ),
    (
        "another protocol's header",
        &[65, 77, 81, 81],
        Err(StreamError::BadProtocolHeader),
        &[],
    ),
    ("half of a name", &[65, 77], Err(StreamError::CutShort), &[]),
    (
        "a payload above the limit",
        &[3, 0, 0, 0, 2, 0, 1],
        Err(StreamError::TooLarge),
        &[],
    ),
    (
        "a payload at the limit that does not come",
        &[3, 0, 0, 0, 2, 0, 0],
        Err(StreamError::CutShort),
        &[],
    ),
    (
        "a byte after the payload that is not 206",
        &[1, 0, 1, 0, 0, 0, 2, 0, 99, 205],
        Err(StreamError::BadFrameEnd),
        &[],
    ),
    (
        "no class has the id 99",
        &[1, 0, 1, 0, 0, 0, 2, 0, 99, 206],
        Err(StreamError::UnknownClass),
        &[],
    ),
    (
        "no method of basic has the id 1",
        &[1, 0, 1, 0, 0, 0, 4, 0, 60, 0, 1, 206],
        Err(StreamError::UnknownMethod),
        &[],
    ),
    (
        "no method of exchange has the id 41",
        &[1, 0, 2, 0, 0, 0, 4, 0, 40, 0, 41, 206],
        Err(StreamError::UnknownMethod),
        &[],
    ),
    (
        "half of a class id",
        &[1, 0, 1, 0, 0, 0, 1, 0, 206],
        Err(StreamError::ShortPayload),
        &[],
    ),
    (
        "a method without its flags",
        &[1, 0, 1, 0, 0, 0, 4, 0, 85, 0, 10, 206],
        Err(StreamError::ShortPayload),
        &[],
    ),
    (
        "a method with a byte more",
        &[1, 0, 0, 0, 0, 0, 5, 0, 10, 0, 51, 0, 206],
        Err(StreamError::TrailingBytes),
        &[],
    ),
    (
        "a content header of no bytes",
        &[2, 0, 1, 0, 0, 0, 0, 206],
        Err(StreamError::ShortPayload),
        &[],
    ),
    (
        "a content header whose mask is cut",
        &[
            2, 0, 1, 0, 0, 0, 13, 0, 60, 0, 0, 0, 0, 0, 0, 0, 0, 0, 5, 0, 206,
        ],
        Err(StreamError::ShortPayload),
        &[],
    ),
    (
        "a content header with a byte after its mask",
        &[
            2, 0, 1, 0, 0, 0, 15, 0, 60, 0, 0, 0, 0, 0, 0, 0, 0, 0, 5, 0, 0, 9, 206,
        ],
        Err(StreamError::TrailingBytes),
        &[],
    ),
    (
        "channel.open with a reserved string that is not UTF-8",
        &[1, 0, 1, 0, 0, 0, 6, 0, 20, 0, 10, 1, 255, 206],
        Err(StreamError::NotUtf8),
        &[],
    ),
    (
        "connection.open-ok with a reserved string that is not UTF-8",
        &[1, 0, 0, 0, 0, 0, 6, 0, 10, 0, 41, 1, 255, 206],
        Err(StreamError::NotUtf8),
        &[],
    ),
    (
        "no tag has the byte 90",
        &[
            1, 0, 1, 0, 0, 0, 14, 0, 50, 0, 10, 0, 0, 0, 0, 0, 0, 0, 2, 0, 90, 206,
        ],
        Err(StreamError::UnknownTag),
        &[],
    ),
    (
        "no frame type, after a heartbeat with a payload",
        &[8, 0, 0, 0, 0, 0, 1, 7, 206, 9],
        Err(StreamError::UnknownFrameType),
        &HEARTBEAT,
    ),
    (
        "no class, after a heartbeat with a payload",
        &[8, 0, 0, 0, 0, 0, 1, 7, 206, 1, 0, 1, 0, 0, 0, 2, 0, 99, 206],
        Err(StreamError::UnknownClass),
        &HEARTBEAT,
    ),
];

/// What was written, given again, gives itself.
#[test]
fn rows_are_canonicalized(rt: HostRuntime) -> Result<(), Fail> {
    let alloc = rt.alloc();
    for (row, read, outcome, written) in ROWS {
        canonicalizes(alloc, row, read, *outcome, written)?;
        let mut source = SliceSource::new(read);
        ends_in(
            alloc,
            row,
            Profile::Plain,
            &mut source,
            98,
            *outcome,
            written,
        )?;
        if outcome.is_ok() {
            canonicalizes(alloc, row, written, *outcome, written)?;
        }
    }
    Ok(())
}
