//! Borrowed frames: worked examples of what is borrowed from a payload, and of its canonical bytes.

ghost use Rattle.std.specs.Prelude.{◌^◌, ◌<◌, length};
ghost use Rattle.amqp_lent.specs.Frames.{IsFrame, payload_of};

use amqp_lent::{LentFrame, lent_frame, lent_size, write_lent};
use amqp_types::{GenError, ParserError};
use amqp_vectors::asking::same;
use amqp_wire::AMQPFrameType::{self, Body, Header, Heartbeat, Method, ProtocolHeader};
use amqp_wire::{AMQPRawFrame, ProtocolVersion};
use std::test::Fail;

/// A type, a channel, a payload, what is borrowed or the fault, and the canonical bytes of what is borrowed.
type Row = (
    AMQPFrameType,
    u16,
    &'static [u8],
    Result<LentFrame<'static>, ParserError>,
    &'static [u8],
);

const ROWS: [Row; 10] = [
    // `queue.declare` of `some_queue`, with all its flags
    (
        Method,
        1,
        &[
            0, 50, 0, 10, 0, 0, 10, 115, 111, 109, 101, 95, 113, 117, 101, 117, 101, 31, 0, 0, 0, 0,
        ],
        Ok(LentFrame::Method {
            channel: 1,
            class_id: 50,
            method_id: 10,
            slots: &[
                0, 0, 10, 115, 111, 109, 101, 95, 113, 117, 101, 117, 101, 31, 0, 0, 0, 0,
            ],
        }),
        &[
            1, 0, 1, 0, 0, 0, 22, 0, 50, 0, 10, 0, 0, 10, 115, 111, 109, 101, 95, 113, 117, 101,
            117, 101, 31, 0, 0, 0, 0, 206,
        ],
    ),
    // a table whose keys are not in ascending order, with duplicates
    (
        Method,
        1,
        &[
            0, 50, 0, 10, 0, 0, 0, 0, 0, 0, 0, 11, 1, 98, 86, 1, 97, 86, 1, 98, 85, 0, 5,
        ],
        Ok(LentFrame::Method {
            channel: 1,
            class_id: 50,
            method_id: 10,
            slots: &[
                0, 0, 0, 0, 0, 0, 0, 11, 1, 98, 86, 1, 97, 86, 1, 98, 85, 0, 5,
            ],
        }),
        &[
            1, 0, 1, 0, 0, 0, 20, 0, 50, 0, 10, 0, 0, 0, 0, 0, 0, 0, 8, 1, 97, 86, 1, 98, 115, 0,
            5, 206,
        ],
    ),
    // a weight, and the unused bits of the mask
    (
        Header,
        1,
        &[0, 60, 0, 7, 0, 0, 0, 0, 0, 0, 0, 5, 0, 3],
        Ok(LentFrame::Header {
            channel: 1,
            class_id: 60,
            body_size: 5,
            properties: &[0, 3],
        }),
        &[
            2, 0, 1, 0, 0, 0, 14, 0, 60, 0, 0, 0, 0, 0, 0, 0, 0, 0, 5, 0, 0, 206,
        ],
    ),
    (
        Body,
        2,
        &[104, 105],
        Ok(LentFrame::Body(2, &[104, 105])),
        &[3, 0, 2, 0, 0, 0, 2, 104, 105, 206],
    ),
    (
        Heartbeat,
        0,
        &[7],
        Ok(LentFrame::Heartbeat),
        &[8, 0, 0, 0, 0, 0, 0, 206],
    ),
    (
        Heartbeat,
        1,
        &[],
        Ok(LentFrame::InvalidHeartbeat(1)),
        &[8, 0, 1, 0, 0, 0, 0, 206],
    ),
    (
        ProtocolHeader,
        0,
        &[0, 9, 1],
        Ok(LentFrame::ProtocolHeader(ProtocolVersion {
            major: 0,
            minor: 9,
            revision: 1,
        })),
        b"AMQP\0\0\x09\x01",
    ),
    (Method, 1, &[0, 99], Err(ParserError::UnknownClass), &[]),
    (
        Method,
        1,
        &[0, 60, 0, 1],
        Err(ParserError::UnknownMethod),
        &[],
    ),
    (
        Method,
        1,
        &[0, 85, 0, 10],
        Err(ParserError::ShortPayload),
        &[],
    ),
];

/// Fails unless these are the canonical bytes of a borrowed frame, and a slice that is one byte shorter stays.
fn is_written(lent: LentFrame<'_>, wanted: &[u8]) -> Result<(), Fail>
    requires stands { IsFrame lent }
    requires few { length (payload_of lent) < 2 ^ 32 }
{
    let len = wanted.len();
    let mut buf = [9; 32];
    let found = (lent_size(lent), write_lent(&mut buf, lent));
    same(
        (found, buf.get(..len)),
        ((len as u64, Ok(len)), Some(wanted)),
    )?;
    let mut buf = [9; 32];
    let (short, _) = buf.split_at_mut(len.saturating_sub(1).min(32));
    let found = write_lent(short, lent);
    same((found, buf), (Err(GenError::BufferTooSmall), [9; 32]))
}

/// Fails unless this is borrowed from the payload, and written as these bytes.
fn is_borrowed(
    frame: AMQPRawFrame<'_>,
    wanted: Result<LentFrame<'_>, ParserError>,
    bytes: &[u8],
) -> Result<(), Fail> {
    if frame.payload.len() > 32 {
        return Err(Fail::new("a row is long"));
    }
    let found = lent_frame(frame);
    same(found, wanted)?;
    match found {
        Ok(lent) => is_written(lent, bytes),
        Err(_) => Ok(()),
    }
}

#[test]
fn frames_are_borrowed_and_written() -> Result<(), Fail> {
    for (frame_type, channel_id, payload, wanted, bytes) in ROWS {
        let frame = AMQPRawFrame {
            frame_type,
            channel_id,
            payload,
        };
        is_borrowed(frame, wanted, bytes)?;
    }
    Ok(())
}
