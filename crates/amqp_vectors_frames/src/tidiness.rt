//! Which whole payloads are tidy.

use crate::payloads::is_whole;
use amqp_frame::AMQPFrameType::{self, Body, Header, Heartbeat, Method, ProtocolHeader};
use amqp_frame::{AMQPRawFrame, is_tidy};
use amqp_vectors::asking::same;
use std::alloc::Global;
use std::test::Fail;

/// A type, a payload, and whether it is tidy.
type Row = (AMQPFrameType, &'static [u8], bool);

/// Frames of each kind, and methods with reserved fields of each form.
const ROWS: &[Row] = &[
    (ProtocolHeader, &[0, 9, 1], true),
    (Body, &[104, 101, 108, 108, 111], true),
    (Heartbeat, &[], true),
    (Heartbeat, &[7], false),
    // A content header with the property `delivery_mode`.
    (
        Header,
        &[0, 60, 0, 0, 0, 0, 0, 0, 0, 0, 0, 5, 16, 0, 2],
        true,
    ),
    // A weight, and both unused bits of the mask; then each by itself.
    (Header, &[0, 60, 0, 7, 0, 0, 0, 0, 0, 0, 0, 5, 0, 3], false),
    (Header, &[0, 60, 1, 0, 0, 0, 0, 0, 0, 0, 0, 5, 0, 0], false),
    (Header, &[0, 60, 0, 0, 0, 0, 0, 0, 0, 0, 0, 5, 0, 1], false),
    (Header, &[0, 60, 0, 0, 0, 0, 0, 0, 0, 0, 0, 5, 0, 2], false),
    // `queue.declare` of `some_queue`.
    (
        Method,
        &[
            0, 50, 0, 10, 0, 0, 10, 115, 111, 109, 101, 95, 113, 117, 101, 117, 101, 31, 0, 0, 0, 0,
        ],
        true,
    ),
    // Duplicate keys, and a true value that is encoded as 7.
    (
        Method,
        &[
            0, 50, 0, 10, 0, 0, 0, 31, 0, 0, 0, 8, 1, 97, 116, 0, 1, 97, 116, 7,
        ],
        true,
    ),
    // A reserved number of 2 bytes.
    (Method, &[0, 30, 0, 11, 0, 1], true),
    (Method, &[0, 30, 0, 11, 0, 9], false),
    // A reserved number of 4 bytes.
    (Method, &[0, 60, 0, 10, 0, 0, 0, 0, 0, 7, 1], true),
    (Method, &[0, 60, 0, 10, 0, 0, 0, 1, 0, 7, 1], false),
    // Spare bits beside one flag.
    (Method, &[0, 85, 0, 10, 255], false),
    // Reserved strings, short and long.
    (Method, &[0, 20, 0, 10, 1, 120], false),
    (Method, &[0, 20, 0, 11, 0, 0, 0, 0], true),
    (Method, &[0, 20, 0, 11, 0, 0, 0, 1, 120], false),
    // A reserved flag, and a reserved string in front of it.
    (Method, &[0, 10, 0, 40, 1, 47, 0, 1], false),
    (Method, &[0, 10, 0, 40, 1, 47, 1, 120, 1], false),
];

/// Fails unless the frame that a short payload is on channel 1 is tidy where its row says so.
fn is_decided(alloc: Global, row: Row) -> Result<(), Fail> {
    let (frame_type, payload, tidy) = row;
    if payload.len() > 64 {
        return Err(Fail::new("a row is long"));
    }
    let raw = AMQPRawFrame {
        frame_type,
        channel_id: 1,
        payload,
    };
    is_whole(alloc, raw)?;
    same(is_tidy(raw), tidy)
}

#[test]
fn tidy_frames_are_decided(rt: HostRuntime) -> Result<(), Fail> {
    for row in ROWS {
        is_decided(rt.alloc(), *row)?;
    }
    Ok(())
}
