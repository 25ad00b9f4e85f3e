//! Frames without their fields, from what is borrowed.

use crate::payloads::is_whole;
use amqp_frame::AMQPFrameType::{self, Body, Header, Heartbeat, Method, ProtocolHeader};
use amqp_frame::{AMQPRawFrame, FrameOutline, outline_front, outline_raw};
use amqp_vectors::asking::same;
use std::test::Fail;

/// A type, a payload on channel 258, and its outline.
type Row = (AMQPFrameType, &'static [u8], FrameOutline);

/// A frame of each kind.
const ROWS: &[Row] = &[
    (ProtocolHeader, &[0, 9, 1], FrameOutline::ProtocolHeader),
    (
        Method,
        &[
            0, 50, 0, 10, 0, 0, 10, 115, 111, 109, 101, 95, 113, 117, 101, 117, 101, 31, 0, 0, 0, 0,
        ],
        FrameOutline::Method {
            channel_id: 258,
            class_id: 50,
            method_id: 10,
        },
    ),
    (
        Header,
        &[0, 60, 0, 7, 0, 0, 0, 0, 0, 0, 1, 5, 0, 3],
        FrameOutline::Header {
            channel_id: 258,
            class_id: 60,
            body_size: 261,
        },
    ),
    (
        Body,
        &[104, 101, 108, 108, 111],
        FrameOutline::Body {
            channel_id: 258,
            length: 5,
        },
    ),
    (Heartbeat, &[7], FrameOutline::Heartbeat { channel_id: 258 }),
];

#[test]
fn borrowed_frames_are_outlined(rt: HostRuntime) -> Result<(), Fail> {
    for (frame_type, payload, outline) in ROWS {
        let raw = AMQPRawFrame {
            frame_type: *frame_type,
            channel_id: 258,
            payload,
        };
        is_whole(rt.alloc(), raw)?;
        let found = (outline_raw(raw), outline_front(raw));
        same(found, (*outline, Some(*outline)))?;
    }
    Ok(())
}
