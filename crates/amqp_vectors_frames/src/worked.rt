//! Worked cases: bytes, the frame that they are read as, whole and in parts, and the canonical bytes that it is
//! written as. A frame is borrowed by the calls that compare it: a function that owns one where the ways part proves
//! the drop of each of its methods.

use crate::samples::{Sample, content_header};
use amqp_frame::{
    AMQPFrame, AMQPFrameType, FrameOutline, GenError, ParserError, ProtocolVersion, frame_size,
    gen_frame, gen_frame_slice, parse_content_header, parse_frame, parse_frame_type, parse_payload,
    parse_raw_frame, put_frame, release,
};
use amqp_vectors::asking::{answers, reads, same, shows};
use std::alloc::Global;
use std::test::Fail;

/// `queue.declare` of `some_queue` on channel 1, with all its flags.
pub const DECLARE: [u8; 30] = [
    1, 0, 1, 0, 0, 0, 22, 0, 50, 0, 10, 0, 0, 10, 115, 111, 109, 101, 95, 113, 117, 101, 117, 101,
    31, 0, 0, 0, 0, 206,
];

/// A content header on channel 1, for a body of 5 bytes and with no properties, as it is written.
const PLAIN: [u8; 22] = [
    2, 0, 1, 0, 0, 0, 14, 0, 60, 0, 0, 0, 0, 0, 0, 0, 0, 0, 5, 0, 0, 206,
];

/// The same with a weight and the two spare bits of the mask.
const LOOSE: [u8; 22] = [
    2, 0, 1, 0, 0, 0, 14, 0, 60, 0, 7, 0, 0, 0, 0, 0, 0, 0, 5, 0, 3, 206,
];

/// A content header of a text that is stored.
const TEXT: [u8; 34] = [
    2, 0, 1, 0, 0, 0, 26, 0, 60, 0, 0, 0, 0, 0, 0, 0, 0, 0, 5, 144, 0, 10, 116, 101, 120, 116, 47,
    112, 108, 97, 105, 110, 2, 206,
];

/// A frame, bytes that begin with it, how many of them it takes, and its canonical bytes.
type Row = (Sample, &'static [u8], usize, &'static [u8]);

const ROWS: &[Row] = &[
    (
        Sample::ProtocolHeader,
        &[65, 77, 81, 80, 0, 0, 9, 1],
        8,
        &[65, 77, 81, 80, 0, 0, 9, 1],
    ),
    (
        Sample::Heartbeat,
        &[8, 0, 0, 0, 0, 0, 0, 206],
        8,
        &[8, 0, 0, 0, 0, 0, 0, 206],
    ),
    (
        Sample::BadHeartbeat(1),
        &[8, 0, 1, 0, 0, 0, 0, 206],
        8,
        &[8, 0, 1, 0, 0, 0, 0, 206],
    ),
    (
        Sample::Body,
        &[3, 0, 1, 0, 0, 0, 1, 104, 206],
        9,
        &[3, 0, 1, 0, 0, 0, 1, 104, 206],
    ),
    // Three bytes follow.
    (
        Sample::Body,
        &[3, 0, 1, 0, 0, 0, 1, 104, 206, 1, 2, 3],
        9,
        &[3, 0, 1, 0, 0, 0, 1, 104, 206],
    ),
    (Sample::PlainHeader, &LOOSE, 22, &PLAIN),
    (Sample::TextHeader, &TEXT, 34, &TEXT),
    (Sample::Declare, &DECLARE, 30, &DECLARE),
    // Three bytes follow.
    (
        Sample::Declare,
        &[
            1, 0, 1, 0, 0, 0, 22, 0, 50, 0, 10, 0, 0, 10, 115, 111, 109, 101, 95, 113, 117, 101,
            117, 101, 31, 0, 0, 0, 0, 206, 1, 2, 3,
        ],
        30,
        &DECLARE,
    ),
    (
        Sample::Nack,
        &[
            1, 0, 1, 0, 0, 0, 13, 0, 60, 0, 120, 0, 0, 0, 0, 0, 0, 0, 1, 1, 206,
        ],
        21,
        &[
            1, 0, 1, 0, 0, 0, 13, 0, 60, 0, 120, 0, 0, 0, 0, 0, 0, 0, 1, 1, 206,
        ],
    ),
];

/// What the bytes after the type are read as: first without the payload, then the payload.
fn read_in_parts(
    alloc: Global,
    frame_type: AMQPFrameType,
    bytes: &[u8],
) -> Result<(usize, AMQPFrame), ParserError> {
    let (used, raw) = parse_raw_frame(frame_type, bytes)?;
    let frame = parse_payload(alloc, raw)?;
    Ok((used, frame))
}

/// Fails unless the frame stands at the front of the bytes, read whole and in parts, and takes so many of them.
fn is_read(alloc: Global, frame: &AMQPFrame, bytes: &[u8], used: usize) -> Result<(), Fail> {
    reads(parse_frame(alloc, bytes), used, frame)?;
    let (first, frame_type) = parse_frame_type(bytes)?;
    if frame_type == AMQPFrameType::ProtocolHeader {
        return Ok(());
    }
    let after = bytes.get(first..).unwrap_or_default();
    let read = read_in_parts(alloc, frame_type, after);
    reads(read, used.saturating_sub(first), frame)
}

/// Fails unless the frame is measured and appended so, and put from place 0 into a slice of just its size.
fn is_written(alloc: Global, frame: &AMQPFrame, bytes: &[u8]) -> Result<(), Fail> {
    let mut out = Vec::new(alloc);
    gen_frame(alloc, &mut out, frame)?;
    let mut buf = vec![in alloc; 7; out.len()]?;
    let end = put_frame(&mut buf, 0, frame);
    same(frame_size(frame), Ok(bytes.len() as u64))?;
    same(end, bytes.len())?;
    same((out.as_slice(), buf.as_slice()), (bytes, bytes))
}

/// Sevens, of which rooms are filled.
const SEVENS: [u8; 64] = [7; 64];

/// Fails unless writing the frame into a room of so many bytes returns this, leaves these bytes at its front, and
/// sevens after them.
fn fills(
    alloc: Global,
    frame: &AMQPFrame,
    depth_left: usize,
    outcome: Result<usize, GenError>,
    front: &[u8],
) -> Result<(), Fail> {
    let mut buf = vec![in alloc; 7; depth_left]?;
    let found = gen_frame_slice(&mut buf, frame);
    let after = buf.get(front.len()..).unwrap_or_default();
    let is_left = buf.starts_with(front) && SEVENS.starts_with(after);
    same((found, is_left), (outcome, true))
}

/// Fails unless the frame is read and written so, and copied. It fills a slice that has room for it, and no other.
fn agrees(alloc: Global, frame: &AMQPFrame, row: Row) -> Result<(), Fail> {
    let (_, read, used, written) = row;
    is_read(alloc, frame, read, used)?;
    is_written(alloc, frame, written)?;
    let len = written.len();
    fills(alloc, frame, len, Ok(len), written)?;
    fills(alloc, frame, len + 1, Ok(len), written)?;
    fills(
        alloc,
        frame,
        len.saturating_sub(1),
        Err(GenError::BufferTooSmall),
        &[],
    )?;
    answers(frame.copy(alloc), frame)
}

/// Fails unless the frame of the row agrees.
fn is_worked(alloc: Global, row: Row) -> Result<(), Fail> {
    let frame = row.0.frame(alloc)?;
    let answer = agrees(alloc, &frame, row);
    release(frame);
    answer
}

#[test]
fn frames_are_read_and_written(rt: HostRuntime) -> Result<(), Fail> {
    for row in ROWS {
        is_worked(rt.alloc(), *row)?;
    }
    Ok(())
}

/// The payload of a content header, and whether it is the one of a text.
const CONTENT_HEADERS: &[(&[u8], bool)] = &[
    (&[0, 60, 0, 7, 0, 0, 0, 0, 0, 0, 0, 5, 0, 3], false),
    (&[0, 60, 0, 0, 0, 0, 0, 0, 0, 0, 0, 5, 0, 0], false),
    (
        &[
            0, 60, 0, 0, 0, 0, 0, 0, 0, 0, 0, 5, 144, 0, 10, 116, 101, 120, 116, 47, 112, 108, 97,
            105, 110, 2,
        ],
        true,
    ),
];

#[test]
fn content_headers_are_read(rt: HostRuntime) -> Result<(), Fail> {
    let alloc = rt.alloc();
    for (payload, is_text) in CONTENT_HEADERS {
        let header = content_header(alloc, *is_text)?;
        let read = parse_content_header(alloc, payload);
        same(read, Ok((payload.len(), header)))?;
    }
    Ok(())
}

/// A frame, what it is displayed as, and its outline.
type Shown = (Sample, &'static str, FrameOutline);

const SHOWN: &[Shown] = &[
    (
        Sample::ProtocolHeader,
        "AMQPFrame::ProtocolHeader(0.9.1)",
        FrameOutline::ProtocolHeader,
    ),
    (
        Sample::Declare,
        "AMQPFrame::Method(50, 10)",
        FrameOutline::Method {
            channel_id: 1,
            class_id: 50,
            method_id: 10,
        },
    ),
    (
        Sample::PlainHeader,
        "AMQPFrame::Header",
        FrameOutline::Header {
            channel_id: 1,
            class_id: 60,
            body_size: 5,
        },
    ),
    (
        Sample::Body,
        "AMQPFrame::Body",
        FrameOutline::Body {
            channel_id: 1,
            length: 1,
        },
    ),
    (
        Sample::Heartbeat,
        "AMQPFrame::Heartbeat",
        FrameOutline::Heartbeat { channel_id: 0 },
    ),
    (
        Sample::BadHeartbeat(7),
        "AMQPFrame::InvalidHeartbeat(7)",
        FrameOutline::Heartbeat { channel_id: 7 },
    ),
];

/// Fails unless the frame is displayed so, and has this outline.
fn has_outline(
    alloc: Global,
    frame: &AMQPFrame,
    text: &str,
    outline: FrameOutline,
) -> Result<(), Fail> {
    let is_header = text == "AMQPFrame::Header";
    let found = (frame.outline(), frame.channel_id());
    same(found, (outline, outline.channel_id()))?;
    same(frame.is_header(), is_header)?;
    shows(alloc, frame, "", text, "")
}

/// Fails unless the frame of the row is displayed so, and has this outline.
fn is_shown(alloc: Global, row: Shown) -> Result<(), Fail> {
    let (sample, text, outline) = row;
    let frame = sample.frame(alloc)?;
    let answer = has_outline(alloc, &frame, text, outline);
    release(frame);
    answer
}

#[test]
fn frames_are_shown(rt: HostRuntime) -> Result<(), Fail> {
    let alloc = rt.alloc();
    for row in SHOWN {
        is_shown(alloc, *row)?;
    }
    shows(alloc, &ProtocolVersion::amqp_0_9_1(), "", "0.9.1", "")
}
