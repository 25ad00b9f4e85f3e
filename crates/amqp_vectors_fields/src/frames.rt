//! A worked stream, cut at each byte and read into lists that are too short.

use amqp_fields::{
    FLAG, FramesEnd, FramesRead, Head, LONG_LONG, Node, SHORT_STRING, TABLE, read_frames,
};
use amqp_types::ParserError;
use amqp_vectors::asking::same;
use std::test::Fail;

/// A node of zeros.
const BLANK: Node = Node {
    number: 0,
    start: 0,
    length: 0,
    key_start: 0,
    inside: 0,
    items: 0,
    key_length: 0,
    kind: 0,
    place: 0,
    scale: 0,
};

/// A head of zeros.
const NONE: Head = Head {
    body_size: 0,
    start: 0,
    length: 0,
    first: 0,
    nodes: 0,
    channel: 0,
    class_id: 0,
    method_id: 0,
    frame_type: 0,
    form: 0,
};

/// `basic.deliver` on channel 1, its content header, whose two headers stand in descending order, its body, and a heartbeat
/// with a payload.
const STREAM: &[u8] = &[
    1, 0, 1, 0, 0, 0, 21, 0, 60, 0, 60, 2, b'c', b't', 0, 0, 0, 0, 0, 0, 0, 7, 1, 1, b'e', 2, b'r',
    b'k', 206, 2, 0, 1, 0, 0, 0, 24, 0, 60, 0, 0, 0, 0, 0, 0, 0, 0, 0, 5, 32, 0, 0, 0, 0, 6, 1,
    b'b', b'V', 1, b'a', b'V', 206, 3, 0, 1, 0, 0, 0, 5, b'h', b'e', b'l', b'l', b'o', 206, 8, 0,
    0, 0, 0, 0, 1, 9, 206,
];

const HEADS: &[Head] = &[
    Head {
        frame_type: 1,
        channel: 1,
        class_id: 60,
        method_id: 60,
        start: 7,
        length: 21,
        nodes: 5,
        form: 3,
        ..NONE
    },
    Head {
        frame_type: 2,
        channel: 1,
        class_id: 60,
        body_size: 5,
        start: 36,
        length: 24,
        first: 5,
        nodes: 3,
        form: 2,
        ..NONE
    },
    Head {
        frame_type: 3,
        channel: 1,
        start: 68,
        length: 5,
        first: 8,
        form: 3,
        ..NONE
    },
    Head {
        frame_type: 8,
        start: 81,
        length: 1,
        first: 8,
        ..NONE
    },
];

const NODES: &[Node] = &[
    Node {
        kind: SHORT_STRING,
        start: 12,
        length: 2,
        ..BLANK
    },
    Node {
        kind: LONG_LONG,
        place: 1,
        number: 7,
        ..BLANK
    },
    Node {
        kind: FLAG,
        place: 2,
        number: 1,
        ..BLANK
    },
    Node {
        kind: SHORT_STRING,
        place: 3,
        start: 24,
        length: 1,
        ..BLANK
    },
    Node {
        kind: SHORT_STRING,
        place: 4,
        start: 26,
        length: 2,
        ..BLANK
    },
    Node {
        kind: TABLE,
        place: 2,
        start: 54,
        length: 6,
        inside: 2,
        items: 2,
        ..BLANK
    },
    Node {
        kind: b'V',
        key_start: 55,
        key_length: 1,
        ..BLANK
    },
    Node {
        kind: b'V',
        key_start: 58,
        key_length: 1,
        ..BLANK
    },
];

/// Where each frame ends, how many nodes there are up to there, and how many bytes the next frame has.
const PARTS: &[(usize, usize, u64)] = &[
    (0, 0, 29),
    (29, 5, 32),
    (61, 8, 13),
    (74, 8, 9),
    (83, 8, 8),
];

/// What follows `more` bytes of a frame of so many.
fn end_after(more: usize, size: u64) -> FramesEnd {
    match more {
        0 => FramesEnd::Done,
        1..=6 => FramesEnd::Incomplete { needed: 8 },
        _ => FramesEnd::Incomplete { needed: size },
    }
}

/// Fails unless the bytes are read as so many whole frames, which stand in full in the stream.
fn reads_front(bytes: &[u8], heads: usize) -> Result<(), Fail> {
    let Some((used, nodes, next)) = PARTS.get(heads) else {
        return Err(Fail::new("there are fewer frames"));
    };
    let mut head_list = [NONE; 5];
    let mut node_list = [BLANK; 9];
    let read = read_frames(bytes, 64, true, &mut head_list, &mut node_list);
    let wanted = FramesRead {
        used: *used,
        heads,
        nodes: *nodes,
        end: end_after(bytes.len().saturating_sub(*used), *next),
    };
    same(read, wanted)?;
    same(head_list.get(..heads), HEADS.get(..heads))?;
    same(node_list.get(..*nodes), NODES.get(..*nodes))
}

/// How many whole frames are in front of so many bytes of the stream.
fn whole_frames(end: usize) -> usize {
    match end {
        0..=28 => 0,
        29..=60 => 1,
        61..=73 => 2,
        74..=82 => 3,
        _ => 4,
    }
}

#[test]
fn a_stream_is_read_up_to_each_cut() -> Result<(), Fail> {
    for end in 0..84 {
        let Some(bytes) = STREAM.get(..end) else {
            return Err(Fail::new("the stream is shorter"));
        };
        reads_front(bytes, whole_frames(end))?;
    }
    same(STREAM.len(), 83)
}

#[test]
fn short_lists_end_before_the_frame_that_does_not_fit() -> Result<(), Fail> {
    let mut heads = [NONE; 3];
    let mut nodes = [BLANK; 8];
    let wanted = FramesRead {
        used: 74,
        heads: 3,
        nodes: 8,
        end: FramesEnd::Full { needed: 0 },
    };
    same(
        read_frames(STREAM, 64, true, &mut heads, &mut nodes),
        wanted,
    )?;
    let mut nodes = [BLANK; 7];
    let wanted = FramesRead {
        used: 29,
        heads: 1,
        nodes: 5,
        end: FramesEnd::Full { needed: 3 },
    };
    same(
        read_frames(STREAM, 64, true, &mut heads, &mut nodes),
        wanted,
    )
}

/// What is returned of bytes of which no frame is read.
fn none_read(end: FramesEnd) -> FramesRead {
    FramesRead {
        used: 0,
        heads: 0,
        nodes: 0,
        end,
    }
}

#[test]
fn a_fault_comes_before_short_lists() -> Result<(), Fail> {
    let read = read_frames(STREAM, 20, true, &mut [], &mut []);
    same(read, none_read(FramesEnd::TooLarge))?;
    let read = read_frames(&[1, 0, 1, 0, 0, 0, 1, 0, 206], 64, true, &mut [], &mut []);
    same(read, none_read(FramesEnd::Fault(ParserError::ShortPayload)))?;
    let read = read_frames(&[9], 64, true, &mut [], &mut []);
    same(
        read,
        none_read(FramesEnd::Fault(ParserError::UnknownFrameType)),
    )
}
