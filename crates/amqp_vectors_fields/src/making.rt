//! Worked frames and contents that are made of heads and nodes, and each refusal with its head and its node.

use amqp_fields::{FLAG, Head, LONG_LONG, LONG_STRING, Node, OCTET, SHORT, SHORT_STRING, TABLE};
use amqp_fields_write::{WriteError, WriteRefusal, write_entries, write_frames, write_values};
use amqp_types::ParserError;
use amqp_vectors::asking::same;
use std::test::Fail;

/// A node of zeros.
const BLANK: Node = Node {
    number: 0,
    start: 0,
    length: 0,
    key_start: 0,
    inside: 0,
    items: 0,
    key_length: 0,
    kind: 0,
    place: 0,
    scale: 0,
};

/// A heartbeat's head.
const BEAT: Head = Head {
    body_size: 0,
    start: 0,
    length: 0,
    first: 0,
    nodes: 0,
    channel: 0,
    class_id: 0,
    method_id: 0,
    frame_type: 8,
    form: 0,
};

/// `basic.deliver` on channel 1.
const DELIVER: Head = Head {
    nodes: 5,
    channel: 1,
    class_id: 60,
    method_id: 60,
    frame_type: 1,
    ..BEAT
};

/// A content header on channel 1, of two bytes.
const HEADER: Head = Head {
    body_size: 2,
    first: 5,
    nodes: 7,
    channel: 1,
    class_id: 60,
    frame_type: 2,
    ..BEAT
};

/// A body on channel 1.
const BODY: Head = Head {
    start: 4,
    length: 2,
    channel: 1,
    frame_type: 3,
    ..BEAT
};

/// A protocol header.
const VERSION: Head = Head {
    first: 12,
    nodes: 3,
    frame_type: 65,
    ..BEAT
};

/// Strings, keys and a body, and from 6 on the content of a table.
const POOL: &[u8] = b"ctaxhi\x01bV";

/// The fields of the deliver, properties, and numbers of a version.
const NODES: &[Node] = &[
    Node {
        kind: SHORT_STRING,
        length: 2,
        ..BLANK
    },
    Node {
        kind: LONG_LONG,
        place: 1,
        number: 7,
        ..BLANK
    },
    Node {
        kind: FLAG,
        place: 2,
        number: 1,
        ..BLANK
    },
    Node {
        kind: SHORT_STRING,
        place: 3,
        ..BLANK
    },
    Node {
        kind: SHORT_STRING,
        place: 4,
        start: 3,
        length: 1,
        ..BLANK
    },
    Node {
        kind: TABLE,
        place: 2,
        inside: 4,
        ..BLANK
    },
    Node {
        kind: b'A',
        key_start: 2,
        key_length: 1,
        inside: 2,
        ..BLANK
    },
    Node {
        kind: b't',
        number: 1,
        ..BLANK
    },
    Node {
        kind: b'F',
        start: 6,
        length: 3,
        ..BLANK
    },
    Node {
        kind: b's',
        key_start: 3,
        key_length: 1,
        number: u64::MAX - 1,
        ..BLANK
    },
    Node {
        kind: OCTET,
        place: 3,
        number: 2,
        ..BLANK
    },
    Node {
        kind: SHORT_STRING,
        place: 13,
        start: 4,
        length: 2,
        ..BLANK
    },
    Node {
        kind: OCTET,
        ..BLANK
    },
    Node {
        kind: OCTET,
        place: 1,
        number: 9,
        ..BLANK
    },
    Node {
        kind: OCTET,
        place: 2,
        number: 1,
        ..BLANK
    },
];

/// A protocol header, a deliver, its content header and body, and a heartbeat.
const WIRE: &[u8] = &[
    b'A', b'M', b'Q', b'P', 0, 0, 9, 1, 1, 0, 1, 0, 0, 0, 19, 0, 60, 0, 60, 2, b'c', b't', 0, 0, 0,
    0, 0, 0, 0, 7, 1, 0, 1, b'x', 206, 2, 0, 1, 0, 0, 0, 44, 0, 60, 0, 0, 0, 0, 0, 0, 0, 0, 0, 2,
    0x30, 4, 0, 0, 0, 22, 1, b'a', b'A', 0, 0, 0, 10, b't', 1, b'F', 0, 0, 0, 3, 1, b'b', b'V', 1,
    b'x', b's', 255, 254, 2, 2, b'h', b'i', 206, 3, 0, 1, 0, 0, 0, 2, b'h', b'i', 206, 8, 0, 0, 0,
    0, 0, 0, 206,
];

/// The frames that those bytes are.
const HEADS: &[Head] = &[VERSION, DELIVER, HEADER, BODY, BEAT];

#[test]
fn frames_are_written() -> Result<(), Fail> {
    let mut out = [7; 106];
    let made = write_frames(HEADS, NODES, POOL, 44, &mut out);
    same((made, out.get(..105)), (Ok(105), Some(WIRE)))?;
    same(out[105], 7)
}

#[test]
fn nothing_is_written_where_there_is_no_room() -> Result<(), Fail> {
    let mut out = [7; 104];
    let made = write_frames(HEADS, NODES, POOL, 44, &mut out);
    same(made, Err(WriteError::TooSmall { needed: 105 }))?;
    same((out[0], out[103]), (7, 7))
}

const BAD: WriteRefusal = WriteRefusal::BadArgument;

/// A head after a heartbeat, the nodes of both, the node that is refused or none where the head is, and why.
type Row = (
    &'static [Head],
    &'static [Node],
    Option<usize>,
    WriteRefusal,
);

/// `connection.secure`: a long string.
const SECURE: Head = Head {
    nodes: 1,
    class_id: 10,
    method_id: 20,
    ..DELIVER
};

/// `connection.tune`: three numbers.
const TUNE: Head = Head {
    nodes: 3,
    class_id: 10,
    method_id: 30,
    ..DELIVER
};

/// A content header with one property.
const PRIORITY: Head = Head {
    first: 0,
    nodes: 1,
    ..HEADER
};

/// The headers of a message, whose content stands in the pool and ends inside a key.
const GIVEN: Node = Node {
    kind: TABLE,
    length: 9,
    place: 2,
    ..BLANK
};

const ROWS: &[Row] = &[
    (
        &[
            BEAT,
            Head {
                frame_type: 4,
                ..BEAT
            },
        ],
        &[],
        None,
        BAD,
    ),
    (
        &[
            BEAT,
            Head {
                class_id: 61,
                ..DELIVER
            },
        ],
        NODES,
        None,
        WriteRefusal::Payload(ParserError::UnknownClass),
    ),
    (
        &[
            BEAT,
            Head {
                method_id: 61,
                ..DELIVER
            },
        ],
        NODES,
        None,
        WriteRefusal::Payload(ParserError::UnknownMethod),
    ),
    (
        &[
            BEAT,
            Head {
                body_size: 1,
                ..DELIVER
            },
        ],
        NODES,
        None,
        BAD,
    ),
    (
        &[
            BEAT,
            Head {
                first: 11,
                ..DELIVER
            },
        ],
        NODES,
        None,
        BAD,
    ),
    (&[BEAT, Head { nodes: 1, ..BEAT }], NODES, None, BAD),
    (&[BEAT, Head { length: 6, ..BODY }], &[], None, BAD),
    (
        &[
            BEAT,
            Head {
                channel: 1,
                ..VERSION
            },
        ],
        NODES,
        None,
        BAD,
    ),
    // One field misses, and one is too many.
    (
        &[
            BEAT,
            Head {
                nodes: 4,
                ..DELIVER
            },
        ],
        NODES,
        Some(4),
        BAD,
    ),
    (
        &[
            BEAT,
            Head {
                nodes: 6,
                ..DELIVER
            },
        ],
        NODES,
        Some(5),
        BAD,
    ),
    // The kind of another field, and a number outside its width.
    (&[BEAT, TUNE], &[BLANK, BLANK, BLANK], Some(0), BAD),
    (
        &[BEAT, TUNE],
        &[
            Node {
                kind: SHORT,
                number: 65_536,
                ..BLANK
            },
            BLANK,
            BLANK,
        ],
        Some(0),
        BAD,
    ),
    // A span that passes the end of the pool, and a payload that passes the limit.
    (
        &[BEAT, SECURE],
        &[Node {
            kind: LONG_STRING,
            start: 1,
            length: 9,
            ..BLANK
        }],
        Some(0),
        BAD,
    ),
    (
        &[BEAT, SECURE],
        &[Node {
            kind: LONG_STRING,
            length: 9,
            ..BLANK
        }],
        None,
        WriteRefusal::TooLarge,
    ),
    // Contents in the pool that pass the limit together: no node is looked at, so neither the fault of the first nor the place of
    // the second is said.
    (
        &[
            BEAT,
            Head {
                nodes: 2,
                ..PRIORITY
            },
        ],
        &[GIVEN, GIVEN],
        None,
        WriteRefusal::TooLarge,
    ),
    // One of them does not pass it, and its fault is said.
    (
        &[BEAT, PRIORITY],
        &[GIVEN],
        Some(0),
        WriteRefusal::Payload(ParserError::ShortPayload),
    ),
    // A property at the place of another.
    (
        &[BEAT, PRIORITY],
        &[Node {
            kind: OCTET,
            place: 5,
            ..BLANK
        }],
        Some(0),
        BAD,
    ),
];

#[test]
fn heads_and_fields_are_refused() -> Result<(), Fail> {
    let mut out = [7; 64];
    for row in ROWS {
        let (heads, nodes, node, why) = *row;
        let made = write_frames(heads, nodes, POOL, 16, &mut out);
        same(made, Err(WriteError::Refused { head: 1, node, why }))?;
    }
    same((out[0], out[63]), (7, 7))
}

/// The entries of a table, and the node that is refused, and why.
type EntryRow = (&'static [Node], usize, WriteRefusal);

const ENTRY_ROWS: &[EntryRow] = &[
    // A number outside its width, a tag that is read alone, nodes that pass the end, a key that does.
    (
        &[Node {
            kind: b's',
            number: 0x8000,
            ..BLANK
        }],
        0,
        BAD,
    ),
    (
        &[Node {
            kind: b'U',
            ..BLANK
        }],
        0,
        BAD,
    ),
    (
        &[
            Node {
                kind: b'V',
                ..BLANK
            },
            Node {
                kind: b'A',
                inside: 2,
                ..BLANK
            },
            Node {
                kind: b'V',
                ..BLANK
            },
        ],
        1,
        BAD,
    ),
    (
        &[Node {
            kind: b'V',
            key_start: 9,
            key_length: 1,
            ..BLANK
        }],
        0,
        BAD,
    ),
    // Content in the pool that ends inside a key.
    (
        &[
            Node {
                kind: b'V',
                ..BLANK
            },
            Node {
                kind: b'F',
                start: 6,
                length: 1,
                ..BLANK
            },
        ],
        1,
        WriteRefusal::Payload(ParserError::ShortPayload),
    ),
];

#[test]
fn entries_are_refused() -> Result<(), Fail> {
    let mut out = [7; 64];
    for row in ENTRY_ROWS {
        let (nodes, node, why) = *row;
        let made = write_entries(nodes, POOL, &mut out);
        let refused = WriteError::Refused {
            head: 0,
            node: Some(node),
            why,
        };
        same(made, Err(refused))?;
    }
    same((out[0], out[63]), (7, 7))
}

const ENTRIES: &[Node] = &[
    Node {
        key_start: 2,
        key_length: 1,
        kind: b'D',
        scale: 2,
        number: 260,
        ..BLANK
    },
    Node {
        key_start: 3,
        key_length: 1,
        kind: b'V',
        ..BLANK
    },
];

#[test]
fn contents_are_written() -> Result<(), Fail> {
    let mut out = [7; 12];
    let made = write_entries(ENTRIES, POOL, &mut out);
    let wanted: &[u8] = &[1, b'a', b'D', 2, 0, 0, 1, 4, 1, b'x', b'V'];
    same((made, out.get(..11)), (Ok(11), Some(wanted)))?;
    let made = write_values(ENTRIES, POOL, &mut out);
    let wanted: &[u8] = &[b'D', 2, 0, 0, 1, 4, b'V'];
    same((made, out.get(..7)), (Ok(7), Some(wanted)))?;
    let made = write_values(ENTRIES, POOL, &mut []);
    same(made, Err(WriteError::TooSmall { needed: 7 }))
}
