//! Worked payloads, and the nodes that they have.

use amqp_fields::{
    FLAG, FieldsError, FieldsRead, LONG_LONG, Node, OCTET, SHORT_STRING, TABLE, read_entries,
    read_fields, read_values,
};
use amqp_types::ParserError;
use amqp_vectors::asking::same;
use amqp_wire::AMQPFrameType::{self, Body, Header, Method, ProtocolHeader};
use std::test::Fail;

/// A node of zeros.
const BLANK: Node = Node {
    number: 0,
    start: 0,
    length: 0,
    key_start: 0,
    inside: 0,
    items: 0,
    key_length: 0,
    kind: 0,
    place: 0,
    scale: 0,
};

/// `basic.deliver`: a consumer tag, a delivery tag, a flag, an exchange and a routing key.
const DELIVER: &[u8] = &[
    0, 60, 0, 60, 2, b'c', b't', 0, 0, 0, 0, 0, 0, 0, 7, 1, 1, b'e', 2, b'r', b'k',
];

const DELIVER_NODES: &[Node] = &[
    Node {
        kind: SHORT_STRING,
        start: 5,
        length: 2,
        ..BLANK
    },
    Node {
        kind: LONG_LONG,
        place: 1,
        number: 7,
        ..BLANK
    },
    Node {
        kind: FLAG,
        place: 2,
        number: 1,
        ..BLANK
    },
    Node {
        kind: SHORT_STRING,
        place: 3,
        start: 17,
        length: 1,
        ..BLANK
    },
    Node {
        kind: SHORT_STRING,
        place: 4,
        start: 19,
        length: 2,
        ..BLANK
    },
];

/// `basic.publish`: a ticket, no exchange, a routing key, and `mandatory` of two flags.
const PUBLISH: &[u8] = &[0, 60, 0, 40, 0, 0, 0, 1, b'q', 1];

const PUBLISH_NODES: &[Node] = &[
    Node {
        kind: SHORT_STRING,
        start: 7,
        ..BLANK
    },
    Node {
        kind: SHORT_STRING,
        place: 1,
        start: 8,
        length: 1,
        ..BLANK
    },
    Node {
        kind: FLAG,
        place: 2,
        number: 1,
        ..BLANK
    },
    Node {
        kind: FLAG,
        place: 3,
        ..BLANK
    },
];

/// A content header with headers and a delivery mode. The headers are a table in which an array lies, and two values of
/// one key.
const HEADER: &[u8] = &[
    0, 60, 0, 0, 0, 0, 0, 0, 0, 0, 0, 5, 48, 0, 0, 0, 0, 33, 1, b'a', b'F', 0, 0, 0, 10, 1, b'b',
    b'A', 0, 0, 0, 3, b'V', b't', 1, 1, b'x', b'I', 255, 255, 255, 255, 1, b'x', b'S', 0, 0, 0, 2,
    b'h', b'i', 2,
];

const HEADER_NODES: &[Node] = &[
    Node {
        kind: TABLE,
        place: 2,
        start: 18,
        length: 33,
        inside: 6,
        items: 3,
        ..BLANK
    },
    Node {
        kind: b'F',
        key_start: 19,
        key_length: 1,
        start: 25,
        length: 10,
        inside: 3,
        items: 1,
        ..BLANK
    },
    Node {
        kind: b'A',
        key_start: 26,
        key_length: 1,
        start: 32,
        length: 3,
        inside: 2,
        items: 2,
        ..BLANK
    },
    Node {
        kind: b'V',
        ..BLANK
    },
    Node {
        kind: b't',
        number: 1,
        ..BLANK
    },
    Node {
        kind: b'I',
        key_start: 36,
        key_length: 1,
        number: u64::MAX,
        ..BLANK
    },
    Node {
        kind: b'S',
        key_start: 43,
        key_length: 1,
        start: 49,
        length: 2,
        ..BLANK
    },
    Node {
        kind: OCTET,
        place: 3,
        number: 2,
        ..BLANK
    },
];

/// The same header without what lies inside the headers.
const SHALLOW_NODES: &[Node] = &[
    Node {
        kind: TABLE,
        place: 2,
        start: 18,
        length: 33,
        ..BLANK
    },
    Node {
        kind: OCTET,
        place: 3,
        number: 2,
        ..BLANK
    },
];

const VERSION_NODES: &[Node] = &[
    Node {
        kind: OCTET,
        ..BLANK
    },
    Node {
        kind: OCTET,
        place: 1,
        number: 9,
        ..BLANK
    },
    Node {
        kind: OCTET,
        place: 2,
        number: 1,
        ..BLANK
    },
];

/// A type, a payload, whether all that lies inside is read, whether the payload is canonical, and the nodes.
type Row = (AMQPFrameType, &'static [u8], bool, bool, &'static [Node]);

const ROWS: &[Row] = &[
    (Method, DELIVER, true, true, DELIVER_NODES),
    (Method, PUBLISH, false, true, PUBLISH_NODES),
    (Header, HEADER, true, false, HEADER_NODES),
    (Header, HEADER, false, false, SHALLOW_NODES),
    (ProtocolHeader, &[0, 9, 1], true, true, VERSION_NODES),
    (Body, &[1, 2], true, true, &[]),
];

/// Fails unless these are the nodes, and a list that is one shorter is refused with their number.
fn has_nodes(row: Row) -> Result<(), Fail> {
    let (frame_type, payload, deep, canonical, wanted) = row;
    let count = wanted.len();
    if payload.len() > 64 {
        return Err(Fail::new("a row is long"));
    }
    let mut nodes = [BLANK; 9];
    let found = read_fields(frame_type, payload, deep, &mut nodes);
    let read = FieldsRead {
        count,
        canonical,
        tidy: true,
    };
    same((found, nodes.get(..count)), (Ok(read), Some(wanted)))?;
    if count == 0 {
        return Ok(());
    }
    let (short, _) = nodes.split_at_mut((count - 1).min(9));
    let found = read_fields(frame_type, payload, deep, short);
    same(found, Err(FieldsError::TooFew { needed: count }))
}

#[test]
fn payloads_have_these_nodes() -> Result<(), Fail> {
    for row in ROWS {
        has_nodes(*row)?;
    }
    Ok(())
}

#[test]
fn a_fault_comes_before_a_short_list() -> Result<(), Fail> {
    let found = read_fields(Method, &[0, 60, 0, 60, 2, b'c'], true, &mut []);
    same(found, Err(FieldsError::Payload(ParserError::ShortPayload)))
}

/// The content of a table, of which the response of AMQPLAIN is one.
const ENTRIES: &[u8] = &[
    5, b'L', b'O', b'G', b'I', b'N', b'S', 0, 0, 0, 1, b'g', 1, b'd', b'D', 2, 0, 0, 1, 4,
];

const ENTRY_NODES: &[Node] = &[
    Node {
        kind: b'S',
        key_start: 1,
        key_length: 5,
        start: 11,
        length: 1,
        ..BLANK
    },
    Node {
        kind: b'D',
        key_start: 13,
        key_length: 1,
        number: 260,
        scale: 2,
        ..BLANK
    },
];

/// The content of an array: a number that is read as another kind, and an empty table.
const VALUES: &[u8] = &[b'U', 255, 254, b'F', 0, 0, 0, 0];

const VALUE_NODES: &[Node] = &[
    Node {
        kind: b's',
        number: u64::MAX - 1,
        ..BLANK
    },
    Node {
        kind: b'F',
        start: 8,
        ..BLANK
    },
];

#[test]
fn contents_have_these_nodes() -> Result<(), Fail> {
    let mut nodes = [BLANK; 2];
    let found = read_entries(ENTRIES, &mut nodes);
    same((found, nodes.get(..2)), (Ok(2), Some(ENTRY_NODES)))?;
    let found = read_values(VALUES, &mut nodes);
    same((found, nodes.get(..2)), (Ok(2), Some(VALUE_NODES)))?;
    let found = read_values(ENTRIES, &mut nodes);
    same(found, Err(FieldsError::Payload(ParserError::UnknownTag)))
}
