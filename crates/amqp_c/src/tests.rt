//! Each export on frames whose results are known by hand.

use super::*;
use crate::canonicalize::feksroum_canonicalize;
use crate::check::feksroum_check;
use crate::fields::{feksroum_open, feksroum_read};
use crate::in_place::{feksroum_canonical_run, feksroum_canonicalize_in_place};
use crate::lines::{feksroum_dump, feksroum_undump};
use crate::next::feksroum_next;
use crate::recutting::{feksroum_piece_at, feksroum_recut};
use crate::scratch::feksroum_scratch;
use crate::statuses::feksroum_name;
use crate::vectors::{feksroum_body_head, feksroum_max_payload};
use crate::version::feksroum_version;
use amqp_fields::Node;
use amqp_wire::EntryMark;

const LIMIT: u32 = 131_072;

/// A body of one byte on channel 1, an empty heartbeat, and a protocol header.
const BODY: [u8; 9] = [3, 0, 1, 0, 0, 0, 1, 104, 206];

const HEARTBEAT: [u8; 8] = [8, 0, 0, 0, 0, 0, 0, 206];

const HEADER: [u8; 8] = [65, 77, 81, 80, 0, 0, 9, 1];

/// A heartbeat that carries a byte.
const LOUD: [u8; 9] = [8, 0, 0, 0, 0, 0, 1, 7, 206];

/// A queue is declared, with the key `a` twice.
const TWICE: [u8; 28] = [
    1, 0, 1, 0, 0, 0, 20, 0, 50, 0, 10, 0, 0, 0, 31, 0, 0, 0, 8, 1, 97, 116, 0, 1, 97, 116, 7, 206,
];

const ONCE: [u8; 24] = [
    1, 0, 1, 0, 0, 0, 16, 0, 50, 0, 10, 0, 0, 0, 31, 0, 0, 0, 4, 1, 97, 116, 1, 206,
];

/// Bytes, the limit, and what is in front: used, where and how long the payload is, channel, type, status; and how many bytes
/// are needed.
type Front = (&'static [u8], u32, (u64, u32, u64, u16, u8, u8), u64);

const FRONTS: &[Front] = &[
    (&BODY, LIMIT, (9, 7, 1, 1, 3, 0), 9),
    (&HEARTBEAT, 0, (8, 7, 0, 0, 8, 0), 8),
    (&HEADER, 0, (8, 5, 3, 0, 65, 0), 8),
    (&TWICE, 20, (28, 7, 20, 1, 1, 0), 28),
    (&TWICE, 19, (0, 0, 0, 0, 0, 12), 0),
    (&[], LIMIT, (0, 0, 0, 0, 0, 21), 8),
    (&[1, 0, 1, 0, 0, 0], LIMIT, (0, 0, 0, 0, 0, 21), 8),
    (&[1, 0, 1, 0, 0, 0, 20], LIMIT, (0, 0, 0, 0, 0, 21), 28),
    (&[1, 0, 1, 0, 1, 0, 0, 9], LIMIT, (0, 0, 0, 0, 0, 21), 65544),
    (&[65, 77, 81, 80, 0, 0, 9], 0, (0, 0, 0, 0, 0, 21), 8),
    (&[4], LIMIT, (0, 0, 0, 0, 0, 10), 0),
    (&[65, 77, 81, 81], LIMIT, (0, 0, 0, 0, 0, 11), 0),
    (&[8, 0, 0, 0, 0, 0, 0, 207], LIMIT, (0, 0, 0, 0, 0, 13), 0),
    (
        &[3, 1, 2, 0, 0, 0, 0, 206, 9],
        LIMIT,
        (8, 7, 0, 258, 3, 0),
        8,
    ),
];

#[test]
fn fronts_are_found(rt: HostRuntime) {
    for row in FRONTS {
        let front = feksroum_next(row.0, row.1);
        let lies = (front.used, front.payload_start, front.payload_len);
        let is = (front.channel, front.frame_type, front.status);
        assert!(rt; (lies.0, lies.1, lies.2, is.0, is.1, is.2) == row.2 && front.needed == row.3);
    }
}

/// A type, a payload, and what it is: class, method, body size, canonical, tidy, status; and how many fields it has.
type Payload = (u8, &'static [u8], (u16, u16, u64, bool, bool, u8), u8);

const PAYLOADS: &[Payload] = &[
    (1, &[0, 85, 0, 10, 1], (85, 10, 0, true, true, 0), 1),
    (1, &[0, 85, 0, 10, 255], (85, 10, 0, false, false, 0), 1),
    (1, &[0, 85, 0, 10], (0, 0, 0, false, false, 16), 0),
    (1, &[0, 85, 0, 10, 0, 0], (0, 0, 0, false, false, 17), 0),
    (1, &[0, 86, 0, 10], (0, 0, 0, false, false, 14), 0),
    (1, &[0, 85, 0, 12], (0, 0, 0, false, false, 15), 0),
    (1, &PUBLISH, (60, 40, 0, true, true, 0), 4),
    (
        2,
        &[0, 60, 0, 0, 0, 0, 0, 0, 0, 0, 1, 5, 0, 0],
        (60, 0, 261, true, true, 0),
        0,
    ),
    (
        2,
        &[0, 60, 0, 7, 0, 0, 0, 0, 0, 0, 0, 5, 0, 0],
        (60, 0, 5, false, false, 0),
        0,
    ),
    (2, &HEADERS, (60, 0, 5, true, true, 0), 1),
    (3, &[1, 2, 3], (0, 0, 0, true, true, 0), 0),
    (8, &[], (0, 0, 0, true, true, 0), 0),
    (8, &[7], (0, 0, 0, false, false, 0), 0),
    (65, &[0, 9, 1], (0, 0, 0, true, true, 0), 3),
    (65, &[0, 9], (0, 0, 0, false, false, 16), 0),
    (4, &[], (0, 0, 0, false, false, 10), 0),
];

#[test]
fn payloads_are_checked(rt: HostRuntime) {
    for row in PAYLOADS {
        let summary = feksroum_check(row.0, row.1);
        let stands = (summary.class_id, summary.method_id, summary.body_size);
        let is = (summary.canonical, summary.tidy, summary.status);
        assert!(rt;
            (stands.0, stands.1, stands.2, is.0, is.1, is.2) == row.2 && summary.fields == row.3
        );
    }
}

/// Bytes, the level, how many are used, what is written, and the status.
type Stream = (&'static [u8], u8, u64, &'static [u8], u32);

const STREAMS: [Stream; 9] = [
    (&[], 0, 0, &[], 0),
    (&HEADER, 0, 8, &HEADER, 0),
    (&TWICE, 0, 28, &ONCE, 0),
    (&TWICE, 1, 28, &ONCE, 0),
    (&LOUD, 0, 9, &HEARTBEAT, 0),
    (&LOUD, 1, 0, &[], 23),
    (&[3, 0, 1, 0, 0, 0, 1, 104, 206, 1, 0], 0, 9, &BODY, 21),
    (&[3, 0, 1, 0, 0, 0, 1, 104, 206, 9], 0, 9, &BODY, 10),
    (
        &[3, 0, 1, 0, 0, 0, 1, 104, 206, 1, 0, 0, 0, 0, 0, 1, 0, 206],
        0,
        9,
        &BODY,
        16,
    ),
];

/// Whether a stream is canonicalized so with this scratch, and the buffer kept after what is written.
fn is_canonicalized(stream: &Stream, scratch: &mut [EntryMark]) -> bool {
    let mut out = [99; 40];
    let progress = feksroum_canonicalize(stream.0, &mut out, scratch, LIMIT, stream.1);
    progress.used == stream.2
        && progress.status == stream.4
        && progress.unused == 0
        && out.get(..progress.written as usize) == Some(stream.3)
        && out.get(progress.written as usize) == Some(&99)
}

#[test]
fn streams_are_canonicalized(rt: HostRuntime) {
    assert!(rt; feksroum_scratch(29) == 14 && feksroum_scratch(0) == 0);
    let mut scratch = [EntryMark::default(); 257];
    for stream in &STREAMS {
        assert!(rt; is_canonicalized(stream, &mut []));
        assert!(rt; is_canonicalized(stream, &mut scratch));
    }
}

/// Bytes, the line of the frame in front, how many bytes the frame has, its canonical bytes, and the status.
const LINES: [(&[u8], &[u8], u64, &[u8], u32); 6] = [
    (&BODY, b"body 1 x68\n", 9, &BODY, 0),
    (&LOUD, b"beat\n", 9, &HEARTBEAT, 0),
    (&HEADER, b"proto 0.9.1\n", 8, &HEADER, 0),
    (
        &TWICE,
        b"method 1 50.10 \"\" +++++ {\"a\"=t:1}\n",
        28,
        &ONCE,
        0,
    ),
    (&[3, 0, 1], b"", 0, &[], 21),
    (&[3, 0, 1, 0, 0, 0, 0, 7], b"", 0, &[], 13),
];

#[test]
fn frames_and_lines_are_converted(rt: HostRuntime) {
    for row in &LINES {
        let mut out = [99; 40];
        let found = feksroum_dump(rt.alloc(), row.0, &mut out, LIMIT);
        assert!(rt;
            found.used == row.2 && found.length == row.1.len() as u64 && found.status == row.4
        );
        assert!(rt; out.get(..found.length as usize) == Some(row.1));
        assert!(rt; out.get(found.length as usize) == Some(&99));
    }
    for row in &LINES[..4] {
        let mut out = [99; 40];
        let found = feksroum_undump(rt.alloc(), row.1, &mut out, LIMIT);
        assert!(rt;
            found.used == row.1.len() as u64
                && found.length == row.3.len() as u64
                && found.status == 0
        );
        assert!(rt; out.get(..found.length as usize) == Some(row.3));
        assert!(rt; out.get(found.length as usize) == Some(&99));
    }
}

#[test]
fn statuses_have_names(rt: HostRuntime) {
    let mut out = [99; 17];
    assert!(rt; feksroum_name(13, &mut out) == 11 && out.get(..11) == Some(b"BadFrameEnd"));
    assert!(rt; feksroum_name(11, &mut out) == 17 && out == *b"BadProtocolHeader");
    assert!(rt; feksroum_name(40, &mut out[..13]) == 14 && out == *b"BadProtocolHeader");
    assert!(rt; feksroum_name(41, &mut out) == 11 && out.get(..11) == Some(b"BadArgument"));
    assert!(rt; feksroum_name(42, &mut out) == 7 && out.get(..7) == Some(b"TooLong"));
    assert!(rt; feksroum_name(26, &mut out) == 7 && out.get(..7) == Some(b"BadText"));
    assert!(rt; feksroum_name(24, &mut out) == 10 && out.get(..10) == Some(b"BadContent"));
    assert!(rt; feksroum_name(25, &mut out) == 11 && out.get(..11) == Some(b"OpenContent"));
    assert!(rt; feksroum_name(0, &mut out) == 0 && feksroum_name(255, &mut out) == 0);
}

/// A message is published to the queue `q`, and is mandatory.
const PUBLISH: [u8; 10] = [0, 60, 0, 40, 0, 0, 0, 1, 113, 1];

/// The same, cut off before its flags.
const PUBLISH_CUT: [u8; 9] = [0, 60, 0, 40, 0, 0, 0, 1, 113];

/// A content header of a body of 5 bytes, with a table: `a` is true.
const HEADERS: [u8; 22] = [
    0, 60, 0, 0, 0, 0, 0, 0, 0, 0, 0, 5, 32, 0, 0, 0, 0, 4, 1, 97, 116, 1,
];

/// A type, a payload, what is asked for, the length of the list; how many nodes, class, method, size, status.
type Read = (u8, &'static [u8], u8, usize, (u64, u16, u16, u64, u8));

const READS: &[Read] = &[
    (1, &PUBLISH, 0, 4, (4, 60, 40, 0, 0)),
    (1, &PUBLISH, 1, 3, (4, 0, 0, 0, 40)),
    (2, &HEADERS, 0, 1, (1, 60, 0, 5, 0)),
    (2, &HEADERS, 1, 4, (2, 60, 0, 5, 0)),
    (2, &HEADERS, 1, 1, (2, 0, 0, 0, 40)),
    (2, &HEADERS, 2, 4, (0, 0, 0, 0, 41)),
    (1, &PUBLISH_CUT, 1, 0, (0, 0, 0, 0, 16)),
    (4, &PUBLISH, 1, 4, (0, 0, 0, 0, 10)),
    (3, &PUBLISH, 1, 0, (0, 0, 0, 0, 0)),
    (65, &[0, 9, 1], 0, 3, (3, 0, 0, 0, 0)),
];

/// Whether a payload is read so, and its nodes are these where they are given.
fn is_read(row: Read, nodes: &[Node]) -> bool {
    let mut list = [Node::default(); 4];
    let Some(list) = list.get_mut(..row.3) else {
        return false;
    };
    let read = feksroum_read(row.0, row.1, row.2, list);
    let ids = (read.nodes, read.class_id, read.method_id);
    (ids.0, ids.1, ids.2, read.body_size, read.status) == row.4
        && read.unused == 0
        && (read.status != 0 || list.get(..nodes.len()) == Some(nodes))
}

/// A field of a kind at a place, with this number and span.
fn field(place: u8, kind: u8, number: u64, start: u32, length: u32) -> Node {
    Node {
        number,
        start,
        length,
        kind,
        place,
        ..Node::default()
    }
}

/// The table of a content header, with so many nodes inside.
fn headers(inside: u32) -> Node {
    Node {
        inside,
        items: inside,
        ..field(2, 8, 0, 18, 4)
    }
}

/// A truth value, whose key begins at a place.
fn is_true(key_start: u32, key_length: u8) -> Node {
    Node {
        key_start,
        key_length,
        ..field(0, 116, 1, 0, 0)
    }
}

#[test]
fn fields_are_read(rt: HostRuntime) {
    for row in READS {
        assert!(rt; is_read(*row, &[]));
    }
    let publish = [
        field(0, 6, 0, 7, 0),
        field(1, 6, 0, 8, 1),
        field(2, 5, 1, 0, 0),
        field(3, 5, 0, 0, 0),
    ];
    assert!(rt; is_read((1, &PUBLISH, 1, 4, (4, 60, 40, 0, 0)), &publish));
    assert!(rt; is_read((2, &HEADERS, 0, 1, (1, 60, 0, 5, 0)), &[headers(0)]));
    assert!(rt;
        is_read(
            (2, &HEADERS, 1, 2, (2, 60, 0, 5, 0)),
            &[headers(1), is_true(19, 1)]
        )
    );
}

/// A kind, a content, the length of the list; how many nodes, status.
type Open = (u8, &'static [u8], usize, (u64, u8));

const OPENS: &[Open] = &[
    (70, &[1, 97, 116, 1], 1, (1, 0)),
    (70, &[1, 97, 116, 1], 0, (1, 40)),
    (70, &[], 0, (0, 0)),
    (70, &[1, 97, 116], 1, (0, 16)),
    (65, &[116, 1, 86], 2, (2, 0)),
    (65, &[116, 1, 86], 1, (2, 40)),
    (65, &[7], 1, (0, 19)),
    (83, &[116, 1], 1, (0, 41)),
    (7, &[], 1, (0, 41)),
];

/// Whether a content is opened so, and its first node is this one where nodes are given.
fn is_opened(row: Open, first: Option<Node>) -> bool {
    let mut list = [Node::default(); 2];
    let Some(list) = list.get_mut(..row.2) else {
        return false;
    };
    let opened = feksroum_open(row.0, row.1, list);
    let given = match first {
        Some(node) => list.get(0) == Some(&node),
        None => true,
    };
    (opened.nodes, opened.status) == row.3 && opened.class_id == 0 && given
}

#[test]
fn contents_are_opened(rt: HostRuntime) {
    for row in OPENS {
        assert!(rt; is_opened(*row, None));
    }
    assert!(rt; is_opened((70, &[1, 97, 116, 1], 1, (1, 0)), Some(is_true(1, 1))));
    assert!(rt; is_opened((65, &[116, 1, 86], 2, (2, 0)), Some(is_true(0, 0))));
}

#[test]
fn bodies_have_heads(rt: HostRuntime) {
    assert!(rt; feksroum_version() == 256);
    assert!(rt; feksroum_max_payload(131_072) == 131_064 && feksroum_max_payload(8) == 0);
    assert!(rt; feksroum_max_payload(7) == 0 && feksroum_max_payload(0) == u32::MAX);
    let mut out = [99; 8];
    assert!(rt; feksroum_body_head(258, 65_539, &mut out[..6]) == 7 && out == [99; 8]);
    assert!(rt; feksroum_body_head(258, 65_539, &mut out) == 7 && out == [3, 1, 2, 0, 1, 0, 3, 99]);
}

/// Bytes, and how many in front are canonical frames.
const RUNS: &[(&[u8], usize)] = &[
    (&[], 0),
    (&HEADER, 8),
    (
        &[8, 0, 0, 0, 0, 0, 0, 206, 3, 0, 1, 0, 0, 0, 1, 104, 206, 1],
        17,
    ),
    (&[8, 0, 0, 0, 0, 0, 0, 206, 8, 0, 0, 0, 0, 0, 1, 7, 206], 8),
    (&TWICE, 0),
    (&ONCE, 24),
    (&[8, 0, 0, 0, 0, 0, 0, 206, 9], 8),
];

#[test]
fn runs_are_found(rt: HostRuntime) {
    for row in RUNS {
        assert!(rt; feksroum_canonical_run(row.0, LIMIT) == row.1);
    }
    assert!(rt; feksroum_canonical_run(&BODY, 0) == 0 && feksroum_canonical_run(&BODY, 1) == 9);
}

/// A body, a queue that is declared with a key twice, and a heartbeat that carries a byte; and their canonical bytes.
const MIXED: [u8; 46] = [
    3, 0, 1, 0, 0, 0, 1, 104, 206, 1, 0, 1, 0, 0, 0, 20, 0, 50, 0, 10, 0, 0, 0, 31, 0, 0, 0, 8, 1,
    97, 116, 0, 1, 97, 116, 7, 206, 8, 0, 0, 0, 0, 0, 1, 7, 206,
];

const SETTLED: [u8; 41] = [
    3, 0, 1, 0, 0, 0, 1, 104, 206, 1, 0, 1, 0, 0, 0, 16, 0, 50, 0, 10, 0, 0, 0, 31, 0, 0, 0, 4, 1,
    97, 116, 1, 206, 8, 0, 0, 0, 0, 0, 0, 206,
];

/// The level, the length of the spare buffer; how many bytes are used, how many written, the status.
const PLACES: &[(u8, usize, (u64, u64, u32))] = &[
    (0, 28, (46, 41, 0)),
    (0, 27, (9, 9, 40)),
    (0, 0, (9, 9, 40)),
    (1, 28, (37, 33, 23)),
    (2, 28, (0, 0, 41)),
];

#[test]
fn frames_are_canonicalized_in_place(rt: HostRuntime) {
    let mut scratch = [EntryMark::default(); 257];
    for row in PLACES {
        let mut buf = MIXED;
        let mut spare = [99; 28];
        let came = feksroum_canonicalize_in_place(
            &mut buf,
            &mut spare[..row.1],
            &mut scratch,
            LIMIT,
            row.0,
        );
        assert!(rt; (came.used, came.written, came.status) == row.2 && came.unused == 0);
        let written = came.written as usize;
        assert!(rt; buf.get(..written) == SETTLED.get(..written));
        assert!(rt; buf.get(written..) == MIXED.get(written..));
    }
    assert!(rt; feksroum_canonicalize_in_place(&mut [], &mut [], &mut [], LIMIT, 0).status == 0);
}

/// The size, how many bytes are held, how many are new, whether they end the message; pieces, what is left, the status.
const CUTS: &[(u32, u32, u32, u8, (u64, u32, u32))] = &[
    (4, 3, 10, 0, (3, 1, 0)),
    (4, 3, 10, 1, (4, 0, 0)),
    (4, 3, 5, 1, (2, 0, 0)),
    (4, 2, 1, 0, (0, 3, 0)),
    (4, 0, 0, 1, (0, 0, 0)),
    (4, 1, 0, 1, (1, 0, 0)),
    (1, 0, u32::MAX, 0, (4_294_967_295, 0, 0)),
    (u32::MAX, 4_294_967_294, u32::MAX, 1, (2, 0, 0)),
    (4, 4, 1, 0, (0, 0, 41)),
    (0, 0, 1, 0, (0, 0, 41)),
    (4, 0, 1, 2, (0, 0, 41)),
];

/// The same numbers and which piece; how many bytes of it are held, where it goes on, and how many are new.
const PIECES: &[(u32, u32, u32, u8, u64, (u32, u32, u32))] = &[
    (4, 3, 10, 1, 0, (3, 0, 1)),
    (4, 3, 10, 1, 1, (0, 1, 4)),
    (4, 3, 10, 1, 3, (0, 9, 1)),
    (4, 3, 10, 0, 3, (0, 0, 0)),
    (4, 1, 0, 1, 0, (1, 0, 0)),
    (
        u32::MAX,
        4_294_967_294,
        u32::MAX,
        1,
        1,
        (0, 1, 4_294_967_294),
    ),
    (4, 4, 9, 0, 0, (0, 0, 0)),
    (4, 1, 9, 3, 0, (0, 0, 0)),
    (4, 0, 4, 0, u64::MAX, (0, 0, 0)),
];

#[test]
fn bodies_are_recut(rt: HostRuntime) {
    for row in CUTS {
        let cut = feksroum_recut(row.0, row.1, row.2, row.3);
        assert!(rt; (cut.pieces, cut.left, cut.status) == row.4);
    }
    for row in PIECES {
        let piece = feksroum_piece_at(row.0, row.1, row.2, row.3, row.4);
        assert!(rt;
            (piece.held_length, piece.start, piece.length) == row.5 && piece.held_start == 0
        );
    }
}
