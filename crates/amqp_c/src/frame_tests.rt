//! Frames as heads and nodes, on bytes whose results are known by hand.

use crate::frames::feksroum_frames;
use amqp_fields::{Head, Node};

/// A body of one byte on channel 1, `exchange.delete-ok`, and a heartbeat that lacks its end byte.
const BYTES: [u8; 28] = [
    3, 0, 1, 0, 0, 0, 1, 104, 206, 1, 0, 1, 0, 0, 0, 4, 0, 40, 0, 21, 206, 8, 0, 0, 0, 0, 0, 0,
];

/// How many bytes are there, the limit, the detail, and what is given: used, needed, heads, nodes, status.
const ROWS: [(usize, u32, u8, (u64, u64, u32, u32, u32)); 7] = [
    (0, 64, 0, (0, 0, 0, 0, 0)),
    (5, 64, 0, (0, 8, 0, 0, 21)),
    (7, 64, 0, (0, 9, 0, 0, 21)),
    (21, 64, 1, (21, 0, 2, 0, 0)),
    (28, 64, 1, (21, 8, 2, 0, 21)),
    (21, 3, 0, (9, 0, 1, 0, 12)),
    (21, 64, 2, (0, 0, 0, 0, 41)),
];

#[test]
fn frames_are_given(rt: HostRuntime) {
    let mut heads = [Head::default(); 3];
    let mut nodes = [Node::default(); 1];
    for row in &ROWS {
        let (bytes, _) = BYTES.split_at(row.0.min(28));
        let batch = feksroum_frames(bytes, row.1, row.2, &mut heads, &mut nodes);
        let counts = (batch.used, batch.needed, batch.heads, batch.nodes);
        assert!(rt; (counts.0, counts.1, counts.2, counts.3, batch.status) == row.3);
    }
}

/// A protocol header, which has three nodes.
const VERSION: [u8; 8] = [65, 77, 81, 80, 0, 0, 9, 1];

#[test]
fn lists_are_too_short(rt: HostRuntime) {
    let mut heads = [Head::default(); 1];
    let mut nodes = [Node::default(); 2];
    let batch = feksroum_frames(&VERSION, 0, 0, &mut heads, &mut nodes);
    assert!(rt; batch.status == 40 && batch.needed == 3 && batch.used == 0);
    let batch = feksroum_frames(&BYTES, 64, 0, &mut heads, &mut nodes);
    assert!(rt; batch.status == 40 && batch.needed == 0 && batch.used == 9);
    let head = heads[0];
    assert!(rt; head.start == 7 && head.length == 1 && head.form == 3);
}
