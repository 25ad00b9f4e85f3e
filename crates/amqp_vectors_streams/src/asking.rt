//! How streams are tested: what canonicalizing some bytes returns, and what it writes.

use amqp_lent::canonicalize_lent;
use amqp_stream::{Codec, PieceSource, Source, StreamError, VecSink, canonicalize};
use amqp_types::Profile;
use amqp_vectors::asking::same_in;
use std::alloc::Global;
use std::test::Fail;

/// The limit on payloads, in bytes.
pub const LIMIT: u32 = 131_072;

/// Pieces of one byte.
pub const ONES: [usize; 97] = [1; 97];

/// A heartbeat on channel 0.
pub const HEARTBEAT: [u8; 8] = [8, 0, 0, 0, 0, 0, 0, 206];

/// Two of them.
pub const TWO_HEARTBEATS: [u8; 16] = [8, 0, 0, 0, 0, 0, 0, 206, 8, 0, 0, 0, 0, 0, 0, 206];

/// `queue.declare` of `some_queue` on channel 1, with all its flags.
pub const DECLARE: [u8; 30] = [
    1, 0, 1, 0, 0, 0, 22, 0, 50, 0, 10, 0, 0, 10, 115, 111, 109, 101, 95, 113, 117, 101, 117, 101,
    31, 0, 0, 0, 0, 206,
];

/// A client's message on channel 1: `basic.publish` to the queue `hello`, its content header and its body,
/// of 22, 34 and 13 bytes.
pub const MESSAGE: [u8; 69] = [
    1, 0, 1, 0, 0, 0, 14, 0, 60, 0, 40, 0, 0, 0, 5, 104, 101, 108, 108, 111, 0, 206, 2, 0, 1, 0, 0,
    0, 26, 0, 60, 0, 0, 0, 0, 0, 0, 0, 0, 0, 5, 144, 0, 10, 116, 101, 120, 116, 47, 112, 108, 97,
    105, 110, 2, 206, 3, 0, 1, 0, 0, 0, 5, 104, 101, 108, 108, 111, 206,
];

/// A broker's `connection.start`, whose properties are not in ascending key order.
pub const START: [u8; 97] = [
    1, 0, 0, 0, 0, 0, 89, 0, 10, 0, 10, 0, 9, 0, 0, 0, 52, 7, 112, 114, 111, 100, 117, 99, 116, 83,
    0, 0, 0, 8, 82, 97, 98, 98, 105, 116, 77, 81, 12, 99, 97, 112, 97, 98, 105, 108, 105, 116, 105,
    101, 115, 70, 0, 0, 0, 13, 10, 98, 97, 115, 105, 99, 46, 110, 97, 99, 107, 116, 1, 0, 0, 0, 14,
    80, 76, 65, 73, 78, 32, 65, 77, 81, 80, 76, 65, 73, 78, 0, 0, 0, 5, 101, 110, 95, 85, 83, 206,
];

/// The same in ascending key order.
pub const START_IN_ORDER: [u8; 97] = [
    1, 0, 0, 0, 0, 0, 89, 0, 10, 0, 10, 0, 9, 0, 0, 0, 52, 12, 99, 97, 112, 97, 98, 105, 108, 105,
    116, 105, 101, 115, 70, 0, 0, 0, 13, 10, 98, 97, 115, 105, 99, 46, 110, 97, 99, 107, 116, 1, 7,
    112, 114, 111, 100, 117, 99, 116, 83, 0, 0, 0, 8, 82, 97, 98, 98, 105, 116, 77, 81, 0, 0, 0,
    14, 80, 76, 65, 73, 78, 32, 65, 77, 81, 80, 76, 65, 73, 78, 0, 0, 0, 5, 101, 110, 95, 85, 83,
    206,
];

/// Fails unless a call has ended with this outcome, and written these bytes.
pub fn has_ended(
    row: &str,
    found: Result<(), StreamError>,
    outcome: Result<(), StreamError>,
    bytes: &[u8],
    written: &[u8],
) -> Result<(), Fail> {
    same_in(row, found, outcome)?;
    same_in(row, bytes, written)
}

/// Fails unless canonicalizing the source ends so.
pub fn ends<S: Source>(
    alloc: Global,
    row: &str,
    source: &mut S,
    budget: u64,
    outcome: Result<(), StreamError>,
    written: &[u8],
) -> Result<(), Fail> {
    let mut sink = VecSink::new(alloc);
    let found = canonicalize(alloc, source, &mut sink, LIMIT, budget);
    has_ended(row, found, outcome, sink.bytes(), written)
}

/// Fails unless it ends so in a profile.
pub fn ends_in<S: Source>(
    alloc: Global,
    row: &str,
    profile: Profile,
    source: &mut S,
    budget: u64,
    outcome: Result<(), StreamError>,
    written: &[u8],
) -> Result<(), Fail> {
    let mut sink = VecSink::new(alloc);
    let mut codec = Codec::open(alloc, LIMIT)?;
    let found = codec.rewrite(profile, source, &mut sink, budget);
    has_ended(row, found, outcome, sink.bytes(), written)
}

/// Fails unless it ends so by the borrowed codec.
fn ends_lent<S: Source>(
    alloc: Global,
    row: &str,
    source: &mut S,
    budget: u64,
    outcome: Result<(), StreamError>,
    written: &[u8],
) -> Result<(), Fail> {
    let mut sink = VecSink::new(alloc);
    let found = canonicalize_lent(alloc, source, &mut sink, LIMIT, budget);
    has_ended(row, found, outcome, sink.bytes(), written)
}

/// Fails unless canonicalizing the bytes, whole and in single bytes, ends so by a codec and by the borrowed one. Each
/// may make one read more than there are bytes.
pub fn canonicalizes(
    alloc: Global,
    row: &str,
    bytes: &[u8],
    outcome: Result<(), StreamError>,
    written: &[u8],
) -> Result<(), Fail> {
    let budget = bytes.len() as u64 + 1;
    for pieces in [[].as_slice(), ONES.as_slice()] {
        let mut source = PieceSource::new(bytes, pieces, &[]);
        ends(alloc, row, &mut source, budget, outcome, written)?;
        let mut source = PieceSource::new(bytes, pieces, &[]);
        ends_lent(alloc, row, &mut source, budget, outcome, written)?;
    }
    Ok(())
}
