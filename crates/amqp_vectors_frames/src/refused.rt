//! Memory that runs out: `rt try --test --fail-alloc N` lets the Nth allocation of each test fail.

use amqp_frame::{AMQPFrame, GenError, ParserError, gen_frame, parse_frame, release};
use std::alloc::Global;

/// A body `h` on channel 1.
const BODY: [u8; 9] = [3, 0, 1, 0, 0, 0, 1, 104, 206];

/// A broker's `connection.start`, whose properties are not in ascending key order.
const START: [u8; 97] = [
    1, 0, 0, 0, 0, 0, 89, 0, 10, 0, 10, 0, 9, 0, 0, 0, 52, 7, 112, 114, 111, 100, 117, 99, 116, 83,
    0, 0, 0, 8, 82, 97, 98, 98, 105, 116, 77, 81, 12, 99, 97, 112, 97, 98, 105, 108, 105, 116, 105,
    101, 115, 70, 0, 0, 0, 13, 10, 98, 97, 115, 105, 99, 46, 110, 97, 99, 107, 116, 1, 0, 0, 0, 14,
    80, 76, 65, 73, 78, 32, 65, 77, 81, 80, 76, 65, 73, 78, 0, 0, 0, 5, 101, 110, 95, 85, 83, 206,
];

/// The same in ascending key order.
const START_IN_ORDER: [u8; 97] = [
    1, 0, 0, 0, 0, 0, 89, 0, 10, 0, 10, 0, 9, 0, 0, 0, 52, 12, 99, 97, 112, 97, 98, 105, 108, 105,
    116, 105, 101, 115, 70, 0, 0, 0, 13, 10, 98, 97, 115, 105, 99, 46, 110, 97, 99, 107, 116, 1, 7,
    112, 114, 111, 100, 117, 99, 116, 83, 0, 0, 0, 8, 82, 97, 98, 98, 105, 116, 77, 81, 0, 0, 0,
    14, 80, 76, 65, 73, 78, 32, 65, 77, 81, 80, 76, 65, 73, 78, 0, 0, 0, 5, 101, 110, 95, 85, 83,
    206,
];

/// Whether a frame was appended after a 7, or refused as out of memory, with the 7 alone left.
fn is_appended(alloc: Global, frame: &AMQPFrame, written: &[u8]) -> bool {
    let mut out = Vec::new(alloc);
    if out.push(7).is_err() {
        return true;
    }
    match gen_frame(alloc, &mut out, frame) {
        Ok(()) => out.get(1..) == Some(written),
        Err(error) => error == GenError::NoMemory && out.as_slice() == [7].as_slice(),
    }
}

/// Whether the frame at the front is read and written, or memory is refused.
fn is_rewritten(alloc: Global, read: &[u8], written: &[u8]) -> bool {
    match parse_frame(alloc, read) {
        Ok((used, frame)) => {
            let answer = is_appended(alloc, &frame, written);
            release(frame);
            answer && used == read.len()
        }
        Err(error) => error == ParserError::NoMemory,
    }
}

#[test]
fn refused_memory_leaves_the_vector(rt: HostRuntime) {
    assert!(rt;
        is_appended(
            rt.alloc(),
            &AMQPFrame::Heartbeat,
            &[8, 0, 0, 0, 0, 0, 0, 206]
        )
    );
    assert!(rt; is_rewritten(rt.alloc(), &BODY, &BODY));
}

#[test]
fn refused_memory_leaves_a_start_unread(rt: HostRuntime) {
    assert!(rt; is_rewritten(rt.alloc(), &START, &START_IN_ORDER));
}
