//! Bytes that begin with no frame, and the errors that they are refused with.

use crate::worked::DECLARE;
use amqp_frame::{ParserError, parse_frame};
use amqp_vectors::asking::same;
use std::alloc::Global;
use std::test::Fail;

/// How many bytes a parse call took. What it read is let go, whatever it is: so no proof goes by its kinds.
fn count<T: Drop>(read: Result<(usize, T), ParserError>) -> Result<usize, ParserError> {
    let (used, _) = read?;
    Ok(used)
}

/// How many bytes the frame at the front takes.
fn used(alloc: Global, bytes: &[u8]) -> Result<usize, ParserError> {
    count(parse_frame(alloc, bytes))
}

const ROWS: &[(&[u8], ParserError)] = &[
    (&[], ParserError::Incomplete),
    (&[3, 0, 1, 0, 0, 0, 1, 104], ParserError::Incomplete),
    // The longest length that can be written.
    (&[3, 0, 1, 255, 255, 255, 255], ParserError::Incomplete),
    (&[9], ParserError::UnknownFrameType),
    (&[65, 77, 81, 81], ParserError::BadProtocolHeader),
    (&[65, 77], ParserError::Incomplete),
    (&[1, 0, 1, 0, 0, 0, 2, 0, 99, 205], ParserError::BadFrameEnd),
    (
        &[1, 0, 1, 0, 0, 0, 4, 0, 85, 0, 10, 206],
        ParserError::ShortPayload,
    ),
    (&[2, 0, 1, 0, 0, 0, 0, 206], ParserError::ShortPayload),
];

/// Each front of a method is incomplete.
#[test]
fn faults_are_named(rt: HostRuntime) -> Result<(), Fail> {
    for (bytes, error) in ROWS {
        same(used(rt.alloc(), bytes), Err(*error))?;
    }
    for end in 0..DECLARE.len() {
        let front = DECLARE.get(..end).unwrap_or_default();
        same(used(rt.alloc(), front), Err(ParserError::Incomplete))?;
    }
    Ok(())
}
