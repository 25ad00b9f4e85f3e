//! Frames that a hostile peer sends: each is named by what it shows.

use crate::asking::{MESSAGE, START, canonicalizes};
use amqp_stream::StreamError;
use amqp_vectors::asking::same;
use std::alloc::Global;
use std::test::Fail;

/// What a hostile peer sends.
#[derive(Clone, Copy)]
enum Sent {
    Bytes(&'static [u8]),

    /// A `queue.declare` whose arguments are as many tables, one inside the other, and these bytes in the innermost.
    Tables(u8, &'static [u8]),

    /// A `queue.declare` with one argument: as many arrays, one inside the other.
    Arrays(u8),

    /// A body of as many zeros.
    Body(u32),
}

/// What is sent, and the outcome. Where it is Ok all is written as it came, else nothing is.
const CASES: &[(&str, Sent, Result<(), StreamError>)] = &[
    ("a message", Sent::Bytes(&MESSAGE), Ok(())),
    ("64 tables", Sent::Tables(64, &[]), Ok(())),
    (
        "65 tables",
        Sent::Tables(65, &[]),
        Err(StreamError::TooDeep),
    ),
    ("63 arrays in a table", Sent::Arrays(63), Ok(())),
    (
        "64 arrays in a table",
        Sent::Arrays(64),
        Err(StreamError::TooDeep),
    ),
    (
        "an unknown tag in the 64th table",
        Sent::Tables(64, &[0, 90]),
        Err(StreamError::UnknownTag),
    ),
    (
        "the tag of a 65th table, and nothing after it",
        Sent::Tables(64, &[0, 70]),
        Err(StreamError::TooDeep),
    ),
    ("the longest body", Sent::Body(131_072), Ok(())),
    (
        "a body one byte longer",
        Sent::Body(131_073),
        Err(StreamError::TooLarge),
    ),
    (
        "the longest length that can be written",
        Sent::Bytes(&[3, 0, 1, 255, 255, 255, 255]),
        Err(StreamError::TooLarge),
    ),
    (
        "a table longer than its payload",
        Sent::Bytes(&[
            1, 0, 1, 0, 0, 0, 12, 0, 50, 0, 10, 0, 0, 0, 0, 255, 255, 255, 255, 206,
        ]),
        Err(StreamError::ShortPayload),
    ),
    (
        "a key longer than its table",
        Sent::Bytes(&[
            1, 0, 1, 0, 0, 0, 14, 0, 50, 0, 10, 0, 0, 0, 0, 0, 0, 0, 2, 255, 0, 206,
        ]),
        Err(StreamError::ShortPayload),
    ),
];

/// Both, with their length in front.
fn counted(alloc: Global, front: &[u8], content: &[u8]) -> Result<Vec<u8>, Fail> {
    let mut both = Vec::from_slice(alloc, front)?;
    both.extend_from_slice(content)?;
    let len = u32::try_from(both.len()).unwrap_or_default();
    let mut bytes = Vec::from_slice(alloc, &len.to_be_bytes())?;
    bytes.extend_from_slice(&both)?;
    Ok(bytes)
}

/// As many counted contents, one inside the other, each after this front.
fn nest(alloc: Global, front: &[u8], depth: u8, innermost: &[u8]) -> Result<Vec<u8>, Fail> {
    let mut bytes = counted(alloc, &[], innermost)?;
    for _ in 1..depth {
        bytes = counted(alloc, front, &bytes)?;
    }
    Ok(bytes)
}

/// A `queue.declare` frame of the empty name, with these bytes for its arguments.
fn declare(alloc: Global, arguments: &[u8]) -> Result<Vec<u8>, Fail> {
    let payload = counted(alloc, &[0, 50, 0, 10, 0, 0, 0, 0], arguments)?;
    let mut bytes = Vec::from_slice(alloc, &[1, 0, 1])?;
    bytes.extend_from_slice(&payload)?;
    bytes.push(206)?;
    Ok(bytes)
}

/// A body frame of as many zeros on channel 1.
fn body(alloc: Global, len: u32) -> Result<Vec<u8>, Fail> {
    let mut bytes = Vec::from_slice(alloc, &[3, 0, 1])?;
    bytes.extend_from_slice(&len.to_be_bytes())?;
    bytes.resize(len as usize + 7, 0)?;
    bytes.push(206)?;
    Ok(bytes)
}

impl Sent {
    fn bytes(self, alloc: Global) -> Result<Vec<u8>, Fail> {
        match self {
            Sent::Bytes(bytes) => Ok(Vec::from_slice(alloc, bytes)?),
            Sent::Tables(depth, innermost) => {
                declare(alloc, &nest(alloc, &[0, 70], depth, innermost)?)
            }
            Sent::Arrays(depth) => {
                let arrays = nest(alloc, &[65], depth, &[])?;
                declare(alloc, &counted(alloc, &[0, 65], &arrays)?)
            }
            Sent::Body(len) => body(alloc, len),
        }
    }
}

/// Fails unless what is sent ends so, and is written as it came where it is taken.
fn is_answered(
    alloc: Global,
    case: &str,
    sent: Sent,
    outcome: Result<(), StreamError>,
) -> Result<(), Fail> {
    let bytes = sent.bytes(alloc)?;
    let written = if outcome.is_ok() { bytes.len() } else { 0 };
    let written = bytes.as_slice().get(..written).unwrap_or_default();
    canonicalizes(alloc, case, &bytes, outcome, written)
}

/// Frames that nest as deep as may be have 382 bytes of tables, and a payload of 328 bytes.
#[test]
fn hostile_frames_are_kept_or_refused(rt: HostRuntime) -> Result<(), Fail> {
    let alloc = rt.alloc();
    let tables = nest(alloc, &[0, 70], 64, &[])?.len();
    let arrays = Sent::Arrays(63).bytes(alloc)?.len();
    same((tables, arrays), (382, 336))?;
    for (case, sent, outcome) in CASES {
        is_answered(alloc, case, *sent, *outcome)?;
    }
    Ok(())
}

#[test]
fn each_cut_start_is_cut_short(rt: HostRuntime) -> Result<(), Fail> {
    for end in 1..START.len() {
        let front = START.get(..end).unwrap_or_default();
        let outcome = Err(StreamError::CutShort);
        canonicalizes(rt.alloc(), "a cut start", front, outcome, &[])?;
    }
    Ok(())
}
