//! Payloads of methods and content headers, and what is returned when they are decoded.

use crate::judging::Call::{ContentHeader, Payload};
use crate::judging::{Changed, Whole};
use amqp_types::ParserError;

/// A content header with all 14 properties.
pub const HEADER: [u8; 55] = [
    0, 60, // basic
    0, 0, // the weight
    0, 0, 0, 0, 0, 0, 0, 5, // the size of the body
    255, 252, // the mask
    1, 97, // content type
    1, 98, // content encoding
    0, 0, 0, 7, 1, 99, 86, 1, 100, 116, 1, // headers, in which the second value is a truth value
    2, // delivery mode
    9, // priority
    1, 101, // correlation id
    1, 102, // reply to
    1, 103, // expiration
    1, 104, // message id
    0, 0, 0, 0, 0, 0, 0, 1, // timestamp
    1, 105, // type
    1, 106, // user id
    1, 107, // application id
    1, 108, // cluster id
];

/// That content header with one byte changed.
pub const CHANGED: [Changed; 16] = [
    (29, 1, Ok((55, true, true))),
    // a class that no table has
    (1, 61, Ok((55, true, true))),
    // a mask without the last property
    (13, 248, Ok((53, true, true))),
    // a truth byte that is not written, a duplicate key, and keys in descending order
    (28, 2, Ok((55, false, true))),
    (26, 99, Ok((55, false, true))),
    (26, 98, Ok((55, false, true))),
    // the weight, and the unused bits of the mask
    (2, 1, Ok((55, false, false))),
    (3, 1, Ok((55, false, false))),
    (13, 253, Ok((55, false, false))),
    (13, 254, Ok((55, false, false))),
    (13, 255, Ok((55, false, false))),
    // lengths, a string that is not UTF-8, and a tag that names no kind
    (53, 2, Err(ParserError::Incomplete)),
    (54, 255, Err(ParserError::NotUtf8)),
    (18, 1, Err(ParserError::Incomplete)),
    (21, 8, Err(ParserError::ShortPayload)),
    (24, 90, Err(ParserError::UnknownTag)),
];

pub const WHOLE: [Whole; 18] = [
    // `basic.publish`; with an unused bit, a reserved number that is filled, and a byte more
    (
        Payload,
        &[0, 60, 0, 40, 0, 0, 1, 101, 1, 107, 3],
        Ok((11, true, true)),
    ),
    (
        Payload,
        &[0, 60, 0, 40, 0, 0, 1, 101, 1, 107, 4],
        Ok((11, false, false)),
    ),
    (
        Payload,
        &[0, 60, 0, 40, 0, 1, 1, 101, 1, 107, 3],
        Ok((11, false, false)),
    ),
    (
        Payload,
        &[0, 60, 0, 40, 0, 0, 1, 101, 1, 107, 3, 7],
        Ok((11, true, true)),
    ),
    // `queue.declare`, whose arguments are not in ascending key order
    (
        Payload,
        &[
            0, 50, 0, 10, 0, 0, 1, 113, 31, 0, 0, 0, 8, 1, 98, 116, 1, 1, 97, 116, 0,
        ],
        Ok((21, false, true)),
    ),
    (Payload, &[0, 90, 0, 10], Ok((4, true, true))),
    // a class comes before the method id, and a method before its fields
    (Payload, &[], Err(ParserError::Incomplete)),
    (Payload, &[0], Err(ParserError::Incomplete)),
    (Payload, &[0, 61], Err(ParserError::UnknownClass)),
    (Payload, &[0, 61, 0, 40], Err(ParserError::UnknownClass)),
    (Payload, &[0, 60], Err(ParserError::Incomplete)),
    (Payload, &[0, 60, 0], Err(ParserError::Incomplete)),
    (Payload, &[0, 60, 0, 41], Err(ParserError::UnknownMethod)),
    (Payload, &[0, 60, 0, 40, 0], Err(ParserError::Incomplete)),
    (
        Payload,
        &[0, 60, 0, 40, 0, 0, 1, 255],
        Err(ParserError::NotUtf8),
    ),
    (
        ContentHeader,
        &[0, 60, 0, 0, 0, 0, 0, 0, 0, 0, 0, 5, 0, 0, 1, 97],
        Ok((14, true, true)),
    ),
    (ContentHeader, &[], Err(ParserError::Incomplete)),
    (
        ContentHeader,
        &[0, 0, 0, 0, 0, 0, 0, 0, 0, 0, 0, 0, 0],
        Err(ParserError::Incomplete),
    ),
];
