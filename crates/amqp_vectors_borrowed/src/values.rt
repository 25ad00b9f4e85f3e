//! Values, arrays and tables, and what is returned when they are decoded.

use crate::judging::Call::{Array, Table, Value};
use crate::judging::{Changed, Whole};
use amqp_types::ParserError;

/// A table of one entry of each kind, whose keys are the tags.
pub const KINDS: [u8; 126] = [
    0, 0, 0, 122, // the length of the entries
    1, 65, 65, 0, 0, 0, 1, 86, // an array, which holds one value
    1, 66, 66, 200, // unsigned, 1 byte
    1, 68, 68, 2, 0, 0, 1, 0, // a decimal value
    1, 70, 70, 0, 0, 0, 4, 1, 97, 116, 1, // a table, which holds a truth value
    1, 73, 73, 255, 255, 255, 254, // signed, 4 bytes
    1, 83, 83, 0, 0, 0, 1, 255, // a long string
    1, 84, 84, 0, 0, 0, 0, 0, 0, 0, 9, // a time
    1, 86, 86, // nothing
    1, 98, 98, 254, // signed, 1 byte
    1, 100, 100, 63, 240, 0, 0, 0, 0, 0, 0, // a fraction, 8 bytes
    1, 102, 102, 63, 128, 0, 0, // a fraction, 4 bytes
    1, 105, 105, 0, 0, 0, 4, // unsigned, 4 bytes
    1, 108, 108, 255, 255, 255, 255, 255, 255, 255, 254, // signed, 8 bytes
    1, 115, 115, 255, 254, // signed, 2 bytes
    1, 116, 116, 1, // a truth value
    1, 117, 117, 1, 2, // unsigned, 2 bytes
    1, 120, 120, 0, 0, 0, 1, 98, // a byte array
];

/// That table with one byte changed.
pub const CHANGED: [Changed; 21] = [
    (0, 0, Ok((126, true, true))),
    // a key that is above the one before it, the same, and below
    (119, 121, Ok((126, true, true))),
    (119, 117, Ok((126, false, true))),
    (119, 116, Ok((126, false, true))),
    (13, 65, Ok((126, false, true))),
    (13, 64, Ok((126, false, true))),
    // a truth value, in the table and one deeper
    (112, 0, Ok((126, true, true))),
    (112, 2, Ok((126, false, true))),
    (34, 0, Ok((126, true, true))),
    (34, 2, Ok((126, false, true))),
    // the two tag bytes that are read and never written
    (106, 85, Ok((126, false, true))),
    (95, 76, Ok((126, false, true))),
    // lengths: of the entries, of a key, of an array, of a table and of a byte array
    (3, 123, Err(ParserError::Incomplete)),
    (3, 121, Err(ParserError::ShortPayload)),
    (118, 9, Err(ParserError::ShortPayload)),
    (10, 255, Err(ParserError::ShortPayload)),
    (30, 255, Err(ParserError::ShortPayload)),
    // a tag that names no kind, in the table and in the array
    (63, 90, Err(ParserError::UnknownTag)),
    (11, 90, Err(ParserError::UnknownTag)),
    // keys that are not UTF-8, in the table and one deeper
    (119, 255, Err(ParserError::NotUtf8)),
    (32, 255, Err(ParserError::NotUtf8)),
];

pub const WHOLE: [Whole; 13] = [
    (Value(64), &[116, 9, 7], Ok((2, false, true))),
    (Array(63), &[0, 0, 0, 3, 86, 116, 1, 7], Ok((7, true, true))),
    (Value(0), &[65, 0, 0, 0, 0], Err(ParserError::TooDeep)),
    (Value(0), &[], Err(ParserError::Incomplete)),
    // a fault after keys that are not in ascending order
    (
        Table(63),
        &[0, 0, 0, 9, 1, 98, 116, 1, 1, 97, 116, 0, 1],
        Err(ParserError::ShortPayload),
    ),
    (
        Table(0),
        &[0, 0, 0, 7, 1, 97, 70, 0, 0, 0, 0],
        Err(ParserError::TooDeep),
    ),
    (
        Table(1),
        &[0, 0, 0, 7, 1, 97, 70, 0, 0, 0, 0],
        Ok((11, true, true)),
    ),
    // a length comes before what stands inside it, a key before its tag, and a tag before the room
    (
        Table(63),
        &[0, 0, 0, 5, 1, 255, 90, 1],
        Err(ParserError::Incomplete),
    ),
    (
        Table(63),
        &[0, 0, 0, 4, 1, 255, 90, 1],
        Err(ParserError::NotUtf8),
    ),
    (
        Table(0),
        &[0, 0, 0, 3, 1, 97, 90],
        Err(ParserError::UnknownTag),
    ),
    (
        Table(0),
        &[0, 0, 0, 3, 1, 97, 70],
        Err(ParserError::TooDeep),
    ),
    (
        Table(1),
        &[0, 0, 0, 3, 1, 97, 70],
        Err(ParserError::ShortPayload),
    ),
    (Table(63), &[0, 0, 0], Err(ParserError::Incomplete)),
];
