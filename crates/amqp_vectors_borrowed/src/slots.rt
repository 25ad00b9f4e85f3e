//! Fields of each shape, and what is returned when they are decoded.

use crate::judging::Call::{Flags, Skipped};
use crate::judging::{Changed, Whole};
use amqp_canonical::Slot::{Kept, Reserved};
use amqp_canonical::{Form, Slot};
use amqp_types::ParserError;

/// A field of each shape.
pub const SHAPES: [Slot; 13] = [
    Kept(Form::Octet),
    Kept(Form::Short),
    Kept(Form::Long),
    Kept(Form::LongLong),
    Kept(Form::Flags(3)),
    Kept(Form::ShortString),
    Kept(Form::LongString),
    Kept(Form::Table),
    Reserved(Form::Short, &[0, 1]),
    Reserved(Form::Long, &[0, 0, 0, 7]),
    Reserved(Form::Flags(1), &[0]),
    Reserved(Form::ShortString, &[0]),
    Reserved(Form::LongString, &[0, 0, 0, 0]),
];

/// Such fields, as they are written, and one byte more.
pub const BYTES: [u8; 44] = [
    1, // a number of 1 byte
    0, 2, // 2 bytes
    0, 0, 0, 3, // 4 bytes
    0, 0, 0, 0, 0, 0, 0, 4, // 8 bytes
    5, // three flags
    1, 97, // a short string
    0, 0, 0, 1, 98, // a long string
    0, 0, 0, 4, 1, 99, 116, 1, // a table, which holds a truth value
    0, 1, // reserved: a number of 2 bytes
    0, 0, 0, 7, // 4 bytes
    0, // a flag
    0, // a short string
    0, 0, 0, 0, // a long string
    9, // what follows
];

/// These with one byte changed.
pub const CHANGED: [Changed; 21] = [
    (0, 9, Ok((43, true, true))),
    (15, 7, Ok((43, true, true))),
    (17, 122, Ok((43, true, true))),
    (30, 0, Ok((43, true, true))),
    // a truth byte that is not written
    (30, 2, Ok((43, false, true))),
    // unused bits of flags
    (15, 8, Ok((43, false, false))),
    (15, 133, Ok((43, false, false))),
    (37, 2, Ok((43, false, false))),
    // reserved fields that do not hold their constants
    (31, 1, Ok((43, false, false))),
    (32, 0, Ok((43, false, false))),
    (36, 8, Ok((43, false, false))),
    (37, 1, Ok((43, false, false))),
    // lengths: of a short string, a long string and a table
    (16, 255, Err(ParserError::Incomplete)),
    (18, 1, Err(ParserError::Incomplete)),
    (23, 1, Err(ParserError::Incomplete)),
    (26, 3, Err(ParserError::ShortPayload)),
    // of reserved strings, which are skipped
    (38, 6, Err(ParserError::Incomplete)),
    (39, 1, Err(ParserError::Incomplete)),
    // strings and keys that are not UTF-8
    (17, 255, Err(ParserError::NotUtf8)),
    (28, 255, Err(ParserError::NotUtf8)),
    (29, 90, Err(ParserError::UnknownTag)),
];

/// Two reserved fields of any length, and one after them.
pub const SKIPPED: [Slot; 3] = [
    Reserved(Form::ShortString, &[0]),
    Reserved(Form::LongString, &[0, 0, 0, 0]),
    Kept(Form::Octet),
];

pub const WHOLE: [Whole; 7] = [
    // what comes after a field that is not tidy is decoded
    (
        Skipped,
        &[1, 97, 0, 0, 0, 2, 255, 254, 3, 4],
        Ok((9, false, false)),
    ),
    (Skipped, &[1, 255, 0, 0, 0, 0, 3], Err(ParserError::NotUtf8)),
    (Skipped, &[0, 0, 0, 0, 0], Err(ParserError::Incomplete)),
    // all bits of a byte are flags where there are eight flags or more, and none where there are no flags
    (Flags(0), &[0], Ok((1, true, true))),
    (Flags(0), &[1], Ok((1, false, false))),
    (Flags(8), &[255], Ok((1, true, true))),
    (Flags(9), &[255], Ok((1, true, true))),
];
