//! The numbers that frames are made with, and how deep tables and arrays nest.

use crate::aliases::ShortShortUInt;

/// The first byte of a protocol header, the letter `A` of `AMQP`.
pub const PROTOCOL_BYTE: ShortShortUInt = 65;

/// The first byte of a method frame.
pub const FRAME_METHOD: ShortShortUInt = 1;

/// The first byte of a content header frame.
pub const FRAME_HEADER: ShortShortUInt = 2;

/// The first byte of a content body frame.
pub const FRAME_BODY: ShortShortUInt = 3;

/// The first byte of a heartbeat frame.
pub const FRAME_HEARTBEAT: ShortShortUInt = 8;

/// The last byte of each frame but a protocol header.
pub const FRAME_END: ShortShortUInt = 206;

/// How many tables and arrays may stand one inside another.
pub const MAX_DEPTH: usize = 64;

/// How many may stand inside a field that is itself a table or an array.
pub const INNER_DEPTH: usize = MAX_DEPTH - 1;
