//! Why a value was not made, decoded or encoded.

use std::alloc::{AllocError, AllocFailed};
use std::error::Error;
use std::fmt;

/// Out of memory.
#[derive(Clone, Copy, Debug, PartialEq, Eq)]
pub struct NoMemory;

impl fmt::Display for NoMemory {
    ghost use Rattle.std.specs.Prelude.{Some, codes};

    ghost output = { λ _. Some (codes "NoMemory") };

    fn fmt<W: fmt::Write>(&self, f: &mut fmt::Formatter<W>) -> fmt::Result {
        f.write_str("NoMemory")
    }
}

impl Error for NoMemory {}

impl From<AllocError> for NoMemory {
    fn from(_error: AllocError) -> NoMemory {
        NoMemory
    }
}

impl<T: Drop> From<AllocFailed<T>> for NoMemory {
    fn from(_error: AllocFailed<T>) -> NoMemory {
        NoMemory
    }
}

/// Why bytes were not decoded.
#[derive(Clone, Copy, Debug, PartialEq, Eq)]
pub enum ParserError {
    /// The input ends inside what is decoded.
    Incomplete,

    /// The first byte of a frame names no frame type.
    UnknownFrameType,

    /// A protocol header that does not begin with `AMQP` and 0.
    BadProtocolHeader,

    /// The byte after a payload is not 206.
    BadFrameEnd,

    /// A class id that names no class.
    UnknownClass,

    /// A method id that names no method of its class.
    UnknownMethod,

    /// Something passes the end of what it stands in, whose bytes are all there.
    ShortPayload,

    /// Bytes are left after the last field of a payload.
    TrailingBytes,

    /// A short string that is not UTF-8.
    NotUtf8,

    /// A field tag that names no type.
    UnknownTag,

    /// Tables or arrays nested more than 64 deep.
    TooDeep,

    /// Out of memory.
    NoMemory,
}

impl ParserError {
    ghost use Rattle.std.specs.Prelude.{◌≡◌};
    ghost use Rattle.amqp_types.specs.Errors.{parser_error_name, parser_error_number};
    ghost use Rattle.amqp_types.specs.ValueJudging.{inside_error};

    /// The variant's number, from 1 on.
    pub fn number(&self) -> u8
        ensures { result ≡ parser_error_number self.now }
    {
        match self {
            ParserError::Incomplete => 1,
            ParserError::UnknownFrameType => 2,
            ParserError::BadProtocolHeader => 3,
            ParserError::BadFrameEnd => 4,
            ParserError::UnknownClass => 5,
            ParserError::UnknownMethod => 6,
            ParserError::ShortPayload => 7,
            ParserError::TrailingBytes => 8,
            ParserError::NotUtf8 => 9,
            ParserError::UnknownTag => 10,
            ParserError::TooDeep => 11,
            ParserError::NoMemory => 12,
        }
    }

    /// The variant's name.
    pub fn name(&self) -> &'static str
        ensures { result.now ≡ parser_error_name self.now }
    {
        match self {
            ParserError::Incomplete => "Incomplete",
            ParserError::UnknownFrameType => "UnknownFrameType",
            ParserError::BadProtocolHeader => "BadProtocolHeader",
            ParserError::BadFrameEnd => "BadFrameEnd",
            ParserError::UnknownClass => "UnknownClass",
            ParserError::UnknownMethod => "UnknownMethod",
            ParserError::ShortPayload => "ShortPayload",
            ParserError::TrailingBytes => "TrailingBytes",
            ParserError::NotUtf8 => "NotUtf8",
            ParserError::UnknownTag => "UnknownTag",
            ParserError::TooDeep => "TooDeep",
            ParserError::NoMemory => "NoMemory",
        }
    }

    /// The same refusal of what stands inside a payload, a table or an array whose bytes are all there: nothing is
    /// missing then, it is the inside that is too short.
    pub fn inside(self) -> ParserError
        ensures { result ≡ inside_error self }
    {
        match self {
            ParserError::Incomplete => ParserError::ShortPayload,
            error => error,
        }
    }
}

impl fmt::Display for ParserError {
    ghost use Rattle.std.specs.Prelude.{Some};
    ghost use Rattle.amqp_types.specs.Errors.{parser_error_name};

    ghost output = { λ error. Some (parser_error_name error) };

    fn fmt<W: fmt::Write>(&self, f: &mut fmt::Formatter<W>) -> fmt::Result {
        f.write_str(self.name())
    }
}

impl Error for ParserError {}

impl From<NoMemory> for ParserError {
    ghost use Rattle.std.specs.Prelude.{◌≡◌};
    ghost use Rattle.amqp_types.specs.declared.errors.ParserError.TheVariants as parser_errors;

    ghost from_gives = { λ _ error. error ≡ parser_errors.NoMemory };

    fn from(_error: NoMemory) -> ParserError {
        ParserError::NoMemory
    }
}

/// Why a value was not encoded.
#[derive(Clone, Copy, Debug, PartialEq, Eq)]
pub enum GenError {
    /// Tables or arrays nested more than 64 deep.
    TooDeep,

    /// A length that four bytes do not hold.
    TooLong,

    /// The slice is shorter than the bytes.
    BufferTooSmall,

    /// Out of memory.
    NoMemory,
}

impl GenError {
    ghost use Rattle.std.specs.Prelude.{◌≡◌};
    ghost use Rattle.amqp_types.specs.Errors.{gen_error_name, gen_error_number};

    /// The variant's number, from 1 on. The errors are tested in this order.
    pub fn number(&self) -> u8
        ensures { result ≡ gen_error_number self.now }
    {
        match self {
            GenError::TooDeep => 1,
            GenError::TooLong => 2,
            GenError::BufferTooSmall => 3,
            GenError::NoMemory => 4,
        }
    }

    /// The variant's name.
    pub fn name(&self) -> &'static str
        ensures { result.now ≡ gen_error_name self.now }
    {
        match self {
            GenError::TooDeep => "TooDeep",
            GenError::TooLong => "TooLong",
            GenError::BufferTooSmall => "BufferTooSmall",
            GenError::NoMemory => "NoMemory",
        }
    }
}

impl fmt::Display for GenError {
    ghost use Rattle.std.specs.Prelude.{Some};
    ghost use Rattle.amqp_types.specs.Errors.{gen_error_name};

    ghost output = { λ error. Some (gen_error_name error) };

    fn fmt<W: fmt::Write>(&self, f: &mut fmt::Formatter<W>) -> fmt::Result {
        f.write_str(self.name())
    }
}

impl Error for GenError {}

impl From<AllocError> for GenError {
    ghost use Rattle.std.specs.Prelude.{◌≡◌};
    ghost use Rattle.amqp_types.specs.declared.errors.GenError.TheVariants as gen_errors;

    ghost from_gives = { λ _ error. error ≡ gen_errors.NoMemory };

    fn from(_error: AllocError) -> GenError {
        GenError::NoMemory
    }
}
