//! A status: why a program ended, or what a call returned other than 0.

use std::fmt;

/// Why a program ended, or what a call returned other than 0. Statuses from 40 on are of calls alone, and 1, 2, 6 and 7 of the
/// program alone.
#[derive(Clone, Copy, Debug, PartialEq, Eq)]
pub enum Status {
    /// The arguments cannot be had from the system.
    ArgumentsUnavailable,

    /// Invalid arguments.
    InvalidArguments,

    /// Out of memory.
    NoMemory,

    /// A read failed.
    ReadFault,

    /// A write failed.
    WriteFault,

    /// More than 16,777,216 bytes of text.
    LongText,

    /// The text, but for one newline at its end, is not an even number of hex digits.
    BadHex,

    /// The first byte of a frame is none of 1, 2, 3, 8 and 65.
    UnknownFrameType,

    /// A frame begins as a protocol header and is none.
    BadProtocolHeader,

    /// A payload is longer than the limit.
    TooLarge,

    /// The byte after the payload is not 206.
    BadFrameEnd,

    /// A method of no class.
    UnknownClass,

    /// A method that its class does not have.
    UnknownMethod,

    /// Something passes the end of the payload, or of a table or an array in it.
    ShortPayload,

    /// Bytes are left after the last field of a payload.
    TrailingBytes,

    /// A short string is not UTF-8.
    NotUtf8,

    /// A field tag of no kind of value.
    UnknownTag,

    /// Tables or arrays nest more than 64 deep.
    TooDeep,

    /// The input ends inside a frame, or inside a line.
    CutShort,

    /// As many reads as were allowed were made.
    TurnsSpent,

    /// A frame whose ignored parts are not canonical.
    NotTidy,

    /// A frame that may not come next on its channel.
    BadContent,

    /// The input ends inside a message.
    OpenContent,

    /// A line is not the exact text form of any frame with a payload within the limit.
    BadText,

    /// The buffer is too short for what is written.
    BufferTooSmall,

    /// A number names none of what is asked for.
    BadArgument,

    /// A short string has more than 255 bytes, or what fills a table or an array more than 2^32 - 1.
    TooLong,
}

impl Status {
    ghost use Rattle.std.specs.Prelude.{◌≡◌, Some, IfSome};
    ghost use Rattle.amqp_statuses.specs.Statuses.{status_name, status_number, status_sentence};

    /// The status of a number, `None` where it has none: 0, and what is kept for later.
    pub fn from_number(number: u8) -> Option<Status>
        ensures found { (status : Status) → status_number status ≡ number → result ≡ Some status }
        ensures none_else { IfSome result (λ status. status_number status ≡ number) }
    {
        let status = match number {
            1 => Status::ArgumentsUnavailable,
            2 => Status::InvalidArguments,
            3 => Status::NoMemory,
            4 => Status::ReadFault,
            5 => Status::WriteFault,
            6 => Status::LongText,
            7 => Status::BadHex,
            10 => Status::UnknownFrameType,
            11 => Status::BadProtocolHeader,
            12 => Status::TooLarge,
            13 => Status::BadFrameEnd,
            14 => Status::UnknownClass,
            15 => Status::UnknownMethod,
            16 => Status::ShortPayload,
            17 => Status::TrailingBytes,
            18 => Status::NotUtf8,
            19 => Status::UnknownTag,
            20 => Status::TooDeep,
            21 => Status::CutShort,
            22 => Status::TurnsSpent,
            23 => Status::NotTidy,
            24 => Status::BadContent,
            25 => Status::OpenContent,
            26 => Status::BadText,
            40 => Status::BufferTooSmall,
            41 => Status::BadArgument,
            42 => Status::TooLong,
            _ => return None,
        };
        Some(status)
    }

    /// Its number, as programs end with it.
    pub fn number(self) -> u8
        ensures { result ≡ status_number self }
    {
        match self {
            Status::ArgumentsUnavailable => 1,
            Status::InvalidArguments => 2,
            Status::NoMemory => 3,
            Status::ReadFault => 4,
            Status::WriteFault => 5,
            Status::LongText => 6,
            Status::BadHex => 7,
            Status::UnknownFrameType => 10,
            Status::BadProtocolHeader => 11,
            Status::TooLarge => 12,
            Status::BadFrameEnd => 13,
            Status::UnknownClass => 14,
            Status::UnknownMethod => 15,
            Status::ShortPayload => 16,
            Status::TrailingBytes => 17,
            Status::NotUtf8 => 18,
            Status::UnknownTag => 19,
            Status::TooDeep => 20,
            Status::CutShort => 21,
            Status::TurnsSpent => 22,
            Status::NotTidy => 23,
            Status::BadContent => 24,
            Status::OpenContent => 25,
            Status::BadText => 26,
            Status::BufferTooSmall => 40,
            Status::BadArgument => 41,
            Status::TooLong => 42,
        }
    }

    /// Its name, empty where it has none: at most 17 bytes.
    pub fn name(self) -> &'static str
        ensures { result.now ≡ status_name self }
    {
        match self {
            Status::ArgumentsUnavailable => "",
            Status::InvalidArguments => "",
            Status::NoMemory => "NoMemory",
            Status::ReadFault => "ReadFault",
            Status::WriteFault => "WriteFault",
            Status::LongText => "",
            Status::BadHex => "BadHex",
            Status::UnknownFrameType => "UnknownFrameType",
            Status::BadProtocolHeader => "BadProtocolHeader",
            Status::TooLarge => "TooLarge",
            Status::BadFrameEnd => "BadFrameEnd",
            Status::UnknownClass => "UnknownClass",
            Status::UnknownMethod => "UnknownMethod",
            Status::ShortPayload => "ShortPayload",
            Status::TrailingBytes => "TrailingBytes",
            Status::NotUtf8 => "NotUtf8",
            Status::UnknownTag => "UnknownTag",
            Status::TooDeep => "TooDeep",
            Status::CutShort => "CutShort",
            Status::TurnsSpent => "TurnsSpent",
            Status::NotTidy => "NotTidy",
            Status::BadContent => "BadContent",
            Status::OpenContent => "OpenContent",
            Status::BadText => "BadText",
            Status::BufferTooSmall => "BufferTooSmall",
            Status::BadArgument => "BadArgument",
            Status::TooLong => "TooLong",
        }
    }

    /// What it says, in one sentence without a period: at most 95 bytes of ASCII.
    pub fn sentence(self) -> &'static str
        ensures { result.now ≡ status_sentence self }
    {
        match self {
            Status::ArgumentsUnavailable => "the arguments cannot be had from the system",
            Status::InvalidArguments => "invalid arguments",
            Status::NoMemory => "out of memory",
            Status::ReadFault => "a read failed",
            Status::WriteFault => "a write failed",
            Status::LongText => "more than 16,777,216 bytes of text",
            Status::BadHex => {
                "the text, but for one newline at its end, is not an even number of hex digits"
            }
            Status::UnknownFrameType => "the first byte of a frame is none of 1, 2, 3, 8 and 65",
            Status::BadProtocolHeader => "a frame begins as a protocol header and is none",
            Status::TooLarge => "a payload is longer than the limit",
            Status::BadFrameEnd => "the byte after the payload is not 206",
            Status::UnknownClass => "a method of no class",
            Status::UnknownMethod => "a method that its class does not have",
            Status::ShortPayload => {
                "something passes the end of the payload, or of a table or an array in it"
            }
            Status::TrailingBytes => "bytes are left after the last field of a payload",
            Status::NotUtf8 => "a short string is not UTF-8",
            Status::UnknownTag => "a field tag of no kind of value",
            Status::TooDeep => "tables or arrays nest more than 64 deep",
            Status::CutShort => "the input ends inside a frame, or inside a line",
            Status::TurnsSpent => "as many reads as were allowed were made",
            Status::NotTidy => "a frame whose ignored parts are not canonical",
            Status::BadContent => "a frame that may not come next on its channel",
            Status::OpenContent => "the input ends inside a message",
            Status::BadText => {
                "a line is not the exact text form of any frame with a payload within the limit"
            }
            Status::BufferTooSmall => "the buffer is too short for what is written",
            Status::BadArgument => "a number names none of what is asked for",
            Status::TooLong => {
                "a short string has more than 255 bytes, or what fills a table or an array more than 2^32 - 1"
            }
        }
    }
}

impl fmt::Display for Status {
    ghost use Rattle.std.specs.Prelude.{Some};
    ghost use Rattle.amqp_statuses.specs.Statuses.{status_sentence};

    ghost output = { λ status. Some (status_sentence status) };

    /// Writes its sentence.
    fn fmt<W: fmt::Write>(&self, f: &mut fmt::Formatter<W>) -> fmt::Result {
        f.write_str(self.sentence())
    }
}
