//! The statuses that calls return, and their names.

ghost use Rattle.std.specs.Prelude.{◌≡◌, None};
ghost use Rattle.amqp_c.specs.Statuses.{WritesName, call_error_at};
ghost use Rattle.amqp_c.specs.Statuses.{call_error_name, call_error_status, decoding_error};

use amqp_stream::StreamError;
use amqp_types::{ParserError, put_bytes};

/// A frame may not come next on its channel.
pub const BAD_CONTENT: u8 = 24;

/// The input ends inside a message.
pub const OPEN_CONTENT: u8 = 25;

/// A line is the line of no frame.
pub const BAD_TEXT: u8 = 26;

/// The buffer is too short for what is written.
pub const BUFFER_TOO_SMALL: u8 = 40;

/// An argument is none of those that are allowed.
pub const BAD_ARGUMENT: u8 = 41;

/// A short string to be written is longer than 255 bytes, which is what its length can say.
pub const TOO_LONG: u8 = 42;

/// Why a call did not come to the end of its bytes.
#[derive(Clone, Copy, Debug, PartialEq, Eq)]
pub enum CallError {
    /// A stream of these bytes would end so.
    Stream(StreamError),

    /// A frame may not come next on its channel.
    BadContent,

    /// The input ends inside a message. No call returns it: it is for callers that read streams of messages.
    OpenContent,

    /// A line is the line of no frame.
    BadText,

    /// The buffer is too short for what is written.
    BufferTooSmall,

    /// An argument is none of those that are allowed.
    BadArgument,

    /// A short string to be written is longer than 255 bytes.
    TooLong,
}

/// The error of a stream for one of a frame, or of what stands in a table or an array.
pub(crate) fn decoding_error(error: ParserError) -> StreamError
    ensures { result ≡ decoding_error error }
{
    match error {
        ParserError::Incomplete => StreamError::CutShort,
        ParserError::UnknownFrameType => StreamError::UnknownFrameType,
        ParserError::BadProtocolHeader => StreamError::BadProtocolHeader,
        ParserError::BadFrameEnd => StreamError::BadFrameEnd,
        ParserError::UnknownClass => StreamError::UnknownClass,
        ParserError::UnknownMethod => StreamError::UnknownMethod,
        ParserError::ShortPayload => StreamError::ShortPayload,
        ParserError::TrailingBytes => StreamError::TrailingBytes,
        ParserError::NotUtf8 => StreamError::NotUtf8,
        ParserError::UnknownTag => StreamError::UnknownTag,
        ParserError::TooDeep => StreamError::TooDeep,
        ParserError::NoMemory => StreamError::NoMemory,
    }
}

/// The variant's name.
fn name_of(error: CallError) -> &'static str
    ensures { result.now ≡ call_error_name error }
{
    match error {
        CallError::Stream(error) => error.name(),
        CallError::BadContent => "BadContent",
        CallError::OpenContent => "OpenContent",
        CallError::BadText => "BadText",
        CallError::BufferTooSmall => "BufferTooSmall",
        CallError::BadArgument => "BadArgument",
        CallError::TooLong => "TooLong",
    }
}

/// The error that has a status.
fn error_with(status: u8) -> Option<CallError>
    ensures { result ≡ call_error_at status }
{
    let error = match status {
        3 => StreamError::NoMemory,
        4 => StreamError::ReadFault,
        5 => StreamError::WriteFault,
        10 => StreamError::UnknownFrameType,
        11 => StreamError::BadProtocolHeader,
        12 => StreamError::TooLarge,
        13 => StreamError::BadFrameEnd,
        14 => StreamError::UnknownClass,
        15 => StreamError::UnknownMethod,
        16 => StreamError::ShortPayload,
        17 => StreamError::TrailingBytes,
        18 => StreamError::NotUtf8,
        19 => StreamError::UnknownTag,
        20 => StreamError::TooDeep,
        21 => StreamError::CutShort,
        22 => StreamError::TurnsSpent,
        23 => StreamError::NotTidy,
        BAD_CONTENT => return Some(CallError::BadContent),
        OPEN_CONTENT => return Some(CallError::OpenContent),
        BAD_TEXT => return Some(CallError::BadText),
        BUFFER_TOO_SMALL => return Some(CallError::BufferTooSmall),
        BAD_ARGUMENT => return Some(CallError::BadArgument),
        TOO_LONG => return Some(CallError::TooLong),
        _ => return None,
    };
    Some(CallError::Stream(error))
}

/// Writes the name of a status at the front of a buffer where it fits, and returns its length, which is at most 17; 0
/// where the status is no error's.
#[unsafe(no_mangle)]
pub extern "C" fn feksroum_name(status: u8, out: &mut [u8]) -> usize
    ensures named { (error : CallError) → call_error_status error ≡ status
        → WritesName (call_error_name error) out.old out.new result }
    ensures none { call_error_at status ≡ None → (result ≡ 0) × (out.new ≡ out.old) }
{
    let Some(error) = error_with(status) else {
        return 0;
    };
    let name = name_of(error).as_bytes();
    if name.len() <= out.len() {
        put_bytes(out, 0, name);
    }
    name.len()
}
