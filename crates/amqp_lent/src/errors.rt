//! Why a stream was not canonicalized by a codec that takes no memory.

use amqp_stream::StreamError;
use std::error::Error;
use std::fmt;

/// Why a stream was not canonicalized to its end, where no memory is taken.
#[derive(Clone, Copy, Debug, PartialEq, Eq)]
pub enum LentError {
    /// The first byte of a frame names no frame type.
    UnknownFrameType,

    /// A protocol header that does not begin with `AMQP` and 0.
    BadProtocolHeader,

    /// A payload above the limit.
    TooLarge,

    /// The byte after a payload is not 206.
    BadFrameEnd,

    /// A whole method whose class id names no class.
    UnknownClass,

    /// A whole method that its class does not have.
    UnknownMethod,

    /// Something passes the end of a whole payload, or of a table or an array in it.
    ShortPayload,

    /// Bytes are left after the last field of a whole payload.
    TrailingBytes,

    /// A short string in a whole payload that is not UTF-8.
    NotUtf8,

    /// A field tag in a whole payload that names no type.
    UnknownTag,

    /// Tables or arrays in a whole payload nested more than 64 deep.
    TooDeep,

    /// The source ended inside a frame.
    CutShort,

    /// A further read is needed, and the read budget is spent.
    TurnsSpent,

    /// A read failed.
    ReadFault,

    /// A write failed.
    WriteFault,
}

impl LentError {
    ghost use Rattle.std.specs.Prelude.{◌≡◌};
    ghost use Rattle.amqp_stream.specs.Errors.{stream_error_name, stream_error_status};
    ghost use Rattle.amqp_lent.specs.Errors.{codec_error};

    /// The error of a stream with the same cause.
    fn as_stream(&self) -> StreamError
        ensures { result ≡ codec_error self.now }
    {
        match self {
            LentError::UnknownFrameType => StreamError::UnknownFrameType,
            LentError::BadProtocolHeader => StreamError::BadProtocolHeader,
            LentError::TooLarge => StreamError::TooLarge,
            LentError::BadFrameEnd => StreamError::BadFrameEnd,
            LentError::UnknownClass => StreamError::UnknownClass,
            LentError::UnknownMethod => StreamError::UnknownMethod,
            LentError::ShortPayload => StreamError::ShortPayload,
            LentError::TrailingBytes => StreamError::TrailingBytes,
            LentError::NotUtf8 => StreamError::NotUtf8,
            LentError::UnknownTag => StreamError::UnknownTag,
            LentError::TooDeep => StreamError::TooDeep,
            LentError::CutShort => StreamError::CutShort,
            LentError::TurnsSpent => StreamError::TurnsSpent,
            LentError::ReadFault => StreamError::ReadFault,
            LentError::WriteFault => StreamError::WriteFault,
        }
    }

    /// The variant's name.
    pub fn name(&self) -> &'static str
        ensures { result.now ≡ stream_error_name (codec_error self.now) }
    {
        self.as_stream().name()
    }

    /// The exit status of a program that ends with it.
    pub fn status(&self) -> u8
        ensures { result ≡ stream_error_status (codec_error self.now) }
    {
        self.as_stream().status()
    }
}

impl fmt::Display for LentError {
    ghost use Rattle.std.specs.Prelude.{Some};
    ghost use Rattle.amqp_stream.specs.Errors.{stream_error_name};
    ghost use Rattle.amqp_lent.specs.Errors.{codec_error};

    ghost output = { λ error. Some (stream_error_name (codec_error error)) };

    fn fmt<W: fmt::Write>(&self, f: &mut fmt::Formatter<W>) -> fmt::Result {
        f.write_str(self.name())
    }
}

impl Error for LentError {}

impl From<LentError> for StreamError {
    ghost use Rattle.std.specs.Prelude.{◌≡◌};
    ghost use Rattle.amqp_lent.specs.Errors.{codec_error};

    ghost from_gives = { λ lent error. error ≡ codec_error lent };

    fn from(error: LentError) -> StreamError {
        error.as_stream()
    }
}
