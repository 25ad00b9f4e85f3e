//! Why a stream was not read, or not canonicalized.

use std::convert::Infallible;
use std::error::Error;
use std::fmt;

/// Why no frame was read.
#[derive(Clone, Copy, Debug, PartialEq, Eq)]
pub enum ReadError {
    /// The first byte of a frame names no frame type.
    UnknownFrameType,

    /// A protocol header that does not begin with `AMQP` and 0.
    BadProtocolHeader,

    /// A payload above the limit.
    TooLarge,

    /// The byte after a payload is not 206.
    BadFrameEnd,

    /// The source ended inside a frame.
    CutShort,

    /// A further read is needed, and the read budget is spent.
    TurnsSpent,

    /// A read failed.
    ReadFault,
}

impl ReadError {
    ghost use Rattle.std.specs.Prelude.{◌≡◌};
    ghost use Rattle.amqp_stream.specs.Errors.{read_error_name};

    /// The variant's name.
    pub fn name(&self) -> &'static str
        ensures { result.now ≡ read_error_name self.now }
    {
        match self {
            ReadError::UnknownFrameType => "UnknownFrameType",
            ReadError::BadProtocolHeader => "BadProtocolHeader",
            ReadError::TooLarge => "TooLarge",
            ReadError::BadFrameEnd => "BadFrameEnd",
            ReadError::CutShort => "CutShort",
            ReadError::TurnsSpent => "TurnsSpent",
            ReadError::ReadFault => "ReadFault",
        }
    }
}

impl fmt::Display for ReadError {
    ghost use Rattle.std.specs.Prelude.{Some};
    ghost use Rattle.amqp_stream.specs.Errors.{read_error_name};

    ghost output = { λ error. Some (read_error_name error) };

    fn fmt<W: fmt::Write>(&self, f: &mut fmt::Formatter<W>) -> fmt::Result {
        f.write_str(self.name())
    }
}

impl Error for ReadError {}

/// Why a stream was not canonicalized to its end.
#[derive(Clone, Copy, Debug, PartialEq, Eq)]
pub enum StreamError {
    /// The first byte of a frame names no frame type.
    UnknownFrameType,

    /// A protocol header that does not begin with `AMQP` and 0.
    BadProtocolHeader,

    /// A payload above the limit.
    TooLarge,

    /// The byte after a payload is not 206.
    BadFrameEnd,

    /// A whole method whose class id names no class.
    UnknownClass,

    /// A whole method whose class has no method of its id.
    UnknownMethod,

    /// Something passes the end of a whole payload, or of a table or array in it.
    ShortPayload,

    /// Bytes are left after the last field of a whole payload.
    TrailingBytes,

    /// A short string in a whole payload that is not UTF-8.
    NotUtf8,

    /// A field tag in a whole payload that names no type.
    UnknownTag,

    /// Tables or arrays in a whole payload nested more than 64 deep.
    TooDeep,

    /// A whole frame in which something that decoding drops is not canonical, where only tidy bytes are taken.
    NotTidy,

    /// The source ended inside a frame.
    CutShort,

    /// A further read is needed, and the read budget is spent.
    TurnsSpent,

    /// A read failed.
    ReadFault,

    /// A write failed.
    WriteFault,

    /// Out of memory.
    NoMemory,
}

impl StreamError {
    ghost use Rattle.std.specs.Prelude.{◌≡◌};
    ghost use Rattle.amqp_stream.specs.Errors.{stream_error_name, stream_error_status};

    /// The variant's name.
    pub fn name(&self) -> &'static str
        ensures { result.now ≡ stream_error_name self.now }
    {
        match self {
            StreamError::UnknownFrameType => "UnknownFrameType",
            StreamError::BadProtocolHeader => "BadProtocolHeader",
            StreamError::TooLarge => "TooLarge",
            StreamError::BadFrameEnd => "BadFrameEnd",
            StreamError::UnknownClass => "UnknownClass",
            StreamError::UnknownMethod => "UnknownMethod",
            StreamError::ShortPayload => "ShortPayload",
            StreamError::TrailingBytes => "TrailingBytes",
            StreamError::NotUtf8 => "NotUtf8",
            StreamError::UnknownTag => "UnknownTag",
            StreamError::TooDeep => "TooDeep",
            StreamError::NotTidy => "NotTidy",
            StreamError::CutShort => "CutShort",
            StreamError::TurnsSpent => "TurnsSpent",
            StreamError::ReadFault => "ReadFault",
            StreamError::WriteFault => "WriteFault",
            StreamError::NoMemory => "NoMemory",
        }
    }

    /// The exit status of a program that ends with it.
    pub fn status(&self) -> u8
        ensures { result ≡ stream_error_status self.now }
    {
        match self {
            StreamError::UnknownFrameType => 10,
            StreamError::BadProtocolHeader => 11,
            StreamError::TooLarge => 12,
            StreamError::BadFrameEnd => 13,
            StreamError::UnknownClass => 14,
            StreamError::UnknownMethod => 15,
            StreamError::ShortPayload => 16,
            StreamError::TrailingBytes => 17,
            StreamError::NotUtf8 => 18,
            StreamError::UnknownTag => 19,
            StreamError::TooDeep => 20,
            StreamError::NotTidy => 23,
            StreamError::CutShort => 21,
            StreamError::TurnsSpent => 22,
            StreamError::ReadFault => 4,
            StreamError::WriteFault => 5,
            StreamError::NoMemory => 3,
        }
    }
}

impl fmt::Display for StreamError {
    ghost use Rattle.std.specs.Prelude.{Some};
    ghost use Rattle.amqp_stream.specs.Errors.{stream_error_name};

    ghost output = { λ error. Some (stream_error_name error) };

    fn fmt<W: fmt::Write>(&self, f: &mut fmt::Formatter<W>) -> fmt::Result {
        f.write_str(self.name())
    }
}

impl Error for StreamError {}

impl From<ReadError> for StreamError {
    ghost use Rattle.std.specs.Prelude.{◌≡◌};
    ghost use Rattle.amqp_stream.specs.Errors.{stream_error};

    ghost from_gives = { λ read error. error ≡ stream_error read };

    fn from(error: ReadError) -> StreamError {
        match error {
            ReadError::UnknownFrameType => StreamError::UnknownFrameType,
            ReadError::BadProtocolHeader => StreamError::BadProtocolHeader,
            ReadError::TooLarge => StreamError::TooLarge,
            ReadError::BadFrameEnd => StreamError::BadFrameEnd,
            ReadError::CutShort => StreamError::CutShort,
            ReadError::TurnsSpent => StreamError::TurnsSpent,
            ReadError::ReadFault => StreamError::ReadFault,
        }
    }
}

/// An error that a program may end with: why a writer refuses is one.
pub trait ProgramError: Error {
    ghost use Rattle.std.specs.Prelude.{◌≡◌, ℕ, List};

    /// The error's name.
    ghost name_of: { Self → List ℕ };

    /// The exit status of a program that ends with it.
    ghost status_of: { Self → ℕ };

    /// The error's name.
    fn name(&self) -> &'static str
        ensures { result.now ≡ name_of self.now };

    /// The exit status of a program that ends with it.
    fn status(&self) -> u8
        ensures { result ≡ status_of self.now };
}

/// Why a run did not come to the end of its stream.
#[derive(Debug, Drop)]
pub enum RunError<R> {
    /// The stream ended early.
    Stream(StreamError),

    /// The writer refused a frame, or the end of input.
    Refused(R),
}

impl<R: ProgramError> RunError<R> {
    ghost use Rattle.std.specs.Prelude.{◌≡◌};
    ghost use Rattle.amqp_stream.specs.Errors.{run_error_name, run_error_status};

    /// The name of the stream's error, or of the refusal.
    pub fn name(&self) -> &'static str
        ensures { result.now ≡ run_error_name R.name_of self.now }
    {
        match self {
            RunError::Stream(error) => error.name(),
            RunError::Refused(why) => why.name(),
        }
    }

    /// The exit status of a program that ends with it.
    pub fn status(&self) -> u8
        ensures { result ≡ run_error_status R.status_of self.now }
    {
        match self {
            RunError::Stream(error) => error.status(),
            RunError::Refused(why) => why.status(),
        }
    }
}

impl<R: ProgramError> fmt::Display for RunError<R> {
    ghost use Rattle.std.specs.Prelude.{Some};
    ghost use Rattle.amqp_stream.specs.Errors.{run_error_name};

    ghost output = { λ error. Some (run_error_name R.name_of error) };

    fn fmt<W: fmt::Write>(&self, f: &mut fmt::Formatter<W>) -> fmt::Result {
        f.write_str(self.name())
    }
}

impl<R: ProgramError> Error for RunError<R> {}

/// Of a writer that refuses nothing.
impl fmt::Display for RunError<Infallible> {
    ghost use Rattle.std.specs.Prelude.{Some, []};
    ghost use Rattle.amqp_stream.specs.Errors.{run_error_name};

    ghost output = { λ error. Some (run_error_name (λ never. []) error) };

    fn fmt<W: fmt::Write>(&self, f: &mut fmt::Formatter<W>) -> fmt::Result {
        match self {
            RunError::Stream(error) => f.write_str(error.name()),
            RunError::Refused(never) => match *never {},
        }
    }
}

impl Error for RunError<Infallible> {}
