//! Why text was not read.

use amqp_types::NoMemory;
use std::alloc::{AllocError, AllocFailed};
use std::error::Error;
use std::fmt;

/// Why a line was not read.
#[derive(Clone, Copy, Debug, PartialEq, Eq)]
pub enum TextError {
    /// The text is the line of no frame.
    BadText,

    /// Out of memory.
    NoMemory,
}

impl TextError {
    ghost use Rattle.std.specs.Prelude.{◌≡◌};
    ghost use Rattle.amqp_lines.specs.Errors.{text_error_name};

    /// The variant's name.
    pub fn name(&self) -> &'static str
        ensures { result.now ≡ text_error_name self.now }
    {
        match self {
            TextError::BadText => "BadText",
            TextError::NoMemory => "NoMemory",
        }
    }
}

impl fmt::Display for TextError {
    ghost use Rattle.std.specs.Prelude.{Some};
    ghost use Rattle.amqp_lines.specs.Errors.{text_error_name};

    ghost output = { λ error. Some (text_error_name error) };

    fn fmt<W: fmt::Write>(&self, f: &mut fmt::Formatter<W>) -> fmt::Result {
        f.write_str(self.name())
    }
}

impl Error for TextError {}

impl From<NoMemory> for TextError {
    ghost use Rattle.std.specs.Prelude.{◌≡◌};
    ghost use Rattle.amqp_lines.specs.declared.errors.TextError.TheVariants as texts;

    ghost from_gives = { λ _ error. error ≡ texts.NoMemory };

    fn from(_error: NoMemory) -> TextError {
        TextError::NoMemory
    }
}

impl From<AllocError> for TextError {
    ghost use Rattle.std.specs.Prelude.{◌≡◌};
    ghost use Rattle.amqp_lines.specs.declared.errors.TextError.TheVariants as texts;

    ghost from_gives = { λ _ error. error ≡ texts.NoMemory };

    fn from(_error: AllocError) -> TextError {
        TextError::NoMemory
    }
}

impl<T: Drop> From<AllocFailed<T>> for TextError {
    ghost use Rattle.std.specs.Prelude.{◌≡◌};
    ghost use Rattle.amqp_lines.specs.declared.errors.TextError.TheVariants as texts;

    ghost from_gives = { λ _ error. error ≡ texts.NoMemory };

    fn from(_error: AllocFailed<T>) -> TextError {
        TextError::NoMemory
    }
}

/// Why a stream of lines was not read to its end.
#[derive(Clone, Copy, Debug, PartialEq, Eq)]
pub enum UndumpError {
    /// A line that is that of no frame within the limit.
    BadText,

    /// The input ends inside a line.
    CutShort,

    /// The read budget is used up before the end of input.
    TurnsSpent,

    /// A read failed.
    ReadFault,

    /// A write failed.
    WriteFault,

    /// Out of memory.
    NoMemory,
}

impl UndumpError {
    ghost use Rattle.std.specs.Prelude.{◌≡◌};
    ghost use Rattle.amqp_lines.specs.Errors.{undump_error_name, undump_error_status};

    /// The variant's name.
    pub fn name(&self) -> &'static str
        ensures { result.now ≡ undump_error_name self.now }
    {
        match self {
            UndumpError::BadText => "BadText",
            UndumpError::CutShort => "CutShort",
            UndumpError::TurnsSpent => "TurnsSpent",
            UndumpError::ReadFault => "ReadFault",
            UndumpError::WriteFault => "WriteFault",
            UndumpError::NoMemory => "NoMemory",
        }
    }

    /// The exit status of a program that ends with this error.
    pub fn status(&self) -> u8
        ensures { result ≡ undump_error_status self.now }
    {
        match self {
            UndumpError::BadText => 26,
            UndumpError::CutShort => 21,
            UndumpError::TurnsSpent => 22,
            UndumpError::ReadFault => 4,
            UndumpError::WriteFault => 5,
            UndumpError::NoMemory => 3,
        }
    }
}

impl fmt::Display for UndumpError {
    ghost use Rattle.std.specs.Prelude.{Some};
    ghost use Rattle.amqp_lines.specs.Errors.{undump_error_name};

    ghost output = { λ error. Some (undump_error_name error) };

    fn fmt<W: fmt::Write>(&self, f: &mut fmt::Formatter<W>) -> fmt::Result {
        f.write_str(self.name())
    }
}

impl Error for UndumpError {}
