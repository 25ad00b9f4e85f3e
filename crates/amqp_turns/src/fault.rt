//! Why a frame of a channel is not in turn.

use std::error::Error;
use std::fmt;

/// Why a frame of a channel is not in turn.
#[derive(Clone, Copy, Debug, PartialEq, Eq)]
pub enum ContentFault {
    /// A method inside a message.
    UnexpectedMethod,

    /// A content header that no method announced, or a second one.
    UnexpectedHeader,

    /// A body before the content header, or outside of a message.
    UnexpectedBody,

    /// A content header of a class other than 60, basic.
    WrongClass,

    /// A content header that announces more bytes than are allowed.
    BodyTooLarge,

    /// A body that goes beyond the size in the content header.
    BodyOverrun,

    /// An earlier frame of the channel was not in turn.
    Faulted,
}

impl ContentFault {
    ghost use Rattle.std.specs.Prelude.{◌≡◌};
    ghost use Rattle.amqp_turns.specs.Faults.{fault_name, fault_number};

    /// The variant's number, from 1 on.
    pub fn number(&self) -> u8
        ensures { result ≡ fault_number self.now }
    {
        match self {
            ContentFault::UnexpectedMethod => 1,
            ContentFault::UnexpectedHeader => 2,
            ContentFault::UnexpectedBody => 3,
            ContentFault::WrongClass => 4,
            ContentFault::BodyTooLarge => 5,
            ContentFault::BodyOverrun => 6,
            ContentFault::Faulted => 7,
        }
    }

    /// The variant's name.
    pub fn name(&self) -> &'static str
        ensures { result.now ≡ fault_name self.now }
    {
        match self {
            ContentFault::UnexpectedMethod => "UnexpectedMethod",
            ContentFault::UnexpectedHeader => "UnexpectedHeader",
            ContentFault::UnexpectedBody => "UnexpectedBody",
            ContentFault::WrongClass => "WrongClass",
            ContentFault::BodyTooLarge => "BodyTooLarge",
            ContentFault::BodyOverrun => "BodyOverrun",
            ContentFault::Faulted => "Faulted",
        }
    }
}

impl fmt::Display for ContentFault {
    ghost use Rattle.std.specs.Prelude.{Some};
    ghost use Rattle.amqp_turns.specs.Faults.{fault_name};

    ghost output = { λ fault. Some (fault_name fault) };

    fn fmt<W: fmt::Write>(&self, f: &mut fmt::Formatter<W>) -> fmt::Result {
        f.write_str(self.name())
    }
}

impl Error for ContentFault {}
