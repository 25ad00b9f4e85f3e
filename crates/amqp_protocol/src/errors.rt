//! The errors that a peer closes a channel or a connection with.

use amqp_types::{Identifier, NoMemory, ShortString};
use std::alloc::Global;
use std::error::Error;
use std::fmt;
use std::marker::Model;

/// An error that closes a channel, by its reply code (AMQP 0-9-1, section 1.2).
#[derive(Clone, Copy, Debug, PartialEq, Eq)]
pub enum AMQPSoftError {
    /// 311: the content is larger than the server takes.
    CONTENTTOOLARGE,

    /// 312, which is RabbitMQ's: a mandatory message reaches no queue.
    NOROUTE,

    /// 313: an immediate message reaches no consumer.
    NOCONSUMERS,

    /// 403: the client may not use this.
    ACCESSREFUSED,

    /// 404: there is nothing of this name.
    NOTFOUND,

    /// 405: another client is using this.
    RESOURCELOCKED,

    /// 406: what the method needs does not hold.
    PRECONDITIONFAILED,
}

impl AMQPSoftError {
    ghost use Rattle.std.specs.Prelude.{◌≡◌};
    ghost use Rattle.amqp_protocol.specs.ErrorCodes.{soft_code, soft_text, soft_at};

    /// The reply code.
    pub fn get_id(&self) -> Identifier
        ensures { result ≡ soft_code self.now }
    {
        match self {
            AMQPSoftError::CONTENTTOOLARGE => 311,
            AMQPSoftError::NOROUTE => 312,
            AMQPSoftError::NOCONSUMERS => 313,
            AMQPSoftError::ACCESSREFUSED => 403,
            AMQPSoftError::NOTFOUND => 404,
            AMQPSoftError::RESOURCELOCKED => 405,
            AMQPSoftError::PRECONDITIONFAILED => 406,
        }
    }

    /// The error of a reply code, if it has one.
    pub fn from_id(id: Identifier) -> Option<AMQPSoftError>
        ensures { result ≡ soft_at id }
    {
        match id {
            311 => Some(AMQPSoftError::CONTENTTOOLARGE),
            312 => Some(AMQPSoftError::NOROUTE),
            313 => Some(AMQPSoftError::NOCONSUMERS),
            403 => Some(AMQPSoftError::ACCESSREFUSED),
            404 => Some(AMQPSoftError::NOTFOUND),
            405 => Some(AMQPSoftError::RESOURCELOCKED),
            406 => Some(AMQPSoftError::PRECONDITIONFAILED),
            _ => None,
        }
    }

    /// The name of the code's constant, in capitals with hyphens.
    fn text(&self) -> &'static str
        ensures { result.now ≡ soft_text self.now }
    {
        match self {
            AMQPSoftError::CONTENTTOOLARGE => "CONTENT-TOO-LARGE",
            AMQPSoftError::NOROUTE => "NO-ROUTE",
            AMQPSoftError::NOCONSUMERS => "NO-CONSUMERS",
            AMQPSoftError::ACCESSREFUSED => "ACCESS-REFUSED",
            AMQPSoftError::NOTFOUND => "NOT-FOUND",
            AMQPSoftError::RESOURCELOCKED => "RESOURCE-LOCKED",
            AMQPSoftError::PRECONDITIONFAILED => "PRECONDITION-FAILED",
        }
    }
}

impl fmt::Display for AMQPSoftError {
    ghost use Rattle.std.specs.Prelude.{Some};
    ghost use Rattle.amqp_protocol.specs.ErrorCodes.{soft_text};

    ghost output = { λ error. Some (soft_text error) };

    fn fmt<W: fmt::Write>(&self, f: &mut fmt::Formatter<W>) -> fmt::Result {
        f.write_str(self.text())
    }
}

/// An error that closes a connection, by its reply code (AMQP 0-9-1, section 1.2).
#[derive(Clone, Copy, Debug, PartialEq, Eq)]
pub enum AMQPHardError {
    /// 320: an operator closes the connection.
    CONNECTIONFORCED,

    /// 402: there is no virtual host of this name.
    INVALIDPATH,

    /// 501: a frame that cannot be read.
    FRAMEERROR,

    /// 502: a frame that holds a field that is not allowed.
    SYNTAXERROR,

    /// 503: a method that is out of turn.
    COMMANDINVALID,

    /// 504: a channel that is not open, or is open already.
    CHANNELERROR,

    /// 505: a frame that is out of turn.
    UNEXPECTEDFRAME,

    /// 506: the server lacks the resources.
    RESOURCEERROR,

    /// 530: the client may not do this.
    NOTALLOWED,

    /// 540: the server does not have this method.
    NOTIMPLEMENTED,

    /// 541: the server has failed.
    INTERNALERROR,
}

impl AMQPHardError {
    ghost use Rattle.std.specs.Prelude.{◌≡◌};
    ghost use Rattle.amqp_protocol.specs.ErrorCodes.{hard_code, hard_text, hard_at};

    /// The reply code.
    pub fn get_id(&self) -> Identifier
        ensures { result ≡ hard_code self.now }
    {
        match self {
            AMQPHardError::CONNECTIONFORCED => 320,
            AMQPHardError::INVALIDPATH => 402,
            AMQPHardError::FRAMEERROR => 501,
            AMQPHardError::SYNTAXERROR => 502,
            AMQPHardError::COMMANDINVALID => 503,
            AMQPHardError::CHANNELERROR => 504,
            AMQPHardError::UNEXPECTEDFRAME => 505,
            AMQPHardError::RESOURCEERROR => 506,
            AMQPHardError::NOTALLOWED => 530,
            AMQPHardError::NOTIMPLEMENTED => 540,
            AMQPHardError::INTERNALERROR => 541,
        }
    }

    /// The error of a reply code, if it has one.
    pub fn from_id(id: Identifier) -> Option<AMQPHardError>
        ensures { result ≡ hard_at id }
    {
        match id {
            320 => Some(AMQPHardError::CONNECTIONFORCED),
            402 => Some(AMQPHardError::INVALIDPATH),
            501 => Some(AMQPHardError::FRAMEERROR),
            502 => Some(AMQPHardError::SYNTAXERROR),
            503 => Some(AMQPHardError::COMMANDINVALID),
            504 => Some(AMQPHardError::CHANNELERROR),
            505 => Some(AMQPHardError::UNEXPECTEDFRAME),
            506 => Some(AMQPHardError::RESOURCEERROR),
            530 => Some(AMQPHardError::NOTALLOWED),
            540 => Some(AMQPHardError::NOTIMPLEMENTED),
            541 => Some(AMQPHardError::INTERNALERROR),
            _ => None,
        }
    }

    /// The name of the code's constant, in capitals with hyphens.
    fn text(&self) -> &'static str
        ensures { result.now ≡ hard_text self.now }
    {
        match self {
            AMQPHardError::CONNECTIONFORCED => "CONNECTION-FORCED",
            AMQPHardError::INVALIDPATH => "INVALID-PATH",
            AMQPHardError::FRAMEERROR => "FRAME-ERROR",
            AMQPHardError::SYNTAXERROR => "SYNTAX-ERROR",
            AMQPHardError::COMMANDINVALID => "COMMAND-INVALID",
            AMQPHardError::CHANNELERROR => "CHANNEL-ERROR",
            AMQPHardError::UNEXPECTEDFRAME => "UNEXPECTED-FRAME",
            AMQPHardError::RESOURCEERROR => "RESOURCE-ERROR",
            AMQPHardError::NOTALLOWED => "NOT-ALLOWED",
            AMQPHardError::NOTIMPLEMENTED => "NOT-IMPLEMENTED",
            AMQPHardError::INTERNALERROR => "INTERNAL-ERROR",
        }
    }
}

impl fmt::Display for AMQPHardError {
    ghost use Rattle.std.specs.Prelude.{Some};
    ghost use Rattle.amqp_protocol.specs.ErrorCodes.{hard_text};

    ghost output = { λ error. Some (hard_text error) };

    fn fmt<W: fmt::Write>(&self, f: &mut fmt::Formatter<W>) -> fmt::Result {
        f.write_str(self.text())
    }
}

/// An error that closes a channel or a connection.
#[derive(Clone, Copy, Debug, PartialEq, Eq)]
pub enum AMQPErrorKind {
    /// It closes a channel.
    Soft(AMQPSoftError),

    /// It closes a connection.
    Hard(AMQPHardError),
}

impl AMQPErrorKind {
    ghost use Rattle.std.specs.Prelude.{◌≡◌};
    ghost use Rattle.amqp_protocol.specs.ErrorCodes.{kind_code, kind_at};

    /// The reply code.
    pub fn get_id(&self) -> Identifier
        ensures { result ≡ kind_code self.now }
    {
        match self {
            AMQPErrorKind::Soft(error) => error.get_id(),
            AMQPErrorKind::Hard(error) => error.get_id(),
        }
    }

    /// The error of a reply code, if it has one.
    pub fn from_id(id: Identifier) -> Option<AMQPErrorKind>
        ensures { result ≡ kind_at id }
    {
        if let Some(error) = AMQPSoftError::from_id(id) {
            return Some(AMQPErrorKind::Soft(error));
        }
        match AMQPHardError::from_id(id) {
            Some(error) => Some(AMQPErrorKind::Hard(error)),
            None => None,
        }
    }
}

impl fmt::Display for AMQPErrorKind {
    ghost use Rattle.std.specs.Prelude.{Some};
    ghost use Rattle.amqp_protocol.specs.ErrorCodes.{kind_text};

    ghost output = { λ kind. Some (kind_text kind) };

    fn fmt<W: fmt::Write>(&self, f: &mut fmt::Formatter<W>) -> fmt::Result {
        match self {
            AMQPErrorKind::Soft(error) => write!(f, "AMQP soft error: {error}"),
            AMQPErrorKind::Hard(error) => write!(f, "AMQP hard error: {error}"),
        }
    }
}

impl From<AMQPSoftError> for AMQPErrorKind {
    ghost use Rattle.std.specs.Prelude.{◌≡◌};
    ghost use Rattle.amqp_protocol.specs.declared.errors.AMQPErrorKind.TheVariants as kinds;

    ghost from_gives = { λ error kind. kind ≡ kinds.Soft error };

    fn from(error: AMQPSoftError) -> AMQPErrorKind {
        AMQPErrorKind::Soft(error)
    }
}

impl From<AMQPHardError> for AMQPErrorKind {
    ghost use Rattle.std.specs.Prelude.{◌≡◌};
    ghost use Rattle.amqp_protocol.specs.declared.errors.AMQPErrorKind.TheVariants as kinds;

    ghost from_gives = { λ error kind. kind ≡ kinds.Hard error };

    fn from(error: AMQPHardError) -> AMQPErrorKind {
        AMQPErrorKind::Hard(error)
    }
}

/// An error with the message that its sender gave.
#[derive(Debug, Drop, PartialEq)]
pub struct AMQPError {
    kind: AMQPErrorKind,
    message: ShortString,
}

impl Model for AMQPError {
    ghost use Rattle.amqp_protocol.specs.ErrorCodes.{ErrorWithMessage};

    ghost Value = { ErrorWithMessage };

    ghost view = { λ error. record { kind = error.kind; message = error.message } };

    ghost inverse = { λ value. record { kind = value.kind; message = value.message } };
}

impl AMQPError {
    ghost use Rattle.std.specs.Prelude.{◌≡◌, IfOk};
    ghost use Rattle.amqp_protocol.specs.ErrorCodes.{kind_code, kind_at, error_of};

    /// The error with a message.
    pub fn new(kind: AMQPErrorKind, message: ShortString) -> AMQPError
        ensures { result ≡ record { kind = kind; message = message } }
    {
        AMQPError { kind, message }
    }

    /// The error of a reply code, if it has one, with a message.
    pub fn from_id(id: Identifier, message: ShortString) -> Option<AMQPError>
        ensures { result ≡ error_of (kind_at id) message }
    {
        match AMQPErrorKind::from_id(id) {
            Some(kind) => Some(AMQPError::new(kind, message)),
            None => None,
        }
    }

    /// The error without its message.
    pub fn kind(&self) -> &AMQPErrorKind
        ensures { result.now ≡ self.now.kind }
    {
        &self.kind
    }

    /// The reply code.
    pub fn get_id(&self) -> Identifier
        ensures { result ≡ kind_code self.now.kind }
    {
        self.kind.get_id()
    }

    /// The message.
    pub fn get_message(&self) -> &ShortString
        ensures { result.now ≡ self.now.message }
    {
        &self.message
    }

    /// A deep copy.
    pub fn copy(&self, alloc: Global) -> Result<AMQPError, NoMemory>
        ensures { IfOk result (λ copied. copied ≡ self.now) }
    {
        Ok(AMQPError {
            kind: self.kind,
            message: self.message.copy(alloc)?,
        })
    }
}

impl fmt::Display for AMQPError {
    ghost use Rattle.std.specs.Prelude.{Some, ◌++◌, codes};
    ghost use Rattle.amqp_protocol.specs.ErrorCodes.{kind_text};

    ghost output = { λ error. Some (kind_text error.kind ++ codes ": " ++ error.message) };

    fn fmt<W: fmt::Write>(&self, f: &mut fmt::Formatter<W>) -> fmt::Result {
        write!(f, "{}: {}", self.kind, self.message)
    }
}

impl Error for AMQPError {}
