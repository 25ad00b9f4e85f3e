//! The codes of errors, their texts, and the methods that close with them.

use amqp_protocol::{AMQPError, AMQPErrorKind, AMQPHardError, AMQPSoftError, channel, connection};
use amqp_types::{Identifier, ShortString};
use amqp_vectors::asking::{answers, same, shows};
use std::alloc::Global;
use std::test::Fail;

/// The message `x`. Where memory is refused it is empty, and the test fails.
fn message(alloc: Global) -> ShortString {
    match ShortString::new(alloc, "x") {
        Ok(text) => text,
        Err(_) => ShortString::empty(alloc),
    }
}

/// The codes of soft errors, and their texts.
const SOFT: [(Identifier, AMQPSoftError, &str); 7] = [
    (311, AMQPSoftError::CONTENTTOOLARGE, "CONTENT-TOO-LARGE"),
    (312, AMQPSoftError::NOROUTE, "NO-ROUTE"),
    (313, AMQPSoftError::NOCONSUMERS, "NO-CONSUMERS"),
    (403, AMQPSoftError::ACCESSREFUSED, "ACCESS-REFUSED"),
    (404, AMQPSoftError::NOTFOUND, "NOT-FOUND"),
    (405, AMQPSoftError::RESOURCELOCKED, "RESOURCE-LOCKED"),
    (
        406,
        AMQPSoftError::PRECONDITIONFAILED,
        "PRECONDITION-FAILED",
    ),
];

/// The codes of hard errors, and their texts.
const HARD: [(Identifier, AMQPHardError, &str); 11] = [
    (320, AMQPHardError::CONNECTIONFORCED, "CONNECTION-FORCED"),
    (402, AMQPHardError::INVALIDPATH, "INVALID-PATH"),
    (501, AMQPHardError::FRAMEERROR, "FRAME-ERROR"),
    (502, AMQPHardError::SYNTAXERROR, "SYNTAX-ERROR"),
    (503, AMQPHardError::COMMANDINVALID, "COMMAND-INVALID"),
    (504, AMQPHardError::CHANNELERROR, "CHANNEL-ERROR"),
    (505, AMQPHardError::UNEXPECTEDFRAME, "UNEXPECTED-FRAME"),
    (506, AMQPHardError::RESOURCEERROR, "RESOURCE-ERROR"),
    (530, AMQPHardError::NOTALLOWED, "NOT-ALLOWED"),
    (540, AMQPHardError::NOTIMPLEMENTED, "NOT-IMPLEMENTED"),
    (541, AMQPHardError::INTERNALERROR, "INTERNAL-ERROR"),
];

/// Fails unless the code is that of this error, and its text stands after another.
fn is_code_of(
    alloc: Global,
    code: Identifier,
    kind: AMQPErrorKind,
    front: &str,
    text: &str,
) -> Result<(), Fail> {
    same(AMQPErrorKind::from_id(code), Some(kind))?;
    same(kind.get_id(), code)?;
    shows(alloc, &kind, front, text, "")?;
    let told = AMQPError::from_id(code, message(alloc));
    same(told, Some(AMQPError::new(kind, message(alloc))))?;
    let error = AMQPError::new(kind, message(alloc));
    tells(alloc, &error, kind, front, text)
}

/// Fails unless the error has its kind, the message, and both with the code's text.
fn tells(
    alloc: Global,
    error: &AMQPError,
    kind: AMQPErrorKind,
    front: &str,
    text: &str,
) -> Result<(), Fail> {
    same((error.get_id(), *error.kind()), (kind.get_id(), kind))?;
    same(error.get_message().as_str(), "x")?;
    shows(alloc, error, front, text, ": x")?;
    answers(error.copy(alloc), error)
}

#[test]
fn codes_of_soft_errors(rt: HostRuntime) -> Result<(), Fail> {
    let alloc = rt.alloc();
    for (code, error, text) in SOFT {
        same(AMQPSoftError::from_id(code), Some(error))?;
        same(AMQPHardError::from_id(code), None)?;
        same(error.get_id(), code)?;
        shows(alloc, &error, "", text, "")?;
        is_code_of(alloc, code, error.into(), "AMQP soft error: ", text)?;
    }
    Ok(())
}

#[test]
fn codes_of_hard_errors(rt: HostRuntime) -> Result<(), Fail> {
    let alloc = rt.alloc();
    for (code, error, text) in HARD {
        same(AMQPHardError::from_id(code), Some(error))?;
        same(AMQPSoftError::from_id(code), None)?;
        same(error.get_id(), code)?;
        shows(alloc, &error, "", text, "")?;
        is_code_of(alloc, code, error.into(), "AMQP hard error: ", text)?;
    }
    Ok(())
}

#[test]
fn success_is_the_code_of_no_error(rt: HostRuntime) -> Result<(), Fail> {
    same(AMQPSoftError::from_id(200), None)?;
    same(AMQPHardError::from_id(200), None)?;
    same(AMQPErrorKind::from_id(200), None)?;
    same(AMQPError::from_id(200, message(rt.alloc())), None)
}

/// The error of the code 404.
fn not_found(alloc: Global) -> AMQPError {
    AMQPError::new(AMQPErrorKind::Soft(AMQPSoftError::NOTFOUND), message(alloc))
}

fn channel_close(alloc: Global, reply_code: u16) -> channel::Close {
    channel::Close {
        reply_code,
        reply_text: message(alloc),
        class_id: 50,
        method_id: 10,
    }
}

fn connection_close(alloc: Global, reply_code: u16) -> connection::Close {
    connection::Close {
        reply_code,
        reply_text: message(alloc),
        class_id: 50,
        method_id: 10,
    }
}

/// A close without an error is handed back.
#[test]
fn peers_close_with_errors(rt: HostRuntime) -> Result<(), Fail> {
    let alloc = rt.alloc();
    let told = AMQPError::try_from_channel_close(channel_close(alloc, 404));
    same(told, Ok(not_found(alloc)))?;
    let told = AMQPError::try_from_channel_close(channel_close(alloc, 200));
    same(told, Err(channel_close(alloc, 200)))?;
    let told = AMQPError::try_from_connection_close(connection_close(alloc, 404));
    same(told, Ok(not_found(alloc)))?;
    let told = AMQPError::try_from_connection_close(connection_close(alloc, 200));
    same(told, Err(connection_close(alloc, 200)))
}
