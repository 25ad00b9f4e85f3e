//! Errors as the methods that close channels and connections report them.

ghost use Rattle.std.specs.Prelude.{◌≡◌, Some, None, IfOk, IfErr};
ghost use Rattle.amqp_protocol.specs.ErrorCodes.{kind_at, error_of};

use crate::errors::{AMQPError, AMQPErrorKind};
use amqp_channel::channel;
use amqp_connection::connection;

impl AMQPError {
    /// The error that a channel is closed with. A close whose reply code is that of no error is handed
    /// back.
    pub fn try_from_channel_close(close: channel::Close) -> Result<AMQPError, channel::Close>
        ensures error { IfOk result
            (λ error. Some error ≡ error_of (kind_at close.reply_code) close.reply_text) }
        ensures unchanged { IfErr result (λ back. back ≡ close) }
        ensures no_error { IfErr result (λ _. kind_at close.reply_code ≡ None) }
    {
        match AMQPErrorKind::from_id(close.reply_code) {
            Some(kind) => Ok(AMQPError::new(kind, close.reply_text)),
            None => Err(close),
        }
    }

    /// The error that a connection is closed with. A close whose reply code is that of no error is
    /// handed back.
    pub fn try_from_connection_close(
        close: connection::Close,
    ) -> Result<AMQPError, connection::Close>
        ensures error { IfOk result
            (λ error. Some error ≡ error_of (kind_at close.reply_code) close.reply_text) }
        ensures unchanged { IfErr result (λ back. back ≡ close) }
        ensures no_error { IfErr result (λ _. kind_at close.reply_code ≡ None) }
    {
        match AMQPErrorKind::from_id(close.reply_code) {
            Some(kind) => Ok(AMQPError::new(kind, close.reply_text)),
            None => Err(close),
        }
    }
}
