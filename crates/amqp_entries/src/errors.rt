//! Why something is not put.

use amqp_types::ParserError;

/// Why a content, an entry, a value or a frame is not put.
#[derive(Clone, Copy, Debug, PartialEq, Eq)]
pub enum PutError {
    /// A key or a short string of more than 255 bytes, or a long string or a content of 4 GiB or more.
    TooLong,

    /// A key or a short string that is not UTF-8.
    NotUtf8,

    /// The content of a table or an array that is not decoded.
    Content(ParserError),

    /// A payload of more bytes than the peer takes.
    TooLarge,

    /// The slice is shorter than what is put, which ends at this place of it.
    BufferTooSmall(usize),
}
