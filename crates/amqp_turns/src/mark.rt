//! What a tracker says of a frame.

use crate::fault::ContentFault;

/// What a frame is to its channel's content.
#[derive(Clone, Copy, Debug, PartialEq, Eq)]
pub enum Mark {
    /// It belongs to no message.
    Passed,

    /// The method that opens a message.
    Opening,

    /// A message's content header.
    Header,

    /// A piece of a message's body: how many body bytes had come before it and have come after it, and
    /// how many the whole body has.
    Body { before: u64, after: u64, size: u64 },

    /// It is not in turn.
    Fault(ContentFault),
}
