//! Frames whose payloads are borrowed.

use crate::frame_type::AMQPFrameType;
use amqp_types::ChannelId;

/// A whole frame with its payload as bytes, borrowed from the input.
#[derive(Clone, Copy, Debug, PartialEq, Eq)]
pub struct AMQPRawFrame<'a> {
    /// What the first byte names.
    pub frame_type: AMQPFrameType,

    /// The channel, 0 for a protocol header.
    pub channel_id: ChannelId,

    /// The bytes between the frame's header and its end byte; of a protocol header the three bytes of its version.
    pub payload: &'a [u8],
}
