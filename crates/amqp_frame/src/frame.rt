//! Frames that own what they were decoded to.

ghost use Rattle.std.specs.Prelude.{◌≡◌, ◌↔◌, IfOk, IsTrue, Some};
ghost use Rattle.amqp_frame.specs.Frames.{frame_of, channel_id_of, IsHeader};
ghost use Rattle.amqp_wire.specs.Display.{frame_text};

use amqp_properties::AMQPContentHeader;
use amqp_protocol::AMQPClass;
use amqp_types::{ByteArray, ChannelId, NoMemory};
use amqp_wire::ProtocolVersion;
use std::alloc::Global;
use std::fmt;

/// A frame with its payload decoded.
#[derive(Debug, PartialEq, Drop)]
pub enum AMQPFrame {
    /// The eight bytes with which a connection begins.
    ProtocolHeader(ProtocolVersion),

    /// A method of a class.
    Method(ChannelId, AMQPClass),

    /// A content header.
    Header(ChannelId, AMQPContentHeader),

    /// A piece of a message's body.
    Body(ChannelId, ByteArray),

    /// A heartbeat on channel 0.
    Heartbeat,

    /// A heartbeat on a channel where none belongs. On channel 0 it is written as `Heartbeat`.
    InvalidHeartbeat(ChannelId),
}

impl AMQPFrame {
    /// A deep copy.
    pub fn copy(&self, alloc: Global) -> Result<AMQPFrame, NoMemory>
        ensures { IfOk result (λ copied. copied ≡ self.now) }
    {
        match self {
            AMQPFrame::ProtocolHeader(version) => Ok(AMQPFrame::ProtocolHeader(*version)),
            AMQPFrame::Method(channel_id, class) => {
                Ok(AMQPFrame::Method(*channel_id, class.copy(alloc)?))
            }
            AMQPFrame::Header(channel_id, header) => {
                Ok(AMQPFrame::Header(*channel_id, header.copy(alloc)?))
            }
            AMQPFrame::Body(channel_id, bytes) => {
                Ok(AMQPFrame::Body(*channel_id, bytes.copy(alloc)?))
            }
            AMQPFrame::Heartbeat => Ok(AMQPFrame::Heartbeat),
            AMQPFrame::InvalidHeartbeat(channel_id) => {
                Ok(AMQPFrame::InvalidHeartbeat(*channel_id))
            }
        }
    }

    /// Whether it is a content header.
    pub fn is_header(&self) -> bool
        ensures { IsTrue result ↔ IsHeader (frame_of self.now) }
    {
        match self {
            AMQPFrame::ProtocolHeader(_) => false,
            AMQPFrame::Method(_, _) => false,
            AMQPFrame::Header(_, _) => true,
            AMQPFrame::Body(_, _) => false,
            AMQPFrame::Heartbeat => false,
            AMQPFrame::InvalidHeartbeat(_) => false,
        }
    }

    /// The channel, 0 for a protocol header and for a heartbeat.
    pub fn channel_id(&self) -> ChannelId
        ensures { result ≡ channel_id_of (frame_of self.now) }
    {
        match self {
            AMQPFrame::ProtocolHeader(_) => 0,
            AMQPFrame::Method(channel_id, _) => *channel_id,
            AMQPFrame::Header(channel_id, _) => *channel_id,
            AMQPFrame::Body(channel_id, _) => *channel_id,
            AMQPFrame::Heartbeat => 0,
            AMQPFrame::InvalidHeartbeat(channel_id) => *channel_id,
        }
    }
}

impl fmt::Display for AMQPFrame {
    ghost output = { λ frame. Some (frame_text (frame_of frame)) };

    fn fmt<W: fmt::Write>(&self, f: &mut fmt::Formatter<W>) -> fmt::Result {
        match self {
            AMQPFrame::ProtocolHeader(version) => write!(f, "AMQPFrame::ProtocolHeader({version})"),
            AMQPFrame::Method(_, class) => {
                let class_id = class.get_amqp_class_id();
                let method_id = class.get_amqp_method_id();
                write!(f, "AMQPFrame::Method({class_id}, {method_id})")
            }
            AMQPFrame::Header(_, _) => f.write_str("AMQPFrame::Header"),
            AMQPFrame::Body(_, _) => f.write_str("AMQPFrame::Body"),
            AMQPFrame::Heartbeat => f.write_str("AMQPFrame::Heartbeat"),
            AMQPFrame::InvalidHeartbeat(channel_id) => {
                write!(f, "AMQPFrame::InvalidHeartbeat({channel_id})")
            }
        }
    }
}

/// Drops a frame. Split for the proof: a caller that matches on what it did with a frame drops it before, so that the
/// frame's parts do not come into each arm.
pub fn release(_frame: AMQPFrame) {}
