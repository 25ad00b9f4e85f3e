//! Outlines of typed frames: kind, channel, ids and sizes, without the other fields. Those of borrowed frames are passed on.

ghost use Rattle.std.specs.Prelude.{◌≡◌};
ghost use Rattle.amqp_wire.specs.Outlines.{outline_of};
ghost use Rattle.amqp_frame.specs.Frames.{frame_of};

use crate::frame::AMQPFrame;
use amqp_wire::HasOutline;
pub use amqp_wire::outline::{FrameOutline, outline_front, outline_raw};

impl AMQPFrame {
    /// The frame without its fields.
    pub fn outline(&self) -> FrameOutline
        ensures { result ≡ outline_of (frame_of self.now) }
    {
        match self {
            AMQPFrame::ProtocolHeader(_) => FrameOutline::ProtocolHeader,
            AMQPFrame::Method(channel_id, class) => FrameOutline::Method {
                channel_id: *channel_id,
                class_id: class.get_amqp_class_id(),
                method_id: class.get_amqp_method_id(),
            },
            AMQPFrame::Header(channel_id, header) => FrameOutline::Header {
                channel_id: *channel_id,
                class_id: header.class_id,
                body_size: header.body_size,
            },
            AMQPFrame::Body(channel_id, bytes) => FrameOutline::Body {
                channel_id: *channel_id,
                length: bytes.as_slice().len() as u64,
            },
            AMQPFrame::Heartbeat => FrameOutline::Heartbeat { channel_id: 0 },
            AMQPFrame::InvalidHeartbeat(channel_id) => FrameOutline::Heartbeat {
                channel_id: *channel_id,
            },
        }
    }
}

impl HasOutline for AMQPFrame {
    ghost meaning = { λ frame. outline_of (frame_of frame) };

    ghost is_whole = { λ frame. Unit {0} };

    fn to_outline(&self) -> FrameOutline {
        self.outline()
    }
}
