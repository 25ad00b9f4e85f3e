//! What frames hold, whatever a program does: the premise of the law that reads their canonical bytes back.

ghost use Rattle.amqp_frame.specs.Frames.{frame_of};
ghost use Rattle.amqp_wire.specs.Laws.{IsFrameHeld};

use crate::frame::AMQPFrame;
use amqp_properties::content_header_held;
use amqp_protocol::class_held;
use amqp_types::{octet_held, short_held};

/// A frame is what programs can hold: a method of the table with items of its fields, properties of their forms,
/// numbers that fit. Nothing is changed.
pub fn frame_held(frame: &AMQPFrame)
    ensures { IsFrameHeld (frame_of frame.now) }
{
    match frame {
        AMQPFrame::ProtocolHeader(version) => {
            octet_held(version.major);
            octet_held(version.minor);
            octet_held(version.revision);
        }
        AMQPFrame::Method(channel_id, class) => {
            short_held(*channel_id);
            class_held(class);
        }
        AMQPFrame::Header(channel_id, header) => {
            short_held(*channel_id);
            content_header_held(header);
        }
        AMQPFrame::Body(channel_id, _) => short_held(*channel_id),
        AMQPFrame::Heartbeat => {}
        AMQPFrame::InvalidHeartbeat(channel_id) => short_held(*channel_id),
    }
}
