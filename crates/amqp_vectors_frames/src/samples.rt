//! Frames that the tests compare with what is read, and write. A table has their names, since a frame owns memory.

use amqp_frame::{AMQPContentHeader, AMQPFrame, ProtocolVersion};
use amqp_properties::AMQPProperties;
use amqp_protocol::{AMQPClass, basic, queue};
use amqp_types::{ByteArray, ShortString};
use amqp_values::{AMQPValue, FieldTable};
use std::alloc::Global;
use std::test::Fail;

/// The name of a frame. All but the first three are on channel 1.
#[derive(Clone, Copy)]
pub enum Sample {
    /// A protocol header of the version that is spoken.
    ProtocolHeader,

    /// A heartbeat on channel 0.
    Heartbeat,

    /// A heartbeat on this channel, where none belongs.
    BadHeartbeat(u16),

    /// A body `h`.
    Body,

    /// A content header for a body of 5 bytes, with no properties.
    PlainHeader,

    /// A content header for a body of 5 bytes, which is a text that is stored.
    TextHeader,

    /// `queue.declare` of `some_queue`, with all its flags.
    Declare,

    /// `queue.declare` of the empty name, whose arguments are nested one level too deep.
    TooDeep,

    /// `basic.nack`, with the first of its flags.
    Nack,
}

/// A content header for a body of 5 bytes.
fn header(properties: AMQPProperties) -> AMQPContentHeader {
    AMQPContentHeader {
        class_id: 60,
        body_size: 5,
        properties,
    }
}

/// The content header with no properties, or the one of a text.
pub fn content_header(alloc: Global, is_text: bool) -> Result<AMQPContentHeader, Fail> {
    if !is_text {
        return Ok(header(AMQPProperties::default()));
    }
    let content_type = ShortString::new(alloc, "text/plain")?;
    let properties = AMQPProperties::default().with_content_type(content_type);
    Ok(header(properties.with_delivery_mode(2)))
}

/// A `queue.declare` on channel 1.
fn declaring(queue: ShortString, flag: bool, arguments: FieldTable) -> AMQPFrame {
    let declare = queue::Declare {
        queue,
        passive: flag,
        durable: flag,
        exclusive: flag,
        auto_delete: flag,
        nowait: flag,
        arguments,
    };
    AMQPFrame::Method(1, AMQPClass::Queue(queue::AMQPMethod::Declare(declare)))
}

/// The `basic.nack`.
fn nack() -> AMQPFrame {
    let nack = basic::Nack {
        delivery_tag: 1,
        multiple: true,
        requeue: false,
    };
    AMQPFrame::Method(1, AMQPClass::Basic(basic::AMQPMethod::Nack(nack)))
}

/// A table of 65 levels, which has no encoding.
pub fn deep_table(alloc: Global) -> Result<FieldTable, Fail> {
    let mut table = FieldTable::new(alloc);
    for _ in 1..65 {
        let mut outer = FieldTable::new(alloc);
        outer.insert(ShortString::empty(alloc), AMQPValue::FieldTable(table))?;
        table = outer;
    }
    Ok(table)
}

impl Sample {
    /// The frame.
    pub fn frame(self, alloc: Global) -> Result<AMQPFrame, Fail> {
        match self {
            Sample::ProtocolHeader => {
                Ok(AMQPFrame::ProtocolHeader(ProtocolVersion::amqp_0_9_1()))
            }
            Sample::Heartbeat => Ok(AMQPFrame::Heartbeat),
            Sample::BadHeartbeat(channel_id) => Ok(AMQPFrame::InvalidHeartbeat(channel_id)),
            Sample::Body => {
                let content = ByteArray::new(alloc, b"h")?;
                Ok(AMQPFrame::Body(1, content))
            }
            Sample::PlainHeader => {
                let header = content_header(alloc, false)?;
                Ok(AMQPFrame::Header(1, header))
            }
            Sample::TextHeader => {
                let header = content_header(alloc, true)?;
                Ok(AMQPFrame::Header(1, header))
            }
            Sample::Declare => {
                let queue = ShortString::new(alloc, "some_queue")?;
                Ok(declaring(queue, true, FieldTable::new(alloc)))
            }
            Sample::TooDeep => {
                let arguments = deep_table(alloc)?;
                Ok(declaring(ShortString::empty(alloc), false, arguments))
            }
            Sample::Nack => Ok(nack()),
        }
    }
}
