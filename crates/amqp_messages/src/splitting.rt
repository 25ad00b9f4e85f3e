//! Messages into frames.

ghost use Rattle.std.specs.Prelude.{◌≡◌, ◌≤◌, ◌++◌, map, IfOk, OnOk};
ghost use Rattle.amqp_frame.specs.Frames.{Body, frame_of};
ghost use Rattle.amqp_messages.specs.Splits.{pieces, split_of};

use crate::message::Message;
use amqp_frame::{AMQPContentHeader, AMQPFrame};
use amqp_types::{ByteArray, ChannelId, NoMemory};
use std::alloc::Global;

/// Appends a body frame for each piece of some bytes.
fn push_pieces(
    alloc: Global,
    frames: &mut Vec<AMQPFrame>,
    channel_id: ChannelId,
    bytes: &[u8],
    max_payload: usize,
) -> Result<(), NoMemory>
    requires { 1 ≤ max_payload }
    ensures { OnOk result (map frame_of frames.new.items
        ≡ map frame_of frames.old.items
        ++ map (λ piece. Body channel_id piece) (pieces max_payload bytes.now)) }
{
    let mut rest = bytes;
    while !rest.is_empty() {
        let n = rest.len().min(max_payload);
        frames.push(AMQPFrame::Body(channel_id, ByteArray::new(alloc, &rest[..n])?))?;
        rest = &rest[n..];
    }
    Ok(())
}

/// The frames of a message: its opening, its content header, and bodies of at most `max_payload`
/// bytes. The only error is out of memory.
pub fn split(alloc: Global, message: Message, max_payload: u32) -> Result<Vec<AMQPFrame>, NoMemory>
    requires { 1 ≤ max_payload }
    ensures { IfOk result (λ frames. map frame_of frames.items ≡ split_of max_payload message) }
{
    let (channel_id, opening, properties, body) = message.into_parts();
    let header = AMQPContentHeader {
        class_id: 60,
        body_size: body.len() as u64,
        properties,
    };
    let mut frames = Vec::new(alloc);
    frames.push(AMQPFrame::Method(channel_id, opening.into_class()))?;
    frames.push(AMQPFrame::Header(channel_id, header))?;
    push_pieces(
        alloc,
        &mut frames,
        channel_id,
        body.as_slice(),
        max_payload as usize,
    )?;
    Ok(frames)
}
