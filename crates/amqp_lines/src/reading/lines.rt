//! The words of a line read: the kind of a frame, its channel and its payload.
#![tactic(auto)]

ghost use Rattle.std.specs.Prelude.{◌≡◌};
ghost use Rattle.amqp_types.specs.Rows.{slots_at};
ghost use Rattle.amqp_lines.specs.Rendering.{AppendsText};
ghost use Rattle.amqp_lines.specs.Reading.{Finds, ReadsWords, channel_at, kind_at};
ghost use Rattle.amqp_lines.specs.Reading.{read_fields, read_id, read_method};
ghost use Rattle.amqp_lines.specs.Reading.{read_payload, read_words, word_size};

use crate::reading::slots::{read_properties, read_slots};
use crate::reading::words::{begins_with, read_bits, read_hex};
use crate::words::write_bytes;
use amqp_canonical::{Form, Slot, bytes_from, header_shapes, shapes_of};
use amqp_types::{ChannelId, Identifier, NoMemory};
use amqp_wire::AMQPFrameType;

/// The shapes of a version.
const VERSION: [Slot; 3] = [Slot::Kept(Form::Octet); 3];

/// A number of two bytes after a character, and the text after it.
#[tactic(auto, unfolding(crate::specs::Reading::read_id))]
fn read_id(i: &[u8]) -> (u16, &[u8])
    ensures { Finds (read_id i.now) result.0 result.1.now }
{
    let (number, rest) = read_bits(bytes_from(i, 1));
    ((number % 65536) as u16, rest)
}

/// The fields of a method with these ids.
fn read_fields(
    out: &mut Vec<u8>,
    class_id: Identifier,
    method_id: Identifier,
    i: &[u8],
) -> Result<(), NoMemory>
    ensures { AppendsText out.old.items out.new.items
        (read_fields (slots_at class_id method_id) i.now) result }
{
    match shapes_of(class_id, method_id) {
        Some(shapes) => {
            read_slots(out, shapes, i)?;
            Ok(())
        }
        None => Ok(()),
    }
}

/// The ids of a method, and its fields.
#[tactic(auto, unfolding(crate::specs::Reading::read_method))]
fn read_method(out: &mut Vec<u8>, i: &[u8]) -> Result<(), NoMemory>
    ensures { AppendsText out.old.items out.new.items (read_method i.now) result }
{
    let (class_id, after_class) = read_id(i);
    let (method_id, rest) = read_id(after_class);
    write_bytes(out, &class_id.to_be_bytes())?;
    write_bytes(out, &method_id.to_be_bytes())?;
    read_fields(out, class_id, method_id, rest)
}

/// Appends the payload of a frame of this kind.
#[tactic(auto, unfolding(crate::specs::Reading::read_payload))]
fn read_payload(out: &mut Vec<u8>, frame_type: AMQPFrameType, i: &[u8]) -> Result<(), NoMemory>
    ensures { AppendsText out.old.items out.new.items (read_payload frame_type i.now) result }
{
    match frame_type {
        AMQPFrameType::ProtocolHeader => {
            read_slots(out, &VERSION, i)?;
        }
        AMQPFrameType::Method => read_method(out, i)?,
        AMQPFrameType::Header => {
            let rest = read_slots(out, header_shapes(), i)?;
            read_properties(out, rest)?;
        }
        AMQPFrameType::Body => {
            read_hex(out, bytes_from(i, 2))?;
        }
        AMQPFrameType::Heartbeat => {}
    }
    Ok(())
}

/// The kind of a frame, by the first characters of its line.
fn kind_at(i: &[u8]) -> AMQPFrameType
    ensures { result ≡ kind_at i.now }
{
    if begins_with(i, b'm') {
        return AMQPFrameType::Method;
    }
    if begins_with(i, b'h') {
        return AMQPFrameType::Header;
    }
    if begins_with(i, b'p') {
        return AMQPFrameType::ProtocolHeader;
    }
    if begins_with(bytes_from(i, 1), b'o') {
        return AMQPFrameType::Body;
    }
    AMQPFrameType::Heartbeat
}

/// How many characters the first word has.
fn word_size(frame_type: AMQPFrameType) -> usize
    ensures { result ≡ word_size frame_type }
{
    match frame_type {
        AMQPFrameType::Method | AMQPFrameType::Header => 6,
        AMQPFrameType::ProtocolHeader => 5,
        AMQPFrameType::Body | AMQPFrameType::Heartbeat => 4,
    }
}

/// The channel, which is 0 where none is named, and the text after it.
fn channel_at(frame_type: AMQPFrameType, i: &[u8]) -> (u16, &[u8])
    ensures { Finds (channel_at frame_type i.now) result.0 result.1.now }
{
    match frame_type {
        AMQPFrameType::ProtocolHeader => (0, i),
        _ => read_id(i),
    }
}

/// Appends the payload of the frame that the words of a line say, and returns its kind and channel.
#[tactic(auto, unfolding(crate::specs::Reading::read_words))]
pub(crate) fn read_words(
    out: &mut Vec<u8>,
    i: &[u8],
) -> Result<(AMQPFrameType, ChannelId), NoMemory>
    ensures { ReadsWords (read_words i.now) out.old.items out.new.items result }
{
    let frame_type = kind_at(i);
    let (channel_id, rest) = channel_at(frame_type, bytes_from(i, word_size(frame_type)));
    read_payload(out, frame_type, rest)?;
    Ok((frame_type, channel_id))
}
