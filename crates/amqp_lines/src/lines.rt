//! Lines: what a frame is as text, out of its outline and its canonical payload.

ghost use Rattle.std.specs.Prelude.{◌≡◌, ◌∷◌, ◌++◌, [], ℕ, codes};
ghost use Rattle.amqp_types.specs.Levels.{strict};
ghost use Rattle.amqp_types.specs.SlotSpelling.{SpellsSlots};
ghost use Rattle.amqp_wire.specs.Frames.{Frame, Proto, Body};
ghost use Rattle.amqp_lines.specs.Slots.{slots_text};
ghost use Rattle.amqp_lines.specs.Rendering.{AppendsText, Says};
ghost use Rattle.amqp_lines.specs.Lines.{beat_words, line, spaced, words};
ghost use Rattle.amqp_lines.specs.Payloads.{IsIn, SaysHeader, SaysMethod};
ghost use Rattle.amqp_lines.specs.Payloads.{fields_at, ids_words, sizes_words};

use crate::slots::{write_properties, write_slots};
use crate::words::{write_bytes, write_decimal, write_hex};
use amqp_canonical::{bytes_from, shapes_of};
use amqp_types::{ChannelId, Identifier, NoMemory, PayloadSize};
use amqp_wire::{FrameOutline, ProtocolVersion};

/// A space and a number in decimal.
#[tactic(auto, unfolding(crate::specs::Lines::spaced))]
fn write_spaced(out: &mut Vec<u8>, number: u64) -> Result<(), NoMemory>
    ensures { AppendsText out.old.items out.new.items (spaced number) result }
{
    out.push(b' ')?;
    write_decimal(out, number)
}

/// A protocol header, whose payload is its version.
fn write_version(out: &mut Vec<u8>, payload: &[u8]) -> Result<(), NoMemory>
    ensures { (major minor revision : ℕ) → payload.now ≡ major ∷ minor ∷ revision ∷ []
        → AppendsText out.old.items out.new.items (words (Proto major minor revision)) result }
{
    match ProtocolVersion::from_payload(payload) {
        Ok(version) => {
            write_bytes(out, b"proto ")?;
            write_decimal(out, version.major as u64)?;
            out.push(b'.')?;
            write_decimal(out, version.minor as u64)?;
            out.push(b'.')?;
            write_decimal(out, version.revision as u64)
        }
        Err(_) => Ok(()),
    }
}

/// The word `method`, the channel, and both ids.
fn write_ids(
    out: &mut Vec<u8>,
    channel_id: ChannelId,
    class_id: Identifier,
    method_id: Identifier,
) -> Result<(), NoMemory>
    ensures { AppendsText out.old.items out.new.items
        (ids_words channel_id class_id method_id) result }
{
    write_bytes(out, b"method")?;
    write_spaced(out, channel_id as u64)?;
    write_spaced(out, class_id as u64)?;
    out.push(b'.')?;
    write_decimal(out, method_id as u64)
}

/// The fields of a method with these ids.
#[tactic(auto, using(crate::proofs::Lining::fields_some))]
fn write_fields(
    out: &mut Vec<u8>,
    class_id: Identifier,
    method_id: Identifier,
    i: &[u8],
) -> Result<(), NoMemory>
    ensures { Says (SpellsSlots strict (fields_at class_id method_id))
        (slots_text (fields_at class_id method_id)) i.now out.old.items out.new.items result }
{
    match shapes_of(class_id, method_id) {
        Some(shapes) => write_slots(out, shapes, i),
        None => Ok(()),
    }
}

/// A method with these ids, and the fields in its payload.
fn write_method(
    out: &mut Vec<u8>,
    channel_id: ChannelId,
    class_id: Identifier,
    method_id: Identifier,
    payload: &[u8],
) -> Result<(), NoMemory>
    ensures { SaysMethod channel_id class_id method_id
        payload.now out.old.items out.new.items result }
{
    write_ids(out, channel_id, class_id, method_id)?;
    write_fields(out, class_id, method_id, bytes_from(payload, 4))
}

/// The word `header`, the channel, the class, and the size of the body.
fn write_sizes(
    out: &mut Vec<u8>,
    channel_id: ChannelId,
    class_id: Identifier,
    body_size: PayloadSize,
) -> Result<(), NoMemory>
    ensures { AppendsText out.old.items out.new.items
        (sizes_words channel_id class_id body_size) result }
{
    write_bytes(out, b"header")?;
    write_spaced(out, channel_id as u64)?;
    write_spaced(out, class_id as u64)?;
    write_spaced(out, body_size)
}

/// A content header of this class and size, and the properties in its payload.
fn write_header(
    out: &mut Vec<u8>,
    channel_id: ChannelId,
    class_id: Identifier,
    body_size: PayloadSize,
    payload: &[u8],
) -> Result<(), NoMemory>
    ensures { SaysHeader channel_id class_id body_size
        payload.now out.old.items out.new.items result }
{
    write_sizes(out, channel_id, class_id, body_size)?;
    write_properties(out, bytes_from(payload, 12))
}

/// A part of a body.
#[tactic(auto, unfolding(crate::specs::Lines::words))]
fn write_body(out: &mut Vec<u8>, channel_id: ChannelId, payload: &[u8]) -> Result<(), NoMemory>
    ensures { AppendsText out.old.items out.new.items (words (Body channel_id payload.now)) result }
{
    write_bytes(out, b"body")?;
    write_spaced(out, channel_id as u64)?;
    write_bytes(out, b" x")?;
    write_hex(out, payload)
}

/// A heartbeat, which names the channel where none belongs.
fn write_beat(out: &mut Vec<u8>, channel_id: ChannelId) -> Result<(), NoMemory>
    ensures { AppendsText out.old.items out.new.items
        (codes "beat" ++ beat_words channel_id) result }
{
    write_bytes(out, b"beat")?;
    if channel_id == 0 {
        return Ok(());
    }
    write_spaced(out, channel_id as u64)
}

/// What the line of a frame says, by its outline and its canonical payload.
#[tactic(auto, using(crate::proofs::Lining::header_by, crate::proofs::Lining::beat_by))]
fn write_words(out: &mut Vec<u8>, outline: FrameOutline, payload: &[u8]) -> Result<(), NoMemory>
    ensures { (frame : Frame) → IsIn outline payload.now frame
        → AppendsText out.old.items out.new.items (words frame) result }
{
    match outline {
        FrameOutline::ProtocolHeader => write_version(out, payload),
        FrameOutline::Method {
            channel_id,
            class_id,
            method_id,
        } => write_method(out, channel_id, class_id, method_id, payload),
        FrameOutline::Header {
            channel_id,
            class_id,
            body_size,
        } => write_header(out, channel_id, class_id, body_size, payload),
        FrameOutline::Body { channel_id, .. } => write_body(out, channel_id, payload),
        FrameOutline::Heartbeat { channel_id } => write_beat(out, channel_id),
    }
}

/// Appends the line of a frame, by its outline and its canonical payload.
pub fn write_line(out: &mut Vec<u8>, outline: FrameOutline, payload: &[u8]) -> Result<(), NoMemory>
    ensures { (frame : Frame) → IsIn outline payload.now frame
        → AppendsText out.old.items out.new.items (line frame) result }
{
    write_words(out, outline, payload)?;
    out.push(b'\n')?;
    Ok(())
}
