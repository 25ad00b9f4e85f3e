//! How many fields a whole payload has, without going through them.

ghost use Rattle.std.specs.Prelude.{◌≡◌, ◌+◌, ◌<◌, ℕ, Ok, length, map};
ghost use Rattle.amqp_types.specs.Numbers.{bytes2, judge_number};
ghost use Rattle.amqp_canonical.specs.Shapes.{property_of, slots_of};
ghost use Rattle.amqp_wire.specs.declared.frame_type.AMQPFrameType.{AMQPFrameType};
ghost use Rattle.amqp_wire.specs.Frames.{Frame};
ghost use Rattle.amqp_wire.specs.Outlines.{outline_of};
ghost use Rattle.amqp_wire.specs.Verdicts.{decode_payload};
ghost use Rattle.amqp_fields.specs.Counting.{count_of, method_count, set_at, set_count, total};
ghost use Rattle.amqp_fields.specs.Meaning.{fields_of};

use crate::fields::kept_count;
use amqp_canonical::{Form, Slot, bytes_from, has_bit, property_shapes, shapes_of};
use amqp_types::Identifier;
use amqp_wire::FrameOutline;

/// How many fields these shapes have that are not reserved, after so many before them.
#[tactic(auto, using(crate::proofs::Counted::total_none, crate::proofs::Counted::total_more))]
fn count_slots(shapes: &[Slot], before: u8) -> u8
    requires few { before + total (slots_of shapes.now) < 256 }
    ensures { result ≡ before + total (slots_of shapes.now) }
{
    match shapes {
        [] => before,
        [shape, others @ ..] => count_slots(others, before + kept_count(*shape)),
    }
}

/// How many fields a method has, 0 where there is no such method.
#[tactic(auto, using(crate::proofs::Counted::method_total, crate::proofs::Counted::method_few))]
fn count_method(class: Identifier, id: Identifier) -> u8
    ensures { result ≡ method_count class id }
{
    match shapes_of(class, id) {
        Some(shapes) => count_slots(shapes, 0),
        None => 0,
    }
}

/// How many of these properties the mask has, after so many before them.
#[tactic(auto, using(crate::proofs::Counted::set_none, crate::proofs::Counted::set_on, crate::proofs::Counted::set_off))]
fn count_set(mask: u16, shapes: &[(u16, Form)], before: u8) -> u8
    requires few { before + length shapes.now < 256 }
    ensures { result ≡ before + set_count mask (map property_of shapes.now) }
{
    match shapes {
        [] => before,
        [shape, others @ ..] => {
            if has_bit(mask, shape.0) {
                count_set(mask, others, before + 1)
            } else {
                count_set(mask, others, before)
            }
        }
    }
}

/// How many properties are set, by the bytes from their mask on.
#[tactic(auto, using(crate::proofs::Counted::shapes_few, crate::proofs::Counted::mask_there, crate::proofs::Counted::no_mask))]
fn count_properties(i: &[u8]) -> u8
    ensures { result ≡ set_at (judge_number bytes2 i.now) }
{
    match i {
        [a, b, ..] => count_set(u16::from_be_bytes([*a, *b]), property_shapes(), 0),
        _ => 0,
    }
}

/// How many fields a frame of this outline has.
fn count_by(outline: FrameOutline, payload: &[u8]) -> u8
    ensures { result ≡ count_of payload.now outline }
{
    match outline {
        FrameOutline::ProtocolHeader => 3,
        FrameOutline::Method {
            class_id,
            method_id,
            ..
        } => count_method(class_id, method_id),
        FrameOutline::Header { .. } => count_properties(bytes_from(payload, 12)),
        FrameOutline::Body { .. } | FrameOutline::Heartbeat { .. } => 0,
    }
}

/// How many fields the frame has that a whole payload encodes, by its outline: as many nodes as `read_fields` gives of
/// fields alone. Of a payload that encodes no frame the number means nothing.
pub fn count_fields(outline: FrameOutline, payload: &[u8]) -> u8
    ensures { (kind : AMQPFrameType) (channel : ℕ) (frame : Frame)
        → decode_payload kind channel payload.now ≡ Ok frame → outline ≡ outline_of frame
        → result ≡ length (fields_of frame) }
{
    count_by(outline, payload)
}
