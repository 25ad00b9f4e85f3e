//! Writing the canonical bytes of methods and content headers that were decoded, without memory.

ghost use Rattle.std.specs.Prelude.{◌≤◌, ◌<◌, ◌+◌, ◌^◌, length};
ghost use Rattle.amqp_types.specs.Methods.{judge_payload};
ghost use Rattle.amqp_types.specs.Properties.{properties};
ghost use Rattle.amqp_types.specs.PropertyJudging.{judge_properties, judge_set};
ghost use Rattle.amqp_types.specs.PropertyBytes.{properties_bytes, set_bytes};
ghost use Rattle.amqp_types.specs.ContentHeaders.{judge_content_header};
ghost use Rattle.amqp_types.specs.Writing.{Puts};
ghost use Rattle.amqp_canonical.specs.Payloads.{header_payload, method_payload};
ghost use Rattle.amqp_canonical.specs.Payloads.{canonical_header, canonical_method};
ghost use Rattle.amqp_canonical.specs.Writes.{IsRead, HasRoom, PutsIfRoom, canonical_of};

use crate::headers::has_bit;
use crate::marks::EntryMark;
use crate::payload_parts::{header_parts, method_parts, short_at};
use crate::rooms::{Room, Sure, put_if_room};
use crate::shapes::{property_shapes, shapes_of};
use crate::slot_writing::{form_size, put_form, put_slots};
use crate::spans::bytes_from;
use amqp_types::{Identifier, PayloadSize};

/// Puts the canonical bytes of the method with these ids, whose fields were decoded from these bytes, at a place of a
/// slice, and returns the place after them (AMQP 0-9-1, section 4.2.4).
#[inline(always)]
pub fn put_method<R: Room>(
    buf: &mut [u8],
    at: usize,
    scratch: &mut [EntryMark],
    class: Identifier,
    id: Identifier,
    slots: &[u8],
) -> usize
    requires read { IsRead (judge_payload (method_payload class id slots.now)) }
    requires room { HasRoom R.sure
        (at + length (canonical_method (method_payload class id slots.now))) (length buf.old) }
    ensures { PutsIfRoom buf.old buf.new at
        (canonical_method (method_payload class id slots.now)) result }
{
    let id_place = put_if_room::<R>(buf, at, &class.to_be_bytes());
    let place = put_if_room::<R>(buf, id_place, &id.to_be_bytes());
    match shapes_of(class, id) {
        Some(shapes) => put_slots::<R>(buf, place, scratch, shapes, slots),
        None => place,
    }
}

/// Puts the canonical bytes of a class id, a method id and the fields of that method at a place of a slice, and returns
/// the place after them (AMQP 0-9-1, section 4.2.4).
pub fn put_payload(buf: &mut [u8], at: usize, scratch: &mut [EntryMark], i: &[u8]) -> usize
    requires read { IsRead (judge_payload i.now) }
    requires room { at + length (canonical_method i.now) ≤ length buf.old }
    ensures { Puts buf.old buf.new at (canonical_method i.now) result }
{
    let (class, id, slots) = method_parts(i);
    put_method::<Sure>(buf, at, scratch, class, id, slots)
}

/// Puts the canonical bytes of the properties whose bits are set in the mask, one after another.
fn put_set<R: Room>(
    buf: &mut [u8],
    at: usize,
    scratch: &mut [EntryMark],
    mask: u16,
    i: &[u8],
) -> usize
    requires read { IsRead (judge_set mask properties i.now) }
    requires room { HasRoom R.sure
        (at + length (canonical_of (set_bytes properties) (judge_set mask properties i.now)))
        (length buf.old) }
    ensures { PutsIfRoom buf.old buf.new at
        (canonical_of (set_bytes properties) (judge_set mask properties i.now)) result }
{
    let shapes = property_shapes();
    let mut end = at;
    let mut rest = i;
    for shape in shapes {
        if has_bit(mask, shape.0) {
            end = put_form::<R>(buf, end, scratch, shape.1, rest);
            rest = bytes_from(rest, form_size(shape.1, rest));
        }
    }
    end
}

/// Puts the canonical bytes of a mask and of the properties whose bits are set in it. The two bits that no property has
/// are put as zero.
pub fn put_properties<R: Room>(
    buf: &mut [u8],
    at: usize,
    scratch: &mut [EntryMark],
    i: &[u8],
) -> usize
    requires read { IsRead (judge_properties i.now) }
    requires room { HasRoom R.sure
        (at + length (canonical_of properties_bytes (judge_properties i.now))) (length buf.old) }
    ensures { PutsIfRoom buf.old buf.new at
        (canonical_of properties_bytes (judge_properties i.now)) result }
{
    let mask = short_at(i);
    let place = put_if_room::<R>(buf, at, &(mask - mask % 4).to_be_bytes());
    put_set::<R>(buf, place, scratch, mask, bytes_from(i, 2))
}

/// Puts the canonical bytes of a content header with a weight of 0, whose properties were decoded from these bytes, at
/// a place of a slice, and returns the place after them (AMQP 0-9-1, section 4.2.6.1).
#[inline(always)]
pub fn put_header<R: Room>(
    buf: &mut [u8],
    at: usize,
    scratch: &mut [EntryMark],
    class: Identifier,
    body_size: PayloadSize,
    properties: &[u8],
) -> usize
    requires read { IsRead (judge_content_header (header_payload class body_size properties.now)) }
    requires room { HasRoom R.sure
        (at + length (canonical_header (header_payload class body_size properties.now)))
        (length buf.old) }
    ensures { PutsIfRoom buf.old buf.new at
        (canonical_header (header_payload class body_size properties.now)) result }
{
    let weight_place = put_if_room::<R>(buf, at, &class.to_be_bytes());
    let size_place = put_if_room::<R>(buf, weight_place, &[0, 0]);
    let place = put_if_room::<R>(buf, size_place, &body_size.to_be_bytes());
    put_properties::<R>(buf, place, scratch, properties)
}

/// Puts the canonical bytes of a content header at a place of a slice, and returns the place after them: a class id, a
/// weight of 0, the size of the body, and the properties (AMQP 0-9-1, section 4.2.6.1).
pub fn put_content_header(buf: &mut [u8], at: usize, scratch: &mut [EntryMark], i: &[u8]) -> usize
    requires read { IsRead (judge_content_header i.now) }
    requires room { at + length (canonical_header i.now) ≤ length buf.old }
    ensures { Puts buf.old buf.new at (canonical_header i.now) result }
{
    let (class, body_size, properties) = header_parts(i);
    put_header::<Sure>(buf, at, scratch, class, body_size, properties)
}
