//! Writing the canonical bytes of fields that were decoded, without memory.

ghost use Rattle.std.specs.Prelude.{◌≡◌, ◌≤◌, ◌<◌, ◌+◌, ◌^◌, true, length};
ghost use Rattle.amqp_types.specs.Flags.{flags_byte, flags_from};
ghost use Rattle.amqp_types.specs.SlotBytes.{form_bytes, slots_bytes};
ghost use Rattle.amqp_types.specs.SlotJudging.{judge_form, judge_slot, judge_slots};
ghost use Rattle.amqp_canonical.specs.Shapes.{form_of, slot_of, has_constant};
ghost use Rattle.amqp_canonical.specs.Shapes.{slots_of, have_constants};
ghost use Rattle.amqp_canonical.specs.Writes.{IsRead, HasRoom, PutsIfRoom};
ghost use Rattle.amqp_canonical.specs.Writes.{canonical_of, slot_bytes};
ghost use Rattle.amqp_types.specs.Tidiness.{used_by};

use crate::marks::EntryMark;
use crate::rooms::{Room, put_if_room};
use crate::shapes::{Form, Slot};
use crate::spans::{bytes_from, long_size, split_key};
use crate::writing::put_table;
use amqp_types::INNER_DEPTH;

/// How many bytes what is encoded so takes at the front, where it was decoded there.
pub fn form_size(form: Form, i: &[u8]) -> usize
    ensures used { IsRead (judge_form (form_of form) i.now)
        → result ≡ used_by (judge_form (form_of form) i.now) }
    ensures bound { result ≤ length i.now + 8 }
{
    match form {
        Form::Octet => 1,
        Form::Short => 2,
        Form::Long => 4,
        Form::LongLong => 8,
        Form::Flags(_) => 1,
        Form::ShortString => 1 + split_key(i).0.len(),
        Form::LongString => long_size(i),
        Form::Table => long_size(i),
    }
}

/// How many bytes a field takes at the front, where one was decoded there.
#[inline(always)]
pub fn slot_size(slot: Slot, i: &[u8]) -> usize
    ensures used { IsRead (judge_slot (slot_of slot) i.now)
        → result ≡ used_by (judge_slot (slot_of slot) i.now) }
    ensures bound { result ≤ length i.now + 8 }
{
    match slot {
        Slot::Kept(form) => form_size(form, i),
        Slot::Reserved(form, _) => form_size(form, i),
    }
}

/// The byte with the lowest `count` bits of this one, and no others.
fn lowest_bits(count: u8, byte: u8) -> u8
    ensures { result ≡ flags_byte (flags_from count 0 byte) }
{
    if count < 8 { byte % (1 << count) } else { byte }
}

/// Puts the canonical bytes of what is encoded so.
pub(crate) fn put_form<R: Room>(
    buf: &mut [u8],
    at: usize,
    scratch: &mut [EntryMark],
    form: Form,
    i: &[u8],
) -> usize
    requires read { IsRead (judge_form (form_of form) i.now) }
    requires room { HasRoom R.sure
        (at + length (canonical_of (form_bytes (form_of form)) (judge_form (form_of form) i.now)))
        (length buf.old) }
    ensures { PutsIfRoom buf.old buf.new at
        (canonical_of (form_bytes (form_of form)) (judge_form (form_of form) i.now)) result }
{
    match form {
        Form::Table => put_table::<R>(buf, at, scratch, i, INNER_DEPTH),
        Form::Flags(count) => put_if_room::<R>(buf, at, &[lowest_bits(count, i[0])]),
        copied => put_if_room::<R>(buf, at, &i[..form_size(copied, i)]),
    }
}

/// Puts the canonical bytes of a field at a place of a slice, and returns the place after them.
fn put_slot<R: Room>(
    buf: &mut [u8],
    at: usize,
    scratch: &mut [EntryMark],
    slot: Slot,
    i: &[u8],
) -> usize
    requires constant { has_constant slot ≡ true }
    requires read { IsRead (judge_slot (slot_of slot) i.now) }
    requires room { HasRoom R.sure
        (at + length (canonical_of (slot_bytes (slot_of slot)) (judge_slot (slot_of slot) i.now)))
        (length buf.old) }
    ensures { PutsIfRoom buf.old buf.new at
        (canonical_of (slot_bytes (slot_of slot)) (judge_slot (slot_of slot) i.now)) result }
{
    match slot {
        Slot::Kept(form) => put_form::<R>(buf, at, scratch, form, i),
        Slot::Reserved(_, constant) => put_if_room::<R>(buf, at, constant),
    }
}

/// Puts the canonical bytes of fields of these shapes at a place of a slice, and returns the place after them.
pub fn put_slots<R: Room>(
    buf: &mut [u8],
    at: usize,
    scratch: &mut [EntryMark],
    shapes: &[Slot],
    i: &[u8],
) -> usize
    requires constants { have_constants shapes.now ≡ true }
    requires read { IsRead (judge_slots (slots_of shapes.now) i.now) }
    requires room { HasRoom R.sure
        (at
        + length (canonical_of (slots_bytes (slots_of shapes.now))
        (judge_slots (slots_of shapes.now) i.now)))
        (length buf.old) }
    ensures { PutsIfRoom buf.old buf.new at
        (canonical_of (slots_bytes (slots_of shapes.now)) (judge_slots (slots_of shapes.now) i.now))
        result }
{
    let mut end = at;
    let mut rest = i;
    for shape in shapes {
        end = put_slot::<R>(buf, end, scratch, *shape, rest);
        rest = bytes_from(rest, slot_size(*shape, rest));
    }
    end
}
