//! The nodes of the fields of methods and of the properties of messages.

ghost use Rattle.std.specs.Prelude.{◌≡◌, ◌≤◌, ◌<◌, ◌+◌, length};
ghost use Rattle.amqp_types.specs.Flags.{bit_of, flag_at, flags_from, judge_flags};
ghost use Rattle.amqp_types.specs.Sequences.{judge_map};
ghost use Rattle.amqp_canonical.specs.Shapes.{form_of, slot_of, slots_of};
ghost use Rattle.amqp_types.specs.Properties.{properties};
ghost use Rattle.amqp_types.specs.Slots.{flags_form};
ghost use Rattle.amqp_fields.specs.Kinds.{kind_of};
ghost use Rattle.amqp_fields.specs.Nodes.{numbered};
ghost use Rattle.amqp_fields.specs.Listing.{Grows, listing};
ghost use Rattle.amqp_fields.specs.Finding.{Counts, Lists};
ghost use Rattle.amqp_fields.specs.Listed.{field_count, kept_count, listed_bits};
ghost use Rattle.amqp_fields.specs.Listed.{listed_form, listed_properties, listed_set};
ghost use Rattle.amqp_fields.specs.Listed.{listed_slots, next_place, placed};

use crate::listing::{Step, push};
use crate::node::{FLAG, LONG, LONG_LONG, LONG_STRING, Node, OCTET, SHORT, SHORT_STRING, TABLE};
use crate::numbers::{
    list_long, list_long_long, list_long_string, list_octet, list_short, list_short_string,
};
use crate::values::list_table;
use amqp_canonical::{Form, Slot, bytes_from, form_size, has_bit, property_shapes};
use amqp_types::INNER_DEPTH;

/// The kind of what is encoded so.
#[inline(always)]
pub fn kind_of(form: Form) -> u8
    ensures { result ≡ kind_of (form_of form) }
{
    match form {
        Form::Octet => OCTET,
        Form::Short => SHORT,
        Form::Long => LONG,
        Form::LongLong => LONG_LONG,
        Form::Flags(_) => FLAG,
        Form::ShortString => SHORT_STRING,
        Form::LongString => LONG_STRING,
        Form::Table => TABLE,
    }
}

/// A place that is so many further.
#[inline(always)]
pub fn further(place: u8, n: u8) -> u8
    ensures { result ≡ next_place place n }
{
    place.saturating_add(n)
}

/// A field at a place, of which nothing else is known.
#[inline(always)]
fn placed(place: u8, form: Form) -> Node
    ensures { result ≡ placed place (form_of form) }
{
    Node {
        kind: kind_of(form),
        place,
        ..Node::default()
    }
}

/// A flag at a place: the lowest bit of a byte.
#[inline(always)]
fn bit(place: u8, byte: u8) -> Node
    ensures { result ≡ numbered (placed place (flags_form 1)) (bit_of (flag_at byte 0)) }
{
    let node = placed(place, Form::Flags(1));
    if has_bit(byte as u16, 0) {
        Node { number: 1, ..node }
    } else {
        Node { number: 0, ..node }
    }
}

/// So many flags of a byte from its lowest bit on, at places from one on.
#[tactic(auto, using(crate::proofs::SlotSteps::no_bits))]
fn list_bits(nodes: &mut [Node], count: u32, place: u8, byte: u8, flags: u8) -> u32
    ensures { Grows (listing nodes.old count) (listing nodes.new result)
        (listed_bits place (flags_from flags 0 byte)) }
{
    if flags == 0 {
        return count;
    }
    let more = push(nodes, count, bit(place, byte));
    list_bits(nodes, more, further(place, 1), byte >> 1, flags - 1)
}

/// So many flags of a byte, at places from one on.
#[inline(always)]
#[tactic(auto, unfolding(amqp_types::specs::Flags::judge_flags))]
fn list_flags(nodes: &mut [Node], count: u32, place: u8, flags: u8, i: &[u8]) -> Step
    ensures listed { Lists (judge_map (listed_bits place) (judge_flags flags) i.now)
        nodes.old count nodes.new result }
    ensures used { result.used ≤ length i.now }
{
    match i {
        [byte, ..] => Step {
            used: 1,
            count: list_bits(nodes, count, place, *byte, flags),
        },
        [] => Step { used: 0, count },
    }
}

/// What is encoded so: a field of a method or a property, from a place on.
#[inline(always)]
#[tactic(auto, unfolding(crate::specs::Listed::listed_form))]
fn list_form(
    nodes: &mut [Node],
    count: u32,
    deep: bool,
    end: u32,
    place: u8,
    form: Form,
    i: &[u8],
) -> Step
    requires within { length i.now ≤ end }
    ensures listed { Lists (listed_form deep end place (form_of form) i.now)
        nodes.old count nodes.new result }
    ensures used { result.used ≤ length i.now }
{
    let label = placed(place, form);
    match form {
        Form::Octet => list_octet(nodes, count, label, i),
        Form::Short => list_short(nodes, count, label, i),
        Form::Long => list_long(nodes, count, label, i),
        Form::LongLong => list_long_long(nodes, count, label, i),
        Form::Flags(flags) => list_flags(nodes, count, place, flags, i),
        Form::ShortString => list_short_string(nodes, count, end, label, i),
        Form::LongString => list_long_string(nodes, count, end, label, i),
        Form::Table => {
            if deep {
                list_table(nodes, count, end, label, i, INNER_DEPTH)
            } else {
                list_long_string(nodes, count, end, label, i)
            }
        }
    }
}

/// How many fields stand in what is encoded so.
#[inline(always)]
fn field_count(form: Form) -> u8
    ensures { result ≡ field_count (form_of form) }
{
    match form {
        Form::Flags(flags) => flags,
        _ => 1,
    }
}

/// How many fields stand in what is encoded so, reserved ones not counted.
pub fn kept_count(slot: Slot) -> u8
    ensures { result ≡ kept_count (slot_of slot) }
{
    match slot {
        Slot::Kept(form) => field_count(form),
        Slot::Reserved(_, _) => 0,
    }
}

/// Fields of these shapes, one after another, from a place on. Reserved ones are passed.
#[tactic(auto, using(crate::proofs::SlotSteps::no_slots))]
pub(crate) fn list_slots(
    nodes: &mut [Node],
    count: u32,
    deep: bool,
    end: u32,
    place: u8,
    shapes: &[Slot],
    i: &[u8],
) -> u32
    requires within { length i.now ≤ end }
    ensures { Counts (listed_slots deep end place (slots_of shapes.now) i.now)
        nodes.old count nodes.new result }
{
    match shapes {
        [] => count,
        [shape, others @ ..] => match *shape {
            Slot::Reserved(form, _) => {
                let rest = bytes_from(i, form_size(form, i));
                list_slots(nodes, count, deep, end, place, others, rest)
            }
            Slot::Kept(Form::Flags(flags)) => {
                let step = list_flags(nodes, count, place, flags, i);
                let place = further(place, flags);
                list_slots(nodes, step.count, deep, end, place, others, &i[step.used..])
            }
            Slot::Kept(form) => {
                let step = list_form(nodes, count, deep, end, place, form, i);
                let place = further(place, field_count(form));
                list_slots(nodes, step.count, deep, end, place, others, &i[step.used..])
            }
        },
    }
}

/// Two fields of a method, which has no others, from the first place on. Acknowledgements have a number of 8 bytes and flags: for
/// these no walk goes over the shapes. It is not inlined, since its callers are so large that they would not be inlined then.
#[inline(never)]
fn list_two(nodes: &mut [Node], count: u32, deep: bool, end: u32, shapes: &[Slot], i: &[u8]) -> u32
    requires within { length i.now ≤ end }
    ensures { Counts (listed_slots deep end 0 (slots_of shapes.now) i.now)
        nodes.old count nodes.new result }
{
    if let [first, second] = shapes
        && let Slot::Kept(Form::LongLong) = *first
        && let Slot::Kept(Form::Flags(flags)) = *second
    {
        let number = list_long_long(nodes, count, placed(0, Form::LongLong), i);
        return list_flags(nodes, number.count, 1, flags, &i[number.used..]).count;
    }
    list_slots(nodes, count, deep, end, 0, shapes, i)
}

/// The fields of a method, from the first place on.
#[inline(always)]
pub(crate) fn list_fields(
    nodes: &mut [Node],
    count: u32,
    deep: bool,
    end: u32,
    shapes: &[Slot],
    i: &[u8],
) -> u32
    requires within { length i.now ≤ end }
    ensures { Counts (listed_slots deep end 0 (slots_of shapes.now) i.now)
        nodes.old count nodes.new result }
{
    if shapes.len() == 2 {
        return list_two(nodes, count, deep, end, shapes, i);
    }
    list_slots(nodes, count, deep, end, 0, shapes, i)
}

/// The properties that the mask has: it goes from bit to bit, from the highest on. None has bit 1 or 0.
#[tactic(auto, using(crate::proofs::TopBits::none_listed, crate::proofs::TopBits::shape_there))]
fn list_set(nodes: &mut [Node], count: u32, deep: bool, end: u32, mask: u16, i: &[u8]) -> u32
    requires within { length i.now ≤ end }
    ensures { Counts (listed_set mask deep end 0 properties i.now)
        nodes.old count nodes.new result }
{
    if mask < 4 {
        return count;
    }
    let bit = mask.ilog2();
    let place = 15 - bit;
    let form = property_shapes()[place as usize].1;
    let step = list_form(nodes, count, deep, end, place as u8, form, i);
    let others = mask - (1 << bit);
    list_set(nodes, step.count, deep, end, others, &i[step.used..])
}

/// The properties that are set, out of the bytes from their mask on.
#[tactic(auto, using(crate::proofs::SlotSteps::properties_listed, crate::proofs::Counted::shapes_few), unfolding(crate::specs::Listed::listed_properties))]
#[inline(never)]
pub(crate) fn list_properties(nodes: &mut [Node], count: u32, deep: bool, end: u32, i: &[u8]) -> u32
    requires within { length i.now ≤ end }
    ensures { Counts (listed_properties deep end i.now) nodes.old count nodes.new result }
{
    match i {
        [a, b, rest @ ..] => {
            let mask = u16::from_be_bytes([*a, *b]);
            list_set(nodes, count, deep, end, mask, rest)
        }
        _ => count,
    }
}
