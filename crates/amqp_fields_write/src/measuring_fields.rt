//! How many bytes the fields of methods and the properties of messages have that nodes mean, or which node is refused.
#![tactic(auto, using(crate::proofs::Combined::both_counted), unfolding(crate::specs::MadeFields::made_plain, crate::specs::MadeFields::made_form, crate::specs::MadeFields::made_field, crate::specs::MadeFields::made_kept))]

ghost use Rattle.std.specs.Prelude.{◌≡◌, true};
ghost use Rattle.amqp_canonical.specs.Shapes.{form_of, has_constant, have_constants, slot_of};
ghost use Rattle.amqp_canonical.specs.Shapes.{slots_of};
ghost use Rattle.amqp_fields_write.specs.MadeFields.{group_size, made_field, made_flags};
ghost use Rattle.amqp_fields_write.specs.MadeFields.{made_form, made_properties};
ghost use Rattle.amqp_fields_write.specs.MadeFields.{made_slot, made_slots};
ghost use Rattle.amqp_fields_write.specs.MadeFields.{node_count};
ghost use Rattle.amqp_fields_write.specs.Makes.{Measures};

use crate::measuring_values::{measure_group, measure_if, measure_string};
use crate::node_groups::{first_group, index_of, nodes_from, own_index};
use crate::parts::{flags_byte, is_field, plus, property_at};
use crate::refusals::Refusal;
use amqp_canonical::{Form, Slot};
use amqp_fields::{Node, further, kept_count};
use amqp_types::{INNER_DEPTH, long_long_held};

/// What is encoded so: a field of a method or a property, which is not flags.
fn measure_form(
    pool: &[u8],
    end: usize,
    form: Form,
    node: &Node,
    inside: &[Node],
) -> Result<usize, Refusal>
    ensures { Measures (made_form pool.now (form_of form) end node.now inside.now) result }
{
    if form == Form::Table {
        return measure_group(pool, end, node, inside, true, INNER_DEPTH);
    }
    let index = own_index(end, inside);
    if !inside.is_empty() {
        return Err(Refusal::bad(index));
    }
    let number = node.number;
    match form {
        Form::Octet => measure_if(index, number < 0x100, 1),
        Form::Short => measure_if(index, number < 0x1_0000, 2),
        Form::Long => measure_if(index, number < 0x1_0000_0000, 4),
        Form::LongLong => {
            long_long_held(number);
            Ok(8)
        }
        Form::ShortString => measure_string(pool, index, node.start, node.length, true),
        Form::LongString => measure_string(pool, index, node.start, node.length, false),
        Form::Flags(_) | Form::Table => Err(Refusal::bad(index)),
    }
}

/// The field at a place, which is the first of these nodes with those inside it.
fn measure_field(
    pool: &[u8],
    end: usize,
    place: u8,
    form: Form,
    nodes: &[Node],
) -> Result<usize, Refusal>
    ensures { Measures (made_field pool.now end place (form_of form) nodes.now) result }
{
    match first_group(nodes) {
        Some((node, inside, others)) if is_field(place, form, node) => {
            measure_form(pool, index_of(end, others), form, node, inside)
        }
        _ => Err(Refusal::bad(index_of(end, nodes))),
    }
}

/// A byte of flags, at most eight, at places from one on, which are the first of these nodes.
fn measure_flags(end: usize, place: u8, count: u8, nodes: &[Node]) -> Result<usize, Refusal>
    ensures { Measures (made_flags end place count nodes.now) result }
{
    if count > 8 {
        return Err(Refusal::bad(index_of(end, nodes)));
    }
    let _byte = flags_byte(end, place, count, nodes)?;
    Ok(1)
}

/// A field, which is the first of these nodes, or the constant of a reserved one.
fn measure_slot(
    pool: &[u8],
    end: usize,
    place: u8,
    slot: Slot,
    nodes: &[Node],
) -> Result<usize, Refusal>
    requires constant { has_constant slot ≡ true }
    ensures { Measures (made_slot pool.now end place (slot_of slot) nodes.now) result }
{
    match slot {
        Slot::Reserved(_, constant) => Ok(constant.len()),
        Slot::Kept(Form::Flags(count)) => measure_flags(end, place, count, nodes),
        Slot::Kept(form) => measure_field(pool, end, place, form, nodes),
    }
}

/// How many nodes the first one is with those inside it.
fn group_size(nodes: &[Node]) -> usize
    ensures { result ≡ group_size nodes.now }
{
    match nodes {
        [] => 0,
        [node, ..] => 1 + node.inside as usize,
    }
}

/// How many of these nodes a field has, with those inside them.
fn node_count(slot: Slot, nodes: &[Node]) -> usize
    ensures { result ≡ node_count (slot_of slot) nodes.now }
{
    match slot {
        Slot::Reserved(_, _) => 0,
        Slot::Kept(Form::Flags(count)) => count as usize,
        Slot::Kept(_) => group_size(nodes),
    }
}

/// The fields of these shapes, one after another.
pub(crate) fn measure_slots(
    pool: &[u8],
    end: usize,
    shapes: &[Slot],
    nodes: &[Node],
) -> Result<usize, Refusal>
    requires constants { have_constants shapes.now ≡ true }
    ensures { Measures (made_slots pool.now end 0 (slots_of shapes.now) nodes.now) result }
{
    let mut rest = nodes;
    let mut place = 0;
    let mut count = 0;
    for shape in shapes {
        let n = measure_slot(pool, end, place, *shape, rest)?;
        count = plus(count, n);
        rest = nodes_from(rest, node_count(*shape, rest));
        place = further(place, kept_count(*shape));
    }
    if rest.is_empty() {
        Ok(count)
    } else {
        Err(Refusal::bad(index_of(end, rest)))
    }
}

/// The mask of the properties that are set, and these properties.
pub(crate) fn measure_properties(pool: &[u8], end: usize, nodes: &[Node]) -> Result<usize, Refusal>
    ensures { Measures (made_properties pool.now end nodes.now) result }
{
    let mut rest = nodes;
    let mut place = 0;
    let mut count = 0;
    while let Some(found) = property_at(place, rest) {
        let (here, shape) = found;
        let n = measure_field(pool, end, here, shape.1, rest)?;
        count = plus(count, n);
        rest = nodes_from(rest, group_size(rest));
        place = further(here, 1);
    }
    if rest.is_empty() {
        Ok(plus(2, count))
    } else {
        Err(Refusal::bad(index_of(end, rest)))
    }
}
