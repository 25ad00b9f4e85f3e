//! Fields of methods and properties of messages that nodes mean, counted or put in the walk of `laying`.
#![tactic(auto, unfolding(crate::specs::MadeFields::made_plain, crate::specs::MadeFields::made_form, crate::specs::MadeFields::made_field, crate::specs::MadeFields::made_kept))]

ghost use Rattle.std.specs.Prelude.{◌≡◌, ◌≤◌, ◌<◌, ◌-◌, None, true, drop, length, IfSome};
ghost use Rattle.amqp_types.specs.Properties.{properties};
ghost use Rattle.amqp_types.specs.PropertyBytes.{mask_of};
ghost use Rattle.amqp_canonical.specs.Shapes.{form_of, have_constants, has_constant};
ghost use Rattle.amqp_canonical.specs.Shapes.{slot_of, slots_of};
ghost use Rattle.amqp_fields.specs.Listed.{kept_count, next_place};
ghost use Rattle.amqp_fields_write.specs.Made.{own_index};
ghost use Rattle.amqp_fields_write.specs.MadeFields.{flags_in, made_field, made_flags};
ghost use Rattle.amqp_fields_write.specs.MadeFields.{made_form, made_plain, group_size};
ghost use Rattle.amqp_fields_write.specs.MadeFields.{made_properties, made_set};
ghost use Rattle.amqp_fields_write.specs.MadeFields.{made_slot, made_slots};
ghost use Rattle.amqp_fields_write.specs.MadeFields.{node_count, set_at};
ghost use Rattle.amqp_fields_write.specs.Makes.{MakesFlags};
ghost use Rattle.amqp_fields.specs.Nodes.{StandsFirst};
ghost use Rattle.amqp_fields_write.specs.Quick.{Lays, LaysUntil, NoGroup, nowhere, placed};

use crate::laying::{NONE, Sink, lay, lay_long_string, lay_text};
use crate::laying_values::{lay_eight, lay_four, lay_group, lay_octet, lay_two};
use crate::node_groups::{first_alone, first_group, index_of, nodes_from, own_index};
use crate::parts::{flag_before, flags_byte, is_field, plus, property_at, worth};
use crate::refusals::Refusal;
use amqp_canonical::{Form, Slot};
use amqp_fields::{Node, further};
use amqp_types::INNER_DEPTH;

/// The field at a place, which is neither flags nor a table.
#[inline(always)]
fn lay_alone<S: Sink>(
    buf: &mut [u8],
    at: usize,
    pool: &[u8],
    index: usize,
    place: u8,
    form: Form,
    node: &Node,
) -> usize
    ensures { Lays S.tests S.puts
        (placed place (form_of form) node.now index
        (made_plain pool.now index (form_of form) node.now)) buf.old buf.new at result }
{
    let number = node.number;
    match form {
        Form::Octet if is_field(place, Form::Octet, node) => {
            lay_octet::<S>(buf, at, index, number < 0x100, number)
        }
        Form::Short if is_field(place, Form::Short, node) => {
            lay_two::<S>(buf, at, index, number < 0x1_0000, number)
        }
        Form::Long if is_field(place, Form::Long, node) => {
            lay_four::<S>(buf, at, index, number < 0x1_0000_0000, number)
        }
        Form::LongLong if is_field(place, Form::LongLong, node) => {
            lay_eight::<S>(buf, at, index, number)
        }
        Form::ShortString if is_field(place, Form::ShortString, node) => {
            lay_text::<S>(buf, at, pool, index, node.start, node.length)
        }
        Form::LongString if is_field(place, Form::LongString, node) => {
            lay_long_string::<S>(buf, at, pool, index, node.start, node.length)
        }
        _ => NONE,
    }
}

/// The field at a place, which is no flags: its node, those inside it, and those after it.
#[inline(always)]
fn lay_form<S: Sink>(
    buf: &mut [u8],
    at: usize,
    pool: &[u8],
    end: usize,
    place: u8,
    form: Form,
    node: &Node,
    inside: &[Node],
    others: &[Node],
    limit: usize,
) -> usize
    ensures { LaysUntil S.tests S.puts limit
        (placed place (form_of form) node.now (own_index (end - length others.now) inside.now)
        (made_form pool.now (form_of form) (end - length others.now) node.now inside.now))
        buf.old buf.new at result }
{
    if form == Form::Table {
        if !is_field(place, Form::Table, node) {
            return NONE;
        }
        let last = index_of(end, others);
        return lay_group::<S>(buf, at, pool, last, node, inside, true, INNER_DEPTH, limit);
    }
    if inside.is_empty() {
        let index = own_index(index_of(end, others), inside);
        lay_alone::<S>(buf, at, pool, index, place, form, node)
    } else {
        NONE
    }
}

/// The first of some nodes, those inside it, and the others; only in a table something may lie inside.
#[inline(always)]
fn first_of(form: Form, nodes: &[Node]) -> Option<(&Node, &[Node], &[Node])>
    ensures found { IfSome result
        (λ group. StandsFirst nodes.now group.0.now group.1.now group.2.now) }
    ensures none { result ≡ None → NoGroup (form_of form) nodes.now }
{
    let _form = form;
    if form == Form::Table {
        return first_group(nodes);
    }
    first_alone(nodes)
}

/// The field at a place, which is the first of these nodes with those inside it, and the nodes after it.
#[inline(always)]
fn lay_field<'a, S: Sink>(
    buf: &mut [u8],
    at: usize,
    pool: &[u8],
    end: usize,
    place: u8,
    form: Form,
    nodes: &'a [Node],
    limit: usize,
) -> (usize, &'a [Node])
    ensures laid { LaysUntil S.tests S.puts limit
        (made_field pool.now end place (form_of form) nodes.now)
        buf.old buf.new at result.0 }
    ensures rest { result.0 < nowhere
        → result.1.now ≡ drop (group_size nodes.now) nodes.now }
{
    let (node, inside, others) = match first_of(form, nodes) {
        Some(group) => group,
        None => return (NONE, nodes),
    };
    let made = lay_form::<S>(buf, at, pool, end, place, form, node, inside, others, limit);
    (made, others)
}

/// The byte of so many flags, of which most often there are one or two.
#[inline(always)]
#[tactic(auto, using(crate::proofs::PropertiesMade::no_flags))]
fn some_flags(end: usize, place: u8, count: u8, nodes: &[Node]) -> Result<u8, Refusal>
    requires few { count ≤ 8 }
    ensures { MakesFlags (flags_in end place count nodes.now) count result }
{
    match count {
        1 => flag_before(end, place, 1, nodes, Ok(0)),
        2 => {
            let other = flag_before(end, further(place, 1), 1, nodes_from(nodes, 1), Ok(0));
            flag_before(end, place, 2, nodes, other)
        }
        _ => flags_byte(end, place, count, nodes),
    }
}

/// A byte of flags, at most eight, at places from one on, which are the first of these nodes.
#[inline(always)]
fn lay_flags<S: Sink>(
    buf: &mut [u8],
    at: usize,
    end: usize,
    place: u8,
    count: u8,
    nodes: &[Node],
) -> usize
    ensures { Lays S.tests S.puts (made_flags end place count nodes.now) buf.old buf.new at result }
{
    if count > 8 {
        return NONE;
    }
    match some_flags(end, place, count, nodes) {
        Ok(byte) => lay::<S>(buf, at, &[byte]),
        Err(_) => NONE,
    }
}

/// A field, which is the first of these nodes, or the constant of a reserved one, and the nodes after it.
#[inline(always)]
fn lay_slot<'a, S: Sink>(
    buf: &mut [u8],
    at: usize,
    pool: &[u8],
    end: usize,
    place: u8,
    slot: Slot,
    nodes: &'a [Node],
    limit: usize,
) -> (usize, &'a [Node], u8)
    requires constant { has_constant slot ≡ true }
    ensures laid { LaysUntil S.tests S.puts limit
        (made_slot pool.now end place (slot_of slot) nodes.now)
        buf.old buf.new at result.0 }
    ensures rest { result.0 < nowhere
        → result.1.now ≡ drop (node_count (slot_of slot) nodes.now) nodes.now }
    ensures next { result.2 ≡ next_place place (kept_count (slot_of slot)) }
{
    match slot {
        Slot::Reserved(_, constant) => (lay::<S>(buf, at, constant), nodes, place),
        Slot::Kept(Form::Flags(count)) => (
            lay_flags::<S>(buf, at, end, place, count, nodes),
            nodes_from(nodes, count as usize),
            further(place, count),
        ),
        Slot::Kept(form) => {
            let (made, rest) = lay_field::<S>(buf, at, pool, end, place, form, nodes, limit);
            (made, rest, further(place, 1))
        }
    }
}

/// The fields of these shapes, one after another. The number says which of its two calls this is for: each has code of its own,
/// since what is large becomes part of its caller only where it has one.
#[inline(always)]
pub(crate) fn lay_slots<S: Sink, const CALL: usize>(
    buf: &mut [u8],
    at: usize,
    pool: &[u8],
    end: usize,
    shapes: &[Slot],
    nodes: &[Node],
    limit: usize,
) -> usize
    requires constants { have_constants shapes.now ≡ true }
    ensures { LaysUntil S.tests S.puts limit
        (made_slots pool.now end 0 (slots_of shapes.now) nodes.now)
        buf.old buf.new at result }
{
    let mut rest = nodes;
    let mut place = 0;
    let mut made = at;
    for shape in shapes {
        let (next, behind, after) = lay_slot::<S>(buf, made, pool, end, place, *shape, rest, limit);
        if next == NONE {
            return NONE;
        }
        made = next;
        rest = behind;
        place = after;
    }
    if rest.is_empty() { made } else { NONE }
}

/// The properties that are set, one after another, and their mask.
#[inline(always)]
fn lay_set<S: Sink>(
    buf: &mut [u8],
    at: usize,
    pool: &[u8],
    end: usize,
    nodes: &[Node],
    limit: usize,
) -> (usize, u16)
    ensures laid { LaysUntil S.tests S.puts limit
        (made_set pool.now end 0 properties nodes.now) buf.old buf.new at result.0 }
    ensures mask { result.0 < nowhere
        → result.1 ≡ mask_of properties (set_at 0 properties nodes.now) }
{
    let mut rest = nodes;
    let mut place = 0;
    let mut made = at;
    let mut mask: u16 = 0;
    while let Some(found) = property_at(place, rest) {
        let (here, shape) = found;
        let (next, others) = lay_field::<S>(buf, made, pool, end, here, shape.1, rest, limit);
        if next == NONE {
            return (NONE, 0);
        }
        made = next;
        mask += worth(shape.0);
        place = further(here, 1);
        rest = others;
    }
    if rest.is_empty() {
        (made, mask)
    } else {
        (NONE, 0)
    }
}

/// The mask of the properties that are set, and these properties. The mask is put last.
pub(crate) fn lay_properties<S: Sink>(
    buf: &mut [u8],
    at: usize,
    pool: &[u8],
    end: usize,
    nodes: &[Node],
    limit: usize,
) -> usize
    ensures { LaysUntil S.tests S.puts limit
        (made_properties pool.now end nodes.now) buf.old buf.new at result }
{
    let start = plus(at, 2);
    let (made, mask) = lay_set::<S>(buf, start, pool, end, nodes, limit);
    if lay::<S>(buf, at, &mask.to_be_bytes()) == NONE {
        return NONE;
    }
    made
}
