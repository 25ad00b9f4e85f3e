//! What both walks over heads and nodes, `laying` and `measuring`, ask of them.

ghost use Rattle.std.specs.Prelude.{◌≡◌, ◌≤◌, ◌<◌, ◌+◌, ◌-◌, ◌^◌, ◌++◌, ◌&&◌, ◌||◌, None};
ghost use Rattle.std.specs.Prelude.{drop, nat_le, nat_lt, option_copied, true, IfSome};
ghost use Rattle.amqp_types.specs.Numbers.{bytes2, number_bytes};
ghost use Rattle.amqp_canonical.specs.Shapes.{form_of, property_of};
ghost use Rattle.amqp_fields.specs.Listed.{next_place};
ghost use Rattle.amqp_fields_write.specs.Made.{span_in};
ghost use Rattle.amqp_fields_write.specs.MadeFields.{flags_in, is_field, is_flag};
ghost use Rattle.amqp_fields_write.specs.MadeFrames.{has_no_ids, is_held, nodes_in};
ghost use Rattle.amqp_fields_write.specs.Makes.{MakesFlags, cut_long};
ghost use Rattle.amqp_fields_write.specs.Quick.{IsFirst, NoneFirst};

use crate::node_groups::{index_of, nodes_from};
use crate::refusals::Refusal;
use amqp_canonical::{Form, property_shapes};
use amqp_fields::{Head, Node, further, kind_of};
use amqp_types::{long_long_held, short_held};

/// The sum, or the greatest number.
#[inline(always)]
pub(crate) fn plus(a: usize, b: usize) -> usize
    ensures { result ≡ cut_long (a + b) }
{
    a.saturating_add(b)
}

/// Whether so many bytes at a place end within a buffer of this length.
#[inline(always)]
pub(crate) fn has_room(length: usize, at: usize, count: usize) -> bool
    ensures { result ≡ nat_le (at + count) length }
{
    at <= length && count <= length - at
}

/// The bytes of a span, where it lies within the pool.
#[inline(always)]
pub(crate) fn span(pool: &[u8], start: u32, count: u32) -> Option<&[u8]>
    ensures { option_copied result ≡ span_in pool.now start count }
{
    let start = start as usize;
    let count = count as usize;
    if start + count > pool.len() {
        return None;
    }
    Some(&pool[start..start + count])
}

/// Whether a number in two's complement of 64 bits is a signed one of a width that has twice as many numbers.
#[inline(always)]
pub(crate) fn is_signed(number: u64, half: u64) -> bool
    requires some { 0 < half }
    ensures { result
        ≡ (nat_lt number half || (nat_le (2 ^ 64 - half) number && nat_lt number (2 ^ 64))) }
{
    number < half || number > u64::MAX - half
}

/// Whether a node is of the kind and at the place of a field.
#[inline(always)]
pub(crate) fn is_field(place: u8, form: Form, node: &Node) -> bool
    ensures { result ≡ is_field place (form_of form) node.now }
{
    node.kind == kind_of(form) && node.place == place
}

/// Whether a node is a flag at a place.
#[inline(always)]
pub(crate) fn is_flag(place: u8, node: &Node) -> bool
    ensures { result ≡ is_flag place node.now }
{
    is_field(place, Form::Flags(1), node) && node.inside == 0 && node.number < 2
}

/// The byte of so many flags, at places from one on, which are the first of these nodes; the byte of the others is given.
#[inline(always)]
pub(crate) fn flag_before(
    end: usize,
    place: u8,
    count: u8,
    nodes: &[Node],
    others: Result<u8, Refusal>,
) -> Result<u8, Refusal>
    requires some { 0 < count }
    requires few { count ≤ 8 }
    requires others { MakesFlags
        (flags_in end (next_place place 1) (count - 1) (drop 1 nodes.now)) (count - 1) others }
    ensures { MakesFlags (flags_in end place count nodes.now) count result }
{
    match nodes {
        [] => Err(Refusal::bad(end)),
        [node, ..] => {
            if !is_flag(place, node) {
                return Err(Refusal::bad(index_of(end, nodes)));
            }
            match others {
                Ok(byte) => Ok((node.number % 2) as u8 + 2 * byte),
                Err(refusal) => Err(refusal),
            }
        }
    }
}

/// The byte of so many flags, at places from one on, which are the first of these nodes.
#[tactic(auto, using(crate::proofs::PropertiesMade::no_flags))]
pub(crate) fn flags_byte(end: usize, place: u8, count: u8, nodes: &[Node]) -> Result<u8, Refusal>
    requires few { count ≤ 8 }
    ensures { MakesFlags (flags_in end place count nodes.now) count result }
{
    if count == 0 {
        return Ok(0);
    }
    let others = flags_byte(end, further(place, 1), count - 1, nodes_from(nodes, 1));
    flag_before(end, place, count, nodes, others)
}

/// The place of the first of these nodes, which is a place or after it, and the bit and the form of the property there.
#[inline(always)]
pub(crate) fn property_at(place: u8, nodes: &[Node]) -> Option<(u8, (u16, Form))>
    ensures found { IfSome result
        (λ found. IsFirst place nodes.now found.0 (property_of found.1)) }
    ensures none { result ≡ None → NoneFirst place nodes.now }
{
    let shapes = property_shapes();
    match nodes {
        [] => None,
        [node, ..] => {
            let at = node.place as usize;
            if node.place < place {
                return None;
            }
            if at >= shapes.len() {
                return None;
            }
            Some((node.place, shapes[at]))
        }
    }
}

/// What a bit adds to a mask.
#[inline(always)]
#[tactic(auto, using(crate::proofs::FieldsMade::bit_below))]
pub(crate) fn worth(bit: u16) -> u16
    requires few { 2 ^ bit < 2 ^ 16 }
    ensures { result ≡ 2 ^ bit }
{
    1 << bit
}

/// The nodes of a head, where the list has them.
#[inline(always)]
pub(crate) fn nodes_of<'a>(nodes: &'a [Node], head: &Head) -> Option<&'a [Node]>
    ensures { option_copied result ≡ nodes_in nodes.now head.now }
{
    let first = head.first as usize;
    let count = head.nodes as usize;
    if first + count <= nodes.len() {
        Some(&nodes[first..first + count])
    } else {
        None
    }
}

/// The place after the last node of a head.
#[inline(always)]
pub(crate) fn nodes_end(head: &Head) -> usize
    ensures { result ≡ head.now.first + head.now.nodes }
{
    head.first as usize + head.nodes as usize
}

/// Both ids of a method.
#[inline(always)]
pub(crate) fn id_bytes(head: &Head) -> [u8; 4]
    ensures { result
        ≡ number_bytes bytes2 head.now.class_id ++ number_bytes bytes2 head.now.method_id }
{
    let class = head.class_id.to_be_bytes();
    let method = head.method_id.to_be_bytes();
    [class[0], class[1], method[0], method[1]]
}

/// Whether a head has neither ids nor a body size.
#[inline(always)]
pub(crate) fn has_no_ids(head: &Head) -> bool
    ensures { result ≡ has_no_ids head.now }
{
    head.class_id == 0 && head.method_id == 0 && head.body_size == 0
}

/// The numbers of a head are within the widths of their members.
#[inline(always)]
pub(crate) fn head_held(head: &Head)
    ensures { is_held head.now ≡ true }
{
    short_held(head.channel);
    short_held(head.class_id);
    short_held(head.method_id);
    long_long_held(head.body_size);
}
