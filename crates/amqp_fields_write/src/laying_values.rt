//! Values, arrays and tables that nodes mean, counted or put in the walk of `laying`.
#![tactic(auto, unfolding(crate::specs::Made::made_leaf, crate::specs::Made::made_behind, crate::specs::Made::made_items))]

ghost use Rattle.std.specs.Prelude.{◌%◌};
ghost use Rattle.amqp_types.specs.Numbers.{bytes1, bytes2, bytes4, bytes8};
ghost use Rattle.amqp_types.specs.Numbers.{number_bytes, number_limit};
ghost use Rattle.amqp_types.specs.ValueJudging.{judge_entry, judge_value};
ghost use Rattle.amqp_fields_write.specs.Made.{after, made_behind, made_content};
ghost use Rattle.amqp_fields_write.specs.Made.{made_each, made_if};
ghost use Rattle.amqp_fields_write.specs.Made.{made_leaf, made_nested};
ghost use Rattle.amqp_fields_write.specs.Made.{made_number, made_value, own_index};
ghost use Rattle.amqp_fields_write.specs.Makes.{made_group, made_item, made_key};
ghost use Rattle.amqp_fields_write.specs.Quick.{Lays, LaysUntil};

use crate::laying::{NONE, Sink, lay, lay_if, lay_length, lay_long, lay_long_string, lay_text};
use crate::node_groups::{first_group, index_of, own_index};
use crate::parts::{has_room, is_signed, plus, span};
use amqp_canonical::{judge_entries, judge_values};
use amqp_fields::Node;
use amqp_types::FieldTag;

/// The lowest byte of a number, where a test holds.
#[inline(always)]
pub(crate) fn lay_octet<S: Sink>(
    buf: &mut [u8],
    at: usize,
    index: usize,
    holds: bool,
    number: u64,
) -> usize
    ensures { Lays S.tests S.puts
        (made_if holds index (number_bytes bytes1 (number % number_limit bytes1)))
        buf.old buf.new at result }
{
    let low = (number % 0x100) as u8;
    lay_if::<S>(buf, at, index, holds, &low.to_be_bytes())
}

/// The lowest 2 bytes of a number, where a test holds.
#[inline(always)]
pub(crate) fn lay_two<S: Sink>(
    buf: &mut [u8],
    at: usize,
    index: usize,
    holds: bool,
    number: u64,
) -> usize
    ensures { Lays S.tests S.puts
        (made_if holds index (number_bytes bytes2 (number % number_limit bytes2)))
        buf.old buf.new at result }
{
    let low = (number % 0x1_0000) as u16;
    lay_if::<S>(buf, at, index, holds, &low.to_be_bytes())
}

/// The lowest 4 bytes of a number, where a test holds.
#[inline(always)]
pub(crate) fn lay_four<S: Sink>(
    buf: &mut [u8],
    at: usize,
    index: usize,
    holds: bool,
    number: u64,
) -> usize
    ensures { Lays S.tests S.puts
        (made_if holds index (number_bytes bytes4 (number % number_limit bytes4)))
        buf.old buf.new at result }
{
    let low = (number % 0x1_0000_0000) as u32;
    lay_if::<S>(buf, at, index, holds, &low.to_be_bytes())
}

/// A number of 8 bytes.
#[inline(always)]
pub(crate) fn lay_eight<S: Sink>(buf: &mut [u8], at: usize, index: usize, number: u64) -> usize
    ensures { Lays S.tests S.puts (made_number bytes8 index number) buf.old buf.new at result }
{
    lay_if::<S>(buf, at, index, true, &number.to_be_bytes())
}

/// A scale and an unsigned number.
#[inline(always)]
#[tactic(auto, using(crate::proofs::Quick::laid_after))]
fn lay_decimal<S: Sink>(buf: &mut [u8], at: usize, index: usize, scale: u8, number: u64) -> usize
    ensures { Lays S.tests S.puts
        (after (made_number bytes1 index scale) (made_number bytes4 index number))
        buf.old buf.new at result }
{
    let place = lay_octet::<S>(buf, at, index, (scale as u64) < 0x100, scale as u64);
    lay_four::<S>(buf, place, index, number < 0x1_0000_0000, number)
}

/// The content of a table that stands in the pool, where it does not go beyond a limit: it is judged only then.
fn lay_given_entries<S: Sink>(
    buf: &mut [u8],
    at: usize,
    pool: &[u8],
    index: usize,
    node: &Node,
    depth_left: usize,
    limit: usize,
) -> usize
    ensures { LaysUntil S.tests S.puts limit
        (made_content (judge_entry (judge_value depth_left)) pool.now index node.now)
        buf.old buf.new at result }
{
    let content = match span(pool, node.start, node.length) {
        Some(content) => content,
        None => return NONE,
    };
    if S::is_testing() {
        let end = if S::is_putting() { buf.len() } else { limit };
        if !has_room(end, plus(at, 4), content.len()) {
            return NONE;
        }
        if judge_entries(content, depth_left).is_err() {
            return NONE;
        }
    }
    lay_long::<S>(buf, at, index, content)
}

/// The same of an array.
fn lay_given_values<S: Sink>(
    buf: &mut [u8],
    at: usize,
    pool: &[u8],
    index: usize,
    node: &Node,
    depth_left: usize,
    limit: usize,
) -> usize
    ensures { LaysUntil S.tests S.puts limit
        (made_content (judge_value depth_left) pool.now index node.now)
        buf.old buf.new at result }
{
    let content = match span(pool, node.start, node.length) {
        Some(content) => content,
        None => return NONE,
    };
    if S::is_testing() {
        let end = if S::is_putting() { buf.len() } else { limit };
        if !has_room(end, plus(at, 4), content.len()) {
            return NONE;
        }
        if judge_values(content, depth_left).is_err() {
            return NONE;
        }
    }
    lay_long::<S>(buf, at, index, content)
}

/// What has a tag, and is neither an array nor a table.
#[inline(always)]
fn lay_leaf<S: Sink>(
    buf: &mut [u8],
    at: usize,
    pool: &[u8],
    index: usize,
    node: &Node,
    tag: FieldTag,
) -> usize
    ensures { Lays S.tests S.puts
        (made_leaf pool.now index node.now tag) buf.old buf.new at result }
{
    let number = node.number;
    match tag {
        FieldTag::Boolean => lay_octet::<S>(buf, at, index, number < 2, number),
        FieldTag::ShortShortInt => {
            lay_octet::<S>(buf, at, index, is_signed(number, 0x80), number)
        }
        FieldTag::ShortShortUInt => lay_octet::<S>(buf, at, index, number < 0x100, number),
        FieldTag::ShortInt => lay_two::<S>(buf, at, index, is_signed(number, 0x8000), number),
        FieldTag::ShortUInt => lay_two::<S>(buf, at, index, number < 0x1_0000, number),
        FieldTag::LongInt => lay_four::<S>(buf, at, index, is_signed(number, 0x8000_0000), number),
        FieldTag::LongUInt | FieldTag::Float => {
            lay_four::<S>(buf, at, index, number < 0x1_0000_0000, number)
        }
        FieldTag::LongLongInt | FieldTag::Double | FieldTag::Timestamp => {
            lay_eight::<S>(buf, at, index, number)
        }
        FieldTag::LongString | FieldTag::ByteArray => {
            lay_long_string::<S>(buf, at, pool, index, node.start, node.length)
        }
        FieldTag::DecimalValue => lay_decimal::<S>(buf, at, index, node.scale, number),
        FieldTag::Void => lay::<S>(buf, at, &[]),
        FieldTag::FieldArray | FieldTag::FieldTable => NONE,
    }
}

/// A value: its tag, and what comes after it. Tables and arrays may nest `depth_left` deep in it. The nodes inside it end at
/// the place `end` of all nodes.
#[cycle(lay)]
#[inline(always)]
fn lay_value<S: Sink>(
    buf: &mut [u8],
    at: usize,
    pool: &[u8],
    end: usize,
    node: &Node,
    inside: &[Node],
    depth_left: usize,
    limit: usize,
) -> usize
    ensures { LaysUntil S.tests S.puts limit
        (made_value pool.now depth_left end node.now inside.now)
        buf.old buf.new at result }
{
    match FieldTag::from_byte(node.kind) {
        Some(tag) => {
            if tag.to_byte() != node.kind {
                return NONE;
            }
            let place = lay::<S>(buf, at, &[node.kind]);
            lay_after_tag::<S>(buf, place, pool, end, node, inside, tag, depth_left, limit)
        }
        None => NONE,
    }
}

/// What comes after a tag.
#[cycle(lay)]
#[inline(always)]
fn lay_after_tag<S: Sink>(
    buf: &mut [u8],
    at: usize,
    pool: &[u8],
    end: usize,
    node: &Node,
    inside: &[Node],
    tag: FieldTag,
    depth_left: usize,
    limit: usize,
) -> usize
    ensures { LaysUntil S.tests S.puts limit
        (made_behind pool.now (made_nested pool.now depth_left) tag end node.now inside.now)
        buf.old buf.new at result }
{
    match tag {
        FieldTag::FieldArray if depth_left == 0 => NONE,
        FieldTag::FieldArray => {
            let depth = depth_left - 1;
            lay_group::<S>(buf, at, pool, end, node, inside, false, depth, limit)
        }
        FieldTag::FieldTable if depth_left == 0 => NONE,
        FieldTag::FieldTable => {
            let depth = depth_left - 1;
            lay_group::<S>(buf, at, pool, end, node, inside, true, depth, limit)
        }
        leaf => {
            if inside.is_empty() {
                lay_leaf::<S>(buf, at, pool, own_index(end, inside), node, leaf)
            } else {
                NONE
            }
        }
    }
}

/// A table of entries, or else an array of values, in which tables and arrays may nest `depth_left` deep: its content as it
/// stands in the pool, where nothing lies inside it, and else what lies inside it.
#[cycle(lay)]
#[inline(always)]
pub(crate) fn lay_group<S: Sink>(
    buf: &mut [u8],
    at: usize,
    pool: &[u8],
    end: usize,
    node: &Node,
    inside: &[Node],
    entries: bool,
    depth_left: usize,
    limit: usize,
) -> usize
    ensures { LaysUntil S.tests S.puts limit
        (made_group entries pool.now depth_left end node.now inside.now)
        buf.old buf.new at result }
{
    if inside.is_empty() {
        let index = own_index(end, inside);
        if entries {
            return lay_given_entries::<S>(buf, at, pool, index, node, depth_left, limit);
        }
        return lay_given_values::<S>(buf, at, pool, index, node, depth_left, limit);
    }
    let start = plus(at, 4);
    let place = lay_each::<S>(buf, start, pool, end, inside, entries, depth_left, limit);
    lay_length::<S>(buf, at, start, place)
}

/// Entries, or else values, one after another, whose nodes end at the place `end` of all nodes.
#[cycle(lay)]
pub(crate) fn lay_each<S: Sink>(
    buf: &mut [u8],
    at: usize,
    pool: &[u8],
    end: usize,
    nodes: &[Node],
    entries: bool,
    depth_left: usize,
    limit: usize,
) -> usize
    ensures { LaysUntil S.tests S.puts limit
        (made_each (made_item entries pool.now depth_left) end 0 nodes.now)
        buf.old buf.new at result }
{
    let mut rest = nodes;
    let mut place = at;
    while let Some(group) = first_group(rest) {
        let (node, inside, next) = group;
        let last = index_of(end, next);
        let behind = lay_key::<S>(buf, place, pool, last, node, inside, entries);
        place = lay_value::<S>(buf, behind, pool, last, node, inside, depth_left, limit);
        rest = next;
    }
    if rest.is_empty() { place } else { NONE }
}

/// The key of an entry; nothing where it is a value.
#[inline(always)]
fn lay_key<S: Sink>(
    buf: &mut [u8],
    at: usize,
    pool: &[u8],
    end: usize,
    node: &Node,
    inside: &[Node],
    entries: bool,
) -> usize
    ensures { Lays S.tests S.puts
        (made_key entries pool.now (own_index end inside.now) node.now)
        buf.old buf.new at result }
{
    if !entries {
        return at;
    }
    let length = node.key_length as u32;
    lay_text::<S>(
        buf,
        at,
        pool,
        own_index(end, inside),
        node.key_start,
        length,
    )
}
