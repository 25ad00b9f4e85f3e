//! How many bytes values, arrays and tables have that nodes mean, or which node is refused.
#![tactic(auto, using(crate::proofs::Combined::both_counted, crate::proofs::Combined::counted_after, crate::proofs::Combined::second_refused), unfolding(crate::specs::Made::made_leaf, crate::specs::Made::made_items, crate::specs::Made::made_entry))]

ghost use Rattle.std.specs.Prelude.{◌≡◌, List, ℕ, length};
ghost use Rattle.amqp_types.specs.Numbers.{bytes1, bytes4};
ghost use Rattle.amqp_types.specs.ValueJudging.{judge_entry, judge_value};
ghost use Rattle.amqp_fields_write.specs.Made.{after, made_behind, made_content};
ghost use Rattle.amqp_fields_write.specs.Made.{made_each, made_if};
ghost use Rattle.amqp_fields_write.specs.Made.{made_leaf, made_long, made_nested, made_number};
ghost use Rattle.amqp_fields_write.specs.Made.{made_span, made_text};
ghost use Rattle.amqp_fields_write.specs.Made.{made_value, own_index, span_in};
ghost use Rattle.amqp_fields_write.specs.Makes.{Measures, cut_long, made_group};
ghost use Rattle.amqp_fields_write.specs.Makes.{made_item, made_string};

use crate::node_groups::{first_group, index_of, own_index};
use crate::parts::{is_signed, plus, span};
use crate::refusals::{Refusal, WriteRefusal};
use amqp_canonical::{is_text, judge_entries, judge_values};
use amqp_fields::Node;
use amqp_types::{FieldTag, ParserError, long_long_held};

/// So many bytes where a test holds; else the node is refused.
pub(crate) fn measure_if(index: usize, holds: bool, width: u8) -> Result<usize, Refusal>
    ensures { (bytes : List ℕ) → length bytes ≡ width
        → Measures (made_if holds index bytes) result }
{
    if holds {
        Ok(width as usize)
    } else {
        Err(Refusal::bad(index))
    }
}

/// A scale and an unsigned number.
fn measure_decimal(index: usize, scale: u8, number: u64) -> Result<usize, Refusal>
    ensures { Measures (after (made_number bytes1 index scale) (made_number bytes4 index number))
        result }
{
    let front = measure_if(index, (scale as u64) < 0x100, 1)?;
    Ok(plus(front, measure_if(index, number < 0x1_0000_0000, 4)?))
}

/// A length of 4 bytes, and so many bytes.
fn measure_long(index: usize, count: usize) -> Result<usize, Refusal>
    ensures { (bytes : List ℕ) → count ≡ cut_long (length bytes)
        → Measures (made_long index bytes) result }
{
    if count > u32::MAX as usize {
        return Err(Refusal {
            node: Some(index),
            why: WriteRefusal::TooLong,
        });
    }
    Ok(4 + count)
}

/// A length of 1 byte, and a text.
fn measure_text(index: usize, text: &[u8]) -> Result<usize, Refusal>
    ensures { Measures (made_text index text.now) result }
{
    if text.len() > 255 {
        return Err(Refusal {
            node: Some(index),
            why: WriteRefusal::TooLong,
        });
    }
    if !is_text(text) {
        return Err(Refusal::payload(index, ParserError::NotUtf8));
    }
    Ok(1 + text.len())
}

/// A short string, or else a long one: the bytes of a span, behind their length.
pub(crate) fn measure_string(
    pool: &[u8],
    index: usize,
    start: u32,
    count: u32,
    short: bool,
) -> Result<usize, Refusal>
    ensures { Measures (made_span (made_string short index) index (span_in pool.now start count))
        result }
{
    let bytes = span(pool, start, count).ok_or(Refusal::bad(index))?;
    if short {
        measure_text(index, bytes)
    } else {
        measure_long(index, bytes.len())
    }
}

/// The content of a table that stands in the pool.
fn measure_given_entries(
    pool: &[u8],
    index: usize,
    node: &Node,
    depth_left: usize,
) -> Result<usize, Refusal>
    ensures { Measures
        (made_content (judge_entry (judge_value depth_left)) pool.now index node.now) result }
{
    let content = span(pool, node.start, node.length).ok_or(Refusal::bad(index))?;
    match judge_entries(content, depth_left) {
        Ok(_) => measure_long(index, content.len()),
        Err(error) => Err(Refusal::payload(index, error)),
    }
}

/// The content of an array that stands in the pool.
fn measure_given_values(
    pool: &[u8],
    index: usize,
    node: &Node,
    depth_left: usize,
) -> Result<usize, Refusal>
    ensures { Measures (made_content (judge_value depth_left) pool.now index node.now) result }
{
    let content = span(pool, node.start, node.length).ok_or(Refusal::bad(index))?;
    match judge_values(content, depth_left) {
        Ok(_) => measure_long(index, content.len()),
        Err(error) => Err(Refusal::payload(index, error)),
    }
}

/// What has a tag, and is neither an array nor a table.
fn measure_leaf(pool: &[u8], index: usize, node: &Node, tag: FieldTag) -> Result<usize, Refusal>
    ensures { Measures (made_leaf pool.now index node.now tag) result }
{
    let number = node.number;
    match tag {
        FieldTag::Boolean => measure_if(index, number < 2, 1),
        FieldTag::ShortShortInt => measure_if(index, is_signed(number, 0x80), 1),
        FieldTag::ShortShortUInt => measure_if(index, number < 0x100, 1),
        FieldTag::ShortInt => measure_if(index, is_signed(number, 0x8000), 2),
        FieldTag::ShortUInt => measure_if(index, number < 0x1_0000, 2),
        FieldTag::LongInt => measure_if(index, is_signed(number, 0x8000_0000), 4),
        FieldTag::LongUInt | FieldTag::Float => measure_if(index, number < 0x1_0000_0000, 4),
        FieldTag::LongLongInt | FieldTag::Double | FieldTag::Timestamp => {
            long_long_held(number);
            Ok(8)
        }
        FieldTag::DecimalValue => measure_decimal(index, node.scale, number),
        FieldTag::LongString | FieldTag::ByteArray => {
            measure_string(pool, index, node.start, node.length, false)
        }
        FieldTag::FieldArray | FieldTag::FieldTable => Err(Refusal::bad(index)),
        FieldTag::Void => Ok(0),
    }
}

/// A value: its tag, and what comes after it. Tables and arrays may nest `depth_left` deep in it. The nodes inside it end at
/// the place `end` of all nodes.
#[cycle(measure)]
#[tactic(auto, using(crate::proofs::Combined::counted_after), unfolding(crate::specs::Made::made_value, crate::specs::Made::made_tagged))]
fn measure_value(
    pool: &[u8],
    end: usize,
    node: &Node,
    inside: &[Node],
    depth_left: usize,
) -> Result<usize, Refusal>
    ensures { Measures (made_value pool.now depth_left end node.now inside.now) result }
{
    match FieldTag::from_byte(node.kind) {
        Some(tag) => {
            if tag.to_byte() != node.kind {
                return Err(Refusal::bad(own_index(end, inside)));
            }
            let n = measure_behind(pool, end, node, inside, tag, depth_left)?;
            Ok(plus(1, n))
        }
        None => Err(Refusal::bad(own_index(end, inside))),
    }
}

/// What comes after a tag.
#[cycle(measure)]
#[tactic(auto, using(crate::proofs::ValuesMade::deep_nested, crate::proofs::ValuesMade::array_behind, crate::proofs::ValuesMade::table_behind), unfolding(crate::specs::Made::made_behind))]
fn measure_behind(
    pool: &[u8],
    end: usize,
    node: &Node,
    inside: &[Node],
    tag: FieldTag,
    depth_left: usize,
) -> Result<usize, Refusal>
    ensures { Measures
        (made_behind pool.now (made_nested pool.now depth_left) tag end node.now inside.now)
        result }
{
    let index = own_index(end, inside);
    match tag {
        FieldTag::FieldArray if depth_left == 0 => Err(Refusal::payload(
            index,
            ParserError::TooDeep,
        )),
        FieldTag::FieldArray => measure_group(pool, end, node, inside, false, depth_left - 1),
        FieldTag::FieldTable if depth_left == 0 => Err(Refusal::payload(
            index,
            ParserError::TooDeep,
        )),
        FieldTag::FieldTable => measure_group(pool, end, node, inside, true, depth_left - 1),
        leaf => {
            if inside.is_empty() {
                measure_leaf(pool, index, node, leaf)
            } else {
                Err(Refusal::bad(index))
            }
        }
    }
}

/// A table of entries, or else an array of values, in which tables and arrays may nest `depth_left` deep: its content as it
/// stands in the pool, where nothing lies inside it, and else what lies inside it.
#[cycle(measure)]
pub(crate) fn measure_group(
    pool: &[u8],
    end: usize,
    node: &Node,
    inside: &[Node],
    entries: bool,
    depth_left: usize,
) -> Result<usize, Refusal>
    ensures { Measures (made_group entries pool.now depth_left end node.now inside.now) result }
{
    let index = own_index(end, inside);
    if !inside.is_empty() {
        let count = measure_each(pool, end, inside, entries, depth_left)?;
        return measure_long(index, count);
    }
    if entries {
        measure_given_entries(pool, index, node, depth_left)
    } else {
        measure_given_values(pool, index, node, depth_left)
    }
}

/// Entries, or else values, one after another, whose nodes end at the place `end` of all nodes.
#[cycle(measure)]
pub(crate) fn measure_each(
    pool: &[u8],
    end: usize,
    nodes: &[Node],
    entries: bool,
    depth_left: usize,
) -> Result<usize, Refusal>
    ensures { Measures (made_each (made_item entries pool.now depth_left) end 0 nodes.now) result }
{
    let mut rest = nodes;
    let mut count = 0;
    while let Some(group) = first_group(rest) {
        let (node, inside, next) = group;
        let last = index_of(end, next);
        let n = measure_item(pool, last, node, inside, entries, depth_left)?;
        count = plus(count, n);
        rest = next;
    }
    if rest.is_empty() {
        Ok(count)
    } else {
        Err(Refusal::bad(index_of(end, rest)))
    }
}

/// An entry, its key and its value; or else a value.
#[cycle(measure)]
fn measure_item(
    pool: &[u8],
    end: usize,
    node: &Node,
    inside: &[Node],
    entries: bool,
    depth_left: usize,
) -> Result<usize, Refusal>
    ensures { Measures (made_item entries pool.now depth_left end node.now inside.now) result }
{
    if !entries {
        return measure_value(pool, end, node, inside, depth_left);
    }
    let index = own_index(end, inside);
    let key = measure_string(pool, index, node.key_start, node.key_length as u32, true)?;
    let n = measure_value(pool, end, node, inside, depth_left)?;
    Ok(plus(key, n))
}
