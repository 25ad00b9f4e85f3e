//! The nodes of values, arrays and tables, and of all that lies inside them.
#![tactic(auto, using(crate::proofs::Strings::long_size, crate::proofs::Strings::not_listed, crate::proofs::Stepping::done, std::proofs::lemmas::Bool::Decides::nat_tests), unfolding(crate::specs::Listed::listed_items))]

ghost use Rattle.std.specs.Prelude.{◌≡◌, ◌≤◌, ◌<◌, ◌+◌, None, Some, IfSome, drop, get_or, length};
ghost use Rattle.amqp_types.specs.Tags.{tag_at, tag_byte};
ghost use Rattle.amqp_types.specs.ValueJudging.{filled};
ghost use Rattle.amqp_fields.specs.Nodes.{blank};
ghost use Rattle.amqp_fields.specs.Finding.{Lists, ListsAll, key_label};
ghost use Rattle.amqp_fields.specs.Listed.{listed_array, listed_behind, listed_entry};
ghost use Rattle.amqp_fields.specs.Listed.{listed_nested, listed_table, listed_value, of_kind};

use crate::listing::{Filled, Step, close, push};
use crate::node::{Node, before, covered};
use crate::numbers::list_leaf;
use amqp_types::{
    FieldTag, TAG_BOOLEAN, TAG_BYTE_ARRAY, TAG_DECIMAL_VALUE, TAG_DOUBLE, TAG_FIELD_ARRAY,
    TAG_FIELD_TABLE, TAG_FLOAT, TAG_LONG_INT, TAG_LONG_LONG_INT, TAG_LONG_LONG_INT_READ,
    TAG_LONG_STRING, TAG_LONG_UINT, TAG_SHORT_INT, TAG_SHORT_INT_READ, TAG_SHORT_SHORT_INT,
    TAG_SHORT_SHORT_UINT, TAG_SHORT_UINT, TAG_TIMESTAMP, TAG_VOID, parse_long_bytes,
};

/// The kind that a tag byte stands for. `FieldTag::from_byte` returns the same, and is not inlined: here one jump goes from the
/// byte to its arm.
#[inline(always)]
fn tag_of(byte: u8) -> Option<FieldTag>
    ensures { result ≡ tag_at byte }
{
    match byte {
        TAG_BOOLEAN => Some(FieldTag::Boolean),
        TAG_SHORT_SHORT_INT => Some(FieldTag::ShortShortInt),
        TAG_SHORT_SHORT_UINT => Some(FieldTag::ShortShortUInt),
        TAG_SHORT_INT | TAG_SHORT_INT_READ => Some(FieldTag::ShortInt),
        TAG_SHORT_UINT => Some(FieldTag::ShortUInt),
        TAG_LONG_INT => Some(FieldTag::LongInt),
        TAG_LONG_UINT => Some(FieldTag::LongUInt),
        TAG_LONG_LONG_INT | TAG_LONG_LONG_INT_READ => Some(FieldTag::LongLongInt),
        TAG_FLOAT => Some(FieldTag::Float),
        TAG_DOUBLE => Some(FieldTag::Double),
        TAG_DECIMAL_VALUE => Some(FieldTag::DecimalValue),
        TAG_LONG_STRING => Some(FieldTag::LongString),
        TAG_FIELD_ARRAY => Some(FieldTag::FieldArray),
        TAG_TIMESTAMP => Some(FieldTag::Timestamp),
        TAG_FIELD_TABLE => Some(FieldTag::FieldTable),
        TAG_BYTE_ARRAY => Some(FieldTag::ByteArray),
        TAG_VOID => Some(FieldTag::Void),
        _ => None,
    }
}

/// A tag that was read: the node of what is known then, and what stands after it.
#[derive(Clone, Copy)]
struct Tagged<'a> {
    /// The node, of its kind.
    label: Node,

    /// The tag.
    tag: FieldTag,

    /// What stands after the tag.
    behind: &'a [u8],
}

/// The tag at the front of a value.
#[inline(always)]
fn split_tag(label: Node, i: &[u8]) -> Option<Tagged<'_>>
    ensures tag { IfSome result (λ found. tag_at (get_or i.now 0 0) ≡ Some found.tag) }
    ensures label { IfSome result (λ found. found.label ≡ of_kind label (tag_byte found.tag)) }
    ensures behind { IfSome result (λ found. found.behind.now ≡ drop 1 i.now) }
    ensures some { IfSome result (λ found. 1 ≤ length i.now) }
    ensures none { result ≡ None → 1 ≤ length i.now → tag_at (get_or i.now 0 0) ≡ None }
{
    match i {
        [] => None,
        [byte, behind @ ..] => match tag_of(*byte) {
            Some(tag) => {
                let label = Node {
                    kind: tag.to_byte(),
                    ..label
                };
                Some(Tagged { label, tag, behind })
            }
            None => None,
        },
    }
}

/// The tag of the value of an entry, whose bytes end at this place of the payload: it stands after the key.
#[inline(always)]
fn split_entry(end: u32, i: &[u8]) -> Option<Tagged<'_>>
    requires within { length i.now ≤ end }
    ensures tag { IfSome result
        (λ found. tag_at (get_or i.now (get_or i.now 0 0 + 1) 0) ≡ Some found.tag) }
    ensures label { IfSome result
        (λ found. found.label ≡ of_kind (key_label end i.now) (tag_byte found.tag)) }
    ensures behind { IfSome result (λ found. found.behind.now ≡ drop (2 + get_or i.now 0 0) i.now) }
    ensures size { IfSome result (λ found. 2 + get_or i.now 0 0 ≤ length i.now) }
    ensures none { result ≡ None → 2 + get_or i.now 0 0 ≤ length i.now
        → tag_at (get_or i.now (get_or i.now 0 0 + 1) 0) ≡ None }
{
    match i {
        [] => None,
        [n, ..] => {
            let at = *n as usize + 1;
            if at >= i.len() {
                return None;
            }
            match tag_of(i[at]) {
                Some(tag) => {
                    let label = Node {
                        key_start: before(end, i) + 1,
                        key_length: *n,
                        kind: tag.to_byte(),
                        ..Node::default()
                    };
                    let behind = &i[at + 1..];
                    Some(Tagged { label, tag, behind })
                }
                None => None,
            }
        }
    }
}

/// The value after a tag.
#[inline(always)]
#[tactic(auto, using(crate::proofs::Stepping::nested_none, crate::proofs::Stepping::nested_more), unfolding(crate::specs::Listed::listed_behind))]
#[cycle(list)]
fn list_after_tag(
    nodes: &mut [Node],
    count: u32,
    end: u32,
    label: Node,
    tag: FieldTag,
    i: &[u8],
    depth_left: usize,
) -> Step
    requires within { length i.now ≤ end }
    ensures listed { Lists (listed_behind (listed_nested depth_left) end label tag i.now)
        nodes.old count nodes.new result }
    ensures used { result.used ≤ length i.now }
{
    match tag {
        FieldTag::FieldArray | FieldTag::FieldTable if depth_left == 0 => Step { used: 0, count },
        FieldTag::FieldArray => list_array(nodes, count, end, label, i, depth_left - 1),
        FieldTag::FieldTable => list_table(nodes, count, end, label, i, depth_left - 1),
        _ => list_leaf(nodes, count, end, label, tag, i),
    }
}

/// An array, in whose values tables and arrays may nest `depth_left` deep.
#[inline(always)]
#[cycle(list)]
fn list_array(
    nodes: &mut [Node],
    count: u32,
    end: u32,
    label: Node,
    i: &[u8],
    depth_left: usize,
) -> Step
    requires within { length i.now ≤ end }
    ensures listed { Lists (listed_array (listed_value depth_left) end label i.now)
        nodes.old count nodes.new result }
    ensures used { result.used ≤ length i.now }
{
    match parse_long_bytes(i) {
        Ok((used, content)) => {
            let inner = before(end, &i[used..]);
            let node = covered(label, end, i, content);
            let begun = push(nodes, count, node);
            let filled = list_values(nodes, begun, inner, content, depth_left);
            close(nodes, count, begun, filled);
            Step {
                used,
                count: filled.count,
            }
        }
        Err(_) => Step { used: 0, count },
    }
}

/// A table, in whose values tables and arrays may nest `depth_left` deep.
#[inline(always)]
#[cycle(list)]
pub(crate) fn list_table(
    nodes: &mut [Node],
    count: u32,
    end: u32,
    label: Node,
    i: &[u8],
    depth_left: usize,
) -> Step
    requires within { length i.now ≤ end }
    ensures listed { Lists (listed_table (listed_value depth_left) end label i.now)
        nodes.old count nodes.new result }
    ensures used { result.used ≤ length i.now }
{
    match parse_long_bytes(i) {
        Ok((used, content)) => {
            let inner = before(end, &i[used..]);
            let node = covered(label, end, i, content);
            let begun = push(nodes, count, node);
            let filled = list_entries(nodes, begun, inner, content, depth_left);
            close(nodes, count, begun, filled);
            Step {
                used,
                count: filled.count,
            }
        }
        Err(_) => Step { used: 0, count },
    }
}

/// The values that fill an array.
#[inline(never)]
#[cycle(list)]
pub(crate) fn list_values(
    nodes: &mut [Node],
    count: u32,
    end: u32,
    content: &[u8],
    depth_left: usize,
) -> Filled
    requires within { length content.now ≤ end }
    ensures listed { ListsAll (filled (listed_value depth_left end blank) 0 content.now)
        nodes.old count nodes.new result }
    ensures few { result.items ≤ length content.now }
{
    let mut rest = content;
    let mut items = 0;
    let mut now = count;
    while !rest.is_empty() {
        match split_tag(Node::default(), rest) {
            Some(found) => {
                let Tagged { label, tag, behind } = found;
                let step = list_after_tag(nodes, now, end, label, tag, behind, depth_left);
                now = step.count;
                items += 1;
                rest = &behind[step.used..];
            }
            None => return Filled { items, count: now },
        }
    }
    Filled { items, count: now }
}

/// The entries that fill a table.
#[inline(never)]
#[cycle(list)]
pub(crate) fn list_entries(
    nodes: &mut [Node],
    count: u32,
    end: u32,
    content: &[u8],
    depth_left: usize,
) -> Filled
    requires within { length content.now ≤ end }
    ensures listed { ListsAll (filled (listed_entry (listed_value depth_left) end) 0 content.now)
        nodes.old count nodes.new result }
    ensures few { result.items ≤ length content.now }
{
    let mut rest = content;
    let mut items = 0;
    let mut now = count;
    while !rest.is_empty() {
        match split_entry(end, rest) {
            Some(found) => {
                let Tagged { label, tag, behind } = found;
                let step = list_after_tag(nodes, now, end, label, tag, behind, depth_left);
                now = step.count;
                items += 1;
                rest = &behind[step.used..];
            }
            None => return Filled { items, count: now },
        }
    }
    Filled { items, count: now }
}
