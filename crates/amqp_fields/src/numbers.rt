//! The nodes of numbers, strings and byte arrays.

ghost use Rattle.std.specs.Prelude.{◌≤◌, length, None};
ghost use Rattle.amqp_types.specs.Numbers.{bytes1, bytes2, bytes4, bytes8};
ghost use Rattle.amqp_types.specs.Strings.{judge_short_string, judge_long_string};
ghost use Rattle.amqp_fields.specs.Finding.{Lists};
ghost use Rattle.amqp_fields.specs.Listed.{listed_behind, listed_number, listed_span};

use crate::listing::{Step, push};
use crate::node::{Node, before, covered, spanned};
use amqp_types::{
    FieldTag, parse_boolean, parse_decimal_value, parse_long_bytes, parse_long_int,
    parse_long_long_int, parse_short_int, parse_short_short_int,
};

/// An unsigned number of 1 byte.
#[inline(always)]
pub(crate) fn list_octet(nodes: &mut [Node], count: u32, label: Node, i: &[u8]) -> Step
    ensures listed { Lists (listed_number bytes1 label i.now) nodes.old count nodes.new result }
    ensures used { result.used ≤ length i.now }
{
    match i {
        [byte, ..] => Step {
            used: 1,
            count: push(
                nodes,
                count,
                Node {
                    number: *byte as u64,
                    ..label
                },
            ),
        },
        [] => Step { used: 0, count },
    }
}

/// An unsigned number of 2 bytes.
#[inline(always)]
pub(crate) fn list_short(nodes: &mut [Node], count: u32, label: Node, i: &[u8]) -> Step
    ensures listed { Lists (listed_number bytes2 label i.now) nodes.old count nodes.new result }
    ensures used { result.used ≤ length i.now }
{
    match i {
        [a, b, ..] => {
            let number = u16::from_be_bytes([*a, *b]) as u64;
            let count = push(nodes, count, Node { number, ..label });
            Step { used: 2, count }
        }
        _ => Step { used: 0, count },
    }
}

/// An unsigned number of 4 bytes.
#[inline(always)]
pub(crate) fn list_long(nodes: &mut [Node], count: u32, label: Node, i: &[u8]) -> Step
    ensures listed { Lists (listed_number bytes4 label i.now) nodes.old count nodes.new result }
    ensures used { result.used ≤ length i.now }
{
    match i {
        [a, b, c, d, ..] => {
            let number = u32::from_be_bytes([*a, *b, *c, *d]) as u64;
            let count = push(nodes, count, Node { number, ..label });
            Step { used: 4, count }
        }
        _ => Step { used: 0, count },
    }
}

/// An unsigned number of 8 bytes.
#[inline(always)]
pub(crate) fn list_long_long(nodes: &mut [Node], count: u32, label: Node, i: &[u8]) -> Step
    ensures listed { Lists (listed_number bytes8 label i.now) nodes.old count nodes.new result }
    ensures used { result.used ≤ length i.now }
{
    match i {
        [a, b, c, d, e, f, g, h, ..] => {
            let number = u64::from_be_bytes([*a, *b, *c, *d, *e, *f, *g, *h]);
            let count = push(nodes, count, Node { number, ..label });
            Step { used: 8, count }
        }
        _ => Step { used: 0, count },
    }
}

/// A long string or a byte array.
#[inline(always)]
#[tactic(auto, using(crate::proofs::Strings::long_size, crate::proofs::Strings::long_listed, crate::proofs::Strings::unlisted))]
pub(crate) fn list_long_string(
    nodes: &mut [Node],
    count: u32,
    end: u32,
    label: Node,
    i: &[u8],
) -> Step
    requires within { length i.now ≤ end }
    ensures listed { Lists (listed_span judge_long_string end label i.now)
        nodes.old count nodes.new result }
    ensures used { result.used ≤ length i.now }
{
    match parse_long_bytes(i) {
        Ok((used, content)) => {
            let node = covered(label, end, i, content);
            let count = push(nodes, count, node);
            Step { used, count }
        }
        Err(_) => Step { used: 0, count },
    }
}

/// The value after a tag; of an array or a table nothing is put.
#[inline(always)]
#[tactic(auto, using(crate::proofs::Stepping::listed_next), unfolding(crate::specs::Listed::listed_behind))]
pub(crate) fn list_leaf(
    nodes: &mut [Node],
    count: u32,
    end: u32,
    label: Node,
    tag: FieldTag,
    i: &[u8],
) -> Step
    requires within { length i.now ≤ end }
    ensures listed { Lists (listed_behind None end label tag i.now)
        nodes.old count nodes.new result }
    ensures used { result.used ≤ length i.now }
{
    // The node of what a parse call found; nothing is put where it found nothing.
    macro_rules! put {
        ($found:expr, $it:ident => $node:expr) => {
            match $found {
                Ok((used, $it)) => Step {
                    used,
                    count: push(nodes, count, $node),
                },
                Err(_) => Step { used: 0, count },
            }
        };
    }
    macro_rules! put_number {
        ($found:expr, $it:ident => $number:expr) => {
            put!($found, $it => Node { number: $number, ..label })
        };
    }
    // Kinds that are encoded alike have an arm each, in which the kind is a constant.
    match tag {
        FieldTag::Boolean => put_number!(parse_boolean(i), truth => if truth { 1 } else { 0 }),
        FieldTag::ShortShortInt => {
            put_number!(parse_short_short_int(i), n => (n as i64).cast_unsigned())
        }
        FieldTag::ShortShortUInt => list_octet(nodes, count, label, i),
        FieldTag::ShortInt => put_number!(parse_short_int(i), n => (n as i64).cast_unsigned()),
        FieldTag::ShortUInt => list_short(nodes, count, label, i),
        FieldTag::LongInt => put_number!(parse_long_int(i), n => (n as i64).cast_unsigned()),
        FieldTag::LongUInt => list_long(nodes, count, label, i),
        FieldTag::Float => list_long(nodes, count, label, i),
        FieldTag::LongLongInt => put_number!(parse_long_long_int(i), n => n.cast_unsigned()),
        FieldTag::Double => list_long_long(nodes, count, label, i),
        FieldTag::Timestamp => list_long_long(nodes, count, label, i),
        FieldTag::DecimalValue => put!(parse_decimal_value(i), decimal => Node {
            number: decimal.value as u64,
            scale: decimal.scale,
            ..label
        }),
        FieldTag::LongString => list_long_string(nodes, count, end, label, i),
        FieldTag::ByteArray => list_long_string(nodes, count, end, label, i),
        FieldTag::FieldArray | FieldTag::FieldTable => Step { used: 0, count },
        FieldTag::Void => Step {
            used: 0,
            count: push(nodes, count, label),
        },
    }
}

/// A short string.
#[inline(always)]
pub(crate) fn list_short_string(
    nodes: &mut [Node],
    count: u32,
    end: u32,
    label: Node,
    i: &[u8],
) -> Step
    requires within { length i.now ≤ end }
    ensures listed { Lists (listed_span judge_short_string end label i.now)
        nodes.old count nodes.new result }
    ensures used { result.used ≤ length i.now }
{
    match i {
        [] => Step { used: 0, count },
        [n, rest @ ..] => {
            let n = *n as usize;
            if n > rest.len() {
                return Step { used: 0, count };
            }
            let behind = before(end, &rest[n..]);
            let node = spanned(label, behind, &rest[..n]);
            let count = push(nodes, count, node);
            Step { used: 1 + n, count }
        }
    }
}
