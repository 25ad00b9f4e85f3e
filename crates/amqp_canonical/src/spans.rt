//! Where the parts of values and entries lie, by tags and lengths alone, in bytes that were decoded.

ghost use Rattle.std.specs.Prelude.{◌≡◌, ◌≤◌, ◌<◌, ◌+◌, ℕ, length, drop};
ghost use Rattle.std.specs.Prelude.{slice_index_or, IsTrue};
ghost use Rattle.amqp_types.specs.Judging.{Judge};
ghost use Rattle.amqp_types.specs.Strings.{judge_long_string};
ghost use Rattle.amqp_types.specs.ValueBytes.{tagged_bytes, value_bytes};
ghost use Rattle.amqp_types.specs.ValueJudging.{judge_entry, judge_behind, judge_value, nested};
ghost use Rattle.amqp_types.specs.declared.tag.FieldTag.{FieldTag};
ghost use Rattle.amqp_canonical.specs.Judgements.{IsShort, layout_at};
ghost use Rattle.amqp_canonical.specs.Writes.{IsRead, IsCopied, canonical_of};
ghost use Rattle.amqp_canonical.specs.Writes.{entry_bytes, key_in, after_key};
ghost use Rattle.amqp_types.specs.Tidiness.{used_by};

use crate::values::{Layout, TagByte, layout_after};
use amqp_types::parse_long_bytes;

/// How many bytes a value or an entry takes.
#[derive(Clone, Copy)]
pub(crate) struct Span {
    /// How many.
    pub(crate) size: usize,

    /// Whether they are its canonical bytes by its tag, or by its tag and its truth value, so that they can be copied.
    pub(crate) copied: bool,
}

/// How many bytes a length and what it covers take at the front, where both were decoded there.
#[inline(always)]
pub(crate) fn long_size(i: &[u8]) -> usize
    ensures used { IsRead (judge_long_string i.now) → result ≡ used_by (judge_long_string i.now) }
    ensures bound { result ≤ length i.now }
{
    match parse_long_bytes(i) {
        Ok((n, _)) => n,
        Err(_) => 0,
    }
}

/// How many bytes the value after a tag takes at the front, by its layout, where it was decoded there.
#[inline(always)]
pub(crate) fn size_in(layout: Layout, i: &[u8]) -> usize
    requires { IsShort layout }
    ensures used { (depth_left : ℕ) (tag : FieldTag) → layout_at tag ≡ layout
        → IsRead (judge_behind (nested depth_left) tag i.now)
        → result ≡ used_by (judge_behind (nested depth_left) tag i.now) }
    ensures bound { result ≤ length i.now + 8 }
{
    match layout {
        Layout::Fixed(n) => n,
        Layout::OneBoolean => 1,
        Layout::Counted | Layout::Values | Layout::Entries => long_size(i),
    }
}

/// Whether a truth value is copied: its byte is 0 or 1, and the tag byte before it is written.
#[inline(always)]
fn is_truth_copied(written: bool, i: &[u8]) -> bool
    ensures written { IsTrue result → IsTrue written }
    ensures low { IsTrue result → slice_index_or i.now 0 0 ≤ 1 }
{
    match i {
        [byte, ..] if *byte <= 1 => written,
        _ => false,
    }
}

/// What the value after a tag takes at the front, where it was decoded there.
#[inline(always)]
fn span_after(tag: TagByte, i: &[u8]) -> Span
    requires { IsShort tag.layout }
    ensures used { (depth_left : ℕ) (t : FieldTag) → layout_at t ≡ tag.layout
        → IsRead (judge_behind (nested depth_left) t i.now)
        → result.size ≡ used_by (judge_behind (nested depth_left) t i.now) }
    ensures written { IsTrue result.copied → IsTrue tag.written }
    ensures copied { IsTrue result.copied
        → (depth_left : ℕ) (t : FieldTag) → layout_at t ≡ tag.layout
        → IsRead (judge_behind (nested depth_left) t i.now)
        → IsCopied value_bytes i.now result.size (judge_behind (nested depth_left) t i.now) }
    ensures bound { result.size ≤ length i.now + 8 }
{
    match tag.layout {
        Layout::Fixed(n) => Span {
            size: n,
            copied: tag.written,
        },
        Layout::Counted => Span {
            size: long_size(i),
            copied: tag.written,
        },
        Layout::OneBoolean => Span {
            size: 1,
            copied: is_truth_copied(tag.written, i),
        },
        Layout::Values | Layout::Entries => Span {
            size: long_size(i),
            copied: false,
        },
    }
}

/// What a value takes at the front, with its tag, where one was decoded there.
#[inline(always)]
pub(crate) fn value_span(i: &[u8]) -> Span
    ensures used { (depth_left : ℕ) → IsRead (judge_value depth_left i.now)
        → result.size ≡ used_by (judge_value depth_left i.now) }
    ensures copied { IsTrue result.copied → (depth_left : ℕ) → IsRead (judge_value depth_left i.now)
        → IsCopied tagged_bytes i.now result.size (judge_value depth_left i.now) }
    ensures bound { result.size ≤ length i.now + 8 }
{
    match i {
        [] => Span {
            size: 0,
            copied: false,
        },
        [byte, rest @ ..] => match layout_after(*byte) {
            Some(tag) => {
                let after = span_after(tag, rest);
                Span {
                    size: 1 + after.size,
                    copied: after.copied,
                }
            }
            None => Span {
                size: 0,
                copied: false,
            },
        },
    }
}

/// How many bytes a value takes at the front, with its tag, where one was decoded there.
#[inline(always)]
pub fn value_size(i: &[u8]) -> usize
    ensures used { (depth_left : ℕ) → IsRead (judge_value depth_left i.now)
        → result ≡ used_by (judge_value depth_left i.now) }
    ensures bound { result ≤ length i.now + 8 }
{
    value_span(i).size
}

/// What an array or a table at the front holds, where one was decoded there.
pub fn content_of(i: &[u8]) -> &[u8]
    ensures { IsRead (judge_long_string i.now)
        → result.now ≡ canonical_of (λ content. content) (judge_long_string i.now) }
{
    match parse_long_bytes(i) {
        Ok((_, content)) => content,
        Err(_) => &[],
    }
}

/// The bytes from a place on.
#[inline(always)]
pub fn bytes_from(bytes: &[u8], place: usize) -> &[u8]
    ensures { result.now ≡ drop place bytes.now }
{
    match bytes.get(place..) {
        Some(rest) => rest,
        None => &[],
    }
}

/// The key at the front, and what stands after it.
#[inline(always)]
pub fn split_key(i: &[u8]) -> (&[u8], &[u8])
    ensures key { result.0.now ≡ key_in i.now }
    ensures rest { result.1.now ≡ after_key i.now }
{
    match i {
        [] => (&[], &[]),
        [n, rest @ ..] => rest.split_at(rest.len().min(*n as usize)),
    }
}

/// What an entry takes at the front, where one was decoded there.
#[inline(always)]
pub(crate) fn entry_span(i: &[u8]) -> Span
    ensures used { (depth_left : ℕ) → IsRead (judge_entry (judge_value depth_left) i.now)
        → result.size ≡ used_by (judge_entry (judge_value depth_left) i.now) }
    ensures copied { IsTrue result.copied → (depth_left : ℕ)
        → IsRead (judge_entry (judge_value depth_left) i.now)
        → IsCopied entry_bytes i.now result.size (judge_entry (judge_value depth_left) i.now) }
    ensures some { 0 < result.size }
    ensures bound { result.size ≤ length i.now + 9 }
{
    let (key, value) = split_key(i);
    let after = value_span(value);
    Span {
        size: 1 + key.len() + after.size,
        copied: after.copied,
    }
}

/// How many bytes an entry takes at the front, where one was decoded there.
#[inline(always)]
pub fn entry_size(i: &[u8]) -> usize
    ensures used { (depth_left : ℕ) → IsRead (judge_entry (judge_value depth_left) i.now)
        → result ≡ used_by (judge_entry (judge_value depth_left) i.now) }
    ensures some { 0 < result }
    ensures bound { result ≤ length i.now + 9 }
{
    entry_span(i).size
}
