//! Texts, lengths and tags put in front of bytes, where there is room for them.

ghost use Rattle.std.specs.Prelude.{◌≤◌, ◌<◌, ◌+◌, ◌*◌, ◌^◌, ◌∷◌, length};
ghost use Rattle.amqp_types.specs.Strings.{short_string_bytes, with_length};
ghost use Rattle.amqp_types.specs.Writing.{Puts};

use amqp_canonical::{put_ends, put_few};
use amqp_types::{put_bytes, put_long_uint};

/// Puts a short string, its length first.
#[inline(always)]
pub fn put_text(buf: &mut [u8], at: usize, text: &[u8]) -> usize
    requires few { length text.now < 256 }
    requires room { at + length (short_string_bytes text.now) ≤ length buf.old }
    ensures { Puts buf.old buf.new at (short_string_bytes text.now) result }
{
    let place = put_bytes(buf, at, &[text.len() as u8]);
    put_few(buf, place, text)
}

/// The same as `put_text` by a call, for texts of which there may be many.
#[inline(never)]
pub fn called_put_text(buf: &mut [u8], at: usize, text: &[u8]) -> usize
    requires few { length text.now < 256 }
    requires room { at + length (short_string_bytes text.now) ≤ length buf.old }
    ensures { Puts buf.old buf.new at (short_string_bytes text.now) result }
{
    put_text(buf, at, text)
}

/// Puts a short string, its length first, and then its first and its last N bytes, which may overlap. This is quicker than a
/// call that copies.
#[inline(always)]
pub(crate) fn put_text_ends<const N: usize>(buf: &mut [u8], at: usize, text: &[u8]) -> usize
    requires some { N ≤ length text.now }
    requires covered { length text.now ≤ 2 * N }
    requires few { length text.now < 256 }
    requires room { at + length (short_string_bytes text.now) ≤ length buf.old }
    ensures { Puts buf.old buf.new at (short_string_bytes text.now) result }
{
    let place = put_bytes(buf, at, &[text.len() as u8]);
    put_ends::<N>(buf, place, text)
}

/// Puts bytes with their length in 4 bytes in front.
#[inline(always)]
pub fn put_counted(buf: &mut [u8], at: usize, bytes: &[u8]) -> usize
    requires few { length bytes.now < 2 ^ 32 }
    requires room { at + length (with_length bytes.now) ≤ length buf.old }
    ensures { Puts buf.old buf.new at (with_length bytes.now) result }
{
    let place = put_long_uint(buf, at, &(bytes.len() as u32));
    put_few(buf, place, bytes)
}

/// Puts a tag and the bytes of a value after it.
#[inline(always)]
pub(crate) fn put_tagged(buf: &mut [u8], at: usize, tag: u8, bytes: &[u8]) -> usize
    requires room { at + length (tag ∷ bytes.now) ≤ length buf.old }
    ensures { Puts buf.old buf.new at (tag ∷ bytes.now) result }
{
    let place = put_bytes(buf, at, &[tag]);
    put_bytes(buf, place, bytes)
}

/// Puts a tag, and bytes with their length in 4 bytes after it.
#[inline(always)]
pub(crate) fn put_tagged_counted(buf: &mut [u8], at: usize, tag: u8, bytes: &[u8]) -> usize
    requires few { length bytes.now < 2 ^ 32 }
    requires room { at + length (tag ∷ with_length bytes.now) ≤ length buf.old }
    ensures { Puts buf.old buf.new at (tag ∷ with_length bytes.now) result }
{
    let place = put_bytes(buf, at, &[tag]);
    put_counted(buf, place, bytes)
}
