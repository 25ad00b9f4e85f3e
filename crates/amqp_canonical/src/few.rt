//! Few bytes, put by words.

ghost use Rattle.std.specs.Prelude.{◌≤◌, ◌+◌, ◌*◌, length};
ghost use Rattle.amqp_types.specs.Writing.{Puts};

use amqp_types::put_bytes;

/// Puts bytes by the first and the last N of them, which may overlap, and returns the place after them.
#[inline(always)]
pub fn put_ends<const N: usize>(buf: &mut [u8], at: usize, bytes: &[u8]) -> usize
    requires many { N ≤ length bytes.now }
    requires few { length bytes.now ≤ 2 * N }
    requires room { at + length bytes.now ≤ length buf.old }
    ensures { Puts buf.old buf.new at bytes.now result }
{
    let size = bytes.len();
    let mut first = [0u8; N];
    let mut last = [0u8; N];
    first.copy_from_slice(&bytes[..N]);
    last.copy_from_slice(&bytes[size - N..]);
    put_bytes(buf, at, &first);
    put_bytes(buf, at + size - N, &last)
}

/// Puts bytes at a place of a slice. Apart, since most are few.
#[inline(never)]
fn put_many(buf: &mut [u8], at: usize, bytes: &[u8]) -> usize
    requires room { at + length bytes.now ≤ length buf.old }
    ensures { Puts buf.old buf.new at bytes.now result }
{
    let n = bytes.len();
    if 16 <= n && n <= 32 {
        return put_ends::<16>(buf, at, bytes);
    }
    put_bytes(buf, at, bytes)
}

/// Puts bytes at a place of a slice, and returns the place after them, in fewer instructions than `put_bytes` where they
/// are four to sixteen.
#[inline(always)]
pub fn put_few(buf: &mut [u8], at: usize, bytes: &[u8]) -> usize
    requires room { at + length bytes.now ≤ length buf.old }
    ensures { Puts buf.old buf.new at bytes.now result }
{
    let n = bytes.len();
    if 8 <= n && n <= 16 {
        return put_ends::<8>(buf, at, bytes);
    }
    if 4 <= n && n <= 7 {
        return put_ends::<4>(buf, at, bytes);
    }
    put_many(buf, at, bytes)
}
