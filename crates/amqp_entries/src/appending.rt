//! Entries of tables and values of arrays, appended one after another to a content in a slice.

ghost use Rattle.std.specs.Prelude.{◌≡◌, ◌≤◌, ◌<◌, ◌+◌, ◌*◌, ◌^◌, ◌↔◌, Ok, IfOk, IsTrue, length};
ghost use Rattle.std.specs.Str.{IsAscii};
ghost use Rattle.amqp_types.specs.Strings.{short_string_bytes};
ghost use Rattle.amqp_entries.specs.Appending.{AppendsEntry, AppendsValue};
ghost use Rattle.amqp_entries.specs.Flaws.{size_or, text_flaw};
ghost use Rattle.amqp_entries.specs.Written.{IsWritten};

use crate::errors::PutError;
use crate::few::{is_key_of_eights, is_key_of_fours, text_size};
use crate::puts::{put_text, put_text_ends};
use crate::values::ToValue;

/// Whether a slice has room for so many bytes from a place on, which may lie after its end.
#[inline(always)]
fn has_room(out: &[u8], at: usize, size: usize) -> bool
    requires some { 0 < size }
    ensures { IsTrue result ↔ (at + size ≤ length out.now) }
{
    size <= out.len().saturating_sub(at)
}

/// How many bytes a key has with its length that was found to be short and ASCII.
#[inline(always)]
fn short_key_size(key: &[u8]) -> usize
    requires few { length key.now ≤ 16 }
    requires ascii { IsAscii key.now }
    ensures size { Ok result ≡ size_or (text_flaw key.now) (short_string_bytes key.now) }
    ensures bound { result ≤ 17 }
{
    1 + key.len()
}

/// The same as `append_entry` with a short ASCII key, which is put by its first and its last N bytes.
#[inline(always)]
fn append_ends<V: ToValue, const N: usize>(
    out: &mut [u8],
    at: usize,
    key: &[u8],
    value: &V,
) -> Result<usize, PutError>
    requires some { N ≤ length key.now }
    requires covered { length key.now ≤ 2 * N }
    requires few { length key.now ≤ 16 }
    requires ascii { IsAscii key.now }
    ensures appends { AppendsEntry out.old out.new at key.now
        (V.value value.now) (V.flaw value.now) result }
    ensures written { IfOk result (λ _. IsWritten (V.value value.now)) }
{
    let key_size = short_key_size(key);
    let size = key_size + value.measure()?;
    if !has_room(out, at, size) {
        return Err(PutError::BufferTooSmall(at.saturating_add(size)));
    }
    let place = put_text_ends::<N>(out, at, key);
    Ok(value.put(out, place))
}

/// The same as `append_entry` with any key.
#[inline(never)]
fn append_any<V: ToValue>(
    out: &mut [u8],
    at: usize,
    key: &[u8],
    value: &V,
) -> Result<usize, PutError>
    ensures appends { AppendsEntry out.old out.new at key.now
        (V.value value.now) (V.flaw value.now) result }
    ensures written { IfOk result (λ _. IsWritten (V.value value.now)) }
{
    let key_size = text_size(key)?;
    let size = key_size + value.measure()?;
    if !has_room(out, at, size) {
        return Err(PutError::BufferTooSmall(at.saturating_add(size)));
    }
    let place = put_text(out, at, key);
    Ok(value.put(out, place))
}

/// Puts the canonical bytes of an entry after those in front of a place of a slice, and returns the place after them. The key
/// is tested first, then the value, and then whether there is room.
#[inline(always)]
pub fn append_entry<V: ToValue>(
    out: &mut [u8],
    at: usize,
    key: &[u8],
    value: &V,
) -> Result<usize, PutError>
    ensures appends { AppendsEntry out.old out.new at key.now
        (V.value value.now) (V.flaw value.now) result }
    ensures written { IfOk result (λ _. IsWritten (V.value value.now)) }
{
    if is_key_of_fours(key) {
        return append_ends::<V, 4>(out, at, key, value);
    }
    if is_key_of_eights(key) {
        return append_ends::<V, 8>(out, at, key, value);
    }
    // Taken apart, since the compiler then passes no result on in memory.
    match append_any(out, at, key, value) {
        Ok(end) => return Ok(end),
        Err(refusal) => return Err(refusal),
    }
}

/// Puts the canonical bytes of a value of an array after those in front of a place of a slice, and returns the place after
/// them. The value is tested first, and then whether there is room.
#[inline(always)]
pub fn append_value<V: ToValue>(out: &mut [u8], at: usize, value: &V) -> Result<usize, PutError>
    ensures appends { AppendsValue out.old out.new at
        (V.value value.now) (V.flaw value.now) result }
    ensures written { IfOk result (λ _. IsWritten (V.value value.now)) }
{
    let size = value.measure()?;
    if !has_room(out, at, size) {
        return Err(PutError::BufferTooSmall(at.saturating_add(size)));
    }
    Ok(value.put(out, at))
}
