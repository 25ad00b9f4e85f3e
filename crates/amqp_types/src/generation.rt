//! Encoding numbers and booleans: their size, their bytes at a place of a slice, and at the end of a vector.

ghost use Rattle.std.specs.Prelude.{◌≡◌, ◌+◌, ◌≤◌, length, Ok};
ghost use Rattle.amqp_types.specs.Writing.{written, Puts, Appends};
ghost use Rattle.amqp_types.specs.Numbers.{bytes1, bytes2, bytes4, bytes8, number_bytes};
ghost use Rattle.amqp_types.specs.Booleans.{boolean_bytes};

use crate::aliases::{Boolean, Identifier, LongLongUInt, LongUInt, ShortShortUInt, ShortUInt};
use crate::errors::GenError;
use std::alloc::Global;

/// Puts bytes at a place of a slice, and returns the place after them.
#[tactic(auto, unfolding(crate::specs::Writing::written))]
pub fn put_bytes(buf: &mut [u8], at: usize, bytes: &[u8]) -> usize
    requires room { at + length bytes.now ≤ length buf.old }
    ensures { Puts buf.old buf.new at bytes.now result }
{
    let end = at + bytes.len();
    buf[at..end].copy_from_slice(bytes);
    end
}

/// Appends bytes to a vector, which stays as it was where memory runs out.
pub fn append_bytes(out: &mut Vec<u8>, bytes: &[u8]) -> Result<(), GenError>
    ensures { Appends out.old.items out.new.items (Ok (length bytes.now)) bytes.now result }
{
    out.extend_from_slice(bytes)?;
    Ok(())
}

/// The size of a number of 1 byte.
pub fn size_short_short_uint(value: &ShortShortUInt) -> Result<u64, GenError>
    ensures { result ≡ Ok (length (number_bytes bytes1 value.now)) }
{
    let _value = *value;
    Ok(1)
}

/// Puts a number of 1 byte at a place of a slice, and returns the place after it.
pub fn put_short_short_uint(buf: &mut [u8], at: usize, value: &ShortShortUInt) -> usize
    requires room { at + length (number_bytes bytes1 value.now) ≤ length buf.old }
    ensures { Puts buf.old buf.new at (number_bytes bytes1 value.now) result }
{
    put_bytes(buf, at, &value.to_be_bytes())
}

/// Appends a number of 1 byte to a vector.
pub fn gen_short_short_uint(
    _alloc: Global,
    out: &mut Vec<u8>,
    value: ShortShortUInt,
) -> Result<(), GenError>
    ensures { Appends out.old.items out.new.items (Ok 1) (number_bytes bytes1 value) result }
{
    append_bytes(out, &value.to_be_bytes())
}

/// The size of a number of 2 bytes.
pub fn size_short_uint(value: &ShortUInt) -> Result<u64, GenError>
    ensures { result ≡ Ok (length (number_bytes bytes2 value.now)) }
{
    let _value = *value;
    Ok(2)
}

/// Puts a number of 2 bytes at a place of a slice, and returns the place after it.
pub fn put_short_uint(buf: &mut [u8], at: usize, value: &ShortUInt) -> usize
    requires room { at + length (number_bytes bytes2 value.now) ≤ length buf.old }
    ensures { Puts buf.old buf.new at (number_bytes bytes2 value.now) result }
{
    put_bytes(buf, at, &value.to_be_bytes())
}

/// Appends a number of 2 bytes to a vector.
pub fn gen_short_uint(_alloc: Global, out: &mut Vec<u8>, value: ShortUInt) -> Result<(), GenError>
    ensures { Appends out.old.items out.new.items (Ok 2) (number_bytes bytes2 value) result }
{
    append_bytes(out, &value.to_be_bytes())
}

/// The size of a number of 4 bytes.
pub fn size_long_uint(value: &LongUInt) -> Result<u64, GenError>
    ensures { result ≡ Ok (length (number_bytes bytes4 value.now)) }
{
    let _value = *value;
    Ok(4)
}

/// Puts a number of 4 bytes at a place of a slice, and returns the place after it.
pub fn put_long_uint(buf: &mut [u8], at: usize, value: &LongUInt) -> usize
    requires room { at + length (number_bytes bytes4 value.now) ≤ length buf.old }
    ensures { Puts buf.old buf.new at (number_bytes bytes4 value.now) result }
{
    put_bytes(buf, at, &value.to_be_bytes())
}

/// Appends a number of 4 bytes to a vector.
pub fn gen_long_uint(_alloc: Global, out: &mut Vec<u8>, value: LongUInt) -> Result<(), GenError>
    ensures { Appends out.old.items out.new.items (Ok 4) (number_bytes bytes4 value) result }
{
    append_bytes(out, &value.to_be_bytes())
}

/// The size of a number of 8 bytes.
pub fn size_long_long_uint(value: &LongLongUInt) -> Result<u64, GenError>
    ensures { result ≡ Ok (length (number_bytes bytes8 value.now)) }
{
    let _value = *value;
    Ok(8)
}

/// Puts a number of 8 bytes at a place of a slice, and returns the place after it.
pub fn put_long_long_uint(buf: &mut [u8], at: usize, value: &LongLongUInt) -> usize
    requires room { at + length (number_bytes bytes8 value.now) ≤ length buf.old }
    ensures { Puts buf.old buf.new at (number_bytes bytes8 value.now) result }
{
    put_bytes(buf, at, &value.to_be_bytes())
}

/// Appends a number of 8 bytes to a vector.
pub fn gen_long_long_uint(
    _alloc: Global,
    out: &mut Vec<u8>,
    value: LongLongUInt,
) -> Result<(), GenError>
    ensures { Appends out.old.items out.new.items (Ok 8) (number_bytes bytes8 value) result }
{
    append_bytes(out, &value.to_be_bytes())
}

/// The size of an id, 2 bytes.
pub fn size_id(value: &Identifier) -> Result<u64, GenError>
    ensures { result ≡ Ok (length (number_bytes bytes2 value.now)) }
{
    let _value = *value;
    Ok(2)
}

/// Puts an id, 2 bytes at a place of a slice, and returns the place after it.
pub fn put_id(buf: &mut [u8], at: usize, value: &Identifier) -> usize
    requires room { at + length (number_bytes bytes2 value.now) ≤ length buf.old }
    ensures { Puts buf.old buf.new at (number_bytes bytes2 value.now) result }
{
    put_bytes(buf, at, &value.to_be_bytes())
}

/// Appends an id, 2 bytes to a vector.
pub fn gen_id(_alloc: Global, out: &mut Vec<u8>, value: Identifier) -> Result<(), GenError>
    ensures { Appends out.old.items out.new.items (Ok 2) (number_bytes bytes2 value) result }
{
    append_bytes(out, &value.to_be_bytes())
}

/// The size of a truth value, 1 byte.
pub fn size_boolean(value: &Boolean) -> Result<u64, GenError>
    ensures { result ≡ Ok (length (boolean_bytes value.now)) }
{
    let _value = *value;
    Ok(1)
}

/// Puts a truth value, 1 for true and 0 for false, at a place of a slice, and returns the place after it.
pub fn put_boolean(buf: &mut [u8], at: usize, value: &Boolean) -> usize
    requires room { at + length (boolean_bytes value.now) ≤ length buf.old }
    ensures { Puts buf.old buf.new at (boolean_bytes value.now) result }
{
    put_bytes(buf, at, &[u8::from(*value)])
}

/// Appends a truth value to a vector, 1 for true and 0 for false.
pub fn gen_boolean(_alloc: Global, out: &mut Vec<u8>, value: Boolean) -> Result<(), GenError>
    ensures { Appends out.old.items out.new.items (Ok 1) (boolean_bytes value) result }
{
    append_bytes(out, &[u8::from(value)])
}
