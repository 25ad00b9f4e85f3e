//! Decoding and encoding signed numbers in two's complement, the most significant byte first: from the front of a
//! slice, at a place of a slice, and at the end of a vector.

ghost use Rattle.std.specs.Prelude.{◌≡◌, ◌+◌, ◌≤◌, length, Ok, IfOk};
ghost use Rattle.amqp_types.specs.Answers.{AnswersFully};
ghost use Rattle.amqp_types.specs.Numbers.{bytes1, bytes2, bytes4, bytes8};
ghost use Rattle.amqp_types.specs.Signed.{signed_bytes, judge_signed};
ghost use Rattle.amqp_types.specs.Writing.{Puts, Appends};

use crate::aliases::{LongInt, LongLongInt, ShortInt, ShortShortInt};
use crate::errors::{GenError, ParserError};
use crate::generation::{append_bytes, put_bytes};
use std::alloc::Global;

/// Decodes a signed number of 1 byte.
pub fn parse_short_short_int(i: &[u8]) -> Result<(usize, ShortShortInt), ParserError>
    ensures judged { AnswersFully (λ n. n) result (judge_signed bytes1 i.now) }
    ensures used { IfOk result (λ found. found.0 ≤ length i.now) }
{
    match i {
        [a, ..] => Ok((1, i8::from_be_bytes([*a]))),
        _ => Err(ParserError::Incomplete),
    }
}

/// The size of a signed number of 1 byte.
pub fn size_short_short_int(value: &ShortShortInt) -> Result<u64, GenError>
    ensures { result ≡ Ok (length (signed_bytes bytes1 value.now)) }
{
    let _value = *value;
    Ok(1)
}

/// Puts a signed number of 1 byte at a place of a slice, and returns the place after it.
pub fn put_short_short_int(buf: &mut [u8], at: usize, value: &ShortShortInt) -> usize
    requires room { at + length (signed_bytes bytes1 value.now) ≤ length buf.old }
    ensures { Puts buf.old buf.new at (signed_bytes bytes1 value.now) result }
{
    put_bytes(buf, at, &value.to_be_bytes())
}

/// Appends a signed number of 1 byte to a vector.
pub fn gen_short_short_int(
    _alloc: Global,
    out: &mut Vec<u8>,
    value: ShortShortInt,
) -> Result<(), GenError>
    ensures { Appends out.old.items out.new.items (Ok 1) (signed_bytes bytes1 value) result }
{
    append_bytes(out, &value.to_be_bytes())
}

/// Decodes a signed number of 2 bytes.
pub fn parse_short_int(i: &[u8]) -> Result<(usize, ShortInt), ParserError>
    ensures judged { AnswersFully (λ n. n) result (judge_signed bytes2 i.now) }
    ensures used { IfOk result (λ found. found.0 ≤ length i.now) }
{
    match i {
        [a, b, ..] => Ok((2, i16::from_be_bytes([*a, *b]))),
        _ => Err(ParserError::Incomplete),
    }
}

/// The size of a signed number of 2 bytes.
pub fn size_short_int(value: &ShortInt) -> Result<u64, GenError>
    ensures { result ≡ Ok (length (signed_bytes bytes2 value.now)) }
{
    let _value = *value;
    Ok(2)
}

/// Puts a signed number of 2 bytes at a place of a slice, and returns the place after it.
pub fn put_short_int(buf: &mut [u8], at: usize, value: &ShortInt) -> usize
    requires room { at + length (signed_bytes bytes2 value.now) ≤ length buf.old }
    ensures { Puts buf.old buf.new at (signed_bytes bytes2 value.now) result }
{
    put_bytes(buf, at, &value.to_be_bytes())
}

/// Appends a signed number of 2 bytes to a vector.
pub fn gen_short_int(_alloc: Global, out: &mut Vec<u8>, value: ShortInt) -> Result<(), GenError>
    ensures { Appends out.old.items out.new.items (Ok 2) (signed_bytes bytes2 value) result }
{
    append_bytes(out, &value.to_be_bytes())
}

/// Decodes a signed number of 4 bytes.
pub fn parse_long_int(i: &[u8]) -> Result<(usize, LongInt), ParserError>
    ensures judged { AnswersFully (λ n. n) result (judge_signed bytes4 i.now) }
    ensures used { IfOk result (λ found. found.0 ≤ length i.now) }
{
    match i {
        [a, b, c, d, ..] => Ok((4, i32::from_be_bytes([*a, *b, *c, *d]))),
        _ => Err(ParserError::Incomplete),
    }
}

/// The size of a signed number of 4 bytes.
pub fn size_long_int(value: &LongInt) -> Result<u64, GenError>
    ensures { result ≡ Ok (length (signed_bytes bytes4 value.now)) }
{
    let _value = *value;
    Ok(4)
}

/// Puts a signed number of 4 bytes at a place of a slice, and returns the place after it.
pub fn put_long_int(buf: &mut [u8], at: usize, value: &LongInt) -> usize
    requires room { at + length (signed_bytes bytes4 value.now) ≤ length buf.old }
    ensures { Puts buf.old buf.new at (signed_bytes bytes4 value.now) result }
{
    put_bytes(buf, at, &value.to_be_bytes())
}

/// Appends a signed number of 4 bytes to a vector.
pub fn gen_long_int(_alloc: Global, out: &mut Vec<u8>, value: LongInt) -> Result<(), GenError>
    ensures { Appends out.old.items out.new.items (Ok 4) (signed_bytes bytes4 value) result }
{
    append_bytes(out, &value.to_be_bytes())
}

/// Decodes a signed number of 8 bytes.
pub fn parse_long_long_int(i: &[u8]) -> Result<(usize, LongLongInt), ParserError>
    ensures judged { AnswersFully (λ n. n) result (judge_signed bytes8 i.now) }
    ensures used { IfOk result (λ found. found.0 ≤ length i.now) }
{
    match i {
        [a, b, c, d, e, f, g, h, ..] => Ok((
            8,
            i64::from_be_bytes([*a, *b, *c, *d, *e, *f, *g, *h]),
        )),
        _ => Err(ParserError::Incomplete),
    }
}

/// The size of a signed number of 8 bytes.
pub fn size_long_long_int(value: &LongLongInt) -> Result<u64, GenError>
    ensures { result ≡ Ok (length (signed_bytes bytes8 value.now)) }
{
    let _value = *value;
    Ok(8)
}

/// Puts a signed number of 8 bytes at a place of a slice, and returns the place after it.
pub fn put_long_long_int(buf: &mut [u8], at: usize, value: &LongLongInt) -> usize
    requires room { at + length (signed_bytes bytes8 value.now) ≤ length buf.old }
    ensures { Puts buf.old buf.new at (signed_bytes bytes8 value.now) result }
{
    put_bytes(buf, at, &value.to_be_bytes())
}

/// Appends a signed number of 8 bytes to a vector.
pub fn gen_long_long_int(
    _alloc: Global,
    out: &mut Vec<u8>,
    value: LongLongInt,
) -> Result<(), GenError>
    ensures { Appends out.old.items out.new.items (Ok 8) (signed_bytes bytes8 value) result }
{
    append_bytes(out, &value.to_be_bytes())
}
