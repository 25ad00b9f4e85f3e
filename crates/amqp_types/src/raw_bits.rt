//! Decoding and encoding what stands as the bits of an unsigned number: numbers with a fraction, and
//! times.

ghost use Rattle.std.specs.Prelude.{◌≡◌, ◌+◌, ◌≤◌, length, Ok, IfOk};
ghost use Rattle.amqp_types.specs.Answers.{AnswersFully};
ghost use Rattle.amqp_types.specs.Numbers.{bytes4, bytes8, number_bytes, judge_number};
ghost use Rattle.amqp_types.specs.Writing.{Puts, Appends};

use crate::aliases::{Double, Float, Timestamp};
use crate::errors::{GenError, ParserError};
use crate::generation::{
    gen_long_long_uint, gen_long_uint, put_long_long_uint, put_long_uint, size_long_long_uint,
    size_long_uint,
};
use crate::parsing::{parse_long_long_uint, parse_long_uint};
use std::alloc::Global;

/// Decodes the bits of a number of 4 bytes with a fraction.
pub fn parse_float(i: &[u8]) -> Result<(usize, Float), ParserError>
    ensures judged { AnswersFully (λ n. n) result (judge_number bytes4 i.now) }
    ensures used { IfOk result (λ found. found.0 ≤ length i.now) }
{
    parse_long_uint(i)
}

/// The size of the bits of a number of 4 bytes with a fraction.
pub fn size_float(value: &Float) -> Result<u64, GenError>
    ensures { result ≡ Ok (length (number_bytes bytes4 value.now)) }
{
    size_long_uint(value)
}

/// Puts the bits of a number of 4 bytes with a fraction at a place of a slice, and returns the place after it.
pub fn put_float(buf: &mut [u8], at: usize, value: &Float) -> usize
    requires room { at + length (number_bytes bytes4 value.now) ≤ length buf.old }
    ensures { Puts buf.old buf.new at (number_bytes bytes4 value.now) result }
{
    put_long_uint(buf, at, value)
}

/// Appends the bits of a number of 4 bytes with a fraction to a vector.
pub fn gen_float(alloc: Global, out: &mut Vec<u8>, value: Float) -> Result<(), GenError>
    ensures { Appends out.old.items out.new.items (Ok 4) (number_bytes bytes4 value) result }
{
    gen_long_uint(alloc, out, value)
}

/// Decodes the bits of a number of 8 bytes with a fraction.
pub fn parse_double(i: &[u8]) -> Result<(usize, Double), ParserError>
    ensures judged { AnswersFully (λ n. n) result (judge_number bytes8 i.now) }
    ensures used { IfOk result (λ found. found.0 ≤ length i.now) }
{
    parse_long_long_uint(i)
}

/// The size of the bits of a number of 8 bytes with a fraction.
pub fn size_double(value: &Double) -> Result<u64, GenError>
    ensures { result ≡ Ok (length (number_bytes bytes8 value.now)) }
{
    size_long_long_uint(value)
}

/// Puts the bits of a number of 8 bytes with a fraction at a place of a slice, and returns the place after it.
pub fn put_double(buf: &mut [u8], at: usize, value: &Double) -> usize
    requires room { at + length (number_bytes bytes8 value.now) ≤ length buf.old }
    ensures { Puts buf.old buf.new at (number_bytes bytes8 value.now) result }
{
    put_long_long_uint(buf, at, value)
}

/// Appends the bits of a number of 8 bytes with a fraction to a vector.
pub fn gen_double(alloc: Global, out: &mut Vec<u8>, value: Double) -> Result<(), GenError>
    ensures { Appends out.old.items out.new.items (Ok 8) (number_bytes bytes8 value) result }
{
    gen_long_long_uint(alloc, out, value)
}

/// Decodes a time, 8 bytes.
pub fn parse_timestamp(i: &[u8]) -> Result<(usize, Timestamp), ParserError>
    ensures judged { AnswersFully (λ n. n) result (judge_number bytes8 i.now) }
    ensures used { IfOk result (λ found. found.0 ≤ length i.now) }
{
    parse_long_long_uint(i)
}

/// The size of a time, 8 bytes.
pub fn size_timestamp(value: &Timestamp) -> Result<u64, GenError>
    ensures { result ≡ Ok (length (number_bytes bytes8 value.now)) }
{
    size_long_long_uint(value)
}

/// Puts a time, 8 bytes at a place of a slice, and returns the place after it.
pub fn put_timestamp(buf: &mut [u8], at: usize, value: &Timestamp) -> usize
    requires room { at + length (number_bytes bytes8 value.now) ≤ length buf.old }
    ensures { Puts buf.old buf.new at (number_bytes bytes8 value.now) result }
{
    put_long_long_uint(buf, at, value)
}

/// Appends a time, 8 bytes to a vector.
pub fn gen_timestamp(alloc: Global, out: &mut Vec<u8>, value: Timestamp) -> Result<(), GenError>
    ensures { Appends out.old.items out.new.items (Ok 8) (number_bytes bytes8 value) result }
{
    gen_long_long_uint(alloc, out, value)
}
