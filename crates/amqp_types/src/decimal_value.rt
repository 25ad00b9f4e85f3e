//! Decimal values, and how they are decoded and encoded: from the front of a slice, at a place of a slice, and at the
//! end of a vector.

ghost use Rattle.std.specs.Prelude.{◌≡◌, ◌+◌, ◌≤◌, length, Ok, IfOk};
ghost use Rattle.amqp_types.specs.Answers.{AnswersFully};
ghost use Rattle.amqp_types.specs.ValueBytes.{decimal_bytes};
ghost use Rattle.amqp_types.specs.ValueJudging.{judge_decimal};
ghost use Rattle.amqp_types.specs.Writing.{Puts, Appends};

use crate::aliases::{LongUInt, ShortShortUInt};
use crate::errors::{GenError, ParserError};
use crate::generation::{put_long_uint, put_short_short_uint};
use crate::growing::grow;
use crate::parsing::{parse_long_uint, parse_short_short_uint};
use std::alloc::Global;

/// A decimal value (AMQP 0-9-1, section 4.2.5.5): a number that is to be divided by ten as often as the scale says.
#[derive(Clone, Copy, Debug, PartialEq, Eq)]
pub struct DecimalValue {
    /// How many digits stand after the point.
    pub scale: ShortShortUInt,

    /// The digits, as one number.
    pub value: LongUInt,
}

/// Decodes a scale and a number.
#[tactic(auto, unfolding(crate::specs::ValueJudging::judge_decimal))]
pub fn parse_decimal_value(i: &[u8]) -> Result<(usize, DecimalValue), ParserError>
    ensures judged { AnswersFully
        (λ decimal. (decimal.scale, decimal.value)) result (judge_decimal i.now) }
    ensures used { IfOk result (λ found. found.0 ≤ length i.now) }
{
    let (n, scale) = parse_short_short_uint(i)?;
    let (m, value) = parse_long_uint(&i[n..])?;
    Ok((n + m, DecimalValue { scale, value }))
}

/// The size of a scale and a number, 5 bytes.
pub fn size_decimal_value(value: &DecimalValue) -> Result<u64, GenError>
    ensures { result ≡ Ok (length (decimal_bytes value.now.scale value.now.value)) }
{
    let _value = *value;
    Ok(5)
}

/// Puts a scale and a number at a place of a slice, and returns the place after them.
pub fn put_decimal_value(buf: &mut [u8], at: usize, value: &DecimalValue) -> usize
    requires room { at + length (decimal_bytes value.now.scale value.now.value) ≤ length buf.old }
    ensures { Puts buf.old buf.new at (decimal_bytes value.now.scale value.now.value) result }
{
    let place = put_short_short_uint(buf, at, &value.scale);
    put_long_uint(buf, place, &value.value)
}

/// Appends a scale and a number to a vector.
pub fn gen_decimal_value(
    _alloc: Global,
    out: &mut Vec<u8>,
    value: DecimalValue,
) -> Result<(), GenError>
    ensures { Appends out.old.items out.new.items (Ok 5)
        (decimal_bytes value.scale value.value) result }
{
    let at = grow(out, 5)?;
    put_decimal_value(out, at, &value);
    Ok(())
}
