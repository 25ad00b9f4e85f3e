//! Decoding numbers and booleans from the front of a slice. Each call returns how many bytes it used, and the value;
//! where the slice is shorter, the error is `Incomplete`.

ghost use Rattle.std.specs.Prelude.{◌≤◌, length, IfOk};
ghost use Rattle.amqp_types.specs.Answers.{AnswersFully};
ghost use Rattle.amqp_types.specs.Numbers.{bytes1, bytes2, bytes4, bytes8, judge_number};
ghost use Rattle.amqp_types.specs.Booleans.{judge_boolean};

use crate::aliases::{Boolean, Identifier, LongLongUInt, LongUInt, ShortShortUInt, ShortUInt};
use crate::errors::ParserError;

/// Decodes an unsigned number of 1 byte.
pub fn parse_short_short_uint(i: &[u8]) -> Result<(usize, ShortShortUInt), ParserError>
    ensures judged { AnswersFully (λ n. n) result (judge_number bytes1 i.now) }
    ensures used { IfOk result (λ found. found.0 ≤ length i.now) }
{
    match i {
        [byte, ..] => Ok((1, *byte)),
        [] => Err(ParserError::Incomplete),
    }
}

/// Decodes an unsigned number of 2 bytes, the most significant first.
pub fn parse_short_uint(i: &[u8]) -> Result<(usize, ShortUInt), ParserError>
    ensures judged { AnswersFully (λ n. n) result (judge_number bytes2 i.now) }
    ensures used { IfOk result (λ found. found.0 ≤ length i.now) }
{
    match i {
        [a, b, ..] => Ok((2, u16::from_be_bytes([*a, *b]))),
        _ => Err(ParserError::Incomplete),
    }
}

/// Decodes an unsigned number of 4 bytes, the most significant first.
pub fn parse_long_uint(i: &[u8]) -> Result<(usize, LongUInt), ParserError>
    ensures judged { AnswersFully (λ n. n) result (judge_number bytes4 i.now) }
    ensures used { IfOk result (λ found. found.0 ≤ length i.now) }
{
    match i {
        [a, b, c, d, ..] => Ok((4, u32::from_be_bytes([*a, *b, *c, *d]))),
        _ => Err(ParserError::Incomplete),
    }
}

/// Decodes an unsigned number of 8 bytes, the most significant first.
pub fn parse_long_long_uint(i: &[u8]) -> Result<(usize, LongLongUInt), ParserError>
    ensures judged { AnswersFully (λ n. n) result (judge_number bytes8 i.now) }
    ensures used { IfOk result (λ found. found.0 ≤ length i.now) }
{
    match i {
        [a, b, c, d, e, f, g, h, ..] => {
            Ok((8, u64::from_be_bytes([*a, *b, *c, *d, *e, *f, *g, *h])))
        }
        _ => Err(ParserError::Incomplete),
    }
}

/// Decodes the id of a class or of a method, 2 bytes.
pub fn parse_id(i: &[u8]) -> Result<(usize, Identifier), ParserError>
    ensures judged { AnswersFully (λ n. n) result (judge_number bytes2 i.now) }
    ensures used { IfOk result (λ found. found.0 ≤ length i.now) }
{
    parse_short_uint(i)
}

/// Decodes a truth value, 1 byte: 0 is false, any other byte is true.
pub fn parse_boolean(i: &[u8]) -> Result<(usize, Boolean), ParserError>
    ensures judged { AnswersFully (λ b. b) result (judge_boolean i.now) }
    ensures used { IfOk result (λ found. found.0 ≤ length i.now) }
{
    match i {
        [byte, ..] => Ok((1, *byte != 0)),
        [] => Err(ParserError::Incomplete),
    }
}
