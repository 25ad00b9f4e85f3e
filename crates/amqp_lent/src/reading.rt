//! Values and entries that were decoded before, decoded again where they stand.

ghost use Rattle.std.specs.Prelude.{◌≡◌, ◌≤◌, length, option_map, IfOk, IfSome};
ghost use Rattle.amqp_types.specs.Answers.{AnswersFully};
ghost use Rattle.amqp_types.specs.ValueJudging.{filled, judge_array, judge_behind, judge_entry};
ghost use Rattle.amqp_types.specs.ValueJudging.{judge_table, judge_value, nested};
ghost use Rattle.amqp_canonical.specs.Writes.{IsFilled, IsRead};
ghost use Rattle.amqp_lent.specs.Finding.{StartsWith};
ghost use Rattle.amqp_lent.specs.Views.{entry_of, taken, value_of};

use crate::value::{LentArray, LentTable, LentValue};
use amqp_canonical::{bytes_from, value_size};
use amqp_types::{
    FieldTag, ParserError, parse_boolean, parse_decimal_value, parse_double, parse_float,
    parse_long_bytes, parse_long_int, parse_long_long_int, parse_long_uint, parse_short_int,
    parse_short_short_int, parse_short_short_uint, parse_short_str, parse_short_uint,
    parse_timestamp,
};

/// Borrows an array, in whose values tables and arrays may nest `depth_left` deep.
#[tactic(auto, using(crate::proofs::Rereading::fully_next), unfolding(amqp_types::specs::ValueJudging::judge_array))]
fn read_array<'a>(i: &'a [u8], depth_left: usize) -> Result<(usize, LentArray<'a>), ParserError>
    requires read { IsRead (judge_array (judge_value depth_left) i.now) }
    ensures judged { AnswersFully (λ array. array) result
        (judge_array (judge_value depth_left) i.now) }
    ensures used { IfOk result (λ found. found.0 ≤ length i.now) }
{
    let (n, content) = parse_long_bytes(i)?;
    Ok((
        n,
        LentArray {
            content,
            depth_left,
        },
    ))
}

/// Borrows a table, in whose values tables and arrays may nest `depth_left` deep.
#[tactic(auto, using(crate::proofs::Rereading::fully_next), unfolding(amqp_types::specs::ValueJudging::judge_table))]
pub(crate) fn read_table<'a>(
    i: &'a [u8],
    depth_left: usize,
) -> Result<(usize, LentTable<'a>), ParserError>
    requires read { IsRead (judge_table (judge_value depth_left) i.now) }
    ensures judged { AnswersFully (λ table. table) result
        (judge_table (judge_value depth_left) i.now) }
    ensures used { IfOk result (λ found. found.0 ≤ length i.now) }
{
    let (n, content) = parse_long_bytes(i)?;
    Ok((
        n,
        LentTable {
            content,
            depth_left,
        },
    ))
}

/// Reads the value after a tag.
#[tactic(auto, using(crate::proofs::Rereading::fully_next, amqp_laws::proofs::Filling::nested_none, amqp_laws::proofs::Filling::nested_more), unfolding(amqp_types::specs::ValueJudging::judge_behind))]
fn read_after<'a>(
    tag: FieldTag,
    i: &'a [u8],
    depth_left: usize,
) -> Result<(usize, LentValue<'a>), ParserError>
    requires read { IsRead (judge_behind (nested depth_left) tag i.now) }
    ensures judged { AnswersFully value_of result (judge_behind (nested depth_left) tag i.now) }
    ensures used { IfOk result (λ found. found.0 ≤ length i.now) }
{
    match tag {
        FieldTag::Boolean => {
            let (n, value) = parse_boolean(i)?;
            Ok((n, LentValue::Boolean(value)))
        }
        FieldTag::ShortShortInt => {
            let (n, value) = parse_short_short_int(i)?;
            Ok((n, LentValue::ShortShortInt(value)))
        }
        FieldTag::ShortShortUInt => {
            let (n, value) = parse_short_short_uint(i)?;
            Ok((n, LentValue::ShortShortUInt(value)))
        }
        FieldTag::ShortInt => {
            let (n, value) = parse_short_int(i)?;
            Ok((n, LentValue::ShortInt(value)))
        }
        FieldTag::ShortUInt => {
            let (n, value) = parse_short_uint(i)?;
            Ok((n, LentValue::ShortUInt(value)))
        }
        FieldTag::LongInt => {
            let (n, value) = parse_long_int(i)?;
            Ok((n, LentValue::LongInt(value)))
        }
        FieldTag::LongUInt => {
            let (n, value) = parse_long_uint(i)?;
            Ok((n, LentValue::LongUInt(value)))
        }
        FieldTag::LongLongInt => {
            let (n, value) = parse_long_long_int(i)?;
            Ok((n, LentValue::LongLongInt(value)))
        }
        FieldTag::Float => {
            let (n, value) = parse_float(i)?;
            Ok((n, LentValue::Float(value)))
        }
        FieldTag::Double => {
            let (n, value) = parse_double(i)?;
            Ok((n, LentValue::Double(value)))
        }
        FieldTag::DecimalValue => {
            let (n, value) = parse_decimal_value(i)?;
            Ok((n, LentValue::DecimalValue(value)))
        }
        FieldTag::LongString => {
            let (n, value) = parse_long_bytes(i)?;
            Ok((n, LentValue::LongString(value)))
        }
        FieldTag::FieldArray => {
            if depth_left == 0 {
                return Err(ParserError::TooDeep);
            }
            let (n, array) = read_array(i, depth_left - 1)?;
            Ok((n, LentValue::FieldArray(array)))
        }
        FieldTag::Timestamp => {
            let (n, value) = parse_timestamp(i)?;
            Ok((n, LentValue::Timestamp(value)))
        }
        FieldTag::FieldTable => {
            if depth_left == 0 {
                return Err(ParserError::TooDeep);
            }
            let (n, table) = read_table(i, depth_left - 1)?;
            Ok((n, LentValue::FieldTable(table)))
        }
        FieldTag::ByteArray => {
            let (n, value) = parse_long_bytes(i)?;
            Ok((n, LentValue::ByteArray(value)))
        }
        FieldTag::Void => Ok((0, LentValue::Void)),
    }
}

/// Reads a tag and its value, in which tables and arrays may nest `depth_left` deep.
fn read_value<'a>(i: &'a [u8], depth_left: usize) -> Result<(usize, LentValue<'a>), ParserError>
    requires read { IsRead (judge_value depth_left i.now) }
    ensures judged { AnswersFully value_of result (judge_value depth_left i.now) }
    ensures used { IfOk result (λ found. found.0 ≤ length i.now) }
{
    match i {
        [] => Err(ParserError::Incomplete),
        [byte, ..] => match FieldTag::from_byte(*byte) {
            None => Err(ParserError::UnknownTag),
            Some(tag) => {
                let (n, value) = read_after(tag, bytes_from(i, 1), depth_left)?;
                Ok((1 + n, value))
            }
        },
    }
}

/// Reads a key and its value.
#[tactic(auto, using(crate::proofs::Rereading::fully_next), unfolding(amqp_types::specs::ValueJudging::judge_entry))]
fn read_entry<'a>(
    i: &'a [u8],
    depth_left: usize,
) -> Result<(usize, (&'a str, LentValue<'a>)), ParserError>
    requires read { IsRead (judge_entry (judge_value depth_left) i.now) }
    ensures { AnswersFully entry_of result (judge_entry (judge_value depth_left) i.now) }
{
    let (n, key) = parse_short_str(i)?;
    let (m, value) = read_value(bytes_from(i, n), depth_left)?;
    Ok((n + m, (key, value)))
}

/// The value that was decoded at the front.
fn value_in<'a>(i: &'a [u8], depth_left: usize) -> Option<LentValue<'a>>
    requires read { IsRead (judge_value depth_left i.now) }
    ensures { option_map value_of result ≡ taken (judge_value depth_left i.now) }
{
    match read_value(i, depth_left) {
        Ok((_, value)) => Some(value),
        Err(_) => None,
    }
}

/// The first of the values that fill an array, and the bytes of the others.
pub(crate) fn first_item<'a>(
    content: &'a [u8],
    depth_left: usize,
) -> Option<(LentValue<'a>, &'a [u8])>
    requires read { IsFilled (filled (judge_value depth_left) 0 content.now) }
    ensures left { IfSome result
        (λ found. IsFilled (filled (judge_value depth_left) 0 found.1.now)) }
    ensures first { StartsWith depth_left content.now
        (option_map (λ found. (value_of found.0, found.1.now)) result) }
{
    match content {
        [] => None,
        [_, ..] => match value_in(content, depth_left) {
            Some(item) => Some((item, bytes_from(content, value_size(content)))),
            None => None,
        },
    }
}

/// The key and the value that were decoded at the front.
pub(crate) fn entry_in<'a>(i: &'a [u8], depth_left: usize) -> Option<(&'a str, LentValue<'a>)>
    requires read { IsRead (judge_entry (judge_value depth_left) i.now) }
    ensures { option_map entry_of result ≡ taken (judge_entry (judge_value depth_left) i.now) }
{
    match read_entry(i, depth_left) {
        Ok((_, entry)) => Some(entry),
        Err(_) => None,
    }
}
