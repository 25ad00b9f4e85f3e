//! Decoding values, arrays and tables from the front of a slice.

ghost use Rattle.std.specs.Prelude.{◌≡◌, ◌≤◌, ◌<◌, length, IfOk};
ghost use Rattle.amqp_types.specs.Answers.{Answers, AnswersWhole};
ghost use Rattle.amqp_types.specs.Settling.{settled};
ghost use Rattle.amqp_types.specs.ValueJudging.{read_map, filled, nested, judge_entry};
ghost use Rattle.amqp_types.specs.ValueJudging.{judge_array, judge_table, judge_behind};
ghost use Rattle.amqp_types.specs.ValueJudging.{judge_value, judge_field_value};
ghost use Rattle.amqp_types.specs.ValueJudging.{judge_field_array, judge_field_table};
ghost use Rattle.amqp_types.specs.ValueBytes.{tagged_bytes, tagged_size, array_bytes};
ghost use Rattle.amqp_types.specs.ValueBytes.{array_size, table_bytes, table_size};
ghost use Rattle.amqp_types.specs.ValueLaws.{IsNoLonger};
ghost use Rattle.amqp_values.specs.Views.{value_of, entry_of};

use crate::value::{AMQPValue, FieldArray, FieldTable, push_entry};
use amqp_types::{
    FieldTag, INNER_DEPTH, MAX_DEPTH, ParserError, ShortString, parse_boolean, parse_byte_array,
    parse_decimal_value, parse_double, parse_float, parse_long_bytes, parse_long_int,
    parse_long_long_int, parse_long_string, parse_long_uint, parse_short_int,
    parse_short_short_int, parse_short_short_uint, parse_short_string, parse_short_uint,
    parse_timestamp,
};
use std::alloc::Global;

/// From how many bytes of entries on they are gathered first: a search for each then takes more than to sort them.
const LONG_CONTENT: usize = 512;

/// Decodes a tag and its value, in which tables and arrays may nest `depth_left` deep.
#[tactic(auto, using(amqp_types::proofs::Judged::refuses_next), unfolding(amqp_types::specs::ValueJudging::judge_tagged, amqp_types::specs::ValueJudging::judge_value))]
#[cycle(read)]
#[inline(always)]
fn value_within(
    alloc: Global,
    i: &[u8],
    depth_left: usize,
) -> Result<(usize, AMQPValue), ParserError>
    ensures judged { Answers value_of result (judge_value depth_left i.now) }
    ensures used { IfOk result (λ found. (0 < found.0) × (found.0 ≤ length i.now)) }
{
    match i {
        [] => Err(ParserError::Incomplete),
        [byte, rest @ ..] => match FieldTag::from_byte(*byte) {
            None => Err(ParserError::UnknownTag),
            Some(tag) => {
                let (n, value) = behind_tag_within(alloc, tag, rest, depth_left)?;
                Ok((1 + n, value))
            }
        },
    }
}

/// Decodes the value after a tag.
#[tactic(auto, using(amqp_types::proofs::Judged::refuses_next, amqp_laws::proofs::Filling::nested_none, amqp_laws::proofs::Filling::nested_more), unfolding(amqp_types::specs::ValueJudging::judge_behind))]
#[cycle(read)]
#[inline(always)]
fn behind_tag_within(
    alloc: Global,
    tag: FieldTag,
    i: &[u8],
    depth_left: usize,
) -> Result<(usize, AMQPValue), ParserError>
    ensures judged { Answers value_of result (judge_behind (nested depth_left) tag i.now) }
    ensures used { IfOk result (λ found. found.0 ≤ length i.now) }
{
    match tag {
        FieldTag::Boolean => {
            let (n, value) = parse_boolean(i)?;
            Ok((n, AMQPValue::Boolean(value)))
        }
        FieldTag::ShortShortInt => {
            let (n, value) = parse_short_short_int(i)?;
            Ok((n, AMQPValue::ShortShortInt(value)))
        }
        FieldTag::ShortShortUInt => {
            let (n, value) = parse_short_short_uint(i)?;
            Ok((n, AMQPValue::ShortShortUInt(value)))
        }
        FieldTag::ShortInt => {
            let (n, value) = parse_short_int(i)?;
            Ok((n, AMQPValue::ShortInt(value)))
        }
        FieldTag::ShortUInt => {
            let (n, value) = parse_short_uint(i)?;
            Ok((n, AMQPValue::ShortUInt(value)))
        }
        FieldTag::LongInt => {
            let (n, value) = parse_long_int(i)?;
            Ok((n, AMQPValue::LongInt(value)))
        }
        FieldTag::LongUInt => {
            let (n, value) = parse_long_uint(i)?;
            Ok((n, AMQPValue::LongUInt(value)))
        }
        FieldTag::LongLongInt => {
            let (n, value) = parse_long_long_int(i)?;
            Ok((n, AMQPValue::LongLongInt(value)))
        }
        FieldTag::Float => {
            let (n, value) = parse_float(i)?;
            Ok((n, AMQPValue::Float(value)))
        }
        FieldTag::Double => {
            let (n, value) = parse_double(i)?;
            Ok((n, AMQPValue::Double(value)))
        }
        FieldTag::DecimalValue => {
            let (n, value) = parse_decimal_value(i)?;
            Ok((n, AMQPValue::DecimalValue(value)))
        }
        FieldTag::LongString => {
            let (n, value) = parse_long_string(alloc, i)?;
            Ok((n, AMQPValue::LongString(value)))
        }
        FieldTag::FieldArray => {
            if depth_left == 0 {
                return Err(ParserError::TooDeep);
            }
            let (n, array) = array_within(alloc, i, depth_left - 1)?;
            Ok((n, AMQPValue::FieldArray(array)))
        }
        FieldTag::Timestamp => {
            let (n, value) = parse_timestamp(i)?;
            Ok((n, AMQPValue::Timestamp(value)))
        }
        FieldTag::FieldTable => {
            if depth_left == 0 {
                return Err(ParserError::TooDeep);
            }
            let (n, table) = table_within(alloc, i, depth_left - 1)?;
            Ok((n, AMQPValue::FieldTable(table)))
        }
        FieldTag::ByteArray => {
            let (n, value) = parse_byte_array(alloc, i)?;
            Ok((n, AMQPValue::ByteArray(value)))
        }
        FieldTag::Void => Ok((0, AMQPValue::Void)),
    }
}

/// Decodes an array, in whose values tables and arrays may nest `depth_left` deep.
#[tactic(auto, using(amqp_types::proofs::Judged::refuses_next, amqp_laws::proofs::Filling::refuses_whole), unfolding(amqp_types::specs::ValueJudging::judge_array))]
#[cycle(read)]
#[inline(never)]
fn array_within(
    alloc: Global,
    i: &[u8],
    depth_left: usize,
) -> Result<(usize, FieldArray), ParserError>
    ensures judged { Answers (λ array. array) result (judge_array (judge_value depth_left) i.now) }
    ensures used { IfOk result (λ found. found.0 ≤ length i.now) }
{
    let (n, content) = parse_long_bytes(i)?;
    Ok((n, values_in(alloc, content, depth_left)?))
}

/// Decodes a table, in whose values tables and arrays may nest `depth_left` deep.
#[tactic(auto, using(amqp_types::proofs::Judged::refuses_next, amqp_laws::proofs::Filling::refuses_whole), unfolding(amqp_types::specs::ValueJudging::judge_table))]
#[cycle(read)]
#[inline(never)]
fn table_within(
    alloc: Global,
    i: &[u8],
    depth_left: usize,
) -> Result<(usize, FieldTable), ParserError>
    ensures judged { Answers (λ table. table) result (judge_table (judge_value depth_left) i.now) }
    ensures used { IfOk result (λ found. found.0 ≤ length i.now) }
{
    let (n, content) = parse_long_bytes(i)?;
    Ok((n, entries_in(alloc, content, depth_left)?))
}

/// Decodes the values that fill an array.
#[cycle(read)]
fn values_in(alloc: Global, content: &[u8], depth_left: usize) -> Result<FieldArray, ParserError>
    ensures { AnswersWhole (λ array. array) result (filled (judge_value depth_left) 0 content.now) }
{
    let mut array = FieldArray::new(alloc);
    let mut at = 0;
    while at < content.len() {
        let (n, value) = match value_within(alloc, &content[at..], depth_left) {
            Ok(found) => found,
            Err(error) => return Err(error.inside()),
        };
        array.push(value)?;
        at += n;
    }
    Ok(array)
}

/// Decodes the entries that fill a table. Of duplicate keys the last one wins.
#[cycle(read)]
fn entries_in(alloc: Global, content: &[u8], depth_left: usize) -> Result<FieldTable, ParserError>
    ensures { AnswersWhole (λ table. table) result
        (read_map settled (filled (judge_entry (judge_value depth_left)) 0 content.now)) }
{
    if content.len() < LONG_CONTENT {
        few_entries_in(alloc, content, depth_left)
    } else {
        many_entries_in(alloc, content, depth_left)
    }
}

/// Decodes the entries that fill a table, and puts each into it as it comes.
#[cycle(read)]
fn few_entries_in(
    alloc: Global,
    content: &[u8],
    depth_left: usize,
) -> Result<FieldTable, ParserError>
    ensures { AnswersWhole (λ table. table) result
        (read_map settled (filled (judge_entry (judge_value depth_left)) 0 content.now)) }
{
    let mut table = FieldTable::new(alloc);
    let mut at = 0;
    while at < content.len() {
        let (n, (key, value)) = match entry_within(alloc, &content[at..], depth_left) {
            Ok(found) => found,
            Err(error) => return Err(error.inside()),
        };
        table.insert(key, value)?;
        at += n;
    }
    Ok(table)
}

/// Decodes the entries that fill a table, and makes it of all of them at once.
#[cycle(read)]
fn many_entries_in(
    alloc: Global,
    content: &[u8],
    depth_left: usize,
) -> Result<FieldTable, ParserError>
    ensures { AnswersWhole (λ table. table) result
        (read_map settled (filled (judge_entry (judge_value depth_left)) 0 content.now)) }
{
    let mut entries = Vec::new(alloc);
    let mut at = 0;
    while at < content.len() {
        let (n, entry) = match entry_within(alloc, &content[at..], depth_left) {
            Ok(found) => found,
            Err(error) => return Err(error.inside()),
        };
        push_entry(&mut entries, entry)?;
        at += n;
    }
    Ok(FieldTable::from_entries(alloc, entries)?)
}

/// Decodes a key and, after it, a tag and its value.
#[tactic(auto, using(amqp_types::proofs::Judged::refuses_next), unfolding(amqp_types::specs::ValueJudging::judge_entry))]
#[cycle(read)]
#[inline(always)]
fn entry_within(
    alloc: Global,
    i: &[u8],
    depth_left: usize,
) -> Result<(usize, (ShortString, AMQPValue)), ParserError>
    ensures judged { Answers entry_of result (judge_entry (judge_value depth_left) i.now) }
    ensures used { IfOk result (λ found. (0 < found.0) × (found.0 ≤ length i.now)) }
{
    let (n, key) = parse_short_string(alloc, i)?;
    let (m, value) = value_within(alloc, &i[n..], depth_left)?;
    Ok((n + m, (key, value)))
}

/// Decodes a tag and its value, in which tables and arrays nest at most 64 levels deep (AMQP 0-9-1, section 4.2.5.5).
pub fn parse_value(alloc: Global, i: &[u8]) -> Result<(usize, AMQPValue), ParserError>
    ensures judged { Answers value_of result (judge_field_value i.now) }
    ensures within { IfOk result (λ found.
        IsNoLonger (tagged_size (value_of found.1)) (tagged_bytes (value_of found.1)) found.0) }
    ensures used { IfOk result (λ found. found.0 ≤ length i.now) }
{
    value_within(alloc, i, MAX_DEPTH)
}

/// Decodes an array, at most 64 levels deep: a length of four bytes, and the values that fill as many.
pub fn parse_field_array(alloc: Global, i: &[u8]) -> Result<(usize, FieldArray), ParserError>
    ensures judged { Answers (λ array. array) result (judge_field_array i.now) }
    ensures within { IfOk result
        (λ found. IsNoLonger (array_size found.1) (array_bytes found.1) found.0) }
    ensures used { IfOk result (λ found. found.0 ≤ length i.now) }
{
    array_within(alloc, i, INNER_DEPTH)
}

/// Decodes a table, at most 64 levels deep: a length of four bytes, and the entries that fill as many (AMQP 0-9-1,
/// section 4.2.5.5). Of duplicate keys the last one wins.
pub fn parse_field_table(alloc: Global, i: &[u8]) -> Result<(usize, FieldTable), ParserError>
    ensures judged { Answers (λ table. table) result (judge_field_table i.now) }
    ensures within { IfOk result
        (λ found. IsNoLonger (table_size found.1) (table_bytes found.1) found.0) }
    ensures used { IfOk result (λ found. found.0 ≤ length i.now) }
{
    table_within(alloc, i, INNER_DEPTH)
}
