//! How many bytes values are written as, and which are not written.

ghost use Rattle.std.specs.Prelude.{◌≡◌, ◌+◌, ◌^◌, ◌<◌, ◌≤◌, length, nat_le};
ghost use Rattle.std.specs.Prelude.{if◌then◌else◌, IfOk};
ghost use Rattle.amqp_types.specs.Values.{depth, values_of};
ghost use Rattle.amqp_types.specs.Values.{entries_of, values_depth, entries_depth};
ghost use Rattle.amqp_types.specs.Strings.{is_too_long, with_length};
ghost use Rattle.amqp_types.specs.ValueBytes.{tagged_size, array_size, table_size};
ghost use Rattle.amqp_values.specs.Counts.{value_count, values_count, entries_count};
ghost use Rattle.amqp_values.specs.Views.{value_of};

use crate::value::{AMQPValue, FieldArray, FieldTable};
use amqp_types::{GenError, INNER_DEPTH, MAX_DEPTH};

/// The first length that four bytes do not hold.
const LENGTH_LIMIT: u64 = 1 << 32;

/// Whether tables and arrays nest at most `depth_left` deep in a value.
#[cycle(depth)]
fn has_room(value: &AMQPValue, depth_left: usize) -> bool
    ensures { result ≡ nat_le (depth (value_of value.now)) depth_left }
{
    match value {
        AMQPValue::FieldArray(array) => depth_left > 0 && array_has_room(array, depth_left - 1),
        AMQPValue::FieldTable(table) => depth_left > 0 && table_has_room(table, depth_left - 1),
        _ => true,
    }
}

/// The same of all values of an array.
#[cycle(depth)]
fn array_has_room(array: &FieldArray, depth_left: usize) -> bool
    ensures { result ≡ nat_le (values_depth (values_of array.now)) depth_left }
{
    for value in array.as_slice() {
        if !has_room(value, depth_left) {
            return false;
        }
    }
    true
}

/// The same of all values of a table.
#[cycle(depth)]
fn table_has_room(table: &FieldTable, depth_left: usize) -> bool
    ensures { result ≡ nat_le (entries_depth (entries_of table.now)) depth_left }
{
    for (_, value) in table.iter() {
        if !has_room(value, depth_left) {
            return false;
        }
    }
    true
}

/// The number of some bytes and their length, or more than any have where four bytes do not hold it.
fn bytes_length(bytes: &[u8]) -> u64
    ensures { result
        ≡ (if is_too_long bytes.now then 4 + 2 ^ 32 else length (with_length bytes.now)) }
{
    let n = bytes.len() as u64;
    if n < LENGTH_LIMIT {
        4 + n
    } else {
        4 + LENGTH_LIMIT
    }
}

/// The number of a value's bytes without its tag. It is more than any value has where tables and arrays nest more than
/// `depth_left` deep, or four bytes do not hold a length in it: one walk tells both.
#[tactic(auto, using(crate::proofs::Walk::no_depth, crate::proofs::Walk::no_room, crate::proofs::Walk::one_less))]
#[cycle(measure)]
#[inline(always)]
fn value_length(value: &AMQPValue, depth_left: usize) -> u64
    ensures count { result ≡ value_count depth_left (value_of value.now) }
    ensures small { result ≤ 4 + 2 ^ 32 }
{
    match value {
        AMQPValue::Boolean(_) => 1,
        AMQPValue::ShortShortInt(_) => 1,
        AMQPValue::ShortShortUInt(_) => 1,
        AMQPValue::ShortInt(_) => 2,
        AMQPValue::ShortUInt(_) => 2,
        AMQPValue::LongInt(_) => 4,
        AMQPValue::LongUInt(_) => 4,
        AMQPValue::LongLongInt(_) => 8,
        AMQPValue::Float(_) => 4,
        AMQPValue::Double(_) => 8,
        AMQPValue::DecimalValue(_) => 5,
        AMQPValue::LongString(string) => bytes_length(string.as_bytes()),
        AMQPValue::FieldArray(array) => {
            if depth_left == 0 {
                return 4 + LENGTH_LIMIT;
            }
            4 + values_length(array, depth_left - 1)
        }
        AMQPValue::Timestamp(_) => 8,
        AMQPValue::FieldTable(table) => {
            if depth_left == 0 {
                return 4 + LENGTH_LIMIT;
            }
            4 + entries_length(table, depth_left - 1)
        }
        AMQPValue::ByteArray(array) => bytes_length(array.as_slice()),
        AMQPValue::Void => 0,
    }
}

/// The number of the bytes of an array's values, with the same exceptions.
#[tactic(auto, using(crate::proofs::Walk::values_counted))]
#[cycle(measure)]
#[inline(never)]
fn values_length(array: &FieldArray, depth_left: usize) -> u64
    ensures count { result ≡ values_count depth_left array.now }
    ensures small { result ≤ 2 ^ 32 }
{
    let mut n = 0;
    for value in array.as_slice() {
        n += 1 + value_length(value, depth_left);
        if n >= LENGTH_LIMIT {
            return LENGTH_LIMIT;
        }
    }
    n
}

/// The number of the bytes of a table's entries, with the same exceptions.
#[tactic(auto, using(crate::proofs::Walk::entries_counted))]
#[cycle(measure)]
#[inline(never)]
fn entries_length(table: &FieldTable, depth_left: usize) -> u64
    ensures count { result ≡ entries_count depth_left table.now }
    ensures small { result ≤ 2 ^ 32 }
{
    let mut n = 0;
    for (key, value) in table.iter() {
        n += 2 + key.len() as u64 + value_length(value, depth_left);
        if n >= LENGTH_LIMIT {
            return LENGTH_LIMIT;
        }
    }
    n
}

/// The size of a tag and its value.
pub fn size_value(value: &AMQPValue) -> Result<u64, GenError>
    ensures size { result ≡ tagged_size (value_of value.now) }
    ensures bound { IfOk result (λ n. n < 2 ^ 33) }
{
    let n = value_length(value, MAX_DEPTH);
    if n < 4 + LENGTH_LIMIT {
        return Ok(1 + n);
    }
    if has_room(value, MAX_DEPTH) {
        return Err(GenError::TooLong);
    }
    Err(GenError::TooDeep)
}

/// The size of an array with its length.
pub fn size_field_array(value: &FieldArray) -> Result<u64, GenError>
    ensures size { result ≡ array_size value.now }
    ensures bound { IfOk result (λ n. n < 2 ^ 33) }
{
    let n = values_length(value, INNER_DEPTH);
    if n < LENGTH_LIMIT {
        return Ok(4 + n);
    }
    if array_has_room(value, INNER_DEPTH) {
        return Err(GenError::TooLong);
    }
    Err(GenError::TooDeep)
}

/// The size of a table with its length.
#[tactic(auto, unfolding(amqp_types::specs::ValueBytes::table_bytes, amqp_types::specs::ValueBytes::is_deep_table, amqp_types::specs::ValueBytes::is_long_table))]
pub fn size_field_table(value: &FieldTable) -> Result<u64, GenError>
    ensures size { result ≡ table_size value.now }
    ensures bound { IfOk result (λ n. n < 2 ^ 33) }
{
    let n = entries_length(value, INNER_DEPTH);
    if n < LENGTH_LIMIT {
        return Ok(4 + n);
    }
    if table_has_room(value, INNER_DEPTH) {
        return Err(GenError::TooLong);
    }
    Err(GenError::TooDeep)
}
