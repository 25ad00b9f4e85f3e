//! Encoding values, arrays and tables at a place of a slice, and at the end of a vector.

ghost use Rattle.std.specs.Prelude.{◌≡◌, ◌+◌, ◌≤◌, length, false, IsOk};
ghost use Rattle.amqp_types.specs.Values.{array_value, table_value, values_of, entries_of};
ghost use Rattle.amqp_types.specs.ValueBytes.{value_bytes, tagged_bytes, array_bytes, table_bytes};
ghost use Rattle.amqp_types.specs.ValueBytes.{is_long, tagged_size, array_size, table_size};
ghost use Rattle.amqp_types.specs.Tags.{tag_of};
ghost use Rattle.amqp_types.specs.Writing.{Puts, Appends};
ghost use Rattle.amqp_values.specs.Views.{value_of};

use crate::measuring::{size_field_array, size_field_table, size_value};
use crate::value::{AMQPValue, FieldArray, FieldTable};
use amqp_types::{
    FieldTag, GenError, grow, put_boolean, put_byte_array, put_bytes, put_decimal_value,
    put_double, put_float, put_long_int, put_long_long_int, put_long_string, put_long_uint,
    put_short_int, put_short_short_int, put_short_short_uint, put_short_string, put_short_uint,
    put_timestamp,
};
use std::alloc::Global;

impl AMQPValue {
    /// The tag of the value.
    pub fn tag(&self) -> FieldTag
        ensures { result ≡ tag_of (value_of self.now) }
    {
        match self {
            AMQPValue::Boolean(_) => FieldTag::Boolean,
            AMQPValue::ShortShortInt(_) => FieldTag::ShortShortInt,
            AMQPValue::ShortShortUInt(_) => FieldTag::ShortShortUInt,
            AMQPValue::ShortInt(_) => FieldTag::ShortInt,
            AMQPValue::ShortUInt(_) => FieldTag::ShortUInt,
            AMQPValue::LongInt(_) => FieldTag::LongInt,
            AMQPValue::LongUInt(_) => FieldTag::LongUInt,
            AMQPValue::LongLongInt(_) => FieldTag::LongLongInt,
            AMQPValue::Float(_) => FieldTag::Float,
            AMQPValue::Double(_) => FieldTag::Double,
            AMQPValue::DecimalValue(_) => FieldTag::DecimalValue,
            AMQPValue::LongString(_) => FieldTag::LongString,
            AMQPValue::FieldArray(_) => FieldTag::FieldArray,
            AMQPValue::Timestamp(_) => FieldTag::Timestamp,
            AMQPValue::FieldTable(_) => FieldTag::FieldTable,
            AMQPValue::ByteArray(_) => FieldTag::ByteArray,
            AMQPValue::Void => FieldTag::Void,
        }
    }
}

/// Puts a tag and its value.
#[cycle(put)]
#[inline(always)]
fn put_tagged(buf: &mut [u8], at: usize, value: &AMQPValue) -> usize
    requires short { is_long (value_of value.now) ≡ false }
    requires room { at + length (tagged_bytes (value_of value.now)) ≤ length buf.old }
    ensures { Puts buf.old buf.new at (tagged_bytes (value_of value.now)) result }
{
    let place = put_bytes(buf, at, &[value.tag().to_byte()]);
    put_behind(buf, place, value)
}

/// Puts a value without its tag.
#[cycle(put)]
#[inline(always)]
fn put_behind(buf: &mut [u8], at: usize, value: &AMQPValue) -> usize
    requires short { is_long (value_of value.now) ≡ false }
    requires room { at + length (value_bytes (value_of value.now)) ≤ length buf.old }
    ensures { Puts buf.old buf.new at (value_bytes (value_of value.now)) result }
{
    match value {
        AMQPValue::Boolean(b) => put_boolean(buf, at, b),
        AMQPValue::ShortShortInt(n) => put_short_short_int(buf, at, n),
        AMQPValue::ShortShortUInt(n) => put_short_short_uint(buf, at, n),
        AMQPValue::ShortInt(n) => put_short_int(buf, at, n),
        AMQPValue::ShortUInt(n) => put_short_uint(buf, at, n),
        AMQPValue::LongInt(n) => put_long_int(buf, at, n),
        AMQPValue::LongUInt(n) => put_long_uint(buf, at, n),
        AMQPValue::LongLongInt(n) => put_long_long_int(buf, at, n),
        AMQPValue::Float(n) => put_float(buf, at, n),
        AMQPValue::Double(n) => put_double(buf, at, n),
        AMQPValue::DecimalValue(decimal) => put_decimal_value(buf, at, decimal),
        AMQPValue::LongString(string) => put_long_string(buf, at, string.as_bytes()),
        AMQPValue::FieldArray(array) => put_array(buf, at, array),
        AMQPValue::Timestamp(n) => put_timestamp(buf, at, n),
        AMQPValue::FieldTable(table) => put_table(buf, at, table),
        AMQPValue::ByteArray(array) => put_byte_array(buf, at, array),
        AMQPValue::Void => at,
    }
}

/// Puts the values of an array, and their length in front of them.
#[cycle(put)]
#[inline(never)]
fn put_array(buf: &mut [u8], at: usize, array: &FieldArray) -> usize
    requires short { is_long (array_value (values_of array.now)) ≡ false }
    requires room { at + length (array_bytes array.now) ≤ length buf.old }
    ensures { Puts buf.old buf.new at (array_bytes array.now) result }
{
    let mut end = at + 4;
    for value in array.as_slice() {
        end = put_tagged(buf, end, value);
    }
    put_long_uint(buf, at, &((end - at - 4) as u32));
    end
}

/// Puts the entries of a table, and their length in front of them.
#[cycle(put)]
#[inline(never)]
fn put_table(buf: &mut [u8], at: usize, table: &FieldTable) -> usize
    requires short { is_long (table_value (entries_of table.now)) ≡ false }
    requires room { at + length (value_bytes (table_value (entries_of table.now)))
        ≤ length buf.old }
    ensures { Puts buf.old buf.new at (value_bytes (table_value (entries_of table.now))) result }
{
    let mut end = at + 4;
    for (key, value) in table.iter() {
        end = put_short_string(buf, end, key);
        end = put_tagged(buf, end, value);
    }
    put_long_uint(buf, at, &((end - at - 4) as u32));
    end
}

/// Puts a tag and its value at a place of a slice, and returns the place after them.
#[tactic(auto, using(crate::proofs::Walk::is_short))]
pub fn put_value(buf: &mut [u8], at: usize, value: &AMQPValue) -> usize
    requires fits { IsOk (tagged_size (value_of value.now)) }
    requires room { at + length (tagged_bytes (value_of value.now)) ≤ length buf.old }
    ensures { Puts buf.old buf.new at (tagged_bytes (value_of value.now)) result }
{
    put_tagged(buf, at, value)
}

/// Appends a tag and its value to a vector.
pub fn gen_value(_alloc: Global, out: &mut Vec<u8>, value: &AMQPValue) -> Result<(), GenError>
    ensures { Appends out.old.items out.new.items (tagged_size (value_of value.now))
        (tagged_bytes (value_of value.now)) result }
{
    let size = size_value(value)?;
    let at = grow(out, size)?;
    put_value(out, at, value);
    Ok(())
}

/// Puts an array at a place of a slice, and returns the place after it.
#[tactic(auto, using(crate::proofs::Walk::is_short))]
pub fn put_field_array(buf: &mut [u8], at: usize, value: &FieldArray) -> usize
    requires fits { IsOk (array_size value.now) }
    requires room { at + length (array_bytes value.now) ≤ length buf.old }
    ensures { Puts buf.old buf.new at (array_bytes value.now) result }
{
    put_array(buf, at, value)
}

/// Appends an array to a vector.
pub fn gen_field_array(
    _alloc: Global,
    out: &mut Vec<u8>,
    value: &FieldArray,
) -> Result<(), GenError>
    ensures { Appends out.old.items out.new.items
        (array_size value.now) (array_bytes value.now) result }
{
    let size = size_field_array(value)?;
    let at = grow(out, size)?;
    put_field_array(out, at, value);
    Ok(())
}

/// Puts a table at a place of a slice, and returns the place after it.
#[tactic(auto, using(crate::proofs::Walk::is_short), unfolding(amqp_types::specs::ValueBytes::table_bytes, amqp_types::specs::ValueBytes::is_deep_table, amqp_types::specs::ValueBytes::is_long_table))]
pub fn put_field_table(buf: &mut [u8], at: usize, value: &FieldTable) -> usize
    requires fits { IsOk (table_size value.now) }
    requires room { at + length (table_bytes value.now) ≤ length buf.old }
    ensures { Puts buf.old buf.new at (table_bytes value.now) result }
{
    put_table(buf, at, value)
}

/// Appends a table to a vector.
pub fn gen_field_table(
    _alloc: Global,
    out: &mut Vec<u8>,
    value: &FieldTable,
) -> Result<(), GenError>
    ensures { Appends out.old.items out.new.items
        (table_size value.now) (table_bytes value.now) result }
{
    let size = size_field_table(value)?;
    let at = grow(out, size)?;
    put_field_table(out, at, value);
    Ok(())
}
