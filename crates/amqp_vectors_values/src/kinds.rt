//! A table and an array that hold all 17 kinds of values, and each kind alone.

use amqp_values::{
    AMQPValue, ByteArray, DecimalValue, FieldArray, FieldTable, FieldTag, LongString, NoMemory,
    ShortString, gen_field_array, gen_field_table, gen_value, parse_field_array, parse_field_table,
    parse_value, put_field_array, put_field_table, put_value, size_field_array, size_field_table,
    size_value,
};
use amqp_vectors::asking::{answers, reads, same};
use std::alloc::Global;
use std::test::Fail;

/// The numbers and truth values of each kind.
fn push_numbers(array: &mut FieldArray) -> Result<(), NoMemory> {
    let decimal = DecimalValue {
        scale: 1,
        value: 15,
    };
    array.push(AMQPValue::Boolean(true))?;
    array.push(AMQPValue::ShortShortInt(-1))?;
    array.push(AMQPValue::ShortShortUInt(1))?;
    array.push(AMQPValue::ShortInt(-2))?;
    array.push(AMQPValue::ShortUInt(2))?;
    array.push(AMQPValue::LongInt(-4))?;
    array.push(AMQPValue::LongUInt(4))?;
    array.push(AMQPValue::LongLongInt(-8))?;
    array.push(AMQPValue::Float(0x3f80_0000))?;
    array.push(AMQPValue::Double(0x3ff0_0000_0000_0000))?;
    array.push(AMQPValue::DecimalValue(decimal))
}

/// One value of each other kind.
fn push_others(alloc: Global, array: &mut FieldArray) -> Result<(), NoMemory> {
    array.push(AMQPValue::LongString(LongString::new(alloc, &[97])?))?;
    array.push(AMQPValue::FieldArray(FieldArray::new(alloc)))?;
    array.push(AMQPValue::Timestamp(8))?;
    array.push(AMQPValue::FieldTable(FieldTable::new(alloc)))?;
    array.push(AMQPValue::ByteArray(ByteArray::new(alloc, &[98])?))?;
    array.push(AMQPValue::Void)
}

/// One value of each kind.
fn each_kind(alloc: Global) -> Result<FieldArray, NoMemory> {
    let mut array = FieldArray::new(alloc);
    push_numbers(&mut array)?;
    push_others(alloc, &mut array)?;
    Ok(array)
}

/// The tags of the 17 kinds, in the same order.
const TAGS: [&str; 17] = [
    "t", "b", "B", "s", "u", "I", "i", "l", "f", "d", "D", "S", "A", "T", "F", "x", "V",
];

/// What is written for the 17 values, the tag first, in the same order.
const WRITTEN: [&[u8]; 17] = [
    &[116, 1],
    &[98, 255],
    &[66, 1],
    &[115, 255, 254],
    &[117, 0, 2],
    &[73, 255, 255, 255, 252],
    &[105, 0, 0, 0, 4],
    &[108, 255, 255, 255, 255, 255, 255, 255, 248],
    &[102, 63, 128, 0, 0],
    &[100, 63, 240, 0, 0, 0, 0, 0, 0],
    &[68, 1, 0, 0, 0, 15],
    &[83, 0, 0, 0, 1, 97],
    &[65, 0, 0, 0, 0],
    &[84, 0, 0, 0, 0, 0, 0, 0, 8],
    &[70, 0, 0, 0, 0],
    &[120, 0, 0, 0, 1, 98],
    &[86],
];

/// What is written for the array of the 17 values.
pub const ARRAY: [u8; 87] = [
    0, 0, 0, 83, 116, 1, 98, 255, 66, 1, 115, 255, 254, 117, 0, 2, 73, 255, 255, 255, 252, 105, 0,
    0, 0, 4, 108, 255, 255, 255, 255, 255, 255, 255, 248, 102, 63, 128, 0, 0, 100, 63, 240, 0, 0,
    0, 0, 0, 0, 68, 1, 0, 0, 0, 15, 83, 0, 0, 0, 1, 97, 65, 0, 0, 0, 0, 84, 0, 0, 0, 0, 0, 0, 0, 8,
    70, 0, 0, 0, 0, 120, 0, 0, 0, 1, 98, 86,
];

/// What is written for the table of the same, each under its tag as the key.
pub const TABLE: [u8; 121] = [
    0, 0, 0, 117, 1, 65, 65, 0, 0, 0, 0, 1, 66, 66, 1, 1, 68, 68, 1, 0, 0, 0, 15, 1, 70, 70, 0, 0,
    0, 0, 1, 73, 73, 255, 255, 255, 252, 1, 83, 83, 0, 0, 0, 1, 97, 1, 84, 84, 0, 0, 0, 0, 0, 0, 0,
    8, 1, 86, 86, 1, 98, 98, 255, 1, 100, 100, 63, 240, 0, 0, 0, 0, 0, 0, 1, 102, 102, 63, 128, 0,
    0, 1, 105, 105, 0, 0, 0, 4, 1, 108, 108, 255, 255, 255, 255, 255, 255, 255, 248, 1, 115, 115,
    255, 254, 1, 116, 116, 1, 1, 117, 117, 0, 2, 1, 120, 120, 0, 0, 0, 1, 98,
];

fn value_agrees(
    alloc: Global,
    value: &AMQPValue,
    out: &mut Vec<u8>,
    written: &[u8],
) -> Result<(), Fail> {
    out.clear();
    gen_value(alloc, out, value)?;
    same(out.as_slice(), written)?;
    out.fill(0);
    let end = put_value(out, 0, value);
    same((end, out.as_slice()), (written.len(), written))?;
    let tag = value.tag();
    same(
        (size_value(value), Some(&tag.to_byte())),
        (Ok(written.len() as u64), written.first()),
    )?;
    same(FieldTag::from_byte(tag.to_byte()), Some(tag))?;
    reads(parse_value(alloc, written), written.len(), value)?;
    answers(value.copy(alloc), value)
}

fn values_agree(alloc: Global, values: &[AMQPValue], out: &mut Vec<u8>) -> Result<(), Fail> {
    for (value, written) in values.iter().zip(WRITTEN) {
        value_agrees(alloc, value, out, written)?;
    }
    Ok(())
}

fn array_agrees(alloc: Global, array: &FieldArray, out: &mut Vec<u8>) -> Result<(), Fail> {
    values_agree(alloc, array.as_slice(), out)?;
    out.clear();
    gen_field_array(alloc, out, array)?;
    same(out.as_slice(), &ARRAY)?;
    out.fill(0);
    let end = put_field_array(out, 0, array);
    same((end, out.as_slice()), (87, ARRAY.as_slice()))?;
    same((size_field_array(array), array.len()), (Ok(87), 17))?;
    reads(parse_field_array(alloc, &ARRAY), 87, array)?;
    answers(array.copy(alloc), array)
}

#[test]
fn an_array_of_each_kind(rt: HostRuntime) -> Result<(), Fail> {
    let alloc = rt.alloc();
    array_agrees(alloc, &each_kind(alloc)?, &mut Vec::new(alloc))
}

/// The table of the values, each under its tag as the key.
fn keyed(alloc: Global, values: &[AMQPValue]) -> Result<FieldTable, Fail> {
    let mut table = FieldTable::new(alloc);
    for (tag, value) in TAGS.iter().zip(values) {
        let key = ShortString::new(alloc, tag)?;
        table.insert(key, value.copy(alloc)?)?;
    }
    Ok(table)
}

fn table_agrees(alloc: Global, table: &FieldTable, out: &mut Vec<u8>) -> Result<(), Fail> {
    gen_field_table(alloc, out, table)?;
    same(out.as_slice(), &TABLE)?;
    out.fill(0);
    let end = put_field_table(out, 0, table);
    same((end, out.as_slice()), (121, TABLE.as_slice()))?;
    same((size_field_table(table), table.len()), (Ok(121), 17))?;
    reads(parse_field_table(alloc, &TABLE), 121, table)?;
    answers(table.copy(alloc), table)
}

#[test]
fn a_table_of_each_kind(rt: HostRuntime) -> Result<(), Fail> {
    let alloc = rt.alloc();
    let table = keyed(alloc, each_kind(alloc)?.as_slice())?;
    table_agrees(alloc, &table, &mut Vec::new(alloc))
}
