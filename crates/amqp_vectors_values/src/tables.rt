//! Tables as they are read, and as they are written then.

use amqp_values::{
    AMQPValue, FieldArray, FieldTable, NoMemory, ParserError, ShortString, gen_field_table,
    gen_value, parse_field_array, parse_field_table, parse_value, size_field_table,
};
use amqp_vectors::asking::{reads, same};
use std::alloc::Global;
use std::test::Fail;

/// What is written for a table that was read.
fn rewritten(alloc: Global, bytes: &[u8]) -> Result<Vec<u8>, Fail> {
    let (_, table) = parse_field_table(alloc, bytes)?;
    let mut out = Vec::new(alloc);
    gen_field_table(alloc, &mut out, &table)?;
    Ok(out)
}

pub fn is_rewritten(alloc: Global, bytes: &[u8], written: &[u8]) -> Result<(), Fail> {
    same(rewritten(alloc, bytes)?.as_slice(), written)
}

/// Entries are written by rising keys, of equal keys the last one counts, and of equal keys at two depths each.
#[test]
fn entries_are_written_in_order(rt: HostRuntime) -> Result<(), Fail> {
    let alloc = rt.alloc();
    is_rewritten(
        alloc,
        &[0, 0, 0, 8, 1, 98, 116, 1, 1, 97, 116, 0],
        &[0, 0, 0, 8, 1, 97, 116, 0, 1, 98, 116, 1],
    )?;
    is_rewritten(
        alloc,
        &[0, 0, 0, 8, 1, 97, 116, 0, 1, 97, 116, 7],
        &[0, 0, 0, 4, 1, 97, 116, 1],
    )?;
    is_rewritten(
        alloc,
        &[
            0, 0, 0, 21, 1, 97, 86, 1, 97, 70, 0, 0, 0, 11, 1, 98, 116, 0, 1, 97, 86, 1, 98, 116, 9,
        ],
        &[0, 0, 0, 14, 1, 97, 70, 0, 0, 0, 7, 1, 97, 86, 1, 98, 116, 1],
    )
}

/// Fails unless the value under the key `a` is this one, and written as these bytes.
fn holds(alloc: Global, bytes: &[u8], value: &AMQPValue, written: &[u8]) -> Result<(), Fail> {
    let (_, table) = parse_field_table(alloc, bytes)?;
    same(table.get("a"), Some(value))?;
    is_rewritten(alloc, bytes, written)
}

#[test]
fn two_tag_bytes_are_read_and_never_written(rt: HostRuntime) -> Result<(), Fail> {
    let alloc = rt.alloc();
    holds(
        alloc,
        &[0, 0, 0, 5, 1, 97, 85, 0, 7],
        &AMQPValue::ShortInt(7),
        &[0, 0, 0, 5, 1, 97, 115, 0, 7],
    )?;
    holds(
        alloc,
        &[0, 0, 0, 11, 1, 97, 76, 0, 0, 0, 0, 0, 0, 0, 9],
        &AMQPValue::LongLongInt(9),
        &[0, 0, 0, 11, 1, 97, 108, 0, 0, 0, 0, 0, 0, 0, 9],
    )
}

pub fn table_fails(alloc: Global, bytes: &[u8], error: ParserError) -> Result<(), Fail> {
    same(parse_field_table(alloc, bytes).err(), Some(error))
}

/// A key is tested before its tag.
#[test]
fn faults_of_tables(rt: HostRuntime) -> Result<(), Fail> {
    let alloc = rt.alloc();
    table_fails(alloc, &[0, 0, 0, 2, 0, 90], ParserError::UnknownTag)?;
    table_fails(alloc, &[0, 0, 0, 3, 1, 97, 90], ParserError::UnknownTag)?;
    table_fails(alloc, &[0, 0, 0, 3, 1, 97], ParserError::Incomplete)?;
    table_fails(alloc, &[0, 0, 0, 2, 1, 97], ParserError::ShortPayload)?;
    table_fails(alloc, &[0, 0, 0, 3, 1, 255, 90], ParserError::NotUtf8)?;
    reads(
        parse_field_table(alloc, &[0, 0, 0, 0, 9]),
        4,
        &FieldTable::new(alloc),
    )
}

#[test]
fn faults_of_arrays_and_values(rt: HostRuntime) -> Result<(), Fail> {
    let alloc = rt.alloc();
    let faults = [
        parse_field_array(alloc, &[0, 0, 0, 1, 116]).err(),
        parse_field_array(alloc, &[0, 0, 0, 1]).err(),
        parse_value(alloc, &[]).err(),
        parse_value(alloc, &[116]).err(),
        parse_value(alloc, &[65, 0, 0, 0, 1, 116]).err(),
        parse_value(alloc, &[90]).err(),
    ];
    let wanted = [
        Some(ParserError::ShortPayload),
        Some(ParserError::Incomplete),
        Some(ParserError::Incomplete),
        Some(ParserError::Incomplete),
        Some(ParserError::ShortPayload),
        Some(ParserError::UnknownTag),
    ];
    same(faults, wanted)
}

/// A table of two entries, of which one is inserted twice.
fn made(alloc: Global) -> Result<FieldTable, Fail> {
    let mut table = FieldTable::new(alloc);
    table.insert(ShortString::new(alloc, "b")?, AMQPValue::Void)?;
    table.insert(ShortString::new(alloc, "a")?, AMQPValue::ShortInt(-2))?;
    table.insert(ShortString::new(alloc, "b")?, AMQPValue::Boolean(true))?;
    Ok(table)
}

fn has_two_entries(table: &FieldTable) -> Result<(), Fail> {
    same(
        (table.len(), table.is_empty(), size_field_table(table)),
        (2, false, Ok(13)),
    )?;
    same(table.get("a"), Some(&AMQPValue::ShortInt(-2)))?;
    same(table.get("b"), Some(&AMQPValue::Boolean(true)))?;
    same(table.get("c"), None)?;
    for ((key, _), wanted) in table.iter().zip(["a", "b"]) {
        same(key.as_str(), wanted)?;
    }
    same(table.iter().len(), 2)
}

#[test]
fn tables_are_made_and_asked(rt: HostRuntime) -> Result<(), Fail> {
    has_two_entries(&made(rt.alloc())?)
}

/// The array that holds the table alone.
fn array_of(alloc: Global, table: FieldTable) -> Result<FieldArray, NoMemory> {
    let mut array = FieldArray::new(alloc);
    array.push(AMQPValue::FieldTable(table))?;
    Ok(array)
}

fn array_is_written(alloc: Global, array: FieldArray) -> Result<(), Fail> {
    same((array.len(), array.is_empty()), (1, false))?;
    let mut out = Vec::new(alloc);
    gen_value(alloc, &mut out, &AMQPValue::FieldArray(array))?;
    same(
        out.as_slice(),
        &[
            65, 0, 0, 0, 14, 70, 0, 0, 0, 9, 1, 97, 115, 255, 254, 1, 98, 116, 1,
        ],
    )
}

#[test]
fn arrays_hold_tables(rt: HostRuntime) -> Result<(), Fail> {
    let alloc = rt.alloc();
    array_is_written(alloc, array_of(alloc, made(alloc)?)?)
}
