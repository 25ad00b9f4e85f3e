//! Tables and arrays that nest deep.

use crate::tables::{is_rewritten, table_fails};
use amqp_values::{
    AMQPValue, FieldTable, GenError, NoMemory, ParserError, ShortString, gen_field_table,
    size_field_table,
};
use amqp_vectors::asking::{answers, same};
use std::alloc::Global;
use std::test::Fail;

/// The bytes of as many tables, one inside the other, each with the empty key. In the innermost stand these bytes.
fn nested_tables(alloc: Global, depth: u8, innermost: &[u8]) -> Result<Vec<u8>, Fail> {
    let length = u32::from(u8::try_from(innermost.len())?);
    let mut bytes = Vec::new(alloc);
    for inside in (1..depth).rev() {
        bytes.extend_from_slice(&(6 * u32::from(inside) + length).to_be_bytes())?;
        bytes.extend_from_slice(&[0, 70])?;
    }
    bytes.extend_from_slice(&length.to_be_bytes())?;
    bytes.extend_from_slice(innermost)?;
    Ok(bytes)
}

/// The bytes of a table that holds as many arrays, one inside the other.
fn arrays_in_table(alloc: Global, depth: u8) -> Result<Vec<u8>, Fail> {
    let mut bytes = Vec::new(alloc);
    bytes.extend_from_slice(&(5 * u32::from(depth) + 1).to_be_bytes())?;
    bytes.extend_from_slice(&[0, 65])?;
    for inside in (1..depth).rev() {
        bytes.extend_from_slice(&(5 * u32::from(inside)).to_be_bytes())?;
        bytes.push(65)?;
    }
    bytes.extend_from_slice(&[0, 0, 0, 0])?;
    Ok(bytes)
}

/// Fails unless there are as many bytes, and what is read from them is written as them.
fn is_unchanged(alloc: Global, bytes: &[u8], count: usize) -> Result<(), Fail> {
    same(bytes.len(), count)?;
    is_rewritten(alloc, bytes, bytes)
}

/// Arrays count as levels.
#[test]
fn at_most_64_levels_are_read(rt: HostRuntime) -> Result<(), Fail> {
    let alloc = rt.alloc();
    is_unchanged(alloc, &nested_tables(alloc, 64, &[])?, 382)?;
    let deeper = nested_tables(alloc, 65, &[])?;
    table_fails(alloc, &deeper, ParserError::TooDeep)?;
    is_unchanged(alloc, &arrays_in_table(alloc, 63)?, 320)?;
    let deeper = arrays_in_table(alloc, 64)?;
    table_fails(alloc, &deeper, ParserError::TooDeep)
}

#[test]
fn a_tag_is_tested_before_its_room(rt: HostRuntime) -> Result<(), Fail> {
    let alloc = rt.alloc();
    let unknown = nested_tables(alloc, 64, &[0, 90])?;
    table_fails(alloc, &unknown, ParserError::UnknownTag)?;
    let deeper = nested_tables(alloc, 64, &[0, 70])?;
    table_fails(alloc, &deeper, ParserError::TooDeep)
}

/// The table that holds the other under the empty key.
fn table_of(alloc: Global, inner: FieldTable) -> Result<FieldTable, NoMemory> {
    let mut outer = FieldTable::new(alloc);
    outer.insert(ShortString::empty(alloc), AMQPValue::FieldTable(inner))?;
    Ok(outer)
}

fn deep_table(alloc: Global) -> Result<FieldTable, NoMemory> {
    let mut table = FieldTable::new(alloc);
    for _ in 1..65 {
        table = table_of(alloc, table)?;
    }
    Ok(table)
}

fn is_too_deep(alloc: Global, table: &FieldTable) -> Result<(), Fail> {
    answers(table.copy(alloc), table)?;
    same(size_field_table(table), Err(GenError::TooDeep))?;
    let mut out = vec![in alloc; 1, 2, 3]?;
    let appended = gen_field_table(alloc, &mut out, table);
    same(
        (appended, out.as_slice()),
        (Err(GenError::TooDeep), [1, 2, 3].as_slice()),
    )
}

#[test]
fn deeper_tables_are_held_and_not_written(rt: HostRuntime) -> Result<(), Fail> {
    is_too_deep(rt.alloc(), &deep_table(rt.alloc())?)
}
