//! Memory that runs out: `rt try --test --fail-alloc N` lets the Nth allocation of each test fail.

use crate::kinds::{ARRAY, TABLE};
use amqp_values::{
    FieldArray, FieldTable, GenError, NoMemory, ParserError, gen_field_array, gen_field_table,
    parse_field_array, parse_field_table,
};
use amqp_vectors::asking::same_in;
use std::alloc::Global;
use std::test::Fail;

/// A vector that holds a 7 alone, and was refused to grow, or holds these bytes after it.
fn is_appended(appended: Result<(), GenError>, out: &[u8], written: &[u8]) -> bool {
    match appended {
        Ok(()) => out.first() == Some(&7) && out.get(1..) == Some(written),
        Err(error) => error == GenError::NoMemory && out == [7].as_slice(),
    }
}

/// Whether each value is pushed, or memory is refused and the array stays.
fn is_pushed(alloc: Global, array: &FieldArray) -> bool {
    let mut pushed = FieldArray::new(alloc);
    for value in array.as_slice() {
        let held = pushed.len();
        let Ok(copied) = value.copy(alloc) else {
            continue;
        };
        let wanted = match pushed.push(copied) {
            Ok(()) => Some(value),
            Err(NoMemory) => None,
        };
        if pushed.as_slice().get(held) != wanted {
            return false;
        }
    }
    true
}

/// Whether the calls of an array return, or memory is refused and all stays.
fn array_stays(alloc: Global, array: &FieldArray, bytes: &[u8]) -> bool {
    let mut out = Vec::new(alloc);
    if out.push(7).is_err() {
        return true;
    }
    let appended = gen_field_array(alloc, &mut out, array);
    let is_copied = match array.copy(alloc) {
        Ok(copied) => copied == *array,
        Err(NoMemory) => true,
    };
    is_appended(appended, &out, bytes) && is_copied && is_pushed(alloc, array)
}

fn array_is_read(alloc: Global, bytes: &[u8]) -> bool {
    match parse_field_array(alloc, bytes) {
        Ok((used, array)) => used == bytes.len() && array_stays(alloc, &array, bytes),
        Err(error) => error == ParserError::NoMemory,
    }
}

#[test]
fn refused_memory_leaves_an_array_of_each_kind(rt: HostRuntime) -> Result<(), Fail> {
    same_in("each kind", array_is_read(rt.alloc(), &ARRAY), true)
}

/// Whether a table holds entries of the other alone.
fn is_part(part: &FieldTable, whole: &FieldTable) -> bool {
    for (key, value) in part.iter() {
        if whole.get(key.as_str()) != Some(value) {
            return false;
        }
    }
    true
}

/// Whether each entry is inserted, or memory is refused and the table stays.
fn is_inserted(alloc: Global, table: &FieldTable) -> bool {
    let mut inserted = FieldTable::new(alloc);
    for (key, value) in table.iter() {
        let held = inserted.len();
        let (Ok(name), Ok(copied)) = (key.copy(alloc), value.copy(alloc)) else {
            continue;
        };
        let wanted = match inserted.insert(name, copied) {
            Ok(()) => Some(value),
            Err(NoMemory) => None,
        };
        let has_grown = inserted.len() != held;
        if inserted.get(key.as_str()) != wanted || has_grown != wanted.is_some() {
            return false;
        }
    }
    is_part(&inserted, table)
}

/// Whether the calls of a table return, or memory is refused and all stays.
fn table_stays(alloc: Global, table: &FieldTable, bytes: &[u8]) -> bool {
    let mut out = Vec::new(alloc);
    if out.push(7).is_err() {
        return true;
    }
    let appended = gen_field_table(alloc, &mut out, table);
    let is_copied = match table.copy(alloc) {
        Ok(copied) => copied == *table,
        Err(NoMemory) => true,
    };
    is_appended(appended, &out, bytes) && is_copied && is_inserted(alloc, table)
}

fn table_is_read(alloc: Global, bytes: &[u8]) -> bool {
    match parse_field_table(alloc, bytes) {
        Ok((used, table)) => used == bytes.len() && table_stays(alloc, &table, bytes),
        Err(error) => error == ParserError::NoMemory,
    }
}

#[test]
fn refused_memory_leaves_tables(rt: HostRuntime) -> Result<(), Fail> {
    let nested = [0, 0, 0, 14, 1, 97, 70, 0, 0, 0, 7, 1, 97, 86, 1, 98, 116, 1];
    same_in("each kind", table_is_read(rt.alloc(), &TABLE), true)?;
    same_in("nested", table_is_read(rt.alloc(), &nested), true)
}
