//! Borrowed tables compared by what they stand for, and copied: worked examples.

use amqp_lent::{
    LentArray, LentTable, LentValue, equal_lent_arrays, equal_lent_tables, equal_lent_values,
    lent_table,
};
use amqp_types::ParserError;
use amqp_vectors::asking::same;
use std::alloc::AllocError;
use std::test::Fail;

/// A table of one key, a, with an array of a table of the keys x and y.
const NESTED: &[u8] = &[
    0, 0, 0, 25, 1, 97, 65, 0, 0, 0, 18, 70, 0, 0, 0, 8, 1, 120, 116, 1, 1, 121, 116, 0, 115, 0, 5,
    86, 86,
];

/// The same with the inner keys in the other order, the truth value 1 written as 7, and the number 5 with its other tag.
const TURNED: &[u8] = &[
    0, 0, 0, 25, 1, 97, 65, 0, 0, 0, 18, 70, 0, 0, 0, 8, 1, 121, 116, 0, 1, 120, 116, 7, 85, 0, 5,
    86, 86,
];

/// The same as the first, with the number 6.
const OTHER: &[u8] = &[
    0, 0, 0, 25, 1, 97, 65, 0, 0, 0, 18, 70, 0, 0, 0, 8, 1, 120, 116, 1, 1, 121, 116, 0, 115, 0, 6,
    86, 86,
];

/// Two tables, and whether they are equal.
const ROWS: &[(&[u8], &[u8], bool)] = &[
    (&[0, 0, 0, 0], &[0, 0, 0, 0], true),
    (&[0, 0, 0, 0], &[0, 0, 0, 3, 1, 97, 86], false),
    // The keys a and b in either order.
    (
        &[0, 0, 0, 7, 1, 97, 116, 1, 1, 98, 86],
        &[0, 0, 0, 7, 1, 98, 86, 1, 97, 116, 1],
        true,
    ),
    // The key a twice, of which the last one counts.
    (
        &[0, 0, 0, 8, 1, 97, 116, 0, 1, 97, 116, 1],
        &[0, 0, 0, 4, 1, 97, 116, 1],
        true,
    ),
    (
        &[0, 0, 0, 8, 1, 97, 116, 0, 1, 97, 116, 1],
        &[0, 0, 0, 4, 1, 97, 116, 0],
        false,
    ),
    // Another key, and a key more.
    (&[0, 0, 0, 3, 1, 97, 86], &[0, 0, 0, 3, 1, 98, 86], false),
    (
        &[0, 0, 0, 3, 1, 97, 86],
        &[0, 0, 0, 6, 1, 97, 86, 1, 98, 86],
        false,
    ),
    // A long string and a byte array of the same byte.
    (
        &[0, 0, 0, 8, 1, 97, 83, 0, 0, 0, 1, 98],
        &[0, 0, 0, 8, 1, 97, 120, 0, 0, 0, 1, 98],
        false,
    ),
    // An array of two values, and the same in the other order.
    (
        &[0, 0, 0, 10, 1, 97, 65, 0, 0, 0, 3, 86, 116, 1],
        &[0, 0, 0, 10, 1, 97, 65, 0, 0, 0, 3, 116, 1, 86],
        false,
    ),
    // An array that begins as another.
    (
        &[0, 0, 0, 8, 1, 97, 65, 0, 0, 0, 1, 86],
        &[0, 0, 0, 9, 1, 97, 65, 0, 0, 0, 2, 86, 86],
        false,
    ),
    (NESTED, TURNED, true),
    (NESTED, OTHER, false),
];

/// Whether two tables are equal, if both can be read.
fn are_equal(a: &[u8], b: &[u8]) -> Option<bool> {
    match (lent_table(a), lent_table(b)) {
        (Ok((_, a)), Ok((_, b))) => Some(a == b && equal_lent_tables(&a, &b)),
        _ => None,
    }
}

#[test]
fn tables_are_equal_where_they_stand_for_the_same() -> Result<(), Fail> {
    for (a, b, wanted) in ROWS {
        same(are_equal(a, b), Some(*wanted))?;
        same(are_equal(b, a), Some(*wanted))?;
    }
    Ok(())
}

/// Whether a copy of an array is equal to it.
fn is_copied(array: &LentArray<'_>) -> Result<bool, AllocError> {
    let copied = array.clone()?;
    Ok(equal_lent_arrays(&copied, array))
}

/// Whether copies of the table and of its array of the key a are equal to what they are copied from.
fn are_copied(table: &LentTable<'_>) -> Result<bool, AllocError> {
    let copied = table.clone()?;
    let Some(value) = table.get("a") else {
        return Ok(false);
    };
    let copied_value = value.clone()?;
    let are_same = copied == *table && equal_lent_values(&copied_value, &value);
    match value {
        LentValue::FieldArray(array) => Ok(are_same && is_copied(&array)?),
        _ => Ok(false),
    }
}

#[test]
fn copies_are_equal() -> Result<(), Fail> {
    match lent_table(TURNED) {
        Ok((_, table)) => same(are_copied(&table)?, true),
        Err(error) => same(error, ParserError::NoMemory),
    }
}
