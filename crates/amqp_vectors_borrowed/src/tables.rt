//! Borrowed tables and arrays: worked examples.

use amqp_lent::{LentValue, lent_table};
use amqp_types::ParserError;
use amqp_vectors::asking::same;
use std::test::Fail;

/// Which of these a value is, the first 17 in the order in which they stand in the array of all kinds.
fn kind(value: &LentValue<'_>) -> usize {
    match value {
        LentValue::Boolean(true) => 0,
        LentValue::ShortShortInt(-2) => 1,
        LentValue::ShortShortUInt(200) => 2,
        LentValue::ShortInt(-2) => 3,
        LentValue::ShortUInt(258) => 4,
        LentValue::LongInt(-2) => 5,
        LentValue::LongUInt(4) => 6,
        LentValue::LongLongInt(-2) => 7,
        LentValue::Float(1_065_353_216) => 8,
        LentValue::Double(4_607_182_418_800_017_408) => 9,
        LentValue::DecimalValue(_) => 10,
        LentValue::LongString([255]) => 11,
        LentValue::FieldArray(_) => 12,
        LentValue::Timestamp(9) => 13,
        LentValue::FieldTable(_) => 14,
        LentValue::ByteArray([98]) => 15,
        LentValue::Void => 16,
        LentValue::ShortShortUInt(7) => 17,
        _ => 18,
    }
}

/// How many bytes the table at the front takes, and which of the kinds its value of a key is.
fn read(bytes: &[u8], key: &str) -> Result<(usize, Option<usize>), ParserError> {
    match lent_table(bytes) {
        Ok((used, table)) => match table.get(key) {
            Some(value) => Ok((used, Some(kind(&value)))),
            None => Ok((used, None)),
        },
        Err(error) => Err(error),
    }
}

/// A table of the keys c, a and b, and then a again, each with a truth value but for the last one's number.
const REPEATED: [u8; 21] = [
    0, 0, 0, 16, 1, 99, 116, 1, 1, 97, 116, 1, 1, 98, 116, 0, 1, 97, 66, 7, 9,
];

/// A table, a key, and what is found.
const ROWS: [(&[u8], &str, Result<(usize, Option<usize>), ParserError>); 10] = [
    (
        &[0, 0, 0, 8, 1, 97, 116, 0, 1, 97, 116, 7],
        "a",
        Ok((12, Some(0))),
    ),
    (
        &[0, 0, 0, 8, 1, 97, 116, 0, 1, 97, 116, 7],
        "b",
        Ok((12, None)),
    ),
    (&REPEATED, "a", Ok((20, Some(17)))),
    (&REPEATED, "c", Ok((20, Some(0)))),
    (&REPEATED, "", Ok((20, None))),
    (&[0, 0, 0], "", Err(ParserError::Incomplete)),
    (
        &[0, 0, 0, 4, 1, 97, 90, 0],
        "a",
        Err(ParserError::UnknownTag),
    ),
    (&[0, 0, 0, 3, 1, 255, 86], "", Err(ParserError::NotUtf8)),
    (
        &[0, 0, 0, 3, 1, 97, 116],
        "a",
        Err(ParserError::ShortPayload),
    ),
    (&[0, 0, 0, 1, 5], "", Err(ParserError::ShortPayload)),
];

#[test]
fn tables_are_read_by_key() -> Result<(), Fail> {
    for (bytes, key, wanted) in ROWS {
        same(read(bytes, key), wanted)?;
    }
    Ok(())
}

/// The least key of this table above another, and which of the kinds its value is.
fn next(key: Option<&str>) -> Option<(&'static str, usize)> {
    match lent_table(&[0, 0, 0, 9, 1, 99, 86, 1, 97, 86, 1, 98, 86]) {
        Ok((_, table)) => match table.next_after(key) {
            Some((key, value)) => Some((key, kind(&value))),
            None => None,
        },
        Err(_) => None,
    }
}

#[test]
fn keys_come_in_ascending_order() -> Result<(), Fail> {
    let rows = [
        (None, Some(("a", 16))),
        (Some("a"), Some(("b", 16))),
        (Some("b"), Some(("c", 16))),
        (Some("c"), None),
    ];
    for (key, wanted) in rows {
        same(next(key), wanted)?;
    }
    Ok(())
}

/// A table with one array, in which stands one value of each kind.
const KINDS: [u8; 99] = [
    0, 0, 0, 95, 1, 107, 65, 0, 0, 0, 88, // the lengths, the key and the tag of the array
    116, 1, // a truth value
    98, 254, // signed, 1 byte
    66, 200, // unsigned, 1 byte
    115, 255, 254, // signed, 2 bytes
    117, 1, 2, // unsigned, 2 bytes
    73, 255, 255, 255, 254, // signed, 4 bytes
    105, 0, 0, 0, 4, // unsigned, 4 bytes
    108, 255, 255, 255, 255, 255, 255, 255, 254, // signed, 8 bytes
    102, 63, 128, 0, 0, // a fraction, 4 bytes
    100, 63, 240, 0, 0, 0, 0, 0, 0, // a fraction, 8 bytes
    68, 2, 0, 0, 1, 0, // a decimal value
    83, 0, 0, 0, 1, 255, // a long string
    65, 0, 0, 0, 1, 86, // an array, which holds one value
    84, 0, 0, 0, 0, 0, 0, 0, 9, // a time
    70, 0, 0, 0, 4, 1, 97, 116, 1, // a table, which holds a truth value
    120, 0, 0, 0, 1, 98, // a byte array
    86, // nothing
];

/// Which item of that array is not of its kind, or how many there are.
fn items() -> Option<usize> {
    let Ok((_, table)) = lent_table(&KINDS) else {
        return None;
    };
    let Some(LentValue::FieldArray(array)) = table.get("k") else {
        return None;
    };
    let mut items = array.items();
    for wanted in 0..17 {
        match items.next() {
            Some(item) if kind(&item) == wanted => {}
            _ => return Some(wanted),
        }
    }
    if items.next().is_none() {
        Some(17)
    } else {
        None
    }
}

#[test]
fn items_are_of_all_kinds() -> Result<(), Fail> {
    same(items(), Some(17))
}
