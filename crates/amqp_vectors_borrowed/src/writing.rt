//! Canonical bytes that are put in place of those that were decoded, with marks enough and too few.

use crate::judging::Call::{self, Array, ContentHeader, Payload, Table, Value};
use crate::values::KINDS;
use amqp_canonical::{
    EntryMark, Sure, judge_array, judge_content_header, judge_payload, judge_table, judge_value,
    put_array, put_content_header, put_payload, put_table, put_value, written_is_no_longer,
};
use amqp_vectors::asking::same;
use std::alloc::Global;
use std::test::Fail;

/// Puts the canonical bytes after the first byte of a slice, and returns the place after them. `None` where nothing is
/// decoded, or the slice may be too short.
fn put(call: Call, buf: &mut [u8], scratch: &mut [EntryMark], i: &[u8]) -> Option<usize> {
    written_is_no_longer();
    match call {
        Value(depth_left) => match judge_value(i, depth_left) {
            Ok(it) if it.used < buf.len() => Some(put_value::<Sure>(
                buf, 1, scratch, i, depth_left,
            )),
            _ => None,
        },
        Array(depth_left) => match judge_array(i, depth_left) {
            Ok(it) if it.used < buf.len() => Some(put_array::<Sure>(
                buf, 1, scratch, i, depth_left,
            )),
            _ => None,
        },
        Table(depth_left) => match judge_table(i, depth_left) {
            Ok(it) if it.used < buf.len() => Some(put_table::<Sure>(
                buf, 1, scratch, i, depth_left,
            )),
            _ => None,
        },
        Payload => match judge_payload(i) {
            Ok(it) if it.used < buf.len() => Some(put_payload(buf, 1, scratch, i)),
            _ => None,
        },
        ContentHeader => match judge_content_header(i) {
            Ok(it) if it.used < buf.len() => Some(put_content_header(buf, 1, scratch, i)),
            _ => None,
        },
        Call::Shapes | Call::Skipped | Call::Flags(_) => None,
    }
}

/// What is put with so many marks, and the byte in front of it.
fn written(alloc: Global, call: Call, i: &[u8], marks: usize) -> Result<Vec<u8>, Fail> {
    let mut scratch = vec![in alloc; EntryMark::default(); marks]?;
    let mut buf = vec![in alloc; 7; i.len() + 1]?;
    match put(call, &mut buf, &mut scratch, i) {
        Some(end) => buf.truncate(end),
        None => return Err(Fail::new("nothing is decoded")),
    }
    Ok(buf)
}

/// Fails unless these bytes are put, with half as many marks as bytes, with one and with none.
fn is_written(alloc: Global, call: Call, read: &[u8], wanted: &[u8]) -> Result<(), Fail> {
    for marks in [read.len() / 2, 1, 0] {
        let found = written(alloc, call, read, marks)?;
        same(found.split_first(), Some((&7, wanted)))?;
    }
    Ok(())
}

/// A table of one entry of each kind in descending key order, whose keys are the tags, with truth bytes 2 and 255 and
/// tag bytes 85 and 76.
const FALLING: [u8; 126] = [
    0, 0, 0, 122, // the length of the entries
    1, 120, 120, 0, 0, 0, 1, 98, // a byte array
    1, 117, 117, 1, 2, // unsigned, 2 bytes
    1, 116, 116, 2, // a truth value
    1, 115, 85, 255, 254, // signed, 2 bytes
    1, 108, 76, 255, 255, 255, 255, 255, 255, 255, 254, // signed, 8 bytes
    1, 105, 105, 0, 0, 0, 4, // unsigned, 4 bytes
    1, 102, 102, 63, 128, 0, 0, // a fraction, 4 bytes
    1, 100, 100, 63, 240, 0, 0, 0, 0, 0, 0, // a fraction, 8 bytes
    1, 98, 98, 254, // signed, 1 byte
    1, 86, 86, // nothing
    1, 84, 84, 0, 0, 0, 0, 0, 0, 0, 9, // a time
    1, 83, 83, 0, 0, 0, 1, 255, // a long string
    1, 73, 73, 255, 255, 255, 254, // signed, 4 bytes
    1, 70, 70, 0, 0, 0, 4, 1, 97, 116, 255, // a table, which holds a truth value
    1, 68, 68, 2, 0, 0, 1, 0, // a decimal value
    1, 66, 66, 200, // unsigned, 1 byte
    1, 65, 65, 0, 0, 0, 1, 86, // an array, which holds one value
];

/// A broker's Start, whose two properties stand in no order.
const START: [u8; 89] = [
    0, 10, 0, 10, 0, 9, 0, 0, 0, 52, // the length of the properties
    7, 112, 114, 111, 100, 117, 99, 116, 83, 0, 0, 0, 8, 82, 97, 98, 98, 105, 116, 77, 81, //
    12, 99, 97, 112, 97, 98, 105, 108, 105, 116, 105, 101, 115, 70, 0, 0, 0, 13, 10, 98, 97, 115,
    105, 99, 46, 110, 97, 99, 107, 116, 1, //
    0, 0, 0, 14, 80, 76, 65, 73, 78, 32, 65, 77, 81, 80, 76, 65, 73, 78, 0, 0, 0, 5, 101, 110, 95,
    85, 83,
];

/// The same as it is written.
const START_IN_ORDER: [u8; 89] = [
    0, 10, 0, 10, 0, 9, 0, 0, 0, 52, // the length of the properties
    12, 99, 97, 112, 97, 98, 105, 108, 105, 116, 105, 101, 115, 70, 0, 0, 0, 13, 10, 98, 97, 115,
    105, 99, 46, 110, 97, 99, 107, 116, 1, //
    7, 112, 114, 111, 100, 117, 99, 116, 83, 0, 0, 0, 8, 82, 97, 98, 98, 105, 116, 77, 81, //
    0, 0, 0, 14, 80, 76, 65, 73, 78, 32, 65, 77, 81, 80, 76, 65, 73, 78, 0, 0, 0, 5, 101, 110, 95,
    85, 83,
];

/// What bytes are decoded as, the bytes, and what is put in their place.
const ROWS: [(Call, &[u8], &[u8]); 17] = [
    (Table(0), &[0, 0, 0, 0], &[0, 0, 0, 0]),
    (Value(0), &[116, 9], &[116, 1]),
    (Array(0), &[0, 0, 0, 3, 85, 0, 1], &[0, 0, 0, 3, 115, 0, 1]),
    (Table(63), &FALLING, &KINDS),
    // of equal keys the last one is written, also where they stand apart, or at two depths
    (
        Table(63),
        &[0, 0, 0, 8, 1, 97, 116, 0, 1, 97, 116, 7],
        &[0, 0, 0, 4, 1, 97, 116, 1],
    ),
    (
        Table(63),
        &[0, 0, 0, 11, 1, 97, 116, 1, 1, 98, 86, 1, 97, 116, 0],
        &[0, 0, 0, 7, 1, 97, 116, 0, 1, 98, 86],
    ),
    (
        Table(63),
        &[
            0, 0, 0, 28, 1, 107, 86, 1, 107, 65, 0, 0, 0, 18, 70, 0, 0, 0, 10, 1, 98, 86, 1, 97,
            116, 9, 1, 98, 86, 85, 0, 1,
        ],
        &[
            0, 0, 0, 22, 1, 107, 65, 0, 0, 0, 15, 70, 0, 0, 0, 7, 1, 97, 116, 1, 1, 98, 86, 115, 0,
            1,
        ],
    ),
    // keys that begin alike
    (
        Table(63),
        &[
            0, 0, 0, 34, 9, 97, 98, 99, 100, 101, 102, 103, 104, 66, 86, 9, 97, 98, 99, 100, 101,
            102, 103, 104, 65, 86, 8, 97, 98, 99, 100, 101, 102, 103, 104, 86, 0, 86,
        ],
        &[
            0, 0, 0, 34, 0, 86, 8, 97, 98, 99, 100, 101, 102, 103, 104, 86, 9, 97, 98, 99, 100,
            101, 102, 103, 104, 65, 86, 9, 97, 98, 99, 100, 101, 102, 103, 104, 66, 86,
        ],
    ),
    (Payload, &START, &START_IN_ORDER),
    // a reserved number, and bits that are no flags
    (Payload, &[0, 30, 0, 11, 0, 9], &[0, 30, 0, 11, 0, 1]),
    (Payload, &[0, 85, 0, 10, 255], &[0, 85, 0, 10, 1]),
    // a reserved short string and a reserved flag, a reserved long string, and a reserved number of four bytes
    (
        Payload,
        &[0, 10, 0, 40, 1, 47, 1, 120, 1],
        &[0, 10, 0, 40, 1, 47, 0, 0],
    ),
    (
        Payload,
        &[0, 20, 0, 11, 0, 0, 0, 2, 1, 2],
        &[0, 20, 0, 11, 0, 0, 0, 0],
    ),
    (
        Payload,
        &[0, 60, 0, 10, 1, 2, 3, 4, 0, 5, 254],
        &[0, 60, 0, 10, 0, 0, 0, 0, 0, 5, 0],
    ),
    // a queue, whose arguments stand in no order
    (
        Payload,
        &[
            0, 50, 0, 10, 0, 7, 1, 113, 255, 0, 0, 0, 8, 1, 98, 116, 1, 1, 97, 116, 0,
        ],
        &[
            0, 50, 0, 10, 0, 0, 1, 113, 31, 0, 0, 0, 8, 1, 97, 116, 0, 1, 98, 116, 1,
        ],
    ),
    // a weight, and the two bits that no property has; then a content type, headers in no order, and a delivery mode
    (
        ContentHeader,
        &[0, 60, 0, 7, 0, 0, 0, 0, 0, 0, 0, 5, 0, 3],
        &[0, 60, 0, 0, 0, 0, 0, 0, 0, 0, 0, 5, 0, 0],
    ),
    (
        ContentHeader,
        &[
            0, 60, 1, 1, 0, 0, 0, 0, 0, 0, 0, 5, 176, 1, 1, 120, 0, 0, 0, 8, 1, 98, 86, 0, 86, 1,
            98, 86, 2,
        ],
        &[
            0, 60, 0, 0, 0, 0, 0, 0, 0, 0, 0, 5, 176, 0, 1, 120, 0, 0, 0, 5, 0, 86, 1, 98, 86, 2,
        ],
    ),
];

#[test]
fn canonical_bytes_are_put(rt: HostRuntime) -> Result<(), Fail> {
    for (call, read, wanted) in ROWS {
        is_written(rt.alloc(), call, read, wanted)?;
        is_written(rt.alloc(), call, wanted, wanted)?;
    }
    Ok(())
}

/// 64 tables, each but the innermost with the next one at the key of no bytes, which stands there twice, nothing
/// being at it the first time. Where `once` holds, it stands there once.
fn nested(alloc: Global, once: bool) -> Result<Vec<u8>, Fail> {
    let (step, front): (u16, &[u8]) = if once {
        (6, &[0, 70])
    } else {
        (8, &[0, 86, 0, 70])
    };
    let mut bytes = Vec::new(alloc);
    for below in (1..64u16).rev() {
        bytes.extend_from_slice(&[0, 0])?;
        bytes.extend_from_slice(&below.wrapping_mul(step).to_be_bytes())?;
        bytes.extend_from_slice(front)?;
    }
    bytes.extend_from_slice(&[0, 0, 0, 0])?;
    Ok(bytes)
}

/// A table of 16384 keys of two bytes in descending order, or of one such key again and again.
fn wide(alloc: Global, falling: bool) -> Result<Vec<u8>, Fail> {
    let mut bytes = Vec::new(alloc);
    bytes.extend_from_slice(&[0, 1, 0, 0])?;
    for first in (0..128).rev() {
        for second in (0..128).rev() {
            let key: [u8; 2] = if falling { [first, second] } else { [0, 0] };
            bytes.extend_from_slice(&[2, key[0], key[1], 86])?;
        }
    }
    Ok(bytes)
}

/// How many bytes are put for such a table, with the one in front of them.
fn wide_size(alloc: Global, falling: bool) -> Result<usize, Fail> {
    let read = wide(alloc, falling)?;
    let found = written(alloc, Table(63), &read, read.len() / 2)?;
    Ok(found.len())
}

/// What no clause says is that deep and wide tables take little time and stack.
#[test]
fn large_tables_are_put(rt: HostRuntime) -> Result<(), Fail> {
    let alloc = rt.alloc();
    let read = nested(alloc, false)?;
    is_written(alloc, Table(63), &read, &nested(alloc, true)?)?;
    same(wide_size(alloc, true)?, 65_541)?;
    same(wide_size(alloc, false)?, 9)
}
