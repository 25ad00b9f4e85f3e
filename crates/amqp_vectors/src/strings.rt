//! Strings and byte arrays.

use crate::asking::{answers, reads, same, shows};
use amqp_types::{
    ByteArray, LongString, MakeError, ParserError, ShortString, gen_byte_array, gen_long_string,
    gen_short_string, parse_byte_array, parse_long_bytes, parse_long_string, parse_short_str,
    parse_short_string, parse_table_bytes, put_byte_array, put_long_string, put_short_string,
    size_byte_array, size_long_string, size_short_string,
};
use std::alloc::Global;
use std::collections::HashSet;
use std::test::Fail;

/// The length of the short string of as many bytes `a`.
fn made_of(alloc: Global, count: usize) -> Result<usize, MakeError> {
    let mut text = String::new(alloc);
    for _ in 0..count {
        text.push('a')?;
    }
    let string = ShortString::new(alloc, &text)?;
    Ok(string.len())
}

#[test]
fn short_strings_have_at_most_255_bytes(rt: HostRuntime) -> Result<(), Fail> {
    let alloc = rt.alloc();
    let made = [made_of(alloc, 0), made_of(alloc, 255), made_of(alloc, 256)];
    same(made, [Ok(0), Ok(255), Err(MakeError::TooLong)])
}

/// The short string with this text. Where memory is refused it is empty, and the test fails.
fn word(alloc: Global, text: &str) -> ShortString {
    match ShortString::new(alloc, text) {
        Ok(word) => word,
        Err(_) => ShortString::empty(alloc),
    }
}

fn are_in_order(first: &ShortString, second: &ShortString, third: &ShortString) -> bool {
    first < second && first != second && second < third
}

/// Which of these words a set has that holds the first one.
fn are_held(alloc: Global, held: ShortString, words: [&ShortString; 2]) -> Result<[bool; 2], Fail> {
    let mut set = HashSet::new(alloc);
    set.insert(held)?;
    Ok([set.contains(words[0]), set.contains(words[1])])
}

/// They are compared by bytes: the first byte of the last one is 195.
#[test]
fn short_strings_are_compared(rt: HostRuntime) -> Result<(), Fail> {
    let alloc = rt.alloc();
    let (upper, lower) = (word(alloc, "Queue"), word(alloc, "queue"));
    let is_sorted = are_in_order(&upper, &lower, &word(alloc, "\u{e9}"));
    let are_held = are_held(alloc, word(alloc, "queue"), [&lower, &upper])?;
    same((is_sorted, are_held), (true, [true, false]))?;
    shows(alloc, &lower, "", "queue", "")
}

/// Each string is put into an array of just its size.
fn strings_are_written(alloc: Global, out: &mut Vec<u8>) -> Result<(), Fail> {
    let short = ShortString::new(alloc, "a")?;
    let array = ByteArray::new(alloc, &[99])?;
    let appended = [
        gen_short_string(alloc, out, &short),
        gen_long_string(alloc, out, &[98, 255]),
        gen_byte_array(alloc, out, &array),
    ];
    let sizes = [
        size_short_string(&short),
        size_long_string(&[98, 255]),
        size_byte_array(&array),
    ];
    let (mut two, mut six, mut five) = ([9; 2], [9; 6], [9; 5]);
    let ends = [
        put_short_string(&mut two, 0, &short),
        put_long_string(&mut six, 0, &[98, 255]),
        put_byte_array(&mut five, 0, &array),
    ];
    same(
        (appended, sizes, ends),
        ([Ok(()); 3], [Ok(2), Ok(6), Ok(5)], [2, 6, 5]),
    )?;
    same(
        out.as_slice(),
        &[1, 97, 0, 0, 0, 2, 98, 255, 0, 0, 0, 1, 99],
    )?;
    same(
        (two, six, five),
        ([1, 97], [0, 0, 0, 2, 98, 255], [0, 0, 0, 1, 99]),
    )
}

fn short_string_is_read(alloc: Global, string: &ShortString) -> Result<(), Fail> {
    reads(parse_short_string(alloc, &[1, 97]), 2, string)?;
    reads(parse_short_str(&[1, 97]), 2, &string.as_str())?;
    answers(string.copy(alloc), string)?;
    same((string.len(), string.is_empty()), (1, false))
}

fn long_string_is_read(alloc: Global, string: &LongString) -> Result<(), Fail> {
    let bytes = [0, 0, 0, 2, 98, 255];
    reads(parse_long_string(alloc, &bytes), 6, string)?;
    reads(parse_long_bytes(&bytes), 6, &string.as_bytes())?;
    reads(parse_table_bytes(&bytes), 6, &string.as_bytes())?;
    answers(string.copy(alloc), string)?;
    same((string.len(), string.is_empty()), (2, false))
}

fn byte_array_is_read(alloc: Global, array: &ByteArray) -> Result<(), Fail> {
    reads(parse_byte_array(alloc, &[0, 0, 0, 2, 1, 97]), 6, array)?;
    answers(array.copy(alloc), array)?;
    same(
        (array.as_slice(), array.len(), array.is_empty()),
        ([1, 97].as_slice(), 2, false),
    )
}

#[test]
fn strings_are_read_as_written(rt: HostRuntime) -> Result<(), Fail> {
    let alloc = rt.alloc();
    strings_are_written(alloc, &mut Vec::new(alloc))?;
    short_string_is_read(alloc, &word(alloc, "a"))?;
    long_string_is_read(alloc, &LongString::new(alloc, &[98, 255])?)?;
    byte_array_is_read(alloc, &ByteArray::from_vec(vec![in alloc; 1, 97]?))?;
    let lengths = [
        ShortString::empty(alloc).len(),
        LongString::empty(alloc).len(),
        ByteArray::empty(alloc).len(),
    ];
    same(lengths, [0; 3])
}

/// A string that ends too early is not looked into.
#[test]
fn refusals_of_strings(rt: HostRuntime) -> Result<(), Fail> {
    let alloc = rt.alloc();
    let faults = [
        parse_short_str(&[]).err(),
        parse_short_str(&[2, 255]).err(),
        parse_long_string(alloc, &[0, 0, 0, 1]).err(),
        parse_long_bytes(&[255, 255, 255, 255, 0]).err(),
        parse_table_bytes(&[0, 0, 0]).err(),
        parse_byte_array(alloc, &[0]).err(),
    ];
    same(faults, [Some(ParserError::Incomplete); 6])?;
    let faults = [
        parse_short_str(&[1, 255]).err(),
        parse_short_string(alloc, &[1, 255]).err(),
    ];
    same(faults, [Some(ParserError::NotUtf8); 2])
}
