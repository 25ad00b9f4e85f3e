//! Numbers and truth values.

use crate::asking::same;
use amqp_types::{
    DecimalValue, gen_boolean, gen_decimal_value, gen_double, gen_float, gen_id, gen_long_int,
    gen_long_long_int, gen_long_long_uint, gen_long_uint, gen_short_int, gen_short_short_int,
    gen_short_short_uint, gen_short_uint, gen_timestamp, parse_boolean, parse_decimal_value,
    parse_double, parse_float, parse_id, parse_long_int, parse_long_long_int, parse_long_long_uint,
    parse_long_uint, parse_short_int, parse_short_short_int, parse_short_short_uint,
    parse_short_uint, parse_timestamp, put_boolean, put_decimal_value, put_double, put_float,
    put_id, put_long_int, put_long_long_int, put_long_long_uint, put_long_uint, put_short_int,
    put_short_short_int, put_short_short_uint, put_short_uint, put_timestamp, size_boolean,
    size_decimal_value, size_double, size_float, size_id, size_long_int, size_long_long_int,
    size_long_long_uint, size_long_uint, size_short_int, size_short_short_int,
    size_short_short_uint, size_short_uint, size_timestamp,
};
use std::alloc::Global;
use std::test::Fail;

/// Each number is put into an array of just its size.
fn signed_numbers_are_written(alloc: Global, out: &mut Vec<u8>) -> Result<(), Fail> {
    let appended = [
        gen_short_short_int(alloc, out, -2),
        gen_short_int(alloc, out, -2),
        gen_long_int(alloc, out, -2),
        gen_long_long_int(alloc, out, -2),
    ];
    let sizes = [
        size_short_short_int(&-2),
        size_short_int(&-2),
        size_long_int(&-2),
        size_long_long_int(&-2),
    ];
    let (mut one, mut two, mut four, mut eight) = ([9; 1], [9; 2], [9; 4], [9; 8]);
    let ends = [
        put_short_short_int(&mut one, 0, &-2),
        put_short_int(&mut two, 0, &-2),
        put_long_int(&mut four, 0, &-2),
        put_long_long_int(&mut eight, 0, &-2),
    ];
    same(
        (appended, sizes),
        ([Ok(()); 4], [Ok(1), Ok(2), Ok(4), Ok(8)]),
    )?;
    same(
        out.as_slice(),
        &[
            254, 255, 254, 255, 255, 255, 254, 255, 255, 255, 255, 255, 255, 255, 254,
        ],
    )?;
    same(ends, [1, 2, 4, 8])?;
    let put = (
        [254],
        [255, 254],
        [255, 255, 255, 254],
        [255, 255, 255, 255, 255, 255, 255, 254],
    );
    same((one, two, four, eight), put)
}

fn signed_numbers_are_read() -> Result<(), Fail> {
    let read = (
        parse_short_short_int(&[254]),
        parse_short_int(&[255, 254]),
        parse_long_int(&[255, 255, 255, 254]),
        parse_long_long_int(&[255, 255, 255, 255, 255, 255, 255, 254]),
    );
    same(read, (Ok((1, -2)), Ok((2, -2)), Ok((4, -2)), Ok((8, -2))))
}

fn unsigned_numbers_are_written(alloc: Global, out: &mut Vec<u8>) -> Result<(), Fail> {
    let appended = [
        gen_short_short_uint(alloc, out, 7),
        gen_short_uint(alloc, out, 0x0102),
        gen_long_uint(alloc, out, 0x0102_0304),
        gen_long_long_uint(alloc, out, 0x0102_0304_0506_0708),
        gen_id(alloc, out, 60),
    ];
    let sizes = [
        size_short_short_uint(&7),
        size_short_uint(&0x0102),
        size_long_uint(&0x0102_0304),
        size_long_long_uint(&0x0102_0304_0506_0708),
        size_id(&60),
    ];
    let (mut one, mut two, mut four, mut eight, mut id) = ([9; 1], [9; 2], [9; 4], [9; 8], [9; 2]);
    let ends = [
        put_short_short_uint(&mut one, 0, &7),
        put_short_uint(&mut two, 0, &0x0102),
        put_long_uint(&mut four, 0, &0x0102_0304),
        put_long_long_uint(&mut eight, 0, &0x0102_0304_0506_0708),
        put_id(&mut id, 0, &60),
    ];
    same(
        (appended, sizes),
        ([Ok(()); 5], [Ok(1), Ok(2), Ok(4), Ok(8), Ok(2)]),
    )?;
    same(
        out.as_slice(),
        &[7, 1, 2, 1, 2, 3, 4, 1, 2, 3, 4, 5, 6, 7, 8, 0, 60],
    )?;
    same(ends, [1, 2, 4, 8, 2])?;
    let put = ([7], [1, 2], [1, 2, 3, 4], [1, 2, 3, 4, 5, 6, 7, 8], [0, 60]);
    same((one, two, four, eight, id), put)
}

fn unsigned_numbers_are_read() -> Result<(), Fail> {
    let read = (
        parse_short_short_uint(&[7]),
        parse_short_uint(&[1, 2]),
        parse_long_uint(&[1, 2, 3, 4]),
        parse_long_long_uint(&[1, 2, 3, 4, 5, 6, 7, 8]),
        parse_id(&[0, 60]),
    );
    let wanted = (
        Ok((1, 7)),
        Ok((2, 0x0102)),
        Ok((4, 0x0102_0304)),
        Ok((8, 0x0102_0304_0506_0708)),
        Ok((2, 60)),
    );
    same(read, wanted)
}

const DECIMAL: DecimalValue = DecimalValue {
    scale: 2,
    value: 256,
};

fn others_are_written(alloc: Global, out: &mut Vec<u8>) -> Result<(), Fail> {
    let appended = [
        gen_float(alloc, out, 0x3f80_0000),
        gen_double(alloc, out, 0x3ff0_0000_0000_0000),
        gen_timestamp(alloc, out, 9),
        gen_boolean(alloc, out, true),
        gen_boolean(alloc, out, false),
        gen_decimal_value(alloc, out, DECIMAL),
    ];
    let sizes = [
        size_float(&0x3f80_0000),
        size_double(&0x3ff0_0000_0000_0000),
        size_timestamp(&9),
        size_boolean(&true),
        size_decimal_value(&DECIMAL),
    ];
    let (mut float, mut double, mut time) = ([9; 4], [9; 8], [9; 8]);
    let (mut boolean, mut decimal) = ([9; 1], [9; 5]);
    let ends = [
        put_float(&mut float, 0, &0x3f80_0000),
        put_double(&mut double, 0, &0x3ff0_0000_0000_0000),
        put_timestamp(&mut time, 0, &9),
        put_boolean(&mut boolean, 0, &true),
        put_decimal_value(&mut decimal, 0, &DECIMAL),
    ];
    same(
        (appended, sizes),
        ([Ok(()); 6], [Ok(4), Ok(8), Ok(8), Ok(1), Ok(5)]),
    )?;
    same(
        out.as_slice(),
        &[
            63, 128, 0, 0, 63, 240, 0, 0, 0, 0, 0, 0, 0, 0, 0, 0, 0, 0, 0, 9, 1, 0, 2, 0, 0, 1, 0,
        ],
    )?;
    same(ends, [4, 8, 8, 1, 5])?;
    let put = (
        [63, 128, 0, 0],
        [63, 240, 0, 0, 0, 0, 0, 0],
        [0, 0, 0, 0, 0, 0, 0, 9],
        [1],
        [2, 0, 0, 1, 0],
    );
    same((float, double, time, boolean, decimal), put)
}

fn others_are_read() -> Result<(), Fail> {
    let read = (
        parse_float(&[63, 128, 0, 0]),
        parse_double(&[63, 240, 0, 0, 0, 0, 0, 0]),
        parse_timestamp(&[0, 0, 0, 0, 0, 0, 0, 9]),
        parse_boolean(&[0]),
        parse_boolean(&[255]),
        parse_decimal_value(&[2, 0, 0, 1, 0]),
    );
    let wanted = (
        Ok((4, 0x3f80_0000)),
        Ok((8, 0x3ff0_0000_0000_0000)),
        Ok((8, 9)),
        Ok((1, false)),
        Ok((1, true)),
        Ok((5, DECIMAL)),
    );
    same(read, wanted)
}

#[test]
fn numbers_are_read_as_written(rt: HostRuntime) -> Result<(), Fail> {
    let alloc = rt.alloc();
    signed_numbers_are_written(alloc, &mut Vec::new(alloc))?;
    signed_numbers_are_read()?;
    unsigned_numbers_are_written(alloc, &mut Vec::new(alloc))?;
    unsigned_numbers_are_read()?;
    others_are_written(alloc, &mut Vec::new(alloc))?;
    others_are_read()
}
