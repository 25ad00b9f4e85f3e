//! Flags, which are the bits of a byte.

use crate::asking::same;
use amqp_types::{
    AMQPFlags, ParserError, byte_of_flags, flag_of_byte, gen_flags, parse_flags, put_flags,
    size_flags,
};
use std::test::Fail;

/// The first flag is the lowest bit, and the unused bits are read and dropped.
#[test]
fn two_flags_are_read_as_written(rt: HostRuntime) -> Result<(), Fail> {
    let mut flags = AMQPFlags::default();
    flags.add_flag(true);
    flags.add_flag(false);
    let mut out = Vec::new(rt.alloc());
    gen_flags(rt.alloc(), &mut out, &flags)?;
    same(out.as_slice(), &[1])?;
    let mut buf = [9];
    same(
        (put_flags(&mut buf, 0, &flags), buf, size_flags(&flags)),
        (1, [1], Ok(1)),
    )?;
    let asked = [flags.get_flag(0), flags.get_flag(1), flags.get_flag(2)];
    same(asked, [Some(true), Some(false), None])?;
    same(parse_flags(&[253], 2), Ok((1, flags.clone()?)))
}

#[test]
fn eight_flags_fill_a_byte() -> Result<(), Fail> {
    let (used, flags) = parse_flags(&[130], 8)?;
    same(
        (used, flags.len(), flags.is_empty(), flags.to_byte()),
        (1, 8, false, 130),
    )?;
    same([flags.get_flag(7), flags.get_flag(8)], [Some(true), None])?;
    same(
        (byte_of_flags(&[false, true]), flag_of_byte(2, 1)),
        (2, true),
    )?;
    same(parse_flags(&[], 1).err(), Some(ParserError::Incomplete))
}
