//! Bytes at the end of a vector, and at a place of a slice.

use crate::asking::same;
use amqp_types::{append_bytes, grow, put_bytes};
use std::alloc::Global;
use std::test::Fail;

fn vector_grows(out: &mut Vec<u8>) -> Result<(), Fail> {
    same(append_bytes(out, b"abc"), Ok(()))?;
    same(grow(out, 2), Ok(3))?;
    same(out.as_slice(), b"abc\0\0")
}

#[test]
fn bytes_are_appended_and_put(rt: HostRuntime) -> Result<(), Fail> {
    vector_grows(&mut Vec::new(rt.alloc()))?;
    let mut buf = [9; 4];
    same(put_bytes(&mut buf, 1, b"ab"), 3)?;
    same(buf, [9, 97, 98, 9])
}
