//! Each method of the class confirm is written as these bytes, and read from them.

use crate::rows::{self, after_id, agree, agrees, is_appended};
use amqp_protocol::AMQPClass;
use amqp_protocol::confirm::*;
use std::alloc::Global;
use std::test::Fail;

/// Fails unless the method comes back from its payload.
fn comes_back(alloc: Global, method: AMQPMethod, payload: &[u8]) -> Result<(), Fail> {
    rows::comes_back(alloc, AMQPClass::Confirm(method), payload)
}

/// The same through the calls of the class, and through those of the method alone.
pub fn of_class(
    alloc: Global,
    method: &AMQPMethod,
    out: &mut Vec<u8>,
    payload: &[u8],
) -> Result<(), Fail> {
    let written = after_id(payload);
    agree!(alloc, method, out, payload, written; gen_confirm, size_confirm, put_confirm, parse_confirm)?;
    alone(alloc, method, out, written)
}

/// Of the methods alone.
fn alone(
    alloc: Global,
    method: &AMQPMethod,
    out: &mut Vec<u8>,
    written: &[u8],
) -> Result<(), Fail> {
    let fields = after_id(written);
    match method {
        AMQPMethod::Select(m) =>
            agree!(alloc, m, out, written, fields; gen_select, size_select, put_select, parse_select),
        AMQPMethod::SelectOk(m) =>
            agree!(alloc, m, out, written, fields; gen_select_ok, size_select_ok, put_select_ok, parse_select_ok),
    }
}

#[test]
fn confirms(rt: HostRuntime) -> Result<(), Fail> {
    let alloc = rt.alloc();
    let method = Select { nowait: true };
    comes_back(alloc, AMQPMethod::Select(method), &[0, 85, 0, 10, 1])?;
    comes_back(alloc, AMQPMethod::SelectOk(SelectOk {}), &[0, 85, 0, 11])
}
