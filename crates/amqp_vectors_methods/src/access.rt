//! Each method of the class access is written as these bytes, and read from them.

use crate::made::text;
use crate::rows::{self, after_id, agree, agrees, is_appended};
use amqp_protocol::AMQPClass;
use amqp_protocol::access::*;
use amqp_vectors::asking::reads;
use std::alloc::Global;
use std::test::Fail;

/// Fails unless the method comes back from its payload.
fn comes_back(alloc: Global, method: AMQPMethod, payload: &[u8]) -> Result<(), Fail> {
    rows::comes_back(alloc, AMQPClass::Access(method), payload)
}

/// The same through the calls of the class, and through those of the method alone.
pub fn of_class(
    alloc: Global,
    method: &AMQPMethod,
    out: &mut Vec<u8>,
    payload: &[u8],
) -> Result<(), Fail> {
    let written = after_id(payload);
    agree!(alloc, method, out, payload, written; gen_access, size_access, put_access, parse_access)?;
    alone(alloc, method, out, written)
}

/// Of the methods alone.
fn alone(
    alloc: Global,
    method: &AMQPMethod,
    out: &mut Vec<u8>,
    written: &[u8],
) -> Result<(), Fail> {
    let fields = after_id(written);
    match method {
        AMQPMethod::Request(m) =>
            agree!(alloc, m, out, written, fields; gen_request, size_request, put_request, parse_request),
        AMQPMethod::RequestOk(m) =>
            agree!(alloc, m, out, written, fields; gen_request_ok, size_request_ok, put_request_ok, parse_request_ok),
    }
}

/// Any ticket is read, and written as 1.
#[test]
fn tickets(rt: HostRuntime) -> Result<(), Fail> {
    let alloc = rt.alloc();
    let method = Request {
        realm: text(alloc),
        exclusive: true,
        passive: true,
        active: true,
        write: true,
        read: true,
    };
    comes_back(
        alloc,
        AMQPMethod::Request(method),
        &[0, 30, 0, 10, 1, 97, 31],
    )?;
    comes_back(
        alloc,
        AMQPMethod::RequestOk(RequestOk {}),
        &[0, 30, 0, 11, 0, 1],
    )?;
    reads(parse_request_ok(alloc, &[0, 9]), 2, &RequestOk {})
}
