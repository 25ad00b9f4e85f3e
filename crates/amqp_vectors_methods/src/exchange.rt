//! Each method of the class exchange is written as these bytes, and read from them.

use crate::made::{table, text};
use crate::rows::{self, after_id, agree, agrees, is_appended};
use amqp_protocol::AMQPClass;
use amqp_protocol::exchange::*;
use std::alloc::Global;
use std::test::Fail;

/// Fails unless the method comes back from its payload.
fn comes_back(alloc: Global, method: AMQPMethod, payload: &[u8]) -> Result<(), Fail> {
    rows::comes_back(alloc, AMQPClass::Exchange(method), payload)
}

/// The same through the calls of the class, and through those of the method alone.
pub fn of_class(
    alloc: Global,
    method: &AMQPMethod,
    out: &mut Vec<u8>,
    payload: &[u8],
) -> Result<(), Fail> {
    let written = after_id(payload);
    agree!(alloc, method, out, payload, written; gen_exchange, size_exchange, put_exchange, parse_exchange)?;
    declaring(alloc, method, out, written)
}

/// Of the methods that declare and delete.
fn declaring(
    alloc: Global,
    method: &AMQPMethod,
    out: &mut Vec<u8>,
    written: &[u8],
) -> Result<(), Fail> {
    let fields = after_id(written);
    match method {
        AMQPMethod::Declare(m) =>
            agree!(alloc, m, out, written, fields; gen_declare, size_declare, put_declare, parse_declare),
        AMQPMethod::DeclareOk(m) =>
            agree!(alloc, m, out, written, fields; gen_declare_ok, size_declare_ok, put_declare_ok, parse_declare_ok),
        AMQPMethod::Delete(m) =>
            agree!(alloc, m, out, written, fields; gen_delete, size_delete, put_delete, parse_delete),
        AMQPMethod::DeleteOk(m) =>
            agree!(alloc, m, out, written, fields; gen_delete_ok, size_delete_ok, put_delete_ok, parse_delete_ok),
        _ => binding(alloc, method, out, written),
    }
}

/// Of those that bind.
fn binding(
    alloc: Global,
    method: &AMQPMethod,
    out: &mut Vec<u8>,
    written: &[u8],
) -> Result<(), Fail> {
    let fields = after_id(written);
    match method {
        AMQPMethod::Bind(m) =>
            agree!(alloc, m, out, written, fields; gen_bind, size_bind, put_bind, parse_bind),
        AMQPMethod::BindOk(m) =>
            agree!(alloc, m, out, written, fields; gen_bind_ok, size_bind_ok, put_bind_ok, parse_bind_ok),
        AMQPMethod::Unbind(m) =>
            agree!(alloc, m, out, written, fields; gen_unbind, size_unbind, put_unbind, parse_unbind),
        AMQPMethod::UnbindOk(m) =>
            agree!(alloc, m, out, written, fields; gen_unbind_ok, size_unbind_ok, put_unbind_ok, parse_unbind_ok),
        _ => Err(Fail::new("a method of no row")),
    }
}

#[test]
fn exchanges(rt: HostRuntime) -> Result<(), Fail> {
    let alloc = rt.alloc();
    let method = Declare {
        exchange: text(alloc),
        kind: text(alloc),
        passive: true,
        durable: true,
        auto_delete: true,
        internal: true,
        nowait: true,
        arguments: table(alloc),
    };
    comes_back(
        alloc,
        AMQPMethod::Declare(method),
        &[0, 40, 0, 10, 0, 0, 1, 97, 1, 97, 31, 0, 0, 0, 3, 1, 107, 86],
    )?;
    comes_back(alloc, AMQPMethod::DeclareOk(DeclareOk {}), &[0, 40, 0, 11])?;
    let method = Delete {
        exchange: text(alloc),
        if_unused: true,
        nowait: true,
    };
    comes_back(
        alloc,
        AMQPMethod::Delete(method),
        &[0, 40, 0, 20, 0, 0, 1, 97, 3],
    )?;
    comes_back(alloc, AMQPMethod::DeleteOk(DeleteOk {}), &[0, 40, 0, 21])
}

#[test]
fn bindings(rt: HostRuntime) -> Result<(), Fail> {
    let alloc = rt.alloc();
    let method = Bind {
        destination: text(alloc),
        source: text(alloc),
        routing_key: text(alloc),
        nowait: true,
        arguments: table(alloc),
    };
    comes_back(
        alloc,
        AMQPMethod::Bind(method),
        &[
            0, 40, 0, 30, 0, 0, 1, 97, 1, 97, 1, 97, 1, 0, 0, 0, 3, 1, 107, 86,
        ],
    )?;
    comes_back(alloc, AMQPMethod::BindOk(BindOk {}), &[0, 40, 0, 31])?;
    let method = Unbind {
        destination: text(alloc),
        source: text(alloc),
        routing_key: text(alloc),
        nowait: true,
        arguments: table(alloc),
    };
    comes_back(
        alloc,
        AMQPMethod::Unbind(method),
        &[
            0, 40, 0, 40, 0, 0, 1, 97, 1, 97, 1, 97, 1, 0, 0, 0, 3, 1, 107, 86,
        ],
    )?;
    comes_back(alloc, AMQPMethod::UnbindOk(UnbindOk {}), &[0, 40, 0, 51])
}
