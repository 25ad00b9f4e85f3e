//! Each method of the class queue is written as these bytes, and read from them.

use crate::made::{table, text};
use crate::rows::{self, after_id, agree, agrees, is_appended};
use amqp_protocol::AMQPClass;
use amqp_protocol::queue::*;
use std::alloc::Global;
use std::test::Fail;

/// Fails unless the method comes back from its payload.
fn comes_back(alloc: Global, method: AMQPMethod, payload: &[u8]) -> Result<(), Fail> {
    rows::comes_back(alloc, AMQPClass::Queue(method), payload)
}

/// The same through the calls of the class, and through those of the method alone.
pub fn of_class(
    alloc: Global,
    method: &AMQPMethod,
    out: &mut Vec<u8>,
    payload: &[u8],
) -> Result<(), Fail> {
    let written = after_id(payload);
    agree!(alloc, method, out, payload, written; gen_queue, size_queue, put_queue, parse_queue)?;
    declaring(alloc, method, out, written)
}

/// Of the methods that declare and delete.
fn declaring(
    alloc: Global,
    method: &AMQPMethod,
    out: &mut Vec<u8>,
    written: &[u8],
) -> Result<(), Fail> {
    let fields = after_id(written);
    match method {
        AMQPMethod::Declare(m) =>
            agree!(alloc, m, out, written, fields; gen_declare, size_declare, put_declare, parse_declare),
        AMQPMethod::DeclareOk(m) =>
            agree!(alloc, m, out, written, fields; gen_declare_ok, size_declare_ok, put_declare_ok, parse_declare_ok),
        AMQPMethod::Bind(m) =>
            agree!(alloc, m, out, written, fields; gen_bind, size_bind, put_bind, parse_bind),
        AMQPMethod::BindOk(m) =>
            agree!(alloc, m, out, written, fields; gen_bind_ok, size_bind_ok, put_bind_ok, parse_bind_ok),
        AMQPMethod::Purge(m) =>
            agree!(alloc, m, out, written, fields; gen_purge, size_purge, put_purge, parse_purge),
        _ => deleting(alloc, method, out, written),
    }
}

/// Of those that unbind, purge and delete.
fn deleting(
    alloc: Global,
    method: &AMQPMethod,
    out: &mut Vec<u8>,
    written: &[u8],
) -> Result<(), Fail> {
    let fields = after_id(written);
    match method {
        AMQPMethod::PurgeOk(m) =>
            agree!(alloc, m, out, written, fields; gen_purge_ok, size_purge_ok, put_purge_ok, parse_purge_ok),
        AMQPMethod::Delete(m) =>
            agree!(alloc, m, out, written, fields; gen_delete, size_delete, put_delete, parse_delete),
        AMQPMethod::DeleteOk(m) =>
            agree!(alloc, m, out, written, fields; gen_delete_ok, size_delete_ok, put_delete_ok, parse_delete_ok),
        AMQPMethod::Unbind(m) =>
            agree!(alloc, m, out, written, fields; gen_unbind, size_unbind, put_unbind, parse_unbind),
        AMQPMethod::UnbindOk(m) =>
            agree!(alloc, m, out, written, fields; gen_unbind_ok, size_unbind_ok, put_unbind_ok, parse_unbind_ok),
        _ => Err(Fail::new("a method of no row")),
    }
}

#[test]
fn queues_declared_and_purged(rt: HostRuntime) -> Result<(), Fail> {
    let alloc = rt.alloc();
    let method = Declare {
        queue: text(alloc),
        passive: true,
        durable: true,
        exclusive: true,
        auto_delete: true,
        nowait: true,
        arguments: table(alloc),
    };
    comes_back(
        alloc,
        AMQPMethod::Declare(method),
        &[0, 50, 0, 10, 0, 0, 1, 97, 31, 0, 0, 0, 3, 1, 107, 86],
    )?;
    let method = DeclareOk {
        queue: text(alloc),
        message_count: 7,
        consumer_count: 7,
    };
    comes_back(
        alloc,
        AMQPMethod::DeclareOk(method),
        &[0, 50, 0, 11, 1, 97, 0, 0, 0, 7, 0, 0, 0, 7],
    )?;
    let method = Purge {
        queue: text(alloc),
        nowait: true,
    };
    comes_back(
        alloc,
        AMQPMethod::Purge(method),
        &[0, 50, 0, 30, 0, 0, 1, 97, 1],
    )?;
    let method = PurgeOk { message_count: 7 };
    comes_back(
        alloc,
        AMQPMethod::PurgeOk(method),
        &[0, 50, 0, 31, 0, 0, 0, 7],
    )
}

#[test]
fn queues_deleted(rt: HostRuntime) -> Result<(), Fail> {
    let alloc = rt.alloc();
    let method = Delete {
        queue: text(alloc),
        if_unused: true,
        if_empty: true,
        nowait: true,
    };
    comes_back(
        alloc,
        AMQPMethod::Delete(method),
        &[0, 50, 0, 40, 0, 0, 1, 97, 7],
    )?;
    let method = DeleteOk { message_count: 7 };
    comes_back(
        alloc,
        AMQPMethod::DeleteOk(method),
        &[0, 50, 0, 41, 0, 0, 0, 7],
    )
}

#[test]
fn bindings(rt: HostRuntime) -> Result<(), Fail> {
    let alloc = rt.alloc();
    let method = Bind {
        queue: text(alloc),
        exchange: text(alloc),
        routing_key: text(alloc),
        nowait: true,
        arguments: table(alloc),
    };
    comes_back(
        alloc,
        AMQPMethod::Bind(method),
        &[
            0, 50, 0, 20, 0, 0, 1, 97, 1, 97, 1, 97, 1, 0, 0, 0, 3, 1, 107, 86,
        ],
    )?;
    comes_back(alloc, AMQPMethod::BindOk(BindOk {}), &[0, 50, 0, 21])?;
    let method = Unbind {
        queue: text(alloc),
        exchange: text(alloc),
        routing_key: text(alloc),
        arguments: table(alloc),
    };
    comes_back(
        alloc,
        AMQPMethod::Unbind(method),
        &[
            0, 50, 0, 50, 0, 0, 1, 97, 1, 97, 1, 97, 0, 0, 0, 3, 1, 107, 86,
        ],
    )?;
    comes_back(alloc, AMQPMethod::UnbindOk(UnbindOk {}), &[0, 50, 0, 51])
}
