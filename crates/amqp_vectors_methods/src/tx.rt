//! Each method of the class tx is written as these bytes, and read from them.

use crate::rows::{self, after_id, agree, agrees, is_appended};
use amqp_protocol::AMQPClass;
use amqp_protocol::tx::*;
use std::alloc::Global;
use std::test::Fail;

/// Fails unless the method comes back from its payload.
fn comes_back(alloc: Global, method: AMQPMethod, payload: &[u8]) -> Result<(), Fail> {
    rows::comes_back(alloc, AMQPClass::Tx(method), payload)
}

/// The same through the calls of the class, and through those of the method alone.
pub fn of_class(
    alloc: Global,
    method: &AMQPMethod,
    out: &mut Vec<u8>,
    payload: &[u8],
) -> Result<(), Fail> {
    let written = after_id(payload);
    agree!(alloc, method, out, payload, written; gen_tx, size_tx, put_tx, parse_tx)?;
    alone(alloc, method, out, written)
}

/// Of the methods alone.
fn alone(
    alloc: Global,
    method: &AMQPMethod,
    out: &mut Vec<u8>,
    written: &[u8],
) -> Result<(), Fail> {
    let fields = after_id(written);
    match method {
        AMQPMethod::Select(m) =>
            agree!(alloc, m, out, written, fields; gen_select, size_select, put_select, parse_select),
        AMQPMethod::SelectOk(m) =>
            agree!(alloc, m, out, written, fields; gen_select_ok, size_select_ok, put_select_ok, parse_select_ok),
        AMQPMethod::Commit(m) =>
            agree!(alloc, m, out, written, fields; gen_commit, size_commit, put_commit, parse_commit),
        AMQPMethod::CommitOk(m) =>
            agree!(alloc, m, out, written, fields; gen_commit_ok, size_commit_ok, put_commit_ok, parse_commit_ok),
        AMQPMethod::Rollback(m) =>
            agree!(alloc, m, out, written, fields; gen_rollback, size_rollback, put_rollback, parse_rollback),
        AMQPMethod::RollbackOk(m) =>
            agree!(alloc, m, out, written, fields; gen_rollback_ok, size_rollback_ok, put_rollback_ok, parse_rollback_ok),
    }
}

#[test]
fn transactions(rt: HostRuntime) -> Result<(), Fail> {
    let alloc = rt.alloc();
    comes_back(alloc, AMQPMethod::Select(Select {}), &[0, 90, 0, 10])?;
    comes_back(alloc, AMQPMethod::SelectOk(SelectOk {}), &[0, 90, 0, 11])?;
    comes_back(alloc, AMQPMethod::Commit(Commit {}), &[0, 90, 0, 20])?;
    comes_back(alloc, AMQPMethod::CommitOk(CommitOk {}), &[0, 90, 0, 21])?;
    comes_back(alloc, AMQPMethod::Rollback(Rollback {}), &[0, 90, 0, 30])?;
    comes_back(
        alloc,
        AMQPMethod::RollbackOk(RollbackOk {}),
        &[0, 90, 0, 31],
    )
}
