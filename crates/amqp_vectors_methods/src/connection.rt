//! Each method of the class connection is written as these bytes, and read from them.

use crate::made::{bytes, table, text};
use crate::rows::{self, after_id, agree, agrees, is_appended};
use amqp_protocol::AMQPClass;
use amqp_protocol::connection::*;
use std::alloc::Global;
use std::test::Fail;

/// Fails unless the method comes back from its payload.
fn comes_back(alloc: Global, method: AMQPMethod, payload: &[u8]) -> Result<(), Fail> {
    rows::comes_back(alloc, AMQPClass::Connection(method), payload)
}

/// The same through the calls of the class, and through those of the method alone.
pub fn of_class(
    alloc: Global,
    method: &AMQPMethod,
    out: &mut Vec<u8>,
    payload: &[u8],
) -> Result<(), Fail> {
    let written = after_id(payload);
    agree!(alloc, method, out, payload, written; gen_connection, size_connection, put_connection, parse_connection)?;
    negotiating(alloc, method, out, written)
}

/// Of the methods that peers agree by.
fn negotiating(
    alloc: Global,
    method: &AMQPMethod,
    out: &mut Vec<u8>,
    written: &[u8],
) -> Result<(), Fail> {
    let fields = after_id(written);
    match method {
        AMQPMethod::Start(m) =>
            agree!(alloc, m, out, written, fields; gen_start, size_start, put_start, parse_start),
        AMQPMethod::StartOk(m) =>
            agree!(alloc, m, out, written, fields; gen_start_ok, size_start_ok, put_start_ok, parse_start_ok),
        AMQPMethod::Secure(m) =>
            agree!(alloc, m, out, written, fields; gen_secure, size_secure, put_secure, parse_secure),
        AMQPMethod::SecureOk(m) =>
            agree!(alloc, m, out, written, fields; gen_secure_ok, size_secure_ok, put_secure_ok, parse_secure_ok),
        AMQPMethod::Tune(m) =>
            agree!(alloc, m, out, written, fields; gen_tune, size_tune, put_tune, parse_tune),
        AMQPMethod::TuneOk(m) =>
            agree!(alloc, m, out, written, fields; gen_tune_ok, size_tune_ok, put_tune_ok, parse_tune_ok),
        _ => opening(alloc, method, out, written),
    }
}

/// Of those that come later.
fn opening(
    alloc: Global,
    method: &AMQPMethod,
    out: &mut Vec<u8>,
    written: &[u8],
) -> Result<(), Fail> {
    let fields = after_id(written);
    match method {
        AMQPMethod::Open(m) =>
            agree!(alloc, m, out, written, fields; gen_open, size_open, put_open, parse_open),
        AMQPMethod::OpenOk(m) =>
            agree!(alloc, m, out, written, fields; gen_open_ok, size_open_ok, put_open_ok, parse_open_ok),
        AMQPMethod::Close(m) =>
            agree!(alloc, m, out, written, fields; gen_close, size_close, put_close, parse_close),
        AMQPMethod::CloseOk(m) =>
            agree!(alloc, m, out, written, fields; gen_close_ok, size_close_ok, put_close_ok, parse_close_ok),
        AMQPMethod::Blocked(m) =>
            agree!(alloc, m, out, written, fields; gen_blocked, size_blocked, put_blocked, parse_blocked),
        AMQPMethod::Unblocked(m) =>
            agree!(alloc, m, out, written, fields; gen_unblocked, size_unblocked, put_unblocked, parse_unblocked),
        AMQPMethod::UpdateSecret(m) =>
            agree!(alloc, m, out, written, fields; gen_update_secret, size_update_secret, put_update_secret, parse_update_secret),
        AMQPMethod::UpdateSecretOk(m) =>
            agree!(alloc, m, out, written, fields; gen_update_secret_ok, size_update_secret_ok, put_update_secret_ok, parse_update_secret_ok),
        _ => Err(Fail::new("a method of no row")),
    }
}

#[test]
fn start_and_its_answer(rt: HostRuntime) -> Result<(), Fail> {
    let alloc = rt.alloc();
    let method = Start {
        version_major: 7,
        version_minor: 7,
        server_properties: table(alloc),
        mechanisms: bytes(alloc),
        locales: bytes(alloc),
    };
    comes_back(
        alloc,
        AMQPMethod::Start(method),
        &[
            0, 10, 0, 10, 7, 7, 0, 0, 0, 3, 1, 107, 86, 0, 0, 0, 1, 98, 0, 0, 0, 1, 98,
        ],
    )?;
    let method = StartOk {
        client_properties: table(alloc),
        mechanism: text(alloc),
        response: bytes(alloc),
        locale: text(alloc),
    };
    comes_back(
        alloc,
        AMQPMethod::StartOk(method),
        &[
            0, 10, 0, 11, 0, 0, 0, 3, 1, 107, 86, 1, 97, 0, 0, 0, 1, 98, 1, 97,
        ],
    )
}

#[test]
fn secure_tune_and_their_answers(rt: HostRuntime) -> Result<(), Fail> {
    let alloc = rt.alloc();
    let method = Secure {
        challenge: bytes(alloc),
    };
    comes_back(
        alloc,
        AMQPMethod::Secure(method),
        &[0, 10, 0, 20, 0, 0, 0, 1, 98],
    )?;
    let method = SecureOk {
        response: bytes(alloc),
    };
    comes_back(
        alloc,
        AMQPMethod::SecureOk(method),
        &[0, 10, 0, 21, 0, 0, 0, 1, 98],
    )?;
    let method = Tune {
        channel_max: 7,
        frame_max: 7,
        heartbeat: 7,
    };
    comes_back(
        alloc,
        AMQPMethod::Tune(method),
        &[0, 10, 0, 30, 0, 7, 0, 0, 0, 7, 0, 7],
    )?;
    let method = TuneOk {
        channel_max: 7,
        frame_max: 7,
        heartbeat: 7,
    };
    comes_back(
        alloc,
        AMQPMethod::TuneOk(method),
        &[0, 10, 0, 31, 0, 7, 0, 0, 0, 7, 0, 7],
    )
}

#[test]
fn open_close_and_their_answers(rt: HostRuntime) -> Result<(), Fail> {
    let alloc = rt.alloc();
    let method = Open {
        virtual_host: text(alloc),
    };
    comes_back(
        alloc,
        AMQPMethod::Open(method),
        &[0, 10, 0, 40, 1, 97, 0, 0],
    )?;
    comes_back(alloc, AMQPMethod::OpenOk(OpenOk {}), &[0, 10, 0, 41, 0])?;
    let method = Close {
        reply_code: 7,
        reply_text: text(alloc),
        class_id: 7,
        method_id: 7,
    };
    comes_back(
        alloc,
        AMQPMethod::Close(method),
        &[0, 10, 0, 50, 0, 7, 1, 97, 0, 7, 0, 7],
    )?;
    comes_back(alloc, AMQPMethod::CloseOk(CloseOk {}), &[0, 10, 0, 51])
}

#[test]
fn blocked_and_update_secret(rt: HostRuntime) -> Result<(), Fail> {
    let alloc = rt.alloc();
    let method = Blocked {
        reason: text(alloc),
    };
    comes_back(alloc, AMQPMethod::Blocked(method), &[0, 10, 0, 60, 1, 97])?;
    comes_back(alloc, AMQPMethod::Unblocked(Unblocked {}), &[0, 10, 0, 61])?;
    let method = UpdateSecret {
        new_secret: bytes(alloc),
        reason: text(alloc),
    };
    comes_back(
        alloc,
        AMQPMethod::UpdateSecret(method),
        &[0, 10, 0, 70, 0, 0, 0, 1, 98, 1, 97],
    )?;
    comes_back(
        alloc,
        AMQPMethod::UpdateSecretOk(UpdateSecretOk {}),
        &[0, 10, 0, 71],
    )
}
