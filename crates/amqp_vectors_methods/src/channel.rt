//! Each method of the class channel is written as these bytes, and read from them.

use crate::made::text;
use crate::rows::{self, after_id, agree, agrees, is_appended};
use amqp_protocol::AMQPClass;
use amqp_protocol::channel::*;
use std::alloc::Global;
use std::test::Fail;

/// Fails unless the method comes back from its payload.
fn comes_back(alloc: Global, method: AMQPMethod, payload: &[u8]) -> Result<(), Fail> {
    rows::comes_back(alloc, AMQPClass::Channel(method), payload)
}

/// The same through the calls of the class, and through those of the method alone.
pub fn of_class(
    alloc: Global,
    method: &AMQPMethod,
    out: &mut Vec<u8>,
    payload: &[u8],
) -> Result<(), Fail> {
    let written = after_id(payload);
    agree!(alloc, method, out, payload, written; gen_channel, size_channel, put_channel, parse_channel)?;
    alone(alloc, method, out, written)
}

/// Of the methods alone.
fn alone(
    alloc: Global,
    method: &AMQPMethod,
    out: &mut Vec<u8>,
    written: &[u8],
) -> Result<(), Fail> {
    let fields = after_id(written);
    match method {
        AMQPMethod::Open(m) =>
            agree!(alloc, m, out, written, fields; gen_open, size_open, put_open, parse_open),
        AMQPMethod::OpenOk(m) =>
            agree!(alloc, m, out, written, fields; gen_open_ok, size_open_ok, put_open_ok, parse_open_ok),
        AMQPMethod::Flow(m) =>
            agree!(alloc, m, out, written, fields; gen_flow, size_flow, put_flow, parse_flow),
        AMQPMethod::FlowOk(m) =>
            agree!(alloc, m, out, written, fields; gen_flow_ok, size_flow_ok, put_flow_ok, parse_flow_ok),
        AMQPMethod::Close(m) =>
            agree!(alloc, m, out, written, fields; gen_close, size_close, put_close, parse_close),
        AMQPMethod::CloseOk(m) =>
            agree!(alloc, m, out, written, fields; gen_close_ok, size_close_ok, put_close_ok, parse_close_ok),
    }
}

#[test]
fn channels(rt: HostRuntime) -> Result<(), Fail> {
    let alloc = rt.alloc();
    comes_back(alloc, AMQPMethod::Open(Open {}), &[0, 20, 0, 10, 0])?;
    comes_back(
        alloc,
        AMQPMethod::OpenOk(OpenOk {}),
        &[0, 20, 0, 11, 0, 0, 0, 0],
    )?;
    let method = Flow { active: true };
    comes_back(alloc, AMQPMethod::Flow(method), &[0, 20, 0, 20, 1])?;
    let method = FlowOk { active: true };
    comes_back(alloc, AMQPMethod::FlowOk(method), &[0, 20, 0, 21, 1])?;
    let method = Close {
        reply_code: 7,
        reply_text: text(alloc),
        class_id: 7,
        method_id: 7,
    };
    comes_back(
        alloc,
        AMQPMethod::Close(method),
        &[0, 20, 0, 40, 0, 7, 1, 97, 0, 7, 0, 7],
    )?;
    comes_back(alloc, AMQPMethod::CloseOk(CloseOk {}), &[0, 20, 0, 41])
}
