//! Each method of the class basic is written as these bytes, and read from them.

use crate::made::{table, text};
use crate::rows::{self, after_id, agree, agrees, is_appended};
use amqp_protocol::AMQPClass;
use amqp_protocol::basic::*;
use std::alloc::Global;
use std::test::Fail;

/// Fails unless the method comes back from its payload.
fn comes_back(alloc: Global, method: AMQPMethod, payload: &[u8]) -> Result<(), Fail> {
    rows::comes_back(alloc, AMQPClass::Basic(method), payload)
}

/// The same through the calls of the class, and through those of the method alone.
pub fn of_class(
    alloc: Global,
    method: &AMQPMethod,
    out: &mut Vec<u8>,
    payload: &[u8],
) -> Result<(), Fail> {
    let written = after_id(payload);
    agree!(alloc, method, out, payload, written; gen_basic, size_basic, put_basic, parse_basic)?;
    consuming(alloc, method, out, written)
}

/// Of the methods that are about consumers.
fn consuming(
    alloc: Global,
    method: &AMQPMethod,
    out: &mut Vec<u8>,
    written: &[u8],
) -> Result<(), Fail> {
    let fields = after_id(written);
    match method {
        AMQPMethod::Qos(m) =>
            agree!(alloc, m, out, written, fields; gen_qos, size_qos, put_qos, parse_qos),
        AMQPMethod::QosOk(m) =>
            agree!(alloc, m, out, written, fields; gen_qos_ok, size_qos_ok, put_qos_ok, parse_qos_ok),
        AMQPMethod::Consume(m) =>
            agree!(alloc, m, out, written, fields; gen_consume, size_consume, put_consume, parse_consume),
        AMQPMethod::ConsumeOk(m) =>
            agree!(alloc, m, out, written, fields; gen_consume_ok, size_consume_ok, put_consume_ok, parse_consume_ok),
        AMQPMethod::Cancel(m) =>
            agree!(alloc, m, out, written, fields; gen_cancel, size_cancel, put_cancel, parse_cancel),
        AMQPMethod::CancelOk(m) =>
            agree!(alloc, m, out, written, fields; gen_cancel_ok, size_cancel_ok, put_cancel_ok, parse_cancel_ok),
        _ => publishing(alloc, method, out, written),
    }
}

/// Of those that carry messages, or ask for them.
fn publishing(
    alloc: Global,
    method: &AMQPMethod,
    out: &mut Vec<u8>,
    written: &[u8],
) -> Result<(), Fail> {
    let fields = after_id(written);
    match method {
        AMQPMethod::Publish(m) =>
            agree!(alloc, m, out, written, fields; gen_publish, size_publish, put_publish, parse_publish),
        AMQPMethod::Return(m) =>
            agree!(alloc, m, out, written, fields; gen_return, size_return, put_return, parse_return),
        AMQPMethod::Deliver(m) =>
            agree!(alloc, m, out, written, fields; gen_deliver, size_deliver, put_deliver, parse_deliver),
        AMQPMethod::Get(m) =>
            agree!(alloc, m, out, written, fields; gen_get, size_get, put_get, parse_get),
        AMQPMethod::GetOk(m) =>
            agree!(alloc, m, out, written, fields; gen_get_ok, size_get_ok, put_get_ok, parse_get_ok),
        AMQPMethod::GetEmpty(m) =>
            agree!(alloc, m, out, written, fields; gen_get_empty, size_get_empty, put_get_empty, parse_get_empty),
        _ => acknowledging(alloc, method, out, written),
    }
}

/// Of those that say what became of messages.
fn acknowledging(
    alloc: Global,
    method: &AMQPMethod,
    out: &mut Vec<u8>,
    written: &[u8],
) -> Result<(), Fail> {
    let fields = after_id(written);
    match method {
        AMQPMethod::Ack(m) =>
            agree!(alloc, m, out, written, fields; gen_ack, size_ack, put_ack, parse_ack),
        AMQPMethod::Reject(m) =>
            agree!(alloc, m, out, written, fields; gen_reject, size_reject, put_reject, parse_reject),
        AMQPMethod::RecoverAsync(m) =>
            agree!(alloc, m, out, written, fields; gen_recover_async, size_recover_async, put_recover_async, parse_recover_async),
        AMQPMethod::Recover(m) =>
            agree!(alloc, m, out, written, fields; gen_recover, size_recover, put_recover, parse_recover),
        AMQPMethod::RecoverOk(m) =>
            agree!(alloc, m, out, written, fields; gen_recover_ok, size_recover_ok, put_recover_ok, parse_recover_ok),
        AMQPMethod::Nack(m) =>
            agree!(alloc, m, out, written, fields; gen_nack, size_nack, put_nack, parse_nack),
        _ => Err(Fail::new("a method of no row")),
    }
}

#[test]
fn consumers(rt: HostRuntime) -> Result<(), Fail> {
    let alloc = rt.alloc();
    let method = Qos {
        prefetch_count: 7,
        global: true,
    };
    comes_back(
        alloc,
        AMQPMethod::Qos(method),
        &[0, 60, 0, 10, 0, 0, 0, 0, 0, 7, 1],
    )?;
    comes_back(alloc, AMQPMethod::QosOk(QosOk {}), &[0, 60, 0, 11])?;
    let method = Consume {
        queue: text(alloc),
        consumer_tag: text(alloc),
        no_local: true,
        no_ack: true,
        exclusive: true,
        nowait: true,
        arguments: table(alloc),
    };
    comes_back(
        alloc,
        AMQPMethod::Consume(method),
        &[0, 60, 0, 20, 0, 0, 1, 97, 1, 97, 15, 0, 0, 0, 3, 1, 107, 86],
    )?;
    let method = ConsumeOk {
        consumer_tag: text(alloc),
    };
    comes_back(alloc, AMQPMethod::ConsumeOk(method), &[0, 60, 0, 21, 1, 97])?;
    let method = Cancel {
        consumer_tag: text(alloc),
        nowait: true,
    };
    comes_back(alloc, AMQPMethod::Cancel(method), &[0, 60, 0, 30, 1, 97, 1])?;
    let method = CancelOk {
        consumer_tag: text(alloc),
    };
    comes_back(alloc, AMQPMethod::CancelOk(method), &[0, 60, 0, 31, 1, 97])
}

#[test]
fn messages_sent(rt: HostRuntime) -> Result<(), Fail> {
    let alloc = rt.alloc();
    let method = Publish {
        exchange: text(alloc),
        routing_key: text(alloc),
        mandatory: true,
        immediate: true,
    };
    comes_back(
        alloc,
        AMQPMethod::Publish(method),
        &[0, 60, 0, 40, 0, 0, 1, 97, 1, 97, 3],
    )?;
    let method = Return {
        reply_code: 7,
        reply_text: text(alloc),
        exchange: text(alloc),
        routing_key: text(alloc),
    };
    comes_back(
        alloc,
        AMQPMethod::Return(method),
        &[0, 60, 0, 50, 0, 7, 1, 97, 1, 97, 1, 97],
    )?;
    let method = Deliver {
        consumer_tag: text(alloc),
        delivery_tag: 7,
        redelivered: true,
        exchange: text(alloc),
        routing_key: text(alloc),
    };
    comes_back(
        alloc,
        AMQPMethod::Deliver(method),
        &[0, 60, 0, 60, 1, 97, 0, 0, 0, 0, 0, 0, 0, 7, 1, 1, 97, 1, 97],
    )
}

#[test]
fn messages_asked_for(rt: HostRuntime) -> Result<(), Fail> {
    let alloc = rt.alloc();
    let method = Get {
        queue: text(alloc),
        no_ack: true,
    };
    comes_back(
        alloc,
        AMQPMethod::Get(method),
        &[0, 60, 0, 70, 0, 0, 1, 97, 1],
    )?;
    let method = GetOk {
        delivery_tag: 7,
        redelivered: true,
        exchange: text(alloc),
        routing_key: text(alloc),
        message_count: 7,
    };
    comes_back(
        alloc,
        AMQPMethod::GetOk(method),
        &[
            0, 60, 0, 71, 0, 0, 0, 0, 0, 0, 0, 7, 1, 1, 97, 1, 97, 0, 0, 0, 7,
        ],
    )?;
    comes_back(alloc, AMQPMethod::GetEmpty(GetEmpty {}), &[0, 60, 0, 72, 0])
}

/// The first of two flags is the lowest bit.
#[test]
fn messages_answered_for(rt: HostRuntime) -> Result<(), Fail> {
    let alloc = rt.alloc();
    let method = Ack {
        delivery_tag: 7,
        multiple: true,
    };
    comes_back(
        alloc,
        AMQPMethod::Ack(method),
        &[0, 60, 0, 80, 0, 0, 0, 0, 0, 0, 0, 7, 1],
    )?;
    let method = Reject {
        delivery_tag: 7,
        requeue: true,
    };
    comes_back(
        alloc,
        AMQPMethod::Reject(method),
        &[0, 60, 0, 90, 0, 0, 0, 0, 0, 0, 0, 7, 1],
    )?;
    for (requeue, flags) in [(true, 3), (false, 1)] {
        let method = Nack {
            delivery_tag: 7,
            multiple: true,
            requeue,
        };
        comes_back(
            alloc,
            AMQPMethod::Nack(method),
            &[0, 60, 0, 120, 0, 0, 0, 0, 0, 0, 0, 7, flags],
        )?;
    }
    Ok(())
}

#[test]
fn messages_recovered(rt: HostRuntime) -> Result<(), Fail> {
    let alloc = rt.alloc();
    let method = RecoverAsync { requeue: true };
    comes_back(alloc, AMQPMethod::RecoverAsync(method), &[0, 60, 0, 100, 1])?;
    let method = Recover { requeue: true };
    comes_back(alloc, AMQPMethod::Recover(method), &[0, 60, 0, 110, 1])?;
    comes_back(alloc, AMQPMethod::RecoverOk(RecoverOk {}), &[0, 60, 0, 111])
}
