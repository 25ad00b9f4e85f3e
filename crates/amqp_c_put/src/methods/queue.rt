//! Frames of the methods of class queue.

ghost use Rattle.std.specs.Prelude.{[], ◌∷◌, None};
ghost use Rattle.amqp_types.specs.Methods.{method};
ghost use Rattle.amqp_types.specs.Slots.{entries_item, flag_item, number_item, text_item};
ghost use Rattle.amqp_entries.specs.Flaws.{text_flaw};
ghost use Rattle.amqp_put.specs.Flaws.{first_flaw};
ghost use Rattle.amqp_put.specs.Made.{MakesMethod};
ghost use Rattle.amqp_types.specs.Constants.{inner_depth};
ghost use Rattle.amqp_entries.specs.Contents.{table_flaw, table_in};
ghost use Rattle.amqp_c_put.specs.Reports.{Reports};

use crate::report::{PutReport, report};
use amqp_put_methods::{
    put_queue_bind, put_queue_bind_ok, put_queue_declare, put_queue_declare_ok, put_queue_delete,
    put_queue_delete_ok, put_queue_purge, put_queue_purge_ok, put_queue_unbind,
    put_queue_unbind_ok,
};

/// Puts a frame of queue.declare.
#[unsafe(no_mangle)]
pub extern "C" fn feksroum_put_queue_declare(
    channel: u16,
    queue: &[u8],
    passive: bool,
    durable: bool,
    exclusive: bool,
    auto_delete: bool,
    nowait: bool,
    arguments: &[u8],
    max_payload: u32,
    out: &mut [u8],
) -> PutReport
    ensures { Reports (MakesMethod out.old out.new channel max_payload
        (method 50 10 (text_item queue.now ∷ flag_item passive ∷ flag_item durable
        ∷ flag_item exclusive ∷ flag_item auto_delete ∷ flag_item nowait
        ∷ entries_item (table_in inner_depth arguments.now) ∷ []))
        (first_flaw (text_flaw queue.now ∷ table_flaw inner_depth arguments.now ∷ []))) result }
{
    let put = put_queue_declare(
        channel,
        queue,
        passive,
        durable,
        exclusive,
        auto_delete,
        nowait,
        arguments,
        max_payload,
        out,
    );
    report(put)
}

/// Puts a frame of queue.declare-ok.
#[unsafe(no_mangle)]
pub extern "C" fn feksroum_put_queue_declare_ok(
    channel: u16,
    queue: &[u8],
    message_count: u32,
    consumer_count: u32,
    max_payload: u32,
    out: &mut [u8],
) -> PutReport
    ensures { Reports (MakesMethod out.old out.new channel max_payload
        (method 50 11 (text_item queue.now ∷ number_item message_count
        ∷ number_item consumer_count ∷ []))
        (first_flaw (text_flaw queue.now ∷ []))) result }
{
    let put = put_queue_declare_ok(
        channel,
        queue,
        message_count,
        consumer_count,
        max_payload,
        out,
    );
    report(put)
}

/// Puts a frame of queue.bind.
#[unsafe(no_mangle)]
pub extern "C" fn feksroum_put_queue_bind(
    channel: u16,
    queue: &[u8],
    exchange: &[u8],
    routing_key: &[u8],
    nowait: bool,
    arguments: &[u8],
    max_payload: u32,
    out: &mut [u8],
) -> PutReport
    ensures { Reports (MakesMethod out.old out.new channel max_payload
        (method 50 20 (text_item queue.now ∷ text_item exchange.now ∷ text_item routing_key.now
        ∷ flag_item nowait ∷ entries_item (table_in inner_depth arguments.now) ∷ []))
        (first_flaw (text_flaw queue.now ∷ text_flaw exchange.now ∷ text_flaw routing_key.now
        ∷ table_flaw inner_depth arguments.now ∷ []))) result }
{
    let put = put_queue_bind(
        channel,
        queue,
        exchange,
        routing_key,
        nowait,
        arguments,
        max_payload,
        out,
    );
    report(put)
}

/// Puts a frame of queue.bind-ok.
#[unsafe(no_mangle)]
pub extern "C" fn feksroum_put_queue_bind_ok(
    channel: u16,
    max_payload: u32,
    out: &mut [u8],
) -> PutReport
    ensures { Reports (MakesMethod out.old out.new channel max_payload
        (method 50 21 [])
        None) result }
{
    let put = put_queue_bind_ok(channel, max_payload, out);
    report(put)
}

/// Puts a frame of queue.purge.
#[unsafe(no_mangle)]
pub extern "C" fn feksroum_put_queue_purge(
    channel: u16,
    queue: &[u8],
    nowait: bool,
    max_payload: u32,
    out: &mut [u8],
) -> PutReport
    ensures { Reports (MakesMethod out.old out.new channel max_payload
        (method 50 30 (text_item queue.now ∷ flag_item nowait ∷ []))
        (first_flaw (text_flaw queue.now ∷ []))) result }
{
    let put = put_queue_purge(channel, queue, nowait, max_payload, out);
    report(put)
}

/// Puts a frame of queue.purge-ok.
#[unsafe(no_mangle)]
pub extern "C" fn feksroum_put_queue_purge_ok(
    channel: u16,
    message_count: u32,
    max_payload: u32,
    out: &mut [u8],
) -> PutReport
    ensures { Reports (MakesMethod out.old out.new channel max_payload
        (method 50 31 (number_item message_count ∷ []))
        None) result }
{
    let put = put_queue_purge_ok(channel, message_count, max_payload, out);
    report(put)
}

/// Puts a frame of queue.delete.
#[unsafe(no_mangle)]
pub extern "C" fn feksroum_put_queue_delete(
    channel: u16,
    queue: &[u8],
    if_unused: bool,
    if_empty: bool,
    nowait: bool,
    max_payload: u32,
    out: &mut [u8],
) -> PutReport
    ensures { Reports (MakesMethod out.old out.new channel max_payload
        (method 50 40 (text_item queue.now ∷ flag_item if_unused ∷ flag_item if_empty
        ∷ flag_item nowait ∷ []))
        (first_flaw (text_flaw queue.now ∷ []))) result }
{
    let put = put_queue_delete(
        channel,
        queue,
        if_unused,
        if_empty,
        nowait,
        max_payload,
        out,
    );
    report(put)
}

/// Puts a frame of queue.delete-ok.
#[unsafe(no_mangle)]
pub extern "C" fn feksroum_put_queue_delete_ok(
    channel: u16,
    message_count: u32,
    max_payload: u32,
    out: &mut [u8],
) -> PutReport
    ensures { Reports (MakesMethod out.old out.new channel max_payload
        (method 50 41 (number_item message_count ∷ []))
        None) result }
{
    let put = put_queue_delete_ok(channel, message_count, max_payload, out);
    report(put)
}

/// Puts a frame of queue.unbind.
#[unsafe(no_mangle)]
pub extern "C" fn feksroum_put_queue_unbind(
    channel: u16,
    queue: &[u8],
    exchange: &[u8],
    routing_key: &[u8],
    arguments: &[u8],
    max_payload: u32,
    out: &mut [u8],
) -> PutReport
    ensures { Reports (MakesMethod out.old out.new channel max_payload
        (method 50 50 (text_item queue.now ∷ text_item exchange.now ∷ text_item routing_key.now
        ∷ entries_item (table_in inner_depth arguments.now) ∷ []))
        (first_flaw (text_flaw queue.now ∷ text_flaw exchange.now ∷ text_flaw routing_key.now
        ∷ table_flaw inner_depth arguments.now ∷ []))) result }
{
    let put = put_queue_unbind(
        channel,
        queue,
        exchange,
        routing_key,
        arguments,
        max_payload,
        out,
    );
    report(put)
}

/// Puts a frame of queue.unbind-ok.
#[unsafe(no_mangle)]
pub extern "C" fn feksroum_put_queue_unbind_ok(
    channel: u16,
    max_payload: u32,
    out: &mut [u8],
) -> PutReport
    ensures { Reports (MakesMethod out.old out.new channel max_payload
        (method 50 51 [])
        None) result }
{
    let put = put_queue_unbind_ok(channel, max_payload, out);
    report(put)
}
