//! Frames of the methods of class basic.

ghost use Rattle.std.specs.Prelude.{[], ◌∷◌, None};
ghost use Rattle.amqp_types.specs.Methods.{method};
ghost use Rattle.amqp_types.specs.Slots.{entries_item, flag_item, number_item, text_item};
ghost use Rattle.amqp_entries.specs.Flaws.{text_flaw};
ghost use Rattle.amqp_put.specs.Flaws.{first_flaw};
ghost use Rattle.amqp_put.specs.Made.{MakesMethod};
ghost use Rattle.amqp_types.specs.Constants.{inner_depth};
ghost use Rattle.amqp_entries.specs.Contents.{table_flaw, table_in};
ghost use Rattle.amqp_c_put.specs.Reports.{Reports};

use crate::report::{PutReport, report};
use amqp_put_methods::{
    put_basic_ack, put_basic_cancel, put_basic_cancel_ok, put_basic_consume, put_basic_consume_ok,
    put_basic_deliver, put_basic_get, put_basic_get_empty, put_basic_get_ok, put_basic_nack,
    put_basic_publish, put_basic_qos, put_basic_qos_ok, put_basic_recover, put_basic_recover_async,
    put_basic_recover_ok, put_basic_reject, put_basic_return,
};

/// Puts a frame of basic.qos.
#[unsafe(no_mangle)]
pub extern "C" fn feksroum_put_basic_qos(
    channel: u16,
    prefetch_count: u16,
    global: bool,
    max_payload: u32,
    out: &mut [u8],
) -> PutReport
    ensures { Reports (MakesMethod out.old out.new channel max_payload
        (method 60 10 (number_item prefetch_count ∷ flag_item global ∷ []))
        None) result }
{
    let put = put_basic_qos(channel, prefetch_count, global, max_payload, out);
    report(put)
}

/// Puts a frame of basic.qos-ok.
#[unsafe(no_mangle)]
pub extern "C" fn feksroum_put_basic_qos_ok(
    channel: u16,
    max_payload: u32,
    out: &mut [u8],
) -> PutReport
    ensures { Reports (MakesMethod out.old out.new channel max_payload
        (method 60 11 [])
        None) result }
{
    let put = put_basic_qos_ok(channel, max_payload, out);
    report(put)
}

/// Puts a frame of basic.consume.
#[unsafe(no_mangle)]
pub extern "C" fn feksroum_put_basic_consume(
    channel: u16,
    queue: &[u8],
    consumer_tag: &[u8],
    no_local: bool,
    no_ack: bool,
    exclusive: bool,
    nowait: bool,
    arguments: &[u8],
    max_payload: u32,
    out: &mut [u8],
) -> PutReport
    ensures { Reports (MakesMethod out.old out.new channel max_payload
        (method 60 20 (text_item queue.now ∷ text_item consumer_tag.now ∷ flag_item no_local
        ∷ flag_item no_ack ∷ flag_item exclusive ∷ flag_item nowait
        ∷ entries_item (table_in inner_depth arguments.now) ∷ []))
        (first_flaw (text_flaw queue.now ∷ text_flaw consumer_tag.now
        ∷ table_flaw inner_depth arguments.now ∷ []))) result }
{
    let put = put_basic_consume(
        channel,
        queue,
        consumer_tag,
        no_local,
        no_ack,
        exclusive,
        nowait,
        arguments,
        max_payload,
        out,
    );
    report(put)
}

/// Puts a frame of basic.consume-ok.
#[unsafe(no_mangle)]
pub extern "C" fn feksroum_put_basic_consume_ok(
    channel: u16,
    consumer_tag: &[u8],
    max_payload: u32,
    out: &mut [u8],
) -> PutReport
    ensures { Reports (MakesMethod out.old out.new channel max_payload
        (method 60 21 (text_item consumer_tag.now ∷ []))
        (first_flaw (text_flaw consumer_tag.now ∷ []))) result }
{
    let put = put_basic_consume_ok(channel, consumer_tag, max_payload, out);
    report(put)
}

/// Puts a frame of basic.cancel.
#[unsafe(no_mangle)]
pub extern "C" fn feksroum_put_basic_cancel(
    channel: u16,
    consumer_tag: &[u8],
    nowait: bool,
    max_payload: u32,
    out: &mut [u8],
) -> PutReport
    ensures { Reports (MakesMethod out.old out.new channel max_payload
        (method 60 30 (text_item consumer_tag.now ∷ flag_item nowait ∷ []))
        (first_flaw (text_flaw consumer_tag.now ∷ []))) result }
{
    let put = put_basic_cancel(channel, consumer_tag, nowait, max_payload, out);
    report(put)
}

/// Puts a frame of basic.cancel-ok.
#[unsafe(no_mangle)]
pub extern "C" fn feksroum_put_basic_cancel_ok(
    channel: u16,
    consumer_tag: &[u8],
    max_payload: u32,
    out: &mut [u8],
) -> PutReport
    ensures { Reports (MakesMethod out.old out.new channel max_payload
        (method 60 31 (text_item consumer_tag.now ∷ []))
        (first_flaw (text_flaw consumer_tag.now ∷ []))) result }
{
    let put = put_basic_cancel_ok(channel, consumer_tag, max_payload, out);
    report(put)
}

/// Puts a frame of basic.publish.
#[unsafe(no_mangle)]
pub extern "C" fn feksroum_put_basic_publish(
    channel: u16,
    exchange: &[u8],
    routing_key: &[u8],
    mandatory: bool,
    immediate: bool,
    max_payload: u32,
    out: &mut [u8],
) -> PutReport
    ensures { Reports (MakesMethod out.old out.new channel max_payload
        (method 60 40 (text_item exchange.now ∷ text_item routing_key.now ∷ flag_item mandatory
        ∷ flag_item immediate ∷ []))
        (first_flaw (text_flaw exchange.now ∷ text_flaw routing_key.now ∷ []))) result }
{
    let put = put_basic_publish(
        channel,
        exchange,
        routing_key,
        mandatory,
        immediate,
        max_payload,
        out,
    );
    report(put)
}

/// Puts a frame of basic.return.
#[unsafe(no_mangle)]
pub extern "C" fn feksroum_put_basic_return(
    channel: u16,
    reply_code: u16,
    reply_text: &[u8],
    exchange: &[u8],
    routing_key: &[u8],
    max_payload: u32,
    out: &mut [u8],
) -> PutReport
    ensures { Reports (MakesMethod out.old out.new channel max_payload
        (method 60 50 (number_item reply_code ∷ text_item reply_text.now ∷ text_item exchange.now
        ∷ text_item routing_key.now ∷ []))
        (first_flaw (text_flaw reply_text.now ∷ text_flaw exchange.now
        ∷ text_flaw routing_key.now ∷ []))) result }
{
    let put = put_basic_return(
        channel,
        reply_code,
        reply_text,
        exchange,
        routing_key,
        max_payload,
        out,
    );
    report(put)
}

/// Puts a frame of basic.deliver.
#[unsafe(no_mangle)]
pub extern "C" fn feksroum_put_basic_deliver(
    channel: u16,
    consumer_tag: &[u8],
    delivery_tag: u64,
    redelivered: bool,
    exchange: &[u8],
    routing_key: &[u8],
    max_payload: u32,
    out: &mut [u8],
) -> PutReport
    ensures { Reports (MakesMethod out.old out.new channel max_payload
        (method 60 60 (text_item consumer_tag.now ∷ number_item delivery_tag ∷ flag_item redelivered
        ∷ text_item exchange.now ∷ text_item routing_key.now ∷ []))
        (first_flaw (text_flaw consumer_tag.now ∷ text_flaw exchange.now
        ∷ text_flaw routing_key.now ∷ []))) result }
{
    let put = put_basic_deliver(
        channel,
        consumer_tag,
        delivery_tag,
        redelivered,
        exchange,
        routing_key,
        max_payload,
        out,
    );
    report(put)
}

/// Puts a frame of basic.get.
#[unsafe(no_mangle)]
pub extern "C" fn feksroum_put_basic_get(
    channel: u16,
    queue: &[u8],
    no_ack: bool,
    max_payload: u32,
    out: &mut [u8],
) -> PutReport
    ensures { Reports (MakesMethod out.old out.new channel max_payload
        (method 60 70 (text_item queue.now ∷ flag_item no_ack ∷ []))
        (first_flaw (text_flaw queue.now ∷ []))) result }
{
    let put = put_basic_get(channel, queue, no_ack, max_payload, out);
    report(put)
}

/// Puts a frame of basic.get-ok.
#[unsafe(no_mangle)]
pub extern "C" fn feksroum_put_basic_get_ok(
    channel: u16,
    delivery_tag: u64,
    redelivered: bool,
    exchange: &[u8],
    routing_key: &[u8],
    message_count: u32,
    max_payload: u32,
    out: &mut [u8],
) -> PutReport
    ensures { Reports (MakesMethod out.old out.new channel max_payload
        (method 60 71 (number_item delivery_tag ∷ flag_item redelivered ∷ text_item exchange.now
        ∷ text_item routing_key.now ∷ number_item message_count ∷ []))
        (first_flaw (text_flaw exchange.now ∷ text_flaw routing_key.now ∷ []))) result }
{
    let put = put_basic_get_ok(
        channel,
        delivery_tag,
        redelivered,
        exchange,
        routing_key,
        message_count,
        max_payload,
        out,
    );
    report(put)
}

/// Puts a frame of basic.get-empty.
#[unsafe(no_mangle)]
pub extern "C" fn feksroum_put_basic_get_empty(
    channel: u16,
    max_payload: u32,
    out: &mut [u8],
) -> PutReport
    ensures { Reports (MakesMethod out.old out.new channel max_payload
        (method 60 72 [])
        None) result }
{
    let put = put_basic_get_empty(channel, max_payload, out);
    report(put)
}

/// Puts a frame of basic.ack.
#[unsafe(no_mangle)]
pub extern "C" fn feksroum_put_basic_ack(
    channel: u16,
    delivery_tag: u64,
    multiple: bool,
    max_payload: u32,
    out: &mut [u8],
) -> PutReport
    ensures { Reports (MakesMethod out.old out.new channel max_payload
        (method 60 80 (number_item delivery_tag ∷ flag_item multiple ∷ []))
        None) result }
{
    let put = put_basic_ack(channel, delivery_tag, multiple, max_payload, out);
    report(put)
}

/// Puts a frame of basic.reject.
#[unsafe(no_mangle)]
pub extern "C" fn feksroum_put_basic_reject(
    channel: u16,
    delivery_tag: u64,
    requeue: bool,
    max_payload: u32,
    out: &mut [u8],
) -> PutReport
    ensures { Reports (MakesMethod out.old out.new channel max_payload
        (method 60 90 (number_item delivery_tag ∷ flag_item requeue ∷ []))
        None) result }
{
    let put = put_basic_reject(channel, delivery_tag, requeue, max_payload, out);
    report(put)
}

/// Puts a frame of basic.recover-async.
#[unsafe(no_mangle)]
pub extern "C" fn feksroum_put_basic_recover_async(
    channel: u16,
    requeue: bool,
    max_payload: u32,
    out: &mut [u8],
) -> PutReport
    ensures { Reports (MakesMethod out.old out.new channel max_payload
        (method 60 100 (flag_item requeue ∷ []))
        None) result }
{
    let put = put_basic_recover_async(channel, requeue, max_payload, out);
    report(put)
}

/// Puts a frame of basic.recover.
#[unsafe(no_mangle)]
pub extern "C" fn feksroum_put_basic_recover(
    channel: u16,
    requeue: bool,
    max_payload: u32,
    out: &mut [u8],
) -> PutReport
    ensures { Reports (MakesMethod out.old out.new channel max_payload
        (method 60 110 (flag_item requeue ∷ []))
        None) result }
{
    let put = put_basic_recover(channel, requeue, max_payload, out);
    report(put)
}

/// Puts a frame of basic.recover-ok.
#[unsafe(no_mangle)]
pub extern "C" fn feksroum_put_basic_recover_ok(
    channel: u16,
    max_payload: u32,
    out: &mut [u8],
) -> PutReport
    ensures { Reports (MakesMethod out.old out.new channel max_payload
        (method 60 111 [])
        None) result }
{
    let put = put_basic_recover_ok(channel, max_payload, out);
    report(put)
}

/// Puts a frame of basic.nack.
#[unsafe(no_mangle)]
pub extern "C" fn feksroum_put_basic_nack(
    channel: u16,
    delivery_tag: u64,
    multiple: bool,
    requeue: bool,
    max_payload: u32,
    out: &mut [u8],
) -> PutReport
    ensures { Reports (MakesMethod out.old out.new channel max_payload
        (method 60 120 (number_item delivery_tag ∷ flag_item multiple ∷ flag_item requeue ∷ []))
        None) result }
{
    let put = put_basic_nack(channel, delivery_tag, multiple, requeue, max_payload, out);
    report(put)
}
