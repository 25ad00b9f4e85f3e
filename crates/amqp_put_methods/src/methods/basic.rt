//! Frames of the methods of class basic.

ghost use Rattle.std.specs.Prelude.{[], ◌∷◌, None};
ghost use Rattle.amqp_types.specs.Methods.{method};
ghost use Rattle.amqp_types.specs.Slots.{entries_item, flag_item, number_item, text_item};
ghost use Rattle.amqp_entries.specs.Flaws.{text_flaw};
ghost use Rattle.amqp_put.specs.Flaws.{first_flaw};
ghost use Rattle.amqp_put.specs.Made.{MakesMethod};
ghost use Rattle.amqp_types.specs.Constants.{inner_depth};
ghost use Rattle.amqp_entries.specs.Contents.{table_flaw, table_in};

use amqp_put::{
    PutError, ReservedLong, ReservedShort, ReservedShortString, TableContent, Text,
    put_method_frame,
};
use amqp_types::ChannelId;

/// Puts a frame of basic.qos.
#[tactic(auto, unfolding(amqp_types::specs::Rows::slots_at, amqp_types::specs::Rows::rows_of))]
pub fn put_basic_qos(
    channel: ChannelId,
    prefetch_count: u16,
    global: bool,
    max_payload: u32,
    out: &mut [u8],
) -> Result<usize, PutError>
    ensures { MakesMethod out.old out.new channel max_payload
        (method 60 10 (number_item prefetch_count ∷ flag_item global ∷ []))
        None result }
{
    let fields = (ReservedLong, (prefetch_count, (global, ())));
    put_method_frame(60, 10, channel, &fields, max_payload, out)
}

/// Puts a frame of basic.qos-ok.
#[tactic(auto, unfolding(amqp_types::specs::Rows::slots_at, amqp_types::specs::Rows::rows_of))]
pub fn put_basic_qos_ok(
    channel: ChannelId,
    max_payload: u32,
    out: &mut [u8],
) -> Result<usize, PutError>
    ensures { MakesMethod out.old out.new channel max_payload (method 60 11 []) None result }
{
    let fields = ();
    put_method_frame(60, 11, channel, &fields, max_payload, out)
}

/// Puts a frame of basic.consume.
#[tactic(auto, unfolding(amqp_types::specs::Rows::slots_at, amqp_types::specs::Rows::rows_of))]
pub fn put_basic_consume(
    channel: ChannelId,
    queue: &[u8],
    consumer_tag: &[u8],
    no_local: bool,
    no_ack: bool,
    exclusive: bool,
    nowait: bool,
    arguments: &[u8],
    max_payload: u32,
    out: &mut [u8],
) -> Result<usize, PutError>
    ensures { MakesMethod out.old out.new channel max_payload
        (method 60 20 (text_item queue.now ∷ text_item consumer_tag.now ∷ flag_item no_local
        ∷ flag_item no_ack ∷ flag_item exclusive ∷ flag_item nowait
        ∷ entries_item (table_in inner_depth arguments.now) ∷ []))
        (first_flaw (text_flaw queue.now ∷ text_flaw consumer_tag.now
        ∷ table_flaw inner_depth arguments.now ∷ [])) result }
{
    let fields = (
        ReservedShort,
        (
            Text { bytes: queue },
            (
                Text {
                    bytes: consumer_tag,
                },
                (
                    (no_local, no_ack, exclusive, nowait),
                    (TableContent::new(arguments), ()),
                ),
            ),
        ),
    );
    put_method_frame(60, 20, channel, &fields, max_payload, out)
}

/// Puts a frame of basic.consume-ok.
#[tactic(auto, unfolding(amqp_types::specs::Rows::slots_at, amqp_types::specs::Rows::rows_of))]
pub fn put_basic_consume_ok(
    channel: ChannelId,
    consumer_tag: &[u8],
    max_payload: u32,
    out: &mut [u8],
) -> Result<usize, PutError>
    ensures { MakesMethod out.old out.new channel max_payload
        (method 60 21 (text_item consumer_tag.now ∷ []))
        (first_flaw (text_flaw consumer_tag.now ∷ [])) result }
{
    let fields = (
        Text {
            bytes: consumer_tag,
        },
        (),
    );
    put_method_frame(60, 21, channel, &fields, max_payload, out)
}

/// Puts a frame of basic.cancel.
#[tactic(auto, unfolding(amqp_types::specs::Rows::slots_at, amqp_types::specs::Rows::rows_of))]
pub fn put_basic_cancel(
    channel: ChannelId,
    consumer_tag: &[u8],
    nowait: bool,
    max_payload: u32,
    out: &mut [u8],
) -> Result<usize, PutError>
    ensures { MakesMethod out.old out.new channel max_payload
        (method 60 30 (text_item consumer_tag.now ∷ flag_item nowait ∷ []))
        (first_flaw (text_flaw consumer_tag.now ∷ [])) result }
{
    let fields = (
        Text {
            bytes: consumer_tag,
        },
        (nowait, ()),
    );
    put_method_frame(60, 30, channel, &fields, max_payload, out)
}

/// Puts a frame of basic.cancel-ok.
#[tactic(auto, unfolding(amqp_types::specs::Rows::slots_at, amqp_types::specs::Rows::rows_of))]
pub fn put_basic_cancel_ok(
    channel: ChannelId,
    consumer_tag: &[u8],
    max_payload: u32,
    out: &mut [u8],
) -> Result<usize, PutError>
    ensures { MakesMethod out.old out.new channel max_payload
        (method 60 31 (text_item consumer_tag.now ∷ []))
        (first_flaw (text_flaw consumer_tag.now ∷ [])) result }
{
    let fields = (
        Text {
            bytes: consumer_tag,
        },
        (),
    );
    put_method_frame(60, 31, channel, &fields, max_payload, out)
}

/// Puts a frame of basic.publish.
#[tactic(auto, unfolding(amqp_types::specs::Rows::slots_at, amqp_types::specs::Rows::rows_of))]
pub fn put_basic_publish(
    channel: ChannelId,
    exchange: &[u8],
    routing_key: &[u8],
    mandatory: bool,
    immediate: bool,
    max_payload: u32,
    out: &mut [u8],
) -> Result<usize, PutError>
    ensures { MakesMethod out.old out.new channel max_payload
        (method 60 40 (text_item exchange.now ∷ text_item routing_key.now ∷ flag_item mandatory
        ∷ flag_item immediate ∷ []))
        (first_flaw (text_flaw exchange.now ∷ text_flaw routing_key.now ∷ [])) result }
{
    let fields = (
        ReservedShort,
        (
            Text { bytes: exchange },
            (Text { bytes: routing_key }, ((mandatory, immediate), ())),
        ),
    );
    put_method_frame(60, 40, channel, &fields, max_payload, out)
}

/// Puts a frame of basic.return.
#[tactic(auto, unfolding(amqp_types::specs::Rows::slots_at, amqp_types::specs::Rows::rows_of))]
pub fn put_basic_return(
    channel: ChannelId,
    reply_code: u16,
    reply_text: &[u8],
    exchange: &[u8],
    routing_key: &[u8],
    max_payload: u32,
    out: &mut [u8],
) -> Result<usize, PutError>
    ensures { MakesMethod out.old out.new channel max_payload
        (method 60 50 (number_item reply_code ∷ text_item reply_text.now ∷ text_item exchange.now
        ∷ text_item routing_key.now ∷ []))
        (first_flaw (text_flaw reply_text.now ∷ text_flaw exchange.now
        ∷ text_flaw routing_key.now ∷ [])) result }
{
    let fields = (
        reply_code,
        (
            Text { bytes: reply_text },
            (Text { bytes: exchange }, (Text { bytes: routing_key }, ())),
        ),
    );
    put_method_frame(60, 50, channel, &fields, max_payload, out)
}

/// Puts a frame of basic.deliver.
#[tactic(auto, unfolding(amqp_types::specs::Rows::slots_at, amqp_types::specs::Rows::rows_of))]
pub fn put_basic_deliver(
    channel: ChannelId,
    consumer_tag: &[u8],
    delivery_tag: u64,
    redelivered: bool,
    exchange: &[u8],
    routing_key: &[u8],
    max_payload: u32,
    out: &mut [u8],
) -> Result<usize, PutError>
    ensures { MakesMethod out.old out.new channel max_payload
        (method 60 60 (text_item consumer_tag.now ∷ number_item delivery_tag ∷ flag_item redelivered
        ∷ text_item exchange.now ∷ text_item routing_key.now ∷ []))
        (first_flaw (text_flaw consumer_tag.now ∷ text_flaw exchange.now
        ∷ text_flaw routing_key.now ∷ [])) result }
{
    let fields = (
        Text {
            bytes: consumer_tag,
        },
        (
            delivery_tag,
            (
                redelivered,
                (Text { bytes: exchange }, (Text { bytes: routing_key }, ())),
            ),
        ),
    );
    put_method_frame(60, 60, channel, &fields, max_payload, out)
}

/// Puts a frame of basic.get.
#[tactic(auto, unfolding(amqp_types::specs::Rows::slots_at, amqp_types::specs::Rows::rows_of))]
pub fn put_basic_get(
    channel: ChannelId,
    queue: &[u8],
    no_ack: bool,
    max_payload: u32,
    out: &mut [u8],
) -> Result<usize, PutError>
    ensures { MakesMethod out.old out.new channel max_payload
        (method 60 70 (text_item queue.now ∷ flag_item no_ack ∷ []))
        (first_flaw (text_flaw queue.now ∷ [])) result }
{
    let fields = (ReservedShort, (Text { bytes: queue }, (no_ack, ())));
    put_method_frame(60, 70, channel, &fields, max_payload, out)
}

/// Puts a frame of basic.get-ok.
#[tactic(auto, unfolding(amqp_types::specs::Rows::slots_at, amqp_types::specs::Rows::rows_of))]
pub fn put_basic_get_ok(
    channel: ChannelId,
    delivery_tag: u64,
    redelivered: bool,
    exchange: &[u8],
    routing_key: &[u8],
    message_count: u32,
    max_payload: u32,
    out: &mut [u8],
) -> Result<usize, PutError>
    ensures { MakesMethod out.old out.new channel max_payload
        (method 60 71 (number_item delivery_tag ∷ flag_item redelivered ∷ text_item exchange.now
        ∷ text_item routing_key.now ∷ number_item message_count ∷ []))
        (first_flaw (text_flaw exchange.now ∷ text_flaw routing_key.now ∷ [])) result }
{
    let fields = (
        delivery_tag,
        (
            redelivered,
            (
                Text { bytes: exchange },
                (Text { bytes: routing_key }, (message_count, ())),
            ),
        ),
    );
    put_method_frame(60, 71, channel, &fields, max_payload, out)
}

/// Puts a frame of basic.get-empty.
#[tactic(auto, unfolding(amqp_types::specs::Rows::slots_at, amqp_types::specs::Rows::rows_of))]
pub fn put_basic_get_empty(
    channel: ChannelId,
    max_payload: u32,
    out: &mut [u8],
) -> Result<usize, PutError>
    ensures { MakesMethod out.old out.new channel max_payload (method 60 72 []) None result }
{
    let fields = (ReservedShortString, ());
    put_method_frame(60, 72, channel, &fields, max_payload, out)
}

/// Puts a frame of basic.ack.
#[tactic(auto, unfolding(amqp_types::specs::Rows::slots_at, amqp_types::specs::Rows::rows_of))]
pub fn put_basic_ack(
    channel: ChannelId,
    delivery_tag: u64,
    multiple: bool,
    max_payload: u32,
    out: &mut [u8],
) -> Result<usize, PutError>
    ensures { MakesMethod out.old out.new channel max_payload
        (method 60 80 (number_item delivery_tag ∷ flag_item multiple ∷ []))
        None result }
{
    let fields = (delivery_tag, (multiple, ()));
    put_method_frame(60, 80, channel, &fields, max_payload, out)
}

/// Puts a frame of basic.reject.
#[tactic(auto, unfolding(amqp_types::specs::Rows::slots_at, amqp_types::specs::Rows::rows_of))]
pub fn put_basic_reject(
    channel: ChannelId,
    delivery_tag: u64,
    requeue: bool,
    max_payload: u32,
    out: &mut [u8],
) -> Result<usize, PutError>
    ensures { MakesMethod out.old out.new channel max_payload
        (method 60 90 (number_item delivery_tag ∷ flag_item requeue ∷ []))
        None result }
{
    let fields = (delivery_tag, (requeue, ()));
    put_method_frame(60, 90, channel, &fields, max_payload, out)
}

/// Puts a frame of basic.recover-async.
#[tactic(auto, unfolding(amqp_types::specs::Rows::slots_at, amqp_types::specs::Rows::rows_of))]
pub fn put_basic_recover_async(
    channel: ChannelId,
    requeue: bool,
    max_payload: u32,
    out: &mut [u8],
) -> Result<usize, PutError>
    ensures { MakesMethod out.old out.new channel max_payload
        (method 60 100 (flag_item requeue ∷ []))
        None result }
{
    let fields = (requeue, ());
    put_method_frame(60, 100, channel, &fields, max_payload, out)
}

/// Puts a frame of basic.recover.
#[tactic(auto, unfolding(amqp_types::specs::Rows::slots_at, amqp_types::specs::Rows::rows_of))]
pub fn put_basic_recover(
    channel: ChannelId,
    requeue: bool,
    max_payload: u32,
    out: &mut [u8],
) -> Result<usize, PutError>
    ensures { MakesMethod out.old out.new channel max_payload
        (method 60 110 (flag_item requeue ∷ []))
        None result }
{
    let fields = (requeue, ());
    put_method_frame(60, 110, channel, &fields, max_payload, out)
}

/// Puts a frame of basic.recover-ok.
#[tactic(auto, unfolding(amqp_types::specs::Rows::slots_at, amqp_types::specs::Rows::rows_of))]
pub fn put_basic_recover_ok(
    channel: ChannelId,
    max_payload: u32,
    out: &mut [u8],
) -> Result<usize, PutError>
    ensures { MakesMethod out.old out.new channel max_payload (method 60 111 []) None result }
{
    let fields = ();
    put_method_frame(60, 111, channel, &fields, max_payload, out)
}

/// Puts a frame of basic.nack.
#[tactic(auto, unfolding(amqp_types::specs::Rows::slots_at, amqp_types::specs::Rows::rows_of))]
pub fn put_basic_nack(
    channel: ChannelId,
    delivery_tag: u64,
    multiple: bool,
    requeue: bool,
    max_payload: u32,
    out: &mut [u8],
) -> Result<usize, PutError>
    ensures { MakesMethod out.old out.new channel max_payload
        (method 60 120 (number_item delivery_tag ∷ flag_item multiple ∷ flag_item requeue ∷ []))
        None result }
{
    let fields = (delivery_tag, ((multiple, requeue), ()));
    put_method_frame(60, 120, channel, &fields, max_payload, out)
}
