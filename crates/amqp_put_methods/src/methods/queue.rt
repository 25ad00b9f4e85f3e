//! Frames of the methods of class queue.

ghost use Rattle.std.specs.Prelude.{[], ◌∷◌, None};
ghost use Rattle.amqp_types.specs.Methods.{method};
ghost use Rattle.amqp_types.specs.Slots.{entries_item, flag_item, number_item, text_item};
ghost use Rattle.amqp_entries.specs.Flaws.{text_flaw};
ghost use Rattle.amqp_put.specs.Flaws.{first_flaw};
ghost use Rattle.amqp_put.specs.Made.{MakesMethod};
ghost use Rattle.amqp_types.specs.Constants.{inner_depth};
ghost use Rattle.amqp_entries.specs.Contents.{table_flaw, table_in};

use amqp_put::{PutError, ReservedShort, TableContent, Text, put_method_frame};
use amqp_types::ChannelId;

/// Puts a frame of queue.declare.
#[tactic(auto, unfolding(amqp_types::specs::Rows::slots_at, amqp_types::specs::Rows::rows_of))]
pub fn put_queue_declare(
    channel: ChannelId,
    queue: &[u8],
    passive: bool,
    durable: bool,
    exclusive: bool,
    auto_delete: bool,
    nowait: bool,
    arguments: &[u8],
    max_payload: u32,
    out: &mut [u8],
) -> Result<usize, PutError>
    ensures { MakesMethod out.old out.new channel max_payload
        (method 50 10 (text_item queue.now ∷ flag_item passive ∷ flag_item durable
        ∷ flag_item exclusive ∷ flag_item auto_delete ∷ flag_item nowait
        ∷ entries_item (table_in inner_depth arguments.now) ∷ []))
        (first_flaw (text_flaw queue.now ∷ table_flaw inner_depth arguments.now ∷ [])) result }
{
    let fields = (
        ReservedShort,
        (
            Text { bytes: queue },
            (
                (passive, durable, exclusive, auto_delete, nowait),
                (TableContent::new(arguments), ()),
            ),
        ),
    );
    put_method_frame(50, 10, channel, &fields, max_payload, out)
}

/// Puts a frame of queue.declare-ok.
#[tactic(auto, unfolding(amqp_types::specs::Rows::slots_at, amqp_types::specs::Rows::rows_of))]
pub fn put_queue_declare_ok(
    channel: ChannelId,
    queue: &[u8],
    message_count: u32,
    consumer_count: u32,
    max_payload: u32,
    out: &mut [u8],
) -> Result<usize, PutError>
    ensures { MakesMethod out.old out.new channel max_payload
        (method 50 11 (text_item queue.now ∷ number_item message_count
        ∷ number_item consumer_count ∷ []))
        (first_flaw (text_flaw queue.now ∷ [])) result }
{
    let fields = (Text { bytes: queue }, (message_count, (consumer_count, ())));
    put_method_frame(50, 11, channel, &fields, max_payload, out)
}

/// Puts a frame of queue.bind.
#[tactic(auto, unfolding(amqp_types::specs::Rows::slots_at, amqp_types::specs::Rows::rows_of))]
pub fn put_queue_bind(
    channel: ChannelId,
    queue: &[u8],
    exchange: &[u8],
    routing_key: &[u8],
    nowait: bool,
    arguments: &[u8],
    max_payload: u32,
    out: &mut [u8],
) -> Result<usize, PutError>
    ensures { MakesMethod out.old out.new channel max_payload
        (method 50 20 (text_item queue.now ∷ text_item exchange.now ∷ text_item routing_key.now
        ∷ flag_item nowait ∷ entries_item (table_in inner_depth arguments.now) ∷ []))
        (first_flaw (text_flaw queue.now ∷ text_flaw exchange.now ∷ text_flaw routing_key.now
        ∷ table_flaw inner_depth arguments.now ∷ [])) result }
{
    let fields = (
        ReservedShort,
        (
            Text { bytes: queue },
            (
                Text { bytes: exchange },
                (
                    Text { bytes: routing_key },
                    (nowait, (TableContent::new(arguments), ())),
                ),
            ),
        ),
    );
    put_method_frame(50, 20, channel, &fields, max_payload, out)
}

/// Puts a frame of queue.bind-ok.
#[tactic(auto, unfolding(amqp_types::specs::Rows::slots_at, amqp_types::specs::Rows::rows_of))]
pub fn put_queue_bind_ok(
    channel: ChannelId,
    max_payload: u32,
    out: &mut [u8],
) -> Result<usize, PutError>
    ensures { MakesMethod out.old out.new channel max_payload (method 50 21 []) None result }
{
    let fields = ();
    put_method_frame(50, 21, channel, &fields, max_payload, out)
}

/// Puts a frame of queue.purge.
#[tactic(auto, unfolding(amqp_types::specs::Rows::slots_at, amqp_types::specs::Rows::rows_of))]
pub fn put_queue_purge(
    channel: ChannelId,
    queue: &[u8],
    nowait: bool,
    max_payload: u32,
    out: &mut [u8],
) -> Result<usize, PutError>
    ensures { MakesMethod out.old out.new channel max_payload
        (method 50 30 (text_item queue.now ∷ flag_item nowait ∷ []))
        (first_flaw (text_flaw queue.now ∷ [])) result }
{
    let fields = (ReservedShort, (Text { bytes: queue }, (nowait, ())));
    put_method_frame(50, 30, channel, &fields, max_payload, out)
}

/// Puts a frame of queue.purge-ok.
#[tactic(auto, unfolding(amqp_types::specs::Rows::slots_at, amqp_types::specs::Rows::rows_of))]
pub fn put_queue_purge_ok(
    channel: ChannelId,
    message_count: u32,
    max_payload: u32,
    out: &mut [u8],
) -> Result<usize, PutError>
    ensures { MakesMethod out.old out.new channel max_payload
        (method 50 31 (number_item message_count ∷ []))
        None result }
{
    let fields = (message_count, ());
    put_method_frame(50, 31, channel, &fields, max_payload, out)
}

/// Puts a frame of queue.delete.
#[tactic(auto, unfolding(amqp_types::specs::Rows::slots_at, amqp_types::specs::Rows::rows_of))]
pub fn put_queue_delete(
    channel: ChannelId,
    queue: &[u8],
    if_unused: bool,
    if_empty: bool,
    nowait: bool,
    max_payload: u32,
    out: &mut [u8],
) -> Result<usize, PutError>
    ensures { MakesMethod out.old out.new channel max_payload
        (method 50 40 (text_item queue.now ∷ flag_item if_unused ∷ flag_item if_empty
        ∷ flag_item nowait ∷ []))
        (first_flaw (text_flaw queue.now ∷ [])) result }
{
    let fields = (
        ReservedShort,
        (Text { bytes: queue }, ((if_unused, if_empty, nowait), ())),
    );
    put_method_frame(50, 40, channel, &fields, max_payload, out)
}

/// Puts a frame of queue.delete-ok.
#[tactic(auto, unfolding(amqp_types::specs::Rows::slots_at, amqp_types::specs::Rows::rows_of))]
pub fn put_queue_delete_ok(
    channel: ChannelId,
    message_count: u32,
    max_payload: u32,
    out: &mut [u8],
) -> Result<usize, PutError>
    ensures { MakesMethod out.old out.new channel max_payload
        (method 50 41 (number_item message_count ∷ []))
        None result }
{
    let fields = (message_count, ());
    put_method_frame(50, 41, channel, &fields, max_payload, out)
}

/// Puts a frame of queue.unbind.
#[tactic(auto, unfolding(amqp_types::specs::Rows::slots_at, amqp_types::specs::Rows::rows_of))]
pub fn put_queue_unbind(
    channel: ChannelId,
    queue: &[u8],
    exchange: &[u8],
    routing_key: &[u8],
    arguments: &[u8],
    max_payload: u32,
    out: &mut [u8],
) -> Result<usize, PutError>
    ensures { MakesMethod out.old out.new channel max_payload
        (method 50 50 (text_item queue.now ∷ text_item exchange.now ∷ text_item routing_key.now
        ∷ entries_item (table_in inner_depth arguments.now) ∷ []))
        (first_flaw (text_flaw queue.now ∷ text_flaw exchange.now ∷ text_flaw routing_key.now
        ∷ table_flaw inner_depth arguments.now ∷ [])) result }
{
    let fields = (
        ReservedShort,
        (
            Text { bytes: queue },
            (
                Text { bytes: exchange },
                (
                    Text { bytes: routing_key },
                    (TableContent::new(arguments), ()),
                ),
            ),
        ),
    );
    put_method_frame(50, 50, channel, &fields, max_payload, out)
}

/// Puts a frame of queue.unbind-ok.
#[tactic(auto, unfolding(amqp_types::specs::Rows::slots_at, amqp_types::specs::Rows::rows_of))]
pub fn put_queue_unbind_ok(
    channel: ChannelId,
    max_payload: u32,
    out: &mut [u8],
) -> Result<usize, PutError>
    ensures { MakesMethod out.old out.new channel max_payload (method 50 51 []) None result }
{
    let fields = ();
    put_method_frame(50, 51, channel, &fields, max_payload, out)
}
