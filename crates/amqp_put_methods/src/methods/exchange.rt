//! Frames of the methods of class exchange.

ghost use Rattle.std.specs.Prelude.{[], ◌∷◌, None};
ghost use Rattle.amqp_types.specs.Methods.{method};
ghost use Rattle.amqp_types.specs.Slots.{entries_item, flag_item, text_item};
ghost use Rattle.amqp_entries.specs.Flaws.{text_flaw};
ghost use Rattle.amqp_put.specs.Flaws.{first_flaw};
ghost use Rattle.amqp_put.specs.Made.{MakesMethod};
ghost use Rattle.amqp_types.specs.Constants.{inner_depth};
ghost use Rattle.amqp_entries.specs.Contents.{table_flaw, table_in};

use amqp_put::{PutError, ReservedShort, TableContent, Text, put_method_frame};
use amqp_types::ChannelId;

/// Puts a frame of exchange.declare.
#[tactic(auto, unfolding(amqp_types::specs::Rows::slots_at, amqp_types::specs::Rows::rows_of))]
pub fn put_exchange_declare(
    channel: ChannelId,
    exchange: &[u8],
    kind: &[u8],
    passive: bool,
    durable: bool,
    auto_delete: bool,
    internal: bool,
    nowait: bool,
    arguments: &[u8],
    max_payload: u32,
    out: &mut [u8],
) -> Result<usize, PutError>
    ensures { MakesMethod out.old out.new channel max_payload
        (method 40 10 (text_item exchange.now ∷ text_item kind.now ∷ flag_item passive
        ∷ flag_item durable ∷ flag_item auto_delete ∷ flag_item internal ∷ flag_item nowait
        ∷ entries_item (table_in inner_depth arguments.now) ∷ []))
        (first_flaw (text_flaw exchange.now ∷ text_flaw kind.now
        ∷ table_flaw inner_depth arguments.now ∷ [])) result }
{
    let fields = (
        ReservedShort,
        (
            Text { bytes: exchange },
            (
                Text { bytes: kind },
                (
                    (passive, durable, auto_delete, internal, nowait),
                    (TableContent::new(arguments), ()),
                ),
            ),
        ),
    );
    put_method_frame(40, 10, channel, &fields, max_payload, out)
}

/// Puts a frame of exchange.declare-ok.
#[tactic(auto, unfolding(amqp_types::specs::Rows::slots_at, amqp_types::specs::Rows::rows_of))]
pub fn put_exchange_declare_ok(
    channel: ChannelId,
    max_payload: u32,
    out: &mut [u8],
) -> Result<usize, PutError>
    ensures { MakesMethod out.old out.new channel max_payload (method 40 11 []) None result }
{
    let fields = ();
    put_method_frame(40, 11, channel, &fields, max_payload, out)
}

/// Puts a frame of exchange.delete.
#[tactic(auto, unfolding(amqp_types::specs::Rows::slots_at, amqp_types::specs::Rows::rows_of))]
pub fn put_exchange_delete(
    channel: ChannelId,
    exchange: &[u8],
    if_unused: bool,
    nowait: bool,
    max_payload: u32,
    out: &mut [u8],
) -> Result<usize, PutError>
    ensures { MakesMethod out.old out.new channel max_payload
        (method 40 20 (text_item exchange.now ∷ flag_item if_unused ∷ flag_item nowait ∷ []))
        (first_flaw (text_flaw exchange.now ∷ [])) result }
{
    let fields = (
        ReservedShort,
        (Text { bytes: exchange }, ((if_unused, nowait), ())),
    );
    put_method_frame(40, 20, channel, &fields, max_payload, out)
}

/// Puts a frame of exchange.delete-ok.
#[tactic(auto, unfolding(amqp_types::specs::Rows::slots_at, amqp_types::specs::Rows::rows_of))]
pub fn put_exchange_delete_ok(
    channel: ChannelId,
    max_payload: u32,
    out: &mut [u8],
) -> Result<usize, PutError>
    ensures { MakesMethod out.old out.new channel max_payload (method 40 21 []) None result }
{
    let fields = ();
    put_method_frame(40, 21, channel, &fields, max_payload, out)
}

/// Puts a frame of exchange.bind.
#[tactic(auto, unfolding(amqp_types::specs::Rows::slots_at, amqp_types::specs::Rows::rows_of))]
pub fn put_exchange_bind(
    channel: ChannelId,
    destination: &[u8],
    source: &[u8],
    routing_key: &[u8],
    nowait: bool,
    arguments: &[u8],
    max_payload: u32,
    out: &mut [u8],
) -> Result<usize, PutError>
    ensures { MakesMethod out.old out.new channel max_payload
        (method 40 30 (text_item destination.now ∷ text_item source.now ∷ text_item routing_key.now
        ∷ flag_item nowait ∷ entries_item (table_in inner_depth arguments.now) ∷ []))
        (first_flaw (text_flaw destination.now ∷ text_flaw source.now ∷ text_flaw routing_key.now
        ∷ table_flaw inner_depth arguments.now ∷ [])) result }
{
    let fields = (
        ReservedShort,
        (
            Text { bytes: destination },
            (
                Text { bytes: source },
                (
                    Text { bytes: routing_key },
                    (nowait, (TableContent::new(arguments), ())),
                ),
            ),
        ),
    );
    put_method_frame(40, 30, channel, &fields, max_payload, out)
}

/// Puts a frame of exchange.bind-ok.
#[tactic(auto, unfolding(amqp_types::specs::Rows::slots_at, amqp_types::specs::Rows::rows_of))]
pub fn put_exchange_bind_ok(
    channel: ChannelId,
    max_payload: u32,
    out: &mut [u8],
) -> Result<usize, PutError>
    ensures { MakesMethod out.old out.new channel max_payload (method 40 31 []) None result }
{
    let fields = ();
    put_method_frame(40, 31, channel, &fields, max_payload, out)
}

/// Puts a frame of exchange.unbind.
#[tactic(auto, unfolding(amqp_types::specs::Rows::slots_at, amqp_types::specs::Rows::rows_of))]
pub fn put_exchange_unbind(
    channel: ChannelId,
    destination: &[u8],
    source: &[u8],
    routing_key: &[u8],
    nowait: bool,
    arguments: &[u8],
    max_payload: u32,
    out: &mut [u8],
) -> Result<usize, PutError>
    ensures { MakesMethod out.old out.new channel max_payload
        (method 40 40 (text_item destination.now ∷ text_item source.now ∷ text_item routing_key.now
        ∷ flag_item nowait ∷ entries_item (table_in inner_depth arguments.now) ∷ []))
        (first_flaw (text_flaw destination.now ∷ text_flaw source.now ∷ text_flaw routing_key.now
        ∷ table_flaw inner_depth arguments.now ∷ [])) result }
{
    let fields = (
        ReservedShort,
        (
            Text { bytes: destination },
            (
                Text { bytes: source },
                (
                    Text { bytes: routing_key },
                    (nowait, (TableContent::new(arguments), ())),
                ),
            ),
        ),
    );
    put_method_frame(40, 40, channel, &fields, max_payload, out)
}

/// Puts a frame of exchange.unbind-ok.
#[tactic(auto, unfolding(amqp_types::specs::Rows::slots_at, amqp_types::specs::Rows::rows_of))]
pub fn put_exchange_unbind_ok(
    channel: ChannelId,
    max_payload: u32,
    out: &mut [u8],
) -> Result<usize, PutError>
    ensures { MakesMethod out.old out.new channel max_payload (method 40 51 []) None result }
{
    let fields = ();
    put_method_frame(40, 51, channel, &fields, max_payload, out)
}
