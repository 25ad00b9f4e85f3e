//! Frames of the methods of class exchange.

ghost use Rattle.std.specs.Prelude.{[], ◌∷◌, None};
ghost use Rattle.amqp_types.specs.Methods.{method};
ghost use Rattle.amqp_types.specs.Slots.{entries_item, flag_item, text_item};
ghost use Rattle.amqp_entries.specs.Flaws.{text_flaw};
ghost use Rattle.amqp_put.specs.Flaws.{first_flaw};
ghost use Rattle.amqp_put.specs.Made.{MakesMethod};
ghost use Rattle.amqp_types.specs.Constants.{inner_depth};
ghost use Rattle.amqp_entries.specs.Contents.{table_flaw, table_in};
ghost use Rattle.amqp_c_put.specs.Reports.{Reports};

use crate::report::{PutReport, report};
use amqp_put_methods::{
    put_exchange_bind, put_exchange_bind_ok, put_exchange_declare, put_exchange_declare_ok,
    put_exchange_delete, put_exchange_delete_ok, put_exchange_unbind, put_exchange_unbind_ok,
};

/// Puts a frame of exchange.declare.
#[unsafe(no_mangle)]
pub extern "C" fn feksroum_put_exchange_declare(
    channel: u16,
    exchange: &[u8],
    kind: &[u8],
    passive: bool,
    durable: bool,
    auto_delete: bool,
    internal: bool,
    nowait: bool,
    arguments: &[u8],
    max_payload: u32,
    out: &mut [u8],
) -> PutReport
    ensures { Reports (MakesMethod out.old out.new channel max_payload
        (method 40 10 (text_item exchange.now ∷ text_item kind.now ∷ flag_item passive
        ∷ flag_item durable ∷ flag_item auto_delete ∷ flag_item internal ∷ flag_item nowait
        ∷ entries_item (table_in inner_depth arguments.now) ∷ []))
        (first_flaw (text_flaw exchange.now ∷ text_flaw kind.now
        ∷ table_flaw inner_depth arguments.now ∷ []))) result }
{
    let put = put_exchange_declare(
        channel,
        exchange,
        kind,
        passive,
        durable,
        auto_delete,
        internal,
        nowait,
        arguments,
        max_payload,
        out,
    );
    report(put)
}

/// Puts a frame of exchange.declare-ok.
#[unsafe(no_mangle)]
pub extern "C" fn feksroum_put_exchange_declare_ok(
    channel: u16,
    max_payload: u32,
    out: &mut [u8],
) -> PutReport
    ensures { Reports (MakesMethod out.old out.new channel max_payload
        (method 40 11 [])
        None) result }
{
    let put = put_exchange_declare_ok(channel, max_payload, out);
    report(put)
}

/// Puts a frame of exchange.delete.
#[unsafe(no_mangle)]
pub extern "C" fn feksroum_put_exchange_delete(
    channel: u16,
    exchange: &[u8],
    if_unused: bool,
    nowait: bool,
    max_payload: u32,
    out: &mut [u8],
) -> PutReport
    ensures { Reports (MakesMethod out.old out.new channel max_payload
        (method 40 20 (text_item exchange.now ∷ flag_item if_unused ∷ flag_item nowait ∷ []))
        (first_flaw (text_flaw exchange.now ∷ []))) result }
{
    let put = put_exchange_delete(channel, exchange, if_unused, nowait, max_payload, out);
    report(put)
}

/// Puts a frame of exchange.delete-ok.
#[unsafe(no_mangle)]
pub extern "C" fn feksroum_put_exchange_delete_ok(
    channel: u16,
    max_payload: u32,
    out: &mut [u8],
) -> PutReport
    ensures { Reports (MakesMethod out.old out.new channel max_payload
        (method 40 21 [])
        None) result }
{
    let put = put_exchange_delete_ok(channel, max_payload, out);
    report(put)
}

/// Puts a frame of exchange.bind.
#[unsafe(no_mangle)]
pub extern "C" fn feksroum_put_exchange_bind(
    channel: u16,
    destination: &[u8],
    source: &[u8],
    routing_key: &[u8],
    nowait: bool,
    arguments: &[u8],
    max_payload: u32,
    out: &mut [u8],
) -> PutReport
    ensures { Reports (MakesMethod out.old out.new channel max_payload
        (method 40 30 (text_item destination.now ∷ text_item source.now ∷ text_item routing_key.now
        ∷ flag_item nowait ∷ entries_item (table_in inner_depth arguments.now) ∷ []))
        (first_flaw (text_flaw destination.now ∷ text_flaw source.now ∷ text_flaw routing_key.now
        ∷ table_flaw inner_depth arguments.now ∷ []))) result }
{
    let put = put_exchange_bind(
        channel,
        destination,
        source,
        routing_key,
        nowait,
        arguments,
        max_payload,
        out,
    );
    report(put)
}

/// Puts a frame of exchange.bind-ok.
#[unsafe(no_mangle)]
pub extern "C" fn feksroum_put_exchange_bind_ok(
    channel: u16,
    max_payload: u32,
    out: &mut [u8],
) -> PutReport
    ensures { Reports (MakesMethod out.old out.new channel max_payload
        (method 40 31 [])
        None) result }
{
    let put = put_exchange_bind_ok(channel, max_payload, out);
    report(put)
}

/// Puts a frame of exchange.unbind.
#[unsafe(no_mangle)]
pub extern "C" fn feksroum_put_exchange_unbind(
    channel: u16,
    destination: &[u8],
    source: &[u8],
    routing_key: &[u8],
    nowait: bool,
    arguments: &[u8],
    max_payload: u32,
    out: &mut [u8],
) -> PutReport
    ensures { Reports (MakesMethod out.old out.new channel max_payload
        (method 40 40 (text_item destination.now ∷ text_item source.now ∷ text_item routing_key.now
        ∷ flag_item nowait ∷ entries_item (table_in inner_depth arguments.now) ∷ []))
        (first_flaw (text_flaw destination.now ∷ text_flaw source.now ∷ text_flaw routing_key.now
        ∷ table_flaw inner_depth arguments.now ∷ []))) result }
{
    let put = put_exchange_unbind(
        channel,
        destination,
        source,
        routing_key,
        nowait,
        arguments,
        max_payload,
        out,
    );
    report(put)
}

/// Puts a frame of exchange.unbind-ok.
#[unsafe(no_mangle)]
pub extern "C" fn feksroum_put_exchange_unbind_ok(
    channel: u16,
    max_payload: u32,
    out: &mut [u8],
) -> PutReport
    ensures { Reports (MakesMethod out.old out.new channel max_payload
        (method 40 51 [])
        None) result }
{
    let put = put_exchange_unbind_ok(channel, max_payload, out);
    report(put)
}
