//! Frames of the methods of class channel.

ghost use Rattle.std.specs.Prelude.{[], ◌∷◌, None};
ghost use Rattle.amqp_types.specs.Methods.{method};
ghost use Rattle.amqp_types.specs.Slots.{flag_item, number_item, text_item};
ghost use Rattle.amqp_entries.specs.Flaws.{text_flaw};
ghost use Rattle.amqp_put.specs.Flaws.{first_flaw};
ghost use Rattle.amqp_put.specs.Made.{MakesMethod};
ghost use Rattle.amqp_c_put.specs.Reports.{Reports};

use crate::report::{PutReport, report};
use amqp_put_methods::{
    put_channel_close, put_channel_close_ok, put_channel_flow, put_channel_flow_ok,
    put_channel_open, put_channel_open_ok,
};

/// Puts a frame of channel.open.
#[unsafe(no_mangle)]
pub extern "C" fn feksroum_put_channel_open(
    channel: u16,
    max_payload: u32,
    out: &mut [u8],
) -> PutReport
    ensures { Reports (MakesMethod out.old out.new channel max_payload
        (method 20 10 [])
        None) result }
{
    let put = put_channel_open(channel, max_payload, out);
    report(put)
}

/// Puts a frame of channel.open-ok.
#[unsafe(no_mangle)]
pub extern "C" fn feksroum_put_channel_open_ok(
    channel: u16,
    max_payload: u32,
    out: &mut [u8],
) -> PutReport
    ensures { Reports (MakesMethod out.old out.new channel max_payload
        (method 20 11 [])
        None) result }
{
    let put = put_channel_open_ok(channel, max_payload, out);
    report(put)
}

/// Puts a frame of channel.flow.
#[unsafe(no_mangle)]
pub extern "C" fn feksroum_put_channel_flow(
    channel: u16,
    active: bool,
    max_payload: u32,
    out: &mut [u8],
) -> PutReport
    ensures { Reports (MakesMethod out.old out.new channel max_payload
        (method 20 20 (flag_item active ∷ []))
        None) result }
{
    let put = put_channel_flow(channel, active, max_payload, out);
    report(put)
}

/// Puts a frame of channel.flow-ok.
#[unsafe(no_mangle)]
pub extern "C" fn feksroum_put_channel_flow_ok(
    channel: u16,
    active: bool,
    max_payload: u32,
    out: &mut [u8],
) -> PutReport
    ensures { Reports (MakesMethod out.old out.new channel max_payload
        (method 20 21 (flag_item active ∷ []))
        None) result }
{
    let put = put_channel_flow_ok(channel, active, max_payload, out);
    report(put)
}

/// Puts a frame of channel.close.
#[unsafe(no_mangle)]
pub extern "C" fn feksroum_put_channel_close(
    channel: u16,
    reply_code: u16,
    reply_text: &[u8],
    class_id: u16,
    method_id: u16,
    max_payload: u32,
    out: &mut [u8],
) -> PutReport
    ensures { Reports (MakesMethod out.old out.new channel max_payload
        (method 20 40 (number_item reply_code ∷ text_item reply_text.now ∷ number_item class_id
        ∷ number_item method_id ∷ []))
        (first_flaw (text_flaw reply_text.now ∷ []))) result }
{
    let put = put_channel_close(
        channel,
        reply_code,
        reply_text,
        class_id,
        method_id,
        max_payload,
        out,
    );
    report(put)
}

/// Puts a frame of channel.close-ok.
#[unsafe(no_mangle)]
pub extern "C" fn feksroum_put_channel_close_ok(
    channel: u16,
    max_payload: u32,
    out: &mut [u8],
) -> PutReport
    ensures { Reports (MakesMethod out.old out.new channel max_payload
        (method 20 41 [])
        None) result }
{
    let put = put_channel_close_ok(channel, max_payload, out);
    report(put)
}
