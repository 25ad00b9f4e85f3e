//! Frames of the methods of class channel.

ghost use Rattle.std.specs.Prelude.{[], ◌∷◌, None};
ghost use Rattle.amqp_types.specs.Methods.{method};
ghost use Rattle.amqp_types.specs.Slots.{flag_item, number_item, text_item};
ghost use Rattle.amqp_entries.specs.Flaws.{text_flaw};
ghost use Rattle.amqp_put.specs.Flaws.{first_flaw};
ghost use Rattle.amqp_put.specs.Made.{MakesMethod};

use amqp_put::{PutError, ReservedLongString, ReservedShortString, Text, put_method_frame};
use amqp_types::ChannelId;

/// Puts a frame of channel.open.
#[tactic(auto, unfolding(amqp_types::specs::Rows::slots_at, amqp_types::specs::Rows::rows_of))]
pub fn put_channel_open(
    channel: ChannelId,
    max_payload: u32,
    out: &mut [u8],
) -> Result<usize, PutError>
    ensures { MakesMethod out.old out.new channel max_payload (method 20 10 []) None result }
{
    let fields = (ReservedShortString, ());
    put_method_frame(20, 10, channel, &fields, max_payload, out)
}

/// Puts a frame of channel.open-ok.
#[tactic(auto, unfolding(amqp_types::specs::Rows::slots_at, amqp_types::specs::Rows::rows_of))]
pub fn put_channel_open_ok(
    channel: ChannelId,
    max_payload: u32,
    out: &mut [u8],
) -> Result<usize, PutError>
    ensures { MakesMethod out.old out.new channel max_payload (method 20 11 []) None result }
{
    let fields = (ReservedLongString, ());
    put_method_frame(20, 11, channel, &fields, max_payload, out)
}

/// Puts a frame of channel.flow.
#[tactic(auto, unfolding(amqp_types::specs::Rows::slots_at, amqp_types::specs::Rows::rows_of))]
pub fn put_channel_flow(
    channel: ChannelId,
    active: bool,
    max_payload: u32,
    out: &mut [u8],
) -> Result<usize, PutError>
    ensures { MakesMethod out.old out.new channel max_payload
        (method 20 20 (flag_item active ∷ []))
        None result }
{
    let fields = (active, ());
    put_method_frame(20, 20, channel, &fields, max_payload, out)
}

/// Puts a frame of channel.flow-ok.
#[tactic(auto, unfolding(amqp_types::specs::Rows::slots_at, amqp_types::specs::Rows::rows_of))]
pub fn put_channel_flow_ok(
    channel: ChannelId,
    active: bool,
    max_payload: u32,
    out: &mut [u8],
) -> Result<usize, PutError>
    ensures { MakesMethod out.old out.new channel max_payload
        (method 20 21 (flag_item active ∷ []))
        None result }
{
    let fields = (active, ());
    put_method_frame(20, 21, channel, &fields, max_payload, out)
}

/// Puts a frame of channel.close.
#[tactic(auto, unfolding(amqp_types::specs::Rows::slots_at, amqp_types::specs::Rows::rows_of))]
pub fn put_channel_close(
    channel: ChannelId,
    reply_code: u16,
    reply_text: &[u8],
    class_id: u16,
    method_id: u16,
    max_payload: u32,
    out: &mut [u8],
) -> Result<usize, PutError>
    ensures { MakesMethod out.old out.new channel max_payload
        (method 20 40 (number_item reply_code ∷ text_item reply_text.now ∷ number_item class_id
        ∷ number_item method_id ∷ []))
        (first_flaw (text_flaw reply_text.now ∷ [])) result }
{
    let fields = (
        reply_code,
        (Text { bytes: reply_text }, (class_id, (method_id, ()))),
    );
    put_method_frame(20, 40, channel, &fields, max_payload, out)
}

/// Puts a frame of channel.close-ok.
#[tactic(auto, unfolding(amqp_types::specs::Rows::slots_at, amqp_types::specs::Rows::rows_of))]
pub fn put_channel_close_ok(
    channel: ChannelId,
    max_payload: u32,
    out: &mut [u8],
) -> Result<usize, PutError>
    ensures { MakesMethod out.old out.new channel max_payload (method 20 41 []) None result }
{
    let fields = ();
    put_method_frame(20, 41, channel, &fields, max_payload, out)
}
