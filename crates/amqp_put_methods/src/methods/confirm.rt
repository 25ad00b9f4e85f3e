//! Frames of the methods of class confirm.

ghost use Rattle.std.specs.Prelude.{[], ◌∷◌, None};
ghost use Rattle.amqp_types.specs.Methods.{method};
ghost use Rattle.amqp_types.specs.Slots.{flag_item};
ghost use Rattle.amqp_put.specs.Made.{MakesMethod};

use amqp_put::{PutError, put_method_frame};
use amqp_types::ChannelId;

/// Puts a frame of confirm.select.
#[tactic(auto, unfolding(amqp_types::specs::Rows::slots_at, amqp_types::specs::Rows::rows_of))]
pub fn put_confirm_select(
    channel: ChannelId,
    nowait: bool,
    max_payload: u32,
    out: &mut [u8],
) -> Result<usize, PutError>
    ensures { MakesMethod out.old out.new channel max_payload
        (method 85 10 (flag_item nowait ∷ []))
        None result }
{
    let fields = (nowait, ());
    put_method_frame(85, 10, channel, &fields, max_payload, out)
}

/// Puts a frame of confirm.select-ok.
#[tactic(auto, unfolding(amqp_types::specs::Rows::slots_at, amqp_types::specs::Rows::rows_of))]
pub fn put_confirm_select_ok(
    channel: ChannelId,
    max_payload: u32,
    out: &mut [u8],
) -> Result<usize, PutError>
    ensures { MakesMethod out.old out.new channel max_payload (method 85 11 []) None result }
{
    let fields = ();
    put_method_frame(85, 11, channel, &fields, max_payload, out)
}
