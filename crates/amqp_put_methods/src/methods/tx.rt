//! Frames of the methods of class tx.

ghost use Rattle.std.specs.Prelude.{[], None};
ghost use Rattle.amqp_types.specs.Methods.{method};
ghost use Rattle.amqp_put.specs.Made.{MakesMethod};

use amqp_put::{PutError, put_method_frame};
use amqp_types::ChannelId;

/// Puts a frame of tx.select.
#[tactic(auto, unfolding(amqp_types::specs::Rows::slots_at, amqp_types::specs::Rows::rows_of))]
pub fn put_tx_select(
    channel: ChannelId,
    max_payload: u32,
    out: &mut [u8],
) -> Result<usize, PutError>
    ensures { MakesMethod out.old out.new channel max_payload (method 90 10 []) None result }
{
    let fields = ();
    put_method_frame(90, 10, channel, &fields, max_payload, out)
}

/// Puts a frame of tx.select-ok.
#[tactic(auto, unfolding(amqp_types::specs::Rows::slots_at, amqp_types::specs::Rows::rows_of))]
pub fn put_tx_select_ok(
    channel: ChannelId,
    max_payload: u32,
    out: &mut [u8],
) -> Result<usize, PutError>
    ensures { MakesMethod out.old out.new channel max_payload (method 90 11 []) None result }
{
    let fields = ();
    put_method_frame(90, 11, channel, &fields, max_payload, out)
}

/// Puts a frame of tx.commit.
#[tactic(auto, unfolding(amqp_types::specs::Rows::slots_at, amqp_types::specs::Rows::rows_of))]
pub fn put_tx_commit(
    channel: ChannelId,
    max_payload: u32,
    out: &mut [u8],
) -> Result<usize, PutError>
    ensures { MakesMethod out.old out.new channel max_payload (method 90 20 []) None result }
{
    let fields = ();
    put_method_frame(90, 20, channel, &fields, max_payload, out)
}

/// Puts a frame of tx.commit-ok.
#[tactic(auto, unfolding(amqp_types::specs::Rows::slots_at, amqp_types::specs::Rows::rows_of))]
pub fn put_tx_commit_ok(
    channel: ChannelId,
    max_payload: u32,
    out: &mut [u8],
) -> Result<usize, PutError>
    ensures { MakesMethod out.old out.new channel max_payload (method 90 21 []) None result }
{
    let fields = ();
    put_method_frame(90, 21, channel, &fields, max_payload, out)
}

/// Puts a frame of tx.rollback.
#[tactic(auto, unfolding(amqp_types::specs::Rows::slots_at, amqp_types::specs::Rows::rows_of))]
pub fn put_tx_rollback(
    channel: ChannelId,
    max_payload: u32,
    out: &mut [u8],
) -> Result<usize, PutError>
    ensures { MakesMethod out.old out.new channel max_payload (method 90 30 []) None result }
{
    let fields = ();
    put_method_frame(90, 30, channel, &fields, max_payload, out)
}

/// Puts a frame of tx.rollback-ok.
#[tactic(auto, unfolding(amqp_types::specs::Rows::slots_at, amqp_types::specs::Rows::rows_of))]
pub fn put_tx_rollback_ok(
    channel: ChannelId,
    max_payload: u32,
    out: &mut [u8],
) -> Result<usize, PutError>
    ensures { MakesMethod out.old out.new channel max_payload (method 90 31 []) None result }
{
    let fields = ();
    put_method_frame(90, 31, channel, &fields, max_payload, out)
}
