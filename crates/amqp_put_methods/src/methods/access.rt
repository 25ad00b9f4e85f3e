//! Frames of the methods of class access.

ghost use Rattle.std.specs.Prelude.{[], ◌∷◌, None};
ghost use Rattle.amqp_types.specs.Methods.{method};
ghost use Rattle.amqp_types.specs.Slots.{flag_item, text_item};
ghost use Rattle.amqp_entries.specs.Flaws.{text_flaw};
ghost use Rattle.amqp_put.specs.Flaws.{first_flaw};
ghost use Rattle.amqp_put.specs.Made.{MakesMethod};

use amqp_put::{PutError, ReservedTicket, Text, put_method_frame};
use amqp_types::ChannelId;

/// Puts a frame of access.request.
#[tactic(auto, unfolding(amqp_types::specs::Rows::slots_at, amqp_types::specs::Rows::rows_of))]
pub fn put_access_request(
    channel: ChannelId,
    realm: &[u8],
    exclusive: bool,
    passive: bool,
    active: bool,
    write: bool,
    read: bool,
    max_payload: u32,
    out: &mut [u8],
) -> Result<usize, PutError>
    ensures { MakesMethod out.old out.new channel max_payload
        (method 30 10 (text_item realm.now ∷ flag_item exclusive ∷ flag_item passive
        ∷ flag_item active ∷ flag_item write ∷ flag_item read ∷ []))
        (first_flaw (text_flaw realm.now ∷ [])) result }
{
    let fields = (
        Text { bytes: realm },
        ((exclusive, passive, active, write, read), ()),
    );
    put_method_frame(30, 10, channel, &fields, max_payload, out)
}

/// Puts a frame of access.request-ok.
#[tactic(auto, unfolding(amqp_types::specs::Rows::slots_at, amqp_types::specs::Rows::rows_of))]
pub fn put_access_request_ok(
    channel: ChannelId,
    max_payload: u32,
    out: &mut [u8],
) -> Result<usize, PutError>
    ensures { MakesMethod out.old out.new channel max_payload (method 30 11 []) None result }
{
    let fields = (ReservedTicket, ());
    put_method_frame(30, 11, channel, &fields, max_payload, out)
}
