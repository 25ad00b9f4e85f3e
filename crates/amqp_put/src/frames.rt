//! The frame of a method by its fields.

ghost use Rattle.std.specs.Prelude.{◌≡◌, ◌≤◌, ◌<◌, ◌+◌, ◌^◌, Some, length};
ghost use Rattle.amqp_types.specs.Rows.{slots_at};
ghost use Rattle.amqp_types.specs.Methods.{method};
ghost use Rattle.amqp_put.specs.Made.{MakesMethod};

use crate::slots::ToSlots;
use amqp_entries::PutError;
use amqp_types::{ChannelId, FRAME_METHOD, Identifier, put_short_uint};
use amqp_wire::put_around;

/// Puts the canonical bytes of the frame of a method at the front of a slice, and returns how many they are. A field
/// that is not written is told first, from left to right, then a payload of more than `max_payload` bytes, and then a
/// slice that has no room.
#[inline(always)]
pub fn put_method_frame<M: ToSlots>(
    class: Identifier,
    id: Identifier,
    channel: ChannelId,
    fields: &M,
    max_payload: u32,
    out: &mut [u8],
) -> Result<usize, PutError>
    requires slots { slots_at class id ≡ Some M.slots }
    requires few { M.most < 2 ^ 40 }
    ensures { MakesMethod out.old out.new channel max_payload
        (method class id (M.items fields.now)) (M.flaw fields.now) result }
{
    let size = 4 + fields.measure()?;
    if size > max_payload as usize {
        return Err(PutError::TooLarge);
    }
    if out.len() < size + 8 {
        return Err(PutError::BufferTooSmall(size + 8));
    }
    let id_place = put_short_uint(out, 7, &class);
    let place = put_short_uint(out, id_place, &id);
    let end = fields.put(out, place);
    Ok(put_around(out, 0, end, FRAME_METHOD, channel))
}
