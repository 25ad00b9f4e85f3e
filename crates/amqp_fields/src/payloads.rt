//! The nodes of the fields of whole payloads that are no methods.

ghost use Rattle.std.specs.Prelude.{◌≡◌, ◌≢◌, ◌≤◌, length, true};
ghost use Rattle.amqp_canonical.specs.Shapes.{have_constants, slots_of};
ghost use Rattle.amqp_fields.specs.Finding.{Counts};
ghost use Rattle.amqp_fields.specs.Listed.{listed_header};
ghost use Rattle.amqp_fields.specs.Listed.{listed_payload, version_slots};

use crate::fields::{list_properties, list_slots};
use crate::node::Node;
use amqp_canonical::{Form, Slot, bytes_from};
use amqp_wire::AMQPFrameType;

/// What a protocol header has: three numbers.
const VERSION: [Slot; 3] = [
    Slot::Kept(Form::Octet),
    Slot::Kept(Form::Octet),
    Slot::Kept(Form::Octet),
];

/// The shapes of the three numbers of a protocol header.
#[inline(always)]
pub fn version_shapes() -> &'static [Slot]
    ensures slots { slots_of result.now ≡ version_slots }
    ensures constants { have_constants result.now ≡ true }
{
    &VERSION
}

/// The fields of a whole payload of this type, which is no method's. It ends at the place `end` of the bytes in which spans are
/// counted. They are put after `count` nodes. A body and a heartbeat have none.
#[tactic(auto, unfolding(crate::specs::Listed::listed_payload, crate::specs::Listed::listed_header))]
#[inline(always)]
pub(crate) fn list_payload(
    nodes: &mut [Node],
    count: u32,
    frame_type: AMQPFrameType,
    deep: bool,
    end: u32,
    payload: &[u8],
) -> u32
    requires within { length payload.now ≤ end }
    requires other { frame_type ≢ AMQPFrameType.Method }
    ensures { Counts (listed_payload frame_type deep end payload.now)
        nodes.old count nodes.new result }
{
    match frame_type {
        AMQPFrameType::ProtocolHeader => {
            list_slots(nodes, count, deep, end, 0, version_shapes(), payload)
        }
        AMQPFrameType::Method => unreachable!(),
        AMQPFrameType::Header => {
            let properties = bytes_from(payload, 12);
            list_properties(nodes, count, deep, end, properties)
        }
        AMQPFrameType::Body | AMQPFrameType::Heartbeat => count,
    }
}
