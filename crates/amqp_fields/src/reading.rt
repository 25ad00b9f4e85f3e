//! Reading the fields of whole payloads as nodes.

ghost use Rattle.std.specs.Prelude.{◌≡◌, ◌≤◌, ◌<◌, ◌^◌, length, IfErr, IfOk};
ghost use Rattle.amqp_fields.specs.Reading.{StandInFront, IsWhole, RefusesFields, SaysLevels};
ghost use Rattle.amqp_fields.specs.Reading.{fields_nodes};

use crate::decoding::decode;
use crate::node::Node;
use amqp_types::ParserError;
use amqp_wire::{AMQPFrameType, AMQPRawFrame};

/// What was read of a payload.
#[derive(Clone, Copy, Debug, PartialEq, Eq)]
pub struct FieldsRead {
    /// How many nodes there are.
    pub count: usize,

    /// Whether the payload is canonical.
    pub canonical: bool,

    /// Whether it is tidy: reserved fields, the weight and unused bits stand at their constants, and a heartbeat is
    /// empty.
    pub tidy: bool,
}

/// Why no fields were read.
#[derive(Clone, Copy, Debug, PartialEq, Eq)]
pub enum FieldsError {
    /// The payload has a fault.
    Payload(ParserError),

    /// The list is shorter than the nodes of the frame.
    TooFew {
        /// How many nodes there are.
        needed: usize,
    },
}

/// Reads the fields of a whole payload: those of a method that are not reserved, each flag one, the properties of a
/// content header that are set, or the three numbers of a protocol header, in the order of the wire. A body and a
/// heartbeat have none. Where `deep`, the node of each table is followed by those of its entries, and of all that lies
/// inside them. What stands in the list behind the nodes is not specified, and nothing of it where an error is returned. No
/// memory is taken, and the time is linear.
#[tactic(auto, using(crate::proofs::Answering::fields_listed, crate::proofs::Answering::fields_needed, crate::proofs::Answering::fields_few, crate::proofs::Answering::fields_length, crate::proofs::Answering::is_whole))]
pub fn read_fields(
    frame_type: AMQPFrameType,
    payload: &[u8],
    deep: bool,
    nodes: &mut [Node],
) -> Result<FieldsRead, FieldsError>
    requires few { length payload.now < 2 ^ 32 }
    ensures same_length { length nodes.new ≡ length nodes.old }
    ensures valid { IfOk result (λ found. IsWhole frame_type payload.now) }
    ensures listed { IfOk result (λ found.
        StandInFront (fields_nodes frame_type deep payload.now) nodes.new found.count) }
    ensures levels { IfOk result (SaysLevels frame_type payload.now) }
    ensures refused { IfErr result (RefusesFields frame_type payload.now deep (length nodes.old)) }

    // What the list needs at most.
    ensures bound { IsWhole frame_type payload.now
        → length (fields_nodes frame_type deep payload.now) ≤ length payload.now }
{
    let raw = AMQPRawFrame {
        frame_type,
        channel_id: 0,
        payload,
    };
    let end = payload.len() as u32;
    let decoded = match decode::<0>(raw, nodes, 0, deep, end) {
        Ok(decoded) => decoded,
        Err(error) => return Err(FieldsError::Payload(error)),
    };
    let count = decoded.count as usize;
    if count > nodes.len() {
        return Err(FieldsError::TooFew { needed: count });
    }
    Ok(FieldsRead {
        count,
        canonical: decoded.judged.canonical,
        tidy: decoded.judged.tidy,
    })
}
