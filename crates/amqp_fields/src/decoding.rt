//! Whole payloads decoded: at which levels they are encoded, and the nodes of their fields.

ghost use Rattle.std.specs.Prelude.{◌≡◌, ◌≢◌, ◌≤◌, length, None, Ok, Err, IfSome};
ghost use Rattle.amqp_types.specs.Methods.{judge_payload, payload_bytes};
ghost use Rattle.amqp_types.specs.Tidiness.{is_tidy_payload};
ghost use Rattle.amqp_wire.specs.Frames.{raw_of};
ghost use Rattle.amqp_wire.specs.Judgements.{JudgesAll, JudgesFrame};
ghost use Rattle.amqp_fields.specs.Finding.{Counts};
ghost use Rattle.amqp_fields.specs.Decoding.{Decodes, HasFault, IsNoMethod};
ghost use Rattle.amqp_fields.specs.Listed.{listed_method};

use crate::fields::list_fields;
use crate::node::Node;
use crate::payloads::list_payload;
use amqp_canonical::{judge_slots, shapes_of};
use amqp_types::ParserError;
use amqp_wire::{AMQPFrameType, AMQPRawFrame, FrameJudgement, judge_frame};

/// What was decoded of a whole payload.
#[derive(Clone, Copy)]
pub(crate) struct Decoded {
    /// At which levels it is encoded.
    pub(crate) judged: FrameJudgement,

    /// How many nodes there are.
    pub(crate) count: u32,
}

/// Decodes a method, and puts its fields after `count` nodes. There is nothing where it has a fault. The table of methods is asked
/// once.
#[inline(always)]
fn decode_method(
    nodes: &mut [Node],
    count: u32,
    deep: bool,
    end: u32,
    payload: &[u8],
) -> Option<Decoded>
    requires within { length payload.now ≤ end }
    ensures judged { IfSome result (λ found.
        JudgesAll judge_payload payload_bytes is_tidy_payload payload.now (Ok found.judged)) }
    ensures counts { IfSome result (λ found.
        Counts (listed_method deep end payload.now) nodes.old count nodes.new found.count) }
    ensures none { result ≡ None → nodes.new ≡ nodes.old }
    ensures faulty { result ≡ None → IsNoMethod payload.now }
{
    match payload {
        [a, b, c, d, fields @ ..] => {
            let class = u16::from_be_bytes([*a, *b]);
            let id = u16::from_be_bytes([*c, *d]);
            match shapes_of(class, id) {
                Some(shapes) => match judge_slots(shapes, fields) {
                    Ok(found) => {
                        if found.used < fields.len() {
                            return None;
                        }
                        let judged = FrameJudgement {
                            canonical: found.canonical,
                            tidy: found.tidy,
                        };
                        let count = list_fields(nodes, count, deep, end, shapes, fields);
                        Some(Decoded { judged, count })
                    }
                    Err(_) => None,
                },
                None => None,
            }
        }
        _ => None,
    }
}

/// Decodes a payload that is no method's, and puts its fields after `count` nodes.
#[inline(always)]
fn decode_other(
    raw: AMQPRawFrame<'_>,
    nodes: &mut [Node],
    count: u32,
    deep: bool,
    end: u32,
) -> Result<Decoded, ParserError>
    requires within { length raw.payload.now ≤ end }
    requires other { raw.frame_type ≢ AMQPFrameType.Method }
    ensures { Decodes (raw_of raw.entry) deep end nodes.old count nodes.new result }
{
    match judge_frame(raw) {
        Ok(judged) => {
            let count = list_payload(nodes, count, raw.frame_type, deep, end, raw.payload);
            Ok(Decoded { judged, count })
        }
        Err(error) => Err(error),
    }
}

/// The fault of a whole payload that has one. Its code is not beside that of the others.
#[cold]
#[inline(never)]
fn fault_of(raw: AMQPRawFrame<'_>) -> ParserError
    requires faulty { HasFault (raw_of raw) }
    ensures { JudgesFrame (raw_of raw.entry) (Err result) }
{
    match judge_frame(raw) {
        Ok(_) => unreachable!(),
        Err(error) => error,
    }
}

/// Decodes a whole payload, and puts the nodes of its fields after `count` others. It ends at the place `end` of the bytes in
/// which spans are counted. Where it has a fault, the list is left. The number says which of its two calls this is: each has
/// code of its own, since what is large is part of a caller only where one place calls it.
#[inline(always)]
#[tactic(auto, using(crate::proofs::PayloadSteps::no_frame), unfolding(crate::specs::Listed::listed_payload))]
pub(crate) fn decode<const CALL: usize>(
    raw: AMQPRawFrame<'_>,
    nodes: &mut [Node],
    count: u32,
    deep: bool,
    end: u32,
) -> Result<Decoded, ParserError>
    requires within { length raw.payload.now ≤ end }
    ensures { Decodes (raw_of raw.entry) deep end nodes.old count nodes.new result }
{
    match raw.frame_type {
        AMQPFrameType::Method => {
            match decode_method(nodes, count, deep, end, raw.payload) {
                Some(found) => Ok(found),
                None => Err(fault_of(raw)),
            }
        }
        AMQPFrameType::ProtocolHeader
        | AMQPFrameType::Header
        | AMQPFrameType::Body
        | AMQPFrameType::Heartbeat => decode_other(raw, nodes, count, deep, end),
    }
}
