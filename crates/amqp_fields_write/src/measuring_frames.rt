//! How many bytes frames have that heads and nodes mean, or which head or node is refused.
#![tactic(auto, using(crate::proofs::Combined::both_counted, crate::proofs::Combined::counted_after))]

ghost use Rattle.std.specs.Prelude.{◌≡◌, take};
ghost use Rattle.amqp_types.specs.Rows.{rows_of};
ghost use Rattle.amqp_fields_write.specs.Made.{refusal_of_head};
ghost use Rattle.amqp_fields_write.specs.MadeFrames.{are_beyond, given_length};
ghost use Rattle.amqp_fields_write.specs.MadeFrames.{is_given, made_around};
ghost use Rattle.amqp_fields_write.specs.MadeFrames.{made_beat, made_body, made_frame, made_header};
ghost use Rattle.amqp_fields_write.specs.MadeFrames.{made_method, made_payload, made_typed};
ghost use Rattle.amqp_fields_write.specs.MadeFrames.{made_version, unknown_in};
ghost use Rattle.amqp_fields_write.specs.Makes.{Measures, cut_long, given_bytes};
ghost use Rattle.amqp_fields.specs.declared.head.Head.{Head};

use crate::measuring_fields::{measure_properties, measure_slots};
use crate::node_groups::nodes_from;
use crate::parts::{has_no_ids, head_held, nodes_end, nodes_of, plus, span};
use crate::refusals::{Refusal, WriteRefusal};
use amqp_canonical::shapes_of;
use amqp_fields::{Head, Node, TABLE, version_shapes};
use amqp_types::{
    FRAME_BODY, FRAME_HEADER, FRAME_HEARTBEAT, FRAME_METHOD, FieldTag, PROTOCOL_BYTE, ParserError,
};

/// A member of a head is not what it has to be.
fn misfit() -> Refusal
    ensures { result ≡ refusal_of_head WriteRefusal.BadArgument }
{
    Refusal::of_head(WriteRefusal::BadArgument)
}

/// Which of both ids is unknown, where there is no such method.
#[tactic(auto, unfolding(amqp_types::specs::Rows::rows_of))]
fn unknown(class: u16) -> ParserError
    ensures { result ≡ unknown_in (rows_of class) }
{
    match class {
        10 | 20 | 30 | 40 | 50 | 60 | 85 | 90 => ParserError::UnknownMethod,
        _ => ParserError::UnknownClass,
    }
}

/// The payload of a method.
#[tactic(auto, unfolding(crate::specs::MadeFrames::made_method))]
fn measure_method(pool: &[u8], nodes: &[Node], head: &Head) -> Result<usize, Refusal>
    ensures { Measures (made_method pool.now nodes.now head.now) result }
{
    let class = head.class_id;
    let none = Refusal::of_head(WriteRefusal::Payload(unknown(class)));
    let shapes = shapes_of(class, head.method_id).ok_or(none)?;
    if head.body_size != 0 {
        return Err(misfit());
    }
    let own = nodes_of(nodes, head).ok_or(misfit())?;
    let n = measure_slots(pool, nodes_end(head), shapes, own)?;
    Ok(plus(4, n))
}

/// The payload of a content header.
#[tactic(auto, unfolding(crate::specs::MadeFrames::made_header))]
fn measure_header(pool: &[u8], nodes: &[Node], head: &Head) -> Result<usize, Refusal>
    ensures { Measures (made_header pool.now nodes.now head.now) result }
{
    if head.method_id != 0 {
        return Err(misfit());
    }
    let own = nodes_of(nodes, head).ok_or(misfit())?;
    let n = measure_properties(pool, nodes_end(head), own)?;
    Ok(plus(12, n))
}

/// The payload of a body, which stands in the pool.
#[tactic(auto, unfolding(crate::specs::MadeFrames::made_body))]
fn measure_body(pool: &[u8], head: &Head) -> Result<usize, Refusal>
    ensures { Measures (made_body pool.now head.now) result }
{
    if !has_no_ids(head) || head.nodes != 0 {
        return Err(misfit());
    }
    let content = span(pool, head.start, head.length).ok_or(misfit())?;
    Ok(content.len())
}

/// The payload of a heartbeat, which is empty.
#[tactic(auto, unfolding(crate::specs::MadeFrames::made_beat))]
fn measure_beat(head: &Head) -> Result<usize, Refusal>
    ensures { Measures (made_beat head.now) result }
{
    if has_no_ids(head) && head.nodes == 0 {
        Ok(0)
    } else {
        Err(misfit())
    }
}

/// A protocol header: its mark, and three numbers.
#[tactic(auto, unfolding(crate::specs::MadeFrames::made_version))]
fn measure_version(pool: &[u8], nodes: &[Node], head: &Head) -> Result<usize, Refusal>
    ensures { Measures (made_version pool.now nodes.now head.now) result }
{
    if !has_no_ids(head) || head.channel != 0 {
        return Err(misfit());
    }
    let own = nodes_of(nodes, head).ok_or(misfit())?;
    let n = measure_slots(pool, nodes_end(head), version_shapes(), own)?;
    Ok(plus(5, n))
}

/// The payload of a frame that is no protocol header.
#[tactic(auto, unfolding(crate::specs::MadeFrames::made_payload))]
fn measure_payload(pool: &[u8], nodes: &[Node], head: &Head) -> Result<usize, Refusal>
    ensures { Measures (made_payload pool.now nodes.now head.now) result }
{
    match head.frame_type {
        FRAME_METHOD => measure_method(pool, nodes, head),
        FRAME_HEADER => measure_header(pool, nodes, head),
        FRAME_BODY => measure_body(pool, head),
        FRAME_HEARTBEAT => measure_beat(head),
        _ => Err(misfit()),
    }
}

/// Whether the content of a table or an array stands in the pool.
fn is_given(node: &Node) -> bool
    ensures { result ≡ is_given node.now }
{
    let array = FieldTag::FieldArray.to_byte();
    let table = FieldTag::FieldTable.to_byte();
    node.inside == 0 && (node.kind == TABLE || node.kind == array || node.kind == table)
}

/// How many bytes it has there.
fn given_bytes(node: &Node) -> usize
    ensures { result ≡ given_bytes node.now }
{
    if is_given(node) {
        node.length as usize
    } else {
        0
    }
}

/// How many bytes such contents of some nodes have, or the greatest number.
#[tactic(auto, using(crate::proofs::FramesMade::given_next, crate::proofs::FramesMade::given_none))]
fn given_length(nodes: &[Node]) -> usize
    ensures { result ≡ cut_long (given_length nodes.now) }
{
    let mut count = 0;
    for node in nodes {
        count = plus(count, given_bytes(node));
    }
    count
}

/// So many nodes, or fewer where there are no more.
fn first_nodes(nodes: &[Node], count: usize) -> &[Node]
    ensures { result.now ≡ take count nodes.now }
{
    if count < nodes.len() {
        &nodes[..count]
    } else {
        nodes
    }
}

/// Whether those of the nodes of a head have more bytes than its payload may have.
pub(crate) fn are_beyond(nodes: &[Node], head: &Head, max_payload: u32) -> bool
    ensures { result ≡ are_beyond max_payload nodes.now head.now }
{
    let own = first_nodes(nodes_from(nodes, head.first as usize), head.nodes as usize);
    given_length(own) > max_payload as usize
}

/// A frame around its payload.
fn measure_around(
    pool: &[u8],
    nodes: &[Node],
    head: &Head,
    max_payload: u32,
) -> Result<usize, Refusal>
    ensures { Measures (made_around max_payload head.now (made_payload pool.now nodes.now head.now))
        result }
{
    let count = measure_payload(pool, nodes, head)?;
    if count > max_payload as usize {
        return Err(Refusal::of_head(WriteRefusal::TooLarge));
    }
    Ok(count + 8)
}

/// A frame, whose payload has at most so many bytes.
#[tactic(auto, unfolding(crate::specs::MadeFrames::made_frame, crate::specs::MadeFrames::made_typed))]
pub(crate) fn measure_frame(
    pool: &[u8],
    nodes: &[Node],
    head: &Head,
    max_payload: u32,
) -> Result<usize, Refusal>
    ensures { Measures (made_frame pool.now nodes.now max_payload head.now) result }
{
    head_held(head);
    if head.frame_type == PROTOCOL_BYTE {
        return measure_version(pool, nodes, head);
    }
    if are_beyond(nodes, head, max_payload) {
        return Err(Refusal::of_head(WriteRefusal::TooLarge));
    }
    measure_around(pool, nodes, head, max_payload)
}
