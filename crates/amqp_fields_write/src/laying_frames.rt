//! Frames that heads and nodes mean, counted or put in the walk of `laying`.

ghost use Rattle.std.specs.Prelude.{◌≡◌};
ghost use Rattle.amqp_wire.specs.Spelling.{head as frame_front};
ghost use Rattle.amqp_fields_write.specs.MadeFrames.{header_front, made_beat};
ghost use Rattle.amqp_fields_write.specs.MadeFrames.{made_body, made_frame};
ghost use Rattle.amqp_fields_write.specs.MadeFrames.{made_frames, made_header, made_method};
ghost use Rattle.amqp_fields_write.specs.MadeFrames.{made_payload, made_typed, made_version};
ghost use Rattle.amqp_fields_write.specs.Quick.{Encloses, Lays, LaysBytes, LaysUntil};

use crate::laying::{NONE, Sink, lay, lay_bytes};
use crate::laying_fields::{lay_properties, lay_slots};
use crate::parts::{has_no_ids, has_room, head_held, id_bytes, nodes_end, nodes_of, plus, span};
use amqp_canonical::shapes_of;
use amqp_fields::{Head, Node, version_shapes};
use amqp_types::{
    FRAME_BODY, FRAME_END, FRAME_HEADER, FRAME_HEARTBEAT, FRAME_METHOD, PROTOCOL_BYTE, put_bytes,
    put_long_long_uint, put_long_uint, put_short_uint,
};

/// The payload of a method.
#[inline(always)]
#[tactic(auto, unfolding(crate::specs::MadeFrames::made_method))]
fn lay_method<S: Sink>(
    buf: &mut [u8],
    at: usize,
    pool: &[u8],
    nodes: &[Node],
    head: &Head,
    limit: usize,
) -> usize
    ensures { LaysUntil S.tests S.puts limit
        (made_method pool.now nodes.now head.now) buf.old buf.new at result }
{
    let shapes = match shapes_of(head.class_id, head.method_id) {
        Some(shapes) => shapes,
        None => return NONE,
    };
    if head.body_size != 0 {
        return NONE;
    }
    let own = match nodes_of(nodes, head) {
        Some(own) => own,
        None => return NONE,
    };
    let end = nodes_end(head);
    let front = lay::<S>(buf, at, &id_bytes(head));
    lay_slots::<S, 0>(buf, front, pool, end, shapes, own, limit)
}

/// What stands in front of the properties of a content header.
#[inline(always)]
fn lay_front<S: Sink>(buf: &mut [u8], at: usize, head: &Head) -> usize
    ensures { LaysBytes S.tests S.puts (header_front head.now) buf.old buf.new at result }
{
    if !S::is_putting() {
        return plus(at, 12);
    }
    if !has_room(buf.len(), at, 12) {
        return NONE;
    }
    let weight_at = put_short_uint(buf, at, &head.class_id);
    let size_at = put_short_uint(buf, weight_at, &0);
    put_long_long_uint(buf, size_at, &head.body_size)
}

/// The payload of a content header, with a weight of 0.
#[inline(always)]
#[tactic(auto, unfolding(crate::specs::MadeFrames::made_header))]
fn lay_header<S: Sink>(
    buf: &mut [u8],
    at: usize,
    pool: &[u8],
    nodes: &[Node],
    head: &Head,
    limit: usize,
) -> usize
    ensures { LaysUntil S.tests S.puts limit
        (made_header pool.now nodes.now head.now) buf.old buf.new at result }
{
    if head.method_id != 0 {
        return NONE;
    }
    let own = match nodes_of(nodes, head) {
        Some(own) => own,
        None => return NONE,
    };
    let end = nodes_end(head);
    let front = lay_front::<S>(buf, at, head);
    lay_properties::<S>(buf, front, pool, end, own, limit)
}

/// The payload of a body, which stands in the pool.
#[inline(always)]
#[tactic(auto, unfolding(crate::specs::MadeFrames::made_body))]
fn lay_body<S: Sink>(buf: &mut [u8], at: usize, pool: &[u8], head: &Head) -> usize
    ensures { Lays S.tests S.puts (made_body pool.now head.now) buf.old buf.new at result }
{
    if !has_no_ids(head) || head.nodes != 0 {
        return NONE;
    }
    match span(pool, head.start, head.length) {
        Some(content) => lay_bytes::<S>(buf, at, content),
        None => NONE,
    }
}

/// The payload of a heartbeat, which is empty.
#[inline(always)]
#[tactic(auto, unfolding(crate::specs::MadeFrames::made_beat))]
fn lay_beat<S: Sink>(buf: &mut [u8], at: usize, head: &Head) -> usize
    ensures { Lays S.tests S.puts (made_beat head.now) buf.old buf.new at result }
{
    if !has_no_ids(head) || head.nodes != 0 {
        return NONE;
    }
    lay::<S>(buf, at, &[])
}

/// A protocol header: its mark, and three numbers.
#[inline(never)]
#[tactic(auto, unfolding(crate::specs::MadeFrames::made_version))]
fn lay_version<S: Sink>(
    buf: &mut [u8],
    at: usize,
    pool: &[u8],
    nodes: &[Node],
    head: &Head,
) -> usize
    ensures { Lays S.tests S.puts (made_version pool.now nodes.now head.now)
        buf.old buf.new at result }
{
    if !has_no_ids(head) || head.channel != 0 {
        return NONE;
    }
    let own = match nodes_of(nodes, head) {
        Some(own) => own,
        None => return NONE,
    };
    let end = nodes_end(head);
    let mark = lay::<S>(buf, at, b"AMQP\0");
    lay_slots::<S, 1>(buf, mark, pool, end, version_shapes(), own, NONE)
}

/// The payload of a frame that is no protocol header. Contents in it that stand in the pool do not go beyond a limit.
#[inline(always)]
#[tactic(auto, unfolding(crate::specs::MadeFrames::made_payload))]
fn lay_payload<S: Sink>(
    buf: &mut [u8],
    at: usize,
    pool: &[u8],
    nodes: &[Node],
    head: &Head,
    limit: usize,
) -> usize
    ensures { LaysUntil S.tests S.puts limit
        (made_payload pool.now nodes.now head.now) buf.old buf.new at result }
{
    match head.frame_type {
        FRAME_METHOD => lay_method::<S>(buf, at, pool, nodes, head, limit),
        FRAME_HEADER => lay_header::<S>(buf, at, pool, nodes, head, limit),
        FRAME_BODY => lay_body::<S>(buf, at, pool, head),
        FRAME_HEARTBEAT => lay_beat::<S>(buf, at, head),
        _ => NONE,
    }
}

/// Type, channel and length.
#[inline(always)]
fn lay_head<S: Sink>(buf: &mut [u8], at: usize, frame_type: u8, channel: u16, n: u32) -> usize
    ensures { LaysBytes S.tests S.puts
        (frame_front frame_type channel n) buf.old buf.new at result }
{
    if !S::is_putting() {
        return plus(at, 7);
    }
    if !has_room(buf.len(), at, 7) {
        return NONE;
    }
    let channel_at = put_bytes(buf, at, &[frame_type]);
    let length_at = put_short_uint(buf, channel_at, &channel);
    put_long_uint(buf, length_at, &n)
}

/// Type, channel and length in front of a payload that was made from a place to another one, and the end byte after it.
#[inline(always)]
fn enclose<S: Sink>(
    buf: &mut [u8],
    at: usize,
    head: &Head,
    start: usize,
    end: usize,
    max_payload: u32,
) -> usize
    ensures { Encloses S.tests S.puts head.now.frame_type head.now.channel
        start end max_payload buf.old buf.new at result }
{
    let n = end.saturating_sub(start);
    if n > max_payload as usize {
        return NONE;
    }
    if lay_head::<S>(buf, at, head.frame_type, head.channel, n as u32) == NONE {
        return NONE;
    }
    lay::<S>(buf, end, &[FRAME_END])
}

/// A frame, by its type.
#[inline(always)]
#[tactic(auto, unfolding(crate::specs::MadeFrames::made_typed))]
fn lay_typed<S: Sink>(
    buf: &mut [u8],
    at: usize,
    pool: &[u8],
    nodes: &[Node],
    head: &Head,
    max_payload: u32,
) -> usize
    ensures { Lays S.tests S.puts (made_typed pool.now nodes.now max_payload head.now)
        buf.old buf.new at result }
{
    if head.frame_type == PROTOCOL_BYTE {
        return lay_version::<S>(buf, at, pool, nodes, head);
    }
    let start = plus(at, 7);
    let limit = plus(start, max_payload as usize);
    let end = lay_payload::<S>(buf, start, pool, nodes, head, limit);
    enclose::<S>(buf, at, head, start, end, max_payload)
}

/// A frame, whose payload has at most so many bytes.
#[inline(always)]
#[tactic(auto, unfolding(crate::specs::MadeFrames::made_frame))]
fn lay_frame<S: Sink>(
    buf: &mut [u8],
    at: usize,
    pool: &[u8],
    nodes: &[Node],
    head: &Head,
    max_payload: u32,
) -> usize
    ensures { Lays S.tests S.puts (made_frame pool.now nodes.now max_payload head.now)
        buf.old buf.new at result }
{
    head_held(head);
    lay_typed::<S>(buf, at, pool, nodes, head, max_payload)
}

/// Frames one after another, from the front of a buffer on. Returns how many bytes they have; none where one is refused, or the
/// buffer has no room.
#[inline(never)]
pub(crate) fn lay_frames<S: Sink>(
    buf: &mut [u8],
    pool: &[u8],
    nodes: &[Node],
    heads: &[Head],
    max_payload: u32,
) -> usize
    ensures { Lays S.tests S.puts (made_frames pool.now nodes.now max_payload 0 heads.now)
        buf.old buf.new 0 result }
{
    let mut made = 0;
    for head in heads {
        made = lay_frame::<S>(buf, made, pool, nodes, head, max_payload);
    }
    made
}
