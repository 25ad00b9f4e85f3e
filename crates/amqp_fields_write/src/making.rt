//! Writing frames and contents that heads and nodes mean, without memory. They are made where a refusal does no harm, and
//! then stand in the caller's buffer.

ghost use Rattle.std.specs.Prelude.{◌<◌, ◌^◌, List, Some, take, IfOk};
ghost use Rattle.amqp_types.specs.Levels.{plain};
ghost use Rattle.amqp_types.specs.Values.{Entry, FieldValue};
ghost use Rattle.amqp_wire.specs.Frames.{Frame};
ghost use Rattle.amqp_wire.specs.Spelling.{SpellsFrames};
ghost use Rattle.amqp_fields_write.specs.Canonical.{AreCanonicalInOrder};
ghost use Rattle.amqp_fields_write.specs.MadeFrames.{made_frames};
ghost use Rattle.amqp_fields_write.specs.Quick.{IsWhole, Lays};
ghost use Rattle.amqp_fields_write.specs.Making.{EncodesEntries, EncodesFrames, EncodesUnless};
ghost use Rattle.amqp_fields_write.specs.Making.{EncodesValues, RefusesFirst, RefusesLong};
ghost use Rattle.amqp_fields_write.specs.Making.{SpellsEntries, SpellsValues};
ghost use Rattle.amqp_fields_write.specs.Making.{TellEntries, TellValues};
ghost use Rattle.amqp_fields_write.specs.Making.{Writes, made_alone, made_entries, made_values};
ghost use Rattle.amqp_fields_write.specs.Meant.{TellFrames};

use crate::laying::{Counting, NONE, Putting, Sink, Trying};
use crate::laying_frames::lay_frames;
use crate::laying_values::lay_each;
use crate::measuring::{LONGEST, measure_content, measure_frames};
use crate::refusals::WriteError;
use amqp_fields::{Head, Node};
use amqp_types::{INNER_DEPTH, are_bytes, put_bytes};

/// How many bytes are made beside the buffer of one frame or two, where a refusal leaves nothing: most messages have no more
/// without their bodies.
const FEW: usize = 224;

/// How many heads are made so, and from how many nodes: their bytes are mostly few.
const FEW_HEADS: usize = 2;

const FEW_NODES: usize = 16;

/// The same of some more frames; with so many the frame of the call on the stack needs no probe.
const SOME: usize = 2816;

const SOME_HEADS: usize = 48;

const SOME_NODES: usize = 256;

/// Fills a buffer with frames that have as many bytes.
#[tactic(auto, using(crate::proofs::QuickFrames::whole_laid))]
fn fill_front(front: &mut [u8], pool: &[u8], nodes: &[Node], heads: &[Head], max_payload: u32)
    ensures { IsWhole (made_frames pool.now nodes.now max_payload 0 heads.now)
        front.old front.new }
{
    lay_frames::<Putting>(front, pool, nodes, heads, max_payload);
}

/// Writes frames that are counted first.
#[inline(never)]
fn fill_many(
    out: &mut [u8],
    pool: &[u8],
    nodes: &[Node],
    heads: &[Head],
    max_payload: u32,
) -> Result<usize, WriteError>
    ensures { Writes (made_frames pool.now nodes.now max_payload 0 heads.now)
        out.old out.new result }
{
    let needed = lay_frames::<Counting>(&mut [], pool, nodes, heads, max_payload);
    if needed == NONE {
        return match measure_frames(pool, nodes, heads, max_payload) {
            Ok(needed) => Err(WriteError::TooSmall {
                needed: needed as u64,
            }),
            Err(error) => Err(error),
        };
    }
    if needed > out.len() {
        return Err(WriteError::TooSmall {
            needed: needed as u64,
        });
    }
    fill_front(&mut out[..needed], pool, nodes, heads, max_payload);
    Ok(needed)
}

/// Writes frames that are put beside the buffer first, in one walk, where they have at most N bytes.
#[inline(always)]
fn fill_beside<const N: usize>(
    out: &mut [u8],
    pool: &[u8],
    nodes: &[Node],
    heads: &[Head],
    max_payload: u32,
) -> Result<usize, WriteError>
    requires few { N < 2 ^ 32 }
    ensures { Writes (made_frames pool.now nodes.now max_payload 0 heads.now)
        out.old out.new result }
{
    let mut beside = [0; N];
    let needed = lay_frames::<Trying>(&mut beside, pool, nodes, heads, max_payload);
    if needed > N {
        return fill_many(out, pool, nodes, heads, max_payload);
    }
    if needed > out.len() {
        return Err(WriteError::TooSmall {
            needed: needed as u64,
        });
    }
    put_bytes(out, 0, &beside[..needed]);
    Ok(needed)
}

/// Writes frames, or says why not.
fn fill_frames(
    out: &mut [u8],
    pool: &[u8],
    nodes: &[Node],
    heads: &[Head],
    max_payload: u32,
) -> Result<usize, WriteError>
    ensures { Writes (made_frames pool.now nodes.now max_payload 0 heads.now)
        out.old out.new result }
{
    if heads.len() <= FEW_HEADS && nodes.len() <= FEW_NODES {
        return fill_beside::<FEW>(out, pool, nodes, heads, max_payload);
    }
    if heads.len() <= SOME_HEADS && nodes.len() <= SOME_NODES {
        return fill_beside::<SOME>(out, pool, nodes, heads, max_payload);
    }
    fill_many(out, pool, nodes, heads, max_payload)
}

/// Writes the frames that heads and nodes mean, one after another, and returns how many bytes they have. Reserved fields
/// stand at their constants, and entries in the order of their nodes. Spans lie in the pool. A table or an array is its nodes,
/// or where nothing lies inside it, content that stands in the pool as bytes: what is written is canonical where the keys of
/// each table ascend and such content is canonical (`canonical_where_keys_ascend`). The first head or node that is refused is
/// said, from left to right, and then nothing is written. No memory is taken, and the time is linear.
#[tactic(auto, using(crate::proofs::Encoding::frames_encoded, crate::proofs::Encoding::frames_complete, crate::proofs::Encoding::frames_canonical))]
pub fn write_frames(
    heads: &[Head],
    nodes: &[Node],
    pool: &[u8],
    max_payload: u32,
    out: &mut [u8],
) -> Result<usize, WriteError>
    ensures made { Writes
        (made_frames pool.now nodes.now max_payload 0 heads.now) out.old out.new result }
    ensures encoded { IfOk result
        (EncodesFrames pool.now nodes.now heads.now max_payload out.old out.new) }

    // Where keys ascend and content in the pool is canonical, what is written is canonical.
    ensures canonical { IfOk result (λ count.
        AreCanonicalInOrder pool.now nodes.now heads.now (take count out.new)) }

    // Whatever frames are meant: these are encoded, or the first head is refused whose payload has more than `max_payload`
    // bytes, or of whose nodes one holds 2^32 bytes or more.
    ensures complete { (frames : List Frame) → TellFrames pool.now nodes.now heads.now frames
        → EncodesUnless (RefusesFirst plain pool.now nodes.now max_payload 0 heads.now frames)
        (SpellsFrames plain (Some max_payload)) frames out.new result }
{
    are_bytes(pool);
    fill_frames(out, pool, nodes, heads, max_payload)
}

/// Entries, or else values, one after another, from the front of a buffer on. Returns how many bytes they have; none where one is
/// refused, or they are too many, or the buffer has no room.
fn lay_content<S: Sink>(buf: &mut [u8], nodes: &[Node], pool: &[u8], entries: bool) -> usize
    ensures { Lays S.tests S.puts (made_alone entries pool.now nodes.now) buf.old buf.new 0 result }
{
    let made = lay_each::<S>(
        buf,
        0,
        pool,
        nodes.len(),
        nodes,
        entries,
        INNER_DEPTH,
        LONGEST,
    );
    if made > LONGEST {
        return NONE;
    }
    made
}

/// Fills a buffer with entries, or else values, that have as many bytes.
#[tactic(auto, using(crate::proofs::QuickFrames::whole_laid))]
fn fill_content_front(front: &mut [u8], nodes: &[Node], pool: &[u8], entries: bool)
    ensures { IsWhole (made_alone entries pool.now nodes.now) front.old front.new }
{
    lay_content::<Putting>(front, nodes, pool, entries);
}

/// Writes entries, or else values, or says why not. They are counted first.
fn fill_content(
    out: &mut [u8],
    nodes: &[Node],
    pool: &[u8],
    entries: bool,
) -> Result<usize, WriteError>
    ensures { Writes (made_alone entries pool.now nodes.now) out.old out.new result }
{
    let needed = lay_content::<Counting>(&mut [], nodes, pool, entries);
    if needed == NONE {
        return match measure_content(nodes, pool, entries) {
            Ok(needed) => Err(WriteError::TooSmall {
                needed: needed as u64,
            }),
            Err(error) => Err(error),
        };
    }
    if needed > out.len() {
        return Err(WriteError::TooSmall {
            needed: needed as u64,
        });
    }
    fill_content_front(&mut out[..needed], nodes, pool, entries);
    Ok(needed)
}

/// Writes the content of a table alone, without its length: the entries that nodes mean, in their order. Tables and arrays
/// may nest 63 deep in their values. More bytes than a length of 4 bytes counts are refused as too long.
#[tactic(auto, using(crate::proofs::Encoding::entries_encoded, crate::proofs::Encoding::entries_complete))]
pub fn write_entries(nodes: &[Node], pool: &[u8], out: &mut [u8]) -> Result<usize, WriteError>
    ensures made { Writes (made_entries pool.now nodes.now) out.old out.new result }
    ensures encoded { IfOk result (EncodesEntries pool.now nodes.now out.old out.new) }
    ensures complete { (entries : List Entry) → TellEntries pool.now nodes.now entries
        → EncodesUnless
        (RefusesLong (λ content. SpellsEntries content entries) pool.now nodes.now)
        SpellsEntries entries out.new result }
{
    are_bytes(pool);
    fill_content(out, nodes, pool, true)
}

/// Writes the content of an array alone, without its length: the values that nodes mean, whose keys are not looked at.
#[tactic(auto, using(crate::proofs::Encoding::values_encoded, crate::proofs::Encoding::values_complete))]
pub fn write_values(nodes: &[Node], pool: &[u8], out: &mut [u8]) -> Result<usize, WriteError>
    ensures made { Writes (made_values pool.now nodes.now) out.old out.new result }
    ensures encoded { IfOk result (EncodesValues pool.now nodes.now out.old out.new) }
    ensures complete { (values : List FieldValue) → TellValues pool.now nodes.now values
        → EncodesUnless
        (RefusesLong (λ content. SpellsValues content values) pool.now nodes.now)
        SpellsValues values out.new result }
{
    are_bytes(pool);
    fill_content(out, nodes, pool, false)
}
