//! Frames, and contents that stand alone, as heads and nodes mean them.

ghost use Rattle.std.specs.Prelude.{◌≡◌, ℕ, List, take};
ghost use Rattle.amqp_types.specs.Tags.{tag_at};
ghost use Rattle.amqp_wire.specs.Frames.{Frame};
ghost use Rattle.amqp_fields_write.specs.Canonical.{AreCanonicalInOrder};
ghost use Rattle.amqp_fields_write.specs.MadeFrames.{made_frames};
ghost use Rattle.amqp_fields_write.specs.Making.{EncodesEntries, EncodesFrames, EncodesValues};
ghost use Rattle.amqp_fields_write.specs.Making.{made_entries, made_values};
ghost use Rattle.amqp_fields_write.specs.Meant.{TellFrames};
ghost use Rattle.amqp_fields.specs.Nodes.{cut};
ghost use Rattle.amqp_c.specs.Making.{EncodesContent, Reports, ReportsMeant};
ghost use Rattle.amqp_c.specs.Making.{all_written, content_made};
ghost use Rattle.amqp_c.specs.Making.{node_number, not_written};
ghost use Rattle.amqp_c.specs.Making.{refusal_status, report_of};

use crate::statuses::{BAD_ARGUMENT, BUFFER_TOO_SMALL, TOO_LONG, decoding_error};
use amqp_fields::{Head, Node};
use amqp_fields_write::{WriteError, WriteRefusal, write_entries, write_frames, write_values};
use amqp_stream::StreamError;
use amqp_types::FieldTag;

/// How many bytes were written, or why none. In C it has 24 bytes and no padding.
#[repr(C)]
#[derive(Clone, Copy, Debug)]
pub struct Written {
    /// How many bytes were written, or at status 40, how many the buffer needs; else 0.
    pub length: u64,

    /// At other statuses than 0 and 40 which head is refused; else 0.
    pub head: u32,

    /// At other statuses than 0 and 40 which one of all nodes is refused, or `NO_NODE` where a head itself is, or a content as a
    /// whole; else 0. Where a field misses, the place behind the last node.
    pub node: u32,

    /// 0 where all is written, 40 where the buffer is too short, or why nothing is.
    pub status: u32,

    /// Kept for later; 0.
    pub unused: u32,
}

/// A place in a list as 4 bytes hold it, or the greatest number that they hold.
fn cut(n: usize) -> u32
    ensures { result ≡ cut n }
{
    if n < u32::MAX as usize {
        n as u32
    } else {
        u32::MAX
    }
}

/// The number of no node.
const NO_NODE: u32 = u32::MAX;

/// The greatest number of a node.
const LAST_NODE: u32 = NO_NODE - 1;

/// Which one of all nodes, as 4 bytes say it.
fn node_number(node: Option<usize>) -> u32
    ensures { result ≡ node_number node }
{
    match node {
        Some(n) => {
            if n < LAST_NODE as usize {
                n as u32
            } else {
                LAST_NODE
            }
        }
        None => NO_NODE,
    }
}

/// The status of a refusal.
fn refusal_status(why: WriteRefusal) -> u8
    ensures { result ≡ refusal_status why }
{
    match why {
        WriteRefusal::BadArgument => BAD_ARGUMENT,
        WriteRefusal::Payload(error) => decoding_error(error).status(),
        WriteRefusal::TooLong => TOO_LONG,
        WriteRefusal::TooLarge => StreamError::TooLarge.status(),
    }
}

/// What is reported where nothing was written.
fn not_written(error: WriteError) -> Written
    ensures { result ≡ not_written error }
{
    match error {
        WriteError::Refused { head, node, why } => Written {
            length: 0,
            head: cut(head),
            node: node_number(node),
            status: refusal_status(why) as u32,
            unused: 0,
        },
        WriteError::TooSmall { needed } => Written {
            length: needed,
            head: 0,
            node: 0,
            status: BUFFER_TOO_SMALL as u32,
            unused: 0,
        },
    }
}

/// What is reported.
fn report(written: Result<usize, WriteError>) -> Written
    ensures { result ≡ report_of written }
{
    match written {
        Ok(count) => Written {
            length: count as u64,
            head: 0,
            node: 0,
            status: 0,
            unused: 0,
        },
        Err(error) => not_written(error),
    }
}

/// Writes the frames that heads and nodes mean at the front of a buffer, one after another. The spans of the nodes, and of bodies,
/// lie in the pool; a payload has at most `max_payload` bytes. Nothing is written but at status 0.
#[tactic(auto, using(crate::proofs::Reported::made_reported, crate::proofs::Reported::frames_encoded, crate::proofs::Reported::frames_canonical, crate::proofs::Reported::meant_reported))]
#[unsafe(no_mangle)]
pub extern "C" fn feksroum_write(
    heads: &[Head],
    nodes: &[Node],
    pool: &[u8],
    max_payload: u32,
    out: &mut [u8],
) -> Written
    ensures written { Reports
        (made_frames pool.now nodes.now max_payload 0 heads.now) out.old out.new result }

    // What is written encodes the frames that heads and nodes mean.
    ensures encoded { (count : ℕ) → result ≡ all_written count
        → EncodesFrames pool.now nodes.now heads.now max_payload out.old out.new count }

    // Where keys ascend and content in the pool is canonical, it is their canonical encoding.
    ensures canonical { (count : ℕ) → result ≡ all_written count
        → AreCanonicalInOrder pool.now nodes.now heads.now (take count out.new) }

    // Whatever frames are meant: nothing is refused but what is too long.
    ensures complete { (frames : List Frame) → TellFrames pool.now nodes.now heads.now frames
        → ReportsMeant pool.now nodes.now max_payload heads.now frames out.new result }
{
    report(write_frames(heads, nodes, pool, max_payload, out))
}

/// The entries of a table.
#[tactic(auto, using(crate::proofs::Reported::made_reported, crate::proofs::Reported::entries_encoded))]
fn put_entries(nodes: &[Node], pool: &[u8], out: &mut [u8]) -> Written
    ensures written { Reports (made_entries pool.now nodes.now) out.old out.new result }
    ensures encoded { (count : ℕ) → result ≡ all_written count
        → EncodesEntries pool.now nodes.now out.old out.new count }
{
    report(write_entries(nodes, pool, out))
}

/// The values of an array.
#[tactic(auto, using(crate::proofs::Reported::made_reported, crate::proofs::Reported::values_encoded))]
fn put_values(nodes: &[Node], pool: &[u8], out: &mut [u8]) -> Written
    ensures written { Reports (made_values pool.now nodes.now) out.old out.new result }
    ensures encoded { (count : ℕ) → result ≡ all_written count
        → EncodesValues pool.now nodes.now out.old out.new count }
{
    report(write_values(nodes, pool, out))
}

/// Writes what fills a table (`kind` is `F`) or an array (`A`) alone, without its length: the nodes are its entries or values. More
/// bytes than 2^32 - 1, which a length of 4 bytes counts, are refused as too long.
#[tactic(auto, using(crate::proofs::Reported::no_content))]
#[unsafe(no_mangle)]
pub extern "C" fn feksroum_write_content(
    kind: u8,
    nodes: &[Node],
    pool: &[u8],
    out: &mut [u8],
) -> Written
    ensures written { Reports
        (content_made (tag_at kind) pool.now nodes.now) out.old out.new result }

    // What is written encodes the entries or values that nodes mean.
    ensures encoded { (count : ℕ) → result ≡ all_written count
        → EncodesContent (tag_at kind) pool.now nodes.now out.old out.new count }
{
    match FieldTag::from_byte(kind) {
        Some(FieldTag::FieldTable) => put_entries(nodes, pool, out),
        Some(FieldTag::FieldArray) => put_values(nodes, pool, out),
        _ => not_written(WriteError::Refused {
            head: 0,
            node: None,
            why: WriteRefusal::BadArgument,
        }),
    }
}
