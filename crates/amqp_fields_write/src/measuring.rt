//! How many bytes frames and contents have that heads and nodes mean, or which head or node is refused first. Nothing is put:
//! this walk says why, where that of `laying` says only that there is a refusal.

ghost use Rattle.std.specs.Prelude.{◌≡◌};
ghost use Rattle.amqp_fields_write.specs.MadeFrames.{made_frames};
ghost use Rattle.amqp_fields_write.specs.Makes.{Measures};
ghost use Rattle.amqp_fields_write.specs.Making.{made_alone};

use crate::measuring_frames::measure_frame;
use crate::measuring_values::measure_each;
use crate::parts::plus;
use crate::refusals::{Refusal, WriteError, WriteRefusal};
use amqp_fields::{Head, Node};
use amqp_types::INNER_DEPTH;

/// The most bytes of a content, which a length of 4 bytes counts.
pub(crate) const LONGEST: usize = u32::MAX as usize;

/// A refusal within the frame of a head.
fn within(head: usize, bad: Refusal) -> WriteError
    ensures { result ≡ WriteError.Refused head bad.node bad.why }
{
    WriteError::Refused {
        head,
        node: bad.node,
        why: bad.why,
    }
}

/// Frames one after another: how many bytes they have, or the greatest number.
#[inline(never)]
pub(crate) fn measure_frames(
    pool: &[u8],
    nodes: &[Node],
    heads: &[Head],
    max_payload: u32,
) -> Result<usize, WriteError>
    ensures { Measures (made_frames pool.now nodes.now max_payload 0 heads.now) result }
{
    let mut count = 0;
    for (place, head) in heads.iter().enumerate() {
        match measure_frame(pool, nodes, head, max_payload) {
            Ok(n) => count = plus(count, n),
            Err(bad) => return Err(within(place, bad)),
        }
    }
    Ok(count)
}

/// Entries, or else values, one after another: how many bytes they have, or that they are too many.
#[inline(never)]
pub(crate) fn measure_content(
    nodes: &[Node],
    pool: &[u8],
    entries: bool,
) -> Result<usize, WriteError>
    ensures { Measures (made_alone entries pool.now nodes.now) result }
{
    match measure_each(pool, nodes.len(), nodes, entries, INNER_DEPTH) {
        Ok(count) => {
            if count > LONGEST {
                return Err(within(0, Refusal::of_head(WriteRefusal::TooLong)));
            }
            Ok(count)
        }
        Err(bad) => Err(within(0, bad)),
    }
}
