//! Reading what fills a table or an array as nodes, where it stands alone.

ghost use Rattle.std.specs.Prelude.{◌≡◌, ◌≤◌, ◌<◌, ◌^◌, length, IfErr, IfOk};
ghost use Rattle.amqp_canonical.specs.Writes.{IsFilled};
ghost use Rattle.amqp_fields.specs.Contents.{RefusesContent, entries_in, values_in};
ghost use Rattle.amqp_fields.specs.Listed.{entries_nodes, values_nodes};
ghost use Rattle.amqp_fields.specs.Reading.{StandInFront};

use crate::node::Node;
use crate::reading::FieldsError;
use crate::values::{list_entries, list_values};
use amqp_canonical::{judge_entries, judge_values};
use amqp_types::INNER_DEPTH;

/// Reads the content of a table that stands alone, without its length: the nodes of its entries in the order of the wire,
/// each with all that lies inside it. Tables and arrays may nest 63 deep in its values. Returns how many nodes there are. What
/// stands in the list behind them is not specified, and nothing of it where an error is returned.
#[tactic(auto, using(crate::proofs::ContentsFound::judged_fills, crate::proofs::ContentsFound::entries_listed, crate::proofs::ContentsFound::entries_few, crate::proofs::ContentsFound::entries_needed, crate::proofs::ContentsFound::entries_length))]
pub fn read_entries(content: &[u8], nodes: &mut [Node]) -> Result<usize, FieldsError>
    requires few { length content.now < 2 ^ 32 }
    ensures same_length { length nodes.new ≡ length nodes.old }
    ensures valid { IfOk result (λ count. IsFilled (entries_in content.now)) }
    ensures listed { IfOk result (StandInFront (entries_nodes content.now) nodes.new) }
    ensures refused { IfErr result (RefusesContent
        (entries_in content.now) (entries_nodes content.now) (length nodes.old)) }

    // What the list needs at most.
    ensures bound { IsFilled (entries_in content.now)
        → length (entries_nodes content.now) ≤ length content.now }
{
    if let Err(error) = judge_entries(content, INNER_DEPTH) {
        return Err(FieldsError::Payload(error));
    }
    let filled = list_entries(nodes, 0, content.len() as u32, content, INNER_DEPTH);
    let count = filled.count as usize;
    if count > nodes.len() {
        return Err(FieldsError::TooFew { needed: count });
    }
    Ok(count)
}

/// Reads the content of an array that stands alone, without its length: the nodes of its values, as `read_entries` those
/// of entries.
#[tactic(auto, using(crate::proofs::ContentsFound::judged_fills, crate::proofs::ContentsFound::values_listed, crate::proofs::ContentsFound::values_few, crate::proofs::ContentsFound::values_needed, crate::proofs::ContentsFound::values_length))]
pub fn read_values(content: &[u8], nodes: &mut [Node]) -> Result<usize, FieldsError>
    requires few { length content.now < 2 ^ 32 }
    ensures same_length { length nodes.new ≡ length nodes.old }
    ensures valid { IfOk result (λ count. IsFilled (values_in content.now)) }
    ensures listed { IfOk result (StandInFront (values_nodes content.now) nodes.new) }
    ensures refused { IfErr result (RefusesContent
        (values_in content.now) (values_nodes content.now) (length nodes.old)) }

    // What the list needs at most.
    ensures bound { IsFilled (values_in content.now)
        → length (values_nodes content.now) ≤ length content.now }
{
    if let Err(error) = judge_values(content, INNER_DEPTH) {
        return Err(FieldsError::Payload(error));
    }
    let filled = list_values(nodes, 0, content.len() as u32, content, INNER_DEPTH);
    let count = filled.count as usize;
    if count > nodes.len() {
        return Err(FieldsError::TooFew { needed: count });
    }
    Ok(count)
}
