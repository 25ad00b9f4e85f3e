//! Laws of heads and nodes that are written.

ghost use Rattle.amqp_fields_write.specs.WritingLaws.{CanonicalWhereKeysAscend, HeadsMeanOne};

/// Heads and nodes that are written mean one sequence of frames.
#[tactic(auto, using(crate::proofs::Encoding::heads_mean_one))]
pub fn heads_mean_one()
    ensures { HeadsMeanOne }
{}

/// What is written is canonical where the keys of each table ascend: where they do in each table that nodes give, and content
/// that stands in the pool as bytes is canonical, what is written is the canonical bytes of the frames that heads and nodes mean.
#[tactic(auto, using(crate::proofs::Encoding::canonical_made))]
pub fn canonical_where_keys_ascend()
    ensures { CanonicalWhereKeysAscend }
{}
