//! The law of the stream that is generated, the contract of a function that does nothing.

ghost use Rattle.amqp_stream.specs.Made.{MadeIsASequence};

/// The first frames are a sequence of as many frames.
#[tactic(auto, using(crate::proofs::MadeFrames::all_made))]
pub fn made_is_a_sequence()
    ensures { MadeIsASequence }
{}
