//! A law of canonical output, as the contract of a function that does nothing.

ghost use Rattle.amqp_stream.specs.Canonicalizing.{EqualOutputIsEqualFrames};

/// What is written for two sequences of frames is equal exactly where they encode the same frames.
#[tactic(auto, using(crate::proofs::Apart::equal_output))]
pub fn equal_output_is_equal_frames()
    ensures { EqualOutputIsEqualFrames }
{}
