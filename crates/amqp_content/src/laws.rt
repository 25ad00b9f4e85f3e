//! The laws of messages, each the contract of a function that does nothing.

ghost use Rattle.amqp_content.specs.Laws.{InterleavedAreWhole, SplitsAreWhole, TakenIsAnswered};

/// What `Assembler::push` gives for a frame, and keeps of its channel, is what the frames of the channel so far give and leave,
/// of which it is the last: by the longest prefix of whole units, and one that has begun.
#[tactic(auto, using(crate::proofs::Telling::taken))]
pub fn taken_is_answered()
    ensures { TakenIsAnswered }
{}

/// Messages of a channel that are split into frames come back whole and in order, and no frame is a fault.
pub fn splits_are_whole()
    ensures { SplitsAreWhole }
{}

/// Messages of many channels, each split by a size of its own, come back whole and in the order of their channel, in whatever
/// order the frames of different channels come.
pub fn interleaved_are_whole()
    ensures { InterleavedAreWhole }
{}
