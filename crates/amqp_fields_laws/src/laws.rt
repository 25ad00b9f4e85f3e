//! The laws, each the contract of a function that does nothing.

ghost use Rattle.amqp_fields_laws.specs.RoundTrips.{ReadAgainHasSameNodes, ReadIsAccepted};
ghost use Rattle.amqp_fields_laws.specs.SameNodes.{OneFrameHasSameNodes};
ghost use Rattle.amqp_fields_laws.specs.WrittenAgain.{ReadIsWrittenAgain, ReadNodesAreMeant};

/// What was read can be written: the nodes that reading gives of a frame, alone or with all that lies inside them, are fields
/// of this frame by what `write_frames` takes, where their spans are taken out of what was read.
#[tactic(auto, using(crate::proofs::SameNodes::read_meant))]
pub fn read_nodes_are_meant()
    ensures { ReadNodesAreMeant }
{}

/// Nodes of one frame say the same whatever bytes they were read from, where each table is given with all that lies inside it
/// and its keys ascend.
#[tactic(auto, using(crate::proofs::SameNodes::same_nodes))]
pub fn one_frame_has_same_nodes()
    ensures { OneFrameHasSameNodes }
{}

/// Writing accepts what reading gives, at any limit from that of reading on: the heads and nodes of the frames in front of some
/// bytes are written, with these bytes as the pool, to no more bytes than they were read from.
#[tactic(auto, using(crate::proofs::FramesAgain::accepted))]
pub fn read_is_accepted()
    ensures { ReadIsAccepted }
{}

/// What was read, written and canonicalized is what canonicalizing gives: heads and nodes that say the frames in front of some
/// bytes, alone or with all that lies inside tables, are written with these bytes as the pool to bytes that encode the same
/// frames, so that the canonical bytes of both are the same.
#[tactic(auto, using(crate::proofs::HeadsTold::written_again))]
pub fn read_is_written_again()
    ensures { ReadIsWrittenAgain }
{}

/// What was read and written is read again, all of it: as many heads and nodes, which say the same but for their places, in
/// whatever order the keys of tables stand. Where tables were read alone, without their entries, the content of each has the
/// same bytes too.
#[tactic(auto, using(crate::proofs::FramesAgain::read_again))]
pub fn read_again_has_same_nodes()
    ensures { ReadAgainHasSameNodes }
{}
