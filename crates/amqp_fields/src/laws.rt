//! Laws of heads and nodes that are read.

ghost use Rattle.amqp_fields.specs.Laws.{HeadsSayTheFront, LastEntriesWin};
ghost use Rattle.amqp_fields.specs.Laws.{ListedNodesMean, SpansLieWithin};

/// The nodes that are listed are those of what the bytes encode: a node for each field of the frame, in the order of the wire, and
/// for each entry or value the nodes of all that lies inside it.
pub fn listed_nodes_mean()
    ensures { ListedNodesMean }
{}

/// Of duplicate keys the last one wins: a map that is filled with the entries of a table in the order of their nodes is
/// the table.
pub fn last_entries_win()
    ensures { LastEntriesWin }
{}

/// Spans lie in their own frame: the span and the key of each node of a head lie in the payload of that head, an empty string
/// where it stands, and those of what lies inside a table or an array in its span.
pub fn spans_lie_within()
    ensures { SpansLieWithin }
{}

/// The frames that heads say, one after another, are those in front of the bytes; where none is in front of what is left, they
/// are all.
#[tactic(auto, using(crate::proofs::FramesGiven::heads_front))]
pub fn heads_say_the_front()
    ensures { HeadsSayTheFront }
{}
