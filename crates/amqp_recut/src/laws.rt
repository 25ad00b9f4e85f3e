//! Laws of recutting, each the contract of a function that does nothing.

ghost use Rattle.amqp_recut.specs.Laws.{StaysInTurn, MessagesStay, BodiesAreCut};
ghost use Rattle.amqp_recut.specs.Laws.{CutBodiesStay, TwiceIsOnce, LastSizeCounts};

/// Frames in turn are in turn after recutting, and each channel has the same messages.
pub fn messages_stay()
    ensures turn { StaysInTurn }
    ensures messages { MessagesStay }
{}

/// Each body has the size, or is its message's last; and such bodies are cut no further.
pub fn bodies_are_cut()
    ensures cut { BodiesAreCut }
    ensures stay { CutBodiesStay }
{}

/// Recutting twice by one size is recutting once; and where no content is open at the end, the last of two sizes counts
/// alone.
pub fn last_size_counts()
    ensures twice { TwiceIsOnce }
    ensures last { LastSizeCounts }
{}
