//! Laws of frames and sequences, each the contract of a function that changes nothing.

ghost use Rattle.amqp_wire.specs.Laws.{OneMeaning, NoFrameBeginsAnother, VerdictsAreSpellings};
ghost use Rattle.amqp_wire.specs.Laws.{VerdictsAreStable, LevelsNest, OneCanonicalSpelling};
ghost use Rattle.amqp_wire.specs.Laws.{EqualBytesAreEqualFrames, CanonicalBytesReadBack};
ghost use Rattle.amqp_wire.specs.Laws.{CanonicalBytesAreShortest, FrontIsLongest};
ghost use Rattle.amqp_wire.specs.Laws.{WrittenAgain, HeaderScanIsItsParts};

/// No bytes encode two sequences of frames.
#[tactic(auto, using(crate::proofs::Sequences::one_sequence))]
pub fn one_meaning()
    ensures { OneMeaning }
{}

/// No encoding of a frame begins another.
#[tactic(auto, using(crate::proofs::Sequences::no_frame_begins))]
pub fn no_frame_begins_another()
    ensures { NoFrameBeginsAnother }
{}

/// A verdict is a frame exactly where the first bytes encode it.
#[tactic(auto, using(crate::proofs::Sequences::verdict_exact))]
pub fn verdicts_are_spellings()
    ensures { VerdictsAreSpellings }
{}

/// A verdict other than incomplete stays, whatever follows.
pub fn verdicts_are_stable()
    ensures { VerdictsAreStable }
{}

/// What is strict is tidy, and what is tidy is plain.
#[tactic(auto, using(crate::proofs::Strictness::levels_nest))]
pub fn levels_nest()
    ensures { LevelsNest }
{}

/// What was decoded has one strict encoding, its canonical bytes, within the same limit.
#[tactic(auto, using(crate::proofs::Strictness::one_strict))]
pub fn one_canonical_spelling()
    ensures { OneCanonicalSpelling }
{}

/// Two sequences have equal canonical bytes exactly where they are the same frames.
#[tactic(auto, using(crate::proofs::Strictness::same_frames))]
pub fn equal_bytes_are_equal_frames()
    ensures { EqualBytesAreEqualFrames }
{}

/// Canonical bytes are decoded to the frame that they were written for, but that `InvalidHeartbeat(0)` is decoded to
/// `Heartbeat`.
#[tactic(auto, using(crate::proofs::ReadingBack::reads_back))]
pub fn canonical_bytes_read_back()
    ensures { CanonicalBytesReadBack }
{}

/// Canonical bytes are as short as any encoding of the same frames.
#[tactic(auto, using(crate::proofs::Strictness::sequence_shortest))]
pub fn canonical_bytes_are_shortest()
    ensures { CanonicalBytesAreShortest }
{}

/// The front of some bytes is the longest sequence that they begin with, and the place is what follows.
#[tactic(auto, using(crate::proofs::Sequences::longest_sequence))]
pub fn front_is_longest()
    ensures { FrontIsLongest }
{}

/// What was written, given again, is decoded whole and written as itself.
pub fn written_again()
    ensures { WrittenAgain }
{}

/// The header scan without a limit is a type byte, and after it a version or a raw frame.
#[tactic(auto, using(crate::proofs::Parts::scan_parts))]
pub fn header_scan_is_its_parts()
    ensures { HeaderScanIsItsParts }
{}
