//! Laws of lines, each the contract of a function that does nothing.

ghost use Rattle.amqp_lines.specs.Dumping.{WritesLines};
ghost use Rattle.amqp_lines.specs.Laws.{EqualLinesAreEqualFrames, EqualTextsAreEqualSequences};
ghost use Rattle.amqp_lines.specs.Laws.{LinesAreBounded, LinesHaveOneNewline};
ghost use Rattle.amqp_lines.specs.UndumpLaws.{CorrespondOneToOne};
ghost use Rattle.amqp_lines.specs.UndumpLaws.{DumpedTextIsReadBack, LinesFitTheLimit};
ghost use Rattle.amqp_lines.specs.UndumpLaws.{OneLongestText};
ghost use Rattle.amqp_lines.specs.UndumpLaws.{StrictFramesAreUsual, UndumpUndoesDump};

/// A line holds one newline, which is its last byte.
#[tactic(auto, using(crate::proofs::Newlines::one_newline))]
pub fn lines_have_one_newline()
    ensures { LinesHaveOneNewline }
{}

/// A line is at most four times as long as the bytes that encode its frame strictly, and 400 bytes: one of a frame within
/// a limit on payloads has at most so many.
#[tactic(auto, using(crate::proofs::LineLengths::lines_bounded))]
pub fn lines_are_bounded()
    ensures { LinesAreBounded }
{}

/// The line of a frame within a limit on payloads has at most 432 bytes and four for each byte of the limit.
pub fn lines_fit_the_limit()
    ensures { LinesFitTheLimit }
{}

/// Two frames that their canonical bytes encode strictly are equal where their lines are.
#[tactic(auto, using(crate::proofs::LinesApart::same_frame))]
pub fn equal_lines_are_equal_frames()
    ensures { EqualLinesAreEqualFrames }
{}

/// Two sequences of such frames are equal where their texts are.
#[tactic(auto, using(crate::proofs::LinesApart::same_sequence))]
pub fn equal_texts_are_equal_sequences()
    ensures { EqualTextsAreEqualSequences }
{}

/// Within a limit, bytes begin with at most one longest text.
pub fn one_longest_text()
    ensures { OneLongestText }
{}

/// What `dump` writes for frames are their lines, one after another, and it refuses none.
#[tactic(auto, using(crate::proofs::Dumps::writes_lines))]
pub fn dump_writes_lines()
    ensures { WritesLines }
{}

/// What `dump` writes for some bytes is, to its end, the text of the frames at their front.
pub fn dumped_text_is_read_back()
    ensures { DumpedTextIsReadBack }
{}

/// Over what `dump` writes for some bytes, `undump` finds no fault, and writes the canonical bytes of the frames at
/// their front.
pub fn undump_undoes_dump()
    ensures { UndumpUndoesDump }
{}

/// Strict bytes and texts correspond one to one.
pub fn bytes_and_texts_correspond()
    ensures { CorrespondOneToOne }
{}

/// A frame that programs hold is encoded strictly by its canonical bytes exactly where it is neither too deep nor long,
/// and no heartbeat on channel 0 that does not belong there.
#[tactic(auto, using(crate::proofs::TextLaws::strict_is_usual))]
pub fn strict_frames_are_usual()
    ensures { StrictFramesAreUsual }
{}
