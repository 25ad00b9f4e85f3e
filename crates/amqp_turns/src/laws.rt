//! Laws of content, each the contract of a function that does nothing.

ghost use Rattle.amqp_wire.specs.Outlines.{outline_of};
ghost use Rattle.amqp_turns.specs.Marks.{itself};
ghost use Rattle.amqp_turns.specs.Outlined.{OutlinesAnswerAlike};
ghost use Rattle.amqp_turns.specs.Laws.{AnswersAreSteps, ChannelsAreAnswered, ChannelsAreApart};

/// The outcomes of the frames of a channel are those of one step after another.
pub fn answers_are_steps()
    ensures frames { AnswersAreSteps outline_of }
    ensures outlines { AnswersAreSteps itself }
{}

/// What frames give is what their outlines give.
pub fn outlines_answer_alike()
    ensures { OutlinesAnswerAlike outline_of }
{}

/// What an assembler gives for the frames of a channel are the outcomes of these frames.
#[tactic(auto, using(crate::proofs::Apart::channels_answered))]
pub fn channels_are_answered()
    ensures { ChannelsAreAnswered }
{}

/// What comes on other channels changes nothing.
#[tactic(auto, using(crate::proofs::Apart::channels_apart))]
pub fn channels_are_apart()
    ensures { ChannelsAreApart }
{}
