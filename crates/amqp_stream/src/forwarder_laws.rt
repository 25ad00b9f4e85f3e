//! Laws of calls that go on, each the contract of a function that does nothing.

ghost use Rattle.amqp_stream.specs.Forwarding.{PiecesAreWhole};
ghost use Rattle.amqp_stream.specs.Resuming.{RunsAddUp};

use crate::frame_writer::FrameWriter;

/// Fed in pieces, whatever they are, bytes give what they give at once.
#[tactic(auto, using(crate::proofs::Forwarding::pieces_are_whole))]
pub fn pieces_are_whole()
    ensures { PiecesAreWhole }
{}

/// Two runs one after another are one run, with both read budgets, where the first has spent its own.
pub fn runs_add_up<W: FrameWriter>()
    ensures { RunsAddUp W.manner }
{}
