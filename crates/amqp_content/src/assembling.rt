//! Messages out of a sequence of frames.

ghost use Rattle.std.specs.Prelude.{◌≡◌, [], map, IfOk};
ghost use Rattle.amqp_frame.specs.Frames.{frame_of};
ghost use Rattle.amqp_content.specs.Outcomes.{outcome_of};
ghost use Rattle.amqp_turns.specs.Sequences.{AreGiven};

use crate::assembler::Assembler;
use amqp_frame::AMQPFrame;
use amqp_messages::Outcome;
use amqp_types::NoMemory;
use std::alloc::Global;

/// Gives frames to a new assembler, and returns what becomes of each.
fn push_all(
    alloc: Global,
    assembler: &mut Assembler,
    frames: Vec<AMQPFrame>,
) -> Result<Vec<Outcome>, NoMemory>
    requires { assembler.old.channels ≡ [] }
    ensures { IfOk result (λ outcomes. AreGiven assembler.old.max_body []
        (map frame_of frames.items) (map outcome_of outcomes.items)) }
{
    let mut outcomes = Vec::new(alloc);
    for frame in frames {
        outcomes.push(assembler.push(frame)?)?;
    }
    Ok(outcomes)
}

/// What becomes of each of some frames, of any channels, in a new assembler.
pub fn assemble(
    alloc: Global,
    max_body: u64,
    frames: Vec<AMQPFrame>,
) -> Result<Vec<Outcome>, NoMemory>
    ensures { IfOk result (λ outcomes.
        AreGiven max_body [] (map frame_of frames.items) (map outcome_of outcomes.items)) }
{
    let mut assembler = Assembler::open(alloc, max_body);
    push_all(alloc, &mut assembler, frames)
}
