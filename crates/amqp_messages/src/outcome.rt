//! What an assembler gives for a frame.

ghost use Rattle.std.specs.Prelude.{◌≡◌, IfOk};

use crate::message::Message;
use amqp_frame::AMQPFrame;
use amqp_turns::ContentFault;
use amqp_types::NoMemory;
use std::alloc::Global;

/// What becomes of a frame.
#[derive(Debug, Drop, PartialEq)]
pub enum Outcome {
    /// The frame belongs to no message, and comes back.
    Passed(AMQPFrame),

    /// The frame is part of a message that is not complete.
    Held,

    /// The frame completes this message.
    Done(Message),

    /// The frame is not in turn, and is dropped with what had come of its message.
    Fault(ContentFault),
}

impl Outcome {
    /// A deep copy.
    pub fn copy(&self, alloc: Global) -> Result<Outcome, NoMemory>
        ensures { IfOk result (λ copied. copied ≡ self.now) }
    {
        match self {
            Outcome::Passed(frame) => Ok(Outcome::Passed(frame.copy(alloc)?)),
            Outcome::Held => Ok(Outcome::Held),
            Outcome::Done(message) => Ok(Outcome::Done(message.copy(alloc)?)),
            Outcome::Fault(fault) => Ok(Outcome::Fault(*fault)),
        }
    }
}
