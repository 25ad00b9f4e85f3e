//! Messages of AMQP 0-9-1, put together out of the typed frames of many channels. All that amqp_messages has of messages and
//! their splitting is passed on, and all that amqp_turns has of turns on channels.
#![tactic(auto)]

mod assembler;
mod assembling;
mod bounded;
mod laws;
mod pending;

pub use amqp_messages::{
    Message, Opening, Outcome, equal_messages, equal_openings, equal_outcomes, split,
};
pub use amqp_turns::{
    Channels, ContentFault, Mark, Progress, Tracker, answers_are_steps, channels,
    channels_are_answered, channels_are_apart, equal_content_faults, equal_marks, equal_progress,
    fault, mark, outlines_answer_alike, progress, step, tracker,
};
pub use amqp_types::NoMemory;
pub use assembler::Assembler;
pub use assembling::assemble;
pub use bounded::{BoundedAssembler, Taken};
pub use laws::{interleaved_are_whole, splits_are_whole, taken_is_answered};
