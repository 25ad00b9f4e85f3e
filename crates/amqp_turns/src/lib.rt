//! Whose turn it is on a channel of AMQP 0-9-1: units of frames, one frame after another by numbers alone, a value for each
//! channel, and a tracker of many channels.
#![tactic(auto)]

pub mod channels;
mod equality;
pub mod fault;
mod laws;
pub mod mark;
pub mod progress;
pub mod tracker;

pub use amqp_types::NoMemory;
pub use channels::Channels;
pub use equality::{equal_content_faults, equal_marks, equal_progress};
pub use fault::ContentFault;
pub use laws::{
    answers_are_steps, channels_are_answered, channels_are_apart, outlines_answer_alike,
};
pub use mark::Mark;
pub use progress::{Progress, step};
pub use tracker::Tracker;
