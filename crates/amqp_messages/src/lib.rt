//! Messages of AMQP 0-9-1: the methods that open them, what a whole message holds, how it is split into typed frames, and what
//! becomes of a frame where messages are put together.
#![tactic(auto)]

mod equality;
mod message;
mod opening;
mod outcome;
mod splitting;

pub use equality::{equal_messages, equal_openings, equal_outcomes};
pub use message::Message;
pub use opening::Opening;
pub use outcome::Outcome;
pub use splitting::split;
