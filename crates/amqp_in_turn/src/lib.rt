//! AMQP 0-9-1 streams whose frames have to be in turn on their channels: why one was not written to its end.
#![tactic(auto)]

mod equality;
mod errors;
mod open_messages;

pub use equality::equal_turn_errors;
pub use errors::{Refusal, TurnError, as_turned, as_turned_report};
pub use open_messages::OpenMessages;
