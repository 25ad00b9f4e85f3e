//! AMQP 0-9-1 streams whose messages have their bodies cut anew.
#![tactic(auto)]

mod laws;
mod message;
mod pieces;
mod recutter;
mod recutting;

pub use amqp_in_turn::{TurnError as RecutError, equal_turn_errors as equal_recut_errors};
pub use laws::{bodies_are_cut, last_size_counts, messages_stay};
pub use recutting::{recut, recut_reported};
