//! AMQP 0-9-1 streams of which whole messages are kept or dropped by rules.
#![tactic(auto)]

mod asked_rules;
mod filtering;
mod laws;
mod message_filter;
mod messages;

pub use amqp_in_turn::{TurnError as FilterError, equal_turn_errors as equal_filter_errors};
pub use filtering::{filter, filter_reported};
pub use laws::{all_is_written, channels_select_alike, twice_is_once, units_are_kept};
