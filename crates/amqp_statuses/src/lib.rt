//! The statuses with which programs end and calls return: number, name and sentence of each.
#![tactic(auto)]

mod equality;
mod status;

pub use equality::equal_statuses;
pub use status::Status;
