//! The methods of the class basic of AMQP 0-9-1, which carry messages.
#![tactic(auto)]

pub mod basic;
pub mod equality;

pub use basic::basic_method_held;
pub use equality::equal_basic_methods;
