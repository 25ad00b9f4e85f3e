//! The methods of the class queue of AMQP 0-9-1, and those of the class exchange from `amqp_exchange`.
#![tactic(auto)]

pub mod equality;
pub mod queue;

pub use amqp_exchange::{equal_exchange_methods, exchange, exchange_method_held};
pub use equality::equal_queue_methods;
pub use queue::queue_method_held;
