//! The methods of the class exchange of AMQP 0-9-1. They are a crate of their own so that no crate
//! takes long to prove; users reach them by `amqp_topology`.
#![tactic(auto)]

pub mod equality;
pub mod exchange;

pub use equality::equal_exchange_methods;
pub use exchange::exchange_method_held;
