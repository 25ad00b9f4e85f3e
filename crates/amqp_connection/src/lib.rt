//! The methods of the classes connection and access of AMQP 0-9-1.
#![tactic(auto)]

pub mod equality;
mod methods;

pub use equality::{equal_access_methods, equal_connection_methods};
pub use methods::access::access_method_held;
pub use methods::connection::connection_method_held;
pub use methods::{access, connection};
