//! AMQP 0-9-1 under one name: typed frames, methods and properties, the types of their fields, messages of many channels, and the
//! names that the standard has for all of them. It passes on crates, and has nothing of its own.
#![tactic(auto)]

pub use amqp_content as content;
pub use amqp_frame as frame;
pub use amqp_names as names;
pub use amqp_protocol as protocol;
pub use amqp_values as types;
