//! The methods of all classes, the errors that peers close with, and how clients log in.
#![tactic(auto)]

pub mod basic;
mod class;
mod closing;
pub mod constants;
mod credentials;
mod equality;
mod errors;
mod laws;
pub mod metadata;

pub use amqp_channel::{channel, confirm, tx};
pub use amqp_connection::{access, connection};
pub use amqp_topology::{exchange, queue};
pub use class::{AMQPClass, gen_class, parse_class, put_class, size_class};
pub use credentials::{AMQPUserInfo, Credentials, SASLMechanism};
pub use equality::{
    equal_classes, equal_credentials, equal_error_kinds, equal_errors, equal_hard_errors,
    equal_mechanisms, equal_soft_errors, equal_user_infos,
};
pub use errors::{AMQPError, AMQPErrorKind, AMQPHardError, AMQPSoftError};
pub use laws::{
    class_held, codes_name_errors, frame_numbers, nesting_numbers, payloads_begin_with_ids,
    plain_logins_name_credentials, protocol_name, protocol_numbers, reply_numbers, tag_numbers,
};

/// The properties of a message, which its content header carries (AMQP 0-9-1, section 4.2.6.1).
pub type BasicProperties = basic::AMQPProperties;
