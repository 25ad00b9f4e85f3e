//! The methods of the classes channel, tx and confirm of AMQP 0-9-1.
#![tactic(auto)]

pub mod equality;
mod methods;

pub use equality::{equal_channel_methods, equal_confirm_methods, equal_tx_methods};
pub use methods::channel::channel_method_held;
pub use methods::confirm::confirm_method_held;
pub use methods::tx::tx_method_held;
pub use methods::{channel, confirm, tx};
