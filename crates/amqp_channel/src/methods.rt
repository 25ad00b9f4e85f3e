//! The methods, a module for each class.

pub mod channel;
pub mod confirm;
pub mod tx;
