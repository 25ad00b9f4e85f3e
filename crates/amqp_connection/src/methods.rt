//! The methods, a module for each class.

pub mod access;
pub mod connection;
