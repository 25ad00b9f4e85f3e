//! An export for each method, by classes. Made by bindings/generate from the rows of amqp_types, and not to be
//! edited.

mod access;
mod basic;
mod channel;
mod confirm;
mod connection;
mod exchange;
mod queue;
mod tx;
