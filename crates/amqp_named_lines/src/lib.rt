//! Typed AMQP 0-9-1 frames as lines of text that a reader needs no table for: the names of a method and of its fields, and then the line
//! of the frame.
#![tactic(auto)]

mod laws;
mod named_lines;
mod names;
#[cfg(test)]
mod tests;

pub use laws::classes_are_named;
pub use named_lines::gen_named_line;
