//! Tests of numbers, strings, flags and errors: worked cases of bytes with what they are read as and
//! written as, and each call once.
#![tactic(auto)]

pub mod asking;
#[cfg(test)]
mod faults;
#[cfg(test)]
mod flags;
#[cfg(test)]
mod growing;
#[cfg(test)]
mod numbers;
#[cfg(test)]
mod strings;
