//! Tests of filtering: worked streams, ends that fail, memory that is refused, and errors.
#![tactic(auto)]

#[cfg(test)]
mod ends;
#[cfg(test)]
mod rows;
