//! Tests of selection: rules of words, the frames that they keep, and memory that is refused.
#![tactic(auto)]

#[cfg(test)]
mod refused;
#[cfg(test)]
mod rules;
#[cfg(test)]
mod selecting;
