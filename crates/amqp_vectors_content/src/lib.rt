//! Tests of contents: sequences of frames with their outcomes and marks, messages that are split, many channels, and
//! memory that is refused.
#![tactic(auto)]

#[cfg(test)]
mod assembling;
#[cfg(test)]
mod bounded;
#[cfg(test)]
mod channels;
#[cfg(test)]
mod frames;
#[cfg(test)]
mod outcomes;
#[cfg(test)]
mod reading;
#[cfg(test)]
mod refused;
#[cfg(test)]
mod splitting;
#[cfg(test)]
mod tracking;
