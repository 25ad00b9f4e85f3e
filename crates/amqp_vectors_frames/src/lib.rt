//! Tests of frames: worked cases of bytes with what they are read as and written as, each call once, and
//! memory that is refused.
#![tactic(auto)]

#[cfg(test)]
mod answered;
pub mod answering;
#[cfg(test)]
mod faults;
#[cfg(test)]
mod outlines;
#[cfg(test)]
mod parts;
#[cfg(test)]
mod payloads;
#[cfg(test)]
mod refused;
#[cfg(test)]
mod rewriting;
#[cfg(test)]
mod samples;
#[cfg(test)]
mod tidiness;
#[cfg(test)]
mod too_deep;
#[cfg(test)]
mod worked;
