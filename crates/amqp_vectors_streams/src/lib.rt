//! Tests of streams that cross crates: worked cases, hostile cases, ends that fail, the generated stream, names of
//! faults, writers of the tests' own, a proxy, a loop over frames, streams that go on from call to call, readers and
//! writers of the system, a call into a vector, where a stream ended, and memory that is refused.
#![tactic(auto)]

#[cfg(test)]
mod asking;
#[cfg(test)]
mod codec;
pub mod counting;
#[cfg(test)]
mod failing;
#[cfg(test)]
mod faults;
pub mod forwarding;
#[cfg(test)]
mod going_on;
#[cfg(test)]
mod hostile;
#[cfg(test)]
mod made;
#[cfg(test)]
mod proxied;
pub mod proxy;
#[cfg(test)]
mod reading;
#[cfg(test)]
mod refused;
#[cfg(test)]
mod reported;
#[cfg(test)]
mod rows;
#[cfg(test)]
mod system;
#[cfg(test)]
mod tidy;
pub mod vector;
#[cfg(test)]
mod writers;
