//! Tests of methods: each method of the eight classes with its bytes, and ids of no class or method.
#![tactic(auto)]

#[cfg(test)]
mod access;
#[cfg(test)]
mod basic;
#[cfg(test)]
mod channel;
#[cfg(test)]
mod confirm;
#[cfg(test)]
mod connection;
#[cfg(test)]
mod exchange;
#[cfg(test)]
mod made;
#[cfg(test)]
mod queue;
#[cfg(test)]
mod rows;
#[cfg(test)]
mod tx;
#[cfg(test)]
mod unknown;
