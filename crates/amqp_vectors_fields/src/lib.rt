//! Tests of fields as nodes: worked payloads and a stream with their nodes, frames made of nodes, lists that are too short, faults and
//! refusals; and of the table of names.
#![tactic(auto)]

#[cfg(test)]
mod frames;
#[cfg(test)]
mod making;
#[cfg(test)]
mod names;
#[cfg(test)]
mod payloads;
