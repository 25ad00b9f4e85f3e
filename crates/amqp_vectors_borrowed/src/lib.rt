//! Tests of what is decoded and written where it stands, without memory: payloads, fields, tables and values, what is
//! borrowed from them, and the codec of borrowed frames.
#![tactic(auto)]

#[cfg(test)]
mod frames;
#[cfg(test)]
mod judging;
#[cfg(test)]
mod parts;
#[cfg(test)]
mod payloads;
#[cfg(test)]
mod sameness;
#[cfg(test)]
mod slots;
#[cfg(test)]
mod streams;
#[cfg(test)]
mod tables;
#[cfg(test)]
mod values;
#[cfg(test)]
mod writing;
