//! Tests of turns and of recutting: a value for each channel, worked cases, ends that fail, memory that is refused, and made streams whose messages are
//! assembled by a second way.
#![tactic(auto)]

#[cfg(test)]
mod channels;
#[cfg(test)]
mod made;
#[cfg(test)]
mod rows;
