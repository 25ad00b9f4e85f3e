//! Tests of the text form: frames as lines, lines that are read back, ends that fail, and memory that is refused.
#![tactic(auto)]

#[cfg(test)]
mod dumping;
#[cfg(test)]
mod frames;
#[cfg(test)]
mod method_rows;
#[cfg(test)]
mod one_line;
#[cfg(test)]
mod refused;
#[cfg(test)]
mod reported;
#[cfg(test)]
mod undumping;
