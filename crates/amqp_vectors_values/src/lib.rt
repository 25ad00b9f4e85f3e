//! Tests of values, arrays and tables: worked cases of bytes with what they are read as and written as,
//! each call once, and memory that is refused.
#![tactic(auto)]

#[cfg(test)]
mod kinds;
#[cfg(test)]
mod nests;
#[cfg(test)]
mod refused;
#[cfg(test)]
mod tables;
