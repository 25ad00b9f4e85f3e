//! Tests of error codes, Close methods, login strings and properties: worked cases with what they are read as and
//! written as, and memory that is refused.
#![tactic(auto)]

#[cfg(test)]
mod errors;
#[cfg(test)]
mod logins;
#[cfg(test)]
mod properties;
#[cfg(test)]
mod refused;
#[cfg(test)]
mod version;
