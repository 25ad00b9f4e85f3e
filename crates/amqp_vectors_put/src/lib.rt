//! Tests of typed writers: methods, content headers and other frames, entries and values, on bytes that are known by hand.
#![tactic(auto)]

#[cfg(test)]
mod entries;
#[cfg(test)]
mod headers;
#[cfg(test)]
mod methods;
