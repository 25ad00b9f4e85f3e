//! Typed writers for C: frames, and contents of tables and arrays, put into a caller's buffer from numbers and slices. No
//! call calls back, keeps anything or takes memory.
#![tactic(auto)]

mod entries;
mod frames;
mod methods;
mod no_headers;
mod report;
mod values;

pub use report::PutReport;
