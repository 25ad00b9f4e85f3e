//! Frames, tables and arrays written from heads and nodes, without memory: their canonical encoding, or the first refusal.
#![tactic(auto)]

mod equality;
mod laws;
mod laying;
mod laying_fields;
mod laying_frames;
mod laying_values;
mod making;
mod measuring;
mod measuring_fields;
mod measuring_frames;
mod measuring_values;
mod node_groups;
mod parts;
mod refusals;

pub use equality::{equal_write_errors, equal_write_refusals};
pub use laws::{canonical_where_keys_ascend, heads_mean_one};
pub use making::{write_entries, write_frames, write_values};
pub use refusals::{Refusal, WriteError, WriteRefusal};
