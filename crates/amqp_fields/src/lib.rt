//! The fields of AMQP 0-9-1 frames read as nodes, numbers and spans of bytes, and frames as heads, without memory.
#![tactic(auto)]

mod contents;
mod counting;
mod decoding;
mod equality;
mod fields;
mod frames;
mod head;
mod laws;
mod listing;
mod node;
mod numbers;
mod payloads;
mod reading;
mod values;

pub use contents::{read_entries, read_values};
pub use counting::count_fields;
pub use equality::{
    equal_fields_errors, equal_fields_read, equal_frames_ends, equal_frames_read, equal_heads,
    equal_nodes,
};
pub use fields::{further, kept_count, kind_of};
pub use frames::{FramesEnd, FramesRead, least_length, read_frames};
pub use head::{CANONICAL, Head, TIDY};
pub use laws::{heads_say_the_front, last_entries_win, listed_nodes_mean, spans_lie_within};
pub use node::{FLAG, LONG, LONG_LONG, LONG_STRING, Node, OCTET, SHORT, SHORT_STRING, TABLE};
pub use payloads::version_shapes;
pub use reading::{FieldsError, FieldsRead, read_fields};
