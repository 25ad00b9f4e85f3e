//! Laws of fields that were read, written and read again: what was read can be written, and is accepted; what was written has
//! the same canonical bytes, and is read as the same nodes.
#![tactic(auto)]

mod laws;

pub use laws::{
    one_frame_has_same_nodes, read_again_has_same_nodes, read_is_accepted, read_is_written_again,
    read_nodes_are_meant,
};
