//! Laws of put calls beside the rest of the library: what they put is what `gen_frame` appends of a typed frame with these
//! fields, and `read_fields` gives the fields that were put.
#![tactic(auto)]

mod laws;

pub use laws::{put_fields_are_read, put_is_generated};
