//! Tables, arrays and frames of AMQP 0-9-1 borrowed from bytes that were decoded before, and a codec that takes no
//! memory once it is open.
#![tactic(auto)]

mod codec;
mod equality;
mod errors;
mod frame;
mod reading;
mod sameness;
mod table;
mod value;
mod writing;

pub use codec::{LentCodec, canonicalize_lent, canonicalize_lent_reported};
pub use equality::{
    equal_lent_arrays, equal_lent_errors, equal_lent_frames, equal_lent_tables, equal_lent_values,
};
pub use errors::LentError;
pub use frame::{LentFrame, lent_frame};
pub use table::lent_table;
pub use value::{LentArray, LentItems, LentTable, LentValue};
pub use writing::{lent_size, write_lent};
