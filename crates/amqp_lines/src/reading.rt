//! Text read back to bytes.

pub(crate) mod lines;
pub(crate) mod slots;
pub(crate) mod values;
pub(crate) mod words;
