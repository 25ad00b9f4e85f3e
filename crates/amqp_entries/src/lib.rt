//! Contents of tables and arrays: the bytes that fill one, without the 4 bytes of its length. They are judged once and
//! put canonically, and are made by appending one entry or value after another, without memory.
#![tactic(auto)]

mod appending;
mod contents;
mod errors;
mod few;
mod laws;
mod nested;
mod numbers;
mod ordered;
mod puts;
mod table_content;
mod values;

pub use appending::{append_entry, append_value};
pub use errors::PutError;
pub use few::{called_text_size, is_short_text, text_size};
pub use laws::{appended_in_order_is_canonical, appended_is_decoded};
pub use nested::{ArrayValue, TableValue};
pub use puts::{called_put_text, put_counted, put_text};
pub use table_content::TableContent;
pub use values::{
    ByteArrayValue, DoubleValue, FloatValue, LongStringValue, TimestampValue, ToValue, VoidValue,
};
