//! The 14 properties of a message and the content header around them, and how these are decoded and encoded.
#![tactic(auto)]

mod content_header;
mod equality;
mod generation;
mod held_properties;
mod laws;
mod optional;
mod optional_fields;
mod optional_puts;
mod optional_sizes;
mod parsing;
mod properties;

pub use content_header::{
    AMQPContentHeader, parse_content_header, put_content_header, size_content_header,
};
pub use equality::{equal_content_headers, equal_properties};
pub use generation::{gen_properties, put_properties, size_properties};
pub use held_properties::{content_header_held, properties_held};
pub use laws::{
    content_headers_are_lawful, content_headers_fail_inside, held_content_headers_are_read_back,
    held_properties_are_read_back, properties_are_lawful, sets_are_lawful,
    spelled_content_headers_are_bounded, spelled_properties_are_bounded,
    tidy_content_headers_are_decided, tidy_properties_are_decided,
};
pub use parsing::parse_properties;
pub use properties::AMQPProperties;
