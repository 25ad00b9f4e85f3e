//! The names of classes, methods, fields and properties, as the standard has them, each field with its kind.
#![tactic(auto)]

mod kinds;
mod laws;
mod message_properties;
mod methods;
mod naming;

pub use kinds::{FLAG, LONG, LONG_LONG, LONG_STRING, OCTET, SHORT, SHORT_STRING, TABLE};
pub use laws::{answers_follow, contents_follow, names_differ, rows_are_named};
pub use message_properties::{properties, property_at};
pub use methods::{classes, find_class, find_method, method_at};
pub use naming::{Class, Field, Follows, Method, MethodAt};
