//! What the fields of methods are made with. Where memory is refused they are empty, and the case that
//! they are written in fails.

use amqp_types::{LongString, ShortString};
use amqp_values::{AMQPValue, FieldTable};
use std::alloc::Global;

/// The short string `a`.
pub fn text(alloc: Global) -> ShortString {
    match ShortString::new(alloc, "a") {
        Ok(text) => text,
        Err(_) => ShortString::empty(alloc),
    }
}

/// The long string `b`.
pub fn bytes(alloc: Global) -> LongString {
    match LongString::new(alloc, b"b") {
        Ok(bytes) => bytes,
        Err(_) => LongString::empty(alloc),
    }
}

/// The table that holds nothing under the key `k`.
pub fn table(alloc: Global) -> FieldTable {
    let mut table = FieldTable::new(alloc);
    if let Ok(key) = ShortString::new(alloc, "k") {
        let _ = table.insert(key, AMQPValue::Void);
    }
    table
}
