//! How results are compared. Each call is proved once, whatever type it compares: what a test hands on
//! by value costs its own proof little.

use amqp_types::ParserError;
use std::alloc::Global;
use std::fmt::{Debug, Display};
use std::test::Fail;

/// Fails unless the two are equal.
pub fn same<T: PartialEq + Debug + Drop>(found: T, wanted: T) -> Result<(), Fail> {
    if found == wanted {
        return Ok(());
    }
    Err(Fail::new(format_args!("{found:?} is not {wanted:?}")))
}

/// Fails, with the name of the case, unless the two are equal.
pub fn same_in<T: PartialEq + Debug + Drop>(row: &str, found: T, wanted: T) -> Result<(), Fail> {
    if found == wanted {
        return Ok(());
    }
    Err(Fail::new(format_args!("{row}: {found:?} is not {wanted:?}")))
}

/// Fails unless the call returned an equal value.
pub fn answers<T: PartialEq + Debug + Drop, E: Debug + Drop>(
    found: Result<T, E>,
    wanted: &T,
) -> Result<(), Fail> {
    let found = found?;
    if found == *wanted {
        return Ok(());
    }
    Err(Fail::new(format_args!("{found:?} is not {wanted:?}")))
}

/// Fails unless a parse call has read the value from as many bytes.
pub fn reads<T: PartialEq + Debug + Drop>(
    read: Result<(usize, T), ParserError>,
    bytes: usize,
    value: &T,
) -> Result<(), Fail> {
    let (used, read) = read?;
    same(used, bytes)?;
    same(&read, value)
}

/// Fails unless the value is displayed as these three texts, one after another.
pub fn shows<D: Display>(
    alloc: Global,
    value: &D,
    front: &str,
    text: &str,
    end: &str,
) -> Result<(), Fail> {
    let shown = format!(in alloc; "{value}")?;
    let wanted = format!(in alloc; "{front}{text}{end}")?;
    same(shown, wanted)
}
