//! The numbers and names of what keeps bytes from being read, and values from being made and written.

use crate::asking::{same, shows};
use amqp_types::{GenError, MakeError, NoMemory, ParserError};
use std::alloc::Global;
use std::test::Fail;

/// Errors of reading.
const READING: [(ParserError, u8, &str); 12] = [
    (ParserError::Incomplete, 1, "Incomplete"),
    (ParserError::UnknownFrameType, 2, "UnknownFrameType"),
    (ParserError::BadProtocolHeader, 3, "BadProtocolHeader"),
    (ParserError::BadFrameEnd, 4, "BadFrameEnd"),
    (ParserError::UnknownClass, 5, "UnknownClass"),
    (ParserError::UnknownMethod, 6, "UnknownMethod"),
    (ParserError::ShortPayload, 7, "ShortPayload"),
    (ParserError::TrailingBytes, 8, "TrailingBytes"),
    (ParserError::NotUtf8, 9, "NotUtf8"),
    (ParserError::UnknownTag, 10, "UnknownTag"),
    (ParserError::TooDeep, 11, "TooDeep"),
    (ParserError::NoMemory, 12, "NoMemory"),
];

/// Errors of writing.
const WRITING: [(GenError, u8, &str); 4] = [
    (GenError::TooDeep, 1, "TooDeep"),
    (GenError::TooLong, 2, "TooLong"),
    (GenError::BufferTooSmall, 3, "BufferTooSmall"),
    (GenError::NoMemory, 4, "NoMemory"),
];

fn errors_of_reading(alloc: Global) -> Result<(), Fail> {
    for (error, number, name) in READING {
        same((error.number(), error.name()), (number, name))?;
        shows(alloc, &error, "", name, "")?;
    }
    Ok(())
}

fn errors_of_writing(alloc: Global) -> Result<(), Fail> {
    for (error, number, name) in WRITING {
        same((error.number(), error.name()), (number, name))?;
        shows(alloc, &error, "", name, "")?;
    }
    Ok(())
}

#[test]
fn errors_have_numbers_and_names(rt: HostRuntime) -> Result<(), Fail> {
    let alloc = rt.alloc();
    errors_of_reading(alloc)?;
    errors_of_writing(alloc)?;
    shows(alloc, &NoMemory, "", "NoMemory", "")?;
    shows(alloc, &MakeError::TooLong, "", "TooLong", "")?;
    shows(alloc, &MakeError::NoMemory, "", "NoMemory", "")?;
    same(ParserError::from(NoMemory), ParserError::NoMemory)?;
    same(MakeError::from(NoMemory), MakeError::NoMemory)?;
    same(ParserError::Incomplete.inside(), ParserError::ShortPayload)
}
