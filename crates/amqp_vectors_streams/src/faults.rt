//! The names and statuses of what ends a stream.

use amqp_stream::{ReadError, StreamError};
use amqp_vectors::asking::{same, shows};
use std::test::Fail;

const STREAMS: &[(StreamError, u8, &str)] = &[
    (StreamError::UnknownFrameType, 10, "UnknownFrameType"),
    (StreamError::BadProtocolHeader, 11, "BadProtocolHeader"),
    (StreamError::TooLarge, 12, "TooLarge"),
    (StreamError::BadFrameEnd, 13, "BadFrameEnd"),
    (StreamError::UnknownClass, 14, "UnknownClass"),
    (StreamError::UnknownMethod, 15, "UnknownMethod"),
    (StreamError::ShortPayload, 16, "ShortPayload"),
    (StreamError::TrailingBytes, 17, "TrailingBytes"),
    (StreamError::NotUtf8, 18, "NotUtf8"),
    (StreamError::UnknownTag, 19, "UnknownTag"),
    (StreamError::TooDeep, 20, "TooDeep"),
    (StreamError::CutShort, 21, "CutShort"),
    (StreamError::TurnsSpent, 22, "TurnsSpent"),
    (StreamError::NotTidy, 23, "NotTidy"),
    (StreamError::ReadFault, 4, "ReadFault"),
    (StreamError::WriteFault, 5, "WriteFault"),
    (StreamError::NoMemory, 3, "NoMemory"),
];

const READS: &[(ReadError, &str)] = &[
    (ReadError::UnknownFrameType, "UnknownFrameType"),
    (ReadError::BadProtocolHeader, "BadProtocolHeader"),
    (ReadError::TooLarge, "TooLarge"),
    (ReadError::BadFrameEnd, "BadFrameEnd"),
    (ReadError::CutShort, "CutShort"),
    (ReadError::TurnsSpent, "TurnsSpent"),
    (ReadError::ReadFault, "ReadFault"),
];

#[test]
fn faults_have_names(rt: HostRuntime) -> Result<(), Fail> {
    for (error, status, name) in STREAMS {
        same(error.status(), *status)?;
        same(error.name(), *name)?;
        shows(rt.alloc(), error, "", name, "")?;
    }
    for (error, name) in READS {
        same(error.name(), *name)?;
        shows(rt.alloc(), error, "", name, "")?;
    }
    Ok(())
}
