//! Named lines of frames, which are read from their bytes.

use crate::gen_named_line;
use amqp_frame::{AMQPFrame, parse_frame, release};
use amqp_types::GenError;
use std::alloc::Global;
use std::test::Fail;

/// A client publishes to the queue `hello`; a content header; a heartbeat.
const ROWS: &[(&[u8], &str)] = &[
    (
        &[
            1, 0, 1, 0, 0, 0, 14, 0, 60, 0, 40, 0, 0, 0, 5, 104, 101, 108, 108, 111, 0, 206,
        ],
        "basic.publish exchange routing-key mandatory immediate: method 1 60.40 \"\" \"hello\" --\n",
    ),
    (
        &[
            2, 0, 1, 0, 0, 0, 14, 0, 60, 0, 0, 0, 0, 0, 0, 0, 0, 0, 5, 0, 0, 206,
        ],
        "header 1 60 5\n",
    ),
    (&[8, 0, 0, 0, 0, 0, 0, 206], "beat\n"),
];

/// The named line of a frame, which is handed on by value: a test that owns no frame costs its own proof little.
fn named_line(alloc: Global, frame: AMQPFrame) -> Result<Vec<u8>, GenError> {
    let mut out = Vec::new(alloc);
    let written = gen_named_line(alloc, &mut out, &frame);
    release(frame);
    match written {
        Ok(()) => Ok(out),
        Err(error) => Err(error),
    }
}

/// Fails unless the frame in these bytes has this line.
fn has_line(alloc: Global, bytes: &[u8], line: &str) -> Result<(), Fail> {
    let (_, frame) = parse_frame(alloc, bytes)?;
    let found = named_line(alloc, frame)?;
    if found.as_slice() == line.as_bytes() {
        return Ok(());
    }
    Err(Fail::new(format_args!("another line than {line}")))
}

#[test]
fn frames_have_named_lines(rt: HostRuntime) -> Result<(), Fail> {
    for (bytes, line) in ROWS {
        has_line(rt.alloc(), bytes, line)?;
    }
    Ok(())
}
