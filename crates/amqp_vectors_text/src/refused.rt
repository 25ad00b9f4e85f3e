//! Memory that runs out: `rt try --test --fail-alloc N` lets the Nth allocation of each test fail.

use crate::frames::{
    DECLARE, DECLARE_LINE, KINDS, KINDS_LINE, LIMIT, MESSAGE, MESSAGE_LINES, UNORDERED,
    UNORDERED_LINE,
};
use crate::one_line::{RAW_BODY, append_line_of};
use amqp_stream::{SliceSource, StreamError, VecSink};
use amqp_text::{TextError, UndumpError, dump, dump_line, undump, undump_line};

/// Whether the bytes behind those that were held are these, or, where memory ran out, none.
fn are_behind(bytes: &[u8], held: usize, wanted: &[u8], refused: bool) -> bool {
    bytes.get(held..) == Some(wanted) || refused && bytes.len() == held
}

/// Where memory runs out, a line is appended as a whole or not at all.
#[test]
fn refused_memory_leaves_lines(rt: HostRuntime) {
    let alloc = rt.alloc();
    let mut lines = Vec::new(alloc);
    for (frame, line) in [
        (DECLARE.as_slice(), DECLARE_LINE),
        (KINDS.as_slice(), KINDS_LINE),
    ] {
        let held = lines.len();
        let found = append_line_of(alloc, &mut lines, frame);
        assert!(rt; found == Ok(true) || found == Err(TextError::NoMemory));
        assert!(rt; are_behind(&lines, held, line.as_bytes(), found.is_err()));
    }
    let held = lines.len();
    let found = dump_line(alloc, &mut lines, RAW_BODY);
    assert!(rt; found.is_ok() || found == Err(StreamError::NoMemory));
    assert!(rt; are_behind(&lines, held, b"body 1 x68656c6c6f\n", found.is_err()));
}

/// Where memory runs out, the bytes of a frame are appended as a whole or not at all.
#[test]
fn refused_memory_leaves_bytes(rt: HostRuntime) {
    let alloc = rt.alloc();
    let mut bytes = Vec::new(alloc);
    for (line, frame) in [
        (DECLARE_LINE, DECLARE.as_slice()),
        (KINDS_LINE, KINDS.as_slice()),
    ] {
        let held = bytes.len();
        let found = undump_line(alloc, &mut bytes, line.as_bytes(), LIMIT);
        assert!(rt; found.is_ok() || found == Err(TextError::NoMemory));
        assert!(rt; are_behind(&bytes, held, frame, found.is_err()));
    }
}

/// Where memory runs out, the line is not written.
#[test]
fn refused_memory_ends_a_dump(rt: HostRuntime) {
    let mut source = SliceSource::new(&UNORDERED);
    let mut sink = VecSink::new(rt.alloc());
    match dump(rt.alloc(), &mut source, &mut sink, 1000, 200) {
        Ok(()) => assert_eq!(rt; sink.bytes(), UNORDERED_LINE.as_bytes()),
        Err(error) => {
            assert!(rt; error == StreamError::NoMemory || error == StreamError::WriteFault);
            assert!(rt; sink.bytes().is_empty());
        }
    }
}

/// Where memory runs out, a front of the frames is written.
#[test]
fn refused_memory_ends_reading_back(rt: HostRuntime) {
    let mut source = SliceSource::new(MESSAGE_LINES.as_bytes());
    let mut sink = VecSink::new(rt.alloc());
    match undump(rt.alloc(), &mut source, &mut sink, LIMIT, 200) {
        Ok(()) => assert_eq!(rt; sink.bytes(), MESSAGE.as_slice()),
        Err(error) => {
            assert!(rt; error == UndumpError::NoMemory || error == UndumpError::WriteFault);
            assert!(rt; MESSAGE.starts_with(sink.bytes()));
        }
    }
}
