//! Lines read back, at once and in single bytes, calls whose reads or writes fail, and the errors.

use crate::frames::{
    BEAT, DECLARE, DECLARE_LINE, KINDS, KINDS_LINE, LIMIT, MESSAGE, MESSAGE_LINES, ONES,
    PROPERTIES, PROPERTIES_LINE,
};
use crate::method_rows::{METHOD_LINES, METHODS};
use amqp_stream::{PieceSource, ScriptSink, VecSink};
use amqp_text::{TextError, UndumpError, equal_text_errors, equal_undump_errors, undump};
use amqp_types::NoMemory;
use amqp_vectors::asking::{same, same_in, shows};
use std::alloc::Global;
use std::test::Fail;

/// Texts, the canonical bytes of the frames whose lines stand in front, and how reading them ends.
type Row = (&'static str, &'static [u8], Result<(), UndumpError>);

const ROWS: &[Row] = &[
    (MESSAGE_LINES, &MESSAGE, Ok(())),
    (DECLARE_LINE, &DECLARE, Ok(())),
    (KINDS_LINE, &KINDS, Ok(())),
    (PROPERTIES_LINE, &PROPERTIES, Ok(())),
    (METHOD_LINES, &METHODS, Ok(())),
    ("", &[], Ok(())),
    ("proto 0.9.1\n", &[65, 77, 81, 80, 0, 0, 9, 1], Ok(())),
    ("beat\n", &BEAT, Ok(())),
    ("beat 65535\n", &[8, 255, 255, 0, 0, 0, 0, 206], Ok(())),
    ("body 2 x\n", &[3, 0, 2, 0, 0, 0, 0, 206], Ok(())),
    ("beat 0\n", &[], Err(UndumpError::BadText)),
    (
        "method 1 50.10 \"q\" ----- {\"b\"=V,\"a\"=V}\n",
        &[],
        Err(UndumpError::BadText),
    ),
    ("beat\nbeat", &BEAT, Err(UndumpError::CutShort)),
    ("\n", &[], Err(UndumpError::BadText)),
    ("beat\n\nbeat\n", &BEAT, Err(UndumpError::BadText)),
    ("beat\nbeat 0\nbeat", &BEAT, Err(UndumpError::BadText)),
    ("proto 300.0.0\n", &[], Err(UndumpError::BadText)),
    ("body 1 xAB\n", &[], Err(UndumpError::BadText)),
    ("body 01 xab\n", &[], Err(UndumpError::BadText)),
    ("beat\r\n", &[], Err(UndumpError::BadText)),
];

/// Fails unless reading back the text of the row in such pieces ends so.
fn is_read_back(alloc: Global, row: Row, pieces: &[usize]) -> Result<(), Fail> {
    let (text, bytes, outcome) = row;
    let mut source = PieceSource::new(text.as_bytes(), pieces, &[]);
    let mut sink = VecSink::new(alloc);
    let found = undump(alloc, &mut source, &mut sink, LIMIT, 200);
    same_in(text, (found, sink.bytes()), (outcome, bytes))
}

#[test]
fn lines_are_read_back(rt: HostRuntime) -> Result<(), Fail> {
    for row in ROWS {
        is_read_back(rt.alloc(), *row, &[])?;
        is_read_back(rt.alloc(), *row, &ONES)?;
    }
    Ok(())
}

/// Which read or write of the message's lines by single bytes fails, the read budget, how reading them back ends, and how
/// many bytes of the message are written.
type End = (&'static [u64], &'static [u64], u64, UndumpError, usize);

const ENDS: &[End] = &[
    (&[0], &[], 200, UndumpError::ReadFault, 0),
    (&[28], &[], 200, UndumpError::ReadFault, 0),
    (&[29], &[], 200, UndumpError::ReadFault, 22),
    (&[84], &[], 200, UndumpError::ReadFault, 22),
    (&[85], &[], 200, UndumpError::ReadFault, 56),
    (&[104], &[], 200, UndumpError::ReadFault, 69),
    (&[], &[0], 200, UndumpError::WriteFault, 0),
    (&[], &[1], 200, UndumpError::WriteFault, 1),
    (&[], &[22], 200, UndumpError::WriteFault, 22),
    (&[], &[68], 200, UndumpError::WriteFault, 68),
    (&[], &[], 0, UndumpError::TurnsSpent, 0),
    (&[], &[], 28, UndumpError::TurnsSpent, 0),
    (&[], &[], 29, UndumpError::TurnsSpent, 22),
    (&[], &[], 104, UndumpError::TurnsSpent, 69),
];

/// Fails unless reading back the message's lines ends so.
fn has_ended(alloc: Global, end: End) -> Result<(), Fail> {
    let (failing_reads, failing_writes, budget, error, count) = end;
    let mut source = PieceSource::new(MESSAGE_LINES.as_bytes(), &ONES, failing_reads);
    let mut sink = ScriptSink::new(alloc, &ONES, failing_writes);
    let found = undump(alloc, &mut source, &mut sink, LIMIT, budget);
    let bytes = MESSAGE.get(..count).unwrap_or_default();
    same((found, sink.bytes()), (Err(error), bytes))
}

#[test]
fn frames_before_a_failed_end_are_written(rt: HostRuntime) -> Result<(), Fail> {
    for end in ENDS {
        has_ended(rt.alloc(), *end)?;
    }
    Ok(())
}

/// Errors with their names and statuses.
const ERRORS: &[(UndumpError, &str, u8)] = &[
    (UndumpError::BadText, "BadText", 26),
    (UndumpError::CutShort, "CutShort", 21),
    (UndumpError::TurnsSpent, "TurnsSpent", 22),
    (UndumpError::ReadFault, "ReadFault", 4),
    (UndumpError::WriteFault, "WriteFault", 5),
    (UndumpError::NoMemory, "NoMemory", 3),
];

#[test]
fn errors_have_names_and_statuses(rt: HostRuntime) -> Result<(), Fail> {
    for (error, name, status) in ERRORS {
        same((error.name(), error.status()), (*name, *status))?;
        shows(rt.alloc(), error, "", name, "")?;
        same(equal_undump_errors(error, error), true)?;
    }
    let error = TextError::from(NoMemory);
    same(error.name(), "NoMemory")?;
    shows(rt.alloc(), &error, "", "NoMemory", "")?;
    shows(rt.alloc(), &TextError::BadText, "", "BadText", "")?;
    same(equal_text_errors(&error, &TextError::BadText), false)
}
