//! At which line reading back ended, by its report: the same however the text is cut.

use crate::frames::{LIMIT, MESSAGE_LINES, ONES};
use amqp_stream::{PieceSource, ScriptSink, VecSink};
use amqp_text::{UndumpError, UndumpReport, undump_reported, unreported_lines};
use amqp_vectors::asking::same_in;
use std::alloc::Global;
use std::test::Fail;

/// A report: the error, the line's number, and how many bytes come before it.
type Reported = (UndumpError, u64, u64);

/// Texts, and what is reported of them.
const ROWS: &[(&str, Reported)] = &[
    ("\n", (UndumpError::BadText, 1, 0)),
    ("beat 0\n", (UndumpError::BadText, 1, 0)),
    ("beat", (UndumpError::CutShort, 1, 0)),
    ("beat\nbeat", (UndumpError::CutShort, 2, 5)),
    ("beat\n\nbeat\n", (UndumpError::BadText, 2, 5)),
    ("beat\nbeat 0\nbeat", (UndumpError::BadText, 2, 5)),
    ("beat\nbeat\r\nbeat\n", (UndumpError::BadText, 2, 5)),
    (
        "proto 0.9.1\nbody 2 x\nbeat 7\nbeat 00\nbeat\n",
        (UndumpError::BadText, 4, 28),
    ),
    (
        "proto 0.9.1\nbody 2 x\nbeat 7\nbe",
        (UndumpError::CutShort, 4, 28),
    ),
];

/// Fails unless this was reported.
fn reports(
    row: &str,
    found: Result<(), UndumpReport>,
    (error, line, place): Reported,
) -> Result<(), Fail> {
    same_in(row, found, Err(UndumpReport { error, line, place }))
}

#[test]
fn the_line_is_reported(rt: HostRuntime) -> Result<(), Fail> {
    for (text, reported) in ROWS {
        for pieces in [[].as_slice(), ONES.as_slice()] {
            let mut sink = VecSink::new(rt.alloc());
            let mut source = PieceSource::new(text.as_bytes(), pieces, &[]);
            let found = undump_reported(rt.alloc(), &mut source, &mut sink, LIMIT, 200);
            reports(text, found, *reported)?;
        }
    }
    Ok(())
}

/// Which read or write of the message's lines by single bytes fails, the read budget, and what is reported.
type End = (&'static [u64], &'static [u64], u64, Reported);

/// The lines have 29, 56 and 19 bytes, and their frames 22, 34 and 13.
const ENDS: &[End] = &[
    (&[0], &[], 200, (UndumpError::ReadFault, 1, 0)),
    (&[28], &[], 200, (UndumpError::ReadFault, 1, 0)),
    (&[29], &[], 200, (UndumpError::ReadFault, 2, 29)),
    (&[85], &[], 200, (UndumpError::ReadFault, 3, 85)),
    (&[104], &[], 200, (UndumpError::ReadFault, 4, 104)),
    (&[], &[0], 200, (UndumpError::WriteFault, 2, 29)),
    (&[], &[22], 200, (UndumpError::WriteFault, 3, 85)),
    (&[], &[68], 200, (UndumpError::WriteFault, 4, 104)),
    (&[], &[], 0, (UndumpError::TurnsSpent, 1, 0)),
    (&[], &[], 28, (UndumpError::TurnsSpent, 1, 0)),
    (&[], &[], 29, (UndumpError::TurnsSpent, 2, 29)),
    (&[], &[], 104, (UndumpError::TurnsSpent, 4, 104)),
];

/// Reads back the message's lines.
fn read_back(alloc: Global, end: End) -> Result<(), UndumpReport> {
    let (failing_reads, failing_writes, budget, _) = end;
    let mut source = PieceSource::new(MESSAGE_LINES.as_bytes(), &ONES, failing_reads);
    let mut sink = ScriptSink::new(alloc, &ONES, failing_writes);
    undump_reported(alloc, &mut source, &mut sink, LIMIT, budget)
}

/// A failed end is reported after the lines that were decided; without the report the error is the same.
#[test]
fn other_ends_are_reported(rt: HostRuntime) -> Result<(), Fail> {
    for end in ENDS {
        let (error, _, _) = end.3;
        reports("the message", read_back(rt.alloc(), *end), end.3)?;
        let found = unreported_lines(read_back(rt.alloc(), *end));
        same_in("the message", found, Err(error))?;
    }
    Ok(())
}
