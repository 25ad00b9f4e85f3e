//! Runs of the program whose output and status are known, and runs in which a read, a write or an allocation fails.

mod byte_rows;
mod frames;
mod hex_rows;
mod line_rows;
mod word_rows;

use super::*;
use crate::run::run;
use amqp_stream::{CountSink, PieceSource, ScriptSink};
use std::alloc::Global;
use std::test::Fail;

/// A run: its words, the parts of its input, the parts of what is written, the status, and how the line about it begins.
type Row = (
    &'static [&'static str],
    &'static [&'static [u8]],
    &'static [&'static [u8]],
    u8,
    &'static str,
);

/// A run: its words, its input, the sizes of the pieces that are read and written, and which reads and writes fail.
#[derive(Clone, Copy)]
struct Script<'a> {
    words: &'a [&'a str],
    input: &'a [u8],
    pieces: &'a [usize],
    failing_reads: &'a [u64],
    failing_writes: &'a [u64],
}

/// These words, in memory.
fn words_in(alloc: Global, words: &[&str]) -> Option<Vec<String>> {
    let mut all = Vec::new(alloc);
    for word in words {
        all.push(String::from_str(alloc, word).ok()?).ok()?;
    }
    Some(all)
}

/// These parts, one after the other.
fn joined(alloc: Global, parts: &[&[u8]]) -> Option<Vec<u8>> {
    let mut all = Vec::new(alloc);
    for part in parts {
        all.extend_from_slice(part).ok()?;
    }
    Some(all)
}

/// The status of a run, how many bytes it wrote, and whether these are the front of the wanted ones. None where its
/// words cannot be had.
fn ended(alloc: Global, script: &Script<'_>, wanted: &[u8]) -> Option<(u8, usize, bool)> {
    let words = words_in(alloc, script.words)?;
    let mut source = PieceSource::new(script.input, script.pieces, script.failing_reads);
    let mut sink = ScriptSink::new(alloc, script.pieces, script.failing_writes);
    let status = run(alloc, words.as_slice(), &mut source, &mut sink);
    let written = sink.bytes();
    Some((status, written.len(), wanted.starts_with(written)))
}

/// Whether what is said of a run over pieces of these sizes begins so.
fn says_so(alloc: Global, script: &Script<'_>, line: &str) -> Option<bool> {
    let words = words_in(alloc, script.words)?;
    let mut source = PieceSource::new(script.input, script.pieces, &[]);
    let mut sink = CountSink::new();
    let outcome = run_reported(alloc, words.as_slice(), &mut source, &mut sink);
    let message = Message {
        outcome,
        words: words.as_slice(),
    };
    let said = format!(in alloc; "{message}").ok()?;
    Some(said.as_str().starts_with(line))
}

/// Whether a run over pieces of these sizes ends as it should, and what is said of it is right.
fn ends_so(alloc: Global, row: &Row, pieces: &[usize]) -> Option<bool> {
    let input = joined(alloc, row.1)?;
    let wanted = joined(alloc, row.2)?;
    let script = Script {
        words: row.0,
        input: input.as_slice(),
        pieces,
        failing_reads: &[],
        failing_writes: &[],
    };
    let found = ended(alloc, &script, wanted.as_slice())?;
    Some(found == (row.3, wanted.len(), true) && says_so(alloc, &script, row.4)?)
}

#[test]
fn runs_end_so(rt: HostRuntime) {
    let ones = [1; 200];
    for rows in [
        hex_rows::ROWS,
        byte_rows::ROWS,
        line_rows::ROWS,
        word_rows::ROWS,
    ] {
        for row in rows {
            assert!(rt; ends_so(rt.alloc(), row, &[]) == Some(true), "{:?}", row.0);
            assert!(rt;
                ends_so(rt.alloc(), row, &ones) == Some(true),
                "{:?}, by ones",
                row.0
            );
        }
    }
}

/// A heartbeat with a payload as a text and as bytes, which reads and which writes fail, and the status.
const FAILURES: [(&str, &[u8], &[u64], &[u64], u8); 4] = [
    ("hex", b"0800000000000107ce", &[0], &[], 4),
    ("raw", b"\x08\0\0\0\0\0\x01\x07\xce", &[0], &[], 4),
    ("hex", b"0800000000000107ce", &[], &[0], 5),
    ("raw", b"\x08\0\0\0\0\0\x01\x07\xce", &[], &[0], 5),
];

#[test]
fn failed_ends_have_statuses(rt: HostRuntime) {
    for (word, input, failing_reads, failing_writes, status) in &FAILURES {
        let script = Script {
            words: &[word],
            input,
            pieces: &[],
            failing_reads,
            failing_writes,
        };
        assert!(rt;
            ended(rt.alloc(), &script, &[]) == Some((*status, 0, true)),
            "{word} {status}"
        );
    }
}

#[test]
fn a_text_has_a_longest(rt: HostRuntime) -> Result<(), Fail> {
    let digits = vec![in rt.alloc(); b'0'; 16_777_217]?;
    let mut script = Script {
        words: &["hex"],
        input: digits.as_slice(),
        pieces: &[],
        failing_reads: &[],
        failing_writes: &[],
    };
    assert!(rt; ended(rt.alloc(), &script, &[]) == Some((6, 0, true)));
    script.input = &digits.as_slice()[1..];
    let wanted = b"\nUnknownFrameType\n";
    assert!(rt; ended(rt.alloc(), &script, wanted) == Some((10, wanted.len(), true)));
    Ok(())
}

/// For `rt try --test --fail-alloc N`: out of memory is status 3 with nothing written, and a sink that is out of memory
/// has a part of the text.
#[test]
fn refused_memory_writes_nothing(rt: HostRuntime) {
    let script = Script {
        words: &["hex"],
        input: b"0800000000000107ce",
        pieces: &[],
        failing_reads: &[],
        failing_writes: &[],
    };
    match ended(rt.alloc(), &script, b"08000000000000ce\n") {
        None => {}
        Some((0, count, is_front)) => assert!(rt; count == 17 && is_front),
        Some((5, _, is_front)) => assert!(rt; is_front),
        Some((status, count, _)) => assert!(rt; status == 3 && count == 0),
    }
}
