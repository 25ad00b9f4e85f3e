//! Streams of lines, whose frames are written as their canonical bytes.

ghost use Rattle.std.specs.Prelude.{◌≡◌, ◌+◌, ◌-◌, ◌<◌, ◌≤◌, [], Err, drop, length, take, vec_len};
ghost use Rattle.std.specs.Prelude.{IfErr, IfOk};
ghost use Rattle.amqp_stream.specs.Changes.{◌⇒◌};
ghost use Rattle.amqp_stream.specs.Calls.{call_of};
ghost use Rattle.amqp_lines.specs.Lines.{longest_line};
ghost use Rattle.amqp_lines.specs.LineReading.{EndsLine, GathersLine, GathersLines, HasNoNewline};
ghost use Rattle.amqp_lines.specs.LineReading.{Decides, PassesLine, ReadsOnce, StopsWith};
ghost use Rattle.amqp_lines.specs.LineReading.{end_of_text};
ghost use Rattle.amqp_lines.specs.UndumpReports.{IsUndumpReport, first_line, unreported_lines};
ghost use Rattle.amqp_lines.specs.Undumping.{UndumpRun, read_size};

use crate::errors::UndumpError;
use crate::line_reading::LineReader;
use crate::report::{LinePlace, UndumpReport, unreported_lines};
use amqp_canonical::bytes_from;
use amqp_stream::{OutputBuffer, Sink, Source, flush, gather};
use amqp_types::{ChunkSize, NoMemory};
use std::alloc::Global;

/// How many bytes a read takes at most, and how many are pending at most.
const PIECE: usize = 65536;

/// How many bytes the first line takes, with its newline; None where no newline comes. The first `searched` bytes, none
/// of which is a newline, are not looked at.
pub fn line_end(text: &[u8], searched: usize) -> Option<usize>
    requires within { searched ≤ length text.now }
    requires none { HasNoNewline (take searched text.now) }
    ensures { EndsLine text.now result }
{
    let mut place = searched;
    while place < text.len() {
        if text[place] == b'\n' {
            return Some(place + 1);
        }
        place += 1;
    }
    None
}

/// The first bytes of a text.
fn first_bytes(text: &[u8], end: usize) -> &[u8]
    requires { end ≤ length text.now }
    ensures { result.now ≡ take end text.now }
{
    &text[..end]
}

/// Gathers the canonical bytes of the frame of a line, which is then passed.
fn gather_line<K: Sink>(
    reader: &mut LineReader,
    at: &mut LinePlace,
    out: &mut OutputBuffer,
    sink: &mut K,
    text: &[u8],
    max_payload: ChunkSize,
) -> Result<(), UndumpError>
    ensures gathers { GathersLine max_payload text.now (K.store sink.old)
        (K.store sink.new) out.old.bytes out.new.bytes result }
    ensures passes { PassesLine text.now at.old at.new result }
{
    match reader.is_line(text, max_payload) {
        Err(_) => return Err(UndumpError::NoMemory),
        Ok(false) => return Err(UndumpError::BadText),
        Ok(true) => at.pass(text.len()),
    }
    match gather(out, sink, reader.canonical()) {
        Ok(()) => Ok(()),
        Err(_) => Err(UndumpError::WriteFault),
    }
}

/// Gathers the canonical bytes of the frames whose lines stand in front, and returns how many bytes come after these
/// lines.
fn gather_lines<K: Sink>(
    reader: &mut LineReader,
    at: &mut LinePlace,
    out: &mut OutputBuffer,
    sink: &mut K,
    text: &[u8],
    searched: usize,
    max_payload: ChunkSize,
) -> Result<usize, UndumpError>
    requires within { searched ≤ length text.now }
    requires none { HasNoNewline (take searched text.now) }
    ensures { GathersLines max_payload text.now at.old at.new (K.store sink.old)
        (K.store sink.new) out.old.bytes out.new.bytes result }
{
    let mut rest = text;
    let mut seen = searched;
    'lines: loop {
        match line_end(rest, seen) {
            None => return Ok(rest.len()),
            Some(end) => {
                match gather_line(reader, at, out, sink, first_bytes(rest, end), max_payload) {
                    Err(error) => return Err(error),
                    Ok(()) => {}
                }
                rest = bytes_from(rest, end);
                seen = 0;
            }
        }
    }
}

/// Drops all but the last `left` bytes.
fn keep_last(held: &mut Vec<u8>, left: usize)
    requires { left ≤ length held.old.items }
    ensures { held.new.items ≡ drop (length held.old.items - left) held.old.items }
{
    let used = held.len() - left;
    if used > 0 {
        held.copy_within(used.., 0);
        held.truncate(left);
    }
}

/// Drops all but the first bytes.
fn keep_first(held: &mut Vec<u8>, most: usize)
    ensures { held.new.items ≡ take most held.old.items }
{
    held.truncate(most);
}

/// How many bytes of a line are kept before a read: one more than the longest line of a frame has. A longer line is that
/// of no frame, whatever follows, and only its end is looked for.
fn most_held(max_payload: ChunkSize) -> usize
    ensures { result ≡ longest_line max_payload + 1 }
{
    4 * (max_payload as usize + 8) + 401
}

/// Reads once, after the bytes that are held, and returns how many bytes came. None is the end of input.
fn read_once<S: Source>(
    source: &mut S,
    piece: &mut Vec<u8>,
    held: &mut Vec<u8>,
) -> Result<usize, UndumpError>
    requires { length piece.old.items ≡ read_size }
    ensures reads { ReadsOnce (S.supply source.old)
        (S.supply source.new) held.old.items held.new.items result }
    ensures few { length held.new.items ≤ length held.old.items + read_size }
    ensures room { length piece.new.items ≡ length piece.old.items }
{
    match source.read(piece) {
        Err(_) => Err(UndumpError::ReadFault),
        Ok(count) => match held.extend_from_slice(&piece[..count]) {
            Err(_) => Err(UndumpError::NoMemory),
            Ok(()) => Ok(count),
        },
    }
}

/// Writes what is pending, and ends with an error.
fn stop<K: Sink>(
    out: &mut OutputBuffer,
    sink: &mut K,
    error: UndumpError,
) -> Result<(), UndumpError>
    ensures { StopsWith (K.store sink.old) (K.store sink.new) out.old.bytes error result }
{
    match flush(out, sink) {
        Ok(()) => Err(error),
        Err(_) => Err(UndumpError::WriteFault),
    }
}

/// The result at the end of input: what is held is a part of a line.
fn end_of_input(held: &[u8]) -> Result<(), UndumpError>
    ensures { result ≡ end_of_text held.now }
{
    if held.is_empty() {
        Ok(())
    } else {
        Err(UndumpError::CutShort)
    }
}

/// What a call holds between two reads, in memory that is used again: a part of a line, of which at most `most` bytes are
/// kept before a read, the place of this line in the text, and a piece for a read.
#[derive(Drop)]
struct Lines {
    reader: LineReader,
    held: Vec<u8>,
    most: usize,
    at: LinePlace,
    piece: Vec<u8>,
    ghost room: { vec_len piece ≡ 65536 },
    ghost few: { vec_len held ≤ most + 65536 },
}

impl Lines {
    /// Nothing is held yet.
    fn open(alloc: Global, max_payload: ChunkSize) -> Result<Lines, NoMemory>
        ensures held { IfOk result (λ lines. lines.held.items ≡ []) }
        ensures most { IfOk result (λ lines. lines.most ≡ longest_line max_payload + 1) }
        ensures at { IfOk result (λ lines. lines.at ≡ first_line) }
    {
        Ok(Lines {
            reader: LineReader::open(alloc)?,
            held: Vec::new(alloc),
            most: most_held(max_payload),
            at: LinePlace::first(),
            piece: vec![in alloc; 0u8; PIECE]?,
        })
    }
}

/// Writes the canonical bytes of the frame of each line that is read, to the end of input. What is pending is written
/// before each read.
fn run<S: Source, K: Sink>(
    lines: &mut Lines,
    out: &mut OutputBuffer,
    source: &mut S,
    sink: &mut K,
    max_payload: ChunkSize,
    budget: u64,
) -> Result<(), UndumpError>
    requires none { lines.old.held.items ≡ [] }
    requires first { lines.old.at ≡ first_line }
    requires most { lines.old.most ≡ longest_line max_payload + 1 }
    ensures stream { Decides
        (call_of max_payload budget (S.supply source.old ⇒ S.supply source.new)
        (K.store sink.old ⇒ K.store sink.new)) lines.new.at result }
    ensures few { length lines.new.held.items ≤ longest_line max_payload + 1 + read_size }
    ensures unread { budget ≡ 0 → source.new ≡ source.old }
    ensures spent { budget ≡ 0 → result ≡ Err UndumpError.TurnsSpent }
    ensures unwritten { budget ≡ 0 → sink.new ≡ sink.old }
{
    out.clear();
    let mut left = budget;
    'reads: loop {
        if left == 0 {
            return Err(UndumpError::TurnsSpent);
        }
        left -= 1;
        let searched = lines.held.len();
        match read_once(source, &mut lines.piece, &mut lines.held) {
            Err(error) => return Err(error),
            Ok(0) => return end_of_input(&lines.held),
            Ok(_) => {}
        }
        match gather_lines(
            &mut lines.reader,
            &mut lines.at,
            out,
            sink,
            &lines.held,
            searched,
            max_payload,
        ) {
            Err(error) => return stop(out, sink, error),
            Ok(place) => keep_last(&mut lines.held, place),
        }
        keep_first(&mut lines.held, lines.most);
        match flush(out, sink) {
            Err(_) => return Err(UndumpError::WriteFault),
            Ok(()) => {}
        }
    }
}

/// Writes the canonical bytes of the frame of each line of a stream, to the end of input or an error, and reports at
/// which line that is. `budget` is the read budget: so many reads at most are made, each of 65536 bytes at most. `max_payload` is in
/// bytes; the line of a longer payload is bad text. Memory is taken for one line that is no longer than that of any frame
/// within the limit, and for one read, whatever comes.
pub fn undump_reported<S: Source, K: Sink>(
    alloc: Global,
    source: &mut S,
    sink: &mut K,
    max_payload: ChunkSize,
    budget: u64,
) -> Result<(), UndumpReport>
    ensures run { UndumpRun S.supply K.store
        (call_of max_payload budget (source.old ⇒ source.new) (sink.old ⇒ sink.new))
        (unreported_lines result) }
    ensures report { IfErr result (IsUndumpReport
        (call_of max_payload budget (S.supply source.old ⇒ S.supply source.new)
        (K.store sink.old ⇒ K.store sink.new))) }
{
    let first = LinePlace::first();
    match Lines::open(alloc, max_payload) {
        Err(_) => first.reported(Err(UndumpError::NoMemory)),
        Ok(mut lines) => match OutputBuffer::open(alloc, PIECE) {
            Err(_) => first.reported(Err(UndumpError::NoMemory)),
            Ok(mut out) => {
                let answer = run(&mut lines, &mut out, source, sink, max_payload, budget);
                lines.at.reported(answer)
            }
        },
    }
}

/// The same, without where it ended.
pub fn undump<S: Source, K: Sink>(
    alloc: Global,
    source: &mut S,
    sink: &mut K,
    max_payload: ChunkSize,
    budget: u64,
) -> Result<(), UndumpError>
    ensures run { UndumpRun S.supply K.store
        (call_of max_payload budget (source.old ⇒ source.new) (sink.old ⇒ sink.new)) result }
{
    unreported_lines(undump_reported(alloc, source, sink, max_payload, budget))
}
