//! Frames as lines of text, and back, one at a time. These calls take memory.

ghost use Rattle.std.specs.Prelude.{◌≡◌, ◌≢◌, ◌++◌, ◌≤◌, ℕ, List, length, take, Some};
ghost use Rattle.amqp_types.specs.Levels.{plain};
ghost use Rattle.amqp_wire.specs.Canonical.{canon};
ghost use Rattle.amqp_wire.specs.Frames.{Frame};
ghost use Rattle.amqp_wire.specs.Verdicts.{judge_frame};
ghost use Rattle.amqp_lines.specs.LineReading.{HasNoNewline};
ghost use Rattle.amqp_lines.specs.Lines.{line};
ghost use Rattle.amqp_lines.specs.OneLine.{IsStrictWithin};
ghost use Rattle.amqp_lines.specs.Undumping.{HoldsNewline};
ghost use Rattle.amqp_c.specs.FrameLines.{AppendsFront, Converts, DumpedAt};
ghost use Rattle.amqp_c.specs.FrameLines.{IsNoFront, RefusesLine, nothing_with};
ghost use Rattle.amqp_c.specs.Statuses.{bad_text, cut_short, out_of_memory};

use crate::next::{frame_at, scan};
use crate::statuses::{BAD_TEXT, BUFFER_TOO_SMALL};
use amqp_lines::{TextError, dump_line, line_end, undump_line};
use amqp_stream::StreamError;
use amqp_types::put_bytes;
use std::alloc::Global;

/// A frame and its line, of which one was read and the other written. Where neither was, all but the status is 0. In C it has
/// 24 bytes and no padding.
#[repr(C)]
#[derive(Clone, Copy, Debug, PartialEq, Eq)]
pub struct FrameLine {
    /// How many bytes the one that was read has.
    pub used: u64,

    /// How many bytes the other has.
    pub length: u64,

    /// 0 where it was written, 40 where the buffer is too short for it, or why neither was read.
    pub status: u32,

    /// Kept for later; 0.
    pub unused: u32,
}

/// Nothing was read, for this reason.
fn nothing_with(status: u8) -> FrameLine
    ensures { result ≡ nothing_with status }
{
    FrameLine {
        used: 0,
        length: 0,
        status: status as u32,
        unused: 0,
    }
}

/// Writes a text at the front of a buffer where it fits.
fn write_front(out: &mut [u8], used: usize, text: &[u8]) -> FrameLine
    ensures { Converts text.now used out.old out.new result }
{
    let mut status = BUFFER_TOO_SMALL as u32;
    if text.len() <= out.len() {
        put_bytes(out, 0, text);
        status = 0;
    }
    FrameLine {
        used: used as u64,
        length: text.len() as u64,
        status,
        unused: 0,
    }
}

/// Appends the line of the frame in front, and returns how many bytes the frame has.
fn append_line(
    alloc: Global,
    line: &mut Vec<u8>,
    bytes: &[u8],
    max_payload: u32,
) -> Result<usize, StreamError>
    ensures { AppendsFront max_payload bytes.now line.old.items line.new.items result }
{
    match scan(max_payload, bytes) {
        Err(error) => Err(error),
        Ok(layout) => match dump_line(alloc, line, frame_at(bytes, layout)) {
            Err(error) => Err(error),
            Ok(()) => Ok(layout.frame_len),
        },
    }
}

/// Writes the line of the frame in front, with a payload of at most `max_payload` bytes, at the front of a buffer where
/// it fits.
#[unsafe(no_mangle)]
pub extern "C" fn feksroum_dump(
    alloc: Global,
    bytes: &[u8],
    out: &mut [u8],
    max_payload: u32,
) -> FrameLine
    ensures dumped { result.status ≢ out_of_memory
        → DumpedAt (judge_frame plain (Some max_payload) bytes.now) out.old out.new result }
    ensures memory { result.status ≡ out_of_memory
        → RefusesLine out_of_memory out.old out.new result }
{
    let mut line = Vec::new(alloc);
    match append_line(alloc, &mut line, bytes, max_payload) {
        Ok(used) => write_front(out, used, &line),
        Err(error) => nothing_with(error.status()),
    }
}

/// Writes the canonical bytes of the frame whose line is in front, with a payload of at most `max_payload` bytes, at
/// the front of a buffer where they fit.
#[unsafe(no_mangle)]
pub extern "C" fn feksroum_undump(
    alloc: Global,
    text: &[u8],
    out: &mut [u8],
    max_payload: u32,
) -> FrameLine
    ensures line { (frame : Frame) (rest : List ℕ)
        → IsStrictWithin max_payload frame → text.now ≡ line frame ++ rest
        → result.status ≢ out_of_memory
        → Converts (canon frame) (length (line frame)) out.old out.new result }
    ensures none { HoldsNewline text.now
        → IsNoFront max_payload text.now → result.status ≢ out_of_memory
        → RefusesLine bad_text out.old out.new result }
    ensures cut_short { HasNoNewline text.now → RefusesLine cut_short out.old out.new result }
    ensures memory { result.status ≡ out_of_memory
        → RefusesLine out_of_memory out.old out.new result }
{
    let Some(end) = line_end(text, 0) else {
        return nothing_with(StreamError::CutShort.status());
    };
    let mut canonical = Vec::new(alloc);
    match undump_line(alloc, &mut canonical, &text[..end], max_payload) {
        Ok(()) => write_front(out, end, &canonical),
        Err(TextError::BadText) => nothing_with(BAD_TEXT),
        Err(TextError::NoMemory) => nothing_with(StreamError::NoMemory.status()),
    }
}
