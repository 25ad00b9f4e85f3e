//! Makes frames, and prints how many bytes they have.

ghost use Rattle.std.specs.Prelude.{◌≡◌, ◌≤◌, IfOk, string_bytes};
ghost use Rattle.amqp_stream.specs.Made.{most_frames};
ghost use Rattle.amqp_program.specs.Makes.{bytes_read, bytes_written, make_text, RunsMake};

use crate::report::MAX_PAYLOAD;
use amqp_stream::{CountSink, MakeSource, Sink, StreamError, canonicalize, write_all};
use amqp_types::NoMemory;
use std::alloc::Global;

/// The number of bytes of so many frames: four of them have 59.
fn count_read(frames: u32) -> u64
    requires { frames ≤ most_frames }
    ensures { result ≡ bytes_read frames }
{
    let rest = match frames % 4 {
        0 => 0,
        1 => 9,
        2 => 18,
        _ => 31,
    };
    59 * u64::from(frames / 4) + rest
}

/// The number of canonical bytes of so many frames, which have so many bytes.
fn count_written(alloc: Global, frames: u32, read: u64) -> Result<u64, NoMemory>
    requires few { frames ≤ most_frames }
    requires read { read ≡ bytes_read frames }
    ensures { IfOk result (λ n. n ≡ bytes_written frames) }
{
    let mut source = MakeSource::new(frames);
    let mut sink = CountSink::new();
    let answer = canonicalize(alloc, &mut source, &mut sink, MAX_PAYLOAD, read + 1);
    let written = sink.total();
    match answer {
        Ok(()) => Ok(written),
        Err(error) => match error {
            StreamError::NoMemory => Err(NoMemory),
            _ => unreachable!(),
        },
    }
}

/// The line that is printed for so many frames.
fn line_of(alloc: Global, frames: u32) -> Result<String, NoMemory>
    requires { frames ≤ most_frames }
    ensures { IfOk result (λ line. string_bytes line ≡ make_text frames) }
{
    let read = count_read(frames);
    let written = count_written(alloc, frames, read)?;
    Ok(format!(in alloc; "frames {frames} in {read} out {written}\n")?)
}

/// Makes so many frames, canonicalizes them, and prints how many bytes were read and written. The
/// line is made whole before it is written.
pub fn run_make<K: Sink>(alloc: Global, frames: u32, sink: &mut K) -> u8
    requires { frames ≤ most_frames }
    ensures run { RunsMake frames (K.store sink.old) (K.store sink.new) result }
    ensures few { result ≤ 5 }
{
    let Ok(line) = line_of(alloc, frames) else {
        return 3;
    };
    match write_all(sink, line.as_bytes()) {
        Ok(()) => 0,
        Err(_) => 5,
    }
}
