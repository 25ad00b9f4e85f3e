//! The one loop that reads frames and writes for each.

ghost use Rattle.std.specs.Prelude.{◌≡◌, ◌+◌, ◌≤◌, [], length, drop, Ok, Err, IsTrue};
ghost use Rattle.amqp_types.specs.Judging.{IsBytes};
ghost use Rattle.amqp_wire.specs.Looks.{laid_out};
ghost use Rattle.amqp_stream.specs.Changes.{◌⇒◌};
ghost use Rattle.amqp_stream.specs.Calls.{call_of};
ghost use Rattle.amqp_stream.specs.Reading.{Lies};
ghost use Rattle.amqp_wire.specs.Frames.{frame_length};
ghost use Rattle.amqp_stream.specs.Streaming.{ending_of, end_with};
ghost use Rattle.amqp_stream.specs.Resuming.{Resumes};
ghost use Rattle.amqp_stream.specs.Decisions.{PassesBy};
ghost use Rattle.amqp_stream.specs.Taking.{TakesFrame};

use crate::decision::{Decision, put_decided, stands};
use crate::errors::{RunError, StreamError};
use crate::frame_writer::FrameWriter;
use crate::kept::take_kept;
use crate::output::{gather_stretch, stop, stop_after, write_after};
use crate::output_buffer::OutputBuffer;
use crate::reader::FrameReader;
use crate::sink::Sink;
use crate::source::Source;
use crate::stretch::Stretch;
use amqp_wire::FrameLayout;

/// The result at the end of input: bytes that are held are cut short.
fn end_of_input<W: FrameWriter>(
    reader: &FrameReader,
    writer: &W,
) -> Result<(), RunError<W::Refusal>>
    ensures { ending_of result ≡ end_with reader.now.held (W.manner.end writer.now) }
{
    if !reader.is_empty() {
        return Err(RunError::Stream(StreamError::CutShort));
    }
    match writer.finish() {
        Ok(()) => Ok(()),
        Err(why) => Err(RunError::Refused(why)),
    }
}

/// Takes the frame after the stretch, of which this was decided. Where it is not kept, the stretch is gathered, and then what
/// is written for the frame; nothing has passed then. It is no part of the loop's code, which is for frames that stand.
#[inline(never)]
fn take_decided<W: FrameWriter, K: Sink>(
    reader: &mut FrameReader,
    out: &mut OutputBuffer,
    writer: &mut W,
    sink: &mut K,
    stretch: Stretch,
    layout: FrameLayout,
    decision: Option<Decision>,
) -> Result<Stretch, RunError<W::Refusal>>
    requires within { stretch.len ≤ length reader.old.held }
    requires lies { Lies reader.old.limit (drop stretch.len reader.old.held) layout }
    requires room { IsTrue W.manner.compact
        → length out.old.bytes + stretch.len
        + frame_length (laid_out layout (drop stretch.len reader.old.held))
        ≤ out.old.room }
    requires decided { (s : W)
        × PassesBy W.manner s writer.old
        (laid_out layout (drop stretch.len reader.old.held)) (Ok decision) }
    ensures limit { reader.new.limit ≡ reader.old.limit }
    ensures room { out.new.room ≡ out.old.room }
    ensures takes { (s : W)
        → PassesBy W.manner s writer.old
        (laid_out layout (drop stretch.len reader.old.held)) (Ok decision)
        → TakesFrame W.manner s writer.new layout (K.store sink.old) (K.store sink.new)
        reader.old.held reader.new.held out.old.bytes out.new.bytes stretch result }
{
    if let Some(Decision::Kept(judged)) = decision {
        return Ok(take_kept(reader, out, stretch, layout, judged));
    }
    match gather_stretch(out, sink, reader.front(stretch.len), stretch.has_large()) {
        Err(_) => {
            reader.skip(stretch.len);
            return Err(RunError::Stream(StreamError::WriteFault));
        }
        Ok(()) => {}
    }
    let raw = reader.frame_after(stretch.len, layout);
    let used = stretch.len + layout.frame_len;
    match decision {
        Some(decision) => {
            put_decided(out, raw, decision);
            reader.skip(used);
            Ok(Stretch::empty())
        }
        None => match writer.write_frame(out, sink, raw) {
            Err(error) => {
                reader.skip(stretch.len);
                Err(stop(out, sink, error))
            }
            Ok(()) => {
                reader.skip(used);
                Ok(Stretch::empty())
            }
        },
    }
}

/// A layout that lies elsewhere, so that the loop's own stays in registers.
#[inline(always)]
fn copy_layout(layout: FrameLayout) -> FrameLayout
    ensures { result ≡ layout }
{
    FrameLayout {
        frame_type: layout.frame_type,
        channel_id: layout.channel_id,
        payload_start: layout.payload_start,
        payload_len: layout.payload_len,
        frame_len: layout.frame_len,
    }
}

/// Takes the frame that lies after the stretch, and returns the stretch after it. A frame that stands lengthens it. At an
/// error all that was gathered is written.
#[inline(always)]
fn take_frame<W: FrameWriter, K: Sink>(
    reader: &mut FrameReader,
    out: &mut OutputBuffer,
    writer: &mut W,
    sink: &mut K,
    stretch: Stretch,
    layout: FrameLayout,
) -> Result<Stretch, RunError<W::Refusal>>
    requires within { stretch.len ≤ length reader.old.held }
    requires bytes { IsBytes reader.old.held }
    requires lies { Lies reader.old.limit (drop stretch.len reader.old.held) layout }
    requires room { IsTrue W.manner.compact
        → length out.old.bytes + stretch.len
        + frame_length (laid_out layout (drop stretch.len reader.old.held))
        ≤ out.old.room }
    ensures limit { reader.new.limit ≡ reader.old.limit }
    ensures room { out.new.room ≡ out.old.room }
    ensures takes { TakesFrame W.manner writer.old writer.new layout
        (K.store sink.old) (K.store sink.new)
        reader.old.held reader.new.held out.old.bytes out.new.bytes stretch result }
{
    let passed = writer.pass(reader.frame_after(stretch.len, layout));
    if stands(&passed) {
        return Ok(stretch.with(layout));
    }
    if stretch.len == 0 {
        if let Ok(Some(Decision::Dropped)) = passed {
            reader.skip(layout.frame_len);
            return Ok(stretch);
        }
    }
    let layout = copy_layout(layout);
    match passed {
        Err(error) => {
            let bytes = reader.front(stretch.len);
            let error = stop_after(out, sink, bytes, stretch.has_large(), error);
            reader.skip(stretch.len);
            Err(error)
        }
        Ok(decision) => take_decided(reader, out, writer, sink, stretch, layout, decision),
    }
}

/// Writes for each frame that is held or read, to the end of input. What is pending is written before each
/// read, and at the end; frames that stand are written from where they lie. What follows the frames that were taken is
/// held afterwards, also where a write failed.
/// `came` counts the bytes that reads gave, and stays at its last value.
pub(crate) fn run_with<W: FrameWriter, S: Source, K: Sink>(
    reader: &mut FrameReader,
    out: &mut OutputBuffer,
    writer: &mut W,
    source: &mut S,
    sink: &mut K,
    budget: u64,
    came: &mut u64,
) -> Result<(), RunError<W::Refusal>>
    requires room { reader.old.limit + 8 ≤ out.old.room }
    ensures limit { reader.new.limit ≡ reader.old.limit }
    ensures room { out.new.room ≡ out.old.room }
    ensures stream { Resumes W.manner (writer.old ⇒ writer.new)
        (call_of reader.old.limit budget
        (S.supply source.old ⇒ S.supply source.new)
        (K.store sink.old ⇒ K.store sink.new))
        (reader.old.held ⇒ reader.new.held) (came.old ⇒ came.new) (ending_of result) }
    ensures unread { budget ≡ 0 → source.new ≡ source.old }
    ensures spent { reader.old.held ≡ [] → budget ≡ 0
        → result ≡ Err (RunError.Stream StreamError.TurnsSpent) }
    ensures unwritten { reader.old.held ≡ [] → budget ≡ 0 → sink.new ≡ sink.old }
{
    // For the proof alone, from the contract: what is held are bytes, and no more than the largest frame has.
    reader.held();
    out.clear();
    let mut left = budget;
    let mut stretch = Stretch::empty();
    'frames: loop {
        match reader.buffered_after(stretch.len) {
            Err(error) => {
                let error = RunError::Stream(StreamError::from(error));
                let bytes = reader.front(stretch.len);
                let error = stop_after(out, sink, bytes, stretch.has_large(), error);
                reader.skip(stretch.len);
                return Err(error);
            }
            Ok(Some(layout)) => match take_frame(reader, out, writer, sink, stretch, layout) {
                Err(error) => return Err(error),
                Ok(longer) => {
                    stretch = longer;
                    continue;
                }
            },
            Ok(None) => {}
        }
        match write_after(out, sink, reader.front(stretch.len), stretch.has_large()) {
            Err(_) => {
                reader.skip(stretch.len);
                return Err(RunError::Stream(StreamError::WriteFault));
            }
            Ok(()) => {}
        }
        reader.skip(stretch.len);
        stretch = Stretch::empty();
        if left == 0 {
            return Err(RunError::Stream(StreamError::TurnsSpent));
        }
        left -= 1;
        match reader.fill(source) {
            Err(_) => return Err(RunError::Stream(StreamError::ReadFault)),
            Ok(0) => return end_of_input(reader, writer),
            Ok(count) => *came = came.saturating_add(count as u64),
        }
    }
}
