//! The line of a typed frame, out of its canonical bytes.

ghost use Rattle.std.specs.Prelude.{◌≡◌, IfErr, IfOk, IsOk};
ghost use Rattle.amqp_wire.specs.Canonical.{canon, size_of};
ghost use Rattle.amqp_frame.specs.Frames.{frame_of};
ghost use Rattle.amqp_lines.specs.LineTexts.{AppendsLine};
ghost use Rattle.amqp_lines.specs.Lines.{line};

use amqp_frame::{AMQPFrame, frame_held, gen_frame};
use amqp_lines::{payload_in, write_line};
use amqp_types::{GenError, append_bytes};
use std::alloc::Global;

/// The line of a frame with these canonical bytes.
fn line_of(alloc: Global, frame: &AMQPFrame, bytes: &[u8]) -> Result<Vec<u8>, GenError>
    requires fits { IsOk (size_of (frame_of frame.now)) }
    requires canonical { bytes.now ≡ canon (frame_of frame.now) }
    ensures line { IfOk result (λ text. text.items ≡ line (frame_of frame.now)) }
    ensures memory { IfErr result (λ error. error ≡ GenError.NoMemory) }
{
    frame_held(frame);
    let outline = frame.outline();
    let mut text = Vec::new(alloc);
    match write_line(&mut text, outline, payload_in(outline, bytes)) {
        Ok(()) => Ok(text),
        Err(_) => Err(GenError::NoMemory),
    }
}

/// Appends the line of a frame, with its newline, and refuses what `gen_frame` refuses.
pub fn gen_line(alloc: Global, out: &mut Vec<u8>, frame: &AMQPFrame) -> Result<(), GenError>
    ensures { AppendsLine out.old.items out.new.items (frame_of frame.now) result }
{
    let mut bytes = Vec::new(alloc);
    gen_frame(alloc, &mut bytes, frame)?;
    let text = line_of(alloc, frame, &bytes)?;
    append_bytes(out, &text)
}
