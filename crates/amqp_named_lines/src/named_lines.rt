//! The line of a typed frame, with names in front.

ghost use Rattle.amqp_wire.specs.Outlines.{outline_of};
ghost use Rattle.amqp_frame.specs.Frames.{frame_of};
ghost use Rattle.amqp_lines.specs.Rendering.{AppendsText};
ghost use Rattle.amqp_named_lines.specs.NamedLines.{AppendsNamedLine, names_in};

use crate::names::write_method;
use amqp_frame::{AMQPFrame, FrameOutline};
use amqp_text::gen_line;
use amqp_types::{GenError, NoMemory, append_bytes};
use std::alloc::Global;

/// Appends the names that stand in front of the line of a frame with this outline.
fn write_names(out: &mut Vec<u8>, outline: FrameOutline) -> Result<(), NoMemory>
    ensures { AppendsText out.old.items out.new.items (names_in outline) result }
{
    match outline {
        FrameOutline::Method {
            class_id,
            method_id,
            ..
        } => write_method(out, class_id, method_id),
        _ => Ok(()),
    }
}

/// Appends the line of a frame, with its newline, after the names of the method and of its fields, as in
/// `basic.ack delivery-tag multiple: method 1 60.80 7 -`. It refuses what `gen_frame` refuses. Whoever keeps such lines keeps the
/// passwords in them: the response of `connection.start-ok` and of `secure-ok`, and the secret of `update-secret`.
pub fn gen_named_line(alloc: Global, out: &mut Vec<u8>, frame: &AMQPFrame) -> Result<(), GenError>
    ensures { AppendsNamedLine out.old.items out.new.items (frame_of frame.now) result }
{
    let mut text = Vec::new(alloc);
    match write_names(&mut text, frame.outline()) {
        Ok(()) => {}
        Err(NoMemory) => return Err(GenError::NoMemory),
    }
    match gen_line(alloc, &mut text, frame) {
        Ok(()) => append_bytes(out, &text),
        Err(error) => Err(error),
    }
}
