//! A caller of `amqp_frame`: decodes a frame, and writes the answer to it.

ghost use Rattle.std.specs.Prelude.{◌≡◌, IfOk, IfErr, OnErr};
ghost use Rattle.std.specs.Option.{option_map};
ghost use Rattle.amqp_frame.specs.Frames.{frame_of};
ghost use Rattle.amqp_vectors_frames.specs.Answering.{due, IsAnswered, IsRefused};

use amqp_frame::generation::gen_frame;
use amqp_frame::parsing::parse_frame;
use amqp_frame::{AMQPFrame, GenError, ParserError};
use amqp_protocol::{AMQPClass, channel};
use std::alloc::Global;

/// Why a frame was not answered.
#[derive(Debug, PartialEq, Drop)]
pub enum AnswerError {
    /// No frame stands at the front of the input.
    Parse(ParserError),

    /// The answer was not written.
    Gen(GenError),
}

/// The answer that is due to a frame: a heartbeat to a heartbeat, and `CloseOk` to `Close` of its channel.
fn answer_to(frame: &AMQPFrame) -> Option<AMQPFrame>
    ensures { option_map frame_of result ≡ due frame.now }
{
    match frame {
        AMQPFrame::Heartbeat => Some(AMQPFrame::Heartbeat),
        AMQPFrame::Method(id, AMQPClass::Channel(channel::AMQPMethod::Close(_))) => {
            let method = channel::AMQPMethod::CloseOk(channel::CloseOk::default());
            Some(AMQPFrame::Method(*id, AMQPClass::Channel(method)))
        }
        _ => None,
    }
}

/// Decodes the frame at the front of the input, appends its answer to `out`, and returns how many bytes of the input it
/// used. Where there is an error nothing is appended.
pub fn answer(alloc: Global, input: &[u8], out: &mut Vec<u8>) -> Result<usize, AnswerError>
    ensures answered { IfOk result (λ used. IsAnswered input.now out.old.items out.new.items used) }
    ensures refused { IfErr result (λ error. IsRefused input.now error) }
    ensures kept { OnErr result (out.new.items ≡ out.old.items) }
{
    let (used, frame) = match parse_frame(alloc, input) {
        Ok(found) => found,
        Err(error) => return Err(AnswerError::Parse(error)),
    };
    match answer_to(&frame) {
        None => Ok(used),
        Some(reply) => match gen_frame(alloc, out, &reply) {
            Ok(()) => Ok(used),
            Err(error) => Err(AnswerError::Gen(error)),
        },
    }
}
