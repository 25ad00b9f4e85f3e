//! Whose turn it is on a channel: one frame after another, by numbers that the caller keeps.

ghost use Rattle.std.specs.Prelude.{◌≡◌, ◌<◌};
ghost use Rattle.amqp_wire.specs.HeaderScan.{type_of};
ghost use Rattle.amqp_turns.specs.Steps.{body_mark};
ghost use Rattle.amqp_c.specs.Turns.{StepsOn, fault_step, kept_headed, kept_plain};
ghost use Rattle.amqp_c.specs.Turns.{mark_by, mark_if, outline_by, part_step};
ghost use Rattle.amqp_c.specs.Turns.{progress_in, refused_step, step_to};

use crate::frame_types::type_of_byte;
use crate::statuses::{BAD_ARGUMENT, BAD_CONTENT};
use amqp_stream::StreamError;
use amqp_turns::{ContentFault, Mark, Progress, step};
use amqp_types::{FRAME_BODY, Identifier, PayloadSize};
use amqp_wire::{AMQPFrameType, FrameOutline};

/// What is kept of a channel between two of its frames; zeros where no message is open.
#[repr(C)]
#[derive(Clone, Copy, Debug, PartialEq, Eq)]
pub struct ChannelState {
    /// Of a message whose content header has come: how many bytes its body has.
    pub size: u64,

    /// How many of these have come.
    pub seen: u64,

    /// 0 no message is open; 1 its opening has come; 2 its content header too; 3 a frame was not in turn.
    pub state: u32,

    /// 0.
    pub unused: u32,
}

/// What a frame is to its channel, and what is kept of the channel after it.
#[repr(C)]
#[derive(Clone, Copy, Debug, PartialEq, Eq)]
pub struct ChannelStep {
    /// What is kept after the frame. Where no step is made, all of it is 0.
    pub after: ChannelState,

    /// Of a body in turn: how many bytes of the whole body came before it.
    pub before: u64,

    /// Of a body in turn: how many have come with it.
    pub up_to: u64,

    /// Of a body in turn: how many the whole body has.
    pub size: u64,

    /// 0 no part of a message, 1 its opening, 2 its content header, 3 a body.
    pub part: u8,

    /// Whether the message is complete with this frame.
    pub finished: bool,

    /// Why a frame is not in turn, 1 to 7; else 0.
    pub fault: u8,

    /// 0; 24 where the frame is not in turn; 10 where the type is none; 41 where the state is none.
    pub status: u8,

    /// 0.
    pub unused: u32,
}

/// No message is open.
const BETWEEN: u32 = 0;

/// The opening of a message has come.
const OPENED: u32 = 1;

/// Its content header has come too.
const HEADED: u32 = 2;

/// A frame was not in turn.
const FAULTED: u32 = 3;

/// A frame by its numbers.
#[derive(Clone, Copy)]
struct FrameNumbers {
    frame_type: u8,
    class_id: Identifier,
    method_id: Identifier,
    size: PayloadSize,
}

/// Why no step is made.
enum NoStep {
    /// The numbers of the channel are none that a step leaves.
    State,

    /// No frame has this type.
    Type,
}

/// The outline of a frame by its numbers, on channel 0.
#[inline(always)]
fn outline_by(
    frame_type: AMQPFrameType,
    class_id: Identifier,
    method_id: Identifier,
    size: PayloadSize,
) -> FrameOutline
    ensures { result ≡ outline_by frame_type class_id method_id size }
{
    match frame_type {
        AMQPFrameType::ProtocolHeader => FrameOutline::ProtocolHeader,
        AMQPFrameType::Method => FrameOutline::Method {
            channel_id: 0,
            class_id,
            method_id,
        },
        AMQPFrameType::Header => FrameOutline::Header {
            channel_id: 0,
            class_id,
            body_size: size,
        },
        AMQPFrameType::Body => FrameOutline::Body {
            channel_id: 0,
            length: size,
        },
        AMQPFrameType::Heartbeat => FrameOutline::Heartbeat { channel_id: 0 },
    }
}

/// The mark of a frame on a channel of which this is kept.
#[inline(always)]
fn mark_if(max_body: u64, progress: Option<Progress>, frame: FrameNumbers) -> Result<Mark, NoStep>
    ensures { result
        ≡ mark_if max_body progress
        (type_of frame.frame_type) frame.class_id frame.method_id frame.size }
{
    let Some(frame_type) = type_of_byte(frame.frame_type) else {
        return Err(NoStep::Type);
    };
    let outline = outline_by(frame_type, frame.class_id, frame.method_id, frame.size);
    let (mark, _) = step(max_body, progress, outline);
    Ok(mark)
}

/// The mark of a body in a message of which more bytes are to come, so that no sum passes 64 bits.
#[inline(always)]
fn mark_body(size: PayloadSize, seen: PayloadSize, length: PayloadSize) -> Mark
    requires { seen < size }
    ensures { result ≡ body_mark size seen length }
{
    if length > size - seen {
        return Mark::Fault(ContentFault::BodyOverrun);
    }
    Mark::Body {
        before: seen,
        after: seen + length,
        size,
    }
}

/// The mark of a frame on a channel whose numbers are these. Each state has a call with what is kept then as a constant, so
/// that no state is tested twice.
#[inline(always)]
fn mark_by(max_body: u64, channel: ChannelState, frame: FrameNumbers) -> Result<Mark, NoStep>
    ensures { result
        ≡ mark_by max_body (progress_in channel)
        (type_of frame.frame_type) frame.class_id frame.method_id frame.size }
{
    let ChannelState {
        size,
        seen,
        state,
        unused,
    } = channel;
    if unused != 0 {
        return Err(NoStep::State);
    }
    if state < HEADED {
        if size != 0 || seen != 0 {
            return Err(NoStep::State);
        }
        if state == BETWEEN {
            return mark_if(max_body, None, frame);
        }
        return mark_if(max_body, Some(Progress::Opened), frame);
    }
    if state == HEADED {
        if seen >= size {
            return Err(NoStep::State);
        }
        if frame.frame_type == FRAME_BODY {
            return Ok(mark_body(size, seen, frame.size));
        }
        return mark_if(max_body, Some(Progress::Headed { size, seen }), frame);
    }
    if state != FAULTED || size != 0 || seen != 0 {
        return Err(NoStep::State);
    }
    mark_if(max_body, Some(Progress::Faulted), frame)
}

/// What is kept where no content header has come.
#[inline(always)]
fn kept_plain(state: u32) -> ChannelState
    ensures { result ≡ kept_plain state }
{
    ChannelState {
        size: 0,
        seen: 0,
        state,
        unused: 0,
    }
}

/// What is kept of a message whose content header has come.
#[inline(always)]
fn kept_headed(size: PayloadSize, seen: PayloadSize) -> ChannelState
    ensures { result ≡ kept_headed size seen }
{
    ChannelState {
        size,
        seen,
        state: HEADED,
        unused: 0,
    }
}

/// A frame that is no part of a message, by what is kept after it.
#[inline(always)]
fn step_to(after: ChannelState) -> ChannelStep
    ensures { result ≡ step_to after }
{
    ChannelStep {
        after,
        before: 0,
        up_to: 0,
        size: 0,
        part: 0,
        finished: false,
        fault: 0,
        status: 0,
        unused: 0,
    }
}

/// A part of a message but a body, by what is kept after it.
#[inline(always)]
fn part_step(part: u8, finished: bool, after: ChannelState) -> ChannelStep
    ensures { result ≡ part_step part finished after }
{
    ChannelStep {
        part,
        finished,
        ..step_to(after)
    }
}

/// A frame that is not in turn.
#[inline(always)]
fn fault_step(fault: u8) -> ChannelStep
    ensures { result ≡ fault_step fault }
{
    ChannelStep {
        fault,
        status: BAD_CONTENT,
        ..step_to(kept_plain(FAULTED))
    }
}

/// Where no step is made.
#[inline(always)]
fn refused_step(status: u8) -> ChannelStep
    ensures { result ≡ refused_step status }
{
    ChannelStep {
        status,
        ..step_to(kept_plain(BETWEEN))
    }
}

/// What one more frame is to its channel, by numbers: those that are kept of the channel, the frame's type and ids, and its
/// `size`: of a content header the size of the whole body, of a body its own bytes. Content headers may announce bodies of at
/// most `max_body` bytes.
#[tactic(auto, using(crate::proofs::StateNumbers::steps_made))]
#[unsafe(no_mangle)]
pub extern "C" fn feksroum_step(
    channel: ChannelState,
    frame_type: u8,
    class_id: Identifier,
    method_id: Identifier,
    size: PayloadSize,
    max_body: u64,
) -> ChannelStep
    ensures { StepsOn max_body (progress_in channel)
        (type_of frame_type) class_id method_id size result }
{
    let frame = FrameNumbers {
        frame_type,
        class_id,
        method_id,
        size,
    };
    // Each result is returned where it is made: joined, they would take twice the instructions.
    match mark_by(max_body, channel, frame) {
        Err(NoStep::State) => return refused_step(BAD_ARGUMENT),
        Err(NoStep::Type) => return refused_step(StreamError::UnknownFrameType.status()),
        Ok(Mark::Passed) if channel.state == HEADED => return step_to(channel),
        Ok(Mark::Passed) => return step_to(kept_plain(channel.state)),
        Ok(Mark::Opening) => return part_step(1, false, kept_plain(OPENED)),
        Ok(Mark::Header) if size == 0 => return part_step(2, true, kept_plain(BETWEEN)),
        Ok(Mark::Header) => return part_step(2, false, kept_headed(size, 0)),
        Ok(
            Mark::Body {
                before,
                after: up_to,
                size,
            },
        ) => {
            if up_to == size {
                return ChannelStep {
                    before,
                    up_to,
                    size,
                    ..part_step(3, true, kept_plain(BETWEEN))
                };
            }
            return ChannelStep {
                before,
                up_to,
                size,
                ..part_step(3, false, kept_headed(size, up_to))
            };
        }
        Ok(Mark::Fault(fault)) => return fault_step(fault.number()),
    }
}
