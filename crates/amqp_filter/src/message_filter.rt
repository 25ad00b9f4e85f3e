//! What filtering keeps from frame to frame, and how it keeps, drops or refuses a frame.

ghost use Rattle.std.specs.Prelude.{◌≡◌, None, Ok, IsOk, IsTrue};
ghost use Rattle.amqp_wire.specs.Frames.{Frame, raw_of};
ghost use Rattle.amqp_wire.specs.Outlines.{outline_of};
ghost use Rattle.amqp_wire.specs.Verdicts.{decode_raw};
ghost use Rattle.amqp_turns.specs.Steps.{mark_after};
ghost use Rattle.amqp_turns.specs.InTurn.{greatest};

use crate::asked_rules::AskedRules;
use crate::messages::{Open, is_kept, message_with, progress_of};
use amqp_in_turn::{OpenMessages, Refusal};
use amqp_select::Rules;
use amqp_stream::{Decision, FrameDecider, RunError, StreamError, payload_error};
use amqp_turns::{Mark, Progress, step};
use amqp_types::{ChannelId, Identifier};
use amqp_wire::{
    AMQPFrameType, AMQPRawFrame, FrameJudgement, FrameOutline, judge_frame, outline_raw,
};
use std::alloc::Global;

/// The greatest id of a method that opens a message: that of `basic.get-ok`.
const LAST_OPENING: Identifier = 71;

/// Whether a frame is a method whose id no method that opens a message has. May return false for other frames of no message:
/// most methods that open none are acknowledgements. The low byte of an id is at most the id, and is read without the swap of
/// two.
#[inline(always)]
fn is_passed(outline: FrameOutline) -> bool
    ensures { IsTrue result → (mark_after greatest None outline ≡ Mark.Passed) }
{
    match outline {
        FrameOutline::Method { method_id, .. } => method_id % 256 > LAST_OPENING,
        _ => false,
    }
}

/// Whether a whole frame is a method or a heartbeat of no message, where none has begun.
#[inline(always)]
fn stands_alone(raw: AMQPRawFrame<'_>) -> bool
    requires { IsOk (decode_raw (raw_of raw)) }
    ensures { (frame : Frame) → decode_raw (raw_of raw.entry) ≡ Ok frame → IsTrue result
        → mark_after greatest None (outline_of frame) ≡ Mark.Passed }
{
    match raw.frame_type {
        AMQPFrameType::Method => is_passed(outline_raw(raw)),
        AMQPFrameType::Heartbeat => true,
        _ => false,
    }
}

/// Writes the canonical bytes of the messages whose openings rules keep, and of each other frame that they keep.
#[derive(Drop)]
pub(crate) struct MessageFilter<'a> {
    rules: AskedRules<'a>,
    messages: OpenMessages<Open>,
}

impl<'a> MessageFilter<'a> {
    ghost use Rattle.std.specs.Prelude.{◌≡◌, Ok, Some, None, IsOk, IsSome, true};
    ghost use Rattle.std.specs.FinMap as finite;
    ghost use Rattle.amqp_wire.specs.Frames.{Frame, Raw, raw_of};
    ghost use Rattle.amqp_wire.specs.Judgements.{IsJudged};
    ghost use Rattle.amqp_wire.specs.Outlines.{outline_of, outline_front};
    ghost use Rattle.amqp_wire.specs.Verdicts.{decode_raw, decode_payload};
    ghost use Rattle.amqp_stream.specs.Decisions.{DecidesBy, PassesBy};
    ghost use Rattle.amqp_in_turn.specs.Judging.{JudgesKept};
    ghost use Rattle.amqp_filter.specs.Held.{held_with};
    ghost use Rattle.amqp_filter.specs.Stepping.{filtering, held_at, with_held, StepsTo, KeepsBy};

    /// A writer that has taken no frame.
    pub(crate) fn new(alloc: Global, rules: &'a Rules) -> MessageFilter<'a>
        ensures rules { result.rules ≡ rules.now }
        ensures messages { result.messages ≡ finite.empty }
    {
        MessageFilter {
            rules: AskedRules::new(rules),
            messages: OpenMessages::new(alloc),
        }
    }

    /// What is decided of a whole frame that was judged so: its canonical bytes are written, where it is kept.
    #[inline(always)]
    fn decision_of(judged: FrameJudgement, kept: bool) -> Decision
        ensures { (raw : Raw) → IsJudged raw judged → JudgesKept kept raw (Ok result) }
    {
        if kept {
            Decision::Kept(judged)
        } else {
            Decision::Dropped
        }
    }

    /// Begins a message with its opening, and returns whether it is kept.
    #[inline(always)]
    fn begin(&mut self, raw: AMQPRawFrame<'_>, kept: bool) -> Result<bool, RunError<Refusal>>
        requires method { raw.frame_type ≡ AMQPFrameType.Method }
        requires none { held_at self.old raw.channel_id ≡ None }
        requires steps { StepsTo self.old
            (with_held self.old raw.channel_id (held_with (Some Progress.Opened) kept))
            (raw_of raw) kept }
        ensures { KeepsBy self.old self.new (raw_of raw.entry) result }
    {
        let message = Open {
            progress: Progress::Opened,
            kept,
        };
        match self.messages.begin(raw.channel_id, message) {
            Err(_) => Err(RunError::Stream(StreamError::NoMemory)),
            Ok(()) => Ok(kept),
        }
    }

    /// Goes on with a message, to how far it has come after one more frame, and returns whether it is kept.
    #[inline(always)]
    fn go_on(&mut self, raw: AMQPRawFrame<'_>, progress: Option<Progress>, kept: bool) -> bool
        requires there { IsSome (held_at self.old raw.channel_id) }
        requires steps { StepsTo self.old
            (with_held self.old raw.channel_id (held_with progress kept)) (raw_of raw) kept }
        ensures { StepsTo self.old self.new (raw_of raw.entry) result }
    {
        self.messages
            .replace(raw.channel_id, message_with(progress, kept));
        kept
    }

    /// Takes a whole frame by its mark, and returns whether it is kept.
    #[inline(always)]
    fn keep_outlined(
        &mut self,
        raw: AMQPRawFrame<'_>,
        outline: FrameOutline,
    ) -> Result<bool, RunError<Refusal>>
        requires is_whole { IsOk (decode_raw (raw_of raw)) }
        requires front { outline ≡ outline_front (raw_of raw) }
        requires whole { (frame : Frame) → decode_raw (raw_of raw) ≡ Ok frame
            → Some outline ≡ Some (outline_of frame) }
        ensures { KeepsBy self.old self.new (raw_of raw.entry) result }
    {
        let held = self.messages.get(raw.channel_id).copied();
        let stepped = step(u64::MAX, progress_of(held), outline);
        match stepped.0 {
            Mark::Fault(fault) => Err(RunError::Refused(Refusal::BadContent(fault))),
            Mark::Passed => {
                let kept = self.rules.decide(raw);
                Ok(kept)
            }
            Mark::Opening => {
                let kept = self.rules.decide(raw);
                self.begin(raw, kept)
            }
            Mark::Header | Mark::Body { .. } => {
                let kept = is_kept(held);
                Ok(self.go_on(raw, stepped.1, kept))
            }
        }
    }

    /// The same where messages have begun, or the frame may begin one. It is part of the loop's code: as a call it would cost
    /// frames of messages a third more instructions, and others a tenth more.
    #[inline(always)]
    fn keep_apart(
        &mut self,
        frame_type: AMQPFrameType,
        channel_id: ChannelId,
        payload: &[u8],
    ) -> Result<bool, RunError<Refusal>>
        requires { IsOk (decode_payload frame_type channel_id payload.now) }
        ensures { KeepsBy self.old self.new
            (record { kind = frame_type; channel = channel_id; payload = payload.now }) result }
    {
        let raw = AMQPRawFrame {
            frame_type,
            channel_id,
            payload,
        };
        self.keep_outlined(raw, outline_raw(raw))
    }

    /// Takes a whole frame, and returns whether it is kept. Where no message has begun, one that stands alone is looked up
    /// nowhere.
    #[inline(always)]
    fn keep(&mut self, raw: AMQPRawFrame<'_>) -> Result<bool, RunError<Refusal>>
        requires { IsOk (decode_raw (raw_of raw)) }
        ensures { KeepsBy self.old self.new (raw_of raw.entry) result }
    {
        if self.messages.is_empty() && stands_alone(raw) {
            let kept = self.rules.decide(raw);
            return Ok(kept);
        }
        self.keep_apart(raw.frame_type, raw.channel_id, raw.payload)
    }

    /// Whether a whole frame is kept, and what is kept of messages stays as it is. May return false for other such frames.
    #[inline(always)]
    fn keeps_alone(&self, raw: AMQPRawFrame<'_>) -> bool
        requires { IsOk (decode_raw (raw_of raw)) }
        ensures { result ≡ true → StepsTo self.now self.now (raw_of raw.entry) true }
    {
        if !self.rules.keep_all() {
            return false;
        }
        if !stands_alone(raw) {
            return false;
        }
        self.messages.is_empty()
    }

    /// Takes a frame: a fault of its payload comes first. The number says which of the calls below this is for: each has code
    /// of its own, since what is large is part of the loop only where one place calls it.
    #[inline(always)]
    fn take<const CALL: usize>(
        &mut self,
        raw: AMQPRawFrame<'_>,
    ) -> Result<Decision, RunError<Refusal>>
        ensures { DecidesBy filtering self.old self.new (raw_of raw.entry) result }
    {
        match judge_frame(raw) {
            Err(error) => Err(RunError::Stream(payload_error(error))),
            Ok(judged) => {
                if self.keeps_alone(raw) {
                    return Ok(Decision::Kept(judged));
                }
                match self.keep(raw) {
                    Err(error) => Err(error),
                    Ok(kept) => Ok(MessageFilter::decision_of(judged, kept)),
                }
            }
        }
    }

    /// The same, as a writer passes a frame.
    #[inline(always)]
    fn pass_taken<const CALL: usize>(
        &mut self,
        raw: AMQPRawFrame<'_>,
    ) -> Result<Option<Decision>, RunError<Refusal>>
        ensures { PassesBy filtering self.old self.new (raw_of raw.entry) result }
    {
        match self.take::<CALL>(raw) {
            Ok(decision) => Ok(Some(decision)),
            Err(error) => Err(error),
        }
    }
}

impl<'a> FrameDecider for MessageFilter<'a> {
    ghost use Rattle.amqp_filter.specs.Stepping.{filtering};

    type Refusal = Refusal;

    ghost manner = { filtering };

    #[inline(always)]
    fn decide(&mut self, raw: AMQPRawFrame<'_>) -> Result<Decision, RunError<Refusal>> {
        self.take::<0>(raw)
    }

    // So the loop has code for each type, without the tests for other types.
    #[inline(always)]
    fn pass_decided(
        &mut self,
        raw: AMQPRawFrame<'_>,
    ) -> Result<Option<Decision>, RunError<Refusal>> {
        match raw.frame_type {
            AMQPFrameType::Method => self.pass_taken::<1>(raw),
            AMQPFrameType::Header => self.pass_taken::<2>(raw),
            AMQPFrameType::Body => self.pass_taken::<3>(raw),
            AMQPFrameType::ProtocolHeader | AMQPFrameType::Heartbeat => self.pass_taken::<4>(raw),
        }
    }

    fn finish(&self) -> Result<(), Refusal> {
        self.messages.finish()
    }
}
