//! What recutting keeps from frame to frame, and how it refuses a frame.

ghost use Rattle.std.specs.Prelude.{◌≤◌, ◌<◌, ◌^◌};

use crate::message::{Message, append_to};
use crate::pieces::{last_of, settle, write_pieces};
use amqp_in_turn::{OpenMessages, Refusal};
use amqp_stream::{
    Decision, FrameWriter, OutputBuffer, RunError, Sink, StreamError, as_run, payload_error,
    put_decided, write_canonical,
};
use amqp_turns::{Mark, Progress, step};
use amqp_types::{ChannelId, NoMemory};
use amqp_wire::{
    AMQPFrameType, AMQPRawFrame, FrameJudgement, FrameOutline, judge_frame, outline_raw,
};
use std::alloc::Global;

/// Cuts the bodies of messages into pieces of one size, and writes all else as it is.
#[derive(Drop)]
pub(crate) struct Recutter {
    alloc: Global,
    size: usize,
    messages: OpenMessages<Message>,
    ghost some: { 1 ≤ size },
    ghost few: { size < 2 ^ 32 },
}

impl Recutter {
    ghost use Rattle.std.specs.Prelude.{◌≡◌, ◌+◌, ◌++◌, [], length, Ok, Err, Some, None};
    ghost use Rattle.std.specs.Prelude.{IsSome, OnOk, OnErr, true, false};
    ghost use Rattle.std.specs.FinMap as finite;
    ghost use Rattle.amqp_wire.specs.Frames.{Frame, Body, raw_of, IsTyped};
    ghost use Rattle.amqp_wire.specs.Canonical.{canon, canon_frames};
    ghost use Rattle.amqp_wire.specs.Judgements.{IsJudged};
    ghost use Rattle.amqp_wire.specs.Verdicts.{decode_raw};
    ghost use Rattle.amqp_stream.specs.Decisions.{DecidesBy};
    ghost use Rattle.amqp_stream.specs.Streaming.{WritesBy, ending_of};
    ghost use Rattle.amqp_in_turn.specs.Judging.{JudgesKept};
    ghost use Rattle.amqp_recut.specs.Held.{held_with, set_at, progress_in, kept_in};
    ghost use Rattle.amqp_turns.specs.Splits.{frames_given, left_over};
    ghost use Rattle.amqp_recut.specs.Stepping.{recutting, step_recutting, held_at, body_raw};

    /// A writer that has taken no frame.
    pub(crate) fn new(alloc: Global, size: u32) -> Recutter
        requires { 1 ≤ size }
        ensures size { result.size ≡ size }
        ensures messages { result.messages ≡ finite.empty }
    {
        Recutter {
            alloc,
            size: size as usize,
            messages: OpenMessages::new(alloc),
        }
    }

    /// How far the message of a channel has come.
    #[inline(always)]
    fn progress(&self, channel_id: ChannelId) -> Option<Progress>
        ensures { result ≡ progress_in (held_at self.now channel_id) }
    {
        match self.messages.get(channel_id) {
            Some(message) => Some(message.progress()),
            None => None,
        }
    }

    /// The bytes that are kept of a channel.
    #[inline(always)]
    fn kept(&self, channel_id: ChannelId) -> &[u8]
        ensures { result.now ≡ kept_in (held_at self.now channel_id) }
    {
        match self.messages.get(channel_id) {
            Some(message) => message.kept(),
            None => &[],
        }
    }

    /// Keeps this of a channel, and no bytes. Where memory runs out, all stays.
    #[inline(always)]
    fn keep(&mut self, channel_id: ChannelId, progress: Option<Progress>) -> Result<(), NoMemory>
        ensures ok { OnOk result (self.new
            ≡ record self.old {
              messages = set_at self.old.messages channel_id (held_with progress []);
            }) }
        ensures err { OnErr result (self.new ≡ self.old) }
    {
        match progress {
            Some(progress) => {
                let message = Message::new(progress, Vec::new(self.alloc));
                self.messages.begin(channel_id, message)
            }
            None => {
                self.messages.forget(channel_id);
                Ok(())
            }
        }
    }

    /// Keeps nothing of a channel.
    fn forget(&mut self, channel_id: ChannelId)
        ensures { self.new
            ≡ record self.old { messages = finite.remove self.old.messages channel_id } }
    {
        self.messages.forget(channel_id);
    }

    /// Keeps more bytes of a message. Where memory runs out, all stays.
    fn append(
        &mut self,
        channel_id: ChannelId,
        progress: Progress,
        bytes: &[u8],
    ) -> Result<(), NoMemory>
        requires there { IsSome (held_at self.old channel_id) }
        ensures ok { OnOk result (self.new ≡ record self.old {
          messages = finite.insert self.old.messages channel_id
              (record {
                progress = progress;
                kept = kept_in (held_at self.old channel_id) ++ bytes.now;
              });
        }) }
        ensures err { OnErr result (self.new ≡ self.old) }
    {
        append_to(&mut self.messages, channel_id, progress, bytes)
    }

    /// Keeps these bytes of a message, and no others.
    fn replace(&mut self, channel_id: ChannelId, progress: Progress, kept: Vec<u8>)
        requires there { IsSome (held_at self.old channel_id) }
        ensures { self.new
            ≡ record self.old {
              messages =
                  finite.insert self.old.messages channel_id
                  (record { progress = progress; kept = kept.items });
            } }
    {
        self.messages
            .replace(channel_id, Some(Message::new(progress, kept)));
    }

    /// What is written for a whole frame that is no piece of a body: its canonical bytes.
    #[inline(always)]
    fn judge(raw: AMQPRawFrame<'_>) -> Result<Decision, StreamError>
        ensures { JudgesKept true (raw_of raw.entry) result }
    {
        match judge_frame(raw) {
            Ok(judged) => Ok(Decision::Kept(judged)),
            Err(error) => Err(payload_error(error)),
        }
    }

    /// Takes a method or content header that is part of a message.
    #[inline(always)]
    fn decide_part(
        &mut self,
        raw: AMQPRawFrame<'_>,
        progress: Option<Progress>,
        judged: FrameJudgement,
    ) -> Result<Decision, RunError<Refusal>>
        requires typed { IsTyped raw.frame_type }
        requires judged { IsJudged (raw_of raw) judged }
        requires steps { (frame : Frame) → decode_raw (raw_of raw) ≡ Ok frame
            → step_recutting self.old frame
            ≡ Ok (
              canon frame,
              record self.old {
                messages = set_at self.old.messages raw.channel_id (held_with progress []);
              },
            ) }
        ensures { DecidesBy recutting self.old self.new (raw_of raw.entry) result }
    {
        match self.keep(raw.channel_id, progress) {
            Err(_) => Err(RunError::Stream(StreamError::NoMemory)),
            Ok(()) => Ok(Decision::Kept(judged)),
        }
    }

    /// Takes a whole method or content header by its mark.
    #[inline(always)]
    fn decide_judged(
        &mut self,
        raw: AMQPRawFrame<'_>,
        judged: FrameJudgement,
    ) -> Result<Decision, RunError<Refusal>>
        requires typed { IsTyped raw.frame_type }
        requires judged { IsJudged (raw_of raw) judged }
        ensures { DecidesBy recutting self.old self.new (raw_of raw.entry) result }
    {
        let outline = outline_raw(raw);
        let stepped = step(u64::MAX, self.progress(raw.channel_id), outline);
        match stepped.0 {
            Mark::Fault(fault) => Err(RunError::Refused(Refusal::BadContent(fault))),
            Mark::Passed => Ok(Decision::Kept(judged)),
            Mark::Opening => self.decide_part(raw, stepped.1, judged),
            Mark::Header => self.decide_part(raw, stepped.1, judged),
            Mark::Body { .. } => self.decide_part(raw, stepped.1, judged),
        }
    }

    /// Takes a method or content header: a fault of its payload comes first. Passing has code of its own, since what is large is
    /// part of the loop only where one place calls it.
    #[inline(always)]
    fn decide_typed<const PASSING: bool>(
        &mut self,
        raw: AMQPRawFrame<'_>,
    ) -> Result<Decision, RunError<Refusal>>
        requires typed { IsTyped raw.frame_type }
        ensures { DecidesBy recutting self.old self.new (raw_of raw.entry) result }
    {
        match judge_frame(raw) {
            Err(error) => Err(RunError::Stream(payload_error(error))),
            Ok(judged) => self.decide_judged(raw, judged),
        }
    }

    /// Takes a body that is one piece, where nothing is kept of its message before it; and else leaves it.
    fn pass_body(&mut self, channel_id: ChannelId, payload: &[u8]) -> bool
        ensures taken { result ≡ true
            → step_recutting self.old (Body channel_id payload.now)
            ≡ Ok (canon (Body channel_id payload.now), self.new) }
        ensures left { result ≡ false → self.new ≡ self.old }
    {
        if payload.is_empty() || payload.len() > self.size {
            return false;
        }
        if !self.kept(channel_id).is_empty() {
            return false;
        }
        let outline = FrameOutline::Body {
            channel_id,
            length: payload.len() as u64,
        };
        let stepped = step(u64::MAX, self.progress(channel_id), outline);
        match stepped.0 {
            Mark::Body { .. } => match stepped.1 {
                None => {
                    self.forget(channel_id);
                    true
                }
                Some(progress) => {
                    if payload.len() < self.size {
                        return false;
                    }
                    match self.append(channel_id, progress, &[]) {
                        Ok(()) => true,
                        Err(_) => false,
                    }
                }
            },
            Mark::Fault(_) => false,
            Mark::Passed => false,
            Mark::Opening => false,
            Mark::Header => false,
        }
    }

    /// Gathers the last pieces of a body, and keeps nothing more of its message.
    #[inline(always)]
    fn end_body<K: Sink>(
        &mut self,
        out: &mut OutputBuffer,
        sink: &mut K,
        channel_id: ChannelId,
        payload: &[u8],
    ) -> Result<(), RunError<Refusal>>
        requires steps { step_recutting self.old (Body channel_id payload.now)
            ≡ Ok (
              canon_frames (frames_given self.old.size channel_id true
                  (kept_in (held_at self.old channel_id) ++ payload.now)),
              record self.old { messages = finite.remove self.old.messages channel_id },
            ) }
        ensures room { out.new.room ≡ out.old.room }
        ensures writes { WritesBy recutting self.old self.new
            (body_raw channel_id payload.now) (K.store sink.old) (K.store sink.new)
            out.old.bytes out.new.bytes (ending_of result) }
    {
        let size = self.size;
        let kept = self.kept(channel_id);
        match write_pieces(out, sink, channel_id, size, kept, payload, true) {
            Err(_) => return Err(RunError::Stream(StreamError::WriteFault)),
            Ok(()) => {}
        }
        self.forget(channel_id);
        Ok(())
    }

    /// Gathers the pieces that are whole, and keeps the bytes after them.
    fn go_on<K: Sink>(
        &mut self,
        out: &mut OutputBuffer,
        sink: &mut K,
        channel_id: ChannelId,
        payload: &[u8],
        progress: Progress,
    ) -> Result<(), RunError<Refusal>>
        requires there { IsSome (held_at self.old channel_id) }
        requires steps { step_recutting self.old (Body channel_id payload.now)
            ≡ Ok (
              canon_frames (frames_given self.old.size channel_id false
                  (kept_in (held_at self.old channel_id) ++ payload.now)),
              record self.old {
                messages = finite.insert self.old.messages channel_id
                    (record {
                      progress = progress;
                      kept =
                          left_over self.old.size
                          (kept_in (held_at self.old channel_id) ++ payload.now);
                    });
              },
            ) }
        ensures room { out.new.room ≡ out.old.room }
        ensures writes { WritesBy recutting self.old self.new
            (body_raw channel_id payload.now) (K.store sink.old) (K.store sink.new)
            out.old.bytes out.new.bytes (ending_of result) }
    {
        let size = self.size;
        let kept = self.kept(channel_id);
        let total = kept.len() + payload.len();
        if total < size {
            return match self.append(channel_id, progress, payload) {
                Ok(()) => Ok(()),
                Err(_) => Err(RunError::Stream(StreamError::NoMemory)),
            };
        }
        match last_of(self.alloc, kept, payload, total % size) {
            Err(_) => Err(RunError::Stream(StreamError::NoMemory)),
            Ok(left) => {
                match write_pieces(out, sink, channel_id, size, kept, payload, false) {
                    Err(_) => return Err(RunError::Stream(StreamError::WriteFault)),
                    Ok(()) => {}
                }
                self.replace(channel_id, progress, left);
                Ok(())
            }
        }
    }

    /// Gathers the pieces that a body completes.
    #[inline(always)]
    fn cut_body<K: Sink>(
        &mut self,
        out: &mut OutputBuffer,
        sink: &mut K,
        channel_id: ChannelId,
        payload: &[u8],
    ) -> Result<(), RunError<Refusal>>
        ensures room { out.new.room ≡ out.old.room }
        ensures writes { WritesBy recutting self.old self.new
            (body_raw channel_id payload.now) (K.store sink.old) (K.store sink.new)
            out.old.bytes out.new.bytes (ending_of result) }
    {
        let outline = FrameOutline::Body {
            channel_id,
            length: payload.len() as u64,
        };
        let stepped = step(u64::MAX, self.progress(channel_id), outline);
        match stepped.0 {
            Mark::Fault(fault) => Err(RunError::Refused(Refusal::BadContent(fault))),
            Mark::Body { .. } => match stepped.1 {
                Some(progress) => self.go_on(out, sink, channel_id, payload, progress),
                None => self.end_body(out, sink, channel_id, payload),
            },
            Mark::Passed => unreachable!(),
            Mark::Opening => unreachable!(),
            Mark::Header => unreachable!(),
        }
    }

    /// The same. Of what is pending then, no more stays than the frame had.
    #[inline(always)]
    fn write_body<K: Sink>(
        &mut self,
        out: &mut OutputBuffer,
        sink: &mut K,
        channel_id: ChannelId,
        payload: &[u8],
    ) -> Result<(), RunError<Refusal>>
        requires few { length payload.now < 2 ^ 32 }
        ensures room { out.new.room ≡ out.old.room }
        ensures writes { WritesBy recutting self.old self.new
            (body_raw channel_id payload.now) (K.store sink.old) (K.store sink.new)
            out.old.bytes out.new.bytes (ending_of result) }
        ensures compact { length out.new.bytes ≤ length out.old.bytes + (length payload.now + 8) }
    {
        let most = out.bytes().len() + payload.len() + 8;
        match self.cut_body(out, sink, channel_id, payload) {
            Err(error) => Err(error),
            Ok(()) => match settle(out, sink, most) {
                Err(_) => Err(RunError::Stream(StreamError::WriteFault)),
                Ok(()) => Ok(()),
            },
        }
    }
}

impl FrameWriter for Recutter {
    ghost use Rattle.amqp_recut.specs.Stepping.{recutting};

    type Refusal = Refusal;

    ghost manner = { recutting };

    #[inline(always)]
    fn pass(&mut self, raw: AMQPRawFrame<'_>) -> Result<Option<Decision>, RunError<Refusal>> {
        match raw.frame_type {
            AMQPFrameType::ProtocolHeader => match Recutter::judge(raw) {
                Ok(decision) => Ok(Some(decision)),
                Err(error) => Err(RunError::Stream(error)),
            },
            AMQPFrameType::Heartbeat => match Recutter::judge(raw) {
                Ok(decision) => Ok(Some(decision)),
                Err(error) => Err(RunError::Stream(error)),
            },
            AMQPFrameType::Method | AMQPFrameType::Header => match self.decide_typed::<true>(raw) {
                Ok(decision) => Ok(Some(decision)),
                Err(error) => Err(error),
            },
            AMQPFrameType::Body => {
                if self.pass_body(raw.channel_id, raw.payload) {
                    return Ok(Some(Decision::Kept(FrameJudgement {
                        canonical: true,
                        tidy: true,
                    })));
                }
                Ok(None)
            }
        }
    }

    fn write_frame<K: Sink>(
        &mut self,
        out: &mut OutputBuffer,
        sink: &mut K,
        raw: AMQPRawFrame<'_>,
    ) -> Result<(), RunError<Refusal>> {
        match raw.frame_type {
            AMQPFrameType::ProtocolHeader => as_run(write_canonical(out, sink, raw)),
            AMQPFrameType::Heartbeat => as_run(write_canonical(out, sink, raw)),
            AMQPFrameType::Method | AMQPFrameType::Header => match self.decide_typed::<false>(raw) {
                Ok(decision) => {
                    put_decided(out, raw, decision);
                    Ok(())
                }
                Err(error) => Err(error),
            },
            AMQPFrameType::Body => self.write_body(out, sink, raw.channel_id, raw.payload),
        }
    }

    fn finish(&self) -> Result<(), Refusal> {
        self.messages.finish()
    }
}
