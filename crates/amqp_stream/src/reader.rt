//! Reading frames: a buffer for the largest of them, filled by reads, out of which they are borrowed.

ghost use Rattle.std.specs.Prelude.{◌≡◌};
ghost use Rattle.amqp_stream.specs.Reports.{channel_in, has_channel};

use crate::buffer::{Span, held_of, read_more};
use crate::errors::ReadError;
use crate::source::{Source, SourceFault};
use amqp_types::{
    ChannelId, ChunkSize, FRAME_BODY, FRAME_HEADER, FRAME_HEARTBEAT, FRAME_METHOD, NoMemory,
    put_bytes,
};
use amqp_wire::{AMQPRawFrame, FrameLayout, Look, look_at};
use std::alloc::Global;
use std::marker::Model;

/// Whether a frame that begins with this byte has a channel: a protocol header has none.
fn has_channel(kind: u8) -> bool
    ensures { result ≡ has_channel kind }
{
    kind == FRAME_METHOD || kind == FRAME_HEADER || kind == FRAME_BODY || kind == FRAME_HEARTBEAT
}

/// The channel of the frame that some bytes begin with, where its header is there.
#[tactic(auto, unfolding(crate::specs::Reports::channel_in))]
fn channel_in(bytes: &[u8]) -> Option<ChannelId>
    ensures { result ≡ channel_in bytes.now }
{
    if bytes.len() < 7 {
        return None;
    }
    if !has_channel(bytes[0]) {
        return None;
    }
    let rest = &bytes[1..];
    Some(u16::from_be_bytes([rest[0], rest[1]]))
}

/// A reader of frames, over a buffer for the largest of them that is reserved in full. A frame is
/// borrowed out of the buffer, and no call but `open` takes memory.
#[derive(Drop)]
pub struct FrameReader {
    buf: Vec<u8>,
    span: Span,
    max_payload: ChunkSize,
}

impl Model for FrameReader {
    ghost use Rattle.std.specs.Prelude.{◌≡◌, ◌+◌, ◌^◌, ◌<◌, vec_len};
    ghost use Rattle.amqp_stream.specs.Reading.{Holding};
    ghost use Rattle.amqp_stream.specs.Spans.{IsSpan, held_in};

    ghost Value = { Holding };

    ghost view = { λ reader.
        record { limit = reader.max_payload; held = held_in reader.buf.items reader.span } };

    ghost invariant = { λ reader. IsSpan reader.span (vec_len reader.buf)
        × (vec_len reader.buf ≡ reader.max_payload + 8) × (reader.max_payload < 2 ^ 32) };
}

impl FrameReader {
    ghost use Rattle.std.specs.Prelude.{◌≡◌, ◌≢◌, ◌+◌, ◌^◌, ◌<◌, ◌≤◌, ◌↔◌, [], Some, IsTrue};
    ghost use Rattle.std.specs.Prelude.{IfOk, IfSome, length, take, drop};
    ghost use Rattle.std.specs.Borrow.{sem};
    ghost use Rattle.std.specs.Io.BufRead.{Rests};
    ghost use Rattle.amqp_types.specs.Judging.{past, IsBytes};
    ghost use Rattle.amqp_types.specs.Writing.{written};
    ghost use Rattle.amqp_wire.specs.Frames.{raw_of};
    ghost use Rattle.amqp_wire.specs.HeaderScan.{scan};
    ghost use Rattle.amqp_wire.specs.Looks.{laid_out};
    ghost use Rattle.amqp_stream.specs.contracts.reader.FrameReader.{the_row};
    ghost use Rattle.amqp_stream.specs.Changes.{◌⇒◌};
    ghost use Rattle.amqp_stream.specs.Reading.{Holding, ReadsMore, Lies};
    ghost use Rattle.amqp_stream.specs.Reading.{LiesIn, IsBorrowed, Finds, HasNext};
    ghost use Rattle.amqp_stream.specs.Reports.{channel_in};

    /// A reader that holds nothing, for payloads of at most so many bytes.
    pub fn open(alloc: Global, max_payload: ChunkSize) -> Result<FrameReader, NoMemory>
        ensures { IfOk result (λ reader. reader ≡ record { limit = max_payload; held = [] }) }
    {
        let buf = vec![in alloc; 0u8; max_payload as usize + 8]?;
        Ok(FrameReader {
            buf,
            span: Span { start: 0, end: 0 },
            max_payload,
        })
    }

    /// Drops what is held, a fault too.
    pub fn clear(&mut self)
        ensures { self.new ≡ record { limit = self.old.limit; held = [] } }
    {
        self.span = Span { start: 0, end: 0 };
    }

    /// The held bytes: those that were read and belong to no frame that was returned or dropped.
    #[inline(always)]
    pub fn held(&self) -> &[u8]
        ensures held { result.now ≡ self.now.held }
        ensures bytes { IsBytes self.now.held }
        ensures room { length self.now.held ≤ self.now.limit + 8 }
        ensures limit { self.now.limit < 2 ^ 32 }
    {
        held_of(&self.buf, self.span)
    }

    /// Whether no bytes are held.
    pub fn is_empty(&self) -> bool
        ensures { IsTrue result ↔ self.now.held ≡ [] }
    {
        self.span.start == self.span.end
    }

    /// The channel of the frame at the front of the held bytes, where its header is there.
    pub fn channel(&self) -> Option<ChannelId>
        ensures { result ≡ channel_in self.now.held }
    {
        channel_in(self.held())
    }

    /// The first held bytes.
    #[inline(always)]
    pub fn front(&self, count: usize) -> &[u8]
        requires { count ≤ length self.now.held }
        ensures { result.now ≡ take count self.now.held }
    {
        &self.held()[..count]
    }

    /// Where the frame at the front of the held bytes lies in them; `None` where more bytes are
    /// needed. Nothing is read.
    pub fn buffered(&self) -> Result<Option<FrameLayout>, ReadError>
        ensures finds { Finds self.now.limit self.now.held result }
        ensures bytes { IsBytes self.now.held }
        ensures room { length self.now.held ≤ self.now.limit + 8 }
    {
        self.buffered_after(0)
    }

    /// The same of the bytes after the first of those that are held.
    #[inline(always)]
    pub fn buffered_after(&self, passed: usize) -> Result<Option<FrameLayout>, ReadError>
        requires { passed ≤ length self.now.held }
        ensures finds { Finds self.now.limit (drop passed self.now.held) result }
        ensures bytes { IsBytes self.now.held }
        ensures room { length self.now.held ≤ self.now.limit + 8 }
    {
        match look_at(Some(self.max_payload), &self.held()[passed..]) {
            Look::Whole(layout) => Ok(Some(layout)),
            Look::Incomplete => Ok(None),
            Look::UnknownFrameType => Err(ReadError::UnknownFrameType),
            Look::BadProtocolHeader => Err(ReadError::BadProtocolHeader),
            Look::TooLarge => Err(ReadError::TooLarge),
            Look::BadFrameEnd => Err(ReadError::BadFrameEnd),
        }
    }

    /// The frame at the front of the held bytes, whose payload is borrowed out of them.
    pub fn frame(&self, layout: FrameLayout) -> AMQPRawFrame<'_>
        requires { Lies self.now.limit self.now.held layout }
        ensures frame { raw_of result ≡ laid_out layout self.now.held }
        ensures few { length result.payload.now < 2 ^ 32 }
    {
        self.frame_after(0, layout)
    }

    /// The frame after the first held bytes.
    #[inline(always)]
    pub fn frame_after(&self, passed: usize, layout: FrameLayout) -> AMQPRawFrame<'_>
        requires passed { passed ≤ length self.now.held }
        requires lies { Lies self.now.limit (drop passed self.now.held) layout }
        ensures frame { raw_of result ≡ laid_out layout (drop passed self.now.held) }
        ensures few { length result.payload.now < 2 ^ 32 }
        ensures place { passed + layout.frame_len < 2 ^ 63 }
    {
        let held = self.held();
        let start = passed + layout.payload_start;
        AMQPRawFrame {
            frame_type: layout.frame_type,
            channel_id: layout.channel_id,
            payload: &held[start..start + layout.payload_len],
        }
    }

    /// Drops the frame at the front of the held bytes.
    pub fn consume(&mut self, layout: FrameLayout)
        requires { Lies self.old.limit self.old.held layout }
        ensures limit { self.new.limit ≡ self.old.limit }
        ensures held { self.new.held ≡ drop layout.frame_len self.old.held }
    {
        self.skip(layout.frame_len);
    }

    /// Drops the first held bytes.
    #[inline(always)]
    pub fn skip(&mut self, count: usize)
        requires { count ≤ length self.old.held }
        ensures limit { self.new.limit ≡ self.old.limit }
        ensures held { self.new.held ≡ drop count self.old.held }
    {
        self.span.start += count;
    }

    /// Puts bytes in the place of held ones, after the first `passed`.
    pub(crate) fn replace(&mut self, passed: usize, bytes: &[u8])
        requires { passed + length bytes.now ≤ length self.old.held }
        ensures limit { self.new.limit ≡ self.old.limit }
        ensures held { self.new.held ≡ written self.old.held passed bytes.now }
    {
        put_bytes(&mut self.buf, self.span.start + passed, bytes);
    }

    /// Reads once, after the held bytes, and returns how many bytes came. None is the end of input.
    pub fn fill<S: Source>(&mut self, source: &mut S) -> Result<usize, SourceFault>
        requires { scan (Some self.old.limit) self.old.held ≡ past }
        ensures limit { self.new.limit ≡ self.old.limit }
        ensures room { length self.new.held ≤ self.old.limit + 8 }
        ensures reads { ReadsMore (S.supply source.old ⇒ S.supply source.new)
            (self.old.held ⇒ self.new.held) result }
    {
        let mut span = self.span;
        let count = read_more(source, &mut self.buf, &mut span);
        self.span = span;
        count
    }

    /// Reads until a frame or a fault stands at the front of the held bytes, and returns where the
    /// frame lies.
    fn pull<S: Source>(
        &mut self,
        source: &mut S,
        budget: &mut u64,
    ) -> Result<Option<FrameLayout>, ReadError>
        ensures pulls { HasNext LiesIn (S.supply source.old ⇒ S.supply source.new)
            (budget.old ⇒ budget.new) (self.old ⇒ self.new) result }
        ensures unread { budget.new ≡ budget.old → source.new ≡ source.old }
    {
        'reads: loop {
            match self.buffered() {
                Err(error) => return Err(error),
                Ok(Some(layout)) => return Ok(Some(layout)),
                Ok(None) => {}
            }
            if *budget == 0 {
                return Err(ReadError::TurnsSpent);
            }
            *budget -= 1;
            match self.fill(source) {
                Err(SourceFault) => return Err(ReadError::ReadFault),
                Ok(0) if self.is_empty() => return Ok(None),
                Ok(0) => return Err(ReadError::CutShort),
                Ok(_) => {}
            }
        }
    }

    /// The next whole frame, borrowed until the next call, and `None` at the end of input: call by call these are the
    /// frames that the source's bytes spell, however its reads cut them, up to the first fault. Each read takes one of
    /// the read budget.
    pub fn next<S: Source>(
        &mut self,
        source: &mut S,
        budget: &mut u64,
    ) -> Result<Option<AMQPRawFrame<'_>>, ReadError>
        ensures few { IfOk result (λ found. IfSome found (λ raw. length raw.payload.now < 2 ^ 32)) }
        ensures fits { self.old.limit < 2 ^ 32 }

        // While the frame is borrowed, also by a caller that passes it on: there is a state that the reader has afterwards.
        ensures returns { (new : Holding)
            × HasNext IsBorrowed (S.supply source.old ⇒ S.supply source.new)
            (budget.old ⇒ budget.new) (self.old ⇒ new) result }

        // A frame or a fault that is held is returned without a read.
        ensures decided { scan (Some self.old.limit) self.old.held ≢ past
            → source.new ≡ source.old }
        ensures unread { budget.old ≡ 0 → source.new ≡ source.old }
        ensures* after { sem 𝓛 (Rests the_row self.entry (λ new.
            HasNext IsBorrowed (S.supply source.old ⇒ S.supply source.new)
            (budget.old ⇒ budget.new) (self.old ⇒ new) result)) }
    {
        match self.pull(source, budget) {
            Err(error) => Err(error),
            Ok(None) => Ok(None),
            Ok(Some(layout)) => {
                let start = self.span.start + layout.payload_start;
                self.span.start += layout.frame_len;
                Ok(Some(AMQPRawFrame {
                    frame_type: layout.frame_type,
                    channel_id: layout.channel_id,
                    payload: &self.buf[start..start + layout.payload_len],
                }))
            }
        }
    }
}
