//! A buffer in which bytes are pending, to be written together.

ghost use Rattle.std.specs.Prelude.{◌≡◌, ◌≢◌, ◌+◌, ◌++◌, ◌^◌, ◌<◌, ◌≤◌, ℕ, [], length, take, drop};
ghost use Rattle.std.specs.Prelude.{vec_len, vec_capacity, Ok, Err, IfOk, IfErr};
ghost use Rattle.amqp_wire.specs.Frames.{raw_of, frame_length};
ghost use Rattle.amqp_wire.specs.Verdicts.{IsPayloadError, decode_raw};
ghost use Rattle.amqp_wire.specs.Judgements.{IsJudged};
ghost use Rattle.amqp_stream.specs.Buffers.{Adds, AddsAt};

use amqp_types::{NoMemory, ParserError, put_bytes};
use amqp_wire::{AMQPRawFrame, EntryMark, FrameJudgement, put_canonical, put_judged};
use std::alloc::Global;
use std::marker::Model;

/// Puts bytes after the first `len` of a buffer, and returns the place after them.
fn put_after(buf: &mut [u8], len: usize, bytes: &[u8]) -> usize
    requires { len + length bytes.now ≤ length buf.old }
    ensures front { take result buf.new ≡ take len buf.old ++ bytes.now }
    ensures place { result ≡ len + length bytes.now }
{
    put_bytes(buf, len, bytes)
}

/// Puts the canonical bytes of a borrowed frame after the first `len` bytes of a buffer, and returns
/// the place after them.
#[inline(always)]
#[tactic(auto, using(crate::proofs::Spans::rewritten_after))]
fn put_raw_after(
    buf: &mut [u8],
    len: usize,
    scratch: &mut [EntryMark],
    raw: AMQPRawFrame<'_>,
) -> Result<usize, ParserError>
    requires few { length raw.payload.now < 2 ^ 32 }
    requires room { len + length raw.payload.now + 8 ≤ length buf.old }
    ensures adds { AddsAt buf.old buf.new len (decode_raw (raw_of raw.entry)) result }
    ensures place { IfOk result (λ end. end ≤ len + length raw.entry.payload.now + 8) }
    ensures inside { IfErr result IsPayloadError }
    ensures memory { result ≢ Err ParserError.NoMemory }
{
    put_canonical(buf, len, scratch, raw)
}

/// The same of a frame that is judged already.
fn put_judged_after(
    buf: &mut [u8],
    len: usize,
    scratch: &mut [EntryMark],
    raw: AMQPRawFrame<'_>,
    judged: FrameJudgement,
) -> usize
    requires judged { IsJudged (raw_of raw) judged }
    requires few { length raw.payload.now < 2 ^ 32 }
    requires room { len + frame_length (raw_of raw) ≤ length buf.old }
    ensures adds { AddsAt buf.old buf.new len (decode_raw (raw_of raw.entry)) (Ok result) }
    ensures place { result ≤ len + frame_length (raw_of raw.entry) }
{
    let (frame_type, channel_id, payload) = (raw.frame_type, raw.channel_id, raw.payload);
    put_judged(buf, len, scratch, frame_type, channel_id, payload, judged)
}

/// Puts bytes into the first `len` of a buffer, before those from `at` on, and returns the place after them all.
fn put_before(buf: &mut [u8], at: usize, len: usize, bytes: &[u8]) -> usize
    requires place { at ≤ len }
    requires room { len + length bytes.now ≤ length buf.old }
    ensures front { take result buf.new
        ≡ take at (take len buf.old) ++ (bytes.now ++ drop at (take len buf.old)) }
    ensures place { result ≡ len + length bytes.now }
{
    buf.copy_within(at..len, at + bytes.len());
    put_bytes(buf, at, bytes);
    len + bytes.len()
}

/// Makes a buffer at least so long, within what is reserved, so that this takes no memory. What is never pending is never
/// touched.
#[inline(always)]
fn lengthen(buf: &mut Vec<u8>, end: usize)
    requires reserved { end ≤ vec_capacity buf.old }
    ensures front { (len : ℕ) → len ≤ vec_len buf.old
        → take len buf.new.items ≡ take len buf.old.items }
    ensures long { end ≤ vec_len buf.new }
    ensures within { (room : ℕ) → vec_len buf.old ≤ room → end ≤ room → vec_len buf.new ≤ room }
    ensures reserved { vec_capacity buf.old ≤ vec_capacity buf.new }
{
    if buf.len() < end {
        match buf.resize(end, 0) {
            Ok(()) => {}
            Err(_) => unreachable!(),
        }
    }
}

/// Makes a scratch as long as a payload of so many bytes needs, within what is reserved, so that this takes no memory. What
/// no payload needs is never touched.
fn widen(scratch: &mut Vec<EntryMark>, payload_len: usize) {
    let wanted = (payload_len / 2).min(scratch.capacity());
    if scratch.len() < wanted {
        match scratch.resize(wanted, EntryMark::default()) {
            Ok(()) => {}
            Err(_) => unreachable!(),
        }
    }
}

/// Bytes that are not written yet, in a buffer that is reserved in full, with room for the scratch that frames of this
/// size need. Both are touched as far as they are needed.
#[derive(Drop)]
pub struct OutputBuffer {
    buf: Vec<u8>,
    len: usize,
    room: usize,
    scratch: Vec<EntryMark>,
}

impl Model for OutputBuffer {
    ghost use Rattle.std.specs.Prelude.{◌≤◌, take, vec_len, vec_capacity};
    ghost use Rattle.amqp_stream.specs.Buffers.{Buffered};

    ghost Value = { Buffered };

    ghost view = { λ out. record { room = out.room; bytes = take out.len out.buf.items } };

    ghost invariant = { λ out. (out.len ≤ vec_len out.buf)
        × (vec_len out.buf ≤ out.room) × (out.room ≤ vec_capacity out.buf) };
}

impl OutputBuffer {
    /// An empty buffer of this size in bytes. No later call takes memory.
    pub fn open(alloc: Global, room: usize) -> Result<OutputBuffer, NoMemory>
        ensures { IfOk result (λ out. out ≡ record { room = room; bytes = [] }) }
    {
        let buf = Vec::with_capacity(alloc, room)?;
        let scratch = Vec::with_capacity(alloc, room / 2)?;
        Ok(OutputBuffer {
            buf,
            len: 0,
            room,
            scratch,
        })
    }

    /// The pending bytes.
    pub fn bytes(&self) -> &[u8]
        ensures { result.now ≡ self.now.bytes }
    {
        &self.buf[..self.len]
    }

    /// How many more bytes fit.
    pub fn room(&self) -> usize
        ensures { length self.now.bytes + result ≡ self.now.room }
    {
        self.room - self.len
    }

    /// Drops the pending bytes.
    pub fn clear(&mut self)
        ensures { self.new ≡ record { room = self.old.room; bytes = [] } }
    {
        self.len = 0;
    }

    /// Drops the pending bytes after the first `len`.
    pub fn truncate(&mut self, len: usize)
        requires { len ≤ length self.old.bytes }
        ensures room { self.new.room ≡ self.old.room }
        ensures bytes { self.new.bytes ≡ take len self.old.bytes }
    {
        self.len = len;
    }

    /// Puts bytes after the pending ones.
    #[inline]
    pub fn push(&mut self, bytes: &[u8])
        requires { length self.old.bytes + length bytes.now ≤ self.old.room }
        ensures room { self.new.room ≡ self.old.room }
        ensures pushed { self.new.bytes ≡ self.old.bytes ++ bytes.now }
    {
        lengthen(&mut self.buf, self.len + bytes.len());
        self.len = put_after(&mut self.buf, self.len, bytes);
    }

    /// Puts bytes before the pending ones from a place on.
    pub(crate) fn insert(&mut self, at: usize, bytes: &[u8])
        requires place { at ≤ length self.old.bytes }
        requires enough { length self.old.bytes + length bytes.now ≤ self.old.room }
        ensures room { self.new.room ≡ self.old.room }
        ensures inserted { self.new.bytes
            ≡ take at self.old.bytes ++ (bytes.now ++ drop at self.old.bytes) }
    {
        lengthen(&mut self.buf, self.len + bytes.len());
        self.len = put_before(&mut self.buf, at, self.len, bytes);
    }

    /// Puts the canonical bytes of a borrowed frame after the pending ones.
    #[inline(always)]
    pub fn push_raw(&mut self, raw: AMQPRawFrame<'_>) -> Result<(), ParserError>
        requires few { length raw.payload.now < 2 ^ 32 }
        requires enough { length self.old.bytes + (length raw.payload.now + 8) ≤ self.old.room }
        ensures room { self.new.room ≡ self.old.room }
        ensures adds { Adds self.old.bytes self.new.bytes (decode_raw (raw_of raw.entry)) result }
        ensures compact { length self.new.bytes
            ≤ length self.old.bytes + (length raw.entry.payload.now + 8) }
        ensures inside { IfErr result IsPayloadError }
        ensures memory { result ≢ Err ParserError.NoMemory }
    {
        widen(&mut self.scratch, raw.payload.len());
        lengthen(&mut self.buf, self.len + (raw.payload.len() + 8));
        self.len = put_raw_after(&mut self.buf, self.len, &mut self.scratch, raw)?;
        Ok(())
    }

    /// Puts the canonical bytes of a borrowed frame, judged already, after the pending ones.
    pub fn push_judged(&mut self, raw: AMQPRawFrame<'_>, judged: FrameJudgement)
        requires judged { IsJudged (raw_of raw) judged }
        requires few { length raw.payload.now < 2 ^ 32 }
        requires enough { length self.old.bytes + frame_length (raw_of raw) ≤ self.old.room }
        ensures room { self.new.room ≡ self.old.room }
        ensures adds { Adds self.old.bytes self.new.bytes (decode_raw (raw_of raw.entry)) (Ok tt) }
        ensures compact { length self.new.bytes
            ≤ length self.old.bytes + frame_length (raw_of raw.entry) }
    {
        if !judged.canonical {
            widen(&mut self.scratch, raw.payload.len());
        }
        let end = self.len + (raw.payload.len() + 8);
        lengthen(&mut self.buf, end.min(self.room));
        self.len = put_judged_after(&mut self.buf, self.len, &mut self.scratch, raw, judged);
    }
}
