//! Canonical bytes of the whole frames in front of some bytes.

ghost use Rattle.std.specs.Prelude.{◌≡◌, ◌+◌, ◌^◌, ◌<◌, ◌≤◌, Some, None, Ok, length, IfOk};
ghost use Rattle.amqp_types.specs.Levels.{level_of, plain, tidy};
ghost use Rattle.amqp_wire.specs.Frames.{raw_of, frame_length};
ghost use Rattle.amqp_wire.specs.Judgements.{IsJudged};
ghost use Rattle.amqp_wire.specs.Rewrites.{Rewrites};
ghost use Rattle.amqp_wire.specs.Verdicts.{decode_raw};
ghost use Rattle.amqp_c.specs.Rewriting.{CanonicalizesPart, JudgesAt, PutsFrame, PutsFront};
ghost use Rattle.amqp_c.specs.Rewriting.{RefusesPart, came, profile_at};
ghost use Rattle.amqp_c.specs.Statuses.{bad_argument, buffer_too_small};

use crate::next::{frame_at, scan};
use crate::statuses::{BAD_ARGUMENT, BUFFER_TOO_SMALL};
use amqp_stream::{StreamError, payload_error};
use amqp_types::Profile;
use amqp_wire::{AMQPRawFrame, EntryMark, FrameJudgement, judge_frame, put_judged};

/// How many entries of a table in no order are sorted without a scratch of the caller's. A table with more of them
/// takes quadratic time then.
pub(crate) const MARKS: usize = 256;

/// How far a call came. In C it has 24 bytes and no padding.
#[repr(C)]
#[derive(Clone, Copy, Debug, PartialEq, Eq)]
pub struct CallProgress {
    /// How many bytes the whole frames in front have.
    pub used: u64,

    /// How many canonical bytes were written for them, no more than `used`.
    pub written: u64,

    /// 0 where nothing follows these frames, 21 where the bytes end inside the next one, or the fault's status.
    pub status: u32,

    /// Kept for later; 0.
    pub unused: u32,
}

/// How far a call came, and the status of what follows.
pub(crate) fn came(used: usize, written: usize, status: u8) -> CallProgress
    ensures { result ≡ came used written status }
{
    CallProgress {
        used: used as u64,
        written: written as u64,
        status: status as u32,
        unused: 0,
    }
}

/// The level that a number names: 0 plain, 1 tidy.
pub(crate) fn profile_of(level: u8) -> Option<Profile>
    ensures { result ≡ profile_at level }
{
    match level {
        0 => Some(Profile::Plain),
        1 => Some(Profile::Tidy),
        _ => None,
    }
}

/// Decodes a borrowed frame at a level, or says why it is none.
#[inline(always)]
pub(crate) fn judge_at(
    profile: Profile,
    raw: AMQPRawFrame<'_>,
) -> Result<FrameJudgement, StreamError>
    ensures { JudgesAt (level_of profile) (raw_of raw.entry) result }
{
    match judge_frame(raw) {
        Err(error) => Err(payload_error(error)),
        Ok(judged) => match profile {
            Profile::Tidy if !judged.tidy => Err(StreamError::NotTidy),
            Profile::Plain | Profile::Tidy => Ok(judged),
        },
    }
}

/// Puts the canonical bytes of a borrowed frame, which is judged already, and returns the place after them.
#[inline(always)]
pub(crate) fn put_frame(
    out: &mut [u8],
    at: usize,
    scratch: &mut [EntryMark],
    raw: AMQPRawFrame<'_>,
    judged: FrameJudgement,
) -> usize
    requires judged { IsJudged (raw_of raw) judged }
    requires few { length raw.payload.now < 2 ^ 32 }
    requires room { at + frame_length (raw_of raw) ≤ length out.old }
    ensures puts { Rewrites out.old out.new at (decode_raw (raw_of raw.entry)) (Ok result) }
    ensures within { result ≤ at + frame_length (raw_of raw.entry) }
{
    let (frame_type, channel_id, payload) = (raw.frame_type, raw.channel_id, raw.payload);
    put_judged(out, at, scratch, frame_type, channel_id, payload, judged)
}

/// Puts the canonical bytes of a borrowed frame at a level, and returns the place after them.
#[inline(always)]
fn put_at_level(
    profile: Profile,
    out: &mut [u8],
    at: usize,
    scratch: &mut [EntryMark],
    raw: AMQPRawFrame<'_>,
) -> Result<usize, StreamError>
    requires few { length raw.payload.now < 2 ^ 32 }
    requires room { at + frame_length (raw_of raw) ≤ length out.old }
    ensures puts { PutsFrame (level_of profile) out.old out.new at (raw_of raw.entry) result }
    ensures within { IfOk result (λ end. end ≤ at + frame_length (raw_of raw.entry)) }
{
    match judge_at(profile, raw) {
        Err(error) => Err(error),
        Ok(judged) => Ok(put_frame(out, at, scratch, raw, judged)),
    }
}

/// Puts the canonical bytes of the frame in front at a level, and returns how many bytes it has and the place after
/// them.
#[inline(always)]
fn put_front(
    profile: Profile,
    max_payload: u32,
    bytes: &[u8],
    out: &mut [u8],
    at: usize,
    scratch: &mut [EntryMark],
) -> Result<(usize, usize), StreamError>
    requires room { at + length bytes.now ≤ length out.old }
    ensures { PutsFront (level_of profile) max_payload bytes.now out.old out.new at result }
{
    match scan(max_payload, bytes) {
        Err(error) => Err(error),
        Ok(layout) => match put_at_level(profile, out, at, scratch, frame_at(bytes, layout)) {
            Err(error) => Err(error),
            Ok(end) => Ok((layout.frame_len, end)),
        },
    }
}

/// Writes the canonical bytes of the whole frames in front at a level. Inlined where the level is known, it has no test
/// of it.
#[inline(always)]
fn canonicalize(
    bytes: &[u8],
    out: &mut [u8],
    scratch: &mut [EntryMark],
    max_payload: u32,
    profile: Profile,
) -> CallProgress
    requires room { length bytes.now ≤ length out.old }
    ensures { CanonicalizesPart (level_of profile) max_payload bytes.now out.old out.new result }
{
    let mut used = 0;
    let mut written = 0;
    'frames: while used < bytes.len() {
        match put_front(profile, max_payload, &bytes[used..], out, written, scratch) {
            Ok((more, end)) => {
                used += more;
                written = end;
            }
            Err(error) => {
                return came(used, written, error.status());
            }
        }
    }
    came(used, written, 0)
}

/// The same at level plain.
#[inline(never)]
fn canonicalize_plain(
    bytes: &[u8],
    out: &mut [u8],
    scratch: &mut [EntryMark],
    max_payload: u32,
) -> CallProgress
    requires room { length bytes.now ≤ length out.old }
    ensures { CanonicalizesPart plain max_payload bytes.now out.old out.new result }
{
    canonicalize(bytes, out, scratch, max_payload, Profile::Plain)
}

/// The same at level tidy.
#[inline(never)]
fn canonicalize_tidy(
    bytes: &[u8],
    out: &mut [u8],
    scratch: &mut [EntryMark],
    max_payload: u32,
) -> CallProgress
    requires room { length bytes.now ≤ length out.old }
    ensures { CanonicalizesPart tidy max_payload bytes.now out.old out.new result }
{
    canonicalize(bytes, out, scratch, max_payload, Profile::Tidy)
}

/// The same at a level.
fn canonicalize_at(
    bytes: &[u8],
    out: &mut [u8],
    scratch: &mut [EntryMark],
    max_payload: u32,
    profile: Profile,
) -> CallProgress
    requires room { length bytes.now ≤ length out.old }
    ensures { CanonicalizesPart (level_of profile) max_payload bytes.now out.old out.new result }
{
    match profile {
        Profile::Plain => canonicalize_plain(bytes, out, scratch, max_payload),
        Profile::Tidy => canonicalize_tidy(bytes, out, scratch, max_payload),
    }
}

/// The same with a scratch on the stack.
#[inline(never)]
fn canonicalize_on_stack(
    bytes: &[u8],
    out: &mut [u8],
    max_payload: u32,
    profile: Profile,
) -> CallProgress
    requires room { length bytes.now ≤ length out.old }
    ensures { CanonicalizesPart (level_of profile) max_payload bytes.now out.old out.new result }
{
    let mut scratch = [EntryMark::default(); MARKS];
    canonicalize_at(bytes, out, &mut scratch, max_payload, profile)
}

/// Writes the canonical bytes of the whole frames in front, with payloads of at most `max_payload` bytes, at a level (0
/// plain, 1 tidy), into a buffer at least as long as the bytes. Entries of tables in no order are sorted in the
/// scratch, where it is longer than the one on the stack; only the time depends on it.
#[unsafe(no_mangle)]
pub extern "C" fn feksroum_canonicalize(
    bytes: &[u8],
    out: &mut [u8],
    scratch: &mut [EntryMark],
    max_payload: u32,
    level: u8,
) -> CallProgress
    ensures argument { profile_at level ≡ None → RefusesPart bad_argument out.old out.new result }
    ensures small { (profile : Profile) → profile_at level ≡ Some profile
        → length out.old < length bytes.now
        → RefusesPart buffer_too_small out.old out.new result }
    ensures canonicalizes { (profile : Profile)
        → profile_at level ≡ Some profile → length bytes.now ≤ length out.old
        → CanonicalizesPart (level_of profile) max_payload bytes.now out.old out.new result }
{
    let status = match profile_of(level) {
        None => BAD_ARGUMENT,
        Some(_) if out.len() < bytes.len() => BUFFER_TOO_SMALL,
        Some(profile) if scratch.len() <= MARKS => {
            return canonicalize_on_stack(bytes, out, max_payload, profile);
        }
        Some(profile) => return canonicalize_at(bytes, out, scratch, max_payload, profile),
    };
    came(0, 0, status)
}
