//! Frames that are canonical already: how many bytes in front they have, and canonicalizing within one buffer.

ghost use Rattle.std.specs.Prelude.{◌≡◌, ◌≢◌, ◌+◌, ◌^◌, ◌<◌, ◌≤◌, Some, None, length, take, drop};
ghost use Rattle.amqp_types.specs.Levels.{level_of};
ghost use Rattle.amqp_types.specs.Writing.{Puts};
ghost use Rattle.amqp_wire.specs.Frames.{raw_of};
ghost use Rattle.amqp_c.specs.InPlace.{IsCanonicalRun, Rewrites, StopsBefore};
ghost use Rattle.amqp_c.specs.Rewriting.{CanonicalizesPart, RefusesPart, profile_at};
ghost use Rattle.amqp_c.specs.Statuses.{bad_argument, buffer_too_small};

use crate::canonicalize::{CallProgress, MARKS, came, judge_at, profile_of, put_frame};
use crate::next::{frame_at, scan};
use crate::statuses::{BAD_ARGUMENT, BUFFER_TOO_SMALL};
use amqp_stream::StreamError;
use amqp_types::{Profile, are_bytes, put_bytes};
use amqp_wire::{EntryMark, judge_frame};

/// How many bytes in front are whole frames, with payloads of at most `max_payload` bytes, of which each is encoded by its
/// canonical bytes. What follows them is no such frame.
#[unsafe(no_mangle)]
pub extern "C" fn feksroum_canonical_run(bytes: &[u8], max_payload: u32) -> usize
    ensures { IsCanonicalRun max_payload bytes.now result }
{
    are_bytes(bytes);
    let mut used = 0;
    'frames: while used < bytes.len() {
        let rest = &bytes[used..];
        let layout = match scan(max_payload, rest) {
            Ok(layout) => layout,
            Err(_) => return used,
        };
        match judge_frame(frame_at(rest, layout)) {
            Err(_) => return used,
            Ok(judged) if judged.canonical => used += layout.frame_len,
            Ok(_) => return used,
        }
    }
    used
}

/// What is done with the frame in front.
#[derive(Clone, Copy, Debug)]
enum Rewrite {
    /// It has so many bytes, which are canonical.
    Kept(usize),

    /// It has so many bytes, and as many canonical ones stand in front of the spare buffer.
    Spare { used: usize, count: usize },

    /// It is not canonical, and longer than the spare buffer.
    NoRoom,
}

/// Looks at the frame in front at a level. Where it is not canonical, its canonical bytes are put in front of the spare
/// buffer.
fn rewrite_front(
    profile: Profile,
    max_payload: u32,
    bytes: &[u8],
    spare: &mut [u8],
    scratch: &mut [EntryMark],
) -> Result<Rewrite, StreamError>
    ensures { Rewrites (level_of profile) max_payload bytes.now spare.old spare.new result }
{
    are_bytes(bytes);
    let layout = match scan(max_payload, bytes) {
        Ok(layout) => layout,
        Err(error) => return Err(error),
    };
    let raw = frame_at(bytes, layout);
    let judged = match judge_at(profile, raw) {
        Ok(judged) => judged,
        Err(error) => return Err(error),
    };
    if judged.canonical {
        return Ok(Rewrite::Kept(layout.frame_len));
    }
    if spare.len() < layout.frame_len {
        return Ok(Rewrite::NoRoom);
    }
    Ok(Rewrite::Spare {
        used: layout.frame_len,
        count: put_frame(spare, 0, scratch, raw, judged),
    })
}

/// Moves so many bytes of a buffer to a place before them, and returns the place after them there.
fn move_front(buf: &mut [u8], from: usize, count: usize, to: usize) -> usize
    requires before { to ≤ from }
    requires inside { from + count ≤ length buf.old }
    ensures { Puts buf.old buf.new to (take count (drop from buf.old)) result }
{
    if to == from {
        return to + count;
    }
    buf.copy_within(from..from + count, to);
    to + count
}

/// Canonicalizes the whole frames in front at a level, within the buffer.
fn canonicalize_within(
    bytes: &mut [u8],
    spare: &mut [u8],
    scratch: &mut [EntryMark],
    max_payload: u32,
    profile: Profile,
) -> CallProgress
    ensures canonicalizes { result.status ≢ buffer_too_small
        → CanonicalizesPart (level_of profile) max_payload bytes.old bytes.old bytes.new result }
    ensures stops { result.status ≡ buffer_too_small
        → StopsBefore (level_of profile) max_payload (length spare.old) bytes.old bytes.new result }
{
    let mut used = 0;
    let mut written = 0;
    'frames: while used < bytes.len() {
        match rewrite_front(profile, max_payload, &bytes[used..], spare, scratch) {
            Ok(Rewrite::Kept(more)) => {
                written = move_front(bytes, used, more, written);
                used += more;
            }
            Ok(Rewrite::Spare { used: more, count }) => {
                written = put_bytes(bytes, written, &spare[..count]);
                used += more;
            }
            Ok(Rewrite::NoRoom) => return came(used, written, BUFFER_TOO_SMALL),
            Err(error) => return came(used, written, error.status()),
        }
    }
    came(used, written, 0)
}

/// The same with a scratch on the stack.
#[inline(never)]
fn canonicalize_within_on_stack(
    bytes: &mut [u8],
    spare: &mut [u8],
    max_payload: u32,
    profile: Profile,
) -> CallProgress
    ensures canonicalizes { result.status ≢ buffer_too_small
        → CanonicalizesPart (level_of profile) max_payload bytes.old bytes.old bytes.new result }
    ensures stops { result.status ≡ buffer_too_small
        → StopsBefore (level_of profile) max_payload (length spare.old) bytes.old bytes.new result }
{
    let mut scratch = [EntryMark::default(); MARKS];
    canonicalize_within(bytes, spare, &mut scratch, max_payload, profile)
}

/// Canonicalizes the whole frames in front, with payloads of at most `max_payload` bytes, at a level (0 plain, 1 tidy): their
/// canonical bytes stand at the front of the same buffer, and what comes after the bytes written is as it was. A frame
/// that is not canonical goes through the spare buffer, in which nothing is specified afterwards; before one that is
/// longer than it the call stops with 40. `max_payload` + 8 bytes are enough for each.
#[unsafe(no_mangle)]
pub extern "C" fn feksroum_canonicalize_in_place(
    bytes: &mut [u8],
    spare: &mut [u8],
    scratch: &mut [EntryMark],
    max_payload: u32,
    level: u8,
) -> CallProgress
    ensures argument { profile_at level ≡ None
        → RefusesPart bad_argument bytes.old bytes.new result }
    ensures canonicalizes { (profile : Profile)
        → profile_at level ≡ Some profile → result.status ≢ buffer_too_small
        → CanonicalizesPart (level_of profile) max_payload bytes.old bytes.old bytes.new result }
    ensures stops { (profile : Profile) → profile_at level ≡ Some profile
        → result.status ≡ buffer_too_small
        → StopsBefore (level_of profile) max_payload (length spare.old) bytes.old bytes.new result }
    ensures enough { max_payload + 8 ≤ length spare.old → result.status ≢ buffer_too_small }
{
    match profile_of(level) {
        None => came(0, 0, BAD_ARGUMENT),
        Some(profile) if scratch.len() <= MARKS => {
            canonicalize_within_on_stack(bytes, spare, max_payload, profile)
        }
        Some(profile) => canonicalize_within(bytes, spare, scratch, max_payload, profile),
    }
}
