//! How far the message of a channel has come.

ghost use Rattle.std.specs.Prelude.{◌≡◌, IsTrue};
ghost use Rattle.amqp_turns.specs.Steps.{mark_after, header_mark, body_mark, method_mark};
ghost use Rattle.amqp_turns.specs.Steps.{headed_progress, progress_marked, progress_after};
ghost use Rattle.amqp_turns.specs.Marks.{Tracks, is_begun};
ghost use Rattle.amqp_turns.specs.Units.{is_content, is_opening_id, size_in};

use crate::fault::ContentFault;
use crate::mark::Mark;
use amqp_types::{Identifier, PayloadSize};
use amqp_wire::FrameOutline;

/// What is kept of a channel on which a message has begun, or a fault has come.
#[derive(Clone, Copy, Debug, PartialEq, Eq)]
pub enum Progress {
    /// The opening has come.
    Opened,

    /// The content header has come, with the size of the body, and so many bytes of it.
    Headed {
        size: PayloadSize,
        seen: PayloadSize,
    },

    /// A frame was not in turn.
    Faulted,
}

/// Whether a method is basic Publish, Return, Deliver or GetOk.
#[inline(always)]
fn is_opening(class_id: Identifier, method_id: Identifier) -> bool
    ensures { result ≡ is_opening_id class_id method_id }
{
    class_id == 60 && (method_id == 40 || method_id == 50 || method_id == 60 || method_id == 71)
}

/// The mark of a content header after an opening.
#[inline(always)]
fn mark_header(max_body: u64, class_id: Identifier, body_size: PayloadSize) -> Mark
    ensures { result ≡ header_mark max_body class_id body_size }
{
    if class_id != 60 {
        Mark::Fault(ContentFault::WrongClass)
    } else if body_size > max_body {
        Mark::Fault(ContentFault::BodyTooLarge)
    } else {
        Mark::Header
    }
}

/// The mark of a body in a message. Where the sum passes all numbers of 64 bits, it passes the size.
#[inline(always)]
fn mark_body(size: PayloadSize, seen: PayloadSize, length: PayloadSize) -> Mark
    ensures { result ≡ body_mark size seen length }
{
    match seen.checked_add(length) {
        Some(after) if after <= size => Mark::Body {
            before: seen,
            after,
            size,
        },
        _ => Mark::Fault(ContentFault::BodyOverrun),
    }
}

/// The mark of a method between messages.
#[inline(always)]
fn mark_method(class_id: Identifier, method_id: Identifier) -> Mark
    ensures { result ≡ method_mark class_id method_id }
{
    if is_opening(class_id, method_id) {
        Mark::Opening
    } else {
        Mark::Passed
    }
}

/// What a frame is to a channel's content, by what is kept of the channel.
#[inline(always)]
fn mark(max_body: u64, progress: Option<Progress>, outline: FrameOutline) -> Mark
    ensures { result ≡ mark_after max_body progress outline }
{
    match outline {
        FrameOutline::ProtocolHeader => Mark::Passed,
        FrameOutline::Method {
            class_id,
            method_id,
            ..
        } => match progress {
            None => mark_method(class_id, method_id),
            Some(Progress::Opened) => Mark::Fault(ContentFault::UnexpectedMethod),
            Some(Progress::Headed { .. }) => Mark::Fault(ContentFault::UnexpectedMethod),
            Some(Progress::Faulted) => Mark::Fault(ContentFault::Faulted),
        },
        FrameOutline::Header {
            class_id,
            body_size,
            ..
        } => match progress {
            None => Mark::Fault(ContentFault::UnexpectedHeader),
            Some(Progress::Opened) => mark_header(max_body, class_id, body_size),
            Some(Progress::Headed { .. }) => Mark::Fault(ContentFault::UnexpectedHeader),
            Some(Progress::Faulted) => Mark::Fault(ContentFault::Faulted),
        },
        FrameOutline::Body { length, .. } => match progress {
            None => Mark::Fault(ContentFault::UnexpectedBody),
            Some(Progress::Opened) => Mark::Fault(ContentFault::UnexpectedBody),
            Some(Progress::Headed { size, seen }) => mark_body(size, seen, length),
            Some(Progress::Faulted) => Mark::Fault(ContentFault::Faulted),
        },
        FrameOutline::Heartbeat { .. } => Mark::Passed,
    }
}

/// The size of the body that a content header announces.
#[inline(always)]
fn announced(outline: FrameOutline) -> PayloadSize
    ensures { result ≡ size_in outline }
{
    match outline {
        FrameOutline::ProtocolHeader => 0,
        FrameOutline::Method { .. } => 0,
        FrameOutline::Header { body_size, .. } => body_size,
        FrameOutline::Body { .. } => 0,
        FrameOutline::Heartbeat { .. } => 0,
    }
}

/// What is kept of a message of which so many body bytes have come: nothing, where it is complete.
#[inline(always)]
fn headed(size: PayloadSize, seen: PayloadSize) -> Option<Progress>
    ensures { result ≡ headed_progress size seen }
{
    if seen == size {
        None
    } else {
        Some(Progress::Headed { size, seen })
    }
}

/// What is kept after a frame with this mark.
#[inline(always)]
fn progress_after_mark(
    progress: Option<Progress>,
    outline: FrameOutline,
    mark: Mark,
) -> Option<Progress>
    ensures { result ≡ progress_marked progress outline mark }
{
    match mark {
        Mark::Passed => progress,
        Mark::Opening => Some(Progress::Opened),
        Mark::Header => headed(announced(outline), 0),
        Mark::Body { after, size, .. } => headed(size, after),
        Mark::Fault(_) => Some(Progress::Faulted),
    }
}

/// What a frame is to a channel's content, and what is kept of the channel after it, for callers that keep more of a
/// channel beside it, as a tracker keeps it.
#[inline(always)]
pub fn step(
    max_body: u64,
    progress: Option<Progress>,
    outline: FrameOutline,
) -> (Mark, Option<Progress>)
    ensures mark { result.0 ≡ mark_after max_body progress outline }
    ensures progress { result.1 ≡ progress_after max_body progress outline }
    ensures tracks { IsTrue (is_content outline)
        → Tracks max_body progress result.1 outline result.0 }
{
    let mark = mark(max_body, progress, outline);
    (mark, progress_after_mark(progress, outline, mark))
}

/// Whether a message has begun, and no fault has come.
pub(crate) fn begun(progress: Progress) -> bool
    ensures { result ≡ is_begun progress }
{
    match progress {
        Progress::Opened => true,
        Progress::Headed { .. } => true,
        Progress::Faulted => false,
    }
}
