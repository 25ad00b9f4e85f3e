//! Frames that are written from where they lie: those that came in their canonical bytes, and those that were put into their places.

ghost use Rattle.std.specs.Prelude.{◌≡◌, ◌+◌, ◌^◌, ◌<◌};

use crate::output::SMALL_BODY;
use amqp_wire::FrameLayout;

/// Frames at the front of what a reader holds that stand: their canonical bytes lie there, as they came or put there since.
#[derive(Clone, Copy)]
pub(crate) struct Stretch {
    /// How many bytes they have.
    pub len: usize,

    /// How many bytes the longest of their payloads has.
    pub longest: usize,
}

impl Stretch {
    /// No frames.
    #[inline(always)]
    pub(crate) fn empty() -> Stretch
        ensures { result.len ≡ 0 }
    {
        Stretch { len: 0, longest: 0 }
    }

    /// The same frames and the next one.
    #[inline(always)]
    pub(crate) fn with(self, layout: FrameLayout) -> Stretch
        requires { self.len + layout.frame_len < 2 ^ 63 }
        ensures { result.len ≡ self.len + layout.frame_len }
    {
        Stretch {
            len: self.len + layout.frame_len,
            longest: self.longest.max(layout.payload_len),
        }
    }

    /// Whether a frame after them that is written anew is put into its place, so that it stands. A long one after fewer bytes is
    /// not: then it costs less to copy them.
    pub(crate) fn goes_on_with(self, frame_len: usize) -> bool {
        frame_len <= SMALL_BODY || frame_len <= self.len
    }

    /// Whether one of them has a large body. Only then they are worth a write of their own.
    pub(crate) fn has_large(self) -> bool {
        self.longest > SMALL_BODY
    }
}
