//! Whatever has an outline: a borrowed frame, a typed one, a reference to one.

ghost use Rattle.std.specs.Prelude.{◌≡◌};
ghost use Rattle.amqp_wire.specs.declared.outline.FrameOutline.{FrameOutline};

use crate::outline::{FrameOutline, outline_raw};
use crate::raw_frame::AMQPRawFrame;

/// What is decided by kind, channel, ids and sizes is decided of anything that has them.
pub trait HasOutline: Drop {
    /// The outline that contracts see.
    ghost meaning: { Self → FrameOutline };

    /// Its payload is a whole one, as that of a typed frame always is.
    ghost is_whole: { Self → Type 0 };

    /// The frame without its fields.
    fn to_outline(&self) -> FrameOutline
        requires { is_whole self.now }
        ensures { result ≡ meaning self.now };
}

impl<'a> HasOutline for AMQPRawFrame<'a> {
    ghost use Rattle.std.specs.Prelude.{IsOk};
    ghost use Rattle.amqp_wire.specs.Frames.{raw_of};
    ghost use Rattle.amqp_wire.specs.Outlines.{outline_front};
    ghost use Rattle.amqp_wire.specs.Verdicts.{decode_raw};

    ghost meaning = { λ raw. outline_front (raw_of raw) };

    ghost is_whole = { λ raw. IsOk (decode_raw (raw_of raw)) };

    fn to_outline(&self) -> FrameOutline {
        outline_raw(*self)
    }
}

impl<T: HasOutline> HasOutline for &T {
    ghost meaning = { λ reference. T.meaning reference.now };

    ghost is_whole = { λ reference. T.is_whole reference.now };

    fn to_outline(&self) -> FrameOutline {
        (**self).to_outline()
    }
}
