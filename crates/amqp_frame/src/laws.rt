//! The law of typed frames, the contract of a function that changes nothing. Those of frames and sequences are passed on.

ghost use Rattle.std.specs.Prelude.{IsOk};
ghost use Rattle.amqp_types.specs.Levels.{Level};
ghost use Rattle.amqp_wire.specs.Canonical.{size_of};
ghost use Rattle.amqp_wire.specs.Laws.{ReadsBack};
ghost use Rattle.amqp_frame.specs.Frames.{frame_of};

use crate::frame::AMQPFrame;
use crate::held::frame_held;

/// The bytes that are written for a frame are decoded to that frame at each level, whatever follows them, but that
/// `InvalidHeartbeat(0)` is decoded to `Heartbeat`; and fewer of them are incomplete.
pub fn frame_reads_back(frame: &AMQPFrame)
    ensures { (level : Level) → IsOk (size_of (frame_of frame.now))
        → ReadsBack level (frame_of frame.now) }
{
    frame_held(frame);
}
