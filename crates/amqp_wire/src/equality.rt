//! Equality of each public type: `==` is true exactly where contracts see one value. Each law is the contract of a
//! function that compares.

ghost use Rattle.std.specs.Prelude.{◌≡◌, ◌↔◌, IsTrue};
ghost use Rattle.amqp_wire.specs.Frames.{raw_of};

use crate::channel::AMQPChannel;
use crate::frame_type::AMQPFrameType;
use crate::judging::FrameJudgement;
use crate::looking::{FrameLayout, Look};
use crate::outline::FrameOutline;
use crate::raw_frame::AMQPRawFrame;
use crate::version::ProtocolVersion;

/// Whether two frame types are equal.
pub fn equal_frame_types(a: AMQPFrameType, b: AMQPFrameType) -> bool
    ensures { IsTrue result ↔ a ≡ b }
{
    a == b
}

/// Whether two channels are equal. `Id(0)` is not `Global`.
pub fn equal_channels(a: AMQPChannel, b: AMQPChannel) -> bool
    ensures { IsTrue result ↔ a ≡ b }
{
    a == b
}

/// Whether two versions are equal.
pub fn equal_versions(a: ProtocolVersion, b: ProtocolVersion) -> bool
    ensures { IsTrue result ↔ a ≡ b }
{
    a == b
}

/// Whether two borrowed frames are equal. Their payloads are compared as bytes, wherever these lie.
pub fn equal_raw_frames(a: AMQPRawFrame<'_>, b: AMQPRawFrame<'_>) -> bool
    ensures { IsTrue result ↔ raw_of a.entry ≡ raw_of b.entry }
{
    a == b
}

/// Whether two outlines are equal.
pub fn equal_outlines(a: FrameOutline, b: FrameOutline) -> bool
    ensures { IsTrue result ↔ a ≡ b }
{
    a == b
}

/// Whether two layouts are equal.
pub fn equal_layouts(a: FrameLayout, b: FrameLayout) -> bool
    ensures { IsTrue result ↔ a ≡ b }
{
    a == b
}

/// Whether two header scans found the same.
pub fn equal_looks(a: Look, b: Look) -> bool
    ensures { IsTrue result ↔ a ≡ b }
{
    a == b
}

/// Whether two decodings without memory found the same levels.
pub fn equal_judgements(a: FrameJudgement, b: FrameJudgement) -> bool
    ensures { IsTrue result ↔ a ≡ b }
{
    a == b
}
