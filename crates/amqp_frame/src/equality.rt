//! Equality of typed frames: `==` is true exactly where contracts see one value.

ghost use Rattle.std.specs.Prelude.{◌≡◌, ◌↔◌, IsTrue};

use crate::frame::AMQPFrame;

/// Whether two frames are equal, with all that they hold.
#[tactic(auto, using(crate::proofs::EqualFrames::same_frame))]
pub fn equal_frames(a: &AMQPFrame, b: &AMQPFrame) -> bool
    ensures { IsTrue result ↔ (a.now ≡ b.now) }
{
    a == b
}
