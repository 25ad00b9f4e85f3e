//! When nodes, heads, what is read and its errors are equal.

ghost use Rattle.std.specs.Prelude.{◌≡◌, ◌↔◌, IsTrue};

use crate::frames::{FramesEnd, FramesRead};
use crate::head::Head;
use crate::node::Node;
use crate::reading::{FieldsError, FieldsRead};

/// Two nodes are equal exactly where all members are.
#[tactic(auto, using(crate::proofs::EqualNodes::same_node))]
pub fn equal_nodes(a: &Node, b: &Node) -> bool
    ensures { IsTrue result ↔ (a.now ≡ b.now) }
{
    a == b
}

/// What was read of two payloads is equal exactly where it says the same.
#[tactic(auto, using(crate::proofs::EqualNodes::same_read))]
pub fn equal_fields_read(a: &FieldsRead, b: &FieldsRead) -> bool
    ensures { IsTrue result ↔ (a.now ≡ b.now) }
{
    a == b
}

/// Two errors are equal exactly where they are the same.
pub fn equal_fields_errors(a: &FieldsError, b: &FieldsError) -> bool
    ensures { IsTrue result ↔ (a.now ≡ b.now) }
{
    a == b
}

/// Two heads are equal exactly where all members are.
#[tactic(auto, using(crate::proofs::EqualNodes::same_head))]
pub fn equal_heads(a: &Head, b: &Head) -> bool
    ensures { IsTrue result ↔ (a.now ≡ b.now) }
{
    a == b
}

/// What comes after the frames that were read is equal exactly where it is the same.
pub fn equal_frames_ends(a: &FramesEnd, b: &FramesEnd) -> bool
    ensures { IsTrue result ↔ (a.now ≡ b.now) }
{
    a == b
}

/// What was read of two pieces of bytes is equal exactly where it says the same.
#[tactic(auto, using(crate::proofs::EqualNodes::same_frames_read))]
pub fn equal_frames_read(a: &FramesRead, b: &FramesRead) -> bool
    ensures { IsTrue result ↔ (a.now ≡ b.now) }
{
    a == b
}
