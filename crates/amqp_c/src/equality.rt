//! Laws of equality: two results of a call are equal exactly where contracts see the same.

ghost use Rattle.std.specs.Prelude.{◌≡◌, ◌↔◌, IsTrue};

use crate::canonicalize::CallProgress;
use crate::check::PayloadSummary;
use crate::lines::FrameLine;
use crate::next::FrontFrame;
use crate::statuses::CallError;

/// Two places of frames are equal exactly where all numbers are.
#[tactic(auto, using(crate::proofs::EqualResults::same_front))]
pub fn equal_front_frames(a: &FrontFrame, b: &FrontFrame) -> bool
    ensures { IsTrue result ↔ (a.now ≡ b.now) }
{
    a == b
}

/// Two summaries of payloads are equal exactly where they say the same.
#[tactic(auto, using(crate::proofs::EqualResults::same_summary))]
pub fn equal_payload_summaries(a: &PayloadSummary, b: &PayloadSummary) -> bool
    ensures { IsTrue result ↔ (a.now ≡ b.now) }
{
    a == b
}

/// Two counts of what was used and written are equal exactly where all numbers are.
#[tactic(auto, using(crate::proofs::EqualResults::same_progress))]
pub fn equal_progress(a: &CallProgress, b: &CallProgress) -> bool
    ensures { IsTrue result ↔ (a.now ≡ b.now) }
{
    a == b
}

/// Two results of reading or writing a line are equal exactly where all numbers are.
#[tactic(auto, using(crate::proofs::EqualResults::same_line))]
pub fn equal_frame_lines(a: &FrameLine, b: &FrameLine) -> bool
    ensures { IsTrue result ↔ (a.now ≡ b.now) }
{
    a == b
}

/// Two errors of calls are equal exactly where they are the same.
#[tactic(auto, using(crate::proofs::EqualResults::same_error))]
pub fn equal_call_errors(a: &CallError, b: &CallError) -> bool
    ensures { IsTrue result ↔ (a.now ≡ b.now) }
{
    a == b
}
