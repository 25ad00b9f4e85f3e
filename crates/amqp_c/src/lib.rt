//! The wire layer for C and what can call C: bytes in, bytes out. No call calls back or keeps anything, and only those
//! on lines of text take memory.
#![tactic(auto)]

mod canonicalize;
mod check;
mod equality;
mod fields;
#[cfg(test)]
mod frame_tests;
mod frame_types;
mod frames;
mod in_place;
mod laws;
mod lines;
mod names;
mod next;
mod recutting;
mod rules;
mod scratch;
mod statuses;
#[cfg(test)]
mod tests;
#[cfg(test)]
mod turn_tests;
mod turns;
mod vectors;
mod version;
mod writing;

pub use canonicalize::CallProgress;
pub use check::PayloadSummary;
pub use equality::{
    equal_call_errors, equal_frame_lines, equal_front_frames, equal_payload_summaries,
    equal_progress,
};
pub use fields::PayloadFields;
pub use frames::FrameBatch;
pub use laws::{
    bodies_are_cut_as_one, faults_stay, little_is_left, numbers_decide_alike, pieces_are_whole,
};
pub use lines::FrameLine;
pub use names::NamedMethod;
pub use next::FrontFrame;
pub use recutting::{BodyCut, BodyPiece};
pub use rules::FrameRule;
pub use turns::{ChannelState, ChannelStep};
pub use writing::Written;
