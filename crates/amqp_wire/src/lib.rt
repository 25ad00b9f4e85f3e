//! AMQP 0-9-1 frames as borrowed bytes: the header scan, verdicts on whole payloads, canonical bytes without memory, outlines,
//! and the laws of frames and sequences of them.
#![tactic(auto)]

pub mod channel;
mod equality;
pub mod frame_type;
pub mod generation;
mod has_outline;
pub mod judging;
mod laws;
pub mod looking;
pub mod outline;
pub mod parsing;
pub mod raw_frame;
mod rewriting;
mod tidiness;
pub mod version;

pub use amqp_canonical::EntryMark;
pub use amqp_types::{GenError, PROTOCOL_BYTE, ParserError};
pub use channel::AMQPChannel;
pub use equality::{
    equal_channels, equal_frame_types, equal_judgements, equal_layouts, equal_looks,
    equal_outlines, equal_raw_frames, equal_versions,
};
pub use frame_type::AMQPFrameType;
pub use generation::{frame_head, header_bytes, heartbeat_bytes, put_around, put_framed};
pub use has_outline::HasOutline;
pub use judging::{FrameJudgement, judge_frame};
pub use laws::{
    canonical_bytes_are_shortest, canonical_bytes_read_back, equal_bytes_are_equal_frames,
    front_is_longest, header_scan_is_its_parts, levels_nest, no_frame_begins_another,
    one_canonical_spelling, one_meaning, verdicts_are_spellings, verdicts_are_stable,
    written_again,
};
pub use looking::{FrameLayout, Look, look_at};
pub use outline::{FrameOutline, outline_front, outline_raw};
pub use parsing::{parse_channel, parse_frame_type, parse_protocol_header, parse_raw_frame};
pub use raw_frame::AMQPRawFrame;
pub use rewriting::{put_canonical, put_judged};
pub use tidiness::is_tidy;
pub use version::ProtocolVersion;
