//! Typed AMQP 0-9-1 frames: decoding them from the front of a slice, and writing them in their canonical bytes. All that
//! amqp_wire has of frames as borrowed bytes is passed on.
#![tactic(auto)]

mod equality;
mod frame;
pub mod generation;
mod held;
mod laws;
pub mod outline;
pub mod parsing;

pub use amqp_properties::{
    AMQPContentHeader, content_header_held, equal_content_headers, parse_content_header,
};
pub use amqp_types::{GenError, PROTOCOL_BYTE, ParserError};
pub use amqp_wire::{
    AMQPChannel, AMQPFrameType, AMQPRawFrame, EntryMark, FrameJudgement, FrameLayout, HasOutline,
    Look, ProtocolVersion, canonical_bytes_are_shortest, canonical_bytes_read_back, channel,
    equal_bytes_are_equal_frames, equal_channels, equal_frame_types, equal_judgements,
    equal_layouts, equal_looks, equal_outlines, equal_raw_frames, equal_versions, frame_type,
    front_is_longest, header_scan_is_its_parts, is_tidy, judge_frame, judging, levels_nest,
    look_at, looking, no_frame_begins_another, one_canonical_spelling, one_meaning, put_canonical,
    raw_frame, verdicts_are_spellings, verdicts_are_stable, version, written_again,
};
pub use equality::equal_frames;
pub use frame::{AMQPFrame, release};
pub use generation::{
    frame_head, frame_size, gen_frame, gen_frame_slice, header_bytes, heartbeat_bytes, put_around,
    put_frame, put_framed,
};
pub use held::frame_held;
pub use laws::frame_reads_back;
pub use outline::{FrameOutline, outline_front, outline_raw};
pub use parsing::{
    parse_channel, parse_frame, parse_frame_type, parse_payload, parse_protocol_header,
    parse_raw_frame,
};
