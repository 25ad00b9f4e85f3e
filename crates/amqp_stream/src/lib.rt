//! AMQP 0-9-1 frames from a source of bytes to a sink.
#![tactic(auto)]

mod buffer;
mod canonical;
mod canonical_laws;
mod codec;
mod count_sink;
mod decision;
mod engine;
mod equality;
mod errors;
mod forwarder;
mod forwarder_laws;
mod frame_decider;
mod frame_writer;
mod kept;
mod made_laws;
mod make_source;
mod output;
mod output_buffer;
mod reader;
mod report;
mod sink;
mod sinks;
mod source;
mod sources;
mod stretch;

pub use canonical::{Canonical, TidyCanonical, as_run, unrefused};
pub use canonical_laws::equal_output_is_equal_frames;
pub use codec::{Codec, canonicalize, canonicalize_reported, run_stream, run_stream_reported};
pub use count_sink::CountSink;
pub use decision::{Decision, put_decided};
pub use equality::{
    equal_read_errors, equal_sink_faults, equal_source_faults, equal_stream_errors,
};
pub use errors::{ProgramError, ReadError, RunError, StreamError};
pub use forwarder::{Forwarded, Forwarder};
pub use forwarder_laws::{pieces_are_whole, runs_add_up};
pub use frame_decider::FrameDecider;
pub use frame_writer::FrameWriter;
pub use made_laws::made_is_a_sequence;
pub use make_source::MakeSource;
pub use output::{SMALL_BODY, flush, gather, payload_error, write_all, write_canonical};
pub use output_buffer::OutputBuffer;
pub use reader::FrameReader;
pub use report::{RunReport, unrefused_report, unreported};
pub use sink::{Sink, SinkFault};
pub use sinks::{ScriptSink, StdSink, VecSink};
pub use source::{Source, SourceFault};
pub use sources::{PieceSource, SliceSource, StdSource};
