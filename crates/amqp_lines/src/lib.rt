//! AMQP 0-9-1 frames as lines of text, each of which is one frame.
#![tactic(auto)]

mod dumping;
mod equality;
pub mod errors;
mod laws;
mod line_reading;
mod line_text;
mod lines;
mod one_line;
mod reading;
pub mod report;
mod slots;
mod undumping;
mod values;
mod words;

pub use dumping::{dump, dump_reported};
pub use equality::{equal_text_errors, equal_undump_errors};
pub use errors::{TextError, UndumpError};
pub use laws::{
    bytes_and_texts_correspond, dump_writes_lines, dumped_text_is_read_back,
    equal_lines_are_equal_frames, equal_texts_are_equal_sequences, lines_are_bounded,
    lines_fit_the_limit, lines_have_one_newline, one_longest_text, strict_frames_are_usual,
    undump_undoes_dump,
};
pub use line_text::payload_in;
pub use lines::write_line;
pub use one_line::{dump_line, undump_line};
pub use report::{UndumpReport, unreported_lines};
pub use undumping::{line_end, undump, undump_reported};
