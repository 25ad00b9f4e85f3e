//! Typed AMQP 0-9-1 frames as lines of text: the line of a frame, and the frame of a line. All that amqp_lines has of lines
//! is passed on.
#![tactic(auto)]

mod generation;
mod one_line;

pub use amqp_lines::{
    TextError, UndumpError, UndumpReport, bytes_and_texts_correspond, dump, dump_line,
    dumped_text_is_read_back, equal_lines_are_equal_frames, equal_text_errors,
    equal_texts_are_equal_sequences, equal_undump_errors, errors, line_end, lines_have_one_newline,
    one_longest_text, strict_frames_are_usual, undump, undump_line, undump_reported,
    undump_undoes_dump, unreported_lines,
};
pub use generation::gen_line;
pub use one_line::parse_line;
