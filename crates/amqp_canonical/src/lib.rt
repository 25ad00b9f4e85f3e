//! AMQP 0-9-1 payloads, tables and values decoded and written where they stand, without memory: how many bytes they
//! use, which fault they have, whether their bytes are canonical and tidy, and their canonical bytes.
#![tactic(auto)]

mod ascii;
mod equality;
mod few;
mod headers;
mod laws;
mod leads;
mod marks;
mod payload_parts;
mod payload_writing;
mod payloads;
mod rooms;
mod selection;
mod shapes;
mod slot_writing;
mod slots;
mod spans;
mod texts;
mod values;
mod writing;
mod writing_laws;

pub use ascii::{eights_are_ascii, fours_are_ascii, sixteens_are_ascii};
pub use equality::{equal_forms, equal_judgements, equal_slots, equal_value_judgements};
pub use few::{put_ends, put_few};
pub use headers::{has_bit, judge_content_header};
pub use laws::{
    canonical_content_headers_are_strict, canonical_payloads_are_strict,
    canonical_slots_are_strict, canonical_values_are_strict,
};
pub use marks::EntryMark;
pub use payload_parts::{header_parts, method_parts};
pub use payload_writing::{
    put_content_header, put_header, put_method, put_payload, put_properties,
};
pub use payloads::judge_payload;
pub use rooms::{Room, Sure, Tested, put_if_room};
pub use selection::next_entry;
pub use shapes::{Form, Slot, header_shapes, property_shapes, shapes_of};
pub use slot_writing::{form_size, put_slots, slot_size};
pub use slots::{Judgement, judge_slots};
pub use spans::{bytes_from, content_of, entry_size, split_key, value_size};
pub use texts::is_text;
pub use values::{
    ValueJudgement, judge_array, judge_entries, judge_table, judge_value, judge_values,
};
pub use writing::{put_array, put_entries, put_table, put_value, put_values};
pub use writing_laws::written_is_no_longer;
