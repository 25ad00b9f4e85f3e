//! Frames written from values and borrowed bytes, without memory: each field is tested from left to right, and then all are
//! put.
#![tactic(auto)]

mod checked;
mod flags;
mod frames;
mod headers;
mod laws;
mod numbers;
mod other_frames;
mod properties;
mod reserved;
mod sizes;
mod slots;
mod strings;
mod tables;

pub use amqp_entries::{PutError, TableContent};
pub use checked::ShortText;
pub use frames::put_method_frame;
pub use headers::{MaskedProperties, Properties, put_content_header, put_masked_header};
pub use laws::{made_bytes_read_back, made_frames_are_within};
pub use other_frames::{put_body_frame, put_heartbeat, put_protocol_header};
pub use properties::{Masked, MaskedText, ToItem, ToProperties, ToProperty};
pub use reserved::{
    ReservedFlag, ReservedLong, ReservedLongString, ReservedShort, ReservedShortString,
    ReservedTicket,
};
pub use slots::{ToSlot, ToSlots};
pub use strings::{LongBytes, Text};
