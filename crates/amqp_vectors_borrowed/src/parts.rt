//! Where the parts of entries, values and fields lie, the shapes of fields, and the laws of equality.

use crate::slots::BYTES;
use amqp_canonical::Slot::{Kept, Reserved};
use amqp_canonical::{
    Form, Judgement, ValueJudgement, bytes_from, content_of, entry_size, equal_forms,
    equal_judgements, equal_slots, equal_value_judgements, form_size, has_bit, header_shapes,
    next_entry, property_shapes, shapes_of, slot_size, split_key, value_size,
};
use amqp_lent::{LentError, LentFrame, equal_lent_errors, equal_lent_frames};
use amqp_vectors::asking::same;
use std::test::Fail;

/// A table of the keys c, a and b, and then a again.
const REPEATED: [u8; 20] = [
    0, 0, 0, 16, 1, 99, 116, 1, 1, 97, 116, 1, 1, 98, 116, 0, 1, 97, 66, 7,
];

/// A key, and the entry with the least key above it: its place, and the key. Of duplicate keys the last one wins.
const NEXT: [(Option<&[u8]>, Option<(usize, &[u8])>); 4] = [
    (None, Some((12, b"a"))),
    (Some(b"a"), Some((8, b"b"))),
    (Some(b"b"), Some((0, b"c"))),
    (Some(b"c"), None),
];

#[test]
fn entries_are_found() -> Result<(), Fail> {
    let content = content_of(&REPEATED);
    for (key, wanted) in NEXT {
        same(next_entry(content, key), wanted)?;
    }
    let last = bytes_from(content, 12);
    let (key, value) = split_key(last);
    let parts = (key, value, bytes_from(last, 5));
    same(
        (parts, entry_size(content), value_size(&[66, 7, 1])),
        ((b"a".as_slice(), [66, 7].as_slice(), [].as_slice()), 4, 2),
    )
}

#[test]
fn shapes_are_known() -> Result<(), Fail> {
    let short = Form::Short;
    let reserved = [Reserved(short, &[0, 1])];
    same(
        (shapes_of(30, 11), shapes_of(30, 12), shapes_of(99, 11)),
        (Some(reserved.as_slice()), None, None),
    )?;
    let size = Form::LongLong;
    let header = [Kept(short), Reserved(short, &[0, 0]), Kept(size)];
    same(header_shapes(), header.as_slice())?;
    let properties = property_shapes();
    same(
        (properties.len(), properties.last()),
        (14, Some(&(2, Form::ShortString))),
    )?;
    let bits = (has_bit(0x8000, 15), has_bit(0x8000, 16));
    same(
        (
            bits,
            slot_size(Kept(Form::LongString), &BYTES[18..]),
            form_size(size, &BYTES),
        ),
        ((true, false), 5, 8),
    )
}

#[test]
fn equality_is_told() -> Result<(), Fail> {
    let fields = Judgement {
        used: 1,
        canonical: true,
        tidy: false,
    };
    let value = ValueJudgement {
        used: 1,
        canonical: true,
    };
    same(
        (
            equal_judgements(&fields, &fields),
            equal_value_judgements(&value, &value),
            equal_forms(&Form::ShortString, &Form::LongString),
            equal_slots(
                &Reserved(Form::ShortString, &[0]),
                &Reserved(Form::ShortString, &[0]),
            ),
            equal_lent_errors(&LentError::UnknownClass, &LentError::UnknownMethod),
            equal_lent_frames(LentFrame::Heartbeat, LentFrame::InvalidHeartbeat(0)),
        ),
        (true, true, false, true, false, false),
    )
}
