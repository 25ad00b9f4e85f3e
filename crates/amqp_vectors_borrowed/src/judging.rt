//! Bytes that are decoded, whole or with one byte changed: how many are used, and whether they are canonical and tidy.

use crate::{payloads, slots, values};
use amqp_canonical::{
    Form, Judgement, Slot, ValueJudgement, judge_array, judge_content_header, judge_payload,
    judge_slots, judge_table, judge_value,
};
use amqp_types::ParserError;
use amqp_vectors::asking::same;
use std::alloc::Global;
use std::test::Fail;

/// What bytes are decoded as. In a value, an array or a table so many tables and arrays may nest.
#[derive(Clone, Copy)]
pub enum Call {
    Value(usize),
    Array(usize),
    Table(usize),
    /// A field of each shape.
    Shapes,

    /// Two reserved fields of any length, and one after them.
    Skipped,

    /// So many flags.
    Flags(u8),
    Payload,
    ContentHeader,
}

/// How many bytes are used, and whether they are canonical and tidy; or the fault.
pub type Judged = Result<(usize, bool, bool), ParserError>;

/// What bytes are decoded as, the bytes, and what is returned.
pub type Whole = (Call, &'static [u8], Judged);

/// The place of a byte that is changed, the byte that stands there then, and what is returned.
pub type Changed = (usize, u8, Judged);

/// What is returned of fields, a method or a content header.
fn of_fields(found: Result<Judgement, ParserError>) -> Judged {
    match found {
        Ok(it) => Ok((it.used, it.canonical, it.tidy)),
        Err(error) => Err(error),
    }
}

/// What is returned of a value, whose bytes are always tidy.
fn of_value(found: Result<ValueJudgement, ParserError>) -> Judged {
    match found {
        Ok(it) => Ok((it.used, it.canonical, true)),
        Err(error) => Err(error),
    }
}

#[tactic(auto, unfolding(amqp_types::specs::SlotBytes::form_bytes))]
fn judged(call: Call, bytes: &[u8]) -> Judged {
    match call {
        Call::Value(depth_left) => of_value(judge_value(bytes, depth_left)),
        Call::Array(depth_left) => of_value(judge_array(bytes, depth_left)),
        Call::Table(depth_left) => of_value(judge_table(bytes, depth_left)),
        Call::Shapes => of_fields(judge_slots(&slots::SHAPES, bytes)),
        Call::Skipped => of_fields(judge_slots(&slots::SKIPPED, bytes)),
        Call::Flags(count) => of_fields(judge_slots(&[Slot::Kept(Form::Flags(count))], bytes)),
        Call::Payload => of_fields(judge_payload(bytes)),
        Call::ContentHeader => of_fields(judge_content_header(bytes)),
    }
}

/// The bytes with one of them changed.
fn changed(alloc: Global, bytes: &[u8], at: usize, byte: u8) -> Result<Vec<u8>, Fail> {
    let mut bytes = Vec::from_slice(alloc, bytes)?;
    match bytes.get_mut(at) {
        Some(place) => *place = byte,
        None => return Err(Fail::new("no byte stands there")),
    }
    Ok(bytes)
}

/// Fails unless this is returned of each of the bytes.
fn are_judged(rows: &[Whole]) -> Result<(), Fail> {
    for (call, bytes, wanted) in rows {
        same((*bytes, judged(*call, bytes)), (*bytes, *wanted))?;
    }
    Ok(())
}

/// Fails unless this is returned of the bytes with each of the changes.
fn are_judged_then(alloc: Global, call: Call, bytes: &[u8], rows: &[Changed]) -> Result<(), Fail> {
    for (at, byte, wanted) in rows {
        let found = judged(call, &changed(alloc, bytes, *at, *byte)?);
        same((*at, *byte, found), (*at, *byte, *wanted))?;
    }
    Ok(())
}

#[test]
fn bytes_are_judged() -> Result<(), Fail> {
    are_judged(&values::WHOLE)?;
    are_judged(&slots::WHOLE)?;
    are_judged(&payloads::WHOLE)
}

#[test]
fn changed_bytes_are_judged(rt: HostRuntime) -> Result<(), Fail> {
    let alloc = rt.alloc();
    let (table, fields) = (Call::Table(63), Call::Shapes);
    are_judged_then(alloc, table, &values::KINDS, &values::CHANGED)?;
    are_judged_then(alloc, fields, &slots::BYTES, &slots::CHANGED)?;
    let header = Call::ContentHeader;
    are_judged_then(alloc, header, &payloads::HEADER, &payloads::CHANGED)
}
