//! The fields of whole payloads, and of contents that stand alone, as nodes.

ghost use Rattle.std.specs.Prelude.{◌≡◌, ◌<◌, ◌^◌, length};
ghost use Rattle.amqp_wire.specs.Frames.{raw_as};
ghost use Rattle.amqp_c.specs.Fields.{Opens, OpensEntries, OpensValues, ReadsAfter};
ghost use Rattle.amqp_c.specs.Fields.{ReadsRaw, ReadsWhole, counted};
ghost use Rattle.amqp_c.specs.Fields.{deep_at, fields_with, reported};
ghost use Rattle.amqp_types.specs.Tags.{tag_at};
ghost use Rattle.amqp_c.specs.Checks.{raw_after};

use crate::check::{PayloadSummary, sum_up};
use crate::frame_types::type_of_byte;
use crate::statuses::{BAD_ARGUMENT, BUFFER_TOO_SMALL, decoding_error};
use amqp_fields::{FieldsError, Node, read_entries, read_fields, read_values};
use amqp_stream::{StreamError, payload_error};
use amqp_types::FieldTag;
use amqp_wire::{AMQPFrameType, AMQPRawFrame, FrameJudgement, outline_raw};

/// What stands in a whole payload, and how many nodes its fields have. Where they are not given, all but the status and
/// `nodes` is 0. In C it has 24 bytes and no padding.
#[repr(C)]
#[derive(Clone, Copy, Debug)]
pub struct PayloadFields {
    /// The size of the whole body that a content header announces, in bytes.
    pub body_size: u64,

    /// How many nodes there are, or at status 40, how many nodes the list needs.
    pub nodes: u64,

    /// The class of a method or content header.
    pub class_id: u16,

    /// The method's id in its class.
    pub method_id: u16,

    /// Whether the payload is the canonical one.
    pub canonical: bool,

    /// Whether the payload is tidy.
    pub tidy: bool,

    /// 0 where the nodes are given, or why they are not.
    pub status: u8,

    /// Kept for later; 0.
    pub unused: u8,
}

/// A status and a number of nodes: those that are given, or that the list needs.
fn counted(status: u8, nodes: u64) -> PayloadFields
    ensures { result ≡ counted status nodes }
{
    PayloadFields {
        body_size: 0,
        nodes,
        class_id: 0,
        method_id: 0,
        canonical: false,
        tidy: false,
        status,
        unused: 0,
    }
}

/// A summary with the number of nodes.
fn fields_with(summary: PayloadSummary, count: u64) -> PayloadFields
    ensures { result ≡ fields_with summary count }
{
    PayloadFields {
        body_size: summary.body_size,
        nodes: count,
        class_id: summary.class_id,
        method_id: summary.method_id,
        canonical: summary.canonical,
        tidy: summary.tidy,
        status: summary.status,
        unused: 0,
    }
}

/// The fields of a whole payload of this type.
#[tactic(auto, using(crate::proofs::NodesGiven::nodes_given, crate::proofs::NodesGiven::nodes_wanted, crate::proofs::NodesGiven::payload_refused))]
fn read_whole(
    frame_type: AMQPFrameType,
    payload: &[u8],
    deep: bool,
    nodes: &mut [Node],
) -> PayloadFields
    requires few { length payload.now < 2 ^ 32 }
    ensures same_length { length nodes.new ≡ length nodes.old }
    ensures read { ReadsWhole deep (raw_as frame_type 0 payload.now) nodes.new result }
{
    match read_fields(frame_type, payload, deep, nodes) {
        Ok(found) => {
            let raw = AMQPRawFrame {
                frame_type,
                channel_id: 0,
                payload,
            };
            let judged = FrameJudgement {
                canonical: found.canonical,
                tidy: found.tidy,
            };
            fields_with(sum_up(judged, outline_raw(raw)), found.count as u64)
        }
        Err(FieldsError::Payload(error)) => counted(payload_error(error).status(), 0),
        Err(FieldsError::TooFew { needed }) => counted(BUFFER_TOO_SMALL, needed as u64),
    }
}

/// The same after a type byte.
#[tactic(auto, using(crate::proofs::NodesGiven::raw_found))]
fn read_after(frame_type: u8, payload: &[u8], deep: bool, nodes: &mut [Node]) -> PayloadFields
    ensures same_length { length nodes.new ≡ length nodes.old }
    ensures read { ReadsRaw deep (raw_after frame_type 0 payload.now) nodes.new result }
{
    let Some(frame_type) = type_of_byte(frame_type) else {
        return counted(StreamError::UnknownFrameType.status(), 0);
    };
    if payload.len() > u32::MAX as usize {
        return counted(StreamError::TooLarge.status(), 0);
    }
    read_whole(frame_type, payload, deep, nodes)
}

/// What a number asks for: 0 fields alone, 1 all that lies inside them too.
pub(crate) fn deep_at(detail: u8) -> Option<bool>
    ensures { result ≡ deep_at detail }
{
    match detail {
        0 => Some(false),
        1 => Some(true),
        _ => None,
    }
}

/// Reads the fields of a whole payload of the type that this byte names as nodes: `detail` 0 those alone, 1 with all that
/// lies inside their tables. What stands in the list behind the nodes is not specified, and nothing of it where they are not
/// given.
#[unsafe(no_mangle)]
pub extern "C" fn feksroum_read(
    frame_type: u8,
    payload: &[u8],
    detail: u8,
    nodes: &mut [Node],
) -> PayloadFields
    ensures same_length { length nodes.new ≡ length nodes.old }
    ensures read { ReadsAfter frame_type payload.now (deep_at detail) nodes.new result }
{
    match deep_at(detail) {
        Some(deep) => read_after(frame_type, payload, deep, nodes),
        None => counted(BAD_ARGUMENT, 0),
    }
}

/// What is reported of a content: how many nodes are given, how many the list needs, or its fault.
fn reported(found: Result<usize, FieldsError>) -> PayloadFields
    ensures { result ≡ reported found }
{
    match found {
        Ok(count) => counted(0, count as u64),
        Err(FieldsError::Payload(error)) => counted(decoding_error(error).status(), 0),
        Err(FieldsError::TooFew { needed }) => counted(BUFFER_TOO_SMALL, needed as u64),
    }
}

/// The entries that fill a table.
#[tactic(auto, using(crate::proofs::NodesGiven::entries_reported, crate::proofs::NodesGiven::entries_too_large))]
fn open_entries(content: &[u8], nodes: &mut [Node]) -> PayloadFields
    ensures same_length { length nodes.new ≡ length nodes.old }
    ensures opened { OpensEntries content.now nodes.new result }
{
    if content.len() > u32::MAX as usize {
        return counted(StreamError::TooLarge.status(), 0);
    }
    reported(read_entries(content, nodes))
}

/// The values that fill an array.
#[tactic(auto, using(crate::proofs::NodesGiven::values_reported, crate::proofs::NodesGiven::values_too_large))]
fn open_values(content: &[u8], nodes: &mut [Node]) -> PayloadFields
    ensures same_length { length nodes.new ≡ length nodes.old }
    ensures opened { OpensValues content.now nodes.new result }
{
    if content.len() > u32::MAX as usize {
        return counted(StreamError::TooLarge.status(), 0);
    }
    reported(read_values(content, nodes))
}

/// Reads what fills a table (`kind` is `F`) or an array (`A`) that stands alone, without its length, as nodes: its entries or
/// values with all that lies inside them. Of the result all but the status and `nodes` is 0. What stands in the list behind
/// the nodes is not specified, and nothing of it where they are not given.
#[unsafe(no_mangle)]
pub extern "C" fn feksroum_open(kind: u8, content: &[u8], nodes: &mut [Node]) -> PayloadFields
    ensures same_length { length nodes.new ≡ length nodes.old }
    ensures opened { Opens (tag_at kind) content.now nodes.new result }
{
    match FieldTag::from_byte(kind) {
        Some(FieldTag::FieldTable) => open_entries(content, nodes),
        Some(FieldTag::FieldArray) => open_values(content, nodes),
        _ => counted(BAD_ARGUMENT, 0),
    }
}
