//! Decoding properties.

ghost use Rattle.std.specs.Prelude.{◌≤◌, length};
ghost use Rattle.amqp_types.specs.Calls.{Parses};
ghost use Rattle.amqp_types.specs.SlotJudging.{Steps};
ghost use Rattle.amqp_types.specs.Properties.{properties, later_properties};
ghost use Rattle.amqp_types.specs.PropertyJudging.{judge_set, judge_properties};
ghost use Rattle.amqp_properties.specs.Options.{options, later_options};

use crate::optional::{
    is_set, read_long_long_uint, read_short_short_uint, read_short_string, read_table,
};
use crate::properties::AMQPProperties;
use amqp_values::{ParserError, ShortString, ShortUInt, SlotReader, Timestamp, parse_short_uint};
use std::alloc::Global;

/// The properties from the expiration on.
#[derive(Drop)]
struct LaterProperties {
    expiration: Option<ShortString>,
    message_id: Option<ShortString>,
    timestamp: Option<Timestamp>,
    kind: Option<ShortString>,
    user_id: Option<ShortString>,
    app_id: Option<ShortString>,
    cluster_id: Option<ShortString>,
}

/// Decodes those of the last seven properties that a mask says are set.
#[tactic(auto, using(amqp_types::proofs::Judged::refuses_next), unfolding(amqp_types::specs::PropertyJudging::judge_set, amqp_types::specs::Properties::later_properties))]
fn read_later(
    slots: &mut SlotReader<'_>,
    alloc: Global,
    mask: ShortUInt,
) -> Result<LaterProperties, ParserError>
    ensures step { Steps later_options result slots.old.rest.now slots.new.rest.now
        (judge_set mask later_properties) }
    ensures left { length slots.new.rest.now ≤ length slots.old.rest.now }
{
    let expiration = read_short_string(slots, alloc, is_set(mask, 8))?;
    let message_id = read_short_string(slots, alloc, is_set(mask, 7))?;
    let timestamp = read_long_long_uint(slots, is_set(mask, 6))?;
    let kind = read_short_string(slots, alloc, is_set(mask, 5))?;
    let user_id = read_short_string(slots, alloc, is_set(mask, 4))?;
    let app_id = read_short_string(slots, alloc, is_set(mask, 3))?;
    let cluster_id = read_short_string(slots, alloc, is_set(mask, 2))?;
    Ok(LaterProperties {
        expiration,
        message_id,
        timestamp,
        kind,
        user_id,
        app_id,
        cluster_id,
    })
}

/// Decodes the properties that a mask says are set.
#[tactic(auto, using(amqp_types::proofs::Judged::refuses_next), unfolding(amqp_types::specs::PropertyJudging::judge_set, amqp_types::specs::Properties::properties))]
fn read_properties(
    slots: &mut SlotReader<'_>,
    alloc: Global,
    mask: ShortUInt,
) -> Result<AMQPProperties, ParserError>
    ensures step { Steps options result slots.old.rest.now slots.new.rest.now
        (judge_set mask properties) }
    ensures left { length slots.new.rest.now ≤ length slots.old.rest.now }
{
    let content_type = read_short_string(slots, alloc, is_set(mask, 15))?;
    let content_encoding = read_short_string(slots, alloc, is_set(mask, 14))?;
    let headers = read_table(slots, alloc, is_set(mask, 13))?;
    let delivery_mode = read_short_short_uint(slots, is_set(mask, 12))?;
    let priority = read_short_short_uint(slots, is_set(mask, 11))?;
    let correlation_id = read_short_string(slots, alloc, is_set(mask, 10))?;
    let reply_to = read_short_string(slots, alloc, is_set(mask, 9))?;
    let later = read_later(slots, alloc, mask)?;
    Ok(AMQPProperties {
        content_type,
        content_encoding,
        headers,
        delivery_mode,
        priority,
        correlation_id,
        reply_to,
        expiration: later.expiration,
        message_id: later.message_id,
        timestamp: later.timestamp,
        kind: later.kind,
        user_id: later.user_id,
        app_id: later.app_id,
        cluster_id: later.cluster_id,
    })
}

/// Decodes a mask, and the properties that it says are set (AMQP 0-9-1, section 4.2.6.1).
#[tactic(auto, using(amqp_types::proofs::Judged::refuses_next), unfolding(amqp_types::specs::PropertyJudging::judge_properties))]
pub fn parse_properties(alloc: Global, i: &[u8]) -> Result<(usize, AMQPProperties), ParserError>
    ensures { Parses options result i.now judge_properties }
{
    let (n, mask) = parse_short_uint(i)?;
    let mut slots = SlotReader::new(&i[n..]);
    let properties = read_properties(&mut slots, alloc, mask)?;
    Ok((slots.used(i), properties))
}
