//! Measuring and encoding properties.

ghost use Rattle.amqp_types.specs.Calls.{Measures, HasRoom};
ghost use Rattle.amqp_types.specs.Writing.{Puts, Appends};
ghost use Rattle.amqp_types.specs.PropertyBytes.{properties_bytes, properties_size};
ghost use Rattle.amqp_types.specs.Properties.{properties};
ghost use Rattle.amqp_types.specs.PropertyLaws.{AreOptionsHeld};
ghost use Rattle.amqp_values.specs.Fields.{AreFieldsHeld, Lists};
ghost use Rattle.amqp_properties.specs.Options.{options};

use crate::optional_fields::{
    field_long_long_uint, field_short_short_uint, field_short_string, field_table,
};
use crate::optional_puts::{
    put_optional_byte, put_optional_table, put_optional_text, put_optional_time,
};
use crate::optional_sizes::{
    size_optional_byte, size_optional_table, size_optional_text, size_optional_time,
};
use crate::properties::AMQPProperties;
use amqp_values::{Field, GenError, gen_fields, put_short_uint};
use std::alloc::Global;

/// The mask, and the properties that are set.
#[tactic(auto, unfolding(crate::proofs::AllProperties::all_properties))]
pub(crate) fn properties_fields(p: &AMQPProperties) -> [Field<'_>; 15]
    ensures lists { Lists result (properties_size (options p.now))
        (properties_bytes (options p.now)) }
    ensures held { AreFieldsHeld result → AreOptionsHeld properties (options p.now) }
{
    [
        Field::ShortUInt(p.bitmask()),
        field_short_string(&p.content_type),
        field_short_string(&p.content_encoding),
        field_table(&p.headers),
        field_short_short_uint(&p.delivery_mode),
        field_short_short_uint(&p.priority),
        field_short_string(&p.correlation_id),
        field_short_string(&p.reply_to),
        field_short_string(&p.expiration),
        field_short_string(&p.message_id),
        field_long_long_uint(&p.timestamp),
        field_short_string(&p.kind),
        field_short_string(&p.user_id),
        field_short_string(&p.app_id),
        field_short_string(&p.cluster_id),
    ]
}

/// The number of canonical bytes of the mask and the properties that are set, 2 where none is.
pub fn size_properties(value: &AMQPProperties) -> Result<u64, GenError>
    ensures { Measures result (properties_size (options value.now)) }
{
    let headers = size_optional_table(&value.headers)?;
    let texts = size_optional_text(&value.content_type)
        + size_optional_text(&value.content_encoding)
        + size_optional_text(&value.correlation_id)
        + size_optional_text(&value.reply_to)
        + size_optional_text(&value.expiration)
        + size_optional_text(&value.message_id)
        + size_optional_text(&value.kind)
        + size_optional_text(&value.user_id)
        + size_optional_text(&value.app_id)
        + size_optional_text(&value.cluster_id);
    let numbers = size_optional_byte(&value.delivery_mode)
        + size_optional_byte(&value.priority)
        + size_optional_time(&value.timestamp);
    Ok(2 + texts + numbers + headers)
}

/// Puts the mask and the properties that are set at a place of a slice, and returns the place after
/// them.
pub fn put_properties(buf: &mut [u8], at: usize, value: &AMQPProperties) -> usize
    requires { HasRoom buf.old at (properties_size (options value.now))
        (properties_bytes (options value.now)) }
    ensures { Puts buf.old buf.new at (properties_bytes (options value.now)) result }
{
    let mask = put_short_uint(buf, at, &value.bitmask());
    let type_end = put_optional_text(buf, mask, &value.content_type);
    let encoding = put_optional_text(buf, type_end, &value.content_encoding);
    let headers = put_optional_table(buf, encoding, &value.headers);
    let mode = put_optional_byte(buf, headers, &value.delivery_mode);
    let priority = put_optional_byte(buf, mode, &value.priority);
    let correlation = put_optional_text(buf, priority, &value.correlation_id);
    let reply = put_optional_text(buf, correlation, &value.reply_to);
    let expiration = put_optional_text(buf, reply, &value.expiration);
    let message = put_optional_text(buf, expiration, &value.message_id);
    let time = put_optional_time(buf, message, &value.timestamp);
    let kind = put_optional_text(buf, time, &value.kind);
    let user = put_optional_text(buf, kind, &value.user_id);
    let app = put_optional_text(buf, user, &value.app_id);
    put_optional_text(buf, app, &value.cluster_id)
}

/// Appends the mask and the properties that are set to a vector.
pub fn gen_properties(
    _alloc: Global,
    out: &mut Vec<u8>,
    props: &AMQPProperties,
) -> Result<(), GenError>
    ensures { Appends out.old.items out.new.items (properties_size (options props.now))
        (properties_bytes (options props.now)) result }
{
    gen_fields(out, &properties_fields(props))
}
