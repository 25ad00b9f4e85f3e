//! What properties and content headers hold, whatever a program does: the premises of the laws that read their canonical
//! bytes back.

ghost use Rattle.amqp_types.specs.Properties.{properties};
ghost use Rattle.amqp_types.specs.PropertyLaws.{AreOptionsHeld};
ghost use Rattle.amqp_types.specs.ContentHeaders.{IsHeaderHeld};
ghost use Rattle.amqp_properties.specs.Headers.{header_of};
ghost use Rattle.amqp_properties.specs.Options.{options};

use crate::content_header::AMQPContentHeader;
use crate::generation::properties_fields;
use crate::properties::AMQPProperties;
use amqp_values::{fields_held, long_long_held, short_held};

/// Each property that is set is held in its form.
pub fn properties_held(p: &AMQPProperties)
    ensures { AreOptionsHeld properties (options p.now) }
{
    fields_held(&properties_fields(p))
}

/// A content header's numbers and properties fit their forms. Nothing is changed.
pub fn content_header_held(header: &AMQPContentHeader)
    ensures { IsHeaderHeld (header_of header.now) }
{
    short_held(header.class_id);
    long_long_held(header.body_size);
    properties_held(&header.properties);
}
