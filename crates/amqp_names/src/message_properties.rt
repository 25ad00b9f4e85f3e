//! The properties of a message.

ghost use Rattle.std.specs.Prelude.{◌≡◌, map, option_map, slice_get};
ghost use Rattle.amqp_types.specs.Properties.{properties};
ghost use Rattle.amqp_names.specs.Names.{property_names};
ghost use Rattle.amqp_names.specs.Tables.{field_kind, field_name, property_kind};

use crate::kinds::{LONG_LONG, OCTET, SHORT_STRING, TABLE};
use crate::naming::Field;

/// A property: the name and the kind.
macro_rules! property {
    ($name:literal: $kind:ident) => {
        Field {
            name: $name,
            kind: $kind,
        }
    };
}

/// The 14 properties, in the order in which they stand.
const PROPERTIES: &[Field] = &[
    property!("content-type": SHORT_STRING),
    property!("content-encoding": SHORT_STRING),
    property!("headers": TABLE),
    property!("delivery-mode": OCTET),
    property!("priority": OCTET),
    property!("correlation-id": SHORT_STRING),
    property!("reply-to": SHORT_STRING),
    property!("expiration": SHORT_STRING),
    property!("message-id": SHORT_STRING),
    property!("timestamp": LONG_LONG),
    property!("type": SHORT_STRING),
    property!("user-id": SHORT_STRING),
    property!("app-id": SHORT_STRING),
    property!("cluster-id": SHORT_STRING),
];

/// The 14 properties, in the order in which they stand; the index is the place of a node.
#[tactic(auto, unfolding(amqp_types::specs::Properties::properties, amqp_types::specs::Properties::later_properties))]
pub fn properties() -> &'static [Field]
    ensures names { map field_name result.now ≡ property_names }
    ensures kinds { map field_kind result.now ≡ map property_kind properties }
{
    PROPERTIES
}

/// The property at a place, counted from 0.
pub fn property_at(place: u8) -> Option<Field>
    ensures name { option_map field_name result ≡ slice_get property_names place }
    ensures kind { option_map field_kind result
        ≡ option_map property_kind (slice_get properties place) }
{
    properties().get(place as usize).copied()
}
