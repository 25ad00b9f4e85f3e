//! The fields of each method, and the 14 properties of a message, as data.
#![tactic(auto, unfolding(amqp_types::specs::Rows::slots_at, amqp_types::specs::Rows::rows_of, amqp_types::specs::SlotBytes::form_bytes))]

ghost use Rattle.std.specs.Prelude.{◌≡◌, map, option_copied, option_map, true, IfSome};
ghost use Rattle.amqp_types.specs.Rows.{slots_at};
ghost use Rattle.amqp_types.specs.Properties.{properties};
ghost use Rattle.amqp_types.specs.ContentHeaders.{header_slots};
ghost use Rattle.amqp_canonical.specs.Shapes.{property_of, slots_of, have_constants};

use amqp_types::Identifier;

/// How a field is encoded (AMQP 0-9-1, section 4.2.5).
#[derive(Clone, Copy, Debug, PartialEq, Eq)]
pub enum Form {
    /// A number of 1 byte.
    Octet,

    /// A number of 2 bytes.
    Short,

    /// A number of 4 bytes.
    Long,

    /// A number of 8 bytes.
    LongLong,

    /// A byte of so many flags.
    Flags(u8),

    /// A short string.
    ShortString,

    /// A long string.
    LongString,

    /// A table.
    Table,
}

/// A field of a method or of a content header.
#[derive(Clone, Copy, Debug, PartialEq, Eq)]
pub enum Slot {
    /// A field that is kept.
    Kept(Form),

    /// A reserved field, which is written as these bytes: a number, flags, or an empty string.
    Reserved(Form, &'static [u8]),
}

const OCTET: Slot = Slot::Kept(Form::Octet);

const SHORT: Slot = Slot::Kept(Form::Short);

const LONG: Slot = Slot::Kept(Form::Long);

const LONG_LONG: Slot = Slot::Kept(Form::LongLong);

const FLAG: Slot = Slot::Kept(Form::Flags(1));

const TWO_FLAGS: Slot = Slot::Kept(Form::Flags(2));

const THREE_FLAGS: Slot = Slot::Kept(Form::Flags(3));

const FOUR_FLAGS: Slot = Slot::Kept(Form::Flags(4));

const FIVE_FLAGS: Slot = Slot::Kept(Form::Flags(5));

const SHORT_STRING: Slot = Slot::Kept(Form::ShortString);

const LONG_STRING: Slot = Slot::Kept(Form::LongString);

const TABLE: Slot = Slot::Kept(Form::Table);

const RESERVED_SHORT: Slot = Slot::Reserved(Form::Short, &[0, 0]);

const RESERVED_TICKET: Slot = Slot::Reserved(Form::Short, &[0, 1]);

const RESERVED_LONG: Slot = Slot::Reserved(Form::Long, &[0, 0, 0, 0]);

const RESERVED_FLAG: Slot = Slot::Reserved(Form::Flags(1), &[0]);

const RESERVED_SHORT_STRING: Slot = Slot::Reserved(Form::ShortString, &[0]);

const RESERVED_LONG_STRING: Slot = Slot::Reserved(Form::LongString, &[0, 0, 0, 0]);

/// The 14 properties in the order in which they stand. None has bit 1 or 0.
const PROPERTIES: [(u16, Form); 14] = [
    (15, Form::ShortString),
    (14, Form::ShortString),
    (13, Form::Table),
    (12, Form::Octet),
    (11, Form::Octet),
    (10, Form::ShortString),
    (9, Form::ShortString),
    (8, Form::ShortString),
    (7, Form::ShortString),
    (6, Form::LongLong),
    (5, Form::ShortString),
    (4, Form::ShortString),
    (3, Form::ShortString),
    (2, Form::ShortString),
];

/// The bit of each of the 14 properties in the mask, counted from 0, and its form, in the order in which they stand
/// (AMQP 0-9-1, section 4.2.6.1).
#[tactic(auto, unfolding(amqp_types::specs::Properties::properties, amqp_types::specs::Properties::later_properties))]
pub fn property_shapes() -> &'static [(u16, Form)]
    ensures { map property_of result.now ≡ properties }
{
    &PROPERTIES
}

/// What stands in front of the properties in a content header: a class id, the weight and the size of the body, in
/// bytes.
const HEADER: [Slot; 3] = [SHORT, RESERVED_SHORT, LONG_LONG];

/// The shapes of what stands in front of the properties in a content header (AMQP 0-9-1, section 4.2.6.1).
#[tactic(auto, unfolding(amqp_types::specs::ContentHeaders::header_slots, amqp_types::specs::SlotBytes::form_bytes))]
pub fn header_shapes() -> &'static [Slot]
    ensures slots { slots_of result.now ≡ header_slots }
    ensures constants { have_constants result.now ≡ true }
{
    &HEADER
}

/// What a method that binds has: both ends, a routing key, a flag and arguments.
const BINDING: [Slot; 6] = [
    RESERVED_SHORT,
    SHORT_STRING,
    SHORT_STRING,
    SHORT_STRING,
    FLAG,
    TABLE,
];

/// The shapes of the fields of a method (AMQP 0-9-1, section 4.2.4), or `None` where the class has no such method.
#[inline(always)]
pub fn shapes_of(class: Identifier, id: Identifier) -> Option<&'static [Slot]>
    ensures slots { option_map slots_of (option_copied result) ≡ slots_at class id }
    ensures constants { IfSome result (λ slots. have_constants slots.now ≡ true) }
{
    match class {
        10 => connection_shapes(id),
        20 => channel_shapes(id),
        30 => access_shapes(id),
        40 => exchange_shapes(id),
        50 => queue_shapes(id),
        60 => basic_shapes(id),
        85 => confirm_shapes(id),
        90 => tx_shapes(id),
        _ => None,
    }
}

/// Opening and closing a connection, and what both peers agree on.
fn connection_shapes(id: Identifier) -> Option<&'static [Slot]>
    ensures slots { option_map slots_of (option_copied result) ≡ slots_at 10 id }
    ensures constants { IfSome result (λ slots. have_constants slots.now ≡ true) }
{
    Some(match id {
        10 => &[OCTET, OCTET, TABLE, LONG_STRING, LONG_STRING],
        11 => &[TABLE, SHORT_STRING, LONG_STRING, SHORT_STRING],
        20 => &[LONG_STRING],
        21 => &[LONG_STRING],
        30 => &[SHORT, LONG, SHORT],
        31 => &[SHORT, LONG, SHORT],
        40 => &[SHORT_STRING, RESERVED_SHORT_STRING, RESERVED_FLAG],
        41 => &[RESERVED_SHORT_STRING],
        50 => &[SHORT, SHORT_STRING, SHORT, SHORT],
        51 => &[],
        60 => &[SHORT_STRING],
        61 => &[],
        70 => &[LONG_STRING, SHORT_STRING],
        71 => &[],
        _ => return None,
    })
}

/// Opening and closing a channel, and its flow of content.
fn channel_shapes(id: Identifier) -> Option<&'static [Slot]>
    ensures slots { option_map slots_of (option_copied result) ≡ slots_at 20 id }
    ensures constants { IfSome result (λ slots. have_constants slots.now ≡ true) }
{
    Some(match id {
        10 => &[RESERVED_SHORT_STRING],
        11 => &[RESERVED_LONG_STRING],
        20 => &[FLAG],
        21 => &[FLAG],
        40 => &[SHORT, SHORT_STRING, SHORT, SHORT],
        41 => &[],
        _ => return None,
    })
}

/// Access to a realm, as earlier versions of the standard had it.
fn access_shapes(id: Identifier) -> Option<&'static [Slot]>
    ensures slots { option_map slots_of (option_copied result) ≡ slots_at 30 id }
    ensures constants { IfSome result (λ slots. have_constants slots.now ≡ true) }
{
    Some(match id {
        10 => &[SHORT_STRING, FIVE_FLAGS],
        11 => &[RESERVED_TICKET],
        _ => return None,
    })
}

/// Exchanges, and how they are bound to one another.
fn exchange_shapes(id: Identifier) -> Option<&'static [Slot]>
    ensures slots { option_map slots_of (option_copied result) ≡ slots_at 40 id }
    ensures constants { IfSome result (λ slots. have_constants slots.now ≡ true) }
{
    Some(match id {
        10 => &[
            RESERVED_SHORT,
            SHORT_STRING,
            SHORT_STRING,
            FIVE_FLAGS,
            TABLE,
        ],
        11 => &[],
        20 => &[RESERVED_SHORT, SHORT_STRING, TWO_FLAGS],
        21 => &[],
        30 => &BINDING,
        31 => &[],
        40 => &BINDING,
        51 => &[],
        _ => return None,
    })
}

/// Queues, and how they are bound to exchanges.
fn queue_shapes(id: Identifier) -> Option<&'static [Slot]>
    ensures slots { option_map slots_of (option_copied result) ≡ slots_at 50 id }
    ensures constants { IfSome result (λ slots. have_constants slots.now ≡ true) }
{
    Some(match id {
        10 => &[RESERVED_SHORT, SHORT_STRING, FIVE_FLAGS, TABLE],
        11 => &[SHORT_STRING, LONG, LONG],
        20 => &BINDING,
        21 => &[],
        30 => &[RESERVED_SHORT, SHORT_STRING, FLAG],
        31 => &[LONG],
        40 => &[RESERVED_SHORT, SHORT_STRING, THREE_FLAGS],
        41 => &[LONG],
        50 => &[
            RESERVED_SHORT,
            SHORT_STRING,
            SHORT_STRING,
            SHORT_STRING,
            TABLE,
        ],
        51 => &[],
        _ => return None,
    })
}

/// Sending messages, and receiving and acknowledging them.
#[inline(always)]
fn basic_shapes(id: Identifier) -> Option<&'static [Slot]>
    ensures slots { option_map slots_of (option_copied result) ≡ slots_at 60 id }
    ensures constants { IfSome result (λ slots. have_constants slots.now ≡ true) }
{
    Some(match id {
        10 => &[RESERVED_LONG, SHORT, FLAG],
        11 => &[],
        20 => &[
            RESERVED_SHORT,
            SHORT_STRING,
            SHORT_STRING,
            FOUR_FLAGS,
            TABLE,
        ],
        21 => &[SHORT_STRING],
        30 => &[SHORT_STRING, FLAG],
        31 => &[SHORT_STRING],
        40 => &[RESERVED_SHORT, SHORT_STRING, SHORT_STRING, TWO_FLAGS],
        50 => &[SHORT, SHORT_STRING, SHORT_STRING, SHORT_STRING],
        60 => &[SHORT_STRING, LONG_LONG, FLAG, SHORT_STRING, SHORT_STRING],
        70 => &[RESERVED_SHORT, SHORT_STRING, FLAG],
        71 => &[LONG_LONG, FLAG, SHORT_STRING, SHORT_STRING, LONG],
        72 => &[RESERVED_SHORT_STRING],
        80 => &[LONG_LONG, FLAG],
        90 => &[LONG_LONG, FLAG],
        100 => &[FLAG],
        110 => &[FLAG],
        111 => &[],
        120 => &[LONG_LONG, TWO_FLAGS],
        _ => return None,
    })
}

/// Confirms of what was published.
fn confirm_shapes(id: Identifier) -> Option<&'static [Slot]>
    ensures slots { option_map slots_of (option_copied result) ≡ slots_at 85 id }
    ensures constants { IfSome result (λ slots. have_constants slots.now ≡ true) }
{
    Some(match id {
        10 => &[FLAG],
        11 => &[],
        _ => return None,
    })
}

/// Transactions.
fn tx_shapes(id: Identifier) -> Option<&'static [Slot]>
    ensures slots { option_map slots_of (option_copied result) ≡ slots_at 90 id }
    ensures constants { IfSome result (λ slots. have_constants slots.now ≡ true) }
{
    Some(match id {
        10 => &[],
        11 => &[],
        20 => &[],
        21 => &[],
        30 => &[],
        31 => &[],
        _ => return None,
    })
}
