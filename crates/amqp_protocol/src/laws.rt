//! Laws of error codes, login strings, methods and constants, each the contract of a function that does next to nothing.

ghost use Rattle.std.specs.Prelude.{◌≡◌, ◌∷◌, ◌++◌, [], map, codes};
ghost use Rattle.amqp_types.specs.Tags.{tag_byte, tags, short_int_read_byte};
ghost use Rattle.amqp_types.specs.Tags.{long_long_int_read_byte};
ghost use Rattle.amqp_laws.specs.HeldMethods.{IsHeldMethod};
ghost use Rattle.amqp_protocol.specs.Classes.{method_of};
ghost use Rattle.amqp_protocol.specs.ProtocolLaws.{CodesNameErrors, PlainLoginsNameCredentials};
ghost use Rattle.amqp_protocol.specs.ProtocolLaws.{PayloadsBeginWithIds};

use crate::class::AMQPClass;
use crate::constants::{
    FRAME_BODY, FRAME_END, FRAME_HEADER, FRAME_HEARTBEAT, FRAME_METHOD, FRAME_MIN_SIZE,
    REPLY_SUCCESS,
};
use crate::metadata::{MAJOR_VERSION, MINOR_VERSION, NAME, PORT, REVISION};
use amqp_basic::basic_method_held;
use amqp_channel::{channel_method_held, confirm_method_held, tx_method_held};
use amqp_connection::{access_method_held, connection_method_held};
use amqp_topology::{exchange_method_held, queue_method_held};
use amqp_types::{
    INNER_DEPTH, LongUInt, MAX_DEPTH, PROTOCOL_BYTE, ShortShortUInt, TAG_BOOLEAN, TAG_BYTE_ARRAY,
    TAG_DECIMAL_VALUE, TAG_DOUBLE, TAG_FIELD_ARRAY, TAG_FIELD_TABLE, TAG_FLOAT, TAG_LONG_INT,
    TAG_LONG_LONG_INT, TAG_LONG_LONG_INT_READ, TAG_LONG_STRING, TAG_LONG_UINT, TAG_SHORT_INT,
    TAG_SHORT_INT_READ, TAG_SHORT_SHORT_INT, TAG_SHORT_SHORT_UINT, TAG_SHORT_UINT, TAG_TIMESTAMP,
    TAG_VOID,
};

/// Codes and errors name each other.
#[tactic(auto, using(crate::proofs::Codes::codes_are_names))]
pub fn codes_name_errors()
    ensures { CodesNameErrors }
{}

/// Two Plain login strings whose user names hold no zero byte are equal exactly where the credentials
/// are.
#[tactic(auto, using(crate::proofs::PlainLogins::plain_logins))]
pub fn plain_logins_name_credentials()
    ensures { PlainLoginsNameCredentials }
{}

/// The payload of a method begins with the ids that the method reports.
pub fn payloads_begin_with_ids()
    ensures { PayloadsBeginWithIds }
{}

/// A method of any class is held, whatever a program does: the premise of the laws that read canonical bytes back.
pub fn class_held(class: &AMQPClass)
    ensures { IsHeldMethod (method_of class.now) }
{
    match class {
        AMQPClass::Basic(method) => basic_method_held(method),
        AMQPClass::Connection(method) => connection_method_held(method),
        AMQPClass::Channel(method) => channel_method_held(method),
        AMQPClass::Access(method) => access_method_held(method),
        AMQPClass::Exchange(method) => exchange_method_held(method),
        AMQPClass::Queue(method) => queue_method_held(method),
        AMQPClass::Tx(method) => tx_method_held(method),
        AMQPClass::Confirm(method) => confirm_method_held(method),
    }
}

/// The first bytes of protocol headers, and of method, content header, body and heartbeat frames, and the last byte of
/// these.
pub fn frame_numbers() -> [ShortShortUInt; 6]
    ensures { result ≡ 65 ∷ 1 ∷ 2 ∷ 3 ∷ 8 ∷ 206 ∷ [] }
{
    [
        PROTOCOL_BYTE,
        FRAME_METHOD,
        FRAME_HEADER,
        FRAME_BODY,
        FRAME_HEARTBEAT,
        FRAME_END,
    ]
}

/// The tag bytes in the order of `FieldTag`, and the two that are decoded alone.
pub fn tag_numbers() -> [ShortShortUInt; 19]
    ensures { result ≡ map tag_byte tags ++ (short_int_read_byte ∷ long_long_int_read_byte ∷ []) }
{
    [
        TAG_BOOLEAN,
        TAG_SHORT_SHORT_INT,
        TAG_SHORT_SHORT_UINT,
        TAG_SHORT_INT,
        TAG_SHORT_UINT,
        TAG_LONG_INT,
        TAG_LONG_UINT,
        TAG_LONG_LONG_INT,
        TAG_FLOAT,
        TAG_DOUBLE,
        TAG_DECIMAL_VALUE,
        TAG_LONG_STRING,
        TAG_FIELD_ARRAY,
        TAG_TIMESTAMP,
        TAG_FIELD_TABLE,
        TAG_BYTE_ARRAY,
        TAG_VOID,
        TAG_SHORT_INT_READ,
        TAG_LONG_LONG_INT_READ,
    ]
}

/// How many tables and arrays may stand one inside another, and how many inside a field that is itself one.
pub fn nesting_numbers() -> [usize; 2]
    ensures { result ≡ 64 ∷ 63 ∷ [] }
{
    [MAX_DEPTH, INNER_DEPTH]
}

/// The frame size that each peer takes, and the reply code of success.
pub fn reply_numbers() -> [LongUInt; 2]
    ensures { result ≡ 8192 ∷ 200 ∷ [] }
{
    [FRAME_MIN_SIZE, LongUInt::from(REPLY_SUCCESS)]
}

/// The protocol's version in its three parts, and its port.
pub fn protocol_numbers() -> [LongUInt; 4]
    ensures { result ≡ 0 ∷ 9 ∷ 1 ∷ 5672 ∷ [] }
{
    [
        LongUInt::from(MAJOR_VERSION),
        LongUInt::from(MINOR_VERSION),
        LongUInt::from(REVISION),
        PORT,
    ]
}

/// The protocol's name.
pub fn protocol_name() -> &'static str
    ensures { result.now ≡ codes "AMQP" }
{
    NAME
}
