//! The methods of the class access, 30.
//! Its `parse_` calls return Incomplete, NotUtf8 and NoMemory; `parse_access` also UnknownMethod.

ghost use Rattle.std.specs.Prelude.{◌≡◌, ◌∷◌, [], false, IfOk};
ghost use Rattle.amqp_types.specs.Slots.{flag_item, text_item};
ghost use Rattle.amqp_types.specs.Calls.{Parses, NeedsNoMemory, Measures, HasRoom};
ghost use Rattle.amqp_types.specs.Writing.{Puts, Appends};
ghost use Rattle.amqp_types.specs.Methods.{method, judge_method, judge_in_class, method_bytes};
ghost use Rattle.amqp_types.specs.Methods.{method_size, payload_bytes, payload_size};
ghost use Rattle.amqp_laws.specs.HeldMethods.{IsHeldMethod};
ghost use Rattle.amqp_values.specs.MethodFields.{ListsMethod};
ghost use Rattle.amqp_connection.specs.Access.{request_method, request_ok_method, method_of};

use amqp_values::{
    Boolean, Field, Flags, GenError, Identifier, NoMemory, ParserError, ShortString, SlotReader,
    byte_of_flags, copied, fields_held, flag_of_byte, gen_fields, gen_method_fields, in_variant,
    parse_id, put_fields, put_method_fields, size_fields, size_method_fields,
};
use std::alloc::Global;

/// The client asks for access to a realm.
#[derive(Debug, Drop, PartialEq)]
pub struct Request {
    /// The name of the realm.
    pub realm: ShortString,

    /// No other client may have access to the realm.
    pub exclusive: Boolean,

    /// The client asks to read about the resources of the realm, and to change none.
    pub passive: Boolean,

    /// The client asks to create and delete resources of the realm.
    pub active: Boolean,

    /// The client asks to publish to the exchanges of the realm.
    pub write: Boolean,

    /// The client asks to consume from the queues of the realm.
    pub read: Boolean,
}

impl Request {
    /// The id of the class.
    pub fn get_amqp_class_id(&self) -> Identifier
        ensures { result ≡ 30 }
    {
        30
    }

    /// The id of the method in its class.
    pub fn get_amqp_method_id(&self) -> Identifier
        ensures { result ≡ 10 }
    {
        10
    }

    /// The method whose fields are empty, zero and false.
    pub fn empty(alloc: Global) -> Request
        ensures { request_method result ≡ method 30 10
            (text_item [] ∷ flag_item false ∷ flag_item false
            ∷ flag_item false ∷ flag_item false ∷ flag_item false ∷ []) }
    {
        Request {
            realm: ShortString::empty(alloc),
            exclusive: false,
            passive: false,
            active: false,
            write: false,
            read: false,
        }
    }

    /// A deep copy.
    pub fn copy(&self, alloc: Global) -> Result<Request, NoMemory>
        ensures { IfOk result (λ copied. copied ≡ self.now) }
    {
        Ok(Request {
            realm: self.realm.copy(alloc)?,
            exclusive: self.exclusive,
            passive: self.passive,
            active: self.active,
            write: self.write,
            read: self.read,
        })
    }
}

/// Decodes the fields of `Request`.
#[tactic(auto, using(amqp_types::proofs::Judged::refuses_next), unfolding(amqp_values::proofs::OneMethod::read_at_once))]
pub fn parse_request(alloc: Global, i: &[u8]) -> Result<(usize, Request), ParserError>
    ensures { Parses request_method result i.now (judge_method 30 10) }
{
    let mut slots = SlotReader::new(i);
    let (realm, flags) = slots.read::<(_, Flags<5>)>(alloc)?;
    let method = Request {
        realm,
        exclusive: flag_of_byte(flags.byte, 0),
        passive: flag_of_byte(flags.byte, 1),
        active: flag_of_byte(flags.byte, 2),
        write: flag_of_byte(flags.byte, 3),
        read: flag_of_byte(flags.byte, 4),
    };
    Ok((slots.used(i), method))
}

/// Its ids and fields, in order.
#[tactic(auto, unfolding(amqp_values::proofs::OneMethod::listed))]
fn request_fields(method: &Request) -> [Field<'_>; 4]
    ensures { ListsMethod result (request_method method.now) }
{
    [
        Field::ShortUInt(30),
        Field::ShortUInt(10),
        Field::ShortString(&method.realm),
        Field::Flags(byte_of_flags(&[
            method.exclusive,
            method.passive,
            method.active,
            method.write,
            method.read,
        ])),
    ]
}

/// The size in bytes of the method id and the fields of `Request`.
pub fn size_request(method: &Request) -> Result<u64, GenError>
    ensures { Measures result (method_size (request_method method.now)) }
{
    size_method_fields(&request_fields(method))
}

/// Puts the method id and the fields of `Request` at a place of a slice, and returns the place after.
pub fn put_request(buf: &mut [u8], at: usize, method: &Request) -> usize
    requires { HasRoom buf.old at (method_size (request_method method.now))
        (method_bytes (request_method method.now)) }
    ensures { Puts buf.old buf.new at (method_bytes (request_method method.now)) result }
{
    put_method_fields(buf, at, &request_fields(method))
}

/// Appends the method id and the fields of `Request` to a vector.
pub fn gen_request(_alloc: Global, out: &mut Vec<u8>, method: &Request) -> Result<(), GenError>
    ensures { Appends out.old.items out.new.items (method_size (request_method method.now))
        (method_bytes (request_method method.now)) result }
{
    gen_method_fields(out, &request_fields(method))
}

/// The access is granted. The ticket, which is reserved, is written as 1.
#[derive(Clone, Default, Debug, Drop, PartialEq)]
pub struct RequestOk {}

impl RequestOk {
    /// The id of the class.
    pub fn get_amqp_class_id(&self) -> Identifier
        ensures { result ≡ 30 }
    {
        30
    }

    /// The id of the method in its class.
    pub fn get_amqp_method_id(&self) -> Identifier
        ensures { result ≡ 11 }
    {
        11
    }
}

/// Decodes the fields of `RequestOk`.
#[tactic(auto, using(amqp_types::proofs::Judged::refuses_next), unfolding(amqp_values::proofs::OneMethod::read_one_by_one))]
pub fn parse_request_ok(_alloc: Global, i: &[u8]) -> Result<(usize, RequestOk), ParserError>
    ensures parsed { Parses request_ok_method result i.now (judge_method 30 11) }
    ensures memory { NeedsNoMemory result }
{
    let mut slots = SlotReader::new(i);
    slots.skip_short_uint()?;
    Ok((slots.used(i), RequestOk {}))
}

/// Its ids and fields, in order.
#[tactic(auto, unfolding(amqp_values::proofs::OneMethod::listed))]
fn request_ok_fields(_method: &RequestOk) -> [Field<'_>; 4]
    ensures { ListsMethod result (request_ok_method _method.now) }
{
    [
        Field::ShortUInt(30),
        Field::ShortUInt(11),
        Field::ShortUInt(1), // reserved
        Field::Nothing,
    ]
}

/// The size in bytes of the method id and the fields of `RequestOk`.
pub fn size_request_ok(method: &RequestOk) -> Result<u64, GenError>
    ensures { Measures result (method_size (request_ok_method method.now)) }
{
    size_method_fields(&request_ok_fields(method))
}

/// Puts the method id and the fields of `RequestOk` at a place of a slice, and returns the place after.
pub fn put_request_ok(buf: &mut [u8], at: usize, method: &RequestOk) -> usize
    requires { HasRoom buf.old at (method_size (request_ok_method method.now))
        (method_bytes (request_ok_method method.now)) }
    ensures { Puts buf.old buf.new at (method_bytes (request_ok_method method.now)) result }
{
    put_method_fields(buf, at, &request_ok_fields(method))
}

/// Appends the method id and the fields of `RequestOk` to a vector.
pub fn gen_request_ok(_alloc: Global, out: &mut Vec<u8>, method: &RequestOk) -> Result<(), GenError>
    ensures { Appends out.old.items out.new.items (method_size (request_ok_method method.now))
        (method_bytes (request_ok_method method.now)) result }
{
    gen_method_fields(out, &request_ok_fields(method))
}

/// A method of the class.
#[derive(Debug, Drop, PartialEq)]
pub enum AMQPMethod {
    /// The client asks for access to a realm.
    Request(Request),

    /// The access is granted. The ticket, which is reserved, is written as 1.
    RequestOk(RequestOk),
}

impl AMQPMethod {
    /// The id of the class.
    pub fn get_amqp_class_id(&self) -> Identifier
        ensures { result ≡ 30 }
    {
        30
    }

    /// The id of the method in its class.
    pub fn get_amqp_method_id(&self) -> Identifier
        ensures { result ≡ (method_of self.now).id }
    {
        match self {
            AMQPMethod::Request(_) => 10,
            AMQPMethod::RequestOk(_) => 11,
        }
    }

    /// A deep copy.
    pub fn copy(&self, alloc: Global) -> Result<AMQPMethod, NoMemory>
        ensures { IfOk result (λ copied. copied ≡ self.now) }
    {
        match self {
            AMQPMethod::Request(method) => copied!(method.copy(alloc), AMQPMethod::Request),
            AMQPMethod::RequestOk(method) => copied!(method.clone(), AMQPMethod::RequestOk),
        }
    }
}

/// Decodes the fields of the method with this id.
#[tactic(auto, using(amqp_types::proofs::Judged::refuses_next), unfolding(amqp_types::specs::Rows::rows_of, amqp_types::specs::Rows::slots_at, amqp_types::specs::Methods::judge_method))]
fn parse_method(alloc: Global, id: Identifier, i: &[u8]) -> Result<(usize, AMQPMethod), ParserError>
    ensures { Parses method_of result i.now (judge_method 30 id) }
{
    match id {
        10 => in_variant!(parse_request(alloc, i), AMQPMethod::Request),
        11 => in_variant!(parse_request_ok(alloc, i), AMQPMethod::RequestOk),
        _ => Err(ParserError::UnknownMethod),
    }
}

/// Decodes a method id and the fields of that method.
#[tactic(auto, using(amqp_types::proofs::Judged::refuses_next), unfolding(amqp_types::specs::Rows::rows_of, amqp_types::specs::Methods::judge_in_class))]
pub fn parse_access(alloc: Global, i: &[u8]) -> Result<(usize, AMQPMethod), ParserError>
    ensures { Parses method_of result i.now (judge_in_class 30) }
{
    let (n, id) = parse_id(i)?;
    let (used, method) = parse_method(alloc, id, &i[n..])?;
    Ok((n + used, method))
}

/// The ids and fields of a method, in order, and then nothing up to the most that a method of the class has.
fn method_fields(method: &AMQPMethod) -> [Field<'_>; 4]
    ensures { ListsMethod result (method_of method.now) }
{
    match method {
        AMQPMethod::Request(method) => request_fields(method),
        AMQPMethod::RequestOk(method) => request_ok_fields(method),
    }
}

/// The size in bytes of the class id, the method id and the fields.
pub fn size_access(method: &AMQPMethod) -> Result<u64, GenError>
    ensures { Measures result (payload_size (method_of method.now)) }
{
    size_fields(&method_fields(method))
}

/// Puts the class id, the method id and the fields at a place of a slice, and returns the place after.
pub fn put_access(buf: &mut [u8], at: usize, method: &AMQPMethod) -> usize
    requires { HasRoom buf.old at (payload_size (method_of method.now))
        (payload_bytes (method_of method.now)) }
    ensures { Puts buf.old buf.new at (payload_bytes (method_of method.now)) result }
{
    put_fields(buf, at, &method_fields(method))
}

/// Appends the class id, the method id and the fields to a vector.
pub fn gen_access(_alloc: Global, out: &mut Vec<u8>, method: &AMQPMethod) -> Result<(), GenError>
    ensures { Appends out.old.items out.new.items (payload_size (method_of method.now))
        (payload_bytes (method_of method.now)) result }
{
    gen_fields(out, &method_fields(method))
}

/// A method of the class is held, whatever a program does: the premise of the laws that read canonical bytes back.
pub fn access_method_held(method: &AMQPMethod)
    ensures { IsHeldMethod (method_of method.now) }
{
    fields_held(&method_fields(method))
}
