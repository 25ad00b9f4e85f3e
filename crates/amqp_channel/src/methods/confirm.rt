//! The methods of the class confirm, 85.
//! Its `parse_` calls return Incomplete; `parse_confirm` also UnknownMethod.

ghost use Rattle.std.specs.Prelude.{◌≡◌, IfOk, ◌∷◌, [], false};
ghost use Rattle.amqp_types.specs.Slots.{flag_item};
ghost use Rattle.amqp_types.specs.Calls.{Parses, NeedsNoMemory, Measures, HasRoom};
ghost use Rattle.amqp_types.specs.Writing.{Puts, Appends};
ghost use Rattle.amqp_types.specs.Methods.{judge_method, judge_in_class, method_bytes, method_size};
ghost use Rattle.amqp_types.specs.Methods.{payload_bytes, payload_size, method};
ghost use Rattle.amqp_laws.specs.HeldMethods.{IsHeldMethod};
ghost use Rattle.amqp_values.specs.MethodFields.{ListsMethod};
ghost use Rattle.amqp_channel.specs.Confirm.{select_method, select_ok_method, method_of};

use amqp_values::{
    Boolean, Field, GenError, Identifier, NoMemory, ParserError, SlotReader, byte_of_flags, copied,
    fields_held, flag_of_byte, gen_fields, gen_method_fields, in_variant, parse_id, put_fields,
    put_method_fields, size_fields, size_method_fields,
};
use std::alloc::Global;

/// The client asks for confirms of what it publishes on the channel.
#[derive(Clone, Debug, Drop, PartialEq)]
pub struct Select {
    /// The server sends no `SelectOk`.
    pub nowait: Boolean,
}

impl Default for Select {
    /// The method whose numbers are 0 and whose flags are false.
    fn default() -> Select
        ensures { select_method result ≡ method 85 10 (flag_item false ∷ []) }
    {
        Select { nowait: false }
    }
}

impl Select {
    /// The id of the class.
    pub fn get_amqp_class_id(&self) -> Identifier
        ensures { result ≡ 85 }
    {
        85
    }

    /// The id of the method in its class.
    pub fn get_amqp_method_id(&self) -> Identifier
        ensures { result ≡ 10 }
    {
        10
    }
}

/// Decodes the fields of `Select`.
#[tactic(auto, using(amqp_types::proofs::Judged::refuses_next), unfolding(amqp_values::proofs::OneMethod::read_one_by_one))]
pub fn parse_select(_alloc: Global, i: &[u8]) -> Result<(usize, Select), ParserError>
    ensures parsed { Parses select_method result i.now (judge_method 85 10) }
    ensures memory { NeedsNoMemory result }
{
    let mut slots = SlotReader::new(i);
    let flags = slots.flags::<1>()?;
    let method = Select {
        nowait: flag_of_byte(flags, 0),
    };
    Ok((slots.used(i), method))
}

/// Its ids and fields, in order.
#[tactic(auto, unfolding(amqp_values::proofs::OneMethod::listed))]
fn select_fields(method: &Select) -> [Field<'_>; 3]
    ensures { ListsMethod result (select_method method.now) }
{
    [
        Field::ShortUInt(85),
        Field::ShortUInt(10),
        Field::Flags(byte_of_flags(&[method.nowait])),
    ]
}

/// The size in bytes of the method id and the fields of `Select`.
pub fn size_select(method: &Select) -> Result<u64, GenError>
    ensures { Measures result (method_size (select_method method.now)) }
{
    size_method_fields(&select_fields(method))
}

/// Puts the method id and the fields of `Select` at a place of a slice, and returns the place after.
pub fn put_select(buf: &mut [u8], at: usize, method: &Select) -> usize
    requires { HasRoom buf.old at (method_size (select_method method.now))
        (method_bytes (select_method method.now)) }
    ensures { Puts buf.old buf.new at (method_bytes (select_method method.now)) result }
{
    put_method_fields(buf, at, &select_fields(method))
}

/// Appends the method id and the fields of `Select` to a vector.
pub fn gen_select(_alloc: Global, out: &mut Vec<u8>, method: &Select) -> Result<(), GenError>
    ensures { Appends out.old.items out.new.items (method_size (select_method method.now))
        (method_bytes (select_method method.now)) result }
{
    gen_method_fields(out, &select_fields(method))
}

/// The channel confirms what is published.
#[derive(Clone, Default, Debug, Drop, PartialEq)]
pub struct SelectOk {}

impl SelectOk {
    /// The id of the class.
    pub fn get_amqp_class_id(&self) -> Identifier
        ensures { result ≡ 85 }
    {
        85
    }

    /// The id of the method in its class.
    pub fn get_amqp_method_id(&self) -> Identifier
        ensures { result ≡ 11 }
    {
        11
    }
}

/// Decodes the fields of `SelectOk`.
#[tactic(auto, using(amqp_types::proofs::Judged::refuses_next), unfolding(amqp_values::proofs::OneMethod::read_one_by_one))]
pub fn parse_select_ok(_alloc: Global, i: &[u8]) -> Result<(usize, SelectOk), ParserError>
    ensures parsed { Parses select_ok_method result i.now (judge_method 85 11) }
    ensures memory { NeedsNoMemory result }
{
    let slots = SlotReader::new(i);
    Ok((slots.used(i), SelectOk {}))
}

/// Its ids and fields, in order.
#[tactic(auto, unfolding(amqp_values::proofs::OneMethod::listed))]
fn select_ok_fields(_method: &SelectOk) -> [Field<'_>; 3]
    ensures { ListsMethod result (select_ok_method _method.now) }
{
    [Field::ShortUInt(85), Field::ShortUInt(11), Field::Nothing]
}

/// The size in bytes of the method id and the fields of `SelectOk`.
pub fn size_select_ok(method: &SelectOk) -> Result<u64, GenError>
    ensures { Measures result (method_size (select_ok_method method.now)) }
{
    size_method_fields(&select_ok_fields(method))
}

/// Puts the method id and the fields of `SelectOk` at a place of a slice, and returns the place after.
pub fn put_select_ok(buf: &mut [u8], at: usize, method: &SelectOk) -> usize
    requires { HasRoom buf.old at (method_size (select_ok_method method.now))
        (method_bytes (select_ok_method method.now)) }
    ensures { Puts buf.old buf.new at (method_bytes (select_ok_method method.now)) result }
{
    put_method_fields(buf, at, &select_ok_fields(method))
}

/// Appends the method id and the fields of `SelectOk` to a vector.
pub fn gen_select_ok(_alloc: Global, out: &mut Vec<u8>, method: &SelectOk) -> Result<(), GenError>
    ensures { Appends out.old.items out.new.items (method_size (select_ok_method method.now))
        (method_bytes (select_ok_method method.now)) result }
{
    gen_method_fields(out, &select_ok_fields(method))
}

/// A method of the class.
#[derive(Debug, Drop, PartialEq)]
pub enum AMQPMethod {
    /// The client asks for confirms of what it publishes on the channel.
    Select(Select),

    /// The channel confirms what is published.
    SelectOk(SelectOk),
}

impl AMQPMethod {
    /// The id of the class.
    pub fn get_amqp_class_id(&self) -> Identifier
        ensures { result ≡ 85 }
    {
        85
    }

    /// The id of the method in its class.
    pub fn get_amqp_method_id(&self) -> Identifier
        ensures { result ≡ (method_of self.now).id }
    {
        match self {
            AMQPMethod::Select(_) => 10,
            AMQPMethod::SelectOk(_) => 11,
        }
    }

    /// A deep copy.
    pub fn copy(&self, _alloc: Global) -> Result<AMQPMethod, NoMemory>
        ensures { IfOk result (λ copied. copied ≡ self.now) }
    {
        match self {
            AMQPMethod::Select(method) => copied!(method.clone(), AMQPMethod::Select),
            AMQPMethod::SelectOk(method) => copied!(method.clone(), AMQPMethod::SelectOk),
        }
    }
}

/// Decodes the fields of the method with this id.
#[tactic(auto, using(amqp_types::proofs::Judged::refuses_next), unfolding(amqp_types::specs::Rows::rows_of, amqp_types::specs::Rows::slots_at, amqp_types::specs::Methods::judge_method))]
fn parse_method(alloc: Global, id: Identifier, i: &[u8]) -> Result<(usize, AMQPMethod), ParserError>
    ensures parsed { Parses method_of result i.now (judge_method 85 id) }
    ensures memory { NeedsNoMemory result }
{
    match id {
        10 => in_variant!(parse_select(alloc, i), AMQPMethod::Select),
        11 => in_variant!(parse_select_ok(alloc, i), AMQPMethod::SelectOk),
        _ => Err(ParserError::UnknownMethod),
    }
}

/// Decodes a method id and the fields of that method.
#[tactic(auto, using(amqp_types::proofs::Judged::refuses_next), unfolding(amqp_types::specs::Rows::rows_of, amqp_types::specs::Methods::judge_in_class))]
pub fn parse_confirm(alloc: Global, i: &[u8]) -> Result<(usize, AMQPMethod), ParserError>
    ensures parsed { Parses method_of result i.now (judge_in_class 85) }
    ensures memory { NeedsNoMemory result }
{
    let (n, id) = parse_id(i)?;
    let (used, method) = parse_method(alloc, id, &i[n..])?;
    Ok((n + used, method))
}

/// The ids and fields of a method, in order, and then nothing up to the most that a method of the class has.
fn method_fields(method: &AMQPMethod) -> [Field<'_>; 3]
    ensures { ListsMethod result (method_of method.now) }
{
    match method {
        AMQPMethod::Select(method) => select_fields(method),
        AMQPMethod::SelectOk(method) => select_ok_fields(method),
    }
}

/// The size in bytes of the class id, the method id and the fields.
pub fn size_confirm(method: &AMQPMethod) -> Result<u64, GenError>
    ensures { Measures result (payload_size (method_of method.now)) }
{
    size_fields(&method_fields(method))
}

/// Puts the class id, the method id and the fields at a place of a slice, and returns the place after.
pub fn put_confirm(buf: &mut [u8], at: usize, method: &AMQPMethod) -> usize
    requires { HasRoom buf.old at (payload_size (method_of method.now))
        (payload_bytes (method_of method.now)) }
    ensures { Puts buf.old buf.new at (payload_bytes (method_of method.now)) result }
{
    put_fields(buf, at, &method_fields(method))
}

/// Appends the class id, the method id and the fields to a vector.
pub fn gen_confirm(_alloc: Global, out: &mut Vec<u8>, method: &AMQPMethod) -> Result<(), GenError>
    ensures { Appends out.old.items out.new.items (payload_size (method_of method.now))
        (payload_bytes (method_of method.now)) result }
{
    gen_fields(out, &method_fields(method))
}

/// A method of the class is held, whatever a program does: the premise of the laws that read canonical bytes back.
pub fn confirm_method_held(method: &AMQPMethod)
    ensures { IsHeldMethod (method_of method.now) }
{
    fields_held(&method_fields(method))
}
