//! Methods of the class exchange that bind and unbind exchanges.

ghost use Rattle.std.specs.Prelude.{◌≡◌, ◌∷◌, [], false, IfOk};
ghost use Rattle.amqp_types.specs.Slots.{flag_item, text_item, entries_item};
ghost use Rattle.amqp_types.specs.Calls.{Parses, NeedsNoMemory, Measures, HasRoom};
ghost use Rattle.amqp_types.specs.Writing.{Puts, Appends};
ghost use Rattle.amqp_types.specs.Methods.{method, judge_method, method_bytes, method_size};
ghost use Rattle.amqp_values.specs.MethodFields.{ListsMethod};
ghost use Rattle.amqp_exchange.specs.Exchange.{bind_method, bind_ok_method};
ghost use Rattle.amqp_exchange.specs.Exchange.{unbind_method, unbind_ok_method};

use amqp_values::{
    Boolean, Field, FieldTable, Flags, GenError, Identifier, NoMemory, ParserError,
    ReservedShortUInt, ShortString, SlotReader, byte_of_flags, copied, flag_of_byte,
    gen_method_fields, put_method_fields, size_method_fields,
};
use std::alloc::Global;

/// The client binds an exchange to another one.
#[derive(Debug, Drop, PartialEq)]
pub struct Bind {
    /// The name of the exchange that messages are routed to.
    pub destination: ShortString,

    /// The name of the exchange that messages are routed from.
    pub source: ShortString,

    /// The key of the binding; the kind of the source decides how it is matched.
    pub routing_key: ShortString,

    /// The server sends no `BindOk`.
    pub nowait: Boolean,

    /// Further arguments of the binding; the kind of the source gives them a meaning.
    pub arguments: FieldTable,
}

impl Bind {
    /// The id of the class.
    pub fn get_amqp_class_id(&self) -> Identifier
        ensures { result ≡ 40 }
    {
        40
    }

    /// The id of the method in its class.
    pub fn get_amqp_method_id(&self) -> Identifier
        ensures { result ≡ 30 }
    {
        30
    }

    /// The method whose fields are empty, zero and false.
    pub fn empty(alloc: Global) -> Bind
        ensures { bind_method result
            ≡ method 40 30
            (text_item [] ∷ text_item [] ∷ text_item [] ∷ flag_item false ∷ entries_item [] ∷ []) }
    {
        Bind {
            destination: ShortString::empty(alloc),
            source: ShortString::empty(alloc),
            routing_key: ShortString::empty(alloc),
            nowait: false,
            arguments: FieldTable::new(alloc),
        }
    }

    /// A deep copy.
    pub fn copy(&self, alloc: Global) -> Result<Bind, NoMemory>
        ensures { IfOk result (λ copied. copied ≡ self.now) }
    {
        Ok(Bind {
            destination: self.destination.copy(alloc)?,
            source: self.source.copy(alloc)?,
            routing_key: self.routing_key.copy(alloc)?,
            nowait: self.nowait,
            arguments: self.arguments.copy(alloc)?,
        })
    }
}

/// Decodes the fields of `Bind`.
#[tactic(auto, using(amqp_types::proofs::Judged::refuses_next), unfolding(amqp_values::proofs::OneMethod::read_at_once))]
pub fn parse_bind(alloc: Global, i: &[u8]) -> Result<(usize, Bind), ParserError>
    ensures { Parses bind_method result i.now (judge_method 40 30) }
{
    let mut slots = SlotReader::new(i);
    let (_, destination, source, routing_key, flags, arguments) = slots.read::<
        (ReservedShortUInt, _, _, _, Flags<1>, _),
    >(alloc)?;
    let method = Bind {
        destination,
        source,
        routing_key,
        nowait: flag_of_byte(flags.byte, 0),
        arguments,
    };
    Ok((slots.used(i), method))
}

/// Its ids and fields, in order.
#[tactic(auto, unfolding(amqp_values::proofs::OneMethod::listed))]
pub(super) fn bind_fields(method: &Bind) -> [Field<'_>; 8]
    ensures { ListsMethod result (bind_method method.now) }
{
    [
        Field::ShortUInt(40),
        Field::ShortUInt(30),
        Field::ShortUInt(0), // reserved
        Field::ShortString(&method.destination),
        Field::ShortString(&method.source),
        Field::ShortString(&method.routing_key),
        Field::Flags(byte_of_flags(&[method.nowait])),
        Field::Table(&method.arguments),
    ]
}

/// The size in bytes of the method id and the fields of `Bind`.
pub fn size_bind(method: &Bind) -> Result<u64, GenError>
    ensures { Measures result (method_size (bind_method method.now)) }
{
    size_method_fields(&bind_fields(method))
}

/// Puts the method id and the fields of `Bind` at a place of a slice, and returns the place after.
pub fn put_bind(buf: &mut [u8], at: usize, method: &Bind) -> usize
    requires { HasRoom buf.old at (method_size (bind_method method.now))
        (method_bytes (bind_method method.now)) }
    ensures { Puts buf.old buf.new at (method_bytes (bind_method method.now)) result }
{
    put_method_fields(buf, at, &bind_fields(method))
}

/// Appends the method id and the fields of `Bind` to a vector.
pub fn gen_bind(_alloc: Global, out: &mut Vec<u8>, method: &Bind) -> Result<(), GenError>
    ensures { Appends out.old.items out.new.items (method_size (bind_method method.now))
        (method_bytes (bind_method method.now)) result }
{
    gen_method_fields(out, &bind_fields(method))
}

/// The exchange is bound.
#[derive(Clone, Default, Debug, Drop, PartialEq)]
pub struct BindOk {}

impl BindOk {
    /// The id of the class.
    pub fn get_amqp_class_id(&self) -> Identifier
        ensures { result ≡ 40 }
    {
        40
    }

    /// The id of the method in its class.
    pub fn get_amqp_method_id(&self) -> Identifier
        ensures { result ≡ 31 }
    {
        31
    }
}

/// Decodes the fields of `BindOk`.
#[tactic(auto, using(amqp_types::proofs::Judged::refuses_next), unfolding(amqp_values::proofs::OneMethod::read_one_by_one))]
pub fn parse_bind_ok(_alloc: Global, i: &[u8]) -> Result<(usize, BindOk), ParserError>
    ensures parsed { Parses bind_ok_method result i.now (judge_method 40 31) }
    ensures memory { NeedsNoMemory result }
{
    let slots = SlotReader::new(i);
    Ok((slots.used(i), BindOk {}))
}

/// Its ids and fields, in order.
#[tactic(auto, unfolding(amqp_values::proofs::OneMethod::listed))]
pub(super) fn bind_ok_fields(_method: &BindOk) -> [Field<'_>; 8]
    ensures { ListsMethod result (bind_ok_method _method.now) }
{
    [
        Field::ShortUInt(40),
        Field::ShortUInt(31),
        Field::Nothing,
        Field::Nothing,
        Field::Nothing,
        Field::Nothing,
        Field::Nothing,
        Field::Nothing,
    ]
}

/// The size in bytes of the method id and the fields of `BindOk`.
pub fn size_bind_ok(method: &BindOk) -> Result<u64, GenError>
    ensures { Measures result (method_size (bind_ok_method method.now)) }
{
    size_method_fields(&bind_ok_fields(method))
}

/// Puts the method id and the fields of `BindOk` at a place of a slice, and returns the place after.
pub fn put_bind_ok(buf: &mut [u8], at: usize, method: &BindOk) -> usize
    requires { HasRoom buf.old at (method_size (bind_ok_method method.now))
        (method_bytes (bind_ok_method method.now)) }
    ensures { Puts buf.old buf.new at (method_bytes (bind_ok_method method.now)) result }
{
    put_method_fields(buf, at, &bind_ok_fields(method))
}

/// Appends the method id and the fields of `BindOk` to a vector.
pub fn gen_bind_ok(_alloc: Global, out: &mut Vec<u8>, method: &BindOk) -> Result<(), GenError>
    ensures { Appends out.old.items out.new.items (method_size (bind_ok_method method.now))
        (method_bytes (bind_ok_method method.now)) result }
{
    gen_method_fields(out, &bind_ok_fields(method))
}

/// The client unbinds an exchange from another one.
#[derive(Debug, Drop, PartialEq)]
pub struct Unbind {
    /// The name of the exchange that messages were routed to.
    pub destination: ShortString,

    /// The name of the exchange that messages were routed from.
    pub source: ShortString,

    /// The key of the binding to remove.
    pub routing_key: ShortString,

    /// The server sends no `UnbindOk`.
    pub nowait: Boolean,

    /// The arguments of the binding to remove.
    pub arguments: FieldTable,
}

impl Unbind {
    /// The id of the class.
    pub fn get_amqp_class_id(&self) -> Identifier
        ensures { result ≡ 40 }
    {
        40
    }

    /// The id of the method in its class.
    pub fn get_amqp_method_id(&self) -> Identifier
        ensures { result ≡ 40 }
    {
        40
    }

    /// The method whose fields are empty, zero and false.
    pub fn empty(alloc: Global) -> Unbind
        ensures { unbind_method result
            ≡ method 40 40
            (text_item [] ∷ text_item [] ∷ text_item [] ∷ flag_item false ∷ entries_item [] ∷ []) }
    {
        Unbind {
            destination: ShortString::empty(alloc),
            source: ShortString::empty(alloc),
            routing_key: ShortString::empty(alloc),
            nowait: false,
            arguments: FieldTable::new(alloc),
        }
    }

    /// A deep copy.
    pub fn copy(&self, alloc: Global) -> Result<Unbind, NoMemory>
        ensures { IfOk result (λ copied. copied ≡ self.now) }
    {
        Ok(Unbind {
            destination: self.destination.copy(alloc)?,
            source: self.source.copy(alloc)?,
            routing_key: self.routing_key.copy(alloc)?,
            nowait: self.nowait,
            arguments: self.arguments.copy(alloc)?,
        })
    }
}

/// Decodes the fields of `Unbind`.
#[tactic(auto, using(amqp_types::proofs::Judged::refuses_next), unfolding(amqp_values::proofs::OneMethod::read_at_once))]
pub fn parse_unbind(alloc: Global, i: &[u8]) -> Result<(usize, Unbind), ParserError>
    ensures { Parses unbind_method result i.now (judge_method 40 40) }
{
    let mut slots = SlotReader::new(i);
    let (_, destination, source, routing_key, flags, arguments) = slots.read::<
        (ReservedShortUInt, _, _, _, Flags<1>, _),
    >(alloc)?;
    let method = Unbind {
        destination,
        source,
        routing_key,
        nowait: flag_of_byte(flags.byte, 0),
        arguments,
    };
    Ok((slots.used(i), method))
}

/// Its ids and fields, in order.
#[tactic(auto, unfolding(amqp_values::proofs::OneMethod::listed))]
pub(super) fn unbind_fields(method: &Unbind) -> [Field<'_>; 8]
    ensures { ListsMethod result (unbind_method method.now) }
{
    [
        Field::ShortUInt(40),
        Field::ShortUInt(40),
        Field::ShortUInt(0), // reserved
        Field::ShortString(&method.destination),
        Field::ShortString(&method.source),
        Field::ShortString(&method.routing_key),
        Field::Flags(byte_of_flags(&[method.nowait])),
        Field::Table(&method.arguments),
    ]
}

/// The size in bytes of the method id and the fields of `Unbind`.
pub fn size_unbind(method: &Unbind) -> Result<u64, GenError>
    ensures { Measures result (method_size (unbind_method method.now)) }
{
    size_method_fields(&unbind_fields(method))
}

/// Puts the method id and the fields of `Unbind` at a place of a slice, and returns the place after.
pub fn put_unbind(buf: &mut [u8], at: usize, method: &Unbind) -> usize
    requires { HasRoom buf.old at (method_size (unbind_method method.now))
        (method_bytes (unbind_method method.now)) }
    ensures { Puts buf.old buf.new at (method_bytes (unbind_method method.now)) result }
{
    put_method_fields(buf, at, &unbind_fields(method))
}

/// Appends the method id and the fields of `Unbind` to a vector.
pub fn gen_unbind(_alloc: Global, out: &mut Vec<u8>, method: &Unbind) -> Result<(), GenError>
    ensures { Appends out.old.items out.new.items (method_size (unbind_method method.now))
        (method_bytes (unbind_method method.now)) result }
{
    gen_method_fields(out, &unbind_fields(method))
}

/// The exchange is unbound.
#[derive(Clone, Default, Debug, Drop, PartialEq)]
pub struct UnbindOk {}

impl UnbindOk {
    /// The id of the class.
    pub fn get_amqp_class_id(&self) -> Identifier
        ensures { result ≡ 40 }
    {
        40
    }

    /// The id of the method in its class.
    pub fn get_amqp_method_id(&self) -> Identifier
        ensures { result ≡ 51 }
    {
        51
    }
}

/// Decodes the fields of `UnbindOk`.
#[tactic(auto, using(amqp_types::proofs::Judged::refuses_next), unfolding(amqp_values::proofs::OneMethod::read_one_by_one))]
pub fn parse_unbind_ok(_alloc: Global, i: &[u8]) -> Result<(usize, UnbindOk), ParserError>
    ensures parsed { Parses unbind_ok_method result i.now (judge_method 40 51) }
    ensures memory { NeedsNoMemory result }
{
    let slots = SlotReader::new(i);
    Ok((slots.used(i), UnbindOk {}))
}

/// Its ids and fields, in order.
#[tactic(auto, unfolding(amqp_values::proofs::OneMethod::listed))]
pub(super) fn unbind_ok_fields(_method: &UnbindOk) -> [Field<'_>; 8]
    ensures { ListsMethod result (unbind_ok_method _method.now) }
{
    [
        Field::ShortUInt(40),
        Field::ShortUInt(51),
        Field::Nothing,
        Field::Nothing,
        Field::Nothing,
        Field::Nothing,
        Field::Nothing,
        Field::Nothing,
    ]
}

/// The size in bytes of the method id and the fields of `UnbindOk`.
pub fn size_unbind_ok(method: &UnbindOk) -> Result<u64, GenError>
    ensures { Measures result (method_size (unbind_ok_method method.now)) }
{
    size_method_fields(&unbind_ok_fields(method))
}

/// Puts the method id and the fields of `UnbindOk` at a place of a slice, and returns the place after.
pub fn put_unbind_ok(buf: &mut [u8], at: usize, method: &UnbindOk) -> usize
    requires { HasRoom buf.old at (method_size (unbind_ok_method method.now))
        (method_bytes (unbind_ok_method method.now)) }
    ensures { Puts buf.old buf.new at (method_bytes (unbind_ok_method method.now)) result }
{
    put_method_fields(buf, at, &unbind_ok_fields(method))
}

/// Appends the method id and the fields of `UnbindOk` to a vector.
pub fn gen_unbind_ok(_alloc: Global, out: &mut Vec<u8>, method: &UnbindOk) -> Result<(), GenError>
    ensures { Appends out.old.items out.new.items (method_size (unbind_ok_method method.now))
        (method_bytes (unbind_ok_method method.now)) result }
{
    gen_method_fields(out, &unbind_ok_fields(method))
}
