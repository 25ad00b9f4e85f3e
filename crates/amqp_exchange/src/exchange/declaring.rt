//! Methods of the class exchange that declare and delete exchanges.

ghost use Rattle.std.specs.Prelude.{◌≡◌, ◌∷◌, [], false, IfOk};
ghost use Rattle.amqp_types.specs.Slots.{flag_item, text_item, entries_item};
ghost use Rattle.amqp_types.specs.Calls.{Parses, NeedsNoMemory, Measures, HasRoom};
ghost use Rattle.amqp_types.specs.Writing.{Puts, Appends};
ghost use Rattle.amqp_types.specs.Methods.{method, judge_method, method_bytes, method_size};
ghost use Rattle.amqp_values.specs.MethodFields.{ListsMethod};
ghost use Rattle.amqp_exchange.specs.Exchange.{declare_method, declare_ok_method};
ghost use Rattle.amqp_exchange.specs.Exchange.{delete_method, delete_ok_method};

use amqp_values::{
    Boolean, Field, FieldTable, Flags, GenError, Identifier, NoMemory, ParserError,
    ReservedShortUInt, ShortString, SlotReader, byte_of_flags, copied, flag_of_byte,
    gen_method_fields, put_method_fields, size_method_fields,
};
use std::alloc::Global;

/// The client declares an exchange.
#[derive(Debug, Drop, PartialEq)]
pub struct Declare {
    /// The name of the exchange; names that begin with `amq.` are reserved.
    pub exchange: ShortString,

    /// The type of the exchange, such as `direct`, `fanout`, `topic` and `headers`.
    pub kind: ShortString,

    /// The server creates nothing, and raises an error where the exchange does not exist.
    pub passive: Boolean,

    /// The exchange remains when the server restarts.
    pub durable: Boolean,

    /// The server deletes the exchange when nothing is bound to it any more.
    pub auto_delete: Boolean,

    /// Clients may not publish to the exchange: only other exchanges route to it.
    pub internal: Boolean,

    /// The server sends no `DeclareOk`.
    pub nowait: Boolean,

    /// Further arguments; their names and meaning are the server's.
    pub arguments: FieldTable,
}

impl Declare {
    /// The id of the class.
    pub fn get_amqp_class_id(&self) -> Identifier
        ensures { result ≡ 40 }
    {
        40
    }

    /// The id of the method in its class.
    pub fn get_amqp_method_id(&self) -> Identifier
        ensures { result ≡ 10 }
    {
        10
    }

    /// The method whose fields are empty, zero and false.
    pub fn empty(alloc: Global) -> Declare
        ensures { declare_method result ≡ method 40 10
            (text_item [] ∷ text_item [] ∷ flag_item false ∷ flag_item false
            ∷ flag_item false ∷ flag_item false ∷ flag_item false ∷ entries_item [] ∷ []) }
    {
        Declare {
            exchange: ShortString::empty(alloc),
            kind: ShortString::empty(alloc),
            passive: false,
            durable: false,
            auto_delete: false,
            internal: false,
            nowait: false,
            arguments: FieldTable::new(alloc),
        }
    }

    /// A deep copy.
    pub fn copy(&self, alloc: Global) -> Result<Declare, NoMemory>
        ensures { IfOk result (λ copied. copied ≡ self.now) }
    {
        Ok(Declare {
            exchange: self.exchange.copy(alloc)?,
            kind: self.kind.copy(alloc)?,
            passive: self.passive,
            durable: self.durable,
            auto_delete: self.auto_delete,
            internal: self.internal,
            nowait: self.nowait,
            arguments: self.arguments.copy(alloc)?,
        })
    }
}

/// Decodes the fields of `Declare`.
#[tactic(auto, using(amqp_types::proofs::Judged::refuses_next), unfolding(amqp_values::proofs::OneMethod::read_at_once))]
pub fn parse_declare(alloc: Global, i: &[u8]) -> Result<(usize, Declare), ParserError>
    ensures { Parses declare_method result i.now (judge_method 40 10) }
{
    let mut slots = SlotReader::new(i);
    let (_, exchange, kind, flags, arguments) = slots.read::<
        (ReservedShortUInt, _, _, Flags<5>, _),
    >(alloc)?;
    let method = Declare {
        exchange,
        kind,
        passive: flag_of_byte(flags.byte, 0),
        durable: flag_of_byte(flags.byte, 1),
        auto_delete: flag_of_byte(flags.byte, 2),
        internal: flag_of_byte(flags.byte, 3),
        nowait: flag_of_byte(flags.byte, 4),
        arguments,
    };
    Ok((slots.used(i), method))
}

/// Its ids and fields, in order.
#[tactic(auto, unfolding(amqp_values::proofs::OneMethod::listed))]
pub(super) fn declare_fields(method: &Declare) -> [Field<'_>; 8]
    ensures { ListsMethod result (declare_method method.now) }
{
    [
        Field::ShortUInt(40),
        Field::ShortUInt(10),
        Field::ShortUInt(0), // reserved
        Field::ShortString(&method.exchange),
        Field::ShortString(&method.kind),
        Field::Flags(byte_of_flags(&[
            method.passive,
            method.durable,
            method.auto_delete,
            method.internal,
            method.nowait,
        ])),
        Field::Table(&method.arguments),
        Field::Nothing,
    ]
}

/// The size in bytes of the method id and the fields of `Declare`.
pub fn size_declare(method: &Declare) -> Result<u64, GenError>
    ensures { Measures result (method_size (declare_method method.now)) }
{
    size_method_fields(&declare_fields(method))
}

/// Puts the method id and the fields of `Declare` at a place of a slice, and returns the place after.
pub fn put_declare(buf: &mut [u8], at: usize, method: &Declare) -> usize
    requires { HasRoom buf.old at (method_size (declare_method method.now))
        (method_bytes (declare_method method.now)) }
    ensures { Puts buf.old buf.new at (method_bytes (declare_method method.now)) result }
{
    put_method_fields(buf, at, &declare_fields(method))
}

/// Appends the method id and the fields of `Declare` to a vector.
pub fn gen_declare(_alloc: Global, out: &mut Vec<u8>, method: &Declare) -> Result<(), GenError>
    ensures { Appends out.old.items out.new.items (method_size (declare_method method.now))
        (method_bytes (declare_method method.now)) result }
{
    gen_method_fields(out, &declare_fields(method))
}

/// The exchange is there.
#[derive(Clone, Default, Debug, Drop, PartialEq)]
pub struct DeclareOk {}

impl DeclareOk {
    /// The id of the class.
    pub fn get_amqp_class_id(&self) -> Identifier
        ensures { result ≡ 40 }
    {
        40
    }

    /// The id of the method in its class.
    pub fn get_amqp_method_id(&self) -> Identifier
        ensures { result ≡ 11 }
    {
        11
    }
}

/// Decodes the fields of `DeclareOk`.
#[tactic(auto, using(amqp_types::proofs::Judged::refuses_next), unfolding(amqp_values::proofs::OneMethod::read_one_by_one))]
pub fn parse_declare_ok(_alloc: Global, i: &[u8]) -> Result<(usize, DeclareOk), ParserError>
    ensures parsed { Parses declare_ok_method result i.now (judge_method 40 11) }
    ensures memory { NeedsNoMemory result }
{
    let slots = SlotReader::new(i);
    Ok((slots.used(i), DeclareOk {}))
}

/// Its ids and fields, in order.
#[tactic(auto, unfolding(amqp_values::proofs::OneMethod::listed))]
pub(super) fn declare_ok_fields(_method: &DeclareOk) -> [Field<'_>; 8]
    ensures { ListsMethod result (declare_ok_method _method.now) }
{
    [
        Field::ShortUInt(40),
        Field::ShortUInt(11),
        Field::Nothing,
        Field::Nothing,
        Field::Nothing,
        Field::Nothing,
        Field::Nothing,
        Field::Nothing,
    ]
}

/// The size in bytes of the method id and the fields of `DeclareOk`.
pub fn size_declare_ok(method: &DeclareOk) -> Result<u64, GenError>
    ensures { Measures result (method_size (declare_ok_method method.now)) }
{
    size_method_fields(&declare_ok_fields(method))
}

/// Puts the method id and the fields of `DeclareOk` at a place of a slice, and returns the place after.
pub fn put_declare_ok(buf: &mut [u8], at: usize, method: &DeclareOk) -> usize
    requires { HasRoom buf.old at (method_size (declare_ok_method method.now))
        (method_bytes (declare_ok_method method.now)) }
    ensures { Puts buf.old buf.new at (method_bytes (declare_ok_method method.now)) result }
{
    put_method_fields(buf, at, &declare_ok_fields(method))
}

/// Appends the method id and the fields of `DeclareOk` to a vector.
pub fn gen_declare_ok(_alloc: Global, out: &mut Vec<u8>, method: &DeclareOk) -> Result<(), GenError>
    ensures { Appends out.old.items out.new.items (method_size (declare_ok_method method.now))
        (method_bytes (declare_ok_method method.now)) result }
{
    gen_method_fields(out, &declare_ok_fields(method))
}

/// The client deletes an exchange.
#[derive(Debug, Drop, PartialEq)]
pub struct Delete {
    /// The name of the exchange.
    pub exchange: ShortString,

    /// The server deletes the exchange only if nothing is bound to it, and raises an error otherwise.
    pub if_unused: Boolean,

    /// The server sends no `DeleteOk`.
    pub nowait: Boolean,
}

impl Delete {
    /// The id of the class.
    pub fn get_amqp_class_id(&self) -> Identifier
        ensures { result ≡ 40 }
    {
        40
    }

    /// The id of the method in its class.
    pub fn get_amqp_method_id(&self) -> Identifier
        ensures { result ≡ 20 }
    {
        20
    }

    /// The method whose fields are empty, zero and false.
    pub fn empty(alloc: Global) -> Delete
        ensures { delete_method result
            ≡ method 40 20 (text_item [] ∷ flag_item false ∷ flag_item false ∷ []) }
    {
        Delete {
            exchange: ShortString::empty(alloc),
            if_unused: false,
            nowait: false,
        }
    }

    /// A deep copy.
    pub fn copy(&self, alloc: Global) -> Result<Delete, NoMemory>
        ensures { IfOk result (λ copied. copied ≡ self.now) }
    {
        Ok(Delete {
            exchange: self.exchange.copy(alloc)?,
            if_unused: self.if_unused,
            nowait: self.nowait,
        })
    }
}

/// Decodes the fields of `Delete`.
#[tactic(auto, using(amqp_types::proofs::Judged::refuses_next), unfolding(amqp_values::proofs::OneMethod::read_at_once))]
pub fn parse_delete(alloc: Global, i: &[u8]) -> Result<(usize, Delete), ParserError>
    ensures { Parses delete_method result i.now (judge_method 40 20) }
{
    let mut slots = SlotReader::new(i);
    let (_, exchange, flags) = slots.read::<(ReservedShortUInt, _, Flags<2>)>(alloc)?;
    let method = Delete {
        exchange,
        if_unused: flag_of_byte(flags.byte, 0),
        nowait: flag_of_byte(flags.byte, 1),
    };
    Ok((slots.used(i), method))
}

/// Its ids and fields, in order.
#[tactic(auto, unfolding(amqp_values::proofs::OneMethod::listed))]
pub(super) fn delete_fields(method: &Delete) -> [Field<'_>; 8]
    ensures { ListsMethod result (delete_method method.now) }
{
    [
        Field::ShortUInt(40),
        Field::ShortUInt(20),
        Field::ShortUInt(0), // reserved
        Field::ShortString(&method.exchange),
        Field::Flags(byte_of_flags(&[method.if_unused, method.nowait])),
        Field::Nothing,
        Field::Nothing,
        Field::Nothing,
    ]
}

/// The size in bytes of the method id and the fields of `Delete`.
pub fn size_delete(method: &Delete) -> Result<u64, GenError>
    ensures { Measures result (method_size (delete_method method.now)) }
{
    size_method_fields(&delete_fields(method))
}

/// Puts the method id and the fields of `Delete` at a place of a slice, and returns the place after.
pub fn put_delete(buf: &mut [u8], at: usize, method: &Delete) -> usize
    requires { HasRoom buf.old at (method_size (delete_method method.now))
        (method_bytes (delete_method method.now)) }
    ensures { Puts buf.old buf.new at (method_bytes (delete_method method.now)) result }
{
    put_method_fields(buf, at, &delete_fields(method))
}

/// Appends the method id and the fields of `Delete` to a vector.
pub fn gen_delete(_alloc: Global, out: &mut Vec<u8>, method: &Delete) -> Result<(), GenError>
    ensures { Appends out.old.items out.new.items (method_size (delete_method method.now))
        (method_bytes (delete_method method.now)) result }
{
    gen_method_fields(out, &delete_fields(method))
}

/// The exchange is deleted.
#[derive(Clone, Default, Debug, Drop, PartialEq)]
pub struct DeleteOk {}

impl DeleteOk {
    /// The id of the class.
    pub fn get_amqp_class_id(&self) -> Identifier
        ensures { result ≡ 40 }
    {
        40
    }

    /// The id of the method in its class.
    pub fn get_amqp_method_id(&self) -> Identifier
        ensures { result ≡ 21 }
    {
        21
    }
}

/// Decodes the fields of `DeleteOk`.
#[tactic(auto, using(amqp_types::proofs::Judged::refuses_next), unfolding(amqp_values::proofs::OneMethod::read_one_by_one))]
pub fn parse_delete_ok(_alloc: Global, i: &[u8]) -> Result<(usize, DeleteOk), ParserError>
    ensures parsed { Parses delete_ok_method result i.now (judge_method 40 21) }
    ensures memory { NeedsNoMemory result }
{
    let slots = SlotReader::new(i);
    Ok((slots.used(i), DeleteOk {}))
}

/// Its ids and fields, in order.
#[tactic(auto, unfolding(amqp_values::proofs::OneMethod::listed))]
pub(super) fn delete_ok_fields(_method: &DeleteOk) -> [Field<'_>; 8]
    ensures { ListsMethod result (delete_ok_method _method.now) }
{
    [
        Field::ShortUInt(40),
        Field::ShortUInt(21),
        Field::Nothing,
        Field::Nothing,
        Field::Nothing,
        Field::Nothing,
        Field::Nothing,
        Field::Nothing,
    ]
}

/// The size in bytes of the method id and the fields of `DeleteOk`.
pub fn size_delete_ok(method: &DeleteOk) -> Result<u64, GenError>
    ensures { Measures result (method_size (delete_ok_method method.now)) }
{
    size_method_fields(&delete_ok_fields(method))
}

/// Puts the method id and the fields of `DeleteOk` at a place of a slice, and returns the place after.
pub fn put_delete_ok(buf: &mut [u8], at: usize, method: &DeleteOk) -> usize
    requires { HasRoom buf.old at (method_size (delete_ok_method method.now))
        (method_bytes (delete_ok_method method.now)) }
    ensures { Puts buf.old buf.new at (method_bytes (delete_ok_method method.now)) result }
{
    put_method_fields(buf, at, &delete_ok_fields(method))
}

/// Appends the method id and the fields of `DeleteOk` to a vector.
pub fn gen_delete_ok(_alloc: Global, out: &mut Vec<u8>, method: &DeleteOk) -> Result<(), GenError>
    ensures { Appends out.old.items out.new.items (method_size (delete_ok_method method.now))
        (method_bytes (delete_ok_method method.now)) result }
{
    gen_method_fields(out, &delete_ok_fields(method))
}
