//! Methods of the class queue that declare, empty and delete queues.

ghost use Rattle.std.specs.Prelude.{◌≡◌, ◌∷◌, [], false, IfOk};
ghost use Rattle.amqp_types.specs.Slots.{number_item, flag_item, text_item, entries_item};
ghost use Rattle.amqp_types.specs.Calls.{Parses, NeedsNoMemory, Measures, HasRoom};
ghost use Rattle.amqp_types.specs.Writing.{Puts, Appends};
ghost use Rattle.amqp_types.specs.Methods.{method, judge_method, method_bytes, method_size};
ghost use Rattle.amqp_values.specs.MethodFields.{ListsMethod};
ghost use Rattle.amqp_topology.specs.Queue.{declare_method, declare_ok_method, purge_method};
ghost use Rattle.amqp_topology.specs.Queue.{purge_ok_method, delete_method, delete_ok_method};

use amqp_values::{
    Boolean, Field, FieldTable, Flags, GenError, Identifier, LongUInt, NoMemory, ParserError,
    ReservedShortUInt, ShortString, SlotReader, byte_of_flags, copied, flag_of_byte,
    gen_method_fields, put_method_fields, size_method_fields,
};
use std::alloc::Global;

/// The client declares a queue.
#[derive(Debug, Drop, PartialEq)]
pub struct Declare {
    /// The name of the queue; the server makes one where it is empty. Names that begin with `amq.` are reserved.
    pub queue: ShortString,

    /// The server creates nothing, and raises an error where the queue does not exist.
    pub passive: Boolean,

    /// The queue remains when the server restarts.
    pub durable: Boolean,

    /// Only this connection may access the queue, which is deleted when the connection closes.
    pub exclusive: Boolean,

    /// The server deletes the queue when its last consumer ends; while it has had none, it stays.
    pub auto_delete: Boolean,

    /// The server sends no `DeclareOk`.
    pub nowait: Boolean,

    /// Further arguments; their names and meaning are the server's.
    pub arguments: FieldTable,
}

impl Declare {
    /// The id of the class.
    pub fn get_amqp_class_id(&self) -> Identifier
        ensures { result ≡ 50 }
    {
        50
    }

    /// The id of the method in its class.
    pub fn get_amqp_method_id(&self) -> Identifier
        ensures { result ≡ 10 }
    {
        10
    }

    /// The method whose fields are empty, zero and false.
    pub fn empty(alloc: Global) -> Declare
        ensures { declare_method result ≡ method 50 10
            (text_item [] ∷ flag_item false ∷ flag_item false ∷ flag_item false
            ∷ flag_item false ∷ flag_item false ∷ entries_item [] ∷ []) }
    {
        Declare {
            queue: ShortString::empty(alloc),
            passive: false,
            durable: false,
            exclusive: false,
            auto_delete: false,
            nowait: false,
            arguments: FieldTable::new(alloc),
        }
    }

    /// A deep copy.
    pub fn copy(&self, alloc: Global) -> Result<Declare, NoMemory>
        ensures { IfOk result (λ copied. copied ≡ self.now) }
    {
        Ok(Declare {
            queue: self.queue.copy(alloc)?,
            passive: self.passive,
            durable: self.durable,
            exclusive: self.exclusive,
            auto_delete: self.auto_delete,
            nowait: self.nowait,
            arguments: self.arguments.copy(alloc)?,
        })
    }
}

/// Decodes the fields of `Declare`.
#[tactic(auto, using(amqp_types::proofs::Judged::refuses_next), unfolding(amqp_values::proofs::OneMethod::read_at_once))]
pub fn parse_declare(alloc: Global, i: &[u8]) -> Result<(usize, Declare), ParserError>
    ensures { Parses declare_method result i.now (judge_method 50 10) }
{
    let mut slots = SlotReader::new(i);
    let (_, queue, flags, arguments) = slots.read::<(ReservedShortUInt, _, Flags<5>, _)>(alloc)?;
    let method = Declare {
        queue,
        passive: flag_of_byte(flags.byte, 0),
        durable: flag_of_byte(flags.byte, 1),
        exclusive: flag_of_byte(flags.byte, 2),
        auto_delete: flag_of_byte(flags.byte, 3),
        nowait: flag_of_byte(flags.byte, 4),
        arguments,
    };
    Ok((slots.used(i), method))
}

/// Its ids and fields, in order.
#[tactic(auto, unfolding(amqp_values::proofs::OneMethod::listed))]
pub(super) fn declare_fields(method: &Declare) -> [Field<'_>; 8]
    ensures { ListsMethod result (declare_method method.now) }
{
    [
        Field::ShortUInt(50),
        Field::ShortUInt(10),
        Field::ShortUInt(0), // reserved
        Field::ShortString(&method.queue),
        Field::Flags(byte_of_flags(&[
            method.passive,
            method.durable,
            method.exclusive,
            method.auto_delete,
            method.nowait,
        ])),
        Field::Table(&method.arguments),
        Field::Nothing,
        Field::Nothing,
    ]
}

/// The size in bytes of the method id and the fields of `Declare`.
pub fn size_declare(method: &Declare) -> Result<u64, GenError>
    ensures { Measures result (method_size (declare_method method.now)) }
{
    size_method_fields(&declare_fields(method))
}

/// Puts the method id and the fields of `Declare` at a place of a slice, and returns the place after.
pub fn put_declare(buf: &mut [u8], at: usize, method: &Declare) -> usize
    requires { HasRoom buf.old at (method_size (declare_method method.now))
        (method_bytes (declare_method method.now)) }
    ensures { Puts buf.old buf.new at (method_bytes (declare_method method.now)) result }
{
    put_method_fields(buf, at, &declare_fields(method))
}

/// Appends the method id and the fields of `Declare` to a vector.
pub fn gen_declare(_alloc: Global, out: &mut Vec<u8>, method: &Declare) -> Result<(), GenError>
    ensures { Appends out.old.items out.new.items (method_size (declare_method method.now))
        (method_bytes (declare_method method.now)) result }
{
    gen_method_fields(out, &declare_fields(method))
}

/// The queue is there.
#[derive(Debug, Drop, PartialEq)]
pub struct DeclareOk {
    /// The name of the queue, which the client or the server has chosen.
    pub queue: ShortString,

    /// The number of messages in the queue, without those that wait for an acknowledgement.
    pub message_count: LongUInt,

    /// The number of active consumers of the queue.
    pub consumer_count: LongUInt,
}

impl DeclareOk {
    /// The id of the class.
    pub fn get_amqp_class_id(&self) -> Identifier
        ensures { result ≡ 50 }
    {
        50
    }

    /// The id of the method in its class.
    pub fn get_amqp_method_id(&self) -> Identifier
        ensures { result ≡ 11 }
    {
        11
    }

    /// The method whose fields are empty, zero and false.
    pub fn empty(alloc: Global) -> DeclareOk
        ensures { declare_ok_method result
            ≡ method 50 11 (text_item [] ∷ number_item 0 ∷ number_item 0 ∷ []) }
    {
        DeclareOk {
            queue: ShortString::empty(alloc),
            message_count: 0,
            consumer_count: 0,
        }
    }

    /// A deep copy.
    pub fn copy(&self, alloc: Global) -> Result<DeclareOk, NoMemory>
        ensures { IfOk result (λ copied. copied ≡ self.now) }
    {
        Ok(DeclareOk {
            queue: self.queue.copy(alloc)?,
            message_count: self.message_count,
            consumer_count: self.consumer_count,
        })
    }
}

/// Decodes the fields of `DeclareOk`.
#[tactic(auto, using(amqp_types::proofs::Judged::refuses_next), unfolding(amqp_values::proofs::OneMethod::read_at_once))]
pub fn parse_declare_ok(alloc: Global, i: &[u8]) -> Result<(usize, DeclareOk), ParserError>
    ensures { Parses declare_ok_method result i.now (judge_method 50 11) }
{
    let mut slots = SlotReader::new(i);
    let (queue, message_count, consumer_count) = slots.read(alloc)?;
    let method = DeclareOk {
        queue,
        message_count,
        consumer_count,
    };
    Ok((slots.used(i), method))
}

/// Its ids and fields, in order.
#[tactic(auto, unfolding(amqp_values::proofs::OneMethod::listed))]
pub(super) fn declare_ok_fields(method: &DeclareOk) -> [Field<'_>; 8]
    ensures { ListsMethod result (declare_ok_method method.now) }
{
    [
        Field::ShortUInt(50),
        Field::ShortUInt(11),
        Field::ShortString(&method.queue),
        Field::LongUInt(method.message_count),
        Field::LongUInt(method.consumer_count),
        Field::Nothing,
        Field::Nothing,
        Field::Nothing,
    ]
}

/// The size in bytes of the method id and the fields of `DeclareOk`.
pub fn size_declare_ok(method: &DeclareOk) -> Result<u64, GenError>
    ensures { Measures result (method_size (declare_ok_method method.now)) }
{
    size_method_fields(&declare_ok_fields(method))
}

/// Puts the method id and the fields of `DeclareOk` at a place of a slice, and returns the place after.
pub fn put_declare_ok(buf: &mut [u8], at: usize, method: &DeclareOk) -> usize
    requires { HasRoom buf.old at (method_size (declare_ok_method method.now))
        (method_bytes (declare_ok_method method.now)) }
    ensures { Puts buf.old buf.new at (method_bytes (declare_ok_method method.now)) result }
{
    put_method_fields(buf, at, &declare_ok_fields(method))
}

/// Appends the method id and the fields of `DeclareOk` to a vector.
pub fn gen_declare_ok(_alloc: Global, out: &mut Vec<u8>, method: &DeclareOk) -> Result<(), GenError>
    ensures { Appends out.old.items out.new.items (method_size (declare_ok_method method.now))
        (method_bytes (declare_ok_method method.now)) result }
{
    gen_method_fields(out, &declare_ok_fields(method))
}

/// The client empties a queue.
#[derive(Debug, Drop, PartialEq)]
pub struct Purge {
    /// The name of the queue; empty is the queue that the client declared last on the channel.
    pub queue: ShortString,

    /// The server sends no `PurgeOk`.
    pub nowait: Boolean,
}

impl Purge {
    /// The id of the class.
    pub fn get_amqp_class_id(&self) -> Identifier
        ensures { result ≡ 50 }
    {
        50
    }

    /// The id of the method in its class.
    pub fn get_amqp_method_id(&self) -> Identifier
        ensures { result ≡ 30 }
    {
        30
    }

    /// The method whose fields are empty, zero and false.
    pub fn empty(alloc: Global) -> Purge
        ensures { purge_method result ≡ method 50 30 (text_item [] ∷ flag_item false ∷ []) }
    {
        Purge {
            queue: ShortString::empty(alloc),
            nowait: false,
        }
    }

    /// A deep copy.
    pub fn copy(&self, alloc: Global) -> Result<Purge, NoMemory>
        ensures { IfOk result (λ copied. copied ≡ self.now) }
    {
        Ok(Purge {
            queue: self.queue.copy(alloc)?,
            nowait: self.nowait,
        })
    }
}

/// Decodes the fields of `Purge`.
#[tactic(auto, using(amqp_types::proofs::Judged::refuses_next), unfolding(amqp_values::proofs::OneMethod::read_at_once))]
pub fn parse_purge(alloc: Global, i: &[u8]) -> Result<(usize, Purge), ParserError>
    ensures { Parses purge_method result i.now (judge_method 50 30) }
{
    let mut slots = SlotReader::new(i);
    let (_, queue, flags) = slots.read::<(ReservedShortUInt, _, Flags<1>)>(alloc)?;
    let method = Purge {
        queue,
        nowait: flag_of_byte(flags.byte, 0),
    };
    Ok((slots.used(i), method))
}

/// Its ids and fields, in order.
#[tactic(auto, unfolding(amqp_values::proofs::OneMethod::listed))]
pub(super) fn purge_fields(method: &Purge) -> [Field<'_>; 8]
    ensures { ListsMethod result (purge_method method.now) }
{
    [
        Field::ShortUInt(50),
        Field::ShortUInt(30),
        Field::ShortUInt(0), // reserved
        Field::ShortString(&method.queue),
        Field::Flags(byte_of_flags(&[method.nowait])),
        Field::Nothing,
        Field::Nothing,
        Field::Nothing,
    ]
}

/// The size in bytes of the method id and the fields of `Purge`.
pub fn size_purge(method: &Purge) -> Result<u64, GenError>
    ensures { Measures result (method_size (purge_method method.now)) }
{
    size_method_fields(&purge_fields(method))
}

/// Puts the method id and the fields of `Purge` at a place of a slice, and returns the place after.
pub fn put_purge(buf: &mut [u8], at: usize, method: &Purge) -> usize
    requires { HasRoom buf.old at (method_size (purge_method method.now))
        (method_bytes (purge_method method.now)) }
    ensures { Puts buf.old buf.new at (method_bytes (purge_method method.now)) result }
{
    put_method_fields(buf, at, &purge_fields(method))
}

/// Appends the method id and the fields of `Purge` to a vector.
pub fn gen_purge(_alloc: Global, out: &mut Vec<u8>, method: &Purge) -> Result<(), GenError>
    ensures { Appends out.old.items out.new.items (method_size (purge_method method.now))
        (method_bytes (purge_method method.now)) result }
{
    gen_method_fields(out, &purge_fields(method))
}

/// The queue is empty, and so many messages were in it.
#[derive(Clone, Debug, Drop, PartialEq)]
pub struct PurgeOk {
    /// The number of messages that were removed.
    pub message_count: LongUInt,
}

impl Default for PurgeOk {
    /// The method whose numbers are 0 and whose flags are false.
    fn default() -> PurgeOk
        ensures { purge_ok_method result ≡ method 50 31 (number_item 0 ∷ []) }
    {
        PurgeOk { message_count: 0 }
    }
}

impl PurgeOk {
    /// The id of the class.
    pub fn get_amqp_class_id(&self) -> Identifier
        ensures { result ≡ 50 }
    {
        50
    }

    /// The id of the method in its class.
    pub fn get_amqp_method_id(&self) -> Identifier
        ensures { result ≡ 31 }
    {
        31
    }
}

/// Decodes the fields of `PurgeOk`.
#[tactic(auto, using(amqp_types::proofs::Judged::refuses_next), unfolding(amqp_values::proofs::OneMethod::read_one_by_one))]
pub fn parse_purge_ok(_alloc: Global, i: &[u8]) -> Result<(usize, PurgeOk), ParserError>
    ensures parsed { Parses purge_ok_method result i.now (judge_method 50 31) }
    ensures memory { NeedsNoMemory result }
{
    let mut slots = SlotReader::new(i);
    let message_count = slots.long_uint()?;
    let method = PurgeOk { message_count };
    Ok((slots.used(i), method))
}

/// Its ids and fields, in order.
#[tactic(auto, unfolding(amqp_values::proofs::OneMethod::listed))]
pub(super) fn purge_ok_fields(method: &PurgeOk) -> [Field<'_>; 8]
    ensures { ListsMethod result (purge_ok_method method.now) }
{
    [
        Field::ShortUInt(50),
        Field::ShortUInt(31),
        Field::LongUInt(method.message_count),
        Field::Nothing,
        Field::Nothing,
        Field::Nothing,
        Field::Nothing,
        Field::Nothing,
    ]
}

/// The size in bytes of the method id and the fields of `PurgeOk`.
pub fn size_purge_ok(method: &PurgeOk) -> Result<u64, GenError>
    ensures { Measures result (method_size (purge_ok_method method.now)) }
{
    size_method_fields(&purge_ok_fields(method))
}

/// Puts the method id and the fields of `PurgeOk` at a place of a slice, and returns the place after.
pub fn put_purge_ok(buf: &mut [u8], at: usize, method: &PurgeOk) -> usize
    requires { HasRoom buf.old at (method_size (purge_ok_method method.now))
        (method_bytes (purge_ok_method method.now)) }
    ensures { Puts buf.old buf.new at (method_bytes (purge_ok_method method.now)) result }
{
    put_method_fields(buf, at, &purge_ok_fields(method))
}

/// Appends the method id and the fields of `PurgeOk` to a vector.
pub fn gen_purge_ok(_alloc: Global, out: &mut Vec<u8>, method: &PurgeOk) -> Result<(), GenError>
    ensures { Appends out.old.items out.new.items (method_size (purge_ok_method method.now))
        (method_bytes (purge_ok_method method.now)) result }
{
    gen_method_fields(out, &purge_ok_fields(method))
}

/// The client deletes a queue.
#[derive(Debug, Drop, PartialEq)]
pub struct Delete {
    /// The name of the queue; empty is the queue that the client declared last on the channel.
    pub queue: ShortString,

    /// The server deletes the queue only if it has no consumers, and raises an error otherwise.
    pub if_unused: Boolean,

    /// The server deletes the queue only if it has no messages, and raises an error otherwise.
    pub if_empty: Boolean,

    /// The server sends no `DeleteOk`.
    pub nowait: Boolean,
}

impl Delete {
    /// The id of the class.
    pub fn get_amqp_class_id(&self) -> Identifier
        ensures { result ≡ 50 }
    {
        50
    }

    /// The id of the method in its class.
    pub fn get_amqp_method_id(&self) -> Identifier
        ensures { result ≡ 40 }
    {
        40
    }

    /// The method whose fields are empty, zero and false.
    pub fn empty(alloc: Global) -> Delete
        ensures { delete_method result
            ≡ method 50 40
            (text_item [] ∷ flag_item false ∷ flag_item false ∷ flag_item false ∷ []) }
    {
        Delete {
            queue: ShortString::empty(alloc),
            if_unused: false,
            if_empty: false,
            nowait: false,
        }
    }

    /// A deep copy.
    pub fn copy(&self, alloc: Global) -> Result<Delete, NoMemory>
        ensures { IfOk result (λ copied. copied ≡ self.now) }
    {
        Ok(Delete {
            queue: self.queue.copy(alloc)?,
            if_unused: self.if_unused,
            if_empty: self.if_empty,
            nowait: self.nowait,
        })
    }
}

/// Decodes the fields of `Delete`.
#[tactic(auto, using(amqp_types::proofs::Judged::refuses_next), unfolding(amqp_values::proofs::OneMethod::read_at_once))]
pub fn parse_delete(alloc: Global, i: &[u8]) -> Result<(usize, Delete), ParserError>
    ensures { Parses delete_method result i.now (judge_method 50 40) }
{
    let mut slots = SlotReader::new(i);
    let (_, queue, flags) = slots.read::<(ReservedShortUInt, _, Flags<3>)>(alloc)?;
    let method = Delete {
        queue,
        if_unused: flag_of_byte(flags.byte, 0),
        if_empty: flag_of_byte(flags.byte, 1),
        nowait: flag_of_byte(flags.byte, 2),
    };
    Ok((slots.used(i), method))
}

/// Its ids and fields, in order.
#[tactic(auto, unfolding(amqp_values::proofs::OneMethod::listed))]
pub(super) fn delete_fields(method: &Delete) -> [Field<'_>; 8]
    ensures { ListsMethod result (delete_method method.now) }
{
    [
        Field::ShortUInt(50),
        Field::ShortUInt(40),
        Field::ShortUInt(0), // reserved
        Field::ShortString(&method.queue),
        Field::Flags(byte_of_flags(&[method.if_unused, method.if_empty, method.nowait])),
        Field::Nothing,
        Field::Nothing,
        Field::Nothing,
    ]
}

/// The size in bytes of the method id and the fields of `Delete`.
pub fn size_delete(method: &Delete) -> Result<u64, GenError>
    ensures { Measures result (method_size (delete_method method.now)) }
{
    size_method_fields(&delete_fields(method))
}

/// Puts the method id and the fields of `Delete` at a place of a slice, and returns the place after.
pub fn put_delete(buf: &mut [u8], at: usize, method: &Delete) -> usize
    requires { HasRoom buf.old at (method_size (delete_method method.now))
        (method_bytes (delete_method method.now)) }
    ensures { Puts buf.old buf.new at (method_bytes (delete_method method.now)) result }
{
    put_method_fields(buf, at, &delete_fields(method))
}

/// Appends the method id and the fields of `Delete` to a vector.
pub fn gen_delete(_alloc: Global, out: &mut Vec<u8>, method: &Delete) -> Result<(), GenError>
    ensures { Appends out.old.items out.new.items (method_size (delete_method method.now))
        (method_bytes (delete_method method.now)) result }
{
    gen_method_fields(out, &delete_fields(method))
}

/// The queue is deleted, and so many messages were in it.
#[derive(Clone, Debug, Drop, PartialEq)]
pub struct DeleteOk {
    /// The number of messages that were deleted with the queue.
    pub message_count: LongUInt,
}

impl Default for DeleteOk {
    /// The method whose numbers are 0 and whose flags are false.
    fn default() -> DeleteOk
        ensures { delete_ok_method result ≡ method 50 41 (number_item 0 ∷ []) }
    {
        DeleteOk { message_count: 0 }
    }
}

impl DeleteOk {
    /// The id of the class.
    pub fn get_amqp_class_id(&self) -> Identifier
        ensures { result ≡ 50 }
    {
        50
    }

    /// The id of the method in its class.
    pub fn get_amqp_method_id(&self) -> Identifier
        ensures { result ≡ 41 }
    {
        41
    }
}

/// Decodes the fields of `DeleteOk`.
#[tactic(auto, using(amqp_types::proofs::Judged::refuses_next), unfolding(amqp_values::proofs::OneMethod::read_one_by_one))]
pub fn parse_delete_ok(_alloc: Global, i: &[u8]) -> Result<(usize, DeleteOk), ParserError>
    ensures parsed { Parses delete_ok_method result i.now (judge_method 50 41) }
    ensures memory { NeedsNoMemory result }
{
    let mut slots = SlotReader::new(i);
    let message_count = slots.long_uint()?;
    let method = DeleteOk { message_count };
    Ok((slots.used(i), method))
}

/// Its ids and fields, in order.
#[tactic(auto, unfolding(amqp_values::proofs::OneMethod::listed))]
pub(super) fn delete_ok_fields(method: &DeleteOk) -> [Field<'_>; 8]
    ensures { ListsMethod result (delete_ok_method method.now) }
{
    [
        Field::ShortUInt(50),
        Field::ShortUInt(41),
        Field::LongUInt(method.message_count),
        Field::Nothing,
        Field::Nothing,
        Field::Nothing,
        Field::Nothing,
        Field::Nothing,
    ]
}

/// The size in bytes of the method id and the fields of `DeleteOk`.
pub fn size_delete_ok(method: &DeleteOk) -> Result<u64, GenError>
    ensures { Measures result (method_size (delete_ok_method method.now)) }
{
    size_method_fields(&delete_ok_fields(method))
}

/// Puts the method id and the fields of `DeleteOk` at a place of a slice, and returns the place after.
pub fn put_delete_ok(buf: &mut [u8], at: usize, method: &DeleteOk) -> usize
    requires { HasRoom buf.old at (method_size (delete_ok_method method.now))
        (method_bytes (delete_ok_method method.now)) }
    ensures { Puts buf.old buf.new at (method_bytes (delete_ok_method method.now)) result }
{
    put_method_fields(buf, at, &delete_ok_fields(method))
}

/// Appends the method id and the fields of `DeleteOk` to a vector.
pub fn gen_delete_ok(_alloc: Global, out: &mut Vec<u8>, method: &DeleteOk) -> Result<(), GenError>
    ensures { Appends out.old.items out.new.items (method_size (delete_ok_method method.now))
        (method_bytes (delete_ok_method method.now)) result }
{
    gen_method_fields(out, &delete_ok_fields(method))
}
