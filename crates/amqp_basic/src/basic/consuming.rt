//! Methods of the class basic to receive messages.

ghost use Rattle.std.specs.Prelude.{◌≡◌, ◌∷◌, [], false, IfOk};
ghost use Rattle.amqp_types.specs.Slots.{flag_item, text_item, entries_item, number_item};
ghost use Rattle.amqp_types.specs.Calls.{Parses, NeedsNoMemory, Measures, HasRoom};
ghost use Rattle.amqp_types.specs.Writing.{Puts, Appends};
ghost use Rattle.amqp_types.specs.Methods.{method, judge_method, method_bytes, method_size};
ghost use Rattle.amqp_values.specs.MethodFields.{ListsMethod};
ghost use Rattle.amqp_basic.specs.Basic.{qos_method, qos_ok_method, consume_method};
ghost use Rattle.amqp_basic.specs.Basic.{consume_ok_method, cancel_method, cancel_ok_method};

use amqp_values::{
    Boolean, Field, FieldTable, Flags, GenError, Identifier, NoMemory, ParserError,
    ReservedShortUInt, ShortString, ShortUInt, SlotReader, byte_of_flags, copied, flag_of_byte,
    gen_method_fields, put_method_fields, size_method_fields,
};
use std::alloc::Global;

/// The client limits how many messages it is sent ahead.
#[derive(Clone, Debug, Drop, PartialEq)]
pub struct Qos {
    /// The number of unacknowledged messages that may be outstanding; 0 is no limit.
    pub prefetch_count: ShortUInt,

    /// False: the limit is the channel's; true: the connection's. RabbitMQ has false for each new consumer on the
    /// channel by itself, and true for all consumers on the channel together.
    pub global: Boolean,
}

impl Default for Qos {
    /// The method whose numbers are 0 and whose flags are false.
    fn default() -> Qos
        ensures { qos_method result ≡ method 60 10 (number_item 0 ∷ flag_item false ∷ []) }
    {
        Qos {
            prefetch_count: 0,
            global: false,
        }
    }
}

impl Qos {
    /// The id of the class.
    pub fn get_amqp_class_id(&self) -> Identifier
        ensures { result ≡ 60 }
    {
        60
    }

    /// The id of the method in its class.
    pub fn get_amqp_method_id(&self) -> Identifier
        ensures { result ≡ 10 }
    {
        10
    }
}

/// Decodes the fields of `Qos`.
#[tactic(auto, using(amqp_types::proofs::Judged::refuses_next), unfolding(amqp_values::proofs::OneMethod::read_one_by_one))]
pub fn parse_qos(_alloc: Global, i: &[u8]) -> Result<(usize, Qos), ParserError>
    ensures parsed { Parses qos_method result i.now (judge_method 60 10) }
    ensures memory { NeedsNoMemory result }
{
    let mut slots = SlotReader::new(i);
    slots.skip_long_uint()?;
    let prefetch_count = slots.short_uint()?;
    let flags = slots.flags::<1>()?;
    let method = Qos {
        prefetch_count,
        global: flag_of_byte(flags, 0),
    };
    Ok((slots.used(i), method))
}

/// Its ids and fields, in order.
#[tactic(auto, unfolding(amqp_values::proofs::OneMethod::listed))]
pub(super) fn qos_fields(method: &Qos) -> [Field<'_>; 7]
    ensures { ListsMethod result (qos_method method.now) }
{
    [
        Field::ShortUInt(60),
        Field::ShortUInt(10),
        Field::LongUInt(0), // reserved
        Field::ShortUInt(method.prefetch_count),
        Field::Flags(byte_of_flags(&[method.global])),
        Field::Nothing,
        Field::Nothing,
    ]
}

/// The size in bytes of the method id and the fields of `Qos`.
pub fn size_qos(method: &Qos) -> Result<u64, GenError>
    ensures { Measures result (method_size (qos_method method.now)) }
{
    size_method_fields(&qos_fields(method))
}

/// Puts the method id and the fields of `Qos` at a place of a slice, and returns the place after.
pub fn put_qos(buf: &mut [u8], at: usize, method: &Qos) -> usize
    requires { HasRoom buf.old at (method_size (qos_method method.now))
        (method_bytes (qos_method method.now)) }
    ensures { Puts buf.old buf.new at (method_bytes (qos_method method.now)) result }
{
    put_method_fields(buf, at, &qos_fields(method))
}

/// Appends the method id and the fields of `Qos` to a vector.
pub fn gen_qos(_alloc: Global, out: &mut Vec<u8>, method: &Qos) -> Result<(), GenError>
    ensures { Appends out.old.items out.new.items (method_size (qos_method method.now))
        (method_bytes (qos_method method.now)) result }
{
    gen_method_fields(out, &qos_fields(method))
}

/// The limit holds.
#[derive(Clone, Default, Debug, Drop, PartialEq)]
pub struct QosOk {}

impl QosOk {
    /// The id of the class.
    pub fn get_amqp_class_id(&self) -> Identifier
        ensures { result ≡ 60 }
    {
        60
    }

    /// The id of the method in its class.
    pub fn get_amqp_method_id(&self) -> Identifier
        ensures { result ≡ 11 }
    {
        11
    }
}

/// Decodes the fields of `QosOk`.
#[tactic(auto, using(amqp_types::proofs::Judged::refuses_next), unfolding(amqp_values::proofs::OneMethod::read_one_by_one))]
pub fn parse_qos_ok(_alloc: Global, i: &[u8]) -> Result<(usize, QosOk), ParserError>
    ensures parsed { Parses qos_ok_method result i.now (judge_method 60 11) }
    ensures memory { NeedsNoMemory result }
{
    let slots = SlotReader::new(i);
    Ok((slots.used(i), QosOk {}))
}

/// Its ids and fields, in order.
#[tactic(auto, unfolding(amqp_values::proofs::OneMethod::listed))]
pub(super) fn qos_ok_fields(_method: &QosOk) -> [Field<'_>; 7]
    ensures { ListsMethod result (qos_ok_method _method.now) }
{
    [
        Field::ShortUInt(60),
        Field::ShortUInt(11),
        Field::Nothing,
        Field::Nothing,
        Field::Nothing,
        Field::Nothing,
        Field::Nothing,
    ]
}

/// The size in bytes of the method id and the fields of `QosOk`.
pub fn size_qos_ok(method: &QosOk) -> Result<u64, GenError>
    ensures { Measures result (method_size (qos_ok_method method.now)) }
{
    size_method_fields(&qos_ok_fields(method))
}

/// Puts the method id and the fields of `QosOk` at a place of a slice, and returns the place after.
pub fn put_qos_ok(buf: &mut [u8], at: usize, method: &QosOk) -> usize
    requires { HasRoom buf.old at (method_size (qos_ok_method method.now))
        (method_bytes (qos_ok_method method.now)) }
    ensures { Puts buf.old buf.new at (method_bytes (qos_ok_method method.now)) result }
{
    put_method_fields(buf, at, &qos_ok_fields(method))
}

/// Appends the method id and the fields of `QosOk` to a vector.
pub fn gen_qos_ok(_alloc: Global, out: &mut Vec<u8>, method: &QosOk) -> Result<(), GenError>
    ensures { Appends out.old.items out.new.items (method_size (qos_ok_method method.now))
        (method_bytes (qos_ok_method method.now)) result }
{
    gen_method_fields(out, &qos_ok_fields(method))
}

/// The client starts to consume from a queue.
#[derive(Debug, Drop, PartialEq)]
pub struct Consume {
    /// The name of the queue; empty is the queue that the client declared last on the channel.
    pub queue: ShortString,

    /// The tag of the consumer, unique on its channel; the server makes one where it is empty.
    pub consumer_tag: ShortString,

    /// The server sends the consumer no messages that its own connection has published.
    pub no_local: Boolean,

    /// The server expects no acknowledgements: a message counts as acknowledged once it is sent.
    pub no_ack: Boolean,

    /// Only this consumer may access the queue.
    pub exclusive: Boolean,

    /// The server sends no `ConsumeOk`.
    pub nowait: Boolean,

    /// Further arguments; their names and meaning are the server's.
    pub arguments: FieldTable,
}

impl Consume {
    /// The id of the class.
    pub fn get_amqp_class_id(&self) -> Identifier
        ensures { result ≡ 60 }
    {
        60
    }

    /// The id of the method in its class.
    pub fn get_amqp_method_id(&self) -> Identifier
        ensures { result ≡ 20 }
    {
        20
    }

    /// The method whose fields are empty, zero and false.
    pub fn empty(alloc: Global) -> Consume
        ensures { consume_method result ≡ method 60 20
            (text_item [] ∷ text_item [] ∷ flag_item false ∷ flag_item false
            ∷ flag_item false ∷ flag_item false ∷ entries_item [] ∷ []) }
    {
        Consume {
            queue: ShortString::empty(alloc),
            consumer_tag: ShortString::empty(alloc),
            no_local: false,
            no_ack: false,
            exclusive: false,
            nowait: false,
            arguments: FieldTable::new(alloc),
        }
    }

    /// A deep copy.
    pub fn copy(&self, alloc: Global) -> Result<Consume, NoMemory>
        ensures { IfOk result (λ copied. copied ≡ self.now) }
    {
        Ok(Consume {
            queue: self.queue.copy(alloc)?,
            consumer_tag: self.consumer_tag.copy(alloc)?,
            no_local: self.no_local,
            no_ack: self.no_ack,
            exclusive: self.exclusive,
            nowait: self.nowait,
            arguments: self.arguments.copy(alloc)?,
        })
    }
}

/// Decodes the fields of `Consume`.
#[tactic(auto, using(amqp_types::proofs::Judged::refuses_next), unfolding(amqp_values::proofs::OneMethod::read_at_once))]
pub fn parse_consume(alloc: Global, i: &[u8]) -> Result<(usize, Consume), ParserError>
    ensures { Parses consume_method result i.now (judge_method 60 20) }
{
    let mut slots = SlotReader::new(i);
    let (_, queue, consumer_tag, flags, arguments) = slots.read::<
        (ReservedShortUInt, _, _, Flags<4>, _),
    >(alloc)?;
    let method = Consume {
        queue,
        consumer_tag,
        no_local: flag_of_byte(flags.byte, 0),
        no_ack: flag_of_byte(flags.byte, 1),
        exclusive: flag_of_byte(flags.byte, 2),
        nowait: flag_of_byte(flags.byte, 3),
        arguments,
    };
    Ok((slots.used(i), method))
}

/// Its ids and fields, in order.
#[tactic(auto, unfolding(amqp_values::proofs::OneMethod::listed))]
pub(super) fn consume_fields(method: &Consume) -> [Field<'_>; 7]
    ensures { ListsMethod result (consume_method method.now) }
{
    [
        Field::ShortUInt(60),
        Field::ShortUInt(20),
        Field::ShortUInt(0), // reserved
        Field::ShortString(&method.queue),
        Field::ShortString(&method.consumer_tag),
        Field::Flags(byte_of_flags(&[
            method.no_local,
            method.no_ack,
            method.exclusive,
            method.nowait,
        ])),
        Field::Table(&method.arguments),
    ]
}

/// The size in bytes of the method id and the fields of `Consume`.
pub fn size_consume(method: &Consume) -> Result<u64, GenError>
    ensures { Measures result (method_size (consume_method method.now)) }
{
    size_method_fields(&consume_fields(method))
}

/// Puts the method id and the fields of `Consume` at a place of a slice, and returns the place after.
pub fn put_consume(buf: &mut [u8], at: usize, method: &Consume) -> usize
    requires { HasRoom buf.old at (method_size (consume_method method.now))
        (method_bytes (consume_method method.now)) }
    ensures { Puts buf.old buf.new at (method_bytes (consume_method method.now)) result }
{
    put_method_fields(buf, at, &consume_fields(method))
}

/// Appends the method id and the fields of `Consume` to a vector.
pub fn gen_consume(_alloc: Global, out: &mut Vec<u8>, method: &Consume) -> Result<(), GenError>
    ensures { Appends out.old.items out.new.items (method_size (consume_method method.now))
        (method_bytes (consume_method method.now)) result }
{
    gen_method_fields(out, &consume_fields(method))
}

/// The consumer is known by this tag.
#[derive(Debug, Drop, PartialEq)]
pub struct ConsumeOk {
    /// The tag of the consumer, which the client or the server has chosen.
    pub consumer_tag: ShortString,
}

impl ConsumeOk {
    /// The id of the class.
    pub fn get_amqp_class_id(&self) -> Identifier
        ensures { result ≡ 60 }
    {
        60
    }

    /// The id of the method in its class.
    pub fn get_amqp_method_id(&self) -> Identifier
        ensures { result ≡ 21 }
    {
        21
    }

    /// The method whose fields are empty, zero and false.
    pub fn empty(alloc: Global) -> ConsumeOk
        ensures { consume_ok_method result ≡ method 60 21 (text_item [] ∷ []) }
    {
        ConsumeOk {
            consumer_tag: ShortString::empty(alloc),
        }
    }

    /// A deep copy.
    pub fn copy(&self, alloc: Global) -> Result<ConsumeOk, NoMemory>
        ensures { IfOk result (λ copied. copied ≡ self.now) }
    {
        Ok(ConsumeOk {
            consumer_tag: self.consumer_tag.copy(alloc)?,
        })
    }
}

/// Decodes the fields of `ConsumeOk`.
#[tactic(auto, using(amqp_types::proofs::Judged::refuses_next), unfolding(amqp_values::proofs::OneMethod::read_one_by_one))]
pub fn parse_consume_ok(alloc: Global, i: &[u8]) -> Result<(usize, ConsumeOk), ParserError>
    ensures { Parses consume_ok_method result i.now (judge_method 60 21) }
{
    let mut slots = SlotReader::new(i);
    let consumer_tag = slots.short_string(alloc)?;
    let method = ConsumeOk { consumer_tag };
    Ok((slots.used(i), method))
}

/// Its ids and fields, in order.
#[tactic(auto, unfolding(amqp_values::proofs::OneMethod::listed))]
pub(super) fn consume_ok_fields(method: &ConsumeOk) -> [Field<'_>; 7]
    ensures { ListsMethod result (consume_ok_method method.now) }
{
    [
        Field::ShortUInt(60),
        Field::ShortUInt(21),
        Field::ShortString(&method.consumer_tag),
        Field::Nothing,
        Field::Nothing,
        Field::Nothing,
        Field::Nothing,
    ]
}

/// The size in bytes of the method id and the fields of `ConsumeOk`.
pub fn size_consume_ok(method: &ConsumeOk) -> Result<u64, GenError>
    ensures { Measures result (method_size (consume_ok_method method.now)) }
{
    size_method_fields(&consume_ok_fields(method))
}

/// Puts the method id and the fields of `ConsumeOk` at a place of a slice, and returns the place after.
pub fn put_consume_ok(buf: &mut [u8], at: usize, method: &ConsumeOk) -> usize
    requires { HasRoom buf.old at (method_size (consume_ok_method method.now))
        (method_bytes (consume_ok_method method.now)) }
    ensures { Puts buf.old buf.new at (method_bytes (consume_ok_method method.now)) result }
{
    put_method_fields(buf, at, &consume_ok_fields(method))
}

/// Appends the method id and the fields of `ConsumeOk` to a vector.
pub fn gen_consume_ok(_alloc: Global, out: &mut Vec<u8>, method: &ConsumeOk) -> Result<(), GenError>
    ensures { Appends out.old.items out.new.items (method_size (consume_ok_method method.now))
        (method_bytes (consume_ok_method method.now)) result }
{
    gen_method_fields(out, &consume_ok_fields(method))
}

/// A peer ends a consumer.
#[derive(Debug, Drop, PartialEq)]
pub struct Cancel {
    /// The tag of the consumer.
    pub consumer_tag: ShortString,

    /// The receiver sends no `CancelOk`.
    pub nowait: Boolean,
}

impl Cancel {
    /// The id of the class.
    pub fn get_amqp_class_id(&self) -> Identifier
        ensures { result ≡ 60 }
    {
        60
    }

    /// The id of the method in its class.
    pub fn get_amqp_method_id(&self) -> Identifier
        ensures { result ≡ 30 }
    {
        30
    }

    /// The method whose fields are empty, zero and false.
    pub fn empty(alloc: Global) -> Cancel
        ensures { cancel_method result ≡ method 60 30 (text_item [] ∷ flag_item false ∷ []) }
    {
        Cancel {
            consumer_tag: ShortString::empty(alloc),
            nowait: false,
        }
    }

    /// A deep copy.
    pub fn copy(&self, alloc: Global) -> Result<Cancel, NoMemory>
        ensures { IfOk result (λ copied. copied ≡ self.now) }
    {
        Ok(Cancel {
            consumer_tag: self.consumer_tag.copy(alloc)?,
            nowait: self.nowait,
        })
    }
}

/// Decodes the fields of `Cancel`.
#[tactic(auto, using(amqp_types::proofs::Judged::refuses_next), unfolding(amqp_values::proofs::OneMethod::read_at_once))]
pub fn parse_cancel(alloc: Global, i: &[u8]) -> Result<(usize, Cancel), ParserError>
    ensures { Parses cancel_method result i.now (judge_method 60 30) }
{
    let mut slots = SlotReader::new(i);
    let (consumer_tag, flags) = slots.read::<(_, Flags<1>)>(alloc)?;
    let method = Cancel {
        consumer_tag,
        nowait: flag_of_byte(flags.byte, 0),
    };
    Ok((slots.used(i), method))
}

/// Its ids and fields, in order.
#[tactic(auto, unfolding(amqp_values::proofs::OneMethod::listed))]
pub(super) fn cancel_fields(method: &Cancel) -> [Field<'_>; 7]
    ensures { ListsMethod result (cancel_method method.now) }
{
    [
        Field::ShortUInt(60),
        Field::ShortUInt(30),
        Field::ShortString(&method.consumer_tag),
        Field::Flags(byte_of_flags(&[method.nowait])),
        Field::Nothing,
        Field::Nothing,
        Field::Nothing,
    ]
}

/// The size in bytes of the method id and the fields of `Cancel`.
pub fn size_cancel(method: &Cancel) -> Result<u64, GenError>
    ensures { Measures result (method_size (cancel_method method.now)) }
{
    size_method_fields(&cancel_fields(method))
}

/// Puts the method id and the fields of `Cancel` at a place of a slice, and returns the place after.
pub fn put_cancel(buf: &mut [u8], at: usize, method: &Cancel) -> usize
    requires { HasRoom buf.old at (method_size (cancel_method method.now))
        (method_bytes (cancel_method method.now)) }
    ensures { Puts buf.old buf.new at (method_bytes (cancel_method method.now)) result }
{
    put_method_fields(buf, at, &cancel_fields(method))
}

/// Appends the method id and the fields of `Cancel` to a vector.
pub fn gen_cancel(_alloc: Global, out: &mut Vec<u8>, method: &Cancel) -> Result<(), GenError>
    ensures { Appends out.old.items out.new.items (method_size (cancel_method method.now))
        (method_bytes (cancel_method method.now)) result }
{
    gen_method_fields(out, &cancel_fields(method))
}

/// The consumer has ended.
#[derive(Debug, Drop, PartialEq)]
pub struct CancelOk {
    /// The tag of the consumer.
    pub consumer_tag: ShortString,
}

impl CancelOk {
    /// The id of the class.
    pub fn get_amqp_class_id(&self) -> Identifier
        ensures { result ≡ 60 }
    {
        60
    }

    /// The id of the method in its class.
    pub fn get_amqp_method_id(&self) -> Identifier
        ensures { result ≡ 31 }
    {
        31
    }

    /// The method whose fields are empty, zero and false.
    pub fn empty(alloc: Global) -> CancelOk
        ensures { cancel_ok_method result ≡ method 60 31 (text_item [] ∷ []) }
    {
        CancelOk {
            consumer_tag: ShortString::empty(alloc),
        }
    }

    /// A deep copy.
    pub fn copy(&self, alloc: Global) -> Result<CancelOk, NoMemory>
        ensures { IfOk result (λ copied. copied ≡ self.now) }
    {
        Ok(CancelOk {
            consumer_tag: self.consumer_tag.copy(alloc)?,
        })
    }
}

/// Decodes the fields of `CancelOk`.
#[tactic(auto, using(amqp_types::proofs::Judged::refuses_next), unfolding(amqp_values::proofs::OneMethod::read_one_by_one))]
pub fn parse_cancel_ok(alloc: Global, i: &[u8]) -> Result<(usize, CancelOk), ParserError>
    ensures { Parses cancel_ok_method result i.now (judge_method 60 31) }
{
    let mut slots = SlotReader::new(i);
    let consumer_tag = slots.short_string(alloc)?;
    let method = CancelOk { consumer_tag };
    Ok((slots.used(i), method))
}

/// Its ids and fields, in order.
#[tactic(auto, unfolding(amqp_values::proofs::OneMethod::listed))]
pub(super) fn cancel_ok_fields(method: &CancelOk) -> [Field<'_>; 7]
    ensures { ListsMethod result (cancel_ok_method method.now) }
{
    [
        Field::ShortUInt(60),
        Field::ShortUInt(31),
        Field::ShortString(&method.consumer_tag),
        Field::Nothing,
        Field::Nothing,
        Field::Nothing,
        Field::Nothing,
    ]
}

/// The size in bytes of the method id and the fields of `CancelOk`.
pub fn size_cancel_ok(method: &CancelOk) -> Result<u64, GenError>
    ensures { Measures result (method_size (cancel_ok_method method.now)) }
{
    size_method_fields(&cancel_ok_fields(method))
}

/// Puts the method id and the fields of `CancelOk` at a place of a slice, and returns the place after.
pub fn put_cancel_ok(buf: &mut [u8], at: usize, method: &CancelOk) -> usize
    requires { HasRoom buf.old at (method_size (cancel_ok_method method.now))
        (method_bytes (cancel_ok_method method.now)) }
    ensures { Puts buf.old buf.new at (method_bytes (cancel_ok_method method.now)) result }
{
    put_method_fields(buf, at, &cancel_ok_fields(method))
}

/// Appends the method id and the fields of `CancelOk` to a vector.
pub fn gen_cancel_ok(_alloc: Global, out: &mut Vec<u8>, method: &CancelOk) -> Result<(), GenError>
    ensures { Appends out.old.items out.new.items (method_size (cancel_ok_method method.now))
        (method_bytes (cancel_ok_method method.now)) result }
{
    gen_method_fields(out, &cancel_ok_fields(method))
}
