//! Methods of the class basic that carry messages, and to get one.

ghost use Rattle.std.specs.Prelude.{◌≡◌, ◌∷◌, [], false, IfOk};
ghost use Rattle.amqp_types.specs.Slots.{number_item, flag_item, text_item};
ghost use Rattle.amqp_types.specs.Calls.{Parses, NeedsNoMemory, Measures, HasRoom};
ghost use Rattle.amqp_types.specs.Writing.{Puts, Appends};
ghost use Rattle.amqp_types.specs.Methods.{method, judge_method, method_bytes, method_size};
ghost use Rattle.amqp_values.specs.MethodFields.{ListsMethod};
ghost use Rattle.amqp_basic.specs.Basic.{publish_method, return_method, deliver_method, get_method};
ghost use Rattle.amqp_basic.specs.Basic.{get_ok_method, get_empty_method};

use amqp_values::{
    Boolean, Field, Flags, GenError, Identifier, LongLongUInt, LongUInt, NoMemory, ParserError,
    ReservedShortUInt, ShortString, ShortUInt, SlotReader, byte_of_flags, copied, flag_of_byte,
    gen_method_fields, put_method_fields, size_method_fields,
};
use std::alloc::Global;

/// The client publishes the message that follows.
#[derive(Debug, Drop, PartialEq)]
pub struct Publish {
    /// The name of the exchange; empty is the default exchange.
    pub exchange: ShortString,

    /// The key that the exchange routes the message by; for the default exchange, the name of a queue.
    pub routing_key: ShortString,

    /// True: a message that no queue receives is returned; false: it is dropped.
    pub mandatory: Boolean,

    /// True: a message that no consumer receives at once is returned; false: it is queued.
    pub immediate: Boolean,
}

impl Publish {
    /// The id of the class.
    pub fn get_amqp_class_id(&self) -> Identifier
        ensures { result ≡ 60 }
    {
        60
    }

    /// The id of the method in its class.
    pub fn get_amqp_method_id(&self) -> Identifier
        ensures { result ≡ 40 }
    {
        40
    }

    /// The method whose fields are empty, zero and false.
    pub fn empty(alloc: Global) -> Publish
        ensures { publish_method result
            ≡ method 60 40 (text_item [] ∷ text_item [] ∷ flag_item false ∷ flag_item false ∷ []) }
    {
        Publish {
            exchange: ShortString::empty(alloc),
            routing_key: ShortString::empty(alloc),
            mandatory: false,
            immediate: false,
        }
    }

    /// A deep copy.
    pub fn copy(&self, alloc: Global) -> Result<Publish, NoMemory>
        ensures { IfOk result (λ copied. copied ≡ self.now) }
    {
        Ok(Publish {
            exchange: self.exchange.copy(alloc)?,
            routing_key: self.routing_key.copy(alloc)?,
            mandatory: self.mandatory,
            immediate: self.immediate,
        })
    }
}

/// Decodes the fields of `Publish`.
#[tactic(auto, using(amqp_types::proofs::Judged::refuses_next), unfolding(amqp_values::proofs::OneMethod::read_at_once))]
pub fn parse_publish(alloc: Global, i: &[u8]) -> Result<(usize, Publish), ParserError>
    ensures { Parses publish_method result i.now (judge_method 60 40) }
{
    let mut slots = SlotReader::new(i);
    let (_, exchange, routing_key, flags) = slots.read::<(ReservedShortUInt, _, _, Flags<2>)>(
        alloc,
    )?;
    let method = Publish {
        exchange,
        routing_key,
        mandatory: flag_of_byte(flags.byte, 0),
        immediate: flag_of_byte(flags.byte, 1),
    };
    Ok((slots.used(i), method))
}

/// Its ids and fields, in order, and nothing after them, as most frames have it.
#[tactic(auto, unfolding(amqp_values::proofs::OneMethod::listed))]
pub(super) fn publish_fields(method: &Publish) -> [Field<'_>; 6]
    ensures { ListsMethod result (publish_method method.now) }
{
    [
        Field::ShortUInt(60),
        Field::ShortUInt(40),
        Field::ShortUInt(0), // reserved
        Field::ShortString(&method.exchange),
        Field::ShortString(&method.routing_key),
        Field::Flags(byte_of_flags(&[method.mandatory, method.immediate])),
    ]
}

/// The size in bytes of the method id and the fields of `Publish`.
pub fn size_publish(method: &Publish) -> Result<u64, GenError>
    ensures { Measures result (method_size (publish_method method.now)) }
{
    size_method_fields(&publish_fields(method))
}

/// Puts the method id and the fields of `Publish` at a place of a slice, and returns the place after.
pub fn put_publish(buf: &mut [u8], at: usize, method: &Publish) -> usize
    requires { HasRoom buf.old at (method_size (publish_method method.now))
        (method_bytes (publish_method method.now)) }
    ensures { Puts buf.old buf.new at (method_bytes (publish_method method.now)) result }
{
    put_method_fields(buf, at, &publish_fields(method))
}

/// Appends the method id and the fields of `Publish` to a vector.
pub fn gen_publish(_alloc: Global, out: &mut Vec<u8>, method: &Publish) -> Result<(), GenError>
    ensures { Appends out.old.items out.new.items (method_size (publish_method method.now))
        (method_bytes (publish_method method.now)) result }
{
    gen_method_fields(out, &publish_fields(method))
}

/// The server hands back the message that follows, which it could not deliver.
#[derive(Debug, Drop, PartialEq)]
pub struct Return {
    /// The reason as a reply code, such as 312 (no route) and 313 (no consumers).
    pub reply_code: ShortUInt,

    /// The reason in words.
    pub reply_text: ShortString,

    /// The exchange that the message was published to; empty is the default exchange.
    pub exchange: ShortString,

    /// The routing key that the message was published with.
    pub routing_key: ShortString,
}

impl Return {
    /// The id of the class.
    pub fn get_amqp_class_id(&self) -> Identifier
        ensures { result ≡ 60 }
    {
        60
    }

    /// The id of the method in its class.
    pub fn get_amqp_method_id(&self) -> Identifier
        ensures { result ≡ 50 }
    {
        50
    }

    /// The method whose fields are empty, zero and false.
    pub fn empty(alloc: Global) -> Return
        ensures { return_method result
            ≡ method 60 50 (number_item 0 ∷ text_item [] ∷ text_item [] ∷ text_item [] ∷ []) }
    {
        Return {
            reply_code: 0,
            reply_text: ShortString::empty(alloc),
            exchange: ShortString::empty(alloc),
            routing_key: ShortString::empty(alloc),
        }
    }

    /// A deep copy.
    pub fn copy(&self, alloc: Global) -> Result<Return, NoMemory>
        ensures { IfOk result (λ copied. copied ≡ self.now) }
    {
        Ok(Return {
            reply_code: self.reply_code,
            reply_text: self.reply_text.copy(alloc)?,
            exchange: self.exchange.copy(alloc)?,
            routing_key: self.routing_key.copy(alloc)?,
        })
    }
}

/// Decodes the fields of `Return`.
#[tactic(auto, using(amqp_types::proofs::Judged::refuses_next), unfolding(amqp_values::proofs::OneMethod::read_at_once))]
pub fn parse_return(alloc: Global, i: &[u8]) -> Result<(usize, Return), ParserError>
    ensures { Parses return_method result i.now (judge_method 60 50) }
{
    let mut slots = SlotReader::new(i);
    let (reply_code, reply_text, exchange, routing_key) = slots.read(alloc)?;
    let method = Return {
        reply_code,
        reply_text,
        exchange,
        routing_key,
    };
    Ok((slots.used(i), method))
}

/// Its ids and fields, in order.
#[tactic(auto, unfolding(amqp_values::proofs::OneMethod::listed))]
pub(super) fn return_fields(method: &Return) -> [Field<'_>; 7]
    ensures { ListsMethod result (return_method method.now) }
{
    [
        Field::ShortUInt(60),
        Field::ShortUInt(50),
        Field::ShortUInt(method.reply_code),
        Field::ShortString(&method.reply_text),
        Field::ShortString(&method.exchange),
        Field::ShortString(&method.routing_key),
        Field::Nothing,
    ]
}

/// The size in bytes of the method id and the fields of `Return`.
pub fn size_return(method: &Return) -> Result<u64, GenError>
    ensures { Measures result (method_size (return_method method.now)) }
{
    size_method_fields(&return_fields(method))
}

/// Puts the method id and the fields of `Return` at a place of a slice, and returns the place after.
pub fn put_return(buf: &mut [u8], at: usize, method: &Return) -> usize
    requires { HasRoom buf.old at (method_size (return_method method.now))
        (method_bytes (return_method method.now)) }
    ensures { Puts buf.old buf.new at (method_bytes (return_method method.now)) result }
{
    put_method_fields(buf, at, &return_fields(method))
}

/// Appends the method id and the fields of `Return` to a vector.
pub fn gen_return(_alloc: Global, out: &mut Vec<u8>, method: &Return) -> Result<(), GenError>
    ensures { Appends out.old.items out.new.items (method_size (return_method method.now))
        (method_bytes (return_method method.now)) result }
{
    gen_method_fields(out, &return_fields(method))
}

/// The server sends the message that follows to a consumer.
#[derive(Debug, Drop, PartialEq)]
pub struct Deliver {
    /// The tag of the consumer that the message is sent to.
    pub consumer_tag: ShortString,

    /// The tag that the message is acknowledged by, valid on this channel only; servers do not use 0.
    pub delivery_tag: LongLongUInt,

    /// The message has been delivered before, to this client or to another.
    pub redelivered: Boolean,

    /// The exchange that the message was published to; empty is the default exchange.
    pub exchange: ShortString,

    /// The routing key that the message was published with.
    pub routing_key: ShortString,
}

impl Deliver {
    /// The id of the class.
    pub fn get_amqp_class_id(&self) -> Identifier
        ensures { result ≡ 60 }
    {
        60
    }

    /// The id of the method in its class.
    pub fn get_amqp_method_id(&self) -> Identifier
        ensures { result ≡ 60 }
    {
        60
    }

    /// The method whose fields are empty, zero and false.
    pub fn empty(alloc: Global) -> Deliver
        ensures { deliver_method result
            ≡ method 60 60
            (text_item [] ∷ number_item 0 ∷ flag_item false ∷ text_item [] ∷ text_item [] ∷ []) }
    {
        Deliver {
            consumer_tag: ShortString::empty(alloc),
            delivery_tag: 0,
            redelivered: false,
            exchange: ShortString::empty(alloc),
            routing_key: ShortString::empty(alloc),
        }
    }

    /// A deep copy.
    pub fn copy(&self, alloc: Global) -> Result<Deliver, NoMemory>
        ensures { IfOk result (λ copied. copied ≡ self.now) }
    {
        Ok(Deliver {
            consumer_tag: self.consumer_tag.copy(alloc)?,
            delivery_tag: self.delivery_tag,
            redelivered: self.redelivered,
            exchange: self.exchange.copy(alloc)?,
            routing_key: self.routing_key.copy(alloc)?,
        })
    }
}

/// Decodes the fields of `Deliver`.
#[tactic(auto, using(amqp_types::proofs::Judged::refuses_next), unfolding(amqp_values::proofs::OneMethod::read_at_once))]
pub fn parse_deliver(alloc: Global, i: &[u8]) -> Result<(usize, Deliver), ParserError>
    ensures { Parses deliver_method result i.now (judge_method 60 60) }
{
    let mut slots = SlotReader::new(i);
    let (consumer_tag, delivery_tag, flags, exchange, routing_key) = slots.read::<
        (_, _, Flags<1>, _, _),
    >(alloc)?;
    let method = Deliver {
        consumer_tag,
        delivery_tag,
        redelivered: flag_of_byte(flags.byte, 0),
        exchange,
        routing_key,
    };
    Ok((slots.used(i), method))
}

/// Its ids and fields, in order.
#[tactic(auto, unfolding(amqp_values::proofs::OneMethod::listed))]
pub(super) fn deliver_fields(method: &Deliver) -> [Field<'_>; 7]
    ensures { ListsMethod result (deliver_method method.now) }
{
    [
        Field::ShortUInt(60),
        Field::ShortUInt(60),
        Field::ShortString(&method.consumer_tag),
        Field::LongLongUInt(method.delivery_tag),
        Field::Flags(byte_of_flags(&[method.redelivered])),
        Field::ShortString(&method.exchange),
        Field::ShortString(&method.routing_key),
    ]
}

/// The size in bytes of the method id and the fields of `Deliver`.
pub fn size_deliver(method: &Deliver) -> Result<u64, GenError>
    ensures { Measures result (method_size (deliver_method method.now)) }
{
    size_method_fields(&deliver_fields(method))
}

/// Puts the method id and the fields of `Deliver` at a place of a slice, and returns the place after.
pub fn put_deliver(buf: &mut [u8], at: usize, method: &Deliver) -> usize
    requires { HasRoom buf.old at (method_size (deliver_method method.now))
        (method_bytes (deliver_method method.now)) }
    ensures { Puts buf.old buf.new at (method_bytes (deliver_method method.now)) result }
{
    put_method_fields(buf, at, &deliver_fields(method))
}

/// Appends the method id and the fields of `Deliver` to a vector.
pub fn gen_deliver(_alloc: Global, out: &mut Vec<u8>, method: &Deliver) -> Result<(), GenError>
    ensures { Appends out.old.items out.new.items (method_size (deliver_method method.now))
        (method_bytes (deliver_method method.now)) result }
{
    gen_method_fields(out, &deliver_fields(method))
}

/// The client asks a queue for one message.
#[derive(Debug, Drop, PartialEq)]
pub struct Get {
    /// The name of the queue; empty is the queue that the client declared last on the channel.
    pub queue: ShortString,

    /// The server expects no acknowledgement: the message counts as acknowledged once it is sent.
    pub no_ack: Boolean,
}

impl Get {
    /// The id of the class.
    pub fn get_amqp_class_id(&self) -> Identifier
        ensures { result ≡ 60 }
    {
        60
    }

    /// The id of the method in its class.
    pub fn get_amqp_method_id(&self) -> Identifier
        ensures { result ≡ 70 }
    {
        70
    }

    /// The method whose fields are empty, zero and false.
    pub fn empty(alloc: Global) -> Get
        ensures { get_method result ≡ method 60 70 (text_item [] ∷ flag_item false ∷ []) }
    {
        Get {
            queue: ShortString::empty(alloc),
            no_ack: false,
        }
    }

    /// A deep copy.
    pub fn copy(&self, alloc: Global) -> Result<Get, NoMemory>
        ensures { IfOk result (λ copied. copied ≡ self.now) }
    {
        Ok(Get {
            queue: self.queue.copy(alloc)?,
            no_ack: self.no_ack,
        })
    }
}

/// Decodes the fields of `Get`.
#[tactic(auto, using(amqp_types::proofs::Judged::refuses_next), unfolding(amqp_values::proofs::OneMethod::read_at_once))]
pub fn parse_get(alloc: Global, i: &[u8]) -> Result<(usize, Get), ParserError>
    ensures { Parses get_method result i.now (judge_method 60 70) }
{
    let mut slots = SlotReader::new(i);
    let (_, queue, flags) = slots.read::<(ReservedShortUInt, _, Flags<1>)>(alloc)?;
    let method = Get {
        queue,
        no_ack: flag_of_byte(flags.byte, 0),
    };
    Ok((slots.used(i), method))
}

/// Its ids and fields, in order.
#[tactic(auto, unfolding(amqp_values::proofs::OneMethod::listed))]
pub(super) fn get_fields(method: &Get) -> [Field<'_>; 7]
    ensures { ListsMethod result (get_method method.now) }
{
    [
        Field::ShortUInt(60),
        Field::ShortUInt(70),
        Field::ShortUInt(0), // reserved
        Field::ShortString(&method.queue),
        Field::Flags(byte_of_flags(&[method.no_ack])),
        Field::Nothing,
        Field::Nothing,
    ]
}

/// The size in bytes of the method id and the fields of `Get`.
pub fn size_get(method: &Get) -> Result<u64, GenError>
    ensures { Measures result (method_size (get_method method.now)) }
{
    size_method_fields(&get_fields(method))
}

/// Puts the method id and the fields of `Get` at a place of a slice, and returns the place after.
pub fn put_get(buf: &mut [u8], at: usize, method: &Get) -> usize
    requires { HasRoom buf.old at (method_size (get_method method.now))
        (method_bytes (get_method method.now)) }
    ensures { Puts buf.old buf.new at (method_bytes (get_method method.now)) result }
{
    put_method_fields(buf, at, &get_fields(method))
}

/// Appends the method id and the fields of `Get` to a vector.
pub fn gen_get(_alloc: Global, out: &mut Vec<u8>, method: &Get) -> Result<(), GenError>
    ensures { Appends out.old.items out.new.items (method_size (get_method method.now))
        (method_bytes (get_method method.now)) result }
{
    gen_method_fields(out, &get_fields(method))
}

/// The server sends the message that follows, which was asked for.
#[derive(Debug, Drop, PartialEq)]
pub struct GetOk {
    /// The tag that the message is acknowledged by, valid on this channel only; servers do not use 0.
    pub delivery_tag: LongLongUInt,

    /// The message has been delivered before, to this client or to another.
    pub redelivered: Boolean,

    /// The exchange that the message was published to; empty is the default exchange.
    pub exchange: ShortString,

    /// The routing key that the message was published with.
    pub routing_key: ShortString,

    /// The number of messages in the queue, without those that wait for an acknowledgement.
    pub message_count: LongUInt,
}

impl GetOk {
    /// The id of the class.
    pub fn get_amqp_class_id(&self) -> Identifier
        ensures { result ≡ 60 }
    {
        60
    }

    /// The id of the method in its class.
    pub fn get_amqp_method_id(&self) -> Identifier
        ensures { result ≡ 71 }
    {
        71
    }

    /// The method whose fields are empty, zero and false.
    pub fn empty(alloc: Global) -> GetOk
        ensures { get_ok_method result
            ≡ method 60 71
            (number_item 0 ∷ flag_item false ∷ text_item [] ∷ text_item [] ∷ number_item 0 ∷ []) }
    {
        GetOk {
            delivery_tag: 0,
            redelivered: false,
            exchange: ShortString::empty(alloc),
            routing_key: ShortString::empty(alloc),
            message_count: 0,
        }
    }

    /// A deep copy.
    pub fn copy(&self, alloc: Global) -> Result<GetOk, NoMemory>
        ensures { IfOk result (λ copied. copied ≡ self.now) }
    {
        Ok(GetOk {
            delivery_tag: self.delivery_tag,
            redelivered: self.redelivered,
            exchange: self.exchange.copy(alloc)?,
            routing_key: self.routing_key.copy(alloc)?,
            message_count: self.message_count,
        })
    }
}

/// Decodes the fields of `GetOk`.
#[tactic(auto, using(amqp_types::proofs::Judged::refuses_next), unfolding(amqp_values::proofs::OneMethod::read_at_once))]
pub fn parse_get_ok(alloc: Global, i: &[u8]) -> Result<(usize, GetOk), ParserError>
    ensures { Parses get_ok_method result i.now (judge_method 60 71) }
{
    let mut slots = SlotReader::new(i);
    let (delivery_tag, flags, exchange, routing_key, message_count) = slots.read::<
        (_, Flags<1>, _, _, _),
    >(alloc)?;
    let method = GetOk {
        delivery_tag,
        redelivered: flag_of_byte(flags.byte, 0),
        exchange,
        routing_key,
        message_count,
    };
    Ok((slots.used(i), method))
}

/// Its ids and fields, in order.
#[tactic(auto, unfolding(amqp_values::proofs::OneMethod::listed))]
pub(super) fn get_ok_fields(method: &GetOk) -> [Field<'_>; 7]
    ensures { ListsMethod result (get_ok_method method.now) }
{
    [
        Field::ShortUInt(60),
        Field::ShortUInt(71),
        Field::LongLongUInt(method.delivery_tag),
        Field::Flags(byte_of_flags(&[method.redelivered])),
        Field::ShortString(&method.exchange),
        Field::ShortString(&method.routing_key),
        Field::LongUInt(method.message_count),
    ]
}

/// The size in bytes of the method id and the fields of `GetOk`.
pub fn size_get_ok(method: &GetOk) -> Result<u64, GenError>
    ensures { Measures result (method_size (get_ok_method method.now)) }
{
    size_method_fields(&get_ok_fields(method))
}

/// Puts the method id and the fields of `GetOk` at a place of a slice, and returns the place after.
pub fn put_get_ok(buf: &mut [u8], at: usize, method: &GetOk) -> usize
    requires { HasRoom buf.old at (method_size (get_ok_method method.now))
        (method_bytes (get_ok_method method.now)) }
    ensures { Puts buf.old buf.new at (method_bytes (get_ok_method method.now)) result }
{
    put_method_fields(buf, at, &get_ok_fields(method))
}

/// Appends the method id and the fields of `GetOk` to a vector.
pub fn gen_get_ok(_alloc: Global, out: &mut Vec<u8>, method: &GetOk) -> Result<(), GenError>
    ensures { Appends out.old.items out.new.items (method_size (get_ok_method method.now))
        (method_bytes (get_ok_method method.now)) result }
{
    gen_method_fields(out, &get_ok_fields(method))
}

/// The queue has no message.
#[derive(Clone, Default, Debug, Drop, PartialEq)]
pub struct GetEmpty {}

impl GetEmpty {
    /// The id of the class.
    pub fn get_amqp_class_id(&self) -> Identifier
        ensures { result ≡ 60 }
    {
        60
    }

    /// The id of the method in its class.
    pub fn get_amqp_method_id(&self) -> Identifier
        ensures { result ≡ 72 }
    {
        72
    }
}

/// Decodes the fields of `GetEmpty`.
#[tactic(auto, using(amqp_types::proofs::Judged::refuses_next), unfolding(amqp_values::proofs::OneMethod::read_one_by_one))]
pub fn parse_get_empty(_alloc: Global, i: &[u8]) -> Result<(usize, GetEmpty), ParserError>
    ensures parsed { Parses get_empty_method result i.now (judge_method 60 72) }
    ensures memory { NeedsNoMemory result }
{
    let mut slots = SlotReader::new(i);
    slots.skip_short_string()?;
    Ok((slots.used(i), GetEmpty {}))
}

/// Its ids and fields, in order.
#[tactic(auto, unfolding(amqp_values::proofs::OneMethod::listed))]
pub(super) fn get_empty_fields(_method: &GetEmpty) -> [Field<'_>; 7]
    ensures { ListsMethod result (get_empty_method _method.now) }
{
    [
        Field::ShortUInt(60),
        Field::ShortUInt(72),
        Field::ShortShortUInt(0), // reserved, no text
        Field::Nothing,
        Field::Nothing,
        Field::Nothing,
        Field::Nothing,
    ]
}

/// The size in bytes of the method id and the fields of `GetEmpty`.
pub fn size_get_empty(method: &GetEmpty) -> Result<u64, GenError>
    ensures { Measures result (method_size (get_empty_method method.now)) }
{
    size_method_fields(&get_empty_fields(method))
}

/// Puts the method id and the fields of `GetEmpty` at a place of a slice, and returns the place after.
pub fn put_get_empty(buf: &mut [u8], at: usize, method: &GetEmpty) -> usize
    requires { HasRoom buf.old at (method_size (get_empty_method method.now))
        (method_bytes (get_empty_method method.now)) }
    ensures { Puts buf.old buf.new at (method_bytes (get_empty_method method.now)) result }
{
    put_method_fields(buf, at, &get_empty_fields(method))
}

/// Appends the method id and the fields of `GetEmpty` to a vector.
pub fn gen_get_empty(_alloc: Global, out: &mut Vec<u8>, method: &GetEmpty) -> Result<(), GenError>
    ensures { Appends out.old.items out.new.items (method_size (get_empty_method method.now))
        (method_bytes (get_empty_method method.now)) result }
{
    gen_method_fields(out, &get_empty_fields(method))
}
