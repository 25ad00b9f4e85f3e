//! Methods of the class basic that acknowledge messages, or ask for them again.

ghost use Rattle.std.specs.Prelude.{◌≡◌, ◌∷◌, [], false};
ghost use Rattle.amqp_types.specs.Slots.{number_item, flag_item};
ghost use Rattle.amqp_types.specs.Calls.{Parses, NeedsNoMemory, Measures, HasRoom};
ghost use Rattle.amqp_types.specs.Writing.{Puts, Appends};
ghost use Rattle.amqp_types.specs.Methods.{judge_method, method_bytes, method_size, method};
ghost use Rattle.amqp_values.specs.MethodFields.{ListsMethod};
ghost use Rattle.amqp_basic.specs.Basic.{ack_method, reject_method, recover_async_method};
ghost use Rattle.amqp_basic.specs.Basic.{recover_method, recover_ok_method, nack_method};

use amqp_values::{
    Boolean, Field, GenError, Identifier, LongLongUInt, ParserError, SlotReader, byte_of_flags,
    flag_of_byte, gen_method_fields, put_method_fields, size_method_fields,
};
use std::alloc::Global;

/// A peer acknowledges messages.
#[derive(Clone, Debug, Drop, PartialEq)]
pub struct Ack {
    /// The tag of a delivery on this channel; from a server, the number of a published message on it, from 1.
    pub delivery_tag: LongLongUInt,

    /// True: all outstanding messages up to this tag, and with a tag of 0 all; false: this message alone.
    pub multiple: Boolean,
}

impl Default for Ack {
    /// The method whose numbers are 0 and whose flags are false.
    fn default() -> Ack
        ensures { ack_method result ≡ method 60 80 (number_item 0 ∷ flag_item false ∷ []) }
    {
        Ack {
            delivery_tag: 0,
            multiple: false,
        }
    }
}

impl Ack {
    /// The id of the class.
    pub fn get_amqp_class_id(&self) -> Identifier
        ensures { result ≡ 60 }
    {
        60
    }

    /// The id of the method in its class.
    pub fn get_amqp_method_id(&self) -> Identifier
        ensures { result ≡ 80 }
    {
        80
    }
}

/// Decodes the fields of `Ack`.
#[tactic(auto, using(amqp_types::proofs::Judged::refuses_next), unfolding(amqp_values::proofs::OneMethod::read_one_by_one))]
pub fn parse_ack(_alloc: Global, i: &[u8]) -> Result<(usize, Ack), ParserError>
    ensures parsed { Parses ack_method result i.now (judge_method 60 80) }
    ensures memory { NeedsNoMemory result }
{
    let mut slots = SlotReader::new(i);
    let delivery_tag = slots.long_long_uint()?;
    let flags = slots.flags::<1>()?;
    let method = Ack {
        delivery_tag,
        multiple: flag_of_byte(flags, 0),
    };
    Ok((slots.used(i), method))
}

/// Its ids and fields, in order, and nothing after them, as most frames have it.
#[tactic(auto, unfolding(amqp_values::proofs::OneMethod::listed))]
pub(super) fn ack_fields(method: &Ack) -> [Field<'_>; 4]
    ensures { ListsMethod result (ack_method method.now) }
{
    [
        Field::ShortUInt(60),
        Field::ShortUInt(80),
        Field::LongLongUInt(method.delivery_tag),
        Field::Flags(byte_of_flags(&[method.multiple])),
    ]
}

/// The size in bytes of the method id and the fields of `Ack`.
pub fn size_ack(method: &Ack) -> Result<u64, GenError>
    ensures { Measures result (method_size (ack_method method.now)) }
{
    size_method_fields(&ack_fields(method))
}

/// Puts the method id and the fields of `Ack` at a place of a slice, and returns the place after.
pub fn put_ack(buf: &mut [u8], at: usize, method: &Ack) -> usize
    requires { HasRoom buf.old at (method_size (ack_method method.now))
        (method_bytes (ack_method method.now)) }
    ensures { Puts buf.old buf.new at (method_bytes (ack_method method.now)) result }
{
    put_method_fields(buf, at, &ack_fields(method))
}

/// Appends the method id and the fields of `Ack` to a vector.
pub fn gen_ack(_alloc: Global, out: &mut Vec<u8>, method: &Ack) -> Result<(), GenError>
    ensures { Appends out.old.items out.new.items (method_size (ack_method method.now))
        (method_bytes (ack_method method.now)) result }
{
    gen_method_fields(out, &ack_fields(method))
}

/// The client rejects a message.
#[derive(Clone, Debug, Drop, PartialEq)]
pub struct Reject {
    /// The tag of a delivery on this channel.
    pub delivery_tag: LongLongUInt,

    /// True: the server tries to put the message back into its queue; false: it discards or dead-letters it.
    pub requeue: Boolean,
}

impl Default for Reject {
    /// The method whose numbers are 0 and whose flags are false.
    fn default() -> Reject
        ensures { reject_method result ≡ method 60 90 (number_item 0 ∷ flag_item false ∷ []) }
    {
        Reject {
            delivery_tag: 0,
            requeue: false,
        }
    }
}

impl Reject {
    /// The id of the class.
    pub fn get_amqp_class_id(&self) -> Identifier
        ensures { result ≡ 60 }
    {
        60
    }

    /// The id of the method in its class.
    pub fn get_amqp_method_id(&self) -> Identifier
        ensures { result ≡ 90 }
    {
        90
    }
}

/// Decodes the fields of `Reject`.
#[tactic(auto, using(amqp_types::proofs::Judged::refuses_next), unfolding(amqp_values::proofs::OneMethod::read_one_by_one))]
pub fn parse_reject(_alloc: Global, i: &[u8]) -> Result<(usize, Reject), ParserError>
    ensures parsed { Parses reject_method result i.now (judge_method 60 90) }
    ensures memory { NeedsNoMemory result }
{
    let mut slots = SlotReader::new(i);
    let delivery_tag = slots.long_long_uint()?;
    let flags = slots.flags::<1>()?;
    let method = Reject {
        delivery_tag,
        requeue: flag_of_byte(flags, 0),
    };
    Ok((slots.used(i), method))
}

/// Its ids and fields, in order.
#[tactic(auto, unfolding(amqp_values::proofs::OneMethod::listed))]
pub(super) fn reject_fields(method: &Reject) -> [Field<'_>; 7]
    ensures { ListsMethod result (reject_method method.now) }
{
    [
        Field::ShortUInt(60),
        Field::ShortUInt(90),
        Field::LongLongUInt(method.delivery_tag),
        Field::Flags(byte_of_flags(&[method.requeue])),
        Field::Nothing,
        Field::Nothing,
        Field::Nothing,
    ]
}

/// The size in bytes of the method id and the fields of `Reject`.
pub fn size_reject(method: &Reject) -> Result<u64, GenError>
    ensures { Measures result (method_size (reject_method method.now)) }
{
    size_method_fields(&reject_fields(method))
}

/// Puts the method id and the fields of `Reject` at a place of a slice, and returns the place after.
pub fn put_reject(buf: &mut [u8], at: usize, method: &Reject) -> usize
    requires { HasRoom buf.old at (method_size (reject_method method.now))
        (method_bytes (reject_method method.now)) }
    ensures { Puts buf.old buf.new at (method_bytes (reject_method method.now)) result }
{
    put_method_fields(buf, at, &reject_fields(method))
}

/// Appends the method id and the fields of `Reject` to a vector.
pub fn gen_reject(_alloc: Global, out: &mut Vec<u8>, method: &Reject) -> Result<(), GenError>
    ensures { Appends out.old.items out.new.items (method_size (reject_method method.now))
        (method_bytes (reject_method method.now)) result }
{
    gen_method_fields(out, &reject_fields(method))
}

/// The client asks for all messages again that it has not acknowledged, and expects no reply.
#[derive(Clone, Debug, Drop, PartialEq)]
pub struct RecoverAsync {
    /// True: the messages are put back, and may go to another consumer; false: they go to the same one.
    pub requeue: Boolean,
}

impl Default for RecoverAsync {
    /// The method whose numbers are 0 and whose flags are false.
    fn default() -> RecoverAsync
        ensures { recover_async_method result ≡ method 60 100 (flag_item false ∷ []) }
    {
        RecoverAsync { requeue: false }
    }
}

impl RecoverAsync {
    /// The id of the class.
    pub fn get_amqp_class_id(&self) -> Identifier
        ensures { result ≡ 60 }
    {
        60
    }

    /// The id of the method in its class.
    pub fn get_amqp_method_id(&self) -> Identifier
        ensures { result ≡ 100 }
    {
        100
    }
}

/// Decodes the fields of `RecoverAsync`.
#[tactic(auto, using(amqp_types::proofs::Judged::refuses_next), unfolding(amqp_values::proofs::OneMethod::read_one_by_one))]
pub fn parse_recover_async(_alloc: Global, i: &[u8]) -> Result<(usize, RecoverAsync), ParserError>
    ensures parsed { Parses recover_async_method result i.now (judge_method 60 100) }
    ensures memory { NeedsNoMemory result }
{
    let mut slots = SlotReader::new(i);
    let flags = slots.flags::<1>()?;
    let method = RecoverAsync {
        requeue: flag_of_byte(flags, 0),
    };
    Ok((slots.used(i), method))
}

/// Its ids and fields, in order.
#[tactic(auto, unfolding(amqp_values::proofs::OneMethod::listed))]
pub(super) fn recover_async_fields(method: &RecoverAsync) -> [Field<'_>; 7]
    ensures { ListsMethod result (recover_async_method method.now) }
{
    [
        Field::ShortUInt(60),
        Field::ShortUInt(100),
        Field::Flags(byte_of_flags(&[method.requeue])),
        Field::Nothing,
        Field::Nothing,
        Field::Nothing,
        Field::Nothing,
    ]
}

/// The size in bytes of the method id and the fields of `RecoverAsync`.
pub fn size_recover_async(method: &RecoverAsync) -> Result<u64, GenError>
    ensures { Measures result (method_size (recover_async_method method.now)) }
{
    size_method_fields(&recover_async_fields(method))
}

/// Puts the method id and the fields of `RecoverAsync` at a place of a slice, and returns the place after.
pub fn put_recover_async(buf: &mut [u8], at: usize, method: &RecoverAsync) -> usize
    requires { HasRoom buf.old at (method_size (recover_async_method method.now))
        (method_bytes (recover_async_method method.now)) }
    ensures { Puts buf.old buf.new at (method_bytes (recover_async_method method.now)) result }
{
    put_method_fields(buf, at, &recover_async_fields(method))
}

/// Appends the method id and the fields of `RecoverAsync` to a vector.
pub fn gen_recover_async(
    _alloc: Global,
    out: &mut Vec<u8>,
    method: &RecoverAsync,
) -> Result<(), GenError>
    ensures { Appends out.old.items out.new.items (method_size (recover_async_method method.now))
        (method_bytes (recover_async_method method.now)) result }
{
    gen_method_fields(out, &recover_async_fields(method))
}

/// The client asks for all messages again that it has not acknowledged.
#[derive(Clone, Debug, Drop, PartialEq)]
pub struct Recover {
    /// True: the messages are put back, and may go to another consumer; false: they go to the same one.
    pub requeue: Boolean,
}

impl Default for Recover {
    /// The method whose numbers are 0 and whose flags are false.
    fn default() -> Recover
        ensures { recover_method result ≡ method 60 110 (flag_item false ∷ []) }
    {
        Recover { requeue: false }
    }
}

impl Recover {
    /// The id of the class.
    pub fn get_amqp_class_id(&self) -> Identifier
        ensures { result ≡ 60 }
    {
        60
    }

    /// The id of the method in its class.
    pub fn get_amqp_method_id(&self) -> Identifier
        ensures { result ≡ 110 }
    {
        110
    }
}

/// Decodes the fields of `Recover`.
#[tactic(auto, using(amqp_types::proofs::Judged::refuses_next), unfolding(amqp_values::proofs::OneMethod::read_one_by_one))]
pub fn parse_recover(_alloc: Global, i: &[u8]) -> Result<(usize, Recover), ParserError>
    ensures parsed { Parses recover_method result i.now (judge_method 60 110) }
    ensures memory { NeedsNoMemory result }
{
    let mut slots = SlotReader::new(i);
    let flags = slots.flags::<1>()?;
    let method = Recover {
        requeue: flag_of_byte(flags, 0),
    };
    Ok((slots.used(i), method))
}

/// Its ids and fields, in order.
#[tactic(auto, unfolding(amqp_values::proofs::OneMethod::listed))]
pub(super) fn recover_fields(method: &Recover) -> [Field<'_>; 7]
    ensures { ListsMethod result (recover_method method.now) }
{
    [
        Field::ShortUInt(60),
        Field::ShortUInt(110),
        Field::Flags(byte_of_flags(&[method.requeue])),
        Field::Nothing,
        Field::Nothing,
        Field::Nothing,
        Field::Nothing,
    ]
}

/// The size in bytes of the method id and the fields of `Recover`.
pub fn size_recover(method: &Recover) -> Result<u64, GenError>
    ensures { Measures result (method_size (recover_method method.now)) }
{
    size_method_fields(&recover_fields(method))
}

/// Puts the method id and the fields of `Recover` at a place of a slice, and returns the place after.
pub fn put_recover(buf: &mut [u8], at: usize, method: &Recover) -> usize
    requires { HasRoom buf.old at (method_size (recover_method method.now))
        (method_bytes (recover_method method.now)) }
    ensures { Puts buf.old buf.new at (method_bytes (recover_method method.now)) result }
{
    put_method_fields(buf, at, &recover_fields(method))
}

/// Appends the method id and the fields of `Recover` to a vector.
pub fn gen_recover(_alloc: Global, out: &mut Vec<u8>, method: &Recover) -> Result<(), GenError>
    ensures { Appends out.old.items out.new.items (method_size (recover_method method.now))
        (method_bytes (recover_method method.now)) result }
{
    gen_method_fields(out, &recover_fields(method))
}

/// The messages will be sent again.
#[derive(Clone, Default, Debug, Drop, PartialEq)]
pub struct RecoverOk {}

impl RecoverOk {
    /// The id of the class.
    pub fn get_amqp_class_id(&self) -> Identifier
        ensures { result ≡ 60 }
    {
        60
    }

    /// The id of the method in its class.
    pub fn get_amqp_method_id(&self) -> Identifier
        ensures { result ≡ 111 }
    {
        111
    }
}

/// Decodes the fields of `RecoverOk`.
#[tactic(auto, using(amqp_types::proofs::Judged::refuses_next), unfolding(amqp_values::proofs::OneMethod::read_one_by_one))]
pub fn parse_recover_ok(_alloc: Global, i: &[u8]) -> Result<(usize, RecoverOk), ParserError>
    ensures parsed { Parses recover_ok_method result i.now (judge_method 60 111) }
    ensures memory { NeedsNoMemory result }
{
    let slots = SlotReader::new(i);
    Ok((slots.used(i), RecoverOk {}))
}

/// Its ids and fields, in order.
#[tactic(auto, unfolding(amqp_values::proofs::OneMethod::listed))]
pub(super) fn recover_ok_fields(_method: &RecoverOk) -> [Field<'_>; 7]
    ensures { ListsMethod result (recover_ok_method _method.now) }
{
    [
        Field::ShortUInt(60),
        Field::ShortUInt(111),
        Field::Nothing,
        Field::Nothing,
        Field::Nothing,
        Field::Nothing,
        Field::Nothing,
    ]
}

/// The size in bytes of the method id and the fields of `RecoverOk`.
pub fn size_recover_ok(method: &RecoverOk) -> Result<u64, GenError>
    ensures { Measures result (method_size (recover_ok_method method.now)) }
{
    size_method_fields(&recover_ok_fields(method))
}

/// Puts the method id and the fields of `RecoverOk` at a place of a slice, and returns the place after.
pub fn put_recover_ok(buf: &mut [u8], at: usize, method: &RecoverOk) -> usize
    requires { HasRoom buf.old at (method_size (recover_ok_method method.now))
        (method_bytes (recover_ok_method method.now)) }
    ensures { Puts buf.old buf.new at (method_bytes (recover_ok_method method.now)) result }
{
    put_method_fields(buf, at, &recover_ok_fields(method))
}

/// Appends the method id and the fields of `RecoverOk` to a vector.
pub fn gen_recover_ok(_alloc: Global, out: &mut Vec<u8>, method: &RecoverOk) -> Result<(), GenError>
    ensures { Appends out.old.items out.new.items (method_size (recover_ok_method method.now))
        (method_bytes (recover_ok_method method.now)) result }
{
    gen_method_fields(out, &recover_ok_fields(method))
}

/// A peer rejects messages.
#[derive(Clone, Debug, Drop, PartialEq)]
pub struct Nack {
    /// The tag of a delivery on this channel; from a server, the number of a published message on it, from 1.
    pub delivery_tag: LongLongUInt,

    /// True: all outstanding messages up to this tag, and with a tag of 0 all; false: this message alone.
    pub multiple: Boolean,

    /// True: the server tries to put the messages back; false: it discards or dead-letters them. A client ignores it.
    pub requeue: Boolean,
}

impl Default for Nack {
    /// The method whose numbers are 0 and whose flags are false.
    fn default() -> Nack
        ensures { nack_method result
            ≡ method 60 120 (number_item 0 ∷ flag_item false ∷ flag_item false ∷ []) }
    {
        Nack {
            delivery_tag: 0,
            multiple: false,
            requeue: false,
        }
    }
}

impl Nack {
    /// The id of the class.
    pub fn get_amqp_class_id(&self) -> Identifier
        ensures { result ≡ 60 }
    {
        60
    }

    /// The id of the method in its class.
    pub fn get_amqp_method_id(&self) -> Identifier
        ensures { result ≡ 120 }
    {
        120
    }
}

/// Decodes the fields of `Nack`.
#[tactic(auto, using(amqp_types::proofs::Judged::refuses_next), unfolding(amqp_values::proofs::OneMethod::read_one_by_one))]
pub fn parse_nack(_alloc: Global, i: &[u8]) -> Result<(usize, Nack), ParserError>
    ensures parsed { Parses nack_method result i.now (judge_method 60 120) }
    ensures memory { NeedsNoMemory result }
{
    let mut slots = SlotReader::new(i);
    let delivery_tag = slots.long_long_uint()?;
    let flags = slots.flags::<2>()?;
    let method = Nack {
        delivery_tag,
        multiple: flag_of_byte(flags, 0),
        requeue: flag_of_byte(flags, 1),
    };
    Ok((slots.used(i), method))
}

/// Its ids and fields, in order.
#[tactic(auto, unfolding(amqp_values::proofs::OneMethod::listed))]
pub(super) fn nack_fields(method: &Nack) -> [Field<'_>; 7]
    ensures { ListsMethod result (nack_method method.now) }
{
    [
        Field::ShortUInt(60),
        Field::ShortUInt(120),
        Field::LongLongUInt(method.delivery_tag),
        Field::Flags(byte_of_flags(&[method.multiple, method.requeue])),
        Field::Nothing,
        Field::Nothing,
        Field::Nothing,
    ]
}

/// The size in bytes of the method id and the fields of `Nack`.
pub fn size_nack(method: &Nack) -> Result<u64, GenError>
    ensures { Measures result (method_size (nack_method method.now)) }
{
    size_method_fields(&nack_fields(method))
}

/// Puts the method id and the fields of `Nack` at a place of a slice, and returns the place after.
pub fn put_nack(buf: &mut [u8], at: usize, method: &Nack) -> usize
    requires { HasRoom buf.old at (method_size (nack_method method.now))
        (method_bytes (nack_method method.now)) }
    ensures { Puts buf.old buf.new at (method_bytes (nack_method method.now)) result }
{
    put_method_fields(buf, at, &nack_fields(method))
}

/// Appends the method id and the fields of `Nack` to a vector.
pub fn gen_nack(_alloc: Global, out: &mut Vec<u8>, method: &Nack) -> Result<(), GenError>
    ensures { Appends out.old.items out.new.items (method_size (nack_method method.now))
        (method_bytes (nack_method method.now)) result }
{
    gen_method_fields(out, &nack_fields(method))
}
