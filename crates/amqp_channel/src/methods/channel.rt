//! The methods of the class channel, 20.
//! Its `parse_` calls return Incomplete, NotUtf8 and NoMemory; `parse_channel` also UnknownMethod.

ghost use Rattle.std.specs.Prelude.{◌≡◌, ◌∷◌, [], IfOk, false};
ghost use Rattle.amqp_types.specs.Slots.{number_item, text_item, flag_item};
ghost use Rattle.amqp_types.specs.Calls.{Parses, NeedsNoMemory, Measures, HasRoom};
ghost use Rattle.amqp_types.specs.Writing.{Puts, Appends};
ghost use Rattle.amqp_types.specs.Methods.{method, judge_method, judge_in_class, method_bytes};
ghost use Rattle.amqp_types.specs.Methods.{method_size, payload_bytes, payload_size};
ghost use Rattle.amqp_laws.specs.HeldMethods.{IsHeldMethod};
ghost use Rattle.amqp_values.specs.MethodFields.{ListsMethod};
ghost use Rattle.amqp_channel.specs.Channel.{open_method, open_ok_method, flow_method};
ghost use Rattle.amqp_channel.specs.Channel.{flow_ok_method, close_method};
ghost use Rattle.amqp_channel.specs.Channel.{close_ok_method, method_of};

use amqp_values::{
    Boolean, Field, GenError, Identifier, NoMemory, ParserError, ShortString, ShortUInt,
    SlotReader, byte_of_flags, copied, fields_held, flag_of_byte, gen_fields, gen_method_fields,
    in_variant, parse_id, put_fields, put_method_fields, size_fields, size_method_fields,
};
use std::alloc::Global;

/// The client opens a channel.
#[derive(Clone, Default, Debug, Drop, PartialEq)]
pub struct Open {}

impl Open {
    /// The id of the class.
    pub fn get_amqp_class_id(&self) -> Identifier
        ensures { result ≡ 20 }
    {
        20
    }

    /// The id of the method in its class.
    pub fn get_amqp_method_id(&self) -> Identifier
        ensures { result ≡ 10 }
    {
        10
    }
}

/// Decodes the fields of `Open`.
#[tactic(auto, using(amqp_types::proofs::Judged::refuses_next), unfolding(amqp_values::proofs::OneMethod::read_one_by_one))]
pub fn parse_open(_alloc: Global, i: &[u8]) -> Result<(usize, Open), ParserError>
    ensures parsed { Parses open_method result i.now (judge_method 20 10) }
    ensures memory { NeedsNoMemory result }
{
    let mut slots = SlotReader::new(i);
    slots.skip_short_string()?;
    Ok((slots.used(i), Open {}))
}

/// Its ids and fields, in order.
#[tactic(auto, unfolding(amqp_values::proofs::OneMethod::listed))]
fn open_fields(_method: &Open) -> [Field<'_>; 6]
    ensures { ListsMethod result (open_method _method.now) }
{
    [
        Field::ShortUInt(20),
        Field::ShortUInt(10),
        Field::ShortShortUInt(0), // reserved, no text
        Field::Nothing,
        Field::Nothing,
        Field::Nothing,
    ]
}

/// The size in bytes of the method id and the fields of `Open`.
pub fn size_open(method: &Open) -> Result<u64, GenError>
    ensures { Measures result (method_size (open_method method.now)) }
{
    size_method_fields(&open_fields(method))
}

/// Puts the method id and the fields of `Open` at a place of a slice, and returns the place after.
pub fn put_open(buf: &mut [u8], at: usize, method: &Open) -> usize
    requires { HasRoom buf.old at (method_size (open_method method.now))
        (method_bytes (open_method method.now)) }
    ensures { Puts buf.old buf.new at (method_bytes (open_method method.now)) result }
{
    put_method_fields(buf, at, &open_fields(method))
}

/// Appends the method id and the fields of `Open` to a vector.
pub fn gen_open(_alloc: Global, out: &mut Vec<u8>, method: &Open) -> Result<(), GenError>
    ensures { Appends out.old.items out.new.items (method_size (open_method method.now))
        (method_bytes (open_method method.now)) result }
{
    gen_method_fields(out, &open_fields(method))
}

/// The channel is open.
#[derive(Clone, Default, Debug, Drop, PartialEq)]
pub struct OpenOk {}

impl OpenOk {
    /// The id of the class.
    pub fn get_amqp_class_id(&self) -> Identifier
        ensures { result ≡ 20 }
    {
        20
    }

    /// The id of the method in its class.
    pub fn get_amqp_method_id(&self) -> Identifier
        ensures { result ≡ 11 }
    {
        11
    }
}

/// Decodes the fields of `OpenOk`.
#[tactic(auto, using(amqp_types::proofs::Judged::refuses_next), unfolding(amqp_values::proofs::OneMethod::read_one_by_one))]
pub fn parse_open_ok(_alloc: Global, i: &[u8]) -> Result<(usize, OpenOk), ParserError>
    ensures parsed { Parses open_ok_method result i.now (judge_method 20 11) }
    ensures memory { NeedsNoMemory result }
{
    let mut slots = SlotReader::new(i);
    slots.skip_long_string()?;
    Ok((slots.used(i), OpenOk {}))
}

/// Its ids and fields, in order.
#[tactic(auto, unfolding(amqp_values::proofs::OneMethod::listed))]
fn open_ok_fields(_method: &OpenOk) -> [Field<'_>; 6]
    ensures { ListsMethod result (open_ok_method _method.now) }
{
    [
        Field::ShortUInt(20),
        Field::ShortUInt(11),
        Field::LongUInt(0), // reserved, no text
        Field::Nothing,
        Field::Nothing,
        Field::Nothing,
    ]
}

/// The size in bytes of the method id and the fields of `OpenOk`.
pub fn size_open_ok(method: &OpenOk) -> Result<u64, GenError>
    ensures { Measures result (method_size (open_ok_method method.now)) }
{
    size_method_fields(&open_ok_fields(method))
}

/// Puts the method id and the fields of `OpenOk` at a place of a slice, and returns the place after.
pub fn put_open_ok(buf: &mut [u8], at: usize, method: &OpenOk) -> usize
    requires { HasRoom buf.old at (method_size (open_ok_method method.now))
        (method_bytes (open_ok_method method.now)) }
    ensures { Puts buf.old buf.new at (method_bytes (open_ok_method method.now)) result }
{
    put_method_fields(buf, at, &open_ok_fields(method))
}

/// Appends the method id and the fields of `OpenOk` to a vector.
pub fn gen_open_ok(_alloc: Global, out: &mut Vec<u8>, method: &OpenOk) -> Result<(), GenError>
    ensures { Appends out.old.items out.new.items (method_size (open_ok_method method.now))
        (method_bytes (open_ok_method method.now)) result }
{
    gen_method_fields(out, &open_ok_fields(method))
}

/// A peer asks the other to stop sending content, or to go on.
#[derive(Clone, Debug, Drop, PartialEq)]
pub struct Flow {
    /// True: the receiver may send content frames; false: it stops.
    pub active: Boolean,
}

impl Default for Flow {
    /// The method whose numbers are 0 and whose flags are false.
    fn default() -> Flow
        ensures { flow_method result ≡ method 20 20 (flag_item false ∷ []) }
    {
        Flow { active: false }
    }
}

impl Flow {
    /// The id of the class.
    pub fn get_amqp_class_id(&self) -> Identifier
        ensures { result ≡ 20 }
    {
        20
    }

    /// The id of the method in its class.
    pub fn get_amqp_method_id(&self) -> Identifier
        ensures { result ≡ 20 }
    {
        20
    }
}

/// Decodes the fields of `Flow`.
#[tactic(auto, using(amqp_types::proofs::Judged::refuses_next), unfolding(amqp_values::proofs::OneMethod::read_one_by_one))]
pub fn parse_flow(_alloc: Global, i: &[u8]) -> Result<(usize, Flow), ParserError>
    ensures parsed { Parses flow_method result i.now (judge_method 20 20) }
    ensures memory { NeedsNoMemory result }
{
    let mut slots = SlotReader::new(i);
    let flags = slots.flags::<1>()?;
    let method = Flow {
        active: flag_of_byte(flags, 0),
    };
    Ok((slots.used(i), method))
}

/// Its ids and fields, in order.
#[tactic(auto, unfolding(amqp_values::proofs::OneMethod::listed))]
fn flow_fields(method: &Flow) -> [Field<'_>; 6]
    ensures { ListsMethod result (flow_method method.now) }
{
    [
        Field::ShortUInt(20),
        Field::ShortUInt(20),
        Field::Flags(byte_of_flags(&[method.active])),
        Field::Nothing,
        Field::Nothing,
        Field::Nothing,
    ]
}

/// The size in bytes of the method id and the fields of `Flow`.
pub fn size_flow(method: &Flow) -> Result<u64, GenError>
    ensures { Measures result (method_size (flow_method method.now)) }
{
    size_method_fields(&flow_fields(method))
}

/// Puts the method id and the fields of `Flow` at a place of a slice, and returns the place after.
pub fn put_flow(buf: &mut [u8], at: usize, method: &Flow) -> usize
    requires { HasRoom buf.old at (method_size (flow_method method.now))
        (method_bytes (flow_method method.now)) }
    ensures { Puts buf.old buf.new at (method_bytes (flow_method method.now)) result }
{
    put_method_fields(buf, at, &flow_fields(method))
}

/// Appends the method id and the fields of `Flow` to a vector.
pub fn gen_flow(_alloc: Global, out: &mut Vec<u8>, method: &Flow) -> Result<(), GenError>
    ensures { Appends out.old.items out.new.items (method_size (flow_method method.now))
        (method_bytes (flow_method method.now)) result }
{
    gen_method_fields(out, &flow_fields(method))
}

/// The other peer says whether it sends content.
#[derive(Clone, Debug, Drop, PartialEq)]
pub struct FlowOk {
    /// True: the sender of this method goes on with content frames; false: it sends none.
    pub active: Boolean,
}

impl Default for FlowOk {
    /// The method whose numbers are 0 and whose flags are false.
    fn default() -> FlowOk
        ensures { flow_ok_method result ≡ method 20 21 (flag_item false ∷ []) }
    {
        FlowOk { active: false }
    }
}

impl FlowOk {
    /// The id of the class.
    pub fn get_amqp_class_id(&self) -> Identifier
        ensures { result ≡ 20 }
    {
        20
    }

    /// The id of the method in its class.
    pub fn get_amqp_method_id(&self) -> Identifier
        ensures { result ≡ 21 }
    {
        21
    }
}

/// Decodes the fields of `FlowOk`.
#[tactic(auto, using(amqp_types::proofs::Judged::refuses_next), unfolding(amqp_values::proofs::OneMethod::read_one_by_one))]
pub fn parse_flow_ok(_alloc: Global, i: &[u8]) -> Result<(usize, FlowOk), ParserError>
    ensures parsed { Parses flow_ok_method result i.now (judge_method 20 21) }
    ensures memory { NeedsNoMemory result }
{
    let mut slots = SlotReader::new(i);
    let flags = slots.flags::<1>()?;
    let method = FlowOk {
        active: flag_of_byte(flags, 0),
    };
    Ok((slots.used(i), method))
}

/// Its ids and fields, in order.
#[tactic(auto, unfolding(amqp_values::proofs::OneMethod::listed))]
fn flow_ok_fields(method: &FlowOk) -> [Field<'_>; 6]
    ensures { ListsMethod result (flow_ok_method method.now) }
{
    [
        Field::ShortUInt(20),
        Field::ShortUInt(21),
        Field::Flags(byte_of_flags(&[method.active])),
        Field::Nothing,
        Field::Nothing,
        Field::Nothing,
    ]
}

/// The size in bytes of the method id and the fields of `FlowOk`.
pub fn size_flow_ok(method: &FlowOk) -> Result<u64, GenError>
    ensures { Measures result (method_size (flow_ok_method method.now)) }
{
    size_method_fields(&flow_ok_fields(method))
}

/// Puts the method id and the fields of `FlowOk` at a place of a slice, and returns the place after.
pub fn put_flow_ok(buf: &mut [u8], at: usize, method: &FlowOk) -> usize
    requires { HasRoom buf.old at (method_size (flow_ok_method method.now))
        (method_bytes (flow_ok_method method.now)) }
    ensures { Puts buf.old buf.new at (method_bytes (flow_ok_method method.now)) result }
{
    put_method_fields(buf, at, &flow_ok_fields(method))
}

/// Appends the method id and the fields of `FlowOk` to a vector.
pub fn gen_flow_ok(_alloc: Global, out: &mut Vec<u8>, method: &FlowOk) -> Result<(), GenError>
    ensures { Appends out.old.items out.new.items (method_size (flow_ok_method method.now))
        (method_bytes (flow_ok_method method.now)) result }
{
    gen_method_fields(out, &flow_ok_fields(method))
}

/// A peer closes the channel, and says why.
#[derive(Debug, Drop, PartialEq)]
pub struct Close {
    /// The reason as a reply code (AMQP 0-9-1, section 1.2); 200 is success.
    pub reply_code: ShortUInt,

    /// The reason in words.
    pub reply_text: ShortString,

    /// The class id of the method that caused the close; 0 where none did.
    pub class_id: ShortUInt,

    /// The id of that method in its class; 0 where none did.
    pub method_id: ShortUInt,
}

impl Close {
    /// The id of the class.
    pub fn get_amqp_class_id(&self) -> Identifier
        ensures { result ≡ 20 }
    {
        20
    }

    /// The id of the method in its class.
    pub fn get_amqp_method_id(&self) -> Identifier
        ensures { result ≡ 40 }
    {
        40
    }

    /// The method whose fields are empty, zero and false.
    pub fn empty(alloc: Global) -> Close
        ensures { close_method result
            ≡ method 20 40 (number_item 0 ∷ text_item [] ∷ number_item 0 ∷ number_item 0 ∷ []) }
    {
        Close {
            reply_code: 0,
            reply_text: ShortString::empty(alloc),
            class_id: 0,
            method_id: 0,
        }
    }

    /// A deep copy.
    pub fn copy(&self, alloc: Global) -> Result<Close, NoMemory>
        ensures { IfOk result (λ copied. copied ≡ self.now) }
    {
        Ok(Close {
            reply_code: self.reply_code,
            reply_text: self.reply_text.copy(alloc)?,
            class_id: self.class_id,
            method_id: self.method_id,
        })
    }
}

/// Decodes the fields of `Close`.
#[tactic(auto, using(amqp_types::proofs::Judged::refuses_next), unfolding(amqp_values::proofs::OneMethod::read_at_once))]
pub fn parse_close(alloc: Global, i: &[u8]) -> Result<(usize, Close), ParserError>
    ensures { Parses close_method result i.now (judge_method 20 40) }
{
    let mut slots = SlotReader::new(i);
    let (reply_code, reply_text, class_id, method_id) = slots.read(alloc)?;
    let method = Close {
        reply_code,
        reply_text,
        class_id,
        method_id,
    };
    Ok((slots.used(i), method))
}

/// Its ids and fields, in order.
#[tactic(auto, unfolding(amqp_values::proofs::OneMethod::listed))]
fn close_fields(method: &Close) -> [Field<'_>; 6]
    ensures { ListsMethod result (close_method method.now) }
{
    [
        Field::ShortUInt(20),
        Field::ShortUInt(40),
        Field::ShortUInt(method.reply_code),
        Field::ShortString(&method.reply_text),
        Field::ShortUInt(method.class_id),
        Field::ShortUInt(method.method_id),
    ]
}

/// The size in bytes of the method id and the fields of `Close`.
pub fn size_close(method: &Close) -> Result<u64, GenError>
    ensures { Measures result (method_size (close_method method.now)) }
{
    size_method_fields(&close_fields(method))
}

/// Puts the method id and the fields of `Close` at a place of a slice, and returns the place after.
pub fn put_close(buf: &mut [u8], at: usize, method: &Close) -> usize
    requires { HasRoom buf.old at (method_size (close_method method.now))
        (method_bytes (close_method method.now)) }
    ensures { Puts buf.old buf.new at (method_bytes (close_method method.now)) result }
{
    put_method_fields(buf, at, &close_fields(method))
}

/// Appends the method id and the fields of `Close` to a vector.
pub fn gen_close(_alloc: Global, out: &mut Vec<u8>, method: &Close) -> Result<(), GenError>
    ensures { Appends out.old.items out.new.items (method_size (close_method method.now))
        (method_bytes (close_method method.now)) result }
{
    gen_method_fields(out, &close_fields(method))
}

/// The other peer has heard that the channel is closed.
#[derive(Clone, Default, Debug, Drop, PartialEq)]
pub struct CloseOk {}

impl CloseOk {
    /// The id of the class.
    pub fn get_amqp_class_id(&self) -> Identifier
        ensures { result ≡ 20 }
    {
        20
    }

    /// The id of the method in its class.
    pub fn get_amqp_method_id(&self) -> Identifier
        ensures { result ≡ 41 }
    {
        41
    }
}

/// Decodes the fields of `CloseOk`.
#[tactic(auto, using(amqp_types::proofs::Judged::refuses_next), unfolding(amqp_values::proofs::OneMethod::read_one_by_one))]
pub fn parse_close_ok(_alloc: Global, i: &[u8]) -> Result<(usize, CloseOk), ParserError>
    ensures parsed { Parses close_ok_method result i.now (judge_method 20 41) }
    ensures memory { NeedsNoMemory result }
{
    let slots = SlotReader::new(i);
    Ok((slots.used(i), CloseOk {}))
}

/// Its ids and fields, in order.
#[tactic(auto, unfolding(amqp_values::proofs::OneMethod::listed))]
fn close_ok_fields(_method: &CloseOk) -> [Field<'_>; 6]
    ensures { ListsMethod result (close_ok_method _method.now) }
{
    [
        Field::ShortUInt(20),
        Field::ShortUInt(41),
        Field::Nothing,
        Field::Nothing,
        Field::Nothing,
        Field::Nothing,
    ]
}

/// The size in bytes of the method id and the fields of `CloseOk`.
pub fn size_close_ok(method: &CloseOk) -> Result<u64, GenError>
    ensures { Measures result (method_size (close_ok_method method.now)) }
{
    size_method_fields(&close_ok_fields(method))
}

/// Puts the method id and the fields of `CloseOk` at a place of a slice, and returns the place after.
pub fn put_close_ok(buf: &mut [u8], at: usize, method: &CloseOk) -> usize
    requires { HasRoom buf.old at (method_size (close_ok_method method.now))
        (method_bytes (close_ok_method method.now)) }
    ensures { Puts buf.old buf.new at (method_bytes (close_ok_method method.now)) result }
{
    put_method_fields(buf, at, &close_ok_fields(method))
}

/// Appends the method id and the fields of `CloseOk` to a vector.
pub fn gen_close_ok(_alloc: Global, out: &mut Vec<u8>, method: &CloseOk) -> Result<(), GenError>
    ensures { Appends out.old.items out.new.items (method_size (close_ok_method method.now))
        (method_bytes (close_ok_method method.now)) result }
{
    gen_method_fields(out, &close_ok_fields(method))
}

/// A method of the class.
#[derive(Debug, Drop, PartialEq)]
pub enum AMQPMethod {
    /// The client opens a channel.
    Open(Open),

    /// The channel is open.
    OpenOk(OpenOk),

    /// A peer asks the other to stop sending content, or to go on.
    Flow(Flow),

    /// The other peer says whether it sends content.
    FlowOk(FlowOk),

    /// A peer closes the channel, and says why.
    Close(Close),

    /// The other peer has heard that the channel is closed.
    CloseOk(CloseOk),
}

impl AMQPMethod {
    /// The id of the class.
    pub fn get_amqp_class_id(&self) -> Identifier
        ensures { result ≡ 20 }
    {
        20
    }

    /// The id of the method in its class.
    pub fn get_amqp_method_id(&self) -> Identifier
        ensures { result ≡ (method_of self.now).id }
    {
        match self {
            AMQPMethod::Open(_) => 10,
            AMQPMethod::OpenOk(_) => 11,
            AMQPMethod::Flow(_) => 20,
            AMQPMethod::FlowOk(_) => 21,
            AMQPMethod::Close(_) => 40,
            AMQPMethod::CloseOk(_) => 41,
        }
    }

    /// A deep copy.
    pub fn copy(&self, alloc: Global) -> Result<AMQPMethod, NoMemory>
        ensures { IfOk result (λ copied. copied ≡ self.now) }
    {
        match self {
            AMQPMethod::Open(method) => copied!(method.clone(), AMQPMethod::Open),
            AMQPMethod::OpenOk(method) => copied!(method.clone(), AMQPMethod::OpenOk),
            AMQPMethod::Flow(method) => copied!(method.clone(), AMQPMethod::Flow),
            AMQPMethod::FlowOk(method) => copied!(method.clone(), AMQPMethod::FlowOk),
            AMQPMethod::Close(method) => copied!(method.copy(alloc), AMQPMethod::Close),
            AMQPMethod::CloseOk(method) => copied!(method.clone(), AMQPMethod::CloseOk),
        }
    }
}

/// Decodes the fields of the method with this id.
#[tactic(auto, using(amqp_types::proofs::Judged::refuses_next), unfolding(amqp_types::specs::Rows::rows_of, amqp_types::specs::Rows::slots_at, amqp_types::specs::Methods::judge_method))]
fn parse_method(alloc: Global, id: Identifier, i: &[u8]) -> Result<(usize, AMQPMethod), ParserError>
    ensures { Parses method_of result i.now (judge_method 20 id) }
{
    match id {
        10 => in_variant!(parse_open(alloc, i), AMQPMethod::Open),
        11 => in_variant!(parse_open_ok(alloc, i), AMQPMethod::OpenOk),
        20 => in_variant!(parse_flow(alloc, i), AMQPMethod::Flow),
        21 => in_variant!(parse_flow_ok(alloc, i), AMQPMethod::FlowOk),
        40 => in_variant!(parse_close(alloc, i), AMQPMethod::Close),
        41 => in_variant!(parse_close_ok(alloc, i), AMQPMethod::CloseOk),
        _ => Err(ParserError::UnknownMethod),
    }
}

/// Decodes a method id and the fields of that method.
#[tactic(auto, using(amqp_types::proofs::Judged::refuses_next), unfolding(amqp_types::specs::Rows::rows_of, amqp_types::specs::Methods::judge_in_class))]
pub fn parse_channel(alloc: Global, i: &[u8]) -> Result<(usize, AMQPMethod), ParserError>
    ensures { Parses method_of result i.now (judge_in_class 20) }
{
    let (n, id) = parse_id(i)?;
    let (used, method) = parse_method(alloc, id, &i[n..])?;
    Ok((n + used, method))
}

/// The ids and fields of a method, in order, and then nothing up to the most that a method of the class has.
fn method_fields(method: &AMQPMethod) -> [Field<'_>; 6]
    ensures { ListsMethod result (method_of method.now) }
{
    match method {
        AMQPMethod::Open(method) => open_fields(method),
        AMQPMethod::OpenOk(method) => open_ok_fields(method),
        AMQPMethod::Flow(method) => flow_fields(method),
        AMQPMethod::FlowOk(method) => flow_ok_fields(method),
        AMQPMethod::Close(method) => close_fields(method),
        AMQPMethod::CloseOk(method) => close_ok_fields(method),
    }
}

/// The size in bytes of the class id, the method id and the fields.
pub fn size_channel(method: &AMQPMethod) -> Result<u64, GenError>
    ensures { Measures result (payload_size (method_of method.now)) }
{
    size_fields(&method_fields(method))
}

/// Puts the class id, the method id and the fields at a place of a slice, and returns the place after.
pub fn put_channel(buf: &mut [u8], at: usize, method: &AMQPMethod) -> usize
    requires { HasRoom buf.old at (payload_size (method_of method.now))
        (payload_bytes (method_of method.now)) }
    ensures { Puts buf.old buf.new at (payload_bytes (method_of method.now)) result }
{
    put_fields(buf, at, &method_fields(method))
}

/// Appends the class id, the method id and the fields to a vector.
pub fn gen_channel(_alloc: Global, out: &mut Vec<u8>, method: &AMQPMethod) -> Result<(), GenError>
    ensures { Appends out.old.items out.new.items (payload_size (method_of method.now))
        (payload_bytes (method_of method.now)) result }
{
    gen_fields(out, &method_fields(method))
}

/// A method of the class is held, whatever a program does: the premise of the laws that read canonical bytes back.
pub fn channel_method_held(method: &AMQPMethod)
    ensures { IsHeldMethod (method_of method.now) }
{
    fields_held(&method_fields(method))
}
