//! The methods of the class basic, 60.
//! Its `parse_` calls return Incomplete, NotUtf8, UnknownTag, TooDeep and ShortPayload (inside a table), and NoMemory; `parse_basic` also UnknownMethod.

mod acknowledging;
mod consuming;
mod publishing;

ghost use Rattle.std.specs.Prelude.{◌≡◌, IfOk};
ghost use Rattle.amqp_types.specs.Calls.{Parses, Measures, HasRoom};
ghost use Rattle.amqp_types.specs.Writing.{Puts, Appends};
ghost use Rattle.amqp_types.specs.Methods.{judge_method, judge_in_class};
ghost use Rattle.amqp_types.specs.Methods.{payload_bytes, payload_size};
ghost use Rattle.amqp_laws.specs.HeldMethods.{IsHeldMethod};
ghost use Rattle.amqp_values.specs.MethodFields.{ListsMethod};
ghost use Rattle.amqp_basic.specs.Basic.{method_of};

pub use acknowledging::{
    Ack, Nack, Recover, RecoverAsync, RecoverOk, Reject, gen_ack, gen_nack, gen_recover,
    gen_recover_async, gen_recover_ok, gen_reject, parse_ack, parse_nack, parse_recover,
    parse_recover_async, parse_recover_ok, parse_reject, put_ack, put_nack, put_recover,
    put_recover_async, put_recover_ok, put_reject, size_ack, size_nack, size_recover,
    size_recover_async, size_recover_ok, size_reject,
};
use amqp_values::{
    Field, GenError, Identifier, NoMemory, ParserError, copied, gen_fields, put_fields, size_fields,
};
pub use consuming::{
    Cancel, CancelOk, Consume, ConsumeOk, Qos, QosOk, gen_cancel, gen_cancel_ok, gen_consume,
    gen_consume_ok, gen_qos, gen_qos_ok, parse_cancel, parse_cancel_ok, parse_consume,
    parse_consume_ok, parse_qos, parse_qos_ok, put_cancel, put_cancel_ok, put_consume,
    put_consume_ok, put_qos, put_qos_ok, size_cancel, size_cancel_ok, size_consume,
    size_consume_ok, size_qos, size_qos_ok,
};
pub use publishing::{
    Deliver, Get, GetEmpty, GetOk, Publish, Return, gen_deliver, gen_get, gen_get_empty,
    gen_get_ok, gen_publish, gen_return, parse_deliver, parse_get, parse_get_empty, parse_get_ok,
    parse_publish, parse_return, put_deliver, put_get, put_get_empty, put_get_ok, put_publish,
    put_return, size_deliver, size_get, size_get_empty, size_get_ok, size_publish, size_return,
};
use std::alloc::Global;

/// A method of the class.
#[derive(Debug, Drop, PartialEq)]
pub enum AMQPMethod {
    /// The client limits how many messages it is sent ahead.
    Qos(Qos),

    /// The limit holds.
    QosOk(QosOk),

    /// The client starts to consume from a queue.
    Consume(Consume),

    /// The consumer is known by this tag.
    ConsumeOk(ConsumeOk),

    /// A peer ends a consumer.
    Cancel(Cancel),

    /// The consumer has ended.
    CancelOk(CancelOk),

    /// The client publishes the message that follows.
    Publish(Publish),

    /// The server hands back the message that follows, which it could not deliver.
    Return(Return),

    /// The server sends the message that follows to a consumer.
    Deliver(Deliver),

    /// The client asks a queue for one message.
    Get(Get),

    /// The server sends the message that follows, which was asked for.
    GetOk(GetOk),

    /// The queue has no message.
    GetEmpty(GetEmpty),

    /// A peer acknowledges messages.
    Ack(Ack),

    /// The client rejects a message.
    Reject(Reject),

    /// The client asks for all messages again that it has not acknowledged, and expects no reply.
    RecoverAsync(RecoverAsync),

    /// The client asks for all messages again that it has not acknowledged.
    Recover(Recover),

    /// The messages will be sent again.
    RecoverOk(RecoverOk),

    /// A peer rejects messages.
    Nack(Nack),
}

impl AMQPMethod {
    /// The id of the class.
    pub fn get_amqp_class_id(&self) -> Identifier
        ensures { result ≡ 60 }
    {
        60
    }

    /// The id of the method in its class.
    pub fn get_amqp_method_id(&self) -> Identifier
        ensures { result ≡ (method_of self.now).id }
    {
        match self {
            AMQPMethod::Qos(_) => 10,
            AMQPMethod::QosOk(_) => 11,
            AMQPMethod::Consume(_) => 20,
            AMQPMethod::ConsumeOk(_) => 21,
            AMQPMethod::Cancel(_) => 30,
            AMQPMethod::CancelOk(_) => 31,
            AMQPMethod::Publish(_) => 40,
            AMQPMethod::Return(_) => 50,
            AMQPMethod::Deliver(_) => 60,
            AMQPMethod::Get(_) => 70,
            AMQPMethod::GetOk(_) => 71,
            AMQPMethod::GetEmpty(_) => 72,
            AMQPMethod::Ack(_) => 80,
            AMQPMethod::Reject(_) => 90,
            AMQPMethod::RecoverAsync(_) => 100,
            AMQPMethod::Recover(_) => 110,
            AMQPMethod::RecoverOk(_) => 111,
            AMQPMethod::Nack(_) => 120,
        }
    }

    /// A deep copy.
    pub fn copy(&self, alloc: Global) -> Result<AMQPMethod, NoMemory>
        ensures { IfOk result (λ copied. copied ≡ self.now) }
    {
        match self {
            AMQPMethod::Qos(method) => copied!(method.clone(), AMQPMethod::Qos),
            AMQPMethod::QosOk(method) => copied!(method.clone(), AMQPMethod::QosOk),
            AMQPMethod::Consume(method) => copied!(method.copy(alloc), AMQPMethod::Consume),
            AMQPMethod::ConsumeOk(method) => copied!(method.copy(alloc), AMQPMethod::ConsumeOk),
            AMQPMethod::Cancel(method) => copied!(method.copy(alloc), AMQPMethod::Cancel),
            AMQPMethod::CancelOk(method) => copied!(method.copy(alloc), AMQPMethod::CancelOk),
            AMQPMethod::Publish(method) => copied!(method.copy(alloc), AMQPMethod::Publish),
            AMQPMethod::Return(method) => copied!(method.copy(alloc), AMQPMethod::Return),
            AMQPMethod::Deliver(method) => copied!(method.copy(alloc), AMQPMethod::Deliver),
            AMQPMethod::Get(method) => copied!(method.copy(alloc), AMQPMethod::Get),
            AMQPMethod::GetOk(method) => copied!(method.copy(alloc), AMQPMethod::GetOk),
            AMQPMethod::GetEmpty(method) => copied!(method.clone(), AMQPMethod::GetEmpty),
            AMQPMethod::Ack(method) => copied!(method.clone(), AMQPMethod::Ack),
            AMQPMethod::Reject(method) => copied!(method.clone(), AMQPMethod::Reject),
            AMQPMethod::RecoverAsync(method) => copied!(method.clone(), AMQPMethod::RecoverAsync),
            AMQPMethod::Recover(method) => copied!(method.clone(), AMQPMethod::Recover),
            AMQPMethod::RecoverOk(method) => copied!(method.clone(), AMQPMethod::RecoverOk),
            AMQPMethod::Nack(method) => copied!(method.clone(), AMQPMethod::Nack),
        }
    }
}

/// Decodes the fields of the method with this id.
#[tactic(auto, using(amqp_types::proofs::Judged::refuses_next), unfolding(amqp_types::specs::Rows::rows_of, amqp_types::specs::Rows::slots_at, amqp_types::specs::Methods::judge_method))]
fn parse_method(alloc: Global, id: Identifier, i: &[u8]) -> Result<(usize, AMQPMethod), ParserError>
    ensures { Parses method_of result i.now (judge_method 60 id) }
{
    match id {
        10 => amqp_values::in_variant!(parse_qos(alloc, i), AMQPMethod::Qos),
        11 => amqp_values::in_variant!(parse_qos_ok(alloc, i), AMQPMethod::QosOk),
        20 => amqp_values::in_variant!(parse_consume(alloc, i), AMQPMethod::Consume),
        21 => amqp_values::in_variant!(parse_consume_ok(alloc, i), AMQPMethod::ConsumeOk),
        30 => amqp_values::in_variant!(parse_cancel(alloc, i), AMQPMethod::Cancel),
        31 => amqp_values::in_variant!(parse_cancel_ok(alloc, i), AMQPMethod::CancelOk),
        40 => amqp_values::in_variant!(parse_publish(alloc, i), AMQPMethod::Publish),
        50 => amqp_values::in_variant!(parse_return(alloc, i), AMQPMethod::Return),
        60 => amqp_values::in_variant!(parse_deliver(alloc, i), AMQPMethod::Deliver),
        70 => amqp_values::in_variant!(parse_get(alloc, i), AMQPMethod::Get),
        71 => amqp_values::in_variant!(parse_get_ok(alloc, i), AMQPMethod::GetOk),
        72 => amqp_values::in_variant!(parse_get_empty(alloc, i), AMQPMethod::GetEmpty),
        80 => amqp_values::in_variant!(parse_ack(alloc, i), AMQPMethod::Ack),
        90 => amqp_values::in_variant!(parse_reject(alloc, i), AMQPMethod::Reject),
        100 => amqp_values::in_variant!(parse_recover_async(alloc, i), AMQPMethod::RecoverAsync),
        110 => amqp_values::in_variant!(parse_recover(alloc, i), AMQPMethod::Recover),
        111 => amqp_values::in_variant!(parse_recover_ok(alloc, i), AMQPMethod::RecoverOk),
        120 => amqp_values::in_variant!(parse_nack(alloc, i), AMQPMethod::Nack),
        _ => Err(ParserError::UnknownMethod),
    }
}

/// Decodes a method id and the fields of that method.
#[tactic(auto, using(amqp_types::proofs::Judged::refuses_next), unfolding(amqp_types::specs::Rows::rows_of, amqp_types::specs::Methods::judge_in_class))]
pub fn parse_basic(alloc: Global, i: &[u8]) -> Result<(usize, AMQPMethod), ParserError>
    ensures { Parses method_of result i.now (judge_in_class 60) }
{
    let (n, id) = amqp_values::parse_id(i)?;
    let (used, method) = parse_method(alloc, id, &i[n..])?;
    Ok((n + used, method))
}

/// The ids and fields of a method, in order, and then nothing up to the most that a method of the class has.
fn method_fields(method: &AMQPMethod) -> [Field<'_>; 7]
    ensures { ListsMethod result (method_of method.now) }
{
    match method {
        AMQPMethod::Qos(method) => consuming::qos_fields(method),
        AMQPMethod::QosOk(method) => consuming::qos_ok_fields(method),
        AMQPMethod::Consume(method) => consuming::consume_fields(method),
        AMQPMethod::ConsumeOk(method) => consuming::consume_ok_fields(method),
        AMQPMethod::Cancel(method) => consuming::cancel_fields(method),
        AMQPMethod::CancelOk(method) => consuming::cancel_ok_fields(method),
        AMQPMethod::Publish(method) => {
            let [first, second, third, fourth, fifth, sixth] = publishing::publish_fields(method);
            [first, second, third, fourth, fifth, sixth, Field::Nothing]
        }
        AMQPMethod::Return(method) => publishing::return_fields(method),
        AMQPMethod::Deliver(method) => publishing::deliver_fields(method),
        AMQPMethod::Get(method) => publishing::get_fields(method),
        AMQPMethod::GetOk(method) => publishing::get_ok_fields(method),
        AMQPMethod::GetEmpty(method) => publishing::get_empty_fields(method),
        AMQPMethod::Ack(method) => {
            let [first, second, third, fourth] = acknowledging::ack_fields(method);
            [
                first,
                second,
                third,
                fourth,
                Field::Nothing,
                Field::Nothing,
                Field::Nothing,
            ]
        }
        AMQPMethod::Reject(method) => acknowledging::reject_fields(method),
        AMQPMethod::RecoverAsync(method) => acknowledging::recover_async_fields(method),
        AMQPMethod::Recover(method) => acknowledging::recover_fields(method),
        AMQPMethod::RecoverOk(method) => acknowledging::recover_ok_fields(method),
        AMQPMethod::Nack(method) => acknowledging::nack_fields(method),
    }
}

/// The size in bytes of the ids and fields of any method. Apart from the methods that most frames have, since a call clears
/// room for the fields of each method that it names.
#[inline(never)]
fn size_any(method: &AMQPMethod) -> Result<u64, GenError>
    ensures { Measures result (payload_size (method_of method.now)) }
{
    size_fields(&method_fields(method))
}

/// The size in bytes of the class id, the method id and the fields.
pub fn size_basic(method: &AMQPMethod) -> Result<u64, GenError>
    ensures { Measures result (payload_size (method_of method.now)) }
{
    match method {
        AMQPMethod::Publish(publish) => size_fields(&publishing::publish_fields(publish)),
        AMQPMethod::Deliver(deliver) => size_fields(&publishing::deliver_fields(deliver)),
        AMQPMethod::Ack(ack) => size_fields(&acknowledging::ack_fields(ack)),
        _ => size_any(method),
    }
}

/// Puts the ids and fields of any method, apart for the same reason.
#[inline(never)]
fn put_any(buf: &mut [u8], at: usize, method: &AMQPMethod) -> usize
    requires { HasRoom buf.old at (payload_size (method_of method.now))
        (payload_bytes (method_of method.now)) }
    ensures { Puts buf.old buf.new at (payload_bytes (method_of method.now)) result }
{
    put_fields(buf, at, &method_fields(method))
}

/// Puts the class id, the method id and the fields at a place of a slice, and returns the place after.
pub fn put_basic(buf: &mut [u8], at: usize, method: &AMQPMethod) -> usize
    requires { HasRoom buf.old at (payload_size (method_of method.now))
        (payload_bytes (method_of method.now)) }
    ensures { Puts buf.old buf.new at (payload_bytes (method_of method.now)) result }
{
    match method {
        AMQPMethod::Publish(publish) => put_fields(buf, at, &publishing::publish_fields(publish)),
        AMQPMethod::Deliver(deliver) => put_fields(buf, at, &publishing::deliver_fields(deliver)),
        AMQPMethod::Ack(ack) => put_fields(buf, at, &acknowledging::ack_fields(ack)),
        _ => put_any(buf, at, method),
    }
}

/// Appends the class id, the method id and the fields to a vector.
pub fn gen_basic(_alloc: Global, out: &mut Vec<u8>, method: &AMQPMethod) -> Result<(), GenError>
    ensures { Appends out.old.items out.new.items (payload_size (method_of method.now))
        (payload_bytes (method_of method.now)) result }
{
    gen_fields(out, &method_fields(method))
}

/// A method of the class is held, whatever a program does: the premise of the laws that read canonical bytes back.
pub fn basic_method_held(method: &AMQPMethod)
    ensures { IsHeldMethod (method_of method.now) }
{
    amqp_values::fields_held(&method_fields(method))
}
