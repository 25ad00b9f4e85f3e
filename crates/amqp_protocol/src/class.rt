//! Methods of all classes.

ghost use Rattle.std.specs.Prelude.{◌≡◌, IfOk};
ghost use Rattle.amqp_types.specs.Calls.{Parses, Measures, HasRoom};
ghost use Rattle.amqp_types.specs.Writing.{Puts, Appends};
ghost use Rattle.amqp_types.specs.Methods.{judge_in_class, judge_payload};
ghost use Rattle.amqp_types.specs.Methods.{payload_bytes, payload_size};
ghost use Rattle.amqp_protocol.specs.Classes.{class_name, method_of};

use amqp_basic::basic;
use amqp_channel::{channel, confirm, tx};
use amqp_connection::{access, connection};
use amqp_topology::{exchange, queue};
use amqp_types::{GenError, Identifier, NoMemory, ParserError, parse_id};
use amqp_values::{copied, in_variant};
use std::alloc::Global;

/// A method of any class.
#[derive(Debug, Drop, PartialEq)]
pub enum AMQPClass {
    /// The class that carries messages.
    Basic(basic::AMQPMethod),

    /// The class of connections.
    Connection(connection::AMQPMethod),

    /// The class of channels.
    Channel(channel::AMQPMethod),

    /// The class of access tickets.
    Access(access::AMQPMethod),

    /// The class of exchanges.
    Exchange(exchange::AMQPMethod),

    /// The class of queues.
    Queue(queue::AMQPMethod),

    /// The class of transactions.
    Tx(tx::AMQPMethod),

    /// The class by which a server confirms messages.
    Confirm(confirm::AMQPMethod),
}

impl AMQPClass {
    /// The id of the class.
    pub fn get_amqp_class_id(&self) -> Identifier
        ensures { result ≡ (method_of self.now).class }
    {
        match self {
            AMQPClass::Basic(method) => method.get_amqp_class_id(),
            AMQPClass::Connection(method) => method.get_amqp_class_id(),
            AMQPClass::Channel(method) => method.get_amqp_class_id(),
            AMQPClass::Access(method) => method.get_amqp_class_id(),
            AMQPClass::Exchange(method) => method.get_amqp_class_id(),
            AMQPClass::Queue(method) => method.get_amqp_class_id(),
            AMQPClass::Tx(method) => method.get_amqp_class_id(),
            AMQPClass::Confirm(method) => method.get_amqp_class_id(),
        }
    }

    /// The id of the method in its class.
    pub fn get_amqp_method_id(&self) -> Identifier
        ensures { result ≡ (method_of self.now).id }
    {
        match self {
            AMQPClass::Basic(method) => method.get_amqp_method_id(),
            AMQPClass::Connection(method) => method.get_amqp_method_id(),
            AMQPClass::Channel(method) => method.get_amqp_method_id(),
            AMQPClass::Access(method) => method.get_amqp_method_id(),
            AMQPClass::Exchange(method) => method.get_amqp_method_id(),
            AMQPClass::Queue(method) => method.get_amqp_method_id(),
            AMQPClass::Tx(method) => method.get_amqp_method_id(),
            AMQPClass::Confirm(method) => method.get_amqp_method_id(),
        }
    }

    /// The name of the class in the standard, in lower case: `basic`, `connection`.
    pub fn name(&self) -> &'static str
        ensures { result.now ≡ class_name self.now }
    {
        match self {
            AMQPClass::Basic(_) => "basic",
            AMQPClass::Connection(_) => "connection",
            AMQPClass::Channel(_) => "channel",
            AMQPClass::Access(_) => "access",
            AMQPClass::Exchange(_) => "exchange",
            AMQPClass::Queue(_) => "queue",
            AMQPClass::Tx(_) => "tx",
            AMQPClass::Confirm(_) => "confirm",
        }
    }

    /// A deep copy.
    pub fn copy(&self, alloc: Global) -> Result<AMQPClass, NoMemory>
        ensures { IfOk result (λ copied. copied ≡ self.now) }
    {
        match self {
            AMQPClass::Basic(method) => copied!(method.copy(alloc), AMQPClass::Basic),
            AMQPClass::Connection(method) => copied!(method.copy(alloc), AMQPClass::Connection),
            AMQPClass::Channel(method) => copied!(method.copy(alloc), AMQPClass::Channel),
            AMQPClass::Access(method) => copied!(method.copy(alloc), AMQPClass::Access),
            AMQPClass::Exchange(method) => copied!(method.copy(alloc), AMQPClass::Exchange),
            AMQPClass::Queue(method) => copied!(method.copy(alloc), AMQPClass::Queue),
            AMQPClass::Tx(method) => copied!(method.copy(alloc), AMQPClass::Tx),
            AMQPClass::Confirm(method) => copied!(method.copy(alloc), AMQPClass::Confirm),
        }
    }
}

/// Decodes a method id, and the fields of that method of the class.
#[tactic(auto, using(amqp_types::proofs::Judged::refuses_next), unfolding(amqp_types::specs::Methods::judge_in_class, amqp_types::specs::Rows::rows_of))]
fn parse_in_class(
    alloc: Global,
    class: Identifier,
    i: &[u8],
) -> Result<(usize, AMQPClass), ParserError>
    ensures { Parses method_of result i.now (judge_in_class class) }
{
    match class {
        60 => in_variant!(basic::parse_basic(alloc, i), AMQPClass::Basic),
        10 => in_variant!(
            connection::parse_connection(alloc, i),
            AMQPClass::Connection
        ),
        20 => in_variant!(channel::parse_channel(alloc, i), AMQPClass::Channel),
        30 => in_variant!(access::parse_access(alloc, i), AMQPClass::Access),
        40 => in_variant!(exchange::parse_exchange(alloc, i), AMQPClass::Exchange),
        50 => in_variant!(queue::parse_queue(alloc, i), AMQPClass::Queue),
        90 => in_variant!(tx::parse_tx(alloc, i), AMQPClass::Tx),
        85 => in_variant!(confirm::parse_confirm(alloc, i), AMQPClass::Confirm),
        _ => Err(ParserError::UnknownClass),
    }
}

/// Decodes a class id, a method id, and the fields of that method. Later bytes stay unread.
#[tactic(auto, using(amqp_types::proofs::Judged::refuses_next), unfolding(amqp_types::specs::Methods::judge_payload))]
pub fn parse_class(alloc: Global, i: &[u8]) -> Result<(usize, AMQPClass), ParserError>
    ensures { Parses method_of result i.now judge_payload }
{
    let (n, class) = parse_id(i)?;
    let (used, method) = parse_in_class(alloc, class, &i[n..])?;
    Ok((n + used, method))
}

/// The number of bytes that the class id, the method id and the fields are written in.
pub fn size_class(class: &AMQPClass) -> Result<u64, GenError>
    ensures { Measures result (payload_size (method_of class.now)) }
{
    match class {
        AMQPClass::Basic(method) => basic::size_basic(method),
        AMQPClass::Connection(method) => connection::size_connection(method),
        AMQPClass::Channel(method) => channel::size_channel(method),
        AMQPClass::Access(method) => access::size_access(method),
        AMQPClass::Exchange(method) => exchange::size_exchange(method),
        AMQPClass::Queue(method) => queue::size_queue(method),
        AMQPClass::Tx(method) => tx::size_tx(method),
        AMQPClass::Confirm(method) => confirm::size_confirm(method),
    }
}

/// Puts the class id, the method id and the fields at a place of a slice, and returns the place after
/// them.
pub fn put_class(buf: &mut [u8], at: usize, class: &AMQPClass) -> usize
    requires { HasRoom buf.old at (payload_size (method_of class.now))
        (payload_bytes (method_of class.now)) }
    ensures { Puts buf.old buf.new at (payload_bytes (method_of class.now)) result }
{
    match class {
        AMQPClass::Basic(method) => basic::put_basic(buf, at, method),
        AMQPClass::Connection(method) => connection::put_connection(buf, at, method),
        AMQPClass::Channel(method) => channel::put_channel(buf, at, method),
        AMQPClass::Access(method) => access::put_access(buf, at, method),
        AMQPClass::Exchange(method) => exchange::put_exchange(buf, at, method),
        AMQPClass::Queue(method) => queue::put_queue(buf, at, method),
        AMQPClass::Tx(method) => tx::put_tx(buf, at, method),
        AMQPClass::Confirm(method) => confirm::put_confirm(buf, at, method),
    }
}

/// Appends the class id, the method id and the fields to a vector.
pub fn gen_class(alloc: Global, out: &mut Vec<u8>, class: &AMQPClass) -> Result<(), GenError>
    ensures { Appends out.old.items out.new.items (payload_size (method_of class.now))
        (payload_bytes (method_of class.now)) result }
{
    match class {
        AMQPClass::Basic(method) => basic::gen_basic(alloc, out, method),
        AMQPClass::Connection(method) => connection::gen_connection(alloc, out, method),
        AMQPClass::Channel(method) => channel::gen_channel(alloc, out, method),
        AMQPClass::Access(method) => access::gen_access(alloc, out, method),
        AMQPClass::Exchange(method) => exchange::gen_exchange(alloc, out, method),
        AMQPClass::Queue(method) => queue::gen_queue(alloc, out, method),
        AMQPClass::Tx(method) => tx::gen_tx(alloc, out, method),
        AMQPClass::Confirm(method) => confirm::gen_confirm(alloc, out, method),
    }
}
