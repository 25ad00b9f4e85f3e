//! The methods of the class exchange, 40.
//! Its `parse_` calls return Incomplete, NotUtf8, UnknownTag, TooDeep and ShortPayload (inside a table), and NoMemory; `parse_exchange` also UnknownMethod.

mod binding;
mod declaring;

ghost use Rattle.std.specs.Prelude.{◌≡◌, IfOk};
ghost use Rattle.amqp_types.specs.Calls.{Parses, Measures, HasRoom};
ghost use Rattle.amqp_types.specs.Writing.{Puts, Appends};
ghost use Rattle.amqp_types.specs.Methods.{judge_method, judge_in_class};
ghost use Rattle.amqp_types.specs.Methods.{payload_bytes, payload_size};
ghost use Rattle.amqp_laws.specs.HeldMethods.{IsHeldMethod};
ghost use Rattle.amqp_values.specs.MethodFields.{ListsMethod};
ghost use Rattle.amqp_exchange.specs.Exchange.{method_of};

use amqp_values::{
    Field, GenError, Identifier, NoMemory, ParserError, copied, fields_held, gen_fields,
    in_variant, parse_id, put_fields, size_fields,
};
pub use binding::{
    Bind, BindOk, Unbind, UnbindOk, gen_bind, gen_bind_ok, gen_unbind, gen_unbind_ok, parse_bind,
    parse_bind_ok, parse_unbind, parse_unbind_ok, put_bind, put_bind_ok, put_unbind, put_unbind_ok,
    size_bind, size_bind_ok, size_unbind, size_unbind_ok,
};
pub use declaring::{
    Declare, DeclareOk, Delete, DeleteOk, gen_declare, gen_declare_ok, gen_delete, gen_delete_ok,
    parse_declare, parse_declare_ok, parse_delete, parse_delete_ok, put_declare, put_declare_ok,
    put_delete, put_delete_ok, size_declare, size_declare_ok, size_delete, size_delete_ok,
};
use std::alloc::Global;

/// A method of the class.
#[derive(Debug, Drop, PartialEq)]
pub enum AMQPMethod {
    /// The client declares an exchange.
    Declare(Declare),

    /// The exchange is there.
    DeclareOk(DeclareOk),

    /// The client deletes an exchange.
    Delete(Delete),

    /// The exchange is deleted.
    DeleteOk(DeleteOk),

    /// The client binds an exchange to another one.
    Bind(Bind),

    /// The exchange is bound.
    BindOk(BindOk),

    /// The client unbinds an exchange from another one.
    Unbind(Unbind),

    /// The exchange is unbound.
    UnbindOk(UnbindOk),
}

impl AMQPMethod {
    /// The id of the class.
    pub fn get_amqp_class_id(&self) -> Identifier
        ensures { result ≡ 40 }
    {
        40
    }

    /// The id of the method in its class.
    pub fn get_amqp_method_id(&self) -> Identifier
        ensures { result ≡ (method_of self.now).id }
    {
        match self {
            AMQPMethod::Declare(_) => 10,
            AMQPMethod::DeclareOk(_) => 11,
            AMQPMethod::Delete(_) => 20,
            AMQPMethod::DeleteOk(_) => 21,
            AMQPMethod::Bind(_) => 30,
            AMQPMethod::BindOk(_) => 31,
            AMQPMethod::Unbind(_) => 40,
            AMQPMethod::UnbindOk(_) => 51,
        }
    }

    /// A deep copy.
    pub fn copy(&self, alloc: Global) -> Result<AMQPMethod, NoMemory>
        ensures { IfOk result (λ copied. copied ≡ self.now) }
    {
        match self {
            AMQPMethod::Declare(method) => copied!(method.copy(alloc), AMQPMethod::Declare),
            AMQPMethod::DeclareOk(method) => copied!(method.clone(), AMQPMethod::DeclareOk),
            AMQPMethod::Delete(method) => copied!(method.copy(alloc), AMQPMethod::Delete),
            AMQPMethod::DeleteOk(method) => copied!(method.clone(), AMQPMethod::DeleteOk),
            AMQPMethod::Bind(method) => copied!(method.copy(alloc), AMQPMethod::Bind),
            AMQPMethod::BindOk(method) => copied!(method.clone(), AMQPMethod::BindOk),
            AMQPMethod::Unbind(method) => copied!(method.copy(alloc), AMQPMethod::Unbind),
            AMQPMethod::UnbindOk(method) => copied!(method.clone(), AMQPMethod::UnbindOk),
        }
    }
}

/// Decodes the fields of the method with this id.
#[tactic(auto, using(amqp_types::proofs::Judged::refuses_next), unfolding(amqp_types::specs::Rows::rows_of, amqp_types::specs::Rows::slots_at, amqp_types::specs::Methods::judge_method))]
fn parse_method(alloc: Global, id: Identifier, i: &[u8]) -> Result<(usize, AMQPMethod), ParserError>
    ensures { Parses method_of result i.now (judge_method 40 id) }
{
    match id {
        10 => in_variant!(parse_declare(alloc, i), AMQPMethod::Declare),
        11 => in_variant!(parse_declare_ok(alloc, i), AMQPMethod::DeclareOk),
        20 => in_variant!(parse_delete(alloc, i), AMQPMethod::Delete),
        21 => in_variant!(parse_delete_ok(alloc, i), AMQPMethod::DeleteOk),
        30 => in_variant!(parse_bind(alloc, i), AMQPMethod::Bind),
        31 => in_variant!(parse_bind_ok(alloc, i), AMQPMethod::BindOk),
        40 => in_variant!(parse_unbind(alloc, i), AMQPMethod::Unbind),
        51 => in_variant!(parse_unbind_ok(alloc, i), AMQPMethod::UnbindOk),
        _ => Err(ParserError::UnknownMethod),
    }
}

/// Decodes a method id and the fields of that method.
#[tactic(auto, using(amqp_types::proofs::Judged::refuses_next), unfolding(amqp_types::specs::Rows::rows_of, amqp_types::specs::Methods::judge_in_class))]
pub fn parse_exchange(alloc: Global, i: &[u8]) -> Result<(usize, AMQPMethod), ParserError>
    ensures { Parses method_of result i.now (judge_in_class 40) }
{
    let (n, id) = parse_id(i)?;
    let (used, method) = parse_method(alloc, id, &i[n..])?;
    Ok((n + used, method))
}

/// The ids and fields of a method, in order, and then nothing up to the most that a method of the class has.
fn method_fields(method: &AMQPMethod) -> [Field<'_>; 8]
    ensures { ListsMethod result (method_of method.now) }
{
    match method {
        AMQPMethod::Declare(method) => declaring::declare_fields(method),
        AMQPMethod::DeclareOk(method) => declaring::declare_ok_fields(method),
        AMQPMethod::Delete(method) => declaring::delete_fields(method),
        AMQPMethod::DeleteOk(method) => declaring::delete_ok_fields(method),
        AMQPMethod::Bind(method) => binding::bind_fields(method),
        AMQPMethod::BindOk(method) => binding::bind_ok_fields(method),
        AMQPMethod::Unbind(method) => binding::unbind_fields(method),
        AMQPMethod::UnbindOk(method) => binding::unbind_ok_fields(method),
    }
}

/// The size in bytes of the class id, the method id and the fields.
pub fn size_exchange(method: &AMQPMethod) -> Result<u64, GenError>
    ensures { Measures result (payload_size (method_of method.now)) }
{
    size_fields(&method_fields(method))
}

/// Puts the class id, the method id and the fields at a place of a slice, and returns the place after.
pub fn put_exchange(buf: &mut [u8], at: usize, method: &AMQPMethod) -> usize
    requires { HasRoom buf.old at (payload_size (method_of method.now))
        (payload_bytes (method_of method.now)) }
    ensures { Puts buf.old buf.new at (payload_bytes (method_of method.now)) result }
{
    put_fields(buf, at, &method_fields(method))
}

/// Appends the class id, the method id and the fields to a vector.
pub fn gen_exchange(_alloc: Global, out: &mut Vec<u8>, method: &AMQPMethod) -> Result<(), GenError>
    ensures { Appends out.old.items out.new.items (payload_size (method_of method.now))
        (payload_bytes (method_of method.now)) result }
{
    gen_fields(out, &method_fields(method))
}

/// A method of the class is held, whatever a program does: the premise of the laws that read canonical bytes back.
pub fn exchange_method_held(method: &AMQPMethod)
    ensures { IsHeldMethod (method_of method.now) }
{
    fields_held(&method_fields(method))
}
