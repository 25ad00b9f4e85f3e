//! The methods of the class connection, 10.
//! Its `parse_` calls return Incomplete, NotUtf8, UnknownTag, TooDeep and ShortPayload (inside a table), and NoMemory; `parse_connection` also UnknownMethod.

mod negotiating;
mod opening;

ghost use Rattle.std.specs.Prelude.{◌≡◌, IfOk};
ghost use Rattle.amqp_types.specs.Calls.{Parses, Measures, HasRoom};
ghost use Rattle.amqp_types.specs.Writing.{Puts, Appends};
ghost use Rattle.amqp_types.specs.Methods.{judge_method, judge_in_class};
ghost use Rattle.amqp_types.specs.Methods.{payload_bytes, payload_size};
ghost use Rattle.amqp_laws.specs.HeldMethods.{IsHeldMethod};
ghost use Rattle.amqp_values.specs.MethodFields.{ListsMethod};
ghost use Rattle.amqp_connection.specs.Connection.{method_of};

use amqp_values::{
    Field, GenError, Identifier, NoMemory, ParserError, copied, fields_held, gen_fields,
    in_variant, parse_id, put_fields, size_fields,
};
pub use negotiating::{
    Secure, SecureOk, Start, StartOk, Tune, TuneOk, gen_secure, gen_secure_ok, gen_start,
    gen_start_ok, gen_tune, gen_tune_ok, parse_secure, parse_secure_ok, parse_start,
    parse_start_ok, parse_tune, parse_tune_ok, put_secure, put_secure_ok, put_start, put_start_ok,
    put_tune, put_tune_ok, size_secure, size_secure_ok, size_start, size_start_ok, size_tune,
    size_tune_ok,
};
pub use opening::{
    Blocked, Close, CloseOk, Open, OpenOk, Unblocked, UpdateSecret, UpdateSecretOk, gen_blocked,
    gen_close, gen_close_ok, gen_open, gen_open_ok, gen_unblocked, gen_update_secret,
    gen_update_secret_ok, parse_blocked, parse_close, parse_close_ok, parse_open, parse_open_ok,
    parse_unblocked, parse_update_secret, parse_update_secret_ok, put_blocked, put_close,
    put_close_ok, put_open, put_open_ok, put_unblocked, put_update_secret, put_update_secret_ok,
    size_blocked, size_close, size_close_ok, size_open, size_open_ok, size_unblocked,
    size_update_secret, size_update_secret_ok,
};
use std::alloc::Global;

/// A method of the class.
#[derive(Debug, Drop, PartialEq)]
pub enum AMQPMethod {
    /// The server begins a connection, and says what it can do.
    Start(Start),

    /// The client chooses how it proves who it is.
    StartOk(StartOk),

    /// The server asks the client for more proof of who it is.
    Secure(Secure),

    /// The client responds to the challenge of the server.
    SecureOk(SecureOk),

    /// The server proposes limits for the connection.
    Tune(Tune),

    /// The client settles the limits.
    TuneOk(TuneOk),

    /// The client opens the connection to a virtual host.
    Open(Open),

    /// The connection is open.
    OpenOk(OpenOk),

    /// A peer closes the connection, and says why.
    Close(Close),

    /// The other peer has heard that the connection is closed.
    CloseOk(CloseOk),

    /// The server takes no messages for now.
    Blocked(Blocked),

    /// The server takes messages again.
    Unblocked(Unblocked),

    /// The client renews the secret that it proved itself by.
    UpdateSecret(UpdateSecret),

    /// The new secret is taken.
    UpdateSecretOk(UpdateSecretOk),
}

impl AMQPMethod {
    /// The id of the class.
    pub fn get_amqp_class_id(&self) -> Identifier
        ensures { result ≡ 10 }
    {
        10
    }

    /// The id of the method in its class.
    pub fn get_amqp_method_id(&self) -> Identifier
        ensures { result ≡ (method_of self.now).id }
    {
        match self {
            AMQPMethod::Start(_) => 10,
            AMQPMethod::StartOk(_) => 11,
            AMQPMethod::Secure(_) => 20,
            AMQPMethod::SecureOk(_) => 21,
            AMQPMethod::Tune(_) => 30,
            AMQPMethod::TuneOk(_) => 31,
            AMQPMethod::Open(_) => 40,
            AMQPMethod::OpenOk(_) => 41,
            AMQPMethod::Close(_) => 50,
            AMQPMethod::CloseOk(_) => 51,
            AMQPMethod::Blocked(_) => 60,
            AMQPMethod::Unblocked(_) => 61,
            AMQPMethod::UpdateSecret(_) => 70,
            AMQPMethod::UpdateSecretOk(_) => 71,
        }
    }

    /// A deep copy.
    pub fn copy(&self, alloc: Global) -> Result<AMQPMethod, NoMemory>
        ensures { IfOk result (λ copied. copied ≡ self.now) }
    {
        match self {
            AMQPMethod::Start(method) => copied!(method.copy(alloc), AMQPMethod::Start),
            AMQPMethod::StartOk(method) => copied!(method.copy(alloc), AMQPMethod::StartOk),
            AMQPMethod::Secure(method) => copied!(method.copy(alloc), AMQPMethod::Secure),
            AMQPMethod::SecureOk(method) => copied!(method.copy(alloc), AMQPMethod::SecureOk),
            AMQPMethod::Tune(method) => copied!(method.clone(), AMQPMethod::Tune),
            AMQPMethod::TuneOk(method) => copied!(method.clone(), AMQPMethod::TuneOk),
            AMQPMethod::Open(method) => copied!(method.copy(alloc), AMQPMethod::Open),
            AMQPMethod::OpenOk(method) => copied!(method.clone(), AMQPMethod::OpenOk),
            AMQPMethod::Close(method) => copied!(method.copy(alloc), AMQPMethod::Close),
            AMQPMethod::CloseOk(method) => copied!(method.clone(), AMQPMethod::CloseOk),
            AMQPMethod::Blocked(method) => copied!(method.copy(alloc), AMQPMethod::Blocked),
            AMQPMethod::Unblocked(method) => copied!(method.clone(), AMQPMethod::Unblocked),
            AMQPMethod::UpdateSecret(method) => copied!(
                method.copy(alloc),
                AMQPMethod::UpdateSecret
            ),
            AMQPMethod::UpdateSecretOk(method) => copied!(
                method.clone(),
                AMQPMethod::UpdateSecretOk
            ),
        }
    }
}

/// Decodes the fields of the method with this id.
#[tactic(auto, using(amqp_types::proofs::Judged::refuses_next), unfolding(amqp_types::specs::Rows::rows_of, amqp_types::specs::Rows::slots_at, amqp_types::specs::Methods::judge_method))]
fn parse_method(alloc: Global, id: Identifier, i: &[u8]) -> Result<(usize, AMQPMethod), ParserError>
    ensures { Parses method_of result i.now (judge_method 10 id) }
{
    match id {
        10 => in_variant!(parse_start(alloc, i), AMQPMethod::Start),
        11 => in_variant!(parse_start_ok(alloc, i), AMQPMethod::StartOk),
        20 => in_variant!(parse_secure(alloc, i), AMQPMethod::Secure),
        21 => in_variant!(parse_secure_ok(alloc, i), AMQPMethod::SecureOk),
        30 => in_variant!(parse_tune(alloc, i), AMQPMethod::Tune),
        31 => in_variant!(parse_tune_ok(alloc, i), AMQPMethod::TuneOk),
        40 => in_variant!(parse_open(alloc, i), AMQPMethod::Open),
        41 => in_variant!(parse_open_ok(alloc, i), AMQPMethod::OpenOk),
        50 => in_variant!(parse_close(alloc, i), AMQPMethod::Close),
        51 => in_variant!(parse_close_ok(alloc, i), AMQPMethod::CloseOk),
        60 => in_variant!(parse_blocked(alloc, i), AMQPMethod::Blocked),
        61 => in_variant!(parse_unblocked(alloc, i), AMQPMethod::Unblocked),
        70 => in_variant!(parse_update_secret(alloc, i), AMQPMethod::UpdateSecret),
        71 => in_variant!(parse_update_secret_ok(alloc, i), AMQPMethod::UpdateSecretOk),
        _ => Err(ParserError::UnknownMethod),
    }
}

/// Decodes a method id and the fields of that method.
#[tactic(auto, using(amqp_types::proofs::Judged::refuses_next), unfolding(amqp_types::specs::Rows::rows_of, amqp_types::specs::Methods::judge_in_class))]
pub fn parse_connection(alloc: Global, i: &[u8]) -> Result<(usize, AMQPMethod), ParserError>
    ensures { Parses method_of result i.now (judge_in_class 10) }
{
    let (n, id) = parse_id(i)?;
    let (used, method) = parse_method(alloc, id, &i[n..])?;
    Ok((n + used, method))
}

/// The ids and fields of a method, in order, and then nothing up to the most that a method of the class has.
fn method_fields(method: &AMQPMethod) -> [Field<'_>; 7]
    ensures { ListsMethod result (method_of method.now) }
{
    match method {
        AMQPMethod::Start(method) => negotiating::start_fields(method),
        AMQPMethod::StartOk(method) => negotiating::start_ok_fields(method),
        AMQPMethod::Secure(method) => negotiating::secure_fields(method),
        AMQPMethod::SecureOk(method) => negotiating::secure_ok_fields(method),
        AMQPMethod::Tune(method) => negotiating::tune_fields(method),
        AMQPMethod::TuneOk(method) => negotiating::tune_ok_fields(method),
        AMQPMethod::Open(method) => opening::open_fields(method),
        AMQPMethod::OpenOk(method) => opening::open_ok_fields(method),
        AMQPMethod::Close(method) => opening::close_fields(method),
        AMQPMethod::CloseOk(method) => opening::close_ok_fields(method),
        AMQPMethod::Blocked(method) => opening::blocked_fields(method),
        AMQPMethod::Unblocked(method) => opening::unblocked_fields(method),
        AMQPMethod::UpdateSecret(method) => opening::update_secret_fields(method),
        AMQPMethod::UpdateSecretOk(method) => opening::update_secret_ok_fields(method),
    }
}

/// The size in bytes of the class id, the method id and the fields.
pub fn size_connection(method: &AMQPMethod) -> Result<u64, GenError>
    ensures { Measures result (payload_size (method_of method.now)) }
{
    size_fields(&method_fields(method))
}

/// Puts the class id, the method id and the fields at a place of a slice, and returns the place after.
pub fn put_connection(buf: &mut [u8], at: usize, method: &AMQPMethod) -> usize
    requires { HasRoom buf.old at (payload_size (method_of method.now))
        (payload_bytes (method_of method.now)) }
    ensures { Puts buf.old buf.new at (payload_bytes (method_of method.now)) result }
{
    put_fields(buf, at, &method_fields(method))
}

/// Appends the class id, the method id and the fields to a vector.
pub fn gen_connection(
    _alloc: Global,
    out: &mut Vec<u8>,
    method: &AMQPMethod,
) -> Result<(), GenError>
    ensures { Appends out.old.items out.new.items (payload_size (method_of method.now))
        (payload_bytes (method_of method.now)) result }
{
    gen_fields(out, &method_fields(method))
}

/// A method of the class is held, whatever a program does: the premise of the laws that read canonical bytes back.
pub fn connection_method_held(method: &AMQPMethod)
    ensures { IsHeldMethod (method_of method.now) }
{
    fields_held(&method_fields(method))
}
