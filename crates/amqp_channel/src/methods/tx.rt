//! The methods of the class tx, 90.
//! Its `parse_` calls do not fail; `parse_tx` returns Incomplete and UnknownMethod.

ghost use Rattle.std.specs.Prelude.{◌≡◌, IfOk};
ghost use Rattle.amqp_types.specs.Calls.{Parses, NeedsNoMemory, Measures, HasRoom};
ghost use Rattle.amqp_types.specs.Writing.{Puts, Appends};
ghost use Rattle.amqp_types.specs.Methods.{judge_method, judge_in_class, method_bytes};
ghost use Rattle.amqp_types.specs.Methods.{method_size, payload_bytes, payload_size};
ghost use Rattle.amqp_laws.specs.HeldMethods.{IsHeldMethod};
ghost use Rattle.amqp_values.specs.MethodFields.{ListsMethod};
ghost use Rattle.amqp_channel.specs.Tx.{select_method, select_ok_method, commit_method};
ghost use Rattle.amqp_channel.specs.Tx.{commit_ok_method, rollback_method};
ghost use Rattle.amqp_channel.specs.Tx.{rollback_ok_method, method_of};

use amqp_values::{
    Field, GenError, Identifier, NoMemory, ParserError, SlotReader, copied, fields_held,
    gen_fields, gen_method_fields, in_variant, parse_id, put_fields, put_method_fields,
    size_fields, size_method_fields,
};
use std::alloc::Global;

/// The client asks for transactions on the channel.
#[derive(Clone, Default, Debug, Drop, PartialEq)]
pub struct Select {}

impl Select {
    /// The id of the class.
    pub fn get_amqp_class_id(&self) -> Identifier
        ensures { result ≡ 90 }
    {
        90
    }

    /// The id of the method in its class.
    pub fn get_amqp_method_id(&self) -> Identifier
        ensures { result ≡ 10 }
    {
        10
    }
}

/// Decodes the fields of `Select`.
#[tactic(auto, using(amqp_types::proofs::Judged::refuses_next), unfolding(amqp_values::proofs::OneMethod::read_one_by_one))]
pub fn parse_select(_alloc: Global, i: &[u8]) -> Result<(usize, Select), ParserError>
    ensures parsed { Parses select_method result i.now (judge_method 90 10) }
    ensures memory { NeedsNoMemory result }
{
    let slots = SlotReader::new(i);
    Ok((slots.used(i), Select {}))
}

/// Its ids and fields, in order.
#[tactic(auto, unfolding(amqp_values::proofs::OneMethod::listed))]
fn select_fields(_method: &Select) -> [Field<'_>; 2]
    ensures { ListsMethod result (select_method _method.now) }
{
    [Field::ShortUInt(90), Field::ShortUInt(10)]
}

/// The size in bytes of the method id and the fields of `Select`.
pub fn size_select(method: &Select) -> Result<u64, GenError>
    ensures { Measures result (method_size (select_method method.now)) }
{
    size_method_fields(&select_fields(method))
}

/// Puts the method id and the fields of `Select` at a place of a slice, and returns the place after.
pub fn put_select(buf: &mut [u8], at: usize, method: &Select) -> usize
    requires { HasRoom buf.old at (method_size (select_method method.now))
        (method_bytes (select_method method.now)) }
    ensures { Puts buf.old buf.new at (method_bytes (select_method method.now)) result }
{
    put_method_fields(buf, at, &select_fields(method))
}

/// Appends the method id and the fields of `Select` to a vector.
pub fn gen_select(_alloc: Global, out: &mut Vec<u8>, method: &Select) -> Result<(), GenError>
    ensures { Appends out.old.items out.new.items (method_size (select_method method.now))
        (method_bytes (select_method method.now)) result }
{
    gen_method_fields(out, &select_fields(method))
}

/// The channel has transactions.
#[derive(Clone, Default, Debug, Drop, PartialEq)]
pub struct SelectOk {}

impl SelectOk {
    /// The id of the class.
    pub fn get_amqp_class_id(&self) -> Identifier
        ensures { result ≡ 90 }
    {
        90
    }

    /// The id of the method in its class.
    pub fn get_amqp_method_id(&self) -> Identifier
        ensures { result ≡ 11 }
    {
        11
    }
}

/// Decodes the fields of `SelectOk`.
#[tactic(auto, using(amqp_types::proofs::Judged::refuses_next), unfolding(amqp_values::proofs::OneMethod::read_one_by_one))]
pub fn parse_select_ok(_alloc: Global, i: &[u8]) -> Result<(usize, SelectOk), ParserError>
    ensures parsed { Parses select_ok_method result i.now (judge_method 90 11) }
    ensures memory { NeedsNoMemory result }
{
    let slots = SlotReader::new(i);
    Ok((slots.used(i), SelectOk {}))
}

/// Its ids and fields, in order.
#[tactic(auto, unfolding(amqp_values::proofs::OneMethod::listed))]
fn select_ok_fields(_method: &SelectOk) -> [Field<'_>; 2]
    ensures { ListsMethod result (select_ok_method _method.now) }
{
    [Field::ShortUInt(90), Field::ShortUInt(11)]
}

/// The size in bytes of the method id and the fields of `SelectOk`.
pub fn size_select_ok(method: &SelectOk) -> Result<u64, GenError>
    ensures { Measures result (method_size (select_ok_method method.now)) }
{
    size_method_fields(&select_ok_fields(method))
}

/// Puts the method id and the fields of `SelectOk` at a place of a slice, and returns the place after.
pub fn put_select_ok(buf: &mut [u8], at: usize, method: &SelectOk) -> usize
    requires { HasRoom buf.old at (method_size (select_ok_method method.now))
        (method_bytes (select_ok_method method.now)) }
    ensures { Puts buf.old buf.new at (method_bytes (select_ok_method method.now)) result }
{
    put_method_fields(buf, at, &select_ok_fields(method))
}

/// Appends the method id and the fields of `SelectOk` to a vector.
pub fn gen_select_ok(_alloc: Global, out: &mut Vec<u8>, method: &SelectOk) -> Result<(), GenError>
    ensures { Appends out.old.items out.new.items (method_size (select_ok_method method.now))
        (method_bytes (select_ok_method method.now)) result }
{
    gen_method_fields(out, &select_ok_fields(method))
}

/// The client commits the transaction.
#[derive(Clone, Default, Debug, Drop, PartialEq)]
pub struct Commit {}

impl Commit {
    /// The id of the class.
    pub fn get_amqp_class_id(&self) -> Identifier
        ensures { result ≡ 90 }
    {
        90
    }

    /// The id of the method in its class.
    pub fn get_amqp_method_id(&self) -> Identifier
        ensures { result ≡ 20 }
    {
        20
    }
}

/// Decodes the fields of `Commit`.
#[tactic(auto, using(amqp_types::proofs::Judged::refuses_next), unfolding(amqp_values::proofs::OneMethod::read_one_by_one))]
pub fn parse_commit(_alloc: Global, i: &[u8]) -> Result<(usize, Commit), ParserError>
    ensures parsed { Parses commit_method result i.now (judge_method 90 20) }
    ensures memory { NeedsNoMemory result }
{
    let slots = SlotReader::new(i);
    Ok((slots.used(i), Commit {}))
}

/// Its ids and fields, in order.
#[tactic(auto, unfolding(amqp_values::proofs::OneMethod::listed))]
fn commit_fields(_method: &Commit) -> [Field<'_>; 2]
    ensures { ListsMethod result (commit_method _method.now) }
{
    [Field::ShortUInt(90), Field::ShortUInt(20)]
}

/// The size in bytes of the method id and the fields of `Commit`.
pub fn size_commit(method: &Commit) -> Result<u64, GenError>
    ensures { Measures result (method_size (commit_method method.now)) }
{
    size_method_fields(&commit_fields(method))
}

/// Puts the method id and the fields of `Commit` at a place of a slice, and returns the place after.
pub fn put_commit(buf: &mut [u8], at: usize, method: &Commit) -> usize
    requires { HasRoom buf.old at (method_size (commit_method method.now))
        (method_bytes (commit_method method.now)) }
    ensures { Puts buf.old buf.new at (method_bytes (commit_method method.now)) result }
{
    put_method_fields(buf, at, &commit_fields(method))
}

/// Appends the method id and the fields of `Commit` to a vector.
pub fn gen_commit(_alloc: Global, out: &mut Vec<u8>, method: &Commit) -> Result<(), GenError>
    ensures { Appends out.old.items out.new.items (method_size (commit_method method.now))
        (method_bytes (commit_method method.now)) result }
{
    gen_method_fields(out, &commit_fields(method))
}

/// The transaction is committed.
#[derive(Clone, Default, Debug, Drop, PartialEq)]
pub struct CommitOk {}

impl CommitOk {
    /// The id of the class.
    pub fn get_amqp_class_id(&self) -> Identifier
        ensures { result ≡ 90 }
    {
        90
    }

    /// The id of the method in its class.
    pub fn get_amqp_method_id(&self) -> Identifier
        ensures { result ≡ 21 }
    {
        21
    }
}

/// Decodes the fields of `CommitOk`.
#[tactic(auto, using(amqp_types::proofs::Judged::refuses_next), unfolding(amqp_values::proofs::OneMethod::read_one_by_one))]
pub fn parse_commit_ok(_alloc: Global, i: &[u8]) -> Result<(usize, CommitOk), ParserError>
    ensures parsed { Parses commit_ok_method result i.now (judge_method 90 21) }
    ensures memory { NeedsNoMemory result }
{
    let slots = SlotReader::new(i);
    Ok((slots.used(i), CommitOk {}))
}

/// Its ids and fields, in order.
#[tactic(auto, unfolding(amqp_values::proofs::OneMethod::listed))]
fn commit_ok_fields(_method: &CommitOk) -> [Field<'_>; 2]
    ensures { ListsMethod result (commit_ok_method _method.now) }
{
    [Field::ShortUInt(90), Field::ShortUInt(21)]
}

/// The size in bytes of the method id and the fields of `CommitOk`.
pub fn size_commit_ok(method: &CommitOk) -> Result<u64, GenError>
    ensures { Measures result (method_size (commit_ok_method method.now)) }
{
    size_method_fields(&commit_ok_fields(method))
}

/// Puts the method id and the fields of `CommitOk` at a place of a slice, and returns the place after.
pub fn put_commit_ok(buf: &mut [u8], at: usize, method: &CommitOk) -> usize
    requires { HasRoom buf.old at (method_size (commit_ok_method method.now))
        (method_bytes (commit_ok_method method.now)) }
    ensures { Puts buf.old buf.new at (method_bytes (commit_ok_method method.now)) result }
{
    put_method_fields(buf, at, &commit_ok_fields(method))
}

/// Appends the method id and the fields of `CommitOk` to a vector.
pub fn gen_commit_ok(_alloc: Global, out: &mut Vec<u8>, method: &CommitOk) -> Result<(), GenError>
    ensures { Appends out.old.items out.new.items (method_size (commit_ok_method method.now))
        (method_bytes (commit_ok_method method.now)) result }
{
    gen_method_fields(out, &commit_ok_fields(method))
}

/// The client abandons the transaction.
#[derive(Clone, Default, Debug, Drop, PartialEq)]
pub struct Rollback {}

impl Rollback {
    /// The id of the class.
    pub fn get_amqp_class_id(&self) -> Identifier
        ensures { result ≡ 90 }
    {
        90
    }

    /// The id of the method in its class.
    pub fn get_amqp_method_id(&self) -> Identifier
        ensures { result ≡ 30 }
    {
        30
    }
}

/// Decodes the fields of `Rollback`.
#[tactic(auto, using(amqp_types::proofs::Judged::refuses_next), unfolding(amqp_values::proofs::OneMethod::read_one_by_one))]
pub fn parse_rollback(_alloc: Global, i: &[u8]) -> Result<(usize, Rollback), ParserError>
    ensures parsed { Parses rollback_method result i.now (judge_method 90 30) }
    ensures memory { NeedsNoMemory result }
{
    let slots = SlotReader::new(i);
    Ok((slots.used(i), Rollback {}))
}

/// Its ids and fields, in order.
#[tactic(auto, unfolding(amqp_values::proofs::OneMethod::listed))]
fn rollback_fields(_method: &Rollback) -> [Field<'_>; 2]
    ensures { ListsMethod result (rollback_method _method.now) }
{
    [Field::ShortUInt(90), Field::ShortUInt(30)]
}

/// The size in bytes of the method id and the fields of `Rollback`.
pub fn size_rollback(method: &Rollback) -> Result<u64, GenError>
    ensures { Measures result (method_size (rollback_method method.now)) }
{
    size_method_fields(&rollback_fields(method))
}

/// Puts the method id and the fields of `Rollback` at a place of a slice, and returns the place after.
pub fn put_rollback(buf: &mut [u8], at: usize, method: &Rollback) -> usize
    requires { HasRoom buf.old at (method_size (rollback_method method.now))
        (method_bytes (rollback_method method.now)) }
    ensures { Puts buf.old buf.new at (method_bytes (rollback_method method.now)) result }
{
    put_method_fields(buf, at, &rollback_fields(method))
}

/// Appends the method id and the fields of `Rollback` to a vector.
pub fn gen_rollback(_alloc: Global, out: &mut Vec<u8>, method: &Rollback) -> Result<(), GenError>
    ensures { Appends out.old.items out.new.items (method_size (rollback_method method.now))
        (method_bytes (rollback_method method.now)) result }
{
    gen_method_fields(out, &rollback_fields(method))
}

/// The transaction is abandoned.
#[derive(Clone, Default, Debug, Drop, PartialEq)]
pub struct RollbackOk {}

impl RollbackOk {
    /// The id of the class.
    pub fn get_amqp_class_id(&self) -> Identifier
        ensures { result ≡ 90 }
    {
        90
    }

    /// The id of the method in its class.
    pub fn get_amqp_method_id(&self) -> Identifier
        ensures { result ≡ 31 }
    {
        31
    }
}

/// Decodes the fields of `RollbackOk`.
#[tactic(auto, using(amqp_types::proofs::Judged::refuses_next), unfolding(amqp_values::proofs::OneMethod::read_one_by_one))]
pub fn parse_rollback_ok(_alloc: Global, i: &[u8]) -> Result<(usize, RollbackOk), ParserError>
    ensures parsed { Parses rollback_ok_method result i.now (judge_method 90 31) }
    ensures memory { NeedsNoMemory result }
{
    let slots = SlotReader::new(i);
    Ok((slots.used(i), RollbackOk {}))
}

/// Its ids and fields, in order.
#[tactic(auto, unfolding(amqp_values::proofs::OneMethod::listed))]
fn rollback_ok_fields(_method: &RollbackOk) -> [Field<'_>; 2]
    ensures { ListsMethod result (rollback_ok_method _method.now) }
{
    [Field::ShortUInt(90), Field::ShortUInt(31)]
}

/// The size in bytes of the method id and the fields of `RollbackOk`.
pub fn size_rollback_ok(method: &RollbackOk) -> Result<u64, GenError>
    ensures { Measures result (method_size (rollback_ok_method method.now)) }
{
    size_method_fields(&rollback_ok_fields(method))
}

/// Puts the method id and the fields of `RollbackOk` at a place of a slice, and returns the place after.
pub fn put_rollback_ok(buf: &mut [u8], at: usize, method: &RollbackOk) -> usize
    requires { HasRoom buf.old at (method_size (rollback_ok_method method.now))
        (method_bytes (rollback_ok_method method.now)) }
    ensures { Puts buf.old buf.new at (method_bytes (rollback_ok_method method.now)) result }
{
    put_method_fields(buf, at, &rollback_ok_fields(method))
}

/// Appends the method id and the fields of `RollbackOk` to a vector.
pub fn gen_rollback_ok(
    _alloc: Global,
    out: &mut Vec<u8>,
    method: &RollbackOk,
) -> Result<(), GenError>
    ensures { Appends out.old.items out.new.items (method_size (rollback_ok_method method.now))
        (method_bytes (rollback_ok_method method.now)) result }
{
    gen_method_fields(out, &rollback_ok_fields(method))
}

/// A method of the class.
#[derive(Debug, Drop, PartialEq)]
pub enum AMQPMethod {
    /// The client asks for transactions on the channel.
    Select(Select),

    /// The channel has transactions.
    SelectOk(SelectOk),

    /// The client commits the transaction.
    Commit(Commit),

    /// The transaction is committed.
    CommitOk(CommitOk),

    /// The client abandons the transaction.
    Rollback(Rollback),

    /// The transaction is abandoned.
    RollbackOk(RollbackOk),
}

impl AMQPMethod {
    /// The id of the class.
    pub fn get_amqp_class_id(&self) -> Identifier
        ensures { result ≡ 90 }
    {
        90
    }

    /// The id of the method in its class.
    pub fn get_amqp_method_id(&self) -> Identifier
        ensures { result ≡ (method_of self.now).id }
    {
        match self {
            AMQPMethod::Select(_) => 10,
            AMQPMethod::SelectOk(_) => 11,
            AMQPMethod::Commit(_) => 20,
            AMQPMethod::CommitOk(_) => 21,
            AMQPMethod::Rollback(_) => 30,
            AMQPMethod::RollbackOk(_) => 31,
        }
    }

    /// A deep copy.
    pub fn copy(&self, _alloc: Global) -> Result<AMQPMethod, NoMemory>
        ensures { IfOk result (λ copied. copied ≡ self.now) }
    {
        match self {
            AMQPMethod::Select(method) => copied!(method.clone(), AMQPMethod::Select),
            AMQPMethod::SelectOk(method) => copied!(method.clone(), AMQPMethod::SelectOk),
            AMQPMethod::Commit(method) => copied!(method.clone(), AMQPMethod::Commit),
            AMQPMethod::CommitOk(method) => copied!(method.clone(), AMQPMethod::CommitOk),
            AMQPMethod::Rollback(method) => copied!(method.clone(), AMQPMethod::Rollback),
            AMQPMethod::RollbackOk(method) => copied!(method.clone(), AMQPMethod::RollbackOk),
        }
    }
}

/// Decodes the fields of the method with this id.
#[tactic(auto, using(amqp_types::proofs::Judged::refuses_next), unfolding(amqp_types::specs::Rows::rows_of, amqp_types::specs::Rows::slots_at, amqp_types::specs::Methods::judge_method))]
fn parse_method(alloc: Global, id: Identifier, i: &[u8]) -> Result<(usize, AMQPMethod), ParserError>
    ensures parsed { Parses method_of result i.now (judge_method 90 id) }
    ensures memory { NeedsNoMemory result }
{
    match id {
        10 => in_variant!(parse_select(alloc, i), AMQPMethod::Select),
        11 => in_variant!(parse_select_ok(alloc, i), AMQPMethod::SelectOk),
        20 => in_variant!(parse_commit(alloc, i), AMQPMethod::Commit),
        21 => in_variant!(parse_commit_ok(alloc, i), AMQPMethod::CommitOk),
        30 => in_variant!(parse_rollback(alloc, i), AMQPMethod::Rollback),
        31 => in_variant!(parse_rollback_ok(alloc, i), AMQPMethod::RollbackOk),
        _ => Err(ParserError::UnknownMethod),
    }
}

/// Decodes a method id and the fields of that method.
#[tactic(auto, using(amqp_types::proofs::Judged::refuses_next), unfolding(amqp_types::specs::Rows::rows_of, amqp_types::specs::Methods::judge_in_class))]
pub fn parse_tx(alloc: Global, i: &[u8]) -> Result<(usize, AMQPMethod), ParserError>
    ensures parsed { Parses method_of result i.now (judge_in_class 90) }
    ensures memory { NeedsNoMemory result }
{
    let (n, id) = parse_id(i)?;
    let (used, method) = parse_method(alloc, id, &i[n..])?;
    Ok((n + used, method))
}

/// The ids and fields of a method, in order, and then nothing up to the most that a method of the class has.
fn method_fields(method: &AMQPMethod) -> [Field<'_>; 2]
    ensures { ListsMethod result (method_of method.now) }
{
    match method {
        AMQPMethod::Select(method) => select_fields(method),
        AMQPMethod::SelectOk(method) => select_ok_fields(method),
        AMQPMethod::Commit(method) => commit_fields(method),
        AMQPMethod::CommitOk(method) => commit_ok_fields(method),
        AMQPMethod::Rollback(method) => rollback_fields(method),
        AMQPMethod::RollbackOk(method) => rollback_ok_fields(method),
    }
}

/// The size in bytes of the class id, the method id and the fields.
pub fn size_tx(method: &AMQPMethod) -> Result<u64, GenError>
    ensures { Measures result (payload_size (method_of method.now)) }
{
    size_fields(&method_fields(method))
}

/// Puts the class id, the method id and the fields at a place of a slice, and returns the place after.
pub fn put_tx(buf: &mut [u8], at: usize, method: &AMQPMethod) -> usize
    requires { HasRoom buf.old at (payload_size (method_of method.now))
        (payload_bytes (method_of method.now)) }
    ensures { Puts buf.old buf.new at (payload_bytes (method_of method.now)) result }
{
    put_fields(buf, at, &method_fields(method))
}

/// Appends the class id, the method id and the fields to a vector.
pub fn gen_tx(_alloc: Global, out: &mut Vec<u8>, method: &AMQPMethod) -> Result<(), GenError>
    ensures { Appends out.old.items out.new.items (payload_size (method_of method.now))
        (payload_bytes (method_of method.now)) result }
{
    gen_fields(out, &method_fields(method))
}

/// A method of the class is held, whatever a program does: the premise of the laws that read canonical bytes back.
pub fn tx_method_held(method: &AMQPMethod)
    ensures { IsHeldMethod (method_of method.now) }
{
    fields_held(&method_fields(method))
}
