//! Methods of the class connection that open and close a connection, and speak of an open one.

ghost use Rattle.std.specs.Prelude.{◌≡◌, ◌∷◌, [], IfOk};
ghost use Rattle.amqp_types.specs.Slots.{number_item, text_item, bytes_item};
ghost use Rattle.amqp_types.specs.Calls.{Parses, NeedsNoMemory, Measures, HasRoom};
ghost use Rattle.amqp_types.specs.Writing.{Puts, Appends};
ghost use Rattle.amqp_types.specs.Methods.{method, judge_method, method_bytes, method_size};
ghost use Rattle.amqp_values.specs.MethodFields.{ListsMethod};
ghost use Rattle.amqp_connection.specs.Connection.{open_method, open_ok_method, close_method};
ghost use Rattle.amqp_connection.specs.Connection.{close_ok_method, blocked_method};
ghost use Rattle.amqp_connection.specs.Connection.{unblocked_method, update_secret_method};
ghost use Rattle.amqp_connection.specs.Connection.{update_secret_ok_method};

use amqp_values::{
    Field, GenError, Identifier, LongString, NoMemory, ParserError, ShortString, ShortUInt,
    SlotReader, copied, gen_method_fields, put_method_fields, size_method_fields,
};
use std::alloc::Global;

/// The client opens the connection to a virtual host.
#[derive(Debug, Drop, PartialEq)]
pub struct Open {
    /// The name of the virtual host.
    pub virtual_host: ShortString,
}

impl Open {
    /// The id of the class.
    pub fn get_amqp_class_id(&self) -> Identifier
        ensures { result ≡ 10 }
    {
        10
    }

    /// The id of the method in its class.
    pub fn get_amqp_method_id(&self) -> Identifier
        ensures { result ≡ 40 }
    {
        40
    }

    /// The method whose fields are empty, zero and false.
    pub fn empty(alloc: Global) -> Open
        ensures { open_method result ≡ method 10 40 (text_item [] ∷ []) }
    {
        Open {
            virtual_host: ShortString::empty(alloc),
        }
    }

    /// A deep copy.
    pub fn copy(&self, alloc: Global) -> Result<Open, NoMemory>
        ensures { IfOk result (λ copied. copied ≡ self.now) }
    {
        Ok(Open {
            virtual_host: self.virtual_host.copy(alloc)?,
        })
    }
}

/// Decodes the fields of `Open`.
#[tactic(auto, using(amqp_types::proofs::Judged::refuses_next), unfolding(amqp_values::proofs::OneMethod::read_one_by_one))]
pub fn parse_open(alloc: Global, i: &[u8]) -> Result<(usize, Open), ParserError>
    ensures { Parses open_method result i.now (judge_method 10 40) }
{
    let mut slots = SlotReader::new(i);
    let virtual_host = slots.short_string(alloc)?;
    slots.skip_short_string()?;
    slots.skip_flags::<1>()?;
    let method = Open { virtual_host };
    Ok((slots.used(i), method))
}

/// Its ids and fields, in order.
#[tactic(auto, unfolding(amqp_values::proofs::OneMethod::listed))]
pub(super) fn open_fields(method: &Open) -> [Field<'_>; 7]
    ensures { ListsMethod result (open_method method.now) }
{
    [
        Field::ShortUInt(10),
        Field::ShortUInt(40),
        Field::ShortString(&method.virtual_host),
        Field::ShortShortUInt(0), // reserved, no text
        Field::Flags(0), // reserved
        Field::Nothing,
        Field::Nothing,
    ]
}

/// The size in bytes of the method id and the fields of `Open`.
pub fn size_open(method: &Open) -> Result<u64, GenError>
    ensures { Measures result (method_size (open_method method.now)) }
{
    size_method_fields(&open_fields(method))
}

/// Puts the method id and the fields of `Open` at a place of a slice, and returns the place after.
pub fn put_open(buf: &mut [u8], at: usize, method: &Open) -> usize
    requires { HasRoom buf.old at (method_size (open_method method.now))
        (method_bytes (open_method method.now)) }
    ensures { Puts buf.old buf.new at (method_bytes (open_method method.now)) result }
{
    put_method_fields(buf, at, &open_fields(method))
}

/// Appends the method id and the fields of `Open` to a vector.
pub fn gen_open(_alloc: Global, out: &mut Vec<u8>, method: &Open) -> Result<(), GenError>
    ensures { Appends out.old.items out.new.items (method_size (open_method method.now))
        (method_bytes (open_method method.now)) result }
{
    gen_method_fields(out, &open_fields(method))
}

/// The connection is open.
#[derive(Clone, Default, Debug, Drop, PartialEq)]
pub struct OpenOk {}

impl OpenOk {
    /// The id of the class.
    pub fn get_amqp_class_id(&self) -> Identifier
        ensures { result ≡ 10 }
    {
        10
    }

    /// The id of the method in its class.
    pub fn get_amqp_method_id(&self) -> Identifier
        ensures { result ≡ 41 }
    {
        41
    }
}

/// Decodes the fields of `OpenOk`.
#[tactic(auto, using(amqp_types::proofs::Judged::refuses_next), unfolding(amqp_values::proofs::OneMethod::read_one_by_one))]
pub fn parse_open_ok(_alloc: Global, i: &[u8]) -> Result<(usize, OpenOk), ParserError>
    ensures parsed { Parses open_ok_method result i.now (judge_method 10 41) }
    ensures memory { NeedsNoMemory result }
{
    let mut slots = SlotReader::new(i);
    slots.skip_short_string()?;
    Ok((slots.used(i), OpenOk {}))
}

/// Its ids and fields, in order.
#[tactic(auto, unfolding(amqp_values::proofs::OneMethod::listed))]
pub(super) fn open_ok_fields(_method: &OpenOk) -> [Field<'_>; 7]
    ensures { ListsMethod result (open_ok_method _method.now) }
{
    [
        Field::ShortUInt(10),
        Field::ShortUInt(41),
        Field::ShortShortUInt(0), // reserved, no text
        Field::Nothing,
        Field::Nothing,
        Field::Nothing,
        Field::Nothing,
    ]
}

/// The size in bytes of the method id and the fields of `OpenOk`.
pub fn size_open_ok(method: &OpenOk) -> Result<u64, GenError>
    ensures { Measures result (method_size (open_ok_method method.now)) }
{
    size_method_fields(&open_ok_fields(method))
}

/// Puts the method id and the fields of `OpenOk` at a place of a slice, and returns the place after.
pub fn put_open_ok(buf: &mut [u8], at: usize, method: &OpenOk) -> usize
    requires { HasRoom buf.old at (method_size (open_ok_method method.now))
        (method_bytes (open_ok_method method.now)) }
    ensures { Puts buf.old buf.new at (method_bytes (open_ok_method method.now)) result }
{
    put_method_fields(buf, at, &open_ok_fields(method))
}

/// Appends the method id and the fields of `OpenOk` to a vector.
pub fn gen_open_ok(_alloc: Global, out: &mut Vec<u8>, method: &OpenOk) -> Result<(), GenError>
    ensures { Appends out.old.items out.new.items (method_size (open_ok_method method.now))
        (method_bytes (open_ok_method method.now)) result }
{
    gen_method_fields(out, &open_ok_fields(method))
}

/// A peer closes the connection, and says why.
#[derive(Debug, Drop, PartialEq)]
pub struct Close {
    /// The reason as a reply code (AMQP 0-9-1, section 1.2); 200 is success.
    pub reply_code: ShortUInt,

    /// The reason in words.
    pub reply_text: ShortString,

    /// The class id of the method that caused the close; 0 where none did.
    pub class_id: ShortUInt,

    /// The id of that method in its class; 0 where none did.
    pub method_id: ShortUInt,
}

impl Close {
    /// The id of the class.
    pub fn get_amqp_class_id(&self) -> Identifier
        ensures { result ≡ 10 }
    {
        10
    }

    /// The id of the method in its class.
    pub fn get_amqp_method_id(&self) -> Identifier
        ensures { result ≡ 50 }
    {
        50
    }

    /// The method whose fields are empty, zero and false.
    pub fn empty(alloc: Global) -> Close
        ensures { close_method result
            ≡ method 10 50 (number_item 0 ∷ text_item [] ∷ number_item 0 ∷ number_item 0 ∷ []) }
    {
        Close {
            reply_code: 0,
            reply_text: ShortString::empty(alloc),
            class_id: 0,
            method_id: 0,
        }
    }

    /// A deep copy.
    pub fn copy(&self, alloc: Global) -> Result<Close, NoMemory>
        ensures { IfOk result (λ copied. copied ≡ self.now) }
    {
        Ok(Close {
            reply_code: self.reply_code,
            reply_text: self.reply_text.copy(alloc)?,
            class_id: self.class_id,
            method_id: self.method_id,
        })
    }
}

/// Decodes the fields of `Close`.
#[tactic(auto, using(amqp_types::proofs::Judged::refuses_next), unfolding(amqp_values::proofs::OneMethod::read_at_once))]
pub fn parse_close(alloc: Global, i: &[u8]) -> Result<(usize, Close), ParserError>
    ensures { Parses close_method result i.now (judge_method 10 50) }
{
    let mut slots = SlotReader::new(i);
    let (reply_code, reply_text, class_id, method_id) = slots.read(alloc)?;
    let method = Close {
        reply_code,
        reply_text,
        class_id,
        method_id,
    };
    Ok((slots.used(i), method))
}

/// Its ids and fields, in order.
#[tactic(auto, unfolding(amqp_values::proofs::OneMethod::listed))]
pub(super) fn close_fields(method: &Close) -> [Field<'_>; 7]
    ensures { ListsMethod result (close_method method.now) }
{
    [
        Field::ShortUInt(10),
        Field::ShortUInt(50),
        Field::ShortUInt(method.reply_code),
        Field::ShortString(&method.reply_text),
        Field::ShortUInt(method.class_id),
        Field::ShortUInt(method.method_id),
        Field::Nothing,
    ]
}

/// The size in bytes of the method id and the fields of `Close`.
pub fn size_close(method: &Close) -> Result<u64, GenError>
    ensures { Measures result (method_size (close_method method.now)) }
{
    size_method_fields(&close_fields(method))
}

/// Puts the method id and the fields of `Close` at a place of a slice, and returns the place after.
pub fn put_close(buf: &mut [u8], at: usize, method: &Close) -> usize
    requires { HasRoom buf.old at (method_size (close_method method.now))
        (method_bytes (close_method method.now)) }
    ensures { Puts buf.old buf.new at (method_bytes (close_method method.now)) result }
{
    put_method_fields(buf, at, &close_fields(method))
}

/// Appends the method id and the fields of `Close` to a vector.
pub fn gen_close(_alloc: Global, out: &mut Vec<u8>, method: &Close) -> Result<(), GenError>
    ensures { Appends out.old.items out.new.items (method_size (close_method method.now))
        (method_bytes (close_method method.now)) result }
{
    gen_method_fields(out, &close_fields(method))
}

/// The other peer has heard that the connection is closed.
#[derive(Clone, Default, Debug, Drop, PartialEq)]
pub struct CloseOk {}

impl CloseOk {
    /// The id of the class.
    pub fn get_amqp_class_id(&self) -> Identifier
        ensures { result ≡ 10 }
    {
        10
    }

    /// The id of the method in its class.
    pub fn get_amqp_method_id(&self) -> Identifier
        ensures { result ≡ 51 }
    {
        51
    }
}

/// Decodes the fields of `CloseOk`.
#[tactic(auto, using(amqp_types::proofs::Judged::refuses_next), unfolding(amqp_values::proofs::OneMethod::read_one_by_one))]
pub fn parse_close_ok(_alloc: Global, i: &[u8]) -> Result<(usize, CloseOk), ParserError>
    ensures parsed { Parses close_ok_method result i.now (judge_method 10 51) }
    ensures memory { NeedsNoMemory result }
{
    let slots = SlotReader::new(i);
    Ok((slots.used(i), CloseOk {}))
}

/// Its ids and fields, in order.
#[tactic(auto, unfolding(amqp_values::proofs::OneMethod::listed))]
pub(super) fn close_ok_fields(_method: &CloseOk) -> [Field<'_>; 7]
    ensures { ListsMethod result (close_ok_method _method.now) }
{
    [
        Field::ShortUInt(10),
        Field::ShortUInt(51),
        Field::Nothing,
        Field::Nothing,
        Field::Nothing,
        Field::Nothing,
        Field::Nothing,
    ]
}

/// The size in bytes of the method id and the fields of `CloseOk`.
pub fn size_close_ok(method: &CloseOk) -> Result<u64, GenError>
    ensures { Measures result (method_size (close_ok_method method.now)) }
{
    size_method_fields(&close_ok_fields(method))
}

/// Puts the method id and the fields of `CloseOk` at a place of a slice, and returns the place after.
pub fn put_close_ok(buf: &mut [u8], at: usize, method: &CloseOk) -> usize
    requires { HasRoom buf.old at (method_size (close_ok_method method.now))
        (method_bytes (close_ok_method method.now)) }
    ensures { Puts buf.old buf.new at (method_bytes (close_ok_method method.now)) result }
{
    put_method_fields(buf, at, &close_ok_fields(method))
}

/// Appends the method id and the fields of `CloseOk` to a vector.
pub fn gen_close_ok(_alloc: Global, out: &mut Vec<u8>, method: &CloseOk) -> Result<(), GenError>
    ensures { Appends out.old.items out.new.items (method_size (close_ok_method method.now))
        (method_bytes (close_ok_method method.now)) result }
{
    gen_method_fields(out, &close_ok_fields(method))
}

/// The server takes no messages for now.
#[derive(Debug, Drop, PartialEq)]
pub struct Blocked {
    /// The reason in words.
    pub reason: ShortString,
}

impl Blocked {
    /// The id of the class.
    pub fn get_amqp_class_id(&self) -> Identifier
        ensures { result ≡ 10 }
    {
        10
    }

    /// The id of the method in its class.
    pub fn get_amqp_method_id(&self) -> Identifier
        ensures { result ≡ 60 }
    {
        60
    }

    /// The method whose fields are empty, zero and false.
    pub fn empty(alloc: Global) -> Blocked
        ensures { blocked_method result ≡ method 10 60 (text_item [] ∷ []) }
    {
        Blocked {
            reason: ShortString::empty(alloc),
        }
    }

    /// A deep copy.
    pub fn copy(&self, alloc: Global) -> Result<Blocked, NoMemory>
        ensures { IfOk result (λ copied. copied ≡ self.now) }
    {
        Ok(Blocked {
            reason: self.reason.copy(alloc)?,
        })
    }
}

/// Decodes the fields of `Blocked`.
#[tactic(auto, using(amqp_types::proofs::Judged::refuses_next), unfolding(amqp_values::proofs::OneMethod::read_one_by_one))]
pub fn parse_blocked(alloc: Global, i: &[u8]) -> Result<(usize, Blocked), ParserError>
    ensures { Parses blocked_method result i.now (judge_method 10 60) }
{
    let mut slots = SlotReader::new(i);
    let reason = slots.short_string(alloc)?;
    let method = Blocked { reason };
    Ok((slots.used(i), method))
}

/// Its ids and fields, in order.
#[tactic(auto, unfolding(amqp_values::proofs::OneMethod::listed))]
pub(super) fn blocked_fields(method: &Blocked) -> [Field<'_>; 7]
    ensures { ListsMethod result (blocked_method method.now) }
{
    [
        Field::ShortUInt(10),
        Field::ShortUInt(60),
        Field::ShortString(&method.reason),
        Field::Nothing,
        Field::Nothing,
        Field::Nothing,
        Field::Nothing,
    ]
}

/// The size in bytes of the method id and the fields of `Blocked`.
pub fn size_blocked(method: &Blocked) -> Result<u64, GenError>
    ensures { Measures result (method_size (blocked_method method.now)) }
{
    size_method_fields(&blocked_fields(method))
}

/// Puts the method id and the fields of `Blocked` at a place of a slice, and returns the place after.
pub fn put_blocked(buf: &mut [u8], at: usize, method: &Blocked) -> usize
    requires { HasRoom buf.old at (method_size (blocked_method method.now))
        (method_bytes (blocked_method method.now)) }
    ensures { Puts buf.old buf.new at (method_bytes (blocked_method method.now)) result }
{
    put_method_fields(buf, at, &blocked_fields(method))
}

/// Appends the method id and the fields of `Blocked` to a vector.
pub fn gen_blocked(_alloc: Global, out: &mut Vec<u8>, method: &Blocked) -> Result<(), GenError>
    ensures { Appends out.old.items out.new.items (method_size (blocked_method method.now))
        (method_bytes (blocked_method method.now)) result }
{
    gen_method_fields(out, &blocked_fields(method))
}

/// The server takes messages again.
#[derive(Clone, Default, Debug, Drop, PartialEq)]
pub struct Unblocked {}

impl Unblocked {
    /// The id of the class.
    pub fn get_amqp_class_id(&self) -> Identifier
        ensures { result ≡ 10 }
    {
        10
    }

    /// The id of the method in its class.
    pub fn get_amqp_method_id(&self) -> Identifier
        ensures { result ≡ 61 }
    {
        61
    }
}

/// Decodes the fields of `Unblocked`.
#[tactic(auto, using(amqp_types::proofs::Judged::refuses_next), unfolding(amqp_values::proofs::OneMethod::read_one_by_one))]
pub fn parse_unblocked(_alloc: Global, i: &[u8]) -> Result<(usize, Unblocked), ParserError>
    ensures parsed { Parses unblocked_method result i.now (judge_method 10 61) }
    ensures memory { NeedsNoMemory result }
{
    let slots = SlotReader::new(i);
    Ok((slots.used(i), Unblocked {}))
}

/// Its ids and fields, in order.
#[tactic(auto, unfolding(amqp_values::proofs::OneMethod::listed))]
pub(super) fn unblocked_fields(_method: &Unblocked) -> [Field<'_>; 7]
    ensures { ListsMethod result (unblocked_method _method.now) }
{
    [
        Field::ShortUInt(10),
        Field::ShortUInt(61),
        Field::Nothing,
        Field::Nothing,
        Field::Nothing,
        Field::Nothing,
        Field::Nothing,
    ]
}

/// The size in bytes of the method id and the fields of `Unblocked`.
pub fn size_unblocked(method: &Unblocked) -> Result<u64, GenError>
    ensures { Measures result (method_size (unblocked_method method.now)) }
{
    size_method_fields(&unblocked_fields(method))
}

/// Puts the method id and the fields of `Unblocked` at a place of a slice, and returns the place after.
pub fn put_unblocked(buf: &mut [u8], at: usize, method: &Unblocked) -> usize
    requires { HasRoom buf.old at (method_size (unblocked_method method.now))
        (method_bytes (unblocked_method method.now)) }
    ensures { Puts buf.old buf.new at (method_bytes (unblocked_method method.now)) result }
{
    put_method_fields(buf, at, &unblocked_fields(method))
}

/// Appends the method id and the fields of `Unblocked` to a vector.
pub fn gen_unblocked(_alloc: Global, out: &mut Vec<u8>, method: &Unblocked) -> Result<(), GenError>
    ensures { Appends out.old.items out.new.items (method_size (unblocked_method method.now))
        (method_bytes (unblocked_method method.now)) result }
{
    gen_method_fields(out, &unblocked_fields(method))
}

/// The client renews the secret that it proved itself by.
#[derive(Debug, Drop, PartialEq)]
pub struct UpdateSecret {
    /// The new secret, in bytes that only the mechanism of the connection gives a meaning.
    pub new_secret: LongString,

    /// The reason in words.
    pub reason: ShortString,
}

impl UpdateSecret {
    /// The id of the class.
    pub fn get_amqp_class_id(&self) -> Identifier
        ensures { result ≡ 10 }
    {
        10
    }

    /// The id of the method in its class.
    pub fn get_amqp_method_id(&self) -> Identifier
        ensures { result ≡ 70 }
    {
        70
    }

    /// The method whose fields are empty, zero and false.
    pub fn empty(alloc: Global) -> UpdateSecret
        ensures { update_secret_method result ≡ method 10 70 (bytes_item [] ∷ text_item [] ∷ []) }
    {
        UpdateSecret {
            new_secret: LongString::empty(alloc),
            reason: ShortString::empty(alloc),
        }
    }

    /// A deep copy.
    pub fn copy(&self, alloc: Global) -> Result<UpdateSecret, NoMemory>
        ensures { IfOk result (λ copied. copied ≡ self.now) }
    {
        Ok(UpdateSecret {
            new_secret: self.new_secret.copy(alloc)?,
            reason: self.reason.copy(alloc)?,
        })
    }
}

/// Decodes the fields of `UpdateSecret`.
#[tactic(auto, using(amqp_types::proofs::Judged::refuses_next), unfolding(amqp_values::proofs::OneMethod::read_at_once))]
pub fn parse_update_secret(alloc: Global, i: &[u8]) -> Result<(usize, UpdateSecret), ParserError>
    ensures { Parses update_secret_method result i.now (judge_method 10 70) }
{
    let mut slots = SlotReader::new(i);
    let (new_secret, reason) = slots.read(alloc)?;
    let method = UpdateSecret { new_secret, reason };
    Ok((slots.used(i), method))
}

/// Its ids and fields, in order.
#[tactic(auto, unfolding(amqp_values::proofs::OneMethod::listed))]
pub(super) fn update_secret_fields(method: &UpdateSecret) -> [Field<'_>; 7]
    ensures { ListsMethod result (update_secret_method method.now) }
{
    [
        Field::ShortUInt(10),
        Field::ShortUInt(70),
        Field::LongString(&method.new_secret),
        Field::ShortString(&method.reason),
        Field::Nothing,
        Field::Nothing,
        Field::Nothing,
    ]
}

/// The size in bytes of the method id and the fields of `UpdateSecret`.
pub fn size_update_secret(method: &UpdateSecret) -> Result<u64, GenError>
    ensures { Measures result (method_size (update_secret_method method.now)) }
{
    size_method_fields(&update_secret_fields(method))
}

/// Puts the method id and the fields of `UpdateSecret` at a place of a slice, and returns the place after.
pub fn put_update_secret(buf: &mut [u8], at: usize, method: &UpdateSecret) -> usize
    requires { HasRoom buf.old at (method_size (update_secret_method method.now))
        (method_bytes (update_secret_method method.now)) }
    ensures { Puts buf.old buf.new at (method_bytes (update_secret_method method.now)) result }
{
    put_method_fields(buf, at, &update_secret_fields(method))
}

/// Appends the method id and the fields of `UpdateSecret` to a vector.
pub fn gen_update_secret(
    _alloc: Global,
    out: &mut Vec<u8>,
    method: &UpdateSecret,
) -> Result<(), GenError>
    ensures { Appends out.old.items out.new.items (method_size (update_secret_method method.now))
        (method_bytes (update_secret_method method.now)) result }
{
    gen_method_fields(out, &update_secret_fields(method))
}

/// The new secret is taken.
#[derive(Clone, Default, Debug, Drop, PartialEq)]
pub struct UpdateSecretOk {}

impl UpdateSecretOk {
    /// The id of the class.
    pub fn get_amqp_class_id(&self) -> Identifier
        ensures { result ≡ 10 }
    {
        10
    }

    /// The id of the method in its class.
    pub fn get_amqp_method_id(&self) -> Identifier
        ensures { result ≡ 71 }
    {
        71
    }
}

/// Decodes the fields of `UpdateSecretOk`.
#[tactic(auto, using(amqp_types::proofs::Judged::refuses_next), unfolding(amqp_values::proofs::OneMethod::read_one_by_one))]
pub fn parse_update_secret_ok(
    _alloc: Global,
    i: &[u8],
) -> Result<(usize, UpdateSecretOk), ParserError>
    ensures parsed { Parses update_secret_ok_method result i.now (judge_method 10 71) }
    ensures memory { NeedsNoMemory result }
{
    let slots = SlotReader::new(i);
    Ok((slots.used(i), UpdateSecretOk {}))
}

/// Its ids and fields, in order.
#[tactic(auto, unfolding(amqp_values::proofs::OneMethod::listed))]
pub(super) fn update_secret_ok_fields(_method: &UpdateSecretOk) -> [Field<'_>; 7]
    ensures { ListsMethod result (update_secret_ok_method _method.now) }
{
    [
        Field::ShortUInt(10),
        Field::ShortUInt(71),
        Field::Nothing,
        Field::Nothing,
        Field::Nothing,
        Field::Nothing,
        Field::Nothing,
    ]
}

/// The size in bytes of the method id and the fields of `UpdateSecretOk`.
pub fn size_update_secret_ok(method: &UpdateSecretOk) -> Result<u64, GenError>
    ensures { Measures result (method_size (update_secret_ok_method method.now)) }
{
    size_method_fields(&update_secret_ok_fields(method))
}

/// Puts the method id and the fields of `UpdateSecretOk` at a place of a slice, and returns the place after.
pub fn put_update_secret_ok(buf: &mut [u8], at: usize, method: &UpdateSecretOk) -> usize
    requires { HasRoom buf.old at (method_size (update_secret_ok_method method.now))
        (method_bytes (update_secret_ok_method method.now)) }
    ensures { Puts buf.old buf.new at (method_bytes (update_secret_ok_method method.now)) result }
{
    put_method_fields(buf, at, &update_secret_ok_fields(method))
}

/// Appends the method id and the fields of `UpdateSecretOk` to a vector.
pub fn gen_update_secret_ok(
    _alloc: Global,
    out: &mut Vec<u8>,
    method: &UpdateSecretOk,
) -> Result<(), GenError>
    ensures { Appends out.old.items out.new.items (method_size (update_secret_ok_method method.now))
        (method_bytes (update_secret_ok_method method.now)) result }
{
    gen_method_fields(out, &update_secret_ok_fields(method))
}
