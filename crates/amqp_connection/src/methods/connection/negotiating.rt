//! Methods of the class connection by which peers agree on a connection.

ghost use Rattle.std.specs.Prelude.{◌≡◌, ◌∷◌, [], IfOk};
ghost use Rattle.amqp_types.specs.Slots.{number_item, text_item, bytes_item, entries_item};
ghost use Rattle.amqp_types.specs.Calls.{Parses, NeedsNoMemory, Measures, HasRoom};
ghost use Rattle.amqp_types.specs.Writing.{Puts, Appends};
ghost use Rattle.amqp_types.specs.Methods.{method, judge_method, method_bytes, method_size};
ghost use Rattle.amqp_values.specs.MethodFields.{ListsMethod};
ghost use Rattle.amqp_connection.specs.Connection.{start_method, start_ok_method, secure_method};
ghost use Rattle.amqp_connection.specs.Connection.{secure_ok_method, tune_method, tune_ok_method};

use amqp_values::{
    Field, FieldTable, GenError, Identifier, LongString, LongUInt, NoMemory, ParserError,
    ShortShortUInt, ShortString, ShortUInt, SlotReader, copied, gen_method_fields,
    put_method_fields, size_method_fields,
};
use std::alloc::Global;

/// The server begins a connection, and says what it can do.
#[derive(Debug, Drop, PartialEq)]
pub struct Start {
    /// The major version of the protocol: 0 of 0-9-1.
    pub version_major: ShortShortUInt,

    /// The minor version of the protocol: 9 of 0-9-1.
    pub version_minor: ShortShortUInt,

    /// What the server says of itself, such as its product, version and capabilities.
    pub server_properties: FieldTable,

    /// The names of the SASL mechanisms that the server supports, with spaces between them.
    pub mechanisms: LongString,

    /// The locales that the server supports for its texts, with spaces between them.
    pub locales: LongString,
}

impl Start {
    /// The id of the class.
    pub fn get_amqp_class_id(&self) -> Identifier
        ensures { result ≡ 10 }
    {
        10
    }

    /// The id of the method in its class.
    pub fn get_amqp_method_id(&self) -> Identifier
        ensures { result ≡ 10 }
    {
        10
    }

    /// The method whose fields are empty, zero and false.
    pub fn empty(alloc: Global) -> Start
        ensures { start_method result
            ≡ method 10 10
            (number_item 0 ∷ number_item 0 ∷ entries_item [] ∷ bytes_item [] ∷ bytes_item [] ∷ []) }
    {
        Start {
            version_major: 0,
            version_minor: 0,
            server_properties: FieldTable::new(alloc),
            mechanisms: LongString::empty(alloc),
            locales: LongString::empty(alloc),
        }
    }

    /// A deep copy.
    pub fn copy(&self, alloc: Global) -> Result<Start, NoMemory>
        ensures { IfOk result (λ copied. copied ≡ self.now) }
    {
        Ok(Start {
            version_major: self.version_major,
            version_minor: self.version_minor,
            server_properties: self.server_properties.copy(alloc)?,
            mechanisms: self.mechanisms.copy(alloc)?,
            locales: self.locales.copy(alloc)?,
        })
    }
}

/// Decodes the fields of `Start`.
#[tactic(auto, using(amqp_types::proofs::Judged::refuses_next), unfolding(amqp_values::proofs::OneMethod::read_at_once))]
pub fn parse_start(alloc: Global, i: &[u8]) -> Result<(usize, Start), ParserError>
    ensures { Parses start_method result i.now (judge_method 10 10) }
{
    let mut slots = SlotReader::new(i);
    let (version_major, version_minor, server_properties, mechanisms, locales) = slots.read(alloc)?;
    let method = Start {
        version_major,
        version_minor,
        server_properties,
        mechanisms,
        locales,
    };
    Ok((slots.used(i), method))
}

/// Its ids and fields, in order.
#[tactic(auto, unfolding(amqp_values::proofs::OneMethod::listed))]
pub(super) fn start_fields(method: &Start) -> [Field<'_>; 7]
    ensures { ListsMethod result (start_method method.now) }
{
    [
        Field::ShortUInt(10),
        Field::ShortUInt(10),
        Field::ShortShortUInt(method.version_major),
        Field::ShortShortUInt(method.version_minor),
        Field::Table(&method.server_properties),
        Field::LongString(&method.mechanisms),
        Field::LongString(&method.locales),
    ]
}

/// The size in bytes of the method id and the fields of `Start`.
pub fn size_start(method: &Start) -> Result<u64, GenError>
    ensures { Measures result (method_size (start_method method.now)) }
{
    size_method_fields(&start_fields(method))
}

/// Puts the method id and the fields of `Start` at a place of a slice, and returns the place after.
pub fn put_start(buf: &mut [u8], at: usize, method: &Start) -> usize
    requires { HasRoom buf.old at (method_size (start_method method.now))
        (method_bytes (start_method method.now)) }
    ensures { Puts buf.old buf.new at (method_bytes (start_method method.now)) result }
{
    put_method_fields(buf, at, &start_fields(method))
}

/// Appends the method id and the fields of `Start` to a vector.
pub fn gen_start(_alloc: Global, out: &mut Vec<u8>, method: &Start) -> Result<(), GenError>
    ensures { Appends out.old.items out.new.items (method_size (start_method method.now))
        (method_bytes (start_method method.now)) result }
{
    gen_method_fields(out, &start_fields(method))
}

/// The client chooses how it proves who it is.
#[derive(Debug, Drop, PartialEq)]
pub struct StartOk {
    /// What the client says of itself, such as its product, version and capabilities.
    pub client_properties: FieldTable,

    /// The name of the SASL mechanism that the client has chosen.
    pub mechanism: ShortString,

    /// The first response of the mechanism, in bytes that only the mechanism gives a meaning.
    pub response: LongString,

    /// The locale that the client has chosen for the texts of the server.
    pub locale: ShortString,
}

impl StartOk {
    /// The id of the class.
    pub fn get_amqp_class_id(&self) -> Identifier
        ensures { result ≡ 10 }
    {
        10
    }

    /// The id of the method in its class.
    pub fn get_amqp_method_id(&self) -> Identifier
        ensures { result ≡ 11 }
    {
        11
    }

    /// The method whose fields are empty, zero and false.
    pub fn empty(alloc: Global) -> StartOk
        ensures { start_ok_method result
            ≡ method 10 11 (entries_item [] ∷ text_item [] ∷ bytes_item [] ∷ text_item [] ∷ []) }
    {
        StartOk {
            client_properties: FieldTable::new(alloc),
            mechanism: ShortString::empty(alloc),
            response: LongString::empty(alloc),
            locale: ShortString::empty(alloc),
        }
    }

    /// A deep copy.
    pub fn copy(&self, alloc: Global) -> Result<StartOk, NoMemory>
        ensures { IfOk result (λ copied. copied ≡ self.now) }
    {
        Ok(StartOk {
            client_properties: self.client_properties.copy(alloc)?,
            mechanism: self.mechanism.copy(alloc)?,
            response: self.response.copy(alloc)?,
            locale: self.locale.copy(alloc)?,
        })
    }
}

/// Decodes the fields of `StartOk`.
#[tactic(auto, using(amqp_types::proofs::Judged::refuses_next), unfolding(amqp_values::proofs::OneMethod::read_at_once))]
pub fn parse_start_ok(alloc: Global, i: &[u8]) -> Result<(usize, StartOk), ParserError>
    ensures { Parses start_ok_method result i.now (judge_method 10 11) }
{
    let mut slots = SlotReader::new(i);
    let (client_properties, mechanism, response, locale) = slots.read(alloc)?;
    let method = StartOk {
        client_properties,
        mechanism,
        response,
        locale,
    };
    Ok((slots.used(i), method))
}

/// Its ids and fields, in order.
#[tactic(auto, unfolding(amqp_values::proofs::OneMethod::listed))]
pub(super) fn start_ok_fields(method: &StartOk) -> [Field<'_>; 7]
    ensures { ListsMethod result (start_ok_method method.now) }
{
    [
        Field::ShortUInt(10),
        Field::ShortUInt(11),
        Field::Table(&method.client_properties),
        Field::ShortString(&method.mechanism),
        Field::LongString(&method.response),
        Field::ShortString(&method.locale),
        Field::Nothing,
    ]
}

/// The size in bytes of the method id and the fields of `StartOk`.
pub fn size_start_ok(method: &StartOk) -> Result<u64, GenError>
    ensures { Measures result (method_size (start_ok_method method.now)) }
{
    size_method_fields(&start_ok_fields(method))
}

/// Puts the method id and the fields of `StartOk` at a place of a slice, and returns the place after.
pub fn put_start_ok(buf: &mut [u8], at: usize, method: &StartOk) -> usize
    requires { HasRoom buf.old at (method_size (start_ok_method method.now))
        (method_bytes (start_ok_method method.now)) }
    ensures { Puts buf.old buf.new at (method_bytes (start_ok_method method.now)) result }
{
    put_method_fields(buf, at, &start_ok_fields(method))
}

/// Appends the method id and the fields of `StartOk` to a vector.
pub fn gen_start_ok(_alloc: Global, out: &mut Vec<u8>, method: &StartOk) -> Result<(), GenError>
    ensures { Appends out.old.items out.new.items (method_size (start_ok_method method.now))
        (method_bytes (start_ok_method method.now)) result }
{
    gen_method_fields(out, &start_ok_fields(method))
}

/// The server asks the client for more proof of who it is.
#[derive(Debug, Drop, PartialEq)]
pub struct Secure {
    /// The challenge of the mechanism, in bytes that only the mechanism gives a meaning.
    pub challenge: LongString,
}

impl Secure {
    /// The id of the class.
    pub fn get_amqp_class_id(&self) -> Identifier
        ensures { result ≡ 10 }
    {
        10
    }

    /// The id of the method in its class.
    pub fn get_amqp_method_id(&self) -> Identifier
        ensures { result ≡ 20 }
    {
        20
    }

    /// The method whose fields are empty, zero and false.
    pub fn empty(alloc: Global) -> Secure
        ensures { secure_method result ≡ method 10 20 (bytes_item [] ∷ []) }
    {
        Secure {
            challenge: LongString::empty(alloc),
        }
    }

    /// A deep copy.
    pub fn copy(&self, alloc: Global) -> Result<Secure, NoMemory>
        ensures { IfOk result (λ copied. copied ≡ self.now) }
    {
        Ok(Secure {
            challenge: self.challenge.copy(alloc)?,
        })
    }
}

/// Decodes the fields of `Secure`.
#[tactic(auto, using(amqp_types::proofs::Judged::refuses_next), unfolding(amqp_values::proofs::OneMethod::read_one_by_one))]
pub fn parse_secure(alloc: Global, i: &[u8]) -> Result<(usize, Secure), ParserError>
    ensures { Parses secure_method result i.now (judge_method 10 20) }
{
    let mut slots = SlotReader::new(i);
    let challenge = slots.long_string(alloc)?;
    let method = Secure { challenge };
    Ok((slots.used(i), method))
}

/// Its ids and fields, in order.
#[tactic(auto, unfolding(amqp_values::proofs::OneMethod::listed))]
pub(super) fn secure_fields(method: &Secure) -> [Field<'_>; 7]
    ensures { ListsMethod result (secure_method method.now) }
{
    [
        Field::ShortUInt(10),
        Field::ShortUInt(20),
        Field::LongString(&method.challenge),
        Field::Nothing,
        Field::Nothing,
        Field::Nothing,
        Field::Nothing,
    ]
}

/// The size in bytes of the method id and the fields of `Secure`.
pub fn size_secure(method: &Secure) -> Result<u64, GenError>
    ensures { Measures result (method_size (secure_method method.now)) }
{
    size_method_fields(&secure_fields(method))
}

/// Puts the method id and the fields of `Secure` at a place of a slice, and returns the place after.
pub fn put_secure(buf: &mut [u8], at: usize, method: &Secure) -> usize
    requires { HasRoom buf.old at (method_size (secure_method method.now))
        (method_bytes (secure_method method.now)) }
    ensures { Puts buf.old buf.new at (method_bytes (secure_method method.now)) result }
{
    put_method_fields(buf, at, &secure_fields(method))
}

/// Appends the method id and the fields of `Secure` to a vector.
pub fn gen_secure(_alloc: Global, out: &mut Vec<u8>, method: &Secure) -> Result<(), GenError>
    ensures { Appends out.old.items out.new.items (method_size (secure_method method.now))
        (method_bytes (secure_method method.now)) result }
{
    gen_method_fields(out, &secure_fields(method))
}

/// The client responds to the challenge of the server.
#[derive(Debug, Drop, PartialEq)]
pub struct SecureOk {
    /// The response of the mechanism, in bytes that only the mechanism gives a meaning.
    pub response: LongString,
}

impl SecureOk {
    /// The id of the class.
    pub fn get_amqp_class_id(&self) -> Identifier
        ensures { result ≡ 10 }
    {
        10
    }

    /// The id of the method in its class.
    pub fn get_amqp_method_id(&self) -> Identifier
        ensures { result ≡ 21 }
    {
        21
    }

    /// The method whose fields are empty, zero and false.
    pub fn empty(alloc: Global) -> SecureOk
        ensures { secure_ok_method result ≡ method 10 21 (bytes_item [] ∷ []) }
    {
        SecureOk {
            response: LongString::empty(alloc),
        }
    }

    /// A deep copy.
    pub fn copy(&self, alloc: Global) -> Result<SecureOk, NoMemory>
        ensures { IfOk result (λ copied. copied ≡ self.now) }
    {
        Ok(SecureOk {
            response: self.response.copy(alloc)?,
        })
    }
}

/// Decodes the fields of `SecureOk`.
#[tactic(auto, using(amqp_types::proofs::Judged::refuses_next), unfolding(amqp_values::proofs::OneMethod::read_one_by_one))]
pub fn parse_secure_ok(alloc: Global, i: &[u8]) -> Result<(usize, SecureOk), ParserError>
    ensures { Parses secure_ok_method result i.now (judge_method 10 21) }
{
    let mut slots = SlotReader::new(i);
    let response = slots.long_string(alloc)?;
    let method = SecureOk { response };
    Ok((slots.used(i), method))
}

/// Its ids and fields, in order.
#[tactic(auto, unfolding(amqp_values::proofs::OneMethod::listed))]
pub(super) fn secure_ok_fields(method: &SecureOk) -> [Field<'_>; 7]
    ensures { ListsMethod result (secure_ok_method method.now) }
{
    [
        Field::ShortUInt(10),
        Field::ShortUInt(21),
        Field::LongString(&method.response),
        Field::Nothing,
        Field::Nothing,
        Field::Nothing,
        Field::Nothing,
    ]
}

/// The size in bytes of the method id and the fields of `SecureOk`.
pub fn size_secure_ok(method: &SecureOk) -> Result<u64, GenError>
    ensures { Measures result (method_size (secure_ok_method method.now)) }
{
    size_method_fields(&secure_ok_fields(method))
}

/// Puts the method id and the fields of `SecureOk` at a place of a slice, and returns the place after.
pub fn put_secure_ok(buf: &mut [u8], at: usize, method: &SecureOk) -> usize
    requires { HasRoom buf.old at (method_size (secure_ok_method method.now))
        (method_bytes (secure_ok_method method.now)) }
    ensures { Puts buf.old buf.new at (method_bytes (secure_ok_method method.now)) result }
{
    put_method_fields(buf, at, &secure_ok_fields(method))
}

/// Appends the method id and the fields of `SecureOk` to a vector.
pub fn gen_secure_ok(_alloc: Global, out: &mut Vec<u8>, method: &SecureOk) -> Result<(), GenError>
    ensures { Appends out.old.items out.new.items (method_size (secure_ok_method method.now))
        (method_bytes (secure_ok_method method.now)) result }
{
    gen_method_fields(out, &secure_ok_fields(method))
}

/// The server proposes limits for the connection.
#[derive(Clone, Debug, Drop, PartialEq)]
pub struct Tune {
    /// The highest channel number that the server permits; 0 is no limit.
    pub channel_max: ShortUInt,

    /// The largest frame size in bytes, with header and end, that the server proposes; 0 is no limit.
    pub frame_max: LongUInt,

    /// The delay between heartbeats in seconds that the server wishes for; 0 is none.
    pub heartbeat: ShortUInt,
}

impl Default for Tune {
    /// The method whose numbers are 0 and whose flags are false.
    fn default() -> Tune
        ensures { tune_method result
            ≡ method 10 30 (number_item 0 ∷ number_item 0 ∷ number_item 0 ∷ []) }
    {
        Tune {
            channel_max: 0,
            frame_max: 0,
            heartbeat: 0,
        }
    }
}

impl Tune {
    /// The id of the class.
    pub fn get_amqp_class_id(&self) -> Identifier
        ensures { result ≡ 10 }
    {
        10
    }

    /// The id of the method in its class.
    pub fn get_amqp_method_id(&self) -> Identifier
        ensures { result ≡ 30 }
    {
        30
    }
}

/// Decodes the fields of `Tune`.
#[tactic(auto, using(amqp_types::proofs::Judged::refuses_next), unfolding(amqp_values::proofs::OneMethod::read_one_by_one))]
pub fn parse_tune(_alloc: Global, i: &[u8]) -> Result<(usize, Tune), ParserError>
    ensures parsed { Parses tune_method result i.now (judge_method 10 30) }
    ensures memory { NeedsNoMemory result }
{
    let mut slots = SlotReader::new(i);
    let channel_max = slots.short_uint()?;
    let frame_max = slots.long_uint()?;
    let heartbeat = slots.short_uint()?;
    let method = Tune {
        channel_max,
        frame_max,
        heartbeat,
    };
    Ok((slots.used(i), method))
}

/// Its ids and fields, in order.
#[tactic(auto, unfolding(amqp_values::proofs::OneMethod::listed))]
pub(super) fn tune_fields(method: &Tune) -> [Field<'_>; 7]
    ensures { ListsMethod result (tune_method method.now) }
{
    [
        Field::ShortUInt(10),
        Field::ShortUInt(30),
        Field::ShortUInt(method.channel_max),
        Field::LongUInt(method.frame_max),
        Field::ShortUInt(method.heartbeat),
        Field::Nothing,
        Field::Nothing,
    ]
}

/// The size in bytes of the method id and the fields of `Tune`.
pub fn size_tune(method: &Tune) -> Result<u64, GenError>
    ensures { Measures result (method_size (tune_method method.now)) }
{
    size_method_fields(&tune_fields(method))
}

/// Puts the method id and the fields of `Tune` at a place of a slice, and returns the place after.
pub fn put_tune(buf: &mut [u8], at: usize, method: &Tune) -> usize
    requires { HasRoom buf.old at (method_size (tune_method method.now))
        (method_bytes (tune_method method.now)) }
    ensures { Puts buf.old buf.new at (method_bytes (tune_method method.now)) result }
{
    put_method_fields(buf, at, &tune_fields(method))
}

/// Appends the method id and the fields of `Tune` to a vector.
pub fn gen_tune(_alloc: Global, out: &mut Vec<u8>, method: &Tune) -> Result<(), GenError>
    ensures { Appends out.old.items out.new.items (method_size (tune_method method.now))
        (method_bytes (tune_method method.now)) result }
{
    gen_method_fields(out, &tune_fields(method))
}

/// The client settles the limits.
#[derive(Clone, Debug, Drop, PartialEq)]
pub struct TuneOk {
    /// The highest channel number that the client will use; 0 is no limit.
    pub channel_max: ShortUInt,

    /// The largest frame size in bytes, with header and end, on the connection; 0 is no limit.
    pub frame_max: LongUInt,

    /// The delay between heartbeats in seconds that the client wishes for; 0 is none.
    pub heartbeat: ShortUInt,
}

impl Default for TuneOk {
    /// The method whose numbers are 0 and whose flags are false.
    fn default() -> TuneOk
        ensures { tune_ok_method result
            ≡ method 10 31 (number_item 0 ∷ number_item 0 ∷ number_item 0 ∷ []) }
    {
        TuneOk {
            channel_max: 0,
            frame_max: 0,
            heartbeat: 0,
        }
    }
}

impl TuneOk {
    /// The id of the class.
    pub fn get_amqp_class_id(&self) -> Identifier
        ensures { result ≡ 10 }
    {
        10
    }

    /// The id of the method in its class.
    pub fn get_amqp_method_id(&self) -> Identifier
        ensures { result ≡ 31 }
    {
        31
    }
}

/// Decodes the fields of `TuneOk`.
#[tactic(auto, using(amqp_types::proofs::Judged::refuses_next), unfolding(amqp_values::proofs::OneMethod::read_one_by_one))]
pub fn parse_tune_ok(_alloc: Global, i: &[u8]) -> Result<(usize, TuneOk), ParserError>
    ensures parsed { Parses tune_ok_method result i.now (judge_method 10 31) }
    ensures memory { NeedsNoMemory result }
{
    let mut slots = SlotReader::new(i);
    let channel_max = slots.short_uint()?;
    let frame_max = slots.long_uint()?;
    let heartbeat = slots.short_uint()?;
    let method = TuneOk {
        channel_max,
        frame_max,
        heartbeat,
    };
    Ok((slots.used(i), method))
}

/// Its ids and fields, in order.
#[tactic(auto, unfolding(amqp_values::proofs::OneMethod::listed))]
pub(super) fn tune_ok_fields(method: &TuneOk) -> [Field<'_>; 7]
    ensures { ListsMethod result (tune_ok_method method.now) }
{
    [
        Field::ShortUInt(10),
        Field::ShortUInt(31),
        Field::ShortUInt(method.channel_max),
        Field::LongUInt(method.frame_max),
        Field::ShortUInt(method.heartbeat),
        Field::Nothing,
        Field::Nothing,
    ]
}

/// The size in bytes of the method id and the fields of `TuneOk`.
pub fn size_tune_ok(method: &TuneOk) -> Result<u64, GenError>
    ensures { Measures result (method_size (tune_ok_method method.now)) }
{
    size_method_fields(&tune_ok_fields(method))
}

/// Puts the method id and the fields of `TuneOk` at a place of a slice, and returns the place after.
pub fn put_tune_ok(buf: &mut [u8], at: usize, method: &TuneOk) -> usize
    requires { HasRoom buf.old at (method_size (tune_ok_method method.now))
        (method_bytes (tune_ok_method method.now)) }
    ensures { Puts buf.old buf.new at (method_bytes (tune_ok_method method.now)) result }
{
    put_method_fields(buf, at, &tune_ok_fields(method))
}

/// Appends the method id and the fields of `TuneOk` to a vector.
pub fn gen_tune_ok(_alloc: Global, out: &mut Vec<u8>, method: &TuneOk) -> Result<(), GenError>
    ensures { Appends out.old.items out.new.items (method_size (tune_ok_method method.now))
        (method_bytes (tune_ok_method method.now)) result }
{
    gen_method_fields(out, &tune_ok_fields(method))
}
