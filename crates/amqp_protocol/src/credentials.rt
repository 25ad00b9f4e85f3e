//! How clients log in.

ghost use Rattle.std.specs.Prelude.{◌≡◌, ◌++◌, ◌∷◌, ◌≤◌, ◌<◌, ◌^◌, ◌+◌, ◌↔◌, length};
ghost use Rattle.std.specs.Prelude.{Err, IfOk, IsTrue, OnOk, codes};
ghost use Rattle.amqp_protocol.specs.Logins.{login_entry, login_bytes, demo_answer};

use amqp_types::{LongString, MakeError, NoMemory, TAG_LONG_STRING};
use std::alloc::{AllocError, Global};
use std::marker::Model;

/// How a client proves who it is.
#[derive(Clone, Copy, Debug, PartialEq, Eq)]
pub enum SASLMechanism {
    /// User name and password, as entries of a table.
    AMQPlain,

    /// Without a name: the response is empty.
    Anonymous,

    /// By what the transport knows of the client, such as its certificate: the response is empty.
    External,

    /// User name and password, each after a zero byte (RFC 4616).
    Plain,

    /// A challenge and its response, for the demonstration of such mechanisms.
    RabbitCrDemo,
}

/// A user name and a password.
#[derive(Debug, Drop, PartialEq, Eq)]
pub struct AMQPUserInfo {
    /// The user name.
    pub username: LongString,

    /// The password.
    pub password: LongString,
}

impl AMQPUserInfo {
    /// A deep copy.
    pub fn copy(&self, alloc: Global) -> Result<AMQPUserInfo, NoMemory>
        ensures { IfOk result (λ copied. copied ≡ self.now) }
    {
        Ok(AMQPUserInfo {
            username: self.username.copy(alloc)?,
            password: self.password.copy(alloc)?,
        })
    }
}

/// What a client logs in with.
#[derive(Debug, Drop, PartialEq, Eq)]
pub struct Credentials {
    username: LongString,
    password: LongString,
}

impl Model for Credentials {
    ghost use Rattle.amqp_protocol.specs.Logins.{Login};

    ghost Value = { Login };

    ghost view = { λ credentials.
        record { username = credentials.username; password = credentials.password } };

    ghost inverse = { λ login. record { username = login.username; password = login.password } };
}

/// The greatest number of bytes in a long string.
const MOST_BYTES: usize = 4_294_967_295;

/// How many bytes of the entries of AMQPlain are neither user name nor password: two keys with their lengths, two tags
/// and two lengths.
const ENTRIES_BYTES: usize = 25;

/// What the response to the challenge of `RabbitCrDemo` says before the password.
const DEMO_WORDS: &[u8] = b"My password is ";

/// Whether a user name, a password and this many bytes around them fit a long string.
fn fits(around: usize, username: &[u8], password: &[u8]) -> bool
    requires { around < 2 ^ 32 }
    ensures { IsTrue result ↔ around + (length username.now + length password.now) < 2 ^ 32 }
{
    username.len() <= MOST_BYTES - around && password.len() <= MOST_BYTES - around - username.len()
}

/// Appends an entry whose value is a long string.
fn append_entry(out: &mut Vec<u8>, key: &str, content: &[u8]) -> Result<(), AllocError>
    requires short_key { length key.now < 256 }
    requires short_content { length content.now < 2 ^ 32 }
    ensures { OnOk result (out.new.items ≡ out.old.items ++ login_entry key.now content.now) }
{
    out.push(key.len() as u8)?;
    out.extend_from_slice(key.as_bytes())?;
    out.push(TAG_LONG_STRING)?;
    out.extend_from_slice(&(content.len() as u32).to_be_bytes())?;
    out.extend_from_slice(content)?;
    Ok(())
}

/// User name and password as entries of a table.
fn amqplain(alloc: Global, username: &[u8], password: &[u8]) -> Result<LongString, MakeError>
    ensures ok { IfOk result (λ string. string
        ≡ login_entry (codes "LOGIN") username.now ++ login_entry (codes "PASSWORD") password.now) }
    ensures too_long { result ≡ Err MakeError.TooLong
        ↔ 2 ^ 32
        ≤ length
        (login_entry (codes "LOGIN") username.now ++ login_entry (codes "PASSWORD") password.now) }
{
    if !fits(ENTRIES_BYTES, username, password) {
        return Err(MakeError::TooLong);
    }
    let mut out = Vec::new(alloc);
    append_entry(&mut out, "LOGIN", username)?;
    append_entry(&mut out, "PASSWORD", password)?;
    Ok(LongString::new(alloc, &out)?)
}

/// User name and password, each after a zero byte.
fn plain(alloc: Global, username: &[u8], password: &[u8]) -> Result<LongString, MakeError>
    ensures ok { IfOk result (λ string. string ≡ 0 ∷ (username.now ++ (0 ∷ password.now))) }
    ensures too_long { result ≡ Err MakeError.TooLong
        ↔ 2 ^ 32 ≤ length (0 ∷ (username.now ++ (0 ∷ password.now))) }
{
    if !fits(2, username, password) {
        return Err(MakeError::TooLong);
    }
    let mut out = Vec::new(alloc);
    out.extend_from_slice(&[0])?;
    out.extend_from_slice(username)?;
    out.extend_from_slice(&[0])?;
    out.extend_from_slice(password)?;
    Ok(LongString::new(alloc, &out)?)
}

/// The user name alone.
fn name_alone(alloc: Global, username: &[u8]) -> Result<LongString, MakeError>
    ensures ok { IfOk result (λ string. string ≡ username.now) }
    ensures too_long { result ≡ Err MakeError.TooLong ↔ 2 ^ 32 ≤ length username.now }
{
    if !fits(0, username, &[]) {
        return Err(MakeError::TooLong);
    }
    Ok(LongString::new(alloc, username)?)
}

impl Credentials {
    /// Credentials of a user name and a password.
    pub fn new(username: LongString, password: LongString) -> Credentials
        ensures { result ≡ record { username = username; password = password } }
    {
        Credentials { username, password }
    }

    /// Credentials of the same user name and password.
    pub fn from_user_info(info: AMQPUserInfo) -> Credentials
        ensures { result ≡ record { username = info.username; password = info.password } }
    {
        Credentials::new(info.username, info.password)
    }

    /// The user name and password of a server that has not been set up.
    pub fn guest(alloc: Global) -> Result<Credentials, NoMemory>
        ensures { IfOk result (λ credentials. credentials ≡ record {
          username = codes "guest";
          password = codes "guest";
        }) }
    {
        let username = LongString::new(alloc, b"guest")?;
        let password = LongString::new(alloc, b"guest")?;
        Ok(Credentials::new(username, password))
    }

    /// The user name.
    pub fn username(&self) -> &LongString
        ensures { result.now ≡ self.now.username }
    {
        &self.username
    }

    /// The password.
    pub fn password(&self) -> &LongString
        ensures { result.now ≡ self.now.password }
    {
        &self.password
    }

    /// A deep copy.
    pub fn copy(&self, alloc: Global) -> Result<Credentials, NoMemory>
        ensures { IfOk result (λ copied. copied ≡ self.now) }
    {
        Ok(Credentials {
            username: self.username.copy(alloc)?,
            password: self.password.copy(alloc)?,
        })
    }

    /// The first response of a mechanism, for `StartOk`; `TooLong` where it has 2^32 bytes or more.
    pub fn sasl_auth_string(
        &self,
        alloc: Global,
        mechanism: SASLMechanism,
    ) -> Result<LongString, MakeError>
        ensures ok { IfOk result (λ string. string ≡ login_bytes mechanism self.now) }
        ensures too_long { result ≡ Err MakeError.TooLong
            ↔ 2 ^ 32 ≤ length (login_bytes mechanism self.now) }
    {
        let username = self.username.as_bytes();
        let password = self.password.as_bytes();
        match mechanism {
            SASLMechanism::AMQPlain => amqplain(alloc, username, password),
            SASLMechanism::Anonymous | SASLMechanism::External => Ok(LongString::empty(alloc)),
            SASLMechanism::Plain => plain(alloc, username, password),
            SASLMechanism::RabbitCrDemo => name_alone(alloc, username),
        }
    }

    /// The challenge of a server by the mechanism `RabbitCrDemo`.
    pub fn rabbit_cr_demo_challenge(&self) -> &'static str
        ensures { result.now ≡ codes "Please tell me your password" }
    {
        "Please tell me your password"
    }

    /// The response of the client to that challenge; `TooLong` where it has 2^32 bytes or more.
    pub fn rabbit_cr_demo_answer(&self, alloc: Global) -> Result<LongString, MakeError>
        ensures ok { IfOk result (λ string. string ≡ demo_answer self.now) }
        ensures too_long { result ≡ Err MakeError.TooLong ↔ 2 ^ 32 ≤ length (demo_answer self.now) }
    {
        let password = self.password.as_bytes();
        if !fits(DEMO_WORDS.len(), &[], password) {
            return Err(MakeError::TooLong);
        }
        let mut answer = Vec::new(alloc);
        answer.extend_from_slice(DEMO_WORDS)?;
        answer.extend_from_slice(password)?;
        Ok(LongString::new(alloc, &answer)?)
    }
}
