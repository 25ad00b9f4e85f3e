//! What clients log in with.

use amqp_protocol::{AMQPUserInfo, Credentials, SASLMechanism};
use amqp_types::{LongString, MakeError};
use amqp_vectors::asking::{answers, same};
use std::alloc::Global;
use std::test::Fail;

/// These bytes. Where memory is refused there are none, and the test fails.
fn string(alloc: Global, bytes: &[u8]) -> LongString {
    match LongString::new(alloc, bytes) {
        Ok(string) => string,
        Err(_) => LongString::empty(alloc),
    }
}

/// Fails unless the call returned these bytes.
fn is_string(found: Result<LongString, MakeError>, wanted: &[u8]) -> Result<(), Fail> {
    same(found?.as_bytes(), wanted)
}

/// Fails unless a client with these credentials sends these bytes by the mechanisms, and answers a challenge so.
fn sends(
    alloc: Global,
    credentials: &Credentials,
    by_table: &[u8],
    by_plain: &[u8],
    by_demonstration: &[u8],
    answer: &[u8],
) -> Result<(), Fail> {
    is_string(
        credentials.sasl_auth_string(alloc, SASLMechanism::AMQPlain),
        by_table,
    )?;
    is_string(
        credentials.sasl_auth_string(alloc, SASLMechanism::Anonymous),
        b"",
    )?;
    is_string(
        credentials.sasl_auth_string(alloc, SASLMechanism::External),
        b"",
    )?;
    is_string(
        credentials.sasl_auth_string(alloc, SASLMechanism::Plain),
        by_plain,
    )?;
    is_string(
        credentials.sasl_auth_string(alloc, SASLMechanism::RabbitCrDemo),
        by_demonstration,
    )?;
    same(
        credentials.rabbit_cr_demo_challenge(),
        "Please tell me your password",
    )?;
    is_string(credentials.rabbit_cr_demo_answer(alloc), answer)?;
    answers(credentials.copy(alloc), credentials)
}

/// Fails unless these are the credentials of the user, whose copy is equal.
fn are_of(alloc: Global, credentials: &Credentials, user: &AMQPUserInfo) -> Result<(), Fail> {
    same(credentials.username(), &user.username)?;
    same(credentials.password(), &user.password)?;
    answers(user.copy(alloc), user)?;
    answers(
        user.copy(alloc).map(Credentials::from_user_info),
        credentials,
    )
}

fn guest_logs_in(alloc: Global, guest: &Credentials) -> Result<(), Fail> {
    sends(
        alloc,
        guest,
        b"\x05LOGINS\0\0\0\x05guest\x08PASSWORDS\0\0\0\x05guest",
        b"\0guest\0guest",
        b"guest",
        b"My password is guest",
    )?;
    let user = AMQPUserInfo {
        username: string(alloc, b"guest"),
        password: string(alloc, b"guest"),
    };
    are_of(alloc, guest, &user)
}

#[test]
fn guests_log_in(rt: HostRuntime) -> Result<(), Fail> {
    guest_logs_in(rt.alloc(), &Credentials::guest(rt.alloc())?)
}

/// The user name and the password differ in each byte and in length.
#[test]
fn users_log_in(rt: HostRuntime) -> Result<(), Fail> {
    let alloc = rt.alloc();
    sends(
        alloc,
        &Credentials::new(string(alloc, b"me"), string(alloc, b"abc")),
        b"\x05LOGINS\0\0\0\x02me\x08PASSWORDS\0\0\0\x03abc",
        b"\0me\0abc",
        b"me",
        b"My password is abc",
    )
}
