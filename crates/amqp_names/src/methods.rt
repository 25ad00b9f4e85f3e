//! The classes and their methods, as the reference of the standard has them, with the class access of earlier versions and
//! the extensions that RabbitMQ has made.

ghost use Rattle.std.specs.Prelude.{◌≡◌, ◌==◌, ◌≤◌, length, map, IfSome};
ghost use Rattle.std.specs.Prelude.{option_copied, option_map, slice_get};
ghost use Rattle.std.specs.List.{find, flat_map};
ghost use Rattle.amqp_types.specs.Rows.{classes as rows, rows_of};
ghost use Rattle.amqp_names.specs.Names.{class_names};
ghost use Rattle.amqp_names.specs.Tables.{all_kinds, all_methods, class_at, class_kinds};
ghost use Rattle.amqp_names.specs.Tables.{class_names_of, kinds_at, kinds_of, known_kinds};
ghost use Rattle.amqp_names.specs.Tables.{known_rows, located, located_kinds, method_in};
ghost use Rattle.amqp_names.specs.Tables.{method_kinds, method_names, methods_of, row_kinds};

use crate::kinds::{FLAG, LONG, LONG_LONG, LONG_STRING, OCTET, SHORT, SHORT_STRING, TABLE};
use crate::naming::{Class, Field, Follows, Method, MethodAt};
use amqp_types::Identifier;

/// A row: the id, the name, what follows the method, and its fields.
macro_rules! method {
    ($id:literal, $name:literal, $follows:ident $(, $field:literal: $kind:ident)*) => {
        Method {
            id: $id,
            name: $name,
            fields: &[$(Field { name: $field, kind: $kind }),*],
            follows: Follows::$follows,
        }
    };
}

/// A class: the id, the name and its methods.
macro_rules! class {
    ($id:literal, $name:literal, $methods:ident) => {
        Class {
            id: $id,
            name: $name,
            methods: $methods,
        }
    };
}

/// Opening and closing a connection, and what both peers agree on.
const CONNECTION: &[Method] = &[
    method!(10, "start", Answer, "version-major": OCTET, "version-minor": OCTET,
        "server-properties": TABLE, "mechanisms": LONG_STRING, "locales": LONG_STRING),
    method!(11, "start-ok", Nothing, "client-properties": TABLE, "mechanism": SHORT_STRING,
        "response": LONG_STRING, "locale": SHORT_STRING),
    method!(20, "secure", Answer, "challenge": LONG_STRING),
    method!(21, "secure-ok", Nothing, "response": LONG_STRING),
    method!(30, "tune", Answer, "channel-max": SHORT, "frame-max": LONG, "heartbeat": SHORT),
    method!(31, "tune-ok", Nothing, "channel-max": SHORT, "frame-max": LONG, "heartbeat": SHORT),
    method!(40, "open", Answer, "virtual-host": SHORT_STRING),
    method!(41, "open-ok", Nothing),
    method!(50, "close", Answer, "reply-code": SHORT, "reply-text": SHORT_STRING, "class-id": SHORT,
        "method-id": SHORT),
    method!(51, "close-ok", Nothing),
    method!(60, "blocked", Nothing, "reason": SHORT_STRING),
    method!(61, "unblocked", Nothing),
    method!(70, "update-secret", Answer, "new-secret": LONG_STRING, "reason": SHORT_STRING),
    method!(71, "update-secret-ok", Nothing),
];

/// Opening and closing a channel, and its flow of content.
const CHANNEL: &[Method] = &[
    method!(10, "open", Answer),
    method!(11, "open-ok", Nothing),
    method!(20, "flow", Answer, "active": FLAG),
    method!(21, "flow-ok", Nothing, "active": FLAG),
    method!(40, "close", Answer, "reply-code": SHORT, "reply-text": SHORT_STRING, "class-id": SHORT,
        "method-id": SHORT),
    method!(41, "close-ok", Nothing),
];

/// Access to a realm, as earlier versions of the standard had it.
const ACCESS: &[Method] = &[
    method!(10, "request", Answer, "realm": SHORT_STRING, "exclusive": FLAG, "passive": FLAG,
        "active": FLAG, "write": FLAG, "read": FLAG),
    method!(11, "request-ok", Nothing),
];

/// Exchanges, and how they are bound to one another.
const EXCHANGE: &[Method] = &[
    method!(10, "declare", Answer, "exchange": SHORT_STRING, "type": SHORT_STRING, "passive": FLAG,
        "durable": FLAG, "auto-delete": FLAG, "internal": FLAG, "no-wait": FLAG,
        "arguments": TABLE),
    method!(11, "declare-ok", Nothing),
    method!(20, "delete", Answer, "exchange": SHORT_STRING, "if-unused": FLAG, "no-wait": FLAG),
    method!(21, "delete-ok", Nothing),
    method!(30, "bind", Answer, "destination": SHORT_STRING, "source": SHORT_STRING,
        "routing-key": SHORT_STRING, "no-wait": FLAG, "arguments": TABLE),
    method!(31, "bind-ok", Nothing),
    method!(40, "unbind", Answer, "destination": SHORT_STRING, "source": SHORT_STRING,
        "routing-key": SHORT_STRING, "no-wait": FLAG, "arguments": TABLE),
    method!(51, "unbind-ok", Nothing),
];

/// Queues, and how they are bound to exchanges.
const QUEUE: &[Method] = &[
    method!(10, "declare", Answer, "queue": SHORT_STRING, "passive": FLAG, "durable": FLAG,
        "exclusive": FLAG, "auto-delete": FLAG, "no-wait": FLAG, "arguments": TABLE),
    method!(11, "declare-ok", Nothing, "queue": SHORT_STRING, "message-count": LONG, "consumer-count": LONG),
    method!(20, "bind", Answer, "queue": SHORT_STRING, "exchange": SHORT_STRING,
        "routing-key": SHORT_STRING, "no-wait": FLAG, "arguments": TABLE),
    method!(21, "bind-ok", Nothing),
    method!(30, "purge", Answer, "queue": SHORT_STRING, "no-wait": FLAG),
    method!(31, "purge-ok", Nothing, "message-count": LONG),
    method!(40, "delete", Answer, "queue": SHORT_STRING, "if-unused": FLAG, "if-empty": FLAG,
        "no-wait": FLAG),
    method!(41, "delete-ok", Nothing, "message-count": LONG),
    method!(50, "unbind", Answer, "queue": SHORT_STRING, "exchange": SHORT_STRING,
        "routing-key": SHORT_STRING, "arguments": TABLE),
    method!(51, "unbind-ok", Nothing),
];

/// Sending messages, and receiving and acknowledging them.
const BASIC: &[Method] = &[
    method!(10, "qos", Answer, "prefetch-count": SHORT, "global": FLAG),
    method!(11, "qos-ok", Nothing),
    method!(20, "consume", Answer, "queue": SHORT_STRING, "consumer-tag": SHORT_STRING,
        "no-local": FLAG, "no-ack": FLAG, "exclusive": FLAG, "no-wait": FLAG, "arguments": TABLE),
    method!(21, "consume-ok", Nothing, "consumer-tag": SHORT_STRING),
    method!(30, "cancel", Answer, "consumer-tag": SHORT_STRING, "no-wait": FLAG),
    method!(31, "cancel-ok", Nothing, "consumer-tag": SHORT_STRING),
    method!(40, "publish", Content, "exchange": SHORT_STRING, "routing-key": SHORT_STRING,
        "mandatory": FLAG, "immediate": FLAG),
    method!(50, "return", Content, "reply-code": SHORT, "reply-text": SHORT_STRING,
        "exchange": SHORT_STRING, "routing-key": SHORT_STRING),
    method!(60, "deliver", Content, "consumer-tag": SHORT_STRING, "delivery-tag": LONG_LONG,
        "redelivered": FLAG, "exchange": SHORT_STRING, "routing-key": SHORT_STRING),
    method!(70, "get", Answer, "queue": SHORT_STRING, "no-ack": FLAG),
    method!(71, "get-ok", Content, "delivery-tag": LONG_LONG, "redelivered": FLAG,
        "exchange": SHORT_STRING, "routing-key": SHORT_STRING, "message-count": LONG),
    method!(72, "get-empty", Nothing),
    method!(80, "ack", Nothing, "delivery-tag": LONG_LONG, "multiple": FLAG),
    method!(90, "reject", Nothing, "delivery-tag": LONG_LONG, "requeue": FLAG),
    method!(100, "recover-async", Nothing, "requeue": FLAG),
    method!(110, "recover", Answer, "requeue": FLAG),
    method!(111, "recover-ok", Nothing),
    method!(120, "nack", Nothing, "delivery-tag": LONG_LONG, "multiple": FLAG, "requeue": FLAG),
];

/// Confirms of what was published.
const CONFIRM: &[Method] = &[
    method!(10, "select", Answer, "nowait": FLAG),
    method!(11, "select-ok", Nothing),
];

/// Transactions.
const TX: &[Method] = &[
    method!(10, "select", Answer),
    method!(11, "select-ok", Nothing),
    method!(20, "commit", Answer),
    method!(21, "commit-ok", Nothing),
    method!(30, "rollback", Answer),
    method!(31, "rollback-ok", Nothing),
];

/// The classes, by ascending ids.
const CLASSES: &[Class] = &[
    class!(10, "connection", CONNECTION),
    class!(20, "channel", CHANNEL),
    class!(30, "access", ACCESS),
    class!(40, "exchange", EXCHANGE),
    class!(50, "queue", QUEUE),
    class!(60, "basic", BASIC),
    class!(85, "confirm", CONFIRM),
    class!(90, "tx", TX),
];

/// All classes, by ascending ids, each with its methods by ascending ids.
pub fn classes() -> &'static [Class]
    ensures names { map class_names_of result.now ≡ class_names }
    ensures kinds { map known_kinds result.now ≡ map known_rows rows }
{
    CLASSES
}

/// The class of an id among some.
fn class_among(classes: &[Class], class_id: Identifier) -> Option<&Class>
    ensures { option_copied result ≡ find (λ c. class_id == c.id) classes.now }
{
    classes.iter().find(|class| class_id == class.id)
}

/// The class of an id.
pub fn find_class(class_id: Identifier) -> Option<Class>
    ensures names { option_map class_names_of result ≡ class_at class_id }
    ensures kinds { option_map class_kinds result ≡ option_map row_kinds (rows_of class_id) }
{
    class_among(classes(), class_id).copied()
}

/// The method of an id among some.
fn method_among(methods: &[Method], method_id: Identifier) -> Option<&Method>
    ensures { option_copied result ≡ find (λ m. method_id == m.id) methods.now }
{
    methods.iter().find(|method| method_id == method.id)
}

/// The method of an id in a class.
pub fn find_method(class_id: Identifier, method_id: Identifier) -> Option<Method>
    ensures names { option_map method_names result ≡ method_in class_id method_id }
    ensures kinds { option_map method_kinds result ≡ kinds_at class_id method_id }
{
    match find_class(class_id) {
        Some(class) => method_among(class.methods, method_id).copied(),
        None => None,
    }
}

/// Method `k` of these classes, counted from 0.
fn counted(classes: &'static [Class], k: usize) -> Option<MethodAt>
    ensures names { option_map located result
        ≡ slice_get (flat_map methods_of (map class_names_of classes.now)) k }
    ensures kinds { option_map located_kinds result
        ≡ slice_get (flat_map kinds_of (map known_kinds classes.now)) k }
{
    let [class, others @ ..] = classes else {
        return None;
    };
    let found = class.methods.get(k).copied();
    match found {
        Some(method) => Some(MethodAt {
            class_id: class.id,
            method,
        }),
        None => counted(others, k - class.methods.len()),
    }
}

/// Method `k` of all, counted from 0: by ascending ids of classes, and of methods in each.
pub fn method_at(k: u8) -> Option<MethodAt>
    ensures names { option_map located result ≡ slice_get all_methods k }
    ensures kinds { option_map located_kinds result ≡ slice_get all_kinds k }
    ensures few { IfSome result (λ m. length m.method.fields.now ≤ 8) }
{
    counted(classes(), k as usize)
}
