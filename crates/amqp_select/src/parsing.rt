//! Reading a rule out of one word, part after part from the left.

ghost use Rattle.std.specs.Prelude.{◌≡◌, codes};
ghost use Rattle.std.specs.Option.{option_copied};
ghost use Rattle.std.specs.Str.Parse.{AllDigits};
ghost use Rattle.amqp_types.specs.Numerals.{number_named};
ghost use Rattle.amqp_select.specs.Reading.{Gives, after, at_end, digits_in_front, read_kind};
ghost use Rattle.amqp_select.specs.Reading.{read_count, read_part, read_rule, read_span, read_verb};

use crate::rule::{Rule, Span};
use amqp_types::parse_decimal;
use amqp_wire::AMQPFrameType;
use std::str;

/// What stands after this text, where it stands in front.
fn after<'a>(text: &[u8], bytes: &'a [u8]) -> Option<&'a [u8]>
    ensures { option_copied result ≡ after text.now bytes.now }
{
    bytes.strip_prefix(text)
}

/// `keep` or `drop`.
fn read_verb(bytes: &[u8]) -> Option<(bool, &[u8])>
    ensures { Gives (λ rest. rest.now) result (read_verb bytes.now) }
{
    if let Some(rest) = after(b"keep", bytes) {
        return Some((true, rest));
    }
    let rest = after(b"drop", bytes)?;
    Some((false, rest))
}

/// The number of digits in front.
fn count_digits(bytes: &[u8]) -> usize
    ensures { result ≡ digits_in_front bytes.now }
{
    bytes
        .iter()
        .take_while(|byte| byte.is_ascii_digit())
        .count()
}

/// The number that digits without a leading zero name, up to 65,535.
fn number_of(digits: &[u8]) -> Option<u16>
    requires { AllDigits 10 digits.now }
    ensures { result ≡ number_named 65535 digits.now }
{
    let Ok(text) = str::from_utf8(digits) else {
        return None;
    };
    let number = parse_decimal(text, u16::MAX as u32)?;
    Some(number as u16)
}

/// A number.
fn read_count(bytes: &[u8]) -> Option<(u16, &[u8])>
    ensures { Gives (λ rest. rest.now) result (read_count bytes.now) }
{
    let (digits, rest) = bytes.split_at(count_digits(bytes));
    let number = number_of(digits)?;
    Some((number, rest))
}

/// One channel, or a range of them.
fn read_span(bytes: &[u8]) -> Option<(Span, &[u8])>
    ensures { Gives (λ rest. rest.now) result (read_span bytes.now) }
{
    let (first, rest) = read_count(bytes)?;
    let Some(rest) = after(b"-", rest) else {
        return Some((Span::One(first), rest));
    };
    let (last, rest) = read_count(rest)?;
    if first > last {
        return None;
    }
    Some((Span::Range(first, last), rest))
}

/// A kind of frames by its name.
fn read_kind(bytes: &[u8]) -> Option<(AMQPFrameType, &[u8])>
    ensures { Gives (λ rest. rest.now) result (read_kind bytes.now) }
{
    if let Some(rest) = after(b"proto", bytes) {
        return Some((AMQPFrameType::ProtocolHeader, rest));
    }
    if let Some(rest) = after(b"method", bytes) {
        return Some((AMQPFrameType::Method, rest));
    }
    if let Some(rest) = after(b"header", bytes) {
        return Some((AMQPFrameType::Header, rest));
    }
    if let Some(rest) = after(b"body", bytes) {
        return Some((AMQPFrameType::Body, rest));
    }
    let rest = after(b"beat", bytes)?;
    Some((AMQPFrameType::Heartbeat, rest))
}

/// The channels, where that part stands in front.
fn read_channel_part(bytes: &[u8]) -> Option<(Option<Span>, &[u8])>
    ensures { Gives (λ rest. rest.now) result (read_part (codes ",channel=") read_span bytes.now) }
{
    let Some(rest) = after(b",channel=", bytes) else {
        return Some((None, bytes));
    };
    let (span, rest) = read_span(rest)?;
    Some((Some(span), rest))
}

/// The kind, where that part stands in front.
fn read_kind_part(bytes: &[u8]) -> Option<(Option<AMQPFrameType>, &[u8])>
    ensures { Gives (λ rest. rest.now) result (read_part (codes ",kind=") read_kind bytes.now) }
{
    let Some(rest) = after(b",kind=", bytes) else {
        return Some((None, bytes));
    };
    let (kind, rest) = read_kind(rest)?;
    Some((Some(kind), rest))
}

/// A number, where a part with this name stands in front.
fn read_id_part<'a>(name: &[u8], bytes: &'a [u8]) -> Option<(Option<u16>, &'a [u8])>
    ensures { Gives (λ rest. rest.now) result (read_part name.now read_count bytes.now) }
{
    let Some(rest) = after(name, bytes) else {
        return Some((None, bytes));
    };
    let (id, rest) = read_count(rest)?;
    Some((Some(id), rest))
}

/// The rule, where nothing comes after it.
fn at_end(rule: Rule, rest: &[u8]) -> Option<Rule>
    ensures { result ≡ at_end rule rest.now }
{
    if rest.is_empty() { Some(rule) } else { None }
}

/// The rule that the whole word is.
pub(crate) fn read_rule(word: &[u8]) -> Option<Rule>
    ensures { result ≡ read_rule word.now }
{
    let (keep, rest) = read_verb(word)?;
    let (channel, rest) = read_channel_part(rest)?;
    let (kind, rest) = read_kind_part(rest)?;
    let (class_id, rest) = read_id_part(b",class=", rest)?;
    let (method_id, rest) = read_id_part(b",method=", rest)?;
    let rule = Rule {
        keep,
        channel,
        kind,
        class_id,
        method_id,
    };
    at_end(rule, rest)
}
