//! Short strings decoded without memory. Most are ASCII, which is tested eight bytes at a time, and most of these have
//! eight to sixteen.

ghost use Rattle.std.specs.Prelude.{◌≡◌, ◌≤◌, ◌<◌, length, IfOk};
ghost use Rattle.std.specs.Str.{is_utf8};
ghost use Rattle.amqp_types.specs.Answers.{AnswersFully};
ghost use Rattle.amqp_types.specs.Strings.{judge_short_string};

use crate::ascii::eights_are_ascii;
use amqp_types::ParserError;
use std::str;

/// Whether bytes that are not all ASCII are UTF-8.
#[inline(never)]
fn is_utf8_text(bytes: &[u8]) -> bool
    ensures { result ≡ is_utf8 bytes.now }
{
    match str::from_utf8(bytes) {
        Ok(_) => true,
        Err(_) => false,
    }
}

/// Whether bytes are UTF-8, which ASCII is.
#[inline(always)]
pub fn is_text(bytes: &[u8]) -> bool
    ensures { result ≡ is_utf8 bytes.now }
{
    let n = bytes.len();
    if 8 <= n && n <= 16 && eights_are_ascii(bytes) {
        return true;
    }
    if bytes.is_ascii() {
        return true;
    }
    is_utf8_text(bytes)
}

/// Decodes a short string, and borrows its text.
#[inline(always)]
#[tactic(auto, unfolding(amqp_types::specs::Strings::judge_short_string))]
pub(crate) fn short_text(i: &[u8]) -> Result<(usize, &[u8]), ParserError>
    ensures judged { AnswersFully (λ text. text.now) result (judge_short_string i.now) }
    ensures used { IfOk result (λ found. (0 < found.0) × (found.0 ≤ length i.now)) }
{
    match i {
        [] => Err(ParserError::Incomplete),
        [n, rest @ ..] => {
            let n = *n as usize;
            if rest.len() < n {
                return Err(ParserError::Incomplete);
            }
            let text = &rest[..n];
            if is_text(text) {
                Ok((1 + n, text))
            } else {
                Err(ParserError::NotUtf8)
            }
        }
    }
}
