//! What numbers, bytes and short strings hold, whatever a program does: each the contract of a function that does
//! nothing, which a caller calls where its proof needs the fact.

ghost use Rattle.std.specs.Prelude.{◌<◌, ◌^◌, length};
ghost use Rattle.std.specs.Str.{IsUtf8};
ghost use Rattle.amqp_types.specs.Judging.{IsBytes};

use crate::aliases::{LongLongUInt, LongUInt, ShortShortUInt, ShortUInt};
use crate::short_string::ShortString;

/// A number of 1 byte fits it.
#[inline(always)]
pub fn octet_held(n: ShortShortUInt)
    ensures { n < 2 ^ 8 }
{}

/// A number of 2 bytes fits them.
#[inline(always)]
pub fn short_held(n: ShortUInt)
    ensures { n < 2 ^ 16 }
{}

/// A number of 4 bytes fits them.
#[inline(always)]
pub fn long_held(n: LongUInt)
    ensures { n < 2 ^ 32 }
{}

/// A number of 8 bytes fits them.
#[inline(always)]
pub fn long_long_held(n: LongLongUInt)
    ensures { n < 2 ^ 64 }
{}

/// What is borrowed are bytes.
#[inline(always)]
pub fn are_bytes(bytes: &[u8])
    ensures { IsBytes bytes.now }
{}

/// A short string is a text of at most 255 bytes.
pub fn text_held(text: &ShortString)
    ensures short { length text.now < 256 }
    ensures utf8 { IsUtf8 text.now }
{
    let _text = text.as_str();
}
