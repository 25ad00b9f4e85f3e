//! The words of a line read, as the bytes that they stand for: numbers, hex, quoted strings and flags. Any text is read
//! as something: the bytes are rendered again, and a text that differs is refused.
#![tactic(auto)]

ghost use Rattle.std.specs.Prelude.{◌≡◌, ◌≤◌, ◌<◌, ◌+◌, ◌-◌, ◌*◌, ◌%◌, ◌^◌, ◌++◌, length};
ghost use Rattle.std.specs.Prelude.{get_or, replicate, IfOk, OnOk};
ghost use Rattle.amqp_types.specs.Flags.{bit_of};
ghost use Rattle.amqp_types.specs.Writing.{written};
ghost use Rattle.amqp_lines.specs.Reading.{Finds, Reads, ends_at, first_is, inside, is_digit};
ghost use Rattle.amqp_lines.specs.Reading.{is_hex, last_bytes, nibble, read_bits, read_digits};
ghost use Rattle.amqp_lines.specs.Reading.{read_escaped, read_flags, read_hex, read_number};
ghost use Rattle.amqp_lines.specs.Reading.{read_signs, read_string, read_truth};

use crate::words::write_bytes;
use amqp_canonical::bytes_from;
use amqp_types::{NoMemory, grow, put_bytes};

/// Whether the first character is this one.
#[inline(always)]
pub(crate) fn begins_with(i: &[u8], c: u8) -> bool
    ensures { result ≡ first_is c i.now }
{
    match i {
        [first, ..] => *first == c,
        [] => false,
    }
}

/// Whether the text ends, or begins with this character.
#[inline(always)]
pub(crate) fn ends_at(i: &[u8], c: u8) -> bool
    ensures { result ≡ ends_at c i.now }
{
    match i {
        [first, ..] => *first == c,
        [] => true,
    }
}

/// Whether a character is a digit of a number.
#[inline(always)]
#[tactic(auto, unfolding(crate::specs::Reading::is_digit))]
fn is_digit(c: u8) -> bool
    ensures { result ≡ is_digit c }
{
    b'0' <= c && c <= b'9'
}

/// A number with one more digit, of which 8 bytes are kept.
#[inline(always)]
fn with_digit(number: u64, c: u8) -> u64
    ensures { result ≡ (10 * number + (c - 48)) % 2 ^ 64 }
{
    number
        .wrapping_mul(10)
        .wrapping_add(c.saturating_sub(48) as u64)
}

/// The number in decimal at the front, and the text after it.
#[tactic(auto, using(crate::proofs::ReadSteps::digits_none, crate::proofs::ReadSteps::digits_end, crate::proofs::ReadSteps::digits_next, crate::proofs::ReadSteps::found))]
fn read_digits(i: &[u8]) -> (u64, &[u8])
    ensures { Finds (read_digits 0 i.now) result.0 result.1.now }
{
    let mut number = 0;
    let mut rest = i;
    while let [c, ..] = rest {
        if !is_digit(*c) {
            return (number, rest);
        }
        number = with_digit(number, *c);
        rest = bytes_from(rest, 1);
    }
    (number, rest)
}

/// The number at the front, in two's complement where it is below zero, and the text after it.
#[tactic(auto, unfolding(crate::specs::Reading::read_bits))]
pub(crate) fn read_bits(i: &[u8]) -> (u64, &[u8])
    ensures { Finds (read_bits i.now) result.0 result.1.now }
{
    if begins_with(i, b'-') {
        let (number, rest) = read_digits(bytes_from(i, 1));
        return (0u64.wrapping_sub(number), rest);
    }
    read_digits(i)
}

/// Appends so many bytes of a number.
#[tactic(auto, unfolding(crate::specs::Reading::read_number))]
pub(crate) fn read_number<'a>(
    out: &mut Vec<u8>,
    count: usize,
    i: &'a [u8],
) -> Result<&'a [u8], NoMemory>
    requires few { count ≤ 8 }
    ensures { Reads (λ rest. rest.now)
        (read_number count i.now) out.old.items out.new.items result }
{
    let (number, rest) = read_bits(i);
    write_bytes(out, bytes_from(&number.to_be_bytes(), 8 - count))?;
    Ok(rest)
}

/// Appends the byte of a truth value.
#[tactic(auto, unfolding(crate::specs::Reading::read_truth))]
pub(crate) fn read_truth<'a>(out: &mut Vec<u8>, i: &'a [u8]) -> Result<&'a [u8], NoMemory>
    ensures { Reads (λ rest. rest.now) (read_truth i.now) out.old.items out.new.items result }
{
    out.push(if begins_with(i, b'1') { 1 } else { 0 })?;
    Ok(bytes_from(i, 1))
}

/// The bit of a sign.
#[inline(always)]
fn sign_bit(i: &[u8]) -> u8
    ensures { result ≡ bit_of (first_is 43 i.now) }
{
    if begins_with(i, b'+') { 1 } else { 0 }
}

/// The byte that has as many signs at the front as flags, and the text after them.
#[tactic(auto, unfolding(crate::specs::Reading::read_signs))]
fn read_signs(i: &[u8], count: u8) -> (u8, &[u8])
    ensures { Finds (read_signs count i.now) result.0 result.1.now }
{
    if count == 0 {
        return (0, i);
    }
    let (above, rest) = read_signs(bytes_from(i, 1), count - 1);
    (above.wrapping_mul(2).wrapping_add(sign_bit(i)), rest)
}

/// Appends the byte of so many flags.
#[tactic(auto, unfolding(crate::specs::Reading::read_flags))]
pub(crate) fn read_flags<'a>(
    out: &mut Vec<u8>,
    count: u8,
    i: &'a [u8],
) -> Result<&'a [u8], NoMemory>
    ensures { Reads (λ rest. rest.now) (read_flags count i.now) out.old.items out.new.items result }
{
    let (byte, rest) = read_signs(i, count);
    out.push(byte)?;
    Ok(rest)
}

/// Whether a character is a digit of a byte in hex.
#[inline(always)]
#[tactic(auto, unfolding(crate::specs::Reading::is_hex))]
fn is_hex(c: u8) -> bool
    ensures { result ≡ is_hex c }
{
    is_digit(c) || (b'a' <= c && c <= b'f')
}

/// What a digit of a byte in hex is worth.
#[inline(always)]
#[tactic(auto, unfolding(crate::specs::Reading::nibble))]
fn nibble(c: u8) -> u8
    ensures worth { result ≡ nibble c }
    ensures bound { result < 16 }
{
    if c < 58 {
        return c.saturating_sub(48) % 16;
    }
    c.saturating_sub(87) % 16
}

/// The byte of two digits in hex.
#[inline(always)]
fn hex_byte(high: u8, low: u8) -> u8
    ensures { result ≡ 16 * nibble high + nibble low }
{
    16 * nibble(high) + nibble(low)
}

/// Appends the bytes of pairs of characters, as long as the first of a pair is a hex digit; the second is not tested.
pub(crate) fn read_hex<'a>(out: &mut Vec<u8>, i: &'a [u8]) -> Result<&'a [u8], NoMemory>
    ensures { Reads (λ rest. rest.now) (read_hex i.now) out.old.items out.new.items result }
{
    let mut rest = i;
    while let [a, b, ..] = rest {
        if !is_hex(*a) {
            return Ok(rest);
        }
        out.push(hex_byte(*a, *b))?;
        rest = bytes_from(rest, 2);
    }
    Ok(rest)
}

/// The character at a place, or 0 where the text ends before.
#[inline(always)]
fn character(i: &[u8], place: usize) -> u8
    ensures { result ≡ get_or i.now place 0 }
{
    match i.get(place) {
        Some(c) => *c,
        None => 0,
    }
}

/// Appends a byte of a quoted string: that of two digits after a backslash, or the character itself.
#[tactic(auto, using(crate::proofs::ReadSteps::escape_two, crate::proofs::ReadSteps::escape_itself))]
pub(crate) fn read_escaped<'a>(out: &mut Vec<u8>, i: &'a [u8]) -> Result<&'a [u8], NoMemory>
    ensures { Reads (λ rest. rest.now) (read_escaped i.now) out.old.items out.new.items result }
{
    if begins_with(i, b'\\') {
        let byte = hex_byte(character(i, 1), character(i, 2));
        out.push(byte)?;
        return Ok(bytes_from(i, 3));
    }
    match i {
        [c, ..] => {
            out.push(*c)?;
            Ok(bytes_from(i, 1))
        }
        [] => Ok(i),
    }
}

/// Appends the bytes of a quoted string after its quote.
fn read_characters<'a>(out: &mut Vec<u8>, i: &'a [u8]) -> Result<&'a [u8], NoMemory>
    ensures { Reads (λ rest. rest.now)
        (inside read_escaped 34 i.now) out.old.items out.new.items result }
{
    let mut left = i.len();
    let mut rest = bytes_from(i, 1);
    'characters: while left > 0 {
        if ends_at(rest, b'"') {
            return Ok(bytes_from(rest, 1));
        }
        let next = read_escaped(out, rest)?;
        rest = next;
        left -= 1;
    }
    Ok(bytes_from(rest, 1))
}

/// Appends so many zero bytes, and returns where they begin.
#[inline(always)]
pub(crate) fn keep_place(out: &mut Vec<u8>, size: u64) -> Result<usize, NoMemory>
    ensures place { IfOk result (λ at. at ≡ length out.old.items) }
    ensures zeros { OnOk result (out.new.items ≡ out.old.items ++ replicate size 0) }
{
    match grow(out, size) {
        Ok(place) => Ok(place),
        Err(_) => Err(NoMemory),
    }
}

/// Puts so many bytes of a number at a place.
pub(crate) fn put_last(out: &mut Vec<u8>, place: usize, count: usize, number: u64)
    requires few { count ≤ 8 }
    requires room { place + count ≤ length out.old.items }
    ensures { out.new.items ≡ written out.old.items place (last_bytes count number) }
{
    put_bytes(out, place, bytes_from(&number.to_be_bytes(), 8 - count));
}

/// Puts the length of what stands after so many bytes at a place into them.
pub(crate) fn put_length(out: &mut Vec<u8>, place: usize, width: usize)
    requires few { width ≤ 8 }
    requires room { place + width ≤ length out.old.items }
    ensures { out.new.items
        ≡ written out.old.items place (last_bytes width (length out.old.items - (place + width))) }
{
    let size = out.len() - (place + width);
    put_last(out, place, width, size as u64)
}

/// Appends a quoted string, with its length in front.
pub(crate) fn read_string<'a>(
    out: &mut Vec<u8>,
    width: usize,
    i: &'a [u8],
) -> Result<&'a [u8], NoMemory>
    requires few { width ≤ 8 }
    ensures { Reads (λ rest. rest.now)
        (read_string width i.now) out.old.items out.new.items result }
{
    let place = keep_place(out, width as u64)?;
    let rest = read_characters(out, i)?;
    put_length(out, place, width);
    Ok(rest)
}
