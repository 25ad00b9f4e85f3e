//! The words that lines are made of, appended to a vector: numbers, bytes in hex, quoted strings and flags.

ghost use Rattle.std.specs.Prelude.{◌≡◌, ◌<◌, drop};
ghost use Rattle.std.specs.Fmt.{decimal, signed_decimal};
ghost use Rattle.amqp_types.specs.Flags.{flags_from};
ghost use Rattle.amqp_lines.specs.Words.{escaped, hex, hex_byte, hex_digit};
ghost use Rattle.amqp_lines.specs.Words.{is_plain, quoted, sign, signs};
ghost use Rattle.amqp_lines.specs.Rendering.{AppendsText};

use amqp_canonical::has_bit;
use amqp_types::NoMemory;

/// How many digits a number of 8 bytes has at most.
const MOST_DIGITS: usize = 20;

/// Appends bytes as they are.
#[inline(always)]
pub(crate) fn write_bytes(out: &mut Vec<u8>, bytes: &[u8]) -> Result<(), NoMemory>
    ensures { AppendsText out.old.items out.new.items bytes.now result }
{
    out.extend_from_slice(bytes)?;
    Ok(())
}

/// Puts the digits of a number at the end of a buffer, and returns where they begin.
#[tactic(auto, using(crate::proofs::Digits::has_room, crate::proofs::Digits::one_more, crate::proofs::Digits::last_one))]
fn put_digits(digits: &mut [u8; MOST_DIGITS], number: u64) -> usize
    ensures place { result < 20 }
    ensures digits { drop result digits.new ≡ decimal number }
{
    let mut place = MOST_DIGITS - 1;
    let mut rest = number;
    while rest >= 10 {
        digits[place] = b'0' + (rest % 10) as u8;
        rest /= 10;
        place -= 1;
    }
    digits[place] = b'0' + rest as u8;
    place
}

/// Appends a number in decimal.
pub(crate) fn write_decimal(out: &mut Vec<u8>, number: u64) -> Result<(), NoMemory>
    ensures { AppendsText out.old.items out.new.items (decimal number) result }
{
    let mut digits = [0; MOST_DIGITS];
    let place = put_digits(&mut digits, number);
    write_bytes(out, &digits[place..])
}

/// Appends a number in decimal, with its sign where it is below zero.
pub(crate) fn write_signed(out: &mut Vec<u8>, number: i64) -> Result<(), NoMemory>
    ensures { AppendsText out.old.items out.new.items (signed_decimal number) result }
{
    if number < 0 {
        out.push(b'-')?;
    }
    write_decimal(out, number.unsigned_abs())
}

/// A digit of a number in hex.
#[inline(always)]
#[tactic(auto, unfolding(crate::specs::Words::hex_digit))]
fn hex_digit(number: u8) -> u8
    requires { number < 16 }
    ensures { result ≡ hex_digit number }
{
    if number < 10 {
        b'0' + number
    } else {
        b'a' - 10 + number
    }
}

/// The two digits of a byte in hex.
#[inline(always)]
#[tactic(auto, unfolding(crate::specs::Words::hex_byte))]
fn hex_byte(byte: u8) -> [u8; 2]
    ensures { result ≡ hex_byte byte }
{
    [hex_digit(byte / 16), hex_digit(byte % 16)]
}

/// Appends bytes in hex.
#[tactic(auto, unfolding(crate::specs::Words::hex))]
pub(crate) fn write_hex(out: &mut Vec<u8>, bytes: &[u8]) -> Result<(), NoMemory>
    ensures { AppendsText out.old.items out.new.items (hex bytes.now) result }
{
    for byte in bytes {
        write_bytes(out, &hex_byte(*byte))?;
    }
    Ok(())
}

/// Whether a byte stands for itself in a quoted string.
#[inline(always)]
#[tactic(auto, unfolding(crate::specs::Words::is_plain))]
fn is_plain(byte: u8) -> bool
    ensures { result ≡ is_plain byte }
{
    32 <= byte && byte <= 126 && byte != b'"' && byte != b'\\'
}

/// Appends a byte of a quoted string.
#[inline(always)]
#[tactic(auto, unfolding(crate::specs::Words::escaped))]
fn write_escaped(out: &mut Vec<u8>, byte: u8) -> Result<(), NoMemory>
    ensures { AppendsText out.old.items out.new.items (escaped byte) result }
{
    if is_plain(byte) {
        out.push(byte)?;
        return Ok(());
    }
    out.push(b'\\')?;
    write_bytes(out, &hex_byte(byte))
}

/// Appends a quoted string.
#[tactic(auto, unfolding(crate::specs::Words::quoted))]
pub(crate) fn write_quoted(out: &mut Vec<u8>, bytes: &[u8]) -> Result<(), NoMemory>
    ensures { AppendsText out.old.items out.new.items (quoted bytes.now) result }
{
    out.push(b'"')?;
    for byte in bytes {
        write_escaped(out, *byte)?;
    }
    out.push(b'"')?;
    Ok(())
}

/// `+` for true, `-` for false.
#[inline(always)]
fn sign(flag: bool) -> u8
    ensures { result ≡ sign flag }
{
    if flag { b'+' } else { b'-' }
}

/// Appends a sign for each of so many flags of a byte, flag 0 first.
#[tactic(auto, using(crate::proofs::Digits::one_more_sign), unfolding(crate::specs::Words::signs))]
pub(crate) fn write_signs(out: &mut Vec<u8>, count: u8, byte: u8) -> Result<(), NoMemory>
    ensures { AppendsText out.old.items out.new.items (signs (flags_from count 0 byte)) result }
{
    for k in 0..count {
        out.push(sign(has_bit(byte as u16, k as u16)))?;
    }
    Ok(())
}
