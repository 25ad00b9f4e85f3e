//! Values, arrays and tables read from text, as their bytes.
#![tactic(auto)]

ghost use Rattle.std.specs.Prelude.{◌≡◌};
ghost use Rattle.amqp_lines.specs.Reading.{Reads, after_colon, closing, inside, or_comma};
ghost use Rattle.amqp_lines.specs.Reading.{read_behind, read_byte_array, read_decimal};
ghost use Rattle.amqp_lines.specs.Reading.{read_item, read_lists, read_value};

use crate::reading::words::{
    begins_with, ends_at, keep_place, put_length, read_hex, read_number, read_string, read_truth,
};
use amqp_canonical::bytes_from;
use amqp_types::{FieldTag, NoMemory};

/// A scale, a character and a number.
#[tactic(auto, unfolding(crate::specs::Reading::read_decimal))]
fn read_decimal<'a>(out: &mut Vec<u8>, i: &'a [u8]) -> Result<&'a [u8], NoMemory>
    ensures { Reads (λ rest. rest.now) (read_decimal i.now) out.old.items out.new.items result }
{
    let rest = read_number(out, 1, i)?;
    read_number(out, 4, bytes_from(rest, 1))
}

/// A byte array.
fn read_byte_array<'a>(out: &mut Vec<u8>, i: &'a [u8]) -> Result<&'a [u8], NoMemory>
    ensures { Reads (λ rest. rest.now) (read_byte_array i.now) out.old.items out.new.items result }
{
    let place = keep_place(out, 4)?;
    let rest = read_hex(out, i)?;
    put_length(out, place, 4);
    Ok(rest)
}

/// The text after the colon, where one follows the tag letter.
fn after_colon(tag: FieldTag, i: &[u8]) -> &[u8]
    ensures { result.now ≡ after_colon tag i.now }
{
    match tag {
        FieldTag::Void => i,
        _ => bytes_from(i, 1),
    }
}

/// What closes an array, or a table.
fn closing(keyed: bool) -> u8
    ensures { result ≡ closing keyed }
{
    if keyed { b'}' } else { b']' }
}

/// Appends the bytes of a value at the front, and returns the text after it. Tables and arrays may nest `depth_left` deep in
/// it.
#[cycle(read)]
fn read_value<'a>(out: &mut Vec<u8>, i: &'a [u8], depth_left: usize) -> Result<&'a [u8], NoMemory>
    ensures { Reads (λ rest. rest.now)
        (read_value depth_left i.now) out.old.items out.new.items result }
{
    match i {
        [] => Ok(i),
        [letter, ..] => {
            out.push(*letter)?;
            let rest = bytes_from(i, 1);
            match FieldTag::from_byte(*letter) {
                Some(tag) => read_after_tag(out, tag, after_colon(tag, rest), depth_left),
                None => Ok(rest),
            }
        }
    }
}

/// The value after a tag.
#[cycle(read)]
#[tactic(auto, unfolding(crate::specs::Reading::read_behind))]
fn read_after_tag<'a>(
    out: &mut Vec<u8>,
    tag: FieldTag,
    i: &'a [u8],
    depth_left: usize,
) -> Result<&'a [u8], NoMemory>
    ensures { Reads (λ rest. rest.now)
        (read_behind (read_lists depth_left) tag i.now) out.old.items out.new.items result }
{
    match tag {
        FieldTag::Boolean => read_truth(out, i),
        FieldTag::ShortShortInt | FieldTag::ShortShortUInt => read_number(out, 1, i),
        FieldTag::ShortInt | FieldTag::ShortUInt => read_number(out, 2, i),
        FieldTag::LongInt | FieldTag::LongUInt | FieldTag::Float => read_number(out, 4, i),
        FieldTag::LongLongInt | FieldTag::Double | FieldTag::Timestamp => read_number(out, 8, i),
        FieldTag::DecimalValue => read_decimal(out, i),
        FieldTag::LongString => read_string(out, 4, i),
        FieldTag::ByteArray => read_byte_array(out, i),
        FieldTag::FieldArray => read_list(out, i, false, depth_left),
        FieldTag::FieldTable => read_list(out, i, true, depth_left),
        FieldTag::Void => Ok(i),
    }
}

/// Appends the bytes of an array at the front, or where values have keys of a table, and returns the text after it.
/// Tables and arrays may nest `depth_left` deep, with this one.
#[cycle(read)]
pub(crate) fn read_list<'a>(
    out: &mut Vec<u8>,
    i: &'a [u8],
    keyed: bool,
    depth_left: usize,
) -> Result<&'a [u8], NoMemory>
    ensures { Reads (λ rest. rest.now)
        (read_lists depth_left keyed i.now) out.old.items out.new.items result }
{
    if depth_left == 0 {
        return Ok(i);
    }
    let place = keep_place(out, 4)?;
    let rest = read_items(out, i, keyed, depth_left - 1)?;
    put_length(out, place, 4);
    Ok(rest)
}

/// The values or entries after a bracket, up to its end.
#[cycle(read)]
fn read_items<'a>(
    out: &mut Vec<u8>,
    i: &'a [u8],
    keyed: bool,
    depth_left: usize,
) -> Result<&'a [u8], NoMemory>
    ensures { Reads (λ rest. rest.now)
        (inside (or_comma (read_item (read_value depth_left) keyed)) (closing keyed) i.now)
        out.old.items out.new.items result }
{
    let mut left = i.len();
    let mut rest = bytes_from(i, 1);
    'items: while left > 0 {
        if ends_at(rest, closing(keyed)) {
            return Ok(bytes_from(rest, 1));
        }
        let next = read_item(out, rest, keyed, depth_left)?;
        rest = next;
        left -= 1;
    }
    Ok(bytes_from(rest, 1))
}

/// A comma, which is passed, or a value, with its key in front where it has one.
#[cycle(read)]
#[tactic(auto, unfolding(crate::specs::Reading::or_comma))]
fn read_item<'a>(
    out: &mut Vec<u8>,
    i: &'a [u8],
    keyed: bool,
    depth_left: usize,
) -> Result<&'a [u8], NoMemory>
    ensures { Reads (λ rest. rest.now) (or_comma (read_item (read_value depth_left) keyed) i.now)
        out.old.items out.new.items result }
{
    if begins_with(i, b',') {
        return Ok(bytes_from(i, 1));
    }
    if !keyed {
        return read_value(out, i, depth_left);
    }
    let rest = read_string(out, 1, i)?;
    read_value(out, bytes_from(rest, 1), depth_left)
}
