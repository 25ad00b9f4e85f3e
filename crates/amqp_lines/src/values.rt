//! Values, arrays and tables as text, out of their canonical bytes.
#![tactic(auto, using(crate::proofs::Rendered::unrendered, crate::proofs::Rendered::rendered_next), unfolding(crate::specs::Rendering::WritesAfter))]

ghost use Rattle.std.specs.Prelude.{◌≡◌, ◌≤◌, ◌<◌, ◌+◌, length, IfOk};
ghost use Rattle.amqp_types.specs.Levels.{strict};
ghost use Rattle.amqp_types.specs.ValueSpelling.{SpellsArray, SpellsEntry};
ghost use Rattle.amqp_types.specs.ValueSpelling.{SpellsTable, SpellsValue};
ghost use Rattle.amqp_lines.specs.Values.{tag_text, table_text, truth_text, value_text};
ghost use Rattle.amqp_lines.specs.Rendering.{AppendsText, WritesAfter, WritesEach, WritesText};
ghost use Rattle.amqp_lines.specs.Rendering.{array_text, comma_before, entry_text};

use crate::words::{write_bytes, write_decimal, write_hex, write_quoted, write_signed};
use amqp_canonical::{bytes_from, split_key};
use amqp_types::{
    FieldTag, NoMemory, parse_boolean, parse_decimal_value, parse_long_bytes, parse_long_int,
    parse_long_long_int, parse_long_long_uint, parse_long_uint, parse_short_int,
    parse_short_short_int, parse_short_short_uint, parse_short_uint,
};

/// Writes what a parse call found, and gives the bytes that this takes: none where nothing was found.
macro_rules! write_found {
    ($found:expr, $it:ident => $written:expr) => {
        match $found {
            Ok((n, $it)) => {
                $written?;
                Ok(n)
            }
            Err(_) => Ok(0),
        }
    };
}

/// A truth value in one digit.
#[inline(always)]
fn truth_text(truth: bool) -> &'static [u8]
    ensures { result.now ≡ truth_text truth }
{
    if truth { b"1" } else { b"0" }
}

/// The value after a tag; nothing is written of an array or a table.
#[inline(always)]
pub(crate) fn write_leaf(out: &mut Vec<u8>, tag: FieldTag, i: &[u8]) -> Result<usize, NoMemory>
    ensures written { WritesAfter 0 tag i.now out.old.items out.new.items result }
    ensures used { IfOk result (λ n. n ≤ length i.now) }
{
    match tag {
        FieldTag::Boolean => write_found!(parse_boolean(i), b => write_bytes(out, truth_text(b))),
        FieldTag::ShortShortInt => {
            write_found!(parse_short_short_int(i), k => write_signed(out, k as i64))
        }
        FieldTag::ShortInt => write_found!(parse_short_int(i), k => write_signed(out, k as i64)),
        FieldTag::LongInt => write_found!(parse_long_int(i), k => write_signed(out, k as i64)),
        FieldTag::LongLongInt => write_found!(parse_long_long_int(i), k => write_signed(out, k)),
        FieldTag::ShortShortUInt => {
            write_found!(parse_short_short_uint(i), k => write_decimal(out, k as u64))
        }
        FieldTag::ShortUInt => write_found!(parse_short_uint(i), k => write_decimal(out, k as u64)),
        FieldTag::LongUInt | FieldTag::Float => {
            write_found!(parse_long_uint(i), k => write_decimal(out, k as u64))
        }
        FieldTag::Double | FieldTag::Timestamp => {
            write_found!(parse_long_long_uint(i), k => write_decimal(out, k))
        }
        FieldTag::DecimalValue => write_found!(parse_decimal_value(i), decimal => {
            write_decimal(out, decimal.scale as u64)?;
            out.push(b'/')?;
            write_decimal(out, decimal.value as u64)
        }),
        FieldTag::LongString => write_found!(parse_long_bytes(i), text => write_quoted(out, text)),
        FieldTag::ByteArray => write_found!(parse_long_bytes(i), bytes => write_hex(out, bytes)),
        FieldTag::FieldArray | FieldTag::FieldTable | FieldTag::Void => Ok(0),
    }
}

/// A comma, where more bytes come.
fn write_comma(out: &mut Vec<u8>, rest: &[u8]) -> Result<(), NoMemory>
    ensures { AppendsText out.old.items out.new.items (comma_before rest.now) result }
{
    match rest {
        [] => Ok(()),
        [_, ..] => {
            out.push(b',')?;
            Ok(())
        }
    }
}

/// A tag letter, and a colon where something follows.
fn write_tag(out: &mut Vec<u8>, tag: FieldTag) -> Result<(), NoMemory>
    ensures { AppendsText out.old.items out.new.items (tag_text tag) result }
{
    match tag {
        FieldTag::Void => {
            out.push(FieldTag::Void.to_byte())?;
            Ok(())
        }
        other => write_bytes(out, &[other.to_byte(), b':']),
    }
}

/// Appends the text of a value at the front, and returns how many bytes it takes. Tables and arrays may nest `depth_left`
/// deep in it.
#[cycle(render)]
fn write_value(out: &mut Vec<u8>, i: &[u8], depth_left: usize) -> Result<usize, NoMemory>
    ensures written { WritesText (SpellsValue strict depth_left)
        value_text i.now out.old.items out.new.items result }
    ensures used { IfOk result (λ n. (0 < n) × (n ≤ length i.now + 1)) }
{
    match i {
        [] => Ok(1),
        [byte, rest @ ..] => match FieldTag::from_byte(*byte) {
            Some(tag) => {
                write_tag(out, tag)?;
                let used = write_after_tag(out, tag, rest, depth_left)?;
                Ok(1 + used)
            }
            None => Ok(1),
        },
    }
}

/// The value after a tag.
#[inline(always)]
#[cycle(render)]
fn write_after_tag(
    out: &mut Vec<u8>,
    tag: FieldTag,
    i: &[u8],
    depth_left: usize,
) -> Result<usize, NoMemory>
    ensures written { WritesAfter depth_left tag i.now out.old.items out.new.items result }
    ensures used { IfOk result (λ n. n ≤ length i.now) }
{
    match tag {
        FieldTag::FieldArray | FieldTag::FieldTable if depth_left == 0 => Ok(0),
        FieldTag::FieldArray => write_array(out, i, depth_left - 1),
        FieldTag::FieldTable => write_table(out, i, depth_left - 1),
        _ => write_leaf(out, tag, i),
    }
}

/// An array.
#[inline(always)]
#[cycle(render)]
fn write_array(out: &mut Vec<u8>, i: &[u8], depth_left: usize) -> Result<usize, NoMemory>
    ensures written { WritesText (SpellsArray (SpellsValue strict depth_left))
        array_text i.now out.old.items out.new.items result }
    ensures used { IfOk result (λ n. n ≤ length i.now) }
{
    write_found!(parse_long_bytes(i), content => {
        out.push(b'[')?;
        write_values(out, content, depth_left)?;
        out.push(b']')
    })
}

/// Appends the text of a table at the front, and returns how many bytes it takes. Tables and arrays may nest `depth_left`
/// deep in its values.
#[inline(always)]
#[cycle(render)]
pub(crate) fn write_table(out: &mut Vec<u8>, i: &[u8], depth_left: usize) -> Result<usize, NoMemory>
    ensures written { WritesText (SpellsTable strict (SpellsValue strict depth_left))
        table_text i.now out.old.items out.new.items result }
    ensures used { IfOk result (λ n. n ≤ length i.now) }
{
    write_found!(parse_long_bytes(i), content => {
        out.push(b'{')?;
        write_entries(out, content, depth_left)?;
        out.push(b'}')
    })
}

/// The values that fill an array.
#[cycle(render)]
fn write_values(out: &mut Vec<u8>, content: &[u8], depth_left: usize) -> Result<(), NoMemory>
    ensures { WritesEach (SpellsValue strict depth_left)
        value_text content.now out.old.items out.new.items result }
{
    let mut rest = content;
    while !rest.is_empty() {
        let used = write_value(out, rest, depth_left)?;
        rest = bytes_from(rest, used);
        write_comma(out, rest)?;
    }
    Ok(())
}

/// The entries that fill a table.
#[cycle(render)]
fn write_entries(out: &mut Vec<u8>, content: &[u8], depth_left: usize) -> Result<(), NoMemory>
    ensures { WritesEach (SpellsEntry (SpellsValue strict depth_left))
        entry_text content.now out.old.items out.new.items result }
{
    let mut rest = content;
    while !rest.is_empty() {
        let used = write_entry(out, rest, depth_left)?;
        rest = bytes_from(rest, used);
        write_comma(out, rest)?;
    }
    Ok(())
}

/// An entry: its key, `=` and its value.
#[inline(always)]
#[cycle(render)]
fn write_entry(out: &mut Vec<u8>, i: &[u8], depth_left: usize) -> Result<usize, NoMemory>
    ensures written { WritesText (SpellsEntry (SpellsValue strict depth_left))
        entry_text i.now out.old.items out.new.items result }
    ensures used { IfOk result (λ n. (0 < n) × (n ≤ length i.now + 2)) }
{
    let (key, value) = split_key(i);
    write_quoted(out, key)?;
    out.push(b'=')?;
    let used = write_value(out, value, depth_left)?;
    Ok(1 + key.len() + used)
}
