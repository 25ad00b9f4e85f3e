//! The fields of methods and the properties of messages as text, out of their canonical bytes.

ghost use Rattle.std.specs.Prelude.{◌≡◌, ◌++◌, codes, map};
ghost use Rattle.amqp_types.specs.Levels.{strict};
ghost use Rattle.amqp_types.specs.Flags.{judge_flags};
ghost use Rattle.amqp_types.specs.Properties.{properties};
ghost use Rattle.amqp_types.specs.PropertySpelling.{SpellsProperties};
ghost use Rattle.amqp_types.specs.Sequences.{judge_map};
ghost use Rattle.amqp_types.specs.SlotSpelling.{SpellsSlot, SpellsSlots};
ghost use Rattle.amqp_types.specs.Strings.{SpellsShortString};
ghost use Rattle.amqp_canonical.specs.Shapes.{form_of, property_of, slot_of, slots_of};
ghost use Rattle.amqp_lines.specs.Words.{quoted, signs};
ghost use Rattle.amqp_lines.specs.Slots.{property_name, set_text, slots_text};
ghost use Rattle.amqp_lines.specs.Rendering.{AppendsText, Renders, Says, SpellsOnes};
ghost use Rattle.amqp_lines.specs.Rendering.{WritesForm, WritesText, slot_text};

use crate::values::{write_leaf, write_table};
use crate::words::{write_bytes, write_quoted, write_signs};
use amqp_canonical::{Form, Slot, bytes_from, form_size, has_bit, property_shapes, split_key};
use amqp_types::{FieldTag, INNER_DEPTH, Identifier, NoMemory};

/// So many flags of a byte.
#[tactic(auto, unfolding(amqp_types::specs::Flags::judge_flags))]
fn write_flags(out: &mut Vec<u8>, count: u8, i: &[u8]) -> Result<usize, NoMemory>
    ensures { Renders (judge_map signs (judge_flags count) i.now)
        out.old.items out.new.items result }
{
    match i {
        [byte, ..] => {
            write_signs(out, count, *byte)?;
            Ok(1)
        }
        [] => Ok(0),
    }
}

/// A short string.
#[tactic(auto, using(crate::proofs::Rendered::short_written))]
fn write_short_string(out: &mut Vec<u8>, i: &[u8]) -> Result<usize, NoMemory>
    ensures { WritesText SpellsShortString quoted i.now out.old.items out.new.items result }
{
    let (text, _) = split_key(i);
    write_quoted(out, text)?;
    Ok(1 + text.len())
}

/// What stands at the front, encoded so.
#[tactic(auto, unfolding(crate::specs::Rendering::WritesForm, crate::specs::Rendering::WritesAfter))]
fn write_form(out: &mut Vec<u8>, form: Form, i: &[u8]) -> Result<usize, NoMemory>
    ensures { WritesForm (form_of form) i.now out.old.items out.new.items result }
{
    match form {
        Form::Octet => write_leaf(out, FieldTag::ShortShortUInt, i),
        Form::Short => write_leaf(out, FieldTag::ShortUInt, i),
        Form::Long => write_leaf(out, FieldTag::LongUInt, i),
        Form::LongLong => write_leaf(out, FieldTag::Timestamp, i),
        Form::Flags(count) => write_flags(out, count, i),
        Form::ShortString => write_short_string(out, i),
        Form::LongString => write_leaf(out, FieldTag::LongString, i),
        Form::Table => write_table(out, i, INNER_DEPTH),
    }
}

/// A field: a space and a word, or nothing where it is reserved.
#[tactic(auto, using(crate::proofs::RenderedSlots::kept_written))]
fn write_slot(out: &mut Vec<u8>, slot: Slot, i: &[u8]) -> Result<usize, NoMemory>
    ensures { WritesText (SpellsSlot strict (slot_of slot))
        (slot_text (slot_of slot)) i.now out.old.items out.new.items result }
{
    match slot {
        Slot::Reserved(form, _) => Ok(form_size(form, i)),
        Slot::Kept(form) => {
            out.push(b' ')?;
            write_form(out, form, i)
        }
    }
}

/// Appends the text of fields of these shapes, one after another.
pub(crate) fn write_slots(out: &mut Vec<u8>, shapes: &[Slot], i: &[u8]) -> Result<(), NoMemory>
    ensures { Says (SpellsSlots strict (slots_of shapes.now))
        (slots_text (slots_of shapes.now)) i.now out.old.items out.new.items result }
{
    match shapes {
        [] => Ok(()),
        [shape, others @ ..] => {
            let used = write_slot(out, *shape, i)?;
            write_slots(out, others, bytes_from(i, used))
        }
    }
}

/// The name of the property with this bit in the mask.
#[tactic(auto, unfolding(crate::specs::Slots::property_name))]
pub(crate) fn property_name(bit: Identifier) -> &'static [u8]
    ensures { result.now ≡ property_name bit }
{
    match bit {
        15 => b"content_type",
        14 => b"content_encoding",
        13 => b"headers",
        12 => b"delivery_mode",
        11 => b"priority",
        10 => b"correlation_id",
        9 => b"reply_to",
        8 => b"expiration",
        7 => b"message_id",
        6 => b"timestamp",
        5 => b"kind",
        4 => b"user_id",
        3 => b"app_id",
        2 => b"cluster_id",
        _ => b"",
    }
}

/// A space, the name of the property with this bit, and `=`.
fn write_name(out: &mut Vec<u8>, bit: u16) -> Result<(), NoMemory>
    ensures { AppendsText out.old.items out.new.items
        (codes " " ++ (property_name bit ++ codes "=")) result }
{
    out.push(b' ')?;
    write_bytes(out, property_name(bit))?;
    out.push(b'=')?;
    Ok(())
}

/// The properties of these bits and shapes that the mask has, one after another.
fn write_set(out: &mut Vec<u8>, mask: u16, shapes: &[(u16, Form)], i: &[u8]) -> Result<(), NoMemory>
    ensures { Says (SpellsOnes mask (map property_of shapes.now))
        (set_text (map property_of shapes.now)) i.now out.old.items out.new.items result }
{
    match shapes {
        [] => Ok(()),
        [shape, others @ ..] => {
            if !has_bit(mask, shape.0) {
                return write_set(out, mask, others, i);
            }
            write_name(out, shape.0)?;
            let used = write_form(out, shape.1, i)?;
            write_set(out, mask, others, bytes_from(i, used))
        }
    }
}

/// Appends the text of the properties that are set.
#[tactic(auto, using(crate::proofs::RenderedSlots::no_properties))]
pub(crate) fn write_properties(out: &mut Vec<u8>, i: &[u8]) -> Result<(), NoMemory>
    ensures { Says (SpellsProperties strict)
        (set_text properties) i.now out.old.items out.new.items result }
{
    match i {
        [a, b, rest @ ..] => write_set(out, u16::from_be_bytes([*a, *b]), property_shapes(), rest),
        _ => Ok(()),
    }
}
