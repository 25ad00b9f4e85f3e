//! The fields of methods and the properties of messages read from text, as their bytes.
#![tactic(auto)]

ghost use Rattle.std.specs.Prelude.{◌≡◌, ◌%◌, ◌^◌, true, map};
ghost use Rattle.amqp_canonical.specs.Shapes.{form_of, property_of, slot_of};
ghost use Rattle.amqp_canonical.specs.Shapes.{has_constant, slots_of, have_constants};
ghost use Rattle.amqp_lines.specs.Reading.{FindsText, Reads, ReadsSet, read_form, read_properties};
ghost use Rattle.amqp_lines.specs.Reading.{read_set, read_slot, read_slots, strip};

use crate::reading::values::read_list;
use crate::reading::words::{
    begins_with, keep_place, put_last, read_flags, read_number, read_string,
};
use crate::slots::property_name;
use crate::words::write_bytes;
use amqp_canonical::{Form, Slot, bytes_from, property_shapes};
use amqp_types::{MAX_DEPTH, NoMemory};

/// What stands at the front, encoded so.
#[tactic(auto, unfolding(crate::specs::Reading::read_form))]
fn read_form<'a>(out: &mut Vec<u8>, form: Form, i: &'a [u8]) -> Result<&'a [u8], NoMemory>
    ensures { Reads (λ rest. rest.now)
        (read_form (form_of form) i.now) out.old.items out.new.items result }
{
    match form {
        Form::Octet => read_number(out, 1, i),
        Form::Short => read_number(out, 2, i),
        Form::Long => read_number(out, 4, i),
        Form::LongLong => read_number(out, 8, i),
        Form::Flags(count) => read_flags(out, count, i),
        Form::ShortString => read_string(out, 1, i),
        Form::LongString => read_string(out, 4, i),
        Form::Table => read_list(out, i, true, MAX_DEPTH),
    }
}

/// A word after a space, or the constant of a reserved field, which is not written.
fn read_slot<'a>(out: &mut Vec<u8>, slot: Slot, i: &'a [u8]) -> Result<&'a [u8], NoMemory>
    requires constant { has_constant slot ≡ true }
    ensures { Reads (λ rest. rest.now)
        (read_slot (slot_of slot) i.now) out.old.items out.new.items result }
{
    match slot {
        Slot::Reserved(_, constant) => {
            write_bytes(out, constant)?;
            Ok(i)
        }
        Slot::Kept(form) => read_form(out, form, bytes_from(i, 1)),
    }
}

/// Appends the bytes of fields of these shapes, one after another.
pub(crate) fn read_slots<'a>(
    out: &mut Vec<u8>,
    shapes: &[Slot],
    i: &'a [u8],
) -> Result<&'a [u8], NoMemory>
    requires constants { have_constants shapes.now ≡ true }
    ensures { Reads (λ rest. rest.now)
        (read_slots (slots_of shapes.now) i.now) out.old.items out.new.items result }
{
    match shapes {
        [] => Ok(i),
        [shape, others @ ..] => {
            let rest = read_slot(out, *shape, i)?;
            read_slots(out, others, rest)
        }
    }
}

/// The text after these characters, where it begins with them.
fn strip<'a>(i: &'a [u8], front: &[u8]) -> Option<&'a [u8]>
    ensures { FindsText (λ rest. rest.now) (strip front.now i.now) result }
{
    match front {
        [] => Some(i),
        [c, others @ ..] => {
            if !begins_with(i, *c) {
                return None;
            }
            strip(bytes_from(i, 1), others)
        }
    }
}

/// The bit of a property in the mask.
#[tactic(auto, using(crate::proofs::ReadSteps::bit_next))]
fn mask_bit(bit: u16) -> u16
    ensures { result ≡ 2 ^ bit % 2 ^ 16 }
{
    if bit == 0 {
        return 1;
    }
    mask_bit(bit - 1).wrapping_mul(2)
}

/// Appends the bytes of the properties of these bits and shapes that are there, and returns their mask.
fn read_set<'a>(
    out: &mut Vec<u8>,
    shapes: &[(u16, Form)],
    i: &'a [u8],
) -> Result<(u16, &'a [u8]), NoMemory>
    ensures { ReadsSet (λ rest. rest.now)
        (read_set (map property_of shapes.now) i.now) out.old.items out.new.items result }
{
    match shapes {
        [] => Ok((0, i)),
        [shape, others @ ..] => {
            let name = bytes_from(i, 1);
            match strip(name, property_name(shape.0)) {
                None => read_set(out, others, i),
                Some(after) => {
                    let start = bytes_from(after, 1);
                    let rest = read_form(out, shape.1, start)?;
                    let (mask, end) = read_set(out, others, rest)?;
                    Ok((mask_bit(shape.0).wrapping_add(mask), end))
                }
            }
        }
    }
}

/// Appends the mask and the bytes of the properties that are there.
pub(crate) fn read_properties<'a>(out: &mut Vec<u8>, i: &'a [u8]) -> Result<&'a [u8], NoMemory>
    ensures { Reads (λ rest. rest.now) (read_properties i.now) out.old.items out.new.items result }
{
    let place = keep_place(out, 2)?;
    let (mask, rest) = read_set(out, property_shapes(), i)?;
    put_last(out, place, 2, mask as u64);
    Ok(rest)
}
