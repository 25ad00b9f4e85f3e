//! Decoding fields by their shapes.

ghost use Rattle.std.specs.Prelude.{◌≡◌, ◌≤◌, ◌<◌, ◌^◌, ◌↔◌, true, []};
ghost use Rattle.std.specs.Prelude.{◌∷◌, length, IfOk, IfSome, IsTrue};
ghost use Rattle.amqp_types.specs.Numbers.{NumberWidth, bytes2, bytes8, byte_count};
ghost use Rattle.amqp_types.specs.Slots.{number_form, flags_form, short_string_form};
ghost use Rattle.amqp_types.specs.Slots.{long_string_form, table_form, kept_slot};
ghost use Rattle.amqp_canonical.specs.Shapes.{form_of, is_constant, constant_of, slot_of};
ghost use Rattle.amqp_canonical.specs.Shapes.{has_constant, slots_of, have_constants};
ghost use Rattle.amqp_canonical.specs.SlotJudgements.{JudgesForm, JudgesReserved};
ghost use Rattle.amqp_canonical.specs.SlotJudgements.{JudgesSlot, JudgesSlots};

use crate::shapes::{Form, Slot};
use crate::texts::short_text;
use crate::values::judge_table;
use amqp_types::{INNER_DEPTH, ParserError, parse_long_bytes, parse_short_uint};

/// A judgement: what decoding the front of a slice says of its bytes, where nothing that they mean is kept. They are fields, a
/// method or a content header.
#[derive(Clone, Copy, Debug, PartialEq, Eq)]
pub struct Judgement {
    /// How many bytes it uses.
    pub used: usize,

    /// Whether these bytes are its canonical bytes.
    pub canonical: bool,

    /// Whether these bytes are tidy: reserved fields hold their constants, and no unused bit is set.
    pub tidy: bool,
}

/// Decodes a number of so many bytes.
#[inline(always)]
fn judge_number(count: usize, i: &[u8]) -> Result<Judgement, ParserError>
    ensures judged { (width : NumberWidth) → byte_count width ≡ count
        → JudgesForm (number_form width) i.now result }
    ensures used { IfOk result (λ j. j.used ≤ length i.now) }
{
    if i.len() < count {
        return Err(ParserError::Incomplete);
    }
    Ok(Judgement {
        used: count,
        canonical: true,
        tidy: true,
    })
}

/// Whether a byte has no bit above its lowest `count` ones.
#[inline(always)]
fn fits_flags(count: u8, byte: u8) -> bool
    ensures { IsTrue result ↔ (byte < 2 ^ count) }
{
    count >= 8 || byte >> count == 0
}

/// Decodes a byte of so many flags.
#[inline(always)]
fn judge_flags(count: u8, i: &[u8]) -> Result<Judgement, ParserError>
    ensures judged { JudgesForm (flags_form count) i.now result }
    ensures used { IfOk result (λ j. j.used ≤ length i.now) }
{
    match i {
        [] => Err(ParserError::Incomplete),
        [byte, ..] => {
            let fits = fits_flags(count, *byte);
            Ok(Judgement {
                used: 1,
                canonical: fits,
                tidy: fits,
            })
        }
    }
}

/// Decodes a short string.
#[inline(always)]
fn judge_short_string(i: &[u8]) -> Result<Judgement, ParserError>
    ensures judged { JudgesForm short_string_form i.now result }
    ensures used { IfOk result (λ j. j.used ≤ length i.now) }
{
    let (used, _) = short_text(i)?;
    Ok(Judgement {
        used,
        canonical: true,
        tidy: true,
    })
}

/// Decodes a long string.
#[inline(always)]
fn judge_long_string(i: &[u8]) -> Result<Judgement, ParserError>
    ensures judged { JudgesForm long_string_form i.now result }
    ensures used { IfOk result (λ j. j.used ≤ length i.now) }
{
    let (used, _) = parse_long_bytes(i)?;
    Ok(Judgement {
        used,
        canonical: true,
        tidy: true,
    })
}

/// Decodes a table, at most 64 levels deep.
fn judge_field_table(i: &[u8]) -> Result<Judgement, ParserError>
    ensures judged { JudgesForm table_form i.now result }
    ensures used { IfOk result (λ j. j.used ≤ length i.now) }
{
    let table = judge_table(i, INNER_DEPTH)?;
    Ok(Judgement {
        used: table.used,
        canonical: table.canonical,
        tidy: true,
    })
}

/// Decodes what a field holds, whether it is reserved or not.
#[inline(always)]
pub(crate) fn judge_form(form: Form, i: &[u8]) -> Result<Judgement, ParserError>
    ensures judged { JudgesForm (form_of form) i.now result }
    ensures used { IfOk result (λ j. j.used ≤ length i.now) }
{
    match form {
        Form::Octet => judge_number(1, i),
        Form::Short => judge_number(2, i),
        Form::Long => judge_number(4, i),
        Form::LongLong => judge_number(8, i),
        Form::Flags(count) => judge_flags(count, i),
        Form::ShortString => judge_short_string(i),
        Form::LongString => judge_long_string(i),
        Form::Table => judge_field_table(i),
    }
}

/// Decodes a reserved field, whose constant is written in these bytes.
#[inline(always)]
fn judge_reserved(form: Form, constant: &[u8], i: &[u8]) -> Result<Judgement, ParserError>
    requires constant { is_constant (form_of form) constant.now ≡ true }
    ensures judged { JudgesReserved (form_of form)
        (constant_of (form_of form) constant.now) i.now result }
    ensures used { IfOk result (λ j. j.used ≤ length i.now) }
{
    let found = judge_form(form, i)?;
    let as_written = &i[..found.used] == constant;
    Ok(Judgement {
        used: found.used,
        canonical: as_written,
        tidy: as_written,
    })
}

/// Decodes a reserved number of 2 bytes. Each message has two such fields, and numbers compare faster than slices.
#[inline(always)]
pub(crate) fn judge_reserved_short(constant: &[u8], i: &[u8]) -> Result<Judgement, ParserError>
    requires two { length constant.now ≡ 2 }
    ensures judged { JudgesReserved (number_form bytes2)
        (constant_of (number_form bytes2) constant.now) i.now result }
    ensures used { IfOk result (λ j. j.used ≤ length i.now) }
{
    let (used, number) = parse_short_uint(i)?;
    let as_written = number == u16::from_be_bytes([constant[0], constant[1]]);
    Ok(Judgement {
        used,
        canonical: as_written,
        tidy: as_written,
    })
}

/// Decodes a field.
#[inline(always)]
fn judge_slot(slot: Slot, i: &[u8]) -> Result<Judgement, ParserError>
    requires constant { has_constant slot ≡ true }
    ensures judged { JudgesSlot (slot_of slot) i.now result }
    ensures used { IfOk result (λ j. j.used ≤ length i.now) }
{
    match slot {
        Slot::Kept(form) => judge_form(form, i),
        Slot::Reserved(Form::Short, constant) => judge_reserved_short(constant, i),
        Slot::Reserved(form, constant) => judge_reserved(form, constant, i),
    }
}

/// How many flags a method has after a number of 8 bytes, where it has no other field: acknowledgements are such, and
/// most frames of many streams are acknowledgements.
#[inline(always)]
fn flags_after_number(shapes: &[Slot]) -> Option<u8>
    ensures { IfSome result (λ count. slots_of shapes.now
        ≡ kept_slot (number_form bytes8) ∷ kept_slot (flags_form count) ∷ []) }
{
    if let [first, second] = shapes
        && let Slot::Kept(Form::LongLong) = *first
        && let Slot::Kept(Form::Flags(count)) = *second
    {
        Some(count)
    } else {
        None
    }
}

/// Decodes a number of 8 bytes, and so many flags after it.
#[inline(always)]
fn judge_number_and_flags(count: u8, i: &[u8]) -> Result<Judgement, ParserError>
    ensures judged { JudgesSlots
        (kept_slot (number_form bytes8) ∷ kept_slot (flags_form count) ∷ []) i.now result }
    ensures used { IfOk result (λ j. j.used ≤ length i.now) }
{
    let number = judge_number(8, i)?;
    let flags = judge_flags(count, &i[number.used..])?;
    Ok(Judgement {
        used: number.used + flags.used,
        canonical: number.canonical & flags.canonical,
        tidy: number.tidy & flags.tidy,
    })
}

/// Decodes fields of these shapes, one after another (AMQP 0-9-1, section 4.2.4).
#[inline(always)]
pub fn judge_slots(shapes: &[Slot], i: &[u8]) -> Result<Judgement, ParserError>
    requires constants { have_constants shapes.now ≡ true }
    ensures judged { JudgesSlots (slots_of shapes.now) i.now result }
    ensures used { IfOk result (λ j. j.used ≤ length i.now) }
{
    if let Some(count) = flags_after_number(shapes) {
        return judge_number_and_flags(count, i);
    }
    let mut at = 0;
    let mut canonical = true;
    let mut tidy = true;
    for shape in shapes {
        let slot = match judge_slot(*shape, &i[at..]) {
            Ok(slot) => slot,
            Err(error) => return Err(error),
        };
        at += slot.used;
        canonical = canonical & slot.canonical;
        tidy = tidy & slot.tidy;
    }
    Ok(Judgement {
        used: at,
        canonical,
        tidy,
    })
}
