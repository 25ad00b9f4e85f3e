//! Decoding properties and content headers.

ghost use Rattle.std.specs.Prelude.{◌≡◌, ◌≤◌, ◌↔◌, false, length, IfOk, IsTrue};
ghost use Rattle.amqp_types.specs.Flags.{flag_at};
ghost use Rattle.amqp_types.specs.ContentHeaders.{header_slots};
ghost use Rattle.amqp_types.specs.SlotJudging.{judge_slots};
ghost use Rattle.amqp_types.specs.SlotSpelling.{SpellsSlots};
ghost use Rattle.amqp_types.specs.PropertyJudging.{judge_properties};
ghost use Rattle.amqp_types.specs.PropertySpelling.{SpellsProperties};
ghost use Rattle.amqp_canonical.specs.SlotJudgements.{JudgesSet, JudgesLevels, JudgesContentHeader};

use crate::shapes::{Form, property_shapes};
use crate::slots::{Judgement, judge_form, judge_reserved_short};
use amqp_types::{ParserError, parse_short_uint};

/// Whether a mask has this bit, counted from 0.
pub fn has_bit(mask: u16, bit: u16) -> bool
    ensures { result ≡ flag_at mask bit }
{
    bit < 16 && (mask >> bit) & 1 == 1
}

/// Whether a mask has neither of the two bits that are no property's.
fn has_no_unused_bit(mask: u16) -> bool
    ensures { IsTrue result ↔ ((flag_at mask 1 ≡ false) × (flag_at mask 0 ≡ false)) }
{
    mask & 3 == 0
}

/// Decodes the properties whose bits are set in the mask, one after another.
fn judge_set(mask: u16, i: &[u8]) -> Result<Judgement, ParserError>
    ensures judged { JudgesSet mask i.now result }
    ensures used { IfOk result (λ j. j.used ≤ length i.now) }
{
    let shapes = property_shapes();
    let mut at = 0;
    let mut canonical = true;
    let mut tidy = true;
    for shape in shapes {
        if !has_bit(mask, shape.0) {
            continue;
        }
        let property = match judge_form(shape.1, &i[at..]) {
            Ok(property) => property,
            Err(error) => return Err(error),
        };
        at += property.used;
        canonical = canonical & property.canonical;
        tidy = tidy & property.tidy;
    }
    Ok(Judgement {
        used: at,
        canonical,
        tidy,
    })
}

/// Decodes a mask, and the properties whose bits are set in it.
fn judge_properties(i: &[u8]) -> Result<Judgement, ParserError>
    ensures judged { JudgesLevels SpellsProperties i.now result (judge_properties i.now) }
    ensures used { IfOk result (λ j. j.used ≤ length i.now) }
{
    let (n, mask) = parse_short_uint(i)?;
    let unused = has_no_unused_bit(mask);
    let set = judge_set(mask, &i[n..])?;
    Ok(Judgement {
        used: n + set.used,
        canonical: set.canonical & unused,
        tidy: set.tidy & unused,
    })
}

/// Decodes what stands in front of the properties: a class id, the weight and the size of the body. Each message has one, so the
/// fields are decoded one by one, and not by their shapes.
#[inline(always)]
fn judge_front(i: &[u8]) -> Result<Judgement, ParserError>
    ensures judged { JudgesLevels (λ level. SpellsSlots level header_slots) i.now result
        (judge_slots header_slots i.now) }
    ensures used { IfOk result (λ j. j.used ≤ length i.now) }
{
    let class = judge_form(Form::Short, i)?;
    let behind = &i[class.used..];
    let weight = judge_reserved_short(&[0, 0], behind)?;
    let size = judge_form(Form::LongLong, &behind[weight.used..])?;
    Ok(Judgement {
        used: class.used + (weight.used + size.used),
        canonical: class.canonical & (weight.canonical & size.canonical),
        tidy: class.tidy & (weight.tidy & size.tidy),
    })
}

/// Decodes a content header: a class id, the weight, the size of the body in bytes, and the properties (AMQP 0-9-1,
/// section 4.2.6.1).
pub fn judge_content_header(payload: &[u8]) -> Result<Judgement, ParserError>
    ensures judged { JudgesContentHeader payload.now result }
    ensures used { IfOk result (λ j. j.used ≤ length payload.now) }
{
    let front = judge_front(payload)?;
    let properties = judge_properties(&payload[front.used..])?;
    Ok(Judgement {
        used: front.used + properties.used,
        canonical: front.canonical & properties.canonical,
        tidy: front.tidy & properties.tidy,
    })
}
