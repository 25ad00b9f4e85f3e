//! Decoding methods in payloads.

ghost use Rattle.std.specs.Prelude.{◌≡◌, ◌≤◌, length, IfOk, is_some};
ghost use Rattle.amqp_types.specs.Rows.{rows_of};
ghost use Rattle.amqp_canonical.specs.SlotJudgements.{JudgesPayload};

use crate::shapes::shapes_of;
use crate::slots::{Judgement, judge_slots};
use amqp_types::{Identifier, ParserError, parse_short_uint};

/// Whether there is a class of this id.
#[tactic(auto, unfolding(amqp_types::specs::Rows::rows_of))]
fn is_class(class: Identifier) -> bool
    ensures { result ≡ is_some (rows_of class) }
{
    match class {
        10 | 20 | 30 | 40 | 50 | 60 | 85 | 90 => true,
        _ => false,
    }
}

/// Decodes a class id, a method id and the fields of that method (AMQP 0-9-1, section 4.2.4).
#[inline(always)]
pub fn judge_payload(payload: &[u8]) -> Result<Judgement, ParserError>
    ensures judged { JudgesPayload payload.now result }
    ensures used { IfOk result (λ j. j.used ≤ length payload.now) }
{
    let (n, class) = parse_short_uint(payload)?;
    let behind = &payload[n..];
    // Whether there is such a class is asked only where there is no such method, since the table of methods tells both.
    let (m, id) = match parse_short_uint(behind) {
        Ok(found) => found,
        Err(error) => {
            if is_class(class) {
                return Err(error);
            }
            return Err(ParserError::UnknownClass);
        }
    };
    let Some(shapes) = shapes_of(class, id) else {
        if is_class(class) {
            return Err(ParserError::UnknownMethod);
        }
        return Err(ParserError::UnknownClass);
    };
    let slots = judge_slots(shapes, &behind[m..])?;
    Ok(Judgement {
        used: n + (m + slots.used),
        canonical: slots.canonical,
        tidy: slots.tidy,
    })
}
