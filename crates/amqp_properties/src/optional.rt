//! Fields that are there or not.

ghost use Rattle.std.specs.Prelude.{◌≡◌, ◌≤◌, ◌<◌, length, IfOk};
ghost use Rattle.std.specs.Option.{option_map};
ghost use Rattle.amqp_types.specs.Numbers.{bytes1, bytes8};
ghost use Rattle.amqp_types.specs.Flags.{flag_at};
ghost use Rattle.amqp_types.specs.Slots.{Item, number_item, text_item, entries_item, number_form};
ghost use Rattle.amqp_types.specs.Slots.{short_string_form, table_form};
ghost use Rattle.amqp_types.specs.SlotJudging.{Steps};
ghost use Rattle.amqp_types.specs.PropertyJudging.{judge_optional};
ghost use Rattle.amqp_types.specs.PropertyBytes.{worth_of};

use amqp_values::{
    FieldTable, LongLongUInt, NoMemory, ParserError, ShortShortUInt, ShortString, ShortUInt,
    SlotReader,
};
use std::alloc::Global;

/// Whether a bit of a mask is set.
pub fn is_set(mask: ShortUInt, bit: u16) -> bool
    requires { bit < 16 }
    ensures { result ≡ flag_at mask bit }
{
    (mask >> bit) & 1 == 1
}

/// Decodes a short string, where it is there.
#[tactic(auto, using(amqp_types::proofs::Judged::refuses_next), unfolding(amqp_types::specs::PropertyJudging::judge_optional))]
pub fn read_short_string(
    slots: &mut SlotReader<'_>,
    alloc: Global,
    present: bool,
) -> Result<Option<ShortString>, ParserError>
    ensures step { Steps (option_map text_item) result slots.old.rest.now slots.new.rest.now
        (judge_optional present short_string_form) }
    ensures left { length slots.new.rest.now ≤ length slots.old.rest.now }
{
    if present {
        let string = slots.short_string(alloc)?;
        return Ok(Some(string));
    }
    Ok(None)
}

/// Decodes a table, where it is there.
#[tactic(auto, using(amqp_types::proofs::Judged::refuses_next), unfolding(amqp_types::specs::PropertyJudging::judge_optional))]
pub fn read_table(
    slots: &mut SlotReader<'_>,
    alloc: Global,
    present: bool,
) -> Result<Option<FieldTable>, ParserError>
    ensures step { Steps (option_map entries_item) result slots.old.rest.now
        slots.new.rest.now (judge_optional present table_form) }
    ensures left { length slots.new.rest.now ≤ length slots.old.rest.now }
{
    if present {
        let table = slots.table(alloc)?;
        return Ok(Some(table));
    }
    Ok(None)
}

/// Decodes a number of 1 byte, where it is there.
#[tactic(auto, using(amqp_types::proofs::Judged::refuses_next), unfolding(amqp_types::specs::PropertyJudging::judge_optional))]
pub fn read_short_short_uint(
    slots: &mut SlotReader<'_>,
    present: bool,
) -> Result<Option<ShortShortUInt>, ParserError>
    ensures step { Steps (option_map number_item) result slots.old.rest.now slots.new.rest.now
        (judge_optional present (number_form bytes1)) }
    ensures left { length slots.new.rest.now ≤ length slots.old.rest.now }
{
    if present {
        let n = slots.short_short_uint()?;
        return Ok(Some(n));
    }
    Ok(None)
}

/// Decodes a number of 8 bytes, where it is there.
#[tactic(auto, using(amqp_types::proofs::Judged::refuses_next), unfolding(amqp_types::specs::PropertyJudging::judge_optional))]
pub fn read_long_long_uint(
    slots: &mut SlotReader<'_>,
    present: bool,
) -> Result<Option<LongLongUInt>, ParserError>
    ensures step { Steps (option_map number_item) result slots.old.rest.now slots.new.rest.now
        (judge_optional present (number_form bytes8)) }
    ensures left { length slots.new.rest.now ≤ length slots.old.rest.now }
{
    if present {
        let n = slots.long_long_uint()?;
        return Ok(Some(n));
    }
    Ok(None)
}

/// What an option adds to a mask in which its bit is worth so much.
#[tactic(auto, unfolding(amqp_types::specs::PropertyBytes::worth_of))]
pub fn worth<T>(option: &Option<T>, worth: ShortUInt) -> ShortUInt
    ensures value { (item : T → Item) → result ≡ worth_of worth (option_map item option.now) }
    ensures bound { result ≤ worth }
{
    match option {
        None => 0,
        Some(_) => worth,
    }
}

/// A deep copy, where it is there.
pub fn copy_short_string(
    option: &Option<ShortString>,
    alloc: Global,
) -> Result<Option<ShortString>, NoMemory>
    ensures { IfOk result (λ copied. copied ≡ option.now) }
{
    match option {
        None => Ok(None),
        Some(string) => Ok(Some(string.copy(alloc)?)),
    }
}

/// A deep copy, where it is there.
pub fn copy_table(
    option: &Option<FieldTable>,
    alloc: Global,
) -> Result<Option<FieldTable>, NoMemory>
    ensures { IfOk result (λ copied. copied ≡ option.now) }
{
    match option {
        None => Ok(None),
        Some(table) => Ok(Some(table.copy(alloc)?)),
    }
}
