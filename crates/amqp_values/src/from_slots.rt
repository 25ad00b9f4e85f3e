//! Types that are decoded from one field each, and tuples of them, decoded from the fields of a payload in order.

ghost use Rattle.std.specs.Prelude.{◌≤◌, List, length};
ghost use Rattle.amqp_types.specs.Slots.{Item, Slot};
ghost use Rattle.amqp_types.specs.SlotJudging.{Steps, judge_slot, judge_slots};

use crate::reader::SlotReader;
use crate::value::FieldTable;
use amqp_types::{
    LongLongUInt, LongString, LongUInt, ParserError, ShortShortUInt, ShortString, ShortUInt,
};
use std::alloc::Global;

/// A type that is decoded from one field.
pub trait FromSlot {
    /// The field.
    ghost slot: { Slot };

    /// What the field gives.
    ghost items: { Self → List Item };

    /// Decodes the next field.
    fn read(reader: &mut SlotReader<'_>, alloc: Global) -> Result<Self, ParserError>
        ensures step { Steps items result reader.old.rest.now
            reader.new.rest.now (judge_slot slot) }
        ensures left { length reader.new.rest.now ≤ length reader.old.rest.now };

    /// Drops the value. A bound `Drop` would have each crate that reads a tuple prove how its types are dropped.
    fn let_go(self);
}

/// A tuple that is decoded from its fields in order. A caller has one exit for all of them.
pub trait FromSlots {
    /// The fields.
    ghost slots: { List Slot };

    /// What the fields give.
    ghost items: { Self → List Item };

    /// Decodes the next fields.
    fn read(reader: &mut SlotReader<'_>, alloc: Global) -> Result<Self, ParserError>
        ensures step { Steps items result reader.old.rest.now
            reader.new.rest.now (judge_slots slots) }
        ensures left { length reader.new.rest.now ≤ length reader.old.rest.now };
}

/// A byte of `N` flags, the first of them in the lowest bit.
#[derive(Drop)]
pub struct Flags<const N: usize> {
    /// The byte, with its unused bits.
    pub byte: u8,
}

impl<const N: usize> FromSlot for Flags<N> {
    ghost use Rattle.std.specs.Prelude.{map};
    ghost use Rattle.amqp_types.specs.Flags.{flags_from};
    ghost use Rattle.amqp_types.specs.Slots.{flag_item, flags_form, kept_slot};

    ghost slot = { kept_slot (flags_form N) };

    ghost items = { λ flags. map flag_item (flags_from N 0 flags.byte) };

    fn read(reader: &mut SlotReader<'_>, _alloc: Global) -> Result<Flags<N>, ParserError> {
        let byte = reader.flags::<N>()?;
        Ok(Flags { byte })
    }

    fn let_go(self) {}
}

/// A number of 2 bytes that is decoded and dropped, and written as 0.
#[derive(Drop)]
pub struct ReservedShortUInt;

impl FromSlot for ReservedShortUInt {
    ghost use Rattle.std.specs.Prelude.{◌∷◌, []};
    ghost use Rattle.amqp_types.specs.Numbers.{bytes2};
    ghost use Rattle.amqp_types.specs.Slots.{number_item, number_form, reserved_slot};

    ghost slot = { reserved_slot (number_form bytes2) (number_item 0 ∷ []) };

    ghost items = { λ _. [] };

    fn read(reader: &mut SlotReader<'_>, _alloc: Global) -> Result<ReservedShortUInt, ParserError> {
        reader.skip_short_uint()?;
        Ok(ReservedShortUInt)
    }

    fn let_go(self) {}
}

impl FromSlot for ShortShortUInt {
    ghost use Rattle.std.specs.Prelude.{◌∷◌, []};
    ghost use Rattle.amqp_types.specs.Numbers.{bytes1};
    ghost use Rattle.amqp_types.specs.Slots.{number_item, number_form, kept_slot};

    ghost slot = { kept_slot (number_form bytes1) };

    ghost items = { λ n. number_item n ∷ [] };

    fn read(reader: &mut SlotReader<'_>, _alloc: Global) -> Result<ShortShortUInt, ParserError> {
        reader.short_short_uint()
    }

    fn let_go(self) {}
}

impl FromSlot for ShortUInt {
    ghost use Rattle.std.specs.Prelude.{◌∷◌, []};
    ghost use Rattle.amqp_types.specs.Numbers.{bytes2};
    ghost use Rattle.amqp_types.specs.Slots.{number_item, number_form, kept_slot};

    ghost slot = { kept_slot (number_form bytes2) };

    ghost items = { λ n. number_item n ∷ [] };

    fn read(reader: &mut SlotReader<'_>, _alloc: Global) -> Result<ShortUInt, ParserError> {
        reader.short_uint()
    }

    fn let_go(self) {}
}

impl FromSlot for LongUInt {
    ghost use Rattle.std.specs.Prelude.{◌∷◌, []};
    ghost use Rattle.amqp_types.specs.Numbers.{bytes4};
    ghost use Rattle.amqp_types.specs.Slots.{number_item, number_form, kept_slot};

    ghost slot = { kept_slot (number_form bytes4) };

    ghost items = { λ n. number_item n ∷ [] };

    fn read(reader: &mut SlotReader<'_>, _alloc: Global) -> Result<LongUInt, ParserError> {
        reader.long_uint()
    }

    fn let_go(self) {}
}

impl FromSlot for LongLongUInt {
    ghost use Rattle.std.specs.Prelude.{◌∷◌, []};
    ghost use Rattle.amqp_types.specs.Numbers.{bytes8};
    ghost use Rattle.amqp_types.specs.Slots.{number_item, number_form, kept_slot};

    ghost slot = { kept_slot (number_form bytes8) };

    ghost items = { λ n. number_item n ∷ [] };

    fn read(reader: &mut SlotReader<'_>, _alloc: Global) -> Result<LongLongUInt, ParserError> {
        reader.long_long_uint()
    }

    fn let_go(self) {}
}

impl FromSlot for ShortString {
    ghost use Rattle.std.specs.Prelude.{◌∷◌, []};
    ghost use Rattle.amqp_types.specs.Slots.{text_item, short_string_form, kept_slot};

    ghost slot = { kept_slot short_string_form };

    ghost items = { λ text. text_item text ∷ [] };

    fn read(reader: &mut SlotReader<'_>, alloc: Global) -> Result<ShortString, ParserError> {
        reader.short_string(alloc)
    }

    fn let_go(self) {}
}

impl FromSlot for LongString {
    ghost use Rattle.std.specs.Prelude.{◌∷◌, []};
    ghost use Rattle.amqp_types.specs.Slots.{bytes_item, long_string_form, kept_slot};

    ghost slot = { kept_slot long_string_form };

    ghost items = { λ bytes. bytes_item bytes ∷ [] };

    fn read(reader: &mut SlotReader<'_>, alloc: Global) -> Result<LongString, ParserError> {
        reader.long_string(alloc)
    }

    fn let_go(self) {}
}

impl FromSlot for FieldTable {
    ghost use Rattle.std.specs.Prelude.{◌∷◌, []};
    ghost use Rattle.amqp_types.specs.Slots.{entries_item, table_form, kept_slot};

    ghost slot = { kept_slot table_form };

    ghost items = { λ es. entries_item es ∷ [] };

    fn read(reader: &mut SlotReader<'_>, alloc: Global) -> Result<FieldTable, ParserError> {
        reader.table(alloc)
    }

    fn let_go(self) {}
}

impl<A: FromSlot, B: FromSlot> FromSlots for (A, B) {
    ghost use Rattle.std.specs.Prelude.{◌++◌, ◌∷◌, []};

    ghost slots = { A.slot ∷ B.slot ∷ [] };

    ghost items = { λ t. A.items t.0 ++ B.items t.1 ++ [] };

    #[tactic(auto, using(amqp_types::proofs::Judged::refuses_next), unfolding(amqp_types::specs::SlotJudging::judge_slots))]
    fn read(reader: &mut SlotReader<'_>, alloc: Global) -> Result<(A, B), ParserError> {
        let a = A::read(reader, alloc)?;
        match B::read(reader, alloc) {
            Ok(b) => Ok((a, b)),
            Err(error) => {
                a.let_go();
                Err(error)
            }
        }
    }
}

impl<A: FromSlot, B: FromSlot, C: FromSlot> FromSlots for (A, B, C) {
    ghost use Rattle.std.specs.Prelude.{◌++◌, ◌∷◌, []};

    ghost slots = { A.slot ∷ B.slot ∷ C.slot ∷ [] };

    ghost items = { λ t. A.items t.0 ++ B.items t.1 ++ C.items t.2 ++ [] };

    #[tactic(auto, using(amqp_types::proofs::Judged::refuses_next), unfolding(amqp_types::specs::SlotJudging::judge_slots))]
    fn read(reader: &mut SlotReader<'_>, alloc: Global) -> Result<(A, B, C), ParserError> {
        let a = A::read(reader, alloc)?;
        match <(B, C)>::read(reader, alloc) {
            Ok((b, c)) => Ok((a, b, c)),
            Err(error) => {
                a.let_go();
                Err(error)
            }
        }
    }
}

impl<A: FromSlot, B: FromSlot, C: FromSlot, D: FromSlot> FromSlots for (A, B, C, D) {
    ghost use Rattle.std.specs.Prelude.{◌++◌, ◌∷◌, []};

    ghost slots = { A.slot ∷ B.slot ∷ C.slot ∷ D.slot ∷ [] };

    ghost items = { λ t. A.items t.0 ++ B.items t.1 ++ C.items t.2 ++ D.items t.3 ++ [] };

    #[tactic(auto, using(amqp_types::proofs::Judged::refuses_next), unfolding(amqp_types::specs::SlotJudging::judge_slots))]
    fn read(reader: &mut SlotReader<'_>, alloc: Global) -> Result<(A, B, C, D), ParserError> {
        let a = A::read(reader, alloc)?;
        match <(B, C, D)>::read(reader, alloc) {
            Ok((b, c, d)) => Ok((a, b, c, d)),
            Err(error) => {
                a.let_go();
                Err(error)
            }
        }
    }
}

impl<A: FromSlot, B: FromSlot, C: FromSlot, D: FromSlot, E: FromSlot> FromSlots
    for (A, B, C, D, E) {
    ghost use Rattle.std.specs.Prelude.{◌++◌, ◌∷◌, []};

    ghost slots = { A.slot ∷ B.slot ∷ C.slot ∷ D.slot ∷ E.slot ∷ [] };

    ghost items = { λ t. A.items t.0 ++ B.items t.1
        ++ C.items t.2 ++ D.items t.3 ++ E.items t.4 ++ [] };

    #[tactic(auto, using(amqp_types::proofs::Judged::refuses_next), unfolding(amqp_types::specs::SlotJudging::judge_slots))]
    fn read(reader: &mut SlotReader<'_>, alloc: Global) -> Result<(A, B, C, D, E), ParserError> {
        let a = A::read(reader, alloc)?;
        match <(B, C, D, E)>::read(reader, alloc) {
            Ok((b, c, d, e)) => Ok((a, b, c, d, e)),
            Err(error) => {
                a.let_go();
                Err(error)
            }
        }
    }
}

impl<A: FromSlot, B: FromSlot, C: FromSlot, D: FromSlot, E: FromSlot, F: FromSlot> FromSlots
    for (A, B, C, D, E, F) {
    ghost use Rattle.std.specs.Prelude.{◌++◌, ◌∷◌, []};

    ghost slots = { A.slot ∷ B.slot ∷ C.slot ∷ D.slot ∷ E.slot ∷ F.slot ∷ [] };

    ghost items = { λ t. A.items t.0 ++ B.items t.1 ++ C.items t.2
        ++ D.items t.3 ++ E.items t.4 ++ F.items t.5 ++ [] };

    #[tactic(auto, using(amqp_types::proofs::Judged::refuses_next), unfolding(amqp_types::specs::SlotJudging::judge_slots))]
    fn read(reader: &mut SlotReader<'_>, alloc: Global) -> Result<(A, B, C, D, E, F), ParserError> {
        let a = A::read(reader, alloc)?;
        match <(B, C, D, E, F)>::read(reader, alloc) {
            Ok((b, c, d, e, f)) => Ok((a, b, c, d, e, f)),
            Err(error) => {
                a.let_go();
                Err(error)
            }
        }
    }
}
