//! Decoding the fields of one payload, one after another.

ghost use Rattle.std.specs.Prelude.{◌≡◌, ◌≤◌, ◌-◌, [], ◌∷◌, length, map, OnErr};
ghost use Rattle.amqp_types.specs.Numbers.{bytes1, bytes2, bytes4, bytes8};
ghost use Rattle.amqp_types.specs.Flags.{flags_from};
ghost use Rattle.amqp_types.specs.Slots.{number_item, flag_item, text_item, bytes_item};
ghost use Rattle.amqp_types.specs.Slots.{entries_item, number_form, flags_form};
ghost use Rattle.amqp_types.specs.Slots.{short_string_form, long_string_form, table_form};
ghost use Rattle.amqp_types.specs.SlotJudging.{Steps, judge_form, judge_dropped, judge_slots};
ghost use Rattle.amqp_types.specs.Calls.{NeedsNoMemory};

use crate::from_slots::FromSlots;
use crate::parsing::parse_field_table;
use crate::value::FieldTable;
use amqp_types::{
    LongLongUInt, LongString, LongUInt, ParserError, ShortShortUInt, ShortString, ShortUInt,
    parse_long_bytes, parse_long_long_uint, parse_long_string, parse_long_uint,
    parse_short_short_uint, parse_short_str, parse_short_string, parse_short_uint,
};
use std::alloc::Global;

/// The bytes of one payload that are not decoded yet. A field that is refused is not passed over.
#[derive(Drop)]
pub struct SlotReader<'a> {
    /// The bytes from the next field on.
    pub rest: &'a [u8],
}

impl<'a> SlotReader<'a> {
    /// A reader of all of these bytes.
    pub fn new(bytes: &'a [u8]) -> SlotReader<'a>
        ensures { result.rest.now ≡ bytes.now }
    {
        SlotReader { rest: bytes }
    }

    /// How many bytes of `whole` are decoded, where what is left is its end.
    pub fn used(&self, whole: &[u8]) -> usize
        requires within { length self.now.rest.now ≤ length whole.now }
        ensures { result ≡ length whole.now - length self.now.rest.now }
    {
        whole.len() - self.rest.len()
    }

    /// Decodes the next fields.
    pub fn read<T: FromSlots>(&mut self, alloc: Global) -> Result<T, ParserError>
        ensures step { Steps T.items result self.old.rest.now self.new.rest.now
            (judge_slots T.slots) }
        ensures left { length self.new.rest.now ≤ length self.old.rest.now }
    {
        T::read(self, alloc)
    }

    /// Decodes a number of 1 byte.
    #[tactic(auto, using(crate::proofs::Steps::dropped, amqp_types::proofs::Judged::refuses_next), unfolding(amqp_types::specs::SlotJudging::judge_form))]
    pub fn short_short_uint(&mut self) -> Result<ShortShortUInt, ParserError>
        ensures step { Steps (λ n. number_item n ∷ []) result self.old.rest.now
            self.new.rest.now (judge_form (number_form bytes1)) }
        ensures left { length self.new.rest.now ≤ length self.old.rest.now }
        ensures stays { OnErr result (self.new.rest.now ≡ self.old.rest.now) }
        ensures memory { NeedsNoMemory result }
    {
        let (n, value) = parse_short_short_uint(self.rest)?;
        self.rest = &self.rest[n..];
        Ok(value)
    }

    /// Decodes a number of 2 bytes.
    #[tactic(auto, using(crate::proofs::Steps::dropped, amqp_types::proofs::Judged::refuses_next), unfolding(amqp_types::specs::SlotJudging::judge_form))]
    pub fn short_uint(&mut self) -> Result<ShortUInt, ParserError>
        ensures step { Steps (λ n. number_item n ∷ []) result self.old.rest.now
            self.new.rest.now (judge_form (number_form bytes2)) }
        ensures left { length self.new.rest.now ≤ length self.old.rest.now }
        ensures stays { OnErr result (self.new.rest.now ≡ self.old.rest.now) }
        ensures memory { NeedsNoMemory result }
    {
        let (n, value) = parse_short_uint(self.rest)?;
        self.rest = &self.rest[n..];
        Ok(value)
    }

    /// Decodes a number of 4 bytes.
    #[tactic(auto, using(crate::proofs::Steps::dropped, amqp_types::proofs::Judged::refuses_next), unfolding(amqp_types::specs::SlotJudging::judge_form))]
    pub fn long_uint(&mut self) -> Result<LongUInt, ParserError>
        ensures step { Steps (λ n. number_item n ∷ []) result self.old.rest.now
            self.new.rest.now (judge_form (number_form bytes4)) }
        ensures left { length self.new.rest.now ≤ length self.old.rest.now }
        ensures stays { OnErr result (self.new.rest.now ≡ self.old.rest.now) }
        ensures memory { NeedsNoMemory result }
    {
        let (n, value) = parse_long_uint(self.rest)?;
        self.rest = &self.rest[n..];
        Ok(value)
    }

    /// Decodes a number of 8 bytes.
    #[tactic(auto, using(crate::proofs::Steps::dropped, amqp_types::proofs::Judged::refuses_next), unfolding(amqp_types::specs::SlotJudging::judge_form))]
    pub fn long_long_uint(&mut self) -> Result<LongLongUInt, ParserError>
        ensures step { Steps (λ n. number_item n ∷ []) result self.old.rest.now
            self.new.rest.now (judge_form (number_form bytes8)) }
        ensures left { length self.new.rest.now ≤ length self.old.rest.now }
        ensures stays { OnErr result (self.new.rest.now ≡ self.old.rest.now) }
        ensures memory { NeedsNoMemory result }
    {
        let (n, value) = parse_long_long_uint(self.rest)?;
        self.rest = &self.rest[n..];
        Ok(value)
    }

    /// Decodes a byte of `N` flags, the first of them in the lowest bit. The byte is returned with its unused bits.
    #[tactic(auto, using(crate::proofs::Steps::dropped, amqp_types::proofs::Judged::refuses_next), unfolding(amqp_types::specs::SlotJudging::judge_form, amqp_types::specs::Flags::judge_flags))]
    pub fn flags<const N: usize>(&mut self) -> Result<ShortShortUInt, ParserError>
        ensures step { Steps (λ byte. map flag_item (flags_from N 0 byte)) result
            self.old.rest.now self.new.rest.now (judge_form (flags_form N)) }
        ensures left { length self.new.rest.now ≤ length self.old.rest.now }
        ensures stays { OnErr result (self.new.rest.now ≡ self.old.rest.now) }
        ensures memory { NeedsNoMemory result }
    {
        let (n, value) = parse_short_short_uint(self.rest)?;
        self.rest = &self.rest[n..];
        Ok(value)
    }

    /// Decodes a short string.
    #[tactic(auto, using(crate::proofs::Steps::dropped, amqp_types::proofs::Judged::refuses_next), unfolding(amqp_types::specs::SlotJudging::judge_form))]
    pub fn short_string(&mut self, alloc: Global) -> Result<ShortString, ParserError>
        ensures step { Steps (λ text. text_item text ∷ []) result
            self.old.rest.now self.new.rest.now (judge_form short_string_form) }
        ensures left { length self.new.rest.now ≤ length self.old.rest.now }
        ensures stays { OnErr result (self.new.rest.now ≡ self.old.rest.now) }
    {
        let (n, value) = parse_short_string(alloc, self.rest)?;
        self.rest = &self.rest[n..];
        Ok(value)
    }

    /// Decodes a long string.
    #[tactic(auto, using(crate::proofs::Steps::dropped, amqp_types::proofs::Judged::refuses_next), unfolding(amqp_types::specs::SlotJudging::judge_form))]
    pub fn long_string(&mut self, alloc: Global) -> Result<LongString, ParserError>
        ensures step { Steps (λ bytes. bytes_item bytes ∷ []) result
            self.old.rest.now self.new.rest.now (judge_form long_string_form) }
        ensures left { length self.new.rest.now ≤ length self.old.rest.now }
        ensures stays { OnErr result (self.new.rest.now ≡ self.old.rest.now) }
    {
        let (n, value) = parse_long_string(alloc, self.rest)?;
        self.rest = &self.rest[n..];
        Ok(value)
    }

    /// Decodes a table.
    #[tactic(auto, using(crate::proofs::Steps::dropped, amqp_types::proofs::Judged::refuses_next), unfolding(amqp_types::specs::SlotJudging::judge_form))]
    pub fn table(&mut self, alloc: Global) -> Result<FieldTable, ParserError>
        ensures step { Steps (λ es. entries_item es ∷ []) result
            self.old.rest.now self.new.rest.now (judge_form table_form) }
        ensures left { length self.new.rest.now ≤ length self.old.rest.now }
        ensures stays { OnErr result (self.new.rest.now ≡ self.old.rest.now) }
    {
        let (n, value) = parse_field_table(alloc, self.rest)?;
        self.rest = &self.rest[n..];
        Ok(value)
    }

    /// Decodes a number of 2 bytes and drops it.
    #[tactic(auto, using(crate::proofs::Steps::dropped, amqp_types::proofs::Judged::refuses_next), unfolding(amqp_types::specs::SlotJudging::judge_form, amqp_types::specs::SlotJudging::judge_dropped))]
    pub fn skip_short_uint(&mut self) -> Result<(), ParserError>
        ensures step { Steps (λ _. []) result self.old.rest.now self.new.rest.now
            (judge_dropped (number_form bytes2)) }
        ensures left { length self.new.rest.now ≤ length self.old.rest.now }
        ensures stays { OnErr result (self.new.rest.now ≡ self.old.rest.now) }
        ensures memory { NeedsNoMemory result }
    {
        let (n, _) = parse_short_uint(self.rest)?;
        self.rest = &self.rest[n..];
        Ok(())
    }

    /// Decodes a number of 4 bytes and drops it.
    #[tactic(auto, using(crate::proofs::Steps::dropped, amqp_types::proofs::Judged::refuses_next), unfolding(amqp_types::specs::SlotJudging::judge_form, amqp_types::specs::SlotJudging::judge_dropped))]
    pub fn skip_long_uint(&mut self) -> Result<(), ParserError>
        ensures step { Steps (λ _. []) result self.old.rest.now self.new.rest.now
            (judge_dropped (number_form bytes4)) }
        ensures left { length self.new.rest.now ≤ length self.old.rest.now }
        ensures stays { OnErr result (self.new.rest.now ≡ self.old.rest.now) }
        ensures memory { NeedsNoMemory result }
    {
        let (n, _) = parse_long_uint(self.rest)?;
        self.rest = &self.rest[n..];
        Ok(())
    }

    /// Decodes a short string and drops it.
    #[tactic(auto, using(crate::proofs::Steps::dropped, amqp_types::proofs::Judged::refuses_next), unfolding(amqp_types::specs::SlotJudging::judge_form, amqp_types::specs::SlotJudging::judge_dropped))]
    pub fn skip_short_string(&mut self) -> Result<(), ParserError>
        ensures step { Steps (λ _. []) result self.old.rest.now self.new.rest.now
            (judge_dropped short_string_form) }
        ensures left { length self.new.rest.now ≤ length self.old.rest.now }
        ensures stays { OnErr result (self.new.rest.now ≡ self.old.rest.now) }
        ensures memory { NeedsNoMemory result }
    {
        let (n, _) = parse_short_str(self.rest)?;
        self.rest = &self.rest[n..];
        Ok(())
    }

    /// Decodes a long string and drops it.
    #[tactic(auto, using(crate::proofs::Steps::dropped, amqp_types::proofs::Judged::refuses_next), unfolding(amqp_types::specs::SlotJudging::judge_form, amqp_types::specs::SlotJudging::judge_dropped))]
    pub fn skip_long_string(&mut self) -> Result<(), ParserError>
        ensures step { Steps (λ _. []) result self.old.rest.now self.new.rest.now
            (judge_dropped long_string_form) }
        ensures left { length self.new.rest.now ≤ length self.old.rest.now }
        ensures stays { OnErr result (self.new.rest.now ≡ self.old.rest.now) }
        ensures memory { NeedsNoMemory result }
    {
        let (n, _) = parse_long_bytes(self.rest)?;
        self.rest = &self.rest[n..];
        Ok(())
    }

    /// Decodes a byte of `N` flags and drops it.
    #[tactic(auto, using(crate::proofs::Steps::dropped, amqp_types::proofs::Judged::refuses_next), unfolding(amqp_types::specs::SlotJudging::judge_form, amqp_types::specs::SlotJudging::judge_dropped, amqp_types::specs::Flags::judge_flags))]
    pub fn skip_flags<const N: usize>(&mut self) -> Result<(), ParserError>
        ensures step { Steps (λ _. []) result self.old.rest.now self.new.rest.now
            (judge_dropped (flags_form N)) }
        ensures left { length self.new.rest.now ≤ length self.old.rest.now }
        ensures stays { OnErr result (self.new.rest.now ≡ self.old.rest.now) }
        ensures memory { NeedsNoMemory result }
    {
        let (n, _) = parse_short_short_uint(self.rest)?;
        self.rest = &self.rest[n..];
        Ok(())
    }
}

/// What a call returns that decodes the fields of one method, with the method in its variant.
#[macro_export]
macro_rules! in_variant {
    ($parsed:expr, $variant:path) => {{
        let (used, method) = $parsed?;
        Ok((used, $variant(method)))
    }};
}

/// The result of copying a method, with the copy in its variant. Any error of the copy becomes `NoMemory`, as copying a
/// method fails only where memory runs out.
#[macro_export]
macro_rules! copied {
    ($copy:expr, $variant:path) => {
        match $copy {
            Ok(method) => Ok($variant(method)),
            Err(_) => Err($crate::NoMemory),
        }
    };
}
