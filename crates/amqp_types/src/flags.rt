//! Flags: up to eight truth values in one byte.

ghost use Rattle.std.specs.Prelude.{◌↔◌, IsTrue, ◌≡◌, ◌≢◌, ◌++◌, ◌∷◌, [], ◌≤◌, ◌<◌, ◌+◌};
ghost use Rattle.std.specs.Prelude.{◌^◌, length, slice_get, Ok, IfOk};
ghost use Rattle.amqp_types.specs.Answers.{AnswersFully};
ghost use Rattle.amqp_types.specs.Flags.{flag_at, flags_from, flags_byte, flags_bytes, judge_flags};
ghost use Rattle.amqp_types.specs.Writing.{Puts, Appends};

use crate::aliases::Boolean;
use crate::errors::{GenError, ParserError};
use crate::generation::{append_bytes, put_bytes};
use std::alloc::Global;
use std::marker::Model;

/// At most eight truth values, which fill a byte from its lowest bit on.
#[derive(Clone, Debug, Drop)]
pub struct AMQPFlags {
    flags: [bool; 8],
    count: usize,
}

impl Model for AMQPFlags {
    ghost use Rattle.std.specs.Prelude.{Bool, List, take, ◌≤◌};

    ghost Value = { List Bool };

    ghost view = { λ list. take list.count list.flags };

    ghost invariant = { λ list. list.count ≤ 8 };
}

impl Default for AMQPFlags {
    fn default() -> AMQPFlags
        ensures { result ≡ [] }
    {
        AMQPFlags {
            flags: [false; 8],
            count: 0,
        }
    }
}

impl AMQPFlags {
    /// Appends a flag.
    pub fn add_flag(&mut self, flag: Boolean)
        requires few { length self.old < 8 }
        ensures { self.new ≡ self.old ++ flag ∷ [] }
    {
        self.flags[self.count] = flag;
        self.count += 1;
    }

    /// Flag `k`, counted from 0.
    pub fn get_flag(&self, k: usize) -> Option<Boolean>
        ensures { result ≡ slice_get self.now k }
    {
        if k < self.count {
            Some(self.flags[k])
        } else {
            None
        }
    }

    /// The number of flags.
    pub fn len(&self) -> usize
        ensures value { result ≡ length self.now }
        ensures few { length self.now ≤ 8 }
    {
        self.count
    }

    /// Whether there are no flags.
    pub fn is_empty(&self) -> bool
        ensures { IsTrue result ↔ (self.now ≡ []) }
    {
        self.count == 0
    }

    /// The byte of the flags: flag `k` is bit `k`, and the unused bits are zero (section 4.2.5.2).
    pub fn to_byte(&self) -> u8
        ensures { result ≡ flags_byte self.now }
    {
        byte_of_flags(&self.flags[..self.count])
    }
}

impl PartialEq for AMQPFlags {
    ghost use Rattle.std.specs.Cmp.Lexicographic.{pointwise, lists_equiv};
    ghost use Rattle.std.specs.Bool.{beq};
    ghost use Rattle.std.specs.Cmp.{partial_equiv_from_equiv, bool_eq_equiv};

    ghost eq = { pointwise beq };

    ghost laws = { partial_equiv_from_equiv (lists_equiv bool_eq_equiv) };

    fn eq(&self, other: &AMQPFlags) -> bool {
        self.flags[..self.count] == other.flags[..other.count]
    }
}

impl Eq for AMQPFlags {
    ghost use Rattle.std.specs.Cmp.Lexicographic.{lists_equiv};
    ghost use Rattle.std.specs.Cmp.{bool_eq_equiv};

    ghost laws = { lists_equiv bool_eq_equiv };
}

/// The flags of a byte, from its lowest bit on.
#[tactic(auto, using(crate::proofs::FlagBytes::flags_from_length, crate::proofs::FlagBytes::flags_from_next))]
fn flags_of_byte(byte: u8, n: usize) -> AMQPFlags
    requires { n ≤ 8 }
    ensures { result ≡ flags_from n 0 byte }
{
    let mut flags = AMQPFlags::default();
    for k in 0..n {
        flags.add_flag(flag_of_byte(byte, k as u8));
    }
    flags
}

/// The byte of these flags, the first one at the lowest bit and the unused bits zero.
pub fn byte_of_flags(flags: &[bool]) -> u8
    requires few { length flags.now ≤ 8 }
    ensures value { result ≡ flags_byte flags.now }
    ensures bound { result < 2 ^ length flags.now }
{
    match flags {
        [] => 0,
        [first, rest @ ..] => {
            let others = byte_of_flags(rest);
            if *first { 1 + 2 * others } else { 2 * others }
        }
    }
}

/// Bit `k` of a byte of flags.
pub fn flag_of_byte(byte: u8, k: u8) -> bool
    requires { k < 8 }
    ensures { result ≡ flag_at byte k }
{
    (byte >> k) & 1 == 1
}

/// Decodes a byte of `n` flags, whose unused bits may be any. Returns how many bytes it used, 1, and the flags.
#[tactic(auto, unfolding(crate::specs::Flags::judge_flags))]
pub fn parse_flags(i: &[u8], n: usize) -> Result<(usize, AMQPFlags), ParserError>
    requires some { 1 ≤ n }
    requires few { n ≤ 8 }
    ensures judged { AnswersFully (λ flags. flags) result (judge_flags n i.now) }
    ensures used { IfOk result (λ found. found.0 ≤ length i.now) }
{
    match i {
        [byte, ..] => Ok((1, flags_of_byte(*byte, n))),
        [] => Err(ParserError::Incomplete),
    }
}

/// The size of flags, 1 byte.
pub fn size_flags(value: &AMQPFlags) -> Result<u64, GenError>
    requires some { value.now ≢ [] }
    ensures { result ≡ Ok (length (flags_bytes value.now)) }
{
    let _few = value.len();
    Ok(1)
}

/// Puts a byte of flags at a place of a slice, and returns the place after it.
pub fn put_flags(buf: &mut [u8], at: usize, value: &AMQPFlags) -> usize
    requires some { value.now ≢ [] }
    requires room { at + length (flags_bytes value.now) ≤ length buf.old }
    ensures { Puts buf.old buf.new at (flags_bytes value.now) result }
{
    put_bytes(buf, at, &[value.to_byte()])
}

/// Appends a byte of flags to a vector, its unused bits zero.
pub fn gen_flags(_alloc: Global, out: &mut Vec<u8>, value: &AMQPFlags) -> Result<(), GenError>
    requires some { value.now ≢ [] }
    ensures { Appends out.old.items out.new.items (Ok 1) (flags_bytes value.now) result }
{
    append_bytes(out, &[value.to_byte()])
}
