//! Long strings: lists of bytes.

ghost use Rattle.std.specs.Prelude.{◌≡◌, ◌↔◌, [], length, nat_eq, IfOk, IsTrue};
ghost use Rattle.std.specs.Cmp.Lexicographic.{pointwise, nat_list_eq_equiv};
ghost use Rattle.std.specs.Cmp.{partial_equiv_from_equiv};

use crate::errors::NoMemory;
use std::alloc::Global;
use std::marker::Model;

/// A list of bytes that stand for a long text, in no set encoding.
#[derive(Debug, Drop)]
pub struct LongString {
    bytes: Vec<u8>,
}

impl Model for LongString {
    ghost use Rattle.std.specs.Prelude.{ℕ, List};

    ghost Value = { List ℕ };

    ghost view = { λ string. string.bytes.items };
}

impl LongString {
    /// A copy of these bytes.
    pub fn new(alloc: Global, bytes: &[u8]) -> Result<LongString, NoMemory>
        ensures { IfOk result (λ string. string ≡ bytes.now) }
    {
        Ok(LongString {
            bytes: Vec::from_slice(alloc, bytes)?,
        })
    }

    /// No bytes.
    pub fn empty(alloc: Global) -> LongString
        ensures { result ≡ [] }
    {
        LongString {
            bytes: Vec::new(alloc),
        }
    }

    /// A deep copy.
    pub fn copy(&self, alloc: Global) -> Result<LongString, NoMemory>
        ensures { IfOk result (λ copied. copied ≡ self.now) }
    {
        LongString::new(alloc, self.as_bytes())
    }

    /// The bytes.
    pub fn as_bytes(&self) -> &[u8]
        ensures { result.now ≡ self.now }
    {
        self.bytes.as_slice()
    }

    /// The number of bytes.
    pub fn len(&self) -> usize
        ensures { result ≡ length self.now }
    {
        self.bytes.len()
    }

    /// Whether there are no bytes.
    pub fn is_empty(&self) -> bool
        ensures { IsTrue result ↔ (self.now ≡ []) }
    {
        self.bytes.is_empty()
    }
}

impl PartialEq for LongString {
    ghost eq = { pointwise nat_eq };

    ghost laws = { partial_equiv_from_equiv nat_list_eq_equiv };

    fn eq(&self, other: &LongString) -> bool {
        self.as_bytes() == other.as_bytes()
    }
}

impl Eq for LongString {
    ghost laws = { nat_list_eq_equiv };
}
