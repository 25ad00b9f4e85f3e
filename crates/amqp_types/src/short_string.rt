//! Short strings: texts of at most 255 bytes.

ghost use Rattle.std.specs.Prelude.{◌≡◌, ◌≤◌, ◌<◌, ◌↔◌, [], length, nat_eq, Some};
ghost use Rattle.std.specs.Prelude.{refl, Err, IfOk, OnOk, IsTrue};
ghost use Rattle.std.specs.Ordering.{nat_cmp};
ghost use Rattle.std.specs.Str.{IsUtf8};
ghost use Rattle.std.specs.Hash as hash;
ghost use Rattle.std.specs.Cmp.{partial_equiv_from_equiv};
ghost use Rattle.std.specs.Cmp.Lexicographic.{pointwise, slice_cmp, nat_list_eq_equiv};
ghost use Rattle.std.specs.Cmp.Lexicographic.{nat_list_cmp_total, texts_ties, texts_po};
ghost use Rattle.std.specs.Cmp.Rules.{hashing};
ghost use Rattle.std.proofs.Common.{rules};

use crate::errors::NoMemory;
use crate::make_error::MakeError;
use std::alloc::Global;
use std::cmp::Ordering;
use std::fmt;
use std::hash::{Hash, Hasher};
use std::marker::Model;

/// A text of at most 255 bytes.
#[derive(Drop)]
pub struct ShortString {
    text: String,
}

impl Model for ShortString {
    ghost use Rattle.std.specs.Prelude.{ℕ, List, length, ◌≤◌};
    ghost use Rattle.std.specs.String.{string_bytes};

    ghost Value = { List ℕ };

    ghost view = { λ string. string_bytes string.text };

    ghost invariant = { λ string. length (string_bytes string.text) ≤ 255 };
}

impl ShortString {
    /// The string with a copy of this text; `TooLong` where it has more than 255 bytes.
    pub fn new(alloc: Global, text: &str) -> Result<ShortString, MakeError>
        ensures ok { IfOk result (λ string. string ≡ text.now) }
        ensures fits { OnOk result (length text.now ≤ 255) }
        ensures too_long { result ≡ Err MakeError.TooLong ↔ 255 < length text.now }
    {
        if text.len() > 255 {
            return Err(MakeError::TooLong);
        }
        Ok(ShortString {
            text: String::from_str(alloc, text)?,
        })
    }

    /// The string with no text.
    pub fn empty(alloc: Global) -> ShortString
        ensures { result ≡ [] }
    {
        ShortString {
            text: String::new(alloc),
        }
    }

    /// A deep copy.
    pub fn copy(&self, alloc: Global) -> Result<ShortString, NoMemory>
        ensures { IfOk result (λ copied. copied ≡ self.now) }
    {
        Ok(ShortString {
            text: String::from_str(alloc, self.text.as_str())?,
        })
    }

    /// The text.
    pub fn as_str(&self) -> &str
        ensures value { result.now ≡ self.now }
        ensures short { length self.now ≤ 255 }
        ensures utf8 { IsUtf8 self.now }
    {
        self.text.as_str()
    }

    /// The number of the text's bytes.
    pub fn len(&self) -> usize
        ensures value { result ≡ length self.now }
        ensures short { length self.now ≤ 255 }
    {
        self.text.len()
    }

    /// Whether there is no text.
    pub fn is_empty(&self) -> bool
        ensures { IsTrue result ↔ (self.now ≡ []) }
    {
        self.text.is_empty()
    }
}

impl PartialEq for ShortString {
    ghost eq = { pointwise nat_eq };

    ghost laws = { partial_equiv_from_equiv nat_list_eq_equiv };

    fn eq(&self, other: &ShortString) -> bool {
        self.as_str() == other.as_str()
    }
}

impl Eq for ShortString {
    ghost laws = { nat_list_eq_equiv };
}

impl PartialOrd for ShortString {
    ghost partial_cmp = { λ first second. Some (slice_cmp nat_cmp first second) };

    ghost laws = { texts_po };

    fn partial_cmp(&self, other: &ShortString) -> Option<Ordering> {
        Some(self.cmp(other))
    }
}

impl Ord for ShortString {
    ghost cmp = { slice_cmp nat_cmp };

    ghost total = { nat_list_cmp_total };

    ghost matches_partial_cmp = { λ first second. refl };

    ghost matches_eq = { texts_ties };

    fn cmp(&self, other: &ShortString) -> Ordering {
        self.as_str().cmp(other.as_str())
    }
}

impl Hash for ShortString {
    ghost hash_input = { hash.str };

    ghost respects_eq = { Prim.search (hashing, rules) };

    fn hash<H: Hasher>(&self, state: &mut H) {
        self.as_str().hash(state);
    }
}

impl fmt::Debug for ShortString {
    fn fmt<W: fmt::Write>(&self, f: &mut fmt::Formatter<W>) -> fmt::Result {
        f.write_str(self.as_str())
    }
}

impl fmt::Display for ShortString {
    ghost output = { λ string. Some string };

    fn fmt<W: fmt::Write>(&self, f: &mut fmt::Formatter<W>) -> fmt::Result {
        f.write_str(self.as_str())
    }
}
