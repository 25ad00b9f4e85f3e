//! Byte arrays.

ghost use Rattle.std.specs.Prelude.{◌≡◌, ◌↔◌, [], length, nat_eq, IfOk, IsTrue};
ghost use Rattle.std.specs.Cmp.Lexicographic.{pointwise, nat_list_eq_equiv};
ghost use Rattle.std.specs.Cmp.{partial_equiv_from_equiv};

use crate::errors::NoMemory;
use std::alloc::Global;
use std::marker::Model;

/// A list of bytes, as the payload of a body frame and the value of the field tag `x`.
#[derive(Debug, Drop)]
pub struct ByteArray {
    bytes: Vec<u8>,
}

impl Model for ByteArray {
    ghost use Rattle.std.specs.Prelude.{ℕ, List};

    ghost Value = { List ℕ };

    ghost view = { λ array. array.bytes.items };
}

impl ByteArray {
    /// A copy of these bytes.
    pub fn new(alloc: Global, bytes: &[u8]) -> Result<ByteArray, NoMemory>
        ensures { IfOk result (λ array. array ≡ bytes.now) }
    {
        Ok(ByteArray {
            bytes: Vec::from_slice(alloc, bytes)?,
        })
    }

    /// No bytes.
    pub fn empty(alloc: Global) -> ByteArray
        ensures { result ≡ [] }
    {
        ByteArray {
            bytes: Vec::new(alloc),
        }
    }

    /// The bytes of a vector, which is not copied.
    pub fn from_vec(bytes: Vec<u8>) -> ByteArray
        ensures { result ≡ bytes.items }
    {
        ByteArray { bytes }
    }

    /// A deep copy.
    pub fn copy(&self, alloc: Global) -> Result<ByteArray, NoMemory>
        ensures { IfOk result (λ copied. copied ≡ self.now) }
    {
        ByteArray::new(alloc, self.as_slice())
    }

    /// The bytes.
    pub fn as_slice(&self) -> &[u8]
        ensures { result.now ≡ self.now }
    {
        self.bytes.as_slice()
    }

    /// The number of bytes.
    pub fn len(&self) -> usize
        ensures { result ≡ length self.now }
    {
        self.bytes.len()
    }

    /// Whether there are no bytes.
    pub fn is_empty(&self) -> bool
        ensures { IsTrue result ↔ (self.now ≡ []) }
    {
        self.bytes.is_empty()
    }
}

impl PartialEq for ByteArray {
    ghost eq = { pointwise nat_eq };

    ghost laws = { partial_equiv_from_equiv nat_list_eq_equiv };

    fn eq(&self, other: &ByteArray) -> bool {
        self.as_slice() == other.as_slice()
    }
}

impl Eq for ByteArray {
    ghost laws = { nat_list_eq_equiv };
}
