//! Sizes of properties as plain numbers, which are added with no test between them: one test at the end finds whether any
//! property is refused.

ghost use Rattle.std.specs.Prelude.{◌≤◌, ◌<◌, ◌+◌, ◌*◌, ◌^◌, length};
ghost use Rattle.amqp_entries.specs.Sizes.{IsSize};
ghost use Rattle.amqp_put.specs.Sizes.{IsSizeAfter};

use crate::properties::{Masked, MaskedText, ToItem, ToProperties, ToProperty};
use crate::slots::ToSlot;
use amqp_entries::called_text_size;

/// What is said to be the size of a field that is not written: more than any frame has.
const TOO_MANY: usize = 4294967296;

/// A property whose size is a plain number.
pub(crate) trait ToSize: ToProperty {
    /// How many bytes it has with those before it; 2^32 or more where it is not written.
    fn size(&self, before: usize) -> usize
        requires { before + Self.most + 2 ^ 32 < 2 ^ 60 }
        ensures size { IsSizeAfter before (Self.flaw self.now) (Self.bytes self.now) result }
        ensures bound { result ≤ before + Self.most + 2 ^ 32 };
}

/// Properties whose sizes are added.
pub(crate) trait ToSizes: ToProperties {
    /// How many bytes they have with those before them; 2^32 or more where one is not written.
    fn size(&self, before: usize) -> usize
        requires { before + Self.most + 2 ^ 32 * length Self.forms < 2 ^ 60 }
        ensures size { IsSizeAfter before (Self.flaw self.now) (Self.bytes self.now) result }
        ensures bound { result ≤ before + Self.most + 2 ^ 32 * length Self.forms };
}

/// How many bytes a field has; 2^32 where it is not written.
#[inline(always)]
fn size_of<F: ToSlot>(field: &F) -> usize
    ensures size { IsSize (F.flaw field.now) (F.bytes field.now) result }
    ensures bound { result ≤ F.most + 2 ^ 32 }
{
    match field.measure() {
        Ok(size) => size,
        Err(_) => TOO_MANY,
    }
}

impl<F: ToItem> ToSize for Option<F> {
    #[inline(always)]
    fn size(&self, before: usize) -> usize {
        match self {
            Some(field) => before + size_of(field),
            None => before,
        }
    }
}

impl<F: ToItem> ToSize for Masked<F> {
    #[inline(always)]
    fn size(&self, before: usize) -> usize {
        if self.set {
            before + size_of(&self.field)
        } else {
            before
        }
    }
}

impl<'a> ToSize for MaskedText<'a> {
    #[inline(always)]
    fn size(&self, before: usize) -> usize {
        if self.set {
            before + called_text_size(*self.text)
        } else {
            before
        }
    }
}

impl ToSizes for () {
    #[inline(always)]
    fn size(&self, before: usize) -> usize {
        before
    }
}

impl<A: ToSize, R: ToSizes> ToSizes for (A, R) {
    #[inline(always)]
    fn size(&self, before: usize) -> usize {
        let place = self.0.size(before);
        self.1.size(place)
    }
}
