//! What is written as one field, and fields one after another.

ghost use Rattle.std.specs.Prelude.{◌≡◌, ◌≤◌, ◌<◌, ◌+◌, ◌^◌, ◌++◌, ◌∷◌};
ghost use Rattle.std.specs.Prelude.{ℕ, List, Option, length, IfOk};
ghost use Rattle.amqp_types.specs.Slots.{Item, Slot};
ghost use Rattle.amqp_types.specs.SlotBytes.{slots_bytes};
ghost use Rattle.amqp_types.specs.Writing.{Puts};
ghost use Rattle.amqp_entries.specs.declared.errors.PutError.{PutError};
ghost use Rattle.amqp_entries.specs.Flaws.{size_or};
ghost use Rattle.amqp_put.specs.Fields.{AreFieldBytes};

use amqp_entries::PutError;

/// What is written as one field.
pub trait ToSlot {
    /// The field.
    ghost slot: { Slot };

    /// What the field gives where it is read.
    ghost items: { Self → List Item };

    /// Why it is not written.
    ghost flaw: { Self → Option PutError };

    /// Its bytes.
    ghost bytes: { Self → List ℕ };

    /// No more bytes than these.
    ghost most: { ℕ };

    /// How many bytes it has, or why it is not written. Nothing is written.
    fn measure(&self) -> Result<usize, PutError>
        ensures size { result ≡ size_or (flaw self.now) (bytes self.now) }
        ensures bound { IfOk result (λ n. n ≤ most) };

    /// Puts its bytes at a place of a slice that has room for them, and returns the place after them.
    fn put(&self, buf: &mut [u8], at: usize) -> usize
        requires fits { flaw self.now ≡ None }
        requires room { at + length (bytes self.now) ≤ length buf.old }
        ensures { Puts buf.old buf.new at (bytes self.now) result };

    /// They are the canonical ones, whatever fields follow.
    ghost spells: { (x : Self) → AreFieldBytes slot (items x) (bytes x) };
}

/// What is written as fields, one after another: `(first, (second, ()))`.
pub trait ToSlots {
    /// The fields.
    ghost slots: { List Slot };

    /// What the fields give where they are read.
    ghost items: { Self → List Item };

    /// Why they are not written.
    ghost flaw: { Self → Option PutError };

    /// Their bytes.
    ghost bytes: { Self → List ℕ };

    /// No more bytes than these.
    ghost most: { ℕ };

    /// How many bytes they have, or why the first that is not written is not. Nothing is written.
    fn measure(&self) -> Result<usize, PutError>
        requires { most < 2 ^ 40 }
        ensures size { result ≡ size_or (flaw self.now) (bytes self.now) }
        ensures bound { IfOk result (λ n. n ≤ most) };

    /// Puts their bytes at a place of a slice that has room for them, and returns the place after them.
    fn put(&self, buf: &mut [u8], at: usize) -> usize
        requires fits { flaw self.now ≡ None }
        requires room { at + length (bytes self.now) ≤ length buf.old }
        ensures { Puts buf.old buf.new at (bytes self.now) result };

    /// They are the canonical ones.
    ghost spells: { (x : Self) → slots_bytes slots (items x) ≡ bytes x };
}

impl ToSlots for () {
    ghost use Rattle.std.specs.Prelude.{[], None};
    ghost use Rattle.amqp_put.specs.Fields.{none_spells};

    ghost slots = { [] };

    ghost items = { λ _. [] };

    ghost flaw = { λ _. None };

    ghost bytes = { λ _. [] };

    ghost most = { 0 };

    #[inline(always)]
    fn measure(&self) -> Result<usize, PutError> {
        Ok(0)
    }

    #[inline(always)]
    fn put(&self, _buf: &mut [u8], at: usize) -> usize {
        at
    }

    ghost spells = { λ _. none_spells };
}

impl<A: ToSlot, R: ToSlots> ToSlots for (A, R) {
    ghost use Rattle.std.proofs.Common.{◌∙◌, ap};
    ghost use Rattle.amqp_entries.specs.Flaws.{first_of};

    ghost slots = { A.slot ∷ R.slots };

    ghost items = { λ t. A.items t.0 ++ R.items t.1 };

    ghost flaw = { λ t. first_of (A.flaw t.0) (R.flaw t.1) };

    ghost bytes = { λ t. A.bytes t.0 ++ R.bytes t.1 };

    ghost most = { A.most + R.most };

    #[inline(always)]
    fn measure(&self) -> Result<usize, PutError> {
        let first = self.0.measure()?;
        let rest = self.1.measure()?;
        Ok(first + rest)
    }

    #[inline(always)]
    fn put(&self, buf: &mut [u8], at: usize) -> usize {
        let place = self.0.put(buf, at);
        self.1.put(buf, place)
    }

    ghost spells = { λ x. A.spells x.0 R.slots (R.items x.1)
        ∙ ap (λ (bs : List ℕ). A.bytes x.0 ++ bs) (R.spells x.1) };
}
