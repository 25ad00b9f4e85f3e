//! Flags as fields: up to five that stand one after another share a byte, the first its lowest bit (AMQP 0-9-1,
//! section 4.2.5.2).

ghost use Rattle.std.specs.Prelude.{[], ◌∷◌, None};
ghost use Rattle.amqp_types.specs.Flags.{flags_bytes};
ghost use Rattle.amqp_types.specs.Slots.{flag_item, flags_form, kept_slot};
ghost use Rattle.amqp_put.specs.Fields.{flag_spells, two_flags_spell, three_flags_spell};
ghost use Rattle.amqp_put.specs.Fields.{four_flags_spell, five_flags_spell};

use crate::slots::ToSlot;
use amqp_entries::PutError;
use amqp_types::put_bytes;

impl ToSlot for bool {
    ghost slot = { kept_slot (flags_form 1) };

    ghost items = { λ flag. flag_item flag ∷ [] };

    ghost flaw = { λ _. None };

    ghost bytes = { λ flag. flags_bytes (flag ∷ []) };

    ghost most = { 8 };

    #[inline(always)]
    fn measure(&self) -> Result<usize, PutError> {
        Ok(1)
    }

    #[inline(always)]
    fn put(&self, buf: &mut [u8], at: usize) -> usize {
        put_bytes(buf, at, &[u8::from(*self)])
    }

    ghost spells = { flag_spells };
}

impl ToSlot for (bool, bool) {
    ghost slot = { kept_slot (flags_form 2) };

    ghost items = { λ flags. flag_item flags.0 ∷ flag_item flags.1 ∷ [] };

    ghost flaw = { λ _. None };

    ghost bytes = { λ flags. flags_bytes (flags.0 ∷ flags.1 ∷ []) };

    ghost most = { 8 };

    #[inline(always)]
    fn measure(&self) -> Result<usize, PutError> {
        Ok(1)
    }

    #[inline(always)]
    fn put(&self, buf: &mut [u8], at: usize) -> usize {
        put_bytes(buf, at, &[u8::from(self.0) + 2 * u8::from(self.1)])
    }

    ghost spells = { λ flags. two_flags_spell flags.0 flags.1 };
}

impl ToSlot for (bool, bool, bool) {
    ghost slot = { kept_slot (flags_form 3) };

    ghost items = { λ flags. flag_item flags.0 ∷ flag_item flags.1 ∷ flag_item flags.2 ∷ [] };

    ghost flaw = { λ _. None };

    ghost bytes = { λ flags. flags_bytes (flags.0 ∷ flags.1 ∷ flags.2 ∷ []) };

    ghost most = { 8 };

    #[inline(always)]
    fn measure(&self) -> Result<usize, PutError> {
        Ok(1)
    }

    #[inline(always)]
    fn put(&self, buf: &mut [u8], at: usize) -> usize {
        put_bytes(
            buf,
            at,
            &[u8::from(self.0) + 2 * u8::from(self.1) + 4 * u8::from(self.2)],
        )
    }

    ghost spells = { λ flags. three_flags_spell flags.0 flags.1 flags.2 };
}

impl ToSlot for (bool, bool, bool, bool) {
    ghost slot = { kept_slot (flags_form 4) };

    ghost items = { λ flags. flag_item flags.0 ∷ flag_item flags.1 ∷ flag_item flags.2
        ∷ flag_item flags.3 ∷ [] };

    ghost flaw = { λ _. None };

    ghost bytes = { λ flags. flags_bytes (flags.0 ∷ flags.1 ∷ flags.2 ∷ flags.3 ∷ []) };

    ghost most = { 8 };

    #[inline(always)]
    fn measure(&self) -> Result<usize, PutError> {
        Ok(1)
    }

    #[inline(always)]
    fn put(&self, buf: &mut [u8], at: usize) -> usize {
        put_bytes(
            buf,
            at,
            &[
                u8::from(self.0)
                    + 2 * u8::from(self.1)
                    + 4 * u8::from(self.2)
                    + 8 * u8::from(self.3),
            ],
        )
    }

    ghost spells = { λ flags. four_flags_spell flags.0 flags.1 flags.2 flags.3 };
}

impl ToSlot for (bool, bool, bool, bool, bool) {
    ghost slot = { kept_slot (flags_form 5) };

    ghost items = { λ flags. flag_item flags.0 ∷ flag_item flags.1 ∷ flag_item flags.2
        ∷ flag_item flags.3 ∷ flag_item flags.4 ∷ [] };

    ghost flaw = { λ _. None };

    ghost bytes = { λ flags. flags_bytes (flags.0 ∷ flags.1 ∷ flags.2 ∷ flags.3 ∷ flags.4 ∷ []) };

    ghost most = { 8 };

    #[inline(always)]
    fn measure(&self) -> Result<usize, PutError> {
        Ok(1)
    }

    #[inline(always)]
    fn put(&self, buf: &mut [u8], at: usize) -> usize {
        put_bytes(
            buf,
            at,
            &[
                u8::from(self.0)
                    + 2 * u8::from(self.1)
                    + 4 * u8::from(self.2)
                    + 8 * u8::from(self.3)
                    + 16 * u8::from(self.4),
            ],
        )
    }

    ghost spells = { λ flags. five_flags_spell flags.0 flags.1 flags.2 flags.3 flags.4 };
}
