//! Numbers as fields, their bytes in network order (AMQP 0-9-1, section 4.2.5.1).

ghost use Rattle.std.specs.Prelude.{[], ◌∷◌, None};
ghost use Rattle.amqp_types.specs.Numbers.{bytes1, bytes2, bytes4, bytes8, number_bytes};
ghost use Rattle.amqp_types.specs.Slots.{number_item, number_form, kept_slot};
ghost use Rattle.amqp_put.specs.Fields.{number_spells};

use crate::slots::ToSlot;
use amqp_entries::PutError;
use amqp_types::put_bytes;

impl ToSlot for u8 {
    ghost slot = { kept_slot (number_form bytes1) };

    ghost items = { λ n. number_item n ∷ [] };

    ghost flaw = { λ _. None };

    ghost bytes = { λ n. number_bytes bytes1 n };

    ghost most = { 8 };

    #[inline(always)]
    fn measure(&self) -> Result<usize, PutError> {
        Ok(1)
    }

    #[inline(always)]
    fn put(&self, buf: &mut [u8], at: usize) -> usize {
        put_bytes(buf, at, &self.to_be_bytes())
    }

    ghost spells = { λ n. number_spells bytes1 n };
}

impl ToSlot for u16 {
    ghost slot = { kept_slot (number_form bytes2) };

    ghost items = { λ n. number_item n ∷ [] };

    ghost flaw = { λ _. None };

    ghost bytes = { λ n. number_bytes bytes2 n };

    ghost most = { 8 };

    #[inline(always)]
    fn measure(&self) -> Result<usize, PutError> {
        Ok(2)
    }

    #[inline(always)]
    fn put(&self, buf: &mut [u8], at: usize) -> usize {
        put_bytes(buf, at, &self.to_be_bytes())
    }

    ghost spells = { λ n. number_spells bytes2 n };
}

impl ToSlot for u32 {
    ghost slot = { kept_slot (number_form bytes4) };

    ghost items = { λ n. number_item n ∷ [] };

    ghost flaw = { λ _. None };

    ghost bytes = { λ n. number_bytes bytes4 n };

    ghost most = { 8 };

    #[inline(always)]
    fn measure(&self) -> Result<usize, PutError> {
        Ok(4)
    }

    #[inline(always)]
    fn put(&self, buf: &mut [u8], at: usize) -> usize {
        put_bytes(buf, at, &self.to_be_bytes())
    }

    ghost spells = { λ n. number_spells bytes4 n };
}

impl ToSlot for u64 {
    ghost slot = { kept_slot (number_form bytes8) };

    ghost items = { λ n. number_item n ∷ [] };

    ghost flaw = { λ _. None };

    ghost bytes = { λ n. number_bytes bytes8 n };

    ghost most = { 8 };

    #[inline(always)]
    fn measure(&self) -> Result<usize, PutError> {
        Ok(8)
    }

    #[inline(always)]
    fn put(&self, buf: &mut [u8], at: usize) -> usize {
        put_bytes(buf, at, &self.to_be_bytes())
    }

    ghost spells = { λ n. number_spells bytes8 n };
}
