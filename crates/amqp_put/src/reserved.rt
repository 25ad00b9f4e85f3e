//! Reserved fields: each is written as its constant, and nothing is kept of it where it is read.

ghost use Rattle.std.specs.Prelude.{[], ◌∷◌, None, false};
ghost use Rattle.amqp_types.specs.Numbers.{bytes2, bytes4, number_bytes};
ghost use Rattle.amqp_types.specs.Flags.{flags_bytes};
ghost use Rattle.amqp_types.specs.Strings.{short_string_bytes, with_length};
ghost use Rattle.amqp_types.specs.Slots.{number_item, flag_item, text_item, bytes_item};
ghost use Rattle.amqp_types.specs.Slots.{number_form, flags_form, short_string_form};
ghost use Rattle.amqp_types.specs.Slots.{long_string_form, reserved_slot};
ghost use Rattle.amqp_put.specs.Fields.{reserved_spells, reserved_flag_spells};
ghost use Rattle.amqp_put.specs.Fields.{reserved_text_spells, reserved_bytes_spell};

use crate::slots::ToSlot;
use amqp_entries::PutError;
use amqp_types::put_bytes;

/// A number of 2 bytes that is written as 0 and not kept.
#[derive(Clone, Copy)]
pub struct ReservedShort;

impl ToSlot for ReservedShort {
    ghost slot = { reserved_slot (number_form bytes2) (number_item 0 ∷ []) };

    ghost items = { λ _. [] };

    ghost flaw = { λ _. None };

    ghost bytes = { λ _. number_bytes bytes2 0 };

    ghost most = { 8 };

    #[inline(always)]
    fn measure(&self) -> Result<usize, PutError> {
        Ok(2)
    }

    #[inline(always)]
    fn put(&self, buf: &mut [u8], at: usize) -> usize {
        put_bytes(buf, at, &[0, 0])
    }

    ghost spells = { λ _. reserved_spells bytes2 0 };
}

/// A number of 2 bytes that is written as 1 and not kept.
#[derive(Clone, Copy)]
pub struct ReservedTicket;

impl ToSlot for ReservedTicket {
    ghost slot = { reserved_slot (number_form bytes2) (number_item 1 ∷ []) };

    ghost items = { λ _. [] };

    ghost flaw = { λ _. None };

    ghost bytes = { λ _. number_bytes bytes2 1 };

    ghost most = { 8 };

    #[inline(always)]
    fn measure(&self) -> Result<usize, PutError> {
        Ok(2)
    }

    #[inline(always)]
    fn put(&self, buf: &mut [u8], at: usize) -> usize {
        put_bytes(buf, at, &[0, 1])
    }

    ghost spells = { λ _. reserved_spells bytes2 1 };
}

/// A number of 4 bytes that is written as 0 and not kept.
#[derive(Clone, Copy)]
pub struct ReservedLong;

impl ToSlot for ReservedLong {
    ghost slot = { reserved_slot (number_form bytes4) (number_item 0 ∷ []) };

    ghost items = { λ _. [] };

    ghost flaw = { λ _. None };

    ghost bytes = { λ _. number_bytes bytes4 0 };

    ghost most = { 8 };

    #[inline(always)]
    fn measure(&self) -> Result<usize, PutError> {
        Ok(4)
    }

    #[inline(always)]
    fn put(&self, buf: &mut [u8], at: usize) -> usize {
        put_bytes(buf, at, &[0, 0, 0, 0])
    }

    ghost spells = { λ _. reserved_spells bytes4 0 };
}

/// A flag that is written as false and not kept.
#[derive(Clone, Copy)]
pub struct ReservedFlag;

impl ToSlot for ReservedFlag {
    ghost slot = { reserved_slot (flags_form 1) (flag_item false ∷ []) };

    ghost items = { λ _. [] };

    ghost flaw = { λ _. None };

    ghost bytes = { λ _. flags_bytes (false ∷ []) };

    ghost most = { 8 };

    #[inline(always)]
    fn measure(&self) -> Result<usize, PutError> {
        Ok(1)
    }

    #[inline(always)]
    fn put(&self, buf: &mut [u8], at: usize) -> usize {
        put_bytes(buf, at, &[0])
    }

    ghost spells = { λ _. reserved_flag_spells };
}

/// A short string that is written empty and not kept.
#[derive(Clone, Copy)]
pub struct ReservedShortString;

impl ToSlot for ReservedShortString {
    ghost slot = { reserved_slot short_string_form (text_item [] ∷ []) };

    ghost items = { λ _. [] };

    ghost flaw = { λ _. None };

    ghost bytes = { λ _. short_string_bytes [] };

    ghost most = { 8 };

    #[inline(always)]
    fn measure(&self) -> Result<usize, PutError> {
        Ok(1)
    }

    #[inline(always)]
    fn put(&self, buf: &mut [u8], at: usize) -> usize {
        put_bytes(buf, at, &[0])
    }

    ghost spells = { λ _. reserved_text_spells };
}

/// A long string that is written empty and not kept.
#[derive(Clone, Copy)]
pub struct ReservedLongString;

impl ToSlot for ReservedLongString {
    ghost slot = { reserved_slot long_string_form (bytes_item [] ∷ []) };

    ghost items = { λ _. [] };

    ghost flaw = { λ _. None };

    ghost bytes = { λ _. with_length [] };

    ghost most = { 8 };

    #[inline(always)]
    fn measure(&self) -> Result<usize, PutError> {
        Ok(4)
    }

    #[inline(always)]
    fn put(&self, buf: &mut [u8], at: usize) -> usize {
        put_bytes(buf, at, &[0, 0, 0, 0])
    }

    ghost spells = { λ _. reserved_bytes_spell };
}
