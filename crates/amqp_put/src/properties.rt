//! Properties that are written where they are set, one after another, and their mask.

ghost use Rattle.std.specs.Prelude.{◌≡◌, ◌≤◌, ◌<◌, ◌+◌, ◌*◌, ◌^◌, ◌++◌, ◌∷◌, [], ℕ, List, Option};
ghost use Rattle.std.specs.Prelude.{length, is_some, IfOk, None, option_map, if◌then◌else◌};
ghost use Rattle.amqp_types.specs.Slots.{Item, Form, number_item, text_item, entries_item};
ghost use Rattle.amqp_types.specs.Slots.{number_form, short_string_form, table_form};
ghost use Rattle.amqp_types.specs.Numbers.{bytes1, bytes8};
ghost use Rattle.amqp_types.specs.SlotBytes.{form_bytes};
ghost use Rattle.amqp_types.specs.PropertyBytes.{optional_bytes, set_bytes, mask_of};
ghost use Rattle.amqp_types.specs.Writing.{Puts};
ghost use Rattle.amqp_entries.specs.declared.errors.PutError.{PutError};
ghost use Rattle.amqp_put.specs.Properties.{from_bit, where_some, if_set, size_after, flaw_if};
ghost use Rattle.amqp_put.specs.Properties.{bytes_if, some_spells, masked_spells, none_are_set};

use crate::slots::ToSlot;
use crate::strings::Text;
use amqp_entries::{PutError, TableContent, called_put_text};

/// A field that gives one item.
pub trait ToItem: ToSlot {
    /// How it is encoded.
    ghost form: { Form };

    /// What it gives where it is read.
    ghost item: { Self → Item };

    /// Its bytes are the canonical ones of that item.
    ghost alone: { (x : Self) → form_bytes form (item x ∷ []) ≡ Self.bytes x };
}

/// What is written as one property, or not.
pub trait ToProperty {
    /// How it is encoded.
    ghost form: { Form };

    /// What it gives where it is read.
    ghost option: { Self → Option Item };

    /// Why it is not written.
    ghost flaw: { Self → Option PutError };

    /// Its bytes, none where it is not set.
    ghost bytes: { Self → List ℕ };

    /// No more bytes than these.
    ghost most: { ℕ };

    /// Whether it is set.
    fn is_set(&self) -> bool
        ensures { result ≡ is_some (option self.now) };

    /// How many bytes it has with those before it, or why it is not written. Nothing is written.
    fn measure(&self, before: usize) -> Result<usize, PutError>
        requires { before + most < 2 ^ 40 }
        ensures size { result ≡ size_after before (flaw self.now) (bytes self.now) }
        ensures bound { IfOk result (λ n. n ≤ before + most) };

    /// Puts its bytes at a place of a slice that has room for them, and returns the place after them.
    fn put(&self, buf: &mut [u8], at: usize) -> usize
        requires fits { flaw self.now ≡ None }
        requires room { at + length (bytes self.now) ≤ length buf.old }
        ensures { Puts buf.old buf.new at (bytes self.now) result };

    /// They are the canonical ones.
    ghost spells: { (x : Self) → optional_bytes form (option x) ≡ bytes x };
}

/// What is written as properties, one after another: `(first, (second, ()))`.
pub trait ToProperties {
    /// How they are encoded.
    ghost forms: { List Form };

    /// What they give where they are read.
    ghost options: { Self → List (Option Item) };

    /// Why they are not written.
    ghost flaw: { Self → Option PutError };

    /// The bytes of those that are set.
    ghost bytes: { Self → List ℕ };

    /// No more bytes than these.
    ghost most: { ℕ };

    /// The mask of those that are set, in which the first one's bit is worth so much.
    fn mask(&self, worth: u32) -> u32
        requires { worth ≤ 2 ^ 15 }
        ensures bits { (bit : ℕ) → worth ≡ 2 ^ bit → length forms ≤ bit
            → result ≡ mask_of (from_bit bit forms) (options self.now) }
        ensures bound { result ≤ 2 * worth };

    /// How many bytes they have with those before them, or why the first that is not written is not. Nothing is written.
    fn measure(&self, before: usize) -> Result<usize, PutError>
        requires { before + most < 2 ^ 40 }
        ensures size { result ≡ size_after before (flaw self.now) (bytes self.now) }
        ensures bound { IfOk result (λ n. n ≤ before + most) };

    /// Puts their bytes at a place of a slice that has room for them, and returns the place after them.
    fn put(&self, buf: &mut [u8], at: usize) -> usize
        requires fits { flaw self.now ≡ None }
        requires room { at + length (bytes self.now) ≤ length buf.old }
        ensures { Puts buf.old buf.new at (bytes self.now) result };

    /// They are the canonical ones, whatever the bits.
    ghost spells: { (x : Self) (bit : ℕ) → set_bytes (from_bit bit forms) (options x) ≡ bytes x };
}

impl<'a> ToItem for Text<'a> {
    ghost use Rattle.amqp_put.specs.Properties.{text_alone};

    ghost form = { short_string_form };

    ghost item = { λ text. text_item text.bytes.now };

    ghost alone = { λ text. text_alone text.bytes.now };
}

impl ToItem for u8 {
    ghost use Rattle.amqp_put.specs.Properties.{number_alone};

    ghost form = { number_form bytes1 };

    ghost item = { λ n. number_item n };

    ghost alone = { λ n. number_alone bytes1 n };
}

impl ToItem for u64 {
    ghost use Rattle.amqp_put.specs.Properties.{number_alone};

    ghost form = { number_form bytes8 };

    ghost item = { λ n. number_item n };

    ghost alone = { λ n. number_alone bytes8 n };
}

impl<'a> ToItem for TableContent<'a> {
    ghost use Rattle.amqp_put.specs.Properties.{table_alone};
    ghost use Rattle.amqp_types.specs.Constants.{inner_depth};
    ghost use Rattle.amqp_entries.specs.Contents.{table_in};

    ghost form = { table_form };

    ghost item = { λ table. entries_item (table_in inner_depth table.content.now) };

    ghost alone = { λ table. table_alone (table_in inner_depth table.content.now) };
}

/// How many bytes a field has with those before it, or why it is not written.
#[inline(always)]
fn measure_after<F: ToSlot>(field: &F, before: usize) -> Result<usize, PutError>
    requires { before + F.most < 2 ^ 40 }
    ensures size { result ≡ size_after before (F.flaw field.now) (F.bytes field.now) }
    ensures bound { IfOk result (λ n. n ≤ before + F.most) }
{
    let own = field.measure()?;
    Ok(before + own)
}

impl<F: ToItem> ToProperty for Option<F> {
    ghost form = { F.form };

    ghost option = { option_map F.item };

    ghost flaw = { where_some None F.flaw };

    ghost bytes = { where_some [] F.bytes };

    ghost most = { F.most };

    #[inline(always)]
    fn is_set(&self) -> bool {
        self.is_some()
    }

    #[inline(always)]
    fn measure(&self, before: usize) -> Result<usize, PutError> {
        match self {
            Some(field) => measure_after(field, before),
            None => Ok(before),
        }
    }

    #[inline(always)]
    fn put(&self, buf: &mut [u8], at: usize) -> usize {
        match self {
            Some(field) => field.put(buf, at),
            None => at,
        }
    }

    ghost spells = { some_spells F.form F.item F.bytes F.alone };
}

/// A field that a mask says is set or not.
#[derive(Clone, Copy)]
pub struct Masked<F> {
    /// Whether it is set.
    pub set: bool,

    /// The field, which is not looked at where it is not set.
    pub field: F,
}

impl<F: ToItem> ToProperty for Masked<F> {
    ghost form = { F.form };

    ghost option = { λ masked. if_set masked.set (F.item masked.field) };

    ghost flaw = { λ masked. flaw_if masked.set (F.flaw masked.field) };

    ghost bytes = { λ masked. bytes_if masked.set (F.bytes masked.field) };

    ghost most = { F.most };

    #[inline(always)]
    fn is_set(&self) -> bool {
        self.set
    }

    #[inline(always)]
    fn measure(&self, before: usize) -> Result<usize, PutError> {
        if self.set {
            measure_after(&self.field, before)
        } else {
            Ok(before)
        }
    }

    #[inline(always)]
    fn put(&self, buf: &mut [u8], at: usize) -> usize {
        if self.set {
            self.field.put(buf, at)
        } else {
            at
        }
    }

    ghost spells = { λ masked. masked_spells F.form (F.item masked.field) (F.bytes masked.field)
        (F.alone masked.field) masked.set };
}

/// A short string that a mask says is set or not. It is read only where it is set.
#[derive(Clone, Copy)]
pub struct MaskedText<'a> {
    /// Whether it is set.
    pub set: bool,

    /// The text.
    pub text: &'a &'a [u8],
}

impl<'a> ToProperty for MaskedText<'a> {
    ghost use Rattle.amqp_types.specs.Strings.{short_string_bytes};
    ghost use Rattle.amqp_entries.specs.Flaws.{text_flaw};
    ghost use Rattle.amqp_put.specs.Properties.{text_alone};

    ghost form = { short_string_form };

    ghost option = { λ masked. if_set masked.set (text_item masked.text.now.now) };

    ghost flaw = { λ masked. flaw_if masked.set (text_flaw masked.text.now.now) };

    ghost bytes = { λ masked. bytes_if masked.set (short_string_bytes masked.text.now.now) };

    ghost most = { 256 };

    #[inline(always)]
    fn is_set(&self) -> bool {
        self.set
    }

    #[inline(always)]
    fn measure(&self, before: usize) -> Result<usize, PutError> {
        if self.set {
            measure_after(&Text { bytes: *self.text }, before)
        } else {
            Ok(before)
        }
    }

    #[inline(always)]
    fn put(&self, buf: &mut [u8], at: usize) -> usize {
        if self.set {
            called_put_text(buf, at, *self.text)
        } else {
            at
        }
    }

    ghost spells = { λ masked. masked_spells short_string_form (text_item masked.text.now.now)
        (short_string_bytes masked.text.now.now) (text_alone masked.text.now.now) masked.set };
}

/// What a property adds to a mask in which its bit is worth so much.
#[inline(always)]
fn worth_if(set: bool, worth: u32) -> u32
    ensures value { result ≡ (if set then worth else 0) }
    ensures bound { result ≤ worth }
{
    if set { worth } else { 0 }
}

impl ToProperties for () {
    ghost forms = { [] };

    ghost options = { λ _. [] };

    ghost flaw = { λ _. None };

    ghost bytes = { λ _. [] };

    ghost most = { 0 };

    #[inline(always)]
    fn mask(&self, _worth: u32) -> u32 {
        0
    }

    #[inline(always)]
    fn measure(&self, before: usize) -> Result<usize, PutError> {
        Ok(before)
    }

    #[inline(always)]
    fn put(&self, _buf: &mut [u8], at: usize) -> usize {
        at
    }

    ghost spells = { λ _. none_are_set };
}

impl<A: ToProperty, R: ToProperties> ToProperties for (A, R) {
    ghost use Rattle.amqp_entries.specs.Flaws.{first_of};
    ghost use Rattle.amqp_put.specs.Properties.{both_spell};

    ghost forms = { A.form ∷ R.forms };

    ghost options = { λ t. A.option t.0 ∷ R.options t.1 };

    ghost flaw = { λ t. first_of (A.flaw t.0) (R.flaw t.1) };

    ghost bytes = { λ t. A.bytes t.0 ++ R.bytes t.1 };

    ghost most = { A.most + R.most };

    #[inline(always)]
    fn mask(&self, worth: u32) -> u32 {
        let first = worth_if(self.0.is_set(), worth);
        first + self.1.mask(worth / 2)
    }

    #[inline(always)]
    fn measure(&self, before: usize) -> Result<usize, PutError> {
        let place = self.0.measure(before)?;
        self.1.measure(place)
    }

    #[inline(always)]
    fn put(&self, buf: &mut [u8], at: usize) -> usize {
        let place = self.0.put(buf, at);
        self.1.put(buf, place)
    }

    ghost spells = { λ x bit. both_spell bit A.form R.forms (A.option x.0) (R.options x.1)
        (A.bytes x.0) (R.bytes x.1) (A.spells x.0) (λ b. R.spells x.1 b) };
}
