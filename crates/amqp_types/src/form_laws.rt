//! Laws of numbers, strings and flags, each the contract of a function that does nothing.

ghost use Rattle.amqp_types.specs.FormLaws.{NumbersAreLawful, SignedNumbersAreLawful};
ghost use Rattle.amqp_types.specs.FormLaws.{ShortStringsAreLawful};
ghost use Rattle.amqp_types.specs.FormLaws.{LongStringsAreLawful, FlagsAreLawful};

/// The laws of unsigned numbers.
#[tactic(auto, using(crate::proofs::FormLaws::numbers_lawful))]
pub fn numbers_are_lawful()
    ensures { NumbersAreLawful }
{}

/// The laws of signed numbers.
#[tactic(auto, using(crate::proofs::FormLaws::signed_lawful))]
pub fn signed_numbers_are_lawful()
    ensures { SignedNumbersAreLawful }
{}

/// The laws of short strings.
#[tactic(auto, using(crate::proofs::FormLaws::short_strings_lawful))]
pub fn short_strings_are_lawful()
    ensures { ShortStringsAreLawful }
{}

/// The laws of long strings.
#[tactic(auto, using(crate::proofs::FormLaws::long_strings_lawful))]
pub fn long_strings_are_lawful()
    ensures { LongStringsAreLawful }
{}

/// The laws of a byte of flags, whose unused bits are zero from the level tidy on.
pub fn flags_are_lawful()
    ensures { FlagsAreLawful }
{}
