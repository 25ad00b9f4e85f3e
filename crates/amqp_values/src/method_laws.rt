//! Laws of the table of methods, and of methods in payloads, each the contract of a function that
//! does nothing.

ghost use Rattle.std.specs.Prelude.{IsTrue};
ghost use Rattle.amqp_types.specs.Rows.{classes};
ghost use Rattle.amqp_types.specs.PayloadFaults.{PayloadsFailInside};
ghost use Rattle.amqp_types.specs.MethodLaws.{are_sound_classes, RowsAreLawful, PayloadsAreLawful};
ghost use Rattle.amqp_types.specs.MethodLaws.{SpelledPayloadsAreBounded, HeldPayloadsAreReadBack};
ghost use Rattle.amqp_types.specs.Tidiness.{TidyPayloadsAreDecided};

/// Two bytes hold each id of the table, and its reserved fields have the least constants of their
/// forms.
pub fn table_is_sound()
    ensures { IsTrue (are_sound_classes classes) }
{}

/// The laws of the fields of each method of the table.
#[tactic(auto, using(amqp_laws::proofs::MethodLaws::rows_lawful))]
pub fn rows_are_lawful()
    ensures { RowsAreLawful }
{}

/// The laws of methods in payloads, after both their ids.
#[tactic(auto, using(amqp_laws::proofs::MethodLaws::payloads_lawful))]
pub fn payloads_are_lawful()
    ensures { PayloadsAreLawful }
{}

/// Methods that are encoded are neither long nor too deep.
pub fn spelled_payloads_are_bounded()
    ensures { SpelledPayloadsAreBounded }
{}

/// A test decides which payloads of methods are tidy.
#[tactic(auto, using(amqp_laws::proofs::Tidiness::payloads_decided))]
pub fn tidy_payloads_are_decided()
    ensures { TidyPayloadsAreDecided }
{}

/// A payload of a method shows only faults of what stands inside it.
#[tactic(auto, using(amqp_laws::proofs::PayloadFaults::payloads_inside))]
pub fn payloads_fail_inside()
    ensures { PayloadsFailInside }
{}

/// What programs hold and write as the payload of a method is read back.
#[tactic(auto, using(amqp_laws::proofs::MethodLaws::payloads_read_back))]
pub fn held_payloads_are_read_back()
    ensures { HeldPayloadsAreReadBack }
{}
