//! Laws of values, arrays, tables and fields, each the contract of a function that does nothing.

ghost use Rattle.std.specs.Prelude.{◌≡◌};
ghost use Rattle.std.specs.Bool.{Decides};
ghost use Rattle.amqp_types.specs.Values.{FieldValue, FieldValues, FieldEntries};
ghost use Rattle.amqp_types.specs.ValueLaws.{ValuesAreLawful, ArraysAreLawful, TablesAreLawful};
ghost use Rattle.amqp_types.specs.ValueLaws.{SpelledIsBounded, SettledIsSettling};
ghost use Rattle.amqp_types.specs.ValueLaws.{InsertChangesOneKey, HeldIsReadBack};
ghost use Rattle.amqp_types.specs.SlotLaws.{FormsAreLawful, SlotsAreLawful};
ghost use Rattle.amqp_types.specs.SlotLaws.{SpelledSlotsAreBounded, HeldSlotsAreReadBack};
ghost use Rattle.amqp_types.specs.Tidiness.{TidySlotsAreDecided};
ghost use Rattle.amqp_values.specs.Sameness.{same_value, same_items, same_entries};

/// The laws of values after their tags, for each number of levels that may nest.
pub fn values_are_lawful()
    ensures { ValuesAreLawful }
{}

/// The laws of arrays.
#[tactic(auto, using(amqp_laws::proofs::ValueLaws::arrays_lawful))]
pub fn arrays_are_lawful()
    ensures { ArraysAreLawful }
{}

/// The laws of tables.
#[tactic(auto, using(amqp_laws::proofs::ValueLaws::tables_lawful))]
pub fn tables_are_lawful()
    ensures { TablesAreLawful }
{}

/// What is encoded is neither long nor deeper than it may nest.
#[tactic(auto, using(amqp_laws::proofs::ValueLaws::spelled_is_bounded))]
pub fn spelled_is_bounded()
    ensures { SpelledIsBounded }
{}

/// A table is settled from entries exactly where it is what they leave, put into it one after another.
pub fn settled_is_settling()
    ensures { SettledIsSettling }
{}

/// An entry changes the value of its key and nothing else.
#[tactic(auto, using(amqp_laws::proofs::Settling::insert_changes_one_key))]
pub fn insert_changes_one_key()
    ensures { InsertChangesOneKey }
{}

/// What programs hold and write is read back. `value_held`, `array_held` and `table_held` say that it is held.
#[tactic(auto, using(amqp_laws::proofs::ValueLaws::held_is_read_back))]
pub fn held_is_read_back()
    ensures { HeldIsReadBack }
{}

/// Values are the same exactly where contracts see them as equal.
pub fn sameness_is_equality()
    ensures values { (v w : FieldValue) → Decides (same_value v w) (v ≡ w) }
    ensures arrays { (vs ws : FieldValues) → Decides (same_items vs ws) (vs ≡ ws) }
    ensures tables { (es fs : FieldEntries) → Decides (same_entries es fs) (es ≡ fs) }
{}

/// The laws of the forms of fields.
pub fn forms_are_lawful()
    ensures { FormsAreLawful }
{}

/// The laws of lists of fields whose reserved fields have the least constants of their forms.
#[tactic(auto, using(amqp_laws::proofs::SlotLaws::slots_lawful))]
pub fn slots_are_lawful()
    ensures { SlotsAreLawful }
{}

/// What fields are encoded by is neither long nor too deep.
#[tactic(auto, using(amqp_laws::proofs::SlotLaws::slots_bounded))]
pub fn spelled_slots_are_bounded()
    ensures { SpelledSlotsAreBounded }
{}

/// What programs hold and write into fields is read back.
#[tactic(auto, using(amqp_laws::proofs::SlotsHeld::slots_read_back))]
pub fn held_slots_are_read_back()
    ensures { HeldSlotsAreReadBack }
{}

/// A test decides which fields are tidy.
#[tactic(auto, using(amqp_laws::proofs::Tidiness::slots_decided))]
pub fn tidy_slots_are_decided()
    ensures { TidySlotsAreDecided }
{}
