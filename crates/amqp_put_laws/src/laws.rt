//! The laws, each the contract of a function that does nothing.

ghost use Rattle.amqp_put_laws.specs.PutLaws.{PutFieldsAreRead, PutIsGenerated};

/// Both stacks write the same bytes: what a put call puts of a frame is what `gen_frame` appends of a typed frame with these
/// fields.
#[tactic(auto, using(crate::proofs::Generated::same_generated))]
pub fn put_is_generated()
    ensures { PutIsGenerated }
{}

/// What was put has the fields that were put, by `read_fields` on the payload that the header scan finds.
#[tactic(auto, using(crate::proofs::FieldsRead::fields_read))]
pub fn put_fields_are_read()
    ensures { PutFieldsAreRead }
{}
