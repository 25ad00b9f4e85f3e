//! Laws of canonical bytes, each the contract of a function that does nothing.

ghost use Rattle.amqp_canonical.specs.CanonicalLaws.{CanonicalValuesAreStrict};
ghost use Rattle.amqp_canonical.specs.CanonicalLaws.{CanonicalArraysAreStrict};
ghost use Rattle.amqp_canonical.specs.CanonicalLaws.{CanonicalTablesAreStrict};
ghost use Rattle.amqp_canonical.specs.CanonicalLaws.{CanonicalSlotsAreStrict};
ghost use Rattle.amqp_canonical.specs.CanonicalLaws.{CanonicalPayloadsAreStrict};
ghost use Rattle.amqp_canonical.specs.CanonicalLaws.{CanonicalContentHeadersAreStrict};

/// The bytes of a value, an array or a table are canonical exactly where they encode it at level strict.
pub fn canonical_values_are_strict()
    ensures values { CanonicalValuesAreStrict }
    ensures arrays { CanonicalArraysAreStrict }
    ensures tables { CanonicalTablesAreStrict }
{}

/// The bytes of fields are canonical exactly where they encode them at level strict.
pub fn canonical_slots_are_strict()
    ensures { CanonicalSlotsAreStrict }
{}

/// The bytes of a method are canonical exactly where they encode it at level strict.
pub fn canonical_payloads_are_strict()
    ensures { CanonicalPayloadsAreStrict }
{}

/// The bytes of a content header are canonical exactly where they encode it at level strict.
pub fn canonical_content_headers_are_strict()
    ensures { CanonicalContentHeadersAreStrict }
{}
