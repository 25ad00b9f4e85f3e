//! Laws of properties and content headers, each the contract of a function that does nothing.

ghost use Rattle.amqp_types.specs.PropertyLaws.{SetsAreLawful, PropertiesAreLawful};
ghost use Rattle.amqp_types.specs.PropertyLaws.{SpelledPropertiesAreBounded};
ghost use Rattle.amqp_types.specs.PropertyLaws.{HeldPropertiesAreReadBack};
ghost use Rattle.amqp_types.specs.PayloadFaults.{ContentHeadersFailInside};
ghost use Rattle.amqp_types.specs.ContentHeaders.{ContentHeadersAreLawful};
ghost use Rattle.amqp_types.specs.ContentHeaders.{SpelledContentHeadersAreBounded};
ghost use Rattle.amqp_types.specs.ContentHeaders.{HeldContentHeadersAreReadBack};
ghost use Rattle.amqp_types.specs.Tidiness.{TidyPropertiesAreDecided, TidyContentHeadersAreDecided};

/// The laws of lists of properties that give one item each, whatever the mask.
#[tactic(auto, using(amqp_laws::proofs::Options::sets_lawful))]
pub fn sets_are_lawful()
    ensures { SetsAreLawful }
{}

/// The laws of the 14 properties and their mask.
#[tactic(auto, using(amqp_laws::proofs::PropertyLaws::properties_lawful))]
pub fn properties_are_lawful()
    ensures { PropertiesAreLawful }
{}

/// Properties that are encoded are neither long nor too deep.
pub fn spelled_properties_are_bounded()
    ensures { SpelledPropertiesAreBounded }
{}

/// Properties that programs hold and write are read back.
#[tactic(auto, using(amqp_laws::proofs::PropertyLaws::properties_read_back))]
pub fn held_properties_are_read_back()
    ensures { HeldPropertiesAreReadBack }
{}

/// The laws of the payloads of content headers.
#[tactic(auto, using(amqp_laws::proofs::HeaderLaws::content_headers_lawful))]
pub fn content_headers_are_lawful()
    ensures { ContentHeadersAreLawful }
{}

/// Content headers that are encoded are neither long nor too deep.
pub fn spelled_content_headers_are_bounded()
    ensures { SpelledContentHeadersAreBounded }
{}

/// Content headers that programs hold and write are read back.
#[tactic(auto, using(amqp_laws::proofs::HeaderLaws::content_headers_read_back))]
pub fn held_content_headers_are_read_back()
    ensures { HeldContentHeadersAreReadBack }
{}

/// A test decides which properties are tidy.
#[tactic(auto, using(amqp_laws::proofs::PropertyTidiness::properties_decided))]
pub fn tidy_properties_are_decided()
    ensures { TidyPropertiesAreDecided }
{}

/// A test decides which payloads of content headers are tidy.
#[tactic(auto, using(amqp_laws::proofs::PropertyTidiness::content_headers_decided))]
pub fn tidy_content_headers_are_decided()
    ensures { TidyContentHeadersAreDecided }
{}

/// The payload of a content header shows only faults of what stands inside it.
#[tactic(auto, using(amqp_laws::proofs::PropertyFaults::content_headers_inside))]
pub fn content_headers_fail_inside()
    ensures { ContentHeadersFailInside }
{}
