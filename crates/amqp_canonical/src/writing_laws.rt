//! Canonical bytes are no more than the bytes that were decoded: a law, as the contract of a function that does
//! nothing.

ghost use Rattle.amqp_canonical.specs.WritingLaws.{ValuesAreNoLonger, ArraysAreNoLonger};
ghost use Rattle.amqp_canonical.specs.WritingLaws.{TablesAreNoLonger, SlotsAreNoLonger};
ghost use Rattle.amqp_canonical.specs.WritingLaws.{PayloadsAreNoLonger, ContentHeadersAreNoLonger};

/// Canonical bytes are no more than the bytes that were decoded, so a slice with room for these has room for them.
pub fn written_is_no_longer()
    ensures values { ValuesAreNoLonger }
    ensures arrays { ArraysAreNoLonger }
    ensures tables { TablesAreNoLonger }
    ensures slots { SlotsAreNoLonger }
    ensures payloads { PayloadsAreNoLonger }
    ensures headers { ContentHeadersAreNoLonger }
{}
