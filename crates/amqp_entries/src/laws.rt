//! What is appended to a content, and what that is then decoded to: laws, each the contract of a function that does
//! nothing.

ghost use Rattle.amqp_entries.specs.Laws.{AppendedEntryIsDecoded, AppendedInOrderIsCanonical};
ghost use Rattle.amqp_entries.specs.Laws.{AppendedValueIsDecoded, AppendedValuesAreCanonical};

/// A content with an entry or a value appended is decoded to what it was decoded to, and that one after it.
pub fn appended_is_decoded()
    ensures entry { AppendedEntryIsDecoded }
    ensures value { AppendedValueIsDecoded }
{}

/// Entries appended in ascending key order make a canonical content, and so do any values of an array.
pub fn appended_in_order_is_canonical()
    ensures entries { AppendedInOrderIsCanonical }
    ensures values { AppendedValuesAreCanonical }
{}
