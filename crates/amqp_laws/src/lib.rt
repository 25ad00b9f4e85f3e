//! Lemmas on the definitions of values, fields, methods, properties and content headers: what is read is what is
//! written, at each level, and what programs hold is read back. There is no code here: `proofs/` has the lemmas, and
//! `specs/` what the laws of methods say programs hold. All that decodes or encodes cites them.
#![tactic(auto)]
