//! Sources with what the rules of scopes say of them, computed.
//!
//! Each stands in `proofs/` as a parsed tree, with its text above: the rules of typing give its typed tree, and that keeps the rules of
//! scopes, or its first fault is the one that is said.
#![tactic(auto)]

pub use oc_source::Spot;
