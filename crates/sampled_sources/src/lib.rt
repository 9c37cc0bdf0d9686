//! Sources whose typed trees and meanings are computed.
//!
//! Each stands in `proofs/` as a parsed tree: the rules of typing give its typed tree, which shows and does what is said there.
#![tactic(auto)]

pub use oc_source::Spot;
