//! Programs whose meanings are computed: in the clear, by events, and plain.
//!
//! Each stands in `proofs/` as a typed tree with what its runs show, and the check computes that they do.
#![tactic(auto)]

pub use oc_walk::Outcome;
