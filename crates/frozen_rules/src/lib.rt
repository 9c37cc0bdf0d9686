//! The check of the rules of hidden scopes and frozen places, which takes no memory.
//!
//! `types` asks what the rules need of types, `places` which places and values are frozen in a scope; `expressions`,
//! `statements` and `functions` walk a tree in the order in which the rules count, and stop at the first that is broken;
//! `check` is the whole.
#![tactic(auto)]

mod check;
mod expressions;
mod functions;
mod places;
mod scopes;
mod statements;
mod types;

pub use check::{Checked, check_scopes};
pub use oc_typing::Typed;
pub use scope_rules::{ScopeFault, ScopeRule};
