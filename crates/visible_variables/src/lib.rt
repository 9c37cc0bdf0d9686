//! The visible variables of a function, and the slots of all of them.
#![tactic(auto)]

pub mod scope;

pub use scope::{Scope, Variable};
