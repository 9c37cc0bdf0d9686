//! The rules of hidden scopes and frozen places on the typed tree: when a program keeps them, and which it breaks first.
//!
//! `specs/Frozen.antt` says which places and values are frozen where, `specs/InScope.antt` when a tree keeps the rules, and
//! `specs/FirstFault.antt` in which order the rules count and which is broken first.
#![tactic(auto)]

pub mod rules;

pub use oc_typing::Typed;
pub use rules::{ScopeFault, ScopeRule};
