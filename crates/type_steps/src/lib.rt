//! Steps of typing: what a node is by its typed parts, or the rule that it breaks, in code.
//!
//! Each function answers what the rule function of its name says, which stands in the crate `type_rules`.
#![tactic(auto)]

pub mod fault;
pub mod kinds;
pub mod needs;
pub mod operators;
pub mod types;
pub mod values;

pub use fault::TypeFault;
