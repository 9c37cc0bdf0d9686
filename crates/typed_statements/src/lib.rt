//! Statements and bodies in code: the typed tree of each, or the first rule that it breaks.
//!
//! A scope of variables goes along: `values` are judged in one, `declarations` add to it, `statements` enter and leave those of
//! their parts, and `bodies` begin with the parameters of a function.
#![tactic(auto)]

pub mod bodies;
pub mod declarations;
pub mod statements;
pub mod values;

pub use bodies::type_body;
