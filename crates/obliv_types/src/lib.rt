//! Whole programs, judged by the rules of typing.
//!
//! `type_program` answers the typed tree of a program, or the first rule that it breaks and where.
#![tactic(auto)]

pub mod entry;
pub mod functions;
pub mod program;

pub use program::type_program;
