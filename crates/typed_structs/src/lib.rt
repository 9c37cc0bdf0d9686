//! The structs of a program in code: their names, which of them hold public data, and each with its fields.
//!
//! Each function answers what the rule function of its name says, which stands in the crate `type_rules`.
#![tactic(auto)]

pub mod fields;
pub mod laid;
pub mod names;
pub mod structs;
pub mod types;

pub use names::names_of;
pub use structs::type_structs;
pub use types::struct_types;
