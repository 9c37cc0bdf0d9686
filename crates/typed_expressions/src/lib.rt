//! Expressions in code: what each is found to be, or the first rule that it breaks.
#![tactic(auto)]

pub mod called;
pub mod calls;
pub mod expressions;
pub mod leaves;
pub mod site;

pub use expressions::{type_alone, type_value};
pub use site::Site;
