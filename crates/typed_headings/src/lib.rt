//! The headings of functions in code, with the maps by which functions are looked up.
#![tactic(auto)]

pub mod agreeing;
pub mod bodies;
pub mod headings;
pub mod list;
pub mod structs;

pub use bodies::bodies_of;
pub use headings::type_headings;
pub use list::Headings;
pub use structs::Structs;
