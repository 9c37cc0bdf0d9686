//! Written types, structs and headings in code, with the maps by which names are looked up.
#![tactic(auto)]

pub mod bodies;
pub mod fields;
pub mod headings;
pub mod known;
pub mod names;
pub mod numbers;
pub mod shape;
pub mod shapes;
pub mod sizes;
pub mod written;

pub use bodies::Bodies;
pub use fields::{arrow, field};
pub use headings::{heading, is_frozen_place, need_new, params};
pub use known::Known;
pub use names::Names;
pub use numbers::{add_name, number_of};
pub use shape::Shape;
pub use shapes::Shapes;
pub use sizes::{type_cells, type_depth};
pub use written::{base_type, field_type, type_name};
