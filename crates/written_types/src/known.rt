//! What is known where types are written and expressions stand.

use crate::bodies::Bodies;
use crate::names::Names;
use crate::shapes::Shapes;
use oc_cells::CType;

/// What is known in one place of a program.
#[derive(Drop)]
pub struct Known<'s, 'p> {
    pub names: &'s Names<'p>,
    pub shapes: &'s Shapes<'p>,
    /// How many structs are defined above.
    pub above: u64,
    pub bodies: &'s Bodies<'p>,
    /// The result of the function around.
    pub result: &'s CType,
}
