//! Fields that were laid one after another.

ghost use Rattle.oc_typing.specs.Rules.{field_names};
ghost use Rattle.written_types.specs.Numbers.{Numbers};

use oc_cells::FieldType;
use oc_values::Items;
use std::collections::BTreeMap;

/// The fields of a struct with the number of each, their cells, up to one more than a struct may have, and how deep they
/// nest structs by value.
#[derive(Drop)]
pub struct Fields<'p> {
    pub list: Items<FieldType>,
    pub numbers: BTreeMap<&'p [u8], u64>,
    pub cells: u32,
    pub depth: u64,
    ghost numbered: { Numbers numbers (field_names list) },
}
