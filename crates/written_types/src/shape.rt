//! A struct that was judged.

ghost use Rattle.oc_typing.specs.Rules.{field_names};
ghost use Rattle.written_types.specs.Numbers.{Numbers};

use oc_cells::StructType;
use std::collections::BTreeMap;

/// A struct that was judged: its type, the number of each of its fields, and how deep it nests structs by value.
#[derive(Drop)]
pub struct Shape<'p> {
    pub ty: StructType,
    pub fields: BTreeMap<&'p [u8], u64>,
    pub depth: u64,
    ghost numbered: { Numbers fields (field_names ty.fields) },
}
