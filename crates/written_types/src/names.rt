//! The structs of a program by their names.

ghost use Rattle.type_rules.specs.Written.{struct_names};
ghost use Rattle.written_types.specs.Numbers.{Numbers};

use oc_source::StructDef;
use oc_values::Items;
use std::collections::BTreeMap;

/// The structs of a program by their names, and which of them hold public data.
#[derive(Drop)]
pub struct Names<'p> {
    pub defs: &'p [StructDef],
    pub numbers: BTreeMap<&'p [u8], u64>,
    pub public: Items<bool>,
    ghost numbered: { Numbers numbers (struct_names defs.now) },
}
