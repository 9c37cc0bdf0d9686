//! The functions with a body.

ghost use Rattle.written_types.specs.Numbers.{Numbers, heading_names};

use oc_values::Items;
use std::collections::BTreeMap;
use type_rules::Heading;

/// The headings of functions with a body, by their names.
#[derive(Drop)]
pub struct Bodies<'p> {
    pub headings: Items<Heading>,
    pub numbers: BTreeMap<&'p [u8], u64>,
    ghost numbered: { Numbers numbers (heading_names headings) },
}
