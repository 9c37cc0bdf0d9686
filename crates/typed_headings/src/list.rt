//! Headings, by the names of their functions.

ghost use Rattle.std.specs.Prelude.{◌≡◌, ◌∷◌, ◌++◌, [], length, true, IfOk};
ghost use Rattle.std.specs.Option.{option_copied};
ghost use Rattle.type_rules.specs.Written.{has_name, may_stand, bodies_of};
ghost use Rattle.written_types.specs.Numbers.{Numbers, heading_names};
ghost use Rattle.typed_headings.specs.Beside.{are_agreeing, first_named};

use crate::agreeing::may_stand_beside;
use oc_values::NoMemory;
use sqlite_items::at;
use std::alloc::Global;
use std::collections::BTreeMap;
use type_rules::Heading;
use written_types::{add_name, number_of};

/// The headings of functions: the number of the first one of each name, and for each name of a function with a body its
/// number among those.
#[derive(Drop)]
pub struct Headings<'p> {
    pub list: Vec<Heading>,
    pub firsts: BTreeMap<&'p [u8], u64>,
    pub bodies: BTreeMap<&'p [u8], u64>,
    pub bodied: u64,
    ghost first: { Numbers firsts (heading_names list.items) },
    ghost numbered: { Numbers bodies (heading_names (bodies_of list.items)) },
    ghost counted: { bodied ≡ length (bodies_of list.items) },
    ghost agreeing: { are_agreeing list.items ≡ true },
}

impl<'p> Headings<'p> {
    /// No heading.
    pub fn new(alloc: Global) -> Headings<'p>
        ensures { result.list.items ≡ [] }
    {
        Headings {
            list: Vec::new(alloc),
            firsts: BTreeMap::new(alloc),
            bodies: BTreeMap::new(alloc),
            bodied: 0,
        }
    }

    /// The first heading of a name.
    fn first(&self, name: &[u8]) -> Option<&Heading>
        ensures { option_copied result ≡ first_named self.now.list.items name.now }
    {
        match number_of(&self.firsts, name) {
            None => None,
            Some(number) => at(self.list.as_slice(), number as usize),
        }
    }

    /// Whether a function of a name has a body.
    fn has_body(&self, name: &[u8]) -> bool
        ensures { result ≡ has_name (heading_names (bodies_of self.now.list.items)) name.now }
    {
        number_of(&self.bodies, name).is_some()
    }

    /// Whether a heading may stand beside these.
    pub fn may_stand(&self, heading: &Heading) -> bool
        ensures { result ≡ may_stand self.now.list.items heading.now }
    {
        let name = heading.name.as_bytes();
        may_stand_beside(self.first(name), self.has_body(name), heading)
    }

    /// A heading more, which may stand beside these.
    pub fn with(self, heading: Heading, name: &'p [u8]) -> Result<Headings<'p>, NoMemory>
        requires named { heading.name ≡ name.now }
        requires stands { may_stand self.list.items heading ≡ true }
        ensures { IfOk result (λ hs. hs.list.items ≡ self.entry.list.items ++ heading ∷ []) }
    {
        let Headings {
            mut list,
            mut firsts,
            mut bodies,
            mut bodied,
        } = self;
        let has_body = heading.has_body;
        list.push(heading)?;
        let total = list.len() as u64;
        add_name(&mut firsts, name, total - 1)?;
        if has_body {
            add_name(&mut bodies, name, bodied)?;
            bodied += 1;
        }
        Ok(Headings {
            list,
            firsts,
            bodies,
            bodied,
        })
    }
}
