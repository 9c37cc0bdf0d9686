//! What is known where an expression stands.

ghost use Rattle.visible_variables.specs.Seen.{Latest};

use oc_values::Items;
use std::collections::BTreeMap;
use visible_variables::Variable;
use written_types::Known;

/// What is known where an expression stands: the program around, and the visible variables.
#[derive(Drop)]
pub struct Site<'s, 'p> {
    pub known: &'s Known<'s, 'p>,
    pub variables: &'s Items<Variable<'p>>,
    pub latest: &'s BTreeMap<&'p [u8], u64>,
    ghost found: { Latest latest.now variables.now },
}
