//! What expressions without parts are.

ghost use Rattle.std.specs.Prelude.{◌≡◌, false, option_map};
ghost use Rattle.std.specs.Option.{option_copied};
ghost use Rattle.type_rules.specs.Lookup.{find, variable, number, is};
ghost use Rattle.type_rules.specs.Rules.{misplaced_size};
ghost use Rattle.oc_typed.specs.declared.typed.TExprNode as node;
ghost use Rattle.type_steps.specs.Answering.{Answers};
ghost use Rattle.written_types.specs.Known.{lookup};
ghost use Rattle.visible_variables.specs.Seen.{seen_of, all_seen};

use crate::site::Site;
use oc_cells::CType;
use oc_source::{Literal, Spot, TypeName};
use oc_typed::{TExprNode, TPlaceNode};
use oc_values::{Boxed, Name};
use std::alloc::Global;
use type_rules::{Found, TypeRule};
use type_steps::TypeFault;
use type_steps::types::share_type;
use type_steps::values::{new_place, new_value, pointer_to};
use visible_variables::Variable;
use written_types::{Known, base_type, number_of};

/// The visible variable of a name, which is the one that was declared last.
pub fn find<'s, 'p>(site: &Site<'s, 'p>, name: &[u8]) -> Option<&'s Variable<'p>>
    ensures { option_map seen_of (option_copied result) ≡ find (all_seen site.now.variables.now) name.now }
{
    match number_of(site.latest, name) {
        None => None,
        Some(number) => site.variables.get(number as usize),
    }
}

/// The place of a variable, where there is one.
fn variable(
    alloc: Global,
    spot: Spot,
    found: Option<&Variable<'_>>,
) -> Result<Boxed<Found>, TypeFault>
    ensures { Answers (variable spot (option_map seen_of (option_copied found.entry))) result }
{
    match found {
        None => Err(TypeFault::Refused {
            rule: TypeRule::T1,
            spot,
        }),
        Some(found) => {
            let ty = share_type(&found.ty)?;
            Ok(new_place(alloc, spot, ty, TPlaceNode::Slot(found.slot))?)
        }
    }
}

/// A name is the place of its variable.
pub fn named(
    alloc: Global,
    site: &Site<'_, '_>,
    spot: Spot,
    name: &Name,
) -> Result<Boxed<Found>, TypeFault>
    ensures { Answers (variable spot (find (all_seen site.now.variables.now) name.now)) result }
{
    let found = find(site, name.as_bytes());
    variable(alloc, spot, found)
}

/// A literal is a public integer of its kind.
pub fn number(alloc: Global, spot: Spot, literal: Literal) -> Result<Boxed<Found>, TypeFault>
    ensures { Answers (number spot literal) result }
{
    let ty = CType::Int {
        kind: literal.kind,
        obliv: false,
    };
    let node = TExprNode::Number(literal.value as i128);
    Ok(new_value(alloc, spot, ty, node)?)
}

/// `NULL` is a pointer to nothing.
pub fn null_pointer(alloc: Global, spot: Spot) -> Result<Boxed<Found>, TypeFault>
    ensures { Answers (is spot (CType.Pointer false CType.Nothing) node.NullPointer) result }
{
    let ty = pointer_to(alloc, CType::Nothing)?;
    Ok(new_value(alloc, spot, ty, TExprNode::NullPointer)?)
}

/// A `sizeof` where none may stand.
pub fn misplaced_size(
    known: &Known<'_, '_>,
    spot: Spot,
    written: &TypeName,
) -> Result<Boxed<Found>, TypeFault>
    ensures { Answers (misplaced_size (lookup known.now) spot written.now) result }
{
    base_type(known, written.stars as u64, &written.base)?;
    Err(TypeFault::Refused {
        rule: TypeRule::T9,
        spot,
    })
}
