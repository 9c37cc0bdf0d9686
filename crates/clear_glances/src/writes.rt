//! Assignments to public variables and updates of them that need no walk.

ghost use Rattle.std.specs.Prelude.{◌≡◌, false};
ghost use Rattle.oc_cells.specs.declared.types.CType.TheVariants.{Int as CInt};
ghost use Rattle.clear_glances.specs.Writes.{AssignsAtOnce, UpdatesAtOnce, IsWritten};

use crate::glances::{glance, glance_place, held};
use crate::numbers::{public_kind, renewed};
use clear_actions::Machine;
use oc_cells::{Address, CType, CellValue};
use oc_typed::{TExpr, TPlace};
use oc_values::{BinaryOp, IntKind, is_of_kind, same_kind};

/// Writes a number to the cell at an address, if it is a value of the kind and the cell is one of this public type.
fn write(m: &mut Machine<'_>, ty: &CType, kind: IntKind, at: Address, n: i64) -> Option<i64>
    requires { ty.now ≡ CInt kind false }
    ensures { IsWritten m.old ty.now kind at n result m.new }
{
    let value = i128::from(n);
    if !is_of_kind(kind, value) {
        return None;
    }
    match m.store.blocks.store(at, ty, CellValue::Int(value)) {
        Ok(()) => Some(n),
        Err(_) => None,
    }
}

/// Makes an assignment to a public integer, if glances of this depth tell its place and its value: what is then in the place. Else
/// nothing changes.
pub fn assign_at_once(m: &mut Machine<'_>, depth: u32, place: &TPlace, value: &TExpr) -> Option<i64>
    ensures { AssignsAtOnce m.old place.now value.now result m.new }
{
    let kind = public_kind(&place.ty)?;
    let of = public_kind(&value.ty)?;
    if !same_kind(kind, of) {
        return None;
    }
    let at = glance_place(m, depth, place)?;
    let n = glance(m, depth, value)?;
    write(m, &place.ty, kind, at, n)
}

/// Makes an update of a public integer, if glances of this depth tell its place and its operand: its value, which is what was in
/// the place before where `old`, else what is then in it. Else nothing changes.
pub fn update_at_once(
    m: &mut Machine<'_>,
    depth: u32,
    op: BinaryOp,
    place: &TPlace,
    value: &TExpr,
    old: bool,
) -> Option<i64>
    ensures { UpdatesAtOnce m.old op place.now value.now old result m.new }
{
    let kind = public_kind(&place.ty)?;
    let of = public_kind(&value.ty)?;
    let at = glance_place(m, depth, place)?;
    let operand = glance(m, depth, value)?;
    let before = held(m, &place.ty, kind, at)?;
    let after = renewed(op, kind, of, before, operand)?;
    write(m, &place.ty, kind, at, after)?;
    Some(if old { before } else { after })
}
