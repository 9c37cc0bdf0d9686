//! Updates of places: compound assignments, `++` and `--`.

ghost use Rattle.clear_walk.specs.Runs.{Acts, updates, begins_update, ends_update};

use crate::writes::{ready, renew};
use clear_actions::cells::{read_cell, write_cell};
use clear_actions::{Fault, Machine};
use oc_cells::{Address, CType};
use oc_source::Spot;
use oc_typed::TPlace;
use oc_values::BinaryOp;
use oc_walk::Value;

/// An update by an operand of a type, once its place and the operand are known: it reads, computes and writes.
pub fn update(
    m: &mut Machine<'_>,
    enabled: bool,
    spot: Spot,
    op: BinaryOp,
    place: &TPlace,
    ty: &CType,
    at: Address,
    value: Value<i128>,
) -> Result<Value<i128>, Fault>
    ensures { Acts (λ x. updates x enabled spot op place.now.spot place.now.ty ty.now at value) m.old result m.new }
{
    let old = read_cell(&m.store, place.spot, &place.ty, at)?;
    let operand = ready(m, spot, op, &place.ty, ty, old)?;
    let new = renew(m, spot, op, &place.ty, ty, operand, value)?;
    write_cell(&mut m.store, place.spot, enabled, &place.ty, at, new)
}

/// The first part of an update whose value is the old one: that value, and the same as its operator takes it.
pub fn begin_update(
    m: &Machine<'_>,
    spot: Spot,
    op: BinaryOp,
    place: &TPlace,
    ty: &CType,
    at: Address,
) -> Result<(Value<i128>, Value<i128>), Fault>
    ensures { Acts (λ x. begins_update spot op place.now.spot place.now.ty ty.now at) m.now result m.now }
{
    let old = read_cell(&m.store, place.spot, &place.ty, at)?;
    let operand = ready(m, spot, op, &place.ty, ty, old)?;
    Ok((old, operand))
}

/// Its other part, once the operand is known: it computes and writes.
pub fn end_update(
    m: &mut Machine<'_>,
    enabled: bool,
    spot: Spot,
    op: BinaryOp,
    place: &TPlace,
    ty: &CType,
    at: Address,
    old: Value<i128>,
    operand: Value<i128>,
    value: Value<i128>,
) -> Result<Value<i128>, Fault>
    ensures { Acts (λ x. ends_update x enabled spot op place.now.spot place.now.ty ty.now at old operand value) m.old result m.new }
{
    let new = renew(m, spot, op, &place.ty, ty, operand, value)?;
    write_cell(&mut m.store, place.spot, enabled, &place.ty, at, new)?;
    Ok(old)
}
