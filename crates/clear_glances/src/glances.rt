//! What parts of a tree tell at a glance.

ghost use Rattle.oc_typed.specs.declared.typed.TExprNode.{Read, Binary, Convert};
ghost use Rattle.oc_typed.specs.declared.typed.TPlaceNode.{Index, Field};
ghost use Rattle.clear_glances.specs.Glances.{Tells, TellsNode, TellsPointer, TellsLink, TellsPlace, TellsPlaceNode, IsMoved, IsEntered, IsHeld, IsLinked};

use crate::numbers::{narrow, operated, public_kind};
use clear_actions::Machine;
use clear_actions::copying::ahead;
use oc_cells::{Address, CType, CellValue};
use oc_typed::{TExpr, TExprNode, TPlace, TPlaceNode};
use oc_values::{BinaryOp, IntKind, convert, is_of_kind, same_kind};

/// The integer that a public expression gives, if a glance of this depth tells it.
#[cycle(glance)]
pub fn glance(m: &Machine<'_>, depth: u32, e: &TExpr) -> Option<i64>
    ensures { Tells m.now e.now result }
{
    let kind = public_kind(&e.ty)?;
    match &e.node {
        TExprNode::Number(n) => narrow(*n),
        TExprNode::Read(place) => glance_read(m, depth, kind, place),
        TExprNode::Binary { op, left, right } => {
            glance_binary(m, depth, kind, *op, left.get(), right.get())
        }
        TExprNode::Convert(part) => glance_convert(m, depth, kind, part.get()),
        _ => None,
    }
}

/// What a public integer's place holds.
#[cycle(glance)]
fn glance_read(m: &Machine<'_>, depth: u32, kind: IntKind, place: &TPlace) -> Option<i64>
    ensures { TellsNode m.now kind (Read place.now) result }
{
    let at = glance_place(m, depth, place)?;
    held(m, &place.ty, kind, at)
}

/// An operator with two public operands.
#[cycle(glance)]
fn glance_binary(
    m: &Machine<'_>,
    depth: u32,
    kind: IntKind,
    op: BinaryOp,
    left: &TExpr,
    right: &TExpr,
) -> Option<i64>
    ensures { TellsNode m.now kind (Binary op left.now right.now) result }
{
    if depth == 0 {
        return None;
    }
    let l = public_kind(&left.ty)?;
    let r = public_kind(&right.ty)?;
    let x = glance(m, depth - 1, left)?;
    let y = glance(m, depth - 1, right)?;
    operated(kind, op, l, r, x, y)
}

/// A conversion of a public integer.
#[cycle(glance)]
fn glance_convert(m: &Machine<'_>, depth: u32, kind: IntKind, part: &TExpr) -> Option<i64>
    ensures { TellsNode m.now kind (Convert part.now) result }
{
    if depth == 0 {
        return None;
    }
    let x = glance(m, depth - 1, part)?;
    narrow(convert(i128::from(x), kind))
}

/// Where a place stands, if a glance of this depth tells it.
#[cycle(glance)]
pub fn glance_place(m: &Machine<'_>, depth: u32, place: &TPlace) -> Option<Address>
    ensures { TellsPlace m.now place.now result }
{
    match &place.node {
        TPlaceNode::Slot(n) => entered(m, *n),
        TPlaceNode::Index { pointer, amount } => {
            glance_element(m, depth, &place.ty, pointer.get(), amount.get())
        }
        TPlaceNode::Field { base, offset } => glance_field(m, depth, base.get(), *offset),
        TPlaceNode::Deref(_) => None,
    }
}

/// Where an element stands, counted from a pointer.
#[cycle(glance)]
fn glance_element(
    m: &Machine<'_>,
    depth: u32,
    ty: &CType,
    pointer: &TExpr,
    amount: &TExpr,
) -> Option<Address>
    ensures { TellsPlaceNode m.now ty.now (Index pointer.now amount.now) result }
{
    if depth == 0 {
        return None;
    }
    let kind = public_kind(&amount.ty)?;
    let from = glance_pointer(m, depth - 1, pointer)?;
    let n = glance(m, depth - 1, amount)?;
    moved(m, ty, kind, from, n)
}

/// Where a field stands.
#[cycle(glance)]
fn glance_field(m: &Machine<'_>, depth: u32, base: &TPlace, offset: u32) -> Option<Address>
    ensures { (t : CType) → TellsPlaceNode m.now t (Field base.now offset) result }
{
    if depth == 0 {
        return None;
    }
    let from = glance_place(m, depth - 1, base)?;
    Some(ahead(offset, from))
}

/// Where a pointer leads.
#[cycle(glance)]
fn glance_pointer(m: &Machine<'_>, depth: u32, e: &TExpr) -> Option<Address>
    ensures { TellsPointer m.now e.now result }
{
    match &e.node {
        TExprNode::Decay(place) => glance_place(m, depth, place),
        TExprNode::Read(place) => glance_link(m, depth, place),
        _ => None,
    }
}

/// Where the pointer that a place holds leads.
#[cycle(glance)]
fn glance_link(m: &Machine<'_>, depth: u32, place: &TPlace) -> Option<Address>
    ensures { TellsLink m.now (Read place.now) result }
{
    let at = glance_place(m, depth, place)?;
    linked(m, &place.ty, at)
}

/// Where the variable of a slot stands.
fn entered(m: &Machine<'_>, slot: u64) -> Option<Address>
    ensures { IsEntered m.now slot result }
{
    let block = m.entered.find(slot)?;
    Some(Address::At { block, offset: 0 })
}

/// The integer in the cell at an address, where it is public and of this kind.
pub(crate) fn held(m: &Machine<'_>, ty: &CType, kind: IntKind, at: Address) -> Option<i64>
    ensures { IsHeld m.now ty.now kind at result }
{
    let of = public_kind(ty)?;
    if !same_kind(kind, of) {
        return None;
    }
    match m.store.blocks.load(at, ty) {
        Ok(CellValue::Int(n)) => narrow(n),
        _ => None,
    }
}

/// The pointer in the cell at an address.
fn linked(m: &Machine<'_>, ty: &CType, at: Address) -> Option<Address>
    ensures { IsLinked m.now ty.now at result }
{
    let CType::Pointer { .. } = ty else {
        return None;
    };
    match m.store.blocks.load(at, ty) {
        Ok(CellValue::Pointer(to)) => Some(to),
        _ => None,
    }
}

/// The address moved by so many elements of a type.
fn moved(m: &Machine<'_>, ty: &CType, kind: IntKind, from: Address, n: i64) -> Option<Address>
    ensures { IsMoved m.now ty.now kind from n result }
{
    let amount = i128::from(n);
    if !is_of_kind(kind, amount) {
        return None;
    }
    m.store
        .blocks
        .offset(from, amount, m.store.blocks.size_of(ty))
        .ok()
}
