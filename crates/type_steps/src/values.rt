//! Values and places: what is found is read, and converted where a type is wanted.

ghost use Rattle.std.specs.Prelude.{◌≡◌, IfOk, false};
ghost use Rattle.type_rules.specs.Lookup.{value_of, type_of, placed, converted, convert};
ghost use Rattle.type_steps.specs.Answering.{Answers};

use crate::fault::TypeFault;
use crate::needs::need_conversion;
use crate::types::{element_of, is_array, share_type};
use oc_cells::{CType, same_type};
use oc_source::Spot;
use oc_typed::{TExpr, TExprNode, TPlace, TPlaceNode};
use oc_values::{Boxed, NoMemory, Shared};
use std::alloc::Global;
use type_rules::{Found, TypeRule};

/// A value of this type.
pub fn new_value(
    alloc: Global,
    spot: Spot,
    ty: CType,
    node: TExprNode,
) -> Result<Boxed<Found>, NoMemory>
    ensures { IfOk result (λ found. found ≡ Found.Value (record { spot = spot; ty = ty; node = node })) }
{
    Ok(Boxed::new(alloc, Found::Value(TExpr { spot, ty, node }))?)
}

/// A place of this type.
pub fn new_place(
    alloc: Global,
    spot: Spot,
    ty: CType,
    node: TPlaceNode,
) -> Result<Boxed<Found>, NoMemory>
    ensures { IfOk result (λ found. found ≡ Found.Place (record { spot = spot; ty = ty; node = node })) }
{
    Ok(Boxed::new(alloc, Found::Place(TPlace { spot, ty, node }))?)
}

/// A pointer, not frozen, to a type.
pub fn pointer_to(alloc: Global, ty: CType) -> Result<CType, NoMemory>
    ensures { IfOk result (λ pointer. pointer ≡ CType.Pointer false ty) }
{
    let to = Shared::new(alloc, ty)?;
    Ok(CType::Pointer { frozen: false, to })
}

/// What a place holds, or where an array's first element stands.
fn read(alloc: Global, place: TPlace) -> Result<Boxed<TExpr>, NoMemory>
    ensures { IfOk result (λ value. value ≡ value_of (Found.Place place)) }
{
    let spot = place.spot;
    if is_array(&place.ty) {
        let ty = pointer_to(alloc, element_of(&place.ty)?)?;
        let node = TExprNode::Decay(place);
        return Ok(Boxed::new(alloc, TExpr { spot, ty, node })?);
    }
    let ty = share_type(&place.ty)?;
    let node = TExprNode::Read(place);
    Ok(Boxed::new(alloc, TExpr { spot, ty, node })?)
}

/// The value that is found, or that a place holds.
pub fn value_of(alloc: Global, found: Boxed<Found>) -> Result<Boxed<TExpr>, NoMemory>
    ensures { IfOk result (λ value. value ≡ value_of found) }
{
    match found.into_inner() {
        Found::Value(value) => Ok(Boxed::new(alloc, value)?),
        Found::Place(place) => read(alloc, place),
    }
}

/// The type of what is found, of an array too.
pub fn type_of(found: &Found) -> &CType
    ensures { result.now ≡ type_of found.now }
{
    match found {
        Found::Value(value) => &value.ty,
        Found::Place(place) => &place.ty,
    }
}

/// A place where one is needed.
pub fn placed(spot: Spot, found: Boxed<Found>) -> Result<TPlace, TypeFault>
    ensures { Answers (placed spot found) result }
{
    match found.into_inner() {
        Found::Place(place) => Ok(place),
        Found::Value(_) => Err(TypeFault::Refused {
            rule: TypeRule::T5,
            spot,
        }),
    }
}

/// A value as one of this type, where it may be.
pub fn converted(alloc: Global, ty: &CType, value: Boxed<TExpr>) -> Result<Boxed<TExpr>, NoMemory>
    ensures { IfOk result (λ new. new ≡ converted ty.now value) }
{
    if same_type(true, &value.get().ty, ty) {
        return Ok(value);
    }
    let spot = value.get().spot;
    let ty = share_type(ty)?;
    let node = TExprNode::Convert(value);
    Ok(Boxed::new(alloc, TExpr { spot, ty, node })?)
}

/// A value where this type is wanted.
pub fn convert(alloc: Global, ty: &CType, value: Boxed<TExpr>) -> Result<Boxed<TExpr>, TypeFault>
    ensures { Answers (convert ty.now value) result }
{
    need_conversion(&value, ty)?;
    Ok(converted(alloc, ty, value)?)
}
