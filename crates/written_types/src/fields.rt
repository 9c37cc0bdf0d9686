//! Fields of structs by their names.

ghost use Rattle.std.specs.Prelude.{◌≡◌, Some, None, slice_get};
ghost use Rattle.std.specs.Option.{option_copied};
ghost use Rattle.type_rules.specs.Operators.{field_of, field_in, fields_of, field_at, field, arrow};
ghost use Rattle.type_steps.specs.Answering.{Answers};
ghost use Rattle.written_types.specs.Known.{lookup};
ghost use Rattle.written_types.specs.Shapes.{types};

use crate::known::Known;
use crate::numbers::number_of;
use crate::shape::Shape;
use crate::shapes::Shapes;
use oc_cells::{CType, FieldType};
use oc_source::Spot;
use oc_typed::{TExpr, TPlace, TPlaceNode};
use oc_values::Boxed;
use std::alloc::Global;
use type_rules::{Found, TypeRule};
use type_steps::TypeFault;
use type_steps::types::{share_type, target_of};
use type_steps::values::new_place;

/// The field of a name in a struct.
fn shape_field<'s>(shape: &'s Shape<'_>, name: &[u8]) -> Option<&'s FieldType>
    ensures { option_copied result ≡ field_of shape.now.ty.fields name.now }
{
    match number_of(&shape.fields, name) {
        None => None,
        Some(number) => shape.ty.fields.get(number as usize),
    }
}

/// The field of a name in the struct of a number.
fn struct_field<'s>(shapes: &'s Shapes<'_>, number: u64, name: &[u8]) -> Option<&'s FieldType>
    ensures { option_copied result ≡ field_of (fields_of (slice_get (types shapes.now.list) number)) name.now }
{
    match shapes.list.get(number as usize) {
        None => None,
        Some(shape) => shape_field(shape, name),
    }
}

/// The field of a name in a type.
pub fn field_in<'s>(known: &Known<'s, '_>, ty: &CType, name: &[u8]) -> Option<&'s FieldType>
    ensures { option_copied result ≡ field_in (lookup known.now) ty.now name.now }
{
    match ty {
        CType::Struct(number) => struct_field(known.shapes, *number, name),
        _ => None,
    }
}

/// A field of a place, where it is there.
fn field_at(
    alloc: Global,
    spot: Spot,
    place: TPlace,
    field: Option<&FieldType>,
) -> Result<Boxed<Found>, TypeFault>
    ensures { Answers (field_at spot place (option_copied field.entry)) result }
{
    match field {
        None => Err(TypeFault::Refused {
            rule: TypeRule::T6,
            spot,
        }),
        Some(field) => {
            let ty = share_type(&field.ty)?;
            let base = Boxed::new(alloc, place)?;
            let offset = field.offset;
            Ok(new_place(alloc, spot, ty, TPlaceNode::Field { base, offset })?)
        }
    }
}

/// A field of a place that is a struct.
fn place_field(
    alloc: Global,
    known: &Known<'_, '_>,
    spot: Spot,
    name: &[u8],
    place: TPlace,
) -> Result<Boxed<Found>, TypeFault>
    ensures { Answers (field (lookup known.now) spot name.now (Found.Place place)) result }
{
    let found = field_in(known, &place.ty, name);
    field_at(alloc, spot, place, found)
}

/// `e.f`, of a place that is a struct.
pub fn field(
    alloc: Global,
    known: &Known<'_, '_>,
    spot: Spot,
    name: &[u8],
    found: Boxed<Found>,
) -> Result<Boxed<Found>, TypeFault>
    ensures { Answers (field (lookup known.now) spot name.now found) result }
{
    match found.into_inner() {
        Found::Value(_) => Err(TypeFault::Refused {
            rule: TypeRule::T6,
            spot,
        }),
        Found::Place(place) => place_field(alloc, known, spot, name, place),
    }
}

/// `e->f`, of a pointer to a struct.
pub fn arrow(
    alloc: Global,
    known: &Known<'_, '_>,
    spot: Spot,
    name: &[u8],
    value: Boxed<TExpr>,
) -> Result<Boxed<Found>, TypeFault>
    ensures { Answers (arrow (lookup known.now) spot name.now value) result }
{
    let ty = target_of(&value.get().ty)?;
    let found = field_in(known, &ty, name);
    let node = TPlaceNode::Deref(value);
    field_at(alloc, spot, TPlace { spot, ty, node }, found)
}
