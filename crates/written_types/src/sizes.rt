//! How many cells a type takes, and how deep it nests structs by value.

ghost use Rattle.std.specs.Prelude.{◌≡◌, min, slice_index_or, []};
ghost use Rattle.oc_cells.specs.Layout.{cells, struct_cells};
ghost use Rattle.oc_typing.specs.Rules.{depth};
ghost use Rattle.type_rules.specs.Written.{depths_after};
ghost use Rattle.written_types.specs.Shapes.{types};

use crate::shapes::Shapes;
use oc_cells::CType;

/// The smaller of a number of cells and 65,537.
fn capped(count: u64) -> u64
    ensures { result ≡ min count 65537 }
{
    if count < 65537 { count } else { 65537 }
}

/// The cells of the struct of a number, up to one more than a type may have.
fn struct_size(shapes: &Shapes<'_>, number: u64) -> u64
    ensures { result ≡ min (slice_index_or (struct_cells (types shapes.now.list)) number 0) 65537 }
{
    match shapes.list.get(number as usize) {
        Some(shape) => capped(shape.ty.cells as u64),
        None => 0,
    }
}

/// The cells of a type, up to one more than a type may have.
pub fn type_cells(shapes: &Shapes<'_>, ty: &CType) -> u64
    ensures { result ≡ min (cells (struct_cells (types shapes.now.list)) ty.now) 65537 }
{
    match ty {
        CType::Int { .. } | CType::Pointer { .. } => 1,
        CType::Array { len, of } => {
            let each = type_cells(shapes, of.get());
            capped(*len as u64 * each)
        }
        CType::Struct(number) => struct_size(shapes, *number),
        CType::Nothing => 0,
    }
}

/// How deep the struct of a number nests structs by value, itself among them.
fn struct_depth(shapes: &Shapes<'_>, number: u64) -> u64
    ensures { result ≡ slice_index_or (depths_after [] (types shapes.now.list)) number 0 }
{
    match shapes.list.get(number as usize) {
        Some(shape) => shape.depth,
        None => 0,
    }
}

/// How deep structs are nested by value in a type.
pub fn type_depth(shapes: &Shapes<'_>, ty: &CType) -> u64
    ensures { result ≡ depth (depths_after [] (types shapes.now.list)) ty.now }
{
    match ty {
        CType::Array { len: _, of } => type_depth(shapes, of.get()),
        CType::Struct(number) => struct_depth(shapes, *number),
        _ => 0,
    }
}
