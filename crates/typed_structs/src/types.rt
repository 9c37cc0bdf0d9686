//! The types of the structs that were judged.

ghost use Rattle.std.specs.Prelude.{◌≡◌, IfOk, reverse};
ghost use Rattle.written_types.specs.Shapes.{types};

use oc_cells::StructType;
use oc_values::{Items, NoMemory};
use std::alloc::Global;
use written_types::{Shape, Shapes};

/// The types of structs, the last one first.
fn last_first(alloc: Global, shapes: Items<Shape<'_>>) -> Result<Items<StructType>, NoMemory>
    ensures { IfOk result (λ list. list ≡ reverse (types shapes.entry)) }
{
    let mut left = shapes;
    let mut list = Items::new(alloc);
    while let Some(shape) = left.pop() {
        let Shape { ty, .. } = shape;
        list.push(ty)?;
    }
    Ok(list)
}

/// The same types in the other order.
fn turned(alloc: Global, types: Items<StructType>) -> Result<Items<StructType>, NoMemory>
    ensures { IfOk result (λ list. list ≡ reverse types) }
{
    let mut left = types;
    let mut list = Items::new(alloc);
    while let Some(ty) = left.pop() {
        list.push(ty)?;
    }
    Ok(list)
}

/// The types of the structs, in order.
pub fn struct_types(alloc: Global, shapes: Shapes<'_>) -> Result<Items<StructType>, NoMemory>
    ensures { IfOk result (λ list. list ≡ types shapes.entry.list) }
{
    let Shapes { list } = shapes;
    let backwards = last_first(alloc, list)?;
    turned(alloc, backwards)
}
