//! The fields of a struct, laid one after another.

ghost use Rattle.std.specs.Prelude.{◌≡◌, ◌+◌, ℕ, List, [], IfOk, min, max};
ghost use Rattle.oc_cells.specs.Layout.{cells, struct_cells};
ghost use Rattle.oc_typing.specs.Rules.{depth};
ghost use Rattle.type_rules.specs.Written.{depths_after};
ghost use Rattle.type_steps.specs.Answering.{Answers};
ghost use Rattle.written_types.specs.Each.{each, mapped};
ghost use Rattle.written_types.specs.Known.{lookup};
ghost use Rattle.written_types.specs.Numbers.{Has};
ghost use Rattle.written_types.specs.Shapes.{types};
ghost use Rattle.typed_structs.specs.Fields.{type_judged, field_judged, with_field, unlaid, Laid};

use crate::laid::Fields;
use oc_cells::{CType, FieldType};
use oc_source::FieldDef;
use oc_values::{Items, NoMemory};
use std::alloc::Global;
use std::collections::BTreeMap;
use type_steps::TypeFault;
use written_types::{Known, Shapes, add_name, field_type, need_new, type_cells, type_depth};

/// The type of a field, after those whose names are numbered.
fn judged_type(
    alloc: Global,
    known: &Known<'_, '_>,
    numbers: &BTreeMap<&[u8], u64>,
    def: &FieldDef,
) -> Result<CType, TypeFault>
    ensures { (xs : List (List ℕ)) → Has numbers.now xs → Answers (type_judged (lookup known.now) xs def.now) result }
{
    let ty = field_type(alloc, known, def)?;
    need_new(numbers, def.spot, &def.name)?;
    Ok(ty)
}

/// The field of a definition, at an offset.
fn laid_field(def: &FieldDef, ty: CType, offset: u32) -> Result<FieldType, NoMemory>
    ensures { IfOk result (λ f. f ≡ record { name = def.now.name; ty = ty; offset = offset }) }
{
    let name = def.name.share()?;
    Ok(FieldType { name, ty, offset })
}

/// The cells before a field and of it, up to one more than a struct may have.
fn more_cells(shapes: &Shapes<'_>, before: u32, ty: &CType) -> u32
    ensures { result ≡ min (before + cells (struct_cells (types shapes.now.list)) ty.now) 65537 }
{
    let total = before as u64 + type_cells(shapes, ty);
    if total < 65537 { total as u32 } else { 65537 }
}

/// How deep the fields before a field and this one nest structs by value.
fn deeper(shapes: &Shapes<'_>, before: u64, ty: &CType) -> u64
    ensures { result ≡ max before (depth (depths_after [] (types shapes.now.list)) ty.now) }
{
    let depth = type_depth(shapes, ty);
    if before < depth { depth } else { before }
}

/// The fields of a struct.
pub fn struct_fields<'p>(
    alloc: Global,
    known: &Known<'_, '_>,
    defs: &'p [FieldDef],
) -> Result<Fields<'p>, TypeFault>
    ensures typed { Answers (each (field_judged (lookup known.now)) with_field [] defs.now) (mapped (λ f. unlaid f.list) result) }
    ensures laid { IfOk result (Laid (struct_cells (types known.now.shapes.now.list)) (depths_after [] (types known.now.shapes.now.list))) }
{
    let mut list = Items::new(alloc);
    let mut numbers = BTreeMap::new(alloc);
    let mut cells = 0;
    let mut depth = 0;
    for def in defs {
        let ty = judged_type(alloc, known, &numbers, def)?;
        add_name(&mut numbers, def.name.as_bytes(), list.len() as u64)?;
        let offset = cells;
        cells = more_cells(known.shapes, cells, &ty);
        depth = deeper(known.shapes, depth, &ty);
        let field = laid_field(def, ty, offset)?;
        list.push(field)?;
    }
    Ok(Fields {
        list,
        numbers,
        cells,
        depth,
    })
}
