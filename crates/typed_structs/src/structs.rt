//! The structs of a program, each judged where those before it are known.

ghost use Rattle.std.specs.Prelude.{◌≡◌, ◌+◌, ◌<◌, ◌≤◌, [], IfOk, OnOk, not, take, length, nat_le, nat_lt, ◌&&◌};
ghost use Rattle.oc_cells.specs.Layout.{struct_cells};
ghost use Rattle.type_rules.specs.Judging.{needs};
ghost use Rattle.type_rules.specs.Written.{struct_names, has_name, struct_type, structs_from, depths_after};
ghost use Rattle.type_steps.specs.Answering.{Answers};
ghost use Rattle.written_types.specs.Each.{mapped};
ghost use Rattle.written_types.specs.Known.{lookup};
ghost use Rattle.written_types.specs.Shapes.{types};
ghost use Rattle.typed_structs.specs.Fields.{Whole};
ghost use Rattle.typed_structs.specs.Structs.{structs_lookup, after_structs};

use crate::fields::struct_fields;
use crate::laid::Fields;
use oc_cells::{CType, StructType};
use oc_source::{Spot, StructDef};
use oc_values::{Items, NoMemory};
use std::alloc::Global;
use std::collections::BTreeMap;
use type_rules::TypeRule;
use type_steps::TypeFault;
use type_steps::needs::needs;
use written_types::{Bodies, Known, Names, Shape, Shapes, number_of};

/// Whether a struct above has this name.
fn is_above(known: &Known<'_, '_>, name: &[u8]) -> bool
    ensures { result ≡ has_name (take known.now.above (struct_names known.now.names.now.defs.now)) name.now }
{
    match number_of(&known.names.numbers, name) {
        Some(number) => number < known.above,
        None => false,
    }
}

/// A struct's name is new among those above.
fn need_new_struct(known: &Known<'_, '_>, def: &StructDef) -> Result<(), TypeFault>
    ensures { Answers (needs def.now.spot TypeRule.T2 (not (has_name (take known.now.above (struct_names known.now.names.now.defs.now)) def.now.name))) result }
{
    let taken = is_above(known, def.name.as_bytes());
    needs(def.spot, TypeRule::T2, !taken)
}

/// What a struct's cells and its depth have to be.
fn need_size(spot: Spot, cells: u32, depth: u64) -> Result<(), TypeFault>
    ensures sized { Answers (needs spot TypeRule.T11 (nat_le 1 cells && nat_le cells 65536 && nat_lt depth 64)) result }
    ensures within { OnOk result ((cells ≤ 65536) × (depth < 64)) }
{
    if 1 <= cells && cells <= 65536 && depth < 64 {
        Ok(())
    } else {
        Err(TypeFault::Refused {
            rule: TypeRule::T11,
            spot,
        })
    }
}

/// The struct of a definition with its fields.
fn with_fields<'p>(def: &StructDef, fields: Fields<'p>) -> Result<Shape<'p>, NoMemory>
    requires { fields.depth < 64 }
    ensures ty { IfOk result (λ s. s.ty ≡ record { name = def.now.name; fields = fields.entry.list; cells = fields.entry.cells }) }
    ensures depth { IfOk result (λ s. s.depth ≡ fields.entry.depth + 1) }
{
    let Fields {
        list,
        numbers,
        cells,
        depth,
    } = fields;
    let name = def.name.share()?;
    Ok(Shape {
        ty: StructType {
            name,
            fields: list,
            cells,
        },
        fields: numbers,
        depth: depth + 1,
    })
}

/// The struct of a definition.
fn struct_type<'p>(
    alloc: Global,
    known: &Known<'_, '_>,
    def: &'p StructDef,
) -> Result<Shape<'p>, TypeFault>
    ensures typed { Answers (struct_type (lookup known.now) def.now) (mapped (λ s. s.ty) result) }
    ensures whole { IfOk result (Whole (struct_cells (types known.now.shapes.now.list)) (depths_after [] (types known.now.shapes.now.list))) }
{
    let fields = struct_fields(alloc, known, def.fields.as_slice())?;
    need_new_struct(known, def)?;
    need_size(def.spot, fields.cells, fields.depth)?;
    Ok(with_fields(def, fields)?)
}

/// The struct that follows these.
fn next_struct<'p>(
    alloc: Global,
    names: &Names<'p>,
    shapes: &Shapes<'p>,
    bodies: &Bodies<'p>,
    def: &'p StructDef,
) -> Result<Shape<'p>, TypeFault>
    requires { bodies.now.headings ≡ [] }
    ensures typed { Answers (struct_type (after_structs names.now shapes.now) def.now) (mapped (λ s. s.ty) result) }
    ensures whole { IfOk result (Whole (struct_cells (types shapes.now.list)) (depths_after [] (types shapes.now.list))) }
{
    let result = CType::Nothing;
    let above = shapes.list.len() as u64;
    let known = Known {
        names,
        shapes,
        above,
        bodies,
        result: &result,
    };
    struct_type(alloc, &known, def)
}

/// The structs of a program.
pub fn type_structs<'p>(alloc: Global, names: &Names<'p>) -> Result<Shapes<'p>, TypeFault>
    ensures { Answers (structs_from (structs_lookup names.now) names.now.defs.now) (mapped (after_structs names.now) result) }
{
    let bodies = Bodies {
        headings: Items::new(alloc),
        numbers: BTreeMap::new(alloc),
    };
    let mut shapes = Shapes {
        list: Items::new(alloc),
    };
    for def in names.defs {
        let shape = next_struct(alloc, names, &shapes, &bodies, def)?;
        shapes.push(shape)?;
    }
    Ok(shapes)
}
