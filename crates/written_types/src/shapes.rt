//! The structs that were judged.

ghost use Rattle.std.specs.Prelude.{◌≡◌, ◌+◌, ◌∷◌, ◌++◌, [], OnOk};
ghost use Rattle.oc_cells.specs.Layout.{struct_cells, field_cells};
ghost use Rattle.oc_typing.specs.Rules.{field_depth};
ghost use Rattle.type_rules.specs.Written.{depths_after};
ghost use Rattle.written_types.specs.Shapes.{types, sizes, depths};

use crate::shape::Shape;
use oc_values::{Items, NoMemory};

/// The structs that were judged.
#[derive(Drop)]
pub struct Shapes<'p> {
    pub list: Items<Shape<'p>>,
    ghost sized: { sizes list ≡ struct_cells (types list) },
    ghost nested: { depths list ≡ depths_after [] (types list) },
}

impl<'p> Shapes<'p> {
    /// Adds a struct.
    pub fn push(&mut self, shape: Shape<'p>) -> Result<(), NoMemory>
        requires sized { shape.ty.cells ≡ field_cells (struct_cells (types self.old.list)) shape.ty.fields }
        requires nested { shape.depth ≡ field_depth (depths_after [] (types self.old.list)) shape.ty.fields + 1 }
        ensures { OnOk result (self.new.list ≡ self.old.list ++ shape.entry ∷ []) }
    {
        self.list.push(shape)?;
        Ok(())
    }
}
