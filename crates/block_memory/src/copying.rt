//! Cells that are copied in ascending order.

ghost use Rattle.std.specs.Prelude.{◌≡◌, ◌≤◌, length};
ghost use Rattle.oc_cells.specs.Layout.{leaves};
ghost use Rattle.oc_cells.specs.Memory.{loadable, all_storable, copied, take_over, cell};
ghost use Rattle.block_memory.specs.Content.{further};

use crate::cells::{find_cell, put_cell};
use crate::hidden::{HiddenCell, copy_value};
use crate::layout::{Table, count_cells, leaf_at};
use oc_cells::{Address, Block, CType, Row, TrapKind, fits_type, same_type};

/// Whether the leaves of a type are read one after the other from an address, or the first trap.
pub fn check_loads<'x, 't, C>(
    blocks: &Row<Block<'t, C>>,
    at: Address,
    table: &'x Table<'t>,
    ty: &'x CType,
) -> Result<(), TrapKind>
    requires { length (leaves table.now ty.now) ≤ 65536 }
    ensures { result ≡ loadable blocks.now at (leaves table.now ty.now) }
{
    for place in 0..count_cells(table, ty) {
        if let Some(leaf) = leaf_at(table, ty, place) {
            match find_cell(blocks, at, place) {
                Ok(cell) => {
                    if !fits_type(leaf, cell.leaf.get()) {
                        return Err(TrapKind::M5);
                    }
                }
                Err(kind) => return Err(kind),
            }
        }
    }
    Ok(())
}

/// Whether the leaves of a type are written one after the other from an address, or the first trap.
pub fn check_stores<'x, 't, C>(
    blocks: &Row<Block<'t, C>>,
    at: Address,
    table: &'x Table<'t>,
    ty: &'x CType,
) -> Result<(), TrapKind>
    requires { length (leaves table.now ty.now) ≤ 65536 }
    ensures { result ≡ all_storable blocks.now at (leaves table.now ty.now) }
{
    for place in 0..count_cells(table, ty) {
        if let Some(leaf) = leaf_at(table, ty, place) {
            match find_cell(blocks, at, place) {
                Ok(cell) => {
                    if !same_type(true, leaf, cell.leaf.get()) {
                        return Err(TrapKind::M5);
                    }
                }
                Err(kind) => return Err(kind),
            }
        }
    }
    Ok(())
}

/// Copies one cell, where there are both.
fn copy_one<C: HiddenCell + Drop>(
    blocks: &mut Row<Block<'_, C>>,
    to: Address,
    from: Address,
    place: u32,
)
    ensures { blocks.new ≡ take_over blocks.old (further to place) (cell blocks.old (further from place)) }
{
    if let Ok(cell) = find_cell(blocks, from, place) {
        let value = copy_value(&cell.value);
        put_cell(blocks, to, place, value);
    }
}

/// Copies so many cells in ascending order, each read just before it is written.
pub fn copy_all<C: HiddenCell + Drop>(
    blocks: &mut Row<Block<'_, C>>,
    to: Address,
    from: Address,
    count: u32,
)
    ensures { blocks.new ≡ copied count blocks.old to from }
{
    for place in 0..count {
        copy_one(blocks, to, from, place);
    }
}
