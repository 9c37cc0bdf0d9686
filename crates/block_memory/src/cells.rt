//! Single cells and blocks.

ghost use Rattle.std.specs.Prelude.{◌≡◌, Ok, Err, IfOk, IfErr};
ghost use Rattle.oc_cells.specs.Memory.{cell, put, update, written, weight};
ghost use Rattle.block_memory.specs.Content.{further};

use oc_cells::{Address, Block, Cell, CellValue, Row, TrapKind};

/// The cell so many places after an address.
pub fn find_cell<'a, 't, C>(
    blocks: &'a Row<Block<'t, C>>,
    at: Address,
    places: u32,
) -> Result<&'a Cell<'t, C>, TrapKind>
    ensures found { IfOk result (λ found. cell blocks.now (further at places) ≡ Ok found.now) }
    ensures trap { IfErr result (λ kind. cell blocks.now (further at places) ≡ Err kind) }
{
    match at {
        Address::Null => Err(TrapKind::M3),
        Address::At { block, offset } => match blocks.get(block as usize) {
            Some(Block::Live { cells, .. }) => {
                let place = u64::from(offset) + u64::from(places);
                match cells.get(place as usize) {
                    Some(cell) => Ok(cell),
                    None => Err(TrapKind::M1),
                }
            }
            _ => Err(TrapKind::M2),
        },
    }
}

fn write_cell<'t, C: Drop>(cells: &mut Row<Cell<'t, C>>, place: u64, value: CellValue<C>)
    ensures { cells.new ≡ update (written value) cells.old place }
{
    let place = place as usize;
    if place < cells.len() {
        cells.write(place, value);
    }
}

/// Writes the cell so many places after an address, where there is one.
pub fn put_cell<'t, C: Drop>(
    blocks: &mut Row<Block<'t, C>>,
    at: Address,
    places: u32,
    value: CellValue<C>,
)
    ensures { blocks.new ≡ put blocks.old (further at places) value }
{
    if let Address::At { block, offset } = at {
        let number = block as usize;
        if number < blocks.len() {
            if let Block::Live {
                allocated,
                mut cells,
            } = blocks.replace(number, Block::Gone)
            {
                write_cell(&mut cells, u64::from(offset) + u64::from(places), value);
                blocks.replace(number, Block::Live { allocated, cells });
            }
        }
    }
}

/// How many live cells a block counts for.
pub fn weigh<C>(block: &Block<'_, C>) -> u64
    ensures { result ≡ weight block.now }
{
    match block {
        Block::Live { cells, .. } => (cells.len() as u64).max(1),
        Block::Gone => 0,
    }
}
