//! The blocks of a run.

ghost use Rattle.std.specs.Prelude.{◌≡◌, ◌^◌, pos, ◌+ℤ◌, ◌*ℤ◌, ◌<◌, length, slice_get, [], IfOk, IfErr, OnOk, IsTrue, Ok, Err};
ghost use Rattle.std.specs.Option.{option_copied};
ghost use Rattle.oc_cells.specs.Layout.{leaves, struct_leaves, repeated, has_size, size_of};
ghost use Rattle.oc_cells.specs.Memory.{cell, load, store, storable, put, copyable, copy, offset, placed, ended, free, is_live, HasForm};
ghost use Rattle.block_memory.specs.Content.{Memory, further, has_room, Adds, Changes, Makes, MakesExactly, IsKept};

use crate::cells::{find_cell, put_cell, weigh};
use crate::copying::{check_loads, check_stores, copy_all};
use crate::hidden::{HiddenCell, copy_value};
use crate::layout::{Table, count_cells, leaf_at, push_blanks};
use oc_cells::{
    Address, Block, CType, Cell, CellValue, Row, StructType, TrapKind, fits_type, same_type,
    table_of,
};
use oc_values::{Items, NoMemory};
use std::alloc::{AllocError, Global};
use std::marker::Model;

/// How many cells a type may have.
const MOST_CELLS: u32 = 65_536;

/// How many blocks are ever made.
const MOST_BLOCKS: usize = 1 << 63;

/// Why no block is made.
#[derive(Clone, Copy, Debug, PartialEq, Eq)]
pub enum MakeRefusal {
    /// M4: the number of copies is negative, the live cells would pass the limit, or 2^63 blocks were made.
    Trap(TrapKind),
    NoMemory,
}

/// Numbered blocks of cells, which contracts see as their list, with the limit of live cells and the leaves of
/// each struct. A block's number is never used again.
#[derive(Drop)]
pub struct Blocks<'t, C> {
    alloc: Global,
    blocks: Row<Block<'t, C>>,
    structs: Table<'t>,
    limit: u32,
    live: u64,
}

impl<'t, C> Model for Blocks<'t, C> {
    ghost use Rattle.std.specs.Prelude.{◌≡◌, ◌≤◌, ◌<◌, ◌^◌};
    ghost use Rattle.oc_cells.specs.Memory.{living, AllHaveForm};
    ghost use Rattle.block_memory.specs.Content.{Memory, AllAreLeaves};
    ghost use Rattle.oc_cells.specs.contracts.types.CType as e;
    ghost use Rattle.std.specs.Coded.{codes};

    ghost Value = { Memory C };

    ghost coded = { Prim.hlevel (codes, C.code, e.the_row.coded) };

    ghost view = { λ b. record { blocks = b.blocks; limit = b.limit; structs = b.structs } };

    ghost invariant = { λ b. (b.live ≡ living b.blocks) × (b.live ≤ b.limit) × (b.limit < 2 ^ 32) × AllHaveForm b.blocks × AllAreLeaves b.structs };
}

impl<'t, C: HiddenCell + Drop> Blocks<'t, C> {
    /// No block. Types name these structs by their numbers, and up to `limit` cells live at a time, where a live
    /// block without cells counts as one.
    pub fn new(
        alloc: Global,
        structs: &'t Items<StructType>,
        limit: u32,
    ) -> Result<Blocks<'t, C>, NoMemory>
        ensures { IfOk result (λ memory. memory ≡ record { blocks = []; limit = limit; structs = struct_leaves structs.now }) }
    {
        Ok(Blocks {
            alloc,
            blocks: Row::new(alloc),
            structs: table_of(alloc, structs)?,
            limit,
            live: 0,
        })
    }

    /// What is so of every memory, however it came to be: the live cells are within the limit, and each value is of
    /// its leaf's form. Does nothing.
    pub fn is_kept(&self)
        ensures { IsKept self.now }
    {
        let _ = &self.limit;
    }

    /// Whether a type has 1 to 65,536 cells, as each block and each copy needs. Takes no memory.
    pub fn has_size(&self, ty: &CType) -> bool
        ensures { result ≡ has_size (leaves self.now.structs ty.now) }
    {
        let cells = count_cells(&self.structs, ty);
        1 <= cells && cells <= MOST_CELLS
    }

    /// How many cells a type has, and 0 where it has none or more than 65,536. Takes no memory.
    pub fn size_of(&self, ty: &CType) -> u32
        ensures { result ≡ size_of self.now.structs ty.now }
    {
        let cells = count_cells(&self.structs, ty);
        if cells <= MOST_CELLS { cells } else { 0 }
    }

    /// The leaf of a type with this number, from 0, if it has so many. Takes no memory.
    pub fn leaf<'a>(&'a self, ty: &'a CType, number: u32) -> Option<&'a CType>
        requires { IsTrue (has_size (leaves self.now.structs ty.now)) }
        ensures { option_copied result ≡ slice_get (leaves self.now.structs ty.now) number }
    {
        leaf_at(&self.structs, ty, number)
    }

    /// Whether a block of this number was made, and neither ended nor was freed. Takes no memory.
    pub fn is_live(&self, block: u64) -> bool
        ensures { result ≡ is_live (slice_get self.now.blocks block) }
    {
        matches!(self.blocks.get(block as usize), Some(Block::Live { .. }))
    }

    /// Whether so many copies of so many cells fit beside those that live.
    fn has_room(&self, cells: u32, count: u32) -> bool
        ensures { result ≡ has_room self.now cells (pos count) }
    {
        let weight = (u64::from(count) * u64::from(cells)).max(1);
        self.live + weight <= u64::from(self.limit) && self.blocks.len() < MOST_BLOCKS
    }

    /// A new live block of `count` copies of the cells of a type, zero and null everywhere. Its number. Where each
    /// kind has one zero, what stands then is the memory's own meaning of a new block with these zeros.
    pub fn make_block(
        &mut self,
        ty: &'t CType,
        count: i128,
        allocated: bool,
    ) -> Result<u64, MakeRefusal>
        requires { IsTrue (has_size (leaves self.old.structs ty.now)) }
        ensures makes { Makes C.is_zero_of allocated (leaves self.old.structs ty.now) count result self.old self.new }
        ensures exactly { MakesExactly C.is_zero_of allocated (leaves self.old.structs ty.now) count result self.old self.new }
    {
        let each = count_cells(&self.structs, ty);
        let Ok(copies) = u32::try_from(count) else {
            return Err(MakeRefusal::Trap(TrapKind::M4));
        };
        if !self.has_room(each, copies) {
            return Err(MakeRefusal::Trap(TrapKind::M4));
        }
        let number = self.blocks.len() as u64;
        let mut cells = Row::new(self.alloc);
        let Ok(()) = push_copies(&self.structs, ty, copies, &mut cells) else {
            return Err(MakeRefusal::NoMemory);
        };
        let block = Block::Live { allocated, cells };
        let weight = weigh(&block);
        let Ok(()) = self.blocks.push(block) else {
            return Err(MakeRefusal::NoMemory);
        };
        self.live += weight;
        Ok(number)
    }

    /// The block is gone, and its cells with it. Takes no memory.
    pub fn end_block(&mut self, block: u64)
        requires { IsTrue (is_live (slice_get self.old.blocks block)) }
        ensures { self.new ≡ record self.old { blocks = ended self.old.blocks block } }
    {
        let ended = self.blocks.replace(block as usize, Block::Gone);
        self.live -= weigh(&ended);
    }

    /// Ends the allocated block that starts at an address. Nothing is done at null. Takes no memory.
    pub fn free_block(&mut self, at: Address) -> Result<(), TrapKind>
        ensures { Changes (free self.old.blocks at) result self.old self.new }
    {
        let Address::At { block, offset } = at else {
            return Ok(());
        };
        match self.blocks.get(block as usize) {
            Some(Block::Live { allocated, .. }) => {
                if !*allocated || offset != 0 {
                    return Err(TrapKind::M1);
                }
            }
            _ => return Err(TrapKind::M2),
        }
        self.end_block(block);
        Ok(())
    }

    /// The value of the cell at an address, read with this leaf and of its form. Takes no memory.
    pub fn load(&self, at: Address, leaf: &CType) -> Result<CellValue<C>, TrapKind>
        ensures value { result ≡ load self.now.blocks at leaf.now }
        ensures form { IfOk result (λ value. HasForm leaf.now value) }
    {
        let cell = find_cell(&self.blocks, at, 0)?;
        if !fits_type(leaf, cell.leaf.get()) {
            return Err(TrapKind::M5);
        }
        Ok(copy_value(&cell.value))
    }

    /// Writes the cell at an address with this leaf. Takes no memory.
    pub fn store(&mut self, at: Address, leaf: &CType, value: CellValue<C>) -> Result<(), TrapKind>
        requires { HasForm leaf.now value }
        ensures { Changes (store self.old.blocks at leaf.now value) result self.old self.new }
    {
        let cell = find_cell(&self.blocks, at, 0)?;
        if !same_type(true, leaf, cell.leaf.get()) {
            return Err(TrapKind::M5);
        }
        put_cell(&mut self.blocks, at, 0, value);
        Ok(())
    }

    /// The cell so many places after an address. Takes no memory.
    pub fn cell(&self, at: Address, places: u32) -> Result<&Cell<'t, C>, TrapKind>
        ensures found { IfOk result (λ found. cell self.now.blocks (further at places) ≡ Ok found.now) }
        ensures trap { IfErr result (λ kind. cell self.now.blocks (further at places) ≡ Err kind) }
    {
        find_cell(&self.blocks, at, places)
    }

    /// Writes the cell at an address, of whose leaf's form the value is, where there is one. Takes no memory.
    pub fn put(&mut self, at: Address, value: CellValue<C>)
        requires { IfOk (cell self.old.blocks at) (λ found. HasForm found.leaf value) }
        ensures { self.new ≡ record self.old { blocks = put self.old.blocks at value } }
    {
        put_cell(&mut self.blocks, at, 0, value);
    }

    /// The first trap that a copy of the cells of a type meets: those of its reads, then those of its writes. Takes
    /// no memory.
    pub fn check_copy(&self, to: Address, from: Address, ty: &CType) -> Result<(), TrapKind>
        requires { IsTrue (has_size (leaves self.now.structs ty.now)) }
        ensures { result ≡ copyable self.now.blocks to from (leaves self.now.structs ty.now) }
    {
        check_loads(&self.blocks, from, &self.structs, ty)?;
        check_stores(&self.blocks, to, &self.structs, ty)
    }

    /// Copies the cells of a type from one address to another in ascending order, each read just before it is
    /// written, after all were checked. Takes no memory.
    pub fn copy_cells(&mut self, to: Address, from: Address, ty: &CType) -> Result<(), TrapKind>
        requires { IsTrue (has_size (leaves self.old.structs ty.now)) }
        ensures { Changes (copy self.old.blocks to from (leaves self.old.structs ty.now)) result self.old self.new }
    {
        self.check_copy(to, from, ty)?;
        copy_all(&mut self.blocks, to, from, count_cells(&self.structs, ty));
        Ok(())
    }

    /// The address moved by so many elements of this size. Takes no memory.
    pub fn offset(&self, at: Address, amount: i128, size: u32) -> Result<Address, TrapKind>
        ensures { result ≡ offset self.now.blocks at amount size }
    {
        match at {
            Address::Null => Err(TrapKind::M3),
            Address::At { block, offset } => match self.blocks.get(block as usize) {
                Some(Block::Live { cells, .. }) => place(block, cells.len(), offset, amount, size),
                _ => Err(TrapKind::M2),
            },
        }
    }
}

/// Adds the blank cells of so many copies of a type.
fn push_copies<'t, C: HiddenCell + Drop>(
    table: &Table<'t>,
    ty: &'t CType,
    count: u32,
    out: &mut Row<Cell<'t, C>>,
) -> Result<(), AllocError>
    ensures { OnOk result (Adds C.is_zero_of (repeated count (leaves table.now ty.now)) out.old out.new) }
{
    for _ in 0..count {
        push_blanks(table, ty, out)?;
    }
    Ok(())
}

/// The place so many elements of a size away from an offset, in a block of so many cells or just after them.
fn place(
    block: u64,
    cells: usize,
    offset: u32,
    amount: i128,
    size: u32,
) -> Result<Address, TrapKind>
    requires { cells < 2 ^ 32 }
    ensures { result ≡ placed block cells (pos offset +ℤ amount *ℤ pos size) }
{
    let Some(way) = amount.checked_mul(i128::from(size)) else {
        return Err(TrapKind::M1);
    };
    let Some(to) = way.checked_add(i128::from(offset)) else {
        return Err(TrapKind::M1);
    };
    if to < 0 || to > cells as i128 {
        return Err(TrapKind::M1);
    }
    Ok(Address::At {
        block,
        offset: to as u32,
    })
}
