//! Blocks of cells: what is made, read, written, copied and gone, and the traps.

use crate::tally::Tally;
use block_memory::{
    Address, Blocks, CType, CellValue, HiddenCell, MakeRefusal, StructType, TrapKind,
};
use oc_cells::FieldType;
use oc_values::{IntKind, Items, Name, NoMemory, Shared};
use std::alloc::Global;

const INT: CType = CType::Int {
    kind: IntKind::I32,
    obliv: false,
};

const HIDDEN: CType = CType::Int {
    kind: IntKind::I32,
    obliv: true,
};

fn pointer(alloc: Global, frozen: bool) -> Result<CType, NoMemory> {
    Ok(CType::Pointer {
        frozen,
        to: Shared::new(alloc, INT)?,
    })
}

fn array(alloc: Global, len: u32, of: CType) -> Result<CType, NoMemory> {
    Ok(CType::Array {
        len,
        of: Shared::new(alloc, of)?,
    })
}

/// `struct pair { obliv int number; int *leads; }`, of two cells.
fn structs_of_pair(alloc: Global) -> Result<Items<StructType>, NoMemory> {
    let mut fields = Items::new(alloc);
    fields.push(FieldType {
        name: Name::from_bytes(alloc, b"number")?,
        ty: HIDDEN,
        offset: 0,
    })?;
    fields.push(FieldType {
        name: Name::from_bytes(alloc, b"leads")?,
        ty: pointer(alloc, false)?,
        offset: 1,
    })?;
    let mut structs = Items::new(alloc);
    structs.push(StructType {
        name: Name::from_bytes(alloc, b"pair")?,
        fields,
        cells: 2,
    })?;
    Ok(structs)
}

const fn at(block: u64, offset: u32) -> Address {
    Address::At { block, offset }
}

/// A block of so many copies of a type, and the answer.
fn check_make<'t>(
    tally: &mut Tally,
    blocks: &mut Blocks<'t, i128>,
    (ty, count): (&'t CType, i128),
    want: Result<u64, MakeRefusal>,
) {
    let sized = blocks.has_size(ty);
    tally.row(sized);
    if sized {
        tally.row(blocks.make_block(ty, count, true) == want);
    }
}

/// An address, the leaf that is asked for, and the trap of a load if there is one.
type Reading<'t> = (Address, &'t CType, Option<TrapKind>);

fn check_loads(tally: &mut Tally, blocks: &Blocks<'_, i128>, rows: &[Reading<'_>]) {
    for (place, leaf, want) in rows {
        tally.row(blocks.load(*place, leaf).err() == *want);
    }
}

/// An address, an amount, the size of an element, and the address that this step gives.
type Step = (Address, i128, u32, Result<Address, TrapKind>);

fn check_offsets(tally: &mut Tally, blocks: &Blocks<'_, i128>, rows: &[Step]) {
    for (place, amount, size, want) in rows {
        tally.row(blocks.offset(*place, *amount, *size) == *want);
    }
}

/// Writes 1 to 5 into the first cells.
fn fill(tally: &mut Tally, blocks: &mut Blocks<'_, i128>) {
    let hidden = HIDDEN;
    for place in 0..5u32 {
        let value = CellValue::Hidden(i128::from(place) + 1);
        tally.row(blocks.store(at(0, place), &hidden, value) == Ok(()));
    }
}

/// The hidden integer of a cell, or the trap of reading it as one of I32.
fn hidden_at(blocks: &Blocks<'_, i128>, at: Address) -> Result<i128, TrapKind> {
    match blocks.load(at, &HIDDEN)? {
        CellValue::Hidden(n) => Ok(n),
        _ => Err(TrapKind::M6),
    }
}

/// A block of two pairs, one of a frozen pointer, and an integer's that is freed. A frozen leaf reads a cell that
/// isn't frozen, but doesn't write it.
fn cells_and_traps(alloc: Global, tally: &mut Tally) -> Result<(), NoMemory> {
    let (int, hidden) = (INT, HIDDEN);
    let structs = structs_of_pair(alloc)?;
    let pairs = array(alloc, 2, CType::Struct(0))?;
    let (plain, frozen) = (pointer(alloc, false)?, pointer(alloc, true)?);
    let mut blocks = Blocks::new(alloc, &structs, 65536)?;
    check_make(tally, &mut blocks, (&pairs, 1), Ok(0));
    check_make(tally, &mut blocks, (&frozen, 1), Ok(1));
    check_make(tally, &mut blocks, (&int, 1), Ok(2));
    tally.row(blocks.free_block(at(2, 1)) == Err(TrapKind::M1));
    tally.row(blocks.free_block(at(2, 0)) == Ok(()));
    tally.row(blocks.free_block(at(2, 0)) == Err(TrapKind::M2));
    let loads = [
        (Address::Null, &int, Some(TrapKind::M3)),
        (at(3, 0), &int, Some(TrapKind::M2)),
        (at(2, 0), &int, Some(TrapKind::M2)),
        (at(0, 2), &hidden, None),
        (at(0, 2), &int, Some(TrapKind::M5)),
        (at(0, 4), &hidden, Some(TrapKind::M1)),
        (at(0, 3), &plain, None),
        (at(0, 3), &frozen, None),
        (at(1, 0), &plain, Some(TrapKind::M5)),
    ];
    check_loads(tally, &blocks, &loads);
    if let CType::Pointer { .. } = &frozen {
        let to = CellValue::Pointer(at(0, 0));
        tally.row(blocks.store(at(0, 3), &frozen, to) == Err(TrapKind::M5));
    }
    Ok(())
}

fn steps_sizes_and_limits(alloc: Global, tally: &mut Tally) -> Result<(), NoMemory> {
    let hidden = HIDDEN;
    let structs = Items::new(alloc);
    let row = array(alloc, 6, HIDDEN)?;
    let too_wide = array(alloc, 257, array(alloc, 256, HIDDEN)?)?;
    let mut blocks = Blocks::new(alloc, &structs, 7)?;
    tally.row(blocks.size_of(&row) == 6);
    tally.row(blocks.size_of(&too_wide) == 0);
    let refused = Err(MakeRefusal::Trap(TrapKind::M4));
    // A block without cells counts as one.
    check_make(tally, &mut blocks, (&hidden, 6), Ok(0));
    check_make(tally, &mut blocks, (&hidden, 0), Ok(1));
    check_make(tally, &mut blocks, (&hidden, -1), refused);
    check_make(tally, &mut blocks, (&hidden, 1), refused);
    let steps = [
        (at(0, 0), 3, 2, Ok(at(0, 6))),
        (at(0, 1), 3, 2, Err(TrapKind::M1)),
        (at(0, 6), -3, 2, Ok(at(0, 0))),
        (at(0, 0), -1, 1, Err(TrapKind::M1)),
        (at(0, 0), i128::MAX, 65536, Err(TrapKind::M1)),
        (Address::Null, 0, 1, Err(TrapKind::M3)),
    ];
    check_offsets(tally, &blocks, &steps);
    let live = blocks.is_live(0);
    tally.row(live);
    if live {
        blocks.end_block(0);
    }
    tally.row(blocks.offset(at(0, 0), 0, 1) == Err(TrapKind::M2));
    Ok(())
}

/// Three cells of a row are copied to the cell after; each is read just before it is written.
fn copies(alloc: Global, tally: &mut Tally) -> Result<(), NoMemory> {
    let structs = Items::new(alloc);
    let (three, five) = (array(alloc, 3, HIDDEN)?, array(alloc, 5, HIDDEN)?);
    let mut blocks = Blocks::new(alloc, &structs, 65536)?;
    check_make(tally, &mut blocks, (&five, 1), Ok(0));
    fill(tally, &mut blocks);
    let sized = blocks.has_size(&three);
    tally.row(sized);
    if sized {
        tally.row(matches!(blocks.leaf(&three, 2), Some(CType::Int { obliv: true, .. })));
        tally.row(blocks.leaf(&three, 3).is_none());
        tally.row(blocks.check_copy(at(0, 3), at(7, 0), &three) == Err(TrapKind::M2));
        tally.row(blocks.check_copy(at(0, 3), at(0, 0), &three) == Err(TrapKind::M1));
        tally.row(blocks.copy_cells(at(0, 1), at(0, 0), &three) == Ok(()));
    }
    tally.row(hidden_at(&blocks, at(0, 3)) == Ok(1));
    tally.row(hidden_at(&blocks, at(0, 4)) == Ok(5));
    let last = blocks.cell(at(0, 1), 3);
    tally.row(last.is_ok_and(|cell| matches!(cell.value, CellValue::Hidden(5))));
    Ok(())
}

/// A wire of any kind as a hidden value, of which each default is a zero.
#[derive(Drop)]
struct Carried<W> {
    wire: W,
}

impl<W: Copy + Default> HiddenCell for Carried<W> {
    ghost is_zero_of = { λ kind value. W.is_default value.wire };

    fn zero(_kind: IntKind) -> Carried<W> {
        Carried { wire: W::default() }
    }

    fn copy(&self) -> Carried<W> {
        Carried { wire: self.wire }
    }
}

/// A pick under an enable is one load, one pick and one put.
fn puts(alloc: Global, tally: &mut Tally) -> Result<(), NoMemory> {
    let (hidden, structs) = (HIDDEN, Items::new(alloc));
    let mut blocks = Blocks::new(alloc, &structs, 1)?;
    let sized = blocks.has_size(&hidden);
    tally.row(sized);
    if sized {
        tally.row(blocks.make_block(&hidden, 1, false) == Ok(0));
    }
    if blocks.load(at(0, 0), &hidden).is_ok() {
        blocks.put(at(0, 0), CellValue::Hidden(Carried { wire: true }));
    }
    match blocks.load(at(0, 0), &hidden) {
        Ok(CellValue::Hidden(found)) => tally.row(found.wire),
        _ => tally.row(false),
    }
    Ok(())
}

/// All rows of blocks.
pub fn compare(alloc: Global, tally: &mut Tally) -> Result<(), NoMemory> {
    cells_and_traps(alloc, tally)?;
    steps_sizes_and_limits(alloc, tally)?;
    copies(alloc, tally)?;
    puts(alloc, tally)
}
