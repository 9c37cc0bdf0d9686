//! The cells of a type, found without taking memory.

ghost use Rattle.std.specs.Prelude.{◌∷◌, [], length, OnOk};
ghost use Rattle.std.specs.Option.{option_copied};
ghost use Rattle.oc_cells.specs.Layout.{leaves};
ghost use Rattle.block_memory.specs.Content.{Counts, FindsLeaf, IsBlank, Adds};

use crate::hidden::HiddenCell;
use oc_cells::{Address, CType, Cell, CellValue, Leaf, Row};
use std::alloc::AllocError;

/// The leaves of each struct, by its number.
pub type Table<'t> = Row<Row<Leaf<'t>>>;

/// How many cells a type takes, where these are no more than a type may have.
pub fn count_cells(table: &Table<'_>, ty: &CType) -> u32
    ensures { Counts (length (leaves table.now ty.now)) result }
{
    match ty {
        CType::Int { .. } | CType::Pointer { .. } => 1,
        CType::Array { len, of } => len.saturating_mul(count_cells(table, of.get())),
        CType::Struct(number) => match table.get(*number as usize) {
            Some(known) => u32::try_from(known.len()).unwrap_or(u32::MAX),
            None => 0,
        },
        CType::Nothing => 0,
    }
}

/// The leaf of a type with this number, where it has no more cells than a type may have.
pub fn leaf_at<'a>(table: &'a Table<'_>, ty: &'a CType, number: u32) -> Option<&'a CType>
    ensures { FindsLeaf (leaves table.now ty.now) number (option_copied result) }
{
    match ty {
        CType::Int { .. } | CType::Pointer { .. } => { if number == 0 { Some(ty) } else { None } }
        CType::Array { len, of } => {
            let of = of.get();
            let cells = count_cells(table, of);
            if cells == 0 {
                return None;
            }
            if number / cells >= *len {
                return None;
            }
            leaf_at(table, of, number % cells)
        }
        CType::Struct(known) => match table.get(*known as usize) {
            Some(leaves) => leaves.get(number as usize).map(|leaf| leaf.get()),
            None => None,
        },
        CType::Nothing => None,
    }
}

/// What a new cell of this leaf holds.
pub fn blank_value<C: HiddenCell>(leaf: &CType) -> CellValue<C>
    ensures { IsBlank C.is_zero_of leaf.now result }
{
    match leaf {
        CType::Int { kind, obliv: true } => CellValue::Hidden(C::zero(*kind)),
        CType::Int { obliv: false, .. } => CellValue::Int(0),
        _ => CellValue::Pointer(Address::Null),
    }
}

/// Adds a blank cell for each leaf of a type.
pub fn push_blanks<'t, C: HiddenCell + Drop>(
    table: &Table<'t>,
    ty: &'t CType,
    out: &mut Row<Cell<'t, C>>,
) -> Result<(), AllocError>
    ensures { OnOk result (Adds C.is_zero_of (leaves table.now ty.now) out.old out.new) }
{
    match ty {
        CType::Int { .. } | CType::Pointer { .. } => push_blank(ty, out),
        CType::Array { len, of } => {
            let of = of.get();
            for _ in 0..*len {
                push_blanks(table, of, out)?;
            }
            Ok(())
        }
        CType::Struct(number) => match table.get(*number as usize) {
            Some(known) => push_known(known, out),
            None => Ok(()),
        },
        CType::Nothing => Ok(()),
    }
}

fn push_blank<'t, C: HiddenCell + Drop>(
    leaf: &'t CType,
    out: &mut Row<Cell<'t, C>>,
) -> Result<(), AllocError>
    ensures { OnOk result (Adds C.is_zero_of (leaf.now ∷ []) out.old out.new) }
{
    let value = blank_value(leaf);
    out.push(Cell {
        leaf: Leaf::new(leaf),
        value,
    })?;
    Ok(())
}

fn push_known<'t, C: HiddenCell + Drop>(
    known: &Row<Leaf<'t>>,
    out: &mut Row<Cell<'t, C>>,
) -> Result<(), AllocError>
    ensures { OnOk result (Adds C.is_zero_of known.now out.old out.new) }
{
    for leaf in known.as_slice() {
        push_blank(leaf.get(), out)?;
    }
    Ok(())
}
