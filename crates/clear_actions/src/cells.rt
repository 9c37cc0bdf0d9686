//! Reads and writes of cells, the checks of copies, allocation.

ghost use Rattle.std.specs.Prelude.{◌≡◌, IfOk, IsTrue};
ghost use Rattle.oc_cells.specs.Layout.{leaves, has_size};
ghost use Rattle.oc_walk.specs.Walking.{makes};
ghost use Rattle.oc_walk.specs.Cells.{valued, reads, fits_leaf, cell_of, puts, picks, writes_hidden, writes, starts_copy, nought, allocates, frees};
ghost use Rattle.oc_meanings.specs.Clear.{selected};
ghost use Rattle.clear_actions.specs.Acting.{bare, mem_of, Gives, Does, DoesWithin};
ghost use Rattle.clear_actions.specs.declared.machine.Fault.TheVariants.{Halted};
ghost use Rattle.clear_actions.specs.declared.machine.Halt.TheVariants.{Trap as Trapped, Odd as Oddly};

use crate::machine::{Fault, Halt, Store};
use crate::places::address;
use block_memory::MakeRefusal;
use oc_cells::{Address, CType, CellValue, TrapKind};
use oc_source::Spot;
use oc_values::{IntKind, is_of_kind, same_kind};
use oc_walk::Value;

/// A trap as a fault.
pub fn trap(kind: TrapKind, spot: Spot) -> Fault
    ensures { result ≡ Halted (Trapped kind spot) }
{
    Fault::Halted(Halt::Trap { kind, spot })
}

/// A value of another form than the node at this spot wants.
pub fn odd(spot: Spot) -> Fault
    ensures { result ≡ Halted (Oddly spot) }
{
    Fault::Halted(Halt::Odd(spot))
}

/// What a cell that is read with this type holds, as a value.
fn value_of(
    store: &Store<'_>,
    spot: Spot,
    ty: &CType,
    value: CellValue<i128>,
) -> Result<Value<i128>, Fault>
    ensures { Gives (valued bare spot ty.now value (mem_of store.now)) result (mem_of store.now) }
{
    match (ty, value) {
        (CType::Int { kind, obliv: false }, CellValue::Int(n)) => Ok(Value::Int(*kind, n)),
        (CType::Int { kind, obliv: true }, CellValue::Hidden(n)) => Ok(Value::Hidden(*kind, n)),
        (CType::Pointer { .. }, CellValue::Pointer(at)) => Ok(Value::Pointer(at)),
        _ => Err(odd(spot)),
    }
}

/// The value of the cell at an address.
pub fn read_cell(
    store: &Store<'_>,
    spot: Spot,
    ty: &CType,
    at: Address,
) -> Result<Value<i128>, Fault>
    ensures { Gives (reads bare spot ty.now at (mem_of store.now)) result (mem_of store.now) }
{
    match store.blocks.load(at, ty) {
        Ok(value) => value_of(store, spot, ty, value),
        Err(kind) => Err(trap(kind, spot)),
    }
}

/// Whether a cell of this type holds the value.
fn fits_leaf(ty: &CType, value: Value<i128>) -> bool
    ensures { result ≡ fits_leaf bare ty.now value }
{
    match (ty, value) {
        (CType::Int { kind, obliv: false }, Value::Int(of, n)) => same_kind(*kind, of)
            && is_of_kind(*kind, n),
        (CType::Int { kind, obliv: true }, Value::Hidden(of, _)) => same_kind(*kind, of),
        (CType::Pointer { .. }, Value::Pointer(_)) => true,
        _ => false,
    }
}

/// A value as a cell holds it.
fn cell_of(value: Value<i128>) -> CellValue<i128>
    ensures { result ≡ cell_of bare value }
{
    match value {
        Value::Int(_, n) => CellValue::Int(n),
        Value::Pointer(at) => CellValue::Pointer(at),
        Value::Hidden(_, n) => CellValue::Hidden(n),
        Value::Nothing => CellValue::Pointer(Address::Null),
    }
}

/// A write that no enable holds back, and the value that is then in the cell.
pub fn put_cell(
    store: &mut Store<'_>,
    spot: Spot,
    ty: &CType,
    at: Address,
    value: Value<i128>,
) -> Result<Value<i128>, Fault>
    ensures { Does (puts bare spot ty.now at value (mem_of store.old)) result store.old store.new }
{
    if !fits_leaf(ty, value) {
        return Err(odd(spot));
    }
    match store.blocks.store(at, ty, cell_of(value)) {
        Ok(()) => Ok(value),
        Err(kind) => Err(trap(kind, spot)),
    }
}

/// What a write to a hidden cell leaves in it: the new value where it is enabled, else the old one.
fn pick(enabled: bool, new: i128, old: i128) -> i128
    ensures { result ≡ selected enabled new old }
{
    if enabled { new } else { old }
}

/// A write under the enable to a hidden cell that holds this.
fn put_picked(
    store: &mut Store<'_>,
    spot: Spot,
    enabled: bool,
    kind: IntKind,
    at: Address,
    new: i128,
    old: CellValue<i128>,
) -> Result<Value<i128>, Fault>
    ensures { Does (picks bare spot enabled kind at new old (mem_of store.old)) result store.old store.new }
{
    let CellValue::Hidden(held) = old else {
        return Err(odd(spot));
    };
    let value = pick(enabled, new, held);
    let leaf = CType::Int { kind, obliv: true };
    match store.blocks.store(at, &leaf, CellValue::Hidden(value)) {
        Ok(()) => Ok(Value::Hidden(kind, value)),
        Err(reason) => Err(trap(reason, spot)),
    }
}

/// A write of a hidden value to a hidden cell, which the enable may hold back, and what is then in the cell.
fn write_hidden(
    store: &mut Store<'_>,
    spot: Spot,
    enabled: bool,
    kind: IntKind,
    at: Address,
    value: Value<i128>,
) -> Result<Value<i128>, Fault>
    ensures { Does (writes_hidden bare spot enabled kind at value (mem_of store.old)) result store.old store.new }
{
    let Value::Hidden(of, new) = value else {
        return Err(odd(spot));
    };
    if !same_kind(kind, of) {
        return Err(odd(spot));
    }
    let leaf = CType::Int { kind, obliv: true };
    match store.blocks.load(at, &leaf) {
        Ok(old) => put_picked(store, spot, enabled, kind, at, new, old),
        Err(reason) => Err(trap(reason, spot)),
    }
}

/// A write, which the enable holds back where the cell is hidden, and what is then in the cell.
pub fn write_cell(
    store: &mut Store<'_>,
    spot: Spot,
    enabled: bool,
    ty: &CType,
    at: Address,
    value: Value<i128>,
) -> Result<Value<i128>, Fault>
    ensures { Does (writes bare spot enabled ty.now at value (mem_of store.old)) result store.old store.new }
{
    match ty {
        CType::Int { kind, obliv: true } => write_hidden(store, spot, enabled, *kind, at, value),
        _ => put_cell(store, spot, ty, at, value),
    }
}

/// The checks of a copy of a struct of this type to an address, and where it copies from.
pub fn start_copy(
    store: &Store<'_>,
    spot: Spot,
    ty: &CType,
    to: Address,
    value: Value<i128>,
) -> Result<Address, Fault>
    ensures sized { IfOk result (λ _. IsTrue (has_size (leaves store.now.blocks.structs ty.now))) }
    ensures gives { Gives (starts_copy bare spot (leaves store.now.blocks.structs ty.now) to value (mem_of store.now)) result (mem_of store.now) }
{
    if !store.blocks.has_size(ty) {
        return Err(odd(spot));
    }
    let from = address(store, spot, value)?;
    match store.blocks.check_copy(to, from, ty) {
        Ok(()) => Ok(from),
        Err(kind) => Err(trap(kind, spot)),
    }
}

/// A new block of zero cells: its number.
pub fn make_cells<'t>(
    store: &mut Store<'t>,
    spot: Spot,
    ty: &'t CType,
    count: i128,
    allocated: bool,
) -> Result<u64, Fault>
    requires { IsTrue (has_size (leaves store.old.blocks.structs ty.now)) }
    ensures { DoesWithin (makes (nought bare) spot allocated (leaves store.old.blocks.structs ty.now) count (mem_of store.old)) result store.old store.new }
{
    match store.blocks.make_block(ty, count, allocated) {
        Ok(block) => Ok(block),
        Err(refusal) => match refusal {
            MakeRefusal::Trap(kind) => Err(trap(kind, spot)),
            MakeRefusal::NoMemory => Err(Fault::NoMemory),
        },
    }
}

/// A new allocated block of so many elements of a type, all zero.
pub fn allocate<'t>(
    store: &mut Store<'t>,
    spot: Spot,
    ty: &'t CType,
    count: Value<i128>,
) -> Result<Value<i128>, Fault>
    ensures { DoesWithin (allocates bare spot store.old.blocks.structs ty.now count (mem_of store.old)) result store.old store.new }
{
    let Value::Int(_, n) = count else {
        return Err(odd(spot));
    };
    if !store.blocks.has_size(ty) {
        return Err(odd(spot));
    }
    let block = make_cells(store, spot, ty, n, true)?;
    Ok(Value::Pointer(Address::At { block, offset: 0 }))
}

/// Ends the allocated block that starts where a pointer leads.
pub fn free(store: &mut Store<'_>, spot: Spot, pointer: Value<i128>) -> Result<Value<i128>, Fault>
    ensures { Does (frees bare spot pointer (mem_of store.old)) result store.old store.new }
{
    let Value::Pointer(at) = pointer else {
        return Err(odd(spot));
    };
    match store.blocks.free_block(at) {
        Ok(()) => Ok(Value::Nothing),
        Err(kind) => Err(trap(kind, spot)),
    }
}
