//! Structs copied under the enable.

ghost use Rattle.std.specs.Prelude.{◌≡◌, true, IfOk, IsTrue, MatchOption, slice_get};
ghost use Rattle.oc_cells.specs.Layout.{leaves, has_size};
ghost use Rattle.oc_walk.specs.Walking.{ahead as address_ahead, bind, pure};
ghost use Rattle.oc_walk.specs.Cells.{copies_cell, copies_all};
ghost use Rattle.oc_walk.specs.Expressions.{copies};
ghost use Rattle.oc_walk.specs.declared.run.Value.TheVariants.{Pointer};
ghost use Rattle.run_laws.specs.Laws.{IsNear};
ghost use Rattle.clear_actions.specs.Acting.{bare, mem_of, copies_place, struct_copies, Does, Moves};

use crate::cells::{read_cell, start_copy, trap, write_cell};
use crate::machine::{Fault, Machine, Store};
use oc_cells::{Address, CType};
use oc_source::Spot;
use oc_values::NoMemory;
use oc_walk::Value;

/// The cell so many cells further on; an offset stops at 2^32 - 1, which no block reaches.
pub fn ahead(count: u32, at: Address) -> Address
    ensures { result ≡ address_ahead count at }
{
    match at {
        Address::Null => Address::Null,
        Address::At { block, offset } => Address::At {
            block,
            offset: offset.saturating_add(count),
        },
    }
}

/// The same type again; what it leads to is shared.
fn share_leaf(leaf: &CType) -> Result<CType, NoMemory>
    ensures { IfOk result (λ l. l ≡ leaf.now) }
{
    match leaf {
        CType::Int { kind, obliv } => Ok(CType::Int {
            kind: *kind,
            obliv: *obliv,
        }),
        CType::Pointer { frozen, to } => Ok(CType::Pointer {
            frozen: *frozen,
            to: to.share()?,
        }),
        CType::Array { len, of } => Ok(CType::Array {
            len: *len,
            of: of.share()?,
        }),
        CType::Struct(number) => Ok(CType::Struct(*number)),
        CType::Nothing => Ok(CType::Nothing),
    }
}

/// One cell of a copy.
fn copy_cell(
    store: &mut Store<'_>,
    spot: Spot,
    enabled: bool,
    leaf: &CType,
    to: Address,
    from: Address,
) -> Result<(), Fault>
    ensures { Does (bind (copies_cell bare spot enabled leaf.now to from) (λ _. pure tt) (mem_of store.old)) result store.old store.new }
{
    let value = read_cell(store, spot, leaf, from)?;
    write_cell(store, spot, enabled, leaf, to, value)?;
    Ok(())
}

/// The cell of a copy whose leaf has this number among those of the type.
fn copy_place(
    store: &mut Store<'_>,
    spot: Spot,
    enabled: bool,
    ty: &CType,
    place: u32,
    to: Address,
    from: Address,
) -> Result<(), Fault>
    requires { IsTrue (has_size (leaves store.old.blocks.structs ty.now)) }
    ensures { Does (copies_place spot enabled (slice_get (leaves store.old.blocks.structs ty.now) place) to from (mem_of store.old)) result store.old store.new }
{
    match store.blocks.leaf(ty, place) {
        Some(leaf) => {
            let leaf = share_leaf(leaf)?;
            copy_cell(store, spot, enabled, &leaf, to, from)
        }
        None => Ok(()),
    }
}

/// The cells of a type copied in order, each read just before it is written.
fn copy_places(
    store: &mut Store<'_>,
    spot: Spot,
    enabled: bool,
    ty: &CType,
    to: Address,
    from: Address,
) -> Result<(), Fault>
    requires { IsTrue (has_size (leaves store.old.blocks.structs ty.now)) }
    ensures { Does (copies_all bare spot enabled (leaves store.old.blocks.structs ty.now) to from (mem_of store.old)) result store.old store.new }
{
    let mut target = to;
    let mut source = from;
    for place in 0..store.blocks.size_of(ty) {
        copy_place(store, spot, enabled, ty, place, target, source)?;
        target = ahead(1, target);
        source = ahead(1, source);
    }
    Ok(())
}

/// The most that an offset is where so many cells as a type may have still have offsets behind it.
const MOST_OFFSET: u32 = u32::MAX - 65_536;

/// Whether as many cells as a type may have lie behind an address.
fn is_near(at: Address) -> bool
    ensures { result ≡ true → IsNear 65536 at }
{
    match at {
        Address::Null => true,
        Address::At { offset, .. } => offset <= MOST_OFFSET,
    }
}

/// A struct copied under no condition: its cells at once, after all were checked.
fn copy_at_once(
    store: &mut Store<'_>,
    spot: Spot,
    ty: &CType,
    to: Address,
    from: Address,
) -> Result<(), Fault>
    requires sized { IsTrue (has_size (leaves store.old.blocks.structs ty.now)) }
    requires near { IsNear 65536 to × IsNear 65536 from }
    ensures { Does (struct_copies spot true (leaves store.old.blocks.structs ty.now) to (Pointer from) (mem_of store.old)) result store.old store.new }
{
    store.blocks.is_kept();
    match store.blocks.copy_cells(to, from, ty) {
        Ok(()) => Ok(()),
        Err(kind) => Err(trap(kind, spot)),
    }
}

/// Where a struct is copied from at once: it is enabled, and both addresses are near.
fn source_at_once(enabled: bool, to: Address, value: Value<i128>) -> Option<Address>
    ensures { MatchOption result (Unit {0}) (λ from. (enabled ≡ true) × (value ≡ Pointer from) × IsNear 65536 to × IsNear 65536 from) }
{
    match value {
        Value::Pointer(from) => {
            if enabled && is_near(to) && is_near(from) {
                Some(from)
            } else {
                None
            }
        }
        _ => None,
    }
}

/// A struct copied to an address under the enable, after all its cells were checked.
fn copy_fields(
    store: &mut Store<'_>,
    spot: Spot,
    enabled: bool,
    ty: &CType,
    to: Address,
    value: Value<i128>,
) -> Result<(), Fault>
    ensures { Does (struct_copies spot enabled (leaves store.old.blocks.structs ty.now) to value (mem_of store.old)) result store.old store.new }
{
    let from = start_copy(store, spot, ty, to, value)?;
    copy_places(store, spot, enabled, ty, to, from)
}

/// A struct copied to an address under the enable, after all its cells were checked.
pub fn copy_struct(
    machine: &mut Machine<'_>,
    spot: Spot,
    enabled: bool,
    ty: &CType,
    to: Address,
    value: Value<i128>,
) -> Result<(), Fault>
    ensures { Moves (copies bare spot enabled (leaves machine.old.store.blocks.structs ty.now) to value) result machine.old machine.new }
{
    if let Some(from) = source_at_once(enabled, to, value) {
        if machine.store.blocks.has_size(ty) {
            return copy_at_once(&mut machine.store, spot, ty, to, from);
        }
    }
    copy_fields(&mut machine.store, spot, enabled, ty, to, value)
}
