//! Instructions that need no recursion: reads, writes, steps, conversions and updates.

ghost use Rattle.std.specs.Prelude.{◌≡◌, [], false, OnOk};
ghost use Rattle.oc_values.specs.Kinds.{same_kind as same_kind_in};
ghost use Rattle.oc_cells.specs.Types.{is_integer as integer_in, is_pointer as pointer_in, is_struct as struct_in};
ghost use Rattle.oc_code.specs.declared.code.Instr.TheVariants.{Load, Store};
ghost use Rattle.oc_code.specs.Lower.{read_code, step_code, assign_code, convert_code, turn_code, ready_code, renew_code, logic_op as logic_op_of};
ghost use Rattle.oc_typed.specs.Static.{working_kind as working_kind_in};
ghost use Rattle.cond_lowering.specs.Pieces.{Adds, one, fixed};
ghost use Rattle.cond_lowering.specs.Forms.{keeping, renewal, storing, again, under};

use crate::sizes::target_size;
use crate::writing::put;
use oc_cells::{CType, Leaf, Row};
use oc_code::{Instr, Line};
use oc_source::Spot;
use oc_values::{BinaryOp, IntKind, Items, NoMemory, promoted, same_kind};
use type_steps::kinds::{is_minus, is_shift};
use type_steps::types::{is_hidden, is_integer, is_pointer, kind_of, share_type};

/// What a place of this type holds; a struct's address stands for it.
pub fn emit_read(code: &mut Items<Line>, spot: Spot, ty: &CType) -> Result<(), NoMemory>
    ensures { OnOk result (Adds code.old (fixed (read_code (struct_in ty.now) spot ty.now)) code.new) }
{
    match ty {
        CType::Struct(_) => Ok(()),
        _ => {
            let copy = share_type(ty)?;
            put(code, spot, Instr::Load(copy))
        }
    }
}

/// A write to a place of this type, or the copy of a struct.
pub fn emit_write(
    code: &mut Items<Line>,
    spot: Spot,
    from: Spot,
    ty: &CType,
) -> Result<(), NoMemory>
    ensures { OnOk result (Adds code.old (fixed (assign_code spot from ty.now)) code.new) }
{
    match ty {
        CType::Struct(number) => put(code, from, Instr::Copy(*number)),
        _ => {
            let copy = share_type(ty)?;
            put(code, spot, Instr::Store(copy))
        }
    }
}

/// A step of a pointer, which stands under the amount where it is to be swapped.
pub fn emit_step(
    code: &mut Items<Line>,
    swapped: bool,
    spot: Spot,
    size: u32,
    back: bool,
) -> Result<(), NoMemory>
    ensures { OnOk result (Adds code.old (fixed (step_code swapped spot size back)) code.new) }
{
    if swapped {
        put(code, spot, Instr::Swap)?;
    }
    put(code, spot, Instr::Move { size, back })
}

/// A conversion of a value of the one type to the other.
pub fn emit_turn(
    code: &mut Items<Line>,
    spot: Spot,
    from: &CType,
    to: &CType,
) -> Result<(), NoMemory>
    ensures { OnOk result (Adds code.old (fixed (convert_code (integer_in to.now) spot from.now to.now)) code.new) }
{
    if is_integer(to) {
        put(
            code,
            spot,
            Instr::Turn {
                from: kind_of(from),
                to: kind_of(to),
                lift: is_hidden(to) && !is_hidden(from),
            },
        )
    } else {
        Ok(())
    }
}

/// The operator of a hidden `&&` or `||`.
pub fn logic_op(all: bool) -> BinaryOp
    ensures { result ≡ logic_op_of all }
{
    if all { BinaryOp::And } else { BinaryOp::Or }
}

/// The kind at which an update of a place of the first type by a value of the second is computed.
fn working_kind(op: BinaryOp, place: &CType, value: &CType) -> IntKind
    ensures { result ≡ working_kind_in op place.now value.now }
{
    if is_shift(op) {
        promoted(kind_of(place))
    } else {
        kind_of(value)
    }
}

/// A public or hidden value turned to another kind, where it is another.
fn emit_kind(code: &mut Items<Line>, spot: Spot, from: IntKind, to: IntKind) -> Result<(), NoMemory>
    ensures { OnOk result (Adds code.old (fixed (turn_code (same_kind_in from to) spot from to)) code.new) }
{
    if same_kind(from, to) {
        return Ok(());
    }
    put(
        code,
        spot,
        Instr::Turn {
            from,
            to,
            lift: false,
        },
    )
}

/// The value of a cell.
fn emit_load(code: &mut Items<Line>, spot: Spot, ty: &CType) -> Result<(), NoMemory>
    ensures { OnOk result (Adds code.old (one spot (Load ty.now)) code.new) }
{
    let copy = share_type(ty)?;
    put(code, spot, Instr::Load(copy))
}

/// A write to a cell.
fn emit_store(code: &mut Items<Line>, spot: Spot, ty: &CType) -> Result<(), NoMemory>
    ensures { OnOk result (Adds code.old (one spot (Store ty.now)) code.new) }
{
    let copy = share_type(ty)?;
    put(code, spot, Instr::Store(copy))
}

/// The value of a place that is updated, turned to the kind at which the update is computed.
fn emit_ready(
    code: &mut Items<Line>,
    spot: Spot,
    op: BinaryOp,
    place: &CType,
    value: &CType,
) -> Result<(), NoMemory>
    ensures { OnOk result (Adds code.old (fixed (ready_code (pointer_in place.now) spot op place.now value.now)) code.new) }
{
    if is_pointer(place) {
        return Ok(());
    }
    emit_kind(code, spot, kind_of(place), working_kind(op, place, value))
}

/// An operation, and its value turned back to the kind of the place.
fn emit_operation(
    code: &mut Items<Line>,
    spot: Spot,
    op: BinaryOp,
    place: &CType,
    value: &CType,
) -> Result<(), NoMemory>
    ensures { OnOk result (Adds code.old (fixed (renew_code false [] spot op place.now value.now)) code.new) }
{
    let kind = working_kind(op, place, value);
    put(
        code,
        spot,
        Instr::Op {
            op,
            kind,
            hidden: is_hidden(place),
        },
    )?;
    emit_kind(code, spot, kind, kind_of(place))
}

/// The step or the operation of an update, turned back to the kind of the place.
fn emit_renew<'t>(
    table: &Row<Row<Leaf<'t>>>,
    code: &mut Items<Line>,
    spot: Spot,
    op: BinaryOp,
    place: &CType,
    value: &CType,
) -> Result<(), NoMemory>
    ensures { OnOk result (Adds code.old (fixed (renew_code (pointer_in place.now) table.now spot op place.now value.now)) code.new) }
{
    if is_pointer(place) {
        return put(
            code,
            spot,
            Instr::Move {
                size: target_size(table, place),
                back: is_minus(op),
            },
        );
    }
    emit_operation(code, spot, op, place, value)
}

/// A place once more, and then what it holds.
fn emit_again(code: &mut Items<Line>, spot: Spot, from: Spot, place: &CType) -> Result<(), NoMemory>
    ensures { OnOk result (Adds code.old (fixed (again spot from place.now)) code.new) }
{
    put(code, spot, Instr::Dup)?;
    emit_load(code, from, place)
}

/// What an update whose value is the old one does before its operand.
pub fn emit_keeping(
    code: &mut Items<Line>,
    spot: Spot,
    from: Spot,
    op: BinaryOp,
    place: &CType,
    value: &CType,
) -> Result<(), NoMemory>
    ensures { OnOk result (Adds code.old (fixed (keeping spot from op place.now value.now)) code.new) }
{
    emit_again(code, spot, from, place)?;
    put(code, spot, Instr::Swap)?;
    emit_again(code, spot, from, place)?;
    emit_ready(code, spot, op, place, value)
}

/// And after it.
pub fn emit_storing<'t>(
    table: &Row<Row<Leaf<'t>>>,
    code: &mut Items<Line>,
    spot: Spot,
    from: Spot,
    op: BinaryOp,
    place: &CType,
    value: &CType,
) -> Result<(), NoMemory>
    ensures { OnOk result (Adds code.old (fixed (storing table.now spot from op place.now value.now)) code.new) }
{
    emit_renew(table, code, spot, op, place, value)?;
    emit_store(code, from, place)?;
    put(code, spot, Instr::Discard)
}

/// The value of a place under what it is updated with, ready for the operation.
fn emit_under(
    code: &mut Items<Line>,
    spot: Spot,
    from: Spot,
    op: BinaryOp,
    place: &CType,
    value: &CType,
) -> Result<(), NoMemory>
    ensures { OnOk result (Adds code.old (fixed (under spot from op place.now value.now)) code.new) }
{
    put(code, spot, Instr::Swap)?;
    emit_load(code, from, place)?;
    emit_ready(code, spot, op, place, value)?;
    put(code, spot, Instr::Swap)
}

/// What an update whose value is the new one does after its operand.
pub fn emit_renewal<'t>(
    table: &Row<Row<Leaf<'t>>>,
    code: &mut Items<Line>,
    spot: Spot,
    from: Spot,
    op: BinaryOp,
    place: &CType,
    value: &CType,
) -> Result<(), NoMemory>
    ensures { OnOk result (Adds code.old (fixed (renewal table.now spot from op place.now value.now)) code.new) }
{
    emit_under(code, spot, from, op, place, value)?;
    emit_renew(table, code, spot, op, place, value)?;
    emit_store(code, from, place)
}
