//! Declared variables, and the expressions of statements.

ghost use Rattle.std.specs.Prelude.{◌≡◌, ◌≤◌, ◌++◌, [], OnOk, Some, slice_get};
ghost use Rattle.oc_code.specs.declared.code.Instr.TheVariants.{Init};
ghost use Rattle.oc_code.specs.Lower.{declared, header_slots, leave_code, named};
ghost use Rattle.cond_lowering.specs.Pieces.{Adds, fixed, one};
ghost use Rattle.cond_lowering.specs.Statements.{advance_of, back_of, coding, declare_of, declares_of, express_of, header_of, init_of, start_of, test_of, test_or_of};
ghost use Rattle.cond_lowering.specs.Ways.{entered};

use crate::expressions::emit_expr;
use crate::ways::{Exit, ExitKind};
use crate::writing::put;
use oc_cells::{CType, Leaf, Row, SlotType};
use oc_code::{Instr, Line};
use oc_source::Spot;
use oc_typed::{TDeclared, TExpr, TForInit, TStmtNode};
use oc_values::{Boxed, Items, NoMemory};
use std::alloc::Global;
use type_steps::types::share_type;

/// The variables of a declaration are left, the newest first.
fn leave_all(code: &mut Items<Line>, spot: Spot, ds: &[TDeclared]) -> Result<(), NoMemory>
    ensures { OnOk result (Adds code.old (fixed (leave_code spot (named ds.now []))) code.new) }
{
    let mut at = ds.len();
    'outward: while at > 0 {
        at -= 1;
        let d = &ds[at];
        put(code, spot, Instr::Leave(d.slot))?;
    }
    Ok(())
}

/// The variables that a statement leaves entered are left.
pub fn leave_declared(code: &mut Items<Line>, spot: Spot, node: &TStmtNode) -> Result<(), NoMemory>
    ensures { OnOk result (Adds code.old (fixed (leave_code spot (declared node.now))) code.new) }
{
    match node {
        TStmtNode::Declare(ds) => leave_all(code, spot, ds.as_slice()),
        _ => Ok(()),
    }
}

/// The variables that the header of a `for` leaves entered are left.
pub fn leave_header(code: &mut Items<Line>, spot: Spot, init: &TForInit) -> Result<(), NoMemory>
    ensures { OnOk result (Adds code.old (fixed (leave_code spot (header_slots init.now))) code.new) }
{
    match init {
        TForInit::Declare(ds) => leave_all(code, spot, ds.as_slice()),
        _ => Ok(()),
    }
}

/// The variables of a declaration are on the way out.
fn enter_all(exits: &mut Items<Exit>, spot: Spot, ds: &[TDeclared]) -> Result<(), NoMemory>
    ensures { OnOk result (exits.new ≡ exits.old ++ entered spot (named ds.now [])) }
{
    for i in 0..ds.len() {
        let d = &ds[i];
        exits.push(Exit {
            spot,
            kind: ExitKind::Slot(d.slot),
        })?;
    }
    Ok(())
}

/// The variables that a statement leaves entered are on the way out.
pub fn enter_declared(exits: &mut Items<Exit>, spot: Spot, node: &TStmtNode) -> Result<(), NoMemory>
    ensures { OnOk result (exits.new ≡ exits.old ++ entered spot (declared node.now)) }
{
    match node {
        TStmtNode::Declare(ds) => enter_all(exits, spot, ds.as_slice()),
        _ => Ok(()),
    }
}

/// A write to a new variable of this type.
fn emit_init(code: &mut Items<Line>, spot: Spot, ty: &CType) -> Result<(), NoMemory>
    ensures { OnOk result (Adds code.old (one spot (Init ty.now)) code.new) }
{
    let copy = share_type(ty)?;
    put(code, spot, Instr::Init(copy))
}

/// An initialiser of a variable of this type.
fn emit_value<'t>(
    alloc: Global,
    table: &Row<Row<Leaf<'t>>>,
    slots: &Items<SlotType>,
    code: &mut Items<Line>,
    depth: u64,
    spot: Spot,
    slot: u64,
    ty: &CType,
    e: &TExpr,
) -> Result<(), NoMemory>
    requires { depth ≤ 1000 }
    ensures { OnOk result (Adds code.old (init_of (coding table.now slots.now) depth spot slot ty.now (Some e.now)) code.new) }
{
    put(code, spot, Instr::Var(slot))?;
    emit_expr(alloc, table, code, depth, e)?;
    emit_init(code, e.spot, ty)
}

/// The initialiser of a declared variable of this type, if it has one.
fn emit_maybe<'t>(
    alloc: Global,
    table: &Row<Row<Leaf<'t>>>,
    slots: &Items<SlotType>,
    code: &mut Items<Line>,
    depth: u64,
    d: &TDeclared,
    ty: &CType,
) -> Result<(), NoMemory>
    requires { depth ≤ 1000 }
    ensures { OnOk result (Adds code.old (init_of (coding table.now slots.now) depth d.now.spot d.now.slot ty.now d.now.init) code.new) }
{
    match &d.init {
        Some(e) => emit_value(
            alloc,
            table,
            slots,
            code,
            depth,
            d.spot,
            d.slot,
            ty,
            e.get(),
        ),
        None => Ok(()),
    }
}

/// The initialiser of a declared variable, whose slot is there.
fn emit_start<'t>(
    alloc: Global,
    table: &Row<Row<Leaf<'t>>>,
    slots: &Items<SlotType>,
    code: &mut Items<Line>,
    depth: u64,
    d: &TDeclared,
) -> Result<(), NoMemory>
    requires { depth ≤ 1000 }
    ensures { OnOk result (Adds code.old (start_of (coding table.now slots.now) depth d.now (slice_get slots.now d.now.slot)) code.new) }
{
    match slots.get(d.slot as usize) {
        Some(slot) => emit_maybe(alloc, table, slots, code, depth, d, &slot.ty),
        None => Ok(()),
    }
}

/// A declared variable: its slot is entered, and then its initialiser counts.
fn emit_declare<'t>(
    alloc: Global,
    table: &Row<Row<Leaf<'t>>>,
    slots: &Items<SlotType>,
    code: &mut Items<Line>,
    depth: u64,
    d: &TDeclared,
) -> Result<(), NoMemory>
    requires { depth ≤ 1000 }
    ensures { OnOk result (Adds code.old (declare_of (coding table.now slots.now) depth d.now) code.new) }
{
    put(code, d.spot, Instr::Enter(d.slot))?;
    emit_start(alloc, table, slots, code, depth, d)
}

/// The variables of a declaration, in order.
pub fn emit_declares<'t>(
    alloc: Global,
    table: &Row<Row<Leaf<'t>>>,
    slots: &Items<SlotType>,
    code: &mut Items<Line>,
    depth: u64,
    ds: &[TDeclared],
) -> Result<(), NoMemory>
    requires { depth ≤ 1000 }
    ensures { OnOk result (Adds code.old (declares_of (coding table.now slots.now) depth ds.now) code.new) }
{
    for i in 0..ds.len() {
        emit_declare(alloc, table, slots, code, depth, &ds[i])?;
    }
    Ok(())
}

/// An expression whose value is dropped.
pub fn emit_express<'t>(
    alloc: Global,
    table: &Row<Row<Leaf<'t>>>,
    slots: &Items<SlotType>,
    code: &mut Items<Line>,
    depth: u64,
    spot: Spot,
    e: &TExpr,
) -> Result<(), NoMemory>
    requires { depth ≤ 1000 }
    ensures { OnOk result (Adds code.old (express_of (coding table.now slots.now) depth spot e.now) code.new) }
{
    emit_expr(alloc, table, code, depth, e)?;
    put(code, spot, Instr::Discard)
}

/// What the header of a `for` begins with.
pub fn emit_header<'t>(
    alloc: Global,
    table: &Row<Row<Leaf<'t>>>,
    slots: &Items<SlotType>,
    code: &mut Items<Line>,
    depth: u64,
    spot: Spot,
    init: &TForInit,
) -> Result<(), NoMemory>
    requires { depth ≤ 1000 }
    ensures { OnOk result (Adds code.old (header_of (coding table.now slots.now) depth spot init.now) code.new) }
{
    match init {
        TForInit::Nothing => Ok(()),
        TForInit::Declare(ds) => { emit_declares(alloc, table, slots, code, depth, ds.as_slice()) }
        TForInit::Express(e) => emit_express(alloc, table, slots, code, depth, spot, e.get()),
    }
}

/// The advance of a `for`, if it has one.
pub fn emit_advance<'t>(
    alloc: Global,
    table: &Row<Row<Leaf<'t>>>,
    slots: &Items<SlotType>,
    code: &mut Items<Line>,
    depth: u64,
    spot: Spot,
    advance: &Option<Boxed<TExpr>>,
) -> Result<(), NoMemory>
    requires { depth ≤ 1000 }
    ensures { OnOk result (Adds code.old (advance_of (coding table.now slots.now) depth spot advance.now) code.new) }
{
    match advance {
        Some(e) => emit_express(alloc, table, slots, code, depth, spot, e.get()),
        None => Ok(()),
    }
}

/// A test that goes to a place where it doesn't hold.
pub fn emit_test<'t>(
    alloc: Global,
    table: &Row<Row<Leaf<'t>>>,
    slots: &Items<SlotType>,
    code: &mut Items<Line>,
    depth: u64,
    to: u64,
    e: &TExpr,
) -> Result<(), NoMemory>
    requires { depth ≤ 1000 }
    ensures { OnOk result (Adds code.old (test_of (coding table.now slots.now) depth to e.now) code.new) }
{
    emit_expr(alloc, table, code, depth, e)?;
    put(code, e.spot, Instr::JumpZero(to))
}

/// The test of a `for`, if it has one.
pub fn emit_maybe_test<'t>(
    alloc: Global,
    table: &Row<Row<Leaf<'t>>>,
    slots: &Items<SlotType>,
    code: &mut Items<Line>,
    depth: u64,
    to: u64,
    cond: &Option<Boxed<TExpr>>,
) -> Result<(), NoMemory>
    requires { depth ≤ 1000 }
    ensures { OnOk result (Adds code.old (test_or_of (coding table.now slots.now) depth to cond.now) code.new) }
{
    match cond {
        Some(e) => emit_test(alloc, table, slots, code, depth, to, e.get()),
        None => Ok(()),
    }
}

/// A `return` with a value.
fn emit_back_value<'t>(
    alloc: Global,
    table: &Row<Row<Leaf<'t>>>,
    slots: &Items<SlotType>,
    code: &mut Items<Line>,
    depth: u64,
    spot: Spot,
    e: &TExpr,
) -> Result<(), NoMemory>
    requires { depth ≤ 1000 }
    ensures { OnOk result (Adds code.old (back_of (coding table.now slots.now) depth spot (Some e.now)) code.new) }
{
    emit_expr(alloc, table, code, depth, e)?;
    put(code, spot, Instr::BackValue)
}

/// A `return`.
pub fn emit_back<'t>(
    alloc: Global,
    table: &Row<Row<Leaf<'t>>>,
    slots: &Items<SlotType>,
    code: &mut Items<Line>,
    depth: u64,
    spot: Spot,
    e: &Option<Boxed<TExpr>>,
) -> Result<(), NoMemory>
    requires { depth ≤ 1000 }
    ensures { OnOk result (Adds code.old (back_of (coding table.now slots.now) depth spot e.now) code.new) }
{
    match e {
        Some(e) => emit_back_value(alloc, table, slots, code, depth, spot, e.get()),
        None => put(code, spot, Instr::Back),
    }
}
