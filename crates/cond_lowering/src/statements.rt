//! Statements. The recursion goes down into parts alone; the statements of a block are a loop.

ghost use Rattle.std.specs.Prelude.{◌≡◌, ◌≤◌, ◌<◌, ◌+◌, [], OnOk, length};
ghost use Rattle.cond_lowering.specs.Pieces.{Adds};
ghost use Rattle.cond_lowering.specs.Statements.{always_of, body_of, coding, for_of, if_of, other_of, part_of, parts_of, round_of, stmt_of, stmts_of, turn_of, when_of, while_of};

use crate::declares::{
    emit_advance, emit_back, emit_declares, emit_express, emit_header, emit_maybe_test, emit_test,
    enter_declared, leave_declared, leave_header,
};
use crate::expressions::emit_expr;
use crate::ways::{Exit, ExitKind, close, emit_way};
use crate::writing::{below, land, land_loop, open_loop, put};
use oc_cells::{CType, Leaf, Row, SlotType};
use oc_code::{Instr, Line};
use oc_source::Spot;
use oc_typed::{TExpr, TForInit, TStmt, TStmtNode};
use oc_values::{Boxed, Items, NoMemory};
use std::alloc::Global;

/// A statement that this many nodes hold, with its ways out.
#[cycle(statements)]
pub fn emit_stmt<'t>(
    alloc: Global,
    table: &Row<Row<Leaf<'t>>>,
    slots: &Items<SlotType>,
    gives: &CType,
    code: &mut Items<Line>,
    exits: &mut Items<Exit>,
    depth: u64,
    s: &TStmt,
) -> Result<(), NoMemory>
    requires { depth ≤ 1000 }
    ensures code { OnOk result (Adds code.old (stmt_of (coding table.now slots.now) gives.now depth exits.old s.now) code.new) }
    ensures exits { OnOk result (exits.new ≡ exits.old) }
{
    let spot = s.spot;
    match &s.node {
        TStmtNode::Declare(ds) => { emit_declares(alloc, table, slots, code, depth, ds.as_slice()) }
        TStmtNode::Express(e) => emit_express(alloc, table, slots, code, depth, spot, e.get()),
        TStmtNode::Block(ss) => emit_block(
            alloc,
            table,
            slots,
            gives,
            code,
            exits,
            depth,
            spot,
            ss.as_slice(),
        ),
        TStmtNode::If { cond, yes, no } => emit_if(
            alloc,
            table,
            slots,
            gives,
            code,
            exits,
            depth,
            cond.get(),
            yes.get(),
            no,
        ),
        TStmtNode::OblivIf { cond, yes, no } => emit_when(
            alloc,
            table,
            slots,
            gives,
            code,
            exits,
            depth,
            spot,
            cond.get(),
            yes.get(),
            no,
        ),
        TStmtNode::Always { slot, body } => emit_always(
            alloc,
            table,
            slots,
            gives,
            code,
            exits,
            depth,
            spot,
            *slot,
            body.get(),
        ),
        TStmtNode::While { cond, body } => emit_while(
            alloc,
            table,
            slots,
            gives,
            code,
            exits,
            depth,
            spot,
            cond.get(),
            body.get(),
        ),
        TStmtNode::For {
            init,
            cond,
            advance,
            body,
        } => emit_for(
            alloc,
            table,
            slots,
            gives,
            code,
            exits,
            depth,
            spot,
            init,
            cond,
            advance,
            body.get(),
        ),
        TStmtNode::Return(e) => emit_back(alloc, table, slots, code, depth, spot, e),
        TStmtNode::Break => emit_way(code, false, exits, gives),
        TStmtNode::Continue => emit_way(code, true, exits, gives),
        TStmtNode::Empty => Ok(()),
    }
}

/// A statement with its step.
#[cycle(statements)]
pub fn emit_turn_of<'t>(
    alloc: Global,
    table: &Row<Row<Leaf<'t>>>,
    slots: &Items<SlotType>,
    gives: &CType,
    code: &mut Items<Line>,
    exits: &mut Items<Exit>,
    depth: u64,
    s: &TStmt,
) -> Result<(), NoMemory>
    requires { depth ≤ 1000 }
    ensures code { OnOk result (Adds code.old (turn_of (coding table.now slots.now) gives.now depth exits.old s.now) code.new) }
    ensures exits { OnOk result (exits.new ≡ exits.old) }
{
    put(code, s.spot, Instr::Step)?;
    emit_stmt(alloc, table, slots, gives, code, exits, below(depth), s)
}

/// A part of a statement.
#[cycle(statements)]
fn emit_part<'t>(
    alloc: Global,
    table: &Row<Row<Leaf<'t>>>,
    slots: &Items<SlotType>,
    gives: &CType,
    code: &mut Items<Line>,
    exits: &mut Items<Exit>,
    depth: u64,
    s: &TStmt,
) -> Result<(), NoMemory>
    requires { depth ≤ 1000 }
    ensures code { OnOk result (Adds code.old (part_of (coding table.now slots.now) gives.now depth exits.old s.now) code.new) }
    ensures exits { OnOk result (exits.new ≡ exits.old) }
{
    emit_turn_of(alloc, table, slots, gives, code, exits, depth, s)?;
    leave_declared(code, s.spot, &s.node)
}

/// The part after an `else`, if there is one.
#[cycle(statements)]
fn emit_other<'t>(
    alloc: Global,
    table: &Row<Row<Leaf<'t>>>,
    slots: &Items<SlotType>,
    gives: &CType,
    code: &mut Items<Line>,
    exits: &mut Items<Exit>,
    depth: u64,
    no: &Option<Boxed<TStmt>>,
) -> Result<(), NoMemory>
    requires { depth ≤ 1000 }
    ensures code { OnOk result (Adds code.old (other_of (coding table.now slots.now) gives.now depth exits.old no.now) code.new) }
    ensures exits { OnOk result (exits.new ≡ exits.old) }
{
    match no {
        Some(s) => emit_part(alloc, table, slots, gives, code, exits, depth, s.get()),
        None => Ok(()),
    }
}

/// An `if`.
#[cycle(statements)]
fn emit_if<'t>(
    alloc: Global,
    table: &Row<Row<Leaf<'t>>>,
    slots: &Items<SlotType>,
    gives: &CType,
    code: &mut Items<Line>,
    exits: &mut Items<Exit>,
    depth: u64,
    cond: &TExpr,
    yes: &TStmt,
    no: &Option<Boxed<TStmt>>,
) -> Result<(), NoMemory>
    requires { depth ≤ 1000 }
    ensures code { OnOk result (Adds code.old (if_of (coding table.now slots.now) gives.now depth exits.old cond.now yes.now no.now) code.new) }
    ensures exits { OnOk result (exits.new ≡ exits.old) }
{
    emit_expr(alloc, table, code, depth, cond)?;
    let test = code.len();
    put(code, cond.spot, Instr::JumpZero(0))?;
    emit_part(alloc, table, slots, gives, code, exits, depth, yes)?;
    let jump = code.len();
    put(code, cond.spot, Instr::Jump(0))?;
    emit_other(alloc, table, slots, gives, code, exits, depth, no)?;
    land(code, cond.spot, test, jump);
    Ok(())
}

/// Both parts of an `obliv if`.
#[cycle(statements)]
fn emit_parts<'t>(
    alloc: Global,
    table: &Row<Row<Leaf<'t>>>,
    slots: &Items<SlotType>,
    gives: &CType,
    code: &mut Items<Line>,
    exits: &mut Items<Exit>,
    depth: u64,
    cond: &TExpr,
    yes: &TStmt,
    no: &Option<Boxed<TStmt>>,
) -> Result<(), NoMemory>
    requires { depth ≤ 1000 }
    ensures code { OnOk result (Adds code.old (parts_of (coding table.now slots.now) gives.now depth exits.old cond.now yes.now no.now) code.new) }
    ensures exits { OnOk result (exits.new ≡ exits.old) }
{
    emit_part(alloc, table, slots, gives, code, exits, depth, yes)?;
    put(code, cond.spot, Instr::Otherwise)?;
    emit_other(alloc, table, slots, gives, code, exits, depth, no)?;
    put(code, cond.spot, Instr::EndWhen)
}

/// An `obliv if`.
#[cycle(statements)]
fn emit_when<'t>(
    alloc: Global,
    table: &Row<Row<Leaf<'t>>>,
    slots: &Items<SlotType>,
    gives: &CType,
    code: &mut Items<Line>,
    exits: &mut Items<Exit>,
    depth: u64,
    spot: Spot,
    cond: &TExpr,
    yes: &TStmt,
    no: &Option<Boxed<TStmt>>,
) -> Result<(), NoMemory>
    requires { depth ≤ 1000 }
    ensures code { OnOk result (Adds code.old (when_of (coding table.now slots.now) gives.now depth exits.old spot cond.now yes.now no.now) code.new) }
    ensures exits { OnOk result (exits.new ≡ exits.old) }
{
    emit_expr(alloc, table, code, depth, cond)?;
    put(code, cond.spot, Instr::When)?;
    exits.push(Exit {
        spot,
        kind: ExitKind::Part,
    })?;
    emit_parts(
        alloc, table, slots, gives, code, exits, depth, cond, yes, no,
    )?;
    exits.pop();
    Ok(())
}

/// A `~obliv` block.
#[cycle(statements)]
fn emit_always<'t>(
    alloc: Global,
    table: &Row<Row<Leaf<'t>>>,
    slots: &Items<SlotType>,
    gives: &CType,
    code: &mut Items<Line>,
    exits: &mut Items<Exit>,
    depth: u64,
    spot: Spot,
    slot: u64,
    body: &TStmt,
) -> Result<(), NoMemory>
    requires { depth ≤ 1000 }
    ensures code { OnOk result (Adds code.old (always_of (coding table.now slots.now) gives.now depth exits.old spot slot body.now) code.new) }
    ensures exits { OnOk result (exits.new ≡ exits.old) }
{
    put(code, spot, Instr::Always(slot))?;
    exits.push(Exit {
        spot,
        kind: ExitKind::Lift,
    })?;
    emit_part(alloc, table, slots, gives, code, exits, depth, body)?;
    exits.pop();
    put(code, spot, Instr::EndAlways)
}

/// The body of a loop whose code begins at `top`.
#[cycle(statements)]
fn emit_body_at<'t>(
    alloc: Global,
    table: &Row<Row<Leaf<'t>>>,
    slots: &Items<SlotType>,
    gives: &CType,
    code: &mut Items<Line>,
    exits: &mut Items<Exit>,
    depth: u64,
    spot: Spot,
    top: usize,
    end: u64,
    next: u64,
    body: &TStmt,
) -> Result<(), NoMemory>
    requires depth { depth ≤ 1000 }
    requires end { end ≡ top + 1 }
    requires next { next ≡ top + 1 + 1 }
    ensures code { OnOk result (Adds code.old (body_of (coding table.now slots.now) gives.now depth exits.old spot top body.now) code.new) }
    ensures exits { OnOk result (exits.new ≡ exits.old) }
{
    exits.push(Exit {
        spot,
        kind: ExitKind::Loop { end, next },
    })?;
    emit_part(alloc, table, slots, gives, code, exits, depth, body)?;
    exits.pop();
    Ok(())
}

/// A `while`.
#[cycle(statements)]
fn emit_while<'t>(
    alloc: Global,
    table: &Row<Row<Leaf<'t>>>,
    slots: &Items<SlotType>,
    gives: &CType,
    code: &mut Items<Line>,
    exits: &mut Items<Exit>,
    depth: u64,
    spot: Spot,
    cond: &TExpr,
    body: &TStmt,
) -> Result<(), NoMemory>
    requires { depth ≤ 1000 }
    ensures code { OnOk result (Adds code.old (while_of (coding table.now slots.now) gives.now depth exits.old spot cond.now body.now) code.new) }
    ensures exits { OnOk result (exits.new ≡ exits.old) }
{
    let top = code.len();
    let step = open_loop(code, spot)?;
    emit_body_at(
        alloc,
        table,
        slots,
        gives,
        code,
        exits,
        depth,
        spot,
        top,
        step - 2,
        step - 1,
        body,
    )?;
    let test = code.len();
    emit_test(alloc, table, slots, code, depth, step - 2, cond)?;
    put(code, spot, Instr::Jump(step))?;
    land_loop(code, spot, top, test, test);
    Ok(())
}

/// The loop of a `for`.
#[cycle(statements)]
fn emit_round<'t>(
    alloc: Global,
    table: &Row<Row<Leaf<'t>>>,
    slots: &Items<SlotType>,
    gives: &CType,
    code: &mut Items<Line>,
    exits: &mut Items<Exit>,
    depth: u64,
    spot: Spot,
    cond: &Option<Boxed<TExpr>>,
    advance: &Option<Boxed<TExpr>>,
    body: &TStmt,
) -> Result<(), NoMemory>
    requires { depth ≤ 1000 }
    ensures code { OnOk result (Adds code.old (round_of (coding table.now slots.now) gives.now depth exits.old spot cond.now advance.now body.now) code.new) }
    ensures exits { OnOk result (exits.new ≡ exits.old) }
{
    let top = code.len();
    let step = open_loop(code, spot)?;
    emit_body_at(
        alloc,
        table,
        slots,
        gives,
        code,
        exits,
        depth,
        spot,
        top,
        step - 2,
        step - 1,
        body,
    )?;
    let after = code.len();
    emit_advance(alloc, table, slots, code, depth, spot, advance)?;
    let test = code.len();
    emit_maybe_test(alloc, table, slots, code, depth, step - 2, cond)?;
    put(code, spot, Instr::Jump(step))?;
    land_loop(code, spot, top, after, test);
    Ok(())
}

/// A `for`.
#[cycle(statements)]
fn emit_for<'t>(
    alloc: Global,
    table: &Row<Row<Leaf<'t>>>,
    slots: &Items<SlotType>,
    gives: &CType,
    code: &mut Items<Line>,
    exits: &mut Items<Exit>,
    depth: u64,
    spot: Spot,
    init: &TForInit,
    cond: &Option<Boxed<TExpr>>,
    advance: &Option<Boxed<TExpr>>,
    body: &TStmt,
) -> Result<(), NoMemory>
    requires { depth ≤ 1000 }
    ensures code { OnOk result (Adds code.old (for_of (coding table.now slots.now) gives.now depth exits.old spot init.now cond.now advance.now body.now) code.new) }
    ensures exits { OnOk result (exits.new ≡ exits.old) }
{
    emit_header(alloc, table, slots, code, depth, spot, init)?;
    emit_round(
        alloc, table, slots, gives, code, exits, depth, spot, cond, advance, body,
    )?;
    leave_header(code, spot, init)
}

/// The statements of a block, which leaves their variables at its end.
#[cycle(statements)]
fn emit_block<'t>(
    alloc: Global,
    table: &Row<Row<Leaf<'t>>>,
    slots: &Items<SlotType>,
    gives: &CType,
    code: &mut Items<Line>,
    exits: &mut Items<Exit>,
    depth: u64,
    spot: Spot,
    ss: &[TStmt],
) -> Result<(), NoMemory>
    requires { depth ≤ 1000 }
    ensures code { OnOk result (Adds code.old (stmts_of (coding table.now slots.now) gives.now depth exits.old spot [] ss.now) code.new) }
    ensures exits { OnOk result (exits.new ≡ exits.old) }
{
    let mark = exits.len();
    for i in 0..ss.len() {
        let s = &ss[i];
        emit_turn_of(alloc, table, slots, gives, code, exits, depth, s)?;
        enter_declared(exits, spot, &s.node)?;
    }
    close(code, exits, mark)
}
