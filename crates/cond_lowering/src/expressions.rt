//! Expressions and places. The recursion goes down into parts alone; arguments are a loop.

ghost use Rattle.std.specs.Prelude.{◌≤◌, true, false, OnOk};
ghost use Rattle.cond_lowering.specs.Pieces.{Adds};
ghost use Rattle.cond_lowering.specs.Forms.{code_of, place_of, args_of, unary_of, binary_of, moved_of, same_of, choose_of, assign_of, convert_of, call_of, own_of, held_of, deref_of, index_of, field_of, hidden_logic, public_logic, logic, truth_of, update_of};

use crate::calls::perform;
use crate::sizes::{size_of, target_size};
use crate::steps::{
    emit_keeping, emit_read, emit_renewal, emit_step, emit_storing, emit_turn, emit_write, logic_op,
};
use crate::writing::{below, land, lighter, put};
use oc_cells::{CType, Leaf, Row};
use oc_code::{Instr, Line};
use oc_source::Spot;
use oc_typed::{Builtin, TExpr, TExprNode, TPlace, TPlaceNode};
use oc_values::{BinaryOp, IntKind, Items, NoMemory, OneOp};
use std::alloc::Global;
use type_steps::types::{is_hidden, kind_of};

/// An expression that this many nodes hold.
#[cycle(emit)]
pub fn emit_expr<'t>(
    alloc: Global,
    table: &Row<Row<Leaf<'t>>>,
    code: &mut Items<Line>,
    depth: u64,
    e: &TExpr,
) -> Result<(), NoMemory>
    requires { depth ≤ 1000 }
    ensures { OnOk result (Adds code.old (code_of table.now depth e.now) code.new) }
{
    let within = below(depth);
    let spot = e.spot;
    match &e.node {
        TExprNode::Number(n) => put(
            code,
            spot,
            Instr::Push {
                kind: kind_of(&e.ty),
                value: *n,
            },
        ),
        TExprNode::NullPointer => put(code, spot, Instr::Null),
        TExprNode::Read(place) => emit_held(alloc, table, code, within, place),
        TExprNode::AddressOf(place) => emit_place(alloc, table, code, within, place),
        TExprNode::Decay(place) => emit_place(alloc, table, code, within, place),
        TExprNode::Unary { op, part } => {
            emit_unary(alloc, table, code, within, spot, &e.ty, *op, part.get())
        }
        TExprNode::Binary { op, left, right } => {
            emit_binary(
                alloc,
                table,
                code,
                within,
                spot,
                &e.ty,
                *op,
                left.get(),
                right.get(),
            )
        }
        TExprNode::PointerStep {
            pointer,
            amount,
            back,
            amount_first,
        } => emit_moved(
            alloc,
            table,
            code,
            within,
            spot,
            &e.ty,
            pointer.get(),
            amount.get(),
            *back,
            *amount_first,
        ),
        TExprNode::PointerSame {
            left,
            right,
            negated,
        } => emit_same(
            alloc,
            table,
            code,
            within,
            spot,
            left.get(),
            right.get(),
            *negated,
        ),
        TExprNode::Logic { all, left, right } => {
            emit_logic(
                alloc,
                table,
                code,
                within,
                spot,
                &e.ty,
                *all,
                left.get(),
                right.get(),
            )
        }
        TExprNode::Choose { cond, yes, no } => {
            emit_choose(
                alloc,
                table,
                code,
                within,
                spot,
                cond.get(),
                yes.get(),
                no.get(),
            )
        }
        TExprNode::Assign { place, value } => {
            emit_assign(alloc, table, code, within, place, value.get())
        }
        TExprNode::Update {
            op,
            place,
            value,
            old,
        } => emit_update(
            alloc,
            table,
            code,
            within,
            spot,
            *op,
            place,
            value.get(),
            *old,
        ),
        TExprNode::Convert(part) => {
            emit_convert(alloc, table, code, depth, spot, &e.ty, part.get())
        }
        TExprNode::Call { function, args } => {
            emit_call(alloc, table, code, depth, spot, *function, args.as_slice())
        }
        TExprNode::Builtin { which, args } => {
            emit_own(
                alloc,
                table,
                code,
                within,
                spot,
                &e.ty,
                which,
                args.as_slice(),
            )
        }
    }
}

/// A place that this many nodes hold.
#[cycle(emit)]
fn emit_place<'t>(
    alloc: Global,
    table: &Row<Row<Leaf<'t>>>,
    code: &mut Items<Line>,
    depth: u64,
    place: &TPlace,
) -> Result<(), NoMemory>
    requires { depth ≤ 1000 }
    ensures { OnOk result (Adds code.old (place_of table.now depth place.now) code.new) }
{
    let within = below(depth);
    match &place.node {
        TPlaceNode::Slot(n) => put(code, place.spot, Instr::Var(*n)),
        TPlaceNode::Deref(pointer) => {
            emit_deref(alloc, table, code, within, place.spot, pointer.get())
        }
        TPlaceNode::Index { pointer, amount } => {
            emit_index(
                alloc,
                table,
                code,
                within,
                place.spot,
                &place.ty,
                pointer.get(),
                amount.get(),
            )
        }
        TPlaceNode::Field { base, offset } => {
            emit_field(alloc, table, code, within, place.spot, base.get(), *offset)
        }
    }
}

/// Where a pointer leads.
#[cycle(emit)]
fn emit_deref<'t>(
    alloc: Global,
    table: &Row<Row<Leaf<'t>>>,
    code: &mut Items<Line>,
    depth: u64,
    spot: Spot,
    pointer: &TExpr,
) -> Result<(), NoMemory>
    requires { depth ≤ 1000 }
    ensures { OnOk result (Adds code.old (deref_of table.now depth spot pointer.now) code.new) }
{
    emit_expr(alloc, table, code, depth, pointer)?;
    put(code, spot, Instr::Check)
}

/// An element.
#[cycle(emit)]
fn emit_index<'t>(
    alloc: Global,
    table: &Row<Row<Leaf<'t>>>,
    code: &mut Items<Line>,
    depth: u64,
    spot: Spot,
    ty: &CType,
    pointer: &TExpr,
    amount: &TExpr,
) -> Result<(), NoMemory>
    requires { depth ≤ 1000 }
    ensures { OnOk result (Adds code.old (index_of table.now depth spot ty.now pointer.now amount.now) code.new) }
{
    emit_expr(alloc, table, code, depth, pointer)?;
    emit_expr(alloc, table, code, depth, amount)?;
    let size = size_of(table, ty);
    put(code, spot, Instr::Move { size, back: false })
}

/// A field of a struct's place.
#[cycle(emit)]
fn emit_field<'t>(
    alloc: Global,
    table: &Row<Row<Leaf<'t>>>,
    code: &mut Items<Line>,
    depth: u64,
    spot: Spot,
    base: &TPlace,
    offset: u32,
) -> Result<(), NoMemory>
    requires { depth ≤ 1000 }
    ensures { OnOk result (Adds code.old (field_of table.now depth spot base.now offset) code.new) }
{
    emit_place(alloc, table, code, depth, base)?;
    put(code, spot, Instr::FieldAt(offset))
}

/// What a place holds.
#[cycle(emit)]
fn emit_held<'t>(
    alloc: Global,
    table: &Row<Row<Leaf<'t>>>,
    code: &mut Items<Line>,
    depth: u64,
    place: &TPlace,
) -> Result<(), NoMemory>
    requires { depth ≤ 1000 }
    ensures { OnOk result (Adds code.old (held_of table.now depth place.now) code.new) }
{
    emit_place(alloc, table, code, depth, place)?;
    emit_read(code, place.spot, &place.ty)
}

/// An operator with one operand.
#[cycle(emit)]
fn emit_unary<'t>(
    alloc: Global,
    table: &Row<Row<Leaf<'t>>>,
    code: &mut Items<Line>,
    depth: u64,
    spot: Spot,
    ty: &CType,
    op: OneOp,
    part: &TExpr,
) -> Result<(), NoMemory>
    requires { depth ≤ 1000 }
    ensures { OnOk result (Adds code.old (unary_of table.now depth spot ty.now op part.now) code.new) }
{
    emit_expr(alloc, table, code, depth, part)?;
    put(
        code,
        spot,
        Instr::One {
            op,
            kind: kind_of(&part.ty),
            hidden: is_hidden(ty),
        },
    )
}

/// An operator with two operands.
#[cycle(emit)]
fn emit_binary<'t>(
    alloc: Global,
    table: &Row<Row<Leaf<'t>>>,
    code: &mut Items<Line>,
    depth: u64,
    spot: Spot,
    ty: &CType,
    op: BinaryOp,
    left: &TExpr,
    right: &TExpr,
) -> Result<(), NoMemory>
    requires { depth ≤ 1000 }
    ensures { OnOk result (Adds code.old (binary_of table.now depth spot ty.now op left.now right.now) code.new) }
{
    emit_expr(alloc, table, code, depth, left)?;
    emit_expr(alloc, table, code, depth, right)?;
    put(
        code,
        spot,
        Instr::Op {
            op,
            kind: kind_of(&left.ty),
            hidden: is_hidden(ty),
        },
    )
}

/// A pointer that is moved by an amount, which comes first or not.
#[cycle(emit)]
fn emit_moved<'t>(
    alloc: Global,
    table: &Row<Row<Leaf<'t>>>,
    code: &mut Items<Line>,
    depth: u64,
    spot: Spot,
    ty: &CType,
    pointer: &TExpr,
    amount: &TExpr,
    back: bool,
    amount_first: bool,
) -> Result<(), NoMemory>
    requires { depth ≤ 1000 }
    ensures { OnOk result (Adds code.old (moved_of table.now depth spot ty.now pointer.now amount.now back amount_first) code.new) }
{
    let size = target_size(table, ty);
    if amount_first {
        emit_expr(alloc, table, code, depth, amount)?;
        emit_expr(alloc, table, code, depth, pointer)?;
        return emit_step(code, true, spot, size, back);
    }
    emit_expr(alloc, table, code, depth, pointer)?;
    emit_expr(alloc, table, code, depth, amount)?;
    emit_step(code, false, spot, size, back)
}

/// Whether two pointers are the same, or where `negated` aren't.
#[cycle(emit)]
fn emit_same<'t>(
    alloc: Global,
    table: &Row<Row<Leaf<'t>>>,
    code: &mut Items<Line>,
    depth: u64,
    spot: Spot,
    left: &TExpr,
    right: &TExpr,
    negated: bool,
) -> Result<(), NoMemory>
    requires { depth ≤ 1000 }
    ensures { OnOk result (Adds code.old (same_of table.now depth spot left.now right.now negated) code.new) }
{
    emit_expr(alloc, table, code, depth, left)?;
    emit_expr(alloc, table, code, depth, right)?;
    put(code, spot, Instr::Same { negated })
}

/// `&&` or `||` of hidden operands, which are both evaluated.
#[cycle(emit)]
fn emit_hidden_logic<'t>(
    alloc: Global,
    table: &Row<Row<Leaf<'t>>>,
    code: &mut Items<Line>,
    depth: u64,
    spot: Spot,
    all: bool,
    left: &TExpr,
    right: &TExpr,
) -> Result<(), NoMemory>
    requires { depth ≤ 1000 }
    ensures { OnOk result (Adds code.old (hidden_logic table.now depth spot all left.now right.now) code.new) }
{
    emit_expr(alloc, table, code, depth, left)?;
    emit_expr(alloc, table, code, depth, right)?;
    put(
        code,
        spot,
        Instr::Op {
            op: logic_op(all),
            kind: IntKind::Bool,
            hidden: true,
        },
    )
}

/// An expression as 1 where it holds, and else 0.
#[cycle(emit)]
fn emit_truth<'t>(
    alloc: Global,
    table: &Row<Row<Leaf<'t>>>,
    code: &mut Items<Line>,
    depth: u64,
    spot: Spot,
    e: &TExpr,
) -> Result<(), NoMemory>
    requires { depth ≤ 1000 }
    ensures { OnOk result (Adds code.old (truth_of table.now depth spot e.now) code.new) }
{
    emit_expr(alloc, table, code, depth, e)?;
    put(
        code,
        spot,
        Instr::Turn {
            from: IntKind::Bool,
            to: IntKind::I32,
            lift: false,
        },
    )
}

/// `&&` of public operands: the right one where the left one holds, and else 0.
#[cycle(emit)]
fn emit_all<'t>(
    alloc: Global,
    table: &Row<Row<Leaf<'t>>>,
    code: &mut Items<Line>,
    depth: u64,
    spot: Spot,
    left: &TExpr,
    right: &TExpr,
) -> Result<(), NoMemory>
    requires { depth ≤ 1000 }
    ensures { OnOk result (Adds code.old (public_logic table.now depth spot true left.now right.now) code.new) }
{
    emit_expr(alloc, table, code, depth, left)?;
    let test = code.len();
    put(code, spot, Instr::JumpZero(0))?;
    emit_truth(alloc, table, code, depth, spot, right)?;
    let jump = code.len();
    put(code, spot, Instr::Jump(0))?;
    put(
        code,
        spot,
        Instr::Push {
            kind: IntKind::I32,
            value: 0,
        },
    )?;
    land(code, spot, test, jump);
    Ok(())
}

/// `||` of public operands: 1 where the left one holds, and else the right one.
#[cycle(emit)]
fn emit_any<'t>(
    alloc: Global,
    table: &Row<Row<Leaf<'t>>>,
    code: &mut Items<Line>,
    depth: u64,
    spot: Spot,
    left: &TExpr,
    right: &TExpr,
) -> Result<(), NoMemory>
    requires { depth ≤ 1000 }
    ensures { OnOk result (Adds code.old (public_logic table.now depth spot false left.now right.now) code.new) }
{
    emit_expr(alloc, table, code, depth, left)?;
    let test = code.len();
    put(code, spot, Instr::JumpZero(0))?;
    put(
        code,
        spot,
        Instr::Push {
            kind: IntKind::I32,
            value: 1,
        },
    )?;
    let jump = code.len();
    put(code, spot, Instr::Jump(0))?;
    emit_truth(alloc, table, code, depth, spot, right)?;
    land(code, spot, test, jump);
    Ok(())
}

/// `&&` or `||`.
#[cycle(emit)]
fn emit_logic<'t>(
    alloc: Global,
    table: &Row<Row<Leaf<'t>>>,
    code: &mut Items<Line>,
    depth: u64,
    spot: Spot,
    ty: &CType,
    all: bool,
    left: &TExpr,
    right: &TExpr,
) -> Result<(), NoMemory>
    requires { depth ≤ 1000 }
    ensures { OnOk result (Adds code.old (logic table.now depth spot ty.now all left.now right.now) code.new) }
{
    if is_hidden(ty) {
        return emit_hidden_logic(alloc, table, code, depth, spot, all, left, right);
    }
    if all {
        return emit_all(alloc, table, code, depth, spot, left, right);
    }
    emit_any(alloc, table, code, depth, spot, left, right)
}

/// A choice between two expressions.
#[cycle(emit)]
fn emit_choose<'t>(
    alloc: Global,
    table: &Row<Row<Leaf<'t>>>,
    code: &mut Items<Line>,
    depth: u64,
    spot: Spot,
    cond: &TExpr,
    yes: &TExpr,
    no: &TExpr,
) -> Result<(), NoMemory>
    requires { depth ≤ 1000 }
    ensures { OnOk result (Adds code.old (choose_of table.now depth spot cond.now yes.now no.now) code.new) }
{
    emit_expr(alloc, table, code, depth, cond)?;
    let test = code.len();
    put(code, spot, Instr::JumpZero(0))?;
    emit_expr(alloc, table, code, depth, yes)?;
    let jump = code.len();
    put(code, spot, Instr::Jump(0))?;
    emit_expr(alloc, table, code, depth, no)?;
    land(code, spot, test, jump);
    Ok(())
}

/// An assignment.
#[cycle(emit)]
fn emit_assign<'t>(
    alloc: Global,
    table: &Row<Row<Leaf<'t>>>,
    code: &mut Items<Line>,
    depth: u64,
    place: &TPlace,
    value: &TExpr,
) -> Result<(), NoMemory>
    requires { depth ≤ 1000 }
    ensures { OnOk result (Adds code.old (assign_of table.now depth place.now value.now) code.new) }
{
    emit_place(alloc, table, code, depth, place)?;
    emit_expr(alloc, table, code, depth, value)?;
    emit_write(code, place.spot, value.spot, &place.ty)
}

/// An update whose value is the new one.
#[cycle(emit)]
fn emit_renewed<'t>(
    alloc: Global,
    table: &Row<Row<Leaf<'t>>>,
    code: &mut Items<Line>,
    depth: u64,
    spot: Spot,
    op: BinaryOp,
    place: &TPlace,
    value: &TExpr,
) -> Result<(), NoMemory>
    requires { depth ≤ 1000 }
    ensures { OnOk result (Adds code.old (update_of table.now depth spot op place.now value.now false) code.new) }
{
    emit_place(alloc, table, code, depth, place)?;
    put(code, spot, Instr::Dup)?;
    emit_expr(alloc, table, code, depth, value)?;
    emit_renewal(table, code, spot, place.spot, op, &place.ty, &value.ty)
}

/// An update whose value is the old one.
#[cycle(emit)]
fn emit_kept<'t>(
    alloc: Global,
    table: &Row<Row<Leaf<'t>>>,
    code: &mut Items<Line>,
    depth: u64,
    spot: Spot,
    op: BinaryOp,
    place: &TPlace,
    value: &TExpr,
) -> Result<(), NoMemory>
    requires { depth ≤ 1000 }
    ensures { OnOk result (Adds code.old (update_of table.now depth spot op place.now value.now true) code.new) }
{
    emit_place(alloc, table, code, depth, place)?;
    emit_keeping(code, spot, place.spot, op, &place.ty, &value.ty)?;
    emit_expr(alloc, table, code, depth, value)?;
    emit_storing(table, code, spot, place.spot, op, &place.ty, &value.ty)
}

/// An update.
#[cycle(emit)]
fn emit_update<'t>(
    alloc: Global,
    table: &Row<Row<Leaf<'t>>>,
    code: &mut Items<Line>,
    depth: u64,
    spot: Spot,
    op: BinaryOp,
    place: &TPlace,
    value: &TExpr,
    old: bool,
) -> Result<(), NoMemory>
    requires { depth ≤ 1000 }
    ensures { OnOk result (Adds code.old (update_of table.now depth spot op place.now value.now old) code.new) }
{
    if old {
        return emit_kept(alloc, table, code, depth, spot, op, place, value);
    }
    emit_renewed(alloc, table, code, depth, spot, op, place, value)
}

/// A conversion; one that the checker added counts as no node.
#[cycle(emit)]
fn emit_convert<'t>(
    alloc: Global,
    table: &Row<Row<Leaf<'t>>>,
    code: &mut Items<Line>,
    depth: u64,
    spot: Spot,
    ty: &CType,
    part: &TExpr,
) -> Result<(), NoMemory>
    requires { depth ≤ 1000 }
    ensures { OnOk result (Adds code.old (convert_of table.now depth spot ty.now part.now) code.new) }
{
    emit_expr(alloc, table, code, lighter(spot, part.spot, depth), part)?;
    emit_turn(code, spot, &part.ty, ty)
}

/// Arguments in order.
#[cycle(emit)]
fn emit_args<'t>(
    alloc: Global,
    table: &Row<Row<Leaf<'t>>>,
    code: &mut Items<Line>,
    depth: u64,
    args: &[TExpr],
) -> Result<(), NoMemory>
    requires { depth ≤ 1000 }
    ensures { OnOk result (Adds code.old (args_of table.now depth args.now) code.new) }
{
    for i in 0..args.len() {
        let e = &args[i];
        emit_expr(alloc, table, code, depth, e)?;
    }
    Ok(())
}

/// A call of a function.
#[cycle(emit)]
fn emit_call<'t>(
    alloc: Global,
    table: &Row<Row<Leaf<'t>>>,
    code: &mut Items<Line>,
    depth: u64,
    spot: Spot,
    function: u64,
    args: &[TExpr],
) -> Result<(), NoMemory>
    requires { depth ≤ 1000 }
    ensures { OnOk result (Adds code.old (call_of table.now depth spot function args.now) code.new) }
{
    emit_args(alloc, table, code, below(depth), args)?;
    put(
        code,
        spot,
        Instr::Invoke {
            function,
            args: args.len() as u64,
            reach: depth + 1,
        },
    )
}

/// A call of the language's own.
#[cycle(emit)]
fn emit_own<'t>(
    alloc: Global,
    table: &Row<Row<Leaf<'t>>>,
    code: &mut Items<Line>,
    depth: u64,
    spot: Spot,
    ty: &CType,
    which: &Builtin,
    args: &[TExpr],
) -> Result<(), NoMemory>
    requires { depth ≤ 1000 }
    ensures { OnOk result (Adds code.old (own_of table.now depth spot ty.now which.now args.now) code.new) }
{
    emit_args(alloc, table, code, depth, args)?;
    perform(alloc, code, spot, ty, which, args)
}
