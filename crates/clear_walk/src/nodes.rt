//! The walk of a typed tree: expressions and places, statements, calls.

ghost use Rattle.std.specs.Prelude.{◌≡◌, ◌<◌, Ok, None, true};
ghost use Rattle.std.specs.Option.{option_copied};
ghost use Rattle.oc_source.specs.declared.spot.Spot.{Spot};
ghost use Rattle.oc_typed.specs.declared.typed.TExpr.{TExpr};
ghost use Rattle.oc_typed.specs.declared.typed.TExprNode.{Read, AddressOf, Unary, Binary, PointerStep, PointerSame, Logic, Choose, Assign, Update, Convert, Call, Builtin as Own};
ghost use Rattle.oc_typed.specs.declared.typed.TPlace.{TPlace};
ghost use Rattle.oc_typed.specs.declared.typed.TPlaceNode.{Deref, Index, Field};
ghost use Rattle.oc_typed.specs.declared.typed.TStmtNode.{Declare, Express, Block, If, OblivIf, Always, While, For, Return};
ghost use Rattle.clear_walk.specs.Runs.{around, RunsExpr, RunsNode, RunsTwo, RunsExprs, RunsPlace, RunsPlaceNode, RunsTest, RunsCondition, RunsHidden, RunsAdvance, RunsDone, RunsStart, RunsDeclared, RunsDeclares, RunsHeader, RunsStmt, RunsAfter, RunsPart, RunsOther, RunsBoth, RunsAlways, RunsList, RunsRound, RunsLoop, RunsHeaded, RunsReturn, RunsFunction, RunsCall};

use crate::around::{At, Frame, called_in, deeper, lent, lighter, under};
use crate::types::{is_hidden, kind_of};
use crate::updates::{begin_update, end_update, update};
use crate::variables::{make_parameters, open};
use crate::writes::{
    Condition, alike, assign, both_or_one, convert_value, decided, fetch, fill, find_element,
    find_source, first_enable, held, initialize, second_enable, step_pointer, take_condition,
    value_back,
};
use clear_actions::cells::{odd, trap};
use clear_actions::copying::ahead;
use clear_actions::operations::{operate_binary, operate_unary, test, turn};
use clear_actions::places::{compare_places, follow};
use clear_actions::variables::{begin_call, close_slots, end_call, find_slot, spend};
use clear_actions::{Fault, Machine, perform};
use clear_glances::{assign_at_once, glance, glance_place, update_at_once};
use oc_cells::{Address, CType, TrapKind};
use oc_source::Spot;
use oc_typed::{
    Builtin, TDeclared, TExpr, TExprNode, TForInit, TPlace, TPlaceNode, TStmt, TStmtNode,
    TypedFunction,
};
use oc_values::{BinaryOp, Boxed, IntKind, Items, OneOp};
use oc_walk::{Flow, Value};

/// How many nodes deep a glance looks before a node is walked.
const GLANCE: u32 = 4;

/// The value of an expression.
#[cycle(run)]
fn run_expr<'t>(
    m: &mut Machine<'t>,
    frame: &Frame<'t>,
    at: At,
    e: &'t TExpr,
) -> Result<Value<i128>, Fault>
    ensures { RunsExpr (around frame.now at) e.now m.old result m.new }
{
    if let Some(n) = glance(m, GLANCE, e) {
        return Ok(Value::Int(kind_of(&e.ty), i128::from(n)));
    }
    match &e.node {
        TExprNode::Number(n) => Ok(Value::Int(kind_of(&e.ty), *n)),
        TExprNode::NullPointer => Ok(Value::Pointer(Address::Null)),
        TExprNode::Read(place) => run_read(m, frame, at, place),
        TExprNode::AddressOf(place) => run_address(m, frame, at, place),
        TExprNode::Decay(place) => run_address(m, frame, at, place),
        TExprNode::Unary { op, part } => run_unary(m, frame, at, e, *op, part.get()),
        TExprNode::Binary { op, left, right } => {
            run_binary(m, frame, at, e, *op, left.get(), right.get())
        }
        TExprNode::PointerStep {
            pointer,
            amount,
            back,
            amount_first,
        } => run_step(
            m,
            frame,
            at,
            e,
            *back,
            *amount_first,
            pointer.get(),
            amount.get(),
        ),
        TExprNode::PointerSame {
            left,
            right,
            negated,
        } => run_same(m, frame, at, e, *negated, left.get(), right.get()),
        TExprNode::Logic { all, left, right } => {
            run_logic(m, frame, at, e, *all, left.get(), right.get())
        }
        TExprNode::Choose { cond, yes, no } => {
            run_choice(m, frame, at, e, cond.get(), yes.get(), no.get())
        }
        TExprNode::Assign { place, value } => run_assign(m, frame, at, place, value.get()),
        TExprNode::Update {
            op,
            place,
            value,
            old,
        } => run_update(m, frame, at, e, *op, place, value.get(), *old),
        TExprNode::Convert(part) => run_convert(m, frame, at, e, part.get()),
        TExprNode::Call { function, args } => {
            run_called(m, frame, at, e, *function, args.as_slice())
        }
        TExprNode::Builtin { which, args } => run_own(m, frame, at, e, which, args.as_slice()),
    }
}

/// What a place holds; of a struct, where it stands.
#[cycle(run)]
fn run_read<'t>(
    m: &mut Machine<'t>,
    frame: &Frame<'t>,
    at: At,
    place: &'t TPlace,
) -> Result<Value<i128>, Fault>
    ensures { (e : TExpr) → RunsNode (around frame.now at) e (Read place.now) m.old result m.new }
{
    let from = run_place(m, frame, deeper(at), place)?;
    fetch(m, place.spot, &place.ty, from)
}

/// Where a place stands, as a pointer.
#[cycle(run)]
fn run_address<'t>(
    m: &mut Machine<'t>,
    frame: &Frame<'t>,
    at: At,
    place: &'t TPlace,
) -> Result<Value<i128>, Fault>
    ensures { (e : TExpr) → RunsNode (around frame.now at) e (AddressOf place.now) m.old result m.new }
{
    let to = run_place(m, frame, deeper(at), place)?;
    Ok(Value::Pointer(to))
}

/// An operator with one operand.
#[cycle(run)]
fn run_unary<'t>(
    m: &mut Machine<'t>,
    frame: &Frame<'t>,
    at: At,
    e: &'t TExpr,
    op: OneOp,
    part: &'t TExpr,
) -> Result<Value<i128>, Fault>
    ensures { RunsNode (around frame.now at) e.now (Unary op part.now) m.old result m.new }
{
    let value = run_expr(m, frame, deeper(at), part)?;
    operate_unary(
        &m.store,
        e.spot,
        op,
        kind_of(&part.ty),
        is_hidden(&e.ty),
        value,
    )
}

/// The values of two expressions, from left to right.
#[cycle(run)]
fn run_two<'t>(
    m: &mut Machine<'t>,
    frame: &Frame<'t>,
    at: At,
    left: &'t TExpr,
    right: &'t TExpr,
) -> Result<(Value<i128>, Value<i128>), Fault>
    ensures { RunsTwo (around frame.now at) left.now right.now m.old result m.new }
{
    let first = run_expr(m, frame, at, left)?;
    let second = run_expr(m, frame, at, right)?;
    Ok((first, second))
}

/// An operator with two operands.
#[cycle(run)]
fn run_binary<'t>(
    m: &mut Machine<'t>,
    frame: &Frame<'t>,
    at: At,
    e: &'t TExpr,
    op: BinaryOp,
    left: &'t TExpr,
    right: &'t TExpr,
) -> Result<Value<i128>, Fault>
    ensures { RunsNode (around frame.now at) e.now (Binary op left.now right.now) m.old result m.new }
{
    let (x, y) = run_two(m, frame, deeper(at), left, right)?;
    operate_binary(
        &m.store,
        e.spot,
        op,
        kind_of(&left.ty),
        is_hidden(&e.ty),
        x,
        y,
    )
}

/// A pointer that is moved by elements.
#[cycle(run)]
fn run_step<'t>(
    m: &mut Machine<'t>,
    frame: &Frame<'t>,
    at: At,
    e: &'t TExpr,
    back: bool,
    amount_first: bool,
    pointer: &'t TExpr,
    amount: &'t TExpr,
) -> Result<Value<i128>, Fault>
    ensures { RunsNode (around frame.now at) e.now (PointerStep pointer.now amount.now back amount_first) m.old result m.new }
{
    if amount_first {
        let (n, from) = run_two(m, frame, deeper(at), amount, pointer)?;
        return step_pointer(m, e.spot, &e.ty, back, from, n);
    }
    let (from, n) = run_two(m, frame, deeper(at), pointer, amount)?;
    step_pointer(m, e.spot, &e.ty, back, from, n)
}

/// Whether two pointers are the same, or where `negated` aren't.
#[cycle(run)]
fn run_same<'t>(
    m: &mut Machine<'t>,
    frame: &Frame<'t>,
    at: At,
    e: &'t TExpr,
    negated: bool,
    left: &'t TExpr,
    right: &'t TExpr,
) -> Result<Value<i128>, Fault>
    ensures { RunsNode (around frame.now at) e.now (PointerSame left.now right.now negated) m.old result m.new }
{
    let (x, y) = run_two(m, frame, deeper(at), left, right)?;
    compare_places(&m.store, e.spot, negated, x, y)
}

/// `&&` or `||`.
#[cycle(run)]
fn run_logic<'t>(
    m: &mut Machine<'t>,
    frame: &Frame<'t>,
    at: At,
    e: &'t TExpr,
    all: bool,
    left: &'t TExpr,
    right: &'t TExpr,
) -> Result<Value<i128>, Fault>
    ensures { RunsNode (around frame.now at) e.now (Logic all left.now right.now) m.old result m.new }
{
    if is_hidden(&e.ty) {
        let (x, y) = run_two(m, frame, deeper(at), left, right)?;
        return operate_binary(
            &m.store,
            e.spot,
            both_or_one(all),
            IntKind::Bool,
            true,
            x,
            y,
        );
    }
    let value = run_expr(m, frame, deeper(at), left)?;
    let holds = test(&m.store, e.spot, value)?;
    if !alike(all, holds) {
        return Ok(decided(holds));
    }
    let other = run_expr(m, frame, deeper(at), right)?;
    turn(&m.store, e.spot, IntKind::Bool, IntKind::I32, false, other)
}

/// A condition, and the one of two expressions that it chooses.
#[cycle(run)]
fn run_choice<'t>(
    m: &mut Machine<'t>,
    frame: &Frame<'t>,
    at: At,
    e: &'t TExpr,
    cond: &'t TExpr,
    yes: &'t TExpr,
    no: &'t TExpr,
) -> Result<Value<i128>, Fault>
    ensures { RunsNode (around frame.now at) e.now (Choose cond.now yes.now no.now) m.old result m.new }
{
    let value = run_expr(m, frame, deeper(at), cond)?;
    if test(&m.store, e.spot, value)? {
        return run_expr(m, frame, deeper(at), yes);
    }
    run_expr(m, frame, deeper(at), no)
}

/// An assignment.
#[cycle(run)]
fn run_assign<'t>(
    m: &mut Machine<'t>,
    frame: &Frame<'t>,
    at: At,
    place: &'t TPlace,
    value: &'t TExpr,
) -> Result<Value<i128>, Fault>
    ensures { (e : TExpr) → RunsNode (around frame.now at) e (Assign place.now value.now) m.old result m.new }
{
    if let Some(n) = assign_at_once(m, GLANCE, place, value) {
        return Ok(Value::Int(kind_of(&place.ty), i128::from(n)));
    }
    run_assigned(m, frame, at, place, value)
}

/// The same, by the walk of its parts.
#[cycle(run)]
fn run_assigned<'t>(
    m: &mut Machine<'t>,
    frame: &Frame<'t>,
    at: At,
    place: &'t TPlace,
    value: &'t TExpr,
) -> Result<Value<i128>, Fault>
    ensures { (e : TExpr) → RunsNode (around frame.now at) e (Assign place.now value.now) m.old result m.new }
{
    let to = run_place(m, frame, deeper(at), place)?;
    let new = run_expr(m, frame, deeper(at), value)?;
    assign(m, at.enabled, place.spot, value.spot, &place.ty, to, new)
}

/// A compound assignment, `++` or `--`.
#[cycle(run)]
fn run_update<'t>(
    m: &mut Machine<'t>,
    frame: &Frame<'t>,
    at: At,
    e: &'t TExpr,
    op: BinaryOp,
    place: &'t TPlace,
    value: &'t TExpr,
    old: bool,
) -> Result<Value<i128>, Fault>
    ensures { RunsNode (around frame.now at) e.now (Update op place.now value.now old) m.old result m.new }
{
    if let Some(n) = update_at_once(m, GLANCE, op, place, value, old) {
        return Ok(Value::Int(kind_of(&place.ty), i128::from(n)));
    }
    run_updated(m, frame, at, e, op, place, value, old)
}

/// The same, by the walk of its parts.
#[cycle(run)]
fn run_updated<'t>(
    m: &mut Machine<'t>,
    frame: &Frame<'t>,
    at: At,
    e: &'t TExpr,
    op: BinaryOp,
    place: &'t TPlace,
    value: &'t TExpr,
    old: bool,
) -> Result<Value<i128>, Fault>
    ensures { RunsNode (around frame.now at) e.now (Update op place.now value.now old) m.old result m.new }
{
    if old {
        return run_postfix(m, frame, at, e, op, place, value);
    }
    let to = run_place(m, frame, deeper(at), place)?;
    let operand = run_expr(m, frame, deeper(at), value)?;
    update(m, at.enabled, e.spot, op, place, &value.ty, to, operand)
}

/// An update whose value is what was there before.
#[cycle(run)]
fn run_postfix<'t>(
    m: &mut Machine<'t>,
    frame: &Frame<'t>,
    at: At,
    e: &'t TExpr,
    op: BinaryOp,
    place: &'t TPlace,
    value: &'t TExpr,
) -> Result<Value<i128>, Fault>
    ensures { RunsNode (around frame.now at) e.now (Update op place.now value.now true) m.old result m.new }
{
    let to = run_place(m, frame, deeper(at), place)?;
    let (old, from) = begin_update(m, e.spot, op, place, &value.ty, to)?;
    let operand = run_expr(m, frame, deeper(at), value)?;
    end_update(
        m, at.enabled, e.spot, op, place, &value.ty, to, old, from, operand,
    )
}

/// A conversion.
#[cycle(run)]
fn run_convert<'t>(
    m: &mut Machine<'t>,
    frame: &Frame<'t>,
    at: At,
    e: &'t TExpr,
    part: &'t TExpr,
) -> Result<Value<i128>, Fault>
    ensures { RunsNode (around frame.now at) e.now (Convert part.now) m.old result m.new }
{
    let value = run_expr(m, frame, lighter(at, e.spot, part.spot), part)?;
    convert_value(m, e.spot, &part.ty, &e.ty, value)
}

/// A call of a function, after its arguments.
#[cycle(run)]
fn run_called<'t>(
    m: &mut Machine<'t>,
    frame: &Frame<'t>,
    at: At,
    e: &'t TExpr,
    function: u64,
    args: &'t [TExpr],
) -> Result<Value<i128>, Fault>
    ensures { RunsNode (around frame.now at) e.now (Call function args.now) m.old result m.new }
{
    let values = run_exprs(m, frame, deeper(at), args)?;
    run_call(m, frame, at, e.spot, function, values.as_slice())
}

/// A call of the language's own, after its arguments.
#[cycle(run)]
fn run_own<'t>(
    m: &mut Machine<'t>,
    frame: &Frame<'t>,
    at: At,
    e: &'t TExpr,
    which: &'t Builtin,
    args: &'t [TExpr],
) -> Result<Value<i128>, Fault>
    ensures { RunsNode (around frame.now at) e.now (Own which.now args.now) m.old result m.new }
{
    let values = run_exprs(m, frame, deeper(at), args)?;
    perform(
        m,
        frame.alloc,
        frame.setup,
        e.spot,
        &e.ty,
        find_source(args),
        which,
        values.as_slice(),
    )
}

/// The values of some expressions, in order.
#[cycle(run)]
fn run_exprs<'t>(
    m: &mut Machine<'t>,
    frame: &Frame<'t>,
    at: At,
    es: &'t [TExpr],
) -> Result<Items<Value<i128>>, Fault>
    ensures { RunsExprs (around frame.now at) es.now m.old result m.new }
{
    let mut values = Items::new(frame.alloc);
    for e in es {
        let value = run_expr(m, frame, at, e)?;
        values.push(value)?;
    }
    Ok(values)
}

/// Where a place stands.
#[cycle(run)]
fn run_place<'t>(
    m: &mut Machine<'t>,
    frame: &Frame<'t>,
    at: At,
    place: &'t TPlace,
) -> Result<Address, Fault>
    ensures { RunsPlace (around frame.now at) place.now m.old result m.new }
{
    if let Some(to) = glance_place(m, GLANCE, place) {
        return Ok(to);
    }
    match &place.node {
        TPlaceNode::Slot(n) => find_slot(m, place.spot, *n),
        TPlaceNode::Deref(pointer) => run_deref(m, frame, at, place, pointer.get()),
        TPlaceNode::Index { pointer, amount } => {
            run_index(m, frame, at, place, pointer.get(), amount.get())
        }
        TPlaceNode::Field { base, offset } => run_field(m, frame, at, base.get(), *offset),
    }
}

/// Where a pointer leads.
#[cycle(run)]
fn run_deref<'t>(
    m: &mut Machine<'t>,
    frame: &Frame<'t>,
    at: At,
    place: &'t TPlace,
    pointer: &'t TExpr,
) -> Result<Address, Fault>
    ensures { RunsPlaceNode (around frame.now at) place.now (Deref pointer.now) m.old result m.new }
{
    let value = run_expr(m, frame, deeper(at), pointer)?;
    follow(&m.store, place.spot, value)
}

/// Where an element stands, counted from a pointer.
#[cycle(run)]
fn run_index<'t>(
    m: &mut Machine<'t>,
    frame: &Frame<'t>,
    at: At,
    place: &'t TPlace,
    pointer: &'t TExpr,
    amount: &'t TExpr,
) -> Result<Address, Fault>
    ensures { RunsPlaceNode (around frame.now at) place.now (Index pointer.now amount.now) m.old result m.new }
{
    let (from, n) = run_two(m, frame, deeper(at), pointer, amount)?;
    find_element(m, place.spot, &place.ty, from, n)
}

/// Where a field stands.
#[cycle(run)]
fn run_field<'t>(
    m: &mut Machine<'t>,
    frame: &Frame<'t>,
    at: At,
    base: &'t TPlace,
    offset: u32,
) -> Result<Address, Fault>
    ensures { (q : TPlace) → RunsPlaceNode (around frame.now at) q (Field base.now offset) m.old result m.new }
{
    let from = run_place(m, frame, deeper(at), base)?;
    Ok(ahead(offset, from))
}

/// A public condition.
#[cycle(run)]
fn run_test<'t>(
    m: &mut Machine<'t>,
    frame: &Frame<'t>,
    at: At,
    cond: &'t TExpr,
) -> Result<bool, Fault>
    ensures { RunsTest (around frame.now at) cond.now m.old result m.new }
{
    let value = run_expr(m, frame, at, cond)?;
    test(&m.store, cond.spot, value)
}

/// A hidden condition.
#[cycle(run)]
fn run_hidden<'t>(
    m: &mut Machine<'t>,
    frame: &Frame<'t>,
    at: At,
    cond: &'t TExpr,
) -> Result<Condition, Fault>
    ensures { RunsHidden (around frame.now at) cond.now m.old result m.new }
{
    let value = run_expr(m, frame, at, cond)?;
    take_condition(m, cond.spot, value)
}

/// A statement with its step.
#[cycle(run)]
fn run_stmt<'t>(
    m: &mut Machine<'t>,
    frame: &Frame<'t>,
    at: At,
    s: &'t TStmt,
) -> Result<Flow<i128>, Fault>
    ensures { RunsStmt (around frame.now at) s.now m.old result m.new }
{
    spend(m)?;
    run_after(m, frame, deeper(at), s)
}

/// A statement after its step.
#[cycle(run)]
fn run_after<'t>(
    m: &mut Machine<'t>,
    frame: &Frame<'t>,
    at: At,
    s: &'t TStmt,
) -> Result<Flow<i128>, Fault>
    ensures { RunsAfter (around frame.now at) s.now.spot s.now.node m.old result m.new }
{
    match &s.node {
        TStmtNode::Declare(all) => run_declaration(m, frame, at, all.as_slice()),
        TStmtNode::Express(e) => run_express(m, frame, at, e.get()),
        TStmtNode::Block(ss) => run_block(m, frame, at, ss.as_slice()),
        TStmtNode::If { cond, yes, no } => run_if(m, frame, at, cond.get(), yes.get(), no),
        TStmtNode::OblivIf { cond, yes, no } => run_obliv_if(
            m,
            frame,
            at,
            cond.get(),
            yes.get(),
            no,
        ),
        TStmtNode::Always { slot, body } => run_always(m, frame, at, s.spot, *slot, body.get()),
        TStmtNode::While { cond, body } => run_loop(
            m,
            frame,
            at,
            Some(cond.get()),
            None,
            body.get(),
        ),
        TStmtNode::For {
            init,
            cond,
            advance,
            body,
        } => run_for(m, frame, at, init, lent(cond), lent(advance), body.get()),
        TStmtNode::Return(e) => run_return(m, frame, at, lent(e)),
        TStmtNode::Break => Ok(Flow::Break),
        TStmtNode::Continue => Ok(Flow::Continue),
        TStmtNode::Empty => Ok(Flow::Next),
    }
}

/// A declaration.
#[cycle(run)]
fn run_declaration<'t>(
    m: &mut Machine<'t>,
    frame: &Frame<'t>,
    at: At,
    all: &'t [TDeclared],
) -> Result<Flow<i128>, Fault>
    ensures { (p : Spot) → RunsAfter (around frame.now at) p (Declare all.now) m.old result m.new }
{
    run_declares(m, frame, at, all)?;
    Ok(Flow::Next)
}

/// The variables of one declaration, in order.
#[cycle(run)]
fn run_declares<'t>(
    m: &mut Machine<'t>,
    frame: &Frame<'t>,
    at: At,
    all: &'t [TDeclared],
) -> Result<(), Fault>
    ensures { RunsDeclares (around frame.now at) all.now m.old result m.new }
{
    for declared in all {
        run_declared(m, frame, at, declared)?;
    }
    Ok(())
}

/// A variable and its initialiser, in which its name is visible already.
#[cycle(run)]
fn run_declared<'t>(
    m: &mut Machine<'t>,
    frame: &Frame<'t>,
    at: At,
    declared: &'t TDeclared,
) -> Result<(), Fault>
    ensures { RunsDeclared (around frame.now at) declared.now m.old result m.new }
{
    let variable = open(m, frame, at, declared.spot, declared.slot)?;
    run_start(
        m,
        frame,
        at,
        variable.ty,
        variable.block,
        lent(&declared.init),
    )
}

/// The initialiser of a variable's block, if it has one.
#[cycle(run)]
fn run_start<'t>(
    m: &mut Machine<'t>,
    frame: &Frame<'t>,
    at: At,
    ty: &'t CType,
    block: u64,
    init: Option<&'t TExpr>,
) -> Result<(), Fault>
    ensures { RunsStart (around frame.now at) ty.now block (option_copied init.entry) m.old result m.new }
{
    match init {
        None => Ok(()),
        Some(e) => {
            let value = run_expr(m, frame, at, e)?;
            initialize(m, e.spot, ty, block, value)
        }
    }
}

/// An expression as a statement.
#[cycle(run)]
fn run_express<'t>(
    m: &mut Machine<'t>,
    frame: &Frame<'t>,
    at: At,
    e: &'t TExpr,
) -> Result<Flow<i128>, Fault>
    ensures { (p : Spot) → RunsAfter (around frame.now at) p (Express e.now) m.old result m.new }
{
    run_expr(m, frame, at, e)?;
    Ok(Flow::Next)
}

/// A block, which is a scope.
#[cycle(run)]
fn run_block<'t>(
    m: &mut Machine<'t>,
    frame: &Frame<'t>,
    at: At,
    ss: &'t [TStmt],
) -> Result<Flow<i128>, Fault>
    ensures { (p : Spot) → RunsAfter (around frame.now at) p (Block ss.now) m.old result m.new }
{
    let before = m.entered.len() as u64;
    let flow = run_list(m, frame, at, ss)?;
    close_slots(m, before);
    Ok(flow)
}

/// Statements in order.
#[cycle(run)]
fn run_list<'t>(
    m: &mut Machine<'t>,
    frame: &Frame<'t>,
    at: At,
    ss: &'t [TStmt],
) -> Result<Flow<i128>, Fault>
    ensures { RunsList (around frame.now at) ss.now m.old result m.new }
{
    for s in ss {
        match run_stmt(m, frame, at, s)? {
            Flow::Next => {}
            Flow::Break => return Ok(Flow::Break),
            Flow::Continue => return Ok(Flow::Continue),
            Flow::Back(value) => return Ok(Flow::Back(value)),
        }
    }
    Ok(Flow::Next)
}

/// A statement as a part of another one, which is a scope.
#[cycle(run)]
fn run_part<'t>(
    m: &mut Machine<'t>,
    frame: &Frame<'t>,
    at: At,
    s: &'t TStmt,
) -> Result<Flow<i128>, Fault>
    ensures { RunsPart (around frame.now at) s.now m.old result m.new }
{
    let before = m.entered.len() as u64;
    let flow = run_stmt(m, frame, at, s)?;
    close_slots(m, before);
    Ok(flow)
}

/// The part after an `else`, if there is one.
#[cycle(run)]
fn run_other<'t>(
    m: &mut Machine<'t>,
    frame: &Frame<'t>,
    at: At,
    other: &'t Option<Boxed<TStmt>>,
) -> Result<Flow<i128>, Fault>
    ensures { RunsOther (around frame.now at) other.now m.old result m.new }
{
    match other {
        Some(s) => run_part(m, frame, at, s.get()),
        None => Ok(Flow::Next),
    }
}

/// An `if` with a public condition.
#[cycle(run)]
fn run_if<'t>(
    m: &mut Machine<'t>,
    frame: &Frame<'t>,
    at: At,
    cond: &'t TExpr,
    yes: &'t TStmt,
    no: &'t Option<Boxed<TStmt>>,
) -> Result<Flow<i128>, Fault>
    ensures { (p : Spot) → RunsAfter (around frame.now at) p (If cond.now yes.now no.now) m.old result m.new }
{
    if run_test(m, frame, at, cond)? {
        return run_part(m, frame, at, yes);
    }
    run_other(m, frame, at, no)
}

/// An `obliv if`, both of whose parts run.
#[cycle(run)]
fn run_obliv_if<'t>(
    m: &mut Machine<'t>,
    frame: &Frame<'t>,
    at: At,
    cond: &'t TExpr,
    yes: &'t TStmt,
    no: &'t Option<Boxed<TStmt>>,
) -> Result<Flow<i128>, Fault>
    ensures { (p : Spot) → RunsAfter (around frame.now at) p (OblivIf cond.now yes.now no.now) m.old result m.new }
{
    let condition = run_hidden(m, frame, at, cond)?;
    run_both(m, frame, at, condition, yes, no)
}

/// Both parts of an `obliv if` with this condition, each under its enable.
#[cycle(run)]
fn run_both<'t>(
    m: &mut Machine<'t>,
    frame: &Frame<'t>,
    at: At,
    condition: Condition,
    yes: &'t TStmt,
    no: &'t Option<Boxed<TStmt>>,
) -> Result<Flow<i128>, Fault>
    ensures { RunsBoth (around frame.now at) condition.value yes.now no.now m.old result m.new }
{
    match run_part(
        m,
        frame,
        under(at, first_enable(at.enabled, condition)),
        yes,
    )? {
        Flow::Next => run_other(
            m,
            frame,
            under(at, second_enable(at.enabled, condition)),
            no,
        ),
        Flow::Break => Ok(Flow::Break),
        Flow::Continue => Ok(Flow::Continue),
        Flow::Back(value) => Ok(Flow::Back(value)),
    }
}

/// A `~obliv`, which is a scope.
#[cycle(run)]
fn run_always<'t>(
    m: &mut Machine<'t>,
    frame: &Frame<'t>,
    at: At,
    spot: Spot,
    slot: u64,
    body: &'t TStmt,
) -> Result<Flow<i128>, Fault>
    ensures { RunsAfter (around frame.now at) spot (Always slot body.now) m.old result m.new }
{
    let before = m.entered.len() as u64;
    let flow = run_enabled(m, frame, at, spot, slot, body)?;
    close_slots(m, before);
    Ok(flow)
}

/// The body of a `~obliv`, whose variable holds the outer enable.
#[cycle(run)]
fn run_enabled<'t>(
    m: &mut Machine<'t>,
    frame: &Frame<'t>,
    at: At,
    spot: Spot,
    slot: u64,
    body: &'t TStmt,
) -> Result<Flow<i128>, Fault>
    ensures { RunsAlways (around frame.now at) spot slot body.now m.old result m.new }
{
    let variable = open(m, frame, at, spot, slot)?;
    fill(m, spot, variable.ty, variable.block, held(at.enabled))?;
    run_part(m, frame, under(at, true), body)
}

/// A `for`, which is a scope.
#[cycle(run)]
fn run_for<'t>(
    m: &mut Machine<'t>,
    frame: &Frame<'t>,
    at: At,
    init: &'t TForInit,
    cond: Option<&'t TExpr>,
    advance: Option<&'t TExpr>,
    body: &'t TStmt,
) -> Result<Flow<i128>, Fault>
    ensures { (p : Spot) → RunsAfter (around frame.now at) p (For init.now (option_copied cond.entry) (option_copied advance.entry) body.now) m.old result m.new }
{
    let before = m.entered.len() as u64;
    let flow = run_headed(m, frame, at, init, cond, advance, body)?;
    close_slots(m, before);
    Ok(flow)
}

/// A `for` without its scope.
#[cycle(run)]
fn run_headed<'t>(
    m: &mut Machine<'t>,
    frame: &Frame<'t>,
    at: At,
    init: &'t TForInit,
    cond: Option<&'t TExpr>,
    advance: Option<&'t TExpr>,
    body: &'t TStmt,
) -> Result<Flow<i128>, Fault>
    ensures { RunsHeaded (around frame.now at) init.now (option_copied cond.entry) (option_copied advance.entry) body.now m.old result m.new }
{
    run_header(m, frame, at, init)?;
    run_loop(m, frame, at, cond, advance, body)
}

/// What the header of a `for` begins with.
#[cycle(run)]
fn run_header<'t>(
    m: &mut Machine<'t>,
    frame: &Frame<'t>,
    at: At,
    init: &'t TForInit,
) -> Result<(), Fault>
    ensures { RunsHeader (around frame.now at) init.now m.old result m.new }
{
    match init {
        TForInit::Nothing => Ok(()),
        TForInit::Declare(all) => run_declares(m, frame, at, all.as_slice()),
        TForInit::Express(e) => run_advance(m, frame, at, Some(e.get())),
    }
}

/// The rounds of a loop. One whose condition is left out goes on.
#[cycle(run)]
fn run_loop<'t>(
    m: &mut Machine<'t>,
    frame: &Frame<'t>,
    at: At,
    cond: Option<&'t TExpr>,
    advance: Option<&'t TExpr>,
    body: &'t TStmt,
) -> Result<Flow<i128>, Fault>
    ensures { RunsLoop (around frame.now at) (option_copied cond.entry) (option_copied advance.entry) body.now m.old result m.new }
{
    loop {
        if let Some(flow) = run_round(m, frame, at, cond, advance, body)? {
            return Ok(flow);
        }
    }
}

/// One round of a loop, which may end it.
#[cycle(run)]
fn run_round<'t>(
    m: &mut Machine<'t>,
    frame: &Frame<'t>,
    at: At,
    cond: Option<&'t TExpr>,
    advance: Option<&'t TExpr>,
    body: &'t TStmt,
) -> Result<Option<Flow<i128>>, Fault>
    ensures does { RunsRound (around frame.now at) (option_copied cond.entry) (option_copied advance.entry) body.now m.old result m.new }
    ensures spends { result ≡ Ok None → m.new.steps < m.old.steps }
{
    if !run_condition(m, frame, at, cond)? {
        return Ok(Some(Flow::Next));
    }
    spend(m)?;
    let flow = run_part(m, frame, at, body)?;
    run_done(m, frame, at, advance, flow)
}

/// The condition of a loop, which holds where it is left out.
#[cycle(run)]
fn run_condition<'t>(
    m: &mut Machine<'t>,
    frame: &Frame<'t>,
    at: At,
    cond: Option<&'t TExpr>,
) -> Result<bool, Fault>
    ensures { RunsCondition (around frame.now at) (option_copied cond.entry) m.old result m.new }
{
    match cond {
        Some(e) => run_test(m, frame, at, e),
        None => Ok(true),
    }
}

/// What follows a loop's body that ended so: its advance, or the end of the loop.
#[cycle(run)]
fn run_done<'t>(
    m: &mut Machine<'t>,
    frame: &Frame<'t>,
    at: At,
    advance: Option<&'t TExpr>,
    flow: Flow<i128>,
) -> Result<Option<Flow<i128>>, Fault>
    ensures { RunsDone (around frame.now at) (option_copied advance.entry) flow m.old result m.new }
{
    match flow {
        Flow::Next => {
            run_advance(m, frame, at, advance)?;
            Ok(None)
        }
        Flow::Continue => {
            run_advance(m, frame, at, advance)?;
            Ok(None)
        }
        Flow::Break => Ok(Some(Flow::Next)),
        Flow::Back(value) => Ok(Some(Flow::Back(value))),
    }
}

/// The advance of a `for`, if it has one.
#[cycle(run)]
fn run_advance<'t>(
    m: &mut Machine<'t>,
    frame: &Frame<'t>,
    at: At,
    advance: Option<&'t TExpr>,
) -> Result<(), Fault>
    ensures { RunsAdvance (around frame.now at) (option_copied advance.entry) m.old result m.new }
{
    match advance {
        Some(e) => {
            run_expr(m, frame, at, e)?;
            Ok(())
        }
        None => Ok(()),
    }
}

/// A `return`.
#[cycle(run)]
fn run_return<'t>(
    m: &mut Machine<'t>,
    frame: &Frame<'t>,
    at: At,
    e: Option<&'t TExpr>,
) -> Result<Flow<i128>, Fault>
    ensures { RunsReturn (around frame.now at) (option_copied e.entry) m.old result m.new }
{
    match e {
        Some(e) => {
            let value = run_expr(m, frame, at, e)?;
            Ok(Flow::Back(value))
        }
        None => Ok(Flow::Back(Value::Nothing)),
    }
}

/// A call of the function of a number with these arguments, which is a trap where no room is left.
#[cycle(run)]
fn run_call<'t>(
    m: &mut Machine<'t>,
    frame: &Frame<'t>,
    at: At,
    spot: Spot,
    function: u64,
    values: &[Value<i128>],
) -> Result<Value<i128>, Fault>
    ensures { RunsCall (around frame.now at) spot function values.now m.old result m.new }
{
    if at.room == 0 {
        return Err(trap(TrapKind::M6, spot));
    }
    match frame.functions.get(function as usize) {
        Some(f) => run_function(m, &called_in(frame, &f.slots), deeper(at), spot, f, values),
        None => Err(odd(spot)),
    }
}

/// A function with these arguments, whose slots are those around it.
#[cycle(run)]
pub fn run_function<'t>(
    m: &mut Machine<'t>,
    frame: &Frame<'t>,
    at: At,
    spot: Spot,
    f: &'t TypedFunction,
    values: &[Value<i128>],
) -> Result<Value<i128>, Fault>
    ensures { RunsFunction (around frame.now at) spot f.now values.now m.old result m.new }
{
    let outer = begin_call(m, frame.alloc);
    make_parameters(m, frame, at, spot, values)?;
    let flow = run_list(m, frame, at, f.body.as_slice())?;
    end_call(m, outer);
    Ok(value_back(&f.result, flow))
}
