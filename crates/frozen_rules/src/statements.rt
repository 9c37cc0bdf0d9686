//! Statements: the first rule that one breaks, in the order of the text, or else the last slot after it.

ghost use Rattle.std.specs.Prelude.{◌≡◌, ◌++◌, not, slice_get, Some};
ghost use Rattle.oc_cells.specs.declared.types.CType.{CType};
ghost use Rattle.scope_rules.specs.declared.rules.ScopeRule.TheVariants.{F4};
ghost use Rattle.scope_rules.specs.Frozen.{leaves_part};
ghost use Rattle.scope_rules.specs.InScope.{slot_type};
ghost use Rattle.scope_rules.specs.FirstFault.{visit, visits_maybe, visits_coming, visits_declares, visits_header};
ghost use Rattle.numbered_scopes.specs.Numbered.{last_declared, last_header, last_stmt, numbered_stmt, numbered_stmts};
ghost use Rattle.frozen_rules.specs.Scopes.{facts_of, around, Judges};
ghost use Rattle.frozen_rules.specs.Lists.{whole, visits_arg, last_all, numbered_whole, numbered_maybe, last_maybe};

use crate::expressions::{check_coming, check_expr};
use crate::scopes::{Scope, keep, leaves, of_loop, of_open, of_part};
use oc_cells::CType;
use oc_source::Spot;
use oc_typed::{TDeclared, TExpr, TForInit, TStmt, TStmtNode, TypedFunction};
use oc_typing::Typed;
use oc_values::Boxed;
use scope_rules::{ScopeFault, ScopeRule};

/// An expression, if it is there.
fn check_maybe(
    typed: &Typed,
    f: &TypedFunction,
    w: Scope,
    e: &Option<Boxed<TExpr>>,
) -> Result<(), ScopeFault>
    ensures { Judges (visits_maybe (around typed.now f.now) (facts_of w) e.now) tt result }
{
    match e {
        Some(part) => check_expr(typed, f, w, part.get()),
        None => Ok(()),
    }
}

/// An expression, whose value comes to a type, if it is there.
fn check_value(
    typed: &Typed,
    f: &TypedFunction,
    w: Scope,
    e: &Option<Boxed<TExpr>>,
    to: &CType,
) -> Result<(), ScopeFault>
    ensures { Judges (visits_coming (around typed.now f.now) (facts_of w) to.now e.now) tt result }
{
    match e {
        Some(part) => check_coming(typed, f, w, part.get(), to),
        None => Ok(()),
    }
}

/// A declared variable: its initialiser comes to its type.
fn check_declared(
    typed: &Typed,
    f: &TypedFunction,
    w: Scope,
    d: &TDeclared,
) -> Result<(), ScopeFault>
    ensures { Judges (visits_coming (around typed.now f.now) (facts_of w) (slot_type (slice_get f.now.slots d.now.slot)) d.now.init) tt result }
{
    match f.slots.get(d.slot as usize) {
        Some(variable) => check_value(typed, f, w, &d.init, &variable.ty),
        None => check_value(typed, f, w, &d.init, &CType::Nothing),
    }
}

/// Declared variables in order.
fn check_declares(
    typed: &Typed,
    f: &TypedFunction,
    w: Scope,
    before: Option<u64>,
    ds: &[TDeclared],
) -> Result<Option<u64>, ScopeFault>
    ensures { Judges (visits_declares (around typed.now f.now) (facts_of w) ds.now) (last_declared before ds.now) result }
{
    let mut last = before;
    for d in ds {
        check_declared(typed, f, w, d)?;
        last = Some(d.slot);
    }
    Ok(last)
}

/// An expression by itself.
fn check_alone(
    typed: &Typed,
    f: &TypedFunction,
    w: Scope,
    last: Option<u64>,
    e: &TExpr,
) -> Result<Option<u64>, ScopeFault>
    ensures { Judges (whole (around typed.now f.now) (facts_of w) e.now) last result }
{
    check_expr(typed, f, w, e)?;
    Ok(last)
}

/// What the header of a `for` begins with.
fn check_init(
    typed: &Typed,
    f: &TypedFunction,
    w: Scope,
    last: Option<u64>,
    init: &TForInit,
) -> Result<Option<u64>, ScopeFault>
    ensures { Judges (visits_header (around typed.now f.now) (facts_of w) init.now) (last_header last init.now) result }
{
    match init {
        TForInit::Nothing => Ok(last),
        TForInit::Declare(ds) => check_declares(typed, f, w, last, ds.as_slice()),
        TForInit::Express(e) => check_alone(typed, f, w, last, e.get()),
    }
}

/// The first two parts of the header of a `for`.
fn check_start(
    typed: &Typed,
    f: &TypedFunction,
    w: Scope,
    last: Option<u64>,
    init: &TForInit,
    cond: &Option<Boxed<TExpr>>,
) -> Result<Option<u64>, ScopeFault>
    ensures { Judges (visits_header (around typed.now f.now) (facts_of w) init.now ++ visits_maybe (around typed.now f.now) (facts_of w) cond.now) (last_header last init.now) result }
{
    let last = check_init(typed, f, w, last, init)?;
    check_maybe(typed, f, w, cond)?;
    Ok(last)
}

/// The header of a `for`.
fn check_header(
    typed: &Typed,
    f: &TypedFunction,
    w: Scope,
    last: Option<u64>,
    init: &TForInit,
    cond: &Option<Boxed<TExpr>>,
    advance: &Option<Boxed<TExpr>>,
) -> Result<Option<u64>, ScopeFault>
    ensures { Judges (visits_header (around typed.now f.now) (facts_of w) init.now ++ visits_maybe (around typed.now f.now) (facts_of w) cond.now ++ visits_maybe (around typed.now f.now) (facts_of w) advance.now) (last_header last init.now) result }
{
    let last = check_start(typed, f, w, last, init, cond)?;
    check_maybe(typed, f, w, advance)?;
    Ok(last)
}

/// A `return`.
fn check_return(
    typed: &Typed,
    f: &TypedFunction,
    w: Scope,
    last: Option<u64>,
    spot: Spot,
    e: &Option<Boxed<TExpr>>,
) -> Result<Option<u64>, ScopeFault>
    ensures { Judges (visits_coming (around typed.now f.now) (facts_of w) f.now.result e.now ++ visit F4 spot (not w.parted)) last result }
{
    check_value(typed, f, w, e, &f.result)?;
    keep(ScopeRule::F4, spot, !w.parted)?;
    Ok(last)
}

/// A `break` or `continue`.
fn check_jump(w: Scope, last: Option<u64>, spot: Spot) -> Result<Option<u64>, ScopeFault>
    ensures { Judges (visit F4 spot (not (leaves_part (facts_of w)))) last result }
{
    keep(ScopeRule::F4, spot, !leaves(w))?;
    Ok(last)
}

/// A statement before which this slot is the last.
#[cycle(statements)]
pub fn check_stmt(
    typed: &Typed,
    f: &TypedFunction,
    w: Scope,
    last: Option<u64>,
    s: &TStmt,
) -> Result<Option<u64>, ScopeFault>
    ensures { Judges (numbered_whole (around typed.now f.now) (facts_of w) last s.now) (last_stmt last s.now.node) result }
{
    match &s.node {
        TStmtNode::Declare(ds) => check_declares(typed, f, w, last, ds.as_slice()),
        TStmtNode::Express(e) => check_alone(typed, f, w, last, e.get()),
        TStmtNode::Block(ss) => check_list(typed, f, w, last, ss.as_slice()),
        TStmtNode::If { cond, yes, no } => {
            let last = check_part(typed, f, w, w, last, cond.get(), yes.get())?;
            check_other(typed, f, w, last, no)
        }
        TStmtNode::OblivIf { cond, yes, no } => {
            let inner = of_part(last);
            let last = check_part(typed, f, w, inner, last, cond.get(), yes.get())?;
            check_other(typed, f, inner, last, no)
        }
        TStmtNode::Always { slot, body } => {
            check_stmt(typed, f, of_open(), Some(*slot), body.get())
        }
        TStmtNode::While { cond, body } => {
            check_part(typed, f, w, of_loop(w), last, cond.get(), body.get())
        }
        TStmtNode::For {
            init,
            cond,
            advance,
            body,
        } => {
            let last = check_header(typed, f, w, last, init, cond, advance)?;
            check_stmt(typed, f, of_loop(w), last, body.get())
        }
        TStmtNode::Return(e) => check_return(typed, f, w, last, s.spot, e),
        TStmtNode::Break => check_jump(w, last, s.spot),
        TStmtNode::Continue => check_jump(w, last, s.spot),
        TStmtNode::Empty => Ok(last),
    }
}

/// A condition, and then a part in a scope of its own.
#[cycle(statements)]
fn check_part(
    typed: &Typed,
    f: &TypedFunction,
    w: Scope,
    inner: Scope,
    last: Option<u64>,
    cond: &TExpr,
    body: &TStmt,
) -> Result<Option<u64>, ScopeFault>
    ensures { Judges (whole (around typed.now f.now) (facts_of w) cond.now ++ numbered_whole (around typed.now f.now) (facts_of inner) last body.now) (last_stmt last body.now.node) result }
{
    check_expr(typed, f, w, cond)?;
    check_stmt(typed, f, inner, last, body)
}

/// The part after an `else`, if it is there.
#[cycle(statements)]
fn check_other(
    typed: &Typed,
    f: &TypedFunction,
    w: Scope,
    last: Option<u64>,
    no: &Option<Boxed<TStmt>>,
) -> Result<Option<u64>, ScopeFault>
    ensures { Judges (numbered_maybe (around typed.now f.now) (facts_of w) last no.now) (last_maybe last no.now) result }
{
    match no {
        Some(part) => check_stmt(typed, f, w, last, part.get()),
        None => Ok(last),
    }
}

/// Statements in order.
#[cycle(statements)]
pub fn check_list(
    typed: &Typed,
    f: &TypedFunction,
    w: Scope,
    before: Option<u64>,
    ss: &[TStmt],
) -> Result<Option<u64>, ScopeFault>
    ensures { Judges (numbered_stmts (around typed.now f.now) (facts_of w) before ss.now) (last_all before ss.now) result }
{
    let mut last = before;
    for s in ss {
        last = check_stmt(typed, f, w, last, s)?;
    }
    Ok(last)
}
