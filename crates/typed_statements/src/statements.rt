//! Statements. The recursion goes down into parts alone; lists are loops.

ghost use Rattle.std.specs.Prelude.{◌≡◌, IfOk, OnOk, true, false};
ghost use Rattle.oc_cells.specs.declared.types.CType.{Int};
ghost use Rattle.type_rules.specs.Lookup.{converted};
ghost use Rattle.type_rules.specs.StatementRules.{add, stmt};
ghost use Rattle.written_types.specs.Known.{lookup};
ghost use Rattle.visible_variables.specs.Scopes.{scope_of, Sound};
ghost use Rattle.typed_statements.specs.Walking.{Does, Kept};
ghost use Rattle.typed_statements.specs.Parts.{whole, part_of, other_of, all_of, for_within, always_within};

use crate::declarations::{type_declares, type_header};
use crate::values::{alone_in, need_condition, optional_in, returned, value_in};
use oc_cells::CType;
use oc_source::{Declared, Expr, ForInit, Spot, Stmt, StmtNode};
use oc_typed::{TExpr, TStmt, TStmtNode};
use oc_values::{Boxed, IntKind, Items, Name, NoMemory};
use std::alloc::Global;
use type_rules::TypeRule;
use type_steps::TypeFault;
use type_steps::needs::{need_integer, need_public, needs};
use type_steps::values::converted;
use visible_variables::Scope;
use written_types::Known;

/// A declaration.
fn type_declaration<'p>(
    alloc: Global,
    known: &Known<'_, 'p>,
    scope: &mut Scope<'p>,
    in_loop: bool,
    spot: Spot,
    list: &'p Items<Declared>,
) -> Result<TStmt, TypeFault>
    requires { Sound scope.old }
    ensures { Does (stmt (lookup known.now) in_loop spot (StmtNode.Declare list.now)) scope.old result scope.new }
{
    let list = type_declares(alloc, known, scope, list)?;
    Ok(TStmt {
        spot,
        node: TStmtNode::Declare(list),
    })
}

/// An expression by itself.
fn type_express<'p>(
    alloc: Global,
    known: &Known<'_, 'p>,
    scope: &Scope<'p>,
    in_loop: bool,
    spot: Spot,
    e: &Expr,
) -> Result<TStmt, TypeFault>
    requires { Sound scope.now }
    ensures { Does (stmt (lookup known.now) in_loop spot (StmtNode.Express e.now)) scope.now result scope.now }
{
    let value = alone_in(alloc, known, scope, e)?;
    Ok(TStmt {
        spot,
        node: TStmtNode::Express(value),
    })
}

/// A `return`.
fn type_return<'p>(
    alloc: Global,
    known: &Known<'_, 'p>,
    scope: &Scope<'p>,
    in_loop: bool,
    spot: Spot,
    e: &Option<Boxed<Expr>>,
) -> Result<TStmt, TypeFault>
    requires { Sound scope.now }
    ensures { Does (stmt (lookup known.now) in_loop spot (StmtNode.Return e.now)) scope.now result scope.now }
{
    let value = optional_in(alloc, known, scope, e)?;
    let value = returned(alloc, known, spot, value)?;
    Ok(TStmt {
        spot,
        node: TStmtNode::Return(value),
    })
}

/// A condition as one that may be hidden.
fn hidden_condition(alloc: Global, cond: Boxed<TExpr>) -> Result<Boxed<TExpr>, NoMemory>
    ensures { IfOk result (λ hidden. hidden ≡ converted (Int IntKind.Bool true) cond) }
{
    let ty = CType::Int {
        kind: IntKind::Bool,
        obliv: true,
    };
    converted(alloc, &ty, cond)
}

/// Adds the variable that a `~obliv` declares.
fn add_mark<'p>(scope: &mut Scope<'p>, name: &'p Name) -> Result<(), NoMemory>
    requires { Sound scope.old }
    ensures added { OnOk result (scope_of scope.new ≡ add name.now (Int IntKind.Bool true) false (scope_of scope.old)) }
    ensures kept { OnOk result (Kept scope.old scope.new) }
{
    let ty = CType::Int {
        kind: IntKind::Bool,
        obliv: true,
    };
    scope.add(name.as_bytes(), ty, false)
}

/// A statement, in a loop or not.
#[cycle(stmts)]
fn type_stmt<'p>(
    alloc: Global,
    known: &Known<'_, 'p>,
    scope: &mut Scope<'p>,
    in_loop: bool,
    s: &'p Stmt,
) -> Result<TStmt, TypeFault>
    requires { Sound scope.old }
    ensures { Does (whole (lookup known.now) in_loop s.now) scope.old result scope.new }
{
    let spot = s.spot;
    match &s.node {
        StmtNode::Declare(list) => type_declaration(alloc, known, scope, in_loop, spot, list),
        StmtNode::Express(e) => type_express(alloc, known, scope, in_loop, spot, e.get()),
        StmtNode::Block(list) => type_block(alloc, known, scope, in_loop, spot, list),
        StmtNode::If { cond, yes, no } => type_if(
            alloc,
            known,
            scope,
            in_loop,
            spot,
            cond.get(),
            yes.get(),
            no,
        ),
        StmtNode::OblivIf { cond, yes, no } => type_obliv_if(
            alloc,
            known,
            scope,
            in_loop,
            spot,
            cond.get(),
            yes.get(),
            no,
        ),
        StmtNode::Always { name, body } => type_always(
            alloc,
            known,
            scope,
            in_loop,
            spot,
            name,
            body.get(),
        ),
        StmtNode::While { cond, body } => type_while(
            alloc,
            known,
            scope,
            in_loop,
            spot,
            cond.get(),
            body.get(),
        ),
        StmtNode::For {
            init,
            cond,
            advance,
            body,
        } => type_for(
            alloc,
            known,
            scope,
            in_loop,
            spot,
            init,
            cond,
            advance,
            body.get(),
        ),
        StmtNode::Return(e) => type_return(alloc, known, scope, in_loop, spot, e),
        StmtNode::Break => {
            needs(spot, TypeRule::T12, in_loop)?;
            Ok(TStmt {
                spot,
                node: TStmtNode::Break,
            })
        }
        StmtNode::Continue => {
            needs(spot, TypeRule::T12, in_loop)?;
            Ok(TStmt {
                spot,
                node: TStmtNode::Continue,
            })
        }
        StmtNode::Empty => Ok(TStmt {
            spot,
            node: TStmtNode::Empty,
        }),
    }
}

/// Statements in order.
#[cycle(stmts)]
pub fn type_stmts<'p>(
    alloc: Global,
    known: &Known<'_, 'p>,
    scope: &mut Scope<'p>,
    in_loop: bool,
    list: &'p Items<Stmt>,
) -> Result<Items<TStmt>, TypeFault>
    requires { Sound scope.old }
    ensures { Does (all_of (lookup known.now) in_loop list.now) scope.old result scope.new }
{
    let mut typed = Items::new(alloc);
    for s in list.as_slice() {
        let each = type_stmt(alloc, known, scope, in_loop, s)?;
        typed.push(each)?;
    }
    Ok(typed)
}

/// A part of a statement, whose names end with it.
#[cycle(stmts)]
fn type_part<'p>(
    alloc: Global,
    known: &Known<'_, 'p>,
    scope: &mut Scope<'p>,
    in_loop: bool,
    s: &'p Stmt,
) -> Result<Boxed<TStmt>, TypeFault>
    requires { Sound scope.old }
    ensures { Does (part_of (lookup known.now) in_loop s.now) scope.old result scope.new }
{
    let around = scope.enter();
    let typed = type_stmt(alloc, known, scope, in_loop, s)?;
    scope.leave(around)?;
    Ok(Boxed::new(alloc, typed)?)
}

/// The part after an `else`, if there is one.
#[cycle(stmts)]
fn type_other<'p>(
    alloc: Global,
    known: &Known<'_, 'p>,
    scope: &mut Scope<'p>,
    in_loop: bool,
    no: &'p Option<Boxed<Stmt>>,
) -> Result<Option<Boxed<TStmt>>, TypeFault>
    requires { Sound scope.old }
    ensures { Does (other_of (lookup known.now) in_loop no.now) scope.old result scope.new }
{
    match no {
        None => Ok(None),
        Some(part) => {
            let typed = type_part(alloc, known, scope, in_loop, part.get())?;
            Ok(Some(typed))
        }
    }
}

/// A block, whose names end with it.
#[cycle(stmts)]
fn type_block<'p>(
    alloc: Global,
    known: &Known<'_, 'p>,
    scope: &mut Scope<'p>,
    in_loop: bool,
    spot: Spot,
    list: &'p Items<Stmt>,
) -> Result<TStmt, TypeFault>
    requires { Sound scope.old }
    ensures { Does (stmt (lookup known.now) in_loop spot (StmtNode.Block list.now)) scope.old result scope.new }
{
    let around = scope.enter();
    let list = type_stmts(alloc, known, scope, in_loop, list)?;
    scope.leave(around)?;
    Ok(TStmt {
        spot,
        node: TStmtNode::Block(list),
    })
}

/// An `if`, whose condition is public.
#[cycle(stmts)]
fn type_if<'p>(
    alloc: Global,
    known: &Known<'_, 'p>,
    scope: &mut Scope<'p>,
    in_loop: bool,
    spot: Spot,
    cond: &Expr,
    yes: &'p Stmt,
    no: &'p Option<Boxed<Stmt>>,
) -> Result<TStmt, TypeFault>
    requires { Sound scope.old }
    ensures { Does (stmt (lookup known.now) in_loop spot (StmtNode.If cond.now yes.now no.now)) scope.old result scope.new }
{
    let cond = value_in(alloc, known, scope, cond)?;
    need_public(spot, &cond)?;
    let yes = type_part(alloc, known, scope, in_loop, yes)?;
    let no = type_other(alloc, known, scope, in_loop, no)?;
    Ok(TStmt {
        spot,
        node: TStmtNode::If { cond, yes, no },
    })
}

/// An `obliv if`, whose condition may be hidden.
#[cycle(stmts)]
fn type_obliv_if<'p>(
    alloc: Global,
    known: &Known<'_, 'p>,
    scope: &mut Scope<'p>,
    in_loop: bool,
    spot: Spot,
    cond: &Expr,
    yes: &'p Stmt,
    no: &'p Option<Boxed<Stmt>>,
) -> Result<TStmt, TypeFault>
    requires { Sound scope.old }
    ensures { Does (stmt (lookup known.now) in_loop spot (StmtNode.OblivIf cond.now yes.now no.now)) scope.old result scope.new }
{
    let cond = value_in(alloc, known, scope, cond)?;
    need_integer(spot, &cond)?;
    let yes = type_part(alloc, known, scope, in_loop, yes)?;
    let no = type_other(alloc, known, scope, in_loop, no)?;
    let cond = hidden_condition(alloc, cond)?;
    Ok(TStmt {
        spot,
        node: TStmtNode::OblivIf { cond, yes, no },
    })
}

/// A `while`, whose condition is public.
#[cycle(stmts)]
fn type_while<'p>(
    alloc: Global,
    known: &Known<'_, 'p>,
    scope: &mut Scope<'p>,
    in_loop: bool,
    spot: Spot,
    cond: &Expr,
    body: &'p Stmt,
) -> Result<TStmt, TypeFault>
    requires { Sound scope.old }
    ensures { Does (stmt (lookup known.now) in_loop spot (StmtNode.While cond.now body.now)) scope.old result scope.new }
{
    let cond = value_in(alloc, known, scope, cond)?;
    need_public(spot, &cond)?;
    let body = type_part(alloc, known, scope, true, body)?;
    Ok(TStmt {
        spot,
        node: TStmtNode::While { cond, body },
    })
}

/// An `~obliv` within its scope.
#[cycle(stmts)]
fn type_marked<'p>(
    alloc: Global,
    known: &Known<'_, 'p>,
    scope: &mut Scope<'p>,
    in_loop: bool,
    spot: Spot,
    name: &'p Name,
    body: &'p Stmt,
) -> Result<TStmt, TypeFault>
    requires { Sound scope.old }
    ensures { Does (always_within (lookup known.now) in_loop spot name.now body.now) scope.old result scope.new }
{
    let slot = scope.slots.len() as u64;
    add_mark(scope, name)?;
    let body = type_part(alloc, known, scope, in_loop, body)?;
    Ok(TStmt {
        spot,
        node: TStmtNode::Always { slot, body },
    })
}

/// An `~obliv`, whose name ends with it.
#[cycle(stmts)]
fn type_always<'p>(
    alloc: Global,
    known: &Known<'_, 'p>,
    scope: &mut Scope<'p>,
    in_loop: bool,
    spot: Spot,
    name: &'p Name,
    body: &'p Stmt,
) -> Result<TStmt, TypeFault>
    requires { Sound scope.old }
    ensures { Does (stmt (lookup known.now) in_loop spot (StmtNode.Always name.now body.now)) scope.old result scope.new }
{
    let around = scope.enter();
    let typed = type_marked(alloc, known, scope, in_loop, spot, name, body)?;
    scope.leave(around)?;
    Ok(typed)
}

/// A `for` within its scope.
#[cycle(stmts)]
fn type_headed<'p>(
    alloc: Global,
    known: &Known<'_, 'p>,
    scope: &mut Scope<'p>,
    spot: Spot,
    init: &'p ForInit,
    cond: &Option<Boxed<Expr>>,
    advance: &Option<Boxed<Expr>>,
    body: &'p Stmt,
) -> Result<TStmt, TypeFault>
    requires { Sound scope.old }
    ensures { Does (for_within (lookup known.now) spot init.now cond.now advance.now body.now) scope.old result scope.new }
{
    let init = type_header(alloc, known, scope, init)?;
    let cond = optional_in(alloc, known, scope, cond)?;
    let advance = optional_in(alloc, known, scope, advance)?;
    need_condition(spot, &cond)?;
    let body = type_part(alloc, known, scope, true, body)?;
    let node = TStmtNode::For {
        init,
        cond,
        advance,
        body,
    };
    Ok(TStmt { spot, node })
}

/// A `for`, whose names end with it.
#[cycle(stmts)]
fn type_for<'p>(
    alloc: Global,
    known: &Known<'_, 'p>,
    scope: &mut Scope<'p>,
    in_loop: bool,
    spot: Spot,
    init: &'p ForInit,
    cond: &Option<Boxed<Expr>>,
    advance: &Option<Boxed<Expr>>,
    body: &'p Stmt,
) -> Result<TStmt, TypeFault>
    requires { Sound scope.old }
    ensures { Does (stmt (lookup known.now) in_loop spot (StmtNode.For init.now cond.now advance.now body.now)) scope.old result scope.new }
{
    let around = scope.enter();
    let typed = type_headed(alloc, known, scope, spot, init, cond, advance, body)?;
    scope.leave(around)?;
    Ok(typed)
}
