//! Expressions of statements, with the variables that are visible there.

ghost use Rattle.std.specs.Prelude.{Some, None};
ghost use Rattle.type_rules.specs.StatementRules.{value_in, alone_in, optional_in, initial, condition, returned};
ghost use Rattle.type_steps.specs.Answering.{Answers};
ghost use Rattle.written_types.specs.Known.{lookup};
ghost use Rattle.visible_variables.specs.Scopes.{Sound};
ghost use Rattle.typed_statements.specs.Walking.{Does};

use oc_cells::CType;
use oc_source::{Expr, Spot};
use oc_typed::TExpr;
use oc_values::Boxed;
use std::alloc::Global;
use type_rules::TypeRule;
use type_steps::TypeFault;
use type_steps::needs::{need_public, needs};
use type_steps::types::is_nothing;
use type_steps::values::convert;
use typed_expressions::{Site, type_alone, type_value};
use visible_variables::Scope;
use written_types::Known;

/// An expression whose value is used.
pub fn value_in<'p>(
    alloc: Global,
    known: &Known<'_, 'p>,
    scope: &Scope<'p>,
    e: &Expr,
) -> Result<Boxed<TExpr>, TypeFault>
    requires { Sound scope.now }
    ensures { Does (value_in (lookup known.now) e.now) scope.now result scope.now }
{
    let site = Site {
        known,
        variables: &scope.variables,
        latest: &scope.latest,
    };
    type_value(alloc, &site, e)
}

/// An expression that stands alone.
pub fn alone_in<'p>(
    alloc: Global,
    known: &Known<'_, 'p>,
    scope: &Scope<'p>,
    e: &Expr,
) -> Result<Boxed<TExpr>, TypeFault>
    requires { Sound scope.now }
    ensures { Does (alone_in (lookup known.now) e.now) scope.now result scope.now }
{
    let site = Site {
        known,
        variables: &scope.variables,
        latest: &scope.latest,
    };
    type_alone(alloc, &site, e)
}

/// An expression whose value is used, if there is one.
pub fn optional_in<'p>(
    alloc: Global,
    known: &Known<'_, 'p>,
    scope: &Scope<'p>,
    e: &Option<Boxed<Expr>>,
) -> Result<Option<Boxed<TExpr>>, TypeFault>
    requires { Sound scope.now }
    ensures { Does (optional_in (lookup known.now) e.now) scope.now result scope.now }
{
    match e {
        None => Ok(None),
        Some(e) => {
            let value = value_in(alloc, known, scope, e.get())?;
            Ok(Some(value))
        }
    }
}

/// An initialiser, converted to the type of its variable, if there is one.
pub fn initial<'p>(
    alloc: Global,
    known: &Known<'_, 'p>,
    scope: &Scope<'p>,
    ty: &CType,
    init: &Option<Boxed<Expr>>,
) -> Result<Option<Boxed<TExpr>>, TypeFault>
    requires { Sound scope.now }
    ensures { Does (initial (lookup known.now) ty.now init.now) scope.now result scope.now }
{
    match init {
        None => Ok(None),
        Some(e) => {
            let value = value_in(alloc, known, scope, e.get())?;
            let value = convert(alloc, ty, value)?;
            Ok(Some(value))
        }
    }
}

/// The condition of a `for`, which is public, if there is one.
pub fn need_condition(spot: Spot, cond: &Option<Boxed<TExpr>>) -> Result<(), TypeFault>
    ensures { Answers (condition spot cond.now) result }
{
    match cond {
        None => Ok(()),
        Some(value) => need_public(spot, value),
    }
}

/// No value, where the function has no result.
fn returns_none(known: &Known<'_, '_>, spot: Spot) -> Result<Option<Boxed<TExpr>>, TypeFault>
    ensures { Answers (returned (lookup known.now) spot None) result }
{
    needs(spot, TypeRule::T3, is_nothing(known.result))?;
    Ok(None)
}

/// A value, converted to the result of the function, where it has one.
fn returns_value(
    alloc: Global,
    known: &Known<'_, '_>,
    spot: Spot,
    value: Boxed<TExpr>,
) -> Result<Option<Boxed<TExpr>>, TypeFault>
    ensures { Answers (returned (lookup known.now) spot (Some value)) result }
{
    needs(spot, TypeRule::T3, !is_nothing(known.result))?;
    let value = convert(alloc, known.result, value)?;
    Ok(Some(value))
}

/// What a `return` hands back: a value exactly where the function has a result.
pub fn returned(
    alloc: Global,
    known: &Known<'_, '_>,
    spot: Spot,
    value: Option<Boxed<TExpr>>,
) -> Result<Option<Boxed<TExpr>>, TypeFault>
    ensures { Answers (returned (lookup known.now) spot value) result }
{
    match value {
        None => returns_none(known, spot),
        Some(value) => returns_value(alloc, known, spot, value),
    }
}
