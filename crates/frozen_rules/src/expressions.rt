//! Expressions: the first rule that one breaks, in the order in which its parts are evaluated.

ghost use Rattle.std.specs.Prelude.{◌≡◌, ◌++◌, List, [], ◌||◌, not, if◌then◌else◌, slice_get, Some};
ghost use Rattle.std.specs.Option.{option_copied};
ghost use Rattle.scope_rules.specs.declared.rules.ScopeRule.TheVariants.{F2, F3};
ghost use Rattle.scope_rules.specs.Frozen.{from_frozen, loses, is_marked};
ghost use Rattle.scope_rules.specs.InScope.{params_of, comings, unfrozen, first_unfrozen};
ghost use Rattle.oc_cells.specs.declared.types.CType.{CType};
ghost use Rattle.scope_rules.specs.FirstFault.{visit, in_order, visits_place};
ghost use Rattle.oc_typing.specs.Typed.{param_types};
ghost use Rattle.frozen_rules.specs.Scopes.{facts_of, around, Judges};
ghost use Rattle.frozen_rules.specs.Lists.{whole, visits_arg, visits_list, visits_filling, visit_write, types_in};

use crate::places::{keeps_public, loses_at, loses_unfrozen};
use crate::scopes::{Scope, keep, write_rule};
use oc_cells::CType;
use oc_source::Spot;
use oc_typed::{Builtin, TExpr, TExprNode, TPlace, TPlaceNode, TypedFunction};
use oc_typing::Typed;
use scope_rules::{ScopeFault, ScopeRule};

/// An expression.
#[cycle(expressions)]
pub fn check_expr(typed: &Typed, f: &TypedFunction, w: Scope, e: &TExpr) -> Result<(), ScopeFault>
    ensures { Judges (whole (around typed.now f.now) (facts_of w) e.now) tt result }
{
    match &e.node {
        TExprNode::Number(_) => Ok(()),
        TExprNode::NullPointer => Ok(()),
        TExprNode::Read(place) => check_place(typed, f, w, place),
        TExprNode::AddressOf(place) => check_place(typed, f, w, place),
        TExprNode::Decay(place) => check_place(typed, f, w, place),
        TExprNode::Unary { op: _, part } => check_expr(typed, f, w, part.get()),
        TExprNode::Binary { op: _, left, right } => {
            check_two(typed, f, w, left.get(), right.get())
        }
        TExprNode::PointerSame {
            left,
            right,
            negated: _,
        } => check_two(typed, f, w, left.get(), right.get()),
        TExprNode::Logic {
            all: _,
            left,
            right,
        } => check_two(typed, f, w, left.get(), right.get()),
        TExprNode::PointerStep {
            pointer,
            amount,
            back: _,
            amount_first,
        } => check_step(typed, f, w, *amount_first, pointer.get(), amount.get()),
        TExprNode::Choose { cond, yes, no } => {
            check_choice(typed, f, w, cond.get(), yes.get(), no.get())
        }
        TExprNode::Assign { place, value } => check_assign(typed, f, w, place, value.get()),
        TExprNode::Update {
            op: _,
            place,
            value,
            old: _,
        } => check_update(typed, f, w, place, value.get()),
        TExprNode::Convert(part) => check_coming(typed, f, w, part.get(), &e.ty),
        TExprNode::Call { function, args } => {
            check_call(typed, f, w, e.spot, *function, args.as_slice())
        }
        TExprNode::Builtin { which, args } => {
            check_own_call(typed, f, w, e.spot, which, args.as_slice())
        }
    }
}

/// A place, with the parts that it is found by.
#[cycle(expressions)]
fn check_place(typed: &Typed, f: &TypedFunction, w: Scope, place: &TPlace) -> Result<(), ScopeFault>
    ensures { Judges (visits_place (around typed.now f.now) (facts_of w) place.now.node) tt result }
{
    match &place.node {
        TPlaceNode::Slot(_) => Ok(()),
        TPlaceNode::Deref(pointer) => check_expr(typed, f, w, pointer.get()),
        TPlaceNode::Index { pointer, amount } => {
            check_two(typed, f, w, pointer.get(), amount.get())
        }
        TPlaceNode::Field { base, offset: _ } => check_place(typed, f, w, base.get()),
    }
}

/// Two expressions, one after the other.
#[cycle(expressions)]
fn check_two(
    typed: &Typed,
    f: &TypedFunction,
    w: Scope,
    first: &TExpr,
    second: &TExpr,
) -> Result<(), ScopeFault>
    ensures { Judges (whole (around typed.now f.now) (facts_of w) first.now ++ whole (around typed.now f.now) (facts_of w) second.now) tt result }
{
    check_expr(typed, f, w, first)?;
    check_expr(typed, f, w, second)
}

/// A pointer and the amount by which it moves, of which the first in the text comes first.
#[cycle(expressions)]
fn check_step(
    typed: &Typed,
    f: &TypedFunction,
    w: Scope,
    amount_first: bool,
    pointer: &TExpr,
    amount: &TExpr,
) -> Result<(), ScopeFault>
    ensures { Judges (in_order amount_first (whole (around typed.now f.now) (facts_of w) pointer.now) (whole (around typed.now f.now) (facts_of w) amount.now)) tt result }
{
    if amount_first {
        return check_two(typed, f, w, amount, pointer);
    }
    check_two(typed, f, w, pointer, amount)
}

/// A condition and two expressions of which it chooses one.
#[cycle(expressions)]
fn check_choice(
    typed: &Typed,
    f: &TypedFunction,
    w: Scope,
    cond: &TExpr,
    yes: &TExpr,
    no: &TExpr,
) -> Result<(), ScopeFault>
    ensures { Judges (whole (around typed.now f.now) (facts_of w) cond.now ++ whole (around typed.now f.now) (facts_of w) yes.now ++ whole (around typed.now f.now) (facts_of w) no.now) tt result }
{
    check_two(typed, f, w, cond, yes)?;
    check_expr(typed, f, w, no)
}

/// A write of public data to a place: the rule on frozen ones.
fn check_write(typed: &Typed, f: &TypedFunction, w: Scope, place: &TPlace) -> Result<(), ScopeFault>
    ensures { Judges (visit_write (around typed.now f.now) (facts_of w) place.now) tt result }
{
    keep(write_rule(w), place.spot, !keeps_public(typed, f, w, place))
}

/// A value that comes to a type: the rule on freezing that is lost.
fn check_loss(
    typed: &Typed,
    f: &TypedFunction,
    w: Scope,
    e: &TExpr,
    to: &CType,
) -> Result<(), ScopeFault>
    ensures { Judges (visit F2 e.now.spot (not (loses (around typed.now f.now) (from_frozen (around typed.now f.now) (facts_of w) e.now.node) e.now.ty to.now))) tt result }
{
    keep(ScopeRule::F2, e.spot, !loses_at(typed, f, w, e, to))
}

/// A value that comes to its own type, which is unfrozen if it is a pointer: the same rule.
fn check_own_loss(typed: &Typed, f: &TypedFunction, w: Scope, e: &TExpr) -> Result<(), ScopeFault>
    ensures { Judges (visit F2 e.now.spot (not (loses (around typed.now f.now) (from_frozen (around typed.now f.now) (facts_of w) e.now.node) e.now.ty (unfrozen e.now.ty)))) tt result }
{
    keep(ScopeRule::F2, e.spot, !loses_unfrozen(typed, f, w, e))
}

/// An expression, whose value comes to a type.
#[cycle(expressions)]
pub fn check_coming(
    typed: &Typed,
    f: &TypedFunction,
    w: Scope,
    e: &TExpr,
    to: &CType,
) -> Result<(), ScopeFault>
    ensures { Judges (visits_arg (around typed.now f.now) (facts_of w) (Some to.now) e.now) tt result }
{
    check_expr(typed, f, w, e)?;
    check_loss(typed, f, w, e, to)
}

/// An expression, whose value comes to its own type, which is unfrozen if it is a pointer.
#[cycle(expressions)]
fn check_unfrozen(typed: &Typed, f: &TypedFunction, w: Scope, e: &TExpr) -> Result<(), ScopeFault>
    ensures { Judges (visits_arg (around typed.now f.now) (facts_of w) (Some (unfrozen e.now.ty)) e.now) tt result }
{
    check_expr(typed, f, w, e)?;
    check_own_loss(typed, f, w, e)
}

/// A place, and then a value.
#[cycle(expressions)]
fn check_sides(
    typed: &Typed,
    f: &TypedFunction,
    w: Scope,
    place: &TPlace,
    value: &TExpr,
) -> Result<(), ScopeFault>
    ensures { Judges (visits_place (around typed.now f.now) (facts_of w) place.now.node ++ whole (around typed.now f.now) (facts_of w) value.now) tt result }
{
    check_place(typed, f, w, place)?;
    check_expr(typed, f, w, value)
}

/// A place, and then a value that comes to it.
#[cycle(expressions)]
fn check_filling(
    typed: &Typed,
    f: &TypedFunction,
    w: Scope,
    place: &TPlace,
    value: &TExpr,
) -> Result<(), ScopeFault>
    ensures { Judges (visits_filling (around typed.now f.now) (facts_of w) place.now value.now) tt result }
{
    check_sides(typed, f, w, place, value)?;
    check_loss(typed, f, w, value, &place.ty)
}

/// An assignment: its sides, and then the write.
#[cycle(expressions)]
fn check_assign(
    typed: &Typed,
    f: &TypedFunction,
    w: Scope,
    place: &TPlace,
    value: &TExpr,
) -> Result<(), ScopeFault>
    ensures { Judges (visits_filling (around typed.now f.now) (facts_of w) place.now value.now ++ visit_write (around typed.now f.now) (facts_of w) place.now) tt result }
{
    check_filling(typed, f, w, place, value)?;
    check_write(typed, f, w, place)
}

/// An update: its sides, and then the write.
#[cycle(expressions)]
fn check_update(
    typed: &Typed,
    f: &TypedFunction,
    w: Scope,
    place: &TPlace,
    value: &TExpr,
) -> Result<(), ScopeFault>
    ensures { Judges (visits_place (around typed.now f.now) (facts_of w) place.now.node ++ whole (around typed.now f.now) (facts_of w) value.now ++ visit_write (around typed.now f.now) (facts_of w) place.now) tt result }
{
    check_sides(typed, f, w, place, value)?;
    check_write(typed, f, w, place)
}

/// The type of a function's parameter of this number, if it has one.
fn own_param(callee: &TypedFunction, number: usize) -> Option<&CType>
    ensures { option_copied result ≡ slice_get (param_types callee.now) number }
{
    if number as u64 >= callee.params {
        return None;
    }
    match callee.slots.get(number) {
        Some(variable) => Some(&variable.ty),
        None => None,
    }
}

/// The same, if the function is there.
fn param_type(callee: Option<&TypedFunction>, number: usize) -> Option<&CType>
    ensures { option_copied result ≡ slice_get (params_of (option_copied callee.entry)) number }
{
    match callee {
        Some(callee) => own_param(callee, number),
        None => None,
    }
}

/// An argument, whose value comes to a type, if there is one.
#[cycle(expressions)]
fn check_arg(
    typed: &Typed,
    f: &TypedFunction,
    w: Scope,
    e: &TExpr,
    to: Option<&CType>,
) -> Result<(), ScopeFault>
    ensures { Judges (visits_arg (around typed.now f.now) (facts_of w) (option_copied to.entry) e.now) tt result }
{
    match to {
        Some(to) => check_coming(typed, f, w, e, to),
        None => check_expr(typed, f, w, e),
    }
}

/// Arguments in order, of which the first ones come to the types of this function's parameters, if it is there.
#[cycle(expressions)]
fn check_args(
    typed: &Typed,
    f: &TypedFunction,
    w: Scope,
    callee: Option<&TypedFunction>,
    args: &[TExpr],
) -> Result<(), ScopeFault>
    ensures { Judges (visits_list (around typed.now f.now) (facts_of w) (params_of (option_copied callee.entry)) args.now) tt result }
{
    for i in 0..args.len() {
        let e = &args[i];
        check_arg(typed, f, w, e, param_type(callee, i))?;
    }
    Ok(())
}

/// Whether a function may be called in a scope: in a hidden one only if it has the mark `obliv`.
fn may_call(w: Scope, callee: Option<&TypedFunction>) -> bool
    ensures { result ≡ (not w.hidden || is_marked (option_copied callee.entry)) }
{
    if !w.hidden {
        return true;
    }
    match callee {
        Some(callee) => callee.obliv,
        None => false,
    }
}

/// A call of a function.
#[cycle(expressions)]
fn check_call(
    typed: &Typed,
    f: &TypedFunction,
    w: Scope,
    spot: Spot,
    function: u64,
    args: &[TExpr],
) -> Result<(), ScopeFault>
    ensures { Judges (visits_list (around typed.now f.now) (facts_of w) (params_of (slice_get typed.now.functions function)) args.now ++ visit F3 spot (not w.hidden || is_marked (slice_get typed.now.functions function))) tt result }
{
    let callee = typed.functions.get(function as usize);
    check_args(typed, f, w, callee, args)?;
    keep(ScopeRule::F3, spot, may_call(w, callee))
}

/// Whether the first argument of a call of the language's own comes to an unfrozen pointer.
fn takes_unfrozen(which: &Builtin) -> bool
    ensures { (ts : List CType) → comings which.now ts ≡ (if result then first_unfrozen ts else []) }
{
    match which {
        Builtin::Reveal { kind: _ } => true,
        Builtin::Free => true,
        _ => false,
    }
}

/// The arguments of a call of the language's own.
#[cycle(expressions)]
fn check_own_args(
    typed: &Typed,
    f: &TypedFunction,
    w: Scope,
    which: &Builtin,
    args: &[TExpr],
) -> Result<(), ScopeFault>
    ensures { Judges (visits_list (around typed.now f.now) (facts_of w) (comings which.now (types_in args.now)) args.now) tt result }
{
    if !takes_unfrozen(which) {
        return check_args(typed, f, w, None, args);
    }
    match args.split_first() {
        Some((first, rest)) => {
            check_unfrozen(typed, f, w, first)?;
            check_args(typed, f, w, None, rest)
        }
        None => Ok(()),
    }
}

/// A call of the language's own.
#[cycle(expressions)]
fn check_own_call(
    typed: &Typed,
    f: &TypedFunction,
    w: Scope,
    spot: Spot,
    which: &Builtin,
    args: &[TExpr],
) -> Result<(), ScopeFault>
    ensures { Judges (visits_list (around typed.now f.now) (facts_of w) (comings which.now (types_in args.now)) args.now ++ visit F3 spot (not w.hidden)) tt result }
{
    check_own_args(typed, f, w, which, args)?;
    keep(ScopeRule::F3, spot, !w.hidden)
}
