//! What types have to be at a node.

ghost use Rattle.std.specs.Prelude.{◌≡◌, Ok, ◌&&◌, ◌||◌, not, if◌then◌else◌};
ghost use Rattle.oc_cells.specs.Types.{is_integer, is_hidden};
ghost use Rattle.type_rules.specs.Judging.{breaks, needs, demand, public_integer, converts, takes, takes_update, both_integers, leads};
ghost use Rattle.type_rules.specs.Lookup.{type_of};
ghost use Rattle.type_steps.specs.Answering.{Answers};

use crate::fault::TypeFault;
use crate::types::{
    both_integers, converts, converts_bare, is_hidden, is_integer, leads, takes, takes_bare,
    takes_update, takes_update_bare,
};
use crate::values::type_of;
use oc_cells::CType;
use oc_source::Spot;
use oc_typed::TExpr;
use oc_values::{BinaryOp, Boxed};
use type_rules::{Found, TypeRule};

/// What a rule asks for at a node.
pub fn needs(spot: Spot, rule: TypeRule, holds: bool) -> Result<(), TypeFault>
    ensures { Answers (needs spot rule holds) result }
{
    if holds {
        Ok(())
    } else {
        Err(TypeFault::Refused { rule, spot })
    }
}

/// What types have to be at a node, where it is known whether they fit, and whether they would without the marks `obliv`.
pub fn needs_fit(spot: Spot, fits: bool, fits_bare: bool) -> Result<(), TypeFault>
    ensures { Answers (if fits then Ok tt else if fits_bare then breaks spot TypeRule.T4 else breaks spot TypeRule.T3) result }
{
    if fits {
        Ok(())
    } else if fits_bare {
        needs(spot, TypeRule::T4, false)
    } else {
        needs(spot, TypeRule::T3, false)
    }
}

/// A public integer.
pub fn need_public(spot: Spot, value: &Boxed<TExpr>) -> Result<(), TypeFault>
    ensures { Answers (public_integer spot value.now.ty) result }
{
    let ty = &value.get().ty;
    if !is_integer(ty) {
        Err(TypeFault::Refused {
            rule: TypeRule::T3,
            spot,
        })
    } else if is_hidden(ty) {
        Err(TypeFault::Refused {
            rule: TypeRule::T4,
            spot,
        })
    } else {
        Ok(())
    }
}

/// What the conversion of a value to a type asks for.
pub fn need_conversion(value: &Boxed<TExpr>, to: &CType) -> Result<(), TypeFault>
    ensures { Answers (demand value.now.spot converts value.now.ty to.now) result }
{
    let from = &value.get().ty;
    needs_fit(
        value.get().spot,
        converts(from, to),
        converts_bare(from, to),
    )
}

/// What an operator with two operands asks for.
pub fn need_operands(
    spot: Spot,
    op: BinaryOp,
    left: &Boxed<TExpr>,
    right: &Boxed<TExpr>,
) -> Result<(), TypeFault>
    ensures { Answers (demand spot (takes op) left.now.ty right.now.ty) result }
{
    let (left, right) = (&left.get().ty, &right.get().ty);
    needs_fit(spot, takes(op, left, right), takes_bare(op, left, right))
}

/// What a compound assignment asks for.
pub fn need_update(
    spot: Spot,
    op: BinaryOp,
    found: &Boxed<Found>,
    value: &Boxed<TExpr>,
) -> Result<(), TypeFault>
    ensures { Answers (demand spot (takes_update op) (type_of found.now) value.now.ty) result }
{
    let (place, value) = (type_of(found.get()), &value.get().ty);
    needs_fit(
        spot,
        takes_update(op, place, value),
        takes_update_bare(op, place, value),
    )
}

/// An integer.
pub fn need_integer(spot: Spot, value: &Boxed<TExpr>) -> Result<(), TypeFault>
    ensures { Answers (needs spot TypeRule.T3 (is_integer value.now.ty)) result }
{
    needs(spot, TypeRule::T3, is_integer(&value.get().ty))
}

/// Two integers.
pub fn need_integers(spot: Spot, left: &Boxed<TExpr>, right: &Boxed<TExpr>) -> Result<(), TypeFault>
    ensures { Answers (needs spot TypeRule.T3 (both_integers left.now.ty right.now.ty)) result }
{
    needs(
        spot,
        TypeRule::T3,
        both_integers(&left.get().ty, &right.get().ty),
    )
}

/// A condition and two integers.
pub fn need_choice(
    spot: Spot,
    cond: &Boxed<TExpr>,
    yes: &Boxed<TExpr>,
    no: &Boxed<TExpr>,
) -> Result<(), TypeFault>
    ensures { Answers (needs spot TypeRule.T3 (is_integer cond.now.ty && both_integers yes.now.ty no.now.ty)) result }
{
    let integers = both_integers(&yes.get().ty, &no.get().ty);
    needs(spot, TypeRule::T3, is_integer(&cond.get().ty) && integers)
}

/// A value that isn't hidden.
pub fn need_open(spot: Spot, value: &Boxed<TExpr>) -> Result<(), TypeFault>
    ensures { Answers (needs spot TypeRule.T4 (not (is_hidden value.now.ty))) result }
{
    needs(spot, TypeRule::T4, !is_hidden(&value.get().ty))
}

/// A pointer to something.
pub fn need_pointer(spot: Spot, value: &Boxed<TExpr>) -> Result<(), TypeFault>
    ensures { Answers (needs spot TypeRule.T3 (leads value.now.ty)) result }
{
    needs(spot, TypeRule::T3, leads(&value.get().ty))
}

/// A pointer to something and an integer.
pub fn need_element(
    spot: Spot,
    pointer: &Boxed<TExpr>,
    amount: &Boxed<TExpr>,
) -> Result<(), TypeFault>
    ensures { Answers (needs spot TypeRule.T3 (leads pointer.now.ty && is_integer amount.now.ty)) result }
{
    let fits = leads(&pointer.get().ty) && is_integer(&amount.get().ty);
    needs(spot, TypeRule::T3, fits)
}

/// An integer, or a pointer to something.
pub fn need_steps(spot: Spot, found: &Boxed<Found>) -> Result<(), TypeFault>
    ensures { Answers (needs spot TypeRule.T3 (is_integer (type_of found.now) || leads (type_of found.now))) result }
{
    let ty = type_of(found.get());
    needs(spot, TypeRule::T3, is_integer(ty) || leads(ty))
}

/// A type that is an integer.
pub fn need_integer_type(spot: Spot, ty: &CType) -> Result<(), TypeFault>
    ensures { Answers (needs spot TypeRule.T3 (is_integer ty.now)) result }
{
    needs(spot, TypeRule::T3, is_integer(ty))
}
