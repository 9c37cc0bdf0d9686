//! What operators, assignments, elements and casts are, of their typed parts.

ghost use Rattle.std.specs.Prelude.{◌≡◌, IfOk, IsTrue, IsFalse, false, ◌||◌, not, pos};
ghost use Rattle.oc_cells.specs.Types.{is_integer as integer_in, is_hidden as hidden_in, kind_of as kind_in, target as target_in};
ghost use Rattle.oc_values.specs.Kinds.{promoted, common, is_shift};
ghost use Rattle.type_rules.specs.Lookup.{value_of, type_of, converted, is, place_is};
ghost use Rattle.type_rules.specs.Judging.{Judged, is_equality, is_unlike, is_minus};
ghost use Rattle.type_rules.specs.Operators.{truth, negate, deny, follow, refer, unary, sum_op, working, bump, result_of, arithmetic, operated, operate, logic, choice, assigned, updated, assign, index, cast};
ghost use Rattle.type_rules.specs.declared.judging.Found.TheVariants as found;
ghost use Rattle.oc_typed.specs.declared.typed.TExprNode as node;
ghost use Rattle.oc_typed.specs.declared.typed.TPlaceNode as place;
ghost use Rattle.oc_values.specs.declared.integers.OneOp.TheVariants as one;
ghost use Rattle.type_steps.specs.Answering.{Answers};

use crate::fault::TypeFault;
use crate::kinds::{is_comparison, is_equality, is_minus, is_shift, is_unlike};
use crate::needs::{
    need_choice, need_conversion, need_element, need_integer, need_integer_type, need_integers,
    need_open, need_operands, need_pointer, need_steps, need_update,
};
use crate::types::{
    both_integers, is_hidden, is_integer, is_pointer, kind_of, leads, share_type, target_of,
};
use crate::values::{
    convert, converted, new_place, new_value, placed, pointer_to, type_of, value_of,
};
use oc_cells::CType;
use oc_source::{Spot, UnaryOp};
use oc_typed::{TExpr, TExprNode, TPlace, TPlaceNode};
use oc_values::{BinaryOp, Boxed, IntKind, NoMemory, OneOp, common, promoted};
use std::alloc::Global;
use type_rules::{Found, TypeRule};

/// The type of a truth value: hidden `Bool`, or public `I32`.
pub fn truth(hidden: bool) -> CType
    ensures { result ≡ truth hidden }
{
    if hidden {
        CType::Int {
            kind: IntKind::Bool,
            obliv: true,
        }
    } else {
        CType::Int {
            kind: IntKind::I32,
            obliv: false,
        }
    }
}

/// An integer as one of this kind.
pub fn as_kind(
    alloc: Global,
    kind: IntKind,
    obliv: bool,
    value: Boxed<TExpr>,
) -> Result<Boxed<TExpr>, NoMemory>
    ensures { IfOk result (λ new. new ≡ converted (CType.Int kind obliv) value) }
{
    converted(alloc, &CType::Int { kind, obliv }, value)
}

fn negated(
    alloc: Global,
    spot: Spot,
    op: OneOp,
    value: Boxed<TExpr>,
) -> Result<Boxed<Found>, TypeFault>
    ensures { Answers (is spot (CType.Int (promoted (kind_in value.ty)) (hidden_in value.ty)) (node.Unary op (converted (CType.Int (promoted (kind_in value.ty)) (hidden_in value.ty)) value))) result }
{
    let kind = promoted(kind_of(&value.get().ty));
    let obliv = is_hidden(&value.get().ty);
    let part = as_kind(alloc, kind, obliv, value)?;
    Ok(new_value(
        alloc,
        spot,
        CType::Int { kind, obliv },
        TExprNode::Unary { op, part },
    )?)
}

/// `-`, `+` and `~` take an integer and promote it.
pub fn negate(
    alloc: Global,
    spot: Spot,
    op: OneOp,
    value: Boxed<TExpr>,
) -> Result<Boxed<Found>, TypeFault>
    ensures { Answers (negate spot op value) result }
{
    need_integer(spot, &value)?;
    negated(alloc, spot, op, value)
}

fn denied(alloc: Global, spot: Spot, value: Boxed<TExpr>) -> Result<Boxed<Found>, TypeFault>
    ensures { Answers (is spot (truth (hidden_in value.ty)) (node.Unary one.Not (converted (CType.Int IntKind.Bool (hidden_in value.ty)) value))) result }
{
    let obliv = is_hidden(&value.get().ty);
    let part = as_kind(alloc, IntKind::Bool, obliv, value)?;
    let op = OneOp::Not;
    Ok(new_value(alloc, spot, truth(obliv), TExprNode::Unary { op, part })?)
}

/// `!` takes an integer, converted to `Bool`.
pub fn deny(alloc: Global, spot: Spot, value: Boxed<TExpr>) -> Result<Boxed<Found>, TypeFault>
    ensures { Answers (deny spot value) result }
{
    need_integer(spot, &value)?;
    denied(alloc, spot, value)
}

fn followed(alloc: Global, spot: Spot, value: Boxed<TExpr>) -> Result<Boxed<Found>, TypeFault>
    ensures { Answers (place_is spot (target_in value.ty) (place.Deref value)) result }
{
    let ty = target_of(&value.get().ty)?;
    Ok(new_place(alloc, spot, ty, TPlaceNode::Deref(value))?)
}

/// `*` takes a pointer to something, and gives the place where it leads.
pub fn follow(alloc: Global, spot: Spot, value: Boxed<TExpr>) -> Result<Boxed<Found>, TypeFault>
    ensures { Answers (follow spot value) result }
{
    need_pointer(spot, &value)?;
    followed(alloc, spot, value)
}

fn referred(alloc: Global, spot: Spot, place: TPlace) -> Result<Boxed<Found>, TypeFault>
    ensures { Answers (is spot (CType.Pointer false place.ty) (node.AddressOf place)) result }
{
    let ty = pointer_to(alloc, share_type(&place.ty)?)?;
    Ok(new_value(alloc, spot, ty, TExprNode::AddressOf(place))?)
}

/// `&` takes a place, and gives a pointer to it.
pub fn refer(alloc: Global, spot: Spot, found: Boxed<Found>) -> Result<Boxed<Found>, TypeFault>
    ensures { Answers (refer spot found) result }
{
    let place = placed(spot, found)?;
    referred(alloc, spot, place)
}

/// An operator with one operand.
pub fn unary(
    alloc: Global,
    spot: Spot,
    op: UnaryOp,
    found: Boxed<Found>,
) -> Result<Boxed<Found>, TypeFault>
    ensures { Answers (unary spot op found) result }
{
    match op {
        UnaryOp::Address => refer(alloc, spot, found),
        UnaryOp::Neg => negate(alloc, spot, OneOp::Neg, value_of(alloc, found)?),
        UnaryOp::Plus => negate(alloc, spot, OneOp::Plus, value_of(alloc, found)?),
        UnaryOp::Flip => negate(alloc, spot, OneOp::Flip, value_of(alloc, found)?),
        UnaryOp::Not => deny(alloc, spot, value_of(alloc, found)?),
        UnaryOp::Deref => follow(alloc, spot, value_of(alloc, found)?),
    }
}

/// The value of an update, where the place has this type.
pub fn working(
    alloc: Global,
    op: BinaryOp,
    ty: &CType,
    value: Boxed<TExpr>,
) -> Result<Boxed<TExpr>, NoMemory>
    ensures { IfOk result (λ new. new ≡ working op ty.now value) }
{
    if !is_integer(ty) {
        return Ok(value);
    }
    let own = kind_of(&value.get().ty);
    if is_shift(op) {
        let hidden = is_hidden(&value.get().ty);
        return as_kind(alloc, promoted(own), hidden, value);
    }
    as_kind(alloc, common(kind_of(ty), own), is_hidden(ty), value)
}

/// The number 1 at this spot.
fn one_at(alloc: Global, spot: Spot) -> Result<Boxed<TExpr>, NoMemory>
    ensures { IfOk result (λ value. value ≡ record { spot = spot; ty = CType.Int IntKind.I32 false; node = node.Number (pos 1) }) }
{
    let ty = CType::Int {
        kind: IntKind::I32,
        obliv: false,
    };
    let node = TExprNode::Number(1);
    Ok(Boxed::new(alloc, TExpr { spot, ty, node })?)
}

/// An update of a place, which gives what is then in it, or where `old` what was there before.
fn put(
    alloc: Global,
    spot: Spot,
    op: BinaryOp,
    place: TPlace,
    value: Boxed<TExpr>,
    old: bool,
) -> Result<Boxed<Found>, TypeFault>
    ensures { Answers (is spot place.ty (node.Update op place (working op place.ty value) old)) result }
{
    let value = working(alloc, op, &place.ty, value)?;
    let ty = share_type(&place.ty)?;
    let node = TExprNode::Update {
        op,
        place,
        value,
        old,
    };
    Ok(new_value(alloc, spot, ty, node)?)
}

fn bumped(
    alloc: Global,
    spot: Spot,
    up: bool,
    before: bool,
    place: TPlace,
) -> Result<Boxed<Found>, TypeFault>
    ensures { Answers (is spot place.ty (node.Update (sum_op up) place (working (sum_op up) place.ty (record { spot = spot; ty = CType.Int IntKind.I32 false; node = node.Number (pos 1) })) (not before))) result }
{
    let value = one_at(alloc, spot)?;
    let op = if up { BinaryOp::Add } else { BinaryOp::Sub };
    put(alloc, spot, op, place, value, !before)
}

/// `++` and `--` add and subtract the number 1.
pub fn bump(
    alloc: Global,
    spot: Spot,
    up: bool,
    before: bool,
    found: Boxed<Found>,
) -> Result<Boxed<Found>, TypeFault>
    ensures { Answers (bump spot up before found) result }
{
    need_steps(spot, &found)?;
    let place = placed(spot, found)?;
    bumped(alloc, spot, up, before, place)
}

/// The type of what an operator gives, of the kind of its operands.
fn result_of(op: BinaryOp, kind: IntKind, obliv: bool) -> CType
    ensures { result ≡ result_of op (CType.Int kind obliv) }
{
    if is_comparison(op) {
        truth(obliv)
    } else {
        CType::Int { kind, obliv }
    }
}

fn shifted(
    alloc: Global,
    spot: Spot,
    op: BinaryOp,
    left: Boxed<TExpr>,
    right: Boxed<TExpr>,
) -> Result<Boxed<Found>, TypeFault>
    requires { IsTrue (is_shift op) }
    ensures { Answers (arithmetic spot op left right) result }
{
    let obliv = is_hidden(&left.get().ty) || is_hidden(&right.get().ty);
    let kind = promoted(kind_of(&left.get().ty));
    let amount = promoted(kind_of(&right.get().ty));
    let hidden = is_hidden(&right.get().ty);
    let left = as_kind(alloc, kind, obliv, left)?;
    let right = as_kind(alloc, amount, hidden, right)?;
    let node = TExprNode::Binary { op, left, right };
    Ok(new_value(alloc, spot, result_of(op, kind, obliv), node)?)
}

fn combined(
    alloc: Global,
    spot: Spot,
    op: BinaryOp,
    left: Boxed<TExpr>,
    right: Boxed<TExpr>,
) -> Result<Boxed<Found>, TypeFault>
    requires { IsFalse (is_shift op) }
    ensures { Answers (arithmetic spot op left right) result }
{
    let obliv = is_hidden(&left.get().ty) || is_hidden(&right.get().ty);
    let kind = common(kind_of(&left.get().ty), kind_of(&right.get().ty));
    let left = as_kind(alloc, kind, obliv, left)?;
    let right = as_kind(alloc, kind, obliv, right)?;
    let node = TExprNode::Binary { op, left, right };
    Ok(new_value(alloc, spot, result_of(op, kind, obliv), node)?)
}

/// An operation on integers.
fn arithmetic(
    alloc: Global,
    spot: Spot,
    op: BinaryOp,
    left: Boxed<TExpr>,
    right: Boxed<TExpr>,
) -> Result<Boxed<Found>, TypeFault>
    ensures { Answers (arithmetic spot op left right) result }
{
    if is_shift(op) {
        shifted(alloc, spot, op, left, right)
    } else {
        combined(alloc, spot, op, left, right)
    }
}

/// A pointer moved by an amount.
fn stepped(
    alloc: Global,
    spot: Spot,
    pointer: Boxed<TExpr>,
    amount: Boxed<TExpr>,
    back: bool,
    amount_first: bool,
) -> Result<Boxed<Found>, TypeFault>
    ensures { Answers (is spot pointer.ty (node.PointerStep pointer amount back amount_first)) result }
{
    let ty = share_type(&pointer.get().ty)?;
    let node = TExprNode::PointerStep {
        pointer,
        amount,
        back,
        amount_first,
    };
    Ok(new_value(alloc, spot, ty, node)?)
}

/// An operation on operands that its operator takes.
fn operated(
    alloc: Global,
    spot: Spot,
    op: BinaryOp,
    left: Boxed<TExpr>,
    right: Boxed<TExpr>,
) -> Result<Boxed<Found>, TypeFault>
    ensures { Answers (operated spot op left right) result }
{
    if both_integers(&left.get().ty, &right.get().ty) {
        return arithmetic(alloc, spot, op, left, right);
    }
    if is_equality(op) {
        let negated = is_unlike(op);
        let node = TExprNode::PointerSame {
            left,
            right,
            negated,
        };
        return Ok(new_value(alloc, spot, truth(false), node)?);
    }
    if is_pointer(&left.get().ty) {
        stepped(alloc, spot, left, right, is_minus(op), false)
    } else {
        stepped(alloc, spot, right, left, false, true)
    }
}

/// An operator with two operands.
pub fn operate(
    alloc: Global,
    spot: Spot,
    op: BinaryOp,
    left: Boxed<TExpr>,
    right: Boxed<TExpr>,
) -> Result<Boxed<Found>, TypeFault>
    ensures { Answers (operate spot op left right) result }
{
    need_operands(spot, op, &left, &right)?;
    operated(alloc, spot, op, left, right)
}

fn joined(
    alloc: Global,
    spot: Spot,
    all: bool,
    left: Boxed<TExpr>,
    right: Boxed<TExpr>,
) -> Result<Boxed<Found>, TypeFault>
    ensures { Answers (is spot (truth (hidden_in left.ty || hidden_in right.ty)) (node.Logic all (converted (CType.Int IntKind.Bool (hidden_in left.ty || hidden_in right.ty)) left) (converted (CType.Int IntKind.Bool (hidden_in left.ty || hidden_in right.ty)) right))) result }
{
    let obliv = is_hidden(&left.get().ty) || is_hidden(&right.get().ty);
    let left = as_kind(alloc, IntKind::Bool, obliv, left)?;
    let right = as_kind(alloc, IntKind::Bool, obliv, right)?;
    let node = TExprNode::Logic { all, left, right };
    Ok(new_value(alloc, spot, truth(obliv), node)?)
}

/// `&&` and `||` take integers, converted to `Bool`, and are hidden where one of them is.
pub fn logic(
    alloc: Global,
    spot: Spot,
    all: bool,
    left: Boxed<TExpr>,
    right: Boxed<TExpr>,
) -> Result<Boxed<Found>, TypeFault>
    ensures { Answers (logic spot all left right) result }
{
    need_integers(spot, &left, &right)?;
    joined(alloc, spot, all, left, right)
}

fn chosen(
    alloc: Global,
    spot: Spot,
    cond: Boxed<TExpr>,
    yes: Boxed<TExpr>,
    no: Boxed<TExpr>,
) -> Result<Boxed<Found>, TypeFault>
    ensures { let ty = CType.Int (common (kind_in yes.ty) (kind_in no.ty)) (hidden_in yes.ty || hidden_in no.ty) in Answers (is spot ty (node.Choose cond (converted ty yes) (converted ty no))) result }
{
    let obliv = is_hidden(&yes.get().ty) || is_hidden(&no.get().ty);
    let kind = common(kind_of(&yes.get().ty), kind_of(&no.get().ty));
    let yes = as_kind(alloc, kind, obliv, yes)?;
    let no = as_kind(alloc, kind, obliv, no)?;
    let node = TExprNode::Choose { cond, yes, no };
    Ok(new_value(alloc, spot, CType::Int { kind, obliv }, node)?)
}

/// `?:` takes a public condition and two integers, which get their common type.
pub fn choice(
    alloc: Global,
    spot: Spot,
    cond: Boxed<TExpr>,
    yes: Boxed<TExpr>,
    no: Boxed<TExpr>,
) -> Result<Boxed<Found>, TypeFault>
    ensures { Answers (choice spot cond yes no) result }
{
    need_choice(spot, &cond, &yes, &no)?;
    need_open(spot, &cond)?;
    chosen(alloc, spot, cond, yes, no)
}

fn stored(
    alloc: Global,
    spot: Spot,
    place: TPlace,
    value: Boxed<TExpr>,
) -> Result<Boxed<Found>, TypeFault>
    ensures { Answers (is spot place.ty (node.Assign place value)) result }
{
    let ty = share_type(&place.ty)?;
    Ok(new_value(alloc, spot, ty, TExprNode::Assign { place, value })?)
}

/// An assignment, whose value converts to the type of its place.
fn assigned(
    alloc: Global,
    spot: Spot,
    found: Boxed<Found>,
    value: Boxed<TExpr>,
) -> Result<Boxed<Found>, TypeFault>
    ensures { Answers (assigned spot found value) result }
{
    let place = placed(spot, found)?;
    let value = convert(alloc, &place.ty, value)?;
    stored(alloc, spot, place, value)
}

/// A compound assignment.
fn updated(
    alloc: Global,
    spot: Spot,
    op: BinaryOp,
    found: Boxed<Found>,
    value: Boxed<TExpr>,
) -> Result<Boxed<Found>, TypeFault>
    ensures { Answers (updated spot op found value) result }
{
    need_update(spot, op, &found, &value)?;
    let place = placed(spot, found)?;
    put(alloc, spot, op, place, value, false)
}

/// An assignment, or a compound one.
pub fn assign(
    alloc: Global,
    spot: Spot,
    op: Option<BinaryOp>,
    found: Boxed<Found>,
    value: Boxed<TExpr>,
) -> Result<Boxed<Found>, TypeFault>
    ensures { Answers (assign spot op found value) result }
{
    match op {
        None => assigned(alloc, spot, found, value),
        Some(op) => updated(alloc, spot, op, found, value),
    }
}

fn indexed(
    alloc: Global,
    spot: Spot,
    pointer: Boxed<TExpr>,
    amount: Boxed<TExpr>,
) -> Result<Boxed<Found>, TypeFault>
    ensures { Answers (place_is spot (target_in pointer.ty) (place.Index pointer amount)) result }
{
    let ty = target_of(&pointer.get().ty)?;
    Ok(new_place(alloc, spot, ty, TPlaceNode::Index { pointer, amount })?)
}

/// An element: of a pointer to something and a public integer.
pub fn index(
    alloc: Global,
    spot: Spot,
    pointer: Boxed<TExpr>,
    amount: Boxed<TExpr>,
) -> Result<Boxed<Found>, TypeFault>
    ensures { Answers (index spot pointer amount) result }
{
    need_element(spot, &pointer, &amount)?;
    need_open(spot, &amount)?;
    indexed(alloc, spot, pointer, amount)
}

fn turned(
    alloc: Global,
    spot: Spot,
    ty: CType,
    value: Boxed<TExpr>,
) -> Result<Boxed<Found>, TypeFault>
    ensures { Answers (is spot ty (node.Convert value)) result }
{
    Ok(new_value(alloc, spot, ty, TExprNode::Convert(value))?)
}

/// A cast names an integer type, and its part converts to it.
pub fn cast(
    alloc: Global,
    spot: Spot,
    ty: CType,
    value: Boxed<TExpr>,
) -> Result<Boxed<Found>, TypeFault>
    ensures { Answers (cast spot ty value) result }
{
    need_integer_type(spot, &ty)?;
    need_conversion(&value, &ty)?;
    turned(alloc, spot, ty, value)
}
