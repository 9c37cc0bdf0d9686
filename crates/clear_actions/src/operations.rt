//! Tests, operators and conversions, public and hidden.

ghost use Rattle.oc_walk.specs.Operations.{tests, condition, publicly_one, hiddenly_one, unaries, publicly, hiddenly, operates, turns};
ghost use Rattle.std.specs.Prelude.{◌≡◌, ◌&&◌, ◌||◌};
ghost use Rattle.oc_values.specs.Kinds.{is_shift as shifts, same_kind as alike_kinds};
ghost use Rattle.clear_actions.specs.Acting.{bare, mem_of, Gives};

use crate::cells::{odd, trap};
use crate::kinds::{is_shift, kind_of_result, one_kind, result_kind};
use crate::machine::{Fault, Store};
use oc_cells::TrapKind;
use oc_source::Spot;
use oc_values::{BinaryOp, IntKind, OneOp, convert, operate, operate_one, public_op, same_kind};
use oc_walk::Value;

/// A public condition, which is true where its integer isn't 0.
pub fn test(store: &Store<'_>, spot: Spot, value: Value<i128>) -> Result<bool, Fault>
    ensures { Gives (tests bare spot value (mem_of store.now)) result (mem_of store.now) }
{
    match value {
        Value::Int(_, n) => Ok(n != 0),
        _ => Err(odd(spot)),
    }
}

/// A hidden condition: its integer.
pub fn hidden_condition(store: &Store<'_>, spot: Spot, value: Value<i128>) -> Result<i128, Fault>
    ensures { Gives (condition bare spot value (mem_of store.now)) result (mem_of store.now) }
{
    match value {
        Value::Hidden(kind, n) => {
            if same_kind(IntKind::Bool, kind) {
                Ok(n)
            } else {
                Err(odd(spot))
            }
        }
        _ => Err(odd(spot)),
    }
}

/// An operator with one operand of the kind, hidden or not.
pub fn operate_unary(
    store: &Store<'_>,
    spot: Spot,
    op: OneOp,
    kind: IntKind,
    hidden: bool,
    value: Value<i128>,
) -> Result<Value<i128>, Fault>
    ensures { Gives (unaries bare spot op kind hidden value (mem_of store.now)) result (mem_of store.now) }
{
    if hidden {
        hidden_unary(store, spot, op, kind, value)
    } else {
        public_unary(store, spot, op, kind, value)
    }
}

/// A public operator with one operand.
fn public_unary(
    store: &Store<'_>,
    spot: Spot,
    op: OneOp,
    kind: IntKind,
    value: Value<i128>,
) -> Result<Value<i128>, Fault>
    ensures { Gives (publicly_one bare spot op kind value (mem_of store.now)) result (mem_of store.now) }
{
    let Value::Int(of, n) = value else {
        return Err(odd(spot));
    };
    if !same_kind(kind, of) {
        return Err(odd(spot));
    }
    Ok(Value::Int(one_kind(op, kind), operate_one(op, kind, n)))
}

/// A hidden operator with one operand.
fn hidden_unary(
    store: &Store<'_>,
    spot: Spot,
    op: OneOp,
    kind: IntKind,
    value: Value<i128>,
) -> Result<Value<i128>, Fault>
    ensures { Gives (hiddenly_one bare spot op kind value (mem_of store.now)) result (mem_of store.now) }
{
    let Value::Hidden(of, n) = value else {
        return Err(odd(spot));
    };
    if !same_kind(kind, of) {
        return Err(odd(spot));
    }
    Ok(Value::Hidden(kind, operate_one(op, kind, n)))
}

/// Whether operands of these kinds are those of an operator of a kind, where a shift's right one may have another.
fn kinds_fit(op: BinaryOp, kind: IntKind, left: IntKind, right: IntKind) -> bool
    ensures { result ≡ (alike_kinds kind left && (shifts op || alike_kinds kind right)) }
{
    same_kind(kind, left) && (is_shift(op) || same_kind(kind, right))
}

/// A public operator with two operands, whose divisor may be zero.
fn public_binary(
    store: &Store<'_>,
    spot: Spot,
    op: BinaryOp,
    kind: IntKind,
    left: Value<i128>,
    right: Value<i128>,
) -> Result<Value<i128>, Fault>
    ensures { Gives (publicly bare spot op kind left right (mem_of store.now)) result (mem_of store.now) }
{
    let (Value::Int(l, x), Value::Int(m, y)) = (left, right) else {
        return Err(odd(spot));
    };
    if !kinds_fit(op, kind, l, m) {
        return Err(odd(spot));
    }
    match public_op(op, kind, x, y) {
        Ok(n) => Ok(Value::Int(kind_of_result(op, kind), n)),
        Err(_) => Err(trap(TrapKind::Z1, spot)),
    }
}

/// A hidden operator with two operands; a shift's right one may be public.
fn hidden_binary(
    store: &Store<'_>,
    spot: Spot,
    op: BinaryOp,
    kind: IntKind,
    left: Value<i128>,
    right: Value<i128>,
) -> Result<Value<i128>, Fault>
    ensures { Gives (hiddenly bare spot op kind left right (mem_of store.now)) result (mem_of store.now) }
{
    match (left, right) {
        (Value::Hidden(l, x), Value::Hidden(m, y)) => {
            if kinds_fit(op, kind, l, m) {
                Ok(Value::Hidden(result_kind(op, kind), operate(op, kind, x, y)))
            } else {
                Err(odd(spot))
            }
        }
        (Value::Hidden(l, x), Value::Int(_, n)) => {
            if same_kind(kind, l) && is_shift(op) {
                Ok(Value::Hidden(kind, operate(op, kind, x, n)))
            } else {
                Err(odd(spot))
            }
        }
        _ => Err(odd(spot)),
    }
}

/// An operator with two operands of the kind, hidden or not.
pub fn operate_binary(
    store: &Store<'_>,
    spot: Spot,
    op: BinaryOp,
    kind: IntKind,
    hidden: bool,
    left: Value<i128>,
    right: Value<i128>,
) -> Result<Value<i128>, Fault>
    ensures { Gives (operates bare spot op kind hidden left right (mem_of store.now)) result (mem_of store.now) }
{
    if hidden {
        hidden_binary(store, spot, op, kind, left, right)
    } else {
        public_binary(store, spot, op, kind, left, right)
    }
}

/// A value of the first kind converted to the second; a public one is lifted where the second is hidden.
pub fn turn(
    store: &Store<'_>,
    spot: Spot,
    from: IntKind,
    to: IntKind,
    lift: bool,
    value: Value<i128>,
) -> Result<Value<i128>, Fault>
    ensures { Gives (turns bare spot from to lift value (mem_of store.now)) result (mem_of store.now) }
{
    match value {
        Value::Int(of, n) => {
            if !same_kind(from, of) {
                Err(odd(spot))
            } else if lift {
                Ok(Value::Hidden(to, convert(n, to)))
            } else {
                Ok(Value::Int(to, convert(n, to)))
            }
        }
        Value::Hidden(of, n) => {
            if same_kind(from, of) {
                Ok(Value::Hidden(to, convert(n, to)))
            } else {
                Err(odd(spot))
            }
        }
        _ => Err(odd(spot)),
    }
}
