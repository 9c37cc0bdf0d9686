//! The operations on integers: each gives an answer for any two numbers, as it is left at the kind.

ghost use Rattle.std.specs.Prelude.{◌≡◌, ◌<◌, IfOk};
ghost use Rattle.oc_values.specs.declared.integers.IntKind.{IntKind};
ghost use Rattle.oc_values.specs.Integers.{operate, operate_public, divides, width, shift_amount, IsOfKind, kind_of_result, quotient_by_zero, negate as negated, flip as flipped};
ghost use Rattle.oc_values.specs.Kinds.{operate_one, result_kind};

use crate::integers::{BinaryOp, IntKind, OneOp, ZeroDivisor, bits_of, from_bits, truth, wrap};

/// An operation on any two numbers. A comparison gives 1 or 0. A quotient by 0 is all ones without a sign,
/// and with one -1, or 1 of a negative dividend; a remainder by 0 is the dividend. The amount of a shift
/// counts modulo the width.
pub fn operate(op: BinaryOp, kind: IntKind, left: i128, right: i128) -> i128
    ensures value { result ≡ operate op kind left right }
    ensures of_kind { IsOfKind (result_kind op kind) result }
{
    match op {
        BinaryOp::Add => add(kind, left, right),
        BinaryOp::Sub => subtract(kind, left, right),
        BinaryOp::Mul => multiply(kind, left, right),
        BinaryOp::Div => divide(kind, left, right),
        BinaryOp::Rem => remainder(kind, left, right),
        BinaryOp::Shl => shift_left(kind, left, right),
        BinaryOp::Shr => shift_right(kind, left, right),
        BinaryOp::And => bitwise_and(kind, left, right),
        BinaryOp::Or => bitwise_or(kind, left, right),
        BinaryOp::Xor => bitwise_xor(kind, left, right),
        BinaryOp::Less => truth(left < right),
        BinaryOp::LessEq => truth(left <= right),
        BinaryOp::Greater => truth(left > right),
        BinaryOp::GreaterEq => truth(left >= right),
        BinaryOp::Equal => truth(left == right),
        BinaryOp::NotEqual => truth(left != right),
    }
}

/// What `operate` gives, but of a quotient or a remainder by 0 no answer.
pub fn public_op(op: BinaryOp, kind: IntKind, left: i128, right: i128) -> Result<i128, ZeroDivisor>
    ensures value { result ≡ operate_public op kind left right }
    ensures of_kind { IfOk result (λ n. IsOfKind (kind_of_result op kind) n) }
{
    if divides(op) && right == 0 {
        return Err(ZeroDivisor);
    }
    Ok(operate(op, kind, left, right))
}

/// An operation on any number; what it gives of a value of the kind is one again.
pub fn operate_one(op: OneOp, kind: IntKind, value: i128) -> i128
    ensures value { result ≡ operate_one op kind value }
    ensures of_kind { IsOfKind kind value → IsOfKind kind result }
{
    match op {
        OneOp::Neg => negate(kind, value),
        OneOp::Plus => value,
        OneOp::Not => truth(value == 0),
        OneOp::Flip => flip(kind, value),
    }
}

fn divides(op: BinaryOp) -> bool
    ensures { result ≡ divides op }
{
    matches!(op, BinaryOp::Div | BinaryOp::Rem)
}

fn add(kind: IntKind, left: i128, right: i128) -> i128
    ensures { result ≡ operate BinaryOp.Add kind left right }
{
    wrap(kind, left.wrapping_add(right))
}

fn subtract(kind: IntKind, left: i128, right: i128) -> i128
    ensures { result ≡ operate BinaryOp.Sub kind left right }
{
    wrap(kind, left.wrapping_sub(right))
}

fn multiply(kind: IntKind, left: i128, right: i128) -> i128
    ensures { result ≡ operate BinaryOp.Mul kind left right }
{
    wrap(kind, left.wrapping_mul(right))
}

// The quotient by 0 before it is wrapped.
fn by_zero(signed: bool, left: i128) -> i128
    ensures { result ≡ quotient_by_zero signed left }
{
    if signed && left < 0 { 1 } else { -1 }
}

fn divide(kind: IntKind, left: i128, right: i128) -> i128
    ensures { result ≡ operate BinaryOp.Div kind left right }
{
    if right == 0 {
        return wrap(kind, by_zero(kind.is_signed(), left));
    }
    wrap(kind, left.wrapping_div(right))
}

fn remainder(kind: IntKind, left: i128, right: i128) -> i128
    ensures { result ≡ operate BinaryOp.Rem kind left right }
{
    if right == 0 {
        return wrap(kind, left);
    }
    wrap(kind, left.wrapping_rem(right))
}

// The amount of a shift counts modulo the width.
fn shift_amount(kind: IntKind, amount: i128) -> u32
    ensures value { result ≡ shift_amount (width kind) amount }
    ensures below { result < width kind }
{
    amount.rem_euclid(i128::from(kind.width())) as u32
}

fn shift_left(kind: IntKind, left: i128, right: i128) -> i128
    ensures { result ≡ operate BinaryOp.Shl kind left right }
{
    wrap(kind, left.wrapping_mul(1 << shift_amount(kind, right)))
}

fn shift_right(kind: IntKind, left: i128, right: i128) -> i128
    ensures { result ≡ operate BinaryOp.Shr kind left right }
{
    wrap(kind, left.div_euclid(1 << shift_amount(kind, right)))
}

fn bitwise_and(kind: IntKind, left: i128, right: i128) -> i128
    ensures { result ≡ operate BinaryOp.And kind left right }
{
    from_bits(kind, bits_of(kind, left) & bits_of(kind, right))
}

fn bitwise_or(kind: IntKind, left: i128, right: i128) -> i128
    ensures { result ≡ operate BinaryOp.Or kind left right }
{
    from_bits(kind, bits_of(kind, left) | bits_of(kind, right))
}

fn bitwise_xor(kind: IntKind, left: i128, right: i128) -> i128
    ensures { result ≡ operate BinaryOp.Xor kind left right }
{
    from_bits(kind, bits_of(kind, left) ^ bits_of(kind, right))
}

fn negate(kind: IntKind, value: i128) -> i128
    ensures { result ≡ negated kind value }
{
    wrap(kind, value.wrapping_neg())
}

fn flip(kind: IntKind, value: i128) -> i128
    ensures { result ≡ flipped kind value }
{
    wrap(kind, (-1i128).wrapping_sub(value))
}
