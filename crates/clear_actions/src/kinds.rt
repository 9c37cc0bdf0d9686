//! Kinds of results.

ghost use Rattle.std.specs.Prelude.{◌≡◌};
ghost use Rattle.oc_values.specs.Integers.{kind_of_result as kind_answered, number_of as numbered};
ghost use Rattle.oc_values.specs.Kinds.{is_shift as shifts, one_kind as kind_of_one, result_kind as kind_given};

use oc_values::{BinaryOp, IntKind, OneOp};

/// Whether an operator is a shift.
pub fn is_shift(op: BinaryOp) -> bool
    ensures { result ≡ shifts op }
{
    matches!(op, BinaryOp::Shl | BinaryOp::Shr)
}

/// The kind of a hidden result: of a comparison Bool, else that of its operands.
pub fn result_kind(op: BinaryOp, kind: IntKind) -> IntKind
    ensures { result ≡ kind_given op kind }
{
    match op {
        BinaryOp::Less
        | BinaryOp::LessEq
        | BinaryOp::Greater
        | BinaryOp::GreaterEq
        | BinaryOp::Equal
        | BinaryOp::NotEqual => IntKind::Bool,
        _ => kind,
    }
}

/// The kind of a public result: of a comparison I32, else that of its operands.
pub fn kind_of_result(op: BinaryOp, kind: IntKind) -> IntKind
    ensures { result ≡ kind_answered op kind }
{
    match op {
        BinaryOp::Less
        | BinaryOp::LessEq
        | BinaryOp::Greater
        | BinaryOp::GreaterEq
        | BinaryOp::Equal
        | BinaryOp::NotEqual => IntKind::I32,
        _ => kind,
    }
}

/// The kind of a public result of an operator with one operand.
pub fn one_kind(op: OneOp, kind: IntKind) -> IntKind
    ensures { result ≡ kind_of_one op kind }
{
    match op {
        OneOp::Not => IntKind::I32,
        _ => kind,
    }
}

/// A truth value as a number.
pub fn number_of(holds: bool) -> i128
    ensures { result ≡ numbered holds }
{
    if holds { 1 } else { 0 }
}
