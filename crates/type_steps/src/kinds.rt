//! Tests of operators.

ghost use Rattle.std.specs.Prelude.{◌≡◌};
ghost use Rattle.type_rules.specs.Judging.{is_comparison, is_shift, is_minus, is_add, is_equality, is_unlike};

use oc_values::BinaryOp;

/// Whether an operator compares.
pub fn is_comparison(op: BinaryOp) -> bool
    ensures { result ≡ is_comparison op }
{
    matches!(
        op,
        BinaryOp::Less
            | BinaryOp::LessEq
            | BinaryOp::Greater
            | BinaryOp::GreaterEq
            | BinaryOp::Equal
            | BinaryOp::NotEqual
    )
}

/// Whether an operator shifts.
pub fn is_shift(op: BinaryOp) -> bool
    ensures { result ≡ is_shift op }
{
    matches!(op, BinaryOp::Shl | BinaryOp::Shr)
}

/// Whether an operator is the difference.
pub fn is_minus(op: BinaryOp) -> bool
    ensures { result ≡ is_minus op }
{
    matches!(op, BinaryOp::Sub)
}

/// Whether an operator is the sum.
pub fn is_add(op: BinaryOp) -> bool
    ensures { result ≡ is_add op }
{
    matches!(op, BinaryOp::Add)
}

/// Whether an operator asks whether operands are the same, or not the same.
pub fn is_equality(op: BinaryOp) -> bool
    ensures { result ≡ is_equality op }
{
    matches!(op, BinaryOp::Equal | BinaryOp::NotEqual)
}

/// Whether an operator asks whether operands are not the same.
pub fn is_unlike(op: BinaryOp) -> bool
    ensures { result ≡ is_unlike op }
{
    matches!(op, BinaryOp::NotEqual)
}
