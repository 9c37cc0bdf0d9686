//! Whether two kinds are the same, and as which kind operands count.

ghost use Rattle.std.specs.Prelude.{◌≡◌};
ghost use Rattle.oc_values.specs.declared.integers.IntKind.{IntKind};
ghost use Rattle.oc_values.specs.Kinds.{same_kind, promoted, wider, common};

use crate::integers::IntKind;

/// Whether two kinds are the same.
pub fn same_kind(a: IntKind, b: IntKind) -> bool
    ensures { result ≡ same_kind a b }
{
    a as u8 == b as u8
}

/// The kind as which an operand counts (the integer promotions of C): at least `I32`.
pub fn promoted(kind: IntKind) -> IntKind
    ensures { result ≡ promoted kind }
{
    match kind {
        IntKind::Bool | IntKind::I8 | IntKind::U8 | IntKind::I16 | IntKind::U16 => IntKind::I32,
        IntKind::I32 | IntKind::U32 | IntKind::I64 | IntKind::U64 => kind,
    }
}

// Of two kinds the wider, and of equal width the one without a sign.
fn wider(left: IntKind, right: IntKind) -> IntKind
    ensures { result ≡ wider left right }
{
    if left.width() < right.width() {
        return right;
    }
    if left.width() == right.width() && left.is_signed() {
        return right;
    }
    left
}

/// The kind that two operands have in common (the usual arithmetic conversions of C): of both promoted kinds
/// the wider, and of equal width the one without a sign.
pub fn common(left: IntKind, right: IntKind) -> IntKind
    ensures value { result ≡ common left right }
    ensures either_way { result ≡ common right left }
{
    wider(promoted(left), promoted(right))
}
