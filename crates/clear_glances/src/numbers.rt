//! Public integers that fit 64 bits.

ghost use Rattle.std.specs.Prelude.{◌≡◌, if◌then◌else◌};
ghost use Rattle.oc_values.specs.Kinds.{is_shift as shifts, promoted as promoted_kind};
ghost use Rattle.clear_glances.specs.Glances.{IsPublic, Fits, IsOperated};
ghost use Rattle.clear_glances.specs.Writes.{IsTurned, IsRenewed};

use clear_actions::kinds::{is_shift, kind_of_result};
use oc_cells::CType;
use oc_values::{BinaryOp, IntKind, convert, promoted, public_op, same_kind};

/// The kind of a public integer type.
pub fn public_kind(ty: &CType) -> Option<IntKind>
    ensures { IsPublic ty.now result }
{
    match ty {
        CType::Int { kind, obliv: false } => Some(*kind),
        _ => None,
    }
}

/// The same number, if it fits.
pub fn narrow(n: i128) -> Option<i64>
    ensures { Fits n result }
{
    i64::try_from(n).ok()
}

/// What an operator on two numbers of these kinds gives, where that is a number of the kind.
pub fn operated(
    kind: IntKind,
    op: BinaryOp,
    left: IntKind,
    right: IntKind,
    x: i64,
    y: i64,
) -> Option<i64>
    ensures { IsOperated kind op left right x y result }
{
    if !same_kind(left, right) || !same_kind(kind_of_result(op, left), kind) {
        return None;
    }
    match public_op(op, left, i128::from(x), i128::from(y)) {
        Ok(n) => narrow(n),
        Err(_) => None,
    }
}

/// A number of the first kind as one of the second.
fn turned(from: IntKind, to: IntKind, n: i64) -> Option<i64>
    ensures { IsTurned from to n result }
{
    if same_kind(from, to) {
        return Some(n);
    }
    narrow(convert(i128::from(n), to))
}

/// The kind at which an update of a place of the first kind by a value of the second is computed.
fn working_kind(op: BinaryOp, kind: IntKind, of: IntKind) -> IntKind
    ensures { result ≡ (if shifts op then promoted_kind kind else of) }
{
    if is_shift(op) { promoted(kind) } else { of }
}

/// What an update of a place of the first kind makes of the number in it, by an operand of the second kind.
pub fn renewed(op: BinaryOp, kind: IntKind, of: IntKind, x: i64, y: i64) -> Option<i64>
    ensures { IsRenewed op kind of x y result }
{
    let work = working_kind(op, kind, of);
    let left = turned(kind, work, x)?;
    let n = operated(work, op, work, of, left, y)?;
    turned(work, kind, n)
}
