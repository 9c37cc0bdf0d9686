//! Events that make gates.

use oc_values::{BinaryOp, IntKind, OneOp};

/// A hidden value: an integer of a kind that both parties know, or what an event made.
#[derive(Debug, Drop)]
pub enum Operand<A> {
    Fix(IntKind, i128),
    Of(A),
}

/// An event that makes gates. `A` is what stands for what an earlier event made.
#[derive(Debug, Drop)]
pub enum Gated<A> {
    /// An operator with two operands of the kind; a shift's right one may have another.
    Binary {
        op: BinaryOp,
        kind: IntKind,
        left: Operand<A>,
        right: Operand<A>,
    },
    /// An operator with one operand of the kind.
    One {
        op: OneOp,
        kind: IntKind,
        operand: Operand<A>,
    },
    /// A value of the first kind converted to the second.
    Turn {
        from: IntKind,
        to: IntKind,
        operand: Operand<A>,
    },
    /// A shift, to the left or to the right, by a public amount, which counts modulo the width.
    ShiftBy {
        left: bool,
        kind: IntKind,
        operand: Operand<A>,
        amount: i128,
    },
    /// The new value where the enable is 1, else the old one.
    Pick {
        kind: IntKind,
        enable: Operand<A>,
        new: Operand<A>,
        old: Operand<A>,
    },
}
