//! The gates of any event.

ghost use Rattle.std.specs.Prelude.{◌≡◌, ◌≤◌, ◌++◌, length};
ghost use Rattle.gate_core.specs.Backends.{most_ands};
ghost use Rattle.oc_values.specs.Integers.{width};
ghost use Rattle.word_circuits.specs.Fragments.{Performs, HasRoomFor, ands_of, word_op};
ghost use Rattle.word_circuits.specs.Operators.{binary, unary, conversion};
ghost use Rattle.event_gates.specs.Gating.{operation_of, width_of, inputs_of, event_ands};

use crate::events::Gated;
use crate::operands::{amount_of, right_of, wire_of, word_of};
use crate::operations::{convert, operate, operate_one};
use gate_core::Gates;
use oc_values::{BinaryOp, IntKind, OneOp};
use word_circuits::{Word, WordOp, ands, select, shift_known};

/// Makes the gates of an event, over its operands' wires: its word.
pub fn fire<G: Gates>(gates: &mut G, event: &Gated<Word<G::Wire>>) -> Word<G::Wire>
    requires { HasRoomFor G.calls G.room gates.old (operation_of event.now) (width_of event.now) (inputs_of G.calls gates.old event.now) }
    ensures { Performs G.calls G.stands G.made G.room (operation_of event.now) (width_of event.now) (inputs_of G.calls gates.old event.now) gates.old result gates.new }
{
    match event {
        Gated::Binary {
            op,
            kind,
            left,
            right,
        } => {
            let x = word_of(gates, *kind, left);
            let y = right_of(gates, *op, *kind, right);
            operate(gates, *op, kind.is_signed(), &x, &y)
        }
        Gated::One { op, kind, operand } => {
            let x = word_of(gates, *kind, operand);
            operate_one(gates, *op, &x)
        }
        Gated::Turn { from, to, operand } => {
            let x = word_of(gates, *from, operand);
            convert(gates, *from, *to, &x)
        }
        Gated::ShiftBy {
            left,
            kind,
            operand,
            amount,
        } => {
            let x = word_of(gates, *kind, operand);
            shift_known(
                gates,
                &x,
                amount_of(*kind, *amount),
                *left,
                kind.is_signed(),
            )
        }
        Gated::Pick {
            kind,
            enable,
            new,
            old,
        } => {
            let wire = wire_of(gates, enable);
            let new = word_of(gates, *kind, new);
            let old = word_of(gates, *kind, old);
            select(gates, wire, &new, &old)
        }
    }
}

/// The name under which the gates of an operator on two words are counted.
fn binary_name(op: BinaryOp, signed: bool) -> WordOp
    ensures { result ≡ word_op (binary op signed) }
{
    match op {
        BinaryOp::Add => WordOp::Add,
        BinaryOp::Sub => WordOp::Subtract,
        BinaryOp::Mul => WordOp::Multiply,
        BinaryOp::Div => {
            if signed {
                WordOp::SignedQuotient
            } else {
                WordOp::Quotient
            }
        }
        BinaryOp::Rem => {
            if signed {
                WordOp::SignedRemainder
            } else {
                WordOp::Remainder
            }
        }
        BinaryOp::Shl | BinaryOp::Shr => WordOp::ShiftWord,
        BinaryOp::And => WordOp::Meet,
        BinaryOp::Or => WordOp::Either,
        BinaryOp::Xor => WordOp::Differ,
        BinaryOp::Less | BinaryOp::LessEq | BinaryOp::Greater | BinaryOp::GreaterEq => WordOp::Less,
        BinaryOp::Equal | BinaryOp::NotEqual => WordOp::Equal,
    }
}

/// The same of an operator on one word.
fn unary_name(op: OneOp) -> WordOp
    ensures { result ≡ word_op (unary op) }
{
    match op {
        OneOp::Neg => WordOp::Negate,
        OneOp::Plus => WordOp::Resize,
        OneOp::Not => WordOp::ToBool,
        OneOp::Flip => WordOp::Flip,
    }
}

/// The same of a conversion.
fn conversion_name(from: IntKind, to: IntKind) -> WordOp
    ensures { result ≡ word_op (conversion from to) }
{
    match to {
        IntKind::Bool => WordOp::ToBool,
        _ => WordOp::Resize,
    }
}

/// How many ANDs an operation has on words of a kind.
fn count(op: WordOp, kind: IntKind) -> u32
    ensures count { result ≡ ands_of op (width kind) }
    ensures most { result ≤ most_ands }
{
    ands(op, kind.width() as u8)
}

/// How many ANDs an event makes.
pub fn event_ands<A>(event: &Gated<A>) -> u32
    ensures count { result ≡ event_ands event.now }
    ensures most { result ≤ most_ands }
{
    match event {
        Gated::Binary { op, kind, .. } => count(binary_name(*op, kind.is_signed()), *kind),
        Gated::One { op, kind, .. } => count(unary_name(*op), *kind),
        Gated::Turn { from, to, .. } => count(conversion_name(*from, *to), *from),
        Gated::ShiftBy { kind, .. } => count(WordOp::ShiftKnown, *kind),
        Gated::Pick { kind, .. } => count(WordOp::Select, *kind),
    }
}
