//! The operations of operators and conversions on words.

ghost use Rattle.std.specs.Prelude.{◌≡◌, ◌++◌, length};
ghost use Rattle.oc_values.specs.Integers.{width, is_signed};
ghost use Rattle.word_circuits.specs.Fragments.{Performs, HasRoomFor};
ghost use Rattle.word_circuits.specs.Operators.{binary, unary, conversion};

use gate_core::Gates;
use oc_values::{BinaryOp, IntKind, OneOp};
use word_circuits::{
    Word, add, differ, either, equal, flip, greater, greater_equal, is_zero, less, less_equal,
    meet, multiply, negate, quotient, remainder, resize, shift_word, subtract, to_bool, unequal,
};

/// Makes the gates of an operator on two words.
pub fn operate<G: Gates>(
    gates: &mut G,
    op: BinaryOp,
    signed: bool,
    x: &Word<G::Wire>,
    y: &Word<G::Wire>,
) -> Word<G::Wire>
    requires same { length x.now ≡ length y.now }
    requires room { HasRoomFor G.calls G.room gates.old (binary op signed) (length x.now) (x.now ++ y.now) }
    ensures { Performs G.calls G.stands G.made G.room (binary op signed) (length x.now) (x.now ++ y.now) gates.old result gates.new }
{
    match op {
        BinaryOp::Add => add(gates, x, y),
        BinaryOp::Sub => subtract(gates, x, y),
        BinaryOp::Mul => multiply(gates, x, y),
        BinaryOp::Div => quotient(gates, x, y, signed),
        BinaryOp::Rem => remainder(gates, x, y, signed),
        BinaryOp::Shl => shift_word(gates, x, y, true, signed),
        BinaryOp::Shr => shift_word(gates, x, y, false, signed),
        BinaryOp::And => meet(gates, x, y),
        BinaryOp::Or => either(gates, x, y),
        BinaryOp::Xor => differ(gates, x, y),
        BinaryOp::Less => less(gates, x, y, signed),
        BinaryOp::LessEq => less_equal(gates, x, y, signed),
        BinaryOp::Greater => greater(gates, x, y, signed),
        BinaryOp::GreaterEq => greater_equal(gates, x, y, signed),
        BinaryOp::Equal => equal(gates, x, y),
        BinaryOp::NotEqual => unequal(gates, x, y),
    }
}

/// Makes the gates of an operator on one word.
pub fn operate_one<G: Gates>(gates: &mut G, op: OneOp, x: &Word<G::Wire>) -> Word<G::Wire>
    requires { HasRoomFor G.calls G.room gates.old (unary op) (length x.now) x.now }
    ensures { Performs G.calls G.stands G.made G.room (unary op) (length x.now) x.now gates.old result gates.new }
{
    match op {
        OneOp::Neg => negate(gates, x),
        OneOp::Plus => x.copy(),
        OneOp::Not => is_zero(gates, x),
        OneOp::Flip => flip(gates, x),
    }
}

/// Makes the gates of a conversion from a kind to another.
pub fn convert<G: Gates>(
    gates: &mut G,
    from: IntKind,
    to: IntKind,
    x: &Word<G::Wire>,
) -> Word<G::Wire>
    requires { HasRoomFor G.calls G.room gates.old (conversion from to) (length x.now) x.now }
    ensures { Performs G.calls G.stands G.made G.room (conversion from to) (length x.now) x.now gates.old result gates.new }
{
    let signed = from.is_signed();
    match to {
        IntKind::Bool => to_bool(gates, x),
        IntKind::I8 | IntKind::U8 => resize(gates, x, 8, signed),
        IntKind::I16 | IntKind::U16 => resize(gates, x, 16, signed),
        IntKind::I32 | IntKind::U32 => resize(gates, x, 32, signed),
        IntKind::I64 | IntKind::U64 => resize(gates, x, 64, signed),
    }
}
