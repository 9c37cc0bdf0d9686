//! Comparisons that are others, turned.

ghost use Rattle.std.specs.Prelude.{◌≡◌, ◌++◌, length, ℤ, Bool, false};
ghost use Rattle.oc_values.specs.declared.integers.BinaryOp.TheVariants.{LessEq, Greater, GreaterEq, NotEqual};
ghost use Rattle.oc_values.specs.Integers.{operate_bits, number_of, is_zero};
ghost use Rattle.gate_core.specs.Circuit.{Plays};
ghost use Rattle.word_circuits.specs.Chains.{other_word};
ghost use Rattle.word_circuits.specs.Integers.{Means};
ghost use Rattle.word_circuits.specs.Fragments.{Performs, HasRoomFor};
ghost use Rattle.word_circuits.specs.Fragments.Operation.{op_less_equal, op_greater, op_greater_equal, op_unequal, op_is_zero};

use crate::Word;
use crate::comparisons::{all_alike, any_true, less_wires};
use crate::wires::wire;
use gate_core::Gates;

/// Whether x is above y, as a word of one wire: whether y is below x. `signed` says whether their top bits
/// are signs.
pub fn greater<G: Gates>(
    gates: &mut G,
    x: &Word<G::Wire>,
    y: &Word<G::Wire>,
    signed: bool,
) -> Word<G::Wire>
    requires same { length x.now ≡ length y.now }
    requires room { HasRoomFor G.calls G.room gates.old (op_greater signed) (length x.now) (x.now ++ y.now) }
    ensures performs { Performs G.calls G.stands G.made G.room (op_greater signed) (length x.now) (x.now ++ y.now) gates.old result gates.new }
    ensures means { (a b : ℤ) → Means (G.stands gates.old) signed x.now a → Means (G.stands gates.old) signed y.now b → Means (G.stands gates.new) false result (operate_bits Greater signed (length x.now) a b) }
    ensures width { length result ≡ 1 }
{
    less_wires(gates, y.wires(), x.wires(), signed)
}

/// Whether x is at most y, as a word of one wire: whether y isn't below x. `signed` says whether their top
/// bits are signs.
pub fn less_equal<G: Gates>(
    gates: &mut G,
    x: &Word<G::Wire>,
    y: &Word<G::Wire>,
    signed: bool,
) -> Word<G::Wire>
    requires same { length x.now ≡ length y.now }
    requires room { HasRoomFor G.calls G.room gates.old (op_less_equal signed) (length x.now) (x.now ++ y.now) }
    ensures performs { Performs G.calls G.stands G.made G.room (op_less_equal signed) (length x.now) (x.now ++ y.now) gates.old result gates.new }
    ensures means { (a b : ℤ) → Means (G.stands gates.old) signed x.now a → Means (G.stands gates.old) signed y.now b → Means (G.stands gates.new) false result (operate_bits LessEq signed (length x.now) a b) }
    ensures width { length result ≡ 1 }
{
    let above = less_wires(gates, y.wires(), x.wires(), signed);
    other_bit(gates, &above)
}

/// Whether x is at least y, as a word of one wire: whether x isn't below y. `signed` says whether their top
/// bits are signs.
pub fn greater_equal<G: Gates>(
    gates: &mut G,
    x: &Word<G::Wire>,
    y: &Word<G::Wire>,
    signed: bool,
) -> Word<G::Wire>
    requires same { length x.now ≡ length y.now }
    requires room { HasRoomFor G.calls G.room gates.old (op_greater_equal signed) (length x.now) (x.now ++ y.now) }
    ensures performs { Performs G.calls G.stands G.made G.room (op_greater_equal signed) (length x.now) (x.now ++ y.now) gates.old result gates.new }
    ensures means { (a b : ℤ) → Means (G.stands gates.old) signed x.now a → Means (G.stands gates.old) signed y.now b → Means (G.stands gates.new) false result (operate_bits GreaterEq signed (length x.now) a b) }
    ensures width { length result ≡ 1 }
{
    let below = less_wires(gates, x.wires(), y.wires(), signed);
    other_bit(gates, &below)
}

/// Whether two words differ anywhere, as a word of one wire.
pub fn unequal<G: Gates>(gates: &mut G, x: &Word<G::Wire>, y: &Word<G::Wire>) -> Word<G::Wire>
    requires same { length x.now ≡ length y.now }
    requires room { HasRoomFor G.calls G.room gates.old op_unequal (length x.now) (x.now ++ y.now) }
    ensures performs { Performs G.calls G.stands G.made G.room op_unequal (length x.now) (x.now ++ y.now) gates.old result gates.new }
    ensures means { (signed : Bool) (a b : ℤ) → Means (G.stands gates.old) signed x.now a → Means (G.stands gates.old) signed y.now b → Means (G.stands gates.new) false result (operate_bits NotEqual signed (length x.now) a b) }
    ensures width { length result ≡ 1 }
{
    let all = Word::of_wire(all_alike(gates, x.wires(), y.wires()));
    other_bit(gates, &all)
}

/// Whether a word is 0, as a word of one wire: the language's `!`.
pub fn is_zero<G: Gates>(gates: &mut G, x: &Word<G::Wire>) -> Word<G::Wire>
    requires { HasRoomFor G.calls G.room gates.old op_is_zero (length x.now) x.now }
    ensures performs { Performs G.calls G.stands G.made G.room op_is_zero (length x.now) x.now gates.old result gates.new }
    ensures means { (signed : Bool) (a : ℤ) → Means (G.stands gates.old) signed x.now a → Means (G.stands gates.new) false result (number_of (is_zero a)) }
    ensures width { length result ≡ 1 }
{
    let any = Word::of_wire(any_true(gates, x.wires()));
    other_bit(gates, &any)
}

// The other bit of the first wire of a word.
fn other_bit<G: Gates>(gates: &G, x: &Word<G::Wire>) -> Word<G::Wire>
    ensures { (d : G.Wire) → Plays G.calls (other_word d x.now) gates.now result gates.now }
{
    Word::of_wire(gates.not(wire(x.wires(), 0)))
}
