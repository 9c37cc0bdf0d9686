//! Sums, differences and negations.

ghost use Rattle.std.specs.Prelude.{◌≡◌, ◌≤◌, ◌+◌, ◌++◌, length, ℤ, Bool};
ghost use Rattle.oc_values.specs.declared.integers.BinaryOp.TheVariants.{Add, Sub};
ghost use Rattle.oc_values.specs.Integers.{operate_bits, negate_bits};
ghost use Rattle.word_circuits.specs.Integers.{Means};
ghost use Rattle.word_circuits.specs.Fragments.{Performs, HasRoomFor};
ghost use Rattle.word_circuits.specs.Fragments.Operation.{op_add, op_subtract, op_negate};

use crate::Word;
use crate::carries::{add_wires, subtract_wires};
use crate::wires::copies;
use gate_core::Gates;

/// The sum of two words.
pub fn add<G: Gates>(gates: &mut G, x: &Word<G::Wire>, y: &Word<G::Wire>) -> Word<G::Wire>
    requires same { length x.now ≡ length y.now }
    requires room { HasRoomFor G.calls G.room gates.old op_add (length x.now) (x.now ++ y.now) }
    ensures performs { Performs G.calls G.stands G.made G.room op_add (length x.now) (x.now ++ y.now) gates.old result gates.new }
    ensures means { (signed : Bool) (a b : ℤ) → Means (G.stands gates.old) signed x.now a → Means (G.stands gates.old) signed y.now b → Means (G.stands gates.new) signed result (operate_bits Add signed (length x.now) a b) }
    ensures width { length result ≡ length x.now }
{
    Word::of_array(add_wires(gates, x.wires(), y.wires()))
}

/// The difference of two words.
pub fn subtract<G: Gates>(gates: &mut G, x: &Word<G::Wire>, y: &Word<G::Wire>) -> Word<G::Wire>
    requires same { length x.now ≡ length y.now }
    requires room { HasRoomFor G.calls G.room gates.old op_subtract (length x.now) (x.now ++ y.now) }
    ensures performs { Performs G.calls G.stands G.made G.room op_subtract (length x.now) (x.now ++ y.now) gates.old result gates.new }
    ensures means { (signed : Bool) (a b : ℤ) → Means (G.stands gates.old) signed x.now a → Means (G.stands gates.old) signed y.now b → Means (G.stands gates.new) signed result (operate_bits Sub signed (length x.now) a b) }
    ensures width { length result ≡ length x.now }
{
    Word::of_array(subtract_wires(gates, x.wires(), y.wires()))
}

/// Minus a word: a known word of zeros less it.
pub fn negate<G: Gates>(gates: &mut G, x: &Word<G::Wire>) -> Word<G::Wire>
    requires { HasRoomFor G.calls G.room gates.old op_negate (length x.now) x.now }
    ensures performs { Performs G.calls G.stands G.made G.room op_negate (length x.now) x.now gates.old result gates.new }
    ensures means { (signed : Bool) (a : ℤ) → Means (G.stands gates.old) signed x.now a → Means (G.stands gates.new) signed result (negate_bits signed (length x.now) a) }
    ensures width { length result ≡ length x.now }
{
    let zero = gates.known(false);
    let zeros = copies(zero, x.width());
    Word::of_array(subtract_wires(gates, zeros.as_slice(), x.wires()))
}
