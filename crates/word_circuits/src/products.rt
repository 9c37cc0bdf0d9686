//! Products.

ghost use Rattle.std.specs.Prelude.{◌≡◌, ◌<◌, ◌≤◌, ◌+◌, ◌-◌, ◌*◌, ◌++◌, length, ℤ, Bool};
ghost use Rattle.gate_core.specs.Circuit.{Plays, Affords};
ghost use Rattle.word_circuits.specs.Products.{part, multiply_row, multiply_circuit};
ghost use Rattle.oc_values.specs.declared.integers.BinaryOp.TheVariants.{Mul};
ghost use Rattle.oc_values.specs.Integers.{operate_bits};
ghost use Rattle.word_circuits.specs.Integers.{Means};
ghost use Rattle.word_circuits.specs.Fragments.{Performs, HasRoomFor};
ghost use Rattle.word_circuits.specs.Fragments.Operation.{op_multiply};

use crate::Word;
use crate::carries::add_wires;
use crate::wires::{back, front, joined, wire};
use arrayvec::ArrayVec;
use gate_core::Gates;

/// The product of two words.
pub fn multiply<G: Gates>(gates: &mut G, x: &Word<G::Wire>, y: &Word<G::Wire>) -> Word<G::Wire>
    requires same { length x.now ≡ length y.now }
    requires room { HasRoomFor G.calls G.room gates.old op_multiply (length x.now) (x.now ++ y.now) }
    ensures performs { Performs G.calls G.stands G.made G.room op_multiply (length x.now) (x.now ++ y.now) gates.old result gates.new }
    ensures means { (signed : Bool) (a b : ℤ) → Means (G.stands gates.old) signed x.now a → Means (G.stands gates.old) signed y.now b → Means (G.stands gates.new) signed result (operate_bits Mul signed (length x.now) a b) }
    ensures width { length result ≡ length x.now }
{
    Word::of_array(multiply_wires(gates, x.wires(), y.wires()))
}

// The sum of the word's multiples by each bit of the other, row by row.
fn multiply_wires<G: Gates>(gates: &mut G, x: &[G::Wire], y: &[G::Wire]) -> ArrayVec<G::Wire, 64>
    requires some { 0 < length x.now }
    requires same { length x.now ≡ length y.now }
    requires fits { length x.now ≤ 64 }
    requires room { (d : G.Wire) × Affords G.calls (multiply_circuit (length x.now) x.now y.now d) gates.old }
    ensures plays { (d : G.Wire) → Plays G.calls (multiply_circuit (length x.now) x.now y.now d) gates.old result.items gates.new }
    ensures len { length result.items ≡ length x.now }
{
    let width = x.len();
    let mut sum = part_wires(gates, x, wire(y, 0), width);
    'rows: for j in 0..width - 1 {
        sum = multiply_row(gates, x, wire(y, j + 1), j + 1, sum.as_slice());
    }
    sum
}

// The sum with one row more: the multiple of x by b, from the place on.
fn multiply_row<G: Gates>(
    gates: &mut G,
    x: &[G::Wire],
    b: G::Wire,
    place: usize,
    sum: &[G::Wire],
) -> ArrayVec<G::Wire, 64>
    requires place { place < length x.now }
    requires sum { length sum.now ≡ length x.now }
    requires fits { length x.now ≤ 64 }
    requires room { (d : G.Wire) × Affords G.calls (multiply_row (length x.now) x.now b d place sum.now) gates.old }
    ensures plays { (d : G.Wire) → Plays G.calls (multiply_row (length x.now) x.now b d place sum.now) gates.old result.items gates.new }
    ensures len { length result.items ≡ length x.now }
{
    let parts = part_wires(gates, x, b, x.len() - place);
    let high = add_wires(gates, back(sum, place), parts.as_slice());
    joined(front(sum, place), high.as_slice())
}

// The first wires of x where b is true, else zero.
fn part_wires<G: Gates>(
    gates: &mut G,
    x: &[G::Wire],
    b: G::Wire,
    count: usize,
) -> ArrayVec<G::Wire, 64>
    requires x { count ≤ length x.now }
    requires fits { count ≤ 64 }
    requires room { (d : G.Wire) × Affords G.calls (part x.now b d count) gates.old }
    ensures plays { (d : G.Wire) → Plays G.calls (part x.now b d count) gates.old result.items gates.new }
    ensures len { length result.items ≡ count }
{
    let mut wires = ArrayVec::new();
    'places: for i in 0..count {
        wires.push(gates.and(wire(x, i), b));
    }
    wires
}
