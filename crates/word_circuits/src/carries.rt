//! Loops over the places of words with a carry.

ghost use Rattle.std.specs.Prelude.{◌≡◌, ◌<◌, ◌≤◌, ◌-◌, length};
ghost use Rattle.gate_core.specs.Circuit.{Plays, Affords};
ghost use Rattle.word_circuits.specs.Chains.{chain, flips, sums, add_circuit, subtract_circuit};

use crate::wires::{add_bit, wire};
use arrayvec::ArrayVec;
use gate_core::Gates;

// Adds `count` places, and hands out the last carry.
pub(crate) fn chain<G: Gates>(
    gates: &mut G,
    x: &[G::Wire],
    y: &[G::Wire],
    carry: G::Wire,
    count: usize,
) -> (ArrayVec<G::Wire, 64>, G::Wire)
    requires x { count ≤ length x.now }
    requires y { count ≤ length y.now }
    requires fits { count ≤ 64 }
    requires room { (d : G.Wire) × Affords G.calls (chain x.now y.now d carry count) gates.old }
    ensures plays { (d : G.Wire) → Plays G.calls (chain x.now y.now d carry count) gates.old (record { sums = result.0.items; carry = result.1 }) gates.new }
    ensures len { length result.0.items ≡ count }
{
    let mut held = carry;
    let mut sums = ArrayVec::new();
    'places: for i in 0..count {
        let added = add_bit(gates, wire(x, i), wire(y, i), held);
        sums.push(added.0);
        held = added.1;
    }
    (sums, held)
}

// The other bits of the first `count` wires.
pub(crate) fn flip_wires<G: Gates>(gates: &G, x: &[G::Wire], count: usize) -> ArrayVec<G::Wire, 64>
    requires x { count ≤ length x.now }
    requires fits { count ≤ 64 }
    ensures plays { (d : G.Wire) → Plays G.calls (flips x.now d count) gates.now result.items gates.now }
    ensures len { length result.items ≡ count }
{
    let mut wires = ArrayVec::new();
    'places: for i in 0..count {
        wires.push(gates.not(wire(x, i)));
    }
    wires
}

// The sum of two words and a carry, of which the last carry isn't made.
pub(crate) fn sum_wires<G: Gates>(
    gates: &mut G,
    x: &[G::Wire],
    y: &[G::Wire],
    carry: G::Wire,
) -> ArrayVec<G::Wire, 64>
    requires some { 0 < length x.now }
    requires same { length x.now ≡ length y.now }
    requires fits { length x.now ≤ 64 }
    requires room { Affords G.calls (sums (length x.now) x.now y.now carry) gates.old }
    ensures plays { Plays G.calls (sums (length x.now) x.now y.now carry) gates.old result.items gates.new }
    ensures len { length result.items ≡ length x.now }
{
    let last = x.len() - 1;
    let chained = chain(gates, x, y, carry, last);
    let partial = gates.xor(wire(x, last), chained.1);
    let mut sums = chained.0;
    sums.push(gates.xor(partial, wire(y, last)));
    sums
}

// The sum of two words.
pub(crate) fn add_wires<G: Gates>(
    gates: &mut G,
    x: &[G::Wire],
    y: &[G::Wire],
) -> ArrayVec<G::Wire, 64>
    requires some { 0 < length x.now }
    requires same { length x.now ≡ length y.now }
    requires fits { length x.now ≤ 64 }
    requires room { Affords G.calls (add_circuit (length x.now) x.now y.now) gates.old }
    ensures plays { Plays G.calls (add_circuit (length x.now) x.now y.now) gates.old result.items gates.new }
    ensures len { length result.items ≡ length x.now }
{
    let zero = gates.known(false);
    sum_wires(gates, x, y, zero)
}

// The difference of two words.
pub(crate) fn subtract_wires<G: Gates>(
    gates: &mut G,
    x: &[G::Wire],
    y: &[G::Wire],
) -> ArrayVec<G::Wire, 64>
    requires some { 0 < length x.now }
    requires same { length x.now ≡ length y.now }
    requires fits { length x.now ≤ 64 }
    requires room { Affords G.calls (subtract_circuit (length x.now) x.now y.now) gates.old }
    ensures plays { Plays G.calls (subtract_circuit (length x.now) x.now y.now) gates.old result.items gates.new }
    ensures len { length result.items ≡ length x.now }
{
    let one = gates.known(true);
    let turned = flip_wires(gates, y, y.len());
    sum_wires(gates, x, turned.as_slice(), one)
}
