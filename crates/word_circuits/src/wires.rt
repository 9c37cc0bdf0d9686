//! Single wires, and lists of wires.

ghost use Rattle.std.specs.Prelude.{◌≡◌, ◌<◌, ◌≤◌, ◌+◌, [], ◌∷◌, ◌++◌, length, get_or, replicate, take, drop};
ghost use Rattle.gate_core.specs.Circuit.{Plays, Affords};
ghost use Rattle.word_circuits.specs.Chains.{adder};

use arrayvec::ArrayVec;
use gate_core::Gates;

// The wire at a place.
pub(crate) fn wire<W: Copy>(wires: &[W], place: usize) -> W
    requires { place < length wires.now }
    ensures { (d : W) → result ≡ get_or wires.now place d }
{
    wires[place]
}

// The first wires.
pub(crate) fn front<W>(wires: &[W], count: usize) -> &[W]
    requires { count ≤ length wires.now }
    ensures { result.now ≡ take count wires.now }
{
    &wires[..count]
}

// The wires from a place on.
pub(crate) fn back<W>(wires: &[W], place: usize) -> &[W]
    requires { place ≤ length wires.now }
    ensures { result.now ≡ drop place wires.now }
{
    &wires[place..]
}

// Wires and further ones.
pub(crate) fn joined<W: Copy + Default>(low: &[W], high: &[W]) -> ArrayVec<W, 64>
    requires { length low.now + length high.now ≤ 64 }
    ensures { result.items ≡ low.now ++ high.now }
{
    let mut all = ArrayVec::new();
    let _ = all.try_extend_from_slice(low);
    let _ = all.try_extend_from_slice(high);
    all
}

// As many of one wire.
pub(crate) fn copies<W: Copy + Default>(wire: W, count: usize) -> ArrayVec<W, 64>
    requires { count ≤ 64 }
    ensures { result.items ≡ replicate count wire }
{
    let mut wires = ArrayVec::new();
    'all: for index in 0..count {
        wires.push(wire);
    }
    wires
}

// The sum of three wires, and the carry.
pub(crate) fn add_bit<G: Gates>(
    gates: &mut G,
    x: G::Wire,
    y: G::Wire,
    carry: G::Wire,
) -> (G::Wire, G::Wire)
    requires { Affords G.calls (adder x y carry) gates.old }
    ensures { Plays G.calls (adder x y carry) gates.old result gates.new }
{
    let p = gates.xor(x, carry);
    let q = gates.xor(y, carry);
    let both = gates.and(p, q);
    let sum = gates.xor(p, y);
    let carry = gates.xor(carry, both);
    (sum, carry)
}
