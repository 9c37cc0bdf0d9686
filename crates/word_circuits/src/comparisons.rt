//! Comparisons, and the conversion to a truth value.

ghost use Rattle.std.specs.Prelude.{◌≡◌, ◌<◌, ◌≤◌, ◌+◌, ◌-◌, ◌++◌, ◌∷◌, [], length, ℤ, Bool, false};
ghost use Rattle.gate_core.specs.Circuit.{Plays, Affords};
ghost use Rattle.word_circuits.specs.Chains.{biased, less_circuit, equal_circuit, to_bool_circuit};
ghost use Rattle.oc_values.specs.declared.integers.BinaryOp.TheVariants.{Less, Equal};
ghost use Rattle.oc_values.specs.declared.integers.IntKind.TheVariants.{Bool as KBool};
ghost use Rattle.oc_values.specs.Integers.{operate_bits, convert};
ghost use Rattle.word_circuits.specs.Integers.{Means};
ghost use Rattle.word_circuits.specs.Fragments.{Performs, HasRoomFor};
ghost use Rattle.word_circuits.specs.Fragments.Operation.{op_less, op_equal, op_to_bool};

use crate::Word;
use crate::carries::{chain, flip_wires};
use crate::wires::{front, joined, wire};
use arrayvec::ArrayVec;
use gate_core::Gates;

/// Whether x is below y, as a word of one wire. `signed` says whether their top bits are signs.
pub fn less<G: Gates>(
    gates: &mut G,
    x: &Word<G::Wire>,
    y: &Word<G::Wire>,
    signed: bool,
) -> Word<G::Wire>
    requires same { length x.now ≡ length y.now }
    requires room { HasRoomFor G.calls G.room gates.old (op_less signed) (length x.now) (x.now ++ y.now) }
    ensures performs { Performs G.calls G.stands G.made G.room (op_less signed) (length x.now) (x.now ++ y.now) gates.old result gates.new }
    ensures means { (a b : ℤ) → Means (G.stands gates.old) signed x.now a → Means (G.stands gates.old) signed y.now b → Means (G.stands gates.new) false result (operate_bits Less signed (length x.now) a b) }
    ensures width { length result ≡ 1 }
{
    less_wires(gates, x.wires(), y.wires(), signed)
}

/// Whether two words are equal, as a word of one wire.
pub fn equal<G: Gates>(gates: &mut G, x: &Word<G::Wire>, y: &Word<G::Wire>) -> Word<G::Wire>
    requires same { length x.now ≡ length y.now }
    requires room { HasRoomFor G.calls G.room gates.old op_equal (length x.now) (x.now ++ y.now) }
    ensures performs { Performs G.calls G.stands G.made G.room op_equal (length x.now) (x.now ++ y.now) gates.old result gates.new }
    ensures means { (signed : Bool) (a b : ℤ) → Means (G.stands gates.old) signed x.now a → Means (G.stands gates.old) signed y.now b → Means (G.stands gates.new) false result (operate_bits Equal signed (length x.now) a b) }
    ensures width { length result ≡ 1 }
{
    Word::of_wire(all_alike(gates, x.wires(), y.wires()))
}

/// Whether a word isn't 0, as a word of one wire.
pub fn to_bool<G: Gates>(gates: &mut G, x: &Word<G::Wire>) -> Word<G::Wire>
    requires { HasRoomFor G.calls G.room gates.old op_to_bool (length x.now) x.now }
    ensures performs { Performs G.calls G.stands G.made G.room op_to_bool (length x.now) x.now gates.old result gates.new }
    ensures means { (signed : Bool) (a : ℤ) → Means (G.stands gates.old) signed x.now a → Means (G.stands gates.new) false result (convert a KBool) }
    ensures width { length result ≡ 1 }
{
    Word::of_wire(any_true(gates, x.wires()))
}

// Whether x is below y: their difference borrows.
pub(crate) fn less_wires<G: Gates>(
    gates: &mut G,
    x: &[G::Wire],
    y: &[G::Wire],
    signed: bool,
) -> Word<G::Wire>
    requires some { 0 < length x.now }
    requires same { length x.now ≡ length y.now }
    requires fits { length x.now ≤ 64 }
    requires room { Affords G.calls (less_circuit signed (length x.now) x.now y.now) gates.old }
    ensures { Plays G.calls (less_circuit signed (length x.now) x.now y.now) gates.old result gates.new }
{
    let width = x.len();
    let one = gates.known(true);
    let left = biased(gates, x, signed);
    let right = biased(gates, y, signed);
    let flipped = flip_wires(gates, right.as_slice(), width);
    let chained = chain(gates, left.as_slice(), flipped.as_slice(), one, width);
    Word::of_wire(gates.not(chained.1))
}

// The word, with its top bit turned where it has a sign: the order of words with a sign is then that of
// numbers.
fn biased<G: Gates>(gates: &G, x: &[G::Wire], signed: bool) -> ArrayVec<G::Wire, 64>
    requires some { 0 < length x.now }
    requires fits { length x.now ≤ 64 }
    ensures plays { (d : G.Wire) → Plays G.calls (biased signed (length x.now) x.now d) gates.now result.items gates.now }
    ensures len { length result.items ≡ length x.now }
{
    if !signed {
        return joined(x, &[]);
    }
    let last = x.len() - 1;
    let mut wires = joined(front(x, last), &[]);
    wires.push(gates.not(wire(x, last)));
    wires
}

// Whether all places of two words are alike.
pub(crate) fn all_alike<G: Gates>(gates: &mut G, x: &[G::Wire], y: &[G::Wire]) -> G::Wire
    requires some { 0 < length x.now }
    requires same { length x.now ≡ length y.now }
    requires room { (d : G.Wire) × Affords G.calls (equal_circuit (length x.now) x.now y.now d) gates.old }
    ensures { (d : G.Wire) → Plays G.calls (equal_circuit (length x.now) x.now y.now d) gates.old (result ∷ []) gates.new }
{
    let mut all = alike(gates, wire(x, 0), wire(y, 0));
    'places: for i in 0..x.len() - 1 {
        let next = alike(gates, wire(x, i + 1), wire(y, i + 1));
        all = gates.and(all, next);
    }
    all
}

// Whether two wires are alike.
fn alike<G: Gates>(gates: &G, x: G::Wire, y: G::Wire) -> G::Wire
    ensures { result ≡ G.calls.not_wire gates.now (G.calls.xor_wire gates.now x y) }
{
    gates.not(gates.xor(x, y))
}

// Whether any place of a word is true.
pub(crate) fn any_true<G: Gates>(gates: &mut G, x: &[G::Wire]) -> G::Wire
    requires some { 0 < length x.now }
    requires room { (d : G.Wire) × Affords G.calls (to_bool_circuit (length x.now) x.now d) gates.old }
    ensures { (d : G.Wire) → Plays G.calls (to_bool_circuit (length x.now) x.now d) gates.old (result ∷ []) gates.new }
{
    let mut none = gates.not(wire(x, 0));
    'places: for i in 0..x.len() - 1 {
        let next = gates.not(wire(x, i + 1));
        none = gates.and(none, next);
    }
    gates.not(none)
}
