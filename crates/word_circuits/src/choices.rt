//! Operations bit by bit, and the choice between two words.

ghost use Rattle.std.specs.Prelude.{◌≡◌, ◌<◌, ◌≤◌, ◌+◌, ◌++◌, ◌∷◌, length, ℤ, Bool, if◌then◌else◌};
ghost use Rattle.gate_core.specs.Circuit.{Plays, Affords};
ghost use Rattle.word_circuits.specs.Choices.{meet_circuit, either_bit, either_circuit, differ_circuit, choose_bit, choose};
ghost use Rattle.oc_values.specs.declared.integers.BinaryOp.TheVariants.{And, Or, Xor};
ghost use Rattle.oc_values.specs.Integers.{operate_bits, flip_bits};
ghost use Rattle.word_circuits.specs.Integers.{Means};
ghost use Rattle.word_circuits.specs.Fragments.{Performs, HasRoomFor};
ghost use Rattle.word_circuits.specs.Fragments.Operation.{op_meet, op_either, op_differ, op_flip, op_select};

use crate::Word;
use crate::carries::flip_wires;
use crate::wires::wire;
use arrayvec::ArrayVec;
use gate_core::Gates;

/// The bits that are 1 in both words.
pub fn meet<G: Gates>(gates: &mut G, x: &Word<G::Wire>, y: &Word<G::Wire>) -> Word<G::Wire>
    requires same { length x.now ≡ length y.now }
    requires room { HasRoomFor G.calls G.room gates.old op_meet (length x.now) (x.now ++ y.now) }
    ensures performs { Performs G.calls G.stands G.made G.room op_meet (length x.now) (x.now ++ y.now) gates.old result gates.new }
    ensures means { (signed : Bool) (a b : ℤ) → Means (G.stands gates.old) signed x.now a → Means (G.stands gates.old) signed y.now b → Means (G.stands gates.new) signed result (operate_bits And signed (length x.now) a b) }
    ensures width { length result ≡ length x.now }
{
    Word::of_array(meet_wires(gates, x.wires(), y.wires()))
}

/// The bits that are 1 in either word.
pub fn either<G: Gates>(gates: &mut G, x: &Word<G::Wire>, y: &Word<G::Wire>) -> Word<G::Wire>
    requires same { length x.now ≡ length y.now }
    requires room { HasRoomFor G.calls G.room gates.old op_either (length x.now) (x.now ++ y.now) }
    ensures performs { Performs G.calls G.stands G.made G.room op_either (length x.now) (x.now ++ y.now) gates.old result gates.new }
    ensures means { (signed : Bool) (a b : ℤ) → Means (G.stands gates.old) signed x.now a → Means (G.stands gates.old) signed y.now b → Means (G.stands gates.new) signed result (operate_bits Or signed (length x.now) a b) }
    ensures width { length result ≡ length x.now }
{
    Word::of_array(either_wires(gates, x.wires(), y.wires()))
}

/// The bits in which two words differ.
pub fn differ<G: Gates>(gates: &mut G, x: &Word<G::Wire>, y: &Word<G::Wire>) -> Word<G::Wire>
    requires same { length x.now ≡ length y.now }
    requires room { HasRoomFor G.calls G.room gates.old op_differ (length x.now) (x.now ++ y.now) }
    ensures performs { Performs G.calls G.stands G.made G.room op_differ (length x.now) (x.now ++ y.now) gates.old result gates.new }
    ensures means { (signed : Bool) (a b : ℤ) → Means (G.stands gates.old) signed x.now a → Means (G.stands gates.old) signed y.now b → Means (G.stands gates.new) signed result (operate_bits Xor signed (length x.now) a b) }
    ensures width { length result ≡ length x.now }
{
    Word::of_array(differ_wires(gates, x.wires(), y.wires()))
}

/// Every bit turned: -1 less the word.
pub fn flip<G: Gates>(gates: &mut G, x: &Word<G::Wire>) -> Word<G::Wire>
    requires { HasRoomFor G.calls G.room gates.old op_flip (length x.now) x.now }
    ensures performs { Performs G.calls G.stands G.made G.room op_flip (length x.now) x.now gates.old result gates.new }
    ensures means { (signed : Bool) (a : ℤ) → Means (G.stands gates.old) signed x.now a → Means (G.stands gates.new) signed result (flip_bits signed (length x.now) a) }
    ensures width { length result ≡ length x.now }
{
    Word::of_array(flip_wires(gates, x.wires(), x.width()))
}

/// The word `new` where the wire e stands for 1, else `old`.
pub fn select<G: Gates>(
    gates: &mut G,
    e: G::Wire,
    new: &Word<G::Wire>,
    old: &Word<G::Wire>,
) -> Word<G::Wire>
    requires same { length new.now ≡ length old.now }
    requires room { HasRoomFor G.calls G.room gates.old op_select (length new.now) (e ∷ (new.now ++ old.now)) }
    ensures performs { Performs G.calls G.stands G.made G.room op_select (length new.now) (e ∷ (new.now ++ old.now)) gates.old result gates.new }
    ensures means { (signed chosen : Bool) (a b : ℤ) → G.stands gates.old e chosen → Means (G.stands gates.old) signed new.now a → Means (G.stands gates.old) signed old.now b → Means (G.stands gates.new) signed result (if chosen then a else b) }
    ensures width { length result ≡ length new.now }
{
    let last = old.wires();
    Word::of_array(choose_wires(gates, e, new.wires(), last, last, old.width()))
}

// The wires of `kept`, turned where e is true and x and y differ.
pub(crate) fn choose_wires<G: Gates>(
    gates: &mut G,
    e: G::Wire,
    x: &[G::Wire],
    y: &[G::Wire],
    kept: &[G::Wire],
    count: usize,
) -> ArrayVec<G::Wire, 64>
    requires x { count ≤ length x.now }
    requires y { count ≤ length y.now }
    requires kept { count ≤ length kept.now }
    requires fits { count ≤ 64 }
    requires room { (d : G.Wire) × Affords G.calls (choose e x.now y.now kept.now d count) gates.old }
    ensures plays { (d : G.Wire) → Plays G.calls (choose e x.now y.now kept.now d count) gates.old result.items gates.new }
    ensures len { length result.items ≡ count }
{
    let mut wires = ArrayVec::new();
    'places: for i in 0..count {
        wires.push(choose_bit(gates, e, wire(x, i), wire(y, i), wire(kept, i)));
    }
    wires
}

fn choose_bit<G: Gates>(gates: &mut G, e: G::Wire, x: G::Wire, y: G::Wire, kept: G::Wire) -> G::Wire
    requires { Affords G.calls (choose_bit e x y kept) gates.old }
    ensures { Plays G.calls (choose_bit e x y kept) gates.old result gates.new }
{
    let apart = gates.xor(x, y);
    let turn = gates.and(e, apart);
    gates.xor(kept, turn)
}

fn meet_wires<G: Gates>(gates: &mut G, x: &[G::Wire], y: &[G::Wire]) -> ArrayVec<G::Wire, 64>
    requires same { length x.now ≡ length y.now }
    requires fits { length x.now ≤ 64 }
    requires room { (d : G.Wire) × Affords G.calls (meet_circuit (length x.now) x.now y.now d) gates.old }
    ensures plays { (d : G.Wire) → Plays G.calls (meet_circuit (length x.now) x.now y.now d) gates.old result.items gates.new }
    ensures len { length result.items ≡ length x.now }
{
    let mut wires = ArrayVec::new();
    'places: for i in 0..x.len() {
        wires.push(gates.and(wire(x, i), wire(y, i)));
    }
    wires
}

fn either_wires<G: Gates>(gates: &mut G, x: &[G::Wire], y: &[G::Wire]) -> ArrayVec<G::Wire, 64>
    requires same { length x.now ≡ length y.now }
    requires fits { length x.now ≤ 64 }
    requires room { (d : G.Wire) × Affords G.calls (either_circuit (length x.now) x.now y.now d) gates.old }
    ensures plays { (d : G.Wire) → Plays G.calls (either_circuit (length x.now) x.now y.now d) gates.old result.items gates.new }
    ensures len { length result.items ≡ length x.now }
{
    let mut wires = ArrayVec::new();
    'places: for i in 0..x.len() {
        wires.push(either_bit(gates, wire(x, i), wire(y, i)));
    }
    wires
}

fn either_bit<G: Gates>(gates: &mut G, x: G::Wire, y: G::Wire) -> G::Wire
    requires { Affords G.calls (either_bit x y) gates.old }
    ensures { Plays G.calls (either_bit x y) gates.old result gates.new }
{
    let neither = gates.and(gates.not(x), gates.not(y));
    gates.not(neither)
}

fn differ_wires<G: Gates>(gates: &G, x: &[G::Wire], y: &[G::Wire]) -> ArrayVec<G::Wire, 64>
    requires same { length x.now ≡ length y.now }
    requires fits { length x.now ≤ 64 }
    ensures plays { (d : G.Wire) → Plays G.calls (differ_circuit (length x.now) x.now y.now d) gates.now result.items gates.now }
    ensures len { length result.items ≡ length x.now }
{
    let mut wires = ArrayVec::new();
    'places: for i in 0..x.len() {
        wires.push(gates.xor(wire(x, i), wire(y, i)));
    }
    wires
}
