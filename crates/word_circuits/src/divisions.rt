//! Quotients and remainders.

ghost use Rattle.std.specs.Prelude.{◌≡◌, ◌<◌, ◌≤◌, ◌+◌, ◌-◌, ◌*◌, ◌++◌, ◌∷◌, [], length, ℤ, Bool};
ghost use Rattle.gate_core.specs.Circuit.{Plays, Affords};
ghost use Rattle.word_circuits.specs.Divisions.{divide_bit, divide_circuit, cond_negate, divide_sizes, quotient_circuit, remainder_circuit};
ghost use Rattle.oc_values.specs.declared.integers.BinaryOp.TheVariants.{Div, Rem};
ghost use Rattle.oc_values.specs.Integers.{operate_bits};
ghost use Rattle.word_circuits.specs.Integers.{Means};
ghost use Rattle.word_circuits.specs.Fragments.{Performs, HasRoomFor};
ghost use Rattle.word_circuits.specs.Fragments.Operation.{op_quotient, op_remainder};

use crate::Word;
use crate::carries::{chain, flip_wires};
use crate::choices::choose_wires;
use crate::wires::{add_bit, copies, front, joined, wire};
use arrayvec::ArrayVec;
use gate_core::Gates;

/// The quotient of two words, rounded toward 0. By 0 it is all ones without a sign, and with one it is -1,
/// or 1 of a word below 0. The least word by -1 wraps to itself.
pub fn quotient<G: Gates>(
    gates: &mut G,
    x: &Word<G::Wire>,
    y: &Word<G::Wire>,
    signed: bool,
) -> Word<G::Wire>
    requires same { length x.now ≡ length y.now }
    requires room { HasRoomFor G.calls G.room gates.old (op_quotient signed) (length x.now) (x.now ++ y.now) }
    ensures performs { Performs G.calls G.stands G.made G.room (op_quotient signed) (length x.now) (x.now ++ y.now) gates.old result gates.new }
    ensures means { (a b : ℤ) → Means (G.stands gates.old) signed x.now a → Means (G.stands gates.old) signed y.now b → Means (G.stands gates.new) signed result (operate_bits Div signed (length x.now) a b) }
    ensures width { length result ≡ length x.now }
{
    Word::of_array(quotient_wires(gates, x.wires(), y.wires(), signed))
}

/// The remainder of two words, which has the sign of x. By 0 it is x.
pub fn remainder<G: Gates>(
    gates: &mut G,
    x: &Word<G::Wire>,
    y: &Word<G::Wire>,
    signed: bool,
) -> Word<G::Wire>
    requires same { length x.now ≡ length y.now }
    requires room { HasRoomFor G.calls G.room gates.old (op_remainder signed) (length x.now) (x.now ++ y.now) }
    ensures performs { Performs G.calls G.stands G.made G.room (op_remainder signed) (length x.now) (x.now ++ y.now) gates.old result gates.new }
    ensures means { (a b : ℤ) → Means (G.stands gates.old) signed x.now a → Means (G.stands gates.old) signed y.now b → Means (G.stands gates.new) signed result (operate_bits Rem signed (length x.now) a b) }
    ensures width { length result ≡ length x.now }
{
    Word::of_array(remainder_wires(gates, x.wires(), y.wires(), signed))
}

// The quotient's wires: with a sign that of the sizes, negated where the signs differ.
fn quotient_wires<G: Gates>(
    gates: &mut G,
    x: &[G::Wire],
    y: &[G::Wire],
    signed: bool,
) -> ArrayVec<G::Wire, 64>
    requires some { 0 < length x.now }
    requires same { length x.now ≡ length y.now }
    requires fits { length x.now ≤ 64 }
    requires room { (d : G.Wire) × Affords G.calls (quotient_circuit signed (length x.now) x.now y.now d) gates.old }
    ensures plays { (d : G.Wire) → Plays G.calls (quotient_circuit signed (length x.now) x.now y.now d) gates.old result.items gates.new }
    ensures len { length result.items ≡ length x.now }
{
    if !signed {
        return divide(gates, x, y).0;
    }
    let last = x.len() - 1;
    let parts = divide_sizes(gates, x, y);
    let sign = gates.xor(wire(x, last), wire(y, last));
    cond_negate(gates, sign, parts.0.as_slice())
}

// The remainder's wires: with a sign that of the sizes, negated where x is below 0.
fn remainder_wires<G: Gates>(
    gates: &mut G,
    x: &[G::Wire],
    y: &[G::Wire],
    signed: bool,
) -> ArrayVec<G::Wire, 64>
    requires some { 0 < length x.now }
    requires same { length x.now ≡ length y.now }
    requires fits { length x.now ≤ 64 }
    requires room { (d : G.Wire) × Affords G.calls (remainder_circuit signed (length x.now) x.now y.now d) gates.old }
    ensures plays { (d : G.Wire) → Plays G.calls (remainder_circuit signed (length x.now) x.now y.now d) gates.old result.items gates.new }
    ensures len { length result.items ≡ length x.now }
{
    if !signed {
        return divide(gates, x, y).1;
    }
    let parts = divide_sizes(gates, x, y);
    cond_negate(gates, wire(x, x.len() - 1), parts.1.as_slice())
}

// The quotient and the remainder of the sizes of two words with a sign.
fn divide_sizes<G: Gates>(
    gates: &mut G,
    x: &[G::Wire],
    y: &[G::Wire],
) -> (ArrayVec<G::Wire, 64>, ArrayVec<G::Wire, 64>)
    requires some { 0 < length x.now }
    requires same { length x.now ≡ length y.now }
    requires fits { length x.now ≤ 64 }
    requires room { (d : G.Wire) × Affords G.calls (divide_sizes (length x.now) x.now y.now d) gates.old }
    ensures plays { (d : G.Wire) → Plays G.calls (divide_sizes (length x.now) x.now y.now d) gates.old (record { quotient = result.0.items; rest = result.1.items }) gates.new }
    ensures quotient { length result.0.items ≡ length x.now }
    ensures rest { length result.1.items ≡ length x.now }
{
    let last = x.len() - 1;
    let left = cond_negate(gates, wire(x, last), x);
    let right = cond_negate(gates, wire(y, last), y);
    divide(gates, left.as_slice(), right.as_slice())
}

// The quotient and the remainder without a sign, from the top bit of x down.
fn divide<G: Gates>(
    gates: &mut G,
    x: &[G::Wire],
    y: &[G::Wire],
) -> (ArrayVec<G::Wire, 64>, ArrayVec<G::Wire, 64>)
    requires some { 0 < length x.now }
    requires same { length x.now ≡ length y.now }
    requires fits { length x.now ≤ 64 }
    requires room { Affords G.calls (divide_circuit (length x.now) x.now y.now) gates.old }
    ensures plays { Plays G.calls (divide_circuit (length x.now) x.now y.now) gates.old (record { quotient = result.0.items; rest = result.1.items }) gates.new }
    ensures quotient { length result.0.items ≡ length x.now }
    ensures rest { length result.1.items ≡ length x.now }
{
    let width = x.len();
    let zero = gates.known(false);
    let one = gates.known(true);
    let turned = flip_wires(gates, y, width);
    let above = gates.not(zero);
    let mut rest = copies(zero, width);
    let mut quotient = ArrayVec::new();
    'bits: for i in 0..width {
        let next = wire(x, width - 1 - i);
        let parts = divide_bit(gates, next, turned.as_slice(), above, one, rest.as_slice());
        quotient.insert(0, parts.0);
        rest = parts.1;
    }
    (quotient, rest)
}

// One bit of a quotient, and what remains: the divisor, turned, is added to the rest behind the next bit of
// the dividend. The highest place, in which the divisor has nothing, is added apart.
fn divide_bit<G: Gates>(
    gates: &mut G,
    next: G::Wire,
    turned: &[G::Wire],
    above: G::Wire,
    one: G::Wire,
    rest: &[G::Wire],
) -> (G::Wire, ArrayVec<G::Wire, 64>)
    requires some { 0 < length rest.now }
    requires same { length rest.now ≡ length turned.now }
    requires fits { length rest.now ≤ 64 }
    requires room { Affords G.calls (divide_bit next (turned.now ++ above ∷ []) one rest.now (length rest.now)) gates.old }
    ensures plays { Plays G.calls (divide_bit next (turned.now ++ above ∷ []) one rest.now (length rest.now)) gates.old (result.0, result.1.items) gates.new }
    ensures len { length result.1.items ≡ length rest.now }
{
    let width = rest.len();
    let taken = joined(&[next], front(rest, width - 1));
    let chained = chain(gates, taken.as_slice(), turned, one, width);
    let top = add_bit(gates, wire(rest, width - 1), above, chained.1);
    let left = choose_wires(
        gates,
        top.1,
        chained.0.as_slice(),
        taken.as_slice(),
        taken.as_slice(),
        width,
    );
    (top.1, left)
}

// The word, or minus the word where b is true.
fn cond_negate<G: Gates>(gates: &mut G, b: G::Wire, x: &[G::Wire]) -> ArrayVec<G::Wire, 64>
    requires some { 0 < length x.now }
    requires fits { length x.now ≤ 64 }
    requires room { (d : G.Wire) × Affords G.calls (cond_negate (length x.now) b x.now d) gates.old }
    ensures plays { (d : G.Wire) → Plays G.calls (cond_negate (length x.now) b x.now d) gates.old result.items gates.new }
    ensures len { length result.items ≡ length x.now }
{
    let last = x.len() - 1;
    let mut carry = b;
    let mut wires = ArrayVec::new();
    'places: for i in 0..last {
        let turned = gates.xor(wire(x, i), b);
        wires.push(gates.xor(turned, carry));
        carry = gates.and(turned, carry);
    }
    let turned = gates.xor(wire(x, last), b);
    wires.push(gates.xor(turned, carry));
    wires
}
