//! An AND gate of half gates.

ghost use Rattle.std.specs.Prelude.{◌≡◌, ℕ, ◌*◌, ◌%◌, ◌<◌, ◌^◌, ◌&&◌, Bool};
ghost use Rattle.half_gates.specs.Hash.{hash_of};
ghost use Rattle.half_gates.specs.Gate.{Hashes, MakesAnd, active, and_label, hashes_of, masked as masked_of, row_e, row_g, select_of, tweak_a, tweak_b, zero_of};

use crate::hash::{Label, hash_label};

/// The first tweak of a gate; the second is one more. Gates count modulo 2^63.
fn first_tweak(gate: u64) -> u64
    ensures { result ≡ tweak_a gate }
{
    2 * (gate % (1 << 63))
}

/// The label where the bit is 1, else 0.
fn masked(bit: bool, label: Label) -> Label
    ensures { result ≡ masked_of bit label }
{
    if bit { label } else { 0 }
}

/// The select bit of a label.
fn selects(label: Label) -> bool
    ensures { result ≡ select_of label }
{
    label % 2 == 1
}

/// What the rows make of one label of each input, where the hash has these values at the two labels.
fn result_of(a: Label, b: Label, tg: Label, te: Label, hash_a: Label, hash_b: Label) -> Label
    ensures { result ≡ and_label a b tg te hash_a hash_b }
{
    let generator = hash_a ^ masked(selects(a), tg);
    let evaluator = hash_b ^ masked(selects(b), te ^ a);
    generator ^ evaluator
}

/// The two rows of an AND gate, the generator's and the evaluator's, and the zero label of its result. `a`
/// and `b` are the zero labels of the inputs, `delta` is what a label for the bit 1 differs by.
pub fn garble_and(delta: Label, a: Label, b: Label, gate: u64) -> (Label, Label, Label)
    requires odd { delta % 2 ≡ 1 }
    requires within { gate < 2 ^ 63 }
    ensures generator { result.0 ≡ row_g (hashes_of delta a b gate) delta b }
    ensures evaluator { result.1 ≡ row_e (hashes_of delta a b gate) a }
    ensures zero { result.2 ≡ zero_of (hashes_of delta a b gate) delta a b }
    // On the active labels for the bits x and y, the evaluator makes the active label for their conjunction.
    ensures makes_and { (x y : Bool) →
        and_label (active a delta x) (active b delta y) result.0 result.1
        (hash_of (active a delta x) (tweak_a gate)) (hash_of (active b delta y) (tweak_b gate))
        ≡ active result.2 delta (x && y) }
{
    let tweak = first_tweak(gate);
    let hash_a = hash_label(a, tweak);
    let hash_b = hash_label(b, tweak + 1);
    let tg = hash_a ^ hash_label(a ^ delta, tweak) ^ masked(selects(b), delta);
    let te = hash_b ^ hash_label(b ^ delta, tweak + 1) ^ a;
    (tg, te, result_of(a, b, tg, te, hash_a, hash_b))
}

/// The label of an AND gate's result, from one label of each input and the two rows.
pub fn eval_and(a: Label, b: Label, tg: Label, te: Label, gate: u64) -> Label
    ensures { result ≡ and_label a b tg te (hash_of a (tweak_a gate)) (hash_of b (tweak_b gate)) }
{
    let tweak = first_tweak(gate);
    result_of(a, b, tg, te, hash_label(a, tweak), hash_label(b, tweak + 1))
}

/// Half gates make AND, whatever four values the hash has.
pub fn half_gates_make_and()
    ensures { (h : Hashes) (delta a b : ℕ) → delta % 2 ≡ 1 → MakesAnd h delta a b }
{}
