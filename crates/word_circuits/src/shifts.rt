//! Shifts, and words of another width.

ghost use Rattle.std.specs.Prelude.{◌≡◌, ◌<◌, ◌≤◌, ◌+◌, ◌-◌, ◌*◌, ◌%◌, ◌^◌, ◌++◌, length, take, replicate, ℤ, Bool, IsTrue};
ghost use Rattle.gate_core.specs.Circuit.{Plays, Affords};
ghost use Rattle.word_circuits.specs.Widths.{is_width, log2};
ghost use Rattle.word_circuits.specs.Choices.{moved_in, moved, choose, shift_word_circuit};
ghost use Rattle.oc_values.specs.Integers.{wrap_bits, shift_amount};
ghost use Rattle.word_circuits.specs.Integers.{Means, shift};
ghost use Rattle.word_circuits.specs.Fragments.{Performs, HasRoomFor};
ghost use Rattle.word_circuits.specs.Fragments.Operation.{op_shift_known, op_shift_word, op_resize};

use crate::Word;
use crate::choices::choose_wires;
use crate::operation::places;
use crate::wires::{back, copies, front, joined, wire};
use arrayvec::ArrayVec;
use gate_core::Gates;

/// A word shifted by an amount that is known to all, which counts modulo the width. To the right a word with
/// a sign gets its top bit moved in, and any other zero.
pub fn shift_known<G: Gates>(
    gates: &mut G,
    x: &Word<G::Wire>,
    amount: u8,
    left: bool,
    signed: bool,
) -> Word<G::Wire>
    requires { HasRoomFor G.calls G.room gates.old (op_shift_known amount left signed) (length x.now) x.now }
    ensures performs { Performs G.calls G.stands G.made G.room (op_shift_known amount left signed) (length x.now) x.now gates.old result gates.new }
    ensures means { (a : ℤ) → Means (G.stands gates.old) signed x.now a → Means (G.stands gates.new) signed result (wrap_bits signed (length x.now) (shift left a (amount % length x.now))) }
    ensures width { length result ≡ length x.now }
{
    let wires = x.wires();
    let zero = gates.known(false);
    let filler = moved_in(wires, zero, left, signed);
    Word::of_array(moved(wires, filler, usize::from(amount) % x.width(), left))
}

/// A word shifted by a hidden amount of the same width, which counts modulo the width.
pub fn shift_word<G: Gates>(
    gates: &mut G,
    x: &Word<G::Wire>,
    amount: &Word<G::Wire>,
    left: bool,
    signed: bool,
) -> Word<G::Wire>
    requires same { length x.now ≡ length amount.now }
    requires room { HasRoomFor G.calls G.room gates.old (op_shift_word left signed) (length x.now) (x.now ++ amount.now) }
    ensures performs { Performs G.calls G.stands G.made G.room (op_shift_word left signed) (length x.now) (x.now ++ amount.now) gates.old result gates.new }
    ensures means { (kind : Bool) (a b : ℤ) → Means (G.stands gates.old) signed x.now a → Means (G.stands gates.old) kind amount.now b → Means (G.stands gates.new) signed result (wrap_bits signed (length x.now) (shift left a (shift_amount (length x.now) b))) }
    ensures width { length result ≡ length x.now }
{
    Word::of_array(shift_wires(gates, x.wires(), amount.wires(), left, signed))
}

/// The word of another width, 1, 8, 16, 32 or 64, whose integer differs by a multiple of 2^width. A longer
/// word repeats the top bit where `signed` says that it is a sign, and is filled with zero where not.
pub fn resize<G: Gates>(gates: &mut G, x: &Word<G::Wire>, width: u8, signed: bool) -> Word<G::Wire>
    requires width { IsTrue (is_width width) }
    requires room { HasRoomFor G.calls G.room gates.old (op_resize width signed) (length x.now) x.now }
    ensures performs { Performs G.calls G.stands G.made G.room (op_resize width signed) (length x.now) x.now gates.old result gates.new }
    ensures means { (kind : Bool) (a : ℤ) → Means (G.stands gates.old) signed x.now a → Means (G.stands gates.new) kind result (wrap_bits kind width a) }
    ensures width { length result ≡ width }
{
    let wires = x.wires();
    let zero = gates.known(false);
    let filler = moved_in(wires, zero, false, signed);
    Word::of_array(resized(wires, filler, usize::from(width)))
}

/// The first wires of a word, as many as the width says, with this wire behind them where they are too few.
pub fn refit<W: Copy + Default>(x: &Word<W>, filler: W, width: u8) -> Word<W>
    requires { IsTrue (is_width width) }
    ensures wires { result ≡ take width x.now ++ replicate (width - length x.now) filler }
    ensures width { length result ≡ width }
{
    Word::of_array(resized(x.wires(), filler, usize::from(width)))
}

// The wire that a shift moves in.
fn moved_in<W: Copy>(x: &[W], zero: W, left: bool, signed: bool) -> W
    requires { 0 < length x.now }
    ensures { result ≡ moved_in left signed (length x.now) x.now zero }
{
    if left || !signed {
        zero
    } else {
        wire(x, x.len() - 1)
    }
}

// The wires, shifted by `count` places.
fn moved<W: Copy + Default>(x: &[W], filler: W, count: usize, left: bool) -> ArrayVec<W, 64>
    requires count { count ≤ length x.now }
    requires fits { length x.now ≤ 64 }
    ensures items { result.items ≡ moved left (length x.now) count filler x.now }
    ensures len { length result.items ≡ length x.now }
{
    let fill = copies(filler, count);
    if left {
        joined(fill.as_slice(), front(x, x.len() - count))
    } else {
        joined(back(x, count), fill.as_slice())
    }
}

// The first `width` wires, with fillers above.
fn resized<W: Copy + Default>(x: &[W], filler: W, width: usize) -> ArrayVec<W, 64>
    requires x { length x.now ≤ 64 }
    requires fits { width ≤ 64 }
    ensures items { result.items ≡ take width x.now ++ replicate (width - length x.now) filler }
    ensures len { length result.items ≡ width }
{
    if width <= x.len() {
        joined(front(x, width), &[])
    } else {
        let fill = copies(filler, width - x.len());
        joined(x, fill.as_slice())
    }
}

// A shift by 2^k places for each place k of the amount whose bit is true.
fn shift_wires<G: Gates>(
    gates: &mut G,
    x: &[G::Wire],
    amount: &[G::Wire],
    left: bool,
    signed: bool,
) -> ArrayVec<G::Wire, 64>
    requires width { IsTrue (is_width (length x.now)) }
    requires same { length x.now ≡ length amount.now }
    requires room { Affords G.calls (shift_word_circuit left signed (length x.now) x.now amount.now) gates.old }
    ensures plays { Plays G.calls (shift_word_circuit left signed (length x.now) x.now amount.now) gates.old result.items gates.new }
    ensures len { length result.items ≡ length x.now }
{
    let zero = gates.known(false);
    let mut shifted = joined(x, &[]);
    'rounds: for k in 0..places(x.len()) {
        let chosen = wire(amount, k);
        shifted = shift_step(gates, chosen, shifted.as_slice(), zero, k, left, signed);
    }
    shifted
}

// A shift by 2^k places where the chosen wire is true.
fn shift_step<G: Gates>(
    gates: &mut G,
    chosen: G::Wire,
    x: &[G::Wire],
    zero: G::Wire,
    k: usize,
    left: bool,
    signed: bool,
) -> ArrayVec<G::Wire, 64>
    requires some { 0 < length x.now }
    requires fits { length x.now ≤ 64 }
    requires place { 2 ^ k ≤ length x.now }
    requires small { k ≤ 6 }
    requires room { Affords G.calls (choose chosen x.now (moved left (length x.now) (2 ^ k) (moved_in left signed (length x.now) x.now zero) x.now) x.now zero (length x.now)) gates.old }
    ensures plays { Plays G.calls (choose chosen x.now (moved left (length x.now) (2 ^ k) (moved_in left signed (length x.now) x.now zero) x.now) x.now zero (length x.now)) gates.old result.items gates.new }
    ensures len { length result.items ≡ length x.now }
{
    let filler = moved_in(x, zero, left, signed);
    let other = moved(x, filler, 1 << k, left);
    choose_wires(gates, chosen, x, other.as_slice(), x, x.len())
}
