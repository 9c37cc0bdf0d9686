//! The wires of operands.

ghost use Rattle.std.specs.Prelude.{◌≡◌, ◌-◌, ◌++◌, length, take, replicate, false};
ghost use Rattle.oc_values.specs.Kinds.{is_shift};
ghost use Rattle.oc_values.specs.Integers.{width, residue, shift_amount};
ghost use Rattle.oc_values.specs.declared.integers.IntKind.TheVariants.{Bool as KBool};
ghost use Rattle.word_circuits.specs.Known.{known_wires};
ghost use Rattle.event_gates.specs.Gating.{wires_of, first_wire, amount_wires, right_wires};

use crate::events::Operand;
use gate_core::Gates;
use oc_values::{BinaryOp, IntKind};
use word_circuits::{Word, known_word, refit};

/// The least number from 0 on that differs from a value by a multiple of 2^width.
fn residue(kind: IntKind, value: i128) -> u64
    ensures { result ≡ residue (width kind) value }
{
    value.rem_euclid(1 << kind.width()) as u64
}

/// A public amount of a shift, modulo the width.
pub fn amount_of(kind: IntKind, amount: i128) -> u8
    ensures { result ≡ shift_amount (width kind) amount }
{
    amount.rem_euclid(i128::from(kind.width())) as u8
}

/// A number as a known word of a kind.
fn known_of<G: Gates>(gates: &G, kind: IntKind, number: u64) -> Word<G::Wire>
    ensures wires { result ≡ known_wires G.calls gates.now number (width kind) }
    ensures width { length result ≡ width kind }
{
    known_word(gates, number, kind.width() as u8)
}

/// The wires of an operand at a kind.
pub fn word_of<G: Gates>(
    gates: &G,
    kind: IntKind,
    operand: &Operand<Word<G::Wire>>,
) -> Word<G::Wire>
    ensures wires { result ≡ wires_of G.calls gates.now kind operand.now }
    ensures width { length result ≡ width kind }
{
    match operand {
        Operand::Fix(_, value) => known_of(gates, kind, residue(kind, *value)),
        Operand::Of(word) => {
            if word.width() == kind.width() as usize {
                word.copy()
            } else {
                known_of(gates, kind, 0)
            }
        }
    }
}

/// The wires of an amount's word at a kind: its own, as many as there is room for, and known zeros behind them.
fn fitted<G: Gates>(gates: &G, kind: IntKind, word: &Word<G::Wire>) -> Word<G::Wire>
    ensures wires { result ≡ take (width kind) word.now ++ replicate (width kind - length word.now) (G.calls.known_wire gates.now false) }
    ensures width { length result ≡ width kind }
{
    refit(word, gates.known(false), kind.width() as u8)
}

/// The wires of a right operand at a kind: of a shift those of its amount.
pub fn right_of<G: Gates>(
    gates: &G,
    op: BinaryOp,
    kind: IntKind,
    operand: &Operand<Word<G::Wire>>,
) -> Word<G::Wire>
    ensures wires { result ≡ right_wires G.calls gates.now (is_shift op) kind operand.now }
    ensures width { length result ≡ width kind }
{
    if !matches!(op, BinaryOp::Shl | BinaryOp::Shr) {
        return word_of(gates, kind, operand);
    }
    match operand {
        Operand::Fix(_, value) => known_of(gates, kind, residue(kind, *value)),
        Operand::Of(word) => fitted(gates, kind, word),
    }
}

/// The first wire of an operand that is a hidden truth value.
pub fn wire_of<G: Gates>(gates: &G, operand: &Operand<Word<G::Wire>>) -> G::Wire
    ensures { result ≡ first_wire G.calls gates.now (wires_of G.calls gates.now KBool operand.now) }
{
    let word = word_of(gates, IntKind::Bool, operand);
    match word.wires().first() {
        Some(wire) => *wire,
        None => gates.known(false),
    }
}
