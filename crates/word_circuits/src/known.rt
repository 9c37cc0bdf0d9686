//! Words that are known to all.

ghost use Rattle.std.specs.Prelude.{◌≡◌, ◌≤◌, length, pos, Bool, IsTrue};
ghost use Rattle.oc_values.specs.Integers.{wrap_bits};
ghost use Rattle.word_circuits.specs.Widths.{is_width};
ghost use Rattle.word_circuits.specs.Integers.{Means};
ghost use Rattle.word_circuits.specs.Known.{known_wires};

use crate::Word;
use arrayvec::ArrayVec;
use gate_core::Gates;

/// The lowest bits of a number as a word that is known to all. Its width is 1, 8, 16, 32 or 64. No gate is
/// counted.
pub fn known_word<G: Gates>(gates: &G, number: u64, width: u8) -> Word<G::Wire>
    requires { IsTrue (is_width width) }
    ensures wires { result ≡ known_wires G.calls gates.now number width }
    ensures means { (signed : Bool) → Means (G.stands gates.now) signed result (wrap_bits signed width (pos number)) }
    ensures width { length result ≡ width }
{
    Word::of_array(known_wires(gates, number, usize::from(width)))
}

// Wires for the lowest bits of a number.
fn known_wires<G: Gates>(gates: &G, number: u64, count: usize) -> ArrayVec<G::Wire, 64>
    requires { count ≤ 64 }
    ensures items { result.items ≡ known_wires G.calls gates.now number count }
    ensures len { length result.items ≡ count }
{
    let mut wires = ArrayVec::new();
    'places: for i in 0..count {
        wires.push(gates.known((number >> i) & 1 == 1));
    }
    wires
}
