//! Backends that only count, over wires that carry a bit or nothing.

ghost use Rattle.std.specs.Prelude.{◌≡◌, Bool, false};
ghost use Rattle.gate_core.specs.Backends.{CarriesBits, CarriesDefault, counting_calls, most_ands};
ghost use Rattle.gate_core.specs.Backends.{counting_laws, counting_default, counting_counts};

use crate::{Gates, MOST_ANDS};
use std::marker::{Model, PhantomData};

/// What a wire carries of its bit: the bit, or nothing.
pub trait Carrier: Copy + Default {
    // What is carried of a bit.
    ghost carried: { Bool → Self };

    // The bit that is told by what is carried.
    ghost told: { Self → Bool };

    /// What is carried of a bit.
    fn carry(bit: bool) -> Self
        ensures { result ≡ carried bit };

    /// The bit that is told by what is carried.
    fn tell(self) -> bool
        ensures { result ≡ told self };

    // What is carried of a function of two bits hangs on what is told of the bits.
    ghost carries: { CarriesBits carried told };

    // By default a wire carries 0.
    ghost carries_default: { CarriesDefault carried Self.is_default };
}

/// A backend that keeps nothing of its gates but the count of ANDs. It has room for the ANDs of any one word
/// operation at any time, and contracts see it as the number of ANDs that it made, modulo 2^64.
#[derive(Drop)]
pub struct Counting<W> {
    made: u64,
    carrier: PhantomData<W>,
}

/// The backend whose wires are bits in the clear.
pub type PlainBits = Counting<bool>;

/// The backend whose wires carry nothing.
pub type Blank = Counting<()>;

impl<W> Model for Counting<W> {
    ghost use Rattle.std.specs.Prelude.{ℕ};

    ghost Value = { ℕ };

    ghost view = { λ gates. gates.made };
}

impl<W: Carrier> Counting<W> {
    /// A backend that made no gate yet.
    pub fn new() -> Counting<W>
        ensures { ⟦<Counting<W> as Gates>⟧.made result ≡ 0 }
    {
        Counting {
            made: 0,
            carrier: PhantomData,
        }
    }

    /// How many ANDs were made, modulo 2^64.
    pub fn made(&self) -> u64
        ensures { result ≡ ⟦<Counting<W> as Gates>⟧.made self.now }
    {
        self.made
    }
}

impl<W: Carrier> Gates for Counting<W> {
    type Wire = W;

    ghost stands = { λ _ wire bit. wire ≡ W.carried bit };

    ghost calls = { counting_calls W.carried W.told };

    ghost made = { λ gates. gates };

    ghost room = { λ _. most_ands };

    fn known(&self, bit: bool) -> W {
        W::carry(bit)
    }

    fn xor(&self, a: W, b: W) -> W {
        W::carry(a.tell() != b.tell())
    }

    fn not(&self, a: W) -> W {
        W::carry(!a.tell())
    }

    fn and(&mut self, a: W, b: W) -> W {
        self.made = self.made.wrapping_add(1);
        W::carry(a.tell() && b.tell())
    }

    fn room(&self) -> u32 {
        MOST_ANDS
    }

    ghost laws = { counting_laws W.carried W.told W.carries };

    ghost default_known = { counting_default W.carried W.told W.carries_default };

    ghost counts = { counting_counts W.carried W.told };
}
