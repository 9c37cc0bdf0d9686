//! What makes gates.

ghost use Rattle.std.specs.Prelude.{◌≡◌, ℕ, Bool, false};
ghost use Rattle.gate_core.specs.Circuit.{Calls};
ghost use Rattle.gate_core.specs.Laws.{Laws, Counts};

/// The ANDs that one operation on words makes at most.
pub const MOST_ANDS: u32 = 8_445;

/// A backend: it makes gates, one after another, and gives each a wire. XOR and NOT are free, and each AND
/// is counted.
pub trait Gates {
    /// What carries a bit. Its default is the known 0.
    type Wire: Copy + Default;

    // The wire stands for this bit.
    ghost stands: { Self → Self.Wire → Bool → Type 0 };

    // What its own calls give, and when there is room for an AND of two wires.
    ghost calls: { Calls Self Self.Wire };

    // How many ANDs were made, of which clauses speak modulo 2^64.
    ghost made: { Self → ℕ };

    // How many ANDs can be made now.
    ghost room: { Self → ℕ };

    /// A wire for a bit that is known to all.
    fn known(&self, bit: bool) -> Self::Wire
        ensures { result ≡ calls.known_wire self.now bit };

    /// A wire for the exclusive or.
    fn xor(&self, a: Self::Wire, b: Self::Wire) -> Self::Wire
        ensures { result ≡ calls.xor_wire self.now a b };

    /// A wire for the other bit.
    fn not(&self, a: Self::Wire) -> Self::Wire
        ensures { result ≡ calls.not_wire self.now a };

    /// Makes an AND gate. Where `room` tells at least 1, there is room for it.
    fn and(&mut self, a: Self::Wire, b: Self::Wire) -> Self::Wire
        requires { calls.has_room self.old a b }
        ensures { calls.and_is self.old a b result self.new };

    /// How many ANDs can be made now.
    fn room(&self) -> u32
        ensures { result ≡ room self.now };

    // Each call gives a wire that stands for its function of the bits.
    ghost laws: { Laws calls stands };

    // The default wire is the known 0.
    ghost default_known: { (s : Self) (w : Self.Wire) → Self.Wire.is_default w → w ≡ calls.known_wire s false };

    // An AND is counted, and takes room for one at most; a room of one has room for it.
    ghost counts: { Counts calls made room };
}
