//! What wires carry: bits, or nothing.

ghost use Rattle.std.specs.Prelude.{Bool, false, refl};

use crate::Carrier;

impl Carrier for bool {
    ghost carried = { λ bit. bit };

    ghost told = { λ wire. wire };

    fn carry(bit: bool) -> bool {
        bit
    }

    fn tell(self) -> bool {
        self
    }

    ghost carries = { λ f x y. refl };

    ghost carries_default = { λ wire h. h };
}

impl Carrier for () {
    ghost carried = { λ _. tt };

    ghost told = { λ _. false };

    fn carry(_bit: bool) {}

    fn tell(self) -> bool {
        false
    }

    ghost carries = { λ f x y. refl };

    ghost carries_default = { λ wire h. refl };
}
