//! What transfers hide.

ghost use Rattle.dealt_transfer.specs.Hiding.{ChoicesAreHidden, UnchosenIsHidden};

/// What the receiver sends is the same for any other choices, at bits of its half that a one-to-one map gives.
pub fn choices_are_hidden()
    ensures { ChoicesAreHidden }
{}

/// What the sender sends, and what the receiver has, is the same for any other messages in the place of those that weren't
/// chosen, at pads that the receiver lacks.
pub fn unchosen_is_hidden()
    ensures { UnchosenIsHidden }
{}
