//! The two halves of dealt transfers.

ghost use Rattle.std.specs.Prelude.{◌≡◌, length};

use half_gates::Label;
use oc_values::Items;

/// How many transfers a half has at most.
pub const MOST_TRANSFERS: u32 = 1_048_576;

/// The sender's half: both pads of each transfer, and the key that its labels are made from.
#[derive(Debug, Drop)]
pub struct SenderHalf {
    /// The same in both halves.
    pub tag: [u8; 16],
    /// The key that the sender's labels are made from.
    pub coin_key: [u8; 32],
    /// Of each transfer the pad of the bit 0, and then that of the bit 1.
    pub pads: Items<(Label, Label)>,
}

/// The receiver's half: a bit for each transfer, and the sender's pad of that bit.
#[derive(Debug, Drop)]
pub struct ReceiverHalf {
    /// The same in both halves.
    pub tag: [u8; 16],
    /// The bit of each transfer.
    pub bits: Items<bool>,
    /// Of each transfer the sender's pad of its bit.
    pub pads: Items<Label>,
    ghost one_length: { length bits ≡ length pads },
}
