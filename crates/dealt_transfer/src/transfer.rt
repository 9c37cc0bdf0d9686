//! A transfer over dealt halves.

ghost use Rattle.std.specs.Prelude.{◌≡◌, ◌<◌, ◌≤◌, ℕ, Bool, MatchOption, length, if◌then◌else◌};
ghost use Rattle.dealt_transfer.specs.declared.half.SenderHalf.{SenderHalf as Sender};
ghost use Rattle.dealt_transfer.specs.Halves.{most_transfers, receiver as receiver_of};
ghost use Rattle.dealt_transfer.specs.Transfers.{FirstUnmatched, Match, bit_of, masked_pair, opened, pads_of, sent_bit, turned};
ghost use Rattle.dealt_transfer.specs.Hiding.{apart, masked, remapped};

use crate::dealing::chosen;
use crate::half::{ReceiverHalf, SenderHalf};
use half_gates::Label;

/// What the receiver sends to choose the second message (`true`) or the first of the transfer `i`.
pub fn choice_bit(half: &ReceiverHalf, i: u32, choice: bool) -> bool
    requires { i < length half.now.pads }
    ensures sent { result ≡ sent_bit (receiver_of half.now) i choice }
    // The same is sent for another choice at the bit that is turned by both.
    ensures hides { (other : Bool) → turned other (remapped choice other (bit_of (receiver_of half.now) i)) ≡ result }
{
    choice != half.bits.as_slice()[i as usize]
}

/// What the sender sends for two messages of the transfer `i`, by the bit `d` that came.
pub fn mask_pair(half: &SenderHalf, i: u32, d: bool, m0: Label, m1: Label) -> (Label, Label)
    requires { i < length half.now.pads }
    ensures masks { result ≡ masked_pair half.now i d m0 m1 }
    // The same is sent for another message in the place of the one that wasn't chosen, at another pad that the receiver lacks.
    ensures hides { (choice bit : Bool) (x : ℕ) → d ≡ turned choice bit
        → masked (apart bit x (pads_of half.now i)) d (apart choice x (m0, m1)) ≡ result }
{
    let pads = half.pads.as_slice()[i as usize];
    (m0 ^ chosen(pads, d), m1 ^ chosen(pads, !d))
}

/// The message that the receiver chose, out of the pair that came.
pub fn open_pair(half: &ReceiverHalf, i: u32, choice: bool, e0: Label, e1: Label) -> Label
    requires { i < length half.now.pads }
    ensures message { result ≡ opened (receiver_of half.now) i choice e0 e1 }
    // It is the chosen one of the sender's messages, where the halves match and the pair is the sender's answer.
    ensures opens { (sender : Sender) (m0 m1 : ℕ) → Match sender (receiver_of half.now)
        → (e0, e1) ≡ masked_pair sender i (sent_bit (receiver_of half.now) i choice) m0 m1
        → result ≡ (if choice then m1 else m0) }
{
    chosen((e0, e1), choice) ^ half.pads.as_slice()[i as usize]
}

/// The first transfer at which the receiver's pad isn't the sender's pad of the receiver's bit.
pub fn first_unmatched(sender: &SenderHalf, receiver: &ReceiverHalf) -> Option<u32>
    requires tags { sender.now.tag ≡ receiver.now.tag }
    requires counts { length sender.now.pads ≡ length receiver.now.pads }
    requires few { length sender.now.pads ≤ most_transfers }
    ensures { MatchOption result (Match sender.now (receiver_of receiver.now)) (FirstUnmatched sender.now (receiver_of receiver.now)) }
{
    let pairs = sender.pads.as_slice();
    let bits = receiver.bits.as_slice();
    let pads = receiver.pads.as_slice();
    for i in 0..pairs.len() {
        if chosen(pairs[i], bits[i]) != pads[i] {
            return Some(i as u32);
        }
    }
    None
}
