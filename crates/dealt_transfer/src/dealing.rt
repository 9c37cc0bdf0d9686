//! What a dealer makes of a key.

ghost use Rattle.std.specs.Prelude.{◌≡◌, ◌+◌, ◌%◌, ◌<◌, ◌≤◌, ◌^◌, ◌++◌, IfOk, length, map};
ghost use Rattle.std.specs.List.{range_with_len};
ghost use Rattle.dealt_transfer.specs.Halves.{most_transfers, receiver};
ghost use Rattle.dealt_transfer.specs.Dealing.{bit_at, bytes_at, chosen as pad_chosen, pad_at, pair_at, receiver_dealt, sender_dealt};
ghost use Rattle.dealt_transfer.specs.Transfers.{Match};

use crate::half::{ReceiverHalf, SenderHalf};
use crate::stream::{next, next_label};
use crate::writing::label_field;
use half_gates::Label;
use oc_values::{Items, NoMemory};
use rand_chacha::ChaCha20Rng;
use rand_core::SeedableRng;
use std::alloc::Global;

/// The bytes of the next four words.
fn next_bytes(rng: &mut ChaCha20Rng) -> [u8; 16]
    requires stream { rng.old.stream ≡ 0 }
    requires within { rng.old.word_pos < 2 ^ 68 }
    ensures bytes { result ≡ bytes_at rng.old.key rng.old.word_pos }
    ensures place { rng.new ≡ record rng.old { word_pos = (rng.old.word_pos + 4) % 2 ^ 68 } }
{
    label_field(next_label(rng))
}

/// Two times sixteen bytes.
fn joined(low: [u8; 16], high: [u8; 16]) -> [u8; 32]
    ensures { result ≡ low ++ high }
{
    let mut bytes = [0; 32];
    let (front, back) = bytes.split_at_mut(16);
    front.copy_from_slice(&low);
    back.copy_from_slice(&high);
    bytes
}

/// The pad of a bit.
pub fn chosen(pads: (Label, Label), bit: bool) -> Label
    ensures { result ≡ pad_chosen pads bit }
{
    if bit { pads.1 } else { pads.0 }
}

/// What is dealt of transfers: both pads, the bits, and the pads of the bits.
#[derive(Drop)]
struct Dealt {
    pairs: Vec<(Label, Label)>,
    bits: Vec<bool>,
    pads: Vec<Label>,
}

/// Deals so many transfers.
fn deal_transfers(alloc: Global, rng: &mut ChaCha20Rng, count: u32) -> Result<Dealt, NoMemory>
    requires stream { rng.old.stream ≡ 0 }
    requires place { rng.old.word_pos ≡ 12 }
    ensures pairs { IfOk result (λ dealt. dealt.pairs.items ≡ map (pair_at rng.old.key) (range_with_len 0 count)) }
    ensures bits { IfOk result (λ dealt. dealt.bits.items ≡ map (bit_at rng.old.key) (range_with_len 0 count)) }
    ensures pads { IfOk result (λ dealt. dealt.pads.items ≡ map (pad_at rng.old.key) (range_with_len 0 count)) }
{
    let mut pairs = Vec::with_capacity(alloc, count as usize)?;
    let mut bits = Vec::with_capacity(alloc, count as usize)?;
    let mut pads = Vec::with_capacity(alloc, count as usize)?;
    for _ in 0..count {
        let first = next_label(rng);
        let second = next_label(rng);
        let bit = next(rng) % 2 == 1;
        pairs.push((first, second))?;
        bits.push(bit)?;
        pads.push(chosen((first, second), bit))?;
    }
    Ok(Dealt { pairs, bits, pads })
}

/// Both halves of so many transfers, from the words of the ChaCha20 key stream 0 of a key (RFC 8439 has the block
/// function; the block counter has 64 bits here, as has the nonce). They match.
pub fn deal(
    alloc: Global,
    key: &[u8; 32],
    count: u32,
) -> Result<(SenderHalf, ReceiverHalf), NoMemory>
    requires { count ≤ most_transfers }
    ensures sender { IfOk result (λ halves. halves.0 ≡ sender_dealt key.now count) }
    ensures receiver { IfOk result (λ halves. receiver halves.1 ≡ receiver_dealt key.now count) }
    ensures counts { IfOk result (λ halves. (length halves.0.pads ≡ count) × (length halves.1.pads ≡ count)) }
    ensures matched { IfOk result (λ halves. Match halves.0 (receiver halves.1)) }
{
    let mut rng = ChaCha20Rng::from_seed(*key);
    let tag = next_bytes(&mut rng);
    let low = next_bytes(&mut rng);
    let high = next_bytes(&mut rng);
    let dealt = deal_transfers(alloc, &mut rng, count)?;
    let sender = SenderHalf {
        tag,
        coin_key: joined(low, high),
        pads: Items::from_vec(dealt.pairs),
    };
    let receiver = ReceiverHalf {
        tag,
        bits: Items::from_vec(dealt.bits),
        pads: Items::from_vec(dealt.pads),
    };
    Ok((sender, receiver))
}
