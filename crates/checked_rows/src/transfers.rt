//! Dealt halves: their files, the faults of files, and transfers over them.

ghost use Rattle.std.specs.Prelude.{◌≤◌};
ghost use Rattle.dealt_transfer.specs.Halves.{most_transfers};

use crate::tally::Tally;
use dealt_transfer::{
    CoinLabels, HalfFault, HalfRule, ReceiverHalf, SenderHalf, choice_bit, coin_label, deal,
    first_unmatched, mask_pair, open_pair, read_receiver_half, read_sender_half,
    write_receiver_half, write_sender_half,
};
use oc_values::{Items, NoMemory};
use std::alloc::Global;

/// The key whose bytes count from 0.
const KEY: [u8; 32] = [
    0, 1, 2, 3, 4, 5, 6, 7, 8, 9, 10, 11, 12, 13, 14, 15, 16, 17, 18, 19, 20, 21, 22, 23, 24, 25,
    26, 27, 28, 29, 30, 31,
];

/// The files of both halves of three transfers of that key, from an independent model.
static SENDER: [u8; 153] = [
    0x4f, 0x43, 0x48, 0x47, 0x01, 0x39, 0xfd, 0x2b, 0x7d, 0xd9, 0xc5, 0x19, 0x6a, 0x8d, 0xbd, 0x03,
    0x77, 0xb8, 0xdc, 0x4a, 0x49, 0x8a, 0x35, 0xd8, 0x6f, 0xbc, 0xde, 0x6a, 0xcc, 0xb2, 0xcc, 0x7d,
    0x4c, 0xd8, 0xea, 0x24, 0x92, 0x2b, 0x23, 0xcc, 0xe7, 0xa2, 0x60, 0x23, 0xab, 0x3f, 0x0e, 0xef,
    0x69, 0x3a, 0xc8, 0x7f, 0x64, 0x00, 0x00, 0x00, 0x03, 0x25, 0x82, 0x35, 0xea, 0xb1, 0xf7, 0xa3,
    0x2d, 0xc2, 0x27, 0x62, 0xa0, 0x48, 0x5b, 0x41, 0x0c, 0x18, 0xb8, 0x42, 0x31, 0xad, 0xe6, 0xa6,
    0xd1, 0x13, 0x61, 0x5c, 0x61, 0xaf, 0x43, 0x4e, 0x27, 0xe1, 0xad, 0x5b, 0x5c, 0xec, 0xf8, 0xfc,
    0x12, 0x2a, 0x35, 0x75, 0x5c, 0x72, 0x08, 0x08, 0x6d, 0xd1, 0xee, 0x3c, 0x5d, 0x9d, 0x81, 0x58,
    0x24, 0x64, 0x0e, 0x00, 0x3c, 0x9b, 0xa0, 0xf6, 0x5e, 0x0d, 0x2a, 0x4a, 0x7f, 0x31, 0x95, 0x5a,
    0xcd, 0x42, 0xf2, 0x2d, 0xdc, 0xa7, 0x4a, 0x92, 0xd5, 0x6c, 0xa7, 0x8a, 0xef, 0x29, 0x8e, 0x72,
    0x3b, 0x60, 0x23, 0x7f, 0x36, 0x47, 0xea, 0xbe, 0xb7,
];

static RECEIVER: [u8; 74] = [
    0x4f, 0x43, 0x48, 0x45, 0x01, 0x39, 0xfd, 0x2b, 0x7d, 0xd9, 0xc5, 0x19, 0x6a, 0x8d, 0xbd, 0x03,
    0x77, 0xb8, 0xdc, 0x4a, 0x49, 0x00, 0x00, 0x00, 0x03, 0x04, 0x25, 0x82, 0x35, 0xea, 0xb1, 0xf7,
    0xa3, 0x2d, 0xc2, 0x27, 0x62, 0xa0, 0x48, 0x5b, 0x41, 0x0c, 0xe1, 0xad, 0x5b, 0x5c, 0xec, 0xf8,
    0xfc, 0x12, 0x2a, 0x35, 0x75, 0x5c, 0x72, 0x08, 0x08, 0x6d, 0x6c, 0xa7, 0x8a, 0xef, 0x29, 0x8e,
    0x72, 0x3b, 0x60, 0x23, 0x7f, 0x36, 0x47, 0xea, 0xbe, 0xb7,
];

/// The first words of ChaCha20 at a key of zeros, from RFC 8439 (appendix A.1).
static ZEROS: [u8; 48] = [
    0x76, 0xb8, 0xe0, 0xad, 0xa0, 0xf1, 0x3d, 0x90, 0x40, 0x5d, 0x6a, 0xe5, 0x53, 0x86, 0xbd, 0x28,
    0xbd, 0xd2, 0x19, 0xb8, 0xa0, 0x8d, 0xed, 0x1a, 0xa8, 0x36, 0xef, 0xcc, 0x8b, 0x77, 0x0d, 0xc7,
    0xda, 0x41, 0x59, 0x7c, 0x51, 0x57, 0x48, 0x8d, 0x77, 0x24, 0xe0, 0x3f, 0xb8, 0xd8, 0x4a, 0x37,
];

/// The bits of the receiver's half.
const BITS: [bool; 3] = [false, false, true];

// Both files of a key's halves.
fn files(alloc: Global, key: &[u8; 32], count: u32) -> Result<(Items<u8>, Items<u8>), NoMemory>
    requires { count ≤ most_transfers }
{
    let (sender, receiver) = deal(alloc, key, count)?;
    Ok((
        write_sender_half(alloc, &sender)?,
        write_receiver_half(alloc, &receiver)?,
    ))
}

// The bytes, with another one at a place.
fn altered(alloc: Global, bytes: &[u8], at: usize, byte: u8) -> Result<Vec<u8>, NoMemory> {
    let mut other = Vec::from_slice(alloc, bytes)?;
    if at < other.len() {
        other[at] = byte;
    }
    Ok(other)
}

// The bytes and a zero more.
fn with_one_more(alloc: Global, bytes: &[u8]) -> Result<Vec<u8>, NoMemory> {
    let mut other = Vec::from_slice(alloc, bytes)?;
    other.push(0)?;
    Ok(other)
}

// The fault of a sender's file.
fn sender_fault_of(alloc: Global, bytes: &[u8]) -> Option<(HalfRule, u64)> {
    match read_sender_half(alloc, bytes) {
        Err(HalfFault::Form { rule, offset }) => Some((rule, offset)),
        _ => None,
    }
}

// The fault of a receiver's file.
fn receiver_fault_of(alloc: Global, bytes: &[u8]) -> Option<(HalfRule, u64)> {
    match read_receiver_half(alloc, bytes) {
        Err(HalfFault::Form { rule, offset }) => Some((rule, offset)),
        _ => None,
    }
}

fn sizes_and_bytes(alloc: Global, tally: &mut Tally) -> Result<(), HalfFault> {
    for (count, first, second) in [(0u32, 57usize, 25usize), (3, 153, 74), (32, 1081, 541)] {
        if count <= 32 {
            let (sender, receiver) = files(alloc, &KEY, count)?;
            tally.row(sender.len() == first);
            tally.row(receiver.len() == second);
        }
    }
    let (sender, receiver) = files(alloc, &KEY, 3)?;
    tally.row(sender.as_slice() == SENDER.as_slice());
    tally.row(receiver.as_slice() == RECEIVER.as_slice());
    let (none, _) = deal(alloc, &[0; 32], 0)?;
    tally.row(none.tag.as_slice() == &ZEROS[..16]);
    tally.row(none.coin_key.as_slice() == &ZEROS[16..]);
    Ok(())
}

fn faults_of_a_sender_half(alloc: Global, tally: &mut Tally) -> Result<(), HalfFault> {
    let (sender, receiver) = files(alloc, &KEY, 32)?;
    let whole = sender.as_slice();
    tally.row(sender_fault_of(alloc, whole).is_none());
    tally.row(sender_fault_of(alloc, receiver.as_slice()) == Some((HalfRule::H1, 0)));
    for end in [0usize, 3, 4, 5, 21, 56, 57, 1_080] {
        if end <= whole.len() {
            tally.row(sender_fault_of(alloc, &whole[..end]) == Some((HalfRule::H3, end as u64)));
        }
    }
    // Which byte is altered, to what, and the fault.
    let rows: [(usize, u8, HalfRule, u64); 6] = [
        (0, b'o', HalfRule::H1, 0),
        (3, b'E', HalfRule::H1, 0),
        (4, 0, HalfRule::H2, 4),
        (4, 2, HalfRule::H2, 4),
        // 2,097,152 + 32 transfers, and 33.
        (54, 0x20, HalfRule::H3, 53),
        (56, 33, HalfRule::H3, 1_081),
    ];
    for (at, byte, rule, offset) in rows {
        let other = altered(alloc, whole, at, byte)?;
        tally.row(sender_fault_of(alloc, other.as_slice()) == Some((rule, offset)));
    }
    // 31 transfers, and then a transfer too much.
    let fewer = altered(alloc, whole, 56, 31)?;
    tally.row(sender_fault_of(alloc, fewer.as_slice()) == Some((HalfRule::H3, 1_049)));
    let longer = with_one_more(alloc, whole)?;
    tally.row(sender_fault_of(alloc, longer.as_slice()) == Some((HalfRule::H3, 1_081)));
    Ok(())
}

fn faults_of_a_receiver_half(alloc: Global, tally: &mut Tally) -> Result<(), HalfFault> {
    let whole = RECEIVER.as_slice();
    tally.row(receiver_fault_of(alloc, whole).is_none());
    tally.row(receiver_fault_of(alloc, SENDER.as_slice()) == Some((HalfRule::H1, 0)));
    for end in [0usize, 4, 24, 25, 26, 73] {
        tally.row(receiver_fault_of(alloc, &whole[..end]) == Some((HalfRule::H3, end as u64)));
    }
    let rows: [(usize, u8, HalfRule, u64); 5] = [
        (4, 3, HalfRule::H2, 4),
        // 1,048,579 transfers, and 4.
        (22, 0x10, HalfRule::H3, 21),
        (24, 4, HalfRule::H3, 74),
        // A bit behind the third one.
        (25, 0x08, HalfRule::H4, 25),
        (25, 0x80, HalfRule::H4, 25),
    ];
    for (at, byte, rule, offset) in rows {
        let other = altered(alloc, whole, at, byte)?;
        tally.row(receiver_fault_of(alloc, other.as_slice()) == Some((rule, offset)));
    }
    let longer = with_one_more(alloc, whole)?;
    tally.row(receiver_fault_of(alloc, longer.as_slice()) == Some((HalfRule::H3, 74)));
    Ok(())
}

// Whether each transfer of both choices opens to the chosen message.
fn open_all(tally: &mut Tally, sender: &SenderHalf, receiver: &ReceiverHalf) {
    for i in 0..3u32 {
        let at = i as usize;
        if at < sender.pads.len() && at < receiver.pads.len() && at < receiver.bits.len() {
            for (choice, message) in [(false, 1_000), (true, 2_000)] {
                let d = choice_bit(receiver, i, choice);
                let (e0, e1) = mask_pair(sender, i, d, 1_000, 2_000);
                tally.row(open_pair(receiver, i, choice, e0, e1) == message);
            }
        }
    }
}

fn transfers(alloc: Global, tally: &mut Tally) -> Result<(), HalfFault> {
    let sender = read_sender_half(alloc, &SENDER)?;
    let receiver = read_receiver_half(alloc, &RECEIVER)?;
    tally.row(receiver.bits.as_slice() == BITS.as_slice());
    tally.row(sender.pads.len() == 3 && receiver.pads.len() == 3);
    open_all(tally, &sender, &receiver);
    // The last byte of the receiver's file is another.
    let bytes = altered(alloc, &RECEIVER, 73, RECEIVER[73] ^ 1)?;
    let other = read_receiver_half(alloc, bytes.as_slice())?;
    let count = sender.pads.len();
    if sender.tag == receiver.tag && count == receiver.pads.len() {
        tally.row(first_unmatched(&sender, &receiver).is_none());
    }
    if sender.tag == other.tag && count == other.pads.len() {
        tally.row(first_unmatched(&sender, &other) == Some(2));
    }
    Ok(())
}

fn coin_labels(tally: &mut Tally) {
    let mut labels = CoinLabels::new(&[0; 32], 0);
    for (i, field) in ZEROS.chunks(16).enumerate() {
        tally.row(labels.draw().to_le_bytes().as_slice() == field);
        let label = coin_label(&[0; 32], i as u64);
        tally.row(label.to_le_bytes().as_slice() == field);
    }
}

/// All rows of dealt halves.
pub fn compare(alloc: Global, tally: &mut Tally) -> Result<(), HalfFault> {
    sizes_and_bytes(alloc, tally)?;
    faults_of_a_sender_half(alloc, tally)?;
    faults_of_a_receiver_half(alloc, tally)?;
    transfers(alloc, tally)?;
    coin_labels(tally);
    Ok(())
}
