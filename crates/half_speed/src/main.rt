//! A benchmark: hashes labels, garbles and evaluates gates, and deals, writes and reads halves, as often as its
//! words say. `bench/gates.py` times it.
#![tactic(auto)]

ghost use Rattle.std.specs.Prelude.{◌≤◌};
ghost use Rattle.dealt_transfer.specs.Halves.{most_transfers};

use dealt_transfer::{
    HalfFault, MOST_TRANSFERS, deal, read_receiver_half, read_sender_half, write_receiver_half,
    write_sender_half,
};
use half_gates::{Label, eval_and, garble_and, hash_label};
use oc_values::Items;
use sha2::{Digest, Sha256};
use std::alloc::Global;
use std::{env, io};

/// What labels for the bit 1 differ by.
const DELTA: Label = 0x0123_4567_89ab_cdef_0123_4567_89ab_cdef;

/// Each hash is the next one's label.
fn hash(count: u32) -> Label {
    let mut label = 12_345;
    for i in 0..count {
        label = hash_label(label, u64::from(i));
    }
    label
}

/// One block of SHA-256 by the library alone, over 24 bytes of which 16 are from the digest before.
fn digest(count: u32) -> Label {
    let mut block = [0u8; 24];
    for _ in 0..count {
        let found = Sha256::digest(&block);
        block[..16].copy_from_slice(&found[..16]);
    }
    Label::from(block[0])
}

/// Garbles gates, each from the labels of the one before.
fn garble(count: u32) -> Label {
    let mut a = 99;
    let mut b = 12_345;
    for i in 0..count {
        let (tg, te, zero) = garble_and(DELTA, a, b, u64::from(i));
        a = zero;
        b ^= tg ^ te;
    }
    a ^ b
}

/// Evaluates gates, each from the labels of the one before.
fn evaluate(count: u32) -> Label {
    let mut a = 99;
    let mut b = 12_345;
    for i in 0..count {
        let label = eval_and(a, b, DELTA, 77, u64::from(i));
        b = a;
        a = label;
    }
    a ^ b
}

/// Deals, and goes on to write both halves, and to read them again.
fn halves(alloc: Global, count: u32, written: bool, read: bool) -> Result<usize, HalfFault>
    requires { count ≤ most_transfers }
{
    let (sender, receiver) = deal(alloc, &[7; 32], count)?;
    if !written {
        return Ok(sender.pads.len());
    }
    let first = write_sender_half(alloc, &sender)?;
    let second = write_receiver_half(alloc, &receiver)?;
    if !read {
        return Ok(first.len());
    }
    let sender_again = read_sender_half(alloc, first.as_slice())?;
    let receiver_again = read_receiver_half(alloc, second.as_slice())?;
    Ok(sender_again.pads.len().min(receiver_again.pads.len()))
}

/// The file of the sender's half, which alone is left.
fn sender_file(alloc: Global, count: u32) -> Result<Items<u8>, HalfFault>
    requires { count ≤ most_transfers }
{
    let (sender, _) = deal(alloc, &[7; 32], count)?;
    Ok(write_sender_half(alloc, &sender)?)
}

/// Deals, goes on with the sender's half alone to write it, and with its file alone to read it again.
fn sender_half(alloc: Global, count: u32, read: bool) -> Result<usize, HalfFault>
    requires { count ≤ most_transfers }
{
    let file = sender_file(alloc, count)?;
    if !read {
        return Ok(file.len());
    }
    Ok(read_sender_half(alloc, file.as_slice())?.pads.len())
}

/// What the words ask for, or none where they ask for nothing.
fn work(alloc: Global, what: &str, count: u32) -> Option<u128> {
    match what {
        "hash" => Some(hash(count)),
        "digest" => Some(digest(count)),
        "garble" => Some(garble(count)),
        "evaluate" => Some(evaluate(count)),
        "deal" | "write" | "read" if count <= MOST_TRANSFERS => {
            halves(alloc, count, what != "deal", what == "read")
                .ok()
                .map(|n| n as u128)
        }
        "write_sender" | "read_sender" if count <= MOST_TRANSFERS => {
            sender_half(alloc, count, what == "read_sender")
                .ok()
                .map(|n| n as u128)
        }
        _ => None,
    }
}

fn main(rt: HostRuntime) -> io::Result<()> {
    let alloc = rt.alloc();
    let mut words = env::args(&rt)?;
    words.next();
    if let (Some(what), Some(number)) = (words.next(), words.next())
        && let Ok(count) = number.as_str().parse::<u32>()
        && let Some(found) = work(alloc, what.as_str(), count)
    {
        println!(rt; "{found}")?;
        return Ok(());
    }
    println!(rt;
        "half_speed hash|digest|garble|evaluate|deal|write|read|write_sender|read_sender NUMBER"
    )?;
    Ok(())
}
