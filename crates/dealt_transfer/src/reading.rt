//! Reading the files of the halves.

ghost use Rattle.std.specs.Prelude.{◌≡◌, ◌+◌, ◌*◌, ◌≤◌, ℕ, Some, length, take, drop, IfOk};
ghost use Rattle.std.specs.List.{AllByRecursion, flat_map};
ghost use Rattle.dealt_transfer.specs.declared.half.SenderHalf.{SenderHalf as Sender};
ghost use Rattle.dealt_transfer.specs.declared.fault.HalfRule.{HalfRule as Rule};
ghost use Rattle.dealt_transfer.specs.Halves.{IsLabel, IsPair, Receiver, receiver};
ghost use Rattle.oc_values.specs.Packing.{byte_count as bytes_for, unpack};
ghost use Rattle.dealt_transfer.specs.Files.{Half1, Half2, label_bytes, pair_bytes};
ghost use Rattle.dealt_transfer.specs.Faults.{receiver_fault as fault_of_receiver, sender_fault as fault_of_sender};
ghost use Rattle.dealt_transfer.specs.Reading.{Gives, ReadsReceiver, ReadsSender, Refuses};

use crate::fault::HalfFault;
use crate::form::{
    RECEIVER_COUNT_OFFSET, SENDER_COUNT_OFFSET, count_at, receiver_fault, sender_fault,
};
use crate::half::{ReceiverHalf, SenderHalf};
use byteorder::{ByteOrder, LittleEndian};
use half_gates::Label;
use oc_values::packing::{byte_count, unpack_bits};
use oc_values::{Items, NoMemory};
use std::alloc::Global;

/// Sixteen bytes from a place on.
fn sixteen_at(bytes: &[u8], at: usize) -> [u8; 16]
    requires { at + 16 ≤ length bytes.now }
    ensures { result ≡ take 16 (drop at bytes.now) }
{
    let mut field = [0; 16];
    field.copy_from_slice(&bytes[at..at + 16]);
    field
}

/// Thirty-two bytes from a place on.
fn thirty_two_at(bytes: &[u8], at: usize) -> [u8; 32]
    requires { at + 32 ≤ length bytes.now }
    ensures { result ≡ take 32 (drop at bytes.now) }
{
    let mut field = [0; 32];
    field.copy_from_slice(&bytes[at..at + 32]);
    field
}

/// The label that stands at a place.
fn label_at(bytes: &[u8], at: usize) -> Label
    requires { at + 16 ≤ length bytes.now }
    ensures bytes { label_bytes result ≡ take 16 (drop at bytes.now) }
    ensures label { IsLabel result }
{
    LittleEndian::read_u128(&bytes[at..])
}

/// The pairs of pads that stand from a place to the end.
fn read_pairs(
    alloc: Global,
    bytes: &[u8],
    at: usize,
    count: usize,
) -> Result<Items<(Label, Label)>, NoMemory>
    requires { length bytes.now ≡ at + 32 * count }
    ensures bytes { IfOk result (λ pairs. flat_map pair_bytes pairs ≡ drop at bytes.now) }
    ensures count { IfOk result (λ pairs. length pairs ≡ count) }
    ensures pads { IfOk result (λ pairs. AllByRecursion IsPair pairs) }
{
    let mut pairs = Vec::with_capacity(alloc, count)?;
    for i in 0..count {
        let first = at + 32 * i;
        pairs.push((label_at(bytes, first), label_at(bytes, first + 16)))?;
    }
    Ok(Items::from_vec(pairs))
}

/// The labels that stand from a place to the end.
fn read_labels(
    alloc: Global,
    bytes: &[u8],
    at: usize,
    count: usize,
) -> Result<Items<Label>, NoMemory>
    requires { length bytes.now ≡ at + 16 * count }
    ensures bytes { IfOk result (λ labels. flat_map label_bytes labels ≡ drop at bytes.now) }
    ensures count { IfOk result (λ labels. length labels ≡ count) }
    ensures pads { IfOk result (λ labels. AllByRecursion IsLabel labels) }
{
    let mut labels = Vec::with_capacity(alloc, count)?;
    for i in 0..count {
        labels.push(label_at(bytes, at + 16 * i))?;
    }
    Ok(Items::from_vec(labels))
}

/// So many bits, which stand from a place on.
fn read_bits(alloc: Global, bytes: &[u8], at: usize, count: usize) -> Result<Items<bool>, NoMemory>
    requires { at + bytes_for count ≤ length bytes.now }
    ensures { IfOk result (λ bits. bits ≡ unpack count (drop at bytes.now)) }
{
    unpack_bits(alloc, &bytes[at..], count)
}

/// The sender's half that a file has, or the first fault of the file's form.
pub fn read_sender_half(alloc: Global, bytes: &[u8]) -> Result<SenderHalf, HalfFault>
    ensures reads { ReadsSender bytes.now result }
    ensures again { (half : Sender) → Half1 bytes.now half → Gives (λ read. read) half result }
    ensures refuses { (rule : Rule) (offset : ℕ) → fault_of_sender bytes.now ≡ Some (rule, offset) → Refuses rule offset result }
{
    if let Some((rule, offset)) = sender_fault(bytes) {
        return Err(HalfFault::Form { rule, offset });
    }
    let count = count_at(bytes, SENDER_COUNT_OFFSET) as usize;
    Ok(SenderHalf {
        tag: sixteen_at(bytes, 5),
        coin_key: thirty_two_at(bytes, 21),
        pads: read_pairs(alloc, bytes, 57, count)?,
    })
}

/// The receiver's half that a file has, or the first fault of the file's form.
pub fn read_receiver_half(alloc: Global, bytes: &[u8]) -> Result<ReceiverHalf, HalfFault>
    ensures reads { ReadsReceiver bytes.now result }
    ensures again { (half : Receiver) → Half2 bytes.now half → Gives receiver half result }
    ensures refuses { (rule : Rule) (offset : ℕ) → fault_of_receiver bytes.now ≡ Some (rule, offset) → Refuses rule offset result }
{
    if let Some((rule, offset)) = receiver_fault(bytes) {
        return Err(HalfFault::Form { rule, offset });
    }
    let count = count_at(bytes, RECEIVER_COUNT_OFFSET) as usize;
    let bits = read_bits(alloc, bytes, 25, count)?;
    let pads = read_labels(alloc, bytes, 25 + byte_count(count), count)?;
    Ok(ReceiverHalf {
        tag: sixteen_at(bytes, 5),
        bits,
        pads,
    })
}
