//! Writing the files of the halves.

ghost use Rattle.std.specs.Prelude.{◌≡◌, ◌≤◌, ◌++◌, length, IfOk, OnOk};
ghost use Rattle.std.specs.List.{AllByRecursion, flat_map};
ghost use Rattle.dealt_transfer.specs.Halves.{IsLabel, IsPair, most_transfers, receiver};
ghost use Rattle.dealt_transfer.specs.Files.{Half1, Half2, label_bytes, number_bytes, pair_bytes};

use crate::half::{ReceiverHalf, SenderHalf};
use byteorder::{BigEndian, ByteOrder, LittleEndian};
use half_gates::Label;
use oc_values::packing::{byte_count, pack_bits};
use oc_values::{Items, NoMemory};
use std::alloc::Global;

/// The bytes of a label, the lowest first.
#[tactic(auto, unfolding(crate::specs::Files::label_bytes))]
pub fn label_field(label: Label) -> [u8; 16]
    ensures bytes { result ≡ label_bytes label }
    ensures label { IsLabel label }
{
    let mut field = [0; 16];
    LittleEndian::write_u128(&mut field, label);
    field
}

/// The bytes of a number, the highest first.
fn number_field(number: u32) -> [u8; 4]
    ensures { result ≡ number_bytes number }
{
    let mut field = [0; 4];
    BigEndian::write_u32(&mut field, number);
    field
}

/// Appends a tag.
fn put_tag(out: &mut Vec<u8>, tag: &[u8; 16]) -> Result<(), NoMemory>
    ensures size { length tag.now ≡ 16 }
    ensures ok { OnOk result (out.new.items ≡ out.old.items ++ tag.now) }
{
    Ok(out.extend_from_slice(tag)?)
}

/// Appends a coin key.
fn put_key(out: &mut Vec<u8>, key: &[u8; 32]) -> Result<(), NoMemory>
    ensures size { length key.now ≡ 32 }
    ensures ok { OnOk result (out.new.items ≡ out.old.items ++ key.now) }
{
    Ok(out.extend_from_slice(key)?)
}

/// Appends the bytes of pairs of pads.
fn put_pairs(out: &mut Vec<u8>, pairs: &[(Label, Label)]) -> Result<(), NoMemory>
    ensures pads { OnOk result (AllByRecursion IsPair pairs.now) }
    ensures ok { OnOk result (out.new.items ≡ out.old.items ++ flat_map pair_bytes pairs.now) }
{
    for (first, second) in pairs {
        out.extend_from_slice(&label_field(*first))?;
        out.extend_from_slice(&label_field(*second))?;
    }
    Ok(())
}

/// Appends the bytes of labels.
fn put_labels(out: &mut Vec<u8>, labels: &[Label]) -> Result<(), NoMemory>
    ensures pads { OnOk result (AllByRecursion IsLabel labels.now) }
    ensures ok { OnOk result (out.new.items ≡ out.old.items ++ flat_map label_bytes labels.now) }
{
    for label in labels {
        out.extend_from_slice(&label_field(*label))?;
    }
    Ok(())
}

/// The file of a sender's half.
pub fn write_sender_half(alloc: Global, half: &SenderHalf) -> Result<Items<u8>, NoMemory>
    requires { length half.now.pads ≤ most_transfers }
    ensures { IfOk result (λ bytes. Half1 bytes half.now) }
{
    let count = half.pads.len();
    let mut out = Vec::with_capacity(alloc, 57 + 32 * count)?;
    out.extend_from_slice(b"OCHG\x01")?;
    put_tag(&mut out, &half.tag)?;
    put_key(&mut out, &half.coin_key)?;
    out.extend_from_slice(&number_field(count as u32))?;
    put_pairs(&mut out, half.pads.as_slice())?;
    Ok(Items::from_vec(out))
}

/// The file of a receiver's half.
pub fn write_receiver_half(alloc: Global, half: &ReceiverHalf) -> Result<Items<u8>, NoMemory>
    requires { length half.now.pads ≤ most_transfers }
    ensures { IfOk result (λ bytes. Half2 bytes (receiver half.now)) }
{
    let count = half.pads.len();
    let mut out = Vec::with_capacity(alloc, 25 + byte_count(count) + 16 * count)?;
    out.extend_from_slice(b"OCHE\x01")?;
    put_tag(&mut out, &half.tag)?;
    out.extend_from_slice(&number_field(count as u32))?;
    pack_bits(&mut out, half.bits.as_slice())?;
    put_labels(&mut out, half.pads.as_slice())?;
    Ok(Items::from_vec(out))
}
