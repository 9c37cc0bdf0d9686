//! Bits in bytes, as files, frames and digests have them: eight to a byte, the low bit first, the rest of the last
//! byte 0.

ghost use Rattle.std.specs.Prelude.{◌≡◌, ◌++◌, ◌/◌, ◌<◌, ◌≤◌, Bool, false, List, length, take, IfOk, OnOk};
ghost use Rattle.oc_values.specs.Packing.{bit_in, byte_count as bytes_for, number_of_bits, pack, padding_set, unpack};

use crate::lists::{Items, NoMemory};
use std::alloc::Global;

/// How many bytes so many bits take.
pub fn byte_count(bits: usize) -> usize
    ensures { result ≡ bytes_for bits }
{
    bits.div_ceil(8)
}

/// The byte of at most eight bits.
pub fn pack_byte(bits: &[bool]) -> u8
    requires { length bits.now ≤ 8 }
    ensures { result ≡ number_of_bits bits.now }
{
    let mut byte = 0;
    for (i, bit) in bits.iter().enumerate() {
        if *bit {
            byte += 1 << i;
        }
    }
    byte
}

/// Appends the bytes of bits.
pub fn pack_bits(out: &mut Vec<u8>, bits: &[bool]) -> Result<(), NoMemory>
    ensures { OnOk result (out.new.items ≡ out.old.items ++ pack bits.now) }
{
    let mut rest = bits;
    while rest.len() > 8 {
        let (front, others) = rest.split_at(8);
        out.push(pack_byte(front))?;
        rest = others;
    }
    if !rest.is_empty() {
        out.push(pack_byte(rest))?;
    }
    Ok(())
}

/// A bit of the bytes, by its place among all their bits.
pub fn bit_at(bytes: &[u8], i: usize) -> bool
    requires { i / 8 < length bytes.now }
    ensures { result ≡ bit_in bytes.now i }
{
    (bytes[i / 8] >> (i % 8)) % 2 == 1
}

/// So many bits of the bytes.
pub fn unpack_bits(alloc: Global, bytes: &[u8], count: usize) -> Result<Items<bool>, NoMemory>
    requires { bytes_for count ≤ length bytes.now }
    ensures { IfOk result (λ bits. bits ≡ unpack count bytes.now) }
{
    let mut bits = Vec::with_capacity(alloc, count)?;
    for i in 0..count {
        bits.push(bit_at(bytes, i))?;
    }
    Ok(Items::from_vec(bits))
}

// The test itself.
fn is_padded(bytes: &[u8], count: usize) -> bool
    requires { bytes_for count ≤ length bytes.now }
    ensures { result ≡ padding_set count bytes.now }
{
    let used = count % 8;
    used != 0 && bytes[byte_count(count) - 1] >= 1 << used
}

/// Whether the last byte of so many bits has a bit besides them that is 1. Bytes that have none are those of the bits
/// that they unpack to, and bits are what their bytes unpack to.
pub fn has_padding(bytes: &[u8], count: usize) -> bool
    requires { bytes_for count ≤ length bytes.now }
    ensures test { result ≡ padding_set count bytes.now }
    ensures packs { result ≡ false → pack (unpack count bytes.now) ≡ take (bytes_for count) bytes.now }
    ensures unpacks { (bits : List Bool) → length bits ≡ count → take (bytes_for count) bytes.now ≡ pack bits
        → (result ≡ false) × (unpack count bytes.now ≡ bits) }
{
    is_padded(bytes, count)
}
