//! The form of a half's file: its fields, and the first fault.

ghost use Rattle.std.specs.Prelude.{◌≡◌, ◌+◌, ◌<◌, ◌≤◌, ◌^◌, length};
ghost use Rattle.dealt_transfer.specs.Faults.{bits_checks, count_at as count_there, first_found, opening_checks, receiver_fault as fault_of_receiver, sender_fault as fault_of_sender, size_checks};

use crate::fault::HalfRule;
use crate::half::MOST_TRANSFERS;
use byteorder::{BigEndian, ByteOrder};
use oc_values::packing::{byte_count, has_padding};

/// A form fault: its rule and the byte at which it is.
pub type Fault = (HalfRule, u64);

/// Where the number of transfers stands in a sender's file.
pub const SENDER_COUNT_OFFSET: usize = 53;

/// Where it stands in a receiver's.
pub const RECEIVER_COUNT_OFFSET: usize = 21;

/// The number that stands at a place, in four bytes, the highest first.
pub fn count_at(bytes: &[u8], at: usize) -> u32
    requires { at + 4 ≤ length bytes.now }
    ensures { result ≡ count_there at bytes.now }
{
    BigEndian::read_u32(&bytes[at..])
}

/// The first fault of the fields up to the number, which stands at a place: the magic, the version 1, and the number,
/// which is at most 1,048,576.
pub fn opening_fault(bytes: &[u8], magic: &[u8], at: usize) -> Option<Fault>
    requires { at < 2 ^ 32 }
    ensures { result ≡ first_found (opening_checks magic.now at bytes.now) }
{
    let end = bytes.len() as u64;
    if bytes.len() < 4 {
        return Some((HalfRule::H3, end));
    }
    if &bytes[..4] != magic {
        return Some((HalfRule::H1, 0));
    }
    if bytes.len() < 5 {
        return Some((HalfRule::H3, end));
    }
    if bytes[4] != 1 {
        return Some((HalfRule::H2, 4));
    }
    if bytes.len() < at + 4 {
        return Some((HalfRule::H3, end));
    }
    if count_at(bytes, at) > MOST_TRANSFERS {
        return Some((HalfRule::H3, at as u64));
    }
    None
}

/// The fault of a file that isn't of this size.
pub fn size_fault(bytes: &[u8], size: usize) -> Option<Fault>
    ensures { result ≡ first_found (size_checks size bytes.now) }
{
    if bytes.len() < size {
        return Some((HalfRule::H3, bytes.len() as u64));
    }
    if bytes.len() > size {
        return Some((HalfRule::H3, size as u64));
    }
    None
}

/// The fault of a file whose bits, so many, stand from a place on: its end before theirs, or a bit behind the last.
pub fn bits_fault(bytes: &[u8], bits: usize, at: usize) -> Option<Fault>
    requires few { bits < 2 ^ 32 }
    requires near { at < 2 ^ 32 }
    ensures { result ≡ first_found (bits_checks bits at bytes.now) }
{
    let size = byte_count(bits);
    if bytes.len() < at + size {
        return Some((HalfRule::H3, bytes.len() as u64));
    }
    if has_padding(&bytes[at..], bits) {
        return Some((HalfRule::H4, (at + size - 1) as u64));
    }
    None
}

/// The form fault of a sender's file.
pub fn sender_fault(bytes: &[u8]) -> Option<Fault>
    ensures { result ≡ fault_of_sender bytes.now }
{
    if let Some(fault) = opening_fault(bytes, b"OCHG", SENDER_COUNT_OFFSET) {
        return Some(fault);
    }
    let count = count_at(bytes, SENDER_COUNT_OFFSET) as usize;
    size_fault(bytes, 57 + 32 * count)
}

/// The form fault of a receiver's file.
pub fn receiver_fault(bytes: &[u8]) -> Option<Fault>
    ensures { result ≡ fault_of_receiver bytes.now }
{
    if let Some(fault) = opening_fault(bytes, b"OCHE", RECEIVER_COUNT_OFFSET) {
        return Some(fault);
    }
    let count = count_at(bytes, RECEIVER_COUNT_OFFSET) as usize;
    if let Some(fault) = bits_fault(bytes, count, 25) {
        return Some(fault);
    }
    size_fault(bytes, 25 + byte_count(count) + 16 * count)
}
