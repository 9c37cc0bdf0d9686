//! Boxes of bytes, which go out in the order in which they came in.

ghost use Rattle.std.specs.Prelude.{◌≡◌, ◌+◌, ◌<◌, ◌≤◌, ◌^◌, ◌++◌, [], length, drop, IfOk};
ghost use Rattle.arrayvec.specs.ArrayVec.{array_vec_len};

use arrayvec::ArrayVec;
use oc_values::NoMemory;
use std::alloc::Global;
use std::marker::Model;

/// How many bytes an inbox holds at most, and an outbox.
pub const MOST_FRAME_BYTES: usize = 327_680;

/// How many bytes a box of prints holds at most.
pub const MOST_PRINT_BYTES: usize = 16_384;

/// At most `MOST` bytes, which contracts see as their list.
#[derive(Drop)]
pub struct ByteBox<const MOST: usize> {
    bytes: Box<ArrayVec<u8, MOST>>,
    start: usize,
}

/// Bytes that came and weren't taken yet.
pub type Inbox = ByteBox<MOST_FRAME_BYTES>;

/// Bytes that were written and weren't sent yet.
pub type Outbox = ByteBox<MOST_FRAME_BYTES>;

/// Bytes that were printed and weren't shown yet.
pub type PrintBox = ByteBox<MOST_PRINT_BYTES>;

impl<const MOST: usize> Model for ByteBox<MOST> {
    ghost use Rattle.std.specs.Prelude.{List, ℕ, ◌≤◌, ◌<◌, ◌^◌, drop, length};

    ghost Value = { List ℕ };

    ghost view = { λ s. drop s.start s.bytes.value.items };

    ghost invariant = { λ s. (s.start ≤ length s.bytes.value.items) × (MOST < 2 ^ 32) };
}

// Lets go of the first `count` bytes, and moves the others to the front.
fn remove_front<const MOST: usize>(bytes: &mut ArrayVec<u8, MOST>, count: usize)
    requires { count ≤ array_vec_len bytes.old }
    ensures { bytes.new.items ≡ drop count bytes.old.items }
{
    let kept = bytes.len() - count;
    bytes.as_mut_slice().copy_within(count.., 0);
    bytes.truncate(kept);
}

// Appends bytes.
fn append<const MOST: usize>(bytes: &mut ArrayVec<u8, MOST>, piece: &[u8])
    requires { array_vec_len bytes.old + length piece.now ≤ MOST }
    ensures { bytes.new.items ≡ bytes.old.items ++ piece.now }
{
    let _ = bytes.try_extend_from_slice(piece);
}

impl<const MOST: usize> ByteBox<MOST> {
    /// An empty box, which takes its memory once.
    pub fn new(alloc: Global) -> Result<Self, NoMemory>
        requires { MOST < 2 ^ 32 }
        ensures { IfOk result (λ empty. empty ≡ []) }
    {
        Ok(ByteBox {
            bytes: Box::new(alloc, ArrayVec::new())?,
            start: 0,
        })
    }

    /// The bytes, in the order in which they came.
    pub fn held(&self) -> &[u8]
        ensures value { result.now ≡ self.now }
        ensures fits { length result.now ≤ MOST }
    {
        &self.bytes.as_slice()[self.start..]
    }

    /// How many bytes more there is room for.
    pub fn room(&self) -> u32
        ensures { result + length self.now ≡ MOST }
    {
        (MOST - (self.bytes.len() - self.start)) as u32
    }

    /// Appends bytes, which have room.
    pub fn put(&mut self, piece: &[u8])
        requires { length self.old + length piece.now ≤ MOST }
        ensures { self.new ≡ self.old ++ piece.now }
    {
        if self.bytes.remaining_capacity() < piece.len() {
            remove_front(&mut self.bytes, self.start);
            self.start = 0;
            append(&mut self.bytes, piece);
        } else {
            append(&mut self.bytes, piece);
        }
    }

    /// Lets go of the first `n` bytes. It moves none of the others.
    pub fn drop_front(&mut self, n: u32)
        requires { n ≤ length self.old }
        ensures { self.new ≡ drop n self.old }
    {
        let end = self.bytes.len();
        self.start += n as usize;
        if self.start == end {
            self.bytes.clear();
            self.start = 0;
        }
    }
}
